//! How many things a bundle has.

ghost use Rattle.std.specs.Prelude.{◌≡◌, ◌≤◌, ◌+◌, length};
ghost use Rattle.trio_rights.specs.Bundle.{bundle_pages};
ghost use Rattle.trio_lease.specs.Views.{bundle_in};

use trio_lease::Bundle;

/// How many pages a bundle has, which are at most all of an image.
pub fn page_count(bundle: &Bundle) -> u64
    requires { length (bundle_pages (bundle_in bundle.now)) ≤ 8192 }
    ensures count { result ≡ length (bundle_pages (bundle_in bundle.now)) }
    ensures few { result ≤ 8192 }
{
    let writes = bundle.writes();
    let mut count = bundle.pages().len();
    for lease in writes {
        count += lease.index_len() + lease.blocks_len();
    }
    count as u64
}

/// How many write leases, holds and inode numbers a bundle has, each at most for all numbers of an image.
pub fn value_count(bundle: &Bundle) -> u64
    requires writes { length bundle.now.writes ≤ 16385 }
    requires holds { length bundle.now.holds ≤ 16385 }
    requires inodes { length bundle.now.inodes ≤ 16385 }
    ensures count { result ≡ length bundle.now.writes + length bundle.now.holds + length bundle.now.inodes }
    ensures few { result ≤ 49155 }
{
    let count = bundle.writes().len() + bundle.holds().len() + bundle.inodes().len();
    count as u64
}
