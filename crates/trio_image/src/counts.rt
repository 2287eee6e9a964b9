//! What an image has in use.

ghost use Rattle.std.specs.Prelude.{◌≡◌};
ghost use Rattle.trio_image.specs.Counts.{counts_in_tables, is_file, owned_count};

use trio_page::PageNo;
use trio_tables::{CONTROLLER, Owners, Shadow};

/// What an image has in use.
#[derive(Clone, Copy, Debug, PartialEq, Eq)]
pub struct Counts {
    /// Live inode numbers, the root's among them.
    pub inodes: u32,
    /// Core pages that files own.
    pub pages: u32,
    /// Core pages that are free.
    pub free: u32,
}

/// The counts of these tables.
pub(crate) fn counts_in(rows: &Shadow, owners: &Owners) -> Counts
    ensures { result ≡ counts_in_tables rows.now owners.now }
{
    Counts {
        inodes: rows.live(),
        pages: owned(owners),
        free: owners.free(),
    }
}

/// How many pages are owned by files.
fn owned(owners: &Owners) -> u32
    ensures { result ≡ owned_count owners.now }
{
    let mut count = 0;
    for no in 0..owners.pages() {
        if is_owned(owners.owner(PageNo(no))) {
            count += 1;
        }
    }
    count
}

/// Whether this owner is a file.
fn is_owned(owner: u32) -> bool
    ensures { result ≡ is_file owner }
{
    owner != 0 && owner != CONTROLLER
}
