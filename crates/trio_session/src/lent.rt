//! Bytes written into lent things.

ghost use Rattle.std.specs.Prelude.{◌≡◌, ◌+◌, ◌≤◌, ◌<◌, length};
ghost use Rattle.trio_page.specs.Field.{with_part};
ghost use Rattle.trio_lease.specs.Shown.{lent_at, with_page, with_touched};

use trio_lease::{FreshPage, WriteLease};
use trio_page::field::put_bytes_in;

/// Writes bytes into index page `at` of the lease.
pub(crate) fn put_in_index(lease: &mut WriteLease, at: usize, offset: usize, bytes: &[u8])
    requires page { at < length lease.old.stands.index }
    requires within { offset + length bytes.now ≤ 4096 }
    ensures { lease.new ≡ record lease.old {
      stands = record lease.old.stands {
        index = with_page lease.old.stands.index at (with_part offset bytes.now (lent_at lease.old.stands.index at).page);
      };
    } }
{
    let page = lease.index_mut(at).unwrap();
    put_bytes_in(page.bytes_mut(), offset, bytes);
}

/// Writes bytes into block `at` of the lease, which is marked as touched.
pub(crate) fn put_in_block(lease: &mut WriteLease, at: usize, offset: usize, bytes: &[u8])
    requires page { at < length lease.old.stands.blocks }
    requires within { offset + length bytes.now ≤ 4096 }
    ensures { lease.new ≡ record lease.old {
      stands = record lease.old.stands {
        blocks = with_touched lease.old.stands.blocks at (with_part offset bytes.now (lent_at lease.old.stands.blocks at).page);
      };
    } }
{
    let page = lease.block_mut(at).unwrap();
    put_bytes_in(page.bytes_mut(), offset, bytes);
}

/// Writes bytes into an allotted page.
pub(crate) fn put_in_fresh(page: &mut FreshPage, offset: usize, bytes: &[u8])
    requires { offset + length bytes.now ≤ 4096 }
    ensures { page.new ≡ record page.old { page = with_part offset bytes.now page.old.page } }
{
    put_bytes_in(page.page_mut().bytes_mut(), offset, bytes);
}

/// Writes the body of the file.
pub(crate) fn put_lent_body(lease: &mut WriteLease, body: &[u8; 64])
    ensures { lease.new ≡ record lease.old { stands = record lease.old.stands { body = body.now } } }
{
    *lease.body_mut() = *body;
}
