//! Bodies, put at their places.

ghost use Rattle.std.specs.Prelude.{◌≡◌, ◌≢◌, ◌≤◌, ◌<◌, ℕ, None, Some, length, slice_index_or};
ghost use Rattle.trio_rights.specs.Row.{Row as TableRow, row_in};
ghost use Rattle.trio_layout.specs.Accept.{with_bodies, with_body_at};
ghost use Rattle.trio_proposal.specs.inner.Steps.{met_by, mets_below};

use crate::picks::body_offset;
use trio_page::field::put_bytes_in;
use trio_page::{Home, PageNo, Reads};
use trio_tables::Shadow;

/// Puts the body that each live number but the root's keeps at the place that its row names.
pub(crate) fn place_bodies(
    home: &mut Home,
    rows: &Shadow,
    kept: &[Option<[u8; 64]>],
    reads: &mut Reads,
)
    requires some { 2 ≤ length rows.now }
    requires slots { (n : ℕ) (r : TableRow) → row_in rows.now n ≡ Some r → n ≢ 1 → r.slot < 16 }
    ensures { home.new.pages ≡ with_bodies (mets_below rows.now kept.now (length rows.now)) home.old.pages }
{
    for ino in 2..rows.inodes() + 1 {
        place_body(home, rows, kept, ino, reads);
    }
}

/// Puts the body of one number, which is not the root's, at its place.
fn place_body(
    home: &mut Home,
    rows: &Shadow,
    kept: &[Option<[u8; 64]>],
    ino: u32,
    reads: &mut Reads,
)
    requires some { 2 ≤ ino }
    requires slots { (n : ℕ) (r : TableRow) → row_in rows.now n ≡ Some r → n ≢ 1 → r.slot < 16 }
    ensures { home.new.pages ≡ with_bodies (met_by ino (row_in rows.now ino) (slice_index_or kept.now ino None)) home.old.pages }
{
    let Some(row) = rows.row(ino) else {
        return;
    };
    if let Some(Some(body)) = kept.get(ino as usize) {
        put_body(home, PageNo(row.page), row.slot, body, reads);
    }
}

/// Puts a body into a slot of a page, where the page is there.
fn put_body(home: &mut Home, page: PageNo, slot: u16, body: &[u8; 64], reads: &mut Reads)
    requires { slot < 16 }
    ensures { home.new.pages ≡ with_body_at page.0 slot body.now home.old.pages }
{
    if let Some(mut taken) = home.take(page, reads) {
        put_bytes_in(taken.bytes_mut(), body_offset(slot), body);
        home.put(page, taken);
    }
}
