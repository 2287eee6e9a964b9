//! Bodies of files, as they are settled.

ghost use Rattle.std.specs.Prelude.{◌≡◌, ◌≢◌, ◌≤◌, ◌==◌, if◌then◌else◌, Some};
ghost use Rattle.trio_tables.specs.Row.{as_row};
ghost use Rattle.trio_ctl.specs.inner.Lending.{StandsSomewhere, body_standing};

use trio_commit::Store;
use trio_open::body::body_on;
use trio_page::{PageNo, Reads};
use trio_tables::Row;

/// The settled body of a live file that has this row.
pub(crate) fn settled_body(store: &mut Store, ino: u32, row: &Row) -> [u8; 64]
    requires { ino ≢ 1 → StandsSomewhere store.old (as_row row.now) }
    ensures body { result ≡ (if ino == 1 then store.old.root else body_standing store.old (as_row row.now)) }
    ensures pages { store.new.home.pages ≡ store.old.home.pages }
    ensures floor { store.old.home.looked ≤ store.new.home.looked }
    ensures rest { store.new ≡ record store.old { home = store.new.home } }
{
    if ino == 1 {
        return store.root;
    }
    standing_body(store, row)
}

/// The body at the place of a row, as it is settled.
fn standing_body(store: &mut Store, row: &Row) -> [u8; 64]
    requires { StandsSomewhere store.old (as_row row.now) }
    ensures body { result ≡ body_standing store.old (as_row row.now) }
    ensures pages { store.new.home.pages ≡ store.old.home.pages }
    ensures floor { store.old.home.looked ≤ store.new.home.looked }
    ensures rest { store.new ≡ record store.old { home = store.new.home } }
{
    let no = PageNo(row.page);
    if let Some(Some(checkpoint)) = store.checkpoints.get(row.parent as usize) {
        return *checkpoint.body_at(no, row.slot).unwrap();
    }
    let Some(page) = store.home.page(no, &mut Reads::new()) else {
        unreachable!()
    };
    body_on(page, row.slot)
}
