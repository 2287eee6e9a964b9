//! The tables of the files that were met.

ghost use Rattle.std.specs.Prelude.{◌≡◌, ◌<◌, ℕ, length, true, slice_index, if◌then◌else◌};
ghost use Rattle.trio_lists.specs.Lists.{is_among};
ghost use Rattle.trio_lists.specs.Marked.{all_below};
ghost use Rattle.trio_layout.specs.Survey.{row_by};
ghost use Rattle.trio_survey.specs.Seen.{chain_seen, met_seen};
ghost use Rattle.trio_survey.specs.inner.Walk.{Entered};
ghost use Rattle.trio_tables.specs.Row.{as_row};

use crate::file::{FilePages, MetFile};
use trio_layout::Body;
use trio_page::PageNo;
use trio_tables::{Owners, Row, Shadow};

/// Writes the row of a file and the owner of its pages.
pub(crate) fn enter(rows: &mut Shadow, owners: &mut Owners, met: &MetFile, file: &FilePages)
    requires index { all_below (length owners.old) file.now.chain.index.items ≡ true }
    requires blocks { all_below (length owners.old) file.now.chain.blocks.items ≡ true }
    requires some { 0 < met.now.ino }
    requires ino { met.now.ino < length rows.old }
    ensures { Entered (met_seen met.now) file.now.body (chain_seen file.now.chain) owners.old owners.new rows.old rows.new }
{
    set_owner(owners, met.ino, &file.chain.index);
    set_owner(owners, met.ino, &file.chain.blocks);
    rows.set(met.ino, Some(row_of(met, &file.body)));
}

/// Writes the owner of these pages.
fn set_owner(owners: &mut Owners, owner: u32, pages: &[u32])
    requires { all_below (length owners.old) pages.now ≡ true }
    ensures each { (p : ℕ) → p < length owners.new
        → slice_index owners.new p ≡ (if is_among p pages.now then owner else slice_index owners.old p) }
    ensures len { length owners.new ≡ length owners.old }
{
    for page in pages {
        owners.set(PageNo(*page), owner);
    }
}

/// The row of a file that is met.
pub(crate) fn row_of(met: &MetFile, body: &Body) -> Row
    ensures { as_row result ≡ row_by (met_seen met.now) body.now }
{
    Row {
        kind: met.kind,
        mode: body.mode,
        uid: body.uid,
        gid: body.gid,
        parent: met.parent,
        page: met.page,
        slot: met.slot,
    }
}
