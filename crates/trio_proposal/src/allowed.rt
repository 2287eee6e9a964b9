//! Whether a change is allowed, by the tables before and after it.

ghost use Rattle.std.specs.Prelude.{◌≡◌, ◌≤◌, ◌<◌, ◌↔◌, IsTrue, None, false, is_some, length, slice_index_or};
ghost use Rattle.std.specs.Option.{option_map};
ghost use Rattle.trio_tables.specs.Row.{as_row};
ghost use Rattle.trio_layout.specs.Allowed.{same_row};
ghost use Rattle.trio_rights.specs.Kind.{same_kind};
ghost use Rattle.trio_proposal.specs.inner.Steps.{OwnersMay, RowsMay, owner_may, row_may};

use crate::marks::is_marked;
use trio_layout::CoreRange;
use trio_page::PageNo;
use trio_rights::{Creds, Kind};
use trio_survey::Found;
use trio_tables::{Owners, Row, Shadow};

/// What a bundle has, by inode number and by page.
#[derive(Drop)]
pub(crate) struct BundleTables {
    /// The body of each file that is written.
    pub written: Vec<Option<[u8; 64]>>,
    /// Which inode numbers are handed in.
    pub numbers: Vec<bool>,
    /// Which pages are handed in.
    pub pages: Vec<bool>,
}

/// Whether the tables that were found are an allowed change of these rows.
pub(crate) fn is_allowed(
    rows: &Shadow,
    found: &Found,
    range: CoreRange,
    creds: Creds,
    handed: &BundleTables,
) -> bool
    requires { range.end ≤ length found.now.owners }
    ensures { IsTrue result ↔ (RowsMay creds handed.now.numbers.items rows.now found.now.rows
        × OwnersMay rows.now handed.now.written.items handed.now.pages.items found.now.owners range.first range.end) }
{
    rows_may(rows, &found.rows, creds, &handed.numbers)
        && owners_may(rows, &found.owners, range, handed)
}

/// Whether each live number has the very same row, and each number that comes was handed in and has
/// the library's uid and gid.
fn rows_may(rows: &Shadow, found: &Shadow, creds: Creds, numbers: &[bool]) -> bool
    ensures { IsTrue result ↔ RowsMay creds numbers.now rows.now found.now }
{
    for ino in 1..rows.inodes() + 1 {
        let handed = is_marked(numbers, ino);
        if !row_may(creds, handed, rows.row(ino), found.row(ino)) {
            return false;
        }
    }
    true
}

fn row_may(creds: Creds, handed: bool, before: Option<Row>, after: Option<Row>) -> bool
    ensures { result ≡ row_may creds handed (option_map as_row before) (option_map as_row after) }
{
    match (before, after) {
        (Some(before), Some(after)) => same_row(before, after),
        (Some(_), None) => false,
        (None, Some(after)) => handed && after.uid == creds.uid && after.gid == creds.gid,
        (None, None) => true,
    }
}

fn same_row(a: Row, b: Row) -> bool
    ensures { result ≡ same_row (Some (as_row a)) (Some (as_row b)) }
{
    same_kind(a.kind, b.kind)
        && a.mode.0 == b.mode.0
        && a.uid == b.uid
        && a.gid == b.gid
        && a.parent == b.parent
        && a.page == b.page
        && a.slot == b.slot
}

fn same_kind(a: Kind, b: Kind) -> bool
    ensures { result ≡ same_kind a b }
{
    a.byte() == b.byte()
}

/// Whether each core page that a written file has, or a file that comes, was handed in.
fn owners_may(rows: &Shadow, owners: &Owners, range: CoreRange, handed: &BundleTables) -> bool
    requires { range.end ≤ length owners.now }
    ensures { IsTrue result ↔ OwnersMay rows.now handed.now.written.items handed.now.pages.items owners.now range.first range.end }
{
    for page in range.first..range.end {
        let marked = is_marked(&handed.pages, page);
        if !owner_may(rows, &handed.written, marked, owners.owner(PageNo(page))) {
            return false;
        }
    }
    true
}

fn owner_may(rows: &Shadow, written: &[Option<[u8; 64]>], handed: bool, owner: u32) -> bool
    ensures { result ≡ owner_may rows.now written.now handed owner }
{
    owner == 0 || handed || (rows.row(owner).is_some() && !is_written(written, owner))
}

fn is_written(written: &[Option<[u8; 64]>], ino: u32) -> bool
    ensures { result ≡ is_some (slice_index_or written.now ino None) }
{
    matches!(written.get(ino as usize), Some(Some(_)))
}
