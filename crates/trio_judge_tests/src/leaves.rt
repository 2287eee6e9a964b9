//! The rule on edges, asked of bundles of which nothing is known.

ghost use Rattle.std.specs.Prelude.{◌≡◌, IsTrue};
ghost use Rattle.std.specs.List.{list_all};
ghost use Rattle.trio_rights.specs.Row.{row_in};
ghost use Rattle.trio_tables.specs.Row.{as_row};
ghost use Rattle.trio_edges.specs.Leaves.{DataFilesAreLeaves};
ghost use Rattle.trio_judge_tests.specs.Leaves.{is_other, HasNoFile};

use std::alloc::Global;
use trio_case::{ListedEntry, ListedFile, Listing, ListingRoom};
use trio_edges::edges;
use trio_rights::{Kind, Mode};
use trio_tables::{Row, Shadow};

/// A number at which I3 fails. `None` where it holds, or where a row names a judged file for its
/// parent that is no directory, so that it can't be asked.
pub fn broken_edge(listing: &Listing, rows: &Shadow) -> Option<u32> {
    if !data_files_are_leaves(listing, rows) {
        return None;
    }
    edges(listing, rows)
}

/// Whether no row names a judged file for its parent that is no directory.
fn data_files_are_leaves(listing: &Listing, rows: &Shadow) -> bool
    ensures { IsTrue result → DataFilesAreLeaves listing.now.listing rows.now }
{
    for ino in 0..rows.inodes() + 1 {
        if !is_listed_by_directory(listing, rows, ino) {
            return false;
        }
    }
    true
}

fn is_listed_by_directory(listing: &Listing, rows: &Shadow, ino: u32) -> bool
    ensures { IsTrue result → HasNoFile listing.now.listing (row_in rows.now ino) }
{
    match rows.row(ino) {
        Some(row) => are_not(listing.files(), row.parent),
        None => true,
    }
}

/// Whether none of these has this number and is no directory.
fn are_not(files: &[ListedFile], ino: u32) -> bool
    ensures { result ≡ list_all (λ f. is_other (as_row f.row).kind f.ino ino) files.now }
{
    files.iter().all(|file| is_other(file, ino))
}

fn is_other(file: &ListedFile, ino: u32) -> bool
    ensures { result ≡ is_other (as_row file.now.row).kind file.now.ino ino }
{
    file.ino != ino || file.row.kind.is_directory()
}

/// The row of a directory in slot 0 of a page.
fn directory(parent: u32, page: u32) -> Option<Row> {
    Some(Row {
        kind: Kind::Directory,
        mode: Mode(0o755),
        uid: 0,
        gid: 0,
        parent,
        page,
        slot: 0,
    })
}

/// The root has `/a` with inode number 2, which has `/a/p` with inode number 3.
fn rows(alloc: Global) -> Option<Shadow> {
    let mut rows = Shadow::new(alloc, 8).ok()?;
    rows.set(1, directory(0, 0));
    rows.set(2, directory(1, 20));
    rows.set(3, directory(2, 21));
    Some(rows)
}

/// An entry of a directory at slot 0 of page 22: its number, the directory that lists it, and whether it
/// is a kept child.
type Listed = (u32, u32, bool);

/// A held directory, the entry that lists it, and the number at which the rule fails.
type Moved = (u32, Option<Listed>, Option<u32>);

const HELD: &[Moved] = &[
    // dropped over its child
    (2, None, Some(2)),
    // moved below itself
    (2, Some((2, 3, false)), Some(2)),
    // moved elsewhere
    (2, Some((2, 1, false)), None),
    // where it was
    (2, Some((2, 1, true)), None),
    // moved, and dropped, without a child
    (3, Some((3, 1, false)), None),
    (3, None, None),
];

/// One held file, and one entry at most.
const ROOM: ListingRoom = ListingRoom {
    held: 1,
    files: 0,
    index: 0,
    blocks: 0,
    entries: 1,
};

fn listing_of(alloc: Global, held: u32, listed: Option<Listed>) -> Option<Listing> {
    let mut listing = Listing::with(alloc, ROOM, 9).ok()?;
    listing.add_held(held);
    if let Some((ino, dir, kept)) = listed {
        listing.add_entry(ListedEntry {
            ino,
            kind: Kind::Directory,
            dir,
            page: 22,
            slot: 0,
            kept,
        });
    }
    Some(listing)
}

/// Whether the rule fails there, or holds.
fn is_broken_at(alloc: Global, rows: &Shadow, (held, listed, wanted): Moved) -> Option<bool> {
    Some(broken_edge(&listing_of(alloc, held, listed)?, rows) == wanted)
}

#[test]
fn held_directories(rt: HostRuntime) {
    let rows = rows(rt.alloc());
    for (i, held) in HELD.iter().enumerate() {
        let is_so = match &rows {
            Some(rows) => is_broken_at(rt.alloc(), rows, *held),
            None => None,
        };
        assert!(rt; is_so == Some(true), "row {i}");
    }
}
