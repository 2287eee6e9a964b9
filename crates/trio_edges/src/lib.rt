//! Rule I3 of a bundle: no recorded child is lost, no held file is dropped over its children, and no
//! held directory is moved below itself.
#![tactic(auto)]

ghost use Rattle.std.specs.Prelude.{◌≡◌, ℕ, Some, IfSome, IfNone, IsTrue, IsFalse, length, not, true};
ghost use Rattle.std.specs.List.{list_any};
ghost use Rattle.trio_rights.specs.ByKind.{is_directory};
ghost use Rattle.trio_tables.specs.Row.{as_row};
ghost use Rattle.trio_layout.specs.Broken.{BreaksEdges};
ghost use Rattle.trio_layout.specs.Edges.{climbs_clear, comes_to_root, meets_edges, proposed_parent, stays_listed};
ghost use Rattle.trio_case.specs.Listed.{entry_seen};
ghost use Rattle.trio_edges.specs.Leaves.{DataFilesAreLeaves};
ghost use Rattle.trio_edges.specs.inner.Steps.{drops_parent, is_clear, IsLost};

use trio_case::{ListedEntry, ListedFile, Listing};
use trio_tables::{Row, Shadow};

/// A number at which the rule fails, over the rows of the image; `None` exactly where it holds.
///
/// No row names a judged file for its parent that is no directory: those of an image that verifies don't.
///
/// It takes no memory. The rows are gone over only where a file is held or a judged file is a
/// directory, and then once; beside that there is one pass over the entries, and one climb for each
/// held directory that an entry lists at another place.
pub fn edges(listing: &Listing, rows: &Shadow) -> Option<u32>
    requires { DataFilesAreLeaves listing.now.listing rows.now }
    ensures holds { IfNone result (IsTrue (meets_edges listing.now.listing rows.now)) }
    ensures fails { IfSome result (BreaksEdges listing.now.listing rows.now) }
    ensures broken { IfSome result (λ _. IsFalse (meets_edges listing.now.listing rows.now)) }
{
    if let Some(ino) = lost(listing, rows) {
        return Some(ino);
    }
    for entry in listing.entries() {
        if !comes_to_root(listing, rows, entry) {
            return Some(entry.ino);
        }
    }
    None
}

// a recorded child that is lost, or a held file that is dropped over a recorded child; the rows are
// gone over only where there may be one
fn lost(listing: &Listing, rows: &Shadow) -> Option<u32>
    requires { DataFilesAreLeaves listing.now.listing rows.now }
    ensures none { IfNone result ((n : ℕ) → is_clear listing.now.listing rows.now n ≡ true) }
    ensures some { IfSome result (IsLost listing.now.listing rows.now) }
{
    if listing.held().is_empty() && !have_directory(listing.files()) {
        return None;
    }
    lost_child(listing, rows)
}

fn have_directory(files: &[ListedFile]) -> bool
    ensures { result ≡ list_any (λ f. is_directory f.row.kind) files.now }
{
    files.iter().any(|file| file.row.kind.is_directory())
}

// a recorded child that is lost, or a held file that is dropped over a recorded child
fn lost_child(listing: &Listing, rows: &Shadow) -> Option<u32>
    ensures none { IfNone result ((n : ℕ) → is_clear listing.now.listing rows.now n ≡ true) }
    ensures some { IfSome result (IsLost listing.now.listing rows.now) }
{
    for ino in 1..rows.inodes() + 1 {
        if let Some(row) = rows.row(ino) {
            if is_lost(listing, ino, &row) {
                return Some(ino);
            }
            if drops_parent(listing, &row) {
                return Some(row.parent);
            }
        }
    }
    None
}

// whether the file of this row is a recorded child of a judged directory that lists it no more
fn is_lost(listing: &Listing, ino: u32, row: &Row) -> bool
    ensures { result ≡ not (stays_listed listing.now.listing ino (Some (as_row row.now))) }
{
    listing.has_file(row.parent) && !listing.is_held(ino) && !listing.is_listed_kept(ino)
}

// whether the file of this row is a recorded child of a held file that is listed nowhere
fn drops_parent(listing: &Listing, row: &Row) -> bool
    ensures { result ≡ drops_parent listing.now.listing (Some (as_row row.now)) }
{
    listing.is_held(row.parent) && listing.dir(row.parent).is_none()
}

fn comes_to_root(listing: &Listing, rows: &Shadow, entry: &ListedEntry) -> bool
    ensures { result ≡ comes_to_root listing.now.listing rows.now (entry_seen entry.now) }
{
    if entry.kept || !listing.is_held(entry.ino) {
        return true;
    }
    match rows.row(entry.ino) {
        Some(row) if row.kind.is_directory() => {
            let parent = proposed_parent(listing, rows, entry.ino);
            climbs_clear(listing, rows, entry.ino, parent)
        }
        _ => true,
    }
}

// whether the climb from a number reaches the root and doesn't meet the directory on its way
fn climbs_clear(listing: &Listing, rows: &Shadow, directory: u32, from: u32) -> bool
    ensures { result ≡ climbs_clear (proposed_parent listing.now.listing rows.now) directory (length rows.now) from }
{
    let mut left = rows.inodes() + 1;
    let mut at = from;
    while left > 0 {
        if at == 1 {
            return true;
        }
        if at == directory {
            return false;
        }
        at = proposed_parent(listing, rows, at);
        left -= 1;
    }
    at == 1
}

fn proposed_parent(listing: &Listing, rows: &Shadow, ino: u32) -> u32
    ensures { result ≡ proposed_parent listing.now.listing rows.now ino }
{
    match listing.dir(ino) {
        Some(dir) => dir,
        None => rows.row(ino).map_or(0, |row| row.parent),
    }
}
