//! The rows after an accepted bundle.

ghost use Rattle.std.specs.Prelude.{◌≡◌, ◌<◌, ℕ, None, if◌then◌else◌, length, map, slice_set};
ghost use Rattle.std.specs.Option.{option_map};
ghost use Rattle.trio_lists.specs.Lists.{In};
ghost use Rattle.trio_rights.specs.Row.{row_in};
ghost use Rattle.trio_tables.specs.Row.{as_row};
ghost use Rattle.trio_layout.specs.Edges.{is_listed};
ghost use Rattle.trio_layout.specs.Tables.{placed_row, row_after};
ghost use Rattle.trio_case.specs.Listed.{entry_seen};
ghost use Rattle.trio_commit.specs.Listed.{HasNumbersBelow};
ghost use Rattle.trio_commit.specs.inner.Tables.{is_gone, row_judged, row_moved};

use crate::gone::is_listed;
use trio_case::{ListedEntry, ListedFile, Listing};
use trio_tables::{Row, Shadow};

/// Puts the rows in place: a judged file has the row that is listed, any other file that an entry
/// names its row at the place of the entry, and a held file that is listed nowhere none.
pub(crate) fn put_rows(rows: &mut Shadow, listing: &Listing)
    requires { HasNumbersBelow (length rows.old) listing.now.listing }
    ensures rows { (n : ℕ) → row_in rows.new n ≡ row_after listing.now.listing rows.old n }
    ensures size { length rows.new ≡ length rows.old }
{
    end_gone(rows, listing);
    move_listed(rows, listing.entries());
    put_judged(rows, listing.files());
}

/// Takes the rows of the held files that are listed nowhere away.
fn end_gone(rows: &mut Shadow, listing: &Listing)
    requires { (n : ℕ) → In n listing.now.listing.held → (0 < n) × (n < length rows.old) }
    ensures rows { (n : ℕ) → row_in rows.new n ≡ (if is_gone listing.now.listing n then None else row_in rows.old n) }
    ensures size { length rows.new ≡ length rows.old }
{
    for ino in listing.held() {
        end_unlisted(rows, listing, *ino);
    }
}

/// Takes the row of a file away that is listed nowhere.
fn end_unlisted(rows: &mut Shadow, listing: &Listing, ino: u32)
    requires some { 0 < ino }
    requires within { ino < length rows.old }
    ensures { rows.new ≡ (if is_listed listing.now.listing ino then rows.old else slice_set rows.old ino None) }
{
    if !is_listed(listing, ino) {
        rows.set(ino, None);
    }
}

/// Moves the rows of the files that entries name to the places of the entries.
fn move_listed(rows: &mut Shadow, entries: &[ListedEntry])
    requires { (n : ℕ) → In n (map (λ e. e.ino) entries.now) → (0 < n) × (n < length rows.old) }
    ensures rows { (n : ℕ) → row_in rows.new n ≡ row_moved (map entry_seen entries.now) n (row_in rows.old n) }
    ensures size { length rows.new ≡ length rows.old }
{
    let mut left = entries.len();
    while left > 0 {
        left -= 1;
        move_row(rows, &entries[left]);
    }
}

/// Moves the row of the file that an entry names to the place of the entry, if there is one.
fn move_row(rows: &mut Shadow, entry: &ListedEntry)
    requires some { 0 < entry.now.ino }
    requires within { entry.now.ino < length rows.old }
    ensures { rows.new ≡ slice_set rows.old entry.now.ino (option_map (placed_row (entry_seen entry.now)) (row_in rows.old entry.now.ino)) }
{
    let moved = rows.row(entry.ino).map(|row| placed(row, entry));
    rows.set(entry.ino, moved);
}

/// A row with the directory and the place of an entry.
fn placed(row: Row, entry: &ListedEntry) -> Row
    ensures { as_row result ≡ placed_row (entry_seen entry.now) (as_row row) }
{
    Row {
        parent: entry.dir,
        page: entry.page,
        slot: entry.slot,
        ..row
    }
}

/// Gives the judged files the rows that are listed.
fn put_judged(rows: &mut Shadow, files: &[ListedFile])
    requires { (n : ℕ) → In n (map (λ f. f.ino) files.now) → (0 < n) × (n < length rows.old) }
    ensures rows { (n : ℕ) → row_in rows.new n ≡ row_judged files.now n (row_in rows.old n) }
    ensures size { length rows.new ≡ length rows.old }
{
    let mut left = files.len();
    while left > 0 {
        left -= 1;
        let file = &files[left];
        rows.set(file.ino, Some(file.row));
    }
}
