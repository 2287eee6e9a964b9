//! What a release tells of one file.

ghost use Rattle.std.specs.Prelude.{◌≡◌, ◌<◌, ◌≤◌, ◌==◌, ◌&&◌, None, Some, IfSome, IfNone, drop, false, if◌then◌else◌, is_some, length, not, slice_index, slice_index_or, true, unwrap_or};
ghost use Rattle.std.specs.List.{find};
ghost use Rattle.std.specs.Option.{option_map};
ghost use Rattle.std.specs.Str.{bytes_eq};
ghost use Rattle.trio_lists.specs.Lists.{is_among};
ghost use Rattle.trio_rights.specs.Row.{row_in};
ghost use Rattle.trio_tables.specs.Row.{as_row};
ghost use Rattle.trio_lease.specs.Views.{bundle_in, written_in};
ghost use Rattle.trio_layout.specs.Body.{guard_in};
ghost use Rattle.trio_layout.specs.Case.{bundle_core};
ghost use Rattle.trio_layout.specs.Core.{page_of};
ghost use Rattle.trio_layout.specs.Edges.{is_listed};
ghost use Rattle.trio_layout.specs.Entries.{slot_bytes};
ghost use Rattle.trio_layout.specs.Slot.{entry_at};
ghost use Rattle.trio_layout.specs.Tables.{row_after, placed_row};
ghost use Rattle.trio_case.specs.Cases.{case_in};
ghost use Rattle.trio_case.specs.Listed.{entry_seen};
ghost use Rattle.trio_state.specs.Listed.{entry_slot, is_handed, noted_guard, noted_name, noted_size, size_in, told_entry, told_row, told_written, written_guard, written_size};
ghost use Rattle.trio_entries.specs.Telling.{whole_case, AreNoted};
ghost use Rattle.trio_entries.specs.inner.Finding.{IsFinderOf, IsJudgedBy};
ghost use Rattle.trio_entries.specs.inner.Slots.{IsReadable};

use crate::finder::{Finder, judged_row, lease_on};
use crate::notes::Notes;
use trio_case::{Case, ListedEntry, Listing};
use trio_layout::{Slot, SlotRead};
use trio_lease::WriteLease;
use trio_names::Name;
use trio_nodes::RawFile;
use trio_page::field::u64_in;
use trio_tables::{Row, Shadow};

/// What an entry of a judged directory tells; nothing of a kept child that is neither written nor
/// held and has its name still.
pub(crate) fn told_entry(
    case: &Case,
    listing: &Listing,
    rows: &Shadow,
    notes: &Notes,
    finder: &Finder,
    entry: &ListedEntry,
) -> Option<RawFile>
    requires finder { IsFinderOf case.now finder.now }
    requires judged { IsJudgedBy case.now listing.now.listing finder.now }
    requires readable { IsReadable (case_in case.now) (entry_seen entry.now) }
    requires first { find (λ e. e.ino == entry.now.ino) listing.now.listing.entries ≡ Some (entry_seen entry.now) }
    ensures { result ≡ told_entry (whole_case case.now rows.now) listing.now.listing notes.now (entry_seen entry.now) }
{
    let slot = entry_slot(case, finder, entry)?;
    if is_untold(case, notes, entry, slot_name(slot)) {
        return None;
    }
    let SlotRead::Entry(part) = Slot::read(slot, case.inodes()) else {
        return None;
    };
    let row = row_listed(case, listing, finder, rows, entry)?;
    let said = entry_said(case, notes, entry.ino, slot);
    Some(told_row(case, entry.ino, false, part.name, said, &row))
}

/// Whether an entry of this name is of a kept child that is neither written nor held and has its name
/// still.
fn is_untold(case: &Case, notes: &Notes, entry: &ListedEntry, name: &[u8]) -> bool
    ensures { result ≡ (entry.now.kept && not (is_handed (bundle_in case.now.bundle) entry.now.ino) && bytes_eq (noted_name notes.now entry.now.ino) name.now) }
{
    entry.kept && !is_given(case, entry.ino) && notes.has_name(entry.ino, name)
}

/// What a written file tells that no judged directory lists; nothing of one that an entry names.
pub(crate) fn told_written(
    case: &Case,
    listing: &Listing,
    rows: &Shadow,
    notes: &Notes,
    finder: &Finder,
    lease: &WriteLease,
) -> Option<RawFile>
    requires judged { IsJudgedBy case.now listing.now.listing finder.now }
    requires noted { is_some (slice_index_or notes.now lease.now.stands.ino None) ≡ true }
    ensures { result ≡ told_written (whole_case case.now rows.now) listing.now.listing notes.now (written_in lease.now.stands) }
{
    let ino = lease.ino();
    if is_listed(listing, ino) {
        return None;
    }
    let row = row_unlisted(case, listing, finder, rows, ino)?;
    let note = notes.get(ino)?;
    let said = said_in(lease.body());
    Some(told_row(case, ino, false, note.name, said, &row))
}

/// What a file tells by its row and what is noted of it; nothing of one that isn't live.
pub(crate) fn told_noted(
    case: &Case,
    rows: &Shadow,
    notes: &Notes,
    ino: u32,
    gone: bool,
) -> Option<RawFile>
    requires { AreNoted rows.now notes.now }
    ensures { result ≡ option_map (told_row (bundle_in case.now.bundle) ino gone (noted_name notes.now ino) (noted_size notes.now ino) (noted_guard notes.now ino)) (row_in rows.now ino) }
{
    let row = rows.row(ino)?;
    let note = notes.get(ino)?;
    let said = Said {
        size: note.size,
        guard: note.guard,
    };
    Some(told_row(case, ino, gone, note.name, said, &row))
}

/// What a body says beside rights and pages.
#[derive(Clone, Copy)]
struct Said {
    /// In bytes.
    size: u64,
    guard: bool,
}

/// A file by its row, with a name and what its body says.
fn told_row(case: &Case, ino: u32, gone: bool, name: Name, said: Said, row: &Row) -> RawFile
    ensures { result ≡ told_row (bundle_in case.now.bundle) ino gone name said.size said.guard (as_row row.now) }
{
    RawFile {
        ino,
        given: is_given(case, ino),
        gone,
        parent: row.parent,
        name,
        kind: row.kind,
        mode: row.mode,
        uid: row.uid,
        gid: row.gid,
        size: said.size,
        guard: said.guard,
    }
}

/// Whether the bundle has a write lease or a hold on a file.
fn is_given(case: &Case, ino: u32) -> bool
    ensures { result ≡ is_handed (bundle_in case.now.bundle) ino }
{
    case.is_written(ino) || case.lent_body(ino).is_some()
}

/// Whether an entry names this number.
pub(crate) fn is_listed(listing: &Listing, ino: u32) -> bool
    ensures { result ≡ is_listed listing.now.listing ino }
{
    listing.dir(ino).is_some()
}

/// The bytes of the slot in which an entry stands; `None` exactly where its page is none of the
/// bundle's.
fn entry_slot<'a>(case: &'a Case, finder: &Finder, entry: &ListedEntry) -> Option<&'a [u8; 256]>
    requires finder { IsFinderOf case.now finder.now }
    requires slot { entry.now.slot < 16 }
    ensures some { IfSome result (λ s. s.now ≡ entry_slot (case_in case.now) (entry_seen entry.now)) }
    ensures none { IfNone result (page_of (bundle_core (case_in case.now)) entry.now.page ≡ None) }
{
    let page = finder.pages.page(case, entry.page)?;
    Some(slot_bytes(page.bytes(), entry.slot))
}

/// The bytes of a slot.
fn slot_bytes(bytes: &[u8; 4096], slot: u16) -> &[u8; 256]
    requires { slot < 16 }
    ensures { result.now ≡ slot_bytes slot bytes.now }
{
    let at = 256 * usize::from(slot);
    bytes[at..at + 256].as_array().unwrap()
}

/// The bytes of the name of the entry in a slot.
fn slot_name(slot: &[u8; 256]) -> &[u8]
    requires { slice_index slot.now 5 ≤ 184 }
    ensures { result.now ≡ (entry_at slot.now).name }
{
    let len = usize::from(slot[5]);
    &slot[8..8 + len]
}

/// The size and the guard of the file of an entry: as its lease says, where it is new as its slot
/// says, else as they are noted.
fn entry_said(case: &Case, notes: &Notes, ino: u32, slot: &[u8; 256]) -> Said
    ensures guard { result.guard ≡ unwrap_or (written_guard (bundle_in case.now.bundle) ino) (if is_among ino (bundle_in case.now.bundle).numbers then guard_in (drop 192 slot.now) else noted_guard notes.now ino) }
    ensures size { result.size ≡ unwrap_or (written_size (bundle_in case.now.bundle) ino) (if is_among ino (bundle_in case.now.bundle).numbers then size_in (drop 192 slot.now) else noted_size notes.now ino) }
{
    if let Some(lease) = lease_on(case, ino) {
        return said_in(lease.body());
    }
    if case.is_fresh(ino) {
        said_in(slot_body(slot))
    } else {
        Said {
            size: notes.size(ino),
            guard: notes.guard(ino),
        }
    }
}

/// The bytes of the body in a slot.
fn slot_body(slot: &[u8; 256]) -> &[u8]
    ensures body { result.now ≡ drop 192 slot.now }
    ensures len { length result.now ≡ 64 }
{
    &slot[192..]
}

/// The size and the guard that a body says.
fn said_in(body: &[u8]) -> Said
    requires { 25 ≤ length body.now }
    ensures guard { result.guard ≡ guard_in body.now }
    ensures size { result.size ≡ size_in body.now }
{
    Said {
        size: u64_in(body, 16),
        guard: body[24] == 1,
    }
}

/// The row after the release of the file of an entry, the first that names its number.
fn row_listed(
    case: &Case,
    listing: &Listing,
    finder: &Finder,
    rows: &Shadow,
    entry: &ListedEntry,
) -> Option<Row>
    requires judged { IsJudgedBy case.now listing.now.listing finder.now }
    requires first { find (λ e. e.ino == entry.now.ino) listing.now.listing.entries ≡ Some (entry_seen entry.now) }
    ensures { option_map as_row result ≡ row_after listing.now.listing rows.now entry.now.ino }
{
    if let Some(row) = judged_row(case, listing, finder, entry.ino) {
        return Some(row);
    }
    let row = rows.row(entry.ino)?;
    Some(placed(row, entry))
}

/// A row with the directory and the place of an entry.
fn placed(row: Row, entry: &ListedEntry) -> Row
    ensures { as_row result ≡ placed_row (entry_seen entry.now) (as_row row) }
{
    Row {
        parent: entry.dir,
        page: entry.page,
        slot: entry.slot,
        ..row
    }
}

/// The row after the release of a file that no entry names.
fn row_unlisted(
    case: &Case,
    listing: &Listing,
    finder: &Finder,
    rows: &Shadow,
    ino: u32,
) -> Option<Row>
    requires judged { IsJudgedBy case.now listing.now.listing finder.now }
    requires unlisted { is_listed listing.now.listing ino ≡ false }
    ensures { option_map as_row result ≡ row_after listing.now.listing rows.now ino }
{
    if let Some(row) = judged_row(case, listing, finder, ino) {
        return Some(row);
    }
    if listing.is_held(ino) {
        return None;
    }
    rows.row(ino)
}
