//! The entries of a directory, as far as its pages are the bundle's.

ghost use Rattle.std.specs.Prelude.{◌≡◌, ◌++◌, ◌∷◌, [], ◌+◌, ◌*◌, ◌<◌, ◌≤◌, ℕ, List, None, Some, IsSome, Ok, Err, OnOk, OnErr, length, map, take, drop, if◌then◌else◌, true, vec_len, vec_capacity};
ghost use Rattle.std.specs.List.{flat_map};
ghost use Rattle.trio_lists.specs.Lists.{gathered, result_map};
ghost use Rattle.trio_layout.specs.Case.{bundle_core};
ghost use Rattle.trio_layout.specs.Core.{page_of};
ghost use Rattle.trio_layout.specs.Entries.{listed_at, slot_bytes, entries_on};
ghost use Rattle.trio_layout.specs.Slot.{slot_of};
ghost use Rattle.trio_layout.specs.Within.{entries_where};
ghost use Rattle.trio_case.specs.Cases.{case_in};
ghost use Rattle.trio_case.specs.Reading.{listed_seen, AreNamed};
ghost use Rattle.trio_case.specs.Places.{bytes_at};
ghost use Rattle.trio_case.specs.Rooms.{entries_kept, unread_blocks, unread_index, HasPlaces, KeepsPages, SaysBlock};
ghost use Rattle.trio_case.specs.inner.Steps.{BlockAnswer, IsDone, IsFront, StandsAt};
ghost use Rattle.trio_page.specs.Home.{raised};

use crate::case::Case;
use crate::kept::{KeptPage, KeptPages, Span};
use crate::places::look;
use trio_layout::{Location, Slot, SlotRead};
use trio_lease::Bundle;
use trio_nameset::NameSet;
use trio_page::{Page, Reads};
use trio_rights::Kind;

/// An entry of a directory at its place, with the bytes of the body in its slot.
#[derive(Clone, Copy)]
pub struct DirEntry {
    pub ino: u32,
    /// The number of its name.
    pub name: u32,
    pub page: u32,
    pub slot: u16,
    pub kind: Kind,
    pub body: [u8; 64],
}

/// Reads the entries of these blocks, or finds the first bad slot. A block that isn't the bundle's
/// has none.
pub(crate) fn read_entries(
    case: &Case,
    kept: &mut KeptPages,
    blocks: &[u32],
    reads: &mut Reads,
) -> Result<(), Location>
    requires keeps { KeepsPages case.now kept.old }
    requires places { HasPlaces true kept.old }
    ensures entries { let core = bundle_core (case_in case.now) in
        result_map (λ _. flat_map (entries_kept kept.new) blocks.now) result ≡ gathered (λ page. entries_where case.now.inodes page (page_of core page)) blocks.now }
    ensures keeps { KeepsPages case.now kept.new }
    ensures places { HasPlaces true kept.new }
    ensures most { length kept.new.names.names + 16 * unread_blocks kept.new ≤ length kept.old.names.names + 16 * unread_blocks kept.old }
    ensures same { unread_index kept.new ≡ unread_index kept.old }
    ensures looks { OnOk result (reads.new + unread_blocks kept.new ≤ reads.old + unread_blocks kept.old) }
    ensures last { reads.new ≤ reads.old + unread_blocks kept.old }
{
    for block in blocks {
        if let Err(place) = keep_block(case, kept, *block, reads) {
            return Err(place);
        }
    }
    Ok(())
}

/// Reads the entries of a block where they aren't kept, or finds its first bad slot. What was kept
/// stays so.
fn keep_block(case: &Case, kept: &mut KeptPages, no: u32, reads: &mut Reads) -> Result<(), Location>
    requires keeps { KeepsPages case.now kept.old }
    requires places { HasPlaces true kept.old }
    ensures here { BlockAnswer case.now kept.new no result }
    ensures others { (page : ℕ) → IsDone case.now kept.old page → IsDone case.now kept.new page }
    ensures keeps { KeepsPages case.now kept.new }
    ensures places { HasPlaces true kept.new }
    ensures most { length kept.new.names.names + 16 * unread_blocks kept.new ≤ length kept.old.names.names + 16 * unread_blocks kept.old }
    ensures same { unread_index kept.new ≡ unread_index kept.old }
    ensures looks { OnOk result (reads.new + unread_blocks kept.new ≤ reads.old + unread_blocks kept.old) }
    ensures last { reads.new ≤ reads.old + unread_blocks kept.old }
{
    let Some((at, page)) = kept.find(no) else {
        return Ok(());
    };
    match page.entries {
        Some(Ok(_)) => Ok(()),
        Some(Err(place)) => Err(place),
        None => match keep_entries(case, kept, at, page, reads) {
            Ok(_) => Ok(()),
            Err(place) => Err(place),
        },
    }
}

/// Looks at a directory block, and keeps its entries, or its first bad slot.
fn keep_entries(
    case: &Case,
    kept: &mut KeptPages,
    at: usize,
    page: KeptPage,
    reads: &mut Reads,
) -> Result<Span, Location>
    requires page { StandsAt kept.old page.no at page }
    requires unread { page.entries ≡ None }
    requires keeps { KeepsPages case.now kept.old }
    requires places { HasPlaces true kept.old }
    ensures here { BlockAnswer case.now kept.new page.no result }
    ensures others { (page : ℕ) → IsDone case.now kept.old page → IsDone case.now kept.new page }
    ensures keeps { KeepsPages case.now kept.new }
    ensures places { HasPlaces true kept.new }
    ensures most { length kept.new.names.names + 16 * unread_blocks kept.new ≤ length kept.old.names.names + 16 * unread_blocks kept.old }
    ensures same { unread_index kept.new ≡ unread_index kept.old }
    ensures looks { reads.new + unread_blocks kept.new ≤ reads.old + unread_blocks kept.old }
{
    let read = read_page(
        case.bundle(),
        &page,
        case.inodes(),
        &mut kept.entries,
        &mut kept.names,
        reads,
    );
    kept.pages[at] = KeptPage {
        entries: Some(read),
        ..page
    };
    read
}

/// Looks at a directory block and appends its entries, or finds the first bad slot and leaves the
/// entries as they were.
fn read_page(
    bundle: &Bundle,
    page: &KeptPage,
    inodes: u32,
    entries: &mut Vec<DirEntry>,
    names: &mut NameSet,
    reads: &mut Reads,
) -> Result<Span, Location>
    requires room { vec_len entries.old + 16 ≤ vec_capacity entries.old }
    requires space { length names.old.names + 16 ≤ names.old.room }
    requires there { IsSome (bytes_at bundle.now page.now.place) }
    ensures read { (bytes : List ℕ) → bytes_at bundle.now page.now.place ≡ Some bytes
        → SaysBlock inodes page.now.no names.new.names entries.new.items bytes result }
    ensures before { take (vec_len entries.old) entries.new.items ≡ entries.old.items }
    ensures bad { OnErr result (entries.new.items ≡ entries.old.items) }
    ensures grown { vec_len entries.old ≤ vec_len entries.new }
    ensures len { vec_len entries.new ≤ vec_len entries.old + 16 }
    ensures room { vec_capacity entries.old ≤ vec_capacity entries.new }
    ensures names { IsFront names.old.names names.new.names }
    ensures more { length names.new.names ≤ length names.old.names + 16 }
    ensures space { names.new.room ≡ names.old.room }
    ensures reads { reads.new ≡ raised reads.old }
{
    let from = entries.len();
    let Some(bytes) = look(bundle, page.place, reads) else {
        return Ok(Span { from, len: 0 });
    };
    if let Err(place) = add_page_entries(bytes, page.no, inodes, entries, names) {
        entries.truncate(from);
        return Err(place);
    }
    let len = entries.len() - from;
    Ok(Span { from, len })
}

/// Appends the entries of a directory page, or finds the first bad slot.
fn add_page_entries(
    page: &Page,
    no: u32,
    inodes: u32,
    entries: &mut Vec<DirEntry>,
    names: &mut NameSet,
) -> Result<(), Location>
    requires room { vec_len entries.old + 16 ≤ vec_capacity entries.old }
    requires space { length names.old.names + 16 ≤ names.old.room }
    ensures entries { entries_on inodes no page.now
        ≡ result_map (λ _. map (listed_seen names.new.names) (drop (vec_len entries.old) entries.new.items)) result }
    ensures named { AreNamed names.new.names (drop (vec_len entries.old) entries.new.items) }
    ensures before { take (vec_len entries.old) entries.new.items ≡ entries.old.items }
    ensures grown { vec_len entries.old ≤ vec_len entries.new }
    ensures len { vec_len entries.new ≤ vec_len entries.old + 16 }
    ensures room { vec_capacity entries.old ≤ vec_capacity entries.new }
    ensures names { IsFront names.old.names names.new.names }
    ensures more { length names.new.names ≤ length names.old.names + 16 }
    ensures space { names.new.room ≡ names.old.room }
{
    let bytes = page.bytes();
    for slot in 0..16u16 {
        if !add_slot_entry(slot_bytes(bytes, slot), no, slot, inodes, entries, names) {
            return Err(Location { page: no, slot });
        }
    }
    Ok(())
}

/// The bytes of a slot.
fn slot_bytes(bytes: &[u8; 4096], slot: u16) -> &[u8; 256]
    requires { slot < 16 }
    ensures { result.now ≡ slot_bytes slot bytes.now }
{
    let at = 256 * usize::from(slot);
    bytes[at..at + 256].as_array().unwrap()
}

/// Appends the entry in a slot, if there is one; `false` where the slot is outside the grammar.
fn add_slot_entry(
    bytes: &[u8; 256],
    page: u32,
    slot: u16,
    inodes: u32,
    entries: &mut Vec<DirEntry>,
    names: &mut NameSet,
) -> bool
    requires room { vec_len entries.old < vec_capacity entries.old }
    requires space { length names.old.names < names.old.room }
    ensures entries { listed_at page slot (drop 192 bytes.now) (slot_of inodes bytes.now)
        ≡ (if result then Ok (map (listed_seen names.new.names) (drop (vec_len entries.old) entries.new.items)) else Err (record { page = page; slot = slot })) }
    ensures named { AreNamed names.new.names (drop (vec_len entries.old) entries.new.items) }
    ensures before { take (vec_len entries.old) entries.new.items ≡ entries.old.items }
    ensures grown { vec_len entries.old ≤ vec_len entries.new }
    ensures len { vec_len entries.new ≤ vec_len entries.old + 1 }
    ensures room { vec_capacity entries.old ≤ vec_capacity entries.new }
    ensures names { IsFront names.old.names names.new.names }
    ensures more { length names.new.names ≤ length names.old.names + 1 }
    ensures space { names.new.room ≡ names.old.room }
{
    match Slot::read(bytes, inodes) {
        SlotRead::Empty => true,
        SlotRead::Bad => false,
        SlotRead::Entry(entry) => {
            let mut body = [0; 64];
            body.copy_from_slice(&bytes[192..]);
            let name = names.add(&entry.name);
            let entry = DirEntry {
                ino: entry.ino,
                name,
                page,
                slot,
                kind: entry.kind,
                body,
            };
            add(entries, entry);
            true
        }
    }
}

/// Appends an entry to a list that has room for it.
fn add(entries: &mut Vec<DirEntry>, entry: DirEntry)
    requires room { vec_len entries.old < vec_capacity entries.old }
    ensures added { entries.new.items ≡ entries.old.items ++ entry ∷ [] }
    ensures before { take (vec_len entries.old) entries.new.items ≡ entries.old.items }
    ensures len { vec_len entries.new ≡ vec_len entries.old + 1 }
    ensures room { vec_capacity entries.old ≤ vec_capacity entries.new }
{
    let _pushed = entries.push(entry);
}
