//! The entries of a directory.

ghost use Rattle.std.specs.Prelude.{◌≡◌, ◌+◌, ◌<◌, ◌≤◌, IfOk, OnOk, map, drop, if◌then◌else◌};
ghost use Rattle.std.specs.List.{flat_map};
ghost use Rattle.trio_layout.specs.Entries.{listed_at, slot_bytes, entries_on, entries_of, page_entries};
ghost use Rattle.trio_lists.specs.Lists.{both, gathered, result_map};
ghost use Rattle.trio_layout.specs.Slot.{slot_of};
ghost use Rattle.trio_survey.specs.Seen.{core_with, listed_seen};
ghost use Rattle.trio_survey.specs.inner.Blocks.{entries_kept, BlockAnswer, HasParts, SaysBlocks, StaysRead};
ghost use Rattle.trio_survey.specs.inner.Kept.{kept_count, Keeps};

use crate::file::EntryRead;
use crate::kept::Kept;
use crate::names::repeated_name;
use std::alloc::Global;
use trio_layout::{CoreRange, Location, Slot, SlotRead};
use trio_page::{Home, NoMemory, Page, Reads};

/// Reads the entries of a directory of these blocks, or finds the first place that keeps them from
/// being read. No page that is kept is looked at.
pub(crate) fn read_directory(
    alloc: Global,
    home: &mut Home,
    range: CoreRange,
    inodes: u32,
    blocks: &[u32],
    kept: &mut Kept,
    reads: &mut Reads,
) -> Result<Result<(), Location>, NoMemory>
    requires keeps { Keeps range home.old.pages kept.old.pages.pages.items }
    requires parts { HasParts range kept.old.blocks }
    requires says { SaysBlocks home.old.pages range inodes kept.old.blocks }
    ensures pages { home.new.pages ≡ home.old.pages }
    ensures keeps { Keeps range home.old.pages kept.new.pages.pages.items }
    ensures parts { OnOk result (HasParts range kept.new.blocks) }
    ensures says { OnOk result (SaysBlocks home.old.pages range inodes kept.new.blocks) }
    ensures looks { reads.new + kept_count kept.old.pages.pages.items ≤ reads.old + kept_count kept.new.pages.pages.items }
    ensures looked { home.new.looked + kept_count kept.old.pages.pages.items ≤ home.old.looked + kept_count kept.new.pages.pages.items }
    ensures entries { IfOk result (λ r. result_map (λ _. flat_map (entries_kept range kept.new.blocks) blocks.now) r ≡ entries_of (core_with home.old.pages range inodes) blocks.now) }
{
    if let Err(place) = read_entries(alloc, home, range, inodes, blocks, kept, reads)? {
        return Ok(Err(place));
    }
    match repeated_name(alloc, range, &kept.blocks, &mut kept.named, blocks)? {
        Some(place) => Ok(Err(place)),
        None => Ok(Ok(())),
    }
}

/// Reads the entries of these blocks where they aren't kept, or finds the first place that keeps them
/// from being read.
fn read_entries(
    alloc: Global,
    home: &mut Home,
    range: CoreRange,
    inodes: u32,
    blocks: &[u32],
    kept: &mut Kept,
    reads: &mut Reads,
) -> Result<Result<(), Location>, NoMemory>
    requires keeps { Keeps range home.old.pages kept.old.pages.pages.items }
    requires parts { HasParts range kept.old.blocks }
    requires says { SaysBlocks home.old.pages range inodes kept.old.blocks }
    ensures pages { home.new.pages ≡ home.old.pages }
    ensures keeps { Keeps range home.old.pages kept.new.pages.pages.items }
    ensures parts { OnOk result (HasParts range kept.new.blocks) }
    ensures says { OnOk result (SaysBlocks home.old.pages range inodes kept.new.blocks) }
    ensures looks { reads.new + kept_count kept.old.pages.pages.items ≤ reads.old + kept_count kept.new.pages.pages.items }
    ensures looked { home.new.looked + kept_count kept.old.pages.pages.items ≤ home.old.looked + kept_count kept.new.pages.pages.items }
    ensures entries { IfOk result (λ r. result_map (λ _. flat_map (entries_kept range kept.new.blocks) blocks.now) r ≡ gathered (page_entries (core_with home.old.pages range inodes)) blocks.now) }
{
    for no in blocks {
        if let Err(place) = read_block(alloc, home, range, inodes, *no, kept, reads)? {
            return Ok(Err(place));
        }
    }
    Ok(Ok(()))
}

/// Reads a directory block where what it says isn't kept. What was read stays so.
fn read_block(
    alloc: Global,
    home: &mut Home,
    range: CoreRange,
    inodes: u32,
    no: u32,
    kept: &mut Kept,
    reads: &mut Reads,
) -> Result<Result<(), Location>, NoMemory>
    requires keeps { Keeps range home.old.pages kept.old.pages.pages.items }
    requires parts { HasParts range kept.old.blocks }
    requires says { SaysBlocks home.old.pages range inodes kept.old.blocks }
    ensures pages { home.new.pages ≡ home.old.pages }
    ensures keeps { Keeps range home.old.pages kept.new.pages.pages.items }
    ensures parts { OnOk result (HasParts range kept.new.blocks) }
    ensures says { OnOk result (SaysBlocks home.old.pages range inodes kept.new.blocks) }
    ensures looks { reads.new + kept_count kept.old.pages.pages.items ≤ reads.old + kept_count kept.new.pages.pages.items }
    ensures looked { home.new.looked + kept_count kept.old.pages.pages.items ≤ home.old.looked + kept_count kept.new.pages.pages.items }
    ensures here { IfOk result (BlockAnswer home.old.pages range inodes kept.new.blocks no) }
    ensures others { OnOk result (StaysRead range kept.old.blocks kept.new.blocks) }
{
    match kept.blocks.find(range, no) {
        Some(Ok(_)) => return Ok(Ok(())),
        Some(Err(place)) => return Ok(Err(place)),
        None => {}
    }
    kept.pages.look(alloc, home, range, no, reads)?;
    match kept.pages.page(range, no) {
        Some(page) => kept.blocks.keep(alloc, range, inodes, no, page),
        None => Ok(Err(Location { page: no, slot: 0 })),
    }
}

/// Appends the entries of a directory page, or finds the first bad slot.
pub(crate) fn add_page_entries(
    page: &Page,
    no: u32,
    inodes: u32,
    entries: &mut Vec<EntryRead>,
) -> Result<Result<(), Location>, NoMemory>
    ensures { IfOk result (λ r. both (Ok (map listed_seen entries.old.items)) (entries_on inodes no page.now)
        ≡ result_map (λ _. map listed_seen entries.new.items) r) }
{
    let bytes = page.bytes();
    for slot in 0..16u16 {
        if !add_slot_entry(slot_bytes(bytes, slot), no, slot, inodes, entries)? {
            return Ok(Err(Location { page: no, slot }));
        }
    }
    Ok(Ok(()))
}

/// The bytes of a slot.
fn slot_bytes(bytes: &[u8; 4096], slot: u16) -> &[u8; 256]
    requires { slot < 16 }
    ensures { result.now ≡ slot_bytes slot bytes.now }
{
    let at = 256 * usize::from(slot);
    bytes[at..at + 256].as_array().unwrap()
}

/// Appends the entry in a slot, if there is one; `false` where the slot is outside the grammar.
fn add_slot_entry(
    bytes: &[u8; 256],
    page: u32,
    slot: u16,
    inodes: u32,
    entries: &mut Vec<EntryRead>,
) -> Result<bool, NoMemory>
    ensures { IfOk result (λ ok. both (Ok (map listed_seen entries.old.items)) (listed_at page slot (drop 192 bytes.now) (slot_of inodes bytes.now))
        ≡ (if ok then Ok (map listed_seen entries.new.items) else Err (record { page = page; slot = slot }))) }
{
    match Slot::read(bytes, inodes) {
        SlotRead::Empty => Ok(true),
        SlotRead::Bad => Ok(false),
        SlotRead::Entry(entry) => {
            let mut body = [0; 64];
            body.copy_from_slice(&bytes[192..]);
            entries.push(EntryRead {
                entry,
                page,
                slot,
                body,
            })?;
            Ok(true)
        }
    }
}
