//! What is read of the files that a session has: bytes, and how many entries there are.

ghost use Rattle.std.specs.Prelude.{◌≡◌, ◌≤◌, ◌<◌, ◌+◌, ◌-◌, ◌%◌, [], IfOk, drop, length, slice_index_or, take};
ghost use Rattle.trio_layout.specs.Entries.{slot_bytes};
ghost use Rattle.trio_layout.specs.Slot.{slot_of};
ghost use Rattle.trio_session.specs.Layout.{size_in};
ghost use Rattle.trio_session.specs.Seen.{every_number, pages_shown};
ghost use Rattle.trio_session.specs.Deeds.{IsHad, body_had, bytes_had};
ghost use Rattle.trio_deeds.specs.Reads.{entries_counted, entries_within, is_entry};

use crate::sizes::{block_count, size_of};
use std::alloc::Global;
use trio_layout::{Slot, SlotRead};
use trio_nodes::SharedBytes;
use trio_page::{NoMemory, PAGE_SIZE, Page};
use trio_session::Session;

/// At most so many bytes of a file that the session has, from a place on.
#[tactic(auto, using(crate::proofs::Reading::read_all))]
pub fn bytes_of(
    alloc: Global,
    session: &Session,
    ino: u32,
    at: u64,
    len: u32,
) -> Result<SharedBytes, NoMemory>
    requires { IsHad session.now ino }
    ensures { IfOk result (λ bytes. bytes ≡ take len (drop at (bytes_had session.now ino))) }
{
    let size = size_of(session, ino);
    let start = at.min(size);
    let end = start + (size - start).min(u64::from(len));
    bytes_between(alloc, session, ino, start, end)
}

// the bytes of a file between two places in it; those of one page are copied out of it
fn bytes_between(
    alloc: Global,
    session: &Session,
    ino: u32,
    start: u64,
    end: u64,
) -> Result<SharedBytes, NoMemory>
    requires had { IsHad session.now ino }
    requires order { start ≤ end }
    requires within { end ≤ size_in (body_had session.now ino) }
    ensures { IfOk result (λ bytes. bytes ≡ take (end - start) (drop start (bytes_had session.now ino))) }
{
    let count = (end - start) as usize;
    if 0 < count && count <= PAGE_SIZE - start as usize % PAGE_SIZE {
        return SharedBytes::copied(alloc, piece_of(session, ino, start, count));
    }
    SharedBytes::from_vec(collected(alloc, session, ino, start, end)?)
}

// those bytes, page by page
fn collected(
    alloc: Global,
    session: &Session,
    ino: u32,
    start: u64,
    end: u64,
) -> Result<Vec<u8>, NoMemory>
    requires had { IsHad session.now ino }
    requires order { start ≤ end }
    requires within { end ≤ size_in (body_had session.now ino) }
    ensures { IfOk result (λ bytes. bytes.items ≡ take (end - start) (drop start (bytes_had session.now ino))) }
{
    let mut from = start;
    let mut out = Vec::new(alloc);
    while from < end {
        let left = PAGE_SIZE - from as usize % PAGE_SIZE;
        let count = left.min((end - from) as usize);
        out.extend_from_slice(piece_of(session, ino, from, count))?;
        from += count as u64;
    }
    Ok(out)
}

/// So many bytes of a file that the session has, from a place on, all in one page.
fn piece_of(session: &Session, ino: u32, from: u64, count: usize) -> &[u8]
    requires had { IsHad session.now ino }
    requires some { 0 < count }
    requires within { from + count ≤ size_in (body_had session.now ino) }
    requires inside { from % 4096 + count ≤ 4096 }
    ensures { result.now ≡ take count (drop from (bytes_had session.now ino)) }
{
    let offset = from as usize % PAGE_SIZE;
    let page = page_of(session, ino, (from / PAGE_SIZE as u64) as u32);
    &page.bytes()[offset..offset + count]
}

/// A block of a file that the session has.
fn page_of(session: &Session, ino: u32, block: u32) -> &Page
    requires had { IsHad session.now ino }
    requires block { block < length (pages_shown session.now ino) }
    ensures { result.now ≡ slice_index_or (pages_shown session.now ino) block [] }
{
    match session.block(ino, block) {
        Some(page) => page,
        None => unreachable!(),
    }
}

/// How many entries the blocks of a directory have, block by block.
pub fn entry_count(session: &Session, dir: u32) -> u64
    requires { IsHad session.now dir }
    ensures { result ≡ entries_counted (pages_shown session.now dir) }
{
    let blocks = block_count(size_of(session, dir));
    let mut count = 0;
    for block in 0..blocks {
        count += u64::from(entries_on(page_of(session, dir, block)));
    }
    count
}

/// How many slots of a directory's block have an entry.
#[tactic(auto, using(crate::proofs::Reading::entries_more, crate::proofs::Reading::entries_none))]
fn entries_on(page: &Page) -> u32
    ensures count { result ≡ entries_within 16 page.now }
    ensures few { result ≤ 16 }
{
    let mut count = 0;
    for slot in 0..16 {
        if has_entry(page, slot) {
            count += 1;
        }
    }
    count
}

/// Whether a slot of a directory's block has an entry.
fn has_entry(page: &Page, slot: usize) -> bool
    requires { slot < 16 }
    ensures { result ≡ is_entry (slot_of every_number (slot_bytes slot page.now)) }
{
    let from = 256 * slot;
    matches!(
        Slot::read(page.bytes()[from..from + 256].as_array().unwrap(), u32::MAX),
        SlotRead::Entry(_)
    )
}
