//! The index that a library keeps of a file's blocks.

ghost use Rattle.std.specs.Prelude.{◌/◌, ◌^◌, ◌<◌, length, IsTrue};
ghost use Rattle.trio_auxfile.specs.Blocks.{block_number, blocks_of, bytes_of, NamesBlocks};

use std::alloc::Global;
use trio_auxfile::BlockIndex;
use trio_lease::{LentPage, WriteLease, WriteParts};
use trio_page::field::{put_u64_in, u64_in};
use trio_page::{NoMemory, Page, PageNo};
use trio_rights::{Kind, LibNo};

/// An index page that names the pages from `first` on.
fn index_page(alloc: Global, first: u32) -> Result<LentPage, NoMemory> {
    let mut page = Page::zero(alloc)?;
    for i in 0..511u16 {
        page.put_u64(8 * usize::from(i), u64::from(first) + u64::from(i));
    }
    Ok(LentPage {
        no: PageNo(20),
        page,
        touched: false,
    })
}

fn index_pages(alloc: Global) -> Result<Vec<LentPage>, NoMemory> {
    let mut pages = Vec::new(alloc);
    for first in [1000, 1511] {
        pages.push(index_page(alloc, first)?)?;
    }
    Ok(pages)
}

/// A lease on a file of so many bytes, block i of which stands on page 1000 + i.
fn lease_of(alloc: Global, size: u64) -> Result<WriteLease, NoMemory> {
    let mut body = [0; 64];
    put_u64_in(&mut body, 16, size);
    Ok(WriteLease::of(WriteParts {
        lib: LibNo(2),
        ino: 7,
        kind: Kind::Regular,
        entry: 5,
        body,
        index: index_pages(alloc)?,
        blocks: Vec::new(alloc),
    }))
}

/// The condition of a rebuild.
fn names_blocks(lease: &WriteLease) -> bool
    ensures { IsTrue result → NamesBlocks (blocks_of lease.now.stands.body) (bytes_of lease.now.stands.index) }
{
    let blocks = u64_in(lease.body(), 16).div_ceil(4096) as usize;
    for i in 0..blocks {
        if !is_named(lease, i) {
            return false;
        }
    }
    true
}

/// Block i is named by a number of 32 bits.
fn is_named(lease: &WriteLease, i: usize) -> bool
    ensures index { IsTrue result → i / 511 < length lease.now.stands.index }
    ensures narrow { IsTrue result → block_number (bytes_of lease.now.stands.index) i < 2 ^ 32 }
{
    match lease.index(i / 511) {
        Some(page) => page.u64_at(8 * (i % 511)) < 0x1_0000_0000,
        None => false,
    }
}

/// The index of that file, where its lease meets the condition.
fn rebuilt(alloc: Global, size: u64) -> Result<BlockIndex, NoMemory> {
    let lease = lease_of(alloc, size)?;
    let built = if names_blocks(&lease) {
        BlockIndex::rebuild(alloc, &lease)
    } else {
        Err(NoMemory)
    };
    lease.discard();
    built
}

/// Whether the index is that of a file of so many blocks, each on page 1000 + i.
fn has(index: &BlockIndex, blocks: u32) -> bool {
    for i in 0..700u32 {
        let wanted = if i < blocks {
            Some(PageNo(1000 + i))
        } else {
            None
        };
        if index.page_of(i) != wanted {
            return false;
        }
    }
    true
}

/// Tells of blocks up to so many, block i on page 1000 + i.
fn grow_to(index: &mut BlockIndex, blocks: u16) -> Result<(), NoMemory> {
    for i in 0..blocks {
        if usize::from(i) == index.len() {
            index.reserve(1)?;
            index.grow(PageNo(1000 + u32::from(i)));
        }
    }
    Ok(())
}

/// Grows the index and cuts it: whether it then has each time just the blocks that it was told of.
fn stays_in_step(index: &mut BlockIndex, grown: u16, cut: u16) -> Result<bool, NoMemory> {
    grow_to(index, grown)?;
    if !has(index, u32::from(grown)) || index.len() < usize::from(cut) {
        return Ok(false);
    }
    index.cut(u32::from(cut));
    Ok(has(index, u32::from(cut)))
}

/// To how many blocks an index grows, and to how many it is cut then: over the ends of index pages and
/// down to nothing.
const STEPS: &[(u16, u16)] = &[(602, 511), (512, 0), (1, 1), (600, 600)];

/// Whether an index has so many blocks, and then stays in step.
fn is_kept(mut index: BlockIndex, blocks: u32) -> Result<bool, NoMemory> {
    let mut all = has(&index, blocks);
    for (grown, cut) in STEPS {
        all = stays_in_step(&mut index, *grown, *cut)? && all;
    }
    Ok(all)
}

#[test]
fn index_of_a_lease_is_kept(rt: HostRuntime) -> Result<(), NoMemory> {
    assert!(rt; is_kept(rebuilt(rt.alloc(), 600 * 4096 - 1)?, 600)?);
    Ok(())
}

#[test]
fn index_grows_from_nothing(rt: HostRuntime) -> Result<(), NoMemory> {
    assert!(rt; is_kept(BlockIndex::new(rt.alloc()), 0)?);
    Ok(())
}
