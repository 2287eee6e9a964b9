//! Block indexes.

ghost use Rattle.std.specs.Prelude.{◌≡◌, ◌+◌, ◌/◌, ◌^◌, ◌<◌, ◌≤◌, ◌++◌, ◌∷◌, [], IfOk, IsOk, OnErr, OnOk, length, slice_get, take};
ghost use Rattle.std.specs.Option.{option_map};
ghost use Rattle.trio_auxfile.specs.Blocks.{block_number, blocks_of, bytes_of, index_of_lease, NamesBlocks};
ghost use Rattle.trio_auxfile.specs.Numbers.{page_no};

use std::alloc::Global;
use std::marker::Model;
use trio_lease::WriteLease;
use trio_page::field::u64_in;
use trio_page::{NoMemory, PageNo};

/// The pages of a file's blocks, by the blocks' numbers counted from 0.
///
/// Contracts see the list of page numbers, and the room (`Blocks` of `specs/Numbers.antt`).
#[derive(Drop)]
pub struct BlockIndex {
    pages: Vec<u32>,
}

impl Model for BlockIndex {
    ghost use Rattle.std.specs.Prelude.{vec_capacity};
    ghost use Rattle.trio_auxfile.specs.Numbers.{Blocks};

    ghost Value = { Blocks };

    ghost view = { λ b. record { pages = b.pages.items; room = vec_capacity b.pages } };
}

impl BlockIndex {
    /// The index of a file without blocks. Takes no memory.
    pub fn new(alloc: Global) -> BlockIndex
        ensures { result.pages ≡ [] }
    {
        BlockIndex {
            pages: Vec::new(alloc),
        }
    }

    /// The index of the file that the lease has, as its body and its index pages stand. They name
    /// each block, as they do where body and chain are in the grammar
    /// ([`chain_is_index`](crate::chain_is_index)). `NoMemory`: there was no memory for it.
    pub fn rebuild(alloc: Global, lease: &WriteLease) -> Result<BlockIndex, NoMemory>
        requires { NamesBlocks (blocks_of lease.now.stands.body) (bytes_of lease.now.stands.index) }
        ensures { IfOk result (λ index. index.pages ≡ index_of_lease lease.now.stands) }
    {
        let blocks = u64_in(lease.body(), 16).div_ceil(4096) as usize;
        let mut pages = Vec::with_capacity(alloc, blocks)?;
        for i in 0..blocks {
            pages.push_reserved(block_page(lease, i));
        }
        Ok(BlockIndex { pages })
    }

    /// How many blocks there are.
    pub fn len(&self) -> usize
        ensures { result ≡ length self.now.pages }
    {
        self.pages.len()
    }

    /// The page of a block. `None` exactly where there is no such block.
    pub fn page_of(&self, block: u32) -> Option<PageNo>
        ensures { result ≡ option_map page_no (slice_get self.now.pages block) }
    {
        match self.pages.get(block as usize) {
            Some(number) => Some(PageNo(*number)),
            None => None,
        }
    }

    /// Makes room: after `Ok` so many calls of [`grow`](Self::grow) take no memory. Where there is
    /// room for them already, the answer is `Ok`. With [`NoMemory`] no block changed.
    pub fn reserve(&mut self, n: u32) -> Result<(), NoMemory>
        ensures kept { self.new ≡ record self.old { room = self.new.room } }
        ensures room { OnOk result (length self.new.pages + n ≤ self.new.room) }
        ensures grows { self.old.room ≤ self.new.room }
        ensures succeeds { length self.old.pages + n ≤ self.old.room → IsOk result }
    {
        self.pages.reserve(n as usize)
    }

    /// Tells of one further block, on this page. Takes no memory: a
    /// [`reserve`](Self::reserve) made its room.
    pub fn grow(&mut self, no: PageNo)
        requires { length self.old.pages < self.old.room }
        ensures { self.new ≡ record self.old { pages = self.old.pages ++ no.0 ∷ [] } }
    {
        self.pages.push_reserved(no.0);
    }

    /// Tells that the file has its first so many blocks alone, of those that it had. Takes no
    /// memory, and leaves the room of the others.
    pub fn cut(&mut self, blocks: u32)
        requires { blocks ≤ length self.old.pages }
        ensures { self.new ≡ record self.old { pages = take blocks self.old.pages } }
    {
        self.pages.truncate(blocks as usize);
    }
}

/// The number of the page of block `i`, by the lease's index pages.
fn block_page(lease: &WriteLease, i: usize) -> u32
    requires index { i / 511 < length lease.now.stands.index }
    requires narrow { block_number (bytes_of lease.now.stands.index) i < 2 ^ 32 }
    ensures { result ≡ block_number (bytes_of lease.now.stands.index) i }
{
    let page = lease.index(i / 511).unwrap();
    page.u64_at(8 * (i % 511)) as u32
}
