//! Where files and their pages stand.

ghost use Rattle.std.specs.Prelude.{◌≡◌, ◌+◌, ◌-◌, ◌^◌, min, ◌/◌, ◌<◌, ◌≤◌, ◌++◌, ◌∷◌, [], ℕ, OnOk, length, slice_index, slice_index_or, take, vec_capacity, vec_len};
ghost use Rattle.trio_lists.specs.Counting.{count_up};
ghost use Rattle.trio_layout.specs.Chain.{index_count};
ghost use Rattle.trio_lease.specs.Shown.{LentFile};
ghost use Rattle.trio_desk.specs.Out.{Parcel, lent_numbers};
ghost use Rattle.trio_session.specs.inner.Places.{IsAt, IsFile, chain_at, lease_of, room_laid};

use std::alloc::Global;
use trio_lease::WriteLease;
use trio_page::NoMemory;

/// How many block numbers an index page has.
pub(crate) const PER_INDEX: usize = 511;

/// How many index pages name so many blocks.
pub(crate) fn index_count(blocks: usize) -> usize
    ensures { result ≡ index_count blocks }
{
    blocks.div_ceil(PER_INDEX)
}

/// A page in hand: of a written file by the file's place among the written ones, or allotted, by its
/// place among the allotted ones. Each number is counted from 0.
#[derive(Clone, Copy)]
pub(crate) enum PagePlace {
    /// Index page `at` that lease `file` lent.
    Index { file: usize, at: usize },
    /// Block `at` that lease `file` lent.
    Block { file: usize, at: usize },
    /// Allotted page `at`.
    Fresh { at: usize },
}

/// A file in hand, by where its body stands: a written one by its place among these, counted from 0;
/// or one that the session made, by the place of a page of its directory and a slot of that page.
#[derive(Clone, Copy)]
pub(crate) enum FilePlace {
    /// The file of write lease `at`.
    Leased { at: usize },
    /// The file in slot `slot`, 0 to 15, of a page.
    InSlot { page: PagePlace, slot: usize },
}

impl FilePlace {
    /// The place of the file's write lease. A file that was made has none, and no page that was lent
    /// with it: the answer then says nothing.
    fn lease(self) -> usize
        ensures { result ≡ lease_of self }
    {
        match self {
            FilePlace::Leased { at } => at,
            FilePlace::InSlot { .. } => 0,
        }
    }
}

/// Where the index pages and the blocks of one file stand, in their order: the first of those that
/// were lent, and then allotted pages, by their places among these.
#[derive(Drop)]
pub(crate) struct Laid {
    pub(crate) index_kept: usize,
    pub(crate) blocks_kept: usize,
    pub(crate) index_more: Vec<usize>,
    pub(crate) blocks_more: Vec<usize>,
}

impl Laid {
    /// As the file was lent. It takes no memory.
    pub(crate) fn as_lent(alloc: Global, lease: &WriteLease) -> Laid
        ensures index_kept { result.index_kept ≡ length lease.now.stands.index }
        ensures blocks_kept { result.blocks_kept ≡ length lease.now.stands.blocks }
        ensures index_more { result.index_more.items ≡ [] }
        ensures blocks_more { result.blocks_more.items ≡ [] }
        ensures index_narrow { result.index_kept < 2 ^ 64 }
        ensures blocks_narrow { result.blocks_kept < 2 ^ 64 }
    {
        Laid {
            index_kept: lease.index_len(),
            blocks_kept: lease.blocks_len(),
            index_more: Vec::new(alloc),
            blocks_more: Vec::new(alloc),
        }
    }

    /// Of a file without pages. It takes no memory.
    pub(crate) fn new(alloc: Global) -> Laid
        ensures index_kept { result.index_kept ≡ 0 }
        ensures blocks_kept { result.blocks_kept ≡ 0 }
        ensures index_more { result.index_more.items ≡ [] }
        ensures blocks_more { result.blocks_more.items ≡ [] }
    {
        Laid {
            index_kept: 0,
            blocks_kept: 0,
            index_more: Vec::new(alloc),
            blocks_more: Vec::new(alloc),
        }
    }

    /// Where index page `i` of the file stands.
    pub(crate) fn index_place(&self, file: FilePlace, i: usize) -> PagePlace
        requires { i < self.now.index_kept + length self.now.index_more.items }
        ensures { (b : Parcel) → IsFile b file self.now → IsAt b result (slice_index (chain_at b file self.now).index i) }
    {
        if i < self.index_kept {
            PagePlace::Index {
                file: file.lease(),
                at: i,
            }
        } else {
            let at = self.index_more[i - self.index_kept];
            PagePlace::Fresh { at }
        }
    }

    /// Where block `k` of the file stands.
    pub(crate) fn block_place(&self, file: FilePlace, k: usize) -> PagePlace
        requires { k < self.now.blocks_kept + length self.now.blocks_more.items }
        ensures { (b : Parcel) → IsFile b file self.now → IsAt b result (slice_index (chain_at b file self.now).blocks k) }
    {
        if k < self.blocks_kept {
            PagePlace::Block {
                file: file.lease(),
                at: k,
            }
        } else {
            let at = self.blocks_more[k - self.blocks_kept];
            PagePlace::Fresh { at }
        }
    }

    /// How many index pages the file has.
    pub(crate) fn index_len(&self) -> usize
        requires { self.now.index_kept + length self.now.index_more.items < 2 ^ 64 }
        ensures { result ≡ self.now.index_kept + length self.now.index_more.items }
    {
        self.index_kept + self.index_more.len()
    }

    /// How many blocks the file has.
    pub(crate) fn blocks_len(&self) -> usize
        requires { self.now.blocks_kept + length self.now.blocks_more.items < 2 ^ 64 }
        ensures { result ≡ self.now.blocks_kept + length self.now.blocks_more.items }
    {
        self.blocks_kept + self.blocks_more.len()
    }

    /// Takes the allotted pages from place `from` on: as many index pages as so many blocks take
    /// beyond those that are there, and then the blocks. Returns the place behind them.
    pub(crate) fn take_pages(&mut self, blocks: usize, from: usize) -> usize
        requires room { blocks ≤ room_laid self.old }
        requires index { self.old.index_kept + length self.old.index_more.items ≤ index_count blocks }
        requires more { self.old.blocks_kept + length self.old.blocks_more.items ≤ blocks }
        requires fits { from + (index_count blocks - (self.old.index_kept + length self.old.index_more.items)) + (blocks - (self.old.blocks_kept + length self.old.blocks_more.items)) < 2 ^ 64 }
        ensures index_kept { self.new.index_kept ≡ self.old.index_kept }
        ensures blocks_kept { self.new.blocks_kept ≡ self.old.blocks_kept }
        ensures index { self.new.index_more.items ≡ self.old.index_more.items ++ count_up from (index_count blocks - (self.old.index_kept + length self.old.index_more.items)) }
        ensures blocks { self.new.blocks_more.items ≡ self.old.blocks_more.items
            ++ count_up (from + (index_count blocks - (self.old.index_kept + length self.old.index_more.items))) (blocks - (self.old.blocks_kept + length self.old.blocks_more.items)) }
        ensures next { result ≡ from + (index_count blocks - (self.old.index_kept + length self.old.index_more.items)) + (blocks - (self.old.blocks_kept + length self.old.blocks_more.items)) }
    {
        let index = index_count(blocks) - self.index_len();
        let blocks = blocks - self.blocks_len();
        push_up(&mut self.index_more, from, index);
        push_up(&mut self.blocks_more, from + index, blocks);
        from + index + blocks
    }

    /// Keeps the first so many blocks, and the index pages that name them.
    pub(crate) fn cut(&mut self, blocks: usize)
        ensures index_kept { self.new.index_kept ≡ min self.old.index_kept (index_count blocks) }
        ensures blocks_kept { self.new.blocks_kept ≡ min self.old.blocks_kept blocks }
        ensures index { self.new.index_more.items ≡ take (index_count blocks - self.old.index_kept) self.old.index_more.items }
        ensures blocks { self.new.blocks_more.items ≡ take (blocks - self.old.blocks_kept) self.old.blocks_more.items }
    {
        let index = index_count(blocks);
        self.index_more
            .truncate(index.saturating_sub(self.index_kept));
        self.blocks_more
            .truncate(blocks.saturating_sub(self.blocks_kept));
        self.index_kept = self.index_kept.min(index);
        self.blocks_kept = self.blocks_kept.min(blocks);
    }

    /// Makes room for the file to come to so many blocks. After [`NoMemory`] too nothing else has
    /// changed.
    pub(crate) fn reserve(&mut self, blocks: usize) -> Result<(), NoMemory>
        ensures index_kept { self.new.index_kept ≡ self.old.index_kept }
        ensures blocks_kept { self.new.blocks_kept ≡ self.old.blocks_kept }
        ensures index { self.new.index_more.items ≡ self.old.index_more.items }
        ensures blocks { self.new.blocks_more.items ≡ self.old.blocks_more.items }
        ensures room { OnOk result (blocks ≤ room_laid self.new) }
        ensures more { room_laid self.old ≤ room_laid self.new }
    {
        let more = index_count(blocks)
            .saturating_sub(self.index_kept)
            .saturating_sub(self.index_more.len());
        self.index_more.reserve(more)?;
        let more = blocks
            .saturating_sub(self.blocks_kept)
            .saturating_sub(self.blocks_more.len());
        self.blocks_more.reserve(more)
    }
}

/// Adds so many numbers from `from` on.
fn push_up(numbers: &mut Vec<usize>, from: usize, count: usize)
    requires room { length numbers.old.items + count ≤ vec_capacity numbers.old }
    requires fits { from + count < 2 ^ 64 }
    ensures { numbers.new.items ≡ numbers.old.items ++ count_up from count }
{
    for number in from..from + count {
        numbers.push_reserved(number);
    }
}
