//! The memory of what is read in a judgement.

ghost use Rattle.std.specs.Prelude.{◌≡◌, ◌*◌, ◌<◌, ◌≤◌, IfOk, IfSome, is_some, length, map};
ghost use Rattle.trio_lists.specs.Lists.{is_among};
ghost use Rattle.trio_rights.specs.Bundle.{bundle_pages};
ghost use Rattle.trio_lease.specs.Views.{bundle_in};
ghost use Rattle.trio_case.specs.Order.{in_order, place_of};
ghost use Rattle.trio_case.specs.Reading.{listed_seen};
ghost use Rattle.trio_case.specs.Rooms.{entries_kept, looks_left, HasPageMemory, IsPageMemory, IsRoomFor, Keeps};

use crate::case::Case;
use crate::entries::DirEntry;
use crate::kept::{KEPT_BYTES, KeptPages, SAID_BYTES, name_count};
use crate::size::BundleSize;
use std::alloc::Global;
use trio_marks::Marks;
use trio_page::NoMemory;

/// How many bytes the memory of what is read takes for each page of a bundle: for what the page says, and
/// for marks over 16 names.
pub const READ_PAGE_BYTES: usize = KEPT_BYTES + SAID_BYTES + 16 * size_of::<u32>();

/// How many bytes it takes for each core page of the image, beside those for index pages.
pub const READ_CORE_BYTES: usize = size_of::<u32>();

/// The memory of what is read of a case, by the size of the bundle and the number of core pages.
///
/// What a page of the bundle says is kept here once it was read.
#[derive(Drop)]
pub struct PageRoom {
    pub(crate) kept: KeptPages,
    // the index pages of the file that was read last
    pub(crate) index: Vec<u32>,
    // its blocks
    pub(crate) blocks: Vec<u32>,
    // marks of the names of one directory, over the numbers of all that are kept
    pub(crate) named: Marks,
}

impl PageRoom {
    /// Memory for what is read of any bundle of at most this size, of an image of so many core pages. It can
    /// be made before there is a bundle.
    pub fn with(alloc: Global, size: BundleSize, core: usize) -> Result<PageRoom, NoMemory>
        ensures { IfOk result (IsPageMemory size core) }
    {
        let kept = KeptPages::for_reading(alloc, size)?;
        let names = name_count(size)?;
        Ok(PageRoom {
            kept,
            index: Vec::with_capacity(alloc, core.div_ceil(511))?,
            blocks: Vec::with_capacity(alloc, core)?,
            named: Marks::with(alloc, names)?,
        })
    }

    /// Makes it the room of a case, of which nothing was read yet. It takes no memory.
    pub fn fill(&mut self, case: &Case)
        requires { HasPageMemory case.now self.old }
        ensures { IsRoomFor case.now self.new }
    {
        self.kept.fill(case.bundle());
    }

    /// A fact, and no step: in a room that was just made for a case, what is kept is true of it.
    pub fn new_room_keeps(&self, case: &Case)
        requires { IsRoomFor case.now self.now }
        ensures keeps { Keeps case.now self.now }
        ensures looks { looks_left self.now ≤ 2 * length (bundle_pages (bundle_in case.now.bundle)) }
    {
        let _bundle = case.bundle();
    }

    /// How many pages the bundle of this case has, for which the room was made.
    pub fn page_count(&self, case: &Case) -> usize
        requires { IsRoomFor case.now self.now }
        ensures { result ≡ length (bundle_pages (bundle_in case.now.bundle)) }
    {
        let _case = case;
        self.kept.pages.len()
    }

    /// The place of a page among the bundle's, in the order of their numbers. `None` exactly where it
    /// is none of the bundle's.
    pub fn place(&self, case: &Case, page: u32) -> Option<usize>
        requires { Keeps case.now self.now }
        ensures place { result ≡ place_of page (in_order (bundle_pages (bundle_in case.now.bundle))) }
        ensures own { is_some result ≡ is_among page (bundle_pages (bundle_in case.now.bundle)) }
        ensures within { IfSome result (λ at. at < length (bundle_pages (bundle_in case.now.bundle))) }
    {
        let _bundle = case.bundle();
        match self.kept.find(page) {
            Some((at, _)) => Some(at),
            None => None,
        }
    }

    /// The index pages of the file that was read last, in the order of the chain.
    pub fn index(&self) -> &[u32]
        ensures { result.now ≡ self.now.index.items }
    {
        &self.index
    }

    /// The blocks of the file that was read last, in the order of the file.
    pub fn blocks(&self) -> &[u32]
        ensures { result.now ≡ self.now.blocks.items }
    {
        &self.blocks
    }

    /// The entries that were read on a block, in the order of the slots. None where it wasn't read
    /// as a directory block, or is none of the bundle's.
    pub fn entries_of(&self, case: &Case, block: u32) -> &[DirEntry]
        requires { Keeps case.now self.now }
        ensures { map (listed_seen self.now.kept.names.names) result.now ≡ entries_kept self.now.kept block }
    {
        self.kept.entries_of(case, block)
    }
}
