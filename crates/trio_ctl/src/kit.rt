//! All memory of one release.

ghost use Rattle.std.specs.Prelude.{◌≡◌, IfOk};
ghost use Rattle.trio_layout.specs.Range.{core_count};
ghost use Rattle.trio_ctl.specs.Kits.{HasKit, IsKit};

use std::alloc::Global;
use trio_case::{
    BundleSize, CASE_BYTES, CaseMemory, LISTED_NUMBER_BYTES, READ_CORE_BYTES, table_size,
};
use trio_entries::{DRAFT_BYTES, DraftMemory};
use trio_judge::{ROOM_BYTES, RoomMemory};
use trio_layout::CoreRange;
use trio_lease::Bundle;
use trio_page::NoMemory;

// `Ctl::room` tells no less than these sums, for a page of the bundle, for a write lease, hold or inode number
// in it, and for a page and an inode number of the image. They are sums of the sizes of types, written by hand
// beside each `with` after the lists that it makes, whose clauses say only that there are at least so many
// places.
const _: () = prove!(CASE_BYTES.page + ROOM_BYTES.page + DRAFT_BYTES.page <= 16384);

const _: () = prove!(CASE_BYTES.value + ROOM_BYTES.value + DRAFT_BYTES.value <= 1024);

const _: () = prove!(READ_CORE_BYTES <= 4);

const _: () = prove!(LISTED_NUMBER_BYTES <= 4);

// so it does of what is taken once a release: a number for every 511 core pages, of which no image has more
// than 8192, and the table's place for the number 0
const _: () = prove!(READ_CORE_BYTES * (8192 / 511 + 1) + LISTED_NUMBER_BYTES <= 1024);

/// All memory of one release: of its case, of its judgement, and of its entry in the log. It can be made
/// before there is a bundle.
#[derive(Drop)]
pub(crate) struct Kit {
    pub case: CaseMemory,
    pub room: RoomMemory,
    pub draft: DraftMemory,
}

impl Kit {
    /// Memory for the release of any bundle of at most this size, of an image of so many core pages. What is
    /// listed of an inode number below `numbers` takes one look.
    // (a call would move the three memories once more on their way out, which each release would pay for)
    #[inline(always)]
    pub fn with(
        alloc: Global,
        size: BundleSize,
        core: usize,
        numbers: usize,
    ) -> Result<Kit, NoMemory>
        ensures { IfOk result (IsKit size core) }
    {
        let case = CaseMemory::with(alloc, size)?;
        let Ok(room) = RoomMemory::with(alloc, size, core, numbers) else {
            drop(case);
            return Err(NoMemory);
        };
        let Ok(draft) = DraftMemory::with(alloc, size) else {
            drop(room);
            drop(case);
            return Err(NoMemory);
        };
        Ok(Kit { case, room, draft })
    }

    /// Memory for the release of just this bundle, of an image with these core pages and so many inode
    /// numbers.
    pub fn of(
        alloc: Global,
        bundle: &Bundle,
        range: CoreRange,
        inodes: u32,
    ) -> Result<Kit, NoMemory>
        ensures { IfOk result (HasKit (record { range = range; inodes = inodes }) bundle.now) }
    {
        let size = BundleSize::of(bundle)?;
        let kit = Kit::with(alloc, size, core_pages(range), table_size(bundle, inodes))?;
        Ok(kit)
    }
}

/// How many core pages there are.
pub(crate) fn core_pages(range: CoreRange) -> usize
    ensures { result ≡ core_count range }
{
    range.end.saturating_sub(range.first) as usize
}
