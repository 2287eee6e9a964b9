//! The judge of a bundle.

ghost use Rattle.std.specs.Prelude.{◌≡◌, ◌+◌, ◌*◌, ◌≤◌, IfOk, length};
ghost use Rattle.trio_rights.specs.Bundle.{bundle_pages};
ghost use Rattle.trio_layout.specs.Rule.{rule_number};
ghost use Rattle.trio_lease.specs.Views.{bundle_in};
ghost use Rattle.trio_case.specs.Cases.{case_in};
ghost use Rattle.trio_judge.specs.Verdicts.{meets_three, HasFewEntries, HasListing, IsLowest, is_sound};
ghost use Rattle.trio_judge.specs.Judging.{IsJudgeRoom};
ghost use Rattle.trio_judge.specs.Memory.{HasRoomMemory, IsRoomMemory};
ghost use Rattle.trio_judge.specs.inner.Walk.{HasEnded, IsPassed};

use crate::start::{WALK_BYTES, WalkMemory, add_marks};
use crate::walk::Walk;
use std::alloc::Global;
use trio_case::{BundleSize, BytesEach, Case, Listing, PageRoom, READ_PAGE_BYTES, table_size};
use trio_layout::{FaultAt, Rule};
use trio_page::{NoMemory, Reads};

/// What the judge says of a bundle.
#[derive(Drop)]
pub enum Verdict {
    /// The rules I1, I2 and I4 hold, and this is what the bundle lists.
    Sound(Listing),
    /// The number of the lowest of these rules that fails, and where.
    ///
    /// - Of an entry, `ino` is the directory that has it, and `page` and `slot` are its place.
    /// - Of a page that a file lists, `ino` is that file, `page` the page, and `slot` is 0.
    /// - Of the body of a file, `ino` is that file, and `page` and `slot` are 0.
    Broken {
        rule: u8,
        ino: u32,
        page: u32,
        slot: u16,
        /// What the bundle lists; it is there exactly where the rule is [`Rule::Rights`].
        listing: Option<Listing>,
    },
}

impl Verdict {
    fn broken(rule: Rule, at: FaultAt, listing: Option<Listing>) -> Verdict
        ensures { result ≡ Verdict.Broken (rule_number rule) at.ino at.place.page at.place.slot listing }
    {
        Verdict::Broken {
            rule: rule.number(),
            ino: at.ino,
            page: at.place.page,
            slot: at.place.slot,
            listing,
        }
    }
}

/// All the memory that the judgement of a case takes, by its numbers of pages, leases, holds and
/// inode numbers.
#[derive(Drop)]
pub struct Room {
    pages: PageRoom,
    walk: Walk,
    /// In the order of the bundle's pages, whether a directory whose chain begins with the page was
    /// gone over, so that another one needn't be.
    heads: Vec<bool>,
}

/// How many bytes the memory of a judgement takes, beside those for the image's core pages and inode
/// numbers.
pub const ROOM_BYTES: BytesEach = BytesEach {
    page: READ_PAGE_BYTES + WALK_BYTES.page + size_of::<bool>(),
    value: WALK_BYTES.value,
};

/// The memory of a judgement, by how much its bundle may have. It can be made before there is a bundle.
#[derive(Drop)]
pub struct RoomMemory {
    pages: PageRoom,
    walk: WalkMemory,
    heads: Vec<bool>,
}

impl RoomMemory {
    /// Memory for the judgement of any bundle of at most this size, of an image of so many core pages. What is
    /// listed of an inode number below `numbers` takes one look.
    pub fn with(
        alloc: Global,
        size: BundleSize,
        core: usize,
        numbers: usize,
    ) -> Result<RoomMemory, NoMemory>
        ensures { IfOk result (IsRoomMemory size core) }
    {
        Ok(RoomMemory {
            pages: PageRoom::with(alloc, size, core)?,
            walk: WalkMemory::with(alloc, size, numbers)?,
            heads: Vec::with_capacity(alloc, size.pages)?,
        })
    }
}

impl Room {
    /// The room of a case, in memory that was made for it. It takes no memory.
    pub fn of(memory: RoomMemory, case: &Case) -> Room
        requires { HasRoomMemory case.now memory }
        ensures { IsJudgeRoom case.now result }
    {
        let RoomMemory {
            mut pages,
            walk,
            mut heads,
        } = memory;
        pages.fill(case);
        let count = pages.page_count(case);
        let walk = Walk::of(walk, case, count);
        add_marks(&mut heads, count, false);
        Room { pages, walk, heads }
    }

    /// Room for the judgement of this case, whatever its pages say then.
    pub fn with(alloc: Global, case: &Case) -> Result<Room, NoMemory>
        ensures { IfOk result (IsJudgeRoom case.now) }
    {
        let memory = memory_for(alloc, case)?;
        Ok(Room::of(memory, case))
    }
}

/// Memory for the judgement of just this case.
fn memory_for(alloc: Global, case: &Case) -> Result<RoomMemory, NoMemory>
    ensures { IfOk result (HasRoomMemory case.now) }
{
    let range = case.range();
    let core = range.end.saturating_sub(range.first) as usize;
    let size = BundleSize::of(case.bundle())?;
    let numbers = table_size(case.bundle(), case.inodes());
    let memory = RoomMemory::with(alloc, size, core, numbers)?;
    Ok(memory)
}

/// Judges the rules I1, I2 and I4 of a bundle, in a room that was made for its case, whatever bytes
/// its pages have got since. It takes no memory, and the listing keeps that of the room.
///
/// A listing in its verdict has at most 16 entries for each page of the bundle.
///
/// A page of the bundle is looked at no more than twice. Once I2 is known to fail, the entries of one
/// directory alone are gone over of all whose chains begin with the same index page.
pub fn judge(case: &Case, room: Room, reads: &mut Reads) -> Verdict
    requires { IsJudgeRoom case.now room }
    ensures sound { is_sound result ≡ meets_three (case_in case.now) }
    ensures lowest { IsLowest (case_in case.now) result }
    ensures listing { HasListing (case_in case.now) result }
    ensures few { HasFewEntries (case_in case.now) result }
    ensures reads { reads.new ≤ reads.old + 2 * length (bundle_pages (bundle_in case.now.bundle)) }
{
    let Room {
        mut pages,
        mut walk,
        mut heads,
    } = room;
    pages.new_room_keeps(case);
    let mut at = 0;
    while at < walk.files.len() {
        if let Err(fault) = walk.visit(case, &mut pages, &mut heads, at, reads) {
            return Verdict::broken(Rule::Grammar, fault, None);
        }
        at += 1;
    }
    conclude(case, walk)
}

/// What the walk found, after it passed all files.
fn conclude(case: &Case, walk: Walk) -> Verdict
    requires ended { HasEnded (case_in case.now) walk }
    requires passed { IsPassed (case_in case.now) (length walk.files.items) walk }
    ensures sound { is_sound result ≡ meets_three (case_in case.now) }
    ensures lowest { IsLowest (case_in case.now) result }
    ensures listing { HasListing (case_in case.now) result }
    ensures few { HasFewEntries (case_in case.now) result }
{
    let _case = case;
    if let Some(fault) = walk.owning {
        return Verdict::broken(Rule::Owning, fault, None);
    }
    match walk.rights {
        Some(fault) => Verdict::broken(Rule::Rights, fault, Some(walk.listing)),
        None => Verdict::Sound(walk.listing),
    }
}
