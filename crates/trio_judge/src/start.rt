//! A walk before it begins.

ghost use Rattle.std.specs.Prelude.{◌≡◌, ◌+◌, ◌*◌, ◌≤◌, ◌++◌, [], IfOk, length, map, replicate, vec_capacity, vec_len};
ghost use Rattle.trio_rights.specs.Bundle.{bundle_pages};
ghost use Rattle.trio_lease.specs.Views.{bundle_in, written_in};
ghost use Rattle.trio_layout.specs.JudgedFiles.{written_files, written_met};
ghost use Rattle.trio_case.specs.Cases.{case_in};
ghost use Rattle.trio_case.specs.Listed.{no_listing};
ghost use Rattle.trio_judge.specs.inner.Walk.{file_met, listing_of, own_numbers, Starts};
ghost use Rattle.trio_judge.specs.inner.WalkMemory.{HasWalkMemory, IsWalkMemory};

use crate::walk::{JudgedFile, Walk, add};
use std::alloc::Global;
use trio_case::{BundleSize, BytesEach, Case, LISTED_BYTES, Listing, ListingRoom};
use trio_lease::WriteLease;
use trio_page::NoMemory;

/// How many bytes the memory of a walk takes.
pub(crate) const WALK_BYTES: BytesEach = BytesEach {
    page: size_of::<bool>() + LISTED_BYTES.index + LISTED_BYTES.blocks + 16 * LISTED_BYTES.entries,
    value: size_of::<JudgedFile>() + size_of::<bool>() + LISTED_BYTES.held + LISTED_BYTES.files,
};

/// The memory of a walk, by how much its bundle may have.
#[derive(Drop)]
pub(crate) struct WalkMemory {
    pub files: Vec<JudgedFile>,
    pub found: Vec<bool>,
    pub pages: Vec<bool>,
    pub listing: Listing,
}

impl WalkMemory {
    /// Memory for the walk of any bundle of at most this size. What is listed of an inode number below
    /// `numbers` takes one look.
    pub fn with(alloc: Global, size: BundleSize, numbers: usize) -> Result<WalkMemory, NoMemory>
        ensures { IfOk result (IsWalkMemory size) }
    {
        let room = ListingRoom {
            held: size.holds,
            files: size.values,
            index: size.pages,
            blocks: size.pages,
            entries: size.entries()?,
        };
        Ok(WalkMemory {
            files: Vec::with_capacity(alloc, size.values)?,
            found: Vec::with_capacity(alloc, size.values)?,
            pages: Vec::with_capacity(alloc, size.pages)?,
            listing: Listing::with(alloc, room, numbers)?,
        })
    }
}

impl Walk {
    /// The walk that has passed no file, with places for all that it may find. It takes no memory.
    pub fn of(memory: WalkMemory, case: &Case, count: usize) -> Walk
        requires memory { HasWalkMemory case.now memory }
        requires count { count ≡ length (bundle_pages (bundle_in case.now.bundle)) }
        ensures { Starts (case_in case.now) result }
    {
        let bundle = case.bundle();
        let WalkMemory {
            files,
            mut found,
            mut pages,
            listing,
        } = memory;
        // the written files are found from the start
        add_marks(&mut found, bundle.writes().len(), true);
        add_marks(&mut found, bundle.inodes().len(), false);
        add_marks(&mut pages, count, false);
        Walk {
            files: written_files(files, case),
            found,
            pages,
            listing: held_listing(listing, case),
            owning: None,
            rights: None,
        }
    }
}

/// The written files of a case in rising order of their numbers, in an empty list that has a place for
/// each, and for each new file.
fn written_files(mut files: Vec<JudgedFile>, case: &Case) -> Vec<JudgedFile>
    requires empty { files.items ≡ [] }
    requires places { length (own_numbers (case_in case.now)) ≤ vec_capacity files }
    ensures files { map file_met result.items ≡ written_files (case_in case.now) }
    ensures places { length (own_numbers (case_in case.now)) ≤ vec_capacity result }
{
    let bundle = case.bundle();
    for lease in bundle.writes() {
        add(&mut files, written(case, lease));
    }
    files.sort_unstable_by_key(|file| file.ino);
    files
}

/// A written file, with its lease's body, at the place that its row names.
fn written(case: &Case, lease: &WriteLease) -> JudgedFile
    ensures { file_met result ≡ written_met (case_in case.now) (written_in lease.now.stands) }
{
    let ino = lease.ino();
    let (parent, page, slot) = match case.row(ino) {
        Some(row) => (row.parent, row.page, row.slot),
        None => (0, 0, 0),
    };
    JudgedFile {
        ino,
        kind: lease.kind(),
        parent,
        page,
        slot,
        body: *lease.body(),
    }
}

/// Appends so many equal marks to a list that has places for them.
pub(crate) fn add_marks(marks: &mut Vec<bool>, count: usize, mark: bool)
    requires places { vec_len marks.old + count ≤ vec_capacity marks.old }
    ensures items { marks.new.items ≡ marks.old.items ++ replicate count mark }
    ensures len { vec_len marks.new ≡ vec_len marks.old + count }
    ensures capacity { vec_capacity marks.old ≤ vec_capacity marks.new }
{
    for _ in 0..count {
        add(marks, mark);
    }
}

/// The listing of the held numbers alone, in rising order, in an empty one that has a place for each.
fn held_listing(mut listing: Listing, case: &Case) -> Listing
    requires empty { listing.listing ≡ no_listing }
    requires places { length case.now.bundle.holds ≤ listing.room.held }
    ensures listing { result.listing ≡ listing_of (case_in case.now) [] [] }
    ensures room { result.room ≡ listing.room }
{
    for ino in case.held_numbers() {
        listing.add_held(*ino);
    }
    listing
}
