//! One file read whole.

ghost use Rattle.std.specs.Prelude.{◌≡◌, ◌+◌, ◌≤◌, IfOk, OnOk, map};
ghost use Rattle.trio_layout.specs.Range.{core_count};
ghost use Rattle.trio_layout.specs.Survey.{file_of};
ghost use Rattle.trio_survey.specs.Seen.{core_with, met_seen, read_seen};
ghost use Rattle.trio_survey.specs.Within.{inos, IsWithin};
ghost use Rattle.trio_survey.specs.inner.Blocks.{HasParts, SaysBlocks};
ghost use Rattle.trio_survey.specs.inner.Files.{file_kept, listing_blocks};
ghost use Rattle.trio_survey.specs.inner.Kept.{kept_count, Keeps};
ghost use Rattle.trio_lists.specs.Lists.{result_map};

use crate::chain::{ChainParts, read_chain_kept};
use crate::entries::read_directory;
use crate::kept::Kept;
use std::alloc::Global;
use trio_layout::{Body, CoreRange, EntryPart, Location};
use trio_page::{Home, NoMemory, Reads};
use trio_rights::Kind;

/// A file that the survey meets: what its directory says of it, where, and the bytes of its body.
#[derive(Clone, Copy)]
pub struct MetFile {
    /// The inode number, counted from 1.
    pub ino: u32,
    pub kind: Kind,
    /// The inode number of its directory, or 0 for the root.
    pub parent: u32,
    /// The directory page that lists it, or 0 for the root.
    pub page: u32,
    /// Its slot on that page, counted from 0.
    pub slot: u16,
    pub body: [u8; 64],
}

/// An entry of a directory at its place, with the bytes of the body in its slot.
#[derive(Clone, Copy)]
pub struct EntryRead {
    pub entry: EntryPart,
    /// The directory page.
    pub page: u32,
    /// The slot on that page, counted from 0.
    pub slot: u16,
    pub body: [u8; 64],
}

/// What a file says.
#[derive(Drop)]
pub struct FileParts {
    pub body: Body,
    /// The numbers of its index pages, in the order of the chain.
    pub index: Vec<u32>,
    /// The numbers of its blocks, in the order of the file.
    pub blocks: Vec<u32>,
    /// The entries of a directory, in the order of block and slot; none of what is no directory.
    pub entries: Vec<EntryRead>,
}

/// What a file says but for its entries.
#[derive(Drop)]
pub(crate) struct FilePages {
    pub body: Body,
    pub chain: ChainParts,
}

/// Reads a file that is met, in an image with these core pages and so many inode numbers.
/// Blocks of what is no directory aren't looked at, and each core page is looked at once at most.
///
/// Where the file leaves the grammar or a page is absent, the answer is the first such place, in this
/// order: neither page nor slot for its body; an index page as a whole; a directory page that is
/// absent as a whole, or a bad slot; and of entries with the same name the first one that has the name
/// of one before it. What lies behind a fault isn't looked at.
///
/// After [`NoMemory`] the pages are as they were, as they are after any answer.
#[tactic(auto, using(crate::proofs::KeptPages::few_kept))]
pub fn read_file(
    alloc: Global,
    home: &mut Home,
    range: CoreRange,
    inodes: u32,
    met: &MetFile,
    reads: &mut Reads,
) -> Result<Result<FileParts, Location>, NoMemory>
    ensures pages { home.new.pages ≡ home.old.pages }
    ensures file { IfOk result (λ r. read_seen r ≡ file_of (core_with home.old.pages range inodes) (met_seen met.now)) }
    ensures within { IfOk result (λ r. IfOk r (λ f. IsWithin range inodes f.index.items f.blocks.items (inos f.entries.items))) }
    ensures reads { reads.new ≤ reads.old + core_count range }
    ensures looked { home.new.looked ≤ home.old.looked + core_count range }
{
    let mut kept = Kept::none(alloc, range)?;
    let FilePages { body, chain } = match read_pages(
        alloc, home, range, inodes, met, &mut kept, reads,
    )? {
        Ok(file) => file,
        Err(place) => return Ok(Err(place)),
    };
    let ChainParts { index, blocks } = chain;
    let entries = kept
        .blocks
        .listed(alloc, range, listing_blocks(met.kind, &blocks))?;
    Ok(Ok(FileParts {
        body,
        index,
        blocks,
        entries,
    }))
}

/// As [`read_file`], where the entries are kept, and no page that is kept is looked at.
#[tactic(auto, unfolding(trio_layout::specs::Survey::file_of))]
pub(crate) fn read_pages(
    alloc: Global,
    home: &mut Home,
    range: CoreRange,
    inodes: u32,
    met: &MetFile,
    kept: &mut Kept,
    reads: &mut Reads,
) -> Result<Result<FilePages, Location>, NoMemory>
    requires keeps { Keeps range home.old.pages kept.old.pages.pages.items }
    requires parts { HasParts range kept.old.blocks }
    requires says { SaysBlocks home.old.pages range inodes kept.old.blocks }
    ensures pages { home.new.pages ≡ home.old.pages }
    ensures keeps { Keeps range home.old.pages kept.new.pages.pages.items }
    ensures parts { OnOk result (HasParts range kept.new.blocks) }
    ensures says { OnOk result (SaysBlocks home.old.pages range inodes kept.new.blocks) }
    ensures looks { reads.new + kept_count kept.old.pages.pages.items ≤ reads.old + kept_count kept.new.pages.pages.items }
    ensures looked { home.new.looked + kept_count kept.old.pages.pages.items ≤ home.old.looked + kept_count kept.new.pages.pages.items }
    ensures file { IfOk result (λ r. result_map (file_kept range kept.new.blocks met.now.kind) r ≡ file_of (core_with home.old.pages range inodes) (met_seen met.now)) }
    ensures within { IfOk result (λ r. IfOk r (λ f. IsWithin range inodes f.chain.index.items f.chain.blocks.items
        (map (λ l. l.entry.ino) (file_kept range kept.new.blocks met.now.kind f).entries))) }
{
    let Some(body) = Body::read(&met.body, met.kind, range) else {
        return Ok(Err(Location { page: 0, slot: 0 }));
    };
    let chain = match read_chain_kept(alloc, home, range, &body, &mut kept.pages, reads)? {
        Ok(chain) => chain,
        Err(place) => return Ok(Err(place)),
    };
    let blocks = listing_blocks(met.kind, &chain.blocks);
    match read_directory(alloc, home, range, inodes, blocks, kept, reads)? {
        Ok(()) => Ok(Ok(FilePages { body, chain })),
        Err(place) => Ok(Err(place)),
    }
}

/// The blocks of a file in which entries stand: none of what is no directory.
pub(crate) fn listing_blocks(kind: Kind, blocks: &[u32]) -> &[u32]
    ensures { result.now ≡ listing_blocks kind blocks.now }
{
    if kind.is_directory() { blocks } else { &[] }
}
