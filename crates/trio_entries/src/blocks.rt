//! What a release tells of blocks.

ghost use Rattle.std.specs.Prelude.{◌≡◌, ◌+◌, ◌≤◌, ◌<◌, ◌^◌, ◌==◌, ◌++◌, ◌∷◌, [], List, None, Option, false, if◌then◌else◌, length, not, slice_get, vec_capacity, vec_len};
ghost use Rattle.std.specs.List.{flat_map};
ghost use Rattle.std.specs.Option.{option_map, option_map_or};
ghost use Rattle.trio_rights.specs.Row.{Row};
ghost use Rattle.trio_lease.specs.Views.{bundle_in};
ghost use Rattle.trio_layout.specs.Case.{bundle_core};
ghost use Rattle.trio_layout.specs.Core.{page_of};
ghost use Rattle.trio_case.specs.Cases.{case_in};
ghost use Rattle.trio_nodes.specs.Told.{block_in, page_in};
ghost use Rattle.trio_nodes.specs.Handed.{Handed as HandedSeen};
ghost use Rattle.trio_state.specs.Listed.{accepted_blocks, block_told, blocks_listed_of, blocks_of_kind, changed_blocks, is_block_changed, lent_blocks, refused_blocks};
ghost use Rattle.trio_entries.specs.Handed.{handed_in};
ghost use Rattle.trio_entries.specs.Telling.{whole_case};
ghost use Rattle.trio_entries.specs.inner.Finding.{IsFinderOf, IsJudgedBy, IsMarkedBy};
ghost use Rattle.trio_entries.specs.inner.Placed.{blocks_in, numbers_of};

use crate::finder::{Finder, lease_on};
use crate::handed::block_number;
use crate::notes::Notes;
use trio_case::{Case, Listing};
use trio_lease::WriteLease;
use trio_nodes::{PlacedBlock, RawFile};

/// The blocks of a release that is accepted, by the files that it tells, put into an empty list that
/// has places for them.
pub(crate) fn accepted_blocks(
    blocks: &mut Vec<PlacedBlock>,
    case: &Case,
    listing: &Listing,
    notes: &Notes,
    finder: &Finder,
    files: &[RawFile],
)
    requires empty { blocks.old.items ≡ [] }
    requires places { length (flat_map (λ f. blocks_listed_of listing.now.listing f.ino) files.now) ≤ vec_capacity blocks.old }
    requires few { length (flat_map (λ f. blocks_listed_of listing.now.listing f.ino) files.now) < 2 ^ 32 }
    requires finder { IsFinderOf case.now finder.now }
    requires marked { IsMarkedBy (handed_in case.now.bundle) finder.now }
    requires judged { IsJudgedBy case.now listing.now.listing finder.now }
    ensures { (rows : List (Option Row)) → blocks_in case.now blocks.new.items ≡ accepted_blocks (whole_case case.now rows) listing.now.listing notes.now (handed_in case.now.bundle) files.now }
{
    for file in files {
        let pages = listed_blocks(case, listing, finder, file.ino);
        let told = !file.kind.is_directory();
        add_told(
            blocks,
            case,
            notes,
            finder,
            file,
            told,
            &Pages::Listed(pages),
        );
    }
}

/// The blocks of a release that is refused, by the files that it tells, put into an empty list that
/// has places for them.
pub(crate) fn refused_blocks(
    blocks: &mut Vec<PlacedBlock>,
    case: &Case,
    notes: &Notes,
    finder: &Finder,
    files: &[RawFile],
)
    requires empty { blocks.old.items ≡ [] }
    requires places { length (flat_map (λ f. lent_blocks (bundle_in case.now.bundle) f.ino) files.now) ≤ vec_capacity blocks.old }
    requires few { length (flat_map (λ f. lent_blocks (bundle_in case.now.bundle) f.ino) files.now) < 2 ^ 32 }
    requires finder { IsFinderOf case.now finder.now }
    requires marked { IsMarkedBy (handed_in case.now.bundle) finder.now }
    ensures { (rows : List (Option Row)) → blocks_in case.now blocks.new.items ≡ refused_blocks (whole_case case.now rows) notes.now (handed_in case.now.bundle) files.now }
{
    for file in files {
        let pages = lent_blocks(case, file.ino);
        let told = !file.kind.covers_blocks(file.guard);
        add_told(blocks, case, notes, finder, file, told, &pages);
    }
}

/// The pages of a file's blocks, in the order of the file.
#[derive(Drop)]
enum Pages<'a> {
    /// By their numbers.
    Listed(&'a [u32]),
    /// Those of a lease.
    Lent(&'a WriteLease),
}

impl<'a> Pages<'a> {
    fn len(&self) -> usize
        ensures { result ≡ length (numbers_of self.now) }
    {
        match self {
            Pages::Listed(pages) => pages.len(),
            Pages::Lent(lease) => lease.blocks_len(),
        }
    }

    /// The number of page `i`, counted from 0. `None` exactly past the last.
    fn number(&self, i: usize) -> Option<u32>
        ensures { result ≡ slice_get (numbers_of self.now) i }
    {
        match self {
            Pages::Listed(pages) => pages.get(i).copied(),
            Pages::Lent(lease) => block_number(lease, i),
        }
    }
}

/// The blocks of a judged file, as the listing has them; none of a file that isn't judged.
fn listed_blocks<'a>(case: &Case, listing: &'a Listing, finder: &Finder, ino: u32) -> &'a [u32]
    requires { IsJudgedBy case.now listing.now.listing finder.now }
    ensures { result.now ≡ blocks_listed_of listing.now.listing ino }
{
    match finder.judged(case, ino) {
        Some(at) => listing.blocks(at),
        None => &[],
    }
}

/// The blocks that a file was lent with; none of a file that isn't written.
fn lent_blocks(case: &Case, ino: u32) -> Pages<'_>
    ensures { numbers_of result ≡ lent_blocks (bundle_in case.now.bundle) ino }
{
    match lease_on(case, ino) {
        Some(lease) => Pages::Lent(lease),
        None => Pages::Listed(&[]),
    }
}

/// Adds those of a file's blocks that are told, given the pages of all, to a list that has places for
/// all. None is added where blocks of such a file aren't told.
fn add_told(
    blocks: &mut Vec<PlacedBlock>,
    case: &Case,
    notes: &Notes,
    finder: &Finder,
    file: &RawFile,
    told: bool,
    pages: &Pages<'_>,
)
    requires places { vec_len blocks.old + length (numbers_of pages.now) ≤ vec_capacity blocks.old }
    requires few { length (numbers_of pages.now) < 2 ^ 32 }
    requires finder { IsFinderOf case.now finder.now }
    requires marked { IsMarkedBy (handed_in case.now.bundle) finder.now }
    ensures told { (rows : List (Option Row)) → blocks_in case.now blocks.new.items ≡ blocks_in case.now blocks.old.items ++ blocks_of_kind (whole_case case.now rows) notes.now (handed_in case.now.bundle) file.now told (numbers_of pages.now) }
    ensures len { vec_len blocks.new ≤ vec_len blocks.old + length (numbers_of pages.now) }
    ensures capacity { vec_capacity blocks.new ≡ vec_capacity blocks.old }
{
    if told {
        add_changed(blocks, case, notes, finder, file, pages);
    }
}

/// Adds those of these blocks of a file that are told.
fn add_changed(
    blocks: &mut Vec<PlacedBlock>,
    case: &Case,
    notes: &Notes,
    finder: &Finder,
    file: &RawFile,
    pages: &Pages<'_>,
)
    requires places { vec_len blocks.old + length (numbers_of pages.now) ≤ vec_capacity blocks.old }
    requires few { length (numbers_of pages.now) < 2 ^ 32 }
    requires finder { IsFinderOf case.now finder.now }
    requires marked { IsMarkedBy (handed_in case.now.bundle) finder.now }
    ensures told { (rows : List (Option Row)) → blocks_in case.now blocks.new.items ≡ blocks_in case.now blocks.old.items ++ changed_blocks (whole_case case.now rows) notes.now (handed_in case.now.bundle) file.now 0 (numbers_of pages.now) }
    ensures len { vec_len blocks.new ≤ vec_len blocks.old + length (numbers_of pages.now) }
    ensures capacity { vec_capacity blocks.new ≡ vec_capacity blocks.old }
{
    for i in 0..pages.len() {
        let Some(page) = pages.number(i) else {
            return;
        };
        add_block(blocks, case, notes, finder, file, i as u32, page);
    }
}

/// Adds a block of a file, if it is told, to a list that has a place for it.
fn add_block(
    blocks: &mut Vec<PlacedBlock>,
    case: &Case,
    notes: &Notes,
    finder: &Finder,
    file: &RawFile,
    at: u32,
    page: u32,
)
    requires place { vec_len blocks.old < vec_capacity blocks.old }
    requires finder { IsFinderOf case.now finder.now }
    requires marked { IsMarkedBy (handed_in case.now.bundle) finder.now }
    ensures told { (rows : List (Option Row)) → blocks_in case.now blocks.new.items ≡ blocks_in case.now blocks.old.items ++ (if is_block_changed (whole_case case.now rows) notes.now (handed_in case.now.bundle) file.now at page then block_told (whole_case case.now rows) file.now.ino at page ∷ [] else []) }
    ensures len { vec_len blocks.new ≤ vec_len blocks.old + 1 }
    ensures capacity { vec_capacity blocks.new ≡ vec_capacity blocks.old }
{
    if is_changed(case, notes, finder, file, at, page) {
        blocks.push_reserved(block(case, finder, file.ino, at, page));
    }
}

/// Whether a block is told: its writer may have changed it, another page stood for it, or the size
/// counts bytes of it that the one before didn't.
fn is_changed(
    case: &Case,
    notes: &Notes,
    finder: &Finder,
    file: &RawFile,
    at: u32,
    page: u32,
) -> bool
    requires { IsFinderOf case.now finder.now }
    ensures { (rows : List (Option Row)) (handed : HandedSeen) → IsMarkedBy handed finder.now → result ≡ is_block_changed (whole_case case.now rows) notes.now handed file.now at page }
{
    let end = 4096 * u64::from(at) + 4096;
    finder.is_marked(page)
        || !is_lent_at(case, file.ino, at, page)
        || notes.size(file.ino) < file.size.min(end)
}

/// Whether a file was lent with this page for its block at a position.
fn is_lent_at(case: &Case, ino: u32, at: u32, page: u32) -> bool
    ensures { result ≡ option_map_or (λ q. q == page) (slice_get (lent_blocks (bundle_in case.now.bundle) ino) at) false }
{
    let Some(lease) = lease_on(case, ino) else {
        return false;
    };
    match lease.block_no(at as usize) {
        Some(no) => no.0 == page,
        None => false,
    }
}

/// A block, by where the page stands that was handed in for it.
fn block(case: &Case, finder: &Finder, ino: u32, at: u32, page: u32) -> PlacedBlock
    requires { IsFinderOf case.now finder.now }
    ensures { (rows : List (Option Row)) → block_in (handed_in case.now.bundle) result ≡ block_told (whole_case case.now rows) ino at page }
{
    let place = page_place(case, finder, page);
    PlacedBlock { ino, at, place }
}

/// Where the page of this number stands among all that were handed in; past all of them, where it is
/// none of the bundle's.
fn page_place(case: &Case, finder: &Finder, page: u32) -> usize
    requires { IsFinderOf case.now finder.now }
    ensures { option_map (λ p. p.bytes) (page_in (handed_in case.now.bundle) result) ≡ page_of (bundle_core (case_in case.now)) page }
{
    let _bundle = case.bundle();
    match finder.pages.nth(case, page) {
        Some(place) => place,
        None => u32::MAX as usize,
    }
}
