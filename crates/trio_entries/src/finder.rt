//! What is found by number while a release is told.

ghost use Rattle.std.specs.Prelude.{◌≡◌, ◌==◌, ◌||◌, ◌+◌, ◌++◌, ◌<◌, ◌≤◌, ◌^◌, [], ℕ, None, Some, IfOk, if◌then◌else◌, length, map, replicate, slice_get, slice_index_or, slice_set, vec_capacity, vec_len};
ghost use Rattle.std.specs.List.{find};
ghost use Rattle.std.specs.List.Sorted.{IsNonDecreasing};
ghost use Rattle.std.specs.Option.{option_copied, option_map, option_or};
ghost use Rattle.trio_rights.specs.Bundle.{bundle_pages};
ghost use Rattle.trio_lists.specs.Lists.{In, is_among};
ghost use Rattle.trio_layout.specs.Listing.{Listing as ListingSeen};
ghost use Rattle.trio_lease.specs.Views.{bundle_in};
ghost use Rattle.trio_case.specs.Memory.{size_of};
ghost use Rattle.trio_case.specs.Order.{place_of};
ghost use Rattle.trio_nodes.specs.Handed.{Handed as HandedSeen};
ghost use Rattle.trio_tables.specs.Row.{as_row};
ghost use Rattle.trio_state.specs.Listed.{is_marked};
ghost use Rattle.trio_entries.specs.Drafts.{HasFinderPlaces};
ghost use Rattle.trio_entries.specs.Handed.{handed_in};
ghost use Rattle.trio_entries.specs.inner.Finding.{has_mark, judged_place, own_numbers, IsFinderOf, IsJudgedBy, IsMarkedBy};

use std::alloc::Global;
use trio_case::{BundleSize, BytesEach, Case, INDEXED_PAGE_BYTES, ListedFile, Listing, PageIndex};
use trio_lease::WriteLease;
use trio_nodes::{Handed, HandedPage};
use trio_page::NoMemory;
use trio_tables::Row;

/// How many bytes a finder takes.
pub(crate) const FINDER_BYTES: BytesEach = BytesEach {
    page: INDEXED_PAGE_BYTES + size_of::<u32>(),
    value: size_of::<Option<usize>>(),
};

/// The bundle's pages by their numbers, and the judged files of a listing.
#[derive(Drop)]
pub(crate) struct Finder {
    pub pages: PageIndex,
    // of each written file, and then of each handed-in number, where its judged file stands in the
    // listing
    judged: Vec<Option<usize>>,
    // the lent blocks that are marked as touched, in rising order
    marked: Vec<u32>,
}

impl Finder {
    /// A finder for a bundle of this size, of which nothing was looked at. It takes all memory that
    /// [`look`](Self::look) and [`judge`](Self::judge) need.
    pub fn with(alloc: Global, size: BundleSize) -> Result<Finder, NoMemory>
        ensures { IfOk result (HasFinderPlaces size) }
    {
        Ok(Finder {
            pages: PageIndex::with(alloc, size.pages)?,
            judged: Vec::with_capacity(alloc, size.values)?,
            marked: Vec::with_capacity(alloc, size.pages)?,
        })
    }

    /// Looks at a case's bundle, which was handed in so.
    pub fn look(&mut self, case: &Case, handed: &Handed)
        requires places { HasFinderPlaces (size_of case.now.bundle) self.old }
        requires handed { handed.now ≡ handed_in case.now.bundle }
        requires few { length (bundle_pages (bundle_in case.now.bundle)) < 2 ^ 32 }
        ensures found { IsFinderOf case.now self.new }
        ensures marked { IsMarkedBy handed.now self.new }
        ensures judged { self.new.judged.items ≡ replicate (length (own_numbers case.now)) None }
    {
        self.pages.fill(case);
        set_unplaced(&mut self.judged, case);
        add_marked(&mut self.marked, handed.pages());
        sort_numbers(&mut self.marked);
    }

    /// Notes the places of the judged files of a listing, which are all of the bundle's own numbers.
    pub fn judge(&mut self, case: &Case, listing: &Listing)
        requires found { IsFinderOf case.now self.old }
        requires none { self.old.judged.items ≡ replicate (length (own_numbers case.now)) None }
        requires own { (n : ℕ) → In n (map (λ f. f.ino) listing.now.listing.files) → In n (own_numbers case.now) }
        ensures found { IsFinderOf case.now self.new }
        ensures marked { (handed : HandedSeen) → IsMarkedBy handed self.old → IsMarkedBy handed self.new }
        ensures judged { IsJudgedBy case.now listing.now.listing self.new }
    {
        place_judged(case, &mut self.judged, listing.files());
    }

    /// Whether a page is a lent block that is marked as touched.
    pub fn is_marked(&self, page: u32) -> bool
        ensures { (handed : HandedSeen) → IsMarkedBy handed self.now → result ≡ is_marked handed page }
    {
        self.marked.binary_search(&page).is_ok()
    }

    /// Where the judged file of this number stands in the listing of the case; `None` exactly where it
    /// isn't judged.
    pub fn judged(&self, case: &Case, ino: u32) -> Option<usize>
        ensures { (l : ListingSeen) → IsJudgedBy case.now l self.now → result ≡ place_of ino (map (λ f. f.ino) l.files) }
    {
        let at = case.own_place(ino)?;
        *self.judged.get(at)?
    }
}

/// The write lease on a number; `None` exactly where the bundle has none.
pub(crate) fn lease_on(case: &Case, ino: u32) -> Option<&WriteLease>
    ensures { option_copied result ≡ find (λ f. f.stands.ino == ino) case.now.bundle.writes }
{
    let at = case.own_place(ino)?;
    lease_at(case, at)
}

fn lease_at(case: &Case, at: usize) -> Option<&WriteLease>
    ensures { option_copied result ≡ slice_get case.now.bundle.writes at }
{
    case.bundle().writes().get(at)
}

/// Makes an empty list, which has places for them, one without a place for each own number of a case.
fn set_unplaced(judged: &mut Vec<Option<usize>>, case: &Case)
    requires empty { judged.old.items ≡ [] }
    requires places { length (own_numbers case.now) ≤ vec_capacity judged.old }
    ensures { judged.new.items ≡ replicate (length (own_numbers case.now)) None }
{
    let bundle = case.bundle();
    add_unplaced(judged, bundle.writes().len());
    add_unplaced(judged, bundle.inodes().len());
}

/// Adds so many without a place to a list that has places for them.
fn add_unplaced(judged: &mut Vec<Option<usize>>, count: usize)
    requires { vec_len judged.old + count ≤ vec_capacity judged.old }
    ensures items { judged.new.items ≡ judged.old.items ++ replicate count None }
    ensures capacity { vec_capacity judged.new ≡ vec_capacity judged.old }
{
    for _ in 0..count {
        judged.push_reserved(None);
    }
}

/// Notes the first place of each judged file under its number.
fn place_judged(case: &Case, judged: &mut Vec<Option<usize>>, files: &[ListedFile])
    requires { judged.old.items ≡ replicate (length (own_numbers case.now)) None }
    ensures { (n : ℕ) → In n (own_numbers case.now) → judged_place case.now judged.new.items n ≡ place_of n (map (λ f. f.ino) files.now) }
{
    for at in 0..files.len() {
        place_one(case, judged, files[at].ino, at);
    }
}

/// Notes the place of a number, unless it has one.
fn place_one(case: &Case, judged: &mut Vec<Option<usize>>, number: u32, at: usize)
    requires { length judged.old.items ≡ length (own_numbers case.now) }
    ensures len { length judged.new.items ≡ length judged.old.items }
    ensures placed { (n : ℕ) → In n (own_numbers case.now) → judged_place case.now judged.new.items n ≡ option_or (judged_place case.now judged.old.items n) (if number == n then Some at else None) }
{
    if let Some(slot) = case.own_place(number) {
        note(judged, slot, at);
    }
}

fn note(judged: &mut Vec<Option<usize>>, slot: usize, at: usize)
    ensures { judged.new.items ≡ slice_set judged.old.items slot (option_or (slice_index_or judged.old.items slot None) (Some at)) }
{
    if slot < judged.len() {
        judged[slot] = judged[slot].or(Some(at));
    }
}

/// Adds the pages that are marked as touched to a list that has places for all.
fn add_marked(marked: &mut Vec<u32>, pages: &[HandedPage])
    requires { vec_len marked.old + length pages.now ≤ vec_capacity marked.old }
    ensures marked { (n : ℕ) → is_among n marked.new.items ≡ (is_among n marked.old.items || has_mark n pages.now) }
    ensures len { vec_len marked.new ≤ vec_len marked.old + length pages.now }
    ensures capacity { vec_capacity marked.new ≡ vec_capacity marked.old }
{
    for page in pages {
        if page.touched {
            marked.push_reserved(page.no);
        }
    }
}

/// Puts numbers into rising order.
fn sort_numbers(numbers: &mut Vec<u32>)
    ensures same { (n : ℕ) → is_among n numbers.new.items ≡ is_among n numbers.old.items }
    ensures rising { IsNonDecreasing numbers.new.items }
{
    numbers.sort_unstable();
}

/// The row that a judged file is to have; `None` exactly where the file of this number isn't judged.
pub(crate) fn judged_row(case: &Case, listing: &Listing, finder: &Finder, ino: u32) -> Option<Row>
    requires { IsJudgedBy case.now listing.now.listing finder.now }
    ensures { option_map as_row result ≡ option_map (λ f. f.row) (find (λ f. f.ino == ino) listing.now.listing.files) }
{
    let at = finder.judged(case, ino)?;
    row_at(listing.files(), at)
}

fn row_at(files: &[ListedFile], at: usize) -> Option<Row>
    ensures { option_map as_row result ≡ option_map (λ f. as_row f.row) (slice_get files.now at) }
{
    let file = files.get(at)?;
    Some(file.row)
}
