//! The pages of a bundle, with what they say as far as that was read.

ghost use Rattle.std.specs.Prelude.{◌≡◌, ◌+◌, ◌*◌, ◌≤◌, ◌++◌, [], None, Some, MatchOption, IfOk, if◌then◌else◌, length, map, slice_get, vec_capacity, vec_len};
ghost use Rattle.trio_rights.specs.Bundle.{bundle_pages};
ghost use Rattle.trio_lists.specs.Lists.{In};
ghost use Rattle.trio_lease.specs.Bundles.{Bundled};
ghost use Rattle.trio_lease.specs.Views.{bundle_in};
ghost use Rattle.trio_case.specs.inner.Unread.{numbers_of, AreUnread, CountsItself, IsUnreadOf};
ghost use Rattle.trio_case.specs.Order.{in_order, AreRising};
ghost use Rattle.trio_case.specs.Reading.{listed_seen, AreNamed};
ghost use Rattle.trio_case.specs.Rooms.{entries_kept, kept_page, AreCountedIn, HasPagePlaces, HasReadPlaces, KeepsPages};
ghost use Rattle.trio_case.specs.inner.Steps.{StandsAt};

use crate::case::Case;
use crate::entries::DirEntry;
use crate::listing::push;
use crate::places::PagePlace;
use crate::size::BundleSize;
use std::alloc::Global;
use trio_layout::Location;
use trio_lease::{Bundle, FreshPage, WriteLease};
use trio_nameset::{NAME_BYTES, NameSet};
use trio_page::{NoMemory, PageNo};

/// How many bytes there are for each page whose number is kept.
pub(crate) const KEPT_BYTES: usize = size_of::<u32>() + size_of::<KeptPage>();

/// How many bytes there are for what a page may say: 16 entries with their names, and 511 numbers.
pub(crate) const SAID_BYTES: usize = 16 * (size_of::<DirEntry>() + NAME_BYTES)
    + 511 * size_of::<u32>();

/// The pages of a bundle by their numbers. What a page says is kept once it was read: as a directory
/// block its entries or its first bad slot, as an index page its numbers and its link.
#[derive(Drop)]
pub(crate) struct KeptPages {
    /// The numbers of the pages, in rising order.
    pub order: Vec<u32>,
    /// The pages, in the same order.
    pub pages: Vec<KeptPage>,
    /// The entries of the directory blocks that were read.
    pub entries: Vec<DirEntry>,
    /// The numbers of the index pages that were read.
    pub numbers: Vec<u32>,
    /// The names that were read, each once. An entry has the number of its name.
    pub names: NameSet,
}

/// A page of the bundle.
#[derive(Clone, Copy)]
pub(crate) struct KeptPage {
    pub no: u32,
    pub place: PagePlace,
    /// As a directory block: its entries among those that are kept, or its first bad slot.
    pub entries: Option<Result<Span, Location>>,
    pub index: Option<KeptIndex>,
    /// Where it stands among all pages of the bundle, in the order of the bundle.
    pub nth: usize,
}

/// A part of a list.
#[derive(Clone, Copy)]
pub(crate) struct Span {
    pub from: usize,
    pub len: usize,
}

/// What a page says as an index page. Of given bytes at most one count of numbers in use is in the
/// grammar, and that for the last page of a chain or for another.
#[derive(Clone, Copy)]
pub(crate) struct KeptIndex {
    pub used: u16,
    pub last: bool,
    pub next: u32,
    /// Its numbers among those that are kept.
    pub numbers: Span,
}

impl KeptPages {
    /// No pages, with places for so many, and without a place for what they may say.
    pub fn with(alloc: Global, pages: usize) -> Result<KeptPages, NoMemory>
        ensures { IfOk result (HasPagePlaces pages) }
    {
        Ok(KeptPages {
            order: Vec::with_capacity(alloc, pages)?,
            pages: Vec::with_capacity(alloc, pages)?,
            entries: Vec::new(alloc),
            numbers: Vec::new(alloc),
            names: NameSet::with(alloc, 0)?,
        })
    }

    /// No pages, with places for those of a bundle of this size, and for whatever they may say.
    pub fn for_reading(alloc: Global, size: BundleSize) -> Result<KeptPages, NoMemory>
        ensures { IfOk result (HasReadPlaces size) }
    {
        let entries = size.entries()?;
        let numbers = size.pages.checked_mul(511).ok_or(NoMemory)?;
        let names = name_count(size)?;
        Ok(KeptPages {
            order: Vec::with_capacity(alloc, size.pages)?,
            pages: Vec::with_capacity(alloc, size.pages)?,
            entries: Vec::with_capacity(alloc, entries)?,
            numbers: Vec::with_capacity(alloc, numbers)?,
            names: NameSet::with(alloc, names)?,
        })
    }

    /// Makes its pages those of a bundle, none of which was read yet. It takes no memory.
    pub fn fill(&mut self, bundle: &Bundle)
        requires { HasPagePlaces (length (bundle_pages (bundle_in bundle.now))) self.old }
        ensures made { IsUnreadOf bundle.now self.new }
        ensures entries { self.new.entries ≡ self.old.entries }
        ensures numbers { self.new.numbers ≡ self.old.numbers }
        ensures names { self.new.names ≡ self.old.names }
        ensures counted { AreCountedIn (bundle_pages (bundle_in bundle.now)) self.new.pages.items }
    {
        set_pages(&mut self.pages, bundle);
        sort_pages(&mut self.pages);
        set_numbers(&mut self.order, &self.pages);
    }

    /// The page of this number, and where it stands among the pages. `None` exactly where it is none
    /// of the bundle's.
    pub fn find(&self, no: u32) -> Option<(usize, KeptPage)>
        requires { AreRising self.now.order.items }
        ensures { MatchOption result (kept_page self.now no ≡ None) (λ f. StandsAt self.now no f.0 f.1) }
    {
        let at = self.order.binary_search(&no).ok()?;
        Some((at, *self.pages.get(at)?))
    }

    /// The entries that were read on a block, in the order of the slots. None where it wasn't read
    /// as a directory block, or is none of the bundle's.
    pub fn entries_of(&self, case: &Case, block: u32) -> &[DirEntry]
        requires { KeepsPages case.now self.now }
        ensures entries { map (listed_seen self.now.names.names) result.now ≡ entries_kept self.now block }
        ensures named { AreNamed self.now.names.names result.now }
    {
        match self.find(block) {
            Some(
                (
                    _,
                    KeptPage {
                        entries: Some(Ok(span)),
                        ..
                    },
                ),
            ) => &self.entries[span.from..span.from + span.len],
            _ => &[],
        }
    }
}

/// How many names the entries of so large a bundle have at most.
pub(crate) fn name_count(size: BundleSize) -> Result<u32, NoMemory>
    ensures { IfOk result (λ n. n ≡ (if size.lists then 16 * size.pages else 0)) }
{
    let entries = size.entries()?;
    match u32::try_from(entries) {
        Ok(names) => Ok(names),
        Err(_) => Err(NoMemory),
    }
}

/// How many pages a bundle has.
pub(crate) fn page_count(bundle: &Bundle) -> Result<usize, NoMemory>
    ensures { IfOk result (λ n. n ≡ length (bundle_pages (bundle_in bundle.now))) }
{
    let mut count = bundle.pages().len();
    let writes = bundle.writes();
    for lease in writes {
        count = count.checked_add(lease.index_len()).ok_or(NoMemory)?;
        count = count.checked_add(lease.blocks_len()).ok_or(NoMemory)?;
    }
    Ok(count)
}

/// Makes a list, which has places for them, the pages of a bundle: of each write lease its index pages
/// and then its blocks, and after them the pages that were allotted.
fn set_pages(pages: &mut Vec<KeptPage>, bundle: &Bundle)
    requires { length (bundle_pages (bundle_in bundle.now)) ≤ vec_capacity pages.old }
    ensures numbers { numbers_of pages.new.items ≡ bundle_pages (bundle_in bundle.now) }
    ensures unread { AreUnread bundle.now pages.new.items }
    ensures counted { AreCountedIn (bundle_pages (bundle_in bundle.now)) pages.new.items }
{
    pages.clear();
    let writes = bundle.writes();
    for file in 0..writes.len() {
        let lease = &writes[file];
        add_index(pages, file, lease);
        add_blocks(pages, file, lease);
    }
    add_fresh(pages, bundle.pages());
}

fn add_index(pages: &mut Vec<KeptPage>, file: usize, lease: &WriteLease)
    requires { vec_len pages.old + length lease.now.stands.index ≤ vec_capacity pages.old }
    ensures numbers { numbers_of pages.new.items ≡ numbers_of pages.old.items ++ map (λ p. p.no.0) lease.now.stands.index }
    ensures unread { (b : Bundled) → slice_get b.writes file ≡ Some lease.now → AreUnread b pages.old.items → AreUnread b pages.new.items }
    ensures counted { CountsItself pages.old.items → CountsItself pages.new.items }
    ensures capacity { vec_capacity pages.old ≤ vec_capacity pages.new }
{
    for at in 0..lease.index_len() {
        let Some(no) = lease.index_no(at) else {
            return;
        };
        let nth = pages.len();
        push(pages, unread(no, PagePlace::Index(file, at), nth));
    }
}

fn add_blocks(pages: &mut Vec<KeptPage>, file: usize, lease: &WriteLease)
    requires { vec_len pages.old + length lease.now.stands.blocks ≤ vec_capacity pages.old }
    ensures numbers { numbers_of pages.new.items ≡ numbers_of pages.old.items ++ map (λ p. p.no.0) lease.now.stands.blocks }
    ensures unread { (b : Bundled) → slice_get b.writes file ≡ Some lease.now → AreUnread b pages.old.items → AreUnread b pages.new.items }
    ensures counted { CountsItself pages.old.items → CountsItself pages.new.items }
    ensures capacity { vec_capacity pages.old ≤ vec_capacity pages.new }
{
    for at in 0..lease.blocks_len() {
        let Some(no) = lease.block_no(at) else {
            return;
        };
        let nth = pages.len();
        push(pages, unread(no, PagePlace::Block(file, at), nth));
    }
}

fn add_fresh(pages: &mut Vec<KeptPage>, fresh: &[FreshPage])
    requires { vec_len pages.old + length fresh.now ≤ vec_capacity pages.old }
    ensures numbers { numbers_of pages.new.items ≡ numbers_of pages.old.items ++ map (λ p. p.no.0) fresh.now }
    ensures unread { (b : Bundled) → b.pages ≡ fresh.now → AreUnread b pages.old.items → AreUnread b pages.new.items }
    ensures counted { CountsItself pages.old.items → CountsItself pages.new.items }
{
    for at in 0..fresh.len() {
        let nth = pages.len();
        push(pages, unread(fresh[at].no(), PagePlace::Fresh(at), nth));
    }
}

/// Puts pages into rising order of their numbers.
fn sort_pages(pages: &mut Vec<KeptPage>)
    ensures numbers { numbers_of pages.new.items ≡ in_order (numbers_of pages.old.items) }
    ensures each { (p : KeptPage) → In p pages.new.items → In p pages.old.items }
{
    pages.sort_unstable_by_key(|page| page.no);
}

/// Makes a list, which has places for them, the numbers of these pages.
fn set_numbers(numbers: &mut Vec<u32>, pages: &[KeptPage])
    requires { length pages.now ≤ vec_capacity numbers.old }
    ensures { numbers.new.items ≡ numbers_of pages.now }
{
    numbers.clear();
    for page in pages {
        push(numbers, page.no);
    }
}

/// A page of which nothing was read yet.
fn unread(no: PageNo, place: PagePlace, nth: usize) -> KeptPage
    ensures { result ≡ record { no = no.0; place = place; entries = None; index = None; nth = nth } }
{
    KeptPage {
        no: no.0,
        place,
        entries: None,
        index: None,
        nth,
    }
}
