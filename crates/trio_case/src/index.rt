//! The pages of a bundle, found by their numbers.

ghost use Rattle.std.specs.Prelude.{◌≡◌, IfOk, length};
ghost use Rattle.std.specs.Option.{option_and_then, option_copied};
ghost use Rattle.trio_rights.specs.Bundle.{bundle_pages};
ghost use Rattle.trio_lease.specs.Views.{bundle_in};
ghost use Rattle.trio_layout.specs.Case.{bundle_core};
ghost use Rattle.trio_layout.specs.Core.{page_of};
ghost use Rattle.trio_case.specs.Cases.{case_in};
ghost use Rattle.trio_case.specs.Indexed.{HasPlacesFor, IsIndexOf};
ghost use Rattle.trio_case.specs.Order.{place_of};
ghost use Rattle.trio_case.specs.Places.{bytes_at};

use crate::case::Case;
use crate::kept::{KEPT_BYTES, KeptPages, page_count};
use crate::places::{PagePlace, page_at};
use std::alloc::Global;
use trio_page::{NoMemory, Page};

/// How many bytes an index takes for each page.
pub const INDEXED_PAGE_BYTES: usize = KEPT_BYTES;

/// Where the pages of a bundle stand in it, by their numbers: a search takes as many steps as the
/// count of pages has binary digits.
#[derive(Drop)]
pub struct PageIndex {
    kept: KeptPages,
}

impl PageIndex {
    /// An empty index with places for so many pages. It takes all memory that [`fill`](Self::fill)
    /// needs.
    pub fn with(alloc: Global, pages: usize) -> Result<PageIndex, NoMemory>
        ensures { IfOk result (HasPlacesFor pages) }
    {
        let kept = KeptPages::with(alloc, pages)?;
        Ok(PageIndex { kept })
    }

    /// Makes it the index of the pages of a case's bundle, whatever it had before. It takes no memory.
    pub fn fill(&mut self, case: &Case)
        requires room { HasPlacesFor (length (bundle_pages (bundle_in case.now.bundle))) self.old }
        ensures { IsIndexOf case.now self.new }
    {
        self.kept.fill(case.bundle());
    }

    /// The index of the pages of a case's bundle.
    pub fn of(alloc: Global, case: &Case) -> Result<PageIndex, NoMemory>
        ensures { IfOk result (IsIndexOf case.now) }
    {
        let count = page_count(case.bundle())?;
        let mut index = PageIndex::with(alloc, count)?;
        index.fill(case);
        Ok(index)
    }

    /// Where the page of this number stands; `None` exactly where it is none of the bundle's.
    fn place(&self, case: &Case, no: u32) -> Option<PagePlace>
        requires { IsIndexOf case.now self.now }
        ensures { option_and_then (bytes_at case.now.bundle) result ≡ page_of (bundle_core (case_in case.now)) no }
    {
        let _bundle = case.bundle();
        let (_, page) = self.kept.find(no)?;
        Some(page.place)
    }

    /// Where the page of this number stands among all pages of the bundle: of each write lease its index
    /// pages and then its blocks, and after them the pages that were allotted. `None` exactly where it is
    /// none of the bundle's.
    pub fn nth(&self, case: &Case, no: u32) -> Option<usize>
        requires { IsIndexOf case.now self.now }
        ensures { result ≡ place_of no (bundle_pages (bundle_in case.now.bundle)) }
    {
        let _bundle = case.bundle();
        match self.kept.find(no) {
            Some((_, page)) => Some(page.nth),
            None => None,
        }
    }

    /// The page of this number; `None` exactly where it is none of the bundle's.
    pub fn page<'a>(&self, case: &'a Case, no: u32) -> Option<&'a Page>
        requires { IsIndexOf case.now self.now }
        ensures { option_copied result ≡ page_of (bundle_core (case_in case.now)) no }
    {
        let place = self.place(case, no)?;
        page_at(case.bundle(), place)
    }
}
