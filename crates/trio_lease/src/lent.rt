//! Lists of lent pages.

ghost use Rattle.std.specs.Prelude.{◌≡◌, ◌<◌, ◌↔◌, true, IsSome, IfSome, length, map, slice_set};
ghost use Rattle.std.specs.Option.{option_copied};
ghost use Rattle.std.specs.Borrow.{sem, Lends, LendsIf};
ghost use Rattle.trio_page.specs.contracts.page.Page.{the_row as page_row};
ghost use Rattle.trio_lease.specs.contracts.parts.LentPage.{the_row as lent_row};
ghost use Rattle.trio_lease.specs.Shown.{as_touched, page_at, no_at, touched_at, lent_at, with_page, with_touched};
ghost use Rattle.trio_lease.specs.Places.{place_among};

use crate::parts::LentPage;
use std::marker::Model;
use trio_page::{Page, PageNo};

/// The index pages or the blocks of a lease, in their order. Contracts see the list.
#[derive(Drop)]
pub struct LentPages {
    pages: Vec<LentPage>,
}

impl Model for LentPages {
    ghost use Rattle.std.specs.Prelude.{List};
    ghost use Rattle.trio_lease.specs.declared.parts.LentPage.{LentPage};

    ghost Value = { List LentPage };

    ghost view = { λ l. l.pages.items };
}

impl LentPages {
    ghost use Rattle.trio_lease.specs.contracts.lent.LentPages.{the_row};

    pub fn of(pages: Vec<LentPage>) -> LentPages
        ensures { result ≡ pages.items }
    {
        LentPages { pages }
    }

    pub fn into_pages(self) -> Vec<LentPage>
        ensures { result.items ≡ self }
    {
        let LentPages { pages } = self;
        pages
    }

    /// How many pages there are.
    pub fn len(&self) -> usize
        ensures { result ≡ length self.now }
    {
        self.pages.len()
    }

    /// Page `i`. `None` exactly where the list has no such page.
    pub fn page(&self, i: usize) -> Option<&Page>
        ensures { option_copied result ≡ page_at self.now i }
    {
        page_in(&self.pages, i)
    }

    /// The number of page `i` in the image. `None` exactly where the list has no such page.
    pub fn no(&self, i: usize) -> Option<PageNo>
        ensures { result ≡ no_at self.now i }
    {
        no_in(&self.pages, i)
    }

    /// Whether page `i` is marked as touched. `None` exactly where the list has no such page.
    pub fn touched(&self, i: usize) -> Option<bool>
        ensures { result ≡ touched_at self.now i }
    {
        Some(self.pages.get(i)?.touched)
    }

    /// The place of the first page of this number in the image, counted from 0.
    pub fn place_of(&self, no: PageNo) -> Option<usize>
        ensures { result ≡ place_among self.now no }
    {
        self.pages.iter().position(|page| page.no.0 == no.0)
    }

    /// Page `i`, for writing. `None` exactly where the list has no such page.
    pub fn page_mut(&mut self, i: usize) -> Option<&mut Page>
        ensures value { IfSome result (λ p. p.now ≡ (lent_at self.old i).page) }
        ensures some { IsSome result ↔ (i < length self.old) }
        ensures* lends { sem 𝓛 (LendsIf the_row page_row self.entry result (λ w. with_page self.old i w) self.old) }
    {
        match self.get_mut(i) {
            Some(lent) => Some(page_of(lent)),
            None => None,
        }
    }

    /// Page `i`, for writing, marked as touched. `None` exactly where the list has no such page.
    pub fn touched_mut(&mut self, i: usize) -> Option<&mut Page>
        ensures value { IfSome result (λ p. p.now ≡ (lent_at self.old i).page) }
        ensures some { IsSome result ↔ (i < length self.old) }
        ensures* lends { sem 𝓛 (LendsIf the_row page_row self.entry result (λ w. with_touched self.old i w) self.old) }
    {
        match self.get_mut(i) {
            Some(lent) => Some(touched_page_of(lent)),
            None => None,
        }
    }

    /// Marks each page as touched.
    pub fn touch_all(&mut self)
        ensures { self.new ≡ map as_touched self.old }
    {
        touch_pages(&mut self.pages);
    }

    fn get_mut(&mut self, i: usize) -> Option<&mut LentPage>
        ensures value { IfSome result (λ p. p.now ≡ lent_at self.old i) }
        ensures some { IsSome result ↔ (i < length self.old) }
        ensures* lends { sem 𝓛 (LendsIf the_row lent_row self.entry result (λ p. slice_set self.old i p) self.old) }
    {
        self.pages.get_mut(i)
    }
}

/// Page `i` of these. `None` exactly where there is no such page.
pub(crate) fn page_in(pages: &[LentPage], i: usize) -> Option<&Page>
    ensures { option_copied result ≡ page_at pages.now i }
{
    Some(&pages.get(i)?.page)
}

/// The number of page `i` of these in the image. `None` exactly where there is no such page.
pub(crate) fn no_in(pages: &[LentPage], i: usize) -> Option<PageNo>
    ensures { result ≡ no_at pages.now i }
{
    Some(pages.get(i)?.no)
}

fn page_of(lent: &mut LentPage) -> &mut Page
    ensures page { result.now ≡ lent.old.page }
    ensures* lends { sem 𝓛 (Lends lent_row page_row lent.entry result (λ w. record lent.old { page = w })) }
{
    &mut lent.page
}

fn touched_page_of(lent: &mut LentPage) -> &mut Page
    ensures page { result.now ≡ lent.old.page }
    ensures* lends { sem 𝓛 (Lends lent_row page_row lent.entry result (λ w. record lent.old { page = w; touched = true })) }
{
    lent.touched = true;
    &mut lent.page
}

/// Marks each of these pages as touched.
fn touch_pages(pages: &mut [LentPage])
    ensures { pages.new ≡ map as_touched pages.old }
{
    for lent in pages.iter_mut() {
        lent.touched = true;
    }
}
