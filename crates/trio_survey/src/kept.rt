//! The core pages that were looked at, and what was read of them.

ghost use Rattle.std.specs.Prelude.{◌≡◌, ◌+◌, ◌<◌, ◌≤◌, ℕ, List, Option, None, IfOk, OnOk, max, slice_index_or, vec_len};
ghost use Rattle.std.specs.Option.{option_copied};
ghost use Rattle.trio_layout.specs.Core.{page_of};
ghost use Rattle.trio_layout.specs.declared.range.CoreRange.{CoreRange};
ghost use Rattle.trio_page.specs.Home.{raised};
ghost use Rattle.trio_survey.specs.Seen.{core_with};
ghost use Rattle.trio_survey.specs.inner.Blocks.{HasParts, SaysBlocks};
ghost use Rattle.trio_survey.specs.inner.Kept.{kept_count, kept_page, Keeps};

use crate::blocks::KeptBlocks;
use std::alloc::Global;
use trio_layout::CoreRange;
use trio_marks::Marks;
use trio_page::{Home, NoMemory, Page, PageNo, Reads};

/// What was read of a core.
#[derive(Drop)]
pub(crate) struct Kept {
    pub pages: KeptPages,
    pub blocks: KeptBlocks,
    /// Marks of the names of one directory, over the numbers of all that are kept.
    pub named: Marks,
}

/// Copies of the core pages that were looked at, by which no page is looked at again, however often
/// it is listed.
#[derive(Drop)]
pub(crate) struct KeptPages {
    /// By the place of a page among the core pages. `None`: it wasn't looked at, nor was any past the
    /// end. `Some(None)`: it is absent.
    pub pages: Vec<Option<Option<Page>>>,
}

impl Kept {
    /// Nothing was read.
    pub fn none(alloc: Global, range: CoreRange) -> Result<Kept, NoMemory>
        ensures keeps { IfOk result (λ k. (pages : List (Option (List ℕ))) → Keeps range pages k.pages.pages.items) }
        ensures count { IfOk result (λ k. kept_count k.pages.pages.items ≡ 0) }
        ensures parts { IfOk result (λ k. HasParts range k.blocks) }
        ensures says { IfOk result (λ k. (pages : List (Option (List ℕ))) (inodes : ℕ) → SaysBlocks pages range inodes k.blocks) }
    {
        Ok(Kept {
            pages: KeptPages::none(alloc),
            blocks: KeptBlocks::none(alloc, range)?,
            named: Marks::with(alloc, 0)?,
        })
    }
}

impl KeptPages {
    /// No page was looked at. Takes no memory.
    pub fn none(alloc: Global) -> KeptPages
        ensures keeps { (range : CoreRange) → (pages : List (Option (List ℕ))) → Keeps range pages result.pages.items }
        ensures count { kept_count result.pages.items ≡ 0 }
    {
        KeptPages {
            pages: Vec::new(alloc),
        }
    }

    /// Makes places up to this one. After [`NoMemory`] there are some of them.
    fn reach(&mut self, place: usize) -> Result<(), NoMemory>
        ensures same { (i : ℕ) → slice_index_or self.new.pages.items i None ≡ slice_index_or self.old.pages.items i None }
        ensures count { kept_count self.new.pages.items ≡ kept_count self.old.pages.items }
        ensures len { vec_len self.new.pages ≤ max (vec_len self.old.pages) (place + 1) }
        ensures reached { OnOk result (place < vec_len self.new.pages) }
    {
        while self.pages.len() <= place {
            self.pages.push(None)?;
        }
        Ok(())
    }

    /// Looks at a page and keeps it, unless it was looked at before or isn't a core page.
    pub fn look(
        &mut self,
        alloc: Global,
        home: &mut Home,
        range: CoreRange,
        page: u32,
        reads: &mut Reads,
    ) -> Result<(), NoMemory>
        requires keeps { Keeps range home.old.pages self.old.pages.items }
        ensures pages { home.new.pages ≡ home.old.pages }
        ensures keeps { Keeps range home.old.pages self.new.pages.items }
        ensures kept { OnOk result (kept_page range self.new.pages.items page ≡ page_of (core_with home.old.pages range 0) page) }
        ensures looks { reads.new + kept_count self.old.pages.items ≤ reads.old + kept_count self.new.pages.items }
        ensures looked { home.new.looked + kept_count self.old.pages.items ≤ home.old.looked + kept_count self.new.pages.items }
    {
        if !range.has(u64::from(page)) {
            return Ok(());
        }
        let place = (page - range.first) as usize;
        self.reach(place)?;
        if self.pages[place].is_some() {
            return Ok(());
        }
        let copy = Page::zero(alloc)?;
        self.pages[place] = Some(copied(home, page, copy, reads));
        Ok(())
    }

    /// A page that was looked at. `None` where it is absent or isn't a core page.
    pub fn page(&self, range: CoreRange, page: u32) -> Option<&Page>
        ensures { option_copied result ≡ kept_page range self.now.pages.items page }
    {
        if !range.has(u64::from(page)) {
            return None;
        }
        match self.pages.get((page - range.first) as usize) {
            Some(Some(Some(page))) => Some(page),
            _ => None,
        }
    }
}

/// A look at a page, of which the copy becomes one.
fn copied(home: &mut Home, page: u32, copy: Page, reads: &mut Reads) -> Option<Page>
    ensures page { result ≡ slice_index_or home.old.pages page None }
    ensures pages { home.new.pages ≡ home.old.pages }
    ensures looked { home.new.looked ≡ raised home.old.looked }
    ensures reads { reads.new ≡ raised reads.old }
{
    let mut copy = copy;
    copy.copy_from(home.page(PageNo(page), reads)?);
    Some(copy)
}
