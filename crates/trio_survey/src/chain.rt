//! The chain of a file: its index pages and the numbers of its blocks.

ghost use Rattle.std.specs.Prelude.{◌≡◌, ◌+◌, ◌≤◌, ℕ, IfOk};
ghost use Rattle.trio_layout.specs.Chain.{chain_of};
ghost use Rattle.trio_layout.specs.Index.{index_of};
ghost use Rattle.trio_layout.specs.Range.{core_count};
ghost use Rattle.trio_survey.specs.Seen.{chain_seen, core_with};
ghost use Rattle.trio_survey.specs.inner.Kept.{kept_count, Keeps};
ghost use Rattle.trio_survey.specs.inner.Steps.{AppendsIndex};
ghost use Rattle.trio_lists.specs.Lists.{result_map};

use crate::kept::KeptPages;
use std::alloc::Global;
use trio_layout::{Body, CoreRange, IndexPage, Location};
use trio_page::{Home, NoMemory, Page, Reads};

/// The index pages and blocks of a file, by number.
#[derive(Drop)]
pub struct ChainParts {
    pub index: Vec<u32>,
    pub blocks: Vec<u32>,
}

/// Reads the chain of a body, or finds the first index page that can't be read. Each core page is
/// looked at once at most.
#[tactic(auto, using(crate::proofs::KeptPages::few_kept))]
pub fn read_chain(
    alloc: Global,
    home: &mut Home,
    range: CoreRange,
    body: &Body,
    reads: &mut Reads,
) -> Result<Result<ChainParts, Location>, NoMemory>
    ensures pages { home.new.pages ≡ home.old.pages }
    ensures chain { (inodes : ℕ) → IfOk result (λ r. result_map chain_seen r ≡ chain_of (core_with home.old.pages range inodes) body.now) }
    ensures reads { reads.new ≤ reads.old + core_count range }
    ensures looked { home.new.looked ≤ home.old.looked + core_count range }
{
    let mut kept = KeptPages::none(alloc);
    read_chain_kept(alloc, home, range, body, &mut kept, reads)
}

/// As [`read_chain`], where no page that is kept is looked at.
pub(crate) fn read_chain_kept(
    alloc: Global,
    home: &mut Home,
    range: CoreRange,
    body: &Body,
    kept: &mut KeptPages,
    reads: &mut Reads,
) -> Result<Result<ChainParts, Location>, NoMemory>
    requires keeps { Keeps range home.old.pages kept.old.pages.items }
    ensures pages { home.new.pages ≡ home.old.pages }
    ensures keeps { Keeps range home.old.pages kept.new.pages.items }
    ensures chain { (inodes : ℕ) → IfOk result (λ r. result_map chain_seen r ≡ chain_of (core_with home.old.pages range inodes) body.now) }
    ensures looks { reads.new + kept_count kept.old.pages.items ≤ reads.old + kept_count kept.new.pages.items }
    ensures looked { home.new.looked + kept_count kept.old.pages.items ≤ home.old.looked + kept_count kept.new.pages.items }
{
    let mut index = Vec::new(alloc);
    let mut blocks = Vec::new(alloc);
    let mut left = body.blocks();
    let mut at = body.head;
    while left > 0 {
        let fault = Location { page: at, slot: 0 };
        kept.look(alloc, home, range, at, reads)?;
        let Some(page) = kept.page(range, at) else {
            return Ok(Err(fault));
        };
        let used = left.min(511) as u16;
        let Some(next) = add_numbers(page, used, left <= 511, range, &mut blocks)? else {
            return Ok(Err(fault));
        };
        index.push(at)?;
        at = next;
        left -= u64::from(used);
    }
    Ok(Ok(ChainParts { index, blocks }))
}

/// Appends the block numbers of an index page, and answers its link; `None` where the page is
/// outside the grammar.
fn add_numbers(
    page: &Page,
    used: u16,
    last: bool,
    range: CoreRange,
    blocks: &mut Vec<u32>,
) -> Result<Option<u32>, NoMemory>
    requires some { 1 ≤ used }
    requires room { used ≤ 511 }
    ensures { IfOk result (λ next. AppendsIndex (index_of used last range page.now) next blocks.old.items blocks.new.items) }
{
    let Some(index) = IndexPage::read(page, used, last, range) else {
        return Ok(None);
    };
    for i in 0..used {
        blocks.push(index.number(i))?;
    }
    Ok(Some(index.next()))
}
