//! The chain of a file, read from its index pages, which are copied on the way.

ghost use Rattle.std.specs.Prelude.{◌≡◌, ◌≤◌, IfOk, IfSome, IsOk, IsSome, IsTrue, Ok};
ghost use Rattle.trio_layout.specs.Chain.{chain_of};
ghost use Rattle.trio_layout.specs.Index.{index_of};
ghost use Rattle.trio_checkpoint.specs.Covered.{are_there, core_of};
ghost use Rattle.trio_checkpoint.specs.inner.Steps.{Appends, AreCopies, chain_seen};

use crate::page_copy::PageCopy;
use std::alloc::Global;
use trio_layout::{Body, CoreRange, IndexPage};
use trio_page::{Home, NoMemory, Page, Reads};

/// The numbers of a file's index pages and blocks, and copies of its index pages.
#[derive(Drop)]
pub(crate) struct ChainCopy {
    pub index_numbers: Vec<u32>,
    pub block_numbers: Vec<u32>,
    pub index: Vec<PageCopy>,
}

/// Copies the index pages of the chain of a body, which is in the grammar and at home, and reads
/// the numbers of its blocks.
pub(crate) fn copy_chain(
    alloc: Global,
    home: &mut Home,
    range: CoreRange,
    body: &Body,
    reads: &mut Reads,
) -> Result<ChainCopy, NoMemory>
    requires { IsOk (chain_of (core_of home.old.pages range) body.now) }
    ensures chain { IfOk result (λ c. Ok (chain_seen c) ≡ chain_of (core_of home.old.pages range) body.now) }
    ensures index { IfOk result (λ c. AreCopies home.old.pages c.index_numbers.items c.index.items) }
    ensures there { IfOk result (λ c. IsTrue (are_there (core_of home.old.pages range) c.index_numbers.items)) }
    ensures home { home.new.pages ≡ home.old.pages }
    ensures floor { home.old.looked ≤ home.new.looked }
{
    let mut index_numbers = Vec::new(alloc);
    let mut block_numbers = Vec::new(alloc);
    let mut index = Vec::new(alloc);
    let mut left = body.blocks();
    let mut at = body.head;
    while left > 0 {
        let used = left.min(511) as u16;
        let copy = PageCopy::of(alloc, home, at, reads)?;
        let next = add_numbers(copy.page(), used, left <= 511, range, &mut block_numbers)?;
        index_numbers.push(at)?;
        index.push(copy)?;
        at = next;
        left -= u64::from(used);
    }
    Ok(ChainCopy {
        index_numbers,
        block_numbers,
        index,
    })
}

/// Appends the block numbers of an index page that is in the grammar, and answers its link.
fn add_numbers(
    page: &Page,
    used: u16,
    last: bool,
    range: CoreRange,
    blocks: &mut Vec<u32>,
) -> Result<u32, NoMemory>
    requires some { 1 ≤ used }
    requires room { used ≤ 511 }
    requires index { IsSome (index_of used last range page.now) }
    ensures { IfOk result (λ next. IfSome (index_of used last range page.now) (λ i. Appends i next blocks.old.items blocks.new.items)) }
{
    let Some(index) = IndexPage::read(page, used, last, range) else {
        unreachable!()
    };
    for i in 0..used {
        blocks.push(index.number(i))?;
    }
    Ok(index.next())
}
