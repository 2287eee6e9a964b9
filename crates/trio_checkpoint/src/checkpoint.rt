//! Checkpoints.

ghost use Rattle.std.specs.Prelude.{◌≡◌, ◌<◌, ◌≤◌, ◌==◌, [], IfOk, IsOk, IsTrue, Ok, if◌then◌else◌, is_some, length};
ghost use Rattle.std.specs.List.{find};
ghost use Rattle.std.specs.Option.{option_copied};
ghost use Rattle.std.specs.Result.{ForOk};
ghost use Rattle.trio_lists.specs.Lists.{is_among};
ghost use Rattle.trio_lists.specs.Marked.{all_below};
ghost use Rattle.trio_layout.specs.Body.{guard_in};
ghost use Rattle.trio_layout.specs.Pages.{covered_of, sheets_of};
ghost use Rattle.trio_rights.specs.Sheets.{sheet_numbers, with_pages};
ghost use Rattle.trio_checkpoint.specs.Covered.{are_there, body_on, chain_in, core_of, covered_numbers, covered_pages, with_body};
ghost use Rattle.trio_checkpoint.specs.inner.Steps.{AllStand, AreCopies};

use crate::chain::copy_chain;
use crate::page_copy::{PageCopy, copy_of, copy_pages, put_all_back, renew_all};
use std::alloc::Global;
use std::marker::Model;
use trio_layout::{Body, CoreRange};
use trio_page::{Home, NoMemory, PageNo, Reads};
use trio_rights::Kind;

/// What a write grant covers of a file: its body, its index pages and, of a directory or of a
/// guarded file, its blocks.
///
/// Contracts see the inode number, the body, the numbers of all index pages and blocks, and the
/// covered pages with their numbers: a list of the index pages and one of the blocks.
#[derive(Drop)]
pub struct Checkpoint {
    ino: u32,
    body: [u8; 64],
    index_numbers: Vec<u32>,
    block_numbers: Vec<u32>,
    index: Vec<PageCopy>,
    /// Those of a directory or of a guarded file; of any other file none.
    blocks: Vec<PageCopy>,
}

impl Model for Checkpoint {
    ghost use Rattle.trio_checkpoint.specs.Covered.{Checkpointed};

    ghost Value = { Checkpointed };

    ghost view = { λ c. record {
      ino = c.ino;
      body = c.body;
      chain = record { index = c.index_numbers.items; blocks = c.block_numbers.items };
      index = c.index.items;
      blocks = c.blocks.items;
    } };
}

impl Checkpoint {
    /// Takes the checkpoint of a file of this number and kind that has this body, in an image with
    /// these core pages.
    ///
    /// The chain of the body is in the grammar and at home, and so are the blocks that are covered:
    /// a directory's, and those of a file whose body says that it is guarded. Each page that is
    /// copied is looked at once. All pages stay as they were.
    ///
    /// `NoMemory`: there was no memory for the copies.
    pub fn taken(
        alloc: Global,
        home: &mut Home,
        ino: u32,
        kind: Kind,
        body: &[u8; 64],
        range: CoreRange,
        reads: &mut Reads,
    ) -> Result<Checkpoint, NoMemory>
        requires chain { IsOk (chain_in (core_of home.old.pages range) kind body.now) }
        requires blocks { ForOk (chain_in (core_of home.old.pages range) kind body.now)
            (λ chain. IsTrue (are_there (core_of home.old.pages range) (covered_numbers kind (guard_in body.now) chain.blocks))) }
        ensures ino { IfOk result (λ c. c.ino ≡ ino) }
        ensures body { IfOk result (λ c. c.body ≡ body.now) }
        ensures chain { IfOk result (λ c. Ok c.chain ≡ chain_in (core_of home.old.pages range) kind body.now) }
        ensures index { IfOk result (λ c. c.index ≡ sheets_of (core_of home.old.pages range) c.chain.index) }
        ensures blocks { IfOk result
            (λ c. c.blocks ≡ sheets_of (core_of home.old.pages range) (covered_numbers kind (guard_in body.now) c.chain.blocks)) }
        // both lists in one, as the state of the controller has it
        ensures covered { IfOk result
            (λ c. covered_pages c ≡ covered_of kind (guard_in body.now)
            (sheets_of (core_of home.old.pages range) c.chain.index)
            (sheets_of (core_of home.old.pages range) c.chain.blocks)) }
        ensures index_numbers { IfOk result (λ c. sheet_numbers c.index ≡ c.chain.index) }
        ensures block_numbers { IfOk result (λ c. sheet_numbers c.blocks ≡ covered_numbers kind (guard_in body.now) c.chain.blocks) }
        ensures within { IfOk result
            (λ c. IsTrue (all_below (length home.old.pages) (sheet_numbers (covered_pages c)))) }
        ensures home { home.new.pages ≡ home.old.pages }
        // the count of looks never falls
        ensures floor { home.old.looked ≤ home.new.looked }
    {
        let Some(read) = Body::read(body, kind, range) else {
            unreachable!()
        };
        let chain = copy_chain(alloc, home, range, &read, reads)?;
        let covers = kind.covers_blocks(read.guard);
        let blocks = copy_blocks(alloc, home, covers, &chain.block_numbers, reads)?;
        Ok(Checkpoint {
            ino,
            body: *body,
            index_numbers: chain.index_numbers,
            block_numbers: chain.block_numbers,
            index: chain.index,
            blocks,
        })
    }

    /// The inode number of the file.
    pub fn ino(&self) -> u32
        ensures { result ≡ self.now.ino }
    {
        self.ino
    }

    /// The numbers of the file's index pages, in the order of their chain.
    pub fn index_numbers(&self) -> &[u32]
        ensures { result.now ≡ self.now.chain.index }
    {
        &self.index_numbers
    }

    /// The numbers of the file's blocks, in the order in which the index pages list them; also where
    /// the blocks aren't covered.
    pub fn block_numbers(&self) -> &[u32]
        ensures { result.now ≡ self.now.chain.blocks }
    {
        &self.block_numbers
    }

    /// The 64 bytes of the file's body, as the grant lent it.
    pub fn body(&self) -> &[u8; 64]
        ensures { result.now ≡ self.now.body }
    {
        &self.body
    }

    /// Puts the covered pages in their places at home, and answers the body.
    ///
    /// The numbers of the covered pages are within the home. No look is counted, and all other
    /// pages stay as they are. Takes no memory.
    pub fn restored(self, home: &mut Home) -> [u8; 64]
        requires { IsTrue (all_below (length home.old.pages) (sheet_numbers (covered_pages self))) }
        ensures body { result ≡ self.body }
        ensures home { home.new ≡ record home.old { pages = with_pages (covered_pages self) home.old.pages } }
    {
        put_all_back(self.index, home);
        put_all_back(self.blocks, home);
        self.body
    }

    /// The settled body of the child whose entry stands in this slot, below 16, of a covered
    /// directory page. `None` exactly where the page isn't a covered directory page.
    pub fn body_at(&self, page: PageNo, slot: u16) -> Option<&[u8; 64]>
        requires { slot < 16 }
        ensures body { option_copied result ≡ body_on page.0 slot self.now.blocks }
        ensures covered { is_some result ≡ is_among page.0 (sheet_numbers self.now.blocks) }
    {
        let block = self.block(page)?;
        Some(block.body(slot))
    }

    /// Renews the settled body of the child whose entry stands in this slot, below 16, of a covered
    /// directory page. Nothing else changes. Takes no memory.
    pub fn put_body(&mut self, page: PageNo, slot: u16, body: &[u8; 64])
        requires slot { slot < 16 }
        requires covered { IsTrue (is_among page.0 (sheet_numbers self.old.blocks)) }
        ensures blocks { self.new ≡ record self.old { blocks = with_body page.0 slot body.now self.old.blocks } }
        ensures numbers { sheet_numbers (covered_pages self.new) ≡ sheet_numbers (covered_pages self.old) }
    {
        renew_all(&mut self.blocks, page, slot, body);
    }

    /// The covered directory page of this number.
    fn block(&self, page: PageNo) -> Option<&PageCopy>
        ensures { option_copied result ≡ find (λ x. x.page == page.0) self.now.blocks }
    {
        copy_of(&self.blocks, page)
    }
}

/// Copies the blocks of a file, which are at home, where they are covered; else none.
fn copy_blocks(
    alloc: Global,
    home: &mut Home,
    covers: bool,
    numbers: &[u32],
    reads: &mut Reads,
) -> Result<Vec<PageCopy>, NoMemory>
    requires { AllStand home.old.pages (if covers then numbers.now else []) }
    ensures copies { IfOk result (λ copies. AreCopies home.old.pages (if covers then numbers.now else []) copies.items) }
    ensures home { home.new.pages ≡ home.old.pages }
    ensures floor { home.old.looked ≤ home.new.looked }
{
    if !covers {
        return Ok(Vec::new(alloc));
    }
    copy_pages(alloc, home, numbers, reads)
}
