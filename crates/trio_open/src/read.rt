//! Lending copies of a file.

ghost use Rattle.std.specs.Prelude.{◌≡◌, ◌≤◌, IfOk, IsOk, IsSome, IsTrue, None, false, Some, map, slice_index_or};
ghost use Rattle.std.specs.Result.{ForOk};
ghost use Rattle.trio_layout.specs.Pages.{sheets_of};
ghost use Rattle.trio_nodes.specs.declared.grant.GrantKind.TheVariants.{Read};
ghost use Rattle.trio_checkpoint.specs.Covered.{are_there, chain_in, core_of};
ghost use Rattle.trio_state.specs.Grants.{opened};
ghost use Rattle.trio_open.specs.Open.{grant_on, shown_of, untouched};
ghost use Rattle.trio_open.specs.inner.Lending.{IsLendable};

use crate::lend::GrantRequest;
use crate::open::{Lent, OpenFile};
use std::alloc::Global;
use std::snapshot::Snapshot;
use trio_checkpoint::Checkpoint;
use trio_grants::GrantKey;
use trio_layout::CoreRange;
use trio_lease::{LentPage, ReadLease, ReadParts};
use trio_page::{Home, NoMemory, PageNo, Reads};

/// Copies a file for reading: its open grant, and the lease for the library. All pages stay at home.
/// `NoMemory`: there was no memory for the copies.
pub fn copied_file(
    alloc: Global,
    home: &mut Home,
    range: CoreRange,
    asked: &GrantRequest,
    key: GrantKey,
) -> Result<(OpenFile, ReadLease), NoMemory>
    requires chain { IsOk (chain_in (core_of home.old.pages range) asked.now.kind asked.now.body) }
    requires lendable { ForOk (chain_in (core_of home.old.pages range) asked.now.kind asked.now.body) (IsLendable (core_of home.old.pages range)) }
    ensures opened { IfOk result (λ made. ForOk (chain_in (core_of home.old.pages range) asked.now.kind asked.now.body)
        (λ chain. made.0 ≡ record { key = key; grant = grant_on (core_of home.old.pages range) asked.now.lib.0 asked.now.ino Read asked.now.kind asked.now.entry asked.now.body chain })) }
    ensures lease { IfOk result (λ made. made.1 ≡ shown_of made.0.grant) }
    ensures pages { home.new.pages ≡ home.old.pages }
    ensures floor { home.old.looked ≤ home.new.looked }
{
    let mut reads = Reads::new();
    // a checkpoint tells the numbers of the file's pages
    let checkpoint = Checkpoint::taken(
        alloc,
        home,
        asked.ino,
        asked.kind,
        &asked.body,
        range,
        &mut reads,
    )?;
    let index = copies(alloc, home, range, checkpoint.index_numbers(), &mut reads)?;
    let blocks = copies(alloc, home, range, checkpoint.block_numbers(), &mut reads)?;
    let parts = ReadParts {
        lib: asked.lib,
        ino: asked.ino,
        kind: asked.kind,
        entry: asked.entry,
        body: asked.body,
        index,
        blocks,
    };
    let lent = Lent::Read(Snapshot::of(&parts));
    let file = OpenFile::of(key, lent, asked.lib, asked.ino);
    Ok((file, ReadLease::of(parts)))
}

/// Copies the core pages of these numbers, all of them at home. `NoMemory`: there was no memory for
/// the copies.
fn copies(
    alloc: Global,
    home: &mut Home,
    range: CoreRange,
    numbers: &[u32],
    reads: &mut Reads,
) -> Result<Vec<LentPage>, NoMemory>
    requires there { IsTrue (are_there (core_of home.old.pages range) numbers.now) }
    ensures pages { home.new.pages ≡ home.old.pages }
    ensures floor { home.old.looked ≤ home.new.looked }
    ensures copies { IfOk result (λ copies. copies.items ≡ map untouched (sheets_of (core_of home.old.pages range) numbers.now)) }
{
    let mut copies = Vec::new(alloc);
    for number in numbers {
        let page = copied(alloc, home, *number, reads)?;
        copies.push(page)?;
    }
    Ok(copies)
}

/// Copies the page of this number, which is at home.
fn copied(
    alloc: Global,
    home: &mut Home,
    number: u32,
    reads: &mut Reads,
) -> Result<LentPage, NoMemory>
    requires { IsSome (slice_index_or home.old.pages number None) }
    ensures pages { home.new.pages ≡ home.old.pages }
    ensures floor { home.old.looked ≤ home.new.looked }
    ensures copy { IfOk result (λ copy. slice_index_or home.old.pages number None ≡ Some copy.page) }
    ensures number { IfOk result (λ copy. copy ≡ record { no = record { 0 = number }; page = copy.page; touched = false }) }
{
    let no = PageNo(number);
    let Some(page) = home.page(no, reads) else {
        unreachable!()
    };
    Ok(LentPage {
        no,
        page: page.copy(alloc)?,
        touched: false,
    })
}
