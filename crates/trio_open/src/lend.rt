//! Lending a file for writing.

ghost use Rattle.std.specs.Prelude.{◌≡◌, ◌++◌, ◌∷◌, ◌<◌, ◌≤◌, [], false, IfOk, IsOk, IsSome, IsTrue, OnErr, length, map, None, Some, slice_index_or, vec_capacity};
ghost use Rattle.std.specs.Result.{ForOk};
ghost use Rattle.trio_lists.specs.Lists.{are_new};
ghost use Rattle.trio_layout.specs.Body.{guard_in};
ghost use Rattle.trio_layout.specs.Pages.{covered_of, sheets_of};
ghost use Rattle.trio_rights.specs.Sheets.{without_pages};
ghost use Rattle.trio_checkpoint.specs.Covered.{are_there, chain_in, core_of, covered_pages};
ghost use Rattle.trio_nodes.specs.declared.grant.GrantKind.TheVariants.{Write};
ghost use Rattle.trio_open.specs.inner.Lending.{IsLendable};
ghost use Rattle.trio_open.specs.Covers.{CoversLent};
ghost use Rattle.trio_open.specs.Open.{grant_on, lease_of, untouched};

use crate::open::{Lent, OpenFile};
use std::alloc::Global;
use std::snapshot::Snapshot;
use trio_checkpoint::Checkpoint;
use trio_grants::GrantKey;
use trio_layout::CoreRange;
use trio_lease::{LentPage, WriteLease, WriteParts};
use trio_page::{Home, NoMemory, PageNo, Reads};
use trio_rights::{Kind, LibNo};

/// A file that a library asks for.
#[derive(Clone, Copy)]
pub struct GrantRequest {
    /// The library that asks.
    pub lib: LibNo,
    /// The inode number of the file.
    pub ino: u32,
    /// The kind of the file.
    pub kind: Kind,
    /// The number of the entry of the history that opens the grant.
    pub entry: u64,
    /// The settled body of the file.
    pub body: [u8; 64],
}

/// What comes of lending a file for writing.
pub struct Loan {
    /// The open grant.
    pub file: OpenFile,
    /// What is kept of the file while it is out.
    pub checkpoint: Checkpoint,
    /// The lease for the library.
    pub lease: WriteLease,
}

/// Lends a file for writing: its pages leave home. `NoMemory`: there was no memory for the
/// checkpoint or the lease; then all pages are at home as before.
pub fn lend(
    alloc: Global,
    home: &mut Home,
    range: CoreRange,
    asked: &GrantRequest,
    key: GrantKey,
) -> Result<Loan, NoMemory>
    requires chain { IsOk (chain_in (core_of home.old.pages range) asked.now.kind asked.now.body) }
    requires lendable { ForOk (chain_in (core_of home.old.pages range) asked.now.kind asked.now.body) (IsLendable (core_of home.old.pages range)) }
    ensures opened { IfOk result (λ loan. ForOk (chain_in (core_of home.old.pages range) asked.now.kind asked.now.body)
        (λ chain. loan.file ≡ record { key = key; grant = record (grant_on (core_of home.old.pages range) asked.now.lib.0 asked.now.ino Write asked.now.kind asked.now.entry asked.now.body chain) { checkpoint = [] } })) }
    ensures covered { IfOk result (λ loan. covered_pages loan.checkpoint ≡ covered_of loan.file.grant.of (guard_in loan.file.grant.body) loan.file.grant.index loan.file.grant.blocks) }
    ensures covers { IfOk result (λ loan. CoversLent loan.file.grant loan.checkpoint) }
    ensures lease { IfOk result (λ loan. loan.lease ≡ lease_of loan.file.grant) }
    ensures pages { IfOk result (λ loan. ForOk (chain_in (core_of home.old.pages range) asked.now.kind asked.now.body)
        (λ chain. home.new.pages ≡ without_pages (chain.index ++ chain.blocks) home.old.pages)) }
    ensures kept { OnErr result (home.new.pages ≡ home.old.pages) }
    ensures floor { home.old.looked ≤ home.new.looked }
{
    let mut reads = Reads::new();
    let checkpoint = Checkpoint::taken(
        alloc,
        home,
        asked.ino,
        asked.kind,
        &asked.body,
        range,
        &mut reads,
    )?;
    let mut index = Vec::with_capacity(alloc, checkpoint.index_numbers().len())?;
    let mut blocks = Vec::with_capacity(alloc, checkpoint.block_numbers().len())?;
    take_pages(
        home,
        range,
        checkpoint.index_numbers(),
        &mut index,
        &mut reads,
    );
    take_pages(
        home,
        range,
        checkpoint.block_numbers(),
        &mut blocks,
        &mut reads,
    );
    let parts = WriteParts {
        lib: asked.lib,
        ino: asked.ino,
        kind: asked.kind,
        entry: asked.entry,
        body: asked.body,
        index,
        blocks,
    };
    let lent = Lent::Write(Snapshot::of(&parts));
    let file = OpenFile::of(key, lent, asked.lib, asked.ino);
    Ok(Loan {
        file,
        checkpoint,
        lease: WriteLease::of(parts),
    })
}

/// Takes the core pages of these numbers, all of them there and none twice, out of home. There is
/// room for them.
fn take_pages(
    home: &mut Home,
    range: CoreRange,
    numbers: &[u32],
    to: &mut Vec<LentPage>,
    reads: &mut Reads,
)
    requires there { IsTrue (are_there (core_of home.old.pages range) numbers.now) }
    requires once { IsTrue (are_new [] numbers.now) }
    requires empty { to.old.items ≡ [] }
    requires room { length numbers.now ≤ vec_capacity to.old }
    ensures pages { home.new.pages ≡ without_pages numbers.now home.old.pages }
    ensures lent { to.new.items ≡ map untouched (sheets_of (core_of home.old.pages range) numbers.now) }
    ensures floor { home.old.looked ≤ home.new.looked }
{
    for number in numbers {
        let page = taken(home, *number, reads);
        let Ok(()) = to.push(page) else {
            unreachable!()
        };
    }
}

/// Takes the page of this number, which is there, out of home.
fn taken(home: &mut Home, number: u32, reads: &mut Reads) -> LentPage
    requires { IsSome (slice_index_or home.old.pages number None) }
    ensures pages { home.new.pages ≡ without_pages (number ∷ []) home.old.pages }
    ensures lent { slice_index_or home.old.pages number None ≡ Some result.page }
    ensures number { result ≡ record { no = record { 0 = number }; page = result.page; touched = false } }
    ensures floor { home.old.looked ≤ home.new.looked }
{
    let no = PageNo(number);
    let Some(page) = home.take(no, reads) else {
        unreachable!()
    };
    LentPage {
        no,
        page,
        touched: false,
    }
}
