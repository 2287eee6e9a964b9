//! Whether an image verifies.

ghost use Rattle.std.specs.Prelude.{◌≡◌, ◌+◌, ◌-◌, ◌*◌, ◌<◌, ◌≤◌, ℕ, None, IfErr, IfNone, IfOk, IfSome, IsSome, OnOk, length, slice_index_or};
ghost use Rattle.trio_survey.specs.Stored.{image_in, HasPage, HasSuperblock, PagesVerify, StoresTables};
ghost use Rattle.trio_survey.specs.inner.Compared.{HasOwnerFault, HasRowFault, HasSizes, IsOwnerFault, IsRowFault, IsTableFault};
ghost use Rattle.trio_survey.specs.Verdict.{superblock_in, IsDenied};
ghost use Rattle.trio_tables.specs.Stored.{owner_bytes, padded_to_pages, page_at, shadow_bytes};

use crate::fault::SurveyFault;
use crate::whole::{Found, survey};
use std::alloc::Global;
use trio_layout::{CoreRange, FaultAt, Location, Rule, Superblock};
use trio_page::{Home, PageNo, Reads};
use trio_tables::{Owners, Shadow};

/// Whether the pages are those of an image that verifies: the core that the superblock tells is
/// sound, and the stored tables are exactly those of its files. Page 0 is at home and in its grammar.
///
/// `Ok` comes exactly where the image verifies. [`SurveyFault::Fails`] names the lowest that fails of the
/// rules I1, I2 and that of the tables, with a place at which it does. A page that the superblock counts
/// and that isn't at home fails where a file or a table wants it. The pages are as they were after any answer,
/// and each page of the image, that of the superblock and those of the tables among them, was looked
/// at once at most.
pub fn verify(alloc: Global, home: &mut Home, reads: &mut Reads) -> Result<(), SurveyFault>
    requires { IsSome (superblock_in home.old.pages) }
    ensures pages { home.new.pages ≡ home.old.pages }
    ensures verified { (s : Superblock) → HasSuperblock s home.old.pages → OnOk result (PagesVerify s home.old.pages) }
    ensures fails { (s : Superblock) → HasSuperblock s home.old.pages → IfErr result (IsDenied s home.old.pages) }
    ensures reads { (s : Superblock) → HasSuperblock s home.old.pages → reads.new ≤ reads.old + s.pages }
    ensures looked { (s : Superblock) → HasSuperblock s home.old.pages → home.new.looked ≤ home.old.looked + s.pages }
{
    let _found = verify_found(alloc, home, reads)?;
    Ok(())
}

/// As [`verify`], with the tables of an image that verifies.
pub fn verify_found(alloc: Global, home: &mut Home, reads: &mut Reads) -> Result<Found, SurveyFault>
    requires { IsSome (superblock_in home.old.pages) }
    ensures pages { home.new.pages ≡ home.old.pages }
    ensures verified { (s : Superblock) → HasSuperblock s home.old.pages → OnOk result (PagesVerify s home.old.pages) }
    ensures rows { (s : Superblock) → HasSuperblock s home.old.pages → IfOk result (λ f. f.rows ≡ (image_in s home.old.pages).rows) }
    ensures owners { (s : Superblock) → HasSuperblock s home.old.pages → IfOk result (λ f. f.owners ≡ (image_in s home.old.pages).owners) }
    ensures fails { (s : Superblock) → HasSuperblock s home.old.pages → IfErr result (IsDenied s home.old.pages) }
    ensures reads { (s : Superblock) → HasSuperblock s home.old.pages → reads.new ≤ reads.old + s.pages }
    ensures looked { (s : Superblock) → HasSuperblock s home.old.pages → home.new.looked ≤ home.old.looked + s.pages }
{
    let superblock = superblock(home, reads);
    let range = CoreRange {
        first: superblock.first_core,
        end: superblock.pages,
    };
    let found = survey(
        alloc,
        home,
        &superblock.root,
        range,
        superblock.inodes,
        reads,
    )?;
    compare(home, &superblock, &found, reads)?;
    Ok(found)
}

/// The superblock of the image.
fn superblock(home: &mut Home, reads: &mut Reads) -> Superblock
    requires { IsSome (superblock_in home.old.pages) }
    ensures pages { home.new.pages ≡ home.old.pages }
    ensures sizes { HasSizes result }
    ensures only { (s : Superblock) → HasSuperblock s home.old.pages → result ≡ s }
    ensures reads { reads.new ≤ reads.old + 1 }
    ensures looked { home.new.looked ≤ home.old.looked + 1 }
{
    let page = home.page(PageNo(0), reads).unwrap();
    Superblock::read(page).unwrap()
}

/// Compares the stored tables with those that were found.
pub(crate) fn compare(
    home: &mut Home,
    superblock: &Superblock,
    found: &Found,
    reads: &mut Reads,
) -> Result<(), SurveyFault>
    requires sizes { HasSizes superblock.now }
    requires rows { length found.now.rows ≡ superblock.now.inodes + 1 }
    requires owners { length found.now.owners ≡ superblock.now.pages }
    ensures pages { home.new.pages ≡ home.old.pages }
    ensures stored { OnOk result (StoresTables superblock.now home.old.pages found.now.rows found.now.owners) }
    ensures fault { IfErr result (IsTableFault superblock.now home.old.pages found.now.rows found.now.owners) }
    ensures reads { reads.new + 1 ≤ reads.old + superblock.now.first_core }
    ensures looked { home.new.looked + 1 ≤ home.old.looked + superblock.now.first_core }
{
    let &Superblock {
        first_owner,
        first_core,
        ..
    } = superblock;
    if let Some(ino) = row_fault(home, &found.rows, first_owner, reads) {
        let place = Location { page: 0, slot: 0 };
        return Err(SurveyFault::fails(Rule::Tables, FaultAt { ino, place }));
    }
    if let Some(page) = owner_fault(home, &found.owners, first_owner, first_core, reads) {
        let place = Location { page, slot: 0 };
        return Err(SurveyFault::fails(Rule::Tables, FaultAt { ino: 0, place }));
    }
    Ok(())
}

/// The first inode number whose stored row differs, or 0 where a shadow page before it is absent or
/// isn't zero behind its rows.
fn row_fault(home: &mut Home, rows: &Shadow, first_owner: u32, reads: &mut Reads) -> Option<u32>
    requires some { 1 ≤ first_owner }
    requires few { first_owner ≤ 8192 }
    requires rows { (k : ℕ) → 1 + k < first_owner → 128 * k + 1 < length rows.now }
    ensures pages { home.new.pages ≡ home.old.pages }
    ensures stored { IfNone result ((k : ℕ) → 1 + k < first_owner
        → HasPage home.old.pages (1 + k) (page_at k (padded_to_pages (shadow_bytes rows.now)))) }
    ensures fault { IfSome result (HasRowFault first_owner home.old.pages rows.now) }
    ensures reads { reads.new + 1 ≤ reads.old + first_owner }
    ensures looked { home.new.looked + 1 ≤ home.old.looked + first_owner }
{
    for k in 0..first_owner - 1 {
        if let Some(ino) = row_fault_at(home, rows, k, reads) {
            return Some(ino);
        }
    }
    None
}

fn row_fault_at(home: &mut Home, rows: &Shadow, k: u32, reads: &mut Reads) -> Option<u32>
    requires room { k < 8192 }
    requires rows { 128 * k + 1 < length rows.now }
    ensures pages { home.new.pages ≡ home.old.pages }
    ensures stored { IfNone result (HasPage home.old.pages (1 + k) (page_at k (padded_to_pages (shadow_bytes rows.now)))) }
    ensures fault { IfSome result (IsRowFault rows.now k (slice_index_or home.old.pages (1 + k) None)) }
    ensures reads { reads.new ≤ reads.old + 1 }
    ensures looked { home.new.looked ≤ home.old.looked + 1 }
{
    match home.page(PageNo(1 + k), reads) {
        Some(page) => rows.differs_at(k, page),
        None => Some(0),
    }
}

/// The first page whose stored owner differs, or 0 where an owner page before it is absent or isn't
/// zero behind its owners.
fn owner_fault(
    home: &mut Home,
    owners: &Owners,
    first_owner: u32,
    first_core: u32,
    reads: &mut Reads,
) -> Option<u32>
    requires order { first_owner ≤ first_core }
    requires few { first_core ≤ 8192 }
    requires owners { (k : ℕ) → first_owner + k < first_core → 1024 * k < length owners.now }
    ensures pages { home.new.pages ≡ home.old.pages }
    ensures stored { IfNone result ((k : ℕ) → first_owner + k < first_core
        → HasPage home.old.pages (first_owner + k) (page_at k (padded_to_pages (owner_bytes owners.now)))) }
    ensures fault { IfSome result (HasOwnerFault first_owner first_core home.old.pages owners.now) }
    ensures reads { reads.new + first_owner ≤ reads.old + first_core }
    ensures looked { home.new.looked + first_owner ≤ home.old.looked + first_core }
{
    for k in 0..first_core - first_owner {
        if let Some(page) = owner_fault_at(home, owners, first_owner, k, reads) {
            return Some(page);
        }
    }
    None
}

fn owner_fault_at(
    home: &mut Home,
    owners: &Owners,
    first_owner: u32,
    k: u32,
    reads: &mut Reads,
) -> Option<u32>
    requires room { first_owner + k < 8192 }
    requires owners { 1024 * k < length owners.now }
    ensures pages { home.new.pages ≡ home.old.pages }
    ensures stored { IfNone result (HasPage home.old.pages (first_owner + k) (page_at k (padded_to_pages (owner_bytes owners.now)))) }
    ensures fault { IfSome result (IsOwnerFault owners.now k (slice_index_or home.old.pages (first_owner + k) None)) }
    ensures reads { reads.new ≤ reads.old + 1 }
    ensures looked { home.new.looked ≤ home.old.looked + 1 }
{
    match home.page(PageNo(first_owner + k), reads) {
        Some(page) => owners.differs_at(k, page),
        None => Some(0),
    }
}
