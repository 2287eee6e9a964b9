//! Cases that are made where they may be.

ghost use Rattle.std.specs.Prelude.{◌≡◌, ◌==◌, ◌++◌, ◌*◌, ◌≤◌, IfOk, IsTrue, OnOk, Some, [], count_by, false, length, map, true};
ghost use Rattle.std.specs.List.{list_all, list_any};
ghost use Rattle.trio_rights.specs.Bundle.{bundle_pages};
ghost use Rattle.trio_rights.specs.ByKind.{is_directory};
ghost use Rattle.trio_rights.specs.Row.{Row, row_in};
ghost use Rattle.trio_lists.specs.Lists.{are_new};
ghost use Rattle.trio_lease.specs.Views.{bundle_in};
ghost use Rattle.trio_layout.specs.Allowed.{has_kind};
ghost use Rattle.trio_layout.specs.Range.{is_core};
ghost use Rattle.trio_case.specs.Cases.{lent_numbers, is_child, is_free_number, HasDirectoryParents, IsJudgeable};

use std::alloc::Global;
use trio_case::Case;
use trio_layout::CoreRange;
use trio_lease::{Bundle, FreshIno, HoldLease, WriteLease};
use trio_page::NoMemory;
use trio_rights::{Creds, Kind, LibNo};
use trio_tables::Shadow;

/// The case of a bundle of library 1. `None` where it can't be one, or there is no memory; the bundle
/// is let go then.
pub fn case_of(
    alloc: Global,
    creds: Creds,
    bundle: Bundle,
    rows: &Shadow,
    range: CoreRange,
) -> Option<Case> {
    let inodes = rows.inodes();
    if !is_judgeable(alloc, &bundle, rows, range, inodes) {
        bundle.discard();
        return None;
    }
    match Case::of(alloc, LibNo(1), creds, bundle, rows, range, inodes) {
        Ok(case) => Some(case),
        Err((bundle, _)) => {
            bundle.discard();
            None
        }
    }
}

/// Whether a case may be made of a bundle, as far as there is memory to tell.
fn is_judgeable(
    alloc: Global,
    bundle: &Bundle,
    rows: &Shadow,
    range: CoreRange,
    inodes: u32,
) -> bool
    ensures { IsTrue result → IsJudgeable bundle.now rows.now range inodes }
{
    if rows.inodes() != inodes || range.first == 0 {
        return false;
    }
    if !has_directory_parents(rows) || !has_few_children(alloc, bundle, rows) {
        return false;
    }
    if !writes_have_kinds(bundle.writes(), rows) || !holds_have_kinds(bundle.holds(), rows) {
        return false;
    }
    if !are_free(bundle.inodes(), rows, inodes) {
        return false;
    }
    if !lent_once(alloc, bundle) || !handed_in_once(alloc, bundle.inodes()) {
        return false;
    }
    pages_fit(alloc, bundle, range)
}

/// Whether each live file that a row names for its parent is a directory.
fn has_directory_parents(rows: &Shadow) -> bool
    ensures { IsTrue result → HasDirectoryParents rows.now }
{
    for ino in 0..rows.inodes() + 1 {
        if !has_directory_parent(rows, ino) {
            return false;
        }
    }
    true
}

fn has_directory_parent(rows: &Shadow, ino: u32) -> bool
    ensures { IsTrue result → (r p : Row) → row_in rows.now ino ≡ Some r → row_in rows.now r.parent ≡ Some p → is_directory p.kind ≡ true }
{
    match rows.row(ino) {
        Some(row) => may_list(rows, row.parent),
        None => true,
    }
}

/// Whether the file of this number, where it is live, is a directory.
fn may_list(rows: &Shadow, ino: u32) -> bool
    ensures { IsTrue result → (p : Row) → row_in rows.now ino ≡ Some p → is_directory p.kind ≡ true }
{
    match rows.row(ino) {
        Some(row) => row.kind.is_directory(),
        None => true,
    }
}

/// Whether at most 16 files a page of the bundle stand in the directories that it writes.
fn has_few_children(alloc: Global, bundle: &Bundle, rows: &Shadow) -> bool
    ensures { IsTrue result → count_by (is_child bundle.now) rows.now ≤ 16 * length (bundle_pages (bundle_in bundle.now)) }
{
    match page_numbers(alloc, bundle) {
        Ok(pages) => child_count(bundle, rows).div_ceil(16) <= pages.len(),
        Err(_) => false,
    }
}

/// How many files stand in the directories that the bundle writes.
fn child_count(bundle: &Bundle, rows: &Shadow) -> usize
    ensures { result ≡ count_by (is_child bundle.now) rows.now }
{
    let mut count = 0;
    for ino in 0..rows.inodes() + 1 {
        if is_child(bundle, rows, ino) {
            count += 1;
        }
    }
    count
}

/// Whether the file of this number stands in a directory that the bundle writes.
fn is_child(bundle: &Bundle, rows: &Shadow, ino: u32) -> bool
    ensures { result ≡ is_child bundle.now (row_in rows.now ino) }
{
    match rows.row(ino) {
        Some(row) => is_lent(bundle.writes(), row.parent),
        None => false,
    }
}

/// Whether the file of this number is lent for writing.
fn is_lent(writes: &[WriteLease], ino: u32) -> bool
    ensures { result ≡ list_any (λ f. f.stands.ino == ino) writes.now }
{
    writes.iter().any(|file| file.ino() == ino)
}

/// Whether the file of this number is live and of this kind.
fn has_kind(rows: &Shadow, kind: Kind, ino: u32) -> bool
    ensures { result ≡ has_kind kind (row_in rows.now ino) }
{
    match rows.row(ino) {
        Some(row) => kind.byte() == row.kind.byte(),
        None => false,
    }
}

fn writes_have_kinds(writes: &[WriteLease], rows: &Shadow) -> bool
    ensures { result ≡ list_all (λ f. has_kind f.stands.kind (row_in rows.now f.stands.ino)) writes.now }
{
    writes
        .iter()
        .all(|file| has_kind(rows, file.kind(), file.ino()))
}

fn holds_have_kinds(holds: &[HoldLease], rows: &Shadow) -> bool
    ensures { result ≡ list_all (λ h. has_kind h.kind (row_in rows.now h.ino)) holds.now }
{
    holds
        .iter()
        .all(|hold| has_kind(rows, hold.kind(), hold.ino()))
}

/// Whether these numbers are within the table and not live.
fn are_free(inodes: &[FreshIno], rows: &Shadow, count: u32) -> bool
    ensures { result ≡ list_all (λ n. is_free_number rows.now count n.no) inodes.now }
{
    inodes.iter().all(|ino| is_free(rows, count, ino.no()))
}

fn is_free(rows: &Shadow, count: u32, ino: u32) -> bool
    ensures { result ≡ is_free_number rows.now count ino }
{
    0 < ino && ino <= count && rows.row(ino).is_none()
}

/// Whether no file is lent twice.
fn lent_once(alloc: Global, bundle: &Bundle) -> bool
    ensures { IsTrue result → are_new [] (lent_numbers bundle.now) ≡ true }
{
    match numbers_lent(alloc, bundle.writes(), bundle.holds()) {
        Ok(numbers) => are_once(&numbers),
        Err(_) => false,
    }
}

fn numbers_lent(
    alloc: Global,
    writes: &[WriteLease],
    holds: &[HoldLease],
) -> Result<Vec<u32>, NoMemory>
    ensures { IfOk result (λ v. v.items ≡ map (λ f. f.stands.ino) writes.now ++ map (λ h. h.ino) holds.now) }
{
    let mut numbers = Vec::new(alloc);
    for file in writes {
        numbers.push(file.ino())?;
    }
    for hold in holds {
        numbers.push(hold.ino())?;
    }
    Ok(numbers)
}

/// Whether no inode number was handed in twice.
fn handed_in_once(alloc: Global, inodes: &[FreshIno]) -> bool
    ensures { IsTrue result → are_new [] (map (λ n. n.no) inodes.now) ≡ true }
{
    match numbers_handed_in(alloc, inodes) {
        Ok(numbers) => are_once(&numbers),
        Err(_) => false,
    }
}

fn numbers_handed_in(alloc: Global, inodes: &[FreshIno]) -> Result<Vec<u32>, NoMemory>
    ensures { IfOk result (λ v. v.items ≡ map (λ n. n.no) inodes.now) }
{
    let mut numbers = Vec::new(alloc);
    for ino in inodes {
        numbers.push(ino.no())?;
    }
    Ok(numbers)
}

/// Whether all pages are core pages, and none stands twice.
fn pages_fit(alloc: Global, bundle: &Bundle, range: CoreRange) -> bool
    ensures core { IsTrue result → list_all (is_core range) (bundle_pages (bundle_in bundle.now)) ≡ true }
    ensures once { IsTrue result → are_new [] (bundle_pages (bundle_in bundle.now)) ≡ true }
{
    match page_numbers(alloc, bundle) {
        Ok(pages) => are_core(&pages, range) && are_once(&pages),
        Err(_) => false,
    }
}

fn are_core(pages: &[u32], range: CoreRange) -> bool
    ensures { result ≡ list_all (is_core range) pages.now }
{
    pages.iter().all(|page| range.has(u64::from(*page)))
}

/// The numbers of all pages: of each write lease those of its index pages and then of its blocks, and
/// after them those of the pages that were allotted.
fn page_numbers(alloc: Global, bundle: &Bundle) -> Result<Vec<u32>, NoMemory>
    ensures { IfOk result (λ v. v.items ≡ bundle_pages (bundle_in bundle.now)) }
{
    let mut pages = Vec::new(alloc);
    for file in bundle.writes() {
        add_index(&mut pages, file)?;
        add_blocks(&mut pages, file)?;
    }
    for page in bundle.pages() {
        pages.push(page.no().0)?;
    }
    Ok(pages)
}

fn add_index(pages: &mut Vec<u32>, file: &WriteLease) -> Result<(), NoMemory>
    ensures { OnOk result (pages.new.items ≡ pages.old.items ++ map (λ p. p.no.0) file.now.stands.index) }
{
    for at in 0..file.index_len() {
        let Some(no) = file.index_no(at) else {
            return Ok(());
        };
        pages.push(no.0)?;
    }
    Ok(())
}

fn add_blocks(pages: &mut Vec<u32>, file: &WriteLease) -> Result<(), NoMemory>
    ensures { OnOk result (pages.new.items ≡ pages.old.items ++ map (λ p. p.no.0) file.now.stands.blocks) }
{
    for at in 0..file.blocks_len() {
        let Some(no) = file.block_no(at) else {
            return Ok(());
        };
        pages.push(no.0)?;
    }
    Ok(())
}

/// Whether no number stands twice.
fn are_once(numbers: &[u32]) -> bool
    ensures { result ≡ are_new [] numbers.now }
{
    for i in 0..numbers.len() {
        if numbers[..i].contains(&numbers[i]) {
            return false;
        }
    }
    true
}
