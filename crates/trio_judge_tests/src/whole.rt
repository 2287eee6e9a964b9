//! What the whole image with the bytes of a bundle comes to, for bundles without holds.

ghost use Rattle.std.specs.Prelude.{◌≡◌, ◌≢◌, ◌<◌, ℕ, List, [], IsTrue, Some, None, map, slice_index_or, true};
ghost use Rattle.std.specs.List.{list_all};
ghost use Rattle.trio_rights.specs.Bundle.{bundle_sheets};
ghost use Rattle.trio_rights.specs.Row.{Row, row_in};
ghost use Rattle.trio_rights.specs.Sheets.{Sheet};
ghost use Rattle.trio_lists.specs.Lists.{In};
ghost use Rattle.trio_lease.specs.Views.{bundle_in, fresh_sheet, lent_sheet};
ghost use Rattle.trio_layout.specs.Range.{is_core};
ghost use Rattle.trio_proposal.specs.Judgement.{CanBeJudged, image_of};
ghost use Rattle.trio_judge_tests.specs.Whole.{AreWhole, IsWhole, sheet_fits};

use crate::handed::{Grants, Lender, Poke, RANGE, handed_in};
use std::alloc::Global;
use trio_layout::CoreRange;
use trio_lease::{Bundle, FreshPage, WriteLease};
use trio_page::{Home, PAGE_SIZE, Page, PageNo, Reads};
use trio_proposal::{Verdict, judge};
use trio_rights::Creds;
use trio_tables::Shadow;

/// Whether the image that is proposed by what is lent, after the writes, is accepted. `None`: there was
/// no memory, or it can't be judged as a whole.
pub fn is_accepted(alloc: Global, grants: Grants, pokes: &[Poke]) -> Option<bool> {
    let (bundle, lender, creds) = handed_in(alloc, grants, pokes)?;
    let accepted = accepts(alloc, lender, creds, &bundle);
    bundle.discard();
    accepted
}

fn accepts(alloc: Global, lender: Lender, creds: Creds, bundle: &Bundle) -> Option<bool> {
    let Lender {
        root,
        mut home,
        rows,
    } = lender;
    if !can_be_judged(&mut home, &rows, RANGE, bundle) {
        return None;
    }
    let reads = &mut Reads::new();
    let verdict = judge(alloc, home, &root, RANGE, &rows, creds, bundle, reads).ok()?;
    Some(matches!(verdict, Verdict::Accepted(_)))
}

/// Whether an image and a bundle are such as the judgement asks for.
fn can_be_judged(home: &mut Home, rows: &Shadow, range: CoreRange, bundle: &Bundle) -> bool
    ensures { (root : List ℕ) → IsTrue result → CanBeJudged (image_of home.new.pages root range rows.now []) (bundle_in bundle.now) }
{
    if rows.inodes() == 0 || !bundle.holds().is_empty() {
        return false;
    }
    if range.first > range.end || range.end > 8192 || range.end as usize > home.len() {
        return false;
    }
    if !are_placed(rows, range) || !bundle_fits(bundle, home.len()) {
        return false;
    }
    are_whole(home)
}

/// Whether no page is absent.
fn are_whole(home: &mut Home) -> bool
    ensures pages { home.new.pages ≡ home.old.pages }
    ensures whole { IsTrue result → AreWhole home.old.pages }
{
    for no in 0..home.len() as u32 {
        if !is_whole(home, no) {
            return false;
        }
    }
    true
}

fn is_whole(home: &mut Home, no: u32) -> bool
    ensures pages { home.new.pages ≡ home.old.pages }
    ensures whole { IsTrue result → IsWhole (slice_index_or home.old.pages no None) }
{
    match home.page(PageNo(no), &mut Reads::new()) {
        Some(page) => page.bytes().len() == PAGE_SIZE,
        None => false,
    }
}

/// Whether each row but the root's names a slot of a core page.
fn are_placed(rows: &Shadow, range: CoreRange) -> bool
    ensures { IsTrue result → (n : ℕ) (r : Row) → row_in rows.now n ≡ Some r → n ≢ 1 → (r.slot < 16) × IsTrue (is_core range r.page) }
{
    for ino in 0..rows.inodes() + 1 {
        if !is_placed(rows, range, ino) {
            return false;
        }
    }
    true
}

fn is_placed(rows: &Shadow, range: CoreRange, ino: u32) -> bool
    ensures { IsTrue result → (r : Row) → row_in rows.now ino ≡ Some r → ino ≢ 1 → (r.slot < 16) × IsTrue (is_core range r.page) }
{
    match rows.row(ino) {
        Some(row) if ino != 1 => row.slot < 16 && range.has(u64::from(row.page)),
        _ => true,
    }
}

/// Whether all pages of a bundle have numbers below this one.
fn bundle_fits(bundle: &Bundle, count: usize) -> bool
    ensures { IsTrue result → (x : Sheet) → In x (bundle_sheets (bundle_in bundle.now)) → sheet_fits count x ≡ true }
{
    for file in bundle.writes() {
        if !index_fits(file, count) || !blocks_fit(file, count) {
            return false;
        }
    }
    fresh_fit(bundle.pages(), count)
}

fn fresh_fit(pages: &[FreshPage], count: usize) -> bool
    ensures { result ≡ list_all (λ p. sheet_fits count (fresh_sheet p)) pages.now }
{
    pages
        .iter()
        .all(|page| page_fits(page.no(), page.page(), count))
}

fn index_fits(file: &WriteLease, count: usize) -> bool
    ensures { IsTrue result → list_all (sheet_fits count) (map lent_sheet file.now.stands.index) ≡ true }
{
    for at in 0..file.index_len() {
        let (Some(no), Some(page)) = (file.index_no(at), file.index(at)) else {
            return false;
        };
        if !page_fits(no, page, count) {
            return false;
        }
    }
    true
}

fn blocks_fit(file: &WriteLease, count: usize) -> bool
    ensures { IsTrue result → list_all (sheet_fits count) (map lent_sheet file.now.stands.blocks) ≡ true }
{
    for at in 0..file.blocks_len() {
        let (Some(no), Some(page)) = (file.block_no(at), file.block(at)) else {
            return false;
        };
        if !page_fits(no, page, count) {
            return false;
        }
    }
    true
}

fn page_fits(no: PageNo, page: &Page, count: usize) -> bool
    ensures { result ≡ sheet_fits count (record { page = no.0; bytes = page.now }) }
{
    page.bytes().len() == PAGE_SIZE && (no.0 as usize) < count
}
