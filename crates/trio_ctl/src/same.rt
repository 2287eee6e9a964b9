//! Whether what was handed in is this bundle.

ghost use Rattle.std.specs.Prelude.{◌≡◌, ◌↔◌, ◌≤◌, ◌++◌, false, IfNone, IfSome, IsSome, IsTrue, List, Some, drop, length, map, take};
ghost use Rattle.std.specs.Option.{option_copied, option_map};
ghost use Rattle.trio_nodes.specs.Handed.{all_pages, head_of};
ghost use Rattle.trio_nodes.specs.declared.entry.HandedPage.{HandedPage as HandedPageSeen};
ghost use Rattle.trio_entries.specs.Handed.{block_in, file_in, file_pages, fresh_in, handed_in, index_in};
ghost use Rattle.trio_ctl.specs.inner.Same.{page_seen};

use trio_lease::{Bundle, FreshPage, WriteLease};
use trio_nodes::{Handed, HandedHead, HandedPage};
use trio_open::belongs::has_numbers;
use trio_page::{Page, PageNo};

/// Whether this is the bundle as it would be handed in now, byte for byte and with the marks of its
/// touched blocks. Takes no memory.
pub(crate) fn is_same(handed: &Handed, bundle: &Bundle) -> bool
    ensures { IsTrue result ↔ (handed.now ≡ handed_in bundle.now) }
{
    are_files(handed, bundle)
        && has_numbers(handed.holds(), bundle.holds())
        && has_numbers(handed.numbers(), bundle.inodes())
}

/// Whether the write leases and the allotted pages are those of this bundle.
fn are_files(handed: &Handed, bundle: &Bundle) -> bool
    ensures { IsTrue result ↔ ((handed.now.writes ≡ (handed_in bundle.now).writes) × (handed.now.pages ≡ (handed_in bundle.now).pages)) }
{
    are_heads(handed.heads(), bundle.writes()) && are_pages(handed.pages(), bundle)
}

fn are_heads(heads: &[HandedHead], leases: &[WriteLease]) -> bool
    ensures { IsTrue result ↔ (heads.now ≡ map (λ f. head_of (file_in f.stands)) leases.now) }
{
    if heads.len() != leases.len() {
        return false;
    }
    for i in 0..heads.len() {
        if !is_head(&heads[i], &leases[i]) {
            return false;
        }
    }
    true
}

fn is_head(head: &HandedHead, lease: &WriteLease) -> bool
    ensures { IsTrue result ↔ (head.now ≡ head_of (file_in lease.now.stands)) }
{
    head.ino == lease.ino()
        && head.kind == lease.kind()
        && are_bytes(&head.body, lease.body())
        && head.index == lease.index_len()
        && head.blocks == lease.blocks_len()
}

/// Whether these are the pages of the write leases, one lease after another, and then the allotted
/// ones.
fn are_pages(pages: &[HandedPage], bundle: &Bundle) -> bool
    ensures { IsTrue result ↔ (pages.now ≡ all_pages (handed_in bundle.now)) }
{
    let mut rest = pages;
    for lease in bundle.writes() {
        match behind_file(rest, lease) {
            Some(behind) => rest = behind,
            None => return false,
        }
    }
    are_fresh(rest, bundle.pages())
}

/// What stands behind the pages of a file. `None` exactly where these pages don't begin with them.
fn behind_file<'a>(pages: &'a [HandedPage], lease: &WriteLease) -> Option<&'a [HandedPage]>
    ensures behind { IfSome result (λ rest. pages.now ≡ file_pages lease.now ++ rest.now) }
    ensures none { IfNone result ((rest : List HandedPageSeen) → pages.now ≡ file_pages lease.now ++ rest → ⊥) }
{
    let (index, behind) = split(pages, lease.index_len())?;
    let (blocks, rest) = split(behind, lease.blocks_len())?;
    if are_index(index, lease) && are_blocks(blocks, lease) {
        Some(rest)
    } else {
        None
    }
}

/// The first so many pages, and the others. `None` exactly where there are less.
fn split(pages: &[HandedPage], count: usize) -> Option<(&[HandedPage], &[HandedPage])>
    ensures parts { IfSome result (λ parts. (parts.0.now ≡ take count pages.now) × (parts.1.now ≡ drop count pages.now)) }
    ensures some { IsSome result ↔ (count ≤ length pages.now) }
{
    if count <= pages.len() {
        Some(pages.split_at(count))
    } else {
        None
    }
}

fn are_index(pages: &[HandedPage], lease: &WriteLease) -> bool
    ensures { IsTrue result ↔ (pages.now ≡ map index_in lease.now.stands.index) }
{
    if pages.len() != lease.index_len() {
        return false;
    }
    for i in 0..pages.len() {
        if !is_page(&pages[i], lease.index_no(i), lease.index(i), Some(false)) {
            return false;
        }
    }
    true
}

fn are_blocks(pages: &[HandedPage], lease: &WriteLease) -> bool
    ensures { IsTrue result ↔ (pages.now ≡ map block_in lease.now.stands.blocks) }
{
    if pages.len() != lease.blocks_len() {
        return false;
    }
    for i in 0..pages.len() {
        if !is_page(
            &pages[i],
            lease.block_no(i),
            lease.block(i),
            lease.block_touched(i),
        ) {
            return false;
        }
    }
    true
}

fn are_fresh(pages: &[HandedPage], fresh: &[FreshPage]) -> bool
    ensures { IsTrue result ↔ (pages.now ≡ map fresh_in fresh.now) }
{
    if pages.len() != fresh.len() {
        return false;
    }
    for i in 0..pages.len() {
        if !is_fresh(&pages[i], &fresh[i]) {
            return false;
        }
    }
    true
}

fn is_fresh(page: &HandedPage, fresh: &FreshPage) -> bool
    ensures { IsTrue result ↔ (page.now ≡ fresh_in fresh.now) }
{
    page.no == fresh.no().0
        && are_bytes(page.bytes.as_slice(), fresh.page().bytes())
        && !page.touched
}

/// Whether there is a page, of this number, with these bytes and this mark.
fn is_page(
    handed: &HandedPage,
    no: Option<PageNo>,
    page: Option<&Page>,
    touched: Option<bool>,
) -> bool
    ensures { IsTrue result ↔ (page_seen no (option_copied page.entry) touched ≡ Some handed.now) }
{
    match (no, page, touched) {
        (Some(no), Some(page), Some(touched)) => {
            handed.no == no.0
                && are_bytes(handed.bytes.as_slice(), page.bytes())
                && handed.touched == touched
        }
        _ => false,
    }
}

fn are_bytes(these: &[u8], those: &[u8]) -> bool
    ensures { IsTrue result ↔ (these.now ≡ those.now) }
{
    these == those
}
