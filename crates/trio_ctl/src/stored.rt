//! Storing an image as its pages.

ghost use Rattle.std.specs.Prelude.{◌≡◌, ◌+◌, ◌-◌, ◌≤◌, ◌++◌, IfOk, None, OnErr, Some, length, slice_index_or};
ghost use Rattle.trio_tables.specs.Stored.{owner_bytes, shadow_bytes};
ghost use Rattle.trio_image.specs.Front.{FillsPages, owner_count, shadow_count};
ghost use Rattle.trio_ctl.specs.Ctl.{or_zero};
ghost use Rattle.trio_ctl.specs.inner.Pages.{AreMoved, filling, fillings_from, pages_from, stored_pages};

use std::alloc::Global;
use trio_image::front_pages;
use trio_layout::Superblock;
use trio_page::{Home, NoMemory, Page, PageNo, Reads};
use trio_tables::{Owners, Shadow};

/// The pages that store an image: the superblock, the tables, and copies of the core pages at home,
/// all zero where one is absent. `NoMemory`: there was no memory for them.
pub fn stored_pages(
    alloc: Global,
    home: &mut Home,
    superblock: &Superblock,
    rows: &Shadow,
    owners: &Owners,
) -> Result<Vec<Option<Page>>, NoMemory>
    requires order { superblock.now.first_core ≤ superblock.now.pages }
    requires few { superblock.now.pages ≤ 8192 }
    ensures home { home.new.pages ≡ home.old.pages }
    ensures floor { home.old.looked ≤ home.new.looked }
    ensures pages { IfOk result (λ pages. pages.items ≡ stored_pages superblock.now home.old.pages rows.now owners.now) }
    ensures shadow { IfOk result (λ _. FillsPages (shadow_bytes rows.now) (shadow_count rows.now)) }
    ensures owner { IfOk result (λ _. FillsPages (owner_bytes owners.now) (owner_count owners.now)) }
{
    let mut pages = front_pages(alloc, superblock, rows, owners)?;
    add_core_pages(alloc, home, superblock, &mut pages)?;
    Ok(pages)
}

/// The pages that store an image, as [`stored_pages`] has them, with the core pages themselves, which
/// leave home. `NoMemory`: there was no memory for the others; then home is as it was.
pub(crate) fn moved_pages(
    alloc: Global,
    home: &mut Home,
    superblock: &Superblock,
    rows: &Shadow,
    owners: &Owners,
) -> Result<Vec<Option<Page>>, NoMemory>
    requires order { superblock.now.first_core ≤ superblock.now.pages }
    requires few { superblock.now.pages ≤ 8192 }
    ensures home { OnErr result (home.new.pages ≡ home.old.pages) }
    ensures floor { home.old.looked ≤ home.new.looked }
    ensures pages { IfOk result (λ pages. pages.items ≡ stored_pages superblock.now home.old.pages rows.now owners.now) }
    ensures shadow { IfOk result (λ _. FillsPages (shadow_bytes rows.now) (shadow_count rows.now)) }
    ensures owner { IfOk result (λ _. FillsPages (owner_bytes owners.now) (owner_count owners.now)) }
{
    let mut pages = front_pages(alloc, superblock, rows, owners)?;
    let front = pages.len();
    add_fillings(alloc, home, superblock, &mut pages)?;
    let count = superblock.pages - superblock.first_core;
    move_core_pages(home, superblock.first_core, count, front, &mut pages);
    Ok(pages)
}

/// Appends what is to stand at each core page that is absent: a page all zero. `None` stands for the
/// others.
fn add_fillings(
    alloc: Global,
    home: &mut Home,
    superblock: &Superblock,
    pages: &mut Vec<Option<Page>>,
) -> Result<(), NoMemory>
    requires order { superblock.now.first_core ≤ superblock.now.pages }
    ensures home { home.new.pages ≡ home.old.pages }
    ensures floor { home.old.looked ≤ home.new.looked }
    ensures pages { IfOk result (λ _. pages.new.items ≡ pages.old.items ++ fillings_from home.old.pages superblock.now.first_core (superblock.now.pages - superblock.now.first_core)) }
{
    let mut reads = Reads::new();
    for at in 0..superblock.pages - superblock.first_core {
        pages.push(filling_at(alloc, home, superblock.first_core + at, &mut reads)?)?;
    }
    Ok(())
}

/// What is to stand at a core page: a page all zero where it is absent, else nothing yet.
fn filling_at(
    alloc: Global,
    home: &mut Home,
    no: u32,
    reads: &mut Reads,
) -> Result<Option<Page>, NoMemory>
    ensures home { home.new.pages ≡ home.old.pages }
    ensures floor { home.old.looked ≤ home.new.looked }
    ensures filling { IfOk result (λ page. page ≡ filling (slice_index_or home.old.pages no None)) }
{
    match home.page(PageNo(no), reads) {
        Some(_) => Ok(None),
        None => Ok(Some(Page::zero(alloc)?)),
    }
}

/// Moves so many pages at home from `first` on to their places in this list, which begin at `front`.
/// Where one is absent, what stands in its place stays.
fn move_core_pages(
    home: &mut Home,
    first: u32,
    count: u32,
    front: usize,
    pages: &mut Vec<Option<Page>>,
)
    requires few { first + count ≤ 8192 }
    requires places { length pages.old.items ≡ front + count }
    ensures count { length pages.new.items ≡ length pages.old.items }
    ensures floor { home.old.looked ≤ home.new.looked }
    ensures pages { AreMoved home.old.pages first front pages.old.items pages.new.items }
{
    let mut reads = Reads::new();
    for at in 0..count {
        if let Some(page) = home.take(PageNo(first + at), &mut reads) {
            pages[front + at as usize] = Some(page);
        }
    }
}

/// Appends copies of the core pages; one that is absent comes all zero.
fn add_core_pages(
    alloc: Global,
    home: &mut Home,
    superblock: &Superblock,
    pages: &mut Vec<Option<Page>>,
) -> Result<(), NoMemory>
    requires order { superblock.now.first_core ≤ superblock.now.pages }
    requires few { superblock.now.pages ≤ 8192 }
    ensures home { home.new.pages ≡ home.old.pages }
    ensures floor { home.old.looked ≤ home.new.looked }
    ensures pages { IfOk result (λ _. pages.new.items ≡ pages.old.items ++ pages_from home.old.pages superblock.now.first_core (superblock.now.pages - superblock.now.first_core)) }
{
    let mut reads = Reads::new();
    for at in 0..superblock.pages - superblock.first_core {
        let page = copy_or_zero(alloc, home, superblock.first_core + at, &mut reads)?;
        pages.push(Some(page))?;
    }
    Ok(())
}

/// A copy of the page at home, all zero where it is absent.
fn copy_or_zero(
    alloc: Global,
    home: &mut Home,
    no: u32,
    reads: &mut Reads,
) -> Result<Page, NoMemory>
    ensures home { home.new.pages ≡ home.old.pages }
    ensures floor { home.old.looked ≤ home.new.looked }
    ensures copy { IfOk result (λ copy. Some copy ≡ or_zero (slice_index_or home.old.pages no None)) }
{
    match home.page(PageNo(no), reads) {
        Some(page) => page.copy(alloc),
        None => Page::zero(alloc),
    }
}
