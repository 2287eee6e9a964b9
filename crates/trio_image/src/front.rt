//! The pages of an image before its core.

ghost use Rattle.std.specs.Prelude.{◌≡◌, ◌≤◌, ◌++◌, IfOk};
ghost use Rattle.trio_tables.specs.Stored.{owner_bytes, shadow_bytes};
ghost use Rattle.trio_layout.specs.Superblock.{superblock_bytes};
ghost use Rattle.trio_image.specs.Front.{FillsPages, front_pages, owner_count, owner_pages, shadow_count, shadow_pages};

use std::alloc::Global;
use trio_layout::Superblock;
use trio_page::{NoMemory, Page};
use trio_tables::{Owners, Shadow};

/// The pages before the core of an image: the superblock and the stored tables. They have room for
/// the core behind them, so that it can be appended without more memory for the list. `NoMemory`:
/// there was no memory for them.
#[tactic(auto, unfolding(crate::specs::Front::front_pages))]
pub fn front_pages(
    alloc: Global,
    superblock: &Superblock,
    rows: &Shadow,
    owners: &Owners,
) -> Result<Vec<Option<Page>>, NoMemory>
    requires few { superblock.now.pages ≤ 8192 }
    ensures pages { IfOk result (λ pages. pages.items ≡ front_pages superblock.now rows.now owners.now) }
    ensures shadow { IfOk result (λ _. FillsPages (shadow_bytes rows.now) (shadow_count rows.now)) }
    ensures owner { IfOk result (λ _. FillsPages (owner_bytes owners.now) (owner_count owners.now)) }
{
    let mut pages = Vec::with_capacity(alloc, superblock.pages as usize)?;
    pages.push(Some(superblock_page(alloc, superblock)?))?;
    add_shadow_pages(alloc, rows, &mut pages)?;
    add_owner_pages(alloc, owners, &mut pages)?;
    Ok(pages)
}

fn superblock_page(alloc: Global, superblock: &Superblock) -> Result<Page, NoMemory>
    ensures { IfOk result (λ page. page ≡ superblock_bytes superblock.now) }
{
    let mut page = Page::zero(alloc)?;
    superblock.write(&mut page);
    Ok(page)
}

/// Appends the pages of the shadow table.
fn add_shadow_pages(
    alloc: Global,
    rows: &Shadow,
    pages: &mut Vec<Option<Page>>,
) -> Result<(), NoMemory>
    ensures pages { IfOk result (λ _. pages.new.items ≡ pages.old.items ++ shadow_pages rows.now) }
    ensures whole { IfOk result (λ _. FillsPages (shadow_bytes rows.now) (shadow_count rows.now)) }
{
    for at in 0..rows.table_pages() {
        let mut page = Page::zero(alloc)?;
        rows.write_page(at, &mut page);
        pages.push(Some(page))?;
    }
    Ok(())
}

/// Appends the pages of the owner table.
fn add_owner_pages(
    alloc: Global,
    owners: &Owners,
    pages: &mut Vec<Option<Page>>,
) -> Result<(), NoMemory>
    ensures pages { IfOk result (λ _. pages.new.items ≡ pages.old.items ++ owner_pages owners.now) }
    ensures whole { IfOk result (λ _. FillsPages (owner_bytes owners.now) (owner_count owners.now)) }
{
    for at in 0..owners.table_pages() {
        let mut page = Page::zero(alloc)?;
        owners.write_page(at, &mut page);
        pages.push(Some(page))?;
    }
    Ok(())
}
