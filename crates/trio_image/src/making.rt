//! Making a new image.

ghost use Rattle.std.specs.Prelude.{◌≡◌, ◌+◌, ◌-◌, ◌*◌, ◌≤◌, ◌++◌, ◌↔◌, Err, IfOk, IsTrue};
ghost use Rattle.trio_tables.specs.Stored.{owner_bytes, shadow_bytes};
ghost use Rattle.trio_layout.specs.Superblock.{page_count};
ghost use Rattle.trio_survey.specs.Stored.{image_in};
ghost use Rattle.trio_image.specs.Counts.{counts_of};
ghost use Rattle.trio_image.specs.Front.{FillsPages, front_pages, owner_count, shadow_count};
ghost use Rattle.trio_image.specs.Made.{new_counts, new_superblock, Fits, IsMade};
ghost use Rattle.trio_image.specs.inner.NewTables.{root_rows, zero_pages};

use crate::front::front_pages;
use crate::image::{Image, ImageParts};
use std::alloc::Global;
use trio_layout::{Body, Superblock};
use trio_page::{Home, NoMemory, Page};
use trio_rights::{Kind, Mode};
use trio_tables::{Owners, Row, Shadow};

/// Why an image can't be made.
#[derive(Clone, Copy, Debug, PartialEq, Eq)]
pub enum MakeFault {
    /// The pages aren't 16 to 8192, the inode numbers aren't 16 to 16384, or the tables leave no
    /// core page.
    BadSize,
    /// There was no memory for the pages or the tables.
    NoMemory,
}

impl From<NoMemory> for MakeFault {
    ghost use Rattle.std.specs.Prelude.{◌≡◌};
    ghost use Rattle.trio_image.specs.declared.making.MakeFault.{MakeFault};

    ghost from_gives = { λ _ e. e ≡ MakeFault.NoMemory };

    fn from(_fault: NoMemory) -> MakeFault {
        MakeFault::NoMemory
    }
}

/// The permission bits of a new root, whose uid and gid are 0.
const ROOT_MODE: Mode = Mode(0o755);

/// A new image of so many pages and inode numbers, whose one file is the root: an empty directory
/// of mode 755, uid 0 and gid 0. `BadSize` exactly where the sizes don't fit, for which no memory is
/// taken.
pub fn make(alloc: Global, pages: u32, inodes: u32) -> Result<Image, MakeFault>
    ensures image { IfOk result (λ image. IsMade pages inodes image.superblock image.pages) }
    ensures counts { IfOk result (λ image. counts_of (image_in image.superblock image.pages) ≡ new_counts pages inodes) }
    ensures size { IfOk result (λ _. Fits pages inodes) }
    ensures bad_size { (result ≡ Err MakeFault.BadSize) ↔ (Fits pages inodes → ⊥) }
{
    if !fits(pages, inodes) {
        return Err(MakeFault::BadSize);
    }
    let image = empty_image(alloc, pages, inodes)?;
    Ok(image)
}

fn fits(pages: u32, inodes: u32) -> bool
    ensures { IsTrue result ↔ Fits pages inodes }
{
    if pages < 16 || pages > 8192 {
        return false;
    }
    if inodes < 16 || inodes > 16384 {
        return false;
    }
    first_core(pages, inodes) < pages
}

fn first_owner(inodes: u32) -> u32
    requires { inodes ≤ 16384 }
    ensures { result ≡ 1 + page_count (32 * inodes) }
{
    1 + (32 * inodes).div_ceil(4096)
}

fn first_core(pages: u32, inodes: u32) -> u32
    requires pages { pages ≤ 8192 }
    requires inodes { inodes ≤ 16384 }
    ensures { result ≡ 1 + page_count (32 * inodes) + page_count (4 * pages) }
{
    first_owner(inodes) + (4 * pages).div_ceil(4096)
}

fn empty_image(alloc: Global, pages: u32, inodes: u32) -> Result<Image, NoMemory>
    requires { Fits pages inodes }
    ensures image { IfOk result (λ image. IsMade pages inodes image.superblock image.pages) }
    ensures counts { IfOk result (λ image. counts_of (image_in image.superblock image.pages) ≡ new_counts pages inodes) }
{
    let superblock = new_superblock(pages, inodes);
    let rows = root_rows(alloc, inodes)?;
    let owners = Owners::new(alloc, pages, superblock.first_core)?;
    let pages = empty_pages(alloc, &superblock, &rows, &owners)?;
    let home = Home::of(pages);
    let parts = ImageParts { home, rows, owners };
    Ok(Image::sealed(superblock, parts))
}

fn new_superblock(pages: u32, inodes: u32) -> Superblock
    requires pages { pages ≤ 8192 }
    requires inodes { inodes ≤ 16384 }
    ensures { result ≡ new_superblock pages inodes }
{
    let body = Body {
        mode: ROOT_MODE,
        uid: 0,
        gid: 0,
        head: 0,
        size: 0,
        guard: false,
    };
    let mut root = [0; 64];
    body.write(&mut root);
    Superblock {
        pages,
        inodes,
        first_owner: first_owner(inodes),
        first_core: first_core(pages, inodes),
        root,
    }
}

/// The rows of so many inode numbers, of which just the root's is live.
fn root_rows(alloc: Global, inodes: u32) -> Result<Shadow, NoMemory>
    requires some { 1 ≤ inodes }
    requires few { inodes ≤ 16384 }
    ensures { IfOk result (λ rows. rows ≡ root_rows inodes) }
{
    let root = Row {
        kind: Kind::Directory,
        mode: ROOT_MODE,
        uid: 0,
        gid: 0,
        parent: 0,
        page: 0,
        slot: 0,
    };
    let mut rows = Shadow::new(alloc, inodes)?;
    rows.set(1, Some(root));
    Ok(rows)
}

/// The pages that store these tables, with a core that is all zero.
fn empty_pages(
    alloc: Global,
    superblock: &Superblock,
    rows: &Shadow,
    owners: &Owners,
) -> Result<Vec<Option<Page>>, NoMemory>
    requires few { superblock.now.pages ≤ 8192 }
    requires order { superblock.now.first_core ≤ superblock.now.pages }
    ensures pages { IfOk result (λ pages. pages.items ≡ front_pages superblock.now rows.now owners.now ++ zero_pages (superblock.now.pages - superblock.now.first_core)) }
    ensures shadow { IfOk result (λ _. FillsPages (shadow_bytes rows.now) (shadow_count rows.now)) }
    ensures owner { IfOk result (λ _. FillsPages (owner_bytes owners.now) (owner_count owners.now)) }
{
    let mut pages = front_pages(alloc, superblock, rows, owners)?;
    let count = superblock.pages - superblock.first_core;
    add_zero_pages(alloc, count, &mut pages)?;
    Ok(pages)
}

fn add_zero_pages(alloc: Global, count: u32, pages: &mut Vec<Option<Page>>) -> Result<(), NoMemory>
    ensures { IfOk result (λ _. pages.new.items ≡ pages.old.items ++ zero_pages count) }
{
    for _i in 0..count {
        pages.push(Some(Page::zero(alloc)?))?;
    }
    Ok(())
}
