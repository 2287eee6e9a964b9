//! The owner table: whose each page is.

ghost use Rattle.std.specs.Prelude.{◌≡◌, ℕ, ◌+◌, ◌*◌, ◌/◌, ◌<◌, ◌≤◌, ◌⊎◌, ◌↔◌, IsTrue, IsNone, IfNone, IfSome, IfOk, length, slice_index, slice_set};
ghost use Rattle.trio_tables.specs.Stored.{owner_bytes, page_at, padded_to_pages, HasOwner, OwnerDiffers};
ghost use Rattle.trio_tables.specs.Tables.{free_count, free_owners};

use std::alloc::Global;
use std::marker::Model;
use trio_page::field::put_u32_in;
use trio_page::{NoMemory, PAGE_SIZE, Page, PageNo};

/// The owner of the pages below the first core page, which no file may have.
pub const CONTROLLER: u32 = 0xFFFF_FFFF;

/// The owner of each page of an image, at most 8192: 0 where the page is free, `CONTROLLER`, or
/// the inode number of the file that has it.
#[derive(Drop)]
pub struct Owners {
    // by page number
    owners: Vec<u32>,
}

impl Model for Owners {
    ghost use Rattle.std.specs.Prelude.{List, ℕ, ◌≤◌, length};

    ghost Value = { List ℕ };

    ghost view = { λ o. o.owners.items };

    ghost invariant = { λ o. length o.owners.items ≤ 8192 };
}

impl Owners {
    /// The table of `pages` pages, at most 8192. Those below `first_core` are the controller's, and
    /// each other is free. `NoMemory` where there is no memory for it.
    pub fn new(alloc: Global, pages: u32, first_core: u32) -> Result<Owners, NoMemory>
        requires few { pages ≤ 8192 }
        requires core { first_core ≤ pages }
        ensures { IfOk result (λ o. o ≡ free_owners pages first_core) }
    {
        let mut owners = Vec::with_capacity(alloc, pages as usize)?;
        owners.resize(first_core as usize, CONTROLLER)?;
        owners.resize(pages as usize, 0)?;
        Ok(Owners { owners })
    }

    /// A table of its own with the same owners. `NoMemory`: there was no memory for it.
    pub fn copy(&self, alloc: Global) -> Result<Owners, NoMemory>
        ensures { IfOk result (λ o. o ≡ self.now) }
    {
        let owners = self.owners.to_vec(alloc)?;
        Ok(Owners { owners })
    }

    /// How many pages the table has.
    pub fn pages(&self) -> u32
        ensures pages { result ≡ length self.now }
        ensures few { result ≤ 8192 }
    {
        self.owners.len() as u32
    }

    /// The owner of a page of the table.
    pub fn owner(&self, no: PageNo) -> u32
        requires { no.0 < length self.now }
        ensures { result ≡ slice_index self.now no.0 }
    {
        self.owners[no.0 as usize]
    }

    /// Gives a page of the table an owner.
    pub fn set(&mut self, no: PageNo, owner: u32)
        requires { no.0 < length self.old }
        ensures { self.new ≡ slice_set self.old no.0 owner }
    {
        self.owners[no.0 as usize] = owner;
    }

    /// How many pages have the owner 0.
    pub fn free(&self) -> u32
        ensures free { result ≡ free_count self.now }
        ensures few { result ≤ length self.now }
    {
        free_count(&self.owners) as u32
    }

    /// How many pages the stored table has.
    #[tactic(auto, using(crate::proofs::StoredLemmas::owner_pages))]
    pub fn table_pages(&self) -> u32
        ensures pages { result ≡ (4 * length self.now + 4095) / 4096 }
        ensures bytes { length (padded_to_pages (owner_bytes self.now)) ≡ 4096 * result }
    {
        (4 * self.pages()).div_ceil(4096)
    }

    /// Makes `page` the page of the stored table at `at`, counted from 0: the owners of the pages
    /// from `1024 * at` on, and zeros behind the last.
    pub fn write_page(&self, at: u32, page: &mut Page)
        requires { 1024 * at < length self.now }
        ensures { page.new ≡ page_at at (padded_to_pages (owner_bytes self.now)) }
    {
        let bytes = page.bytes_mut();
        for i in 0..1024 {
            put_u32_in(bytes, 4 * i as usize, self.stored_owner(at, i));
        }
    }

    /// Compares `page` with the page of the stored table at `at`, counted from 0. `None` exactly
    /// where they are the same; else the lowest page number whose owner differs, or 0 where only
    /// what is behind the last owner differs.
    pub fn differs_at(&self, at: u32, page: &Page) -> Option<u32>
        requires { 1024 * at < length self.now }
        ensures same { IsNone result
            ↔ (page.now ≡ page_at at (padded_to_pages (owner_bytes self.now))) }
        ensures owner { IfSome result (λ no. 0 < no → OwnerDiffers self.now at page.now no) }
        ensures lowest { IfSome result (λ no. (k : ℕ) → k < no
            → OwnerDiffers self.now at page.now k → ⊥) }
        // 0 names page 0 itself where its owner differs
        ensures rest { IfSome result (λ no. no ≡ 0
            → OwnerDiffers self.now at page.now 0
            ⊎ ((k : ℕ) → OwnerDiffers self.now at page.now k → ⊥)) }
    {
        let pages = self.pages();
        let Some(i) = self.first_difference(at, page.bytes()) else {
            return None;
        };
        let no = 1024 * at + i;
        Some(if no < pages { no } else { 0 })
    }

    // the owner at a place of a stored page, 0 behind the last
    fn stored_owner(&self, at: u32, i: u32) -> u32
        ensures { result ≡ slice_index self.now (1024 * at + i) }
    {
        let owner = self.owners.get(1024 * at as usize + i as usize);
        owner.copied().unwrap_or(0)
    }

    // the first place of the page at which an owner differs
    fn first_difference(&self, at: u32, page: &[u8; PAGE_SIZE]) -> Option<u32>
        ensures same { IfNone result ((k : ℕ) → k < 1024 → HasOwner self.now at page.now k) }
        ensures before { IfSome result (λ i. (k : ℕ) → k < i → HasOwner self.now at page.now k) }
        ensures differs { IfSome result (λ i. (i < 1024) × (HasOwner self.now at page.now i → ⊥)) }
    {
        for i in 0..1024 {
            if !self.has_owner(at, i, page) {
                return Some(i);
            }
        }
        None
    }

    fn has_owner(&self, at: u32, i: u32, page: &[u8; PAGE_SIZE]) -> bool
        requires { i < 1024 }
        ensures { IsTrue result ↔ HasOwner self.now at page.now i }
    {
        let start = 4 * i as usize;
        let owner = self.stored_owner(at, i).to_le_bytes();
        page[start..start + 4] == owner[..]
    }
}

fn free_count(owners: &[u32]) -> usize
    ensures { result ≡ free_count owners.now }
{
    owners.iter().filter(|owner| **owner == 0).count()
}
