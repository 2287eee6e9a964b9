//! The shadow table: the row of each live inode number.

ghost use Rattle.std.specs.Prelude.{◌≡◌, ℕ, ◌==◌, MatchResult, None, Some, if◌then◌else◌, ◌+◌, ◌-◌, ◌*◌, ◌/◌, ◌<◌, ◌≤◌, ◌↔◌, IsTrue, IsNone, IfNone, IfSome, IfOk, count_by, is_some, length, map, slice_set};
ghost use Rattle.std.specs.Option.{option_map};
ghost use Rattle.trio_rights.specs.Row.{row_in};
ghost use Rattle.trio_rights.specs.May.{denier, row_permits};
ghost use Rattle.trio_rights.specs.declared.rights.Need.TheVariants.{Read};
ghost use Rattle.trio_tables.specs.inner.Climb.{parent_in};
ghost use Rattle.trio_page.specs.Field.{with_part};
ghost use Rattle.trio_tables.specs.Row.{as_row, row_bytes};
ghost use Rattle.trio_tables.specs.Stored.{page_at, padded_to_pages, shadow_bytes, HasRow, RowDiffers};
ghost use Rattle.trio_tables.specs.Tables.{child_count, is_child, live_count, no_rows};

use crate::row::Row;
use std::alloc::Global;
use std::marker::Model;
use trio_page::field::put_bytes_in;
use trio_page::{NoMemory, PAGE_SIZE, Page};
use trio_rights::{Creds, Need, may};

/// The rows of the inode numbers from 1 up to the number of inodes, at most 16,384. A number
/// without a row is not live.
#[derive(Drop)]
pub struct Shadow {
    // by inode number; None stands at 0
    rows: Vec<Option<Row>>,
}

impl Model for Shadow {
    ghost use Rattle.std.specs.Prelude.{List, Option, None, ◌≡◌, ◌<◌, ◌≤◌, length, map, slice_index_or};
    ghost use Rattle.std.specs.Option.{option_map};
    ghost use Rattle.trio_rights.specs.Row.{Row};
    ghost use Rattle.trio_tables.specs.Row.{as_row};

    ghost Value = { List (Option Row) };

    ghost view = { λ s. map (option_map as_row) s.rows.items };

    ghost invariant = { λ s. (0 < length s.rows.items) × (length s.rows.items ≤ 16385)
        × (slice_index_or s.rows.items 0 None ≡ None) };
}

impl Shadow {
    /// The table of `inodes` inode numbers, at most 16,384, none of them live. `NoMemory` where
    /// there is no memory for it.
    #[tactic(auto, using(crate::proofs::TableLemmas::rows_same))]
    pub fn new(alloc: Global, inodes: u32) -> Result<Shadow, NoMemory>
        requires { inodes ≤ 16384 }
        ensures { IfOk result (λ s. s ≡ no_rows inodes) }
    {
        let mut rows = Vec::new(alloc);
        rows.resize(inodes as usize + 1, None)?;
        Ok(Shadow { rows })
    }

    /// A table of its own with the same rows. `NoMemory`: there was no memory for it.
    pub fn copy(&self, alloc: Global) -> Result<Shadow, NoMemory>
        ensures { IfOk result (λ s. s ≡ self.now) }
    {
        let rows = self.rows.to_vec(alloc)?;
        Ok(Shadow { rows })
    }

    /// How many inode numbers the table has. The number 0 is none of them.
    pub fn inodes(&self) -> u32
        ensures inodes { length self.now ≡ result + 1 }
        ensures few { result ≤ 16384 }
        ensures zero { row_in self.now 0 ≡ None }
    {
        (self.rows.len() - 1) as u32
    }

    /// The row of an inode number. `None` exactly where the number is not live, which all numbers
    /// outside the table are.
    pub fn row(&self, ino: u32) -> Option<Row>
        ensures { option_map as_row result ≡ row_in self.now ino }
    {
        *self.rows.get(ino as usize)?
    }

    /// Gives an inode number of the table a row, or makes it a number that is not live.
    #[tactic(auto, using(crate::proofs::TableLemmas::rows_set))]
    pub fn set(&mut self, ino: u32, row: Option<Row>)
        requires from_one { 0 < ino }
        requires within { ino < length self.old }
        ensures { self.new ≡ slice_set self.old ino (option_map as_row row) }
    {
        self.rows[ino as usize] = row;
    }

    /// Whether a library may reach and use a file: every proper ancestor has to give `Read`, because
    /// a library walks by reading, and the file itself `need`. The refusal is the first number from
    /// the root downward that denies; a number that is not live gives nothing.
    ///
    /// The climb goes over the rows' parents, and takes at most as many steps as the table has numbers.
    pub fn may(&self, creds: Creds, ino: u32, need: Need) -> Result<(), u32>
        ensures { MatchResult result (λ _. denier self.now creds ino need ≡ None) (λ n. denier self.now creds ino need ≡ Some n) }
    {
        let mut denier = self.denied_at(creds, ino, ino, need);
        let mut parent = self.parent(ino);
        let mut left = self.inodes() + 1;
        while left > 0 && parent != 0 {
            denier = self.denied_at(creds, parent, ino, need).or(denier);
            parent = self.parent(parent);
            left -= 1;
        }
        match denier {
            None => Ok(()),
            Some(denier) => Err(denier),
        }
    }

    // a number on the way to `ino`, where its row doesn't give what is needed: of `ino` itself `need`,
    // of every other number `Read`
    fn denied_at(&self, creds: Creds, no: u32, ino: u32, need: Need) -> Option<u32>
        ensures { result ≡ (if row_permits creds (if no == ino then need else Read) (row_in self.now no) then None else Some no) }
    {
        let asked = if no == ino { need } else { Need::Read };
        match self.row(no) {
            Some(row) if may(creds, row.kind, row.mode, row.uid, row.gid, asked) => None,
            _ => Some(no),
        }
    }

    // the directory that lists a file; 0 for the root, and for a number that is not live
    fn parent(&self, ino: u32) -> u32
        ensures { result ≡ parent_in (row_in self.now ino) }
    {
        self.row(ino).map_or(0, |row| row.parent)
    }

    /// How many live files name this inode number as the directory that lists them.
    pub fn children(&self, ino: u32) -> u32
        ensures { result ≡ child_count ino self.now }
    {
        child_rows(&self.rows, ino) as u32
    }

    /// How many inode numbers are live.
    pub fn live(&self) -> u32
        ensures live { result ≡ live_count self.now }
        ensures few { result < length self.now }
    {
        live_rows(&self.rows) as u32
    }

    /// How many pages the stored table has.
    #[tactic(auto, using(crate::proofs::StoredLemmas::shadow_pages))]
    pub fn table_pages(&self) -> u32
        ensures pages { result ≡ (32 * (length self.now - 1) + 4095) / 4096 }
        ensures bytes { length (padded_to_pages (shadow_bytes self.now)) ≡ 4096 * result }
    {
        (32 * self.inodes()).div_ceil(4096)
    }

    /// Makes `page` the page of the stored table at `at`, counted from 0: the rows of the inode
    /// numbers from `128 * at + 1` on, and zeros behind the last.
    pub fn write_page(&self, at: u32, page: &mut Page)
        requires { 128 * at + 1 < length self.now }
        ensures { page.new ≡ page_at at (padded_to_pages (shadow_bytes self.now)) }
    {
        let bytes = page.bytes_mut();
        for i in 0..128 {
            self.write_row(at, i, bytes);
        }
    }

    /// Compares `page` with the page of the stored table at `at`, counted from 0. `None` exactly
    /// where they are the same; else the lowest inode number whose row differs, or 0 where only
    /// what is behind the last row differs.
    pub fn differs_at(&self, at: u32, page: &Page) -> Option<u32>
        requires { 128 * at + 1 < length self.now }
        ensures same { IsNone result
            ↔ (page.now ≡ page_at at (padded_to_pages (shadow_bytes self.now))) }
        ensures row { IfSome result (λ ino. 0 < ino → RowDiffers self.now at page.now ino) }
        ensures lowest { IfSome result (λ ino. (k : ℕ) → k < ino
            → RowDiffers self.now at page.now k → ⊥) }
        ensures rest { IfSome result (λ ino. ino ≡ 0 → (k : ℕ)
            → RowDiffers self.now at page.now k → ⊥) }
    {
        let inodes = self.inodes();
        let Some(i) = self.first_difference(at, page.bytes()) else {
            return None;
        };
        let ino = 128 * at + i + 1;
        Some(if ino <= inodes { ino } else { 0 })
    }

    // the row at a place of a stored page
    fn stored_row(&self, at: u32, i: u32) -> Option<Row>
        ensures { option_map as_row result ≡ row_in self.now (128 * at + i + 1) }
    {
        *self.rows.get(128 * at as usize + i as usize + 1)?
    }

    fn write_row(&self, at: u32, i: u32, page: &mut [u8; PAGE_SIZE])
        requires { i < 128 }
        ensures { page.new
            ≡ with_part (32 * i) (row_bytes (row_in self.now (128 * at + i + 1))) page.old }
    {
        let mut bytes = [0; 32];
        Row::put(self.stored_row(at, i), &mut bytes);
        put_bytes_in(page, 32 * i as usize, &bytes);
    }

    // the first place of the page at which a row differs
    fn first_difference(&self, at: u32, page: &[u8; PAGE_SIZE]) -> Option<u32>
        ensures same { IfNone result ((k : ℕ) → k < 128 → HasRow self.now at page.now k) }
        ensures before { IfSome result (λ i. (k : ℕ) → k < i → HasRow self.now at page.now k) }
        ensures differs { IfSome result (λ i. (i < 128) × (HasRow self.now at page.now i → ⊥)) }
    {
        for i in 0..128 {
            if !self.has_row(at, i, page) {
                return Some(i);
            }
        }
        None
    }

    fn has_row(&self, at: u32, i: u32, page: &[u8; PAGE_SIZE]) -> bool
        requires { i < 128 }
        ensures { IsTrue result ↔ HasRow self.now at page.now i }
    {
        let start = 32 * i as usize;
        let mut bytes = [0; 32];
        Row::put(self.stored_row(at, i), &mut bytes);
        page[start..start + 32] == bytes[..]
    }
}

fn child_rows(rows: &[Option<Row>], ino: u32) -> usize
    ensures { result ≡ count_by (λ row. is_child ino (option_map as_row row)) rows.now }
{
    rows.iter()
        .filter(|row| row.is_some_and(|row| row.parent == ino))
        .count()
}

fn live_rows(rows: &[Option<Row>]) -> usize
    ensures { result ≡ count_by is_some rows.now }
{
    rows.iter().filter(|row| row.is_some()).count()
}
