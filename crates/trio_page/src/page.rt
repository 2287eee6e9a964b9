//! A page of 4096 bytes, and its number.

ghost use Rattle.std.specs.Prelude.{◌≡◌, ◌+◌, ◌≤◌, IfOk, length};
ghost use Rattle.std.specs.Int.{w16, w32, w64};
ghost use Rattle.std.specs.Borrow.{sem, Lends, Array, u8 as byte};
ghost use Rattle.trio_page.specs.Field.{number_at, with_number, zeros};

use crate::field::{put_u16_in, put_u32_in, put_u64_in, u16_in, u32_in, u64_in};
use std::alloc::{AllocError as NoMemory, Global};
use std::marker::Model;

/// The number of a page in its image, counted from 0. It may be past the image's end.
#[derive(Clone, Copy, Debug, PartialEq, Eq)]
pub struct PageNo(pub u32);

/// The size of a page in bytes.
pub const PAGE_SIZE: usize = 4096;

/// A page: 4096 bytes on the heap.
///
/// Contracts see it as the list of its bytes. Its length is 4096, which `bytes` ensures to a
/// caller that needs it. Offsets are in bytes from the page's front. Numbers stand little-endian
/// at any offset, aligned or not.
#[derive(Drop)]
pub struct Page {
    bytes: Box<[u8; PAGE_SIZE]>,
}

impl Model for Page {
    ghost use Rattle.std.specs.Prelude.{List, ℕ};

    ghost Value = { List ℕ };

    ghost view = { λ p. p.bytes.value };
}

impl Page {
    ghost use Rattle.trio_page.specs.contracts.page.Page.{the_row};

    /// A page whose bytes are all zero. `NoMemory`: there was no memory for it.
    #[tactic(auto, unfolding(crate::specs::Field::zeros))]
    pub fn zero(alloc: Global) -> Result<Page, NoMemory>
        ensures { IfOk result (λ p. p ≡ zeros 4096) }
    {
        let bytes = Box::new(alloc, [0; PAGE_SIZE])?;
        Ok(Page { bytes })
    }

    /// A page of its own with the same bytes. `NoMemory`: there was no memory for it.
    pub fn copy(&self, alloc: Global) -> Result<Page, NoMemory>
        ensures { IfOk result (λ p. p ≡ self.now) }
    {
        let mut copy = Page::zero(alloc)?;
        copy.copy_from(self);
        Ok(copy)
    }

    /// Makes each byte what it is in `other`. Takes no memory.
    pub fn copy_from(&mut self, other: &Page)
        ensures { self.new ≡ other.now }
    {
        self.bytes_mut().copy_from_slice(other.bytes());
    }

    /// Makes each byte zero. Takes no memory.
    #[tactic(auto, unfolding(crate::specs::Field::zeros))]
    pub fn clear(&mut self)
        ensures { self.new ≡ zeros 4096 }
    {
        *self.bytes_mut() = [0; PAGE_SIZE];
    }

    /// All bytes, to be read.
    pub fn bytes(&self) -> &[u8; PAGE_SIZE]
        ensures bytes { result.now ≡ self.now }
        ensures len { length self.now ≡ 4096 }
    {
        let bytes: &[u8; PAGE_SIZE] = &self.bytes;
        // The length of a boxed array is known once it was asked of a slice.
        let all: &[u8] = bytes;
        let _whole = all.len();
        bytes
    }

    /// All bytes, to be written: what stands in them when the loan ends is the page's.
    pub fn bytes_mut(&mut self) -> &mut [u8; PAGE_SIZE]
        ensures bytes { result.now ≡ self.old }
        ensures len { length result.now ≡ 4096 }
        ensures* lends { sem 𝓛 (Lends the_row (Array byte 4096) self.entry result (λ w. w)) }
    {
        let _whole = self.bytes();
        &mut self.bytes
    }

    /// The number whose 2 bytes begin at `at`, the low byte first. The field ends within the page.
    pub fn u16_at(&self, at: usize) -> u16
        requires { at + 2 ≤ 4096 }
        ensures { result ≡ number_at w16 at self.now }
    {
        u16_in(self.bytes(), at)
    }

    /// The number whose 4 bytes begin at `at`, the low byte first. The field ends within the page.
    pub fn u32_at(&self, at: usize) -> u32
        requires { at + 4 ≤ 4096 }
        ensures { result ≡ number_at w32 at self.now }
    {
        u32_in(self.bytes(), at)
    }

    /// The number whose 8 bytes begin at `at`, the low byte first. The field ends within the page.
    pub fn u64_at(&self, at: usize) -> u64
        requires { at + 8 ≤ 4096 }
        ensures { result ≡ number_at w64 at self.now }
    {
        u64_in(self.bytes(), at)
    }

    /// Writes `v` into the 2 bytes that begin at `at`, the low byte first; no other byte changes.
    pub fn put_u16(&mut self, at: usize, v: u16)
        requires { at + 2 ≤ 4096 }
        ensures bytes { self.new ≡ with_number w16 at v self.old }
        ensures len { length self.old ≡ 4096 }
    {
        put_u16_in(self.bytes_mut(), at, v)
    }

    /// Writes `v` into the 4 bytes that begin at `at`, the low byte first; no other byte changes.
    pub fn put_u32(&mut self, at: usize, v: u32)
        requires { at + 4 ≤ 4096 }
        ensures bytes { self.new ≡ with_number w32 at v self.old }
        ensures len { length self.old ≡ 4096 }
    {
        put_u32_in(self.bytes_mut(), at, v)
    }

    /// Writes `v` into the 8 bytes that begin at `at`, the low byte first; no other byte changes.
    pub fn put_u64(&mut self, at: usize, v: u64)
        requires { at + 8 ≤ 4096 }
        ensures bytes { self.new ≡ with_number w64 at v self.old }
        ensures len { length self.old ≡ 4096 }
    {
        put_u64_in(self.bytes_mut(), at, v)
    }
}
