//! What is handed in: leases, allotted pages and inode numbers.

ghost use Rattle.std.specs.Prelude.{◌≡◌, ◌≢◌, ℕ, ◌+◌, ◌≤◌, ◌<◌, [], length, IsSome, ◌==◌, min, slice_get};
ghost use Rattle.std.specs.List.{find, position};
ghost use Rattle.std.specs.Option.{option_copied, option_map, option_map_or};
ghost use Rattle.trio_desk.specs.Out.{ino_numbers, parcel_of};
ghost use Rattle.trio_lists.specs.Lists.{is_among};
ghost use Rattle.trio_layout.specs.Entries.{body_in_slot};
ghost use Rattle.trio_page.specs.Field.{with_part};
ghost use Rattle.trio_desk.specs.Edits.{nothing};
ghost use Rattle.trio_lease.specs.Bundles.{bundled};
ghost use Rattle.trio_session.specs.Layout.{page_in, with_body, with_body_at, with_number_in, with_page};
ghost use Rattle.trio_session.specs.declared.laid.FilePlace.TheVariants.{Leased};
ghost use Rattle.trio_session.specs.declared.laid.PagePlace.TheVariants.{Block, Fresh, Index};
ghost use Rattle.trio_session.specs.inner.Places.{IsFile, IsSlot, IsWholeAt, body_at, chain_at, home_at, ino_at, number_at, sheet_at, shown_at};

use crate::laid::{FilePlace, Laid, PagePlace};
use crate::lent::{put_in_block, put_in_fresh, put_in_index, put_lent_body};
use std::alloc::Global;
use std::marker::Model;
use trio_lease::things::{has_one, place_of, thing_of};
use trio_lease::{Bundle, BundleParts, FreshIno, HoldLease, WriteLease};
use trio_page::{Page, PageNo};

/// Write leases, holds, and allotted pages and inode numbers, each kind in the order in which it came.
///
/// Contracts see the parcel that they make. No page stands in it at two places, and no file is
/// written twice.
pub(crate) struct Stock {
    parts: BundleParts,
}

impl Model for Stock {
    ghost use Rattle.trio_desk.specs.Out.{Parcel, parcel_of};
    ghost use Rattle.trio_lease.specs.Bundles.{bundled};

    ghost Value = { Parcel };

    ghost use Rattle.trio_session.specs.inner.Places.{AreApart};

    ghost view = { λ s. parcel_of (bundled s.parts) };

    ghost invariant = { λ s. AreApart (parcel_of (bundled s.parts)) };
}

impl Stock {
    ghost use Rattle.trio_session.specs.inner.Places.{AreApart};

    /// Nothing. It takes no memory.
    pub(crate) fn new(alloc: Global) -> Stock
        ensures { result ≡ nothing }
    {
        Stock {
            parts: Bundle::new(alloc).parts(),
        }
    }

    /// How many allotted pages there are.
    pub(crate) fn pages_len(&self) -> usize
        ensures { result ≡ length self.now.pages }
    {
        self.parts.pages.len()
    }

    /// The place of the first write lease on this file.
    pub(crate) fn file_of(&self, ino: u32) -> Option<usize>
        ensures { result ≡ position (λ f. f.stands.ino == ino) self.now.writes }
    {
        place_of(&self.parts.writes, ino)
    }

    /// The first write lease on this file.
    pub(crate) fn write_on(&self, ino: u32) -> Option<&WriteLease>
        ensures { option_copied result ≡ find (λ f. f.stands.ino == ino) self.now.writes }
    {
        thing_of(&self.parts.writes, ino)
    }

    /// The first hold on this file.
    pub(crate) fn hold_on(&self, ino: u32) -> Option<&HoldLease>
        ensures { option_copied result ≡ find (λ h. h.ino == ino) self.now.holds }
    {
        thing_of(&self.parts.holds, ino)
    }

    /// The inode numbers that were allotted.
    pub(crate) fn inodes(&self) -> &[FreshIno]
        ensures { result.now ≡ self.now.inodes }
    {
        &self.parts.inodes
    }

    /// Whether a number is one of the allotted inode numbers.
    pub(crate) fn has_ino(&self, ino: u32) -> bool
        ensures { result ≡ is_among ino (ino_numbers self.now.inodes) }
    {
        has_one(&self.parts.inodes, ino)
    }

    /// All of it as one bundle. It takes no memory.
    pub(crate) fn into_bundle(self) -> Bundle
        ensures { parcel_of result ≡ self }
    {
        let Stock { parts } = self;
        Bundle::of(parts)
    }

    /// What a bundle has. It takes no memory.
    pub(crate) fn of_bundle(bundle: Bundle) -> Stock
        requires { AreApart (parcel_of bundle) }
        ensures { result ≡ parcel_of bundle }
    {
        Stock {
            parts: bundle.parts(),
        }
    }

    /// What it is made of.
    pub(crate) fn into_parts(self) -> BundleParts
        ensures parts { parcel_of (bundled result) ≡ self }
        ensures apart { AreApart self }
    {
        let Stock { parts } = self;
        parts
    }

    /// The stock that has these parts.
    pub(crate) fn of_parts(parts: BundleParts) -> Stock
        requires { AreApart (parcel_of (bundled parts)) }
        ensures { result ≡ parcel_of (bundled parts) }
    {
        Stock { parts }
    }

    /// Lets all of it go.
    pub(crate) fn discard(self) {
        self.into_bundle().discard();
    }

    /// The page at a place.
    pub(crate) fn page(&self, place: PagePlace) -> &Page
        requires { IsSome (sheet_at self.now place) }
        ensures { result.now ≡ page_in self.now (number_at self.now place) }
    {
        match place {
            PagePlace::Index { file, at } => self.parts.writes[file].index(at).unwrap(),
            PagePlace::Block { file, at } => self.parts.writes[file].block(at).unwrap(),
            PagePlace::Fresh { at } => self.parts.pages[at].page(),
        }
    }

    /// Block `k` of the file at a place.
    pub(crate) fn block(&self, laid: &Laid, file: FilePlace, k: usize) -> Option<&Page>
        requires { IsFile self.now file laid.now }
        ensures { option_copied result ≡ option_map (page_in self.now) (slice_get (chain_at self.now file laid.now).blocks k) }
    {
        if k < laid.blocks_len() {
            Some(self.page(laid.block_place(file, k)))
        } else {
            None
        }
    }

    /// The number of the page at a place.
    pub(crate) fn number(&self, place: PagePlace) -> PageNo
        requires { IsSome (sheet_at self.now place) }
        ensures { result.0 ≡ number_at self.now place }
    {
        match place {
            PagePlace::Index { file, at } => self.parts.writes[file].index_no(at).unwrap(),
            PagePlace::Block { file, at } => self.parts.writes[file].block_no(at).unwrap(),
            PagePlace::Fresh { at } => self.parts.pages[at].no(),
        }
    }

    /// Writes bytes into the page at a place.
    pub(crate) fn put_part(&mut self, place: PagePlace, offset: usize, bytes: &[u8])
        requires there { IsSome (sheet_at self.old place) }
        requires within { offset + length bytes.now ≤ 4096 }
        ensures { self.new ≡ with_page (number_at self.old place) (with_part offset bytes.now (page_in self.old (number_at self.old place))) self.old }
    {
        match place {
            PagePlace::Index { file, at } => self.put_index(file, at, offset, bytes),
            PagePlace::Block { file, at } => self.put_block(file, at, offset, bytes),
            PagePlace::Fresh { at } => self.put_fresh(at, offset, bytes),
        }
    }

    fn put_index(&mut self, file: usize, at: usize, offset: usize, bytes: &[u8])
        requires there { IsSome (sheet_at self.old (Index file at)) }
        requires within { offset + length bytes.now ≤ 4096 }
        ensures { self.new ≡ with_page (number_at self.old (Index file at)) (with_part offset bytes.now (page_in self.old (number_at self.old (Index file at)))) self.old }
    {
        put_in_index(&mut self.parts.writes[file], at, offset, bytes);
    }

    fn put_block(&mut self, file: usize, at: usize, offset: usize, bytes: &[u8])
        requires there { IsSome (sheet_at self.old (Block file at)) }
        requires within { offset + length bytes.now ≤ 4096 }
        ensures { self.new ≡ with_page (number_at self.old (Block file at)) (with_part offset bytes.now (page_in self.old (number_at self.old (Block file at)))) self.old }
    {
        put_in_block(&mut self.parts.writes[file], at, offset, bytes);
    }

    fn put_fresh(&mut self, at: usize, offset: usize, bytes: &[u8])
        requires there { IsSome (sheet_at self.old (Fresh at)) }
        requires within { offset + length bytes.now ≤ 4096 }
        ensures { self.new ≡ with_page (number_at self.old (Fresh at)) (with_part offset bytes.now (page_in self.old (number_at self.old (Fresh at)))) self.old }
    {
        put_in_fresh(&mut self.parts.pages[at], offset, bytes);
    }

    /// Writes a number of 8 bytes into the page at a place.
    pub(crate) fn put_number(&mut self, place: PagePlace, offset: usize, value: u64)
        requires there { IsSome (sheet_at self.old place) }
        requires within { offset + 8 ≤ 4096 }
        ensures { self.new ≡ with_number_in (number_at self.old place) offset value self.old }
    {
        self.put_part(place, offset, &value.to_le_bytes());
    }

    /// The body of the file at a place.
    pub(crate) fn body(&self, file: FilePlace) -> &[u8; 64]
        requires there { IsSome (shown_at self.now file) }
        requires slot { IsSlot file }
        ensures body { result.now ≡ body_at self.now file }
        ensures len { length (body_at self.now file) ≡ 64 }
        ensures whole { IsWholeAt self.now file }
    {
        match file {
            FilePlace::Leased { at } => self.parts.writes[at].body(),
            FilePlace::InSlot { page, slot } => {
                // a look into the stock, in which no page stands at two places
                let _pages = self.parts.pages.len();
                body_on(self.page(page), slot)
            }
        }
    }

    /// Writes the body of the file at a place.
    pub(crate) fn put_body(&mut self, file: FilePlace, body: &[u8; 64])
        requires there { IsSome (shown_at self.old file) }
        requires slot { IsSlot file }
        ensures written { self.new ≡ with_body_at (home_at self.old file) body.now self.old }
        ensures has { body_at self.new file ≡ body.now }
        ensures others { (i : ℕ) → Leased i ≢ file → body_at self.new (Leased i) ≡ body_at self.old (Leased i) }
    {
        match file {
            FilePlace::Leased { at } => self.put_lent_body(at, body),
            FilePlace::InSlot { page, slot } => {
                // a look into the stock, in which no page stands at two places
                let _pages = self.parts.pages.len();
                let _whole = self.page(page).bytes();
                self.put_part(page, 256 * slot + 192, body)
            }
        }
    }

    /// Writes the body of a written file.
    fn put_lent_body(&mut self, at: usize, body: &[u8; 64])
        requires { at < length self.old.writes }
        ensures written { self.new ≡ with_body (ino_at self.old at) body.now self.old }
        ensures has { body_at self.new (Leased at) ≡ body.now }
        ensures others { (i : ℕ) → i ≢ at → body_at self.new (Leased i) ≡ body_at self.old (Leased i) }
    {
        put_lent_body(&mut self.parts.writes[at], body);
    }
}

/// The lower of two numbers, where there is a first.
pub(crate) fn lower(best: Option<u32>, no: u32) -> u32
    ensures { result ≡ option_map_or (λ m. min m no) best no }
{
    match best {
        Some(number) => number.min(no),
        None => no,
    }
}

/// The body in a slot of a page.
fn body_on(page: &Page, slot: usize) -> &[u8; 64]
    requires { slot < 16 }
    ensures body { result.now ≡ body_in_slot slot page.now }
    ensures len { length (body_in_slot slot page.now) ≡ 64 }
    ensures whole { length page.now ≡ 4096 }
{
    page.bytes()[256 * slot + 192..256 * slot + 256]
        .as_array()
        .unwrap()
}
