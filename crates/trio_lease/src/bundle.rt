//! Bundles.

ghost use Rattle.std.specs.Prelude.{◌≡◌, ◌++◌, ◌∷◌, ◌<◌, ◌≤◌, ◌↔◌, [], OnOk, IfErr, OnErr, IsOk, IfSome, IsSome, Some, length, map, slice_get, slice_set, vec_capacity, vec_len};
ghost use Rattle.std.specs.Option.{option_copied_mut};
ghost use Rattle.std.specs.Borrow.{sem, LendsIf};
ghost use Rattle.trio_page.specs.contracts.page.Page.{the_row as page_row};
ghost use Rattle.trio_lease.specs.contracts.write.WriteLease.{the_row as lease_row};
ghost use Rattle.trio_lease.specs.contracts.fresh.FreshPage.{the_row as fresh_row};
ghost use Rattle.trio_lease.specs.Bundles.{HasRoom, NoRoomLost, bundled};
ghost use Rattle.trio_lease.specs.Shown.{all_touched};
ghost use Rattle.trio_lease.specs.Places.{bytes_at, bytes_of, place_in, with_bytes, with_bytes_at};

use crate::fresh::{FreshIno, FreshPage};
use crate::hold::HoldLease;
use crate::things::{let_go_all, place_of};
use crate::write::{WriteLease, touch_writes};
use std::alloc::Global;
use std::marker::Model;
use trio_page::{NoMemory, Page, PageNo};

/// What a [`Bundle`] is made of.
pub struct BundleParts {
    pub writes: Vec<WriteLease>,
    pub holds: Vec<HoldLease>,
    pub pages: Vec<FreshPage>,
    pub inodes: Vec<FreshIno>,
}

/// What one release hands in: write leases, holds, and pages and inode numbers that were allotted,
/// each in the order in which they were added.
///
/// Contracts see the four lists and, as `room`, how many of each the bundle has places for
/// (`Bundled`).
pub struct Bundle {
    parts: BundleParts,
}

impl Model for Bundle {
    ghost use Rattle.trio_lease.specs.Bundles.{Bundled, bundled};

    ghost Value = { Bundled };

    ghost view = { λ b. bundled b.parts };
}

/// Where a page of a bundle stands. Each number is counted from 0.
enum PagePlace {
    /// Index page `at` of write lease `file`.
    Index { file: usize, at: usize },
    /// Block `at` of write lease `file`.
    Block { file: usize, at: usize },
    /// Allotted page `at`.
    Fresh { at: usize },
}

impl Bundle {
    ghost use Rattle.trio_lists.specs.Lists.{In};
    ghost use Rattle.trio_lease.specs.Shown.{KeepsUntouched, LentFile};
    ghost use Rattle.trio_lease.specs.contracts.bundle.Bundle.{the_row};

    /// The empty bundle. It takes no memory.
    pub fn new(alloc: Global) -> Bundle
        ensures { result ≡ record { writes = []; holds = []; pages = []; inodes = []; room = record { writes = 0; holds = 0; pages = 0; inodes = 0 } } }
    {
        Bundle {
            parts: BundleParts {
                writes: Vec::new(alloc),
                holds: Vec::new(alloc),
                pages: Vec::new(alloc),
                inodes: Vec::new(alloc),
            },
        }
    }

    /// The bundle that has these parts.
    pub fn of(parts: BundleParts) -> Bundle
        ensures { result ≡ bundled parts }
    {
        Bundle { parts }
    }

    /// What the bundle is made of.
    pub fn parts(self) -> BundleParts
        ensures { bundled result ≡ self }
    {
        let Bundle { parts } = self;
        parts
    }

    /// Lets all of it go. Its grants and allotments stay out for good, so that others find the
    /// files busy, and the pages and inode numbers not free.
    pub fn discard(self) {
        let BundleParts {
            writes,
            holds,
            pages,
            inodes,
        } = self.parts();
        let_go_all(writes);
        let_go_all(holds);
        let_go_all(pages);
        let_go_all(inodes);
    }

    /// Makes room for so many more write leases, holds, pages and inode numbers: after `Ok` so many
    /// calls of [`add_write`](Self::add_write), [`add_hold`](Self::add_hold),
    /// [`add_page`](Self::add_page) and [`add_ino`](Self::add_ino) answer `Ok` and take no memory.
    /// Where there is room for them already, the answer is `Ok`.
    ///
    /// After [`NoMemory`] the bundle has what it had, and no less room.
    pub fn reserve(
        &mut self,
        writes: u32,
        holds: u32,
        pages: u32,
        inodes: u32,
    ) -> Result<(), NoMemory>
        ensures kept { self.new ≡ record self.old { room = self.new.room } }
        ensures room { OnOk result (HasRoom self.new writes holds pages inodes) }
        ensures grows { NoRoomLost self.old.room self.new.room }
        ensures succeeds { HasRoom self.old writes holds pages inodes → IsOk result }
    {
        self.parts.writes.reserve(writes as usize)?;
        self.parts.holds.reserve(holds as usize)?;
        self.parts.pages.reserve(pages as usize)?;
        self.parts.inodes.reserve(inodes as usize)?;
        Ok(())
    }

    /// Adds a write lease as the last one. Where the bundle has room for it
    /// ([`reserve`](Self::reserve)), the answer is `Ok`.
    ///
    /// With [`NoMemory`] the lease comes back, and the bundle has what it had.
    pub fn add_write(&mut self, lease: WriteLease) -> Result<(), (WriteLease, NoMemory)>
        ensures added { OnOk result (self.new ≡ record self.old { writes = self.old.writes ++ lease ∷ []; room = record self.old.room { writes = self.new.room.writes } }) }
        ensures kept { OnErr result (self.new ≡ record self.old { room = record self.old.room { writes = self.new.room.writes } }) }
        ensures back { IfErr result (λ e. e.0 ≡ lease) }
        ensures grows { self.old.room.writes ≤ self.new.room.writes }
        ensures succeeds { length self.old.writes < self.old.room.writes → IsOk result }
    {
        push_one(&mut self.parts.writes, lease)
    }

    /// Adds a hold as the last one. Where the bundle has room for it
    /// ([`reserve`](Self::reserve)), the answer is `Ok`.
    ///
    /// With [`NoMemory`] the hold comes back, and the bundle has what it had.
    pub fn add_hold(&mut self, lease: HoldLease) -> Result<(), (HoldLease, NoMemory)>
        ensures added { OnOk result (self.new ≡ record self.old { holds = self.old.holds ++ lease ∷ []; room = record self.old.room { holds = self.new.room.holds } }) }
        ensures kept { OnErr result (self.new ≡ record self.old { room = record self.old.room { holds = self.new.room.holds } }) }
        ensures back { IfErr result (λ e. e.0 ≡ lease) }
        ensures grows { self.old.room.holds ≤ self.new.room.holds }
        ensures succeeds { length self.old.holds < self.old.room.holds → IsOk result }
    {
        push_one(&mut self.parts.holds, lease)
    }

    /// Adds an allotted page as the last one. Where the bundle has room for it
    /// ([`reserve`](Self::reserve)), the answer is `Ok`.
    ///
    /// With [`NoMemory`] the page comes back, and the bundle has what it had.
    pub fn add_page(&mut self, page: FreshPage) -> Result<(), (FreshPage, NoMemory)>
        ensures added { OnOk result (self.new ≡ record self.old { pages = self.old.pages ++ page ∷ []; room = record self.old.room { pages = self.new.room.pages } }) }
        ensures kept { OnErr result (self.new ≡ record self.old { room = record self.old.room { pages = self.new.room.pages } }) }
        ensures back { IfErr result (λ e. e.0 ≡ page) }
        ensures grows { self.old.room.pages ≤ self.new.room.pages }
        ensures succeeds { length self.old.pages < self.old.room.pages → IsOk result }
    {
        push_one(&mut self.parts.pages, page)
    }

    /// Adds an allotted inode number as the last one. Where the bundle has room for it
    /// ([`reserve`](Self::reserve)), the answer is `Ok`.
    ///
    /// With [`NoMemory`] the inode number comes back, and the bundle has what it had.
    pub fn add_ino(&mut self, ino: FreshIno) -> Result<(), (FreshIno, NoMemory)>
        ensures added { OnOk result (self.new ≡ record self.old { inodes = self.old.inodes ++ ino ∷ []; room = record self.old.room { inodes = self.new.room.inodes } }) }
        ensures kept { OnErr result (self.new ≡ record self.old { room = record self.old.room { inodes = self.new.room.inodes } }) }
        ensures back { IfErr result (λ e. e.0 ≡ ino) }
        ensures grows { self.old.room.inodes ≤ self.new.room.inodes }
        ensures succeeds { length self.old.inodes < self.old.room.inodes → IsOk result }
    {
        push_one(&mut self.parts.inodes, ino)
    }

    /// The write leases, in the order in which they were added.
    pub fn writes(&self) -> &[WriteLease]
        ensures { result.now ≡ self.now.writes }
    {
        &self.parts.writes
    }

    /// Tells what is so of every lease, of each write lease of the bundle: a block that isn't marked
    /// as touched is as it was lent.
    pub fn keeps_untouched(&self)
        ensures { (f : LentFile) → In f self.now.writes → KeepsUntouched f }
    {
        for lease in &self.parts.writes {
            lease.keeps_untouched();
        }
    }

    /// Marks each block of the write leases as touched, for a bundle of which nobody knows what was
    /// written. All else that it has is as it was. It takes no memory.
    pub fn touch_blocks(&mut self)
        ensures { self.new ≡ record self.old { writes = map all_touched self.old.writes } }
    {
        touch_writes(&mut self.parts.writes);
    }

    /// The holds, in the order in which they were added.
    pub fn holds(&self) -> &[HoldLease]
        ensures { result.now ≡ self.now.holds }
    {
        &self.parts.holds
    }

    /// The allotted pages, in the order in which they were added.
    pub fn pages(&self) -> &[FreshPage]
        ensures { result.now ≡ self.now.pages }
    {
        &self.parts.pages
    }

    /// The allotted inode numbers, in the order in which they were added.
    pub fn inodes(&self) -> &[FreshIno]
        ensures { result.now ≡ self.now.inodes }
    {
        &self.parts.inodes
    }

    /// The page of this number in the image, lent or allotted, for writing. `None` exactly where the
    /// bundle has no such page. A lent block is marked as touched, whether anything is then written
    /// or not. It takes no memory.
    ///
    /// Should a number stand more than once, the page is the first in the order of the write leases,
    /// of each its index pages and then its blocks, and last of the allotted pages.
    pub fn page_mut(&mut self, no: PageNo) -> Option<&mut Page>
        ensures value { IfSome result (λ p. bytes_of self.old no ≡ Some p.now) }
        ensures some { IsSome result ↔ IsSome (bytes_of self.old no) }
        ensures* lends { sem 𝓛 (LendsIf the_row page_row self.entry result (λ w. with_bytes self.old no w) self.old) }
    {
        match self.place_of(no) {
            Some(place) => self.page_at_mut(place),
            None => None,
        }
    }

    /// Where the page of this number stands, as [`page_mut`](Self::page_mut) looks for it.
    #[tactic(auto, using(crate::proofs::Places::place_end))]
    fn place_of(&self, no: PageNo) -> Option<PagePlace>
        ensures { result ≡ place_in self.now no }
    {
        for file in 0..self.parts.writes.len() {
            let lease = &self.parts.writes[file];
            if let Some(at) = lease.index_place(no) {
                return Some(PagePlace::Index { file, at });
            }
            if let Some(at) = lease.block_place(no) {
                return Some(PagePlace::Block { file, at });
            }
        }
        let at = place_of(&self.parts.pages, no.0)?;
        Some(PagePlace::Fresh { at })
    }

    /// The page at a place, for writing. `None` exactly where there is none. A lent block is marked
    /// as touched.
    #[tactic(auto, using(crate::proofs::Places::pages))]
    fn page_at_mut(&mut self, place: PagePlace) -> Option<&mut Page>
        ensures value { IfSome result (λ p. bytes_at self.old place ≡ Some p.now) }
        ensures some { IsSome result ↔ IsSome (bytes_at self.old place) }
        ensures* lends { sem 𝓛 (LendsIf the_row page_row self.entry result (λ w. with_bytes_at self.old place w) self.old) }
    {
        match place {
            PagePlace::Index { file, at } => self.lease_mut(file)?.index_mut(at),
            PagePlace::Block { file, at } => self.lease_mut(file)?.block_mut(at),
            PagePlace::Fresh { at } => Some(self.fresh_mut(at)?.page_mut()),
        }
    }

    /// Write lease `file`. `None` exactly where there is none.
    fn lease_mut(&mut self, file: usize) -> Option<&mut WriteLease>
        ensures lease { option_copied_mut result ≡ slice_get self.old.writes file }
        ensures* lends { sem 𝓛 (LendsIf the_row lease_row self.entry result (λ l. record self.old { writes = slice_set self.old.writes file l }) self.old) }
    {
        self.parts.writes.get_mut(file)
    }

    /// Allotted page `at`. `None` exactly where there is none.
    fn fresh_mut(&mut self, at: usize) -> Option<&mut FreshPage>
        ensures page { option_copied_mut result ≡ slice_get self.old.pages at }
        ensures* lends { sem 𝓛 (LendsIf the_row fresh_row self.entry result (λ p. record self.old { pages = slice_set self.old.pages at p }) self.old) }
    {
        self.parts.pages.get_mut(at)
    }
}

/// Adds a thing as the last one of a list. With [`NoMemory`] it comes back, and the list has what it
/// had.
fn push_one<T>(things: &mut Vec<T>, thing: T) -> Result<(), (T, NoMemory)>
    ensures added { OnOk result (things.new.items ≡ things.old.items ++ thing ∷ []) }
    ensures kept { OnErr result (things.new.items ≡ things.old.items) }
    ensures back { IfErr result (λ e. e.0 ≡ thing) }
    ensures grows { vec_capacity things.old ≤ vec_capacity things.new }
    ensures succeeds { vec_len things.old < vec_capacity things.old → IsOk result }
{
    match things.push(thing) {
        Ok(()) => Ok(()),
        Err(failed) => Err((failed.value, NoMemory)),
    }
}
