//! Write leases.

ghost use Rattle.std.specs.Prelude.{◌≡◌, ◌<◌, ◌↔◌, IfSome, IsSome, length, map};
ghost use Rattle.std.specs.Option.{option_copied};
ghost use Rattle.std.specs.Borrow.{sem, Lends, LendsIf, Array, u8 as byte};
ghost use Rattle.trio_page.specs.contracts.page.Page.{the_row as page_row};
ghost use Rattle.trio_lease.specs.Shown.{all_touched, shown, page_at, no_at, touched_at, lent_at, with_page, with_touched};
ghost use Rattle.trio_lease.specs.Places.{place_among};

use crate::lent::LentPages;
use crate::parts::{WriteParts, whole};
use std::marker::Model;
use std::snapshot::Snapshot;
use trio_page::{Page, PageNo};
use trio_rights::{Kind, LibNo};

/// One file, lent for writing: its body, its index pages and its blocks, which are in the lease
/// alone while it is out.
///
/// Contracts see the file twice (`LentFile`): `stands` is what the lease has now, `lent` is what it
/// was made of. Each call that changes a byte says so of `stands`, and none changes `lent`, the
/// number of pages, or their numbers in the image. A block that isn't marked as touched is as it was
/// lent ([`keeps_untouched`](Self::keeps_untouched)).
pub struct WriteLease {
    lib: LibNo,
    ino: u32,
    kind: Kind,
    entry: u64,
    body: [u8; 64],
    index: LentPages,
    blocks: LentPages,
    lent: Snapshot<WriteParts>,
}

impl Model for WriteLease {
    ghost use Rattle.trio_lease.specs.Shown.{LentFile, KeepsUntouched, shown};

    ghost Value = { LentFile };

    ghost view = { λ l. record { stands = record { lib = l.lib; ino = l.ino; kind = l.kind; entry = l.entry; body = l.body; index = l.index; blocks = l.blocks }; lent = shown l.lent.value } };

    ghost invariant = { λ l. KeepsUntouched (record { stands = record { lib = l.lib; ino = l.ino; kind = l.kind; entry = l.entry; body = l.body; index = l.index; blocks = l.blocks }; lent = shown l.lent.value }) };
}

impl WriteLease {
    ghost use Rattle.trio_lease.specs.Shown.{KeepsUntouched};
    ghost use Rattle.trio_lease.specs.contracts.write.WriteLease.{the_row};

    /// The lease that has these parts, and shows them as lent.
    pub fn of(parts: WriteParts) -> WriteLease
        ensures { result ≡ record { stands = shown parts; lent = shown parts } }
    {
        let lent = Snapshot::of(&parts);
        let WriteParts {
            lib,
            ino,
            kind,
            entry,
            body,
            index,
            blocks,
        } = parts;
        WriteLease {
            lib,
            ino,
            kind,
            entry,
            body,
            index: LentPages::of(index),
            blocks: LentPages::of(blocks),
            lent,
        }
    }

    /// What the lease is made of, as it stands.
    pub fn parts(self) -> WriteParts
        ensures { shown result ≡ self.stands }
    {
        let WriteLease {
            lib,
            ino,
            kind,
            entry,
            body,
            index,
            blocks,
            lent: _,
        } = self;
        WriteParts {
            lib,
            ino,
            kind,
            entry,
            body,
            index: index.into_pages(),
            blocks: blocks.into_pages(),
        }
    }

    /// Lets the lease go. Its grant stays out for good, so that others find the file busy.
    pub fn discard(self) {
        let _parts = self.parts();
    }

    /// Tells what is so of every lease: each block that isn't marked as touched is as it was lent.
    pub fn keeps_untouched(&self)
        ensures { KeepsUntouched self.now }
    {
        let _blocks = &self.blocks;
    }

    /// The file's inode number.
    pub fn ino(&self) -> u32
        ensures { result ≡ self.now.stands.ino }
    {
        self.ino
    }

    /// The library that the file is lent to.
    pub fn lib(&self) -> LibNo
        ensures { result ≡ self.now.stands.lib }
    {
        self.lib
    }

    /// What the file is.
    pub fn kind(&self) -> Kind
        ensures { result ≡ self.now.stands.kind }
    {
        self.kind
    }

    /// The number of the entry of the history that opened the grant, counted from 0.
    pub fn entry(&self) -> u64
        ensures { result ≡ self.now.stands.entry }
    {
        self.entry
    }

    /// The 64 bytes of the file's body.
    pub fn body(&self) -> &[u8; 64]
        ensures body { result.now ≡ self.now.stands.body }
        ensures len { length self.now.stands.body ≡ 64 }
    {
        whole(&self.body)
    }

    /// The 64 bytes of the file's body, for writing.
    pub fn body_mut(&mut self) -> &mut [u8; 64]
        ensures body { result.now ≡ self.old.stands.body }
        ensures len { length self.old.stands.body ≡ 64 }
        ensures* lends { sem 𝓛 (Lends the_row (Array byte 64) self.entry result (λ w. record self.old { stands = record self.old.stands { body = w } })) }
    {
        &mut self.body
    }

    /// How many index pages the lease has.
    pub fn index_len(&self) -> usize
        ensures { result ≡ length self.now.stands.index }
    {
        self.index.len()
    }

    /// How many blocks the lease has.
    pub fn blocks_len(&self) -> usize
        ensures { result ≡ length self.now.stands.blocks }
    {
        self.blocks.len()
    }

    /// Index page `i`, counted from 0 in the order of the chain. `None` exactly where the lease
    /// has no such page.
    pub fn index(&self, i: usize) -> Option<&Page>
        ensures { option_copied result ≡ page_at self.now.stands.index i }
    {
        self.index.page(i)
    }

    /// Index page `i`, for writing. `None` exactly where the lease has no such page. The page isn't
    /// marked as touched.
    pub fn index_mut(&mut self, i: usize) -> Option<&mut Page>
        ensures value { IfSome result (λ p. p.now ≡ (lent_at self.old.stands.index i).page) }
        ensures some { IsSome result ↔ (i < length self.old.stands.index) }
        ensures* lends { sem 𝓛 (LendsIf the_row page_row self.entry result (λ w. record self.old { stands = record self.old.stands { index = with_page self.old.stands.index i w } }) self.old) }
    {
        self.index.page_mut(i)
    }

    /// The number in the image of index page `i`. `None` exactly where the lease has no such page.
    pub fn index_no(&self, i: usize) -> Option<PageNo>
        ensures { result ≡ no_at self.now.stands.index i }
    {
        self.index.no(i)
    }

    /// Block `i` of the file, counted from 0. `None` exactly where the lease has no such page.
    pub fn block(&self, i: usize) -> Option<&Page>
        ensures { option_copied result ≡ page_at self.now.stands.blocks i }
    {
        self.blocks.page(i)
    }

    /// Block `i` of the file, for writing. `None` exactly where the lease has no such page. The
    /// block is marked as touched, whether anything is then written or not.
    pub fn block_mut(&mut self, i: usize) -> Option<&mut Page>
        ensures value { IfSome result (λ p. p.now ≡ (lent_at self.old.stands.blocks i).page) }
        ensures some { IsSome result ↔ (i < length self.old.stands.blocks) }
        ensures* lends { sem 𝓛 (LendsIf the_row page_row self.entry result (λ w. record self.old { stands = record self.old.stands { blocks = with_touched self.old.stands.blocks i w } }) self.old) }
    {
        self.blocks.touched_mut(i)
    }

    /// The number in the image of block `i`. `None` exactly where the lease has no such page.
    pub fn block_no(&self, i: usize) -> Option<PageNo>
        ensures { result ≡ no_at self.now.stands.blocks i }
    {
        self.blocks.no(i)
    }

    /// The place of the first index page of this number in the image, counted from 0.
    pub(crate) fn index_place(&self, no: PageNo) -> Option<usize>
        ensures { result ≡ place_among self.now.stands.index no }
    {
        self.index.place_of(no)
    }

    /// The place of the first block of this number in the image, counted from 0.
    pub(crate) fn block_place(&self, no: PageNo) -> Option<usize>
        ensures { result ≡ place_among self.now.stands.blocks no }
    {
        self.blocks.place_of(no)
    }

    /// Whether block `i` is marked as touched. `None` exactly where the lease has no such page.
    pub fn block_touched(&self, i: usize) -> Option<bool>
        ensures { result ≡ touched_at self.now.stands.blocks i }
    {
        self.blocks.touched(i)
    }

    /// Marks each block as touched. Its bytes and its number are as they were. It takes no memory.
    pub fn touch_blocks(&mut self)
        ensures { self.new ≡ all_touched self.old }
    {
        self.blocks.touch_all();
    }
}

/// Marks each block of these leases as touched.
pub(crate) fn touch_writes(leases: &mut [WriteLease])
    ensures { leases.new ≡ map all_touched leases.old }
{
    for lease in leases.iter_mut() {
        lease.touch_blocks();
    }
}
