//! Read leases.

ghost use Rattle.std.specs.Prelude.{◌≡◌, length};
ghost use Rattle.std.specs.Option.{option_copied};
ghost use Rattle.trio_lease.specs.Shown.{shown, page_at, no_at};

use crate::lent::{no_in, page_in};
use crate::parts::{ReadParts, whole};
use std::marker::Model;
use trio_page::{Page, PageNo};
use trio_rights::{Kind, LibNo};

/// One file, lent for reading, as copies of its body, index pages and blocks.
///
/// Contracts see the file that it shows (`Shown`), which never changes: what stands in it is what
/// was lent.
pub struct ReadLease {
    parts: ReadParts,
}

impl Model for ReadLease {
    ghost use Rattle.trio_lease.specs.Shown.{Shown, shown};

    ghost Value = { Shown };

    ghost view = { λ l. shown l.parts };
}

impl ReadLease {
    /// The lease that has these parts.
    pub fn of(parts: ReadParts) -> ReadLease
        ensures { result ≡ shown parts }
    {
        ReadLease { parts }
    }

    /// What the lease is made of.
    pub fn parts(self) -> ReadParts
        ensures { shown result ≡ self }
    {
        let ReadLease { parts } = self;
        parts
    }

    /// Lets the lease go. Its grant stays out for good, so that others find the file busy.
    pub fn discard(self) {
        let _parts = self.parts();
    }

    /// The file's inode number.
    pub fn ino(&self) -> u32
        ensures { result ≡ self.now.ino }
    {
        self.parts.ino
    }

    /// The library that the file is lent to.
    pub fn lib(&self) -> LibNo
        ensures { result ≡ self.now.lib }
    {
        self.parts.lib
    }

    /// What the file is.
    pub fn kind(&self) -> Kind
        ensures { result ≡ self.now.kind }
    {
        self.parts.kind
    }

    /// The number of the entry of the history that opened the grant, counted from 0.
    pub fn entry(&self) -> u64
        ensures { result ≡ self.now.entry }
    {
        self.parts.entry
    }

    /// The 64 bytes of the file's body.
    pub fn body(&self) -> &[u8; 64]
        ensures body { result.now ≡ self.now.body }
        ensures len { length self.now.body ≡ 64 }
    {
        whole(&self.parts.body)
    }

    /// Index page `i`, counted from 0 in the order of the chain. `None` exactly where the lease
    /// has no such page.
    pub fn index(&self, i: usize) -> Option<&Page>
        ensures { option_copied result ≡ page_at self.now.index i }
    {
        page_in(&self.parts.index, i)
    }

    /// The number in the image of index page `i`. `None` exactly where the lease has no such page.
    pub fn index_no(&self, i: usize) -> Option<PageNo>
        ensures { result ≡ no_at self.now.index i }
    {
        no_in(&self.parts.index, i)
    }

    /// Block `i` of the file, counted from 0. `None` exactly where the lease has no such page.
    pub fn block(&self, i: usize) -> Option<&Page>
        ensures { option_copied result ≡ page_at self.now.blocks i }
    {
        page_in(&self.parts.blocks, i)
    }

    /// The number in the image of block `i`. `None` exactly where the lease has no such page.
    pub fn block_no(&self, i: usize) -> Option<PageNo>
        ensures { result ≡ no_at self.now.blocks i }
    {
        no_in(&self.parts.blocks, i)
    }
}
