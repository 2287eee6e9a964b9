//! Holds.

ghost use Rattle.std.specs.Prelude.{◌≡◌, length};

use crate::parts::{HoldParts, whole};
use std::marker::Model;
use trio_rights::{Kind, LibNo};

/// One file, held so that it may be unlinked or moved. It goes with the write lease on the file's
/// parent.
///
/// Contracts see its parts, which never change: what stands in it is what was lent.
pub struct HoldLease {
    parts: HoldParts,
}

impl Model for HoldLease {
    ghost use Rattle.trio_lease.specs.declared.parts.HoldParts.{HoldParts};

    ghost Value = { HoldParts };

    ghost view = { λ h. h.parts };
}

impl HoldLease {
    /// The hold that has these parts.
    pub fn of(parts: HoldParts) -> HoldLease
        ensures { result ≡ parts }
    {
        HoldLease { parts }
    }

    /// What the hold is made of.
    pub fn parts(self) -> HoldParts
        ensures { result ≡ self }
    {
        let HoldLease { parts } = self;
        parts
    }

    /// Lets the hold go. Its grant stays out for good, so that others find the file busy.
    pub fn discard(self) {
        let _parts = self.parts();
    }

    /// The held file's inode number.
    pub fn ino(&self) -> u32
        ensures { result ≡ self.now.ino }
    {
        self.parts.ino
    }

    /// The library that has the hold.
    pub fn lib(&self) -> LibNo
        ensures { result ≡ self.now.lib }
    {
        self.parts.lib
    }

    /// What the held file is.
    pub fn kind(&self) -> Kind
        ensures { result ≡ self.now.kind }
    {
        self.parts.kind
    }

    /// The number of the entry of the history that opened the grant, counted from 0.
    pub fn entry(&self) -> u64
        ensures { result ≡ self.now.entry }
    {
        self.parts.entry
    }

    /// The inode number of the directory that lists the file.
    pub fn parent(&self) -> u32
        ensures { result ≡ self.now.parent }
    {
        self.parts.parent
    }

    /// The 64 bytes of the file's body.
    pub fn body(&self) -> &[u8; 64]
        ensures body { result.now ≡ self.now.body }
        ensures len { length self.now.body ≡ 64 }
    {
        whole(&self.parts.body)
    }

    /// How many entries a held directory has; 0 for a regular file.
    pub fn children(&self) -> u32
        ensures { result ≡ self.now.children }
    {
        self.parts.children
    }
}
