//! Open grants.

ghost use Rattle.std.specs.Prelude.{◌≡◌};
ghost use Rattle.trio_open.specs.Open.{grant_kept};
ghost use Rattle.trio_open.specs.inner.Given.{is_held_so, is_hold_by};

use std::marker::Model;
use std::snapshot::Snapshot;
use trio_grants::GrantKey;
use trio_lease::{HoldLease, HoldParts, ReadParts, WriteParts};
use trio_nodes::GrantKind;
use trio_rights::LibNo;

/// What a grant lent, by its kind. Of a lease it is told in proofs alone; a hold is kept as it was
/// given.
#[derive(Drop)]
pub enum Lent {
    /// Copies, for reading.
    Read(Snapshot<ReadParts>),
    /// The pages themselves, for writing.
    Write(Snapshot<WriteParts>),
    /// The settled body alone.
    Hold(HoldParts),
}

/// A grant that is open: its key in the table of grants, and whose it is. What is kept of a file
/// that is out for writing stands in the store.
///
/// Contracts see the key, and the open grant of `trio_state`'s `specs/State.antt` without a
/// checkpoint.
#[derive(Drop)]
pub struct OpenFile {
    key: GrantKey,
    lib: LibNo,
    ino: u32,
    lent: Lent,
}

impl Model for OpenFile {
    ghost use Rattle.trio_open.specs.Open.{Opened, grant_kept};

    ghost Value = { Opened };

    ghost view = { λ o. record { key = o.key; grant = grant_kept o.lib.0 o.ino o.lent } };
}

impl OpenFile {
    /// The grant of this key to a library, on the file of this number, which was lent.
    pub fn of(key: GrantKey, lent: Lent, lib: LibNo, ino: u32) -> OpenFile
        ensures { result ≡ record { key = key; grant = grant_kept lib.0 ino lent } }
    {
        OpenFile {
            key,
            lib,
            ino,
            lent,
        }
    }

    /// The key of the grant in the table of grants.
    pub fn key(&self) -> GrantKey
        ensures { result ≡ self.now.key }
    {
        self.key
    }

    /// The library that has the grant.
    pub fn lib(&self) -> LibNo
        ensures { result.0 ≡ self.now.grant.lib }
    {
        self.lib
    }

    /// The inode number of the file.
    pub fn ino(&self) -> u32
        ensures { result ≡ self.now.grant.ino }
    {
        self.ino
    }

    /// The kind of the grant.
    pub fn kind(&self) -> GrantKind
        ensures { result ≡ self.now.grant.kind }
    {
        match self.lent {
            Lent::Read(_) => GrantKind::Read,
            Lent::Write(_) => GrantKind::Write,
            Lent::Hold(_) => GrantKind::Hold,
        }
    }

    /// Whether the grant is the library's hold on the file of this hold, and lent the body that it has.
    pub fn lent_body_of(&self, lib: LibNo, hold: &HoldLease) -> bool
        ensures { result ≡ is_held_so lib hold.now self.now.grant }
    {
        match &self.lent {
            Lent::Hold(given) => {
                self.lib == lib && self.ino == hold.ino() && given.body == *hold.body()
            }
            Lent::Read(_) | Lent::Write(_) => false,
        }
    }

    /// Whether the grant gave this hold to this library.
    pub fn gave(&self, lib: LibNo, hold: &HoldLease) -> bool
        ensures { result ≡ is_hold_by lib hold.now self.now.grant }
    {
        match &self.lent {
            Lent::Hold(given) => {
                self.lib == lib
                    && hold.lib() == lib
                    && self.ino == hold.ino()
                    && given.kind == hold.kind()
                    && given.entry == hold.entry()
                    && given.parent == hold.parent()
                    && given.body == *hold.body()
                    && given.children == hold.children()
            }
            Lent::Read(_) | Lent::Write(_) => false,
        }
    }
}
