//! The table of open grants.

ghost use Rattle.std.specs.Prelude.{◌≡◌, ◌≢◌, ◌++◌, ◌∷◌, [], ℕ, IfOk, OnErr, is_some, if◌then◌else◌};
ghost use Rattle.std.specs.Option.{option_map};
ghost use Rattle.trio_grants.specs.Answers.{Answers};
ghost use Rattle.trio_grants.specs.Grants.{AllBelow, HasKey, grant_under, without, first_with, holder, excludes, is_on, is_grant, is_write, lowest_held, held_number, least};
ghost use Rattle.trio_grants.specs.inner.Search.{meets, lower};

use crate::grant::Grant;
use crate::question::Question;
use slab::Slab;
use std::alloc::Global;
use std::marker::Model;
use trio_nodes::{GrantKind, Holder};
use trio_rights::LibNo;

/// Names an open grant, so that it can be ended. A key may come again once its grant has ended.
/// Contracts see its number.
#[derive(Clone, Copy, Debug, PartialEq, Eq)]
pub struct GrantKey(usize);

impl Model for GrantKey {
    ghost use Rattle.std.specs.Prelude.{ℕ};

    ghost Value = { ℕ };

    ghost view = { λ key. key.0 };

    ghost inverse = { λ n. record { 0 = n } };
}

/// Why a grant is not opened. The table is then as before.
#[derive(Clone, Copy, Debug, PartialEq, Eq)]
pub enum AdmitFault {
    /// An open grant excludes the one asked: of those that do, the one of lowest entry.
    Busy(Holder),
    /// Want of memory; no open grant excludes the one asked.
    NoMemory,
}

/// The open grants. Contracts see the list of them in the order of their log entries, each beside
/// its key.
#[derive(Drop)]
pub struct GrantTable {
    grants: Slab<Grant>,
}

impl Model for GrantTable {
    ghost use Rattle.std.specs.Prelude.{List};
    ghost use Rattle.slab.specs.Slab.{entries_from};
    ghost use Rattle.trio_grants.specs.Grants.{by_entry, Keyed};

    ghost Value = { List Keyed };

    ghost view = { λ table. by_entry (entries_from 0 table.grants.slots) };
}

impl GrantTable {
    /// A table with no open grant. Takes no memory.
    pub fn new(alloc: Global) -> GrantTable
        ensures { result ≡ [] }
    {
        GrantTable {
            grants: Slab::new(alloc),
        }
    }

    /// Opens a grant of this kind on the file `ino` for `lib`, unless an open grant excludes it.
    /// `entry` is the number of the log entry that opens it. Where it is above those of all open
    /// grants, as it is while the log grows, the new grant is the last in the list.
    ///
    /// # Errors
    ///
    /// `Busy` exactly where an open grant excludes the one asked; `NoMemory` where none does and
    /// there is no memory to keep the new one. Nothing changed in both cases.
    pub fn admit(
        &mut self,
        lib: LibNo,
        ino: u32,
        kind: GrantKind,
        entry: u64,
    ) -> Result<GrantKey, AdmitFault>
        ensures answer { Answers (excludes lib ino kind) self.old result }
        ensures opened { IfOk result (λ key. AllBelow entry self.old → self.new ≡ self.old ++ (key, record { lib = lib; ino = ino; kind = kind; entry = entry }) ∷ []) }
        ensures there { IfOk result (λ key. grant_under key self.new ≡ Some (record { lib = lib; ino = ino; kind = kind; entry = entry })) }
        ensures new_key { IfOk result (λ key. grant_under key self.old ≡ None) }
        ensures rest { IfOk result (λ key. without key self.new ≡ self.old) }
        ensures others { IfOk result (λ key. (other : ℕ) → other ≢ key → grant_under other self.new ≡ grant_under other self.old) }
        ensures kept { OnErr result (self.new ≡ self.old) }
    {
        if let Some(holder) = self.first(&Question::Excludes(lib, ino, kind)) {
            return Err(AdmitFault::Busy(holder));
        }
        let grant = Grant {
            lib,
            ino,
            kind,
            entry,
        };
        let Ok(key) = self.grants.insert(grant) else {
            return Err(AdmitFault::NoMemory);
        };
        Ok(GrantKey(key))
    }

    /// Ends the open grant of this key. Takes no memory.
    pub fn end(&mut self, key: GrantKey)
        requires { HasKey key self.old }
        ensures ended { self.new ≡ without key self.old }
        ensures others { (other : ℕ) → other ≢ key → grant_under other self.new ≡ grant_under other self.old }
    {
        let _ended = self.grants.remove(key.0);
    }

    /// The open grant of this key, as others are told of it. `None` exactly where there is none.
    /// Takes no memory.
    pub fn holder_under(&self, key: GrantKey) -> Option<Holder>
        ensures { result ≡ option_map holder (grant_under key self.now) }
    {
        match self.grants.get(key.0) {
            Some(grant) => Some(grant.holder()),
            None => None,
        }
    }

    /// The open grant of lowest entry on the file `ino`, among those not of the library `but`.
    /// `None` exactly where there is none. Takes no memory.
    pub fn holder_of(&self, ino: u32, but: Option<LibNo>) -> Option<Holder>
        ensures { result ≡ option_map holder (first_with (is_on ino but) self.now) }
    {
        match but {
            None => self.first(&Question::On(ino)),
            Some(but) => self.first(&Question::OnBut(ino, but)),
        }
    }

    /// The open write grant of lowest entry. `None` exactly where there is none. Takes no memory.
    pub fn writer(&self) -> Option<Holder>
        ensures { result ≡ option_map holder (first_with is_write self.now) }
    {
        self.first(&Question::Writes)
    }

    /// Whether the library has an open grant of this kind on the file `ino`. Takes no memory.
    pub fn has(&self, lib: LibNo, ino: u32, kind: GrantKind) -> bool
        ensures { result ≡ is_some (first_with (is_grant lib ino kind) self.now) }
    {
        self.first(&Question::Is(lib, ino, kind)).is_some()
    }

    /// The lowest inode number at or above `from` on which the library has a hold. `None` exactly
    /// where there is none. Takes no memory.
    pub fn holds(&self, lib: LibNo, from: u32) -> Option<u32>
        ensures { result ≡ lowest_held lib from self.now }
    {
        let mut lowest: Option<u32> = None;
        for (_, grant) in self.grants.iter() {
            lowest = lower_number(lowest, grant, lib, from);
        }
        lowest
    }

    /// The grant of lowest entry of which the answer is yes.
    fn first(&self, asked: &Question) -> Option<Holder>
        ensures { result ≡ option_map holder (first_with (meets asked.now) self.now) }
    {
        let mut first: Option<Grant> = None;
        for (_, grant) in self.grants.iter() {
            first = earlier(first, grant, asked);
        }
        first.map(|grant| grant.holder())
    }
}

/// The first so far, or `next` where the answer of it is yes and its entry is lower.
fn earlier(first: Option<Grant>, next: &Grant, asked: &Question) -> Option<Grant>
    ensures { result ≡ lower first (if meets asked.now next.now then Some next.now else None) }
{
    if !asked.is_met_by(next) {
        return first;
    }
    match first {
        None => Some(*next),
        Some(first) => {
            if first.entry <= next.entry {
                Some(first)
            } else {
                Some(*next)
            }
        }
    }
}

/// The lowest number so far, or that of `next` where it is a hold of the library, at or above
/// `from`, and lower.
fn lower_number(lowest: Option<u32>, next: &Grant, lib: LibNo, from: u32) -> Option<u32>
    ensures { result ≡ least lowest (held_number lib from next.now) }
{
    if next.kind != GrantKind::Hold || next.lib != lib || next.ino < from {
        return lowest;
    }
    match lowest {
        None => Some(next.ino),
        Some(ino) => Some(ino.min(next.ino)),
    }
}
