//! What a session asks of its desk.

ghost use Rattle.std.specs.Prelude.{◌≡◌, ℕ, IfErr, IfOk, IfSome, IsOk, IsFalse, IsTrue, OnOk, length, Some};
ghost use Rattle.trio_lists.specs.Lists.{In};
ghost use Rattle.trio_lease.specs.Shown.{Shown};
ghost use Rattle.trio_desk.specs.Call.{Allot, Grant, SeenAfter, SetMode, Settle};
ghost use Rattle.trio_desk.specs.Calls.{OneCall};
ghost use Rattle.trio_desk.specs.Ready.{AreLent, IsChmod, Ready};
ghost use Rattle.trio_session.specs.Asked.{AfterMode, AfterNeed, AfterSettle, AfterWant, NoNeed, NoWant, TellsAllotment, TellsGrant, TellsMode, settle_end};
ghost use Rattle.trio_session.specs.inner.Giving.{AfterGrant, NoGrant};
ghost use Rattle.trio_session.specs.inner.Indexes.{MayBeRead};
ghost use Rattle.trio_session.specs.Seen.{HasReadsAlone, IsOn, every_number, kind_shown, serves, slots_shown};

use crate::dir_slots::index_of_places;
use crate::giving::{allot_into, grant_into};
use crate::indexes::{IndexedDir, index_of, index_on};
use crate::made::made_of;
use crate::session::Session;
use crate::stock::Stock;
use std::mem::replace;
use trio_auxdir::HashedDir;
use trio_desk::Desk;
use trio_nodes::{AllotFault, Call, GrantFault, GrantKind, ModeFault};
use trio_page::NoMemory;
use trio_rights::Kind;

impl Session {
    /// Sees to it that the session has a grant of this kind on a file, and a directory that is lent for
    /// reading or writing, or was made, its index. Where a lease serves, the desk isn't asked: one of
    /// this kind, and for reading one for writing too; a file that the session made serves every need.
    ///
    /// The faults are the desk's. [`GrantFault::NoMemory`] also comes, without a call, where there is
    /// no room for a lease, and where there is none for an index: the lease is then kept without it.
    pub fn need<D: Desk>(
        &mut self,
        desk: &mut D,
        ino: u32,
        kind: GrantKind,
    ) -> Result<(), GrantFault>
        requires { IsOn (D.seen desk.old) self.old }
        ensures call { OneCall D.called desk.old (Grant ino kind) desk.new
            (λ told. TellsGrant (D.seen desk.old) ino kind told (D.seen desk.new) × AfterNeed self.old result self.new told × IsFalse (serves self.old ino kind))
            (NoNeed (serves self.old ino kind) self.old result self.new) }
        ensures asked { IsTrue (serves self.old ino kind) → desk.new ≡ desk.old }
        ensures indexed { IsOk result → kind_shown self.new ino ≡ Some Kind.Directory → In ino self.new.indexed }
        ensures served { IsOk result → IsTrue (serves self.new ino kind) }
        ensures on { IsOn (D.seen desk.new) self.new }
    {
        if let Some(of) = self.serves_as(ino, kind) {
            if of.is_directory() {
                return self.index_dir(ino);
            }
            return Ok(());
        }
        if self.serves(ino, kind) {
            return self.index(ino);
        }
        match self.lend(desk, ino, kind) {
            Ok(()) => self.index(ino),
            Err(fault) => Err(fault),
        }
    }

    /// The kind of a file that is read or written, where a lease serves this need, or the session made
    /// it. Of a hold nothing is told.
    fn serves_as(&self, ino: u32, kind: GrantKind) -> Option<Kind>
        ensures { IfSome result (λ of. IsTrue (serves self.now ino kind) × (kind_shown self.now ino ≡ Some of)) }
    {
        match kind {
            GrantKind::Write => self.open_kind(ino),
            GrantKind::Read => self.kind(ino),
            GrantKind::Hold => None,
        }
    }

    /// Whether a lease that the session has serves this need; a file that it made serves each.
    fn serves(&self, ino: u32, kind: GrantKind) -> bool
        ensures { result ≡ serves self.now ino kind }
    {
        match kind {
            GrantKind::Write => self.open_kind(ino).is_some(),
            GrantKind::Hold => {
                made_of(&self.made, ino).is_some() || self.stock.hold_on(ino).is_some()
            }
            GrantKind::Read => self.kind(ino).is_some(),
        }
    }

    /// Asks the desk for a grant of this kind on a file, and keeps the lease.
    fn lend<D: Desk>(&mut self, desk: &mut D, ino: u32, kind: GrantKind) -> Result<(), GrantFault>
        requires { IsOn (D.seen desk.old) self.old }
        ensures call { OneCall D.called desk.old (Grant ino kind) desk.new
            (λ told. TellsGrant (D.seen desk.old) ino kind told (D.seen desk.new) × AfterGrant self.old result self.new told) (NoGrant self.old result self.new) }
        ensures on { IsOn (D.seen desk.new) self.new }
    {
        let mut parts = replace(&mut self.stock, Stock::new(self.alloc)).into_parts();
        let answer = grant_into(
            self.alloc,
            &mut parts,
            &mut self.laid,
            &mut self.reads,
            desk,
            ino,
            kind,
        );
        replace(&mut self.stock, Stock::of_parts(parts)).discard();
        answer
    }

    /// Makes the index of a file, if it is a directory that the session shows and has none yet.
    fn index(&mut self, ino: u32) -> Result<(), GrantFault>
        requires { MayBeRead self.old.reads ino }
        ensures kept { self.new ≡ record self.old { indexed = self.new.indexed; room = self.new.room } }
        ensures more { (n : ℕ) → In n self.old.indexed → In n self.new.indexed }
        ensures done { OnOk result (kind_shown self.new ino ≡ Some Kind.Directory → In ino self.new.indexed) }
        ensures fault { IfErr result (λ fault. fault ≡ GrantFault.NoMemory) }
    {
        match self.kind(ino) {
            Some(kind) => {
                if kind.is_directory() {
                    self.index_dir(ino)
                } else {
                    Ok(())
                }
            }
            None => Ok(()),
        }
    }

    /// Makes the index of a directory that the session shows, if it has none yet.
    fn index_dir(&mut self, ino: u32) -> Result<(), GrantFault>
        requires read { MayBeRead self.old.reads ino }
        requires directory { kind_shown self.old ino ≡ Some Kind.Directory }
        ensures kept { self.new ≡ record self.old { indexed = self.new.indexed; room = self.new.room } }
        ensures calls { self.new.room.calls ≡ self.old.room.calls }
        ensures more { (n : ℕ) → In n self.old.indexed → In n self.new.indexed }
        ensures done { OnOk result (In ino self.new.indexed) }
        ensures fault { IfErr result (λ fault. fault ≡ GrantFault.NoMemory) }
    {
        if index_on(&self.dirs, ino).is_some() {
            return Ok(());
        }
        let Ok(dir) = self.new_index(ino) else {
            return Err(GrantFault::NoMemory);
        };
        if self.dirs.reserve(1).is_err() {
            return Err(GrantFault::NoMemory);
        }
        self.dirs.push_reserved(IndexedDir { ino, dir });
        Ok(())
    }

    /// The index of a directory that has none yet, made of its blocks as they stand or were lent.
    fn new_index(&self, ino: u32) -> Result<HashedDir, NoMemory>
        requires read { MayBeRead self.now.reads ino }
        requires directory { kind_shown self.now ino ≡ Some Kind.Directory }
        requires new { In ino self.now.indexed → ⊥ }
        ensures inodes { IfOk result (λ dir. dir.inodes ≡ every_number) }
        ensures slots { IfOk result (λ dir. dir.slots ≡ slots_shown self.now ino) }
    {
        match self.file_on(ino) {
            Some((file, laid)) => index_of_places(self.alloc, &self.stock, laid, file),
            None => index_of(self.alloc, self.read_on(ino).unwrap()),
        }
    }

    /// Asks the desk for so many pages and inode numbers, and keeps them as the last ones.
    ///
    /// The faults are the desk's. [`AllotFault::NoMemory`] also comes, without a call, where there is
    /// no room for them. After a fault the session has what it had.
    pub fn want<D: Desk>(&mut self, desk: &mut D, pages: u32, inodes: u32) -> Result<(), AllotFault>
        requires { IsOn (D.seen desk.old) self.old }
        ensures call { OneCall D.called desk.old (Allot pages inodes) desk.new
            (λ told. TellsAllotment (D.seen desk.old) pages inodes told (D.seen desk.new) × AfterWant self.old result self.new told) (NoWant self.old result self.new) }
        ensures room { self.new.room ≡ self.old.room }
        ensures on { IsOn (D.seen desk.new) self.new }
    {
        let mut parts = replace(&mut self.stock, Stock::new(self.alloc)).into_parts();
        let answer = allot_into(&mut parts, desk, pages, inodes);
        replace(&mut self.stock, Stock::of_parts(parts)).discard();
        answer
    }

    /// Changes the mode of a file, by its inode number: hands all read leases and the call to the desk.
    /// The session has nothing but read leases; after `Ok` it is empty, after a fault as it was. The
    /// call comes back after `Busy` and `NoMemory`; after another fault it stands in the history.
    pub fn set_mode<D: Desk>(
        &mut self,
        desk: &mut D,
        ino: u32,
        mode: u16,
        call: Call,
    ) -> Result<(), (Option<Call>, ModeFault)>
        requires on { IsOn (D.seen desk.old) self.old }
        requires reads_alone { HasReadsAlone self.old }
        requires lent { AreLent (D.seen desk.old).out self.old.reads }
        requires chmod { IsChmod (D.seen desk.old) self.old.reads ino mode call }
        ensures call { OneCall D.called desk.old (SetMode ino mode self.old.reads (Some call)) desk.new
            (λ told. TellsMode (D.seen desk.old) ino mode self.old.reads call told (D.seen desk.new) × AfterMode self.old call result self.new told) ⊥ }
        ensures on { IsOn (D.seen desk.new) self.new }
    {
        let reads = replace(&mut self.reads, Vec::new(self.alloc));
        match desk.set_mode(ino, mode, reads, Some(call)) {
            Ok(()) => {
                self.made.clear();
                self.cleared.clear();
                self.dirs.clear();
                Ok(())
            }
            Err((reads, call, fault)) => {
                replace(&mut self.reads, reads).destroy_empty();
                Err((call, fault))
            }
        }
    }

    /// Hands in all that the session has, with the calls done, and gives its read leases back before.
    /// Returns the number of calls; the session is then empty. [`NoMemory`] is the desk's, and leaves
    /// it as it was.
    pub fn settle<D: Desk>(&mut self, desk: &mut D) -> Result<u32, NoMemory>
        requires on { IsOn (D.seen desk.old) self.old }
        requires ready { Ready (D.seen desk.old) self.old.parcel self.old.reads self.old.calls }
        ensures call { OneCall D.called desk.old (Settle self.old.parcel self.old.reads self.old.calls) desk.new
            (λ told. SeenAfter (D.seen desk.old) (Settle self.old.parcel self.old.reads self.old.calls) told (D.seen desk.new) × AfterSettle self.old result self.new told) ⊥ }
        ensures on { IsOn (D.seen desk.new) self.new }
    {
        let alloc = self.alloc;
        let count = self.calls.len() as u32;
        let bundle = replace(&mut self.stock, Stock::new(alloc)).into_bundle();
        let reads = replace(&mut self.reads, Vec::new(alloc));
        let calls = replace(&mut self.calls, Vec::new(alloc));
        match desk.settle(bundle, reads, calls) {
            Ok(()) => {
                self.laid.clear();
                self.made.clear();
                self.cleared.clear();
                self.dirs.clear();
                self.placed = 0;
                Ok(count)
            }
            Err((bundle, reads, calls, fault)) => {
                replace(&mut self.stock, Stock::of_bundle(bundle)).discard();
                replace(&mut self.reads, reads).destroy_empty();
                self.calls = calls;
                Err(fault)
            }
        }
    }

    /// Settles, and ends the session. With [`NoMemory`] the session comes back as it was.
    pub fn end<D: Desk>(self, desk: &mut D) -> Result<u32, (Session, NoMemory)>
        requires on { IsOn (D.seen desk.old) self }
        requires ready { Ready (D.seen desk.old) self.parcel self.reads self.calls }
        ensures call { OneCall D.called desk.old (Settle self.parcel self.reads self.calls) desk.new
            (λ told. SeenAfter (D.seen desk.old) (Settle self.parcel self.reads self.calls) told (D.seen desk.new) × (told ≡ settle_end result)) ⊥ }
        ensures count { IfOk result (λ n. n ≡ length self.calls) }
        ensures back { IfErr result (λ back. back.0 ≡ self) }
        ensures on { IfErr result (λ back. IsOn (D.seen desk.new) back.0) }
    {
        let mut session = self;
        match session.settle(desk) {
            Ok(count) => {
                session.discard();
                Ok(count)
            }
            Err(fault) => Err((session, fault)),
        }
    }
}
