//! A library over its desk.

ghost use Rattle.std.specs.Prelude.{◌≡◌, ◌↔◌, [], Err, IfErr, IsErr, IsFalse, IsTrue, None, Ok, OnErr, Some, if◌then◌else◌};
ghost use Rattle.std.specs.Option.{option_copied};
ghost use Rattle.trio_desk.specs.Out.{IsClosed, LibOut};
ghost use Rattle.trio_desk.specs.Call.{Allot, Grant, Release, SetMode};
ghost use Rattle.trio_desk.specs.Calls.{Calls, OneCall};
ghost use Rattle.trio_raw.specs.Asked.{AfterAllot, AfterGrant, AfterMode, AfterRelease, Back, IsRefusal, NoAllot, NoGrant, NoRelease, end_calls, raw_fault};
ghost use Rattle.trio_raw.specs.Has.{HasLeases, OnList, has_all_of, has_nothing, has_read, nothing, parcel_named, peeked, poked, whole_parcel, with_reads};

use crate::back::give_all_back;
use crate::things::Things;
use std::alloc::Global;
use std::marker::Model;
use trio_desk::Desk;
use trio_nodes::{
    AllotAnswer, AllotFault, GrantFault, GrantKind, ModeFault, ReleaseAnswer, ReleaseFault, Spot,
};
use trio_page::{NoMemory, Reads};
use trio_rights::LibNo;

// no image has more pages than this
const MOST_PAGES: u32 = 8192;

// and none more inode numbers than this
const MOST_INODES: u32 = 16384;

/// The library has no read lease on the file.
#[derive(Clone, Copy, Debug, PartialEq, Eq)]
pub struct Absent;

/// Why a release came to no verdict.
#[derive(Clone, Copy, Debug, PartialEq, Eq)]
pub enum RawFault {
    /// Something that was named isn't there, or is named twice.
    Absent,
    /// Of the hold on this file, the lowest such number, and the write lease on its parent just one
    /// was named.
    NotClosed(u32),
    /// Want of memory.
    NoMemory,
}

/// The write leases, read leases, holds, allotted pages and allotted inode numbers of one library,
/// each kind in the order in which it came.
///
/// Contracts see the library and what it has (`Held`). What it has stands on its desk's list of what
/// is out (`OnList`), and on this list is no write lease and no hold that it lacks (`HasLeases`);
/// each call keeps both.
pub struct Raw {
    alloc: Global,
    lib: LibNo,
    things: Things,
}

impl Model for Raw {
    ghost use Rattle.trio_raw.specs.Has.{Held};

    ghost Value = { Held };

    ghost view = { λ r. record { lib = r.lib; has = r.things.has } };
}

impl Raw {
    /// A library that has nothing yet. It takes no memory.
    pub fn new(alloc: Global, lib: LibNo) -> Raw
        ensures { result ≡ record { lib = lib; has = nothing } }
    {
        Raw {
            alloc,
            lib,
            things: Things::new(alloc),
        }
    }

    /// The library.
    pub fn lib(&self) -> LibNo
        ensures { result ≡ self.now.lib }
    {
        self.lib
    }

    /// Asks the desk for a grant of this kind on a file, by its inode number, and keeps the lease as
    /// the last one of its kind. Returns the number of the file's children for a hold, and 0 for
    /// another lease.
    ///
    /// The faults are the desk's. [`GrantFault::NoMemory`] also comes, without a call, where there is
    /// no room for a lease. After a fault the library has what it had.
    pub fn grant<D: Desk>(
        &mut self,
        desk: &mut D,
        ino: u32,
        kind: GrantKind,
    ) -> Result<u32, GrantFault>
        requires stands { OnList (D.seen desk.old).out self.old.has }
        ensures call { OneCall D.called desk.old (Grant ino kind) desk.new
            (AfterGrant self.old.has result self.new.has) (NoGrant self.old.has result self.new.has) }
        ensures stands { OnList (D.seen desk.new).out self.new.has }
        ensures leases { HasLeases (D.seen desk.old).out self.old.has → HasLeases (D.seen desk.new).out self.new.has }
        ensures desk { (D.seen desk.new).lib ≡ (D.seen desk.old).lib }
        ensures lib { self.new.lib ≡ self.old.lib }
    {
        if self.things.reserve_lease().is_err() {
            return Err(GrantFault::NoMemory);
        }
        match desk.grant(ino, kind) {
            Ok(lease) => Ok(self.things.add_lease(lease)),
            Err(fault) => Err(fault),
        }
    }

    /// Asks the desk for so many pages and inode numbers, and keeps what is given as the last ones of
    /// their kind. Returns the numbers that were given, or that more is wanted than is free.
    ///
    /// [`NoMemory`] is the desk's. It also comes, without a call, where there is none for what is asked
    /// and for the answer; of more than any image has, room is made for as much as an image has. After it
    /// nothing has changed.
    pub fn allot<D: Desk>(
        &mut self,
        desk: &mut D,
        pages: u32,
        inodes: u32,
    ) -> Result<AllotAnswer, NoMemory>
        requires stands { OnList (D.seen desk.old).out self.old.has }
        ensures call { OneCall D.called desk.old (Allot pages inodes) desk.new
            (AfterAllot (D.seen desk.old).lib self.old.has result self.new.has) (NoAllot self.old.has result self.new.has) }
        ensures kept { OnErr result (self.new.has ≡ self.old.has) }
        ensures stands { OnList (D.seen desk.new).out self.new.has }
        ensures leases { HasLeases (D.seen desk.old).out self.old.has → HasLeases (D.seen desk.new).out self.new.has }
        ensures desk { (D.seen desk.new).lib ≡ (D.seen desk.old).lib }
        ensures lib { self.new.lib ≡ self.old.lib }
    {
        let _creds = desk.creds();
        let most_pages = pages.min(MOST_PAGES) as usize;
        let most_inodes = inodes.min(MOST_INODES) as usize;
        let numbers = self
            .things
            .reserve_allotted(self.alloc, most_pages, most_inodes)?;
        match desk.allot(pages, inodes) {
            Ok(given) => Ok(self.things.add_allotted(given, numbers)),
            Err(fault) => refusal(fault),
        }
    }

    /// Gives the read lease on a file back, by its inode number. [`Absent`] exactly where the library
    /// has none on it; then the desk isn't called.
    pub fn back<D: Desk>(&mut self, desk: &mut D, ino: u32) -> Result<(), Absent>
        requires stands { OnList (D.seen desk.old).out self.old.has }
        ensures call { Back D.called desk.old self.old.has ino desk.new result self.new.has }
        ensures absent { IsErr result ↔ IsFalse (has_read self.old.has ino) }
        ensures stands { OnList (D.seen desk.new).out self.new.has }
        ensures leases { HasLeases (D.seen desk.old).out self.old.has → HasLeases (D.seen desk.new).out self.new.has }
        ensures desk { (D.seen desk.new).lib ≡ (D.seen desk.old).lib }
        ensures lib { self.new.lib ≡ self.old.lib }
    {
        let Some(lease) = self.things.take_read(ino) else {
            return Err(Absent);
        };
        desk.give_back(lease);
        Ok(())
    }

    /// Asks the desk to change the mode of a file, by its inode number, with no lease given back and no
    /// call told. The faults are the desk's. The library has what it had.
    pub fn set_mode<D: Desk>(&mut self, desk: &mut D, ino: u32, mode: u16) -> Result<(), ModeFault>
        requires stands { OnList (D.seen desk.old).out self.old.has }
        ensures call { OneCall D.called desk.old (SetMode ino mode [] None) desk.new
            (AfterMode self.old.has result self.new.has) ⊥ }
        ensures stands { OnList (D.seen desk.new).out self.new.has }
        ensures leases { HasLeases (D.seen desk.old).out self.old.has → HasLeases (D.seen desk.new).out self.new.has }
        ensures desk { (D.seen desk.new).lib ≡ (D.seen desk.old).lib }
        ensures lib { self.new.lib ≡ self.old.lib }
    {
        match desk.set_mode(ino, mode, Vec::new(self.alloc), None) {
            Ok(()) => Ok(()),
            Err((back, _, fault)) => {
                back.destroy_empty();
                Err(fault)
            }
        }
    }

    /// Writes these bytes at a spot, from an offset on, counted in bytes from the front of the body
    /// or the page. `false` exactly where the library has no such write lease or allotted page, or
    /// the bytes leave it, and then nothing has changed. No desk is called.
    pub fn poke(&mut self, at: Spot, offset: u32, bytes: &[u8]) -> bool
        ensures poked { poked self.old.has at offset bytes.now ≡ (if result then Some self.new.has else None) }
        ensures kept { IsFalse result → self.new ≡ self.old }
        ensures lib { self.new.lib ≡ self.old.lib }
        ensures stands { (out : LibOut) → OnList out self.old.has → OnList out self.new.has }
        ensures leases { (out : LibOut) → HasLeases out self.old.has → HasLeases out self.new.has }
    {
        self.things.poke(at, offset, bytes)
    }

    /// The bytes of this length at a spot, from an offset on, counted in bytes from the front of the
    /// body or the page. `None` exactly where the library has no such thing, or they leave it. No
    /// desk is called.
    ///
    /// Of a file it shows the write lease as it stands, or else the read lease as it was lent; a hold
    /// shows the body alone.
    pub fn peek(&self, at: Spot, offset: u32, len: u32) -> Option<&[u8]>
        ensures { option_copied result ≡ peeked self.now.has at offset len }
    {
        self.things.peek(at, offset, len)
    }

    /// Hands in the write leases and holds on the files that are named, and the allotted pages and
    /// inode numbers that are, byte for byte as they stand, in one bundle in the order in which they
    /// are named.
    ///
    /// [`RawFault::Absent`], exactly where one that is named isn't there, as a file on which there is
    /// only a read lease, or is named twice: then the desk isn't called, and the library has what it
    /// had. [`RawFault::NotClosed`] and [`RawFault::NoMemory`] are the desk's: all of it is back, and
    /// stands behind the rest. `NoMemory` also comes, without a call, where there is none for the
    /// bundle: then the library has what it had.
    pub fn release<D: Desk>(
        &mut self,
        desk: &mut D,
        inos: &[u32],
        pages: &[u32],
        inodes: &[u32],
    ) -> Result<ReleaseAnswer, RawFault>
        requires stands { OnList (D.seen desk.old).out self.old.has }
        ensures call { OneCall D.called desk.old (Release (parcel_named self.old.has inos.now pages.now inodes.now)) desk.new
            (AfterRelease self.old.has inos.now pages.now inodes.now result self.new.has)
            (NoRelease self.old.has inos.now pages.now inodes.now result self.new.has) }
        ensures absent { result ≡ Err RawFault.Absent ↔ IsFalse (has_all_of self.old.has inos.now pages.now inodes.now) }
        ensures stands { OnList (D.seen desk.new).out self.new.has }
        ensures leases { HasLeases (D.seen desk.old).out self.old.has → HasLeases (D.seen desk.new).out self.new.has }
        ensures desk { (D.seen desk.new).lib ≡ (D.seen desk.old).lib }
        ensures lib { self.new.lib ≡ self.old.lib }
    {
        if !self.things.has_all_of(inos, pages, inodes) {
            return Err(RawFault::Absent);
        }
        let Ok(bundle) = self.things.take(self.alloc, inos, pages, inodes) else {
            return Err(RawFault::NoMemory);
        };
        match desk.release(bundle, &mut Reads::new()) {
            Ok(answer) => Ok(answer),
            Err((bundle, fault)) => {
                self.things.put_back(bundle);
                Err(raw_fault(fault))
            }
        }
    }

    /// Gives all read leases back, the last one first, and then hands in all the rest in one bundle,
    /// in the order in which it came. Returns the verdict on it; `None` exactly where there is no
    /// rest. It takes no memory of its own.
    ///
    /// [`NoMemory`] is the desk's. The library that comes back then has the rest, and no read lease.
    pub fn end<D: Desk>(self, desk: &mut D) -> Result<Option<ReleaseAnswer>, (Raw, NoMemory)>
        requires stands { OnList (D.seen desk.old).out self.has }
        requires closed { IsClosed (D.seen desk.old).out (whole_parcel self.has) }
        ensures calls { Calls D.called desk.old (end_calls self.has result) desk.new }
        ensures none { result ≡ Ok None ↔ IsTrue (has_nothing self.has) }
        ensures back { IfErr result (λ back. back.0 ≡ record self { has = with_reads self.has [] }) }
        ensures stands { IfErr result (λ back. OnList (D.seen desk.new).out back.0.has) }
        ensures closed { IfErr result (λ back. IsClosed (D.seen desk.new).out (whole_parcel back.0.has)) }
        ensures desk { (D.seen desk.new).lib ≡ (D.seen desk.old).lib }
    {
        let Raw {
            alloc,
            lib,
            mut things,
        } = self;
        give_all_back(&mut things, desk);
        if things.has_nothing() {
            things.discard();
            return Ok(None);
        }
        match desk.release(things.into_bundle(), &mut Reads::new()) {
            Ok(answer) => Ok(Some(answer)),
            Err((bundle, _)) => {
                let things = Things::of_bundle(alloc, bundle);
                Err((Raw { alloc, lib, things }, NoMemory))
            }
        }
    }

    /// Lets all of it go. Its grants and allotments stay out for good, so that others find the
    /// files busy, and the pages and inode numbers not free.
    pub fn discard(self) {
        let Raw {
            alloc: _,
            lib: _,
            things,
        } = self;
        things.discard();
    }
}

/// The fault of an allotment, as the library is answered.
fn refusal(fault: AllotFault) -> Result<AllotAnswer, NoMemory>
    ensures { IsRefusal fault result }
{
    match fault {
        AllotFault::NoMemory => Err(NoMemory),
        AllotFault::NoPages { .. } | AllotFault::NoInodes { .. } => {
            Ok(AllotAnswer::Refused(fault))
        }
    }
}

/// The fault of a release, as the library is answered.
fn raw_fault(fault: ReleaseFault) -> RawFault
    ensures { result ≡ raw_fault fault }
{
    match fault {
        ReleaseFault::NotClosed(ino) => RawFault::NotClosed(ino),
        ReleaseFault::NoMemory => RawFault::NoMemory,
    }
}
