//! The controller.

ghost use Rattle.std.specs.Prelude.{◌≡◌, ◌≤◌, ◌+◌, ◌↔◌, ℕ, [], IfErr, IfOk, IsOk, IsTrue, None, OnErr, OnOk, length, replicate, vec_len};
ghost use Rattle.trio_lease.specs.Views.{bundle_in};
ghost use Rattle.trio_desk.specs.Contents.{AreWithinLimits};
ghost use Rattle.trio_state.specs.Given.{GivenTo};
ghost use Rattle.trio_state.specs.Kept.{Kept};
ghost use Rattle.trio_state.specs.Run.{start};
ghost use Rattle.trio_state.specs.State.{creds_of};
ghost use Rattle.trio_laws.specs.history.Recorded.{IsRecorded};
ghost use Rattle.trio_laws.specs.session.Lent.{LentIsTrue, sizes_of};
ghost use Rattle.trio_survey.specs.Stored.{image_in};
ghost use Rattle.trio_ctl.specs.Answers.{TellsImage, TellsLastImage};
ghost use Rattle.trio_open.specs.Belonging.{Belongs};
ghost use Rattle.trio_ctl.specs.Ctl.{AreAsTold, IsIdle, IsLibrary, NoneBegun, TellsSettled, writer_of};
ghost use Rattle.trio_ctl.specs.HandedIn.{WereHeld};
ghost use Rattle.trio_ctl.specs.Logged.{recorded};
ghost use Rattle.trio_ctl.specs.Room.{Spends, room_for, spare_entries};

use crate::image::ImageFault;
use crate::registry::Registry;
use crate::spares::Spares;
use std::alloc::Global;
use std::marker::Model;
use std::snapshot::Snapshot;
use trio_entries::Notes;
use trio_image::Image;
use trio_lease::Bundle;
use trio_log::Log;
use trio_page::NoMemory;
use trio_rights::{Creds, LibNo};

/// The controller of one image: what it keeps of the image, the grants that are open, the releases
/// that have begun and not ended, the credentials of its libraries, and its log.
///
/// A library makes a call only while it is idle ([`idle`](Self::idle)): while no release of it has begun
/// and not ended.
///
/// Contracts see a `Controller` of `specs/Ctl.antt`: the `State` of which the controller's steps
/// speak, which is always kept; of each library the outline of its release that has begun and not
/// ended, whose bundle was given to it and is closed; the image that it began from and the log, which is
/// always legal from that image's nodes to those for which the state stands, and replays to the state
/// (`HasHistory`); how often a page at home was looked at; and what is spare.
pub struct Ctl {
    pub(crate) registry: Registry,
    pub(crate) log: Log,
    // the name, the size and the guard of each live file
    pub(crate) notes: Notes,
    // memory that is made ready for the releases to come
    pub(crate) spares: Spares,
    pub(crate) first: Snapshot<Image>,
}

impl Model for Ctl {
    ghost use Rattle.std.specs.Prelude.{◌+◌, ◌-◌, length, vec_len};
    ghost use Rattle.trio_survey.specs.Stored.{image_in};
    ghost use Rattle.trio_ctl.specs.Ctl.{Controller};
    ghost use Rattle.trio_ctl.specs.Kits.{AreSpare};
    ghost use Rattle.trio_ctl.specs.Logged.{HasHistory};
    ghost use Rattle.trio_ctl.specs.Room.{sizes_in};

    ghost Value = { Controller };

    ghost view = { λ c. record {
      state = c.registry.state;
      begun = c.registry.begun;
      first = image_in c.first.value.superblock c.first.value.pages;
      log = c.log.entries;
      looked = c.registry.looked;
      spare = record {
        places = c.log.room - (length c.log.entries + c.registry.promised);
        kits = vec_len c.spares.kits;
        bytes = c.spares.bytes;
      };
    } };

    ghost invariant = { λ c.
        HasHistory (image_in c.first.value.superblock c.first.value.pages) c.registry.state c.registry.begun c.registry.promised c.log c.notes
        × AreSpare (sizes_in (image_in c.first.value.superblock c.first.value.pages)) c.spares };
}

impl Drop for Ctl {
    fn drop(self) {
        let Ctl {
            registry: _,
            log: _,
            notes: _,
            spares: _,
            first: _,
        } = self;
    }
}

impl Ctl {
    /// The controller of an image, with nothing lent, for 1 to 16 libraries, of which the n-th has
    /// the n-th credentials. `NoMemory`: there was no memory for its tables; the image comes back.
    pub fn start(alloc: Global, image: Image, libs: Vec<Creds>) -> Result<Ctl, (Image, NoMemory)>
        requires some { 1 ≤ vec_len libs }
        requires few { vec_len libs ≤ 16 }
        ensures started { IfOk result (λ ctl. ctl.state ≡ start (image_in image.superblock image.pages) libs.items) }
        ensures first { IfOk result (λ ctl. ctl.first ≡ image_in image.superblock image.pages) }
        ensures log { IfOk result (λ ctl. ctl.log ≡ []) }
        ensures kept { IfOk result (λ ctl. Kept ctl.state) }
        ensures begun { IfOk result (λ ctl. ctl.begun ≡ replicate (length libs.items) None) }
        ensures idle { IfOk result NoneBegun }
        ensures back { IfErr result (λ back. back.0 ≡ image) }
    {
        let mut image = image;
        let _superblock = image.superblock();
        let first = Snapshot::of(&image);
        let Ok(notes) = image.notes(alloc) else {
            return Err((image, NoMemory));
        };
        match Registry::start(alloc, image, libs) {
            Ok(registry) => Ok(Ctl {
                registry,
                log: Log::new(alloc),
                notes: Notes::of(notes),
                spares: Spares::none(alloc),
                first,
            }),
            Err(back) => Err(back),
        }
    }

    /// How often a page at home was looked at, as home itself counts. At 2^64 - 1 it may have been
    /// more.
    pub fn looked(&self) -> u64
        ensures { result ≡ self.now.looked }
    {
        self.registry.looked()
    }

    /// The entries that its calls have made, in their order.
    pub fn log(&self) -> &Log
        ensures { result.now.entries ≡ self.now.log }
    {
        &self.log
    }

    /// Its log is legal from the nodes of the image that it began from to those for which its state
    /// stands, and replays from that image to the state. Nothing is done.
    pub fn is_recorded(&self)
        ensures { IsRecorded (recorded self.now.first self.now.state self.now.log) }
    {
        let _ = &self.log;
    }

    /// Each open hold told the directory that the row of its file still names. Nothing is done.
    pub fn is_as_told(&self)
        ensures { AreAsTold self.now.state }
    {
        self.registry.is_as_told();
    }

    /// The sizes of the image are within the limits of every image. Nothing is done.
    pub fn is_within_limits(&self)
        ensures { AreWithinLimits (sizes_of self.now.state) }
    {
        self.registry.is_within_limits();
    }

    /// What each open grant lent is true of the nodes and rows of its state. Nothing is done.
    pub fn is_as_lent(&self)
        ensures { LentIsTrue self.now.state }
    {
        let _ = &self.log;
    }

    /// Whether no release of a library has begun and not ended. Takes no memory.
    pub fn idle(&self, lib: LibNo) -> bool
        ensures { IsTrue result ↔ IsIdle self.now lib.0 }
    {
        self.registry.is_idle(lib)
    }

    // the credentials of a library
    pub(crate) fn creds(&self, lib: LibNo) -> Creds
        requires { IsLibrary lib self.now.state }
        ensures { result ≡ creds_of self.now.state lib.0 }
    {
        self.registry.creds(lib)
    }

    /// Makes room for so many entries, beside those that are promised, each with the memory of a release
    /// whose [`room`](Self::room) is at most so many bytes; what was spare before stays so. After
    /// `NoMemory` nothing changed.
    ///
    /// With one spare entry and the room of a bundle in spare bytes, [`begin`](Self::begin),
    /// [`release`](Self::release) and [`settle`](Self::settle) don't lack memory. Each of them takes of
    /// what is spare only where it finds no memory of its own, and one entry at most; the bytes stay, as
    /// they are those of each entry.
    ///
    /// Spare bytes count what one release needs. The memory of an entry serves every bundle of that room, so
    /// it has places for the most pages and for the most leases at once. It may take more than the bytes,
    /// but less than twice as many where they are the room of a bundle.
    pub fn make_room(&mut self, entries: u64, bytes: u64) -> Result<(), NoMemory>
        ensures entries { OnOk result (entries ≤ spare_entries self.new.spare) }
        ensures bytes { OnOk result (bytes ≤ self.new.spare.bytes) }
        ensures kept_entries { spare_entries self.old.spare ≤ spare_entries self.new.spare }
        ensures kept_bytes { self.old.spare.bytes ≤ self.new.spare.bytes }
        ensures unchanged { OnErr result (self.new ≡ self.old) }
        ensures rest { self.new ≡ record self.old { spare = self.new.spare } }
    {
        let more = self.registry.more_kits(&self.spares, entries, bytes)?;
        make_places(&mut self.log, self.registry.promised(), entries)?;
        self.spares.keep(more);
        Ok(())
    }

    /// What one release of a bundle needs at most, in bytes: 4 for each page and each inode number of
    /// the image, 16384 for each page of the bundle, and 1024 for the release itself and for each write
    /// lease, hold and inode number in it. The bundle belongs to one of the libraries
    /// ([`belongs`](Self::belongs)).
    ///
    /// That is room for the judgement and, whatever the verdict, for the entry: for bodies and pages as
    /// they are handed in, once each, since the blocks that the entry tells name the handed-in pages; and
    /// for the files that it tells, of which each page can name 16. With one entry and so many
    /// bytes to spare, a release lacks no memory ([`make_room`](Self::make_room)). No clause says that it
    /// takes no more.
    ///
    /// Takes no memory.
    pub fn room(&self, bundle: &Bundle) -> u64
        requires { (lib : ℕ) × Belongs self.now.state lib bundle.now }
        ensures { result ≡ room_for self.now.state.home.core (bundle_in bundle.now) }
    {
        self.registry.room(bundle)
    }

    /// Whether all of a bundle was given by this controller to this library and is out, each thing
    /// once: each write lease by a write grant that is open, whose file, kind, entry and page numbers
    /// it shows; each hold by a hold that is open, just as it was given; each page and each inode
    /// number by an allotment. Of a write lease the bytes may have changed, and what it shows as lent
    /// is not looked at.
    ///
    /// Takes no memory, and looks at no page at home.
    pub fn belongs(&self, lib: LibNo, bundle: &Bundle) -> bool
        requires library { IsLibrary lib self.now.state }
        ensures exactly { IsTrue result ↔ Belongs self.now.state lib.0 bundle.now }
        ensures given { IsTrue result → GivenTo self.now.state lib.0 (bundle_in bundle.now) × WereHeld self.now.state lib.0 bundle.now.holds }
    {
        self.registry.belongs(lib, bundle)
    }

    /// The settled image: its pages are just those that store it, with copies of the core pages, and
    /// all zero where one is out by allotment. The state is unchanged. `Busy` exactly where a write
    /// grant is out; `NoMemory`: there was no memory for the pages and the tables.
    pub fn image(&mut self) -> Result<Image, ImageFault>
        ensures answer { TellsImage (writer_of self.old.state) result }
        ensures image { IfOk result (TellsSettled self.old.state) }
        ensures rest { self.new ≡ record self.old { looked = self.new.looked } }
        ensures floor { self.old.looked ≤ self.new.looked }
        ensures kept { Kept self.old.state }
    {
        self.registry.image()
    }

    /// The settled image, as [`image`](Self::image) tells it, with the pages and the tables of the
    /// controller, which ends. `Busy` exactly where a write grant is out; `NoMemory`: there was no
    /// memory for the pages of the tables, or for those that are out. After either the controller
    /// comes back, its state and its log unchanged.
    pub fn into_image(self) -> Result<Image, (Ctl, ImageFault)>
        ensures answer { TellsLastImage (writer_of self.state) result (λ back. back.1) }
        ensures image { IfOk result (TellsSettled self.state) }
        ensures back { IfErr result (λ back. back.0.state ≡ self.state) }
        ensures begun { IfErr result (λ back. back.0.begun ≡ self.begun) }
        ensures log { IfErr result (λ back. (back.0.log ≡ self.log) × (back.0.first ≡ self.first)) }
        ensures floor { IfErr result (λ back. self.looked ≤ back.0.looked) }
        ensures spends { IfErr result (λ back. Spends 0 0 self.spare back.0.spare) }
        ensures kept { Kept self.state }
    {
        let Ctl {
            registry,
            log,
            notes,
            spares,
            first,
        } = self;
        match registry.into_image() {
            Ok(image) => Ok(image),
            Err((registry, fault)) => {
                let ctl = Ctl {
                    registry,
                    log,
                    notes,
                    spares,
                    first,
                };
                Err((ctl, fault))
            }
        }
    }
}

/// Makes places in a log for so many entries, beside those that are promised.
pub(crate) fn make_places(log: &mut Log, promised: u64, more: u64) -> Result<(), NoMemory>
    ensures kept { log.new.entries ≡ log.old.entries }
    ensures grows { log.old.room ≤ log.new.room }
    ensures room { OnOk result (length log.new.entries + promised + more ≤ log.new.room) }
    ensures same { OnErr result (log.new ≡ log.old) }
    ensures succeeds { length log.old.entries + promised + more ≤ log.old.room → IsOk result }
{
    log.is_small();
    let Some(places) = promised.checked_add(more) else {
        return Err(NoMemory);
    };
    log.reserve(places)
}
