//! The controller as the turn sees it.

ghost use Rattle.std.specs.Prelude.{◌≡◌, ◌↔◌, ℕ, IsTrue};
ghost use Rattle.trio_lease.specs.Views.{bundle_in};
ghost use Rattle.trio_ctl.specs.Belonging.{Belongs};
ghost use Rattle.trio_ctl.specs.Room.{room_for};
ghost use Rattle.trio_ctl.specs.Ctl.{IsIdle, IsLibrary};
ghost use Rattle.trio_state.specs.State.{creds_of};
ghost use Rattle.trio_state.specs.Kept.{Kept};
ghost use Rattle.trio_state.specs.Run.{start};
ghost use Rattle.trio_shared.specs.Left.{Leaves, origin_of};
ghost use Rattle.trio_shared.specs.inner.Found.{Same};

use std::marker::Model;
use trio_ctl::{Ctl, PlainDesk};
use trio_desk::Desk;
use trio_lease::Bundle;
use trio_page::NoMemory;
use trio_rights::{Creds, LibNo};
use trio_turn::Logged;

/// The controller in its slot, which began with an image that was kept.
#[derive(Drop)]
pub struct Held {
    pub(crate) ctl: Ctl,
}

impl Model for Held {
    ghost use Rattle.trio_state.specs.Kept.{Kept};
    ghost use Rattle.trio_state.specs.Run.{start};
    ghost use Rattle.trio_ctl.specs.Ctl.{Controller};

    ghost Value = { Controller };

    ghost view = { λ h. h.ctl };

    ghost invariant = { λ h. Kept (start h.ctl.first h.ctl.state.creds) };
}

impl Logged for Held {
    ghost use Rattle.trio_shared.specs.Begun.{marked};
    ghost use Rattle.trio_shared.specs.Left.{origin_of};

    ghost first = { origin_of };

    ghost log = { λ h. h.log };

    ghost begun = { marked };

    fn len(&self) -> u64 {
        self.ctl.log().len()
    }
}

impl Held {
    // a controller that has done nothing yet
    pub(crate) fn of(ctl: Ctl) -> Held
        requires { Kept (start ctl.first ctl.state.creds) }
        ensures { result ≡ ctl }
    {
        Held { ctl }
    }

    pub(crate) fn into_ctl(self) -> Ctl
        ensures { result ≡ self }
    {
        let Held { ctl } = self;
        ctl
    }

    // its log leaves its state; nothing is done
    pub(crate) fn is_left(&self)
        ensures { Leaves (origin_of self.now) self.now.log self.now.state }
    {
        self.ctl.is_recorded();
    }

    pub(crate) fn creds(&mut self, lib: LibNo) -> Creds
        requires library { IsLibrary lib self.old.state }
        requires idle { IsIdle self.old lib.0 }
        ensures creds { result ≡ creds_of self.old.state lib.0 }
        ensures same { self.new ≡ self.old }
    {
        let desk = PlainDesk::of(&mut self.ctl, lib);
        desk.creds()
    }

    pub(crate) fn make_room(&mut self, entries: u64, bytes: u64) -> Result<(), NoMemory>
        ensures same { Same self.old self.new }
    {
        self.ctl.make_room(entries, bytes)
    }

    pub(crate) fn belongs(&self, lib: LibNo, bundle: &Bundle) -> bool
        requires library { IsLibrary lib self.now.state }
        ensures exactly { IsTrue result ↔ Belongs self.now.state lib.0 bundle.now }
    {
        self.ctl.belongs(lib, bundle)
    }

    pub(crate) fn room(&self, bundle: &Bundle) -> u64
        requires { (lib : ℕ) × Belongs self.now.state lib bundle.now }
        ensures { result ≡ room_for self.now.state.home.core (bundle_in bundle.now) }
    {
        self.ctl.room(bundle)
    }
}
