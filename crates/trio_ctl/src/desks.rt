//! The desk of one library over the controller itself.

ghost use Rattle.std.specs.Prelude.{◌≡◌};
ghost use Rattle.trio_ctl.specs.Ctl.{IsIdle, IsLibrary};
ghost use Rattle.trio_ctl.specs.Desk.{Happens, LogsCall, desk_of};

use crate::ctl::Ctl;
use trio_desk::Desk;
use trio_lease::{Allotted, Bundle, Lease, ReadLease};
use trio_nodes::{
    AllotFault, Call, Done, GrantFault, GrantKind, ModeFault, ReleaseAnswer, ReleaseFault,
};
use trio_page::{NoMemory, Reads};
use trio_rights::{Creds, LibNo};

/// The desk of one library over a controller that nobody else reaches meanwhile: each of its calls is
/// one call of the controller.
#[derive(Drop)]
pub struct PlainDesk<'a> {
    /// The controller.
    pub ctl: &'a mut Ctl,
    /// The library, which is one of the controller's and idle.
    pub lib: LibNo,
    pub ghost is_library: { IsLibrary lib ctl.now.state },
    pub ghost is_idle: { IsIdle ctl.now lib.0 },
}

impl<'a> PlainDesk<'a> {
    /// The desk of a library. When it is let go, the controller is as the desk left it.
    pub fn of(ctl: &'a mut Ctl, lib: LibNo) -> PlainDesk<'a>
        requires library { IsLibrary lib ctl.old.state }
        requires idle { IsIdle ctl.old lib.0 }
        ensures same_reference { result.ctl.ghost_name ≡ ctl.entry.ghost_name }
        ensures ctl { result.ctl.now ≡ ctl.old }
        ensures lib { result.lib ≡ lib }
    {
        PlainDesk { ctl, lib }
    }
}

impl<'a> Desk for PlainDesk<'a> {
    ghost seen = { λ d. desk_of d.ctl.now.state d.lib };

    ghost called = { λ d ask told d'. Happens d.ctl.now.state d.lib ask told d'.ctl.now.state × (d'.ctl.ghost_name ≡ d.ctl.ghost_name) × (d'.lib ≡ d.lib) × LogsCall d.ctl.now d.lib ask told d'.ctl.now };

    fn creds(&self) -> Creds {
        self.ctl.is_within_limits();
        self.ctl.creds(self.lib)
    }

    fn grant(&mut self, ino: u32, kind: GrantKind) -> Result<Lease, GrantFault> {
        self.ctl.is_as_lent();
        self.ctl.grant(self.lib, ino, kind)
    }

    fn allot(&mut self, pages: u32, inodes: u32) -> Result<Allotted, AllotFault> {
        self.ctl.allot(self.lib, pages, inodes)
    }

    fn give_back(&mut self, lease: ReadLease) {
        self.ctl.give_back(lease);
    }

    fn release(
        &mut self,
        bundle: Bundle,
        reads: &mut Reads,
    ) -> Result<ReleaseAnswer, (Bundle, ReleaseFault)> {
        self.ctl.is_as_told();
        self.ctl.is_recorded();
        self.ctl.release(self.lib, bundle, reads)
    }

    fn settle(
        &mut self,
        bundle: Bundle,
        back: Vec<ReadLease>,
        calls: Vec<Done>,
    ) -> Result<(), (Bundle, Vec<ReadLease>, Vec<Done>, NoMemory)> {
        self.ctl.is_recorded();
        self.ctl.settle(self.lib, bundle, back, calls)
    }

    fn set_mode(
        &mut self,
        ino: u32,
        mode: u16,
        back: Vec<ReadLease>,
        call: Option<Call>,
    ) -> Result<(), (Vec<ReadLease>, Option<Call>, ModeFault)> {
        self.ctl.is_as_lent();
        self.ctl.set_mode(self.lib, ino, mode, back, call)
    }
}
