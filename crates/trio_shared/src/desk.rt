//! The desk of a seat.

ghost use Rattle.std.specs.Prelude.{◌≡◌};
ghost use Rattle.trio_shared.specs.Seats.{IsIdle, IsSeatOf, desk, seated};
ghost use Rattle.trio_shared.specs.Turns.{Calls};

use crate::cell::Shared;
use crate::shared::LibSeat;
use std::sync::Wait;
use trio_desk::Desk;
use trio_lease::{Allotted, Bundle, Lease, ReadLease};
use trio_nodes::{
    AllotFault, Call, Done, GrantFault, GrantKind, ModeFault, ReleaseAnswer, ReleaseFault,
};
use trio_page::{NoMemory, Reads};
use trio_rights::Creds;

/// The desk of a library over its seat at a shared controller: each of its calls waits for its turn, a
/// release for two, and others may have theirs before.
#[derive(Drop)]
pub struct SeatDesk<'a, R: Wait> {
    /// By what it waits for its turns.
    pub rt: &'a R,
    /// The controller.
    pub shared: &'a Shared,
    /// The library's seat at it.
    pub seat: &'a mut LibSeat,
    pub ghost is_seat: { IsSeatOf shared.now seat.now },
    pub ghost is_idle: { IsIdle seat.now },
}

impl<'a, R: Wait> SeatDesk<'a, R> {
    /// The desk of a seat. When it is let go, the seat is as the desk left it.
    pub fn of(rt: &'a R, shared: &'a Shared, seat: &'a mut LibSeat) -> SeatDesk<'a, R>
        requires seat { IsSeatOf shared.now seat.old }
        requires idle { IsIdle seat.old }
        ensures same_reference { result.seat.ghost_name ≡ seat.entry.ghost_name }
        ensures seat { result.seat.now ≡ seat.old }
        ensures shared { result.shared.now ≡ shared.now }
    {
        SeatDesk { rt, shared, seat }
    }
}

impl<'a, R: Wait> Desk for SeatDesk<'a, R> {
    ghost seen = { λ d. desk d.seat.now };

    ghost called = { λ d ask told d'. Calls (seated d.seat.now) ask told (seated d'.seat.now) × (d'.shared.now ≡ d.shared.now) × (d'.seat.ghost_name ≡ d.seat.ghost_name) };

    fn creds(&self) -> Creds {
        self.shared.creds(self.seat)
    }

    fn grant(&mut self, ino: u32, kind: GrantKind) -> Result<Lease, GrantFault> {
        self.shared.grant(self.rt, self.seat, ino, kind)
    }

    fn allot(&mut self, pages: u32, inodes: u32) -> Result<Allotted, AllotFault> {
        self.shared.allot(self.rt, self.seat, pages, inodes)
    }

    fn give_back(&mut self, lease: ReadLease) {
        self.shared.give_back(self.rt, self.seat, lease);
    }

    fn release(
        &mut self,
        bundle: Bundle,
        reads: &mut Reads,
    ) -> Result<ReleaseAnswer, (Bundle, ReleaseFault)> {
        self.shared.release(self.rt, self.seat, bundle, reads)
    }

    fn settle(
        &mut self,
        bundle: Bundle,
        back: Vec<ReadLease>,
        calls: Vec<Done>,
    ) -> Result<(), (Bundle, Vec<ReadLease>, Vec<Done>, NoMemory)> {
        self.shared.settle(self.rt, self.seat, bundle, back, calls)
    }

    fn set_mode(
        &mut self,
        ino: u32,
        mode: u16,
        back: Vec<ReadLease>,
        call: Option<Call>,
    ) -> Result<(), (Vec<ReadLease>, Option<Call>, ModeFault)> {
        self.shared
            .set_mode(self.rt, self.seat, ino, mode, back, call)
    }
}
