//! A release in two moves, on the controller that is had in its turn.

ghost use Rattle.std.specs.Prelude.{◌≡◌, IfErr, IfOk, MatchResult};
ghost use Rattle.trio_desk.specs.Out.{WasGiven, parcel_of};
ghost use Rattle.trio_case.specs.Cases.{case_in as case_shown};
ghost use Rattle.trio_lease.specs.Views.{bundle_in};
ghost use Rattle.trio_state.specs.Moves.{Acts, Begin, IsAwaited, KeptUnderway};
ghost use Rattle.trio_ctl.specs.Answers.{begin_answer};
ghost use Rattle.trio_ctl.specs.Ctl.{IsIdle, IsLibrary, underway_of};
ghost use Rattle.trio_ctl.specs.Desk.{desk_of};
ghost use Rattle.trio_entries.specs.Handed.{handed_in};
ghost use Rattle.trio_ctl.specs.HandedIn.{AreMarked};
ghost use Rattle.trio_ctl.specs.Pending.{case_made};
ghost use Rattle.trio_turn.specs.Seats.{IsSameSeat, begun};
ghost use Rattle.trio_shared.specs.Moves.{Ends, IsNotAwaited, MayEnd, TellsBeginning, TellsWhetherClosed, mark_at};
ghost use Rattle.trio_shared.specs.Seats.{IsIdle as SitsIdle, IsSeatOf, desk, library_of, out, seated};
ghost use Rattle.trio_shared.specs.Turns.{Looks};
ghost use Rattle.trio_shared.specs.inner.Found.{EndsHere};
ghost use Rattle.trio_shared.specs.inner.Underway.{HasBegun};

use crate::cell::Shared;
use crate::held::Held;
use crate::shared::LibSeat;
use std::sync::Wait;
use trio_ctl::{Judged, Pending};
use trio_lease::Bundle;
use trio_nodes::{ReleaseAnswer, ReleaseFault};
use trio_page::Reads;
use trio_rights::LibNo;

impl Held {
    pub(crate) fn begin(
        &mut self,
        lib: LibNo,
        bundle: Bundle,
    ) -> Result<Pending, (Bundle, ReleaseFault)>
        requires library { IsLibrary lib self.old.state }
        requires idle { IsIdle self.old lib.0 }
        requires given { WasGiven (desk_of self.old.state lib).out (parcel_of bundle) }
        ensures acts { Acts (underway_of self.old) (Begin lib.0 (bundle_in bundle)) (begin_answer result (λ back. back.1)) (underway_of self.new) }
        ensures pending { IfOk result (λ p. p ≡ case_made self.old.state lib bundle) }
        ensures rest { self.new ≡ record self.old { begun = self.new.begun; spare = self.new.spare } }
        ensures closed { TellsWhetherClosed (desk_of self.old.state lib).out (parcel_of bundle) result (λ back. back.1) }
        ensures back { IfErr result (λ back. back.0 ≡ bundle) }
        ensures was_kept { KeptUnderway (underway_of self.old) }
    {
        self.ctl.is_as_told();
        self.ctl.begin(lib, bundle)
    }

    // ends a release of the library that is awaited; any other comes back
    pub(crate) fn finish(
        &mut self,
        lib: LibNo,
        judged: Judged,
        reads: &mut Reads,
    ) -> Result<ReleaseAnswer, Judged>
        requires marked { judged.case.lib ≡ lib → AreMarked self.old.state lib.0 (handed_in judged.case.bundle) }
        ensures ends { IfOk result (λ answer. EndsHere self.old lib judged.case answer self.new) }
        ensures back { IfErr result (λ back. back ≡ judged) }
        ensures same { IfErr result (λ back. self.new ≡ self.old) }
        ensures exactly { IfErr result (λ back. judged.case.lib ≡ lib → IsAwaited (underway_of self.old) lib.0 (case_shown judged.case) → ⊥) }
    {
        judged.is_weighed();
        if judged.lib() != lib {
            return Err(judged);
        }
        if !self.ctl.awaits(&judged) {
            return Err(judged);
        }
        Ok(self.ctl.finish(judged, reads))
    }
}

impl Shared {
    /// The beginning of a release: takes in what the seat's library hands in, all of which it has out, as
    /// [`Ctl::begin`](trio_ctl::Ctl::begin) does. After `Ok` the library makes no call until it has ended
    /// ([`finish`](Self::finish)); others go on meanwhile. With a fault the bundle comes back.
    pub fn begin<R: Wait>(
        &self,
        rt: &R,
        seat: &mut LibSeat,
        bundle: Bundle,
    ) -> Result<Pending, (Bundle, ReleaseFault)>
        requires seat { IsSeatOf self.now seat.old }
        requires idle { SitsIdle seat.old }
        requires given { WasGiven (out seat.old) (parcel_of bundle) }
        ensures seat { IsSeatOf self.now seat.new × IsSameSeat seat.old seat.new }
        ensures looked { Looks (seated seat.old) (λ s. TellsBeginning s (library_of seat.old) bundle result (λ back. back.1)) (seated seat.new) }
        ensures seen { desk seat.new ≡ desk seat.old }
        ensures begun { MatchResult result (λ p. begun seat.new ≡ mark_at (seated seat.old) bundle) (λ back. SitsIdle seat.new) }
        ensures closed { TellsWhetherClosed (out seat.old) (parcel_of bundle) result (λ back. back.1) }
        ensures back { IfErr result (λ back. back.0 ≡ bundle) }
    {
        let mut held = self.enter(rt, seat);
        let answer = held.begin(seat.library(), bundle);
        self.leave(seat, held);
        answer
    }

    /// The end of a release of the seat's library that has begun, as
    /// [`Ctl::finish`](trio_ctl::Ctl::finish) does. It takes no memory.
    ///
    /// The value comes back exactly where it is no release of this library, or not the one that has begun,
    /// or what it was judged by beside its bundle is no longer so. Then nothing has changed.
    pub fn finish<R: Wait>(
        &self,
        rt: &R,
        seat: &mut LibSeat,
        judged: Judged,
        reads: &mut Reads,
    ) -> Result<ReleaseAnswer, Judged>
        requires seat { IsSeatOf self.now seat.old }
        requires marked { judged.case.lib ≡ library_of seat.old → MayEnd (seated seat.old) judged.case }
        ensures seat { IsSeatOf self.now seat.new × IsSameSeat seat.old seat.new }
        ensures ends { IfOk result (λ answer. Ends (seated seat.old) judged.case answer (seated seat.new)) }
        ensures idle { IfOk result (λ answer. SitsIdle seat.new) }
        ensures back { IfErr result (λ back. back ≡ judged) }
        ensures looked { IfErr result (λ back. Looks (seated seat.old) (IsNotAwaited (seated seat.old) judged.case) (seated seat.new)) }
        ensures seen { IfErr result (λ back. desk seat.new ≡ desk seat.old) }
        ensures begun { IfErr result (λ back. begun seat.new ≡ begun seat.old) }
    {
        let mut held = self.enter(rt, seat);
        let answer = held.finish(seat.library(), judged, reads);
        self.leave(seat, held);
        answer
    }

    // Judges a release that the seat's library has begun, with no turn, and ends it in one.
    pub(crate) fn end_here<R: Wait>(
        &self,
        rt: &R,
        seat: &mut LibSeat,
        pending: Pending,
        reads: &mut Reads,
    ) -> ReleaseAnswer
        requires seat { IsSeatOf self.now seat.old }
        requires begun { HasBegun (seated seat.old) pending }
        requires marked { MayEnd (seated seat.old) pending }
        ensures seat { IsSeatOf self.now seat.new × IsSameSeat seat.old seat.new }
        ensures ends { Ends (seated seat.old) pending result (seated seat.new) }
        ensures idle { SitsIdle seat.new }
    {
        let judged = pending.weigh(reads);
        match self.finish(rt, seat, judged, reads) {
            Ok(answer) => answer,
            Err(_) => unreachable!(),
        }
    }
}
