//! The controller that libraries share.

ghost use Rattle.std.specs.Prelude.{◌≡◌, ◌⊎◌, ◌↔◌, ⊤, ℕ, ◌≤◌, [], length, Some, None, IfOk, IfErr, IsOk, IsTrue};
ghost use mathlib.Core.List.{IsPrefix};
ghost use Rattle.trio_desk.specs.Call.{Allot, Done as GivenBack, GiveBack, Grant, Release, SeenAfter, SetMode, Settle, TellsClosed, TellsHolder, allot_told, call_back, lease_told, mode_told, release_told, settle_told};
ghost use Rattle.trio_desk.specs.Out.{HasWanted, IsFreshAllotment, IsFreshLease, WasGiven, kind_lent, parcel_of};
ghost use Rattle.trio_desk.specs.Ready.{AreLent, Ready, TellsChmod};
ghost use Rattle.trio_desk.specs.Refusals.{TellsCause, TellsLack};
ghost use Rattle.trio_lists.specs.Lists.{In};
ghost use Rattle.trio_state.specs.State.{IsLibrary, State};
ghost use Rattle.trio_lease.specs.Views.{bundle_in};
ghost use Rattle.trio_ctl.specs.Belonging.{Belongs};
ghost use Rattle.trio_ctl.specs.Room.{room_for};
ghost use Rattle.trio_ctl.specs.Ctl.{Controller, NoneBegun};
ghost use Rattle.trio_desk.specs.Contents.{AreWithinLimits};
ghost use Rattle.trio_turn.specs.Logs.{IsInLine, made_by};
ghost use Rattle.trio_turn.specs.Seats.{EverySeat, IsSameSeat, OfEach, begun, cell_of, first, has, library, mine, seen};
ghost use Rattle.trio_turn.specs.declared.seat.LibSeat.{LibSeat};
ghost use Rattle.trio_shared.specs.Left.{Leaves, origin_of};
ghost use Rattle.trio_shared.specs.Seats.{AllStart, IsIdle, IsSeatOf, cell, desk, library_count, library_of, out, seated};
ghost use Rattle.trio_shared.specs.Standing.{TellsHolding};
ghost use Rattle.trio_shared.specs.Turns.{BelongsTo, Calls, Looks};
ghost use Rattle.trio_shared.specs.declared.held.Held.{Held};
ghost use Rattle.trio_shared.specs.inner.Found.{Found, Grows};
ghost use Rattle.trio_shared.specs.Begun.{marked};

use crate::cell::Shared;
use crate::held::Held;
use std::alloc::Global;
use std::sync::Wait;
use trio_ctl::Ctl;
use trio_ctl::desk_laws::lent_is_marked;
use trio_lease::{Allotted, Bundle, Lease, ReadLease};
use trio_nodes::{
    AllotFault, Call, Done, GrantFault, GrantKind, ModeFault, ReleaseAnswer, ReleaseFault,
};
use trio_page::{NoMemory, Reads};
use trio_rights::{Creds, LibNo};
use trio_turn::Turn;

/// The seat of a library at the shared controller.
///
/// Contracts see its library, what the controller began from, the entries that it has seen, and the
/// release that its library has begun and not ended (`Seated`); and from these what its library has
/// out and what is seen of the library's desk (`specs/Seats.antt`).
pub type LibSeat = trio_turn::LibSeat<Held>;

// the credentials of all libraries
fn all_creds(alloc: Global, held: &mut Held, n: u32) -> Result<Vec<Creds>, NoMemory>
    requires libraries { n ≡ length held.old.state.creds }
    requires idle { NoneBegun held.old }
    ensures same { held.new ≡ held.old }
    ensures all { IfOk result (λ libs. libs.items ≡ held.old.state.creds) }
{
    let mut libs = Vec::with_capacity(alloc, n as usize)?;
    for k in 0..n {
        libs.push(held.creds(LibNo(k + 1)))?;
    }
    Ok(libs)
}

impl Shared {
    /// The controller of `n` libraries, which has done nothing yet, with a seat for each of them, that of
    /// library 1 first.
    ///
    /// `NoMemory`: the controller comes back. No other call takes memory but what the controller's own
    /// call takes.
    pub fn start(alloc: Global, ctl: Ctl, n: u32) -> Result<(Shared, Vec<LibSeat>), (Ctl, NoMemory)>
        requires libraries { n ≡ length ctl.state.creds }
        requires some { 1 ≤ n }
        requires few { n ≤ 16 }
        requires empty { ctl.log ≡ [] }
        requires idle { NoneBegun ctl }
        ensures libraries { IfOk result (λ r. (library_count r.0 ≡ n) × (length r.1.items ≡ n)) }
        ensures seats { IfOk result (λ r. AllStart r.0 (origin_of ctl) r.1.items) }
        ensures back { IfErr result (λ back. back.0 ≡ ctl) }
    {
        ctl.is_recorded();
        ctl.is_within_limits();
        let mut held = Held::of(ctl);
        let Ok(libs) = all_creds(alloc, &mut held, n) else {
            return Err((held.into_ctl(), NoMemory));
        };
        match Turn::start(alloc, held, n) {
            Ok((turn, seats)) => Ok((Shared { turn, libs }, seats)),
            Err((held, none)) => Err((held.into_ctl(), none)),
        }
    }

    /// The credentials of the seat's library. It takes no turn.
    pub fn creds(&self, seat: &LibSeat) -> Creds
        requires seat { IsSeatOf self.now seat.now }
        ensures creds { result ≡ (desk seat.now).creds }
        ensures limits { AreWithinLimits (desk seat.now).sizes }
    {
        self.libs[(seat.library().0 - 1) as usize]
    }

    // The controller, once it is the seat's turn.
    pub(crate) fn enter<R: Wait>(&self, rt: &R, seat: &mut LibSeat) -> Held
        requires seat { IsSeatOf self.now seat.old }
        ensures same { IsSameSeat seat.old seat.new }
        ensures kept { (seen seat.new ≡ seen seat.old) × (begun seat.new ≡ begun seat.old) }
        ensures has { has seat.new ≡ Some result }
        ensures found { Found (seated seat.old) result }
    {
        let held = self.turn.take(rt, seat);
        held.is_left();
        held
    }

    // Ends the turn of a seat, which made no entries but its library's own.
    pub(crate) fn leave(&self, seat: &mut LibSeat, held: Held)
        requires cell { cell_of seat.old ≡ cell self.now }
        requires grew { (x : Controller) × (has seat.old ≡ Some x) × Grows (library_of seat.old) x held }
        ensures same { IsSameSeat seat.old seat.new }
        ensures seen { seen seat.new ≡ held.log }
        ensures begun { begun seat.new ≡ marked held (library seat.old) }
        ensures given { has seat.new ≡ None }
        ensures left { Leaves (origin_of held) held.log held.state }
    {
        held.is_left();
        self.turn.give(seat, held);
    }

    /// Grants a live file to the seat's library, as [`Ctl::grant`] does.
    pub fn grant<R: Wait>(
        &self,
        rt: &R,
        seat: &mut LibSeat,
        ino: u32,
        kind: GrantKind,
    ) -> Result<Lease, GrantFault>
        requires seat { IsSeatOf self.now seat.old }
        requires idle { IsIdle seat.old }
        ensures seat { IsSeatOf self.now seat.new × IsSameSeat seat.old seat.new }
        ensures idle { IsIdle seat.new }
        ensures called { Calls (seated seat.old) (Grant ino kind) (lease_told result) (seated seat.new) }
        ensures seen { SeenAfter (desk seat.old) (Grant ino kind) (lease_told result) (desk seat.new) }
        ensures holder { TellsHolder (library_of seat.old) (out seat.old) (Grant ino kind) (lease_told result) }
        ensures cause { TellsCause (desk seat.old) (Grant ino kind) (lease_told result) }
        ensures lease { IfOk result (IsFreshLease (library_of seat.old) ino (desk seat.old).sizes (out seat.old)) }
        ensures kind { IfOk result (λ lease. kind_lent lease ≡ kind) }
        ensures busy { TellsHolding (first seat.new) (seen seat.new) (library_of seat.old) (Grant ino kind) (lease_told result) }
    {
        let mut held = self.enter(rt, seat);
        let answer = held.grant(seat.library(), ino, kind);
        self.leave(seat, held);
        answer
    }

    /// Allots pages and inode numbers to the seat's library, as [`Ctl::allot`] does.
    pub fn allot<R: Wait>(
        &self,
        rt: &R,
        seat: &mut LibSeat,
        pages: u32,
        inodes: u32,
    ) -> Result<Allotted, AllotFault>
        requires seat { IsSeatOf self.now seat.old }
        requires idle { IsIdle seat.old }
        ensures seat { IsSeatOf self.now seat.new × IsSameSeat seat.old seat.new }
        ensures idle { IsIdle seat.new }
        ensures called { Calls (seated seat.old) (Allot pages inodes) (allot_told result) (seated seat.new) }
        ensures seen { SeenAfter (desk seat.old) (Allot pages inodes) (allot_told result) (desk seat.new) }
        ensures fresh { IfOk result (IsFreshAllotment (library_of seat.old) (desk seat.old).sizes (out seat.old)) }
        ensures wanted { IfOk result (HasWanted pages inodes) }
        ensures lack { TellsLack (Allot pages inodes) (allot_told result) }
    {
        let mut held = self.enter(rt, seat);
        let answer = held.allot(seat.library(), pages, inodes);
        self.leave(seat, held);
        answer
    }

    /// Ends the read grant of a lease that the seat's library has out, as [`Ctl::give_back`] does. Takes
    /// no memory.
    pub fn give_back<R: Wait>(&self, rt: &R, seat: &mut LibSeat, lease: ReadLease)
        requires seat { IsSeatOf self.now seat.old }
        requires idle { IsIdle seat.old }
        requires lent { In lease (out seat.old).reads }
        ensures seat { IsSeatOf self.now seat.new × IsSameSeat seat.old seat.new }
        ensures idle { IsIdle seat.new }
        ensures called { Calls (seated seat.old) (GiveBack lease) GivenBack (seated seat.new) }
        ensures seen { SeenAfter (desk seat.old) (GiveBack lease) GivenBack (desk seat.new) }
    {
        let mut held = self.enter(rt, seat);
        held.give_back(seat.library(), lease);
        self.leave(seat, held);
    }

    /// Judges what the seat's library hands in, all of which it has out, as [`Ctl::release`] does: by a
    /// turn that takes it in ([`begin`](Self::begin)), the judging, during which others may have their
    /// turns, and a turn that ends it ([`finish`](Self::finish)). With a fault the bundle comes back.
    pub fn release<R: Wait>(
        &self,
        rt: &R,
        seat: &mut LibSeat,
        bundle: Bundle,
        reads: &mut Reads,
    ) -> Result<ReleaseAnswer, (Bundle, ReleaseFault)>
        requires seat { IsSeatOf self.now seat.old }
        requires idle { IsIdle seat.old }
        requires given { WasGiven (out seat.old) (parcel_of bundle) }
        ensures seat { IsSeatOf self.now seat.new × IsSameSeat seat.old seat.new }
        ensures idle { IsIdle seat.new }
        ensures called { Calls (seated seat.old) (Release (parcel_of bundle)) (release_told result (λ back. back.1)) (seated seat.new) }
        ensures seen { SeenAfter (desk seat.old) (Release (parcel_of bundle)) (release_told result (λ back. back.1)) (desk seat.new) }
        ensures closed { TellsClosed (out seat.old) (parcel_of bundle) (release_told result (λ back. back.1)) }
        ensures back { IfErr result (λ back. back.0 ≡ bundle) }
    {
        bundle.keeps_untouched();
        lent_is_marked();
        match self.begin(rt, seat, bundle) {
            Ok(pending) => Ok(self.end_here(rt, seat, pending, reads)),
            Err(back) => Err(back),
        }
    }

    /// Takes all that the seat's library has out, and the calls that come to what it shows, as
    /// [`Ctl::settle`] does. `NoMemory`: nothing changed, and all of it comes back.
    pub fn settle<R: Wait>(
        &self,
        rt: &R,
        seat: &mut LibSeat,
        bundle: Bundle,
        back: Vec<ReadLease>,
        calls: Vec<Done>,
    ) -> Result<(), (Bundle, Vec<ReadLease>, Vec<Done>, NoMemory)>
        requires seat { IsSeatOf self.now seat.old }
        requires idle { IsIdle seat.old }
        requires ready { Ready (desk seat.old) (parcel_of bundle) back.items calls.items }
        ensures seat { IsSeatOf self.now seat.new × IsSameSeat seat.old seat.new }
        ensures idle { IsIdle seat.new }
        ensures called { Calls (seated seat.old) (Settle (parcel_of bundle) back.items calls.items) (settle_told result) (seated seat.new) }
        ensures seen { SeenAfter (desk seat.old) (Settle (parcel_of bundle) back.items calls.items) (settle_told result) (desk seat.new) }
        ensures bundle { IfErr result (λ came. came.0 ≡ bundle) }
        ensures leases { IfErr result (λ came. came.1 ≡ back) }
        ensures calls { IfErr result (λ came. came.2 ≡ calls) }
    {
        let mut held = self.enter(rt, seat);
        let answer = held.settle(seat.library(), bundle, back, calls);
        self.leave(seat, held);
        answer
    }

    /// Changes the mode of a file and gives the read leases back that are handed in, as
    /// [`Ctl::set_mode`] does. After a fault the leases come back, and so does the call after `Busy` and
    /// `NoMemory`.
    pub fn set_mode<R: Wait>(
        &self,
        rt: &R,
        seat: &mut LibSeat,
        ino: u32,
        mode: u16,
        back: Vec<ReadLease>,
        call: Option<Call>,
    ) -> Result<(), (Vec<ReadLease>, Option<Call>, ModeFault)>
        requires seat { IsSeatOf self.now seat.old }
        requires idle { IsIdle seat.old }
        requires lent { AreLent (out seat.old) back.items }
        requires chmod { TellsChmod (desk seat.old) back.items ino mode call }
        ensures seat { IsSeatOf self.now seat.new × IsSameSeat seat.old seat.new }
        ensures idle { IsIdle seat.new }
        ensures called { Calls (seated seat.old) (SetMode ino mode back.items call) (mode_told result (λ came. came.2)) (seated seat.new) }
        ensures seen { SeenAfter (desk seat.old) (SetMode ino mode back.items call) (mode_told result (λ came. came.2)) (desk seat.new) }
        ensures holder { TellsHolder (library_of seat.old) (out seat.old) (SetMode ino mode back.items call) (mode_told result (λ came. came.2)) }
        ensures cause { TellsCause (desk seat.old) (SetMode ino mode back.items call) (mode_told result (λ came. came.2)) }
        ensures busy { TellsHolding (first seat.new) (seen seat.new) (library_of seat.old) (SetMode ino mode back.items call) (mode_told result (λ came. came.2)) }
        ensures leases { IfErr result (λ came. came.0 ≡ back) }
        ensures call { IfErr result (λ came. came.1 ≡ call_back call came.2) }
    {
        let mut held = self.enter(rt, seat);
        let answer = held.set_mode(seat.library(), ino, mode, back, call);
        self.leave(seat, held);
        answer
    }

    /// Makes room for so many entries and so many bytes, as [`Ctl::make_room`] does. What is spare is the
    /// controller's for all seats together, and no contract of a seat sees it.
    pub fn make_room<R: Wait>(
        &self,
        rt: &R,
        seat: &mut LibSeat,
        entries: u64,
        bytes: u64,
    ) -> Result<(), NoMemory>
        requires seat { IsSeatOf self.now seat.old }
        requires idle { IsIdle seat.old }
        ensures seat { IsSeatOf self.now seat.new × IsSameSeat seat.old seat.new }
        ensures idle { IsIdle seat.new }
        ensures looked { Looks (seated seat.old) (λ s. ⊤) (seated seat.new) }
        ensures seen { desk seat.new ≡ desk seat.old }
    {
        let mut held = self.enter(rt, seat);
        let answer = held.make_room(entries, bytes);
        self.leave(seat, held);
        answer
    }

    /// Whether all of a bundle was given to the seat's library and is out, each thing once, as
    /// [`Ctl::belongs`] tells. Takes no memory.
    pub fn belongs<R: Wait>(&self, rt: &R, seat: &mut LibSeat, bundle: &Bundle) -> bool
        requires seat { IsSeatOf self.now seat.old }
        requires idle { IsIdle seat.old }
        ensures seat { IsSeatOf self.now seat.new × IsSameSeat seat.old seat.new }
        ensures idle { IsIdle seat.new }
        ensures looked { Looks (seated seat.old) (λ s. IsTrue result ↔ Belongs s (library_of seat.old).0 bundle.now) (seated seat.new) }
        ensures seen { desk seat.new ≡ desk seat.old }
    {
        let held = self.enter(rt, seat);
        let answer = held.belongs(seat.library(), bundle);
        self.leave(seat, held);
        answer
    }

    /// What one release of a bundle needs at most, in bytes, as [`Ctl::room`] tells. The bundle belongs to
    /// the seat's library ([`belongs`](Self::belongs)). Takes no memory.
    pub fn room<R: Wait>(&self, rt: &R, seat: &mut LibSeat, bundle: &Bundle) -> u64
        requires seat { IsSeatOf self.now seat.old }
        requires idle { IsIdle seat.old }
        requires belongs { BelongsTo (seated seat.old) bundle.now }
        ensures seat { IsSeatOf self.now seat.new × IsSameSeat seat.old seat.new }
        ensures idle { IsIdle seat.new }
        ensures looked { Looks (seated seat.old) (λ s. ⊤) (seated seat.new) }
        ensures seen { desk seat.new ≡ desk seat.old }
        ensures room { result ≡ room_for (first seat.old).image.core (bundle_in bundle.now) }
    {
        let held = self.enter(rt, seat);
        let answer = held.room(bundle);
        self.leave(seat, held);
        answer
    }

    /// Lets `a` see what `b` has seen; what `b` has seen stays. One of the two had seen all that the other
    /// had.
    pub fn meet(&self, a: &mut LibSeat, b: &mut LibSeat)
        requires a { IsSeatOf self.now a.old }
        requires b { IsSeatOf self.now b.old }
        ensures a { IsSeatOf self.now a.new × IsSameSeat a.old a.new }
        ensures own { (mine a.new ≡ mine a.old) × (begun a.new ≡ begun a.old) }
        ensures one { (seen a.new ≡ seen a.old) ⊎ (seen a.new ≡ seen b.old) }
        ensures saw { IsPrefix (seen a.old) (seen a.new) × IsPrefix (seen b.old) (seen a.new) }
        ensures in_line { IsInLine (seen a.old) (seen b.old) }
        ensures b { IsSeatOf self.now b.new × IsSameSeat b.old b.new }
        ensures stays { (seen b.new ≡ seen b.old) × (begun b.new ≡ begun b.old) }
        ensures desk { (s : State) → Leaves (first a.new) (seen a.new) s → desk a.new ≡ desk a.old }
    {
        self.turn.meet(a, b);
    }

    /// The controller, once the seat of every library has come back. It needs no memory.
    ///
    /// Its log begins with what each seat has seen, and has of each library just the entries that its
    /// seat has seen, and none of a number that is no library's.
    pub fn close(self, seats: Vec<LibSeat>) -> Result<Ctl, (Shared, Vec<LibSeat>, NoMemory)>
        requires seats { OfEach (IsSeatOf self) seats.items }
        requires every { EverySeat (library_count self) seats.items }
        ensures seen { IfOk result (λ ctl. OfEach (λ s. IsPrefix (seen s) ctl.log) seats.items) }
        ensures mine { IfOk result (λ ctl. OfEach (λ s. made_by (library s) ctl.log ≡ mine s) seats.items) }
        ensures first { IfOk result (λ ctl. OfEach (λ s. origin_of ctl ≡ first s) seats.items) }
        ensures begun { IfOk result (λ ctl. OfEach (λ s. marked ctl (library s) ≡ begun s) seats.items) }
        ensures left { IfOk result (λ ctl. Leaves (origin_of ctl) ctl.log ctl.state) }
        ensures no_other { IfOk result (λ ctl. (l : ℕ) → (IsLibrary ctl.state.creds l → ⊥) → made_by l ctl.log ≡ []) }
        ensures memory { IsOk result }
    {
        let Shared { turn, libs } = self;
        match turn.close(seats) {
            Ok(held) => {
                held.is_left();
                Ok(held.into_ctl())
            }
            Err((turn, seats, none)) => Err((Shared { turn, libs }, seats, none)),
        }
    }
}
