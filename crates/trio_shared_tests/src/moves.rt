//! A release in two moves, between which another seat makes a call.

ghost use Rattle.std.specs.Prelude.{◌≡◌, ◌∷◌, [], IfSome};
ghost use Rattle.trio_desk.specs.Out.{WasGiven, parcel_of};
ghost use Rattle.trio_shared.specs.Moves.{MayEnd};
ghost use Rattle.trio_shared.specs.Seats.{IsSeatOf, out, seated};
ghost use Rattle.trio_turn.specs.Seats.{library};
ghost use Rattle.trio_shared_tests.specs.Sits.{IsBack, IsNew, Sits, SitsOn};

use crate::scenes::{Scene, goes_well};
use std::alloc::Global;
use std::sync::Wait;
use std::test::Fail;
use trio_ctl::Pending;
use trio_ctl::desk_laws::lent_is_marked;
use trio_lease::{Bundle, Lease, WriteLease};
use trio_nodes::{GrantKind, ReleaseAnswer};
use trio_page::Reads;
use trio_shared::{LibSeat, Shared, desk_is_left};

// A lease alone, as a bundle.
fn bundled(alloc: Global, lease: WriteLease) -> Option<Bundle>
    ensures { IfSome result (λ b. parcel_of b ≡ record { writes = lease ∷ []; holds = []; pages = []; inodes = [] }) }
{
    let mut bundle = Bundle::new(alloc);
    match bundle.add_write(lease) {
        Ok(()) => Some(bundle),
        Err((lease, _)) => {
            lease.discard();
            bundle.discard();
            None
        }
    }
}

// The file 3, lent to a library for writing, as a bundle.
fn taken<R: Wait>(rt: &R, alloc: Global, shared: &Shared, seat: &mut LibSeat) -> Option<Bundle>
    requires { Sits shared.now seat.old }
    ensures on { SitsOn shared.now seat.old seat.new }
    ensures given { IfSome result (λ b. WasGiven (out seat.new) (parcel_of b)) }
{
    match shared.grant(rt, seat, 3, GrantKind::Write) {
        Ok(Lease::Write(lease)) => bundled(alloc, lease),
        Ok(lease) => {
            lease.discard();
            None
        }
        Err(_) => None,
    }
}

/// Its release, which the library has begun.
pub fn begun<R: Wait>(rt: &R, alloc: Global, shared: &Shared, seat: &mut LibSeat) -> Option<Pending>
    requires { Sits shared.now seat.old }
    ensures seat { IsSeatOf shared.now seat.new }
    ensures same { library seat.new ≡ library seat.old }
    ensures may { IfSome result (λ p. MayEnd (seated seat.new) p) }
{
    let bundle = taken(rt, alloc, shared, seat)?;
    begins(rt, shared, seat, bundle)
}

// The library begins to release what it was given.
fn begins<R: Wait>(rt: &R, shared: &Shared, seat: &mut LibSeat, bundle: Bundle) -> Option<Pending>
    requires sits { Sits shared.now seat.old }
    requires given { WasGiven (out seat.old) (parcel_of bundle) }
    ensures seat { IsSeatOf shared.now seat.new }
    ensures same { library seat.new ≡ library seat.old }
    ensures may { IfSome result (λ p. MayEnd (seated seat.new) p) }
{
    desk_is_left();
    lent_is_marked();
    bundle.keeps_untouched();
    match shared.begin(rt, seat, bundle) {
        Ok(pending) => Some(pending),
        Err((bundle, _)) => {
            bundle.discard();
            None
        }
    }
}

// What the library is told at its end.
fn ended<R: Wait>(
    rt: &R,
    shared: &Shared,
    seat: &mut LibSeat,
    pending: Pending,
) -> Option<ReleaseAnswer>
    requires seat { IsSeatOf shared.now seat.old }
    requires may { MayEnd (seated seat.old) pending }
    ensures sits { IfSome result (λ answer. Sits shared.now seat.new) }
    ensures seat { IsSeatOf shared.now seat.new }
    ensures same { library seat.new ≡ library seat.old }
{
    let judged = pending.weigh(&mut Reads::new());
    shared.finish(rt, seat, judged, &mut Reads::new()).ok()
}

// Whether a library is lent the file 4 for reading.
fn is_lent<R: Wait>(rt: &R, shared: &Shared, seat: &mut LibSeat) -> bool
    requires { Sits shared.now seat.old }
    ensures { SitsOn shared.now seat.old seat.new }
{
    match shared.grant(rt, seat, 4, GrantKind::Read) {
        Ok(lease) => {
            let is_read = matches!(&lease, Lease::Read(lease) if lease.ino() == 4);
            lease.discard();
            is_read
        }
        Err(_) => false,
    }
}

// Whether the library of the second seat is lent a file between the beginning and the end of a release
// of that of the first, and the release is accepted.
fn is_between<R: Wait>(
    rt: &R,
    alloc: Global,
    shared: &Shared,
    first: &mut LibSeat,
    second: &mut LibSeat,
) -> Option<bool>
    requires first { Sits shared.now first.old }
    requires second { Sits shared.now second.old }
    ensures first { IsSeatOf shared.now first.new × (library first.new ≡ library first.old) }
    ensures second { SitsOn shared.now second.old second.new }
{
    let pending = begun(rt, alloc, shared, first)?;
    let is_lent = is_lent(rt, shared, second);
    let answer = ended(rt, shared, first, pending)?;
    Some(is_lent && answer == ReleaseAnswer::Accepted)
}

/// Whether a call of the second library comes between the two moves of a release of the first.
pub fn moves_go_well<R: Wait>(
    rt: &R,
    alloc: Global,
    shared: &Shared,
    first: &mut LibSeat,
    second: &mut LibSeat,
) -> bool
    requires first { IsNew shared.now 1 first.old }
    requires second { IsNew shared.now 2 second.old }
    ensures first { IsBack shared.now 1 first.new }
    ensures second { IsBack shared.now 2 second.new }
{
    is_between(rt, alloc, shared, first, second) == Some(true)
}

/// Library 2 is lent `/a/g` for reading between the two moves of library 1's release of `/a/f`: the log has
/// its entry between those of library 1.
#[test]
fn a_call_comes_between_the_moves(rt: HostRuntime) -> Result<(), Fail> {
    assert!(rt; goes_well(&rt, rt.alloc(), Scene::TwoMoves) == Some(true));
    Ok(())
}
