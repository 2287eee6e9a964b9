//! What a grant costs at a seat, beside the same at the controller itself.

ghost use Rattle.std.specs.Prelude.{◌≡◌, [], IfSome, length};
ghost use Rattle.trio_ctl.specs.Ctl.{NoneBegun};
ghost use Rattle.trio_shared.specs.Seats.{IsIdle, IsSeatOf};

use crate::starting::started;
use std::alloc::Global;
use std::io;
use std::rt::Clock;
use std::sync::Wait;
use trio_bench_common::{Times, least, nanos_since, now};
use trio_ctl::{Ctl, PlainDesk};
use trio_desk::Desk;
use trio_lease::Lease;
use trio_nodes::GrantKind;
use trio_rights::{Creds, LibNo};
use trio_samples::files::root;
use trio_samples::regular;
use trio_shared::{LibSeat, SeatDesk, Shared};

/// The fastest of so many rounds counts.
const ROUNDS: u32 = 9;

/// The empty file of the image.
const FILE: u32 = 2;

/// Prints what it costs to be lent an empty file for reading and to give it back, at a seat of a shared
/// controller without others at it and at a controller itself, on average over so many, and the ratio.
/// The rounds of both come in turn, each with a controller of its own, whose log grows by two entries
/// each time.
pub fn measure_seat<R: Wait + Clock + Print + AllocGlobal>(rt: &R, count: u64) -> io::Result<()> {
    match fastest(rt, rt.alloc(), count) {
        Some(times) => println!(rt;
            "seat {} ns, controller {} ns, ratio {}",
            times.first / u128::from(count.max(1)),
            times.second / u128::from(count.max(1)),
            times.ratio()
        ),
        None => println!(rt; "out of memory, or not lent, or no clock"),
    }
}

/// The least times of so many grants at a seat and of as many at the controller.
fn fastest<R: Wait + Clock>(rt: &R, alloc: Global, count: u64) -> Option<Times> {
    let mut times = Some(Times::LONGEST);
    for _ in 0..ROUNDS {
        let at_seat = nanos_of_seat(rt, alloc, count);
        times = least(times, at_seat, nanos_of_ctl(rt, alloc, count));
    }
    times
}

fn nanos_of_seat<R: Wait + Clock>(rt: &R, alloc: Global, count: u64) -> Option<u128> {
    match start_one(alloc) {
        Some((shared, mut seat)) => nanos_sitting(rt, &shared, &mut seat, count),
        None => None,
    }
}

fn nanos_sitting<R: Wait + Clock>(
    rt: &R,
    shared: &Shared,
    seat: &mut LibSeat,
    count: u64,
) -> Option<u128>
    requires { IsSeatOf shared.now seat.old × IsIdle seat.old }
{
    let mut desk = SeatDesk::of(rt, shared, seat);
    nanos_at(rt, &mut desk, count)
}

fn nanos_of_ctl<R: Clock>(rt: &R, alloc: Global, count: u64) -> Option<u128> {
    match one_file(alloc) {
        Some(mut ctl) => nanos_on(rt, &mut ctl, count),
        None => None,
    }
}

fn nanos_on<R: Clock>(rt: &R, ctl: &mut Ctl, count: u64) -> Option<u128>
    requires one { length ctl.old.state.creds ≡ 1 }
    requires idle { NoneBegun ctl.old }
{
    let mut desk = PlainDesk::of(ctl, LibNo(1));
    nanos_at(rt, &mut desk, count)
}

/// The controller of an image with one empty file, for one library of uid 0.
fn one_file(alloc: Global) -> Option<Ctl>
    ensures one { IfSome result (λ ctl. length ctl.state.creds ≡ 1) }
    ensures idle { IfSome result NoneBegun }
    ensures log { IfSome result (λ ctl. ctl.log ≡ []) }
{
    let libs = vec![in alloc; Creds { uid: 0, gid: 0 }].ok()?;
    started(alloc, &[root(), regular(FILE, 1, b"f", b"")], libs)
}

/// A shared controller with the seat of its one library.
fn start_one(alloc: Global) -> Option<(Shared, LibSeat)>
    ensures { IfSome result (λ r. IsSeatOf r.0 r.1 × IsIdle r.1) }
{
    let ctl = one_file(alloc)?;
    let Ok((shared, mut seats)) = Shared::start(alloc, ctl, 1) else {
        return None;
    };
    let Some(seat) = seats.pop() else {
        unreachable!()
    };
    Some((shared, seat))
}

/// The nanoseconds of so many grants, each given back. `None` where one isn't granted.
fn nanos_at<R: Clock, D: Desk>(rt: &R, desk: &mut D, count: u64) -> Option<u128> {
    let start = now(rt);
    for _ in 0..count {
        if !lend_once(desk) {
            return None;
        }
    }
    nanos_since(rt, start)
}

/// Asks for the file for reading, and gives it back. Returns whether it was lent.
fn lend_once<D: Desk>(desk: &mut D) -> bool {
    match desk.grant(FILE, GrantKind::Read) {
        Ok(Lease::Read(lease)) => {
            desk.give_back(lease);
            true
        }
        Ok(lease) => {
            lease.discard();
            false
        }
        Err(_) => false,
    }
}
