//! What a turn costs without others in it, beside a lock.

ghost use Rattle.std.specs.Prelude.{◌≡◌, None, IfSome};
ghost use Rattle.trio_turn.specs.Seats.{cell, cell_of, has, IsSameSeat};

use std::alloc::Global;
use std::io;
use std::rt::Clock;
use std::sync::{Mutex, Wait};
use trio_bench_common::{Times, least, nanos_since, now};
use trio_turn::{LibSeat, Logged, Turn};

/// The fastest of so many rounds counts.
const ROUNDS: u32 = 5;

/// A number to count in, with no entries.
#[derive(Drop)]
pub struct Tally {
    count: u64,
}

impl Logged for Tally {
    ghost use Rattle.std.specs.Prelude.{[], None};
    ghost use Rattle.trio_turn.specs.Origins.{no_origin};

    ghost first = { λ t. no_origin };

    ghost log = { λ t. [] };

    ghost begun = { λ t l. None };

    fn len(&self) -> u64 {
        0
    }
}

/// Measures turns, and prints what was measured.
pub fn measure_turn<R: Wait + Clock + Print + AllocGlobal>(rt: &R, count: u64) -> io::Result<()> {
    match fastest(rt, rt.alloc(), count) {
        Some(times) => println!(rt;
            "turn {} ns, lock {} ns, ratio {}",
            times.first / u128::from(count.max(1)),
            times.second / u128::from(count.max(1)),
            times.ratio()
        ),
        None => println!(rt; "out of memory, or no clock"),
    }
}

/// The least times of so many turns and of as many locks.
fn fastest<R: Wait + Clock>(rt: &R, alloc: Global, count: u64) -> Option<Times> {
    let mut times = Some(Times::LONGEST);
    for _ in 0..ROUNDS {
        let turns = nanos_of_turns(rt, alloc, count);
        times = least(times, turns, nanos_of_locks(rt, count));
    }
    times
}

/// The nanoseconds of so many turns.
fn nanos_of_turns<R: Wait + Clock>(rt: &R, alloc: Global, count: u64) -> Option<u128> {
    let Some((turn, mut seat)) = start_one(alloc) else {
        return None;
    };
    let start = now(rt);
    take_turns(rt, &turn, &mut seat, count);
    nanos_since(rt, start)
}

/// A cell with the seat of one library.
fn start_one(alloc: Global) -> Option<(Turn<Tally>, LibSeat<Tally>)>
    ensures { IfSome result (λ r. (cell_of r.1 ≡ cell r.0) × (has r.1 ≡ None)) }
{
    let Ok((turn, mut seats)) = Turn::start(alloc, Tally { count: 0 }, 1) else {
        return None;
    };
    let Some(seat) = seats.pop() else {
        unreachable!()
    };
    Some((turn, seat))
}

/// Takes this many turns.
fn take_turns<R: Wait>(rt: &R, turn: &Turn<Tally>, seat: &mut LibSeat<Tally>, count: u64)
    requires { (cell_of seat.old ≡ cell turn.now) × (has seat.old ≡ None) }
{
    for _ in 0..count {
        let mut tally = turn.take(rt, seat);
        tally.count = tally.count.wrapping_add(1);
        turn.give(seat, tally);
    }
}

/// The nanoseconds of so many locks.
fn nanos_of_locks<R: Wait + Clock>(rt: &R, count: u64) -> Option<u128> {
    let lock = Mutex::new(Tally { count: 0 });
    let start = now(rt);
    take_locks(rt, &lock, count);
    nanos_since(rt, start)
}

/// Locks this many times.
fn take_locks<R: Wait>(rt: &R, lock: &Mutex<Tally>, count: u64) {
    for _ in 0..count {
        let mut tally = lock.lock(rt);
        tally.count = tally.count.wrapping_add(1);
    }
}
