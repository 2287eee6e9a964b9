//! What it costs to share a value or a controller: a turn without others in it, a grant at a seat, and
//! lines in threads.
//!
//! - `trio_bench_shared turn COUNT` takes a value out of its cell and gives it back COUNT times, and locks
//!   a `Mutex` of std's with the same value COUNT times, all on one thread, five times over. It prints
//!   the nanoseconds of the fastest turn and of the fastest lock on average over COUNT, and their
//!   ratio.
//! - `trio_bench_shared seat COUNT` is lent a file for reading and gives it back COUNT times at a seat of
//!   a shared controller, and COUNT times at a controller itself, all on one thread, nine times over. It
//!   prints the nanoseconds of the fastest of each on average over COUNT, and their ratio.
//! - `trio_bench_shared threads COUNT` plays COUNT lines of each of four libraries, in rounds on one
//!   thread and with a thread for each library, nine times over. It prints the microseconds of the
//!   fastest of each, and how often the second goes into the first, once for raw libraries and once for
//!   honest ones.
//!
//! `trio_bench` measures a controller on one thread, and `trio_bench_layers` what needs no controller.
//! All three are measured and not proved; the figures of a run are in `docs/SPEED.md`.
#![tactic(auto)]

mod seats;
mod starting;
mod threads;
mod turns;

use crate::seats::measure_seat;
use crate::threads::measure_threads;
use crate::turns::measure_turn;
use std::alloc::Global;
use std::io;
use std::rt::{Clock, Env};
use std::sync::Wait;
use std::thread::Threads;
use trio_bench_common::words_given;

/// What is to be measured.
#[derive(Clone, Copy)]
enum Asked {
    /// So many turns.
    Turn(u64),
    /// So many grants at a seat.
    Seat(u64),
    /// So many lines of each library.
    Threads(u64),
    /// Nothing that there is.
    Unknown,
}

/// What the words behind the program's name ask for. More words than are needed say nothing.
fn read_words(words: &[String]) -> Asked {
    match words {
        [_, what, count, ..] => with_count(what.as_str(), count.as_str()),
        _ => Asked::Unknown,
    }
}

fn with_count(what: &str, count: &str) -> Asked {
    match count.parse::<u64>() {
        Ok(0) | Err(_) => Asked::Unknown,
        Ok(count) => counted(what, count),
    }
}

fn counted(what: &str, count: u64) -> Asked {
    if what == "turn" {
        Asked::Turn(count)
    } else if what == "seat" {
        Asked::Seat(count)
    } else if what == "threads" {
        Asked::Threads(count)
    } else {
        Asked::Unknown
    }
}

const USAGE: &str =
    "usage: trio_bench_shared turn COUNT\n       trio_bench_shared seat COUNT\n       trio_bench_shared threads COUNT";

fn main(rt: HostRuntime) -> io::Result<()> {
    let words = words_given(&rt)?;
    measure(&rt, read_words(&words))
}

/// Measures what is asked for, and prints what was measured.
fn measure<R: Threads + Wait + Sync + Clock + Print + AllocGlobal>(
    rt: &R,
    asked: Asked,
) -> io::Result<()> {
    match asked {
        Asked::Turn(count) => measure_turn(rt, count),
        Asked::Seat(count) => measure_seat(rt, count),
        // no script has as many lines as that
        Asked::Threads(count) => measure_threads(rt, count.min(10_000) as u32),
        Asked::Unknown => println!(rt; "{USAGE}"),
    }
}
