//! What a controller and the libraries at work on it cost, on one thread: the memory of a release, and
//! writes and reads through a session.
//!
//! - `trio_bench log` releases the largest bundle of an image, and prints the peak of memory beside the
//!   size of the image.
//! - `trio_bench session` writes and reads 1 MiB by 4096 bytes a call through a session, twenty times
//!   over, and prints how often a plain copy of as much into pages and out of them goes into it.
//!
//! `trio_bench_shared` measures what several libraries share, and `trio_bench_layers` what needs no
//! controller. All three are measured and not proved; the figures of a run are in `docs/SPEED.md`.
#![tactic(auto)]

mod logging;
mod sessions;
mod starting;

use crate::logging::measure_log;
use crate::sessions::measure_session;
use std::alloc::Global;
use std::io;
use std::rt::{Clock, Env, Files};
use trio_bench_common::words_given;

/// What is to be measured.
#[derive(Clone, Copy)]
enum Asked {
    Log,
    Session,
    /// Nothing that there is.
    Unknown,
}

/// What the words behind the program's name ask for. More words than are needed say nothing.
fn read_words(words: &[String]) -> Asked {
    match words {
        [_, what, ..] => read_word(what.as_str()),
        _ => Asked::Unknown,
    }
}

fn read_word(what: &str) -> Asked {
    if what == "log" {
        Asked::Log
    } else if what == "session" {
        Asked::Session
    } else {
        Asked::Unknown
    }
}

const USAGE: &str = "usage: trio_bench log\n       trio_bench session";

fn main(rt: HostRuntime) -> io::Result<()> {
    let words = words_given(&rt)?;
    measure(&rt, read_words(&words))
}

/// Measures what is asked for, and prints what was measured.
fn measure<R: Clock + Files + Print + AllocGlobal>(rt: &R, asked: Asked) -> io::Result<()> {
    match asked {
        Asked::Log => measure_log(rt),
        Asked::Session => measure_session(rt),
        Asked::Unknown => println!(rt; "{USAGE}"),
    }
}
