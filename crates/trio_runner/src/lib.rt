//! Scripts, played: the lines of up to sixteen libraries on one controller, in rounds ([`play`]) or
//! with a thread for each library ([`run`]).
//!
//! In a round each library in turn plays its next line, or its end where none is left. On a thread of
//! its own a library plays its lines one after another, and then its end, at its seat at the controller.
//! What that comes to is said in `specs/Courses.antt`, and what the whole does in `specs/Runs.antt`.
//!
//! Which kinds of libraries there are is the caller's choice ([`Kinds`]). This crate has two, raw and
//! honest ([`RawAndHonest`]).
//!
//! A line is played at the library's desk, whatever desk that is: a raw library's as it stands, and
//! an honest one's by the library's session. What they come to is said in `specs/Line.antt` and
//! `specs/Honest.antt`, the order of the turns in `specs/Rounds.antt`, and the whole in
//! `specs/Play.antt`. [`laws`] says that a script, played in rounds or on threads, is a run of the
//! controller, at whose end nothing is out, and that the controller's log is the entries of that run,
//! which the answers print (`specs/Logged.antt`).
#![tactic(auto)]

mod copies;
mod hand;
mod honest;
mod kinds;
pub mod laws;
mod players;
mod raw;
mod rounds;
mod seat_turns;
mod threads;
mod told;
mod workers;

pub use kinds::{AnyPlayer, Kinds, RawAndHonest};
pub use players::{Player, take_turn};
pub use rounds::{creds_of, play};
pub use threads::run;
pub use told::LibTold;
