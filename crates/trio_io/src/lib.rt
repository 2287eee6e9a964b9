//! The outside of the program: files by name, a sink for what is put out, and a gate between the
//! lines of a library's script.
//!
//! Each is a trait, so a program that is generic over them is proved for whatever stands behind
//! them. What contracts see of it is said at [`Files`], [`Sink`] and [`Gate`].
//!
//! - [`MemFiles`] and [`MemSink`] stand in memory, tell what they hold, and fail at the calls that
//!   they are told to fail at. They are for tests.
//! - [`SureFiles`] and [`SureSink`] stand in memory and never fail.
//! - [`RealFiles`] and [`StdoutSink`] are the host's. They are trusted: no contract says what the
//!   host's files hold or what reaches its output, so they tell no content.
//! - [`OpenGate`] holds nobody, and [`HoldGate`] holds one library until another has come to a line.
//!
//! [`read_whole`] reads a whole file, up to a limit.
#![tactic(auto)]

mod content;
mod counts;
mod hold_gate;
mod kept;
mod limit;
mod memory;
mod outside;
mod plan;
mod real;
mod replacing;
mod standing;
mod streams;
mod sure;
mod temporary;
mod whole;

pub use hold_gate::{GateStop, HoldGate};
pub use kept::{InMemory, KeepsBytes, Planned};
pub use memory::{MemFiles, MemSink};
pub use outside::{Failed, Files, Gate, MAX_OFFSET, OpenGate, Sink};
pub use plan::FailingCalls;
pub use real::{RealFiles, StdoutSink};
pub use sure::{SureFiles, SureSink};
pub use whole::{ReadWholeFault, read_whole};
