//! Laws over the definitions of steps: the controller keeps an image that verifies through every step,
//! and what follows of releases and of the files of others (`docs/DEFINITIONS.md`); and of the history
//! beside the state, for which nodes a state stands, which entry an event and its answer make, and how a
//! log replays (`specs/history/`); and of honest sessions, what leases show, that others leave it true,
//! that what is ready is accepted, and what takings, walks and calls show (`specs/session/`).
//!
//! `specs/` holds what the laws speak of beside the definitions below, and `proofs/` their proofs.
#![tactic(auto)]

pub mod contents;
pub mod dir_calls;
pub mod ends;
pub mod histories;
pub mod in_hand;
pub mod known;
pub mod laws;
pub mod moves;
pub mod notes;
pub mod outs;
pub mod rules;
pub mod sessions;
pub mod told;
