//! The controller as one library sees it: the boundary between a controller and one library.
//!
//! `specs/Out.antt` says what a library has out, `specs/Call.antt` what it may ask, what it is told
//! and what is out then, and `specs/Calls.antt` how calls follow each other.
#![tactic(auto)]

mod desk;

pub use desk::Desk;
