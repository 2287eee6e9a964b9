//! A library that nobody checks, over its desk.
//!
//! A [`Raw`] keeps the write leases, read leases, holds, allotted pages and allotted inode numbers of
//! one library. It writes any bytes at any [`Spot`](trio_nodes::Spot) of what is its own to write,
//! looks at any bytes of what it has, and asks its [`Desk`](trio_desk::Desk) for grants, allotments,
//! changes of mode and verdicts on what it hands in: one call of the desk for each call of its own.
//!
//! `specs/Has.antt` says what a library has, what it may do with it, and how it stands on the desk's
//! list of what is out; `specs/Asked.antt` says what each call comes to, by what the desk tells.
#![tactic(auto)]

mod back;
mod lent;
mod peek;
mod poke;
mod raw;
mod things;

pub use raw::{Absent, Raw, RawFault};
