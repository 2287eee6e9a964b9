//! A ticket cell: one value with a history, and a seat for each library, through which threads
//! take the value in turn.
//!
//! A seat draws a ticket, waits until it is served, takes the value out, gives it back with a
//! history that only grew, by entries of its own library, and passes the turn on. So all seats
//! share one history, of which each has seen a beginning. What a seat has seen is in the proofs
//! alone, beside a word that counts the entries.
//!
//! The cell is a table of three words and a slot (the kit's `atomic_table`). `specs/Rule.antt` says
//! what holds of it between any two steps, and each kind of step is proved to keep it.
#![tactic(auto)]

mod cell;
mod gather;
mod logged;
mod plays;
mod rule;
mod seat;
mod setup;
mod steps;
mod turn;
mod view;

pub use cell::Turn;
pub use logged::{Begun, BegunLease, Logged, Origin};
pub use seat::LibSeat;
