//! The local judge of a bundle: whether it keeps the rules I1, I2 and I4, and what it proposes.
//!
//! A [`RoomMemory`] is all the memory that a judgement takes, by the size of a bundle. Filled for a case
//! it is a [`Room`]. [`judge`] goes over the files of the case in it and gives its [`Verdict`].
#![tactic(auto)]

mod again;
mod laws;
mod pages;
mod rules;
mod start;
mod verdict;
mod walk;

pub use laws::{room_stays_touched, room_stays_with_bytes};
pub use verdict::{ROOM_BYTES, Room, RoomMemory, Verdict, judge};
