//! A set of names that takes its memory when it is made, and none after. It numbers its names.
//!
//! Whoever writes a directory chooses its names, so no choice of names may make the set slow. It
//! keeps them in byte order, and not by a hash: adding `n` names takes `n log n` comparisons,
//! whatever the names are.
//!
//! Contracts see a [`NameSet`] as its names in the order in which they were added, and how many it
//! has room for (`specs/Names.antt`). A name's number is its place in that order.
#![tactic(auto)]

mod set;
mod sorted;
mod tree;

pub use set::{NAME_BYTES, NameSet};
pub use trio_names::NoMemory;
