//! What the controller keeps of an image, and the end of a bundle in it: put in place where it is
//! accepted, rolled back where it is refused. Both touch what the bundle has, and take no memory.
//!
//! Contracts see a [`Store`] as its fields, and `state_of` of `specs/Store.antt` is the state whose
//! store it is.
#![tactic(auto)]

mod bodies;
mod bundles;
mod gone;
mod owners;
mod restoring;
mod rows;
mod store;
mod taken_page;

pub use store::Store;
