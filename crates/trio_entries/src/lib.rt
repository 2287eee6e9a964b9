//! What the entry of a release tells ([`accepted`], [`refused`]): the bundle as it was handed in, and
//! its files and blocks, by the bundle, its listing and what is noted of each live file ([`Notes`]).
//! No page of the image is looked at but the bundle's.
//!
//! All memory is taken before there is a bundle, by how much one may have ([`DraftMemory`]). A
//! [`Draft`] is begun in it for a bundle, and tells at the end whether a bundle is still the same but
//! for bodies and bytes ([`Draft::is_of`]).
#![tactic(auto)]

mod blocks;
mod draft;
mod files;
mod finder;
pub mod handed;
mod notes;
mod outline;
mod telling;
mod told;

pub use draft::{DRAFT_BYTES, Draft, DraftMemory};
pub use notes::Notes;
pub use telling::{Told, accepted, refused};
