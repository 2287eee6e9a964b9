//! Images of version 1, and how they become images of today's version.
//!
//! - [`load_old`] reads one from a file, or says why there is none (`OldLoads` and `OldLoadFails` of
//!   `specs/OldLoad.antt`).
//! - [`OldImage::migrate`] makes it an image of today's version: the version on the first page is
//!   changed, and nothing else (`migrated_pages` of `specs/Migrated.antt`).
//! - [`laws::migration_keeps`] says that what verifies by version 1 verifies so, with the same nodes.
#![tactic(auto)]

pub mod laws;
mod loading;
mod old_image;

pub use loading::load_old;
pub use old_image::OldImage;
