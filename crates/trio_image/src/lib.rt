//! Images whose values all verify, from a file and back.
//!
//! - [`Image`] is an image that verifies, with all its pages (`IsVerified` of `specs/Image.antt`).
//! - [`load`] reads one from a file, or says why there is none ([`LoadFault`]; `Loads` and
//!   `LoadFails` of `specs/Load.antt`). [`Image::from_pages`] is its last stage, for pages that stand
//!   in memory. [`read_file`] and [`superblock_of`] are its first stages, for images of the other version too.
//! - [`Image::save`] makes its bytes the content of a file, which is read again as that image, and
//!   [`Image::into_bytes`] gives them.
//! - [`Image::counts`] tells what an image has in use, and [`Image::nodes`] its files as the nodes of
//!   a tree, with the bytes of regular files and links (`nodes_of` of `trio_state`'s `specs/ImageNodes.antt`);
//!   [`Image::notes`] tells their names, sizes and guards alone (`notes_by_rows` there).
//! - [`make`] makes a new image, whose one file is an empty root (`IsMade` of `specs/Made.antt`).
//! - [`front_pages`] stores a superblock and tables as the pages before the core.
//!
//! A file is read straight into the pages that are the image's home. On its way out each page is
//! copied once, and goes then.
#![tactic(auto)]

mod counts;
mod fault;
mod front;
mod image;
mod loading;
mod making;
mod nodes;
mod notes;
mod reading;
mod saving;

pub use counts::Counts;
pub use fault::{LoadFault, SaveFault};
pub use front::front_pages;
pub use image::{Image, ImageParts};
pub use loading::{load, superblock_of};
pub use making::{MakeFault, make};
pub use reading::{FilePages, read_file};
