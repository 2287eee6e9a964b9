//! Images for tests, each laid out of a list of files.
//!
//! - [`Sample`] is an image with its tables: its pages, its bytes or its home are had from it.
//! - [`SampleFile`] is a file that is put into one; [`directory`], [`regular`] and [`link`] make these.
//! - [`files`] has the lists of files that several tests use.
//!
//! Pages are given out from the first core page on, each file's index page before its blocks, and a
//! directory's as soon as it lists a file; slots are given out in order.
#![tactic(auto)]

mod file;
pub mod files;
mod sample;

pub use file::{SampleFile, directory, link, regular};
pub use sample::{Sample, put};
