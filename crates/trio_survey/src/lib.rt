//! What an image says, read from its pages: each file whole, all files from the root downward, and
//! whether an image verifies, with every look at a page counted.
//!
//! - [`file::read_file`] reads one file that is met: its body, its chain of index pages and blocks
//!   and, of a directory, its entries. Its contract is `file_of` of `trio_layout`'s
//!   `specs/Survey.antt`, with the place where a file can't be read.
//! - [`chain::read_chain`] reads the chain of a body alone, and [`home::core_page`] is a look at a core
//!   page.
//! - [`survey`] goes through all files from the root downward, and answers the tables of a sound core
//!   (`specs/Sound.antt` of `trio_layout`) or the lowest rule that fails. [`survey_picked`] does so
//!   with bodies that stand in place of the bytes in slots.
//! - [`verify`] says whether an image verifies (`PagesVerify` of `specs/Stored.antt`), and [`verify_old`]
//!   whether one of version 1 does (`OldPagesVerify` of `specs/OldVersion.antt`).
//!
//! None of these calls looks at a page of the image twice, whatever the pages say: a core page that
//! was looked at is kept as a copy until the call ends, for wherever it is listed again. What it says
//! as a directory block is read once, and kept too.
#![tactic(auto)]

mod again;
mod blocks;
pub mod chain;
mod enter;
mod entries;
mod fault;
pub mod file;
pub mod home;
mod kept;
pub mod laws;
mod marks;
mod names;
mod old;
mod picks;
mod verdict;
mod walk;
mod whole;

pub use fault::SurveyFault;
pub use old::{OLD_VERSION, verify_old};
pub use picks::{Picked, Picks};
pub use verdict::{verify, verify_found};
pub use whole::{Found, survey, survey_picked};
