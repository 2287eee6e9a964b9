//! The calls of an honest library on files.
//!
//! [`file_call`] writes, reads, resizes, guards or looks at the file at a path, or reads the text of a
//! link, over what its session has.
//! `specs/Asks.antt` says which calls of the desk that makes, and how it ends.
#![tactic(auto)]

mod calls;
mod files;
mod replies;

pub use calls::file_call;
