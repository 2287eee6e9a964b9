//! Calls on directories, as an honest library makes them.
//!
//! [`dir_call`] makes an empty file or directory or a link, removes a file or an empty directory by its name,
//! gives a file another name, in its directory or in another, or lists the names of a directory,
//! over what its session has; `specs/Asks.antt` says which calls of the desk that makes, and how it
//! ends. It changes a mode too; `specs/Chmods.antt` says the same of that.
#![tactic(auto)]

mod calls;
mod chmods;
mod lists;
mod makes;
mod moves;
mod paths;
mod removes;
mod replies;
mod rooms;

pub use calls::dir_call;
