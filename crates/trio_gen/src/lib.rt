//! The generated workload: what its libraries do, as scripts, and what is told of it.
//!
//! - [`directories_script`] has one honest library, which makes the directories `/dK`, `/dK/a` and
//!   `/dK/b` for each K from 1 to 4.
//! - [`files_script`] has four, which share the files from 0 on in turn. Library K creates
//!   `/dK/a/fJ`, writes 1 to 64 letters to it and settles. Of five files the fourth is then renamed to
//!   `/dK/b/fJ` and the fifth removed, and the library settles again.
//! - [`push_call_answers`] picks the answers to calls, and [`put_summary`] tells how many there are,
//!   how many were done or busy, and how many bytes the files then have.
//!
//! All act for the user 0 and the group 0. `specs/Workload.antt` has the scripts line by line, and
//! `specs/Summary.antt` what is told.
#![tactic(auto)]

mod lines;
mod paths;
mod script;
mod summary;

pub use script::{FILES_LIMIT, directories_script, files_script};
pub use summary::{Tally, push_call_answers, put_summary};
/// Want of memory.
pub use trio_page::NoMemory;
