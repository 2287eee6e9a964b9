//! Walks of an honest library from the root down, over what its session has.
//!
//! [`walk`] takes each directory that it meets, asks the directory's index for the next name, and
//! looks at the one slot that this names. `specs/Needs.antt` says which grants a call needs and
//! which of them it asks for; `specs/Walks.antt` what comes of a walk.
//!
//! [`retry`] makes a call that can be tried ([`Tries`]): it tries it, and after Busy it settles and
//! tries it once more. `specs/Asks.antt` says which calls of the desk that makes, and how it ends.
#![tactic(auto)]

mod attempts;
mod copies;
mod enter;
mod files;
mod met;
mod outcome;
mod walks;

pub use attempts::{Tries, TryEnd, retry};
pub use copies::copy_reply;
pub use files::take;
pub use met::{Met, Rights, gives, look_up};
pub use outcome::{Outcome, Stop, allot_reply};
pub use walks::{WalkEnd, reach, reach_into, walk};
