//! The controller: what it keeps of an image, and its calls.
//!
//! Contracts see a [`Ctl`] as a `Controller` of `specs/Ctl.antt`, whose state is that of `trio_state`'s
//! `specs/State.antt`. `Kept` holds of it in every state that it is in, and all is recorded in its log
//! (`specs/Logged.antt`).
//!
//! A release is one call, or two moves with a pause between them, in which others go on: `Ctl::begin` takes
//! a bundle in, and gives a [`Pending`]; that is weighed without the controller, which gives a
//! [`Judged`]; and `Ctl::finish` ends it. `specs/Pending.antt` has what contracts see of the two.
//!
//! A registry, which is private, does the steps; the controller logs them.
#![tactic(auto)]

mod allot;
mod backs;
mod belongs;
mod calls;
pub mod commit_laws;
mod ctl;
pub mod desk_laws;
mod desks;
mod extent;
mod give_back;
mod grant;
mod hold;
mod image;
mod judgement;
mod kit;
mod mode_calls;
mod mode_change;
mod outcome;
mod pending;
mod pooled;
mod read;
mod registry;
mod release_calls;
mod release_ends;
mod room;
mod same;
mod settle;
mod settled;
mod spares;
mod start;
mod stored;
mod underway;

pub use ctl::Ctl;
pub use desks::PlainDesk;
pub use extent::Extent;
pub use image::ImageFault;
pub use pending::{Judged, Pending};
pub use trio_entries::handed::copied;
