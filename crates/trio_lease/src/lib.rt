//! Lent values: what the controller gives out to a library, and what the library hands back.
//!
//! - A [`WriteLease`] is one file lent for writing: its body, its index pages and its blocks are
//!   moved out of the controller's store into the lease.
//! - A [`ReadLease`] is one file lent for reading, as copies.
//! - A [`HoldLease`] is the leave to unlink or move one file.
//! - A [`FreshPage`] and a [`FreshIno`] are a page and an inode number out by allotment, for new
//!   files and for growth. One allotment gives an [`Allotted`].
//! - A [`Bundle`] gathers what one release hands in.
//!
//! A lent value can't be dropped. It is spent where it is given back, handed in, taken apart by
//! `parts`, or let go by `discard`. After `discard` its grant or allotment stays out for good, so
//! that others find the file busy, or the page or number not free.
//!
//! The bytes of a lent value are its holder's alone: nothing but a call on that very value changes
//! them. What a write lease was lent with stays told beside what stands in it now: contracts see
//! both ([`WriteLease`]).
//!
//! The `parts` of a lent value and `of`, which makes one of its parts, are for the controller,
//! which is several crates. A value that somebody else makes isn't one that the controller gave.
//!
//! In lists lent things go by their numbers ([`things`]).
//!
//! Only [`Bundle::reserve`] and the `add_` calls of a [`Bundle`] take memory.
//!
//! `specs/Shown.antt` has what contracts see of a lease, `specs/Bundles.antt` what they see of a
//! bundle, `specs/Places.antt` where the pages of a bundle stand.
#![tactic(auto)]

mod bundle;
mod fresh;
mod hold;
mod lease;
mod lent;
mod parts;
mod read;
pub mod things;
mod write;

pub use bundle::{Bundle, BundleParts};
pub use fresh::{Allotted, FreshIno, FreshPage};
pub use hold::HoldLease;
pub use lease::Lease;
pub use parts::{FreshParts, HoldParts, InoParts, LentPage, ReadParts, WriteParts};
pub use read::ReadLease;
pub use write::WriteLease;
