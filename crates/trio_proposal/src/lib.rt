//! The image that a bundle proposes, judged whole.
//!
//! A library hands in a bundle: leases of files that it wrote, allotted pages and allotted inode
//! numbers. [`judge`] puts the bundle's pages and bodies over a copy of the settled image, surveys
//! the whole, and accepts exactly where that image is sound and the change is allowed
//! (`is_accepted` of `trio_layout`'s `specs/Accept.antt`). What then stands is a [`NextImage`].
//!
//! All pages are copies: the bundle and the caller's own image stay as they are after any answer.
//!
//! `specs/Judgement.antt` has what callers know of an image and a bundle, and what a verdict says.
#![tactic(auto)]

mod allowed;
mod judgement;
mod marks;
mod pages;
mod picks;
mod place;
mod propose;

pub use judgement::{NextImage, Verdict, judge};
