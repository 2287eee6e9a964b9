//! Checkpoints: what an open write grant covers, kept aside so that it can return.
//!
//! While a file is lent for writing, its pages are out and their holder may put any bytes into
//! them. A [`Checkpoint`] has what the file was before: its body, copies of its index pages and,
//! of a directory or of a guarded file, copies of its blocks. The blocks of any other file aren't
//! covered: they stay as their holder leaves them. So a checkpoint in its place is the settled state of the file, and
//! [`Checkpoint::restored`] puts it there.
//!
//! The bodies of a directory's children stand in its blocks. Where a child is accepted while its
//! directory is lent, its new body goes into the directory's checkpoint ([`Checkpoint::put_body`]).
//!
//! Contracts see a checkpoint as a `Checkpointed` of `specs/Covered.antt`; its pages are those that
//! `covered_of` of `trio_layout`'s `specs/Pages.antt` names. [`laws`] says that what is taken and
//! then restored leaves home as it was.
//!
//! Only [`Checkpoint::taken`] takes memory.
#![tactic(auto)]

mod chain;
mod checkpoint;
pub mod laws;
mod page_copy;

pub use checkpoint::Checkpoint;
