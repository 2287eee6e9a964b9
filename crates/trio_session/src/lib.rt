//! What an honest library has in hand between two settles.
//!
//! A [`Session`] keeps the leases, allotted pages and inode numbers of one library, and the calls done,
//! until it hands all of it in at once. It writes into the files that it has for writing or made, fills
//! and clears the slots of its directories, and keeps an index of each directory that a need got it, by
//! which it finds names. A file that it made stands in a slot of a directory that it writes, with an
//! allotted inode number and allotted pages; one that it cleared keeps its number and pages until the
//! settle. Where it has nothing but read leases it changes a file's mode, and hands these in with the call.
//! `specs/Layout.antt` says to the byte what an edit changes: a write, a growth or a cut. Contracts see
//! a session as plain data (`SessionSeen` of `specs/Seen.antt`); `specs/Asked.antt` says what comes of
//! its calls of a [`Desk`](trio_desk::Desk), by what the desk tells.
#![tactic(auto)]

mod asking;
mod contents;
mod dir_slots;
mod edits;
mod entries;
mod giving;
mod indexes;
mod laid;
mod lent;
mod made;
mod session;
mod stock;

pub use session::Session;
/// Want of memory: the answer of a call that asks for memory and finds none.
pub use trio_page::NoMemory;
