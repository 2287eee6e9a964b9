//! The index of a directory that is kept by edits: where each name stands, and the first empty
//! slot, without a scan of the directory's pages.
//!
//! - [`HashedDir`] is told of a directory's blocks, by [`HashedDir::scan`] of blocks with entries
//!   and [`HashedDir::grow`] by blocks of empty slots, and then of each edit of an entry. Contracts
//!   see the list of the directory's slots, each empty or with a name (`specs/Slots.antt`).
//! - [`Place`] is the position of a block in the directory, and a slot in it.
//! - [`Finds`] counts the look-ups that were made.
//!
//! The laws ([`slot_is_edited`] and its kin) say that after an edit of a page's slot, and the call that
//! tells of it, the list is again what the pages spell (`specs/Laws.antt`).
#![tactic(auto)]

mod directory;
mod finds;
mod index;
mod laws;
mod order;
mod place;

pub use directory::HashedDir;
pub use finds::Finds;
pub use laws::{
    entry_has_its_name, page_is_added, slot_has_its_block, slot_is_edited, zero_is_empty,
    zeros_are_empty,
};
pub use place::Place;
/// Want of memory: the answer of a call that asks for memory and finds none.
pub use trio_page::NoMemory;
