//! Deeds of an honest library's session: what is done after a file is taken, whichever call does it.
//!
//! First the memory: [`places`] for the call and for blocks, and [`entry_places`] for a new entry.
//! Then one allotment ([`allot`]). Then the edits, which take neither: a file comes to another size
//! ([`resize`]), a directory gets an empty slot ([`add_slot`]), a file is made ([`make_file`]), a link
//! with its text ([`make_link`]), or a file moves ([`move_file`]). And what is read of a file that the session has: bytes, sizes, entries,
//! names, and what a stat tells. A deed's contract says what the session is afterwards; what that
//! means in the nodes is a law of `trio_edit_laws`.
#![tactic(auto)]

mod makes;
mod names;
mod reads;
mod rooms;
mod sizes;
mod slots;
mod stats;

pub use makes::{make_file, make_link};
pub use names::sorted_names;
pub use reads::{bytes_of, entry_count};
pub use rooms::{allot, entry_places, places};
pub use sizes::{block_count, growth, resize, size_of};
pub use slots::{add_slot, move_file, slot_growth};
pub use stats::{allows, stat_of};
