//! Laws of what a session of an honest library has in hand: what its edits of files come to in the nodes
//! that it shows, of regular files and of directories, written or made; what it reads of them, and what
//! it takes. `specs/Written.antt` says what a session keeps from one call to the next; `specs/EditLaws.antt`,
//! `specs/DirLaws.antt`, `specs/TakingLaws.antt` and `specs/Calls.antt` have the laws. They rest on laws of
//! what is in hand, whatever session has it (`specs/session/`).
#![tactic(auto)]

mod calls;
mod dirs;
mod edits;
pub mod in_hand;
pub mod judged_edits;
pub mod slot_edits;
mod takings;

pub use calls::{begins_to_call, may_be_settled};
pub use dirs::{clear_shows, fill_shows, link_shows, move_shows, retitle_shows, sees_directory};
pub use edits::{cut_shows, grow_dir_shows, grow_shows, guard_shows, put_shows, sees_bytes};
pub use takings::{begins_to_edit, keeps_allotment, keeps_hold, keeps_reads, keeps_write};
