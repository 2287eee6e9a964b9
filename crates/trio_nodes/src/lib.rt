//! Words that the controller, its libraries and its history share: kinds of grant, the holder of a
//! grant, the answers of the controller's calls, and the spots of what a library has; and the file
//! system as one tree on one thread: nodes by inode number, calls and their replies, and the
//! entries of a history. Beside them stand [`List`], [`Bytes`] and [`SharedBytes`], of which values
//! are made that a clause names whole.
//!
//! The controller answers with these types, a session reads them, and the history keeps them, so
//! they stand below all three. `specs/` says what each call does to the tree (`Apply.antt`), what
//! an entry makes of it (`After.antt`), and when a history is legal (`Legal.antt`).
#![tactic(auto)]

mod answers;
mod call;
mod entry;
mod grant;
mod list;
mod node;
mod note;
mod raw;
mod shared;
mod spot;

pub use answers::{AllotFault, GrantFault, ModeFault, ReleaseAnswer, ReleaseFault};
pub use call::{Answer, Call, Done, Reply};
pub use entry::{AllotAnswer, Entry, GrantAnswer, Handed, HandedHead, HandedPage, RawFile};
pub use grant::{GrantKind, Holder};
pub use list::{Bytes, List};
pub use node::{Node, Nodes};
pub use note::Note;
pub use raw::{PlacedBlock, RawBlock, RawBundle};
pub use shared::SharedBytes;
pub use spot::Spot;
/// Want of memory: the answer of a call that asks for memory and finds none.
pub use std::alloc::AllocError as NoMemory;
