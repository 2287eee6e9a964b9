//! The report of a run: what was answered, the tree of an image and its counts, as text.
//!
//! - [`tree_lines`] gives the tree of an image, a line for each file, a directory before its children
//!   and children in the byte order of their names. Its contract is `tree_of` of `trio_layout`'s
//!   `specs/Tree.antt`.
//! - [`put_heading`], [`put_end`], [`put_tree`], [`put_tree_lines`] and [`put_counts`] append text to
//!   bytes. `specs/Report.antt` has the text of each.
//! - [`tree_json`] gives a tree as JSON, built and printed by `serde_json`. `specs/Json.antt` has it.
//! - [`put_answer`] appends what a line of a script is answered. `specs/Answers.antt` has its text, and
//!   `specs/Replies.antt` that of what calls are replied.
//!
//! What puts text takes memory for it. After [`NoMemory`] a part of the text may have been appended.
#![tactic(auto)]

mod answer;
mod json;
mod line;
mod reply;
mod report;
mod text;
mod tree;

pub use answer::{LineAnswer, put_answer};
pub use json::tree_json;
pub use line::{TreeLine, TreeName, put_tree, put_tree_lines};
pub use report::{Counts, EndAnswer, LibraryKind, put_counts, put_end, put_heading};
pub use tree::tree_lines;
/// Want of memory.
pub use trio_page::NoMemory;
