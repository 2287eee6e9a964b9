//! Who may use a file: kinds of file, permission bits, credentials, and the rights table.
//!
//! Nothing here takes memory. `docs/FORMATS.md`, "Rights", has the table in words.
#![tactic(auto)]

mod kind;
mod rights;

pub use kind::Kind;
pub use rights::{Creds, LibNo, Mode, Need, class_bits, may};
