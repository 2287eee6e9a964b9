//! The table of open grants: who may use which file at present, and whom a new grant has to wait for.
//!
//! A grant is asked on a file by a library, and an open grant on the same file may exclude it:
//!
//! | asked | excluded by |
//! |---|---|
//! | Read | Write or Hold of any library; Read of the same library |
//! | Write | any grant of any library |
//! | Hold | any grant of any library |
//!
//! Contracts see a [`GrantTable`] as the list of its open grants in the order of the log entries that
//! opened them, each beside the key that ends it. Only [`GrantTable::admit`] takes memory.
#![tactic(auto)]

mod grant;
mod question;
mod table;

pub use grant::Grant;
pub use table::{AdmitFault, GrantKey, GrantTable};
