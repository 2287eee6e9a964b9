//! The shadow table, which says of each inode number what its file is and where it is listed, and
//! the owner table, which says of each page whose it is (`docs/FORMATS.md`, "Tables").
//!
//! The tables stand here as rows and owners by number. Their stored form is written and compared
//! page by page. Only `Shadow::new` and `Owners::new` take memory.
#![tactic(auto)]

mod owners;
mod row;
mod shadow;

pub use owners::{CONTROLLER, Owners};
pub use row::{Row, RowRead};
pub use shadow::Shadow;
