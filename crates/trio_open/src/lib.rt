//! What a controller keeps of what is out, and what it asks of a bundle that comes back.
//!
//! An [`open::OpenFile`] is an open grant with what it lent. A file is lent by moving its pages out of home
//! ([`lend::lend`]) or by copying them ([`read::copied_file`]), and its grant ends where a bundle hands it
//! back ([`closing::end_files`]). Of a bundle is asked whether all of it was given to a library
//! ([`belongs`]), and whether a hold is parted from its parent's lease ([`parted`]).
//!
//! The controller's calls are made of these; nothing here knows a store or a log.
#![tactic(auto)]

pub mod belongs;
pub mod body;
pub mod closing;
pub mod find;
pub mod full;
pub mod history;
pub mod lend;
pub mod numbers;
pub mod open;
pub mod parted;
pub mod read;
pub mod room;
