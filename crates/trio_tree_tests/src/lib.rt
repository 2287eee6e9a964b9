//! Tests of the tree on one thread, its nodes and its log, over what these crates make public: a crate
//! of their own, so that the crates themselves aren't proved a second time with their tests.
#![tactic(auto)]

#[cfg(test)]
mod calls;
#[cfg(test)]
mod log;
#[cfg(test)]
mod making;
#[cfg(test)]
mod nodes;
