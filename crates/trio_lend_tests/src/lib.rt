//! Tests of what is lent and of how a library reaches it: leases and bundles, allotments, grants, the
//! indexes that a library keeps, turns, and a pool of workers. They stand in a crate of their own, so that the crates
//! themselves aren't proved a second time with their tests.
#![tactic(auto)]

#[cfg(test)]
mod allotments;
#[cfg(test)]
mod directories;
#[cfg(test)]
mod files;
#[cfg(test)]
mod grants;
#[cfg(test)]
mod leases;
#[cfg(test)]
mod pools;
#[cfg(test)]
mod turns;
