//! Tests of names, scripts and reports, the generated workload and the outside, over what these crates
//! make public: a crate of their own, so that the crates themselves aren't proved a second time with
//! their tests.
#![tactic(auto)]

#[cfg(test)]
mod honest;
#[cfg(test)]
mod io;
#[cfg(test)]
mod names;
#[cfg(test)]
mod report;
#[cfg(test)]
mod script;
#[cfg(test)]
mod workload;
