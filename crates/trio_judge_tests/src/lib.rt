//! Tests of the rules on a bundle by the code that judges it: a crate of their own, so that the judge
//! and the rule on edges aren't proved a second time with their tests.
//!
//! [`case_of`] is for whoever has a bundle of which nothing is known, as a test or a measurement has: it
//! looks first whether a case may be made of it.
#![tactic(auto)]

mod checked;
#[cfg(test)]
mod entries;
#[cfg(test)]
mod handed;
#[cfg(test)]
mod judged;
#[cfg(test)]
mod leaves;
#[cfg(test)]
mod releases;
#[cfg(test)]
mod whole;

pub use checked::case_of;
