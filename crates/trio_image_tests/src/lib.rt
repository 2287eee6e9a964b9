//! Tests of pages, marks, sets of names, rights and formats, and of images, their survey, their tables
//! and checkpoints, over what these crates make public: a crate of their own, so that the crates
//! themselves aren't proved a second time with their tests.
#![tactic(auto)]

#[cfg(test)]
#[cfg(test)]
mod homes;
#[cfg(test)]
mod image;
#[cfg(test)]
mod layout;
#[cfg(test)]
mod making;
#[cfg(test)]
mod marks;
#[cfg(test)]
mod nameset;
#[cfg(test)]
mod page;
#[cfg(test)]
mod rights;
#[cfg(test)]
mod samples;
#[cfg(test)]
mod survey;
#[cfg(test)]
mod tables;
