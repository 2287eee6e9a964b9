//! Tests of the controller and of its log, over what the crates make public: a crate of their own, so
//! that the controller itself isn't proved a second time with its tests.
#![tactic(auto)]

#[cfg(test)]
mod calls;
#[cfg(test)]
mod controllers;
#[cfg(test)]
mod extents;
#[cfg(test)]
mod hand_in;
#[cfg(test)]
mod images;
#[cfg(test)]
mod lines;
#[cfg(test)]
mod logs;
#[cfg(test)]
mod looks;
#[cfg(test)]
mod moves;
#[cfg(test)]
mod noting;
#[cfg(test)]
mod raws;
