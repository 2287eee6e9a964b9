//! Tests of honest libraries: the calls on files and on directories, one after another and in rounds,
//! with what the image has after them.
#![tactic(auto)]

#[cfg(test)]
mod desks;
#[cfg(test)]
mod images;
#[cfg(test)]
mod large;
#[cfg(test)]
mod many;
#[cfg(test)]
mod random;
#[cfg(test)]
mod rows;
#[cfg(test)]
mod scripts;
#[cfg(test)]
mod turns;
