//! Tests of the controller for many threads, and of scripts that are run on it, over what the crates make
//! public.
#![tactic(auto)]

#[cfg(test)]
mod at_once;
#[cfg(test)]
mod images;
#[cfg(test)]
mod moves;
#[cfg(test)]
mod pooled;
#[cfg(test)]
mod replays;
#[cfg(test)]
mod rows;
#[cfg(test)]
mod runs;
#[cfg(test)]
mod scenes;
#[cfg(test)]
mod scripts;
#[cfg(test)]
mod seats;
#[cfg(test)]
mod threads;
