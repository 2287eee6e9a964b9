//! What calls of a pool answer.

/// What a take gives.
#[derive(Drop)]
pub enum Taken<C> {
    /// A case to judge.
    Case(C),
    /// The word to stop.
    Stop,
    /// Nothing: the queue held no job at a moment of the call.
    Nothing,
}

/// The queue held as many jobs as it can at a moment of the call.
#[derive(Debug, Drop)]
pub struct Full;
