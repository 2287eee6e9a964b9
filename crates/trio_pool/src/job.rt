//! What the queue of a pool holds.

/// What a worker is to do.
#[derive(Drop)]
pub enum Work<C> {
    /// To judge a case: how many cases its pass had submitted before it, and the case.
    Case(u64, C),
    /// To stop.
    Stop,
}

/// A job, with the number of the pass that put it. The name of a case is that number and the case's
/// own.
#[derive(Drop)]
pub struct Job<C> {
    pub by: u32,
    pub work: Work<C>,
}
