//! What a pass knows. These are plain data of the proofs: no value of them is made.

use crate::job::Job;
use std::collections::LinkedList;

/// What one pass put and took.
pub struct Account<C> {
    /// The number of the pass.
    pub number: u32,
    /// The jobs that it put, in order.
    pub sent: LinkedList<Job<C>>,
    /// The jobs that it took, in order.
    pub took: LinkedList<Job<C>>,
}

/// What a pass knows: its own account, and then those of the passes that were joined into it.
pub struct View<C> {
    /// The number of the next pass, in the view of the one pass that makes them.
    pub next: Option<u32>,
    pub accounts: LinkedList<Account<C>>,
}
