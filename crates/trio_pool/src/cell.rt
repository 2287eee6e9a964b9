//! The pool as a type.

ghost use Rattle.std.specs.Prelude.{◌<◌};

use crate::rule::Queue;
use std::alloc::Global;

/// A queue of jobs, which threads share by reference.
///
/// Contracts see of it how many jobs its queue can hold, how many passes it has, and which passes are
/// its own (`specs/Passes.antt`).
#[derive(Drop)]
pub struct Pool<C> {
    pub(crate) queue: Queue<C>,
    pub(crate) passes: u32,
    pub(crate) alloc: Global,
    pub ghost some: { 0 < passes },
}
