//! The queue of a pool, and its rule.

use crate::job::Job;
use crate::view::View;
use crossbeam_queue::protocol::Protocol;
use crossbeam_queue::{Pass, RuledArrayQueue};

/// The rule of `specs/Rule.antt`.
pub struct InLine;

impl<C> Protocol<Job<C>, View<C>> for InLine {
    ghost use Rattle.trio_pool.specs.Rule.{Kept};
    ghost use Rattle.trio_pool.specs.inner.Steps.{first_view};

    ghost holds = { Kept };

    ghost first = { first_view };
}

/// The queue, as threads share it.
pub type Queue<C> = RuledArrayQueue<Job<C>, View<C>, InLine>;

/// What a thread makes its steps with.
pub type Token<C> = Pass<Job<C>, View<C>>;
