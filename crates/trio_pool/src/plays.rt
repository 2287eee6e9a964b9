//! What each kind of step tells, and how views are split and joined.

use crate::job::Job;
use crate::view::View;
use crossbeam_queue::protocol::{Join, Lesson, Outcome, Split};

/// A job is put.
pub struct Puts;

impl<C> Outcome<Job<C>, View<C>> for Puts {
    ghost use Rattle.trio_pool.specs.inner.Steps.{Put};

    ghost then = { Put };
}

impl<C> Lesson<Job<C>, View<C>> for Puts {
    ghost use Rattle.trio_pool.specs.inner.Steps.{Stands};

    ghost fact = { Stands };
}

/// A job is taken.
pub struct Takes;

impl<C> Outcome<Job<C>, View<C>> for Takes {
    ghost use Rattle.trio_pool.specs.inner.Steps.{Took};

    ghost then = { Took };
}

impl<C> Lesson<Job<C>, View<C>> for Takes {
    ghost use Rattle.trio_pool.specs.inner.Steps.{Stands};

    ghost fact = { Stands };
}

/// A job is taken by a view that has every account.
pub struct Empties;

impl<C> Outcome<Job<C>, View<C>> for Empties {
    ghost use Rattle.trio_pool.specs.inner.Steps.{Emptied};

    ghost then = { Emptied };
}

impl<C> Lesson<Job<C>, View<C>> for Empties {
    ghost use Rattle.trio_pool.specs.inner.Steps.{Counted};

    ghost fact = { Counted };
}

/// The next pass is made.
pub struct Deals;

impl<C> Split<View<C>> for Deals {
    ghost use Rattle.trio_pool.specs.inner.Steps.{dealt, dealt_one};

    ghost left = { dealt };

    ghost right = { dealt_one };
}

/// A view takes in another.
pub struct Gathers;

impl<C> Join<View<C>> for Gathers {
    ghost use Rattle.trio_pool.specs.inner.Steps.{both, spent};

    ghost both = { both };

    ghost spent = { spent };
}
