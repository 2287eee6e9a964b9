//! What each kind of step on the table tells, and how views are split and joined.

ghost use Rattle.std.specs.Prelude.{Option};

use crate::logged::Logged;
use crate::view::View;
use atomic_table::{Join, Play, Split};
use std::marker::{Brand, PhantomData};

/// Draws a ticket.
pub struct Draw;

impl<T: Logged> Play<Option<T>, View<T>> for Draw {
    ghost use Rattle.trio_turn.specs.inner.Steps.{drew};

    ghost then = { drew };
}

/// Reads which ticket is served.
pub struct Read;

impl<T: Logged> Play<Option<T>, View<T>> for Read {
    ghost use Rattle.trio_turn.specs.inner.Steps.{read};

    ghost then = { read T.first T.log T.begun };
}

/// The value whose entries a step counts, for the proofs alone: a step that stores a number can't be
/// given a value. A call at `Brand` picks it.
pub trait Told<T> {
    ghost value: { Option T };
}

impl<T> Told<T> for Brand {
    ghost use Rattle.std.specs.Prelude.{None};

    ghost value = { None };
}

/// Sets the count.
pub struct Count<K> {
    told: PhantomData<K>,
}

impl<T: Logged, K: Told<T>> Play<Option<T>, View<T>> for Count<K> {
    ghost use Rattle.trio_turn.specs.inner.Steps.{counted};

    ghost then = { counted T.log T.begun K.value };
}

/// Passes the turn on, and brings the slot home.
pub struct Pass;

impl<T: Logged> Play<Option<T>, View<T>> for Pass {
    ghost use Rattle.trio_turn.specs.inner.Steps.{passed};

    ghost then = { passed };
}

/// The first library of a view goes into a new view.
pub struct Seating;

impl<T: Logged> Split<View<T>> for Seating {
    ghost use Rattle.trio_turn.specs.inner.Steps.{unseated, seated};

    ghost left = { unseated };

    ghost right = { seated };
}

/// A new view without a library has seen as much.
pub struct Copying;

impl<T: Logged> Split<View<T>> for Copying {
    ghost use Rattle.trio_turn.specs.inner.Steps.{copied};

    ghost left = { λ v. v };

    ghost right = { copied };
}

/// A view takes in another.
pub struct Meeting;

impl<T: Logged> Join<View<T>> for Meeting {
    ghost use Rattle.trio_turn.specs.inner.Steps.{met, spent};

    ghost both = { met };

    ghost spent = { spent };
}
