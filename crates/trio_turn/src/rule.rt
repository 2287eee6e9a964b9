//! The table of the cell, and its rule.
//!
//! Word 0 is the next ticket to be drawn, word 1 the ticket that is served, and word 2 how many
//! entries were counted last. The slot has the value.

use crate::logged::Logged;
use crate::view::View;
use atomic_table::{Seat, Shared, Table, TableRule};
use std::alloc::Global;
use std::snapshot::Snapshot;

/// What the table is told once: the value that it begins with, and how many libraries there are.
#[derive(Drop)]
pub struct About<T> {
    pub value: Snapshot<T>,
    pub libraries: u32,
}

/// The rule of tickets, `specs/Rule.antt`.
pub struct Tickets;

impl<T: Logged> TableRule<Option<T>, View<T>, About<T>> for Tickets {
    ghost use Rattle.trio_turn.specs.Rule.{TicketRule};
    ghost use Rattle.trio_turn.specs.inner.Steps.{starting};

    ghost holds = { λ about. TicketRule T.first T.log T.begun about.libraries };

    ghost first = { λ about. starting T.first T.log T.begun about.libraries about.value.value };
}

/// The table, owned.
pub type TicketTable<T> = Table<Option<T>, View<T>, About<T>, Tickets, Global>;

/// The table, as threads step on it.
pub type SharedTable<T> = Shared<Option<T>, View<T>, About<T>, Tickets>;

/// What a thread steps with. It has no bytes.
pub type Token<T> = Seat<Option<T>, View<T>>;
