//! What a seat at the table knows. These are plain data of the proofs: no value of them is made.

use crate::logged::{Begun, Origin};
use trio_nodes::{Entry, List};

/// A library of a view, as its seat was when it last gave the value back or was joined into another.
pub struct Library {
    pub number: u32,
    /// What the value began from.
    pub first: Origin,
    /// The release that it has begun and not ended.
    pub begun: Option<Begun>,
    /// The entries that its seat had seen.
    pub seen: List<Entry>,
}

/// Where a view stands between two turns.
pub enum Stage<T> {
    /// It has no ticket.
    Idle,
    /// It has this ticket, and isn't served yet.
    Waiting(u64),
    /// It is in its turn with this ticket, and the value was this when its entries were last counted.
    InTurn(u64, T),
    /// It was joined into another.
    Spent,
}

/// What a seat knows.
pub struct View<T> {
    /// What the value began from.
    pub first: Origin,
    /// The entries that the seat has seen.
    pub seen: List<Entry>,
    /// The shorter of the two lists that the last join compared.
    pub shorter: List<Entry>,
    /// The seat's own library, and then those of the seats that were joined into it.
    pub libraries: List<Library>,
    pub stage: Stage<T>,
}
