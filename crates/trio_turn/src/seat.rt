//! The seat of a library.

ghost use Rattle.std.specs.Prelude.{◌≡◌, true, length};
ghost use Rattle.trio_turn.specs.Views.{own_number};
ghost use Rattle.trio_turn.specs.inner.Resting.{is_resting, carries};

use crate::rule::Token;
use trio_rights::LibNo;

/// The seat of a library at one cell.
///
/// Contracts see of it the cell, the library's number, what the cell's value began from, the
/// entries that the seat has seen, the release that the library has begun and not ended, and,
/// between `take` and `give`, the value that it took (`specs/Seats.antt`). A seat that is dropped
/// keeps its cell from being closed.
#[derive(Drop)]
pub struct LibSeat<T> {
    pub(crate) token: Token<T>,
    pub(crate) library: LibNo,
    // the ticket of the turn that it is in, or of its last one
    pub(crate) ticket: u64,
    pub ghost rests: { is_resting ticket token.me.0.stage ≡ true },
    pub ghost slot: { token.me.1 ≡ carries token.me.0.stage },
    pub ghost numbered: { own_number token.me.0.libraries ≡ library.0 },
    pub ghost alone: { length token.me.0.libraries ≡ 1 },
}
