//! The seats of all libraries joined into one.

ghost use Rattle.std.specs.Prelude.{◌≡◌, ◌<◌, [], ◌∷◌, ◌++◌, length, None};
ghost use Rattle.trio_turn.specs.declared.view.Stage.TheVariants.{Idle};
ghost use Rattle.trio_turn.specs.Seats.{cell_of, has, OfEach};
ghost use Rattle.trio_turn.specs.inner.Gathered.{library_of, HasEach};

use crate::logged::Logged;
use crate::plays::{Copying, Meeting};
use crate::rule::{SharedTable, Token};
use crate::seat::LibSeat;

// The seat's library joins those of the token.
fn join_in<T: Logged>(table: &SharedTable<T>, token: &mut Token<T>, seat: LibSeat<T>)
    requires fits { (token.old.table_id ≡ table.now.table_id) × (table.now.table_id.words ≡ 3) }
    requires token { token.old.me.0.stage ≡ Idle }
    requires seat { (cell_of seat ≡ table.now.table_id) × (has seat ≡ None) }
    ensures token { (token.new.table_id ≡ token.old.table_id) × (token.new.me.1 ≡ token.old.me.1) × (token.new.me.0.stage ≡ Idle) }
    ensures libraries { token.new.me.0.libraries ≡ token.old.me.0.libraries ++ library_of seat ∷ [] }
{
    let LibSeat {
        token: other,
        library: _,
        ticket: _,
    } = seat;
    table.join_seat::<Meeting>(token, other);
}

// A token with the library of this seat.
fn alone<T: Logged>(table: &SharedTable<T>, mut seat: LibSeat<T>) -> Token<T>
    requires fits { table.now.table_id.words ≡ 3 }
    requires seat { (cell_of seat ≡ table.now.table_id) × (has seat ≡ None) }
    ensures token { (result.table_id ≡ table.now.table_id) × (result.me.1 ≡ []) × (result.me.0.stage ≡ Idle) }
    ensures libraries { result.me.0.libraries ≡ library_of seat ∷ [] }
{
    let mut token = table.split_seat::<Copying>(&mut seat.token);
    join_in(table, &mut token, seat);
    token
}

// A token with the library of each seat, and all that the seat has seen.
pub(crate) fn gather<T: Logged>(table: &SharedTable<T>, mut seats: Vec<LibSeat<T>>) -> Token<T>
    requires fits { table.now.table_id.words ≡ 3 }
    requires some { 0 < length seats.items }
    requires cell { OfEach (λ s. cell_of s ≡ table.now.table_id) seats.items }
    requires free { OfEach (λ s. has s ≡ None) seats.items }
    ensures token { (result.table_id ≡ table.now.table_id) × (result.me.1 ≡ []) × (result.me.0.stage ≡ Idle) }
    ensures libraries { HasEach result.me.0.libraries seats.items }
{
    let Some(last) = seats.pop() else {
        unreachable!()
    };
    let mut token = alone(table, last);
    while let Some(seat) = seats.pop() {
        join_in(table, &mut token, seat);
    }
    token
}
