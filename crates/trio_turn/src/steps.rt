//! The steps on the words of the table.

ghost use Rattle.std.specs.Prelude.{◌≡◌, ◌≢◌, ℕ, ◌+◌, ◌^◌, ◌<◌, [], ◌∷◌, length, Some, None};
ghost use Rattle.trio_turn.specs.declared.view.Stage.TheVariants.{Idle, Waiting, InTurn};
ghost use Rattle.trio_turn.specs.declared.view.Library.{Library};
ghost use Rattle.trio_turn.specs.Logs.{GrewBy};
ghost use Rattle.trio_turn.specs.inner.Steps.{staged, counted_at, DoesNotWait, Learns, LooksAt};

use crate::logged::Logged;
use crate::plays::{Count, Draw, Pass, Read, Told};
use crate::rule::{SharedTable, Token};
use std::sync::Wait;
use std::thread;

// Draws a ticket. Once every ticket has been drawn it waits forever.
pub(crate) fn draw<T: Logged, R: Wait>(rt: &R, table: &SharedTable<T>, token: &mut Token<T>) -> u64
    requires fits { (token.old.table_id ≡ table.now.table_id) × (table.now.table_id.words ≡ 3) }
    requires view { (token.old.me.0.stage ≡ Idle) × (0 < length token.old.me.0.libraries) }
    ensures same { token.new.table_id ≡ token.old.table_id }
    ensures view { token.new.me ≡ (staged token.old.me.0 (Waiting result), token.old.me.1) }
    ensures room { result < 18446744073709551615 }
{
    let mut next = 0;
    for _ in rt.forever() {
        let found = table.compare_exchange::<Draw>(token, 0, next, next + 1);
        if found == next {
            return next;
        }
        next = if found < u64::MAX { found } else { 0 };
    }
    unreachable!()
}

// Waits until its ticket is served, and takes the slot with the value.
pub(crate) fn wait<T: Logged, R: Wait>(
    rt: &R,
    table: &SharedTable<T>,
    token: &mut Token<T>,
    ticket: u64,
)
    requires fits { (token.old.table_id ≡ table.now.table_id) × (table.now.table_id.words ≡ 3) }
    requires view { (token.old.me.0.stage ≡ Waiting ticket) × (0 < length token.old.me.0.libraries) }
    ensures same { token.new.table_id ≡ token.old.table_id }
    ensures view { (x : T) × (token.new.me ≡ (staged token.old.me.0 (InTurn ticket x), (0, Some x) ∷ token.old.me.1)) × Learns T.first T.log T.begun token.old.me.0 x }
{
    for _ in rt.forever() {
        if table.load::<Read>(token, 1) == ticket {
            return;
        }
        thread::yield_now();
    }
    unreachable!()
}

// Passes the turn on, and brings the slot home.
pub(crate) fn pass<T: Logged>(table: &SharedTable<T>, token: &mut Token<T>, ticket: u64)
    requires fits { (token.old.table_id ≡ table.now.table_id) × (table.now.table_id.words ≡ 3) }
    requires room { ticket < 18446744073709551615 }
    requires view { (x : T) × (token.old.me.0.stage ≡ InTurn ticket x) × (token.old.me.1 ≡ (0, Some x) ∷ []) }
    ensures same { token.new.table_id ≡ token.old.table_id }
    ensures view { token.new.me ≡ (staged token.old.me.0 Idle, []) }
{
    table.store::<Pass>(token, 1, ticket + 1);
}

// Counts the entries of the value that the seat in its turn has.
pub(crate) fn count<T: Logged, K: Told<T>>(table: &SharedTable<T>, token: &mut Token<T>, value: &T)
    requires told { K.value ≡ Some value.now }
    requires fits { (token.old.table_id ≡ table.now.table_id) × (table.now.table_id.words ≡ 3) }
    requires view { (t : ℕ) × (x : T) × (p : Library) × (token.old.me.0.stage ≡ InTurn t x) × (token.old.me.0.libraries ≡ p ∷ []) × (T.first value.now ≡ T.first x) × GrewBy p.number (T.log x) (T.log value.now) × ((k : ℕ) → k ≢ p.number → T.begun value.now k ≡ T.begun x k) }
    ensures same { token.new.table_id ≡ token.old.table_id }
    ensures view { token.new.me ≡ (counted_at value.now T.log T.begun token.old.me.0 token.old.me.0.stage, token.old.me.1) }
{
    let entries = value.len();
    table.store::<Count<K>>(token, 2, entries);
}

// Learns how the lists of a view lie in the history.
pub(crate) fn look<T: Logged>(table: &SharedTable<T>, token: &mut Token<T>)
    requires fits { (token.old.table_id ≡ table.now.table_id) × (table.now.table_id.words ≡ 3) }
    requires view { DoesNotWait token.old.me.0.stage }
    ensures same { token.new.table_id ≡ token.old.table_id }
    ensures view { (token.new.me ≡ token.old.me) × LooksAt T.first T.log T.begun token.old.me.0 }
{
    table.load::<Read>(token, 1);
}
