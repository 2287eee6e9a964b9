//! The calls of the cell.

ghost use Rattle.std.specs.Prelude.{◌≡◌, ◌≢◌, ◌⊎◌, ℕ, ◌+◌, ◌-◌, ◌<◌, ◌≤◌, [], ◌∷◌, length, None, Some, IsSome, IfSome, IfOk, IfErr, IsOk};
ghost use mathlib.Core.List.{IsPrefix};
ghost use Rattle.trio_turn.specs.Logs.{made_by, GrewBy, IsInLine};
ghost use Rattle.trio_turn.specs.Seats.{cell, library_count, first_value, cell_of, library, first, seen, mine, begun, has, IsSameSeat, IsNew, OfEach, AllNew, EverySeat};
ghost use Rattle.trio_turn.specs.inner.Steps.{dealing};

use crate::cell::Turn;
use crate::gather::gather;
use crate::logged::Logged;
use crate::plays::{Copying, Meeting, Seating};
use crate::rule::{TicketTable, Token};
use crate::seat::LibSeat;
use crate::setup::set_up;
use crate::steps::{count, draw, look, pass, wait};
use std::alloc::{AllocError as NoMemory, Global};
use std::marker::Brand;
use std::snapshot::Snapshot;
use std::sync::Wait;
use trio_rights::LibNo;

// The seat of the first library that the dealer has left, after so many others were dealt.
fn deal<T: Logged>(
    table: &TicketTable<T>,
    dealer: &mut Token<T>,
    value: &Snapshot<T>,
    dealt: u32,
    n: u32,
) -> LibSeat<T>
    requires fits { (dealer.old.table_id ≡ table.now.shared.table_id) × (table.now.shared.table_id.words ≡ 3) }
    requires dealer { (dealt < n) × (dealer.old.me ≡ (dealing T.first T.log T.begun value.now.value (dealt + 1) (n - dealt), [])) }
    ensures dealer { (dealer.new.table_id ≡ dealer.old.table_id) × (dealer.new.me ≡ (dealing T.first T.log T.begun value.now.value (dealt + 1 + 1) (n - (dealt + 1)), [])) }
    ensures seat { IsNew dealer.old.table_id (T.first value.now.value) (T.begun value.now.value (dealt + 1)) (dealt + 1) result }
{
    let token = table.shared.split_seat::<Seating>(dealer);
    LibSeat {
        token,
        library: LibNo(dealt + 1),
        ticket: 0,
    }
}

impl<T> LibSeat<T> {
    /// The seat's library.
    pub fn library(&self) -> LibNo
        ensures { result.0 ≡ library self.now }
    {
        self.library
    }
}

impl<T: Logged> Turn<T> {
    /// A cell with this value, and a seat for each of `n` libraries, from library 1 on.
    ///
    /// `NoMemory`: the value comes back. No other call of the cell takes memory.
    pub fn start(
        alloc: Global,
        value: T,
        n: u32,
    ) -> Result<(Turn<T>, Vec<LibSeat<T>>), (T, NoMemory)>
        requires count { (1 ≤ n) × (n ≤ 16) }
        requires empty { T.log value ≡ [] }
        ensures libraries { IfOk result (λ r. (library_count r.0 ≡ n) × (length r.1.items ≡ n)) }
        ensures value { IfOk result (λ r. first_value r.0 ≡ value) }
        ensures seats { IfOk result (λ r. AllNew (cell r.0) (T.first value) (T.begun value) r.1.items) }
        ensures err { IfErr result (λ e. e.0 ≡ value) }
    {
        let Ok(mut seats) = Vec::with_capacity(alloc, n as usize) else {
            return Err((value, NoMemory));
        };
        let told = Snapshot::of(&value);
        let (table, mut dealer) = set_up(alloc, value, n)?;
        for k in 0..n {
            let seat = deal(&table, &mut dealer, &told, k, n);
            let Ok(()) = seats.push(seat) else {
                unreachable!()
            };
        }
        Ok((Turn { table }, seats))
    }

    /// Waits until its ticket is served, and takes the value out.
    ///
    /// The value's entries are those that the seat has seen, and then entries of others.
    pub fn take<R: Wait>(&self, rt: &R, seat: &mut LibSeat<T>) -> T
        requires cell { cell_of seat.old ≡ cell self.now }
        requires free { has seat.old ≡ None }
        ensures same { IsSameSeat seat.old seat.new }
        ensures kept { (seen seat.new ≡ seen seat.old) × (begun seat.new ≡ begun seat.old) }
        ensures has { has seat.new ≡ Some result }
        ensures grew { IsPrefix (seen seat.old) (T.log result) }
        ensures mine { made_by (library seat.old) (T.log result) ≡ mine seat.old }
        ensures first { T.first result ≡ first seat.old }
        ensures begun { T.begun result (library seat.old) ≡ begun seat.old }
    {
        let table = &self.table.shared;
        let ticket = draw(rt, table, &mut seat.token);
        wait(rt, table, &mut seat.token, ticket);
        seat.ticket = ticket;
        let Some(value) = table.exchange(&mut seat.token, 0, None) else {
            unreachable!()
        };
        value
    }

    /// Puts the value back, of which the seat has then seen every entry, and passes the turn on.
    ///
    /// Since it was taken, its history may only have grown by entries of the seat's library. What
    /// it began from and what other libraries have begun are as they were.
    pub fn give(&self, seat: &mut LibSeat<T>, value: T)
        requires cell { cell_of seat.old ≡ cell self.now }
        requires has { IsSome (has seat.old) }
        requires grew { IfSome (has seat.old) (λ x. GrewBy (library seat.old) (T.log x) (T.log value)) }
        requires first { IfSome (has seat.old) (λ x. T.first value ≡ T.first x) }
        requires others { IfSome (has seat.old) (λ x. (l : ℕ) → l ≢ library seat.old → T.begun value l ≡ T.begun x l) }
        ensures same { IsSameSeat seat.old seat.new }
        ensures seen { seen seat.new ≡ T.log value }
        ensures begun { begun seat.new ≡ T.begun value (library seat.old) }
        ensures given { has seat.new ≡ None }
    {
        let table = &self.table.shared;
        count::<T, Brand>(table, &mut seat.token, &value);
        let before = table.exchange(&mut seat.token, 0, Some(value));
        let None = before else { unreachable!() };
        pass(table, &mut seat.token, seat.ticket);
    }

    /// Lets `a` see what `b` has seen. Either may have the value. Nothing else changes.
    pub fn meet(&self, a: &mut LibSeat<T>, b: &mut LibSeat<T>)
        requires cell { (cell_of a.old ≡ cell self.now) × (cell_of b.old ≡ cell self.now) }
        ensures same { IsSameSeat a.old a.new }
        ensures own { (mine a.new ≡ mine a.old) × (begun a.new ≡ begun a.old) × (has a.new ≡ has a.old) }
        ensures one { (seen a.new ≡ seen a.old) ⊎ (seen a.new ≡ seen b.old) }
        ensures saw { IsPrefix (seen a.old) (seen a.new) × IsPrefix (seen b.old) (seen a.new) }
        ensures in_line { IsInLine (seen a.old) (seen b.old) }
        ensures stays { IsSameSeat b.old b.new × (seen b.new ≡ seen b.old) × (begun b.new ≡ begun b.old) × (has b.new ≡ has b.old) }
    {
        let table = &self.table.shared;
        look(table, &mut a.token);
        let copy = table.split_seat::<Copying>(&mut b.token);
        table.join_seat::<Meeting>(&mut a.token, copy);
        look(table, &mut a.token);
    }

    /// The value, once the seat of every library has come back. It needs no memory.
    ///
    /// Its entries begin with what each seat has seen, and each library's are those that its seat
    /// has seen.
    pub fn close(self, seats: Vec<LibSeat<T>>) -> Result<T, (Turn<T>, Vec<LibSeat<T>>, NoMemory)>
        requires cell { OfEach (λ s. cell_of s ≡ cell self) seats.items }
        requires free { OfEach (λ s. has s ≡ None) seats.items }
        requires every { EverySeat (library_count self) seats.items }
        ensures seen { IfOk result (λ x. OfEach (λ s. IsPrefix (seen s) (T.log x)) seats.items) }
        ensures mine { IfOk result (λ x. OfEach (λ s. made_by (library s) (T.log x) ≡ mine s) seats.items) }
        ensures first { IfOk result (λ x. OfEach (λ s. T.first x ≡ first s) seats.items) }
        ensures begun { IfOk result (λ x. OfEach (λ s. T.begun x (library s) ≡ begun s) seats.items) }
        ensures memory { IsOk result }
    {
        let Turn { table } = self;
        let token = gather(&table.shared, seats);
        let mut closed = table.close_with(token);
        let Some(value) = closed.take(0) else {
            unreachable!()
        };
        closed.free();
        Ok(value)
    }
}
