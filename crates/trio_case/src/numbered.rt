//! Numbers that differ, by their places.

ghost use Rattle.std.specs.Prelude.{◌≡◌, ◌≤◌, ◌<◌, ◌^◌, [], true, IfOk, length, vec_capacity};
ghost use Rattle.trio_lists.specs.Lists.{In, are_new, is_among};
ghost use Rattle.trio_case.specs.Order.{in_order, place_of};
ghost use Rattle.trio_case.specs.inner.Numbered.{AreCounted, HasNumberPlaces, counted_numbers, is_blank};

use crate::listing::push;
use std::alloc::Global;
use std::marker::Model;
use trio_page::NoMemory;

/// A number and its place in a list.
#[derive(Clone, Copy)]
pub(crate) struct NumberPlace {
    pub no: u32,
    pub at: usize,
}

/// How many bytes a room takes for each number.
pub(crate) const NUMBER_BYTES: usize = size_of::<u32>() + size_of::<NumberPlace>();

/// Numbers in the order in which they were added, with the memory to sort them.
#[derive(Drop)]
pub(crate) struct NumbersRoom {
    pub numbers: Vec<u32>,
    pub places: Vec<NumberPlace>,
}

impl NumbersRoom {
    /// No numbers, with room for so many.
    pub fn with(alloc: Global, count: usize) -> Result<NumbersRoom, NoMemory>
        ensures room { IfOk result (HasNumberPlaces count) }
        ensures empty { IfOk result is_blank }
    {
        Ok(NumbersRoom {
            numbers: Vec::with_capacity(alloc, count)?,
            places: Vec::with_capacity(alloc, count)?,
        })
    }
}

/// Numbers that differ. The place of one is found by halving.
///
/// Contracts see the list of the numbers.
#[derive(Drop)]
pub(crate) struct Places {
    numbers: Vec<u32>,
    // each with its place, in rising order of the numbers
    places: Vec<NumberPlace>,
}

impl Model for Places {
    ghost use Rattle.std.specs.Prelude.{List, ℕ};
    ghost use Rattle.trio_case.specs.inner.Numbered.{ArePlaced};

    ghost Value = { List ℕ };

    ghost view = { λ p. p.numbers.items };

    ghost invariant = { λ p. ArePlaced p.numbers.items p.places.items };
}

impl Places {
    /// The numbers that were added to this room. It takes no memory.
    pub fn of(room: NumbersRoom) -> Places
        requires room { HasNumberPlaces (length room.numbers.items) room }
        requires differ { are_new [] room.numbers.items ≡ true }
        ensures { result ≡ room.numbers.items }
    {
        let NumbersRoom {
            numbers,
            mut places,
        } = room;
        set_places(&mut places, &numbers);
        sort_places(&mut places);
        Places { numbers, places }
    }

    /// The place of a number; `None` exactly where it is none of these.
    pub fn find(&self, no: u32) -> Option<usize>
        ensures { result ≡ place_of no self.now }
    {
        let at = self
            .places
            .binary_search_by_key(&no, |place| place.no)
            .ok()?;
        Some(self.places.get(at)?.at)
    }

    /// Whether a number is one of these.
    pub fn has(&self, no: u32) -> bool
        ensures { result ≡ is_among no self.now }
    {
        self.find(no).is_some()
    }

    /// How many numbers there are.
    pub fn len(&self) -> usize
        ensures len { result ≡ length self.now }
        ensures few { length self.now < 2 ^ 63 }
    {
        self.numbers.len()
    }

    /// The numbers in rising order, in a list that has places for them.
    pub fn in_order(&self, mut order: Vec<u32>) -> Vec<u32>
        requires { length self.now ≤ vec_capacity order }
        ensures { result.items ≡ in_order self.now }
    {
        set_order(&mut order, &self.places);
        order
    }
}

/// Makes a list, which has places for them, these numbers with their places.
fn set_places(places: &mut Vec<NumberPlace>, numbers: &[u32])
    requires { length numbers.now ≤ vec_capacity places.old }
    ensures numbers { counted_numbers places.new.items ≡ numbers.now }
    ensures counted { AreCounted numbers.now places.new.items }
{
    places.clear();
    for at in 0..numbers.len() {
        let no = numbers[at];
        push(places, NumberPlace { no, at });
    }
}

/// Puts numbers into rising order.
fn sort_places(places: &mut Vec<NumberPlace>)
    ensures numbers { counted_numbers places.new.items ≡ in_order (counted_numbers places.old.items) }
    ensures each { (p : NumberPlace) → In p places.new.items → In p places.old.items }
{
    places.sort_unstable_by_key(|place| place.no);
}

/// Makes a list, which has places for them, the numbers of these places.
fn set_order(order: &mut Vec<u32>, places: &[NumberPlace])
    requires { length places.now ≤ vec_capacity order.old }
    ensures { order.new.items ≡ counted_numbers places.now }
{
    order.clear();
    for place in places {
        push(order, place.no);
    }
}
