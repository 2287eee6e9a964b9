//! Many long names that are alike, in several orders.

ghost use Rattle.std.specs.Prelude.{◌≡◌, ◌+◌, ◌<◌, ◌≤◌, length};

use std::alloc::Global;
use trio_names::Name;
use trio_nameset::NameSet;

const COUNT: u32 = 200;

#[derive(Clone, Copy)]
enum Order {
    Rising,
    Falling,
    ZigZag,
}

fn number_at(order: Order, place: u32) -> u32
    requires { place < COUNT }
{
    match order {
        Order::Rising => place,
        Order::Falling => COUNT - 1 - place,
        Order::ZigZag if place % 2 == 0 => place / 2,
        Order::ZigZag => COUNT - 1 - place / 2,
    }
}

// names that differ in their last two bytes of 182, in the order of their numbers
fn long_name(number: u32) -> Option<Name> {
    let mut bytes = [b'n'; 182];
    bytes[180] = b'a' + (number / 16 % 16) as u8;
    bytes[181] = b'a' + (number % 16) as u8;
    Name::read(&bytes).ok()
}

/// Adds the name at a place of an order, and answers its number.
fn adds(set: &mut NameSet, order: Order, place: u32) -> Option<u32>
    requires place { place < COUNT }
    requires room { length set.old.names < set.old.room }
    ensures names { length set.new.names ≤ length set.old.names + 1 }
    ensures room { set.new.room ≡ set.old.room }
{
    match long_name(number_at(order, place)) {
        Some(name) => Some(set.add(&name)),
        None => None,
    }
}

/// How many of the names have their place in this order as their number where all are added in it.
fn count_placed(set: &mut NameSet, order: Order) -> u32
    requires { length set.old.names + 200 ≤ set.old.room }
    ensures names { length set.new.names ≤ length set.old.names + 200 }
    ensures room { set.new.room ≡ set.old.room }
{
    let mut count = 0u32;
    for place in 0..COUNT {
        if adds(set, order, place) == Some(place) {
            count = count.saturating_add(1);
        }
    }
    count
}

/// How many have their places as their numbers where they are added twice in one order, and then, once
/// the set is cleared, twice in another.
fn rounds(alloc: Global, first: Order, second: Order) -> Option<(u32, u32, u32, u32)> {
    let mut set = NameSet::with(alloc, 2 * COUNT).ok()?;
    let before = (count_placed(&mut set, first), count_placed(&mut set, first));
    set.clear();
    let after = (
        count_placed(&mut set, second),
        count_placed(&mut set, second),
    );
    Some((before.0, before.1, after.0, after.1))
}

const ORDERS: &[(Order, Order)] = &[
    (Order::Rising, Order::Falling),
    (Order::Falling, Order::ZigZag),
    (Order::ZigZag, Order::Rising),
];

#[test]
fn a_name_met_again_has_the_number_it_had_until_the_set_is_cleared(rt: HostRuntime) {
    for (i, (first, second)) in ORDERS.iter().enumerate() {
        let counts = rounds(rt.alloc(), *first, *second);
        assert!(rt; counts == Some((COUNT, COUNT, COUNT, COUNT)), "row {i}");
    }
}
