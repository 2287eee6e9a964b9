//! The byte order of the names in a directory's slots: a list of the slots' numbers.

ghost use Rattle.std.specs.Prelude.{◌≡◌, ◌+◌, ◌<◌, ◌≤◌, ◌^◌, None, Some, IfErr, IfOk, IsSome, slice_get, slice_set, vec_capacity, vec_len};
ghost use Rattle.std.specs.Ordering.{nat_cmp};
ghost use Rattle.std.specs.Cmp.Lexicographic.{slice_cmp};
ghost use Rattle.trio_auxdir.specs.Slots.{slot_with};
ghost use Rattle.trio_auxdir.specs.inner.Index.{IsAt, IsGap, IsIndex, IsOrder, name_of, slot_at, spare};

use std::cmp::Ordering;
use trio_names::Name;

/// The place of a name in the order; `Err` has the place where it belongs if it isn't there.
fn position(slots: &[Option<Name>], order: &[u32], name: &Name) -> Result<usize, usize>
    requires { IsOrder (slot_at slots.now) order.now }
    ensures found { IfOk result (λ at. IsAt (slot_at slots.now) order.now name.now at) }
    ensures absent { IfErr result (λ at. IsGap (slot_at slots.now) order.now name.now at) }
{
    let (mut low, mut high) = (0, order.len());
    while low < high {
        let middle = low + (high - low) / 2;
        match compare(slots, order[middle], name) {
            Ordering::Less => low = middle + 1,
            Ordering::Equal => return Ok(middle),
            Ordering::Greater => high = middle,
        }
    }
    Err(low)
}

/// How the name in a slot compares with this one.
fn compare(slots: &[Option<Name>], number: u32, name: &Name) -> Ordering
    requires { IsSome (slot_at slots.now number) }
    ensures { result ≡ slice_cmp nat_cmp (name_of (slot_at slots.now number)) name.now }
{
    match &slots[number as usize] {
        Some(other) => other.cmp(name),
        None => unreachable!(),
    }
}

/// The number of the slot that has this name.
pub(crate) fn number_of(slots: &[Option<Name>], order: &[u32], name: &Name) -> Option<u32>
    requires { IsIndex slots.now order.now }
    ensures { result ≡ slot_with name.now slots.now }
{
    match position(slots, order, name) {
        Ok(at) => Some(order[at]),
        Err(_) => None,
    }
}

/// Puts a name that isn't there into an empty slot.
pub(crate) fn put_name(
    slots: &mut Vec<Option<Name>>,
    order: &mut Vec<u32>,
    number: usize,
    name: Name,
)
    requires index { IsIndex slots.old.items order.old.items }
    requires new { slot_with name slots.old.items ≡ None }
    requires empty { slice_get slots.old.items number ≡ Some None }
    requires few { vec_len slots.old ≤ 2 ^ 32 }
    requires room { 0 < spare order.old }
    ensures slots { slots.new.items ≡ slice_set slots.old.items number (Some name) }
    ensures len { vec_len slots.new ≡ vec_len slots.old }
    ensures capacity { vec_capacity slots.new ≡ vec_capacity slots.old }
    ensures index { IsIndex slots.new.items order.new.items }
    ensures room { spare order.old ≤ spare order.new + 1 }
{
    let at = position(slots, order, &name).unwrap_err();
    let inserted: Result<_, _> = order.insert(at, number as u32);
    inserted.unwrap();
    slots[number] = Some(name);
}

/// Empties the slot that has this name. Its number.
pub(crate) fn clear_name(slots: &mut Vec<Option<Name>>, order: &mut Vec<u32>, name: &Name) -> usize
    requires index { IsIndex slots.old.items order.old.items }
    requires there { IsSome (slot_with name.now slots.old.items) }
    ensures number { slot_with name.now slots.old.items ≡ Some result }
    ensures slots { slots.new.items ≡ slice_set slots.old.items result None }
    ensures capacity { vec_capacity slots.new ≡ vec_capacity slots.old }
    ensures index { IsIndex slots.new.items order.new.items }
    ensures room { spare order.old ≤ spare order.new }
{
    let at = position(slots, order, name).unwrap();
    let number = order.remove(at) as usize;
    slots[number] = None;
    number
}
