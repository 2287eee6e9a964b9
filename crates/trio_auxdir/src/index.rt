//! The parts of a `HashedDir` after one block more, and its first empty slot.

ghost use Rattle.std.specs.Prelude.{◌≡◌, ◌+◌, ◌<◌, ◌≤◌, ◌^◌, ◌++◌, ◌∷◌, [], None, IfSome, replicate, vec_len, vec_capacity};
ghost use Rattle.trio_layout.specs.Entries.{slot_bytes};
ghost use Rattle.trio_auxdir.specs.Slots.{slot_with, slot_on, slots_on, NamesDiffer};
ghost use Rattle.trio_auxdir.specs.inner.Index.{IsIndex, gap, spare};

use crate::order::put_name;
use trio_layout::{Slot, SlotRead};
use trio_names::Name;
use trio_page::Page;

/// The number of the first empty slot, or how many slots there are. No slot before `from` is empty.
pub(crate) fn first_from(slots: &[Option<Name>], from: usize) -> usize
    requires { from ≤ gap slots.now }
    ensures { result ≡ gap slots.now }
{
    let mut at = from;
    while at < slots.len() && slots[at].is_some() {
        at += 1;
    }
    at
}

/// Adds the 16 slots of a page behind the others. Their names aren't there yet.
pub(crate) fn add_slots(
    slots: &mut Vec<Option<Name>>,
    order: &mut Vec<u32>,
    page: &Page,
    inodes: u32,
)
    requires index { IsIndex slots.old.items order.old.items }
    requires differ { NamesDiffer (slots.old.items ++ slots_on inodes page.now) }
    requires few { vec_len slots.old + 16 ≤ 2 ^ 32 }
    requires place { vec_len slots.old + 16 ≤ vec_capacity slots.old }
    requires room { 16 ≤ spare order.old }
    ensures slots { slots.new.items ≡ slots.old.items ++ slots_on inodes page.now }
    ensures len { vec_len slots.new ≡ vec_len slots.old + 16 }
    ensures index { IsIndex slots.new.items order.new.items }
{
    for slot in 0..16u16 {
        let name = name_on(page, slot, inodes);
        add_slot(slots, order, name);
    }
}

/// Adds one slot behind the others. Its name isn't there yet.
fn add_slot(slots: &mut Vec<Option<Name>>, order: &mut Vec<u32>, slot: Option<Name>)
    requires index { IsIndex slots.old.items order.old.items }
    requires new { IfSome slot (λ name. slot_with name slots.old.items ≡ None) }
    requires few { vec_len slots.old < 2 ^ 32 }
    requires place { vec_len slots.old < vec_capacity slots.old }
    requires room { 0 < spare order.old }
    ensures slots { slots.new.items ≡ slots.old.items ++ slot ∷ [] }
    ensures len { vec_len slots.new ≡ vec_len slots.old + 1 }
    ensures capacity { vec_capacity slots.new ≡ vec_capacity slots.old }
    ensures index { IsIndex slots.new.items order.new.items }
    ensures room { spare order.old ≤ spare order.new + 1 }
{
    let number = slots.len();
    slots.push_reserved(None);
    if let Some(name) = slot {
        put_name(slots, order, number, name);
    }
}

/// Adds 16 empty slots behind the others.
pub(crate) fn add_empties(slots: &mut Vec<Option<Name>>)
    requires { vec_len slots.old + 16 ≤ vec_capacity slots.old }
    ensures slots { slots.new.items ≡ slots.old.items ++ replicate 16 None }
    ensures len { vec_len slots.new ≡ vec_len slots.old + 16 }
    ensures capacity { vec_capacity slots.new ≡ vec_capacity slots.old }
{
    for _ in 0..16u16 {
        slots.push_reserved(None);
    }
}

/// What a slot of a page has.
fn name_on(page: &Page, slot: u16, inodes: u32) -> Option<Name>
    requires { slot < 16 }
    ensures { result ≡ slot_on inodes page.now slot }
{
    match Slot::read(slot_bytes(page.bytes(), slot), inodes) {
        SlotRead::Entry(entry) => Some(entry.name),
        SlotRead::Empty | SlotRead::Bad => None,
    }
}

/// The 256 bytes of a slot.
fn slot_bytes(page: &[u8; 4096], slot: u16) -> &[u8; 256]
    requires { slot < 16 }
    ensures { result.now ≡ slot_bytes slot page.now }
{
    let at = 256 * usize::from(slot);
    page[at..at + 256].as_array().unwrap()
}
