//! Lent things, named by their numbers.

ghost use Rattle.std.specs.Prelude.{◌≡◌, ◌+◌, ◌==◌, ◌≤◌, ◌++◌, ◌&&◌, ◌||◌, IsTrue, [], length, map, vec_capacity, vec_len};
ghost use Rattle.std.specs.List.{find, list_all};
ghost use Rattle.trio_lists.specs.Lists.{are_new, is_among};
ghost use Rattle.trio_raw.specs.Has.{are_there, named, without, without_all};

use trio_lease::things::{Lent, has_one, place_of};

/// The numbers of these things, in their order, in an empty list that has room for them.
pub(crate) fn numbers_of<T: Lent>(things: &[T], mut numbers: Vec<u32>) -> Vec<u32>
    requires empty { vec_len numbers ≡ 0 }
    requires room { length things.now ≤ vec_capacity numbers }
    ensures { result.items ≡ map T.number_of things.now }
{
    for thing in things {
        numbers.push_reserved(thing.number());
    }
    numbers
}

/// Whether no number stands twice.
fn are_once(numbers: &[u32]) -> bool
    ensures { result ≡ are_new [] numbers.now }
{
    for i in 0..numbers.len() {
        if numbers[..i].contains(&numbers[i]) {
            return false;
        }
    }
    true
}

/// Whether there is a thing of each of these numbers, and none of them stands twice.
pub(crate) fn have_all<T: Lent>(things: &[T], numbers: &[u32]) -> bool
    ensures { result ≡ are_there T.number_of things.now numbers.now }
{
    for number in numbers {
        if !has_one(things, *number) {
            return false;
        }
    }
    are_once(numbers)
}

/// The same of things of two kinds.
pub(crate) fn have_either<T: Lent, U: Lent>(things: &[T], others: &[U], numbers: &[u32]) -> bool
    ensures { result ≡ (list_all (λ n. is_among n (map T.number_of things.now) || is_among n (map U.number_of others.now)) numbers.now && are_new [] numbers.now) }
{
    for number in numbers {
        if !has_one(things, *number) && !has_one(others, *number) {
            return false;
        }
    }
    are_once(numbers)
}

/// Takes the first thing of this number out of the list, where there is one.
pub(crate) fn take_one<T: Lent>(things: &mut Vec<T>, number: u32) -> Option<T>
    ensures taken { result ≡ find (λ x. T.number_of x == number) things.old.items }
    ensures rest { things.new.items ≡ without T.number_of things.old.items number }
    ensures capacity { vec_capacity things.new ≡ vec_capacity things.old }
{
    match place_of(things, number) {
        Some(i) => Some(things.remove(i)),
        None => None,
    }
}

/// Moves the things of these numbers, where they are there, from one list to the end of another, in
/// the order of the numbers. None of these stands twice, and the other list has room for them.
pub(crate) fn move_all<T: Lent>(things: &mut Vec<T>, numbers: &[u32], taken: &mut Vec<T>)
    requires once { IsTrue (are_new [] numbers.now) }
    requires room { vec_len taken.old + length numbers.now ≤ vec_capacity taken.old }
    ensures taken { taken.new.items ≡ taken.old.items ++ named T.number_of things.old.items numbers.now }
    ensures rest { things.new.items ≡ without_all T.number_of things.old.items numbers.now }
    ensures count { vec_len things.new + vec_len taken.new ≡ vec_len things.old + vec_len taken.old }
    ensures capacity { vec_capacity things.new ≡ vec_capacity things.old }
{
    for number in numbers {
        let Some(thing) = take_one(things, *number) else {
            continue;
        };
        if let Err(failed) = taken.push(thing) {
            failed.value.let_go();
            unreachable!()
        }
    }
}
