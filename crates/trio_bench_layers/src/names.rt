//! What the index of a directory takes for names of one choice, beside another.

use std::alloc::Global;
use std::io;
use std::rt::Clock;
use trio_auxdir::{Finds, HashedDir};
use trio_bench_common::{Times, least, nanos_since, now};
use trio_names::Name;

/// The fastest of so many rounds counts.
const ROUNDS: u32 = 20;

/// How many names there are.
const COUNT: u32 = 8000;

/// How names are chosen, and in which order they come.
#[derive(Clone, Copy)]
enum Choice {
    /// Of four bytes, in no order.
    Plain,
    /// The same in falling order.
    Falling,
    /// Of 184 bytes, the first 180 of which are the same in each, in no order.
    Alike,
    /// The same in falling order.
    AlikeFalling,
}

/// What is measured beside the plain choice.
const MEASURES: &[(&str, Choice)] = &[
    ("8,000 names", Choice::Plain),
    ("8,000 names in falling order", Choice::Falling),
    ("8,000 names that begin alike", Choice::Alike),
    (
        "8,000 names that begin alike, in falling order",
        Choice::AlikeFalling,
    ),
];

/// Prints in which time names of each choice are added to a directory, found, renamed and removed, and
/// how often the time of the plain choice goes into that of each. The rounds of both come in turn.
pub fn measure_names<R: Clock + Print + AllocGlobal>(rt: &R) -> io::Result<()> {
    for (text, choice) in MEASURES {
        print_row(rt, text, times_of(rt, rt.alloc(), *choice))?;
    }
    Ok(())
}

fn print_row<R: Print>(rt: &R, text: &str, times: Option<Times>) -> io::Result<()> {
    match times {
        Some(times) => println!(rt;
            "{text}: {} us, {} times plain ones",
            times.first / 1000,
            times.ratio()
        ),
        None => println!(rt; "{text}: out of memory, or no clock"),
    }
}

/// The names that are added, and those to which they are renamed.
#[derive(Drop)]
struct Names {
    first: Vec<Name>,
    others: Vec<Name>,
}

fn names_of(alloc: Global, choice: Choice) -> Option<Names> {
    let first = spelled(alloc, choice, b'0')?;
    let others = spelled(alloc, choice, b'a')?;
    Some(Names { first, others })
}

/// The times of the fastest rounds of a choice and of the plain one. `None` where memory is wanting.
fn times_of<R: Clock>(rt: &R, alloc: Global, choice: Choice) -> Option<Times> {
    let chosen = names_of(alloc, choice)?;
    let plain = names_of(alloc, Choice::Plain)?;
    fastest(rt, alloc, &chosen, &plain)
}

fn fastest<R: Clock>(rt: &R, alloc: Global, chosen: &Names, plain: &Names) -> Option<Times> {
    let mut times = Some(Times::LONGEST);
    for _ in 0..ROUNDS {
        let nanos = nanos_of(rt, alloc, chosen);
        times = least(times, nanos, nanos_of(rt, alloc, plain));
    }
    times
}

/// The nanoseconds of one round, in a directory that is empty at first and in the end.
fn nanos_of<R: Clock>(rt: &R, alloc: Global, names: &Names) -> Option<u128> {
    let mut dir = HashedDir::new(alloc, 16_384);
    nanos_in(rt, &mut dir, names)
}

fn nanos_in<R: Clock>(rt: &R, dir: &mut HashedDir, names: &Names) -> Option<u128> {
    let mut finds = Finds::new();
    let start = now(rt);
    fill_and_empty(dir, &mut finds, &names.first, &names.others)?;
    nanos_since(rt, start)
}

/// Adds the names to the directory, finds each, renames it to another, and removes that.
fn fill_and_empty(
    dir: &mut HashedDir,
    finds: &mut Finds,
    names: &[Name],
    others: &[Name],
) -> Option<()> {
    for name in names {
        add(dir, finds, name)?;
    }
    for name in names {
        dir.find(name, finds)?;
    }
    for (from, to) in names.iter().zip(others) {
        rename(dir, finds, from, to)?;
    }
    for name in others {
        remove(dir, finds, name)?;
    }
    Some(())
}

/// Adds a name that isn't there at the first empty slot, with a new block where there is none.
fn add(dir: &mut HashedDir, finds: &mut Finds, name: &Name) -> Option<()> {
    if dir.first_empty().is_none() {
        grow(dir)?;
    }
    dir.reserve().ok()?;
    let place = dir.first_empty()?;
    if dir.find(name, finds).is_none() {
        dir.add(*name, place);
    }
    Some(())
}

fn grow(dir: &mut HashedDir) -> Option<()> {
    dir.reserve().ok()?;
    dir.grow();
    Some(())
}

/// Renames a name that is there to one that isn't.
fn rename(dir: &mut HashedDir, finds: &mut Finds, from: &Name, to: &Name) -> Option<()> {
    dir.reserve().ok()?;
    if dir.find(from, finds).is_some() && dir.find(to, finds).is_none() {
        dir.rename(from, *to);
    }
    Some(())
}

/// Removes a name that is there.
fn remove(dir: &mut HashedDir, finds: &mut Finds, name: &Name) -> Option<()> {
    dir.find(name, finds)?;
    dir.remove(name);
    Some(())
}

/// The names of a choice, in its order, with `zero` for the digit 0.
fn spelled(alloc: Global, choice: Choice, zero: u8) -> Option<Vec<Name>> {
    let mut names = Vec::with_capacity(alloc, COUNT as usize).ok()?;
    for place in 0..COUNT {
        names.push(name_at(choice, place, zero)?).ok()?;
    }
    Some(names)
}

/// The name that comes at this place.
fn name_at(choice: Choice, place: u32, zero: u8) -> Option<Name> {
    let mut bytes = [b'n'; 184];
    put_digits(&mut bytes[180..], number_at(choice, place), zero);
    match choice {
        Choice::Plain | Choice::Falling => Name::read(&bytes[180..]).ok(),
        Choice::Alike | Choice::AlikeFalling => Name::read(&bytes).ok(),
    }
}

/// The number that is spelled at this place.
fn number_at(choice: Choice, place: u32) -> u32 {
    match choice {
        Choice::Plain | Choice::Alike => place.wrapping_mul(40_503) % COUNT,
        Choice::Falling | Choice::AlikeFalling => COUNT.wrapping_sub(place),
    }
}

/// Writes the last digits of a number, with `zero` for the digit 0.
fn put_digits(digits: &mut [u8], number: u32, zero: u8) {
    let mut rest = number;
    for digit in digits.iter_mut().rev() {
        *digit = zero.wrapping_add((rest % 10) as u8);
        rest /= 10;
    }
}
