//! What it takes to tell the tree of an image, by the number of its names.

use std::alloc::Global;
use std::io;
use std::rt::Clock;
use trio_bench_common::{Ratio, Times, least, nanos_since, now};
use trio_layout::Superblock;
use trio_page::{Home, Reads};
use trio_report::{put_tree_lines, tree_json, tree_lines};
use trio_samples::{Sample, SampleFile, directory, regular};

/// The fastest of so many rounds counts.
const ROUNDS: u32 = 5;

/// How many directories the root has, which have the other names.
const DIRECTORIES: u32 = 4;

/// The least number of names, beside which the others stand.
const LEAST: u32 = 1000;

/// Prints in which time trees of 1,000, 4,000 and 16,000 names are told, and how often the time of the
/// first goes into that of each.
pub fn measure_tree<R: Clock + Print + AllocGlobal>(rt: &R) -> io::Result<()> {
    let Some(least) = times_of(rt, rt.alloc(), LEAST) else {
        return println!(rt; "out of memory, or no clock");
    };
    for names in [LEAST, 4000, 16_000] {
        print_row(rt, names, times_of(rt, rt.alloc(), names), least)?;
    }
    Ok(())
}

fn print_row<R: Print>(rt: &R, names: u32, times: Option<Times>, least: Times) -> io::Result<()> {
    match times {
        Some(times) => print_times(rt, names, times, least),
        None => println!(rt; "{names} names: out of memory, or no clock"),
    }
}

fn print_times<R: Print>(rt: &R, names: u32, times: Times, least: Times) -> io::Result<()> {
    println!(rt;
        "{names} names: lines {} us, {} times those of {LEAST}; JSON {} us, {} times",
        times.first / 1000,
        Ratio::of(times.first, least.first),
        times.second / 1000,
        Ratio::of(times.second, least.second)
    )
}

/// The times of the fastest rounds, of the lines and of JSON. `None` where memory is wanting.
fn times_of<R: Clock>(rt: &R, alloc: Global, names: u32) -> Option<Times> {
    let sample = sample_of(alloc, names)?;
    let superblock = *sample.superblock();
    match sample.home(alloc) {
        Ok(mut home) => fastest(rt, alloc, &mut home, &superblock),
        Err(_) => None,
    }
}

fn fastest<R: Clock>(
    rt: &R,
    alloc: Global,
    home: &mut Home,
    superblock: &Superblock,
) -> Option<Times> {
    let mut times = Some(Times::LONGEST);
    for _ in 0..ROUNDS {
        let lines = nanos_of_lines(rt, alloc, home, superblock);
        times = least(times, lines, nanos_of_json(rt, alloc, home, superblock));
    }
    times
}

fn nanos_of_lines<R: Clock>(
    rt: &R,
    alloc: Global,
    home: &mut Home,
    superblock: &Superblock,
) -> Option<u128> {
    let start = now(rt);
    lines_of(alloc, home, superblock)?;
    nanos_since(rt, start)
}

fn nanos_of_json<R: Clock>(
    rt: &R,
    alloc: Global,
    home: &mut Home,
    superblock: &Superblock,
) -> Option<u128> {
    let start = now(rt);
    json_of(alloc, home, superblock)?;
    nanos_since(rt, start)
}

fn lines_of(alloc: Global, home: &mut Home, superblock: &Superblock) -> Option<Vec<u8>> {
    let mut text = Vec::new(alloc);
    put_lines(alloc, &mut text, home, superblock)?;
    Some(text)
}

fn put_lines(
    alloc: Global,
    text: &mut Vec<u8>,
    home: &mut Home,
    superblock: &Superblock,
) -> Option<()> {
    let lines = tree_lines(alloc, home, superblock, &mut Reads::new()).ok()?;
    put_tree_lines(alloc, text, &lines).ok()
}

fn json_of(alloc: Global, home: &mut Home, superblock: &Superblock) -> Option<Vec<u8>> {
    let lines = tree_lines(alloc, home, superblock, &mut Reads::new()).ok()?;
    tree_json(alloc, &lines).ok()
}

/// An image of so many names: the root has four directories, among which empty files are shared out. Their
/// names lie in no order.
fn sample_of(alloc: Global, names: u32) -> Option<Sample> {
    let spelled = spellings(alloc, names)?;
    match files_of(alloc, &spelled) {
        Some(files) => Sample::of(alloc, 8192, 16_384, &files).ok(),
        None => None,
    }
}

fn spellings(alloc: Global, names: u32) -> Option<Vec<[u8; 5]>> {
    let mut spelled = Vec::new(alloc);
    for number in 0..names {
        spelled.push(spelling(number)).ok()?;
    }
    Some(spelled)
}

fn files_of(alloc: Global, names: &[[u8; 5]]) -> Option<Vec<SampleFile<'_>>> {
    let mut files = Vec::new(alloc);
    files.push(directory(1, 0, b"")).ok()?;
    let mut number: u32 = 0;
    for name in names {
        files.push(file_of(number, name)).ok()?;
        number = number.wrapping_add(1);
    }
    Some(files)
}

/// The file of this number, of which the first are the directories.
fn file_of(number: u32, name: &[u8; 5]) -> SampleFile<'_> {
    let ino = number.wrapping_add(2);
    if number < DIRECTORIES {
        return directory(ino, 1, name);
    }
    regular(ino, (number % DIRECTORIES).wrapping_add(2), name, b"")
}

/// Another five digits for each number below 2 ^ 16, in no order.
fn spelling(number: u32) -> [u8; 5] {
    let mut rest = number.wrapping_mul(40_503) % 65_536;
    let mut digits = [b'0'; 5];
    for digit in digits.iter_mut().rev() {
        *digit = b'0'.wrapping_add((rest % 10) as u8);
        rest /= 10;
    }
    digits
}
