//! What checking an image costs, beside reading its file.

use std::alloc::Global;
use std::fs::File;
use std::io;
use std::rt::{Clock, Files as Host};
use trio_bench_common::{Times, least, nanos_since, now};
use trio_image::load;
use trio_io::{Files, RealFiles, read_whole};
use trio_samples::files::workload_tree;

/// The fastest of so many rounds counts.
const ROUNDS: u32 = 10;

/// The most bytes that an image may have.
const LIMIT: usize = 33_554_432;

/// Writes an image of the shape and size in which the generator's workload leaves one.
pub fn write_workload<R: Host<File = File> + Print + AllocGlobal>(
    rt: &R,
    name: &str,
) -> io::Result<()> {
    match write_image(rt, rt.alloc(), name) {
        Some(size) => println!(rt; "{size} bytes"),
        None => println!(rt; "not written"),
    }
}

fn write_image<R: Host<File = File>>(rt: &R, alloc: Global, name: &str) -> Option<usize> {
    let bytes = workload(alloc)?;
    if replace(rt, alloc, name, &bytes) {
        Some(bytes.len())
    } else {
        None
    }
}

fn workload(alloc: Global) -> Option<Vec<u8>> {
    workload_tree(alloc).ok()?.bytes(alloc).ok()
}

fn replace<R: Host<File = File>>(rt: &R, alloc: Global, name: &str, bytes: &[u8]) -> bool {
    match files_of(rt, alloc, name) {
        Some(mut files) => files.serves(name) && files.replace(name, bytes).is_ok(),
        None => false,
    }
}

/// Prints how often reading a file and summing its bytes goes into loading the image in it, which
/// verifies it. The rounds of both come in turn.
pub fn measure_check<R: Host<File = File> + Clock + Print + AllocGlobal>(
    rt: &R,
    name: &str,
) -> io::Result<()> {
    match fastest(rt, rt.alloc(), name) {
        Some(times) => println!(rt; "checking beside reading and summing: {}", times.ratio()),
        None => println!(rt; "not read, or no image, or no clock"),
    }
}

/// The least times of loading the image and of summing its bytes.
fn fastest<R: Host<File = File> + Clock>(rt: &R, alloc: Global, name: &str) -> Option<Times> {
    let mut times = Some(Times::LONGEST);
    for _ in 0..ROUNDS {
        let check = nanos_of_check(rt, alloc, name);
        times = least(times, check, nanos_of_sum(rt, alloc, name));
    }
    times
}

/// The nanoseconds of loading the image in a file. `None` where there is none.
fn nanos_of_check<R: Host<File = File> + Clock>(rt: &R, alloc: Global, name: &str) -> Option<u128> {
    let start = now(rt);
    if is_image(rt, alloc, name) {
        nanos_since(rt, start)
    } else {
        None
    }
}

fn is_image<R: Host<File = File>>(rt: &R, alloc: Global, name: &str) -> bool {
    match files_of(rt, alloc, name) {
        Some(mut files) => is_loaded(alloc, &mut files, name),
        None => false,
    }
}

fn is_loaded<R: Host<File = File>>(alloc: Global, files: &mut RealFiles<R>, name: &str) -> bool {
    files.serves(name) && load(alloc, files, name).is_ok()
}

/// The nanoseconds of reading a file and summing its bytes. `None` where it can't be read or has none
/// but zeros.
fn nanos_of_sum<R: Host<File = File> + Clock>(rt: &R, alloc: Global, name: &str) -> Option<u128> {
    let start = now(rt);
    match bytes_of(rt, alloc, name) {
        Some(bytes) if sum(&bytes) != 0 => nanos_since(rt, start),
        _ => None,
    }
}

fn bytes_of<R: Host<File = File>>(rt: &R, alloc: Global, name: &str) -> Option<Vec<u8>> {
    match files_of(rt, alloc, name) {
        Some(mut files) => read_bytes(alloc, &mut files, name),
        None => None,
    }
}

fn read_bytes<R: Host<File = File>>(
    alloc: Global,
    files: &mut RealFiles<R>,
    name: &str,
) -> Option<Vec<u8>> {
    if files.serves(name) {
        read_whole(alloc, files, name, LIMIT).ok()
    } else {
        None
    }
}

fn sum(bytes: &[u8]) -> u64 {
    let mut sum = 0_u64;
    for byte in bytes {
        sum = sum.wrapping_add(u64::from(*byte));
    }
    sum
}

/// The host's files, of which this one is served.
fn files_of<'a, R: Host<File = File>>(
    rt: &'a R,
    alloc: Global,
    name: &str,
) -> Option<RealFiles<'a, R>> {
    let names = vec![in alloc; String::from_str(alloc, name).ok()?].ok()?;
    RealFiles::new(rt, alloc, names).ok()
}
