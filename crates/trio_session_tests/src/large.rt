//! A file of 512 blocks, which takes two index pages.

use crate::images::Start;
use crate::scripts::Lines;
use std::alloc::Global;
use trio_image::Counts;
use trio_page::NoMemory;

/// How many blocks the file has at most.
const BLOCKS: u32 = 512;

/// What the library does.
#[derive(Clone, Copy)]
enum Step {
    /// It resizes the file to so many blocks.
    Resize(u32),
    /// It puts a letter near the end of each block.
    Put,
    /// It reads the end of each of so many blocks: the letter among zeros, if it was put, or zeros alone.
    Read(u32, bool),
    /// It settles so many calls.
    Settle(u32),
}

/// Some steps, and how many pages are in use once all up to there is settled.
type Part = (&'static [Step], u32);

/// The file is grown, filled, cut to 511 blocks, cut to none and grown again. What was read before a
/// file is written or resized is handed in by itself.
const PARTS: &[Part] = &[
    (
        &[
            Step::Resize(BLOCKS),
            Step::Settle(1),
            Step::Read(BLOCKS, false),
        ],
        516,
    ),
    (
        &[Step::Put, Step::Settle(512), Step::Read(BLOCKS, true)],
        516,
    ),
    (
        &[
            Step::Resize(BLOCKS - 1),
            Step::Settle(1),
            Step::Read(BLOCKS - 1, true),
        ],
        514,
    ),
    (&[Step::Resize(0), Step::Settle(1)], 2),
    (
        &[
            Step::Resize(BLOCKS),
            Step::Settle(1),
            Step::Read(BLOCKS, false),
        ],
        516,
    ),
];

fn lines_of(alloc: Global, parts: &[Part]) -> Result<Lines, NoMemory> {
    let mut lines = Lines::new(alloc)?;
    for (steps, _) in parts {
        add_steps(alloc, &mut lines, steps)?;
    }
    Ok(lines)
}

fn add_steps(alloc: Global, lines: &mut Lines, steps: &[Step]) -> Result<(), NoMemory> {
    for step in steps {
        add_step(alloc, lines, *step)?;
    }
    Ok(())
}

fn add_step(alloc: Global, lines: &mut Lines, step: Step) -> Result<(), NoMemory> {
    match step {
        Step::Resize(blocks) => {
            let size = 4096 * u64::from(blocks);
            lines.add(&format!(in alloc; "truncate /f {size}")?, "ok")
        }
        Step::Settle(calls) => lines.add("settle", &format!(in alloc; "settled {calls}")?),
        Step::Put => add_writes(alloc, lines),
        Step::Read(blocks, is_put) => add_reads(alloc, lines, blocks, is_put),
    }
}

// the letter that is put into a block
fn letter(block: u32) -> char {
    (b'a' + (block % 23) as u8) as char
}

// the place of the letter in the file
fn place(block: u32) -> u64 {
    4096 * u64::from(block) + 4090
}

fn add_writes(alloc: Global, lines: &mut Lines) -> Result<(), NoMemory> {
    for block in 0..BLOCKS {
        let line = format!(in alloc; "write /f {} {}", place(block), letter(block))?;
        lines.add(&line, "ok 1")?;
    }
    Ok(())
}

fn add_reads(alloc: Global, lines: &mut Lines, blocks: u32, is_put: bool) -> Result<(), NoMemory> {
    for block in 0..blocks {
        let line = format!(in alloc; "read /f {} 6", place(block))?;
        lines.add(&line, &end_of(alloc, block, is_put)?)?;
    }
    Ok(())
}

// what a read of the end of a block is told
fn end_of(alloc: Global, block: u32, is_put: bool) -> Result<String, NoMemory> {
    if is_put {
        format!(in alloc; "ok 6 {}\\x00\\x00\\x00\\x00\\x00", letter(block))
    } else {
        format!(in alloc; "ok 6 \\x00\\x00\\x00\\x00\\x00\\x00")
    }
}

// The two inodes are those of the root and of the file.
fn counts(pages: u32) -> Counts {
    Counts {
        inodes: 2,
        pages,
        free: 1021_u32.wrapping_sub(pages),
    }
}

// Plays these parts, after which so many pages are in use.
fn play(alloc: Global, parts: &[Part], pages: u32) -> Result<(), &'static str> {
    match lines_of(alloc, parts) {
        Ok(lines) => lines.play(alloc, Start::Large, &counts(pages)),
        Err(_) => Err("memory is wanting"),
    }
}

// The parts are played up to each of them in turn.
#[test]
fn two_index_pages(rt: HostRuntime) {
    for (k, (_, pages)) in PARTS.iter().enumerate() {
        let played = play(rt.alloc(), &PARTS[..k + 1], *pages);
        assert!(rt; played.is_ok(), "part {k}");
    }
}
