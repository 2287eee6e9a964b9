//! What memory it takes to release the largest bundle of an image, with its entry in the log.

ghost use Rattle.std.specs.Prelude.{◌≡◌, ◌≤◌, [], IfSome, length};
ghost use Rattle.trio_state.specs.Kept.{Kept};
ghost use Rattle.trio_state.specs.Run.{start};
ghost use Rattle.trio_ctl.specs.Ctl.{NoneBegun};
ghost use Rattle.trio_script.specs.Within.{AreWithin};
ghost use Rattle.trio_runner.specs.Play.{creds_in};

use crate::starting::started;
use std::alloc::Global;
use std::rt::Files as Host;
use std::{fs, io};
use trio_bench_common::Ratio;
use trio_ctl::Ctl;
use trio_image::make;
use trio_page::NoMemory;
use trio_report::LineAnswer;
use trio_runner::{LibTold, RawAndHonest, creds_of, play};
use trio_script::{ScriptLib, read_script};

/// The pages of the image, of 4096 bytes each, and its inode numbers.
const PAGES: u32 = 8192;

const INODES: u32 = 64;

/// The first pages behind the tables are the root's index page and its block, and then the index pages
/// of the file.
const ROOT_INDEX: u32 = 10;

const FILE_INDEX: u32 = 12;

const FIRST_BLOCK: u32 = 28;

/// How many numbers an index page has.
const NUMBERS: u32 = 511;

/// The library takes all pages, and the root lists its file `f`, of number 2, in page 11: the file has
/// its first index page in page 12, and 8,164 blocks, which are all pages that are left.
const BEGINNING: &[u8] = b"lib 1 raw 0 0\nallot 8182 1\ngrant write 1\n\
    poke body 1 12 0a000000\npoke body 1 16 0010000000000000\n\
    poke fresh 10 0 0b00000000000000\npoke fresh 11 0 020000000101000066\n\
    poke fresh 11 192 a401\npoke fresh 11 204 0c000000\n\
    poke fresh 11 208 0040fe0100000000\n";

/// Releases all pages of a new image in one bundle, as one file, so that the log tells each of its
/// blocks. Prints what memory the process has then, and had at most, beside the size of the image: the
/// image's pages and the log's bytes, and at most the room of the judgement too.
pub fn measure_log<R: Host + Print + AllocGlobal>(rt: &R) -> io::Result<()> {
    match libs_of(rt.alloc()) {
        Some(libs) => measure_libs(rt, rt.alloc(), &libs),
        None => print_released(rt, false),
    }
}

/// Plays the lines of these libraries on a new image, and prints the memory then.
fn measure_libs<R: Host + Print + AllocGlobal>(
    rt: &R,
    alloc: Global,
    libs: &[ScriptLib],
) -> io::Result<()>
    requires some { 1 ≤ length libs.now }
    requires few { length libs.now ≤ 16 }
    requires within { AreWithin libs.now }
{
    match new_ctl(alloc, libs) {
        Some(mut ctl) => print_released(rt, is_released(alloc, &mut ctl, libs)),
        None => print_released(rt, false),
    }
}

fn print_released<R: Host + Print + AllocGlobal>(rt: &R, is_released: bool) -> io::Result<()> {
    if is_released {
        print_both(rt)
    } else {
        println!(rt; "out of memory, or not accepted")
    }
}

fn print_both<R: Host + Print + AllocGlobal>(rt: &R) -> io::Result<()> {
    print_memory(rt, "after the release", "VmRSS:")?;
    print_memory(rt, "at most", "VmHWM:")
}

fn print_memory<R: Host + Print + AllocGlobal>(rt: &R, when: &str, word: &str) -> io::Result<()> {
    match memory(rt, word) {
        Some(memory) => println!(rt;
            "{when} {memory} KiB, {} times the image",
            Ratio::of(u128::from(memory), 4 * u128::from(PAGES))
        ),
        None => println!(rt; "{when}: not told here"),
    }
}

/// The memory of the process in KiB, as Linux tells it behind this word.
fn memory<R: Host + AllocGlobal>(rt: &R, word: &str) -> Option<u64> {
    let status = fs::read_to_string(rt, "/proc/self/status").ok()?;
    number_behind(status.as_str(), word)
}

fn number_behind(text: &str, word: &str) -> Option<u64> {
    for line in text.lines() {
        if let Some(rest) = line.strip_prefix(word) {
            return first_number(rest);
        }
    }
    None
}

fn first_number(text: &str) -> Option<u64> {
    text.split_whitespace().next()?.parse().ok()
}

/// The libraries of the script.
fn libs_of(alloc: Global) -> Option<Vec<ScriptLib>>
    ensures some { IfSome result (λ libs. 1 ≤ length libs.items) }
    ensures few { IfSome result (λ libs. length libs.items ≤ 16) }
    ensures within { IfSome result (λ libs. AreWithin libs.items) }
{
    let script = script(alloc).ok()?;
    match read_script(alloc, &script) {
        Ok(libs) => Some(libs),
        Err(_) => None,
    }
}

fn new_ctl(alloc: Global, libs: &[ScriptLib]) -> Option<Ctl>
    requires some { 1 ≤ length libs.now }
    requires few { length libs.now ≤ 16 }
    ensures started { IfSome result (λ ctl. ctl.state ≡ start ctl.state.home (creds_in libs.now)) }
    ensures log { IfSome result (λ ctl. ctl.log ≡ []) }
    ensures kept { IfSome result (λ ctl. Kept ctl.state) }
    ensures idle { IfSome result NoneBegun }
{
    let creds = creds_of(alloc, libs).ok()?;
    let image = make(alloc, PAGES, INODES).ok()?;
    started(alloc, image, creds)
}

/// Plays the lines of these libraries on a controller that has just started. Returns whether the last
/// line is accepted.
fn is_released(alloc: Global, ctl: &mut Ctl, libs: &[ScriptLib]) -> bool
    requires kept { Kept ctl.old.state }
    requires started { ctl.old.state ≡ start ctl.old.state.home (creds_in libs.now) }
    requires unlogged { ctl.old.log ≡ [] }
    requires idle { NoneBegun ctl.old }
    requires few { length libs.now ≤ 16 }
    requires within { AreWithin libs.now }
{
    match play::<RawAndHonest>(alloc, ctl, libs) {
        Ok(tolds) => ends_accepted(&tolds),
        Err(_) => false,
    }
}

fn ends_accepted(tolds: &[LibTold]) -> bool {
    match tolds.first() {
        Some(told) => matches!(told.answers().last(), Some(LineAnswer::Accepted)),
        None => false,
    }
}

/// The lines of the one library, which makes the file and releases all its pages in the last line.
fn script(alloc: Global) -> Result<Vec<u8>, NoMemory> {
    let mut script = Vec::new(alloc);
    script.extend_from_slice(BEGINNING)?;
    for page in FILE_INDEX..FIRST_BLOCK {
        put_index_line(alloc, &mut script, page)?;
    }
    put_release(alloc, &mut script)?;
    Ok(script)
}

fn put_index_line(alloc: Global, script: &mut Vec<u8>, page: u32) -> Result<(), NoMemory> {
    put_one(script, format!(in alloc; "poke fresh {page} 0 "))?;
    put_index(script, page)
}

fn put_one(script: &mut Vec<u8>, text: Result<String, NoMemory>) -> Result<(), NoMemory> {
    match text {
        Ok(text) => put(script, &text),
        Err(fault) => Err(fault),
    }
}

fn put(script: &mut Vec<u8>, text: &str) -> Result<(), NoMemory> {
    script.extend_from_slice(text.as_bytes())
}

/// The bytes of an index page of the file: the numbers of its blocks, and that of the next index page.
fn put_index(script: &mut Vec<u8>, page: u32) -> Result<(), NoMemory> {
    let first = FIRST_BLOCK.saturating_add(NUMBERS.saturating_mul(page.saturating_sub(FILE_INDEX)));
    for i in 0..NUMBERS {
        put_number(script, first.saturating_add(i), PAGES)?;
    }
    put_number(script, page.saturating_add(1), FIRST_BLOCK)?;
    put(script, "\n")
}

/// The bytes of the number of a page, or zeros from this limit on.
fn put_number(script: &mut Vec<u8>, number: u32, limit: u32) -> Result<(), NoMemory> {
    let number = if number < limit { number } else { 0 };
    for byte in u64::from(number).to_le_bytes() {
        script.push(DIGITS[usize::from(byte / 16) % 16])?;
        script.push(DIGITS[usize::from(byte) % 16])?;
    }
    Ok(())
}

const DIGITS: [u8; 16] = *b"0123456789abcdef";

fn put_release(alloc: Global, script: &mut Vec<u8>) -> Result<(), NoMemory> {
    put_one(script, format!(in alloc; "release 1 {ROOT_INDEX}"))?;
    for page in ROOT_INDEX + 1..PAGES {
        put_one(script, format!(in alloc; ",{page}"))?;
    }
    put(script, " 2\n")
}
