//! What four libraries take with a thread each, beside the same in rounds on one thread.

ghost use Rattle.std.specs.Prelude.{◌≡◌, ◌≤◌, [], IfSome, length, vec_len};
ghost use Rattle.trio_state.specs.Kept.{Kept};
ghost use Rattle.trio_state.specs.Run.{start};
ghost use Rattle.trio_ctl.specs.Ctl.{NoneBegun};
ghost use Rattle.trio_script.specs.Within.{AreWithin};
ghost use Rattle.trio_runner.specs.Play.{creds_in};

use crate::starting::started;
use std::alloc::Global;
use std::io;
use std::rt::Clock;
use std::sync::Wait;
use std::thread::Threads;
use trio_bench_common::{Times, least, nanos_since, now};
use trio_ctl::Ctl;
use trio_io::OpenGate;
use trio_page::NoMemory;
use trio_rights::Creds;
use trio_runner::{RawAndHonest, creds_of, play, run};
use trio_samples::files::root;
use trio_samples::regular;
use trio_script::{ScriptLib, read_script};

/// The fastest of so many rounds counts.
const ROUNDS: u32 = 9;

/// The names of the four files, one for each library, of a block each; their numbers are 2 to 5.
const NAMES: [&str; 4] = ["a", "b", "c", "d"];

/// What the block of each has at first.
const BLOCK: [u8; 4096] = [0; 4096];

/// After so many lines a library hands in what it has, with the last of them.
const LINES_OF_A_LEASE: u32 = 100;

const LAST_LINE: u32 = LINES_OF_A_LEASE - 1;

/// Prints how long four libraries take in rounds on one thread and with a thread each, so many lines
/// each, on a file of its own each, and how often the second time goes into the first: once for raw
/// libraries that poke, and once for honest ones that write and read. What is read before and told
/// behind isn't counted.
pub fn measure_threads<R: Threads + Wait + Sync + Clock + Print + AllocGlobal>(
    rt: &R,
    count: u32,
) -> io::Result<()> {
    let alloc = rt.alloc();
    put_row(rt, "pokes", times_of(rt, alloc, pokes(alloc, count)))?;
    put_row(rt, "calls", times_of(rt, alloc, calls(alloc, count)))
}

fn put_row<R: Print>(rt: &R, name: &str, times: Option<Times>) -> io::Result<()> {
    match times {
        Some(times) => println!(rt;
            "{name}: in turns {} us, in threads {} us, ratio {}",
            times.first / 1000,
            times.second / 1000,
            times.ratio()
        ),
        None => println!(rt; "{name}: out of memory, or too many lines, or no clock"),
    }
}

/// Lines of four raw libraries, so many each: each is lent its file, pokes into its block, and releases
/// it, again and again.
fn pokes(alloc: Global, count: u32) -> Result<Vec<u8>, NoMemory> {
    let mut script = Vec::new(alloc);
    for n in 1..=4 {
        add_pokes(alloc, &mut script, n, count)?;
    }
    Ok(script)
}

fn add_pokes(alloc: Global, script: &mut Vec<u8>, n: u32, count: u32) -> Result<(), NoMemory> {
    put(script, format!(in alloc; "lib {n} raw 0 0\n"))?;
    for at in 0..count {
        put(script, poke_line(alloc, n.wrapping_add(1), at))?;
    }
    Ok(())
}

fn poke_line(alloc: Global, ino: u32, at: u32) -> Result<String, NoMemory> {
    let byte = at % 4000;
    match at % LINES_OF_A_LEASE {
        0 => format!(in alloc; "grant write {ino}\n"),
        LAST_LINE => format!(in alloc; "release {ino} - -\n"),
        _ => format!(in alloc; "poke block {ino} 0 {byte} 6162636465666768\n"),
    }
}

/// Lines of four honest libraries, so many each: each writes into its file, reads it, and settles, again
/// and again.
fn calls(alloc: Global, count: u32) -> Result<Vec<u8>, NoMemory> {
    let mut script = Vec::new(alloc);
    let mut n = 0_u32;
    for name in NAMES {
        n = n.wrapping_add(1);
        add_calls(alloc, &mut script, n, name, count)?;
    }
    Ok(script)
}

fn add_calls(
    alloc: Global,
    script: &mut Vec<u8>,
    n: u32,
    name: &str,
    count: u32,
) -> Result<(), NoMemory> {
    put(script, format!(in alloc; "lib {n} honest 0 0\n"))?;
    for at in 0..count {
        put(script, call_line(alloc, name, at))?;
    }
    Ok(())
}

fn call_line(alloc: Global, name: &str, at: u32) -> Result<String, NoMemory> {
    let byte = at % 4000;
    match at % LINES_OF_A_LEASE {
        LAST_LINE => String::from_str(alloc, "settle\n"),
        nth if nth % 2 == 0 => format!(in alloc; "write /{name} {byte} abcdefgh\n"),
        _ => format!(in alloc; "read /{name} {byte} 8\n"),
    }
}

fn put(script: &mut Vec<u8>, line: Result<String, NoMemory>) -> Result<(), NoMemory> {
    match line {
        Ok(line) => script.extend_from_slice(line.as_bytes()),
        Err(fault) => Err(fault),
    }
}

/// The times of the fastest rounds of a script, in turns and in threads.
fn times_of<R: Threads + Wait + Sync + Clock>(
    rt: &R,
    alloc: Global,
    script: Result<Vec<u8>, NoMemory>,
) -> Option<Times> {
    match script {
        Ok(script) => times_of_lines(rt, alloc, &script),
        Err(_) => None,
    }
}

fn times_of_lines<R: Threads + Wait + Sync + Clock>(
    rt: &R,
    alloc: Global,
    script: &[u8],
) -> Option<Times> {
    match read_script(alloc, script) {
        Ok(libs) => fastest(rt, alloc, &libs),
        Err(_) => None,
    }
}

fn fastest<R: Threads + Wait + Sync + Clock>(
    rt: &R,
    alloc: Global,
    libs: &[ScriptLib],
) -> Option<Times>
    requires some { 1 ≤ length libs.now }
    requires few { length libs.now ≤ 16 }
    requires within { AreWithin libs.now }
{
    let mut times = Some(Times::LONGEST);
    for _ in 0..ROUNDS {
        let turns = nanos_in_turns(rt, alloc, libs);
        times = least(times, turns, nanos_in_threads(rt, alloc, libs));
    }
    times
}

fn nanos_in_turns<R: Clock>(rt: &R, alloc: Global, libs: &[ScriptLib]) -> Option<u128>
    requires some { 1 ≤ length libs.now }
    requires few { length libs.now ≤ 16 }
    requires within { AreWithin libs.now }
{
    match four_files(alloc, libs) {
        Some(mut ctl) => nanos_of_play(rt, alloc, &mut ctl, libs),
        None => None,
    }
}

/// The nanoseconds of a script on a controller that has just started.
fn nanos_of_play<R: Clock>(rt: &R, alloc: Global, ctl: &mut Ctl, libs: &[ScriptLib]) -> Option<u128>
    requires kept { Kept ctl.old.state }
    requires started { ctl.old.state ≡ start ctl.old.state.home (creds_in libs.now) }
    requires unlogged { ctl.old.log ≡ [] }
    requires idle { NoneBegun ctl.old }
    requires few { length libs.now ≤ 16 }
    requires within { AreWithin libs.now }
{
    let start = now(rt);
    match play::<RawAndHonest>(alloc, ctl, libs) {
        Ok(_tolds) => nanos_since(rt, start),
        Err(_) => None,
    }
}

fn nanos_in_threads<R: Threads + Wait + Sync + Clock>(
    rt: &R,
    alloc: Global,
    libs: &[ScriptLib],
) -> Option<u128>
    requires some { 1 ≤ length libs.now }
    requires few { length libs.now ≤ 16 }
    requires within { AreWithin libs.now }
{
    let ctl = four_files(alloc, libs)?;
    let start = now(rt);
    match run::<RawAndHonest, _, _>(rt, alloc, ctl, libs, &OpenGate, None) {
        Ok(_ran) => nanos_since(rt, start),
        Err(_) => None,
    }
}

/// The controller of an image with the four files, for the libraries of a script.
fn four_files(alloc: Global, libs: &[ScriptLib]) -> Option<Ctl>
    requires some { 1 ≤ length libs.now }
    requires few { length libs.now ≤ 16 }
    ensures started { IfSome result (λ ctl. ctl.state ≡ start ctl.state.home (creds_in libs.now)) }
    ensures first { IfSome result (λ ctl. ctl.first ≡ ctl.state.home) }
    ensures log { IfSome result (λ ctl. ctl.log ≡ []) }
    ensures kept { IfSome result (λ ctl. Kept ctl.state) }
    ensures idle { IfSome result NoneBegun }
{
    match creds_of(alloc, libs) {
        Ok(creds) => four_started(alloc, creds),
        Err(NoMemory) => None,
    }
}

/// The same, for libraries of these credentials.
fn four_started(alloc: Global, libs: Vec<Creds>) -> Option<Ctl>
    requires some { 1 ≤ vec_len libs }
    requires few { vec_len libs ≤ 16 }
    ensures started { IfSome result (λ ctl. ctl.state ≡ start ctl.state.home libs.items) }
    ensures first { IfSome result (λ ctl. ctl.first ≡ ctl.state.home) }
    ensures log { IfSome result (λ ctl. ctl.log ≡ []) }
    ensures kept { IfSome result (λ ctl. Kept ctl.state) }
    ensures idle { IfSome result NoneBegun }
{
    let files = [
        root(),
        regular(2, 1, NAMES[0].as_bytes(), &BLOCK),
        regular(3, 1, NAMES[1].as_bytes(), &BLOCK),
        regular(4, 1, NAMES[2].as_bytes(), &BLOCK),
        regular(5, 1, NAMES[3].as_bytes(), &BLOCK),
    ];
    started(alloc, &files, libs)
}
