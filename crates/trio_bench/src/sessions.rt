//! What it costs to write and read a file through a session, beside a plain copy.

ghost use Rattle.std.specs.Prelude.{◌≡◌, IfSome, IsTrue, length};
ghost use Rattle.trio_rights.specs.declared.rights.LibNo.{LibNo as AnyLib};
ghost use Rattle.trio_desk.specs.Out.{OutAlike, nothing_out};
ghost use Rattle.trio_edit_laws.specs.Calls.{MayCall};
ghost use Rattle.trio_calls_file.specs.Asks.{IsFileCall};
ghost use Rattle.trio_ctl.specs.Ctl.{NoneBegun};
ghost use Rattle.trio_ctl.specs.Desk.{out_of};

use crate::starting::started;
use std::alloc::Global;
use std::io;
use std::rt::Clock;
use trio_bench_common::{Times, image_of, least, nanos_since, now};
use trio_calls_file::file_call;
use trio_ctl::{Ctl, PlainDesk};
use trio_desk::Desk;
use trio_names::Path;
use trio_nodes::{Answer, Call, Reply, SharedBytes};
use trio_page::{PAGE_SIZE, Page};
use trio_rights::{Creds, LibNo};
use trio_samples::files::root;
use trio_samples::{put, regular};
use trio_session::Session;
use trio_walk::Outcome;

/// The fastest of so many rounds counts.
const ROUNDS: u32 = 20;

/// The file has so many blocks, 1 MiB in all; each call writes or reads one.
const BLOCKS: u64 = 256;

/// Prints how often a plain copy of 1 MiB into pages of 4096 bytes and out of them goes into writing
/// and reading a file of that size by 4096 bytes a call, through a session with its leases in hand. The
/// rounds of both come in turn, each with a session and with pages of its own.
pub fn measure_session<R: Clock + Print + AllocGlobal>(rt: &R) -> io::Result<()> {
    match fastest(rt, rt.alloc()) {
        Some(times) => println!(rt; "a session beside a plain copy: {}", times.ratio()),
        None => println!(rt; "out of memory, or not written, or no clock"),
    }
}

/// The least times of a session's calls and of a plain copy.
fn fastest<R: Clock>(rt: &R, alloc: Global) -> Option<Times> {
    let mut times = Some(Times::LONGEST);
    for _ in 0..ROUNDS {
        let session = nanos_of_session(rt, alloc);
        times = least(times, session, nanos_of_copy(rt, alloc));
    }
    times
}

/// The bytes that are written, a piece for each block.
fn pieces(alloc: Global) -> Option<Vec<SharedBytes>> {
    let mut pieces = Vec::new(alloc);
    for block in 0..BLOCKS {
        add_piece(alloc, &mut pieces, &[block as u8; PAGE_SIZE])?;
    }
    Some(pieces)
}

fn add_piece(alloc: Global, pieces: &mut Vec<SharedBytes>, bytes: &[u8]) -> Option<()> {
    let piece = SharedBytes::copied(alloc, bytes).ok()?;
    pieces.push(piece).ok()
}

/// The nanoseconds of a plain copy, of which all that was read is kept.
fn nanos_of_copy<R: Clock>(rt: &R, alloc: Global) -> Option<u128> {
    let pieces = pieces(alloc)?;
    match zero_pages(alloc) {
        Some(mut pages) => nanos_of_copies(rt, alloc, &pieces, &mut pages),
        None => None,
    }
}

fn nanos_of_copies<R: Clock>(
    rt: &R,
    alloc: Global,
    pieces: &[SharedBytes],
    pages: &mut [Page],
) -> Option<u128> {
    let start = now(rt);
    copy_in(pieces, pages);
    match copy_out(alloc, pages) {
        Some(_read) => nanos_since(rt, start),
        None => None,
    }
}

/// As many pages as the file has blocks, each written once.
fn zero_pages(alloc: Global) -> Option<Vec<Page>> {
    let mut pages = Vec::new(alloc);
    for _ in 0..BLOCKS {
        pages.push(Page::zero(alloc).ok()?).ok()?;
    }
    Some(pages)
}

fn copy_in(pieces: &[SharedBytes], pages: &mut [Page]) {
    for (page, piece) in pages.iter_mut().zip(pieces) {
        put(page.bytes_mut(), 0, piece.as_slice());
    }
}

fn copy_out(alloc: Global, pages: &[Page]) -> Option<Vec<SharedBytes>> {
    let mut read = Vec::new(alloc);
    for page in pages {
        add_piece(alloc, &mut read, page.bytes())?;
    }
    Some(read)
}

/// The nanoseconds of a session's calls, of which all replies are kept. `None` where one isn't done.
fn nanos_of_session<R: Clock>(rt: &R, alloc: Global) -> Option<u128> {
    match one_file(alloc) {
        Some(mut ctl) => nanos_on(rt, alloc, &mut ctl),
        None => None,
    }
}

fn nanos_on<R: Clock>(rt: &R, alloc: Global, ctl: &mut Ctl) -> Option<u128>
    requires none { (lib : AnyLib) → OutAlike (out_of ctl.old.state lib) nothing_out }
    requires one { length ctl.old.state.creds ≡ 1 }
    requires idle { NoneBegun ctl.old }
{
    let mut desk = PlainDesk::of(ctl, LibNo(1));
    let mut session = Session::new(alloc, LibNo(1), desk.creds());
    let nanos = nanos_at(rt, alloc, &mut session, &mut desk);
    session.discard();
    nanos
}

/// The controller of an image with one empty file, for one library of uid 0.
fn one_file(alloc: Global) -> Option<Ctl>
    ensures none { IfSome result (λ ctl. (lib : AnyLib) → OutAlike (out_of ctl.state lib) nothing_out) }
    ensures one { IfSome result (λ ctl. length ctl.state.creds ≡ 1) }
    ensures idle { IfSome result NoneBegun }
{
    let libs = vec![in alloc; Creds { uid: 0, gid: 0 }].ok()?;
    let image = image_of(alloc, &[root(), regular(2, 1, b"f", b"")])?;
    started(alloc, image, libs)
}

/// The nanoseconds of the calls, once the file has its size and the session its leases. `None` where
/// a call isn't done.
fn nanos_at<R: Clock, D: Desk>(
    rt: &R,
    alloc: Global,
    session: &mut Session,
    desk: &mut D,
) -> Option<u128>
    requires { MayCall (D.seen desk.old) session.old }
{
    let size = BLOCKS * PAGE_SIZE as u64;
    let path = file_path(alloc)?;
    if answer(alloc, session, desk, Call::Truncate { path, size }).is_none() {
        return None;
    }
    let calls = calls(alloc)?;
    let start = now(rt);
    match make_calls(alloc, session, desk, calls) {
        Some(_answers) => nanos_since(rt, start),
        None => None,
    }
}

/// The calls that write the blocks, and then those that read them.
fn calls(alloc: Global) -> Option<Vec<Call>> {
    let mut calls = Vec::new(alloc);
    add_writes(alloc, &mut calls)?;
    add_reads(alloc, &mut calls)?;
    Some(calls)
}

fn add_writes(alloc: Global, calls: &mut Vec<Call>) -> Option<()> {
    for block in 0..BLOCKS {
        add_write(alloc, calls, block)?;
    }
    Some(())
}

fn add_write(alloc: Global, calls: &mut Vec<Call>, block: u64) -> Option<()> {
    let bytes = SharedBytes::copied(alloc, &[(block % 256) as u8; PAGE_SIZE]).ok()?;
    let path = file_path(alloc)?;
    let at = block.wrapping_mul(PAGE_SIZE as u64);
    calls.push(Call::Write { path, at, bytes }).ok()
}

fn add_reads(alloc: Global, calls: &mut Vec<Call>) -> Option<()> {
    for block in 0..BLOCKS {
        add_read(alloc, calls, block)?;
    }
    Some(())
}

fn add_read(alloc: Global, calls: &mut Vec<Call>, block: u64) -> Option<()> {
    let path = file_path(alloc)?;
    let at = block.wrapping_mul(PAGE_SIZE as u64);
    let len = PAGE_SIZE as u32;
    calls.push(Call::Read { path, at, len }).ok()
}

fn file_path(alloc: Global) -> Option<Path> {
    Path::read(alloc, b"/f").ok()
}

/// Makes these calls, and returns what they are replied. `None` where one isn't done.
fn make_calls<D: Desk>(
    alloc: Global,
    session: &mut Session,
    desk: &mut D,
    calls: Vec<Call>,
) -> Option<Vec<Answer>>
    requires { MayCall (D.seen desk.old) session.old }
    ensures { MayCall (D.seen desk.new) session.new }
{
    let mut answers = Vec::new(alloc);
    answers.reserve(calls.len()).ok()?;
    for call in calls {
        match answer(alloc, session, desk, call) {
            Some(answer) => answers.push(answer).ok()?,
            None => return None,
        }
    }
    Some(answers)
}

/// Makes one call on a file, of at most 4096 bytes.
fn answer<D: Desk>(alloc: Global, session: &mut Session, desk: &mut D, call: Call) -> Option<Answer>
    requires { MayCall (D.seen desk.old) session.old }
    ensures { MayCall (D.seen desk.new) session.new }
{
    if !is_file_call(&call) {
        return None;
    }
    match file_call(alloc, session, desk, call) {
        Outcome::Replied(Reply::Ok(answer)) => Some(answer),
        _ => None,
    }
}

fn is_file_call(call: &Call) -> bool
    ensures { IsTrue result → IsFileCall call.now }
{
    match call {
        Call::Write { bytes, .. } => bytes.as_slice().len() <= PAGE_SIZE,
        Call::Read { len, .. } => *len as usize <= PAGE_SIZE,
        Call::Truncate { .. } => true,
        _ => false,
    }
}
