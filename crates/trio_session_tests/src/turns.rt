//! Calls of two libraries in turns, each in its session at its own desk, and who has what a call wants.

ghost use Rattle.std.specs.Prelude.{◌≡◌, ◌≢◌, ◌≤◌, IfSome, length};
ghost use Rattle.trio_edit_laws.specs.Calls.{MayCall};
ghost use Rattle.trio_ctl.specs.Ctl.{underway_of};
ghost use Rattle.trio_session_tests.specs.Begins.{MayBegin, NothingIsOut, second_lib};
ghost use Rattle.trio_session_tests.specs.Turns.{IsCall, IsTurn, MayPlay, SomeCalls, first_lib, is_of_file};

use crate::desks::{holder_in, list, started, write};
use crate::images::Start;
use crate::random::{PATHS, Random};
use std::alloc::Global;
use trio_calls_dir::dir_call;
use trio_calls_file::file_call;
use trio_ctl::{Ctl, PlainDesk};
use trio_desk::Desk;
use trio_names::Path;
use trio_nodes::{Call, GrantKind, Holder, SharedBytes};
use trio_rights::{LibNo, Mode};
use trio_session::Session;
use trio_walk::Outcome;

// ---- a turn

// A session of a library to which nothing is out.
fn seated(alloc: Global, ctl: &mut Ctl, lib: LibNo) -> Session
    requires { MayBegin ctl.old lib }
    ensures may { MayPlay (underway_of ctl.new) lib result }
    ensures kept { ctl.new ≡ ctl.old }
{
    let desk = PlainDesk::of(ctl, lib);
    Session::new(alloc, lib, desk.creds())
}

// One call of a library at its desk.
fn makes(alloc: Global, ctl: &mut Ctl, lib: LibNo, session: &mut Session, call: Call) -> Outcome
    requires may { MayPlay (underway_of ctl.old) lib session.old }
    requires call { IsCall call }
    ensures may { MayPlay (underway_of ctl.new) lib session.new }
    ensures turn { IsTurn lib (underway_of ctl.old) (underway_of ctl.new) }
{
    ctl.is_recorded();
    ctl.is_as_told();
    let mut desk = PlainDesk::of(ctl, lib);
    any_call(alloc, session, &mut desk, call)
}

// A call on a file, or one on a directory or on a mode.
fn any_call<D: Desk>(alloc: Global, session: &mut Session, desk: &mut D, call: Call) -> Outcome
    requires may { MayCall (D.seen desk.old) session.old }
    requires call { IsCall call }
    ensures may { MayCall (D.seen desk.new) session.new }
    ensures called { SomeCalls D.called desk.old desk.new }
{
    if is_of_file(&call) {
        file_call(alloc, session, desk, call)
    } else {
        dir_call(alloc, session, desk, call)
    }
}

fn is_of_file(call: &Call) -> bool
    ensures { result ≡ is_of_file call.now }
{
    matches!(
        call,
        Call::Write { .. } | Call::Read { .. } | Call::Truncate { .. } | Call::Stat { .. }
    )
}

// A call of one library beside the session of another.
fn makes_beside(
    alloc: Global,
    ctl: &mut Ctl,
    lib: LibNo,
    session: &mut Session,
    other: LibNo,
    beside: &Session,
    call: Call,
) -> Outcome
    requires may { MayPlay (underway_of ctl.old) lib session.old }
    requires other { MayPlay (underway_of ctl.old) other beside.now }
    requires apart { other.0 ≢ lib.0 }
    requires call { IsCall call }
    ensures may { MayPlay (underway_of ctl.new) lib session.new }
    ensures other { MayPlay (underway_of ctl.new) other beside.now }
{
    makes(alloc, ctl, lib, session, call)
}

// ---- random calls

// A random call, of the same kinds as those of the scripts.
fn random_call(alloc: Global, random: &mut Random) -> Option<Call>
    ensures { IfSome result IsCall }
{
    match random.below(24) {
        0..=2 => random_write(alloc, random),
        3..=7 => random_on_file(alloc, random),
        8..=12 => random_make(alloc, random),
        13 => random_rename(alloc, random, 22),
        14..=20 => random_rename(alloc, random, 14),
        21 => random_chmod(alloc, random, 22),
        22 => random_chmod(alloc, random, 14),
        _ => random_list(alloc, random),
    }
}

// One of so many first paths.
fn random_path(alloc: Global, random: &mut Random, among: u64) -> Option<Path> {
    let path = PATHS[random.below(among) as usize % 22];
    Path::read(alloc, path.as_bytes()).ok()
}

fn random_place(random: &mut Random) -> u64 {
    random.below(3) * 4096 + random.below(30)
}

fn random_mode(random: &mut Random) -> Mode
    ensures { result.0 ≤ 511 }
{
    match random.below(6) {
        0 => Mode(0o755),
        1 => Mode(0o400),
        _ => Mode(0o777),
    }
}

// Up to a block is written, of one letter.
fn random_write(alloc: Global, random: &mut Random) -> Option<Call>
    ensures { IfSome result IsCall }
{
    let path = random_path(alloc, random, 22)?;
    let at = random_place(random);
    let block = [b'a' + random.below(26) as u8; 4096];
    let len = (random.below(3) * random.below(1366)) as usize % 4097;
    Some(Call::Write {
        path,
        at,
        bytes: SharedBytes::copied(alloc, &block[..len]).ok()?,
    })
}

fn random_on_file(alloc: Global, random: &mut Random) -> Option<Call>
    ensures { IfSome result IsCall }
{
    let path = random_path(alloc, random, 22)?;
    let at = random_place(random);
    Some(match random.below(5) {
        0 => Call::Read {
            path,
            at,
            len: random.below(4097).min(4096) as u32,
        },
        1 => Call::Stat { path },
        2 => Call::Truncate { path, size: at },
        3 => Call::Unlink { path },
        _ => Call::Truncate {
            path,
            size: random.below(90) * 4096 * random.below(200),
        },
    })
}

fn random_make(alloc: Global, random: &mut Random) -> Option<Call>
    ensures { IfSome result IsCall }
{
    let path = random_path(alloc, random, 14)?;
    let mode = random_mode(random);
    Some(match random.below(5) {
        0..=1 => Call::Mkdir { path, mode },
        2..=3 => Call::Create { path, mode },
        _ => Call::Rmdir { path },
    })
}

fn random_rename(alloc: Global, random: &mut Random, among: u64) -> Option<Call>
    ensures { IfSome result IsCall }
{
    Some(Call::Rename {
        from: random_path(alloc, random, among)?,
        to: random_path(alloc, random, 14)?,
    })
}

fn random_chmod(alloc: Global, random: &mut Random, among: u64) -> Option<Call>
    ensures { IfSome result IsCall }
{
    let path = random_path(alloc, random, among)?;
    Some(Call::Chmod {
        path,
        mode: random_mode(random),
    })
}

fn random_list(alloc: Global, random: &mut Random) -> Option<Call>
    ensures { IfSome result IsCall }
{
    let path = random_path(alloc, random, 22)?;
    Some(Call::List {
        path,
        from: random.below(4) as u32,
    })
}

// ---- in turns

// Whether a call of a library is fair: it is replied, or another library has what it wants. So many such
// are counted.
fn is_fair(outcome: &Outcome, lib: LibNo, busy: &mut u32) -> bool {
    match outcome {
        Outcome::NoMemory => false,
        Outcome::Busy(holder) => {
            *busy = busy.saturating_add(1);
            holder.lib != lib
        }
        Outcome::Replied(_) => true,
    }
}

// A random call of one library beside the session of another.
fn plays(
    alloc: Global,
    ctl: &mut Ctl,
    lib: LibNo,
    session: &mut Session,
    other: LibNo,
    beside: &Session,
    random: &mut Random,
    busy: &mut u32,
) -> bool
    requires may { MayPlay (underway_of ctl.old) lib session.old }
    requires other { MayPlay (underway_of ctl.old) other beside.now }
    requires apart { other.0 ≢ lib.0 }
    ensures may { MayPlay (underway_of ctl.new) lib session.new }
    ensures other { MayPlay (underway_of ctl.new) other beside.now }
{
    match random_call(alloc, random) {
        Some(call) => {
            let outcome = makes_beside(alloc, ctl, lib, session, other, beside, call);
            is_fair(&outcome, lib, busy)
        }
        None => false,
    }
}

// A hundred turns: how many calls found what they want with the other library. `None` where one found it
// with its own.
fn turns(
    alloc: Global,
    ctl: &mut Ctl,
    first: &mut Session,
    second: &mut Session,
    seed: u64,
) -> Option<u32>
    requires first { MayPlay (underway_of ctl.old) first_lib first.old }
    requires second { MayPlay (underway_of ctl.old) second_lib second.old }
{
    let mut random = Random(seed);
    let mut busy = 0;
    for _ in 0..50 {
        if !plays(
            alloc,
            ctl,
            LibNo(1),
            first,
            LibNo(2),
            second,
            &mut random,
            &mut busy,
        ) || !plays(
            alloc,
            ctl,
            LibNo(2),
            second,
            LibNo(1),
            first,
            &mut random,
            &mut busy,
        ) {
            return None;
        }
    }
    Some(busy)
}

fn turns_on(alloc: Global, ctl: &mut Ctl, seed: u64) -> Option<u32>
    requires two { length ctl.old.state.creds ≡ 2 }
    requires none { NothingIsOut ctl.old }
{
    let mut first = seated(alloc, ctl, LibNo(1));
    let mut second = seated(alloc, ctl, LibNo(2));
    let busy = turns(alloc, ctl, &mut first, &mut second, seed);
    first.discard();
    second.discard();
    busy
}

fn busy_turns(alloc: Global, seed: u64) -> Option<u32> {
    let mut ctl = started(alloc, Start::Shared)?;
    turns_on(alloc, &mut ctl, seed)
}

/// Where a call finds a file busy, another library has it.
#[test]
fn another_library_is_in_the_way(rt: HostRuntime) {
    let mut all: u32 = 0;
    for seed in 1..21 {
        let busy = busy_turns(rt.alloc(), seed);
        assert!(rt; busy.is_some(), "seed {seed}");
        all = all.saturating_add(busy.unwrap_or(0));
    }
    assert!(rt; all >= 50);
}

// ---- one call each

/// What the first library calls, and then the second.
#[derive(Clone, Copy)]
enum Calls {
    /// Both write into the file `f` of the directory `a`.
    Write,
    /// The first makes a file in the root, and the second lists the root.
    List,
    /// The first makes a file in the root, and the second lists the directory `a`.
    ListBelow,
}

fn first_call(alloc: Global, calls: Calls) -> Option<Call>
    ensures { IfSome result IsCall }
{
    match calls {
        Calls::Write => write(alloc, b"x"),
        Calls::List | Calls::ListBelow => create(alloc),
    }
}

fn create(alloc: Global) -> Option<Call>
    ensures { IfSome result IsCall }
{
    let path = Path::read(alloc, b"/g").ok()?;
    Some(Call::Create {
        path,
        mode: Mode(0o644),
    })
}

fn second_call(alloc: Global, calls: Calls) -> Option<Call>
    ensures { IfSome result IsCall }
{
    match calls {
        Calls::Write => write(alloc, b"y"),
        Calls::List => list(alloc, b"/"),
        Calls::ListBelow => list(alloc, b"/a"),
    }
}

// Who has what the second library wants, once the first one's call is done.
fn holder_after(
    alloc: Global,
    ctl: &mut Ctl,
    first: &mut Session,
    second: &mut Session,
    calls: Calls,
) -> Option<Holder>
    requires first { MayPlay (underway_of ctl.old) first_lib first.old }
    requires second { MayPlay (underway_of ctl.old) second_lib second.old }
{
    let call = first_call(alloc, calls)?;
    let next = second_call(alloc, calls)?;
    let done = makes_beside(alloc, ctl, LibNo(1), first, LibNo(2), second, call);
    let outcome = makes(alloc, ctl, LibNo(2), second, next);
    match holder_in(&done) {
        Some(None) => holder_in(&outcome)?,
        _ => None,
    }
}

fn holder_on(alloc: Global, ctl: &mut Ctl, calls: Calls) -> Option<Holder>
    requires two { length ctl.old.state.creds ≡ 2 }
    requires none { NothingIsOut ctl.old }
{
    let mut first = seated(alloc, ctl, LibNo(1));
    let mut second = seated(alloc, ctl, LibNo(2));
    let holder = holder_after(alloc, ctl, &mut first, &mut second, calls);
    first.discard();
    second.discard();
    holder
}

fn holder(alloc: Global, calls: Calls) -> Option<Holder> {
    let mut ctl = started(alloc, Start::Several)?;
    holder_on(alloc, &mut ctl, calls)
}

/// The calls, and the entry of the first library's grant that is in the way. Those of its walk to the file
/// `f` are the entries 0 and 1.
const ROWS: &[(&str, Calls, u64)] = &[
    ("a file is written", Calls::Write, 2),
    ("the root is listed", Calls::List, 0),
    ("a directory below it is listed", Calls::ListBelow, 0),
];

#[test]
fn the_grant_of_a_call_is_told(rt: HostRuntime) {
    for (name, calls, entry) in ROWS {
        let wanted = Holder {
            lib: LibNo(1),
            kind: GrantKind::Write,
            entry: *entry,
        };
        assert!(rt; holder(rt.alloc(), *calls) == Some(wanted), "{name}");
    }
}
