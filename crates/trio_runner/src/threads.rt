//! The libraries of a script, each on a thread of its own.

ghost use Rattle.std.specs.Prelude.{◌≡◌, ◌∷◌, ◌++◌, ◌≤◌, [], IfOk, IfSome, OnOk, Some, length, map};
ghost use Rattle.trio_state.specs.Kept.{Kept};
ghost use Rattle.trio_state.specs.Run.{start};
ghost use Rattle.trio_ctl.specs.Ctl.{IsIdle as StandsIdle, IsLibrary, NoneBegun};
ghost use Rattle.trio_rights.specs.declared.rights.LibNo.{LibNo};
ghost use Rattle.trio_script.specs.Within.{AreWithin, LinesWithin};
ghost use Rattle.trio_shared.specs.Seats.{desk, origin};
ghost use Rattle.trio_turn.specs.Seats.{OfEach, seen};
ghost use Rattle.trio_runner.specs.Kinds.{Suits};
ghost use Rattle.trio_runner.specs.Play.{creds_in};
ghost use Rattle.trio_runner.specs.Rounds.{Ends, line_turns};
ghost use Rattle.trio_runner.specs.Runs.{ScriptRan};
ghost use Rattle.trio_runner.specs.inner.Threads.{Arrives, HasRun, HaveRun, MayGoOn, Sits, Went, WentThrough, seats_of};

use crate::hand::Hand;
use crate::kinds::{Kinds, line_count, line_number};
use crate::seat_turns::turn_of;
use crate::told::LibTold;
use crate::workers::run_with_workers;
use std::alloc::Global;
use std::sync::Wait;
use std::thread;
use std::thread::Threads;
use trio_ctl::Ctl;
use trio_io::Gate;
use trio_page::NoMemory;
use trio_script::{Lines, ScriptLib};
use trio_shared::{LibSeat, Shared};

/// A library's seat before it begins, and what it releases to a pool of workers with, where there is one.
#[derive(Drop)]
pub(crate) struct LibStart<'a> {
    pub(crate) seat: LibSeat,
    pub(crate) hand: Option<Hand<'a>>,
}

/// A library's seat once the library has come to its end, and what the library was told; `None` where
/// it lacked memory.
#[derive(Drop)]
pub(crate) struct LibRun {
    seat: LibSeat,
    told: Option<LibTold>,
}

/// Runs a script on a controller that has just started, with the script's credentials: each library
/// plays its lines and then its end on a thread of its own, at its seat at the controller, which they
/// share. Returns the controller, and what each library was told, in the order of the libraries. The
/// kinds of libraries are those of `K`.
///
/// Before each line, and before the end, the library comes to the gate, while it has no turn. No
/// answer depends on the gate. Where no thread can be made, libraries run one after another.
///
/// With `workers`, 1 to 8, a pool of as many threads judges what libraries release. What is promised is
/// the same. Once all libraries have ended, the workers stop. Where no worker's thread can be made, the
/// libraries run without a pool, each judging its own.
///
/// The calls of honest lines are within the limits of a call, as all that
/// [`read_script`](trio_script::read_script) gives are. On want of memory in one of the libraries the
/// others still come to their ends, and then the controller is let go.
pub fn run<K: Kinds + Sync, R: Threads + Wait + Sync, G: Gate + Sync>(
    rt: &R,
    alloc: Global,
    ctl: Ctl,
    libs: &[ScriptLib],
    gate: &G,
    workers: Option<u32>,
) -> Result<(Ctl, Vec<LibTold>), NoMemory>
    requires kept { Kept ctl.state }
    requires started { ctl.state ≡ start ctl.state.home (creds_in libs.now) }
    requires first { ctl.first ≡ ctl.state.home }
    requires unlogged { ctl.log ≡ [] }
    requires idle { NoneBegun ctl }
    requires some { 1 ≤ length libs.now }
    requires few { length libs.now ≤ 16 }
    requires within { AreWithin libs.now }
    requires workers { IfSome workers (λ n. (1 ≤ n) × (n ≤ 8)) }
    ensures script { IfOk result (λ r. ScriptRan ctl.state.home libs.now r.1.items r.0.state r.0.log) }
    ensures first { IfOk result (λ r. r.0.first ≡ ctl.first) }
    ensures idle { IfOk result (λ r. (lib : LibNo) → IsLibrary lib r.0.state → StandsIdle r.0 lib.0) }
{
    ctl.is_recorded();
    let Ok((shared, seats)) = Shared::start(alloc, ctl, libs.len() as u32) else {
        return Err(NoMemory);
    };
    let runs = run_libs::<K, _, _>(rt, alloc, &shared, libs, gate, seats, workers)?;
    let (seats, tolds) = parted(alloc, runs)?;
    match shared.close(seats) {
        Ok(ctl) => Ok((ctl, tolds)),
        Err(_) => Err(NoMemory),
    }
}

/// Runs all libraries, each on a thread of its own, beside workers or without.
fn run_libs<K: Kinds + Sync, R: Threads + Wait + Sync, G: Gate + Sync>(
    rt: &R,
    alloc: Global,
    shared: &Shared,
    libs: &[ScriptLib],
    gate: &G,
    seats: Vec<LibSeat>,
    workers: Option<u32>,
) -> Result<Vec<LibRun>, NoMemory>
    requires few { length libs.now ≤ 16 }
    requires within { AreWithin libs.now }
    requires arrive { OfEach (Arrives shared.now libs.now) seats.items }
    requires workers { IfSome workers (λ n. (1 ≤ n) × (n ≤ 8)) }
    ensures ran { IfOk result (λ runs. HaveRun shared.now libs.now seats.items runs.items) }
{
    match workers {
        Some(workers) => {
            run_with_workers::<K, _, _>(rt, alloc, shared, libs, gate, seats, workers)
        }
        None => { run_seats::<K, _, _>(rt, alloc, shared, libs, gate, seats, Vec::new(alloc)) }
    }
}

/// Runs the libraries of these seats, each on a thread of its own, with one of the hands, as long as
/// there are any.
pub(crate) fn run_seats<K: Kinds + Sync, R: Threads + Wait + Sync, G: Gate + Sync>(
    rt: &R,
    alloc: Global,
    shared: &Shared,
    libs: &[ScriptLib],
    gate: &G,
    seats: Vec<LibSeat>,
    mut hands: Vec<Hand<'_>>,
) -> Result<Vec<LibRun>, NoMemory>
    requires few { length libs.now ≤ 16 }
    requires within { AreWithin libs.now }
    requires arrive { OfEach (Arrives shared.now libs.now) seats.items }
    ensures ran { IfOk result (λ runs. HaveRun shared.now libs.now seats.items runs.items) }
{
    let starts = starts(alloc, seats, &mut hands)?;
    run_all::<K, _, _>(rt, alloc, shared, libs, gate, starts)
}

/// The libraries of these seats as they begin, each with one of the hands, as long as there are any.
fn starts<'a>(
    alloc: Global,
    seats: Vec<LibSeat>,
    hands: &mut Vec<Hand<'a>>,
) -> Result<Vec<LibStart<'a>>, NoMemory>
    ensures seats { IfOk result (λ starts. seats_of starts.items ≡ seats.items) }
{
    let mut starts = Vec::with_capacity(alloc, seats.len())?;
    for seat in seats {
        starts.push(LibStart {
            seat,
            hand: hands.pop(),
        })?;
    }
    Ok(starts)
}

/// Runs all libraries, each on a thread of its own.
fn run_all<'a, K: Kinds + Sync, R: Threads + Wait + Sync, G: Gate + Sync>(
    rt: &R,
    alloc: Global,
    shared: &Shared,
    libs: &[ScriptLib],
    gate: &G,
    starts: Vec<LibStart<'a>>,
) -> Result<Vec<LibRun>, NoMemory>
    requires few { length libs.now ≤ 16 }
    requires within { AreWithin libs.now }
    requires arrive { OfEach (Arrives shared.now libs.now) (seats_of starts.items) }
    ensures ran { IfOk result (λ runs. HaveRun shared.now libs.now (seats_of starts.entry.items) runs.items) }
{
    let run_one = |start: LibStart<'_>| -> LibRun
        requires { (length libs.now ≤ 16) × AreWithin libs.now × Arrives shared.now libs.now start.seat }
        ensures { HasRun shared.entry.now libs.entry.now start.entry.seat result }
    { run_lib::<K, _, _>(rt, alloc, shared, libs, gate, start) };
    thread::map_vec(rt, starts, &run_one)
}

/// The seats of libraries that have all come to their ends, and what these were told.
fn parted(alloc: Global, runs: Vec<LibRun>) -> Result<(Vec<LibSeat>, Vec<LibTold>), NoMemory>
    ensures seats { IfOk result (λ r. r.0.items ≡ map (λ run. run.seat) runs.items) }
    ensures tolds { IfOk result (λ r. map Some r.1.items ≡ map (λ run. run.told) runs.items) }
{
    let mut seats = Vec::with_capacity(alloc, runs.len())?;
    let mut tolds = Vec::with_capacity(alloc, runs.len())?;
    for run in runs {
        let LibRun { seat, told } = run;
        let Some(told) = told else {
            return Err(NoMemory);
        };
        seats.push(seat)?;
        tolds.push(told)?;
    }
    Ok((seats, tolds))
}

/// Runs the library of a seat.
fn run_lib<K: Kinds, R: Wait, G: Gate>(
    rt: &R,
    alloc: Global,
    shared: &Shared,
    libs: &[ScriptLib],
    gate: &G,
    start: LibStart<'_>,
) -> LibRun
    requires few { length libs.now ≤ 16 }
    requires within { AreWithin libs.now }
    requires arrives { Arrives shared.now libs.now start.seat }
    ensures { HasRun shared.now libs.now start.entry.seat result }
{
    let LibStart { mut seat, hand } = start;
    let script = &libs[(seat.library().0 - 1) as usize];
    let mut told = LibTold::untold(alloc);
    match run_script::<K, _, _>(rt, alloc, shared, gate, script, &mut seat, hand, &mut told) {
        Ok(()) => LibRun {
            seat,
            told: Some(told),
        },
        Err(NoMemory) => LibRun { seat, told: None },
    }
}

/// Plays all of a library's script at its seat, from what it begins with.
fn run_script<K: Kinds, R: Wait, G: Gate>(
    rt: &R,
    alloc: Global,
    shared: &Shared,
    gate: &G,
    script: &ScriptLib,
    seat: &mut LibSeat,
    hand: Option<Hand<'_>>,
    told: &mut LibTold,
) -> Result<(), NoMemory>
    requires few { length (origin shared.now).creds ≤ 16 }
    requires within { LinesWithin script.now.lines }
    requires sits { Sits shared.now seat.old }
    requires none { seen seat.old ≡ [] }
    requires creds { (desk seat.old).creds ≡ script.now.creds }
    ensures { OnOk result (WentThrough shared.now script.now.creds script.now.lines seat.old told.old seat.new told.new) }
{
    let mut player = K::begin(alloc, seat.library(), script);
    let went = run_turns::<K, _, _>(
        rt,
        alloc,
        shared,
        gate,
        &script.lines,
        seat,
        hand,
        &mut player,
        told,
    );
    K::discard(player);
    went
}

/// Takes all turns of a library at its seat: its lines one after another, and then its end.
fn run_turns<K: Kinds, R: Wait, G: Gate>(
    rt: &R,
    alloc: Global,
    shared: &Shared,
    gate: &G,
    lines: &Lines,
    seat: &mut LibSeat,
    hand: Option<Hand<'_>>,
    player: &mut K::Player,
    told: &mut LibTold,
) -> Result<(), NoMemory>
    requires few { length (origin shared.now).creds ≤ 16 }
    requires within { LinesWithin lines.now }
    requires suits { Suits lines.now (K.share player.old) }
    requires sits { Sits shared.now seat.old }
    requires may { MayGoOn (desk seat.old) (K.share player.old) }
    ensures { OnOk result (Went shared.now (line_turns lines.now ++ Ends ∷ []) seat.old (K.share player.old) told.old seat.new (K.share player.new) told.new) }
{
    let lib = seat.library();
    let mut hand = hand;
    for at in 0..line_count(lines) + 1 {
        gate.arrive(lib, line_number(lines, at));
        hand = turn_of::<K, _>(rt, alloc, shared, lines, at, seat, hand, player, told)?;
    }
    Ok(())
}
