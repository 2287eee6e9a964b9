//! The libraries of a script beside workers that judge what they release.

ghost use Rattle.std.specs.Prelude.{◌≡◌, ◌≤◌, ◌++◌, ◌∷◌, [], IfOk, length};
ghost use denote.Param.Send.{IsSync};
ghost use Rattle.trio_pool.specs.Jobs.{stop_job};
ghost use Rattle.trio_pool.specs.Mails.{AllFor, library_count as mail_count};
ghost use Rattle.trio_pool.specs.Passes.{IsOf, OfEach as OfEachPass, number, sent};
ghost use Rattle.trio_script.specs.Within.{AreWithin};
ghost use Rattle.trio_turn.specs.Seats.{OfEach};
ghost use Rattle.trio_runner.specs.inner.Threads.{Arrives, HaveRun};

use crate::hand::Hand;
use crate::kinds::Kinds;
use crate::threads::{LibRun, run_seats};
use std::alloc::Global;
use std::sync::Wait;
use std::thread;
use std::thread::Threads;
use trio_ctl::{Judged, Pending};
use trio_io::Gate;
use trio_page::NoMemory;
use trio_pool::{MailPass, Mails, Pool, PoolPass, serve};
use trio_script::ScriptLib;
use trio_shared::{LibSeat, Shared};

/// How many jobs the queue of the pool can hold.
const CAPACITY: u32 = 16;

/// How many libraries have a mail: all that a script may have.
const MAILS: u32 = 16;

/// Runs all libraries, each on a thread of its own, beside a pool of workers, 1 to 8, each on one too.
/// Where no worker's thread can be made, the libraries run without the pool.
pub(crate) fn run_with_workers<K: Kinds + Sync, R: Threads + Wait + Sync, G: Gate + Sync>(
    rt: &R,
    alloc: Global,
    shared: &Shared,
    libs: &[ScriptLib],
    gate: &G,
    seats: Vec<LibSeat>,
    workers: u32,
) -> Result<Vec<LibRun>, NoMemory>
    requires few { length libs.now ≤ 16 }
    requires within { AreWithin libs.now }
    requires arrive { OfEach (Arrives shared.now libs.now) seats.items }
    requires workers { (1 ≤ workers) × (workers ≤ 8) }
    ensures ran { IfOk result (λ runs. HaveRun shared.now libs.now seats.items runs.items) }
{
    let threads = libs.len() as u32 + workers;
    let (pool, mut passes) = Pool::start(alloc, CAPACITY, threads + 1)?;
    let Some(last) = passes.pop() else {
        unreachable!()
    };
    let (mails, mut mail_passes) = Mails::start(alloc, MAILS, threads)?;
    let own = hands(alloc, workers, &pool, &mut passes, &mails, &mut mail_passes)?;
    let rest = hands(
        alloc,
        libs.len() as u32,
        &pool,
        &mut passes,
        &mails,
        &mut mail_passes,
    )?;
    beside::<K, _, _>(rt, alloc, shared, libs, gate, seats, rest, own, &pool, last)
}

/// So many of these passes, as long as there are any, each with one of the mails.
fn hands<'a>(
    alloc: Global,
    count: u32,
    pool: &'a Pool<Pending>,
    passes: &mut Vec<PoolPass<Pending>>,
    mails: &'a Mails<Judged>,
    mail_passes: &mut Vec<MailPass<Judged>>,
) -> Result<Vec<Hand<'a>>, NoMemory>
    requires passes { OfEachPass (IsOf pool.now) passes.old.items }
    requires mails { AllFor mails.now mail_passes.old.items }
    requires all { mail_count mails.now ≡ 16 }
    ensures passes { OfEachPass (IsOf pool.now) passes.new.items }
    ensures mails { AllFor mails.now mail_passes.new.items }
{
    let mut hands = Vec::with_capacity(alloc, count as usize)?;
    for _ in 0..count {
        if let Some(hand) = next_hand(pool, passes, mails, mail_passes) {
            hands.push(hand)?;
        }
    }
    Ok(hands)
}

/// The last of the passes and the last of those of the mails.
fn next_hand<'a>(
    pool: &'a Pool<Pending>,
    passes: &mut Vec<PoolPass<Pending>>,
    mails: &'a Mails<Judged>,
    mail_passes: &mut Vec<MailPass<Judged>>,
) -> Option<Hand<'a>>
    requires passes { OfEachPass (IsOf pool.now) passes.old.items }
    requires mails { AllFor mails.now mail_passes.old.items }
    requires all { mail_count mails.now ≡ 16 }
    ensures passes { OfEachPass (IsOf pool.now) passes.new.items }
    ensures mails { AllFor mails.now mail_passes.new.items }
{
    let Some(pass) = passes.pop() else {
        return None;
    };
    let Some(mail) = mail_passes.pop() else {
        return None;
    };
    Some(Hand {
        pool,
        pass,
        mails,
        mail,
    })
}

/// Starts the workers, runs the libraries, each with one of the hands, and stops the workers then.
fn beside<'a, K: Kinds + Sync, R: Threads + Wait + Sync, G: Gate + Sync>(
    rt: &R,
    alloc: Global,
    shared: &Shared,
    libs: &[ScriptLib],
    gate: &G,
    seats: Vec<LibSeat>,
    hands: Vec<Hand<'a>>,
    workers: Vec<Hand<'a>>,
    pool: &'a Pool<Pending>,
    last: PoolPass<Pending>,
) -> Result<Vec<LibRun>, NoMemory>
    requires few { length libs.now ≤ 16 }
    requires within { AreWithin libs.now }
    requires arrive { OfEach (Arrives shared.now libs.now) seats.items }
    requires pass { IsOf pool.now last }
    ensures ran { IfOk result (λ runs. HaveRun shared.now libs.now seats.items runs.items) }
{
    thread::scope(
        thread::scope_env(),
        rt,
        move |scope| -> Result<Vec<LibRun>, NoMemory>
            requires { IsSync R.row × (length libs.now ≤ 16) × AreWithin libs.now × OfEach (Arrives shared.now libs.now) seats.items × IsOf pool.now last }
            ensures { IfOk result (λ runs. HaveRun shared.entry.now libs.entry.now seats.items runs.items) }
        {
            let count = workers.len();
            let mut has_worker = false;
            for worker in workers {
                has_worker |= scope.spawn(move || work(rt, worker)).is_ok();
            }
            if !has_worker {
                let none = Vec::new(alloc);
                return run_seats::<K, _, _>(rt, alloc, shared, libs, gate, seats, none);
            }
            let runs = run_seats::<K, _, _>(rt, alloc, shared, libs, gate, seats, hands);
            stop_all(rt, pool, last, count);
            runs
        },
    )
}

/// Judges the cases of a pool until it takes a stop.
fn work<R: Wait>(rt: &R, worker: Hand<'_>) {
    let Hand {
        pool,
        mut pass,
        mails,
        mut mail,
    } = worker;
    serve(rt, pool, &mut pass, mails, &mut mail);
}

/// Puts a stop for each worker.
fn stop_all<R: Wait>(rt: &R, pool: &Pool<Pending>, mut pass: PoolPass<Pending>, workers: usize)
    requires { IsOf pool.now pass }
{
    for _ in 0..workers {
        stop_one(rt, pool, &mut pass);
    }
}

/// Puts a stop, as soon as the pool has room for it.
fn stop_one<R: Wait>(rt: &R, pool: &Pool<Pending>, pass: &mut PoolPass<Pending>)
    requires { IsOf pool.now pass.old }
    ensures pass { IsOf pool.now pass.new }
    ensures stop { sent pass.new ≡ sent pass.old ++ stop_job (number pass.old) ∷ [] }
{
    for _ in rt.forever() {
        if pool.stop(rt, pass).is_ok() {
            return;
        }
        thread::yield_now();
    }
    unreachable!()
}
