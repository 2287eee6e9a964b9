//! A release that a worker judges, while a judged value of another bundle lies in the library's mail.

ghost use Rattle.std.specs.Prelude.{IfSome};
ghost use Rattle.trio_pool.specs.Mails.{IsForMails};
ghost use Rattle.trio_pool.specs.Passes.{IsOf};
ghost use Rattle.trio_shared_tests.specs.Sits.{Arrives, Plays};

use crate::images::two_files;
use crate::moves::begun;
use crate::seats::{asks, empty_hands, start};
use std::alloc::Global;
use std::sync::Wait;
use std::test::Fail;
use std::thread;
use std::thread::Threads;
use trio_ctl::{Judged, Pending};
use trio_nodes::{GrantKind, ReleaseAnswer, Spot};
use trio_page::Reads;
use trio_pool::{MailPass, Mails, OfLibrary, Pool, PoolPass, serve};
use trio_raw::Raw;
use trio_shared::{LibSeat, PoolDesk, SeatDesk, Shared};

// ---- the pool and the mails

// A pool with room for four jobs, and a pass of the library, of the worker, and of who stops the worker.
fn start_pool(
    alloc: Global,
) -> Option<
    (
        Pool<Pending>,
        PoolPass<Pending>,
        PoolPass<Pending>,
        PoolPass<Pending>,
    ),
>
    ensures { IfSome result (λ r. IsOf r.0 r.1 × IsOf r.0 r.2 × IsOf r.0 r.3) }
{
    let Ok((pool, mut passes)) = Pool::start(alloc, 4, 3) else {
        return None;
    };
    let first = passes.pop()?;
    let second = passes.pop()?;
    let third = passes.pop()?;
    Some((pool, first, second, third))
}

// The mail of one library, and two passes of it.
fn start_mails(alloc: Global) -> Option<(Mails<Judged>, MailPass<Judged>, MailPass<Judged>)>
    ensures { IfSome result (λ r. IsForMails r.0 r.1 × IsForMails r.0 r.2) }
{
    let Ok((mails, mut passes)) = Mails::start(alloc, 1, 2) else {
        return None;
    };
    let first = passes.pop()?;
    let second = passes.pop()?;
    Some((mails, first, second))
}

// Puts a value into the mail of its library. Whether it is there then.
fn is_posted(mails: &Mails<Judged>, mail: &mut MailPass<Judged>, value: Judged) -> bool
    requires { IsForMails mails.now mail.old }
    ensures { IsForMails mails.now mail.new }
{
    mails.has(value.lib()) && mails.post(mail, value).is_ok()
}

// A worker with passes of its own.
fn work<R: Wait>(
    rt: &R,
    pool: &Pool<Pending>,
    mut pass: PoolPass<Pending>,
    mails: &Mails<Judged>,
    mut mail: MailPass<Judged>,
) -> u64
    requires { IsOf pool.now pass × IsForMails mails.now mail }
{
    serve(rt, pool, &mut pass, mails, &mut mail)
}

// Puts a stop, as soon as the queue has room.
fn stop<R: Wait>(rt: &R, pool: &Pool<Pending>, mut pass: PoolPass<Pending>)
    requires { IsOf pool.now pass }
{
    for _ in rt.forever() {
        if pool.stop(rt, &mut pass).is_ok() {
            return;
        }
        thread::yield_now();
    }
    unreachable!()
}

// ---- the library

// What library 1 of another controller of the same image hands in, judged: the file 3, as it was lent.
fn value_of_another<R: Wait>(rt: &R, alloc: Global) -> Option<Judged> {
    let (shared, mut seats) = start(alloc, two_files(alloc)?, 1)?;
    let mut seat = seats.pop()?;
    let pending = begun(rt, alloc, &shared, &mut seat)?;
    Some(pending.weigh(&mut Reads::new()))
}

// The library is lent the file 3, spoils its size, and hands it in to the pool.
fn is_told<R: Wait>(
    rt: &R,
    alloc: Global,
    shared: &Shared,
    seat: &mut LibSeat,
    raw: &mut Raw,
    pool: &Pool<Pending>,
    pass: &mut PoolPass<Pending>,
    mails: &Mails<Judged>,
    mail: &mut MailPass<Judged>,
) -> Option<ReleaseAnswer>
    requires plays { Plays shared.now seat.old raw.old.has }
    requires pass { IsOf pool.now pass.old }
    requires mail { IsForMails mails.now mail.old }
{
    if !mails.has(seat.library()) {
        return None;
    }
    asks(rt, shared, seat, raw, 3, GrantKind::Write).ok()?;
    let _is_spoiled = raw.poke(Spot::Body(3), 16, &[255, 255]);
    let own = SeatDesk::of(rt, shared, seat);
    let mut desk = PoolDesk::of(own, pool, pass, mails, mail, alloc);
    raw.release(&mut desk, &[3], &[], &[]).ok()
}

// All that the library does, and what it is told. Then the worker stops.
fn plays<R: Wait>(
    rt: &R,
    alloc: Global,
    shared: &Shared,
    mut seat: LibSeat,
    pool: &Pool<Pending>,
    mut pass: PoolPass<Pending>,
    last: PoolPass<Pending>,
    mails: &Mails<Judged>,
    mut mail: MailPass<Judged>,
) -> Option<ReleaseAnswer>
    requires seat { Arrives shared.now seat }
    requires pass { IsOf pool.now pass × IsOf pool.now last }
    requires mail { IsForMails mails.now mail }
{
    let mut raw = empty_hands(alloc, &seat);
    let told = is_told(
        rt, alloc, shared, &mut seat, &mut raw, pool, &mut pass, mails, &mut mail,
    );
    raw.discard();
    stop(rt, pool, last);
    told
}

// What the library is told, and how many cases the worker judged.
fn outcome<R: Threads + Wait + Sync>(
    rt: &R,
    alloc: Global,
) -> Option<(Option<ReleaseAnswer>, u64)> {
    let (pool, pass, worker, last) = start_pool(alloc)?;
    let (mails, mut mail, worker_mail) = start_mails(alloc)?;
    if !is_posted(&mails, &mut mail, value_of_another(rt, alloc)?) {
        return None;
    }
    let (shared, mut seats) = start(alloc, two_files(alloc)?, 1)?;
    let seat = seats.pop()?;
    let (judged, told) = thread::join(
        rt,
        || -> u64
            requires { IsOf pool worker × IsForMails mails worker_mail }
        { work(rt, &pool, worker, &mails, worker_mail) },
        || -> Option<ReleaseAnswer>
            requires { Arrives shared seat × IsOf pool pass × IsOf pool last × IsForMails mails mail }
        { plays(rt, alloc, &shared, seat, &pool, pass, last, &mails, mail) },
    );
    Some((told, judged))
}

/// In the mail of library 1 lies a judged value of the same file, lent as it is but not spoiled: it would
/// be accepted. The library is told of its own bundle, which is refused.
#[test]
fn the_value_of_another_bundle_is_dropped(rt: HostRuntime) -> Result<(), Fail> {
    let (told, judged) = outcome(&rt, rt.alloc()).ok_or("memory")?;
    assert!(rt; matches!(told, Some(ReleaseAnswer::Refused { .. })));
    assert!(rt; judged == 1);
    Ok(())
}
