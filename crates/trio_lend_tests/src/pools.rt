//! A pool of workers: calls on one thread, and a submitter and a worker on two.

ghost use Rattle.std.specs.Prelude.{◌≡◌, ◌≤◌, IfSome};
ghost use Rattle.trio_pool.specs.Mails.{library_count, IsForMails};
ghost use Rattle.trio_pool.specs.Passes.{pass_count, number, IsOf};

use std::alloc::Global;
use std::sync::Wait;
use std::test::Fail;
use std::thread;
use std::thread::Threads;
use trio_pool::{Full, MailPass, Mails, OfLibrary, Pool, PoolPass, Taken, Weigh, serve};
use trio_rights::LibNo;

const NOTES: u32 = 1000;

/// A case, which can't be copied.
#[derive(Drop)]
pub struct Note {
    number: u32,
}

/// What a note becomes.
#[derive(Drop)]
pub struct Mark {
    library: u32,
    number: u32,
}

impl OfLibrary for Mark {
    ghost library = { λ m. m.library };

    fn lib(&self) -> LibNo {
        LibNo(self.library)
    }
}

impl Weigh<Mark> for Note {
    fn weigh(self) -> Mark {
        Mark {
            library: self.number % 2 + 1,
            number: self.number,
        }
    }
}

/// A call on a pool. A note has a number.
#[derive(Clone, Copy)]
enum Call {
    Submit(u32),
    Stop,
    Take,
}

/// What a call answers.
#[derive(Clone, Copy, PartialEq)]
enum Said {
    Put,
    Back(u32),
    Full,
    Note(u32),
    Stop,
    Nothing,
}

const CALLS: &[(Call, Said)] = &[
    (Call::Submit(7), Said::Put),
    (Call::Submit(8), Said::Back(8)),
    (Call::Stop, Said::Full),
    (Call::Take, Said::Note(7)),
    (Call::Take, Said::Nothing),
    (Call::Stop, Said::Put),
    (Call::Submit(8), Said::Back(8)),
    (Call::Take, Said::Stop),
    (Call::Submit(9), Said::Put),
];

// A pool with room for one job, and its one pass.
fn start_one(alloc: Global) -> Option<(Pool<Note>, PoolPass<Note>)>
    ensures { IfSome result (λ r. (pass_count r.0 ≡ 1) × IsOf r.0 r.1 × (number r.1 ≡ 0)) }
{
    let Ok((pool, mut passes)) = Pool::start(alloc, 1, 1) else {
        return None;
    };
    let Some(pass) = passes.pop() else {
        unreachable!()
    };
    Some((pool, pass))
}

fn say<R: Wait>(rt: &R, pool: &Pool<Note>, pass: &mut PoolPass<Note>, call: Call) -> Said
    requires { IsOf pool.now pass.old }
    ensures { IsOf pool.now pass.new × (number pass.new ≡ number pass.old) }
{
    match call {
        Call::Submit(number) => match pool.submit(rt, pass, Note { number }) {
            Ok(()) => Said::Put,
            Err(note) => Said::Back(note.number),
        },
        Call::Stop => match pool.stop(rt, pass) {
            Ok(()) => Said::Put,
            Err(Full) => Said::Full,
        },
        Call::Take => match pool.take(rt, pass) {
            Taken::Case(note) => Said::Note(note.number),
            Taken::Stop => Said::Stop,
            Taken::Nothing => Said::Nothing,
        },
    }
}

// The cases that the one pass of a pool leaves.
fn close_one<R: Wait>(
    rt: &R,
    alloc: Global,
    pool: Pool<Note>,
    pass: PoolPass<Note>,
) -> Option<Vec<Note>>
    requires { (pass_count pool ≡ 1) × IsOf pool pass × (number pass ≡ 0) }
{
    let mut passes = Vec::new(alloc);
    passes.push(pass).ok()?;
    pool.close(rt, passes).ok()
}

// Which call is the first that answers something else, and the cases that are left.
fn say_all<R: Wait>(rt: &R, alloc: Global) -> Option<(Option<usize>, Vec<Note>)> {
    let (pool, mut pass) = start_one(alloc)?;
    let mut wrong = None;
    for (place, (call, wanted)) in CALLS.iter().enumerate() {
        if say(rt, &pool, &mut pass, *call) != *wanted && wrong.is_none() {
            wrong = Some(place);
        }
    }
    let left = close_one(rt, alloc, pool, pass)?;
    Some((wrong, left))
}

#[test]
fn a_pool_has_room_for_one_job(rt: HostRuntime) -> Result<(), Fail> {
    let (wrong, left) = say_all(&rt, rt.alloc()).ok_or("memory")?;
    assert!(rt; wrong.is_none(), "call {wrong:?}");
    assert!(rt; left.len() == 1);
    assert!(rt; left[0].number == 9);
    Ok(())
}

// Submits a note, as soon as the queue has room.
fn submit<R: Wait>(rt: &R, pool: &Pool<Note>, pass: &mut PoolPass<Note>, number: u32)
    requires { IsOf pool.now pass.old }
    ensures { IsOf pool.now pass.new }
{
    for _ in rt.forever() {
        if pool.submit(rt, pass, Note { number }).is_ok() {
            return;
        }
        thread::yield_now();
    }
    unreachable!()
}

// Puts a stop, as soon as the queue has room.
fn stop<R: Wait>(rt: &R, pool: &Pool<Note>, pass: &mut PoolPass<Note>)
    requires { IsOf pool.now pass.old }
{
    for _ in rt.forever() {
        if pool.stop(rt, pass).is_ok() {
            return;
        }
        thread::yield_now();
    }
    unreachable!()
}

// Waits for the next mark of a library, and tells its number.
fn receive<R: Wait>(rt: &R, mails: &Mails<Mark>, mail: &mut MailPass<Mark>, library: u32) -> u32
    requires { IsForMails mails.now mail.old × (1 ≤ library) × (library ≤ library_count mails.now) }
    ensures { IsForMails mails.now mail.new }
{
    for _ in rt.forever() {
        match mails.fetch(mail, LibNo(library)) {
            Some(mark) => return mark.number,
            None => thread::yield_now(),
        }
    }
    unreachable!()
}

// Submits notes one after another, waits for the mark of each, and then stops the worker. Counts the
// marks with another number.
fn submit_all<R: Wait>(
    rt: &R,
    pool: &Pool<Note>,
    mut pass: PoolPass<Note>,
    mails: &Mails<Mark>,
    mut mail: MailPass<Mark>,
) -> u32
    requires { IsOf pool.now pass × IsForMails mails.now mail × (2 ≤ library_count mails.now) }
{
    let mut others = 0u32;
    for number in 0..NOTES {
        submit(rt, pool, &mut pass, number);
        if receive(rt, mails, &mut mail, number % 2 + 1) != number {
            others = others.wrapping_add(1);
        }
    }
    stop(rt, pool, &mut pass);
    others
}

// A pool with room for four jobs, and its two passes.
fn start_two(alloc: Global) -> Option<(Pool<Note>, PoolPass<Note>, PoolPass<Note>)>
    ensures { IfSome result (λ r. IsOf r.0 r.1 × IsOf r.0 r.2) }
{
    let Ok((pool, mut passes)) = Pool::start(alloc, 4, 2) else {
        return None;
    };
    let Some(second) = passes.pop() else {
        unreachable!()
    };
    let Some(first) = passes.pop() else {
        unreachable!()
    };
    Some((pool, first, second))
}

// The mails of two libraries, and two passes of them.
fn start_mails(alloc: Global) -> Option<(Mails<Mark>, MailPass<Mark>, MailPass<Mark>)>
    ensures { IfSome result (λ r. IsForMails r.0 r.1 × IsForMails r.0 r.2 × (library_count r.0 ≡ 2)) }
{
    let Ok((mails, mut passes)) = Mails::start(alloc, 2, 2) else {
        return None;
    };
    let Some(second) = passes.pop() else {
        unreachable!()
    };
    let Some(first) = passes.pop() else {
        unreachable!()
    };
    Some((mails, first, second))
}

// A worker with passes of its own.
fn work<R: Wait>(
    rt: &R,
    pool: &Pool<Note>,
    mut pass: PoolPass<Note>,
    mails: &Mails<Mark>,
    mut mail: MailPass<Mark>,
) -> u64
    requires { IsOf pool.now pass × IsForMails mails.now mail }
{
    serve(rt, pool, &mut pass, mails, &mut mail)
}

// How many marks had another number, and how many notes the worker judged.
fn judged_by_one<R: Threads + Wait + Sync>(rt: &R, alloc: Global) -> Option<(u32, u64)> {
    let (pool, mine, theirs) = start_two(alloc)?;
    let (mails, my_mail, their_mail) = start_mails(alloc)?;
    Some(thread::join(
        rt,
        || -> u32
            requires { IsOf pool mine × IsForMails mails my_mail × (2 ≤ library_count mails) }
        { submit_all(rt, &pool, mine, &mails, my_mail) },
        || -> u64
            requires { IsOf pool theirs × IsForMails mails their_mail }
        { work(rt, &pool, theirs, &mails, their_mail) },
    ))
}

/// One thread submits 1,000 notes and waits for the mark of each; another judges them. No mark is of
/// another note.
#[test]
fn a_worker_judges_each_note(rt: HostRuntime) -> Result<(), Fail> {
    assert!(rt; judged_by_one(&rt, rt.alloc()) == Some((0, 1000)));
    Ok(())
}
