//! What a worker does.

ghost use Rattle.std.specs.Prelude.{◌≡◌, ◌≤◌, List, ◌++◌};
ghost use Rattle.trio_pool.specs.declared.job.Job.{Job};
ghost use Rattle.trio_pool.specs.Jobs.{AreCasesAndStop};
ghost use Rattle.trio_pool.specs.Passes.{fulls, sent, took, IsOf, IsSamePass};
ghost use Rattle.trio_pool.specs.Mails.{library_count, IsForMails};

use crate::cell::Pool;
use crate::mail::{MailPass, Mails, OfLibrary};
use crate::pass::PoolPass;
use crate::steps::wait_forever;
use crate::taken::Taken;
use std::sync::Wait;
use std::thread;

/// A case, of which a judgement makes a value.
pub trait Weigh<J> {
    /// Judges the case.
    fn weigh(self) -> J;
}

// Puts a value into its library's mail, as soon as that has room.
fn send<J: OfLibrary + Drop, R: Wait>(rt: &R, mails: &Mails<J>, mail: &mut MailPass<J>, value: J)
    requires mail { IsForMails mails.now mail.old }
    requires library { (1 ≤ J.library value) × (J.library value ≤ library_count mails.now) }
    ensures mail { IsForMails mails.now mail.new }
{
    let mut value = value;
    for _ in rt.forever() {
        match mails.post(mail, value) {
            Ok(()) => return,
            Err(back) => {
                value = back;
                thread::yield_now();
            }
        }
    }
    unreachable!()
}

// The same where the library has a mail. Else the value is dropped.
fn send_or_drop<J: OfLibrary + Drop, R: Wait>(
    rt: &R,
    mails: &Mails<J>,
    mail: &mut MailPass<J>,
    value: J,
)
    requires mail { IsForMails mails.now mail.old }
    ensures mail { IsForMails mails.now mail.new }
{
    if mails.has(value.lib()) {
        send(rt, mails, mail, value);
    }
}

/// Judges the cases of a pool until it takes a stop. What was judged goes into its library's mail, as
/// soon as that has room. A value of a library without a mail is dropped.
///
/// Answers how many cases it took before the stop. After 2^64 - 1 of them it waits forever with the
/// next.
pub fn serve<C: Weigh<J> + Drop, J: OfLibrary + Drop, R: Wait>(
    rt: &R,
    pool: &Pool<C>,
    pass: &mut PoolPass<C>,
    mails: &Mails<J>,
    mail: &mut MailPass<J>,
) -> u64
    requires pass { IsOf pool.now pass.old }
    requires mail { IsForMails mails.now mail.old }
    ensures same { IsSamePass pass.old pass.new × (sent pass.new ≡ sent pass.old) × (fulls pass.new ≡ fulls pass.old) }
    ensures mail { IsForMails mails.now mail.new }
    ensures took { (jobs : List (Job C)) × (took pass.new ≡ took pass.old ++ jobs) × AreCasesAndStop result jobs }
{
    let mut judged = 0u64;
    for _ in rt.forever() {
        match pool.take(rt, pass) {
            Taken::Case(case) => {
                if judged == u64::MAX {
                    // it can't count one more
                    wait_forever(rt);
                }
                judged += 1;
                send_or_drop(rt, mails, mail, case.weigh());
            }
            Taken::Stop => return judged,
            Taken::Nothing => thread::yield_now(),
        }
    }
    unreachable!()
}
