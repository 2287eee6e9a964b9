//! Calls of files: tried, and tried once more.

ghost use Rattle.trio_edit_laws.specs.Calls.{MayCall};
ghost use Rattle.trio_edit_laws.proofs.Called.{may_be_settled, may_settled, may_unsettled};
ghost use Rattle.trio_calls_file.specs.Asks.{FileCalled, FileTried, IsFileCall};

use crate::replies::reply_to;
use std::alloc::Global;
use trio_desk::Desk;
use trio_nodes::{Call, Done};
use trio_page::NoMemory;
use trio_session::Session;
use trio_walk::{Outcome, Stop, Tries, TryEnd, copy_reply, retry};

/// A call of a file, to be tried.
#[derive(Drop)]
struct FileTry(Call);

impl Tries for FileTry {
    ghost begins = { λ t desk s. IsFileCall t.0 × MayCall desk s };

    ghost may = { λ t desk s. IsFileCall t.0 × MayCall desk s };

    ghost tried = { λ called seen t. FileTried called seen t.0 };

    // the reply is noted with the call
    fn attempt<D: Desk>(
        self,
        alloc: Global,
        session: &mut Session,
        desk: &mut D,
    ) -> TryEnd<FileTry> {
        let FileTry(call) = self;
        match reply_to(alloc, session, desk, &call) {
            Err(Stop::Busy(holder)) => TryEnd::Busy(FileTry(call), holder),
            Err(Stop::NoMemory) => TryEnd::NoMemory,
            Ok(reply) => match copy_reply(alloc, &reply) {
                Err(NoMemory) => TryEnd::NoMemory,
                Ok(noted) => {
                    session.note(Done {
                        call,
                        reply: noted,
                        made: 0,
                    });
                    TryEnd::Replied(reply)
                }
            },
        }
    }

    ghost begun = { λ t desk s may. may };

    ghost on = { λ t desk s may. may.1.edits.on };

    ghost ready = { λ t desk s may. may_be_settled desk s may.1 };

    ghost settled = { λ t desk desk' s s' may all. (may.0, may_settled desk' s s' all.empty all.on) };

    ghost unsettled = { λ t desk desk' s s' may none. (may.0, may_unsettled desk desk' s s' may.1 none.seen none.same none.on) };
}

/// Makes a call of a file: a write, a read, a truncate, a stat, the reading of a link's text, or a change
/// of the guard.
///
/// It takes all its leases, then its memory, then its allotment, and then changes bytes. Where the
/// desk answers that one is busy the session settles, and the call is tried once more.
pub fn file_call<D: Desk>(alloc: Global, session: &mut Session, desk: &mut D, call: Call) -> Outcome
    requires may { MayCall (D.seen desk.old) session.old }
    requires file { IsFileCall call }
    ensures may { MayCall (D.seen desk.new) session.new }
    ensures called { FileCalled D.called D.seen desk.old session.old call result desk.new session.new }
{
    retry(alloc, session, desk, FileTry(call))
}
