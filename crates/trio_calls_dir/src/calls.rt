//! Calls on directories: tried, and tried once more.

ghost use Rattle.trio_edit_laws.specs.Calls.{MayCall};
ghost use Rattle.trio_edit_laws.proofs.Called.{may_be_settled, may_settled, may_unsettled};
ghost use Rattle.trio_calls_dir.specs.Asks.{DirTried, IsEntryCall};
ghost use Rattle.trio_calls_dir.specs.Dir.{DirCalled, IsDirCall};

use crate::chmods::chmod;
use crate::replies::{Replied, reply_to};
use std::alloc::Global;
use trio_desk::Desk;
use trio_nodes::{Call, Done};
use trio_page::NoMemory;
use trio_session::Session;
use trio_walk::{Outcome, Stop, Tries, TryEnd, copy_reply, retry};

/// A call on a directory's entries, to be tried.
#[derive(Drop)]
struct DirTry(Call);

impl Tries for DirTry {
    ghost begins = { λ t desk s. IsEntryCall t.0 × MayCall desk s };

    ghost may = { λ t desk s. IsEntryCall t.0 × MayCall desk s };

    ghost tried = { λ called seen t. DirTried called seen t.0 };

    // the reply is noted with the call and with the number of the file that it made
    fn attempt<D: Desk>(
        self,
        alloc: Global,
        session: &mut Session,
        desk: &mut D,
    ) -> TryEnd<DirTry> {
        let DirTry(call) = self;
        match reply_to(alloc, session, desk, &call) {
            Err(Stop::Busy(holder)) => TryEnd::Busy(DirTry(call), holder),
            Err(Stop::NoMemory) => TryEnd::NoMemory,
            Ok(Replied { reply, made }) => match copy_reply(alloc, &reply) {
                Err(NoMemory) => TryEnd::NoMemory,
                Ok(noted) => {
                    session.note(Done {
                        call,
                        reply: noted,
                        made,
                    });
                    TryEnd::Replied(reply)
                }
            },
        }
    }

    ghost begun = { λ t desk s may. may };

    ghost on = { λ t desk s may. may.1.edits.on };

    ghost ready = { λ t desk s may. may_be_settled desk s may.1 };

    ghost settled = { λ t desk desk' s s' may all. (may.0, may_settled desk' s s' all.empty all.on) };

    ghost unsettled = { λ t desk desk' s s' may none. (may.0, may_unsettled desk desk' s s' may.1 none.seen none.same none.on) };
}

/// Makes a call on a directory or on a mode: makes, removes or renames a file, makes a link, lists names,
/// or changes a file's mode. A mode in it is at most `0o777`, and a link's text has 1 to 4096 bytes.
///
/// A call on a directory's entries takes all its leases, then its memory, then its allotment, and
/// then changes bytes. Where the desk answers that one is busy the session settles, and the call is
/// tried once more.
pub fn dir_call<D: Desk>(alloc: Global, session: &mut Session, desk: &mut D, call: Call) -> Outcome
    requires may { MayCall (D.seen desk.old) session.old }
    requires dir { IsDirCall call }
    ensures may { MayCall (D.seen desk.new) session.new }
    ensures called { DirCalled D.called D.seen desk.old session.old call result desk.new session.new }
{
    match call {
        Call::Chmod { path, mode } => chmod(alloc, session, desk, path, mode),
        call => retry(alloc, session, desk, DirTry(call)),
    }
}
