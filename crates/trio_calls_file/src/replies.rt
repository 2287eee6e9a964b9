//! What a call of a file is replied.

ghost use Rattle.std.specs.Prelude.{◌≡◌};
ghost use Rattle.trio_walk.specs.Needs.{path_of};
ghost use Rattle.trio_edit_laws.specs.Calls.{MayCall};
ghost use Rattle.trio_calls_file.specs.Asks.{IsFileCall};
ghost use Rattle.trio_calls_file.specs.inner.Goes.{RepliesTo, try_ends};
ghost use Rattle.trio_walk.specs.Tries.{OthersHold, HasNothing};

use crate::files::{at_file, noted_reply};
use std::alloc::Global;
use trio_desk::Desk;
use trio_names::Path;
use trio_nodes::{Call, Reply};
use trio_session::Session;
use trio_walk::{Stop, WalkEnd, reach};

/// What a call is replied, at the end of its walk or at the file to which that comes.
pub(crate) fn reply_to<D: Desk>(
    alloc: Global,
    session: &mut Session,
    desk: &mut D,
    call: &Call,
) -> Result<Reply, Stop>
    requires may { MayCall (D.seen desk.old) session.old }
    requires file { IsFileCall call.now }
    ensures replies { RepliesTo D.called D.seen desk.old session.old call.now (try_ends result) desk.new session.new }
    ensures others { HasNothing session.old → OthersHold session.old.lib (try_ends result) }
{
    match reach(session, desk, path_of(call), &[]) {
        Ok(met) => at_file(alloc, session, desk, call, met),
        Err(WalkEnd::Reply(reply)) => noted_reply(session, reply),
        Err(WalkEnd::Busy(holder)) => Err(Stop::Busy(holder)),
        Err(WalkEnd::NoMemory) => Err(Stop::NoMemory),
        Err(WalkEnd::At(_)) => unreachable!(),
    }
}

// the path of a call of a file
fn path_of(call: &Call) -> &Path
    requires { IsFileCall call.now }
    ensures { result.now ≡ path_of call.now }
{
    match call {
        Call::Write { path, .. }
        | Call::Read { path, .. }
        | Call::Truncate { path, .. }
        | Call::Stat { path }
        | Call::Readlink { path }
        | Call::Guard { path, .. } => path,
        _ => unreachable!(),
    }
}
