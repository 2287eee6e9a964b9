//! What a call on a directory is replied.

ghost use Rattle.std.specs.Prelude.{◌≡◌, ◌<◌, MatchResult, length};
ghost use Rattle.trio_edit_laws.specs.Calls.{MayCall};
ghost use Rattle.trio_walk.specs.Walks.{IsStopped, shows_root};
ghost use Rattle.trio_calls_dir.specs.Asks.{IsEntryCall};
ghost use Rattle.trio_walk.specs.Needs.{dir_needs};
ghost use Rattle.trio_calls_dir.specs.inner.Goes.{Goes, StopsBy, number_made, try_ends, without_file};
ghost use Rattle.trio_walk.specs.Tries.{OthersHold, HasNothing, allot_reply};

use crate::lists::list;
use crate::makes::make;
use crate::moves::rename;
use crate::paths::is_root;
use crate::removes::remove;
use std::alloc::Global;
use trio_desk::Desk;
use trio_nodes::{AllotFault, Call, Reply};
use trio_page::NoMemory;
use trio_session::Session;
use trio_walk::{Stop, WalkEnd, allot_reply};

/// What a call is replied, and the number of the file that it made, or 0.
#[derive(Drop)]
pub(crate) struct Replied {
    pub(crate) reply: Reply,
    pub(crate) made: u32,
}

/// What a call is replied. All that it takes is taken before it changes any byte, the room for the
/// call among those done too.
pub(crate) fn reply_to<D: Desk>(
    alloc: Global,
    session: &mut Session,
    desk: &mut D,
    call: &Call,
) -> Result<Replied, Stop>
    requires may { MayCall (D.seen desk.old) session.old }
    requires entry { IsEntryCall call.now }
    ensures goes { Goes D.called D.seen desk.old session.old call.now (λ now. dir_needs now (D.seen desk.new).creds (shows_root session.old) call.now) (try_ends result) (number_made result) desk.new session.new }
    ensures others { HasNothing session.old → OthersHold session.old.lib (try_ends result) }
{
    match call {
        // the root is there
        Call::Mkdir { path, .. } if is_root(path) => noted_reply(session, Reply::Exists),
        Call::Create { path, .. } if is_root(path) => noted_reply(session, Reply::Exists),
        Call::Symlink { path, .. } if is_root(path) => noted_reply(session, Reply::Exists),
        Call::Mkdir { path, .. } => make(alloc, session, desk, call, path),
        Call::Create { path, .. } => make(alloc, session, desk, call, path),
        Call::Symlink { path, .. } => make(alloc, session, desk, call, path),
        // and isn't removed
        Call::Unlink { path } if is_root(path) => noted_reply(session, Reply::IsDir),
        Call::Rmdir { path } if is_root(path) => noted_reply(session, Reply::Denied),
        Call::Unlink { path } => remove(alloc, session, desk, call, false, path),
        Call::Rmdir { path } => remove(alloc, session, desk, call, true, path),
        Call::Rename { from, to } => rename(alloc, session, desk, call, from, to),
        Call::List { path, from } => list(alloc, session, desk, call, path, *from),
        _ => unreachable!(),
    }
}

/// A reply, and a place for the call's note.
pub(crate) fn noted_reply(session: &mut Session, reply: Reply) -> Result<Replied, Stop>
    ensures kept { session.new ≡ record session.old { room = session.new.room } }
    ensures ends { MatchResult result (λ r. (r ≡ record { reply = reply; made = 0 }) × (length session.new.calls < session.new.room.calls)) (λ stop. stop ≡ Stop.NoMemory) }
{
    match session.reserve_call() {
        Ok(()) => Ok(Replied { reply, made: 0 }),
        Err(NoMemory) => Err(Stop::NoMemory),
    }
}

/// A walk that has come to no file ends the try.
pub(crate) fn stopped(session: &mut Session, end: WalkEnd) -> Result<Replied, Stop>
    requires { IsStopped end }
    ensures kept { session.new ≡ record session.old { room = session.new.room } }
    ensures stops { StopsBy end result session.new }
{
    match end {
        WalkEnd::Reply(reply) => noted_reply(session, reply),
        WalkEnd::Busy(holder) => Err(Stop::Busy(holder)),
        WalkEnd::NoMemory => Err(Stop::NoMemory),
        WalkEnd::At(_) => unreachable!(),
    }
}

/// The reply of a call that isn't given the pages and numbers that it wants; it made no file. Want of
/// memory ends the try.
pub(crate) fn unmade(fault: AllotFault) -> Result<Replied, Stop>
    ensures { result ≡ without_file (allot_reply fault) }
{
    match allot_reply(fault) {
        Ok(reply) => Ok(Replied { reply, made: 0 }),
        Err(stop) => Err(stop),
    }
}
