//! Names are listed.

ghost use Rattle.std.specs.Prelude.{◌≡◌, ◌<◌, IfOk, MatchResult, None, drop, length, take};
ghost use Rattle.trio_nodes.specs.declared.call.Call.{Call as AnyCall};
ghost use Rattle.trio_edit_laws.specs.Calls.{MayCall};
ghost use Rattle.trio_calls_dir.specs.inner.Lists.{ComesHere, list_reply, listing_at, met_refusal};
ghost use Rattle.trio_nodes.specs.Walk.{Path as NamePath};
ghost use Rattle.trio_desk.specs.Contents.{AreWithinLimits};
ghost use Rattle.trio_walk.specs.Walks.{HasMet, shows_root};
ghost use Rattle.trio_walk.specs.Needs.{dir_needs};
ghost use Rattle.trio_calls_dir.specs.inner.Goes.{Goes, number_made, try_ends};
ghost use Rattle.trio_walk.specs.Tries.{BusyAt, OthersHold, HasNothing};
ghost use Rattle.trio_session.specs.Deeds.{IsHad, names_here};

use crate::replies::{Replied, noted_reply, stopped};
use std::alloc::Global;
use trio_deeds::{allows, sorted_names};
use trio_desk::Desk;
use trio_names::Path;
use trio_nodes::{Answer, Call, GrantKind, List, Reply};
use trio_page::NoMemory;
use trio_rights::{Creds, Kind, Need};
use trio_session::Session;
use trio_walk::{Met, Stop, WalkEnd, gives, reach, take};

/// How many names one call lists at most.
const MOST_NAMES: usize = 64;

/// Lists names of a directory, in byte order, from a position on.
pub(crate) fn list<D: Desk>(
    alloc: Global,
    session: &mut Session,
    desk: &mut D,
    call: &Call,
    path: &Path,
    from: u32,
) -> Result<Replied, Stop>
    requires may { MayCall (D.seen desk.old) session.old }
    requires call { call.now ≡ AnyCall.List path.now from }
    ensures goes { Goes D.called D.seen desk.old session.old call.now (λ now. dir_needs now (D.seen desk.new).creds (shows_root session.old) call.now) (try_ends result) (number_made result) desk.new session.new }
    ensures others { HasNothing session.old → OthersHold session.old.lib (try_ends result) }
{
    match reach(session, desk, path, &[]) {
        Ok(met) => list_met(alloc, session, desk, met, from),
        Err(end) => stopped(session, end),
    }
}

// the names of the file to which the walk has come
fn list_met<D: Desk>(
    alloc: Global,
    session: &mut Session,
    desk: &mut D,
    met: Met,
    from: u32,
) -> Result<Replied, Stop>
    requires may { MayCall (D.seen desk.old) session.old }
    requires met { HasMet (D.seen desk.old) session.old met }
    ensures goes { (path : NamePath) → ComesHere (D.seen desk.old) session.old path met.ino
        → Goes D.called D.seen desk.old session.old (AnyCall.List path from) (λ now. listing_at (D.seen desk.old).creds met) (try_ends result) (number_made result) desk.new session.new }
    ensures busy { BusyAt (D.seen desk.old) session.old met.ino GrantKind.Read (try_ends result) }
{
    match refusal(desk.creds(), met) {
        Some(reply) => noted_reply(session, reply),
        None => list_unrefused(alloc, session, desk, met, from),
    }
}

// those of a directory that gives reading, as far as its rights are known
fn list_unrefused<D: Desk>(
    alloc: Global,
    session: &mut Session,
    desk: &mut D,
    met: Met,
    from: u32,
) -> Result<Replied, Stop>
    requires may { MayCall (D.seen desk.old) session.old }
    requires met { HasMet (D.seen desk.old) session.old met }
    requires limits { AreWithinLimits (D.seen desk.old).sizes }
    requires unrefused { met_refusal (D.seen desk.old).creds met ≡ None }
    ensures goes { (path : NamePath) → ComesHere (D.seen desk.old) session.old path met.ino
        → Goes D.called D.seen desk.old session.old (AnyCall.List path from) (λ now. listing_at (D.seen desk.old).creds met) (try_ends result) (number_made result) desk.new session.new }
    ensures busy { BusyAt (D.seen desk.old) session.old met.ino GrantKind.Read (try_ends result) }
{
    match take(session, desk, met, GrantKind::Read) {
        Ok(true) => list_taken(alloc, session, desk.creds(), met.ino, from),
        // only the root's rights may be unknown before its grant
        Ok(false) => noted_reply(session, Reply::Denied),
        Err(WalkEnd::Busy(holder)) => Err(Stop::Busy(holder)),
        Err(WalkEnd::NoMemory) => Err(Stop::NoMemory),
        Err(WalkEnd::At(_)) => unreachable!(),
        Err(WalkEnd::Reply(_)) => unreachable!(),
    }
}

// why a file that was met isn't listed, by what is known of it
fn refusal(creds: Creds, met: Met) -> Option<Reply>
    ensures { result ≡ met_refusal creds met }
{
    if !met.kind.is_directory() {
        Some(Reply::NotDir)
    } else if !gives(creds, met, Need::Read) {
        Some(Reply::Denied)
    } else {
        None
    }
}

// the names of a directory that is taken; only here are the root's rights sure to be known
fn list_taken(
    alloc: Global,
    session: &mut Session,
    creds: Creds,
    dir: u32,
    from: u32,
) -> Result<Replied, Stop>
    requires { IsHad session.old dir }
    ensures kept { session.new ≡ record session.old { room = session.new.room } }
    ensures ends { MatchResult result (λ r. (r ≡ record { reply = list_reply creds session.old dir from; made = 0 }) × (length session.new.calls < session.new.room.calls)) (λ stop. stop ≡ Stop.NoMemory) }
{
    if !allows(session, dir, Kind::Directory, creds, Need::Read) {
        return noted_reply(session, Reply::Denied);
    }
    match names_at(alloc, session, dir, from) {
        Ok(answer) => noted_reply(session, Reply::Ok(answer)),
        Err(NoMemory) => Err(Stop::NoMemory),
    }
}

// how many names there are, and some of them
fn names_at(alloc: Global, session: &Session, dir: u32, from: u32) -> Result<Answer, NoMemory>
    requires { IsHad session.now dir }
    ensures { IfOk result (λ answer. answer ≡ Answer.Names (length (names_here session.now dir)) (take 64 (drop from (names_here session.now dir)))) }
{
    let names = sorted_names(alloc, session, dir)?;
    let first = (from as usize).min(names.len());
    let last = names.len().min(first + MOST_NAMES);
    let some = Vec::from_slice(alloc, &names[first..last])?;
    Ok(Answer::Names {
        count: names.len() as u32,
        names: List::from_vec(some),
    })
}
