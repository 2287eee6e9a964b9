//! What is done at the file to which a call comes: checks, grants and edits.

ghost use Rattle.std.specs.Prelude.{◌≡◌, ◌+◌, ◌≤◌, ◌<◌, ◌==◌, IsTrue, MatchResult, None, Some, if◌then◌else◌, length, max};
ghost use Rattle.trio_desk.specs.Contents.{AreWithinLimits};
ghost use Rattle.trio_layout.specs.Body.{block_count};
ghost use Rattle.trio_nodes.specs.Apply.{largest_size};
ghost use Rattle.trio_nodes.specs.Walk.{Path as NamePath};
ghost use Rattle.trio_session.specs.Layout.{growth};
ghost use Rattle.trio_session.specs.Asked.{IsAlike};
ghost use Rattle.trio_session.specs.Seen.{IsOpenFile, kind_shown, serves, set_guard};
ghost use Rattle.trio_walk.specs.Needs.{path_of};
ghost use Rattle.trio_edit_laws.specs.Calls.{MayCall};
ghost use Rattle.trio_walk.specs.Walks.{HasMet};
ghost use Rattle.trio_calls_file.specs.Asks.{IsFileCall};
ghost use Rattle.trio_calls_file.specs.inner.Goes.{CallBusyAt, ComesHere, Goes, Unrefused, asks_at, bytes_refusal, bytes_reply, checked, grant_for, need_for, refusal_at, stat_reply, text_refusal, text_reply, try_ends, wants_pages_for};
ghost use Rattle.trio_walk.specs.Asks.{IsNotBusy};
ghost use Rattle.trio_session.specs.Deeds.{IsHad};
ghost use Rattle.trio_calls_file.specs.inner.Rooms.{MadeRoom};

use std::alloc::Global;
use trio_deeds::{allot, allows, block_count, bytes_of, growth, places, resize, size_of, stat_of};
use trio_desk::Desk;
use trio_nodes::{AllotFault, Answer, Call, GrantKind, Reply};
use trio_page::NoMemory;
use trio_rights::{Creds, Kind, Need};
use trio_session::Session;
use trio_walk::{Met, Stop, WalkEnd, allot_reply, gives, take};

/// No file may end past so many bytes.
const LARGEST_SIZE: u64 = 33_554_432;

/// What a call is replied at the file to which its walk came. All that it takes is taken before it
/// changes any byte, the room for the call among those done too.
pub(crate) fn at_file<D: Desk>(
    alloc: Global,
    session: &mut Session,
    desk: &mut D,
    call: &Call,
    met: Met,
) -> Result<Reply, Stop>
    requires may { MayCall (D.seen desk.old) session.old }
    requires met { HasMet (D.seen desk.old) session.old met }
    requires file { IsFileCall call.now }
    requires comes { ComesHere (D.seen desk.old) session.old (path_of call.now) met.ino }
    ensures goes { Goes D.called D.seen desk.old session.old call.now met.ino (asks_at (D.seen desk.old).creds session.old met call.now) (try_ends result) desk.new session.new }
    ensures busy { CallBusyAt (D.seen desk.old) session.old met call.now (try_ends result) }
{
    let given = gives(desk.creds(), met, need_for(call));
    match refusal(met.kind, given, call) {
        Some(reply) => noted_reply(session, reply),
        None => at_unrefused(alloc, session, desk, call, met),
    }
}

// at a file by which no check refuses the call, as far as its rights are known
fn at_unrefused<D: Desk>(
    alloc: Global,
    session: &mut Session,
    desk: &mut D,
    call: &Call,
    met: Met,
) -> Result<Reply, Stop>
    requires may { MayCall (D.seen desk.old) session.old }
    requires met { HasMet (D.seen desk.old) session.old met }
    requires file { IsFileCall call.now }
    requires comes { ComesHere (D.seen desk.old) session.old (path_of call.now) met.ino }
    requires limits { AreWithinLimits (D.seen desk.old).sizes }
    requires unrefused { checked (D.seen desk.old).creds met call.now ≡ None }
    ensures goes { Goes D.called D.seen desk.old session.old call.now met.ino (asks_at (D.seen desk.old).creds session.old met call.now) (try_ends result) desk.new session.new }
    ensures busy { CallBusyAt (D.seen desk.old) session.old met call.now (try_ends result) }
{
    match take(session, desk, met, grant_for(call)) {
        Ok(true) => at_taken(alloc, session, desk, call, met),
        // only a stat takes a directory, and only the root's rights may be unknown before its grant
        Ok(false) => noted_reply(session, Reply::Denied),
        Err(WalkEnd::Busy(holder)) => Err(Stop::Busy(holder)),
        Err(WalkEnd::NoMemory) => Err(Stop::NoMemory),
        Err(WalkEnd::At(_)) => unreachable!(),
        Err(WalkEnd::Reply(_)) => unreachable!(),
    }
}

// at the file that is taken
fn at_taken<D: Desk>(
    alloc: Global,
    session: &mut Session,
    desk: &mut D,
    call: &Call,
    met: Met,
) -> Result<Reply, Stop>
    requires may { MayCall (D.seen desk.old) session.old }
    requires met { HasMet (D.seen desk.old) session.old met }
    requires file { IsFileCall call.now }
    requires comes { ComesHere (D.seen desk.old) session.old (path_of call.now) met.ino }
    requires limits { AreWithinLimits (D.seen desk.old).sizes }
    requires unrefused { checked (D.seen desk.old).creds met call.now ≡ None }
    requires had { IsHad session.old met.ino }
    requires taken { IsTrue (serves session.old met.ino (grant_for call.now)) }
    requires shown { kind_shown session.old met.ino ≡ Some met.kind }
    ensures goes { Goes D.called D.seen desk.old session.old call.now met.ino (wants_pages_for (D.seen desk.old).creds call.now) (try_ends result) desk.new session.new }
    ensures idle { IsNotBusy (try_ends result) }
{
    match call {
        Call::Write { at, bytes, .. } => write(session, desk, met.ino, *at, bytes.as_slice()),
        Call::Truncate { size, .. } => truncate(session, desk, met.ino, *size),
        Call::Read { at, len, .. } => read(alloc, session, met.ino, *at, *len),
        Call::Stat { .. } => stat(session, desk.creds(), met),
        Call::Readlink { .. } => read_text(alloc, session, met.ino),
        Call::Guard { on, .. } => guard(session, met.ino, *on),
        _ => unreachable!(),
    }
}

// what a call needs of its file
fn need_for(call: &Call) -> Need
    ensures { result ≡ need_for call.now }
{
    match call {
        Call::Write { .. } | Call::Truncate { .. } | Call::Guard { .. } => Need::Write,
        _ => Need::Read,
    }
}

// the kind of grant by which it takes it
fn grant_for(call: &Call) -> GrantKind
    ensures { result ≡ grant_for call.now }
{
    match call {
        Call::Write { .. } | Call::Truncate { .. } | Call::Guard { .. } => GrantKind::Write,
        _ => GrantKind::Read,
    }
}

// why a call is refused at a file of this kind, whose rights give what is needed or don't
fn refusal(kind: Kind, given: bool, call: &Call) -> Option<Reply>
    ensures { result ≡ refusal_at kind given call.now }
{
    match call {
        Call::Write { at, bytes, .. } => {
            let count = bytes.as_slice().len() as u64;
            let fits = *at <= LARGEST_SIZE && count <= LARGEST_SIZE - *at;
            bytes_refusal(kind, given, fits)
        }
        Call::Truncate { size, .. } => bytes_refusal(kind, given, *size <= LARGEST_SIZE),
        Call::Read { .. } | Call::Guard { .. } => bytes_refusal(kind, given, true),
        Call::Readlink { .. } => text_refusal(kind, given),
        Call::Stat { .. } if !given => Some(Reply::Denied),
        _ => None,
    }
}

// why bytes aren't read or written at a file of this kind
fn bytes_refusal(kind: Kind, given: bool, fits: bool) -> Option<Reply>
    ensures { result ≡ bytes_refusal kind given fits }
{
    match kind {
        Kind::Directory => Some(Reply::IsDir),
        Kind::Link => Some(Reply::IsLink),
        Kind::Regular if !given => Some(Reply::Denied),
        Kind::Regular if !fits => Some(Reply::TooLarge),
        Kind::Regular => None,
    }
}

// why the text of a link isn't read at such a file
fn text_refusal(kind: Kind, given: bool) -> Option<Reply>
    ensures { result ≡ text_refusal kind given }
{
    if !kind.is_link() {
        Some(Reply::NotLink)
    } else if !given {
        Some(Reply::Denied)
    } else {
        None
    }
}

// a reply, and a place for the call's note
pub(crate) fn noted_reply(session: &mut Session, reply: Reply) -> Result<Reply, Stop>
    ensures kept { session.new ≡ record session.old { room = session.new.room } }
    ensures ends { MatchResult result (λ r. (r ≡ reply) × (length session.new.calls < session.new.room.calls)) (λ stop. stop ≡ Stop.NoMemory) }
{
    match session.reserve_call() {
        Ok(()) => Ok(reply),
        Err(NoMemory) => Err(Stop::NoMemory),
    }
}

// places and pages for a file that comes from one size to another
fn make_room<D: Desk>(
    session: &mut Session,
    desk: &mut D,
    ino: u32,
    old: u64,
    size: u64,
) -> Result<(), AllotFault>
    requires may { MayCall (D.seen desk.old) session.old }
    requires open { IsOpenFile session.old ino }
    requires old { old ≤ largest_size }
    requires size { size ≤ largest_size }
    ensures room { MadeRoom D.called D.seen desk.old session.old ino old size result desk.new session.new }
{
    match places(session, ino, block_count(size)) {
        Ok(()) => allot(session, desk, growth(old, size), 0),
        Err(NoMemory) => Err(AllotFault::NoMemory),
    }
}

// bytes are written into a file that is taken; it grows where they end past its size
fn write<D: Desk>(
    session: &mut Session,
    desk: &mut D,
    ino: u32,
    at: u64,
    bytes: &[u8],
) -> Result<Reply, Stop>
    requires may { MayCall (D.seen desk.old) session.old }
    requires limits { AreWithinLimits (D.seen desk.old).sizes }
    requires had { IsHad session.old ino }
    requires open { IsOpenFile session.old ino }
    requires few { length bytes.now ≤ 4096 }
    requires within { at + length bytes.now ≤ largest_size }
    ensures goes { (path : NamePath) → Unrefused (D.seen desk.old) session.old (Call.Write path at bytes.now) ino
        → Goes D.called D.seen desk.old session.old (Call.Write path at bytes.now) ino (wants_pages_for (D.seen desk.old).creds (Call.Write path at bytes.now)) (try_ends result) desk.new session.new }
    ensures idle { IsNotBusy (try_ends result) }
{
    let old = size_of(session, ino);
    let size = size_written(old, at, bytes);
    match make_room(session, desk, ino, old, size) {
        Ok(()) if bytes.is_empty() => Ok(Reply::Ok(Answer::Count(0))),
        Ok(()) => {
            resize(session, ino, old, size);
            session.put(ino, at, bytes);
            Ok(Reply::Ok(Answer::Count(bytes.len() as u32)))
        }
        Err(fault) => allot_reply(fault),
    }
}

// the size of a file after bytes are written; no bytes change nothing
fn size_written(old: u64, at: u64, bytes: &[u8]) -> u64
    requires { at + length bytes.now ≤ largest_size }
    ensures { result ≡ (if length bytes.now == 0 then old else max old (at + length bytes.now)) }
{
    if bytes.is_empty() {
        old
    } else {
        old.max(at + bytes.len() as u64)
    }
}

// a file that is taken comes to another size
fn truncate<D: Desk>(
    session: &mut Session,
    desk: &mut D,
    ino: u32,
    size: u64,
) -> Result<Reply, Stop>
    requires may { MayCall (D.seen desk.old) session.old }
    requires limits { AreWithinLimits (D.seen desk.old).sizes }
    requires had { IsHad session.old ino }
    requires open { IsOpenFile session.old ino }
    requires within { size ≤ largest_size }
    ensures goes { (path : NamePath) → Unrefused (D.seen desk.old) session.old (Call.Truncate path size) ino
        → Goes D.called D.seen desk.old session.old (Call.Truncate path size) ino (wants_pages_for (D.seen desk.old).creds (Call.Truncate path size)) (try_ends result) desk.new session.new }
    ensures idle { IsNotBusy (try_ends result) }
{
    let old = size_of(session, ino);
    match make_room(session, desk, ino, old, size) {
        Ok(()) => {
            resize(session, ino, old, size);
            Ok(Reply::Ok(Answer::Done))
        }
        Err(fault) => allot_reply(fault),
    }
}

// at most so many bytes of a file that is taken, from a place on
fn read(alloc: Global, session: &mut Session, ino: u32, at: u64, len: u32) -> Result<Reply, Stop>
    requires had { IsHad session.old ino }
    ensures kept { session.new ≡ record session.old { room = session.new.room } }
    ensures ends { MatchResult result (λ r. (r ≡ bytes_reply session.old ino at len) × (length session.new.calls < session.new.room.calls)) (λ stop. stop ≡ Stop.NoMemory) }
{
    match bytes_of(alloc, session, ino, at, len) {
        Ok(bytes) => noted_reply(session, Reply::Ok(Answer::Bytes(bytes))),
        Err(NoMemory) => Err(Stop::NoMemory),
    }
}

// the text of a link that is taken: all its bytes
fn read_text(alloc: Global, session: &mut Session, ino: u32) -> Result<Reply, Stop>
    requires had { IsHad session.old ino }
    ensures kept { session.new ≡ record session.old { room = session.new.room } }
    ensures ends { MatchResult result (λ r. (r ≡ text_reply session.old ino) × (length session.new.calls < session.new.room.calls)) (λ stop. stop ≡ Stop.NoMemory) }
{
    let size = size_of(session, ino) as u32;
    match bytes_of(alloc, session, ino, 0, size) {
        Ok(text) => noted_reply(session, Reply::Ok(Answer::Bytes(text))),
        Err(NoMemory) => Err(Stop::NoMemory),
    }
}

// a file that is taken is guarded from now on, or no longer
fn guard(session: &mut Session, ino: u32, on: bool) -> Result<Reply, Stop>
    requires open { IsOpenFile session.old ino }
    ensures ends { MatchResult result (λ r. (r ≡ Reply.Ok Answer.Done) × IsAlike (set_guard ino on session.old) session.new × (length session.old.calls < session.new.room.calls)) (λ stop. (stop ≡ Stop.NoMemory) × (session.new ≡ record session.old { room = session.new.room })) }
{
    match session.reserve_call() {
        Ok(()) => {
            session.set_guard(ino, on);
            Ok(Reply::Ok(Answer::Done))
        }
        Err(NoMemory) => Err(Stop::NoMemory),
    }
}

// what a file that is taken is, by its body; only here are the root's rights sure to be known
fn stat(session: &mut Session, creds: Creds, met: Met) -> Result<Reply, Stop>
    requires had { IsHad session.old met.ino }
    ensures kept { session.new ≡ record session.old { room = session.new.room } }
    ensures ends { MatchResult result (λ r. (r ≡ stat_reply creds session.old met.ino met.kind) × (length session.new.calls < session.new.room.calls)) (λ stop. stop ≡ Stop.NoMemory) }
{
    if !allows(session, met.ino, met.kind, creds, Need::Read) {
        return noted_reply(session, Reply::Denied);
    }
    let told = stat_of(session, met.ino, met.kind);
    noted_reply(session, Reply::Ok(told))
}
