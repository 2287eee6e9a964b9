//! Files get other names, or move to other directories.

ghost use Rattle.std.specs.Prelude.{◌≡◌, ◌≢◌, ◌<◌, ◌∷◌, [], IsFalse, IsSome, MatchResult, None, Some, length};
ghost use Rattle.trio_nodes.specs.declared.call.Call.{Call as AnyCall};
ghost use Rattle.trio_nodes.specs.Walk.{dir_of, is_root, name_of};
ghost use Rattle.trio_session.specs.Seen.{IsOpenDir, place_shown, retitle};
ghost use Rattle.trio_edit_laws.specs.Calls.{MayCall};
ghost use Rattle.trio_laws.specs.session.DirCalls.{early_refusal};
ghost use Rattle.trio_walk.specs.Asks.{IsNotBusy};
ghost use Rattle.trio_walk.specs.Walks.{shows_root};
ghost use Rattle.trio_walk.specs.Needs.{dir_needs, moving_needs};
ghost use Rattle.trio_calls_dir.specs.inner.Goes.{Goes, number_made, try_ends};
ghost use Rattle.trio_walk.specs.Tries.{OthersHold, HasNothing};
ghost use Rattle.trio_calls_dir.specs.inner.Moves.{IsAcross, IsFound, IsFree, IsOut, IsRename, MayMove, NeedsBusyAt, across_needs};
ghost use Rattle.trio_session.specs.Asked.{IsAlike};

use crate::paths::{is_above, is_root, name_of, parent};
use crate::replies::{Replied, noted_reply, stopped, unmade};
use crate::rooms::make_room;
use std::alloc::Global;
use trio_deeds::{move_file, places};
use trio_desk::Desk;
use trio_names::Path;
use trio_nodes::{Answer, Call, GrantKind, Reply};
use trio_page::NoMemory;
use trio_session::Session;
use trio_walk::{Met, Stop, WalkEnd, look_up, reach_into, take};

/// Gives a file another name, in its directory or in another.
///
/// Both directories are taken for writing. In one directory the entry gets the other name in its
/// slot. To move to another the file is held, unless the session made it, and that directory gets
/// an empty slot for it; then it takes its kind and its body along.
pub(crate) fn rename<D: Desk>(
    alloc: Global,
    session: &mut Session,
    desk: &mut D,
    call: &Call,
    from: &Path,
    to: &Path,
) -> Result<Replied, Stop>
    requires may { MayCall (D.seen desk.old) session.old }
    requires call { call.now ≡ AnyCall.Rename from.now to.now }
    ensures goes { Goes D.called D.seen desk.old session.old call.now (λ now. dir_needs now (D.seen desk.new).creds (shows_root session.old) call.now) (try_ends result) (number_made result) desk.new session.new }
    ensures others { HasNothing session.old → OthersHold session.old.lib (try_ends result) }
{
    match path_refusal(from, to) {
        Some(reply) => noted_reply(session, reply),
        None => rename_from(alloc, session, desk, call, from, to),
    }
}

// why a rename is refused by its paths alone, if it is
fn path_refusal(from: &Path, to: &Path) -> Option<Reply>
    ensures { result ≡ early_refusal (AnyCall.Rename from.now to.now) }
{
    if is_root(from) {
        Some(Reply::Denied)
    } else if is_root(to) {
        Some(Reply::Exists)
    } else if is_above(from, to) {
        Some(Reply::IntoItself)
    } else {
        None
    }
}

// from the walk into the old directory on
fn rename_from<D: Desk>(
    alloc: Global,
    session: &mut Session,
    desk: &mut D,
    call: &Call,
    from: &Path,
    to: &Path,
) -> Result<Replied, Stop>
    requires may { MayCall (D.seen desk.old) session.old }
    requires rename { IsRename call.now from.now to.now }
    ensures goes { Goes D.called D.seen desk.old session.old call.now (λ now. dir_needs now (D.seen desk.new).creds (shows_root session.old) call.now) (try_ends result) (number_made result) desk.new session.new }
    ensures others { HasNothing session.old → OthersHold session.old.lib (try_ends result) }
{
    let Ok(old) = parent(alloc, from) else {
        return Err(Stop::NoMemory);
    };
    let Ok(new) = parent(alloc, to) else {
        return Err(Stop::NoMemory);
    };
    let writes = [old, new];
    match reach_into(session, desk, &writes[0], &writes) {
        Ok(met) => rename_to(session, desk, call, from, to, &writes, met.ino),
        Err(end) => stopped(session, end),
    }
}

// from the walk into the new directory on
fn rename_to<D: Desk>(
    session: &mut Session,
    desk: &mut D,
    call: &Call,
    from: &Path,
    to: &Path,
    writes: &[Path; 2],
    dir: u32,
) -> Result<Replied, Stop>
    requires rename { IsRename call.now from.now to.now }
    requires writes { writes.now ≡ dir_of from.now ∷ dir_of to.now ∷ [] }
    requires out { IsOut (D.seen desk.old) session.old from.now to.now dir }
    ensures goes { Goes D.called D.seen desk.old session.old call.now (λ now. across_needs now (D.seen desk.old).creds (shows_root session.old) from.now to.now dir) (try_ends result) (number_made result) desk.new session.new }
    ensures busy { NeedsBusyAt (D.seen desk.old) session.old (λ now. across_needs now (D.seen desk.old).creds (shows_root session.old) from.now to.now dir) (try_ends result) }
{
    match reach_into(session, desk, &writes[1], writes) {
        Ok(met) => rename_across(session, desk, call, from, to, dir, met.ino),
        Err(end) => stopped(session, end),
    }
}

// between two directories that are entered
fn rename_across<D: Desk>(
    session: &mut Session,
    desk: &mut D,
    call: &Call,
    from: &Path,
    to: &Path,
    dir: u32,
    new_dir: u32,
) -> Result<Replied, Stop>
    requires rename { IsRename call.now from.now to.now }
    requires across { IsAcross (D.seen desk.old) session.old call.now from.now to.now dir new_dir }
    ensures goes { Goes D.called D.seen desk.old session.old call.now (λ now. moving_needs now from.now to.now dir new_dir) (try_ends result) (number_made result) desk.new session.new }
    ensures busy { NeedsBusyAt (D.seen desk.old) session.old (λ now. moving_needs now from.now to.now dir new_dir) (try_ends result) }
{
    match look_up(session, dir, name_of(from)) {
        None => noted_reply(session, Reply::NotFound),
        Some(file) => rename_found(session, desk, call, from, to, dir, new_dir, file),
    }
}

// a file that the old directory lists
fn rename_found<D: Desk>(
    session: &mut Session,
    desk: &mut D,
    call: &Call,
    from: &Path,
    to: &Path,
    dir: u32,
    new_dir: u32,
    file: Met,
) -> Result<Replied, Stop>
    requires rename { IsRename call.now from.now to.now }
    requires across { IsAcross (D.seen desk.old) session.old call.now from.now to.now dir new_dir }
    requires found { IsFound (D.seen desk.old) session.old from.now dir file }
    ensures goes { Goes D.called D.seen desk.old session.old call.now (λ now. moving_needs now from.now to.now dir new_dir) (try_ends result) (number_made result) desk.new session.new }
    ensures busy { NeedsBusyAt (D.seen desk.old) session.old (λ now. moving_needs now from.now to.now dir new_dir) (try_ends result) }
{
    match look_up(session, new_dir, name_of(to)) {
        Some(_) => noted_reply(session, Reply::Exists),
        None if dir == new_dir => retitle(session, from, to, dir),
        None => move_across(session, desk, call, from, to, dir, new_dir, file),
    }
}

// another name in the same directory
fn retitle(session: &mut Session, from: &Path, to: &Path, dir: u32) -> Result<Replied, Stop>
    requires from { IsFalse (is_root from.now) }
    requires to { IsFalse (is_root to.now) }
    requires opens { IsOpenDir session.old dir }
    requires there { IsSome (place_shown session.old dir (name_of from.now)) }
    requires free { place_shown session.old dir (name_of to.now) ≡ None }
    ensures ends { MatchResult result (λ r. (r ≡ record { reply = Reply.Ok Answer.Done; made = 0 }) × IsAlike (retitle dir (name_of from.now) (name_of to.now) session.old) session.new × (length session.old.calls < session.new.room.calls)) (λ stop. (stop ≡ Stop.NoMemory) × (session.new ≡ record session.old { room = session.new.room })) }
{
    match places(session, dir, 0) {
        Ok(()) => {
            session.retitle(dir, name_of(from), name_of(to));
            Ok(Replied {
                reply: Reply::Ok(Answer::Done),
                made: 0,
            })
        }
        Err(NoMemory) => Err(Stop::NoMemory),
    }
}

// to another directory
fn move_across<D: Desk>(
    session: &mut Session,
    desk: &mut D,
    call: &Call,
    from: &Path,
    to: &Path,
    dir: u32,
    new_dir: u32,
    file: Met,
) -> Result<Replied, Stop>
    requires rename { IsRename call.now from.now to.now }
    requires across { IsAcross (D.seen desk.old) session.old call.now from.now to.now dir new_dir }
    requires found { IsFound (D.seen desk.old) session.old from.now dir file }
    requires free { IsFree (D.seen desk.old) session.old to.now new_dir }
    requires apart { dir ≢ new_dir }
    ensures goes { Goes D.called D.seen desk.old session.old call.now (λ now. moving_needs now from.now to.now dir new_dir) (try_ends result) (number_made result) desk.new session.new }
    ensures busy { NeedsBusyAt (D.seen desk.old) session.old (λ now. moving_needs now from.now to.now dir new_dir) (try_ends result) }
{
    // a directory isn't below itself
    if file.ino == new_dir {
        return noted_reply(session, Reply::IntoItself);
    }
    match take(session, desk, file, GrantKind::Hold) {
        Ok(true) => move_held(session, desk, call, from, to, dir, new_dir, file),
        // a hold needs no rights
        Ok(false) => unreachable!(),
        Err(WalkEnd::Busy(holder)) => Err(Stop::Busy(holder)),
        Err(WalkEnd::NoMemory) => Err(Stop::NoMemory),
        Err(WalkEnd::At(_)) => unreachable!(),
        Err(WalkEnd::Reply(_)) => unreachable!(),
    }
}

// a file that is had, once there is room for it
fn move_held<D: Desk>(
    session: &mut Session,
    desk: &mut D,
    call: &Call,
    from: &Path,
    to: &Path,
    dir: u32,
    new_dir: u32,
    file: Met,
) -> Result<Replied, Stop>
    requires rename { IsRename call.now from.now to.now }
    requires moves { MayMove (D.seen desk.old) session.old call.now from.now to.now dir new_dir file }
    ensures goes { Goes D.called D.seen desk.old session.old call.now (λ now. []) (try_ends result) (number_made result) desk.new session.new }
    ensures idle { IsNotBusy (try_ends result) }
{
    // no file is held by a number of the session's own
    if session.moving(file.ino).is_none() {
        return Err(Stop::NoMemory);
    }
    match make_room(session, desk, new_dir, 0, 0) {
        Ok(()) => {
            move_file(session, dir, name_of(from), new_dir, name_of(to), file.ino);
            Ok(Replied {
                reply: Reply::Ok(Answer::Done),
                made: 0,
            })
        }
        Err(fault) => unmade(fault),
    }
}
