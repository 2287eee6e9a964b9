//! Files and empty directories are removed.

ghost use Rattle.std.specs.Prelude.{◌≡◌, ◌<◌, IsFalse, IsSome, MatchResult, Some, length};
ghost use Rattle.trio_nodes.specs.Walk.{is_root, name_of};
ghost use Rattle.trio_rights.specs.ByKind.{is_directory};
ghost use Rattle.trio_session.specs.Seen.{IsOpenDir, clear, place_shown};
ghost use Rattle.trio_edit_laws.specs.Calls.{MayCall};
ghost use Rattle.trio_walk.specs.Walks.{FindsEntry, HasMet, InAllShown, shows_root};
ghost use Rattle.trio_laws.specs.session.DirCalls.{ComesInto};
ghost use Rattle.trio_nodes.specs.Nodes.{find_named};
ghost use Rattle.trio_walk.specs.Needs.{dir_needs, named_needs, removing_needs};
ghost use Rattle.trio_calls_dir.specs.inner.Goes.{Goes, number_made, removing, try_ends};
ghost use Rattle.trio_walk.specs.Tries.{BusyAt, OthersHold, HasNothing};
ghost use Rattle.trio_calls_dir.specs.inner.Removes.{other_kind};
ghost use Rattle.trio_session.specs.Asked.{IsAlike};

use crate::paths::{name_of, parent};
use crate::replies::{Replied, noted_reply, stopped};
use std::alloc::Global;
use trio_desk::Desk;
use trio_names::Path;
use trio_nodes::{Answer, Call, GrantKind, Reply};
use trio_page::NoMemory;
use trio_session::Session;
use trio_walk::{Met, Stop, WalkEnd, look_up, reach_into, take};

/// Removes a directory, which has to be empty, or any other file.
pub(crate) fn remove<D: Desk>(
    alloc: Global,
    session: &mut Session,
    desk: &mut D,
    call: &Call,
    of_dirs: bool,
    path: &Path,
) -> Result<Replied, Stop>
    requires may { MayCall (D.seen desk.old) session.old }
    requires call { call.now ≡ removing of_dirs path.now }
    requires root { IsFalse (is_root path.now) }
    ensures goes { Goes D.called D.seen desk.old session.old call.now (λ now. dir_needs now (D.seen desk.new).creds (shows_root session.old) call.now) (try_ends result) (number_made result) desk.new session.new }
    ensures others { HasNothing session.old → OthersHold session.old.lib (try_ends result) }
{
    let Ok(dir) = parent(alloc, path) else {
        return Err(Stop::NoMemory);
    };
    let writes = [dir];
    match reach_into(session, desk, &writes[0], &writes) {
        Ok(met) => match look_up(session, met.ino, name_of(path)) {
            None => noted_reply(session, Reply::NotFound),
            Some(file) if file.kind.is_directory() == of_dirs => {
                remove_in(session, desk, call, path, met.ino, file)
            }
            Some(_) => noted_reply(session, other_kind(of_dirs)),
        },
        Err(end) => stopped(session, end),
    }
}

// why a file of another kind isn't removed
fn other_kind(of_dirs: bool) -> Reply
    ensures { result ≡ other_kind of_dirs }
{
    if of_dirs { Reply::NotDir } else { Reply::IsDir }
}

// removes a file from its directory; one that has entries isn't removed
fn remove_in<D: Desk>(
    session: &mut Session,
    desk: &mut D,
    call: &Call,
    path: &Path,
    dir: u32,
    file: Met,
) -> Result<Replied, Stop>
    requires may { MayCall (D.seen desk.old) session.old }
    requires call { call.now ≡ removing (is_directory file.kind) path.now }
    requires root { IsFalse (is_root path.now) }
    requires open { IsOpenDir session.old dir }
    requires comes { InAllShown (D.seen desk.old) session.old (λ now. ComesInto now (D.seen desk.old).creds call.now path.now dir) }
    requires entry { FindsEntry session.old dir (name_of path.now) (Some file) }
    requires met { HasMet (D.seen desk.old) session.old file }
    requires named { InAllShown (D.seen desk.old) session.old (λ now. find_named now dir (name_of path.now) ≡ Some file.ino) }
    ensures goes { Goes D.called D.seen desk.old session.old call.now (λ now. named_needs now dir (name_of path.now) (removing_needs (is_directory file.kind))) (try_ends result) (number_made result) desk.new session.new }
    ensures others { BusyAt (D.seen desk.old) session.old file.ino GrantKind.Hold (try_ends result) }
{
    match take(session, desk, file, GrantKind::Hold) {
        Ok(true) => match session.children(file.ino) {
            Some(0) => clear_held(session, path, dir),
            // what is no directory has none
            Some(_) => noted_reply(session, Reply::NotEmpty),
            None => unreachable!(),
        },
        // a hold needs no rights
        Ok(false) => unreachable!(),
        Err(WalkEnd::Busy(holder)) => Err(Stop::Busy(holder)),
        Err(WalkEnd::NoMemory) => Err(Stop::NoMemory),
        Err(WalkEnd::At(_)) => unreachable!(),
        Err(WalkEnd::Reply(_)) => unreachable!(),
    }
}

// the slot of a file that may go
fn clear_held(session: &mut Session, path: &Path, dir: u32) -> Result<Replied, Stop>
    requires root { IsFalse (is_root path.now) }
    requires open { IsOpenDir session.old dir }
    requires there { IsSome (place_shown session.old dir (name_of path.now)) }
    ensures ends { MatchResult result (λ r. (r ≡ record { reply = Reply.Ok Answer.Done; made = 0 }) × IsAlike (clear dir (name_of path.now) session.old) session.new × (length session.old.calls < session.new.room.calls)) (λ stop. (stop ≡ Stop.NoMemory) × (session.new ≡ record session.old { room = session.new.room })) }
{
    match session.reserve_call() {
        Ok(()) => {
            session.clear(dir, name_of(path));
            Ok(Replied {
                reply: Reply::Ok(Answer::Done),
                made: 0,
            })
        }
        Err(NoMemory) => Err(Stop::NoMemory),
    }
}
