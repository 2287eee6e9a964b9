//! Modes are changed.

ghost use Rattle.std.specs.Prelude.{◌≡◌, ◌≤◌};
ghost use Rattle.trio_rights.specs.declared.rights.Mode.{Mode as AnyMode};
ghost use Rattle.trio_desk.specs.Calls.{OneCall};
ghost use Rattle.trio_desk.specs.Ready.{IsChmod};
ghost use Rattle.trio_session.specs.Seen.{HasReadsAlone};
ghost use Rattle.trio_edit_laws.specs.Calls.{MayCall};
ghost use Rattle.trio_edit_laws.proofs.Called.{may_be_settled, may_settled, may_unsettled};
ghost use Rattle.trio_walk.proofs.Retrying.{nothing_left};
ghost use Rattle.trio_walk.specs.Walks.{InAllShown, Walked};
ghost use Rattle.trio_calls_dir.specs.Chmods.{ChmodCalled, EndsHandedIn, EndsModed, LeavesBy, NamesOther, hand_in_ask, mode_ask};
ghost use Rattle.trio_calls_dir.specs.inner.Chmods.{ComesBack, Finds, IsChmodCall, IsUnset, RefusesBy, RefusesSo, TriesCall, owner_met};
ghost use Rattle.trio_calls_dir.specs.inner.Goes.{IsRefusal, IsRefusedAs};
ghost use Rattle.trio_walk.specs.Tries.{HasNothing, IsBack, try_end};
ghost use Rattle.trio_session.specs.Asked.{IsAlike, SameDesk};

use crate::paths::{is_root, name_of, parent};
use std::alloc::Global;
use trio_desk::Desk;
use trio_names::Path;
use trio_nodes::{Answer, Call, Done, ModeFault, Reply};
use trio_page::NoMemory;
use trio_rights::{Creds, Mode};
use trio_session::Session;
use trio_walk::{Met, Outcome, Tries, TryEnd, WalkEnd, copy_reply, look_up, reach_into, retry};

/// Changes the mode of a file, for its owner or uid 0.
///
/// The session settles first, and walks with read leases alone. A call that a check refuses is handed
/// in at once, alone; any other is asked of the desk, with the read leases, and is an entry of its own
/// in the history. Where the desk answers Busy the session settles, and the call is tried once more.
/// The session is empty after a reply and after Busy. After want of memory it is as it was, or has
/// nothing where it settled, beside the leases that the desk gave after that.
///
/// The mode is at most `0o777`. The desk refuses a change of mode only for a cause that is true of the
/// tree at its moment, and what the leases show rules all of them out but Busy and want of memory.
pub(crate) fn chmod<D: Desk>(
    alloc: Global,
    session: &mut Session,
    desk: &mut D,
    path: Path,
    mode: Mode,
) -> Outcome
    requires may { MayCall (D.seen desk.old) session.old }
    requires mode { mode.0 ≤ 511 }
    ensures may { MayCall (D.seen desk.new) session.new }
    ensures called { ChmodCalled D.called D.seen desk.old session.old path mode result desk.new session.new }
{
    match session.settle(desk) {
        Ok(_) => retry(alloc, session, desk, ChmodTry(Call::Chmod { path, mode })),
        Err(NoMemory) => Outcome::NoMemory,
    }
}

/// A change of mode, to be tried by a session that has nothing.
#[derive(Drop)]
struct ChmodTry(Call);

impl Tries for ChmodTry {
    ghost begins = { λ t desk s. IsChmodCall t.0 × MayCall desk s × HasNothing s };

    ghost may = { λ t desk s. IsChmodCall t.0 × MayCall desk s };

    ghost tried = { λ called seen t. TriesCall called seen t.0 };

    fn attempt<D: Desk>(
        self,
        alloc: Global,
        session: &mut Session,
        desk: &mut D,
    ) -> TryEnd<ChmodTry> {
        match &self.0 {
            Call::Chmod { path, mode } => match owned_file(alloc, session, desk, path) {
                WalkEnd::At(ino) => {
                    let mode = *mode;
                    set(session, desk, ino, mode, self)
                }
                WalkEnd::Reply(reply) => hand_in(alloc, session, desk, self, reply),
                WalkEnd::Busy(holder) => TryEnd::Busy(self, holder),
                WalkEnd::NoMemory => TryEnd::NoMemory,
            },
            _ => unreachable!(),
        }
    }

    ghost begun = { λ t desk s may. (may.0, may.1) };

    ghost on = { λ t desk s may. may.1.edits.on };

    ghost ready = { λ t desk s may. may_be_settled desk s may.1 };

    ghost settled = { λ t desk desk' s s' may all. (may.0, may_settled desk' s s' all.empty all.on, nothing_left s s' all.empty) };

    ghost unsettled = { λ t desk desk' s s' may none. (may.0, may_unsettled desk desk' s s' may.1 none.seen none.same none.on) };
}

// asks for the mode, with the read leases and the call
fn set<D: Desk>(
    session: &mut Session,
    desk: &mut D,
    ino: u32,
    mode: Mode,
    what: ChmodTry,
) -> TryEnd<ChmodTry>
    requires may { MayCall (D.seen desk.old) session.old }
    requires alone { HasReadsAlone session.old }
    requires chmod { IsChmod (D.seen desk.old) session.old.reads ino mode.0 what.0 }
    requires refuses { RefusesSo (D.seen desk.old) ino mode }
    ensures may { MayCall (D.seen desk.new) session.new }
    ensures asked { OneCall D.called desk.old (mode_ask session.old ino mode what.0) desk.new
        (λ told. EndsModed told (try_end result) × LeavesBy session.old (try_end result) session.new × NamesOther session.old.lib (try_end result)) ⊥ }
    ensures same { SameDesk (D.seen desk.old) (D.seen desk.new) }
    ensures back { IsBack what result }
{
    let ChmodTry(call) = what;
    match session.set_mode(desk, ino, mode.0, call) {
        Ok(()) => TryEnd::Replied(Reply::Ok(Answer::Done)),
        Err((back, fault)) => unset(back, fault),
    }
}

// how a try ends whose change of mode is refused; Busy gives it back
fn unset(back: Option<Call>, fault: ModeFault) -> TryEnd<ChmodTry>
    requires { ComesBack back fault }
    ensures { IsUnset back fault result }
{
    match fault {
        ModeFault::Busy(holder) => match back {
            Some(call) => TryEnd::Busy(ChmodTry(call), holder),
            None => unreachable!(),
        },
        ModeFault::NoMemory => TryEnd::NoMemory,
        // the file is live, the library acts for its owner, and the mode is one that there is
        ModeFault::NotLive => unreachable!(),
        ModeFault::NotOwner => unreachable!(),
        ModeFault::BadMode => unreachable!(),
    }
}

// hands a call in that a check refused, with the read leases; for want of memory it is taken back
fn hand_in<D: Desk>(
    alloc: Global,
    session: &mut Session,
    desk: &mut D,
    what: ChmodTry,
    reply: Reply,
) -> TryEnd<ChmodTry>
    requires may { MayCall (D.seen desk.old) session.old }
    requires alone { HasReadsAlone session.old }
    requires refusal { IsRefusal reply }
    requires refused { InAllShown (D.seen desk.old) session.old (IsRefusedAs (D.seen desk.old) what.0 reply) }
    ensures may { MayCall (D.seen desk.new) session.new }
    ensures handed { OneCall D.called desk.old (hand_in_ask session.old what.0 reply) desk.new
        (λ told. EndsHandedIn reply told (try_end result) × LeavesBy session.old (try_end result) session.new)
        ((result ≡ TryEnd.NoMemory) × IsAlike session.old session.new) }
    ensures same { SameDesk (D.seen desk.old) (D.seen desk.new) }
{
    let Ok(noted) = copy_reply(alloc, &reply) else {
        return TryEnd::NoMemory;
    };
    if session.reserve_call().is_err() {
        return TryEnd::NoMemory;
    }
    let ChmodTry(call) = what;
    session.note(Done {
        call,
        reply: noted,
        made: 0,
    });
    match session.settle(desk) {
        Ok(_) => TryEnd::Replied(reply),
        Err(NoMemory) => {
            session.unnote();
            TryEnd::NoMemory
        }
    }
}

// the file at a path, where the library may change its mode
fn owned_file<D: Desk>(alloc: Global, session: &mut Session, desk: &mut D, path: &Path) -> WalkEnd
    requires may { MayCall (D.seen desk.old) session.old }
    ensures may { MayCall (D.seen desk.new) session.new }
    ensures found { (mode : AnyMode) → Walked D.called D.seen desk.old session.old (Finds (D.seen desk.new) session.old path.now mode result) result desk.new session.new }
    ensures refusal { RefusesBy result }
    ensures alone { HasNothing session.old → HasReadsAlone session.new }
{
    if is_root(path) {
        return WalkEnd::Reply(Reply::Denied);
    }
    let Ok(dir) = parent(alloc, path) else {
        return WalkEnd::NoMemory;
    };
    match reach_into(session, desk, &dir, &[]) {
        Err(end) => end,
        Ok(met) => match look_up(session, met.ino, name_of(path)) {
            None => WalkEnd::Reply(Reply::NotFound),
            Some(file) if owns(desk.creds(), file) => WalkEnd::At(file.ino),
            Some(_) => WalkEnd::Reply(Reply::Denied),
        },
    }
}

// the library acts for the file's owner or for uid 0
fn owns(creds: Creds, file: Met) -> bool
    ensures { result ≡ owner_met creds file }
{
    match file.rights {
        Some(rights) => creds.uid == rights.uid || creds.uid == 0,
        None => creds.uid == 0,
    }
}
