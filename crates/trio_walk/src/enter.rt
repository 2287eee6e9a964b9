//! Directories are entered.

ghost use Rattle.std.specs.Prelude.{◌≡◌, ◌&&◌, IsTrue, is_some, not};
ghost use Rattle.trio_walk.specs.Needs.{kind_for};
ghost use Rattle.trio_walk.specs.Walks.{HasMet, MayWalk, gives_met};
ghost use Rattle.trio_walk.specs.inner.Steps.{Entered, body_refuses};

use crate::files::take;
use crate::met::{Met, body_refuses, gives};
use crate::walks::WalkEnd;
use trio_desk::Desk;
use trio_nodes::{GrantKind, Reply};
use trio_rights::{Creds, Kind, Need};
use trio_session::Session;

/// Enters a directory to which a walk has come: it has to be one, to give what is needed, and to be
/// lent for it. Where no lease shows the rights of the root, its grant comes before their check.
pub(crate) fn enter<D: Desk>(
    session: &mut Session,
    desk: &mut D,
    at: Met,
    need: Need,
) -> Result<(), WalkEnd>
    requires may { MayWalk (D.seen desk.old) session.old }
    requires met { HasMet (D.seen desk.old) session.old at }
    ensures { Entered D.called D.seen desk.old session.old at need result desk.new session.new }
{
    if !at.kind.is_directory() {
        return Err(WalkEnd::Reply(Reply::NotDir));
    }
    if !gives(desk.creds(), at, need) {
        return Err(WalkEnd::Reply(Reply::Denied));
    }
    enter_allowed(session, desk, at, need)
}

// a directory whose rights give what is needed, as far as they are known: those of the root may be
// known only once it is lent
fn enter_allowed<D: Desk>(
    session: &mut Session,
    desk: &mut D,
    at: Met,
    need: Need,
) -> Result<(), WalkEnd>
    requires may { MayWalk (D.seen desk.old) session.old }
    requires met { HasMet (D.seen desk.old) session.old at }
    requires directory { at.kind ≡ Kind.Directory }
    requires gives { IsTrue (gives_met (D.seen desk.old).creds at need) }
    ensures { Entered D.called D.seen desk.old session.old at need result desk.new session.new }
{
    match take(session, desk, at, kind_for(need)) {
        Ok(true) if refuses_now(session, desk.creds(), need, at) => {
            Err(WalkEnd::Reply(Reply::Denied))
        }
        Ok(true) => Ok(()),
        Ok(false) => Err(WalkEnd::Reply(Reply::Denied)),
        Err(end) => Err(end),
    }
}

// the rights of a directory that is taken don't give what is needed, where they weren't known before
fn refuses_now(session: &Session, creds: Creds, need: Need, at: Met) -> bool
    ensures { result ≡ (not (is_some at.rights) && body_refuses session.now creds need at.ino) }
{
    at.rights.is_none() && body_refuses(session, creds, need, at.ino)
}

// the kind of grant by which a file is taken for what is needed of it
fn kind_for(need: Need) -> GrantKind
    ensures { result ≡ kind_for need }
{
    match need {
        Need::Read => GrantKind::Read,
        Need::Write => GrantKind::Write,
    }
}
