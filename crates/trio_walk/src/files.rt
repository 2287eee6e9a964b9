//! Files that were met are taken.

ghost use Rattle.std.specs.Prelude.{◌≡◌, ◌≢◌, Some, true};
ghost use Rattle.trio_session.specs.Seen.{kind_shown};
ghost use Rattle.trio_walk.specs.Walks.{HasMet, MayTake, MayWalk, Took};

use crate::met::Met;
use crate::walks::WalkEnd;
use trio_desk::Desk;
use trio_nodes::{GrantFault, GrantKind};
use trio_session::Session;

/// Takes a file that was met: the desk is asked for its grant, unless a lease serves. A directory that
/// is read or written has its index then.
///
/// `false`: the desk denies it, which it can of the root alone, where its rights weren't known. An
/// `Err` is [`WalkEnd::Busy`] or [`WalkEnd::NoMemory`].
pub fn take<D: Desk>(
    session: &mut Session,
    desk: &mut D,
    met: Met,
    kind: GrantKind,
) -> Result<bool, WalkEnd>
    requires may { MayWalk (D.seen desk.old) session.old }
    requires met { HasMet (D.seen desk.old) session.old met }
    requires fits { MayTake (D.seen desk.old) session.old met kind }
    ensures { Took D.called D.seen desk.old session.old met kind result desk.new session.new }
{
    match session.need(desk, met.ino, kind) {
        Ok(()) if shows(session, met, kind) => Ok(true),
        // no file is lent as another kind than its directory shows
        Ok(()) => Err(WalkEnd::NoMemory),
        Err(GrantFault::Denied(_)) => Ok(false),
        Err(GrantFault::Busy(holder)) => Err(WalkEnd::Busy(holder)),
        Err(GrantFault::NoMemory) => Err(WalkEnd::NoMemory),
        Err(GrantFault::NotLive) => unreachable!(),
        Err(GrantFault::NoParent) => unreachable!(),
    }
}

// the session shows the kind that was met, of a file that is read or written
fn shows(session: &Session, met: Met, kind: GrantKind) -> bool
    ensures { result ≡ true → kind ≢ GrantKind.Hold → kind_shown session.now met.ino ≡ Some met.kind }
{
    match kind {
        GrantKind::Hold => true,
        GrantKind::Read | GrantKind::Write => session.kind(met.ino) == Some(met.kind),
    }
}
