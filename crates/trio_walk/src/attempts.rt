//! Calls are tried, and tried once more.

ghost use Rattle.std.specs.Prelude.{◌≡◌};
ghost use Rattle.trio_desk.specs.Call.{Ask, DeskSeen, Told};
ghost use Rattle.trio_desk.specs.Ready.{Ready};
ghost use Rattle.trio_session.specs.Seen.{IsOn, SessionSeen};
ghost use Rattle.trio_walk.specs.declared.outcome.Outcome.{Outcome};
ghost use Rattle.trio_walk.specs.Asks.{Called};
ghost use Rattle.trio_walk.specs.Tries.{HasNothing, IsBack, IsSettledAt, IsUnsettledAt, OthersHold, try_end};
ghost use Rattle.trio_walk.specs.inner.Settling.{IsAgain, TriesOnce};

use crate::outcome::Outcome;
use std::alloc::Global;
use trio_desk::Desk;
use trio_nodes::{Holder, Reply};
use trio_page::NoMemory;
use trio_session::Session;

/// How one try of a call ends. Busy gives back what was tried.
#[derive(Drop)]
pub enum TryEnd<T> {
    Replied(Reply),
    Busy(T, Holder),
    NoMemory,
}

/// A call that can be tried, and after Busy tried once more.
///
/// `begins` says what a try asks of the desk and the session, `may` what holds of them after it, and
/// `tried` what it did, over the calls of any desk. By its laws a session may settle after a try;
/// where that is done a try may begin again, and where it isn't all holds that held before.
pub trait Tries: Sized + Drop {
    ghost begins: { Self → DeskSeen → SessionSeen → Type 0 };

    ghost may: { Self → DeskSeen → SessionSeen → Type 0 };

    ghost tried: { {D : Type 0} → (D → Ask → Told → D → Type 0) → (D → DeskSeen) → Self → D → SessionSeen → Outcome → D → SessionSeen → Type 0 };

    /// Tries the call once.
    fn attempt<D: Desk>(self, alloc: Global, session: &mut Session, desk: &mut D) -> TryEnd<Self>
        requires begins { begins self (D.seen desk.old) session.old }
        ensures may { may self (D.seen desk.new) session.new }
        ensures tried { tried D.called D.seen self desk.old session.old (try_end result) desk.new session.new }
        ensures back { IsBack self result }
        ensures others { HasNothing session.old → OthersHold session.old.lib (try_end result) }
        ensures lib { session.new.lib ≡ session.old.lib };

    ghost begun: { (t : Self) (desk : DeskSeen) (s : SessionSeen) → begins t desk s → may t desk s };

    ghost on: { (t : Self) (desk : DeskSeen) (s : SessionSeen) → may t desk s → IsOn desk s };

    ghost ready: { (t : Self) (desk : DeskSeen) (s : SessionSeen) → may t desk s → Ready desk s.parcel s.reads s.calls };

    ghost settled: { (t : Self) (desk desk' : DeskSeen) (s s' : SessionSeen) → may t desk s → IsSettledAt desk s desk' s' → begins t desk' s' };

    ghost unsettled: { (t : Self) (desk desk' : DeskSeen) (s s' : SessionSeen) → may t desk s → IsUnsettledAt desk s desk' s' → may t desk' s' };
}

/// Makes a call: tries it, and after Busy settles and tries it once more. Busy is the answer where the
/// second try is Busy too, by another library; the session has settled then.
pub fn retry<D: Desk, T: Tries>(
    alloc: Global,
    session: &mut Session,
    desk: &mut D,
    what: T,
) -> Outcome
    requires begins { T.begins what (D.seen desk.old) session.old }
    ensures may { T.may what (D.seen desk.new) session.new }
    ensures called { Called D.called (T.tried D.called D.seen what) desk.old session.old result desk.new session.new }
{
    match attempt_and_settle(alloc, session, desk, what) {
        TryEnd::Replied(reply) => Outcome::Replied(reply),
        TryEnd::NoMemory => Outcome::NoMemory,
        TryEnd::Busy(what, _) => match attempt_and_settle(alloc, session, desk, what) {
            TryEnd::Replied(reply) => Outcome::Replied(reply),
            TryEnd::NoMemory => Outcome::NoMemory,
            TryEnd::Busy(_, holder) => Outcome::Busy(holder),
        },
    }
}

// one try; after Busy the session settles, so that another may follow
fn attempt_and_settle<D: Desk, T: Tries>(
    alloc: Global,
    session: &mut Session,
    desk: &mut D,
    what: T,
) -> TryEnd<T>
    requires begins { T.begins what (D.seen desk.old) session.old }
    ensures may { T.may what (D.seen desk.new) session.new }
    ensures again { IsAgain (T.begins what (D.seen desk.new) session.new) (try_end result) }
    ensures once { TriesOnce D.called (T.tried D.called D.seen what) desk.old session.old (try_end result) desk.new session.new }
    ensures back { IsBack what result }
    ensures others { HasNothing session.old → OthersHold session.old.lib (try_end result) }
    ensures lib { session.new.lib ≡ session.old.lib }
{
    match what.attempt(alloc, session, desk) {
        TryEnd::Busy(what, holder) => match session.settle(desk) {
            Ok(_) => TryEnd::Busy(what, holder),
            Err(NoMemory) => TryEnd::NoMemory,
        },
        end => end,
    }
}
