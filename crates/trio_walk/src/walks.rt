//! Walks.

ghost use Rattle.std.specs.Prelude.{◌≡◌, [], IfErr, IfOk};
ghost use Rattle.trio_nodes.specs.Walk.{need_at, same_path};
ghost use Rattle.trio_walk.specs.Needs.{kind_for};
ghost use Rattle.trio_walk.specs.Walks.{
  IsHad,
  IsMetIn,
  IsStopped,
  MayLookIn,
  MayWalk,
  Walked,
  Walks,
  WalksInto,
  reached_end,
  shows_root,
};

use crate::enter::enter;
use crate::met::{Met, look_up, root_met};
use trio_desk::Desk;
use trio_names::{Name, Path};
use trio_nodes::{Holder, Reply};
use trio_rights::Need;
use trio_session::Session;

/// Where a walk comes to.
#[derive(Drop)]
pub enum WalkEnd {
    /// The file of this inode number.
    At(u32),
    /// The refusal of a check.
    Reply(Reply),
    /// Another grant excludes one that is needed. It may be the session's own.
    Busy(Holder),
    /// Want of memory. The session has what it had, and the leases that were lent.
    NoMemory,
}

/// Walks from the root to the file at a path. Each directory on the way is taken, where no lease
/// serves: for writing where its path is among `writes`, and else for reading. Where none is to be
/// written the session takes leases for reading alone.
pub fn walk<D: Desk>(session: &mut Session, desk: &mut D, path: &Path, writes: &[Path]) -> WalkEnd
    requires { MayWalk (D.seen desk.old) session.old }
    ensures may { MayWalk (D.seen desk.new) session.new }
    ensures walked { Walked D.called D.seen desk.old session.old (Walks (D.seen desk.new) session.old writes.now path.now result) result desk.new session.new }
    ensures reading { writes.now ≡ [] → session.new.parcel ≡ session.old.parcel }
{
    match reach(session, desk, path, writes) {
        Ok(met) => WalkEnd::At(met.ino),
        Err(end) => end,
    }
}

/// Walks to the file at a path, and says of it what its directory shows. An `Err` is never
/// [`WalkEnd::At`].
pub fn reach<D: Desk>(
    session: &mut Session,
    desk: &mut D,
    path: &Path,
    writes: &[Path],
) -> Result<Met, WalkEnd>
    requires { MayWalk (D.seen desk.old) session.old }
    ensures may { MayWalk (D.seen desk.new) session.new }
    ensures walked { Walked D.called D.seen desk.old session.old (Walks (D.seen desk.new) session.old writes.now path.now (reached_end result)) (reached_end result) desk.new session.new }
    ensures reading { writes.now ≡ [] → session.new.parcel ≡ session.old.parcel }
    ensures met { IfOk result (IsMetIn (shows_root session.old) (D.seen desk.new) session.new) }
    ensures stopped { IfErr result IsStopped }
{
    let names = path.names();
    let mut at = root_met(session);
    for (i, name) in names.iter().enumerate() {
        match enter(session, desk, at, need_at(writes, &names[..i])) {
            Err(end) => return Err(end),
            Ok(()) => match look_up(session, at.ino, name) {
                None => return Err(WalkEnd::Reply(Reply::NotFound)),
                Some(child) => at = child,
            },
        }
    }
    Ok(at)
}

/// Walks to the directory at a path, and enters it too: it is taken for what is needed of it, and has
/// its index. An `Err` is never [`WalkEnd::At`].
pub fn reach_into<D: Desk>(
    session: &mut Session,
    desk: &mut D,
    path: &Path,
    writes: &[Path],
) -> Result<Met, WalkEnd>
    requires { MayWalk (D.seen desk.old) session.old }
    ensures may { MayWalk (D.seen desk.new) session.new }
    ensures walked { Walked D.called D.seen desk.old session.old (WalksInto (D.seen desk.new) session.old writes.now path.now (reached_end result)) (reached_end result) desk.new session.new }
    ensures reading { writes.now ≡ [] → session.new.parcel ≡ session.old.parcel }
    ensures met { IfOk result (IsMetIn (shows_root session.old) (D.seen desk.new) session.new) }
    ensures had { IfOk result (λ m. IsHad session.new m.ino (kind_for (need_at writes.now path.now))) }
    ensures list { IfOk result (λ m. MayLookIn (D.seen desk.new) session.new m.ino) }
    ensures stopped { IfErr result IsStopped }
{
    match reach(session, desk, path, writes) {
        Ok(met) => match enter(session, desk, met, need_at(writes, path.names())) {
            Ok(()) => Ok(met),
            Err(end) => Err(end),
        },
        Err(end) => Err(end),
    }
}

// write is needed of a directory whose path is among these, read of any other
fn need_at(writes: &[Path], passed: &[Name]) -> Need
    ensures { result ≡ need_at writes.now passed.now }
{
    for path in writes {
        if same_path(passed, path.names()) {
            return Need::Write;
        }
    }
    Need::Read
}

// two paths are the same, name by name
fn same_path(path: &[Name], other: &[Name]) -> bool
    ensures { result ≡ same_path path.now other.now }
{
    path == other
}
