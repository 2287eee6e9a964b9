//! A line of an honest library, played by its session at its desk.

ghost use Rattle.std.specs.Prelude.{◌≡◌, IfOk, length};
ghost use Rattle.trio_edit_laws.specs.Calls.{MayCall};
ghost use Rattle.trio_walk.specs.Asks.{Settles};
ghost use Rattle.trio_script.specs.Within.{IsWithin, SaysWithin};
ghost use Rattle.trio_runner.specs.Honest.{HonestComes, SessionCalled, is_dir_call};
ghost use Rattle.trio_runner.specs.Play.{InSession};
ghost use Rattle.trio_runner.specs.Rounds.{SaysHonest};

use crate::copies::copied;
use crate::players::Player;
use std::alloc::Global;
use trio_calls_dir::dir_call;
use trio_calls_file::file_call;
use trio_desk::Desk;
use trio_nodes::Call;
use trio_page::NoMemory;
use trio_report::{EndAnswer, LineAnswer};
use trio_script::{HonestLine, ScriptLine};
use trio_session::Session;
use trio_walk::Outcome;

impl Player for Session {
    type Line = HonestLine;

    ghost share = { λ session. InSession session };

    ghost turn = { SaysHonest };

    ghost within = { SaysWithin };

    fn say<D: Desk>(
        &mut self,
        alloc: Global,
        desk: &mut D,
        line: &ScriptLine<HonestLine>,
    ) -> Result<LineAnswer, NoMemory> {
        play_honest(alloc, desk, self, &line.line)
    }

    // a settle
    fn end<D: Desk>(&mut self, _alloc: Global, desk: &mut D) -> Result<EndAnswer, NoMemory> {
        Ok(EndAnswer::Settled(play_settle(desk, self)?))
    }
}

/// Plays one line at the library's desk. After want of memory the session may still have things.
fn play_honest<D: Desk>(
    alloc: Global,
    desk: &mut D,
    session: &mut Session,
    line: &HonestLine,
) -> Result<LineAnswer, NoMemory>
    requires may { MayCall (D.seen desk.old) session.old }
    requires within { SaysWithin line.now }
    ensures line { IfOk result (λ told. HonestComes D.called D.seen desk.old session.old line.now told desk.new session.new) }
    ensures may { MayCall (D.seen desk.new) session.new }
{
    match line {
        HonestLine::Call(call) => {
            let call = copied(alloc, call)?;
            match make_call(alloc, session, desk, call) {
                Outcome::Replied(reply) => Ok(LineAnswer::Replied(reply)),
                Outcome::Busy(_) => Ok(LineAnswer::Busy),
                Outcome::NoMemory => Err(NoMemory),
            }
        }
        HonestLine::Settle => Ok(LineAnswer::Settled(play_settle(desk, session)?)),
    }
}

/// Makes a call at the library's desk: one on a directory or on a mode, or one on a file.
fn make_call<D: Desk>(alloc: Global, session: &mut Session, desk: &mut D, call: Call) -> Outcome
    requires may { MayCall (D.seen desk.old) session.old }
    requires within { IsWithin call }
    ensures may { MayCall (D.seen desk.new) session.new }
    ensures called { SessionCalled D.called D.seen desk.old session.old call result desk.new session.new }
{
    if is_dir_call(&call) {
        dir_call(alloc, session, desk, call)
    } else {
        file_call(alloc, session, desk, call)
    }
}

/// Whether a call is one on a directory or on a mode: it makes, removes or renames a file, lists names,
/// or changes a mode.
fn is_dir_call(call: &Call) -> bool
    ensures { result ≡ is_dir_call call.now }
{
    match call {
        Call::Mkdir { .. } | Call::Create { .. } | Call::Unlink { .. } => true,
        Call::Rmdir { .. } | Call::Rename { .. } | Call::List { .. } => true,
        Call::Chmod { .. } | Call::Symlink { .. } => true,
        _ => false,
    }
}

/// Settles a session at its desk: how many calls it handed in.
fn play_settle<D: Desk>(desk: &mut D, session: &mut Session) -> Result<u32, NoMemory>
    requires may { MayCall (D.seen desk.old) session.old }
    ensures settles { IfOk result (λ count. Settles D.called desk.old session.old desk.new session.new × (count ≡ length session.old.calls)) }
    ensures may { MayCall (D.seen desk.new) session.new }
{
    session.settle(desk)
}
