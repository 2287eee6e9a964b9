//! A library of a script as it is played, whatever its kind and its desk.

ghost use Rattle.std.specs.Prelude.{◌≡◌, ◌++◌, ◌∷◌, [], ℕ, IfOk, OnOk, Some, map, slice_get};
ghost use Rattle.trio_runner.specs.Play.{Share};
ghost use Rattle.trio_runner.specs.Players.{Ended, GoesOn, HasClosed, Said, TurnMade, TurnTaken};
ghost use Rattle.trio_runner.specs.Rounds.{Ends, Turn};

use crate::told::LibTold;
use std::alloc::Global;
use trio_desk::Desk;
use trio_page::NoMemory;
use trio_report::{EndAnswer, LineAnswer};
use trio_script::ScriptLine;

/// A library that plays lines of its kind, and comes to its end.
///
/// `share` is what it has, as the definitions of turns see it: by it the library stands at its desk
/// (`GoesOn`, `HasClosed`), and by it a turn comes to what it comes to (`TurnMade`). `turn` is the turn
/// of a line, and `within` what the line needs.
pub trait Player: Sized {
    /// What one of its lines says.
    type Line;

    ghost use Rattle.trio_script.specs.declared.ScriptLine.{ScriptLine};

    ghost share: { Self → Share };

    ghost turn: { ScriptLine Self.Line → Turn };

    ghost within: { Self.Line → Type 0 };

    /// Plays one line at the library's desk. After want of memory things that were given may be out
    /// for good.
    fn say<D: Desk>(
        &mut self,
        alloc: Global,
        desk: &mut D,
        line: &ScriptLine<Self::Line>,
    ) -> Result<LineAnswer, NoMemory>
        requires goes { GoesOn (D.seen desk.old) (share self.old) }
        requires within { within line.now.line }
        ensures said { IfOk result (λ answer. TurnMade D.called D.seen (turn line.now) desk.old (share self.old) (Said answer) desk.new (share self.new)) }
        ensures goes { GoesOn (D.seen desk.new) (share self.new) };

    /// Comes to its end at its desk. After want of memory what it had may be out for good.
    fn end<D: Desk>(&mut self, alloc: Global, desk: &mut D) -> Result<EndAnswer, NoMemory>
        requires goes { GoesOn (D.seen desk.old) (share self.old) }
        requires closed { HasClosed (D.seen desk.old) (share self.old) }
        ensures ended { IfOk result (λ end. TurnMade D.called D.seen Ends desk.old (share self.old) (Ended end) desk.new (share self.new)) }
        ensures goes { GoesOn (D.seen desk.new) (share self.new) };
}

/// Takes the turn of this number at the library's desk, and keeps the answer: the line, or behind the
/// last one the end. A library that has ended is passed over.
pub fn take_turn<P: Player, D: Desk>(
    alloc: Global,
    desk: &mut D,
    player: &mut P,
    lines: &[ScriptLine<P::Line>],
    at: usize,
    told: &mut LibTold,
) -> Result<(), NoMemory>
    requires within { (k : ℕ) (line : ScriptLine P.Line) → slice_get lines.now k ≡ Some line → P.within line.line }
    requires goes { GoesOn (D.seen desk.old) (P.share player.old) }
    requires closed { HasClosed (D.seen desk.old) (P.share player.old) }
    ensures turn { OnOk result (TurnTaken D.called D.seen (slice_get (map P.turn lines.now ++ Ends ∷ []) at)
        desk.old (P.share player.old) told.old desk.new (P.share player.new) told.new) }
    ensures goes { OnOk result (GoesOn (D.seen desk.new) (P.share player.new)) }
{
    match lines.get(at) {
        Some(line) => {
            let answer = player.say(alloc, desk, line)?;
            told.hears(answer)
        }
        None => {
            if at == lines.len() {
                let end = player.end(alloc, desk)?;
                told.hears_end(end);
            }
            Ok(())
        }
    }
}
