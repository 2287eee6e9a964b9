//! The kinds of libraries that scripts may have: how rounds and threads play a library, whatever its
//! kind, and the two kinds that this crate knows.

ghost use Rattle.std.specs.Prelude.{◌≡◌, ◌<◌, ◌++◌, ◌∷◌, [], OnOk, length, slice_get};
ghost use Rattle.trio_script.specs.Within.{LinesWithin};
ghost use Rattle.trio_runner.specs.Kinds.{Suits};
ghost use Rattle.trio_runner.specs.Play.{BeginsWith, Share};
ghost use Rattle.trio_runner.specs.Players.{GoesOn, HasClosed, TurnTaken};
ghost use Rattle.trio_runner.specs.Rounds.{Ends, line_turns};

use crate::players::take_turn;
use crate::told::LibTold;
use std::alloc::Global;
use trio_desk::Desk;
use trio_page::NoMemory;
use trio_raw::Raw;
use trio_rights::LibNo;
use trio_script::{Lines, ScriptLib, ScriptLine};
use trio_session::Session;

/// The kinds of libraries that a program plays, as [`play`](crate::play) and [`run`](crate::run) are
/// given them. [`RawAndHonest`] are those of this crate. A program that has more kinds makes a type of
/// its own: for each kind a [`Player`](crate::Player), whose turns [`take_turn`] takes.
///
/// `share` is what a library has, as the definitions of turns see it.
pub trait Kinds {
    /// A library of a script as it is played, of any of the kinds.
    type Player;

    ghost share: { Self.Player → Share };

    /// The library of this number of a script, as it begins.
    fn begin(alloc: Global, number: LibNo, lib: &ScriptLib) -> Self::Player
        ensures { BeginsWith number lib.now.creds lib.now.lines (share result) };

    /// Takes the turn of this number, of the library's lines and its end behind them, at its desk, and
    /// keeps the answer. A library that has ended is passed over.
    fn turn<D: Desk>(
        alloc: Global,
        desk: &mut D,
        player: &mut Self::Player,
        lines: &Lines,
        at: usize,
        told: &mut LibTold,
    ) -> Result<(), NoMemory>
        requires within { LinesWithin lines.now }
        requires suits { Suits lines.now (share player.old) }
        requires goes { GoesOn (D.seen desk.old) (share player.old) }
        requires closed { HasClosed (D.seen desk.old) (share player.old) }
        ensures turn { OnOk result (TurnTaken D.called D.seen (slice_get (line_turns lines.now ++ Ends ∷ []) at)
            desk.old (share player.old) told.old desk.new (share player.new) told.new) }
        ensures goes { OnOk result (GoesOn (D.seen desk.new) (share player.new)) }
        ensures suits { OnOk result (Suits lines.now (share player.new)) };

    /// Lets all that the library has go.
    fn discard(player: Self::Player);
}

/// The kinds of this crate: raw libraries and honest ones.
pub struct RawAndHonest;

/// A library of one of these two kinds.
pub enum AnyPlayer {
    Raw(Raw),
    Honest(Session),
}

impl Kinds for RawAndHonest {
    ghost use Rattle.trio_runner.specs.Kinds.{share_in};

    type Player = AnyPlayer;

    ghost share = { share_in };

    fn begin(alloc: Global, number: LibNo, lib: &ScriptLib) -> AnyPlayer {
        match &lib.lines {
            Lines::Raw(_) => AnyPlayer::Raw(Raw::new(alloc, number)),
            Lines::Honest(_) => AnyPlayer::Honest(Session::new(alloc, number, lib.creds)),
        }
    }

    fn turn<D: Desk>(
        alloc: Global,
        desk: &mut D,
        player: &mut AnyPlayer,
        lines: &Lines,
        at: usize,
        told: &mut LibTold,
    ) -> Result<(), NoMemory> {
        match player {
            AnyPlayer::Raw(raw) => match lines {
                Lines::Raw(lines) => take_turn(alloc, desk, raw, lines.as_slice(), at, told),
                Lines::Honest(_) => unreachable!(),
            },
            AnyPlayer::Honest(session) => match lines {
                Lines::Honest(lines) => take_turn(alloc, desk, session, lines.as_slice(), at, told),
                Lines::Raw(_) => unreachable!(),
            },
        }
    }

    fn discard(player: AnyPlayer) {
        match player {
            AnyPlayer::Raw(raw) => raw.discard(),
            AnyPlayer::Honest(session) => session.discard(),
        }
    }
}

/// How many lines there are.
pub(crate) fn line_count(lines: &Lines) -> usize
    ensures count { result ≡ length (line_turns lines.now) }
    ensures few { result < 18446744073709551615 }
{
    match lines {
        Lines::Raw(lines) => lines.as_slice().len(),
        Lines::Honest(lines) => lines.as_slice().len(),
    }
}

/// The number of the line at this place, counted from 1 in its script; 0 behind the last one.
pub(crate) fn line_number(lines: &Lines, at: usize) -> u32 {
    match lines {
        Lines::Raw(lines) => number_of(lines.as_slice().get(at)),
        Lines::Honest(lines) => number_of(lines.as_slice().get(at)),
    }
}

fn number_of<L>(line: Option<&ScriptLine<L>>) -> u32 {
    match line {
        Some(line) => line.number,
        None => 0,
    }
}
