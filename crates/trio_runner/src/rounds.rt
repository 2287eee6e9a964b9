//! The libraries of a script, in rounds on one controller.

ghost use Rattle.std.specs.Prelude.{◌≡◌, ◌≤◌, ◌++◌, ◌∷◌, [], IfOk, OnOk, length, map, slice_get};
ghost use Rattle.trio_lists.specs.Lists.{tabulated};
ghost use Rattle.trio_state.specs.Kept.{Kept};
ghost use Rattle.trio_state.specs.Run.{start};
ghost use Rattle.trio_ctl.specs.Ctl.{IsLibrary, NoneBegun};
ghost use Rattle.trio_ctl.specs.Desk.{desk_of};
ghost use Rattle.trio_script.specs.Within.{AreWithin, LinesWithin};
ghost use Rattle.trio_runner.specs.Kinds.{Suits};
ghost use Rattle.trio_runner.specs.Play.{creds_in, untold};
ghost use Rattle.trio_runner.specs.Players.{GoesOn, HasClosed};
ghost use Rattle.trio_runner.specs.Rounds.{Ends, courses_from, line_turns, longest, round_of, turns_of};
ghost use Rattle.trio_runner.specs.Seen.{ScriptPlayed};
ghost use Rattle.trio_runner.specs.inner.Ready.{AreNew, AreSeated, IsReady, Took, TookNext, players, table};

use crate::kinds::{Kinds, line_count};
use crate::told::LibTold;
use std::alloc::Global;
use trio_ctl::{Ctl, PlainDesk};
use trio_page::NoMemory;
use trio_rights::{Creds, LibNo};
use trio_script::{Lines, ScriptLib};

/// The credentials of a script's libraries, in their order, with which a controller starts for it.
pub fn creds_of(alloc: Global, libs: &[ScriptLib]) -> Result<Vec<Creds>, NoMemory>
    ensures { IfOk result (λ creds. creds.items ≡ creds_in libs.now) }
{
    let mut creds = Vec::with_capacity(alloc, libs.len())?;
    for lib in libs {
        creds.push(lib.creds)?;
    }
    Ok(creds)
}

/// Plays a script on a controller that has just started, with the script's credentials: in each round
/// each library in turn plays its next line, or its end where none is left, until all have ended.
/// Returns what each library was told, in the order of the libraries. The controller's log is then
/// the entries of all that was asked, in its order. The kinds of libraries are those of `K`.
///
/// The calls of honest lines are within the limits of a call, as all that
/// [`read_script`](trio_script::read_script) gives are. On want of memory what the libraries had stays
/// out for good.
pub fn play<K: Kinds>(
    alloc: Global,
    ctl: &mut Ctl,
    libs: &[ScriptLib],
) -> Result<Vec<LibTold>, NoMemory>
    requires kept { Kept ctl.old.state }
    requires started { ctl.old.state ≡ start ctl.old.state.home (creds_in libs.now) }
    requires unlogged { ctl.old.log ≡ [] }
    requires idle { NoneBegun ctl.old }
    requires few { length libs.now ≤ 16 }
    requires within { AreWithin libs.now }
    ensures script { IfOk result (λ tolds. ScriptPlayed ctl.old.state.home libs.now tolds.items ctl.new.state ctl.new.log) }
    ensures first { OnOk result (ctl.new.first ≡ ctl.old.first) }
    ensures begun { OnOk result (ctl.new.begun ≡ ctl.old.begun) }
{
    let mut tolds = none_told(alloc, libs.len())?;
    let mut all = new_players::<K>(alloc, libs)?;
    let played = play_rounds::<K>(alloc, ctl, libs, &mut all, &mut tolds);
    discard_all::<K>(all);
    played?;
    Ok(tolds)
}

/// The libraries of a script, as they begin.
fn new_players<K: Kinds>(alloc: Global, libs: &[ScriptLib]) -> Result<Vec<K::Player>, NoMemory>
    requires { length libs.now ≤ 16 }
    ensures { IfOk result (λ players. AreNew 1 libs.now (map K.share players.items)) }
{
    let mut players = Vec::new(alloc);
    if players.reserve(libs.len()).is_err() {
        players.destroy_empty();
        return Err(NoMemory);
    }
    for n in 0..libs.len() {
        players.push_reserved(K::begin(alloc, LibNo(n as u32 + 1), &libs[n]));
    }
    Ok(players)
}

/// Lets all that libraries have go.
fn discard_all<K: Kinds>(mut players: Vec<K::Player>) {
    while let Some(player) = players.pop() {
        K::discard(player);
    }
    players.destroy_empty();
}

/// So many libraries that were told nothing yet.
fn none_told(alloc: Global, count: usize) -> Result<Vec<LibTold>, NoMemory>
    ensures { IfOk result (λ tolds. tolds.items ≡ tabulated (λ k. untold) count) }
{
    let mut tolds = Vec::with_capacity(alloc, count)?;
    for _n in 0..count {
        tolds.push(LibTold::untold(alloc))?;
    }
    Ok(tolds)
}

/// Plays all rounds: one more than the longest library has lines.
fn play_rounds<K: Kinds>(
    alloc: Global,
    ctl: &mut Ctl,
    libs: &[ScriptLib],
    all: &mut Vec<K::Player>,
    tolds: &mut Vec<LibTold>,
) -> Result<(), NoMemory>
    requires idle { NoneBegun ctl.old }
    requires few { length libs.now ≤ 16 }
    requires within { AreWithin libs.now }
    requires ready { IsReady (players ctl.old (map K.share all.old.items) tolds.old.items) }
    requires seated { AreSeated libs.now (map K.share all.old.items) tolds.old.items }
    ensures { OnOk result (Took (table ctl.old (map K.share all.old.items) tolds.old.items) (turns_of libs.now) (table ctl.new (map K.share all.new.items) tolds.new.items)) }
{
    for round in 0..round_count(libs) {
        play_round::<K>(alloc, ctl, libs, round, all, tolds)?;
    }
    Ok(())
}

/// How many rounds it takes until all have ended; none where there is no library.
fn round_count(libs: &[ScriptLib]) -> usize
    ensures { result ≡ longest (courses_from 1 libs.now) }
{
    let mut count = 0;
    for lib in libs {
        count = count.max(line_count(&lib.lines) + 1);
    }
    count
}

/// Plays one round, counted from 0.
fn play_round<K: Kinds>(
    alloc: Global,
    ctl: &mut Ctl,
    libs: &[ScriptLib],
    round: usize,
    all: &mut Vec<K::Player>,
    tolds: &mut Vec<LibTold>,
) -> Result<(), NoMemory>
    requires idle { NoneBegun ctl.old }
    requires few { length libs.now ≤ 16 }
    requires within { AreWithin libs.now }
    requires ready { IsReady (players ctl.old (map K.share all.old.items) tolds.old.items) }
    requires seated { AreSeated libs.now (map K.share all.old.items) tolds.old.items }
    ensures took { OnOk result (Took (table ctl.old (map K.share all.old.items) tolds.old.items) (round_of round (courses_from 1 libs.now)) (table ctl.new (map K.share all.new.items) tolds.new.items)) }
    ensures seated { OnOk result (AreSeated libs.now (map K.share all.new.items) tolds.new.items) }
{
    for at in 0..libs.len() {
        let lib = LibNo(at as u32 + 1);
        let script = &libs[at];
        play_turn::<K>(
            alloc,
            ctl,
            lib,
            &script.lines,
            round,
            &mut all[at],
            &mut tolds[at],
        )?;
    }
    Ok(())
}

/// Plays a library's turn of a round: its line of that number, or its end behind the last one. One
/// that has ended is passed over.
fn play_turn<K: Kinds>(
    alloc: Global,
    ctl: &mut Ctl,
    lib: LibNo,
    lines: &Lines,
    round: usize,
    player: &mut K::Player,
    told: &mut LibTold,
) -> Result<(), NoMemory>
    requires within { LinesWithin lines.now }
    requires suits { Suits lines.now (K.share player.old) }
    requires library { IsLibrary lib ctl.old.state }
    requires idle { NoneBegun ctl.old }
    requires goes { GoesOn (desk_of ctl.old.state lib) (K.share player.old) }
    requires closed { HasClosed (desk_of ctl.old.state lib) (K.share player.old) }
    ensures turn { OnOk result (TookNext lib (slice_get (line_turns lines.now ++ Ends ∷ []) round)
        ctl.old (K.share player.old) told.old ctl.new (K.share player.new) told.new) }
    ensures suits { OnOk result (Suits lines.now (K.share player.new)) }
{
    let mut desk = PlainDesk::of(ctl, lib);
    K::turn(alloc, &mut desk, player, lines, round, told)
}
