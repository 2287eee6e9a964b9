//! The laws: the body of each function is empty, and its contract is the law.

ghost use Rattle.trio_laws.specs.Laws.{ClosedThrough, EveryMoveIsAStep, EveryReleaseIsJudged, EveryStateIsKept, EveryStepIsIsolated, EveryStepKeepsRows, GivenThrough, NeverStuck, OthersUntouched, RefusalKeeps};

/// From an image that verifies, each state of each run is kept: its settled image verifies, what is
/// lent is what its files list, and what is out is out once and free.
pub fn every_state_is_kept()
    ensures law { EveryStateIsKept }
{}

/// Each event of a run is a step, from a state that is kept, of what was given.
pub fn every_move_is_a_step()
    ensures law { EveryMoveIsAStep }
{}

/// In a run each bundle that is judged is accepted exactly where the whole image with its bytes
/// would be sound by an allowed change, and refused exactly where not. A bundle that is not closed
/// comes back, and any bundle for want of memory, with nothing changed.
pub fn every_release_is_judged()
    ensures law { EveryReleaseIsJudged }
{}

/// After a refusal what the checkpoints of the bundle cover is as before, byte for byte, and so is
/// all else but the lent blocks that they don't cover, those of links and of regular files that aren't
/// guarded, and its allotted pages.
pub fn refusal_keeps()
    ensures law { RefusalKeeps }
{}

/// In each state that is kept, each call of what was given has an answer other than want of memory.
pub fn never_stuck()
    ensures law { NeverStuck }
{}

/// A live file that an accepted bundle neither holds nor writes is the same after it: its place,
/// kind, rights, chain and bytes and, of a directory, its entries but for its children's bodies.
pub fn others_untouched()
    ensures law { OthersUntouched }
{}

/// An event leaves each live file on which its library has no open write grant and no hold as it is,
/// unless it gets a write grant on that file or changes its mode.
pub fn every_step_is_isolated()
    ensures law { EveryStepIsIsolated }
{}

/// A live number keeps its row through every step, unless the step's library holds the file, which
/// may then go or move with its kind and rights, or its mode is changed by its owner or uid 0.
pub fn every_step_keeps_rows()
    ensures law { EveryStepKeepsRows }
{}

/// What a library has out, it has through every step of another library.
pub fn given_through()
    ensures law { GivenThrough }
{}

/// A bundle that is closed is so through every step of another library.
pub fn closed_through()
    ensures law { ClosedThrough }
{}
