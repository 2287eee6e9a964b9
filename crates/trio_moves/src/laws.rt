//! The laws: the body of each function is empty, and its contract is the law.

ghost use Rattle.trio_moves.specs.ActRuns.{ActsAreRun, BegunStaysGiven, MovesKeepHeadline, StepLeavesCase, WeighedStands};

/// Each bundle whose release has begun is given to its library and closed, whatever its bytes, before
/// and after each act of a run from an image that verifies, and the state is kept.
pub fn begun_stays_given()
    ensures law { BegunStaysGiven }
{}

/// The acts of a run, but that releases have begun, are a run of calls with the same answers, which
/// ends in the same state.
pub fn acts_are_run()
    ensures law { ActsAreRun }
{}

/// What is claimed of every run holds with releases in two moves: each state is kept and one tree,
/// each end of a release is a verdict, what a refusal gives back is back, and libraries are apart.
pub fn moves_keep_headline()
    ensures law { MovesKeepHeadline }
{}

/// A step of another library leaves the case of a bundle with its copied rows as it is.
pub fn step_leaves_case()
    ensures law { StepLeavesCase }
{}

/// The case that is copied where a release begins is awaited where it ends, with whatever bytes, and
/// what rules I1, I2 and I4 say of that case they say then.
pub fn weighed_stands()
    ensures law { WeighedStands }
{}
