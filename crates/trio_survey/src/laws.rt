//! The laws of picks: the body of each function is empty, and its contract is the law.

ghost use Rattle.trio_survey.specs.PickLaws.{NothingPicked, PicksByBody};

/// Where nothing is picked, the survey is the plain one.
pub fn nothing_picked()
    ensures law { NothingPicked }
{}

/// Picks go by the bodies that they give.
pub fn picks_by_body()
    ensures law { PicksByBody }
{}
