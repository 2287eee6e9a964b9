//! Laws of a release in two moves, a beginning and an end (`trio_state/specs/Moves.antt`): what the
//! bundle of a release that has begun was given stays given and closed while others go on, what was
//! weighed between the moves stands at the end, and a run with such releases is a run of whole calls.
//! `specs/ActRuns.antt` has the laws; those of single acts stand in `trio_laws`.
#![tactic(auto)]

pub mod laws;
