//! The laws of the end of a release: the body of each function is empty, and its contract is the law.

ghost use Rattle.trio_laws.specs.EndLaws.{AcceptedSettles, BodyStands, LendableIsHome, RefusedSettles};

/// An accepted image that is spread over home and the checkpoints of the grants that stay open is
/// what is settled then.
pub fn accepted_settles()
    ensures law { AcceptedSettles }
{}

/// Once the checkpoints of a refused bundle are back at home, and its uncovered blocks and allotted
/// pages at their numbers, the image of a refusal is settled.
pub fn refused_settles()
    ensures law { RefusedSettles }
{}

/// The settled body of a live file but the root stands on a page of its parent: at home, or in the
/// checkpoint of the write grant that is open on the parent.
pub fn body_stands()
    ensures law { BodyStands }
{}

/// The index pages and blocks of a live file on which no write grant is open are at home.
pub fn lendable_is_home()
    ensures law { LendableIsHome }
{}
