//! Laws of single acts, where a release has a beginning and an end: the body of each function is
//! empty, and its contract is the law.

ghost use Rattle.trio_laws.specs.ActLaws.{ActsKeep, ActsNeverStuck, AwaitedStands, ReleaseIsTwoMoves};

/// An act that its library may do leaves the state kept, and each bundle whose release has begun
/// given to its library and closed, whatever its bytes.
pub fn acts_keep()
    ensures law { ActsKeep }
{}

/// Each act that a library may do can be answered, and not for want of memory.
pub fn acts_never_stuck()
    ensures law { ActsNeverStuck }
{}

/// A release in one call is its two moves in a row.
pub fn release_is_two_moves()
    ensures law { ReleaseIsTwoMoves }
{}

/// What rules I1, I2 and I4 say of an awaited case they say of its bundle now.
pub fn awaited_stands()
    ensures law { AwaitedStands }
{}
