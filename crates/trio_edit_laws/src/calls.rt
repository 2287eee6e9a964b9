//! The laws of a session that may make calls: the body of each function is empty, and its contract is
//! the law.

ghost use Rattle.trio_edit_laws.specs.Calls.{BeginsToCall, MayBeSettled};

/// A session that has nothing may make calls.
pub fn begins_to_call()
    ensures law { BeginsToCall }
{}

/// What a session would hand in that may make calls may be settled.
pub fn may_be_settled()
    ensures law { MayBeSettled }
{}
