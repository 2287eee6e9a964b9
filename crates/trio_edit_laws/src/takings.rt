//! The laws of what a session takes: the body of each function is empty, and its contract is the law.

ghost use Rattle.trio_edit_laws.specs.TakingLaws.{BeginsToEdit, KeepsAllotment, KeepsHold, KeepsReads, KeepsWrite};

/// A session begins where nothing is out.
pub fn begins_to_edit()
    ensures law { BeginsToEdit }
{}

/// A write lease that the desk gave is taken.
pub fn keeps_write()
    ensures law { KeepsWrite }
{}

/// A read lease that the desk gave is taken.
pub fn keeps_reads()
    ensures law { KeepsReads }
{}

/// A hold that the desk gave is taken.
pub fn keeps_hold()
    ensures law { KeepsHold }
{}

/// An allotment that the desk gave is taken.
pub fn keeps_allotment()
    ensures law { KeepsAllotment }
{}
