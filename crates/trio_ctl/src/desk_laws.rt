//! The laws of desks on one controller: the body of each function is empty, and its contract is the
//! law.

ghost use Rattle.trio_ctl.specs.DeskLaws.{CallsKeep, CallsLeaveWhole, HoldsStand, LentIsMarked, LibrariesStay, OthersKeep, OthersSee};

/// A call of one library leaves what another has out.
pub fn others_keep()
    ensures law { OthersKeep }
{}

/// A call of one library leaves what is seen of another's desk.
pub fn others_see()
    ensures law { OthersSee }
{}

/// No library of the controller comes or goes in a call.
pub fn libraries_stay()
    ensures law { LibrariesStay }
{}

/// A call leaves the state kept, and each open hold told the directory that lists its file.
pub fn calls_keep()
    ensures law { CallsKeep }
{}

/// A call leaves each block that is lent a whole page.
pub fn calls_leave_whole()
    ensures law { CallsLeaveWhole }
{}

/// A bundle whose leases show as lent what their grants lent is marked as the end of a release asks, and
/// so is each that is handed in alike.
pub fn lent_is_marked()
    ensures law { LentIsMarked }
{}

/// The directory that an open hold of a library told is lent to that library for writing.
pub fn holds_stand()
    ensures law { HoldsStand }
{}
