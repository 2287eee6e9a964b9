//! The laws of a room that was made for a case: the body of each function is empty, and its contract is
//! the law.

ghost use Rattle.trio_judge.specs.Laws.{RoomStaysTouched, RoomStaysWithBytes};

/// A room that was made for a case is one for it whatever bytes one of its pages gets, and so whatever
/// bytes all of them get.
pub fn room_stays_with_bytes()
    ensures law { RoomStaysWithBytes }
{}

/// A room that was made for a case is one for it with each block of its write leases marked as touched.
pub fn room_stays_touched()
    ensures law { RoomStaysTouched }
{}
