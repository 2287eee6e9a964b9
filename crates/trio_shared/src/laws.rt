//! The laws of what logs leave: the body of each function is empty, and its contract is the law.

ghost use Rattle.trio_shared.specs.Laws.{DeskIsLeft, LeavesOne, OthersLeave};

/// States that one log leaves agree in all that is known of a state: in what is settled, lent and out.
pub fn leaves_one()
    ensures law { LeavesOne }
{}

/// What is seen of a library's desk goes by the log alone.
pub fn desk_is_left()
    ensures law { DeskIsLeft }
{}

/// Entries of others leave what is seen of a library's desk.
pub fn others_leave()
    ensures law { OthersLeave }
{}
