//! The laws of what is open and out: the body of each function is empty, and its contract is the law.

ghost use Rattle.trio_laws.specs.GrantLaws.{FirstIsLowest, GrantsAreOrdered, OrderBegins, OrderStays};
ghost use Rattle.trio_laws.specs.OutLaws.{AwayIsExact, EveryStateIsAway, OthersKeepOut, StartsAway, StepKeepsAway};

/// The first state of a run is ordered: it has no open grants.
pub fn order_begins()
    ensures law { OrderBegins }
{}

/// A step from a state whose open grants stand in the order of their entries ends in one.
pub fn order_stays()
    ensures law { OrderStays }
{}

/// In each state of a run open grants stand in the rising order of their entries.
pub fn grants_are_ordered()
    ensures law { GrantsAreOrdered }
{}

/// Of the open grants that pass a test, as of those that exclude what is asked, the first is that of
/// the lowest entry.
pub fn first_is_lowest()
    ensures law { FirstIsLowest }
{}

/// A step of one library leaves what another has out: its open grants with what they lent, and its
/// allotted pages and inode numbers.
pub fn others_keep_out()
    ensures law { OthersKeepOut }
{}

/// A lent page is absent from home exactly while it is lent for writing or out by allotment: so it is
/// when a run starts, each step keeps it, and so it is in each state of a run.
pub fn lent_pages_are_away()
    ensures starts { StartsAway }
    ensures stays { StepKeepsAway }
    ensures exact { AwayIsExact }
    ensures law { EveryStateIsAway }
{}
