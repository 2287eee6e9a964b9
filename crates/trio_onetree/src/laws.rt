//! The laws of calls: the body of each function is empty, and its contract is the law.

ghost use Rattle.trio_onetree.specs.CallLaws.{CallChangesOne, TreeStays, TreeStaysThrough};

/// A call that only looks, or isn't done, changes nothing; any other changes one node, and to what is
/// said: its bytes alone, its mode alone, its guard alone or its place alone, or it is made, or gone.
pub fn call_changes_one()
    ensures law { CallChangesOne }
{}

/// A tree stays a tree through a call, and through any calls one after another: each node but the root
/// has a live directory as its parent, in which none but it has its name, and none lies below itself.
pub fn tree_stays()
    ensures call { TreeStays }
    ensures calls { TreeStaysThrough }
{}
