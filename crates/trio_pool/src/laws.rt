//! What the line of a closed pool says, in other words. The body of each function is empty, and its
//! contract is the law.

ghost use Rattle.trio_pool.specs.Laws.{InOrder, EachOnce, ByName};

/// Each pass took the jobs of any one pass in the order in which they were put.
pub fn in_order<C>()
    ensures law { InOrder C }
{}

/// Each job was taken, or left at the end, as often as it was put.
pub fn each_once<C>()
    ensures law { EachOnce C }
{}

/// A case that was taken is the value that was submitted under its name.
pub fn by_name<C>()
    ensures law { ByName C }
{}
