//! The laws: the body of each function is empty, and its contract is the law.

ghost use Rattle.trio_order.specs.OrderLaws.{CallsEnd, CallsGrow, ThreadsAreOrder};

/// A log, and each library's calls along it, come from one order of all calls: in it they happen one
/// after another on one controller, make just this log, and are a run of the controller.
pub fn threads_are_order()
    ensures law { ThreadsAreOrder }
{}

/// A library's calls lie along what it has seen, also after one call more.
pub fn calls_grow()
    ensures law { CallsGrow }
{}

/// A library's calls lie along what it has seen, also where others made entries behind it.
pub fn calls_end()
    ensures law { CallsEnd }
{}
