//! What several libraries do on threads is one order of calls of one controller. `specs/Order.antt`
//! has a library's calls along the log, and an order of the calls of all; `specs/OrderLaws.antt` has
//! the laws.
#![tactic(auto)]

pub mod laws;
