//! How calls of an honest library end.

ghost use Rattle.std.specs.Prelude.{◌≡◌};
ghost use Rattle.trio_walk.specs.Tries.{allot_reply};

use trio_nodes::{AllotFault, Holder, Reply};

/// How a call ends.
#[derive(Drop)]
pub enum Outcome {
    /// The call is done, or a check has refused it, and it is among the session's calls.
    Replied(Reply),
    /// Twice a grant of another library excluded one that is needed. The session has settled.
    Busy(Holder),
    /// Want of memory: the call changed no byte, and isn't among the calls.
    NoMemory,
}

/// Why a try of a call comes to no reply.
#[derive(Drop)]
pub enum Stop {
    Busy(Holder),
    NoMemory,
}

/// What a call is replied that isn't given the pages and numbers that it wants; want of memory ends
/// the try.
pub fn allot_reply(fault: AllotFault) -> Result<Reply, Stop>
    ensures { result ≡ allot_reply fault }
{
    match fault {
        AllotFault::NoPages { wanted, free } => Ok(Reply::NoSpace { wanted, free }),
        AllotFault::NoInodes { wanted, free } => Ok(Reply::NoInodes { wanted, free }),
        AllotFault::NoMemory => Err(Stop::NoMemory),
    }
}
