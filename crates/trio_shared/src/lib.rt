//! The controller for many threads: each library has a seat, and each of its calls is one turn, but for
//! a release, which is a turn, the judging, and a turn.
#![tactic(auto)]

mod calls;
mod cell;
mod desk;
mod held;
mod laws;
mod moves;
mod pool_desk;
mod shared;

pub use cell::Shared;
pub use desk::SeatDesk;
pub use laws::{desk_is_left, leaves_one, others_leave};
pub use pool_desk::PoolDesk;
pub use shared::LibSeat;
