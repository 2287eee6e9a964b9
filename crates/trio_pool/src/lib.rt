//! A pool of workers: cases go through one bounded queue, and each is taken once or left at the end.
//! What becomes of a case comes back through a queue of its library.
//!
//! A case can be of any type. Each thread has a pass of the pool, with which it submits cases and
//! stops, and takes them. What a pass put and took is in the proofs alone. `specs/Rule.antt` says
//! what holds of the queue and of all passes between any two steps, and each kind of step is proved
//! to keep it. The queues are the kit's (`RuledArrayQueue` of `crossbeam_queue`).
#![tactic(auto)]

mod cell;
mod closing;
mod job;
mod laws;
mod mail;
mod mails;
mod opening;
mod pass;
mod plays;
mod pool;
mod rule;
mod steps;
mod taken;
mod view;
mod worker;

pub use cell::Pool;
pub use job::{Job, Work};
pub use laws::{by_name, each_once, in_order};
pub use mail::{MailPass, Mails, OfLibrary};
pub use pass::PoolPass;
pub use taken::{Full, Taken};
pub use worker::{Weigh, serve};
