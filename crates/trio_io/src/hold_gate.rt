//! The tests' gate, which holds one library until another has come to a line.

use crate::Gate;
use std::sync::atomic::{AtomicBool, Ordering};
use std::thread::yield_now;
use trio_rights::LibNo;

/// A place where libraries arrive: the line of a library's script, or 0 for its end step.
#[derive(Clone, Copy, Debug, PartialEq, Eq)]
pub struct GateStop {
    pub lib: LibNo,
    pub line: u32,
}

/// Holds a library at one stop until another library has arrived at another stop, for at most a
/// stated number of looks at a flag. Then it goes on in either case.
#[derive(Drop)]
pub struct HoldGate {
    held: GateStop,
    awaited: GateStop,
    looks: u64,
    arrived: AtomicBool,
    met: AtomicBool,
}

impl HoldGate {
    /// Holds whoever arrives at `held` until somebody has arrived at `awaited`.
    pub fn new(held: GateStop, awaited: GateStop, looks: u64) -> HoldGate {
        HoldGate {
            held,
            awaited,
            looks,
            arrived: AtomicBool::new(false),
            met: AtomicBool::new(false),
        }
    }

    /// Whether one who was held saw the other arrive, before the looks were used up.
    pub fn has_met(&self) -> bool {
        self.met.load(Ordering::SeqCst)
    }

    // Looks at the flag until it is set, for so many times at most, and lets others run after each look
    // in vain.
    fn wait(&self) {
        for _ in 0..self.looks {
            if self.arrived.load(Ordering::SeqCst) {
                self.met.store(true, Ordering::SeqCst);
                return;
            }
            yield_now();
        }
    }
}

impl Gate for HoldGate {
    fn arrive(&self, lib: LibNo, line: u32) {
        let stop = GateStop { lib, line };
        if stop == self.awaited {
            self.arrived.store(true, Ordering::SeqCst);
        }
        if stop == self.held {
            self.wait();
        }
    }
}
