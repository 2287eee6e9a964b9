//! Calls of which some are to fail.

ghost use Rattle.std.specs.Prelude.{◌≡◌, ◌↔◌, [], IsTrue};
ghost use Rattle.trio_io.specs.Plan.{counted, FailsNext};

use std::alloc::Global;
use std::marker::Model;

/// Which calls of some files or of a sink in memory are to fail, by their numbers from 1 on. All
/// calls of one value count together, those that fail too.
#[derive(Drop)]
pub struct FailingCalls {
    calls: u64,
    failing: Vec<u64>,
}

impl Model for FailingCalls {
    ghost use Rattle.trio_io.specs.Plan.{Plan};

    ghost Value = { Plan };

    ghost view = { λ s. record { calls = s.calls; failing = s.failing.items } };
}

impl FailingCalls {
    /// The calls with these numbers are to fail.
    pub fn new(failing: Vec<u64>) -> FailingCalls
        ensures { result ≡ record { calls = 0; failing = failing.items } }
    {
        FailingCalls { calls: 0, failing }
    }

    /// No call is to fail.
    pub fn none(alloc: Global) -> FailingCalls
        ensures { result ≡ record { calls = 0; failing = [] } }
    {
        FailingCalls::new(Vec::new(alloc))
    }

    /// Counts a call, and says whether it is to fail.
    pub(crate) fn next(&mut self) -> bool
        ensures calls { self.new ≡ counted self.old }
        ensures fails { IsTrue result ↔ FailsNext self.old }
    {
        self.calls = self.calls.saturating_add(1);
        self.failing.contains(&self.calls)
    }
}
