//! Marks over numbers: a set that takes its memory when it is made, and none after.
//!
//! A new round of marks costs one step, however many numbers there are. Contracts see [`Marks`] as
//! a list of truth values, one for each number from 0 on.
#![tactic(auto)]

ghost use Rattle.std.specs.Prelude.{◌≡◌, ◌<◌, IfOk, true, false, not, length, replicate, slice_index_or, slice_set};

use std::alloc::Global;
use std::marker::Model;

/// Want of memory: the answer of a call that asks for memory and finds none.
pub use std::alloc::AllocError as NoMemory;

/// Marks over the numbers below a count that is fixed when they are made.
///
/// Each number keeps the round in which it was marked last, so that [`clear`](Self::clear) only
/// begins the next round. After the last round that a `u32` counts, every mark is written anew.
#[derive(Drop)]
pub struct Marks {
    // by number, the round in which it was marked last; 0 where it never was
    rounds: Vec<u32>,
    // this round, counted from 1
    round: u32,
}

impl Model for Marks {
    ghost use Rattle.std.specs.Prelude.{List, Bool, ◌<◌, IsTrue};
    ghost use Rattle.trio_marks.specs.inner.Rounds.{marked_in, none_after};

    ghost Value = { List Bool };

    ghost view = { λ m. marked_in m.round m.rounds.items };

    ghost invariant = { λ m. (0 < m.round) × IsTrue (none_after m.round m.rounds.items) };
}

impl Marks {
    /// Marks over the numbers below `n`, none of which is marked.
    pub fn with(alloc: Global, n: u32) -> Result<Marks, NoMemory>
        ensures { IfOk result (λ m. m ≡ replicate n false) }
    {
        Ok(Marks {
            rounds: vec![in alloc; 0; n as usize]?,
            round: 1,
        })
    }

    /// How many numbers there are.
    pub fn len(&self) -> usize
        ensures { result ≡ length self.now }
    {
        self.rounds.len()
    }

    /// Whether a number is marked. None past the last is.
    pub fn has(&self, i: u32) -> bool
        ensures { result ≡ slice_index_or self.now i false }
    {
        match self.rounds.get(i as usize) {
            Some(round) => *round == self.round,
            None => false,
        }
    }

    /// Marks a number, and answers whether the mark is new.
    pub fn set(&mut self, i: u32) -> bool
        requires { i < length self.old }
        ensures new { result ≡ not (slice_index_or self.old i false) }
        ensures marked { self.new ≡ slice_set self.old i true }
    {
        let at = i as usize;
        let new = self.rounds[at] != self.round;
        self.rounds[at] = self.round;
        new
    }

    /// Takes all marks away.
    pub fn clear(&mut self)
        ensures { self.new ≡ replicate (length self.old) false }
    {
        if self.round == u32::MAX {
            self.rounds.fill(0);
            self.round = 1;
        } else {
            self.round += 1;
        }
    }
}
