//! Numbers of which it is asked whether they are there.

ghost use Rattle.std.specs.Prelude.{◌≡◌, ◌==◌, ◌||◌, ◌+◌, ◌<◌, ◌≤◌, ℕ, [], IfOk, length};
ghost use Rattle.trio_lists.specs.Lists.{is_among};

use std::alloc::Global;
use std::marker::Model;
use trio_page::NoMemory;

/// A set of numbers. Whether one is there is found by halving.
///
/// Contracts see its numbers, and how many it has room for (`specs/inner/NumberSets.antt`).
#[derive(Drop)]
pub(crate) struct NumberSet {
    // in rising order
    numbers: Vec<u32>,
}

impl Model for NumberSet {
    ghost use Rattle.std.specs.Prelude.{vec_capacity};
    ghost use Rattle.std.specs.List.Sorted.{IsNonDecreasing};
    ghost use Rattle.trio_case.specs.inner.NumberSets.{NumbersShown};

    ghost Value = { NumbersShown };

    ghost view = { λ s. record { numbers = s.numbers.items; room = vec_capacity s.numbers } };

    ghost invariant = { λ s. IsNonDecreasing s.numbers.items };
}

impl NumberSet {
    /// The empty set, with room for so many numbers.
    pub fn with(alloc: Global, count: usize) -> Result<NumberSet, NoMemory>
        ensures { IfOk result (λ s. s ≡ record { numbers = []; room = count }) }
    {
        Ok(NumberSet {
            numbers: Vec::with_capacity(alloc, count)?,
        })
    }

    /// Adds a number.
    pub fn add(&mut self, no: u32)
        requires { length self.old.numbers < self.old.room }
        ensures numbers { (n : ℕ) → is_among n self.new.numbers ≡ (no == n || is_among n self.old.numbers) }
        ensures len { length self.new.numbers ≤ length self.old.numbers + 1 }
        ensures room { self.old.room ≤ self.new.room }
    {
        if let Err(at) = self.numbers.binary_search(&no) {
            let _inserted = self.numbers.insert(at, no);
        }
    }

    /// Whether a number is there.
    pub fn has(&self, no: u32) -> bool
        ensures { result ≡ is_among no self.now.numbers }
    {
        self.numbers.binary_search(&no).is_ok()
    }
}
