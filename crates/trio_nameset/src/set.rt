//! The set.

ghost use Rattle.std.specs.Prelude.{◌≡◌, ◌<◌, ◌++◌, [], ◌∷◌, IfOk, Some, if◌then◌else◌, length, slice_get};
ghost use Rattle.trio_nameset.specs.Names.{contains, AreApart};

use crate::NoMemory;
use crate::sorted::{self, SortedNames};
use crate::tree::{self, Tree};
use std::alloc::Global;
use std::marker::Model;
use trio_names::Name;

/// How many bytes a set takes for each name that it has room for.
pub const NAME_BYTES: usize = sorted::NAME_BYTES + tree::NODE_BYTES;

/// A set of names, with room for a number of them that is fixed when it is made. Names are numbered
/// from 0 on, in the order in which they were added.
///
/// What it answers rests on the names in their byte order alone. Where a name stands in that order
/// is told by a tree, and what the tree tells is checked by comparing the name with its two
/// neighbours.
#[derive(Drop)]
pub struct NameSet {
    sorted: SortedNames,
    tree: Tree,
}

impl Model for NameSet {
    ghost use Rattle.std.specs.Vec.{vec_len};
    ghost use Rattle.trio_nameset.specs.Names.{Names};
    ghost use Rattle.trio_nameset.specs.inner.Sorted.{IsSorted};

    ghost Value = { Names };

    ghost view = { λ s. record { names = s.sorted.names.items; room = vec_len s.sorted.next } };

    ghost invariant = { λ s. IsSorted s.sorted };
}

impl NameSet {
    /// The empty set, with room for `n` names.
    pub fn with(alloc: Global, n: u32) -> Result<NameSet, NoMemory>
        ensures { IfOk result (λ s. s ≡ record { names = []; room = n }) }
    {
        Ok(NameSet {
            sorted: SortedNames::with(alloc, n)?,
            tree: Tree::with(alloc, n)?,
        })
    }

    /// Adds a name where it isn't there yet, and answers its number. There is room for one more.
    pub fn add(&mut self, name: &Name) -> u32
        requires { length self.old.names < self.old.room }
        ensures number { slice_get self.new.names result ≡ Some name.now }
        ensures names { self.new.names ≡ (if contains name.now self.old.names then self.old.names else self.old.names ++ name.now ∷ []) }
        ensures room { self.new.room ≡ self.old.room }
        ensures apart { AreApart self.new.names }
    {
        let hint = self.tree.seek(&self.sorted.names, name);
        match self.sorted.position(name, hint) {
            Ok(at) => self.sorted.insert(at, name),
            Err(number) => number,
        }
    }

    /// A fact, and no step: equal names have equal numbers.
    pub fn are_apart(&self)
        ensures { AreApart self.now.names }
    {
        let _sorted = &self.sorted;
    }

    /// Takes all names out.
    pub fn clear(&mut self)
        ensures names { self.new.names ≡ [] }
        ensures room { self.new.room ≡ self.old.room }
    {
        self.sorted.clear();
        self.tree.clear();
    }
}
