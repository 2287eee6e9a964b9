//! Names in byte order: a list that is linked by index.

ghost use Rattle.std.specs.Prelude.{◌≡◌, ◌<◌, ◌++◌, [], ◌∷◌, ◌↔◌, IfOk, IfSome, IsTrue, MatchResult, Some, is_ok, not, slice_get};
ghost use Rattle.std.specs.Vec.{vec_len};
ghost use Rattle.trio_nameset.specs.Names.{contains};
ghost use Rattle.trio_nameset.specs.inner.Sorted.{IsSorted, IsWithin, IsAbove, IsBelow, IsPlace, link_at};

use crate::NoMemory;
use std::alloc::Global;
use std::cmp::Ordering;
use trio_names::Name;

/// How many bytes there are for each name that there is room for.
pub(crate) const NAME_BYTES: usize = size_of::<Name>() + size_of::<Option<u32>>();

/// A position in byte order.
#[derive(Clone, Copy)]
pub enum Position {
    /// Before the first name.
    Front,
    /// Next after the name with this index.
    After(u32),
}

/// Names in the order in which they were added, each with a link to the next in byte order.
#[derive(Drop)]
pub struct SortedNames {
    pub names: Vec<Name>,
    // the index of the first name in byte order
    pub first: Option<u32>,
    // by index, that of the next name; what stands past the names says nothing
    pub next: Vec<Option<u32>>,
}

impl SortedNames {
    /// No names, with room for `count` of them.
    pub fn with(alloc: Global, count: u32) -> Result<SortedNames, NoMemory>
        ensures sorted { IfOk result IsSorted }
        ensures empty { IfOk result (λ s. s.names.items ≡ []) }
        ensures room { IfOk result (λ s. vec_len s.next ≡ count) }
    {
        Ok(SortedNames {
            names: Vec::with_capacity(alloc, count as usize)?,
            first: None,
            next: vec![in alloc; None; count as usize]?,
        })
    }

    /// The position of a name that is not among these, or the index of one that is.
    ///
    /// Where the hint is that position, or that of the name itself, this takes three comparisons.
    pub fn position(&self, name: &Name, hint: Position) -> Result<Position, u32>
        requires { IsSorted self.now }
        ensures place { MatchResult result (IsPlace self.now name.now) (λ n. slice_get self.now.names.items n ≡ Some name.now) }
        ensures new { is_ok result ≡ not (contains name.now self.now.names.items) }
    {
        match self.index_at(name, hint) {
            Some(index) => Err(index),
            None if self.fits(name, hint) => Ok(hint),
            None => self.search(name),
        }
    }

    /// Adds a new name at its position, and answers its index.
    pub fn insert(&mut self, at: Position, name: &Name) -> u32
        requires sorted { IsSorted self.old }
        requires place { IsPlace self.old name.now at }
        requires room { vec_len self.old.names < vec_len self.old.next }
        ensures index { result ≡ vec_len self.old.names }
        ensures sorted { IsSorted self.new }
        ensures names { self.new.names.items ≡ self.old.names.items ++ name.now ∷ [] }
        ensures room { vec_len self.new.next ≡ vec_len self.old.next }
    {
        let new = self.names.len() as u32;
        self.names.push_reserved(*name);
        self.next[new as usize] = self.link(at);
        match at {
            Position::Front => self.first = Some(new),
            Position::After(before) => self.next[before as usize] = Some(new),
        }
        new
    }

    /// Takes all names out.
    pub fn clear(&mut self)
        requires { IsSorted self.old }
        ensures sorted { IsSorted self.new }
        ensures empty { self.new.names.items ≡ [] }
        ensures room { vec_len self.new.next ≡ vec_len self.old.next }
    {
        self.names.clear();
        self.first = None;
    }

    // the index of the name that follows a position
    fn link(&self, at: Position) -> Option<u32>
        ensures { result ≡ link_at self.now.first self.now.next.items at }
    {
        match at {
            Position::Front => self.first,
            Position::After(before) => *self.next.get(before as usize)?,
        }
    }

    // the index of the name that the position follows, where it is this one
    fn index_at(&self, name: &Name, at: Position) -> Option<u32>
        ensures { IfSome result (λ n. slice_get self.now.names.items n ≡ Some name.now) }
    {
        let Position::After(before) = at else {
            return None;
        };
        if *self.names.get(before as usize)? == *name {
            Some(before)
        } else {
            None
        }
    }

    // whether a new name stands at this position
    fn fits(&self, name: &Name, at: Position) -> bool
        requires { IsSorted self.now }
        ensures { IsTrue result → IsPlace self.now name.now at }
    {
        match at {
            Position::After(before) if before as usize >= self.names.len() => false,
            _ => self.is_above(name, at) && self.is_below(name, self.link(at)),
        }
    }

    // looks at each name for this one, or the last one below it
    fn search(&self, name: &Name) -> Result<Position, u32>
        requires { IsSorted self.now }
        ensures place { MatchResult result (IsPlace self.now name.now) (λ n. slice_get self.now.names.items n ≡ Some name.now) }
        ensures new { is_ok result ≡ not (contains name.now self.now.names.items) }
    {
        let mut at = Position::Front;
        for (i, other) in self.names.iter().enumerate() {
            match other.cmp(name) {
                Ordering::Equal => return Err(i as u32),
                Ordering::Greater => {}
                Ordering::Less => {
                    if self.is_above(other, at) {
                        at = Position::After(i as u32);
                    }
                }
            }
        }
        Ok(at)
    }

    // whether the name is above the one that the position follows
    fn is_above(&self, name: &Name, at: Position) -> bool
        requires { IsWithin self.now.names.items at }
        ensures { IsTrue result ↔ IsAbove self.now.names.items at name.now }
    {
        match at {
            Position::Front => true,
            Position::After(before) => self.names[before as usize] < *name,
        }
    }

    // whether the name is below the one that the link leads to
    fn is_below(&self, name: &Name, link: Option<u32>) -> bool
        requires { IfSome link (λ i. i < vec_len self.now.names) }
        ensures { IsTrue result ↔ IsBelow self.now.names.items link name.now }
    {
        match link {
            Some(after) => *name < self.names[after as usize],
            None => true,
        }
    }
}
