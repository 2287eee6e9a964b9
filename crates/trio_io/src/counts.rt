//! How often a read and a write of each name has failed.

ghost use Rattle.std.specs.Prelude.{◌≡◌, ◌<◌, ◌≤◌, ◌↔◌, length, vec_len, replicate, Contains, IsTrue, IfOk};
ghost use Rattle.trio_io.specs.Names.{place_of, texts_of, count_of};
ghost use Rattle.trio_io.specs.Shelf.{Rose, RisesAt};

use std::alloc::{AllocError as NoMemory, Global};

/// Where a name stands first, or how many names there are.
pub(crate) fn place(names: &[String], name: &str) -> usize
    ensures place { result ≡ place_of names.now name.now }
    ensures within { Contains (texts_of names.now) name.now → result < length names.now }
{
    for (i, each) in names.iter().enumerate() {
        if each.as_str() == name {
            return i;
        }
    }
    names.len()
}

/// Whether a name is among these.
#[tactic(auto, using(crate::proofs::Places::place_of_lt, crate::proofs::Places::among_by_place))]
pub(crate) fn is_among(names: &[String], name: &str) -> bool
    ensures { IsTrue result ↔ Contains (texts_of names.now) name.now }
{
    place(names, name) < names.len()
}

/// The count of a name, and 0 for a name that isn't there.
fn count(names: &[String], counts: &[u64], name: &str) -> u64
    ensures { result ≡ count_of names.now counts.now name.now }
{
    counts.get(place(names, name)).copied().unwrap_or(0)
}

/// Sets the count of a name, which must not fall.
#[tactic(auto, using(crate::proofs::Places::count_set))]
fn set_count(names: &[String], counts: &mut [u64], name: &str, n: u64)
    requires among { Contains (texts_of names.now) name.now }
    requires each { length counts.old ≡ length names.now }
    requires no_less { count_of names.now counts.old name.now ≤ n }
    ensures rises { RisesAt name.now
        (count_of names.now counts.old) (count_of names.now counts.new) }
    ensures count { count_of names.now counts.new name.now ≡ n }
{
    counts[place(names, name)] = n;
}

/// How often a read and a write of each of these names has failed.
#[derive(Drop)]
pub(crate) struct FaultCounts {
    pub names: Vec<String>,
    pub reads: Vec<u64>,
    pub writes: Vec<u64>,
    pub ghost read_each: { vec_len reads ≡ vec_len names },
    pub ghost write_each: { vec_len writes ≡ vec_len names },
}

impl FaultCounts {
    /// No faults yet, of any name.
    pub fn new(alloc: Global, names: Vec<String>) -> Result<FaultCounts, NoMemory>
        ensures names { IfOk result (λ counts. counts.names ≡ names) }
        ensures reads { IfOk result (λ counts. counts.reads.items ≡ replicate (vec_len names) 0) }
        ensures writes { IfOk result (λ counts. counts.writes.items ≡ replicate (vec_len names) 0) }
    {
        let reads = vec![in alloc; 0; names.len()]?;
        let writes = vec![in alloc; 0; names.len()]?;
        Ok(FaultCounts {
            names,
            reads,
            writes,
        })
    }

    /// How often a read of this name has failed.
    pub fn read_count(&self, name: &str) -> u64
        ensures { result ≡ count_of self.now.names.items self.now.reads.items name.now }
    {
        count(&self.names, &self.reads, name)
    }

    /// How often a write of this name has failed.
    pub fn write_count(&self, name: &str) -> u64
        ensures { result ≡ count_of self.now.names.items self.now.writes.items name.now }
    {
        count(&self.names, &self.writes, name)
    }

    /// Sets how often a read of this name has failed, which must not fall.
    pub fn set_read_count(&mut self, name: &str, n: u64)
        requires among { Contains (texts_of self.old.names.items) name.now }
        requires no_less { count_of self.old.names.items self.old.reads.items name.now ≤ n }
        ensures rises { RisesAt name.now (count_of self.old.names.items self.old.reads.items)
            (count_of self.old.names.items self.new.reads.items) }
        ensures count { count_of self.old.names.items self.new.reads.items name.now ≡ n }
        ensures names { self.new.names.items ≡ self.old.names.items }
        ensures writes { self.new.writes.items ≡ self.old.writes.items }
    {
        set_count(&self.names, &mut self.reads, name, n);
    }

    /// Sets how often a write of this name has failed, which must not fall.
    pub fn set_write_count(&mut self, name: &str, n: u64)
        requires among { Contains (texts_of self.old.names.items) name.now }
        requires no_less { count_of self.old.names.items self.old.writes.items name.now ≤ n }
        ensures rises { RisesAt name.now (count_of self.old.names.items self.old.writes.items)
            (count_of self.old.names.items self.new.writes.items) }
        ensures count { count_of self.old.names.items self.new.writes.items name.now ≡ n }
        ensures names { self.new.names.items ≡ self.old.names.items }
        ensures reads { self.new.reads.items ≡ self.old.reads.items }
    {
        set_count(&self.names, &mut self.writes, name, n);
    }

    /// A read of this name has failed. A count that stands at its last value stays.
    pub fn raise_read_count(&mut self, name: &str)
        requires { Contains (texts_of self.old.names.items) name.now }
        ensures rises { RisesAt name.now (count_of self.old.names.items self.old.reads.items)
            (count_of self.old.names.items self.new.reads.items) }
        ensures rose { Rose (count_of self.old.names.items self.old.reads.items name.now)
            (count_of self.old.names.items self.new.reads.items name.now) }
        ensures names { self.new.names.items ≡ self.old.names.items }
        ensures writes { self.new.writes.items ≡ self.old.writes.items }
    {
        let count = self.read_count(name);
        self.set_read_count(name, count.saturating_add(1));
    }

    /// A write of this name has failed. A count that stands at its last value stays.
    pub fn raise_write_count(&mut self, name: &str)
        requires { Contains (texts_of self.old.names.items) name.now }
        ensures rises { RisesAt name.now (count_of self.old.names.items self.old.writes.items)
            (count_of self.old.names.items self.new.writes.items) }
        ensures rose { Rose (count_of self.old.names.items self.old.writes.items name.now)
            (count_of self.old.names.items self.new.writes.items name.now) }
        ensures names { self.new.names.items ≡ self.old.names.items }
        ensures reads { self.new.reads.items ≡ self.old.reads.items }
    {
        let count = self.write_count(name);
        self.set_write_count(name, count.saturating_add(1));
    }
}
