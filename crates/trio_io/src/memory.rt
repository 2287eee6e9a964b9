//! Files and a sink in memory, which fail at the calls that they are told to fail at.

ghost use Rattle.std.specs.Prelude.{◌≡◌, ◌≤◌, OnErr, length, take, ◌↔◌, ◌⊎◌, IsTrue, IsErr, true, None, Some, [], Contains, IfOk, IfSome, IsSomeAnd, OnOk, vec_len, List, ℕ};
ghost use Rattle.std.specs.Io.KnownBytes.{Appends};
ghost use Rattle.std.specs.Option.{option_copied};
ghost use Rattle.trio_io.specs.Kept.{bytes_at, content_at};
ghost use Rattle.trio_io.specs.Plan.{counted, FailsNext};
ghost use Rattle.trio_io.specs.Names.{place_of, texts_of, count_of};
ghost use Rattle.trio_io.specs.Shelf.{GivesBytes, KeepsOthers, NoFaults, OnlyReads, OnlyReplaces, Rose, told};

use crate::content::{Content, copy_from};
use crate::counts::{FaultCounts, is_among, place};
use crate::{Failed, FailingCalls, Files, InMemory, MAX_OFFSET, Planned, Sink};
use std::alloc::{AllocError as NoMemory, Global};

/// Files in memory, which tell what they hold.
///
/// A read fails at a call that is to fail, and where the name has no content. A write fails at a
/// call that is to fail, and where there is no memory for the copy; half of the new bytes then
/// stand there, or nothing, and aren't told.
#[derive(Drop)]
pub struct MemFiles {
    alloc: Global,
    counts: FaultCounts,
    contents: Vec<Content>,
    plan: FailingCalls,
    ghost content_each: { vec_len contents ≡ vec_len counts.names },
}

impl MemFiles {
    /// Serves these names, none of which has a content.
    pub fn new(alloc: Global, names: Vec<String>, plan: FailingCalls) -> Result<MemFiles, NoMemory>
        ensures serves { IfOk result
            (λ files. (⟦<MemFiles as Files>⟧.seen files).served ≡ texts_of names.items) }
        ensures tells { IfOk result (λ files. (⟦<MemFiles as Files>⟧.seen files).tells ≡ true) }
        ensures empty { IfOk result
            (λ files. (q : List ℕ) → (⟦<MemFiles as Files>⟧.seen files).held q ≡ None) }
        ensures faults { IfOk result (λ files. NoFaults (⟦<MemFiles as Files>⟧.seen files)) }
        ensures kept { IfOk result (λ files. (q : List ℕ) → ⟦<MemFiles as InMemory>⟧.kept files q ≡ None) }
        ensures plan { IfOk result (λ files. ⟦<MemFiles as Planned>⟧.plan files ≡ plan) }
    {
        let mut contents = Vec::with_capacity(alloc, names.len())?;
        for _ in 0..names.len() {
            contents.push(Content::Absent)?;
        }
        Ok(MemFiles {
            alloc,
            counts: FaultCounts::new(alloc, names)?,
            contents,
            plan,
        })
    }

    /// Whether this name may be asked for.
    pub fn serves(&self, name: &str) -> bool
        ensures { IsTrue result ↔ Contains (⟦<MemFiles as Files>⟧.seen self.now).served name.now }
    {
        is_among(&self.counts.names, name)
    }

    /// Gives a name this content. A name that isn't served is passed over.
    #[tactic(auto, using(crate::proofs::Places::others_put, crate::proofs::Places::others_kept))]
    pub fn hold(&mut self, name: &str, bytes: Vec<u8>)
        ensures content { Contains (⟦<MemFiles as Files>⟧.seen self.old).served name.now
            → (⟦<MemFiles as Files>⟧.seen self.new).held name.now ≡ Some bytes.items }
        ensures others { KeepsOthers name.now
            (⟦<MemFiles as Files>⟧.seen self.old).held (⟦<MemFiles as Files>⟧.seen self.new).held }
        ensures reads { (⟦<MemFiles as Files>⟧.seen self.new).read_faults
            ≡ (⟦<MemFiles as Files>⟧.seen self.old).read_faults }
        ensures writes { (⟦<MemFiles as Files>⟧.seen self.new).write_faults
            ≡ (⟦<MemFiles as Files>⟧.seen self.old).write_faults }
        ensures tells { (⟦<MemFiles as Files>⟧.seen self.new).tells
            ≡ (⟦<MemFiles as Files>⟧.seen self.old).tells }
        ensures serves { (⟦<MemFiles as Files>⟧.seen self.new).served
            ≡ (⟦<MemFiles as Files>⟧.seen self.old).served }
        ensures plan { ⟦<MemFiles as Planned>⟧.plan self.new ≡ ⟦<MemFiles as Planned>⟧.plan self.old }
        ensures kept { Contains (⟦<MemFiles as Files>⟧.seen self.old).served name.now
            → ⟦<MemFiles as InMemory>⟧.kept self.new name.now ≡ Some bytes.items }
        ensures kept_others { KeepsOthers name.now
            (⟦<MemFiles as InMemory>⟧.kept self.old) (⟦<MemFiles as InMemory>⟧.kept self.new) }
    {
        let i = place(&self.counts.names, name);
        if i < self.contents.len() {
            self.contents[i] = Content::Told(bytes);
        }
    }

    /// What stands under a name, told or not. `None` where nothing does.
    pub fn content(&self, name: &str) -> Option<&[u8]>
        ensures kept { option_copied result ≡ ⟦<MemFiles as InMemory>⟧.kept self.now name.now }
        ensures told { IfSome ((⟦<MemFiles as Files>⟧.seen self.now).held name.now)
            (λ bs. IsSomeAnd result (λ bytes. bytes.now ≡ bs)) }
    {
        let i = place(&self.counts.names, name);
        self.contents.get(i)?.bytes()
    }

    /// How often a read of this name has failed.
    pub fn read_faults(&self, name: &str) -> u64
        ensures { result ≡ (⟦<MemFiles as Files>⟧.seen self.now).read_faults name.now }
    {
        self.counts.read_count(name)
    }

    /// How often a write of this name has failed.
    pub fn write_faults(&self, name: &str) -> u64
        ensures { result ≡ (⟦<MemFiles as Files>⟧.seen self.now).write_faults name.now }
    {
        self.counts.write_count(name)
    }
}

impl InMemory for MemFiles {
    ghost kept = { λ s. λ q. bytes_at s.contents.items (place_of s.counts.names.items q) };
}

impl Planned for MemFiles {
    ghost plan = { λ s. s.plan };
}

impl Files for MemFiles {
    ghost seen = { λ s. record {
      served = texts_of s.counts.names.items;
      tells = true;
      held = λ q. content_at s.contents.items (place_of s.counts.names.items q);
      read_faults = count_of s.counts.names.items s.counts.reads.items;
      write_faults = count_of s.counts.names.items s.counts.writes.items;
    } };

    fn read_at(&mut self, name: &str, at: u64, buf: &mut [u8]) -> Result<usize, Failed>
        requires served { Contains (⟦<MemFiles as Files>⟧.seen self.old).served name.now }
        requires within { at ≤ MAX_OFFSET }
        ensures bound { IfOk result (λ n. n ≤ length buf.new) }
        ensures bytes { GivesBytes ((⟦<MemFiles as Files>⟧.seen self.old).held name.now) at result buf.new }
        ensures cause { OnErr result (Rose ((⟦<MemFiles as Files>⟧.seen self.old).read_faults name.now)
            ((⟦<MemFiles as Files>⟧.seen self.new).read_faults name.now)) }
        ensures files { OnlyReads name.now (⟦<MemFiles as Files>⟧.seen self.old) (⟦<MemFiles as Files>⟧.seen self.new) }
        ensures counted { ⟦<MemFiles as Planned>⟧.plan self.new
            ≡ counted (⟦<MemFiles as Planned>⟧.plan self.old) }
        ensures fails { IsErr result ↔ (FailsNext (⟦<MemFiles as Planned>⟧.plan self.old)
            ⊎ (⟦<MemFiles as InMemory>⟧.kept self.old name.now ≡ None)) }
        ensures kept { ⟦<MemFiles as InMemory>⟧.kept self.new ≡ ⟦<MemFiles as InMemory>⟧.kept self.old }
    {
        let i = place(&self.counts.names, name);
        if !self.plan.next() {
            if let Some(bytes) = self.contents[i].bytes() {
                return Ok(copy_from(bytes, at, buf));
            }
        }
        self.counts.raise_read_count(name);
        Err(Failed)
    }

    #[tactic(auto, using(crate::proofs::Places::others_put, crate::proofs::Places::others_kept))]
    fn replace(&mut self, name: &str, bytes: &[u8]) -> Result<(), Failed>
        requires { Contains (⟦<MemFiles as Files>⟧.seen self.old).served name.now }
        ensures content { OnOk result
            ((⟦<MemFiles as Files>⟧.seen self.new).held name.now ≡ told (⟦<MemFiles as Files>⟧.seen self.old).tells bytes.now) }
        ensures untold { OnErr result ((⟦<MemFiles as Files>⟧.seen self.new).held name.now ≡ None) }
        ensures cause { OnErr result (Rose ((⟦<MemFiles as Files>⟧.seen self.old).write_faults name.now)
            ((⟦<MemFiles as Files>⟧.seen self.new).write_faults name.now)) }
        ensures files { OnlyReplaces name.now (⟦<MemFiles as Files>⟧.seen self.old) (⟦<MemFiles as Files>⟧.seen self.new) }
        ensures counted { ⟦<MemFiles as Planned>⟧.plan self.new
            ≡ counted (⟦<MemFiles as Planned>⟧.plan self.old) }
        ensures fails { FailsNext (⟦<MemFiles as Planned>⟧.plan self.old) → IsErr result }
        ensures kept { OnOk result (⟦<MemFiles as InMemory>⟧.kept self.new name.now ≡ Some bytes.now) }
        ensures kept_others { KeepsOthers name.now
            (⟦<MemFiles as InMemory>⟧.kept self.old) (⟦<MemFiles as InMemory>⟧.kept self.new) }
    {
        let i = place(&self.counts.names, name);
        if !self.plan.next() {
            if let Ok(copy) = bytes.to_vec(self.alloc) {
                self.contents[i] = Content::Told(copy);
                return Ok(());
            }
        }
        self.contents[i] = match bytes[..bytes.len() / 2].to_vec(self.alloc) {
            Ok(half) => Content::Untold(half),
            Err(_) => Content::Absent,
        };
        self.counts.raise_write_count(name);
        Err(Failed)
    }
}

/// A sink in memory, which tells all that was put into it.
///
/// At a call that is to fail it takes half of the bytes. Where there is no memory for the bytes it
/// fails too, and takes none.
#[derive(Drop)]
pub struct MemSink {
    bytes: Vec<u8>,
    faults: u64,
    plan: FailingCalls,
}

impl MemSink {
    /// An empty sink. It takes no memory.
    pub fn new(alloc: Global, plan: FailingCalls) -> MemSink
        ensures written { (⟦<MemSink as Sink>⟧.seen result).written ≡ Some [] }
        ensures faults { (⟦<MemSink as Sink>⟧.seen result).faults ≡ 0 }
        ensures plan { ⟦<MemSink as Planned>⟧.plan result ≡ plan }
    {
        MemSink {
            bytes: Vec::new(alloc),
            faults: 0,
            plan,
        }
    }

    /// All bytes that were put so far.
    pub fn bytes(&self) -> &[u8]
        ensures { (⟦<MemSink as Sink>⟧.seen self.now).written ≡ Some result.now }
    {
        &self.bytes
    }

    /// How often a put has failed.
    pub fn faults(&self) -> u64
        ensures { result ≡ (⟦<MemSink as Sink>⟧.seen self.now).faults }
    {
        self.faults
    }
}

impl Planned for MemSink {
    ghost plan = { λ s. s.plan };
}

impl Sink for MemSink {
    ghost seen = { λ s. record { written = Some s.bytes.items; faults = s.faults } };

    fn put(&mut self, bytes: &[u8]) -> Result<(), Failed>
        ensures all { OnOk result (Appends (⟦<MemSink as Sink>⟧.seen self.old).written (⟦<MemSink as Sink>⟧.seen self.new).written bytes.now) }
        ensures part { OnErr result
            ((n : ℕ) × Appends (⟦<MemSink as Sink>⟧.seen self.old).written (⟦<MemSink as Sink>⟧.seen self.new).written (take n bytes.now)) }
        ensures cause { OnErr result (Rose (⟦<MemSink as Sink>⟧.seen self.old).faults (⟦<MemSink as Sink>⟧.seen self.new).faults) }
        ensures later { (⟦<MemSink as Sink>⟧.seen self.old).faults ≤ (⟦<MemSink as Sink>⟧.seen self.new).faults }
        ensures counted { ⟦<MemSink as Planned>⟧.plan self.new
            ≡ counted (⟦<MemSink as Planned>⟧.plan self.old) }
        ensures fails { FailsNext (⟦<MemSink as Planned>⟧.plan self.old) → IsErr result }
    {
        let fails = self.plan.next();
        let part = if fails { bytes.len() / 2 } else { bytes.len() };
        if self.bytes.extend_from_slice(&bytes[..part]).is_ok() && !fails {
            return Ok(());
        }
        self.faults = self.faults.saturating_add(1);
        Err(Failed)
    }
}
