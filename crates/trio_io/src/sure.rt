//! Files and a sink in memory that never fail.

ghost use Rattle.std.specs.Prelude.{◌≡◌, ◌≤◌, OnErr, OnOk, length, take, ◌↔◌, ◌⊎◌, ◌++◌, IsTrue, IfSome, IsSomeAnd, Ok, None, Some, [], false, vec_len, Contains, IfOk, List, ℕ};
ghost use Rattle.std.specs.Io.KnownBytes.{Appends};
ghost use Rattle.std.specs.Option.{option_copied};
ghost use Rattle.trio_io.specs.Kept.{bytes_at, content_at};
ghost use Rattle.trio_io.specs.Names.{place_of, texts_of};
ghost use Rattle.trio_io.specs.Shelf.{GivesBytes, KeepsOthers, NoFaults, OnlyReads, OnlyReplaces, Rose, told};

use crate::content::{Content, copy_from};
use crate::counts::{is_among, place};
use crate::{Failed, Files, InMemory, KeepsBytes, MAX_OFFSET, Sink};
use std::alloc::{AllocError as NoMemory, Global};

/// Files in memory that never fail. All their counts are 0 for ever.
///
/// They tell the contents that they are given, and tell the empty content for a name that is given
/// none. What `replace` puts in place isn't told: it may not find memory, and reads as empty then.
#[derive(Drop)]
pub struct SureFiles {
    alloc: Global,
    names: Vec<String>,
    contents: Vec<Content>,
    ghost content_each: { vec_len contents ≡ vec_len names },
}

impl SureFiles {
    /// Serves these names, each of which is empty.
    pub fn new(alloc: Global, names: Vec<String>) -> Result<SureFiles, NoMemory>
        ensures serves { IfOk result
            (λ files. (⟦<SureFiles as Files>⟧.seen files).served ≡ texts_of names.items) }
        ensures tells { IfOk result (λ files. (⟦<SureFiles as Files>⟧.seen files).tells ≡ false) }
        ensures empty { IfOk result (λ files. (q : List ℕ) → Contains (texts_of names.items) q
            → (⟦<SureFiles as Files>⟧.seen files).held q ≡ Some []) }
        ensures faults { IfOk result (λ files. NoFaults (⟦<SureFiles as Files>⟧.seen files)) }
    {
        let mut contents = Vec::with_capacity(alloc, names.len())?;
        for _ in 0..names.len() {
            contents.push(Content::Told(Vec::new(alloc)))?;
        }
        Ok(SureFiles {
            alloc,
            names,
            contents,
        })
    }

    /// Whether this name may be asked for.
    pub fn serves(&self, name: &str) -> bool
        ensures { IsTrue result ↔ Contains (⟦<SureFiles as Files>⟧.seen self.now).served name.now }
    {
        is_among(&self.names, name)
    }

    /// Gives a name this content. A name that isn't served is passed over.
    #[tactic(auto, using(crate::proofs::Places::others_put, crate::proofs::Places::others_kept))]
    pub fn hold(&mut self, name: &str, bytes: Vec<u8>)
        ensures content { Contains (⟦<SureFiles as Files>⟧.seen self.old).served name.now
            → (⟦<SureFiles as Files>⟧.seen self.new).held name.now ≡ Some bytes.items }
        ensures others { KeepsOthers name.now (⟦<SureFiles as Files>⟧.seen self.old).held
            (⟦<SureFiles as Files>⟧.seen self.new).held }
        ensures reads { (⟦<SureFiles as Files>⟧.seen self.new).read_faults
            ≡ (⟦<SureFiles as Files>⟧.seen self.old).read_faults }
        ensures writes { (⟦<SureFiles as Files>⟧.seen self.new).write_faults
            ≡ (⟦<SureFiles as Files>⟧.seen self.old).write_faults }
        ensures tells { (⟦<SureFiles as Files>⟧.seen self.new).tells
            ≡ (⟦<SureFiles as Files>⟧.seen self.old).tells }
        ensures serves { (⟦<SureFiles as Files>⟧.seen self.new).served
            ≡ (⟦<SureFiles as Files>⟧.seen self.old).served }
        ensures kept { Contains (⟦<SureFiles as Files>⟧.seen self.old).served name.now
            → ⟦<SureFiles as InMemory>⟧.kept self.new name.now ≡ Some bytes.items }
        ensures kept_others { KeepsOthers name.now
            (⟦<SureFiles as InMemory>⟧.kept self.old) (⟦<SureFiles as InMemory>⟧.kept self.new) }
    {
        let i = place(&self.names, name);
        if i < self.contents.len() {
            self.contents[i] = Content::Told(bytes);
        }
    }

    /// What stands under a name, told or not. `None` where nothing does.
    pub fn content(&self, name: &str) -> Option<&[u8]>
        ensures kept { option_copied result ≡ ⟦<SureFiles as InMemory>⟧.kept self.now name.now }
        ensures told { IfSome ((⟦<SureFiles as Files>⟧.seen self.now).held name.now)
            (λ bs. IsSomeAnd result (λ bytes. bytes.now ≡ bs)) }
    {
        let i = place(&self.names, name);
        self.contents.get(i)?.bytes()
    }
}

impl InMemory for SureFiles {
    ghost kept = { λ s. λ q. bytes_at s.contents.items (place_of s.names.items q) };
}

impl Files for SureFiles {
    ghost seen = { λ s. record {
      served = texts_of s.names.items;
      tells = false;
      held = λ q. content_at s.contents.items (place_of s.names.items q);
      read_faults = λ _. 0;
      write_faults = λ _. 0;
    } };

    fn read_at(&mut self, name: &str, at: u64, buf: &mut [u8]) -> Result<usize, Failed>
        requires served { Contains (⟦<SureFiles as Files>⟧.seen self.old).served name.now }
        requires within { at ≤ MAX_OFFSET }
        ensures bound { IfOk result (λ n. n ≤ length buf.new) }
        ensures bytes { GivesBytes ((⟦<SureFiles as Files>⟧.seen self.old).held name.now) at result buf.new }
        ensures cause { OnErr result (Rose ((⟦<SureFiles as Files>⟧.seen self.old).read_faults name.now)
            ((⟦<SureFiles as Files>⟧.seen self.new).read_faults name.now)) }
        ensures files { OnlyReads name.now (⟦<SureFiles as Files>⟧.seen self.old) (⟦<SureFiles as Files>⟧.seen self.new) }
        ensures reads_kept { GivesBytes (⟦<SureFiles as InMemory>⟧.kept self.old name.now) at result buf.new }
        ensures reads_absent { ⟦<SureFiles as InMemory>⟧.kept self.old name.now ≡ None → result ≡ Ok 0 }
        ensures kept { ⟦<SureFiles as InMemory>⟧.kept self.new ≡ ⟦<SureFiles as InMemory>⟧.kept self.old }
    {
        let i = place(&self.names, name);
        match self.contents[i].bytes() {
            Some(bytes) => Ok(copy_from(bytes, at, buf)),
            None => Ok(0),
        }
    }

    #[tactic(auto, using(crate::proofs::Places::others_put, crate::proofs::Places::others_kept))]
    fn replace(&mut self, name: &str, bytes: &[u8]) -> Result<(), Failed>
        requires { Contains (⟦<SureFiles as Files>⟧.seen self.old).served name.now }
        ensures content { OnOk result
            ((⟦<SureFiles as Files>⟧.seen self.new).held name.now ≡ told (⟦<SureFiles as Files>⟧.seen self.old).tells bytes.now) }
        ensures untold { OnErr result ((⟦<SureFiles as Files>⟧.seen self.new).held name.now ≡ None) }
        ensures cause { OnErr result (Rose ((⟦<SureFiles as Files>⟧.seen self.old).write_faults name.now)
            ((⟦<SureFiles as Files>⟧.seen self.new).write_faults name.now)) }
        ensures files { OnlyReplaces name.now (⟦<SureFiles as Files>⟧.seen self.old) (⟦<SureFiles as Files>⟧.seen self.new) }
        // nothing stands there where there was no memory
        ensures kept { (⟦<SureFiles as InMemory>⟧.kept self.new name.now ≡ Some bytes.now)
            ⊎ (⟦<SureFiles as InMemory>⟧.kept self.new name.now ≡ None) }
        ensures kept_others { KeepsOthers name.now
            (⟦<SureFiles as InMemory>⟧.kept self.old) (⟦<SureFiles as InMemory>⟧.kept self.new) }
    {
        let i = place(&self.names, name);
        self.contents[i] = match bytes.to_vec(self.alloc) {
            Ok(copy) => Content::Untold(copy),
            Err(_) => Content::Absent,
        };
        Ok(())
    }
}

/// A sink that never fails. Its count of faults is 0 for ever.
///
/// It keeps the bytes for which there is memory, and passes over the others, so it tells nothing.
#[derive(Drop)]
pub struct SureSink {
    bytes: Vec<u8>,
}

impl SureSink {
    /// An empty sink. It takes no memory.
    pub fn new(alloc: Global) -> SureSink
        ensures written { (⟦<SureSink as Sink>⟧.seen result).written ≡ None }
        ensures faults { (⟦<SureSink as Sink>⟧.seen result).faults ≡ 0 }
        ensures kept { ⟦<SureSink as KeepsBytes>⟧.kept result ≡ [] }
    {
        SureSink {
            bytes: Vec::new(alloc),
        }
    }

    /// The bytes that it kept.
    pub fn bytes(&self) -> &[u8]
        ensures { result.now ≡ ⟦<SureSink as KeepsBytes>⟧.kept self.now }
    {
        &self.bytes
    }
}

impl KeepsBytes for SureSink {
    ghost kept = { λ s. s.bytes.items };
}

impl Sink for SureSink {
    ghost seen = { λ s. record { written = None; faults = 0 } };

    fn put(&mut self, bytes: &[u8]) -> Result<(), Failed>
        ensures all { OnOk result (Appends (⟦<SureSink as Sink>⟧.seen self.old).written (⟦<SureSink as Sink>⟧.seen self.new).written bytes.now) }
        ensures part { OnErr result
            ((n : ℕ) × Appends (⟦<SureSink as Sink>⟧.seen self.old).written (⟦<SureSink as Sink>⟧.seen self.new).written (take n bytes.now)) }
        ensures cause { OnErr result (Rose (⟦<SureSink as Sink>⟧.seen self.old).faults (⟦<SureSink as Sink>⟧.seen self.new).faults) }
        ensures later { (⟦<SureSink as Sink>⟧.seen self.old).faults ≤ (⟦<SureSink as Sink>⟧.seen self.new).faults }
        // the bytes are passed over where there was no memory
        ensures kept { (⟦<SureSink as KeepsBytes>⟧.kept self.new ≡ ⟦<SureSink as KeepsBytes>⟧.kept self.old ++ bytes.now)
            ⊎ (⟦<SureSink as KeepsBytes>⟧.kept self.new ≡ ⟦<SureSink as KeepsBytes>⟧.kept self.old) }
    {
        let _ = self.bytes.extend_from_slice(bytes);
        Ok(())
    }
}
