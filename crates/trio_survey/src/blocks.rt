//! What directory blocks say, each read once.

ghost use Rattle.std.specs.Prelude.{◌≡◌, ◌-◌, ◌++◌, ℕ, List, Option, None, Some, IfOk, OnOk, map, true};
ghost use Rattle.std.specs.List.{flat_map};
ghost use Rattle.std.specs.Vec.{with_item};
ghost use Rattle.trio_layout.specs.Core.{page_of};
ghost use Rattle.trio_layout.specs.Range.{is_core};
ghost use Rattle.trio_survey.specs.Seen.{core_with, listed_seen};
ghost use Rattle.trio_survey.specs.inner.Blocks.{block_kept, entries_kept, entry_seen, part, AreNamed, BlockAnswer, GoesOn, HasNumbers, HasParts, IsPart, SaysBlocks, StaysRead};

use crate::entries::add_page_entries;
use crate::file::EntryRead;
use crate::names::KeptNames;
use std::alloc::Global;
use std::marker::Model;
use trio_layout::{CoreRange, EntryPart, Location};
use trio_page::{NoMemory, Page};
use trio_rights::Kind;

/// What the directory blocks say that were read. Each is read once, and each name stands here once.
#[derive(Drop)]
pub(crate) struct KeptBlocks {
    /// By the place of a page among the core pages, its entries among those that are kept, or its
    /// first bad slot. `None`: it wasn't read as a directory block.
    pub read: Vec<Option<Result<Span, Location>>>,
    pub entries: Vec<DirEntry>,
    pub names: KeptNames,
}

/// An entry of a directory at its place, with the bytes of the body in its slot.
#[derive(Drop)]
pub(crate) struct DirEntry {
    pub ino: u32,
    /// The number of its name.
    pub name: u32,
    pub page: u32,
    pub slot: u16,
    pub kind: Kind,
    pub body: KeptBody,
}

/// The bytes of a body. They stand on the heap, so that entries are small: each directory that lists
/// a block goes over the block's entries.
#[derive(Drop)]
pub(crate) struct KeptBody {
    bytes: Box<[u8; 64]>,
}

impl Model for KeptBody {
    ghost use Rattle.std.specs.Prelude.{List, ℕ};

    ghost Value = { List ℕ };

    ghost view = { λ b. b.bytes.value };
}

impl KeptBody {
    fn new(alloc: Global, bytes: &[u8; 64]) -> Result<KeptBody, NoMemory>
        ensures { IfOk result (λ b. b ≡ bytes.now) }
    {
        let bytes = Box::new(alloc, *bytes)?;
        Ok(KeptBody { bytes })
    }

    /// The bytes.
    pub fn bytes(&self) -> [u8; 64]
        ensures { result ≡ self.now }
    {
        *self.bytes
    }
}

/// A part of a list.
#[derive(Clone, Copy)]
pub(crate) struct Span {
    pub from: usize,
    pub len: usize,
}

impl KeptBlocks {
    /// No block was read.
    pub fn none(alloc: Global, range: CoreRange) -> Result<KeptBlocks, NoMemory>
        ensures parts { IfOk result (HasParts range) }
        ensures says { IfOk result (λ k. (pages : List (Option (List ℕ))) (inodes : ℕ) → SaysBlocks pages range inodes k) }
    {
        let count = range.end.saturating_sub(range.first);
        Ok(KeptBlocks {
            read: vec![in alloc; None; count as usize]?,
            entries: Vec::new(alloc),
            names: KeptNames::none(alloc),
        })
    }

    /// What a page says as a directory block. `None` where it wasn't read as one, or isn't a core
    /// page.
    pub fn find(&self, range: CoreRange, page: u32) -> Option<Result<Span, Location>>
        ensures { result ≡ block_kept range self.now.read.items page }
    {
        if !range.has(u64::from(page)) {
            return None;
        }
        *self.read.get((page - range.first) as usize)?
    }

    /// The entries that were read on a page, in the order of the slots. None where it wasn't read as
    /// a directory block.
    pub fn entries_of(&self, range: CoreRange, page: u32) -> &[DirEntry]
        requires { HasParts range self.now }
        ensures entries { map (entry_seen self.now.names.names.items) result.now ≡ entries_kept range self.now page }
        ensures named { AreNamed self.now.names.names.items result.now }
    {
        match self.find(range, page) {
            Some(Ok(span)) => &self.entries[span.from..span.from + span.len],
            _ => &[],
        }
    }

    /// Keeps what a core page of these bytes says as a directory block: its entries, or its first
    /// bad slot.
    pub fn keep(
        &mut self,
        alloc: Global,
        range: CoreRange,
        inodes: u32,
        no: u32,
        page: &Page,
    ) -> Result<Result<(), Location>, NoMemory>
        requires core { is_core range no ≡ true }
        requires unread { block_kept range self.old.read.items no ≡ None }
        requires parts { HasParts range self.old }
        ensures parts { OnOk result (HasParts range self.new) }
        ensures says { OnOk result ((pages : List (Option (List ℕ))) → Some page.now ≡ page_of (core_with pages range inodes) no
            → SaysBlocks pages range inodes self.old → SaysBlocks pages range inodes self.new) }
        ensures here { IfOk result (λ r. (pages : List (Option (List ℕ))) → Some page.now ≡ page_of (core_with pages range inodes) no
            → BlockAnswer pages range inodes self.new no r) }
        ensures others { OnOk result (StaysRead range self.old self.new) }
    {
        let mut entries = Vec::new(alloc);
        match add_page_entries(page, no, inodes, &mut entries)? {
            Ok(()) => {
                let span = self.add(alloc, &entries)?;
                self.set(range, no, Ok(span));
                Ok(Ok(()))
            }
            Err(place) => {
                self.set(range, no, Err(place));
                Ok(Err(place))
            }
        }
    }

    fn set(&mut self, range: CoreRange, no: u32, read: Result<Span, Location>)
        requires core { is_core range no ≡ true }
        requires parts { HasParts range self.old }
        ensures { self.new ≡ record self.old { read = with_item self.old.read (no - range.first) (Some read) } }
    {
        self.read[(no - range.first) as usize] = Some(read);
    }

    /// Appends entries, and answers where they stand.
    fn add(&mut self, alloc: Global, entries: &[EntryRead]) -> Result<Span, NoMemory>
        requires { HasNumbers self.old }
        ensures said { IfOk result (λ s. map (entry_seen self.new.names.names.items) (part s self.new.entries.items) ≡ map listed_seen entries.now) }
        ensures part { IfOk result (IsPart self.new.names.names.items self.new.entries.items) }
        ensures on { OnOk result (GoesOn self.old self.new) }
    {
        let from = self.entries.len();
        for listed in entries {
            let name = self.names.add(&listed.entry.name)?;
            let body = KeptBody::new(alloc, &listed.body)?;
            self.entries.push(DirEntry {
                ino: listed.entry.ino,
                name,
                page: listed.page,
                slot: listed.slot,
                kind: listed.entry.kind,
                body,
            })?;
        }
        Ok(Span {
            from,
            len: entries.len(),
        })
    }

    /// The entries of these blocks, which were read, with their names.
    pub fn listed(
        &self,
        alloc: Global,
        range: CoreRange,
        blocks: &[u32],
    ) -> Result<Vec<EntryRead>, NoMemory>
        requires { HasParts range self.now }
        ensures { IfOk result (λ es. map listed_seen es.items ≡ flat_map (entries_kept range self.now) blocks.now) }
    {
        let mut listed = Vec::new(alloc);
        for block in blocks {
            self.add_listed(self.entries_of(range, *block), &mut listed)?;
        }
        Ok(listed)
    }

    /// Appends these entries with their names.
    fn add_listed(&self, entries: &[DirEntry], listed: &mut Vec<EntryRead>) -> Result<(), NoMemory>
        requires { AreNamed self.now.names.names.items entries.now }
        ensures { OnOk result (map listed_seen listed.new.items ≡ map listed_seen listed.old.items ++ map (entry_seen self.now.names.names.items) entries.now) }
    {
        for entry in entries {
            listed.push(EntryRead {
                entry: EntryPart {
                    ino: entry.ino,
                    kind: entry.kind,
                    name: self.names.names[entry.name as usize],
                },
                page: entry.page,
                slot: entry.slot,
                body: entry.body.bytes(),
            })?;
        }
        Ok(())
    }
}
