//! Lent things, kept.

ghost use Rattle.std.specs.Prelude.{◌≡◌, ◌∷◌, ◌++◌, ◌+◌, [], IfOk, IfSome, IsFalse, IsNone, IsTrue, None, OnErr, OnOk, Some, length, if◌then◌else◌};
ghost use Rattle.std.specs.Option.{option_copied};
ghost use Rattle.trio_nodes.specs.declared.entry.AllotAnswer.TheVariants.{Given};
ghost use Rattle.trio_desk.specs.Out.{ino_numbers, page_numbers, parcel_of};
ghost use Rattle.trio_raw.specs.Asked.{children_in};
ghost use Rattle.trio_raw.specs.Has.{bytes_at, has_all_of, has_nothing, keeps_lease, nothing, parcel_named, peeked, poked, poked_block, poked_body, poked_fresh, poked_index, read_on, rest_of, whole_parcel, with_file, with_fresh, with_parcel, with_reads, without_read};
ghost use Rattle.trio_raw.specs.inner.Stock.{HasNumbersFor, HasPlaceFor, HasPlacesFor, HasRoomFor, HasSpare, with_given};

use crate::lent::{have_all, have_either, move_all, numbers_of, take_one};
use crate::peek::{peek_bytes, shown_block, shown_body, shown_fresh, shown_index};
use crate::poke::{poke_block, poke_body, poke_fresh, poke_index};
use std::alloc::Global;
use std::marker::Model;
use trio_lease::things::{append_all, let_go_all, place_of};
use trio_lease::{Allotted, Bundle, BundleParts, Lease, ReadLease};
use trio_nodes::{AllotAnswer, List, Spot};
use trio_page::NoMemory;

/// Write leases, read leases, holds, allotted pages and allotted inode numbers, each kind in the
/// order in which it came.
///
/// Contracts see what is had and, as `room`, how many of each kind have a place (`Stock`).
pub(crate) struct Things {
    parts: BundleParts,
    reads: Vec<ReadLease>,
}

impl Model for Things {
    ghost use Rattle.std.specs.Prelude.{vec_capacity};
    ghost use Rattle.trio_raw.specs.inner.Stock.{Stock};

    ghost Value = { Stock };

    ghost view = { λ t. record {
      has = record { writes = t.parts.writes.items; reads = t.reads.items; holds = t.parts.holds.items; pages = t.parts.pages.items; inodes = t.parts.inodes.items };
      room = record { writes = vec_capacity t.parts.writes; reads = vec_capacity t.reads; holds = vec_capacity t.parts.holds; pages = vec_capacity t.parts.pages; inodes = vec_capacity t.parts.inodes };
    } };
}

/// Lists for the numbers of allotted pages and inodes, as a library is answered.
#[derive(Drop)]
pub(crate) struct Numbers {
    /// Of pages.
    pub pages: Vec<u32>,
    /// Of inodes.
    pub inodes: Vec<u32>,
}

impl Things {
    /// Nothing. It takes no memory.
    pub(crate) fn new(alloc: Global) -> Things
        ensures { result.has ≡ nothing }
    {
        Things {
            parts: Bundle::new(alloc).parts(),
            reads: Vec::new(alloc),
        }
    }

    /// Makes room for one more lease of any kind. After [`NoMemory`] too nothing else has changed.
    pub(crate) fn reserve_lease(&mut self) -> Result<(), NoMemory>
        ensures kept { self.new.has ≡ self.old.has }
        ensures room { OnOk result (HasSpare self.new) }
    {
        self.parts.writes.reserve(1)?;
        self.reads.reserve(1)?;
        self.parts.holds.reserve(1)
    }

    /// Adds a lease as the last one of its kind. Returns the number of children that it tells.
    pub(crate) fn add_lease(&mut self, lease: Lease) -> u32
        requires { HasSpare self.old }
        ensures children { result ≡ children_in lease }
        ensures added { self.new.has ≡ keeps_lease self.old.has lease }
    {
        match lease {
            Lease::Write(lease) => {
                self.parts.writes.push_reserved(lease);
                0
            }
            Lease::Read(lease) => {
                self.reads.push_reserved(lease);
                0
            }
            Lease::Hold(lease) => {
                let children = lease.children();
                self.parts.holds.push_reserved(lease);
                children
            }
        }
    }

    /// Makes room for so many more pages and inode numbers. Returns lists with room for as many of their
    /// numbers. After [`NoMemory`] too nothing else has changed.
    pub(crate) fn reserve_allotted(
        &mut self,
        alloc: Global,
        pages: usize,
        inodes: usize,
    ) -> Result<Numbers, NoMemory>
        ensures kept { self.new.has ≡ self.old.has }
        ensures places { OnOk result (HasPlacesFor self.new pages inodes) }
        ensures numbers { IfOk result (λ numbers. HasNumbersFor numbers pages inodes) }
    {
        self.parts.pages.reserve(pages)?;
        self.parts.inodes.reserve(inodes)?;
        numbers_for(alloc, pages, inodes)
    }

    /// Adds what an allotment gave, as the last pages and numbers, for which there is room. Returns their
    /// numbers. It takes no memory.
    pub(crate) fn add_allotted(&mut self, given: Allotted, numbers: Numbers) -> AllotAnswer
        requires places { HasPlacesFor self.old (length given.pages.items) (length given.inodes.items) }
        requires numbers { HasNumbersFor numbers (length given.pages.items) (length given.inodes.items) }
        ensures answer { result ≡ Given (page_numbers given.pages.items) (ino_numbers given.inodes.items) }
        ensures added { self.new.has ≡ with_given self.old.has given }
    {
        let answer = AllotAnswer::Given {
            pages: List::from_vec(numbers_of(&given.pages, numbers.pages)),
            inodes: List::from_vec(numbers_of(&given.inodes, numbers.inodes)),
        };
        let Allotted { pages, inodes } = given;
        append_all(pages, &mut self.parts.pages);
        append_all(inodes, &mut self.parts.inodes);
        answer
    }

    /// Writes these bytes at a spot, from an offset on. `false` exactly where there is no such write
    /// lease or allotted page, or the bytes leave it, and then nothing has changed.
    pub(crate) fn poke(&mut self, at: Spot, offset: u32, bytes: &[u8]) -> bool
        ensures poked { poked self.old.has at offset bytes.now ≡ (if result then Some self.new.has else None) }
        ensures kept { IsFalse result → self.new.has ≡ self.old.has }
    {
        match at {
            Spot::Body(ino) => self.poke_body(ino, offset, bytes),
            Spot::Index(ino, page) => self.poke_index(ino, page, offset, bytes),
            Spot::Block(ino, block) => self.poke_block(ino, block, offset, bytes),
            Spot::Fresh(page) => self.poke_fresh(page, offset, bytes),
        }
    }

    fn poke_body(&mut self, ino: u32, offset: u32, bytes: &[u8]) -> bool
        ensures poked { with_file (poked_body offset bytes.now) ino self.old.has ≡ (if result then Some self.new.has else None) }
        ensures kept { IsFalse result → self.new.has ≡ self.old.has }
    {
        match place_of(&self.parts.writes, ino) {
            Some(i) => poke_body(&mut self.parts.writes[i], offset, bytes),
            None => false,
        }
    }

    fn poke_index(&mut self, ino: u32, page: u32, offset: u32, bytes: &[u8]) -> bool
        ensures poked { with_file (poked_index page offset bytes.now) ino self.old.has ≡ (if result then Some self.new.has else None) }
        ensures kept { IsFalse result → self.new.has ≡ self.old.has }
    {
        match place_of(&self.parts.writes, ino) {
            Some(i) => poke_index(&mut self.parts.writes[i], page, offset, bytes),
            None => false,
        }
    }

    fn poke_block(&mut self, ino: u32, block: u32, offset: u32, bytes: &[u8]) -> bool
        ensures poked { with_file (poked_block block offset bytes.now) ino self.old.has ≡ (if result then Some self.new.has else None) }
        ensures kept { IsFalse result → self.new.has ≡ self.old.has }
    {
        match place_of(&self.parts.writes, ino) {
            Some(i) => poke_block(&mut self.parts.writes[i], block, offset, bytes),
            None => false,
        }
    }

    fn poke_fresh(&mut self, page: u32, offset: u32, bytes: &[u8]) -> bool
        ensures poked { with_fresh (poked_fresh offset bytes.now) page self.old.has ≡ (if result then Some self.new.has else None) }
        ensures kept { IsFalse result → self.new.has ≡ self.old.has }
    {
        match place_of(&self.parts.pages, page) {
            Some(i) => poke_fresh(&mut self.parts.pages[i], offset, bytes),
            None => false,
        }
    }

    /// The bytes of this length at a spot, from an offset on. `None` exactly where there is no such
    /// thing, or they leave it.
    pub(crate) fn peek(&self, at: Spot, offset: u32, len: u32) -> Option<&[u8]>
        ensures { option_copied result ≡ peeked self.now.has at offset len }
    {
        peek_bytes(self.shown(at)?, offset, len)
    }

    /// All bytes at a spot.
    fn shown(&self, at: Spot) -> Option<&[u8]>
        ensures { option_copied result ≡ bytes_at self.now.has at }
    {
        match at {
            Spot::Body(ino) => shown_body(&self.parts.writes, &self.reads, &self.parts.holds, ino),
            Spot::Index(ino, page) => shown_index(&self.parts.writes, &self.reads, ino, page),
            Spot::Block(ino, block) => shown_block(&self.parts.writes, &self.reads, ino, block),
            Spot::Fresh(page) => shown_fresh(&self.parts.pages, page),
        }
    }

    /// Takes the first read lease on this file out. `None` exactly where there is none.
    pub(crate) fn take_read(&mut self, ino: u32) -> Option<ReadLease>
        ensures lease { result ≡ read_on self.old.has ino }
        ensures rest { self.new.has ≡ without_read self.old.has ino }
    {
        take_one(&mut self.reads, ino)
    }

    /// Takes the last read lease out. `None` exactly where there is none.
    pub(crate) fn last_read(&mut self) -> Option<ReadLease>
        ensures lease { IfSome result (λ r. self.old.has.reads ≡ self.new.has.reads ++ r ∷ []) }
        ensures none { IsNone result → self.old.has.reads ≡ [] }
        ensures rest { self.new.has ≡ with_reads self.old.has self.new.has.reads }
        ensures kept { IsNone result → self.new.has ≡ self.old.has }
    {
        self.reads.pop()
    }

    /// Whether all that is named is there, each named once: a write lease or a hold on each file, and
    /// the allotted pages and inode numbers.
    pub(crate) fn has_all_of(&self, inos: &[u32], pages: &[u32], inodes: &[u32]) -> bool
        ensures { result ≡ has_all_of self.now.has inos.now pages.now inodes.now }
    {
        if !have_either(&self.parts.writes, &self.parts.holds, inos) {
            return false;
        }
        if !have_all(&self.parts.pages, pages) {
            return false;
        }
        have_all(&self.parts.inodes, inodes)
    }

    /// Takes all that is named out, as a bundle of just these in the order in which they are named.
    /// It has its places, and may be put back ([`put_back`](Self::put_back)).
    ///
    /// After [`NoMemory`] nothing has changed.
    pub(crate) fn take(
        &mut self,
        alloc: Global,
        inos: &[u32],
        pages: &[u32],
        inodes: &[u32],
    ) -> Result<Bundle, NoMemory>
        requires { IsTrue (has_all_of self.old.has inos.now pages.now inodes.now) }
        ensures parcel { IfOk result (λ b. parcel_of b ≡ parcel_named self.old.has inos.now pages.now inodes.now) }
        ensures place { IfOk result (λ b. HasPlaceFor self.new (parcel_of b)) }
        ensures rest { OnOk result (self.new.has ≡ rest_of self.old.has inos.now pages.now inodes.now) }
        ensures kept { OnErr result (self.new.has ≡ self.old.has) }
    {
        let mut parts = room_for(alloc, inos.len(), pages.len(), inodes.len())?;
        move_all(&mut self.parts.writes, inos, &mut parts.writes);
        move_all(&mut self.parts.holds, inos, &mut parts.holds);
        move_all(&mut self.parts.pages, pages, &mut parts.pages);
        move_all(&mut self.parts.inodes, inodes, &mut parts.inodes);
        Ok(Bundle::of(parts))
    }

    /// Puts back what [`take`](Self::take) took, each kind behind what is there.
    pub(crate) fn put_back(&mut self, bundle: Bundle)
        requires { HasPlaceFor self.old (parcel_of bundle) }
        ensures { self.new.has ≡ with_parcel self.old.has (parcel_of bundle) }
    {
        let BundleParts {
            writes,
            holds,
            pages,
            inodes,
        } = bundle.parts();
        append_all(writes, &mut self.parts.writes);
        append_all(holds, &mut self.parts.holds);
        append_all(pages, &mut self.parts.pages);
        append_all(inodes, &mut self.parts.inodes);
    }

    /// Whether there is nothing but read leases.
    pub(crate) fn has_nothing(&self) -> bool
        ensures { result ≡ has_nothing self.now.has }
    {
        self.parts.writes.is_empty()
            && self.parts.holds.is_empty()
            && self.parts.pages.is_empty()
            && self.parts.inodes.is_empty()
    }

    /// All of it as one bundle, in the order in which it came, where there is no read lease. It takes
    /// no memory.
    pub(crate) fn into_bundle(self) -> Bundle
        requires { self.has.reads ≡ [] }
        ensures { parcel_of result ≡ whole_parcel self.has }
    {
        let Things { parts, reads } = self;
        reads.destroy_empty();
        Bundle::of(parts)
    }

    /// What a bundle has. It takes no memory.
    pub(crate) fn of_bundle(alloc: Global, bundle: Bundle) -> Things
        ensures { result.has ≡ record { writes = bundle.writes; reads = []; holds = bundle.holds; pages = bundle.pages; inodes = bundle.inodes } }
    {
        Things {
            parts: bundle.parts(),
            reads: Vec::new(alloc),
        }
    }

    /// Lets all of it go. It stays out for good.
    pub(crate) fn discard(self) {
        let Things { parts, reads } = self;
        Bundle::of(parts).discard();
        let_go_all(reads);
    }
}

/// Empty lists with room for the numbers of so many pages and inodes.
fn numbers_for(alloc: Global, pages: usize, inodes: usize) -> Result<Numbers, NoMemory>
    ensures { IfOk result (λ numbers. HasNumbersFor numbers pages inodes) }
{
    let mut numbers = Numbers {
        pages: Vec::new(alloc),
        inodes: Vec::new(alloc),
    };
    numbers.pages.reserve(pages)?;
    numbers.inodes.reserve(inodes)?;
    Ok(numbers)
}

/// The parts of a bundle that has nothing, with room for so many leases and as many holds, pages and
/// inode numbers.
fn room_for(
    alloc: Global,
    files: usize,
    pages: usize,
    inodes: usize,
) -> Result<BundleParts, NoMemory>
    ensures { IfOk result (λ parts. HasRoomFor parts files pages inodes) }
{
    let mut parts = Bundle::new(alloc).parts();
    if parts.writes.reserve(files).is_err()
        || parts.holds.reserve(files).is_err()
        || parts.pages.reserve(pages).is_err()
        || parts.inodes.reserve(inodes).is_err()
    {
        Bundle::of(parts).discard();
        return Err(NoMemory);
    }
    Ok(parts)
}
