//! Memory that is kept for releases to come.

ghost use Rattle.std.specs.Prelude.{◌≡◌, ◌≤◌, ◌+◌, ℕ, [], IfOk, IsOk, OnErr, vec_capacity, vec_len};
ghost use Rattle.trio_lease.specs.Views.{bundle_in};
ghost use Rattle.trio_desk.specs.Contents.{AreWithinLimits, Sizes};
ghost use Rattle.trio_ctl.specs.Kits.{AreSpare, HasKit, HasSpare, IsMore, Serves, TakesOne};
ghost use Rattle.trio_ctl.specs.Room.{room_in};

use crate::kit::{Kit, core_pages};
use std::alloc::Global;
use trio_case::BundleSize;
use trio_layout::CoreRange;
use trio_lease::Bundle;
use trio_page::NoMemory;

/// Memory for releases that find none of their own.
#[derive(Drop)]
pub(crate) struct Spares {
    /// Each serves every release that needs at most the bytes.
    pub kits: Vec<Kit>,
    pub bytes: u64,
}

impl Spares {
    /// Nothing is kept. It takes no memory.
    pub fn none(alloc: Global) -> Spares
        ensures kits { result.kits.items ≡ [] }
        ensures bytes { result.bytes ≡ 0 }
    {
        Spares {
            kits: Vec::new(alloc),
            bytes: 0,
        }
    }

    /// Memory for the release of this bundle, which needs so many bytes: of just its size, or, where there
    /// is none, what is kept.
    pub fn kit_for(
        &mut self,
        alloc: Global,
        bundle: &Bundle,
        range: CoreRange,
        inodes: u32,
        room: u64,
    ) -> Result<Kit, NoMemory>
        requires spare { AreSpare (record { range = range; inodes = inodes }) self.old }
        requires room { room ≡ room_in (record { range = range; inodes = inodes }) (bundle_in bundle.now) }
        ensures kit { IfOk result (HasKit (record { range = range; inodes = inodes }) bundle.now) }
        ensures sure { HasSpare room self.old → IsOk result }
        ensures takes { TakesOne (record { range = range; inodes = inodes }) self.old self.new }
        ensures unspent { OnErr result (vec_len self.old.kits ≤ vec_len self.new.kits) }
    {
        match Kit::of(alloc, bundle, range, inodes) {
            Ok(kit) => Ok(kit),
            Err(NoMemory) => self.take(room),
        }
    }

    // what is kept for a release that needs so many bytes
    fn take(&mut self, room: u64) -> Result<Kit, NoMemory>
        ensures serves { (z : Sizes) → AreSpare z self.old → IfOk result (Serves z room) }
        ensures sure { HasSpare room self.old → IsOk result }
        ensures takes { (z : Sizes) → AreSpare z self.old → TakesOne z self.old self.new }
        ensures unspent { OnErr result (vec_len self.old.kits ≤ vec_len self.new.kits) }
    {
        if room > self.bytes {
            return Err(NoMemory);
        }
        self.kits.pop().ok_or(NoMemory)
    }

    /// What is to be kept so that there is memory for so many releases, each of which needs at most so many
    /// bytes, and for as many as before.
    pub fn more(
        &self,
        alloc: Global,
        range: CoreRange,
        inodes: u32,
        count: usize,
        bytes: u64,
    ) -> Result<Spares, NoMemory>
        requires { AreWithinLimits (record { range = range; inodes = inodes }) }
        ensures spare { IfOk result (AreSpare (record { range = range; inodes = inodes })) }
        ensures more { IfOk result (IsMore count bytes self.now) }
    {
        let stands = self.kits.len();
        let wanted = if count > stands { count } else { stands };
        let (each, kept) = if bytes > self.bytes {
            (bytes, 0)
        } else {
            (self.bytes, stands)
        };
        let size = BundleSize::within(each, range.end + inodes);
        let core = core_pages(range);
        let mut kits = Vec::with_capacity(alloc, wanted)?;
        for _ in kept..wanted {
            kits.push(Kit::with(alloc, size, core, inodes as usize + 1)?)?;
        }
        Ok(Spares { kits, bytes: each })
    }

    /// Keeps it beside what serves as many bytes, or else in its stead. It takes no memory.
    pub fn keep(&mut self, more: Spares)
        requires { more.bytes ≡ self.old.bytes → vec_len more.kits + vec_len self.old.kits ≤ vec_capacity more.kits }
        ensures spare { (z : Sizes) → AreSpare z self.old → AreSpare z more → AreSpare z self.new }
        ensures enough { (count bytes : ℕ) → IsMore count bytes self.old more → count ≤ vec_len self.new.kits }
        ensures grows { (count bytes : ℕ) → IsMore count bytes self.old more → vec_len self.old.kits ≤ vec_len self.new.kits }
        ensures bytes { self.new.bytes ≡ more.bytes }
    {
        let Spares { mut kits, bytes } = more;
        if bytes == self.bytes {
            while let Some(kit) = self.kits.pop() {
                kits.push_reserved(kit);
            }
        }
        self.kits = kits;
        self.bytes = bytes;
    }
}
