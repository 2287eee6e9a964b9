//! The memory of what a release tells, and the outline of its bundle.

ghost use Rattle.std.specs.Prelude.{◌≡◌, ◌+◌, ◌*◌, ◌↔◌, IfOk, IsTrue};
ghost use Rattle.trio_lease.specs.Views.{bundle_in};
ghost use Rattle.trio_case.specs.Memory.{size_of};
ghost use Rattle.trio_state.specs.Moves.{outline_of};
ghost use Rattle.trio_entries.specs.Drafts.{HasDraftMemory, HasToldPlaces, IsDraftMemory, told_count};

use crate::finder::{FINDER_BYTES, Finder};
use crate::handed::{COPY_BYTES, HandedRoom};
use crate::outline::{OUTLINE_BYTES, Outline, OutlineMemory};
use std::alloc::Global;
use std::marker::Model;
use trio_case::{BundleSize, BytesEach, Case};
use trio_lease::Bundle;
use trio_nodes::{PlacedBlock, RawFile};
use trio_page::NoMemory;

/// How many bytes the memory of an entry takes at most: for the copy of a bundle and its outline, for what
/// is told of 16 files and a block to each page, and of a file to each value.
pub const DRAFT_BYTES: BytesEach = BytesEach {
    page: COPY_BYTES.page
        + OUTLINE_BYTES.page
        + FINDER_BYTES.page
        + 16 * size_of::<RawFile>()
        + size_of::<PlacedBlock>(),
    value: COPY_BYTES.value + OUTLINE_BYTES.value + FINDER_BYTES.value + size_of::<RawFile>(),
};

/// All memory of the entry of a release, by how much its bundle may have. It can be made before there
/// is a bundle.
#[derive(Drop)]
pub struct DraftMemory {
    outline: OutlineMemory,
    told: ToldMemory,
}

impl DraftMemory {
    /// Memory for the entry of the release of any bundle of at most this size, whatever bytes its pages
    /// have.
    pub fn with(alloc: Global, size: BundleSize) -> Result<DraftMemory, NoMemory>
        ensures { IfOk result (IsDraftMemory size) }
    {
        Ok(DraftMemory {
            outline: OutlineMemory::with(alloc, size)?,
            told: ToldMemory::with(alloc, size)?,
        })
    }
}

/// The memory of what is told.
#[derive(Drop)]
pub(crate) struct ToldMemory {
    pub handed: HandedRoom,
    pub files: Vec<RawFile>,
    pub blocks: Vec<PlacedBlock>,
    pub finder: Finder,
}

impl ToldMemory {
    /// Memory for what the release of a bundle of this size tells.
    pub fn with(alloc: Global, size: BundleSize) -> Result<ToldMemory, NoMemory>
        ensures { IfOk result (HasToldPlaces size) }
    {
        Ok(ToldMemory {
            handed: HandedRoom::with(alloc, size)?,
            files: Vec::with_capacity(alloc, told_count(size)?)?,
            blocks: Vec::with_capacity(alloc, size.pages)?,
            finder: Finder::with(alloc, size)?,
        })
    }
}

/// Of how many files the release of a bundle of this size tells at most: of those that it lists, of the
/// written ones and of the held ones.
fn told_count(size: BundleSize) -> Result<usize, NoMemory>
    ensures { IfOk result (λ n. n ≡ told_count size) }
{
    size.entries()?.checked_add(size.values).ok_or(NoMemory)
}

/// The outline of the bundle of a release that has begun, with all memory of the entry of the release.
///
/// Contracts see the outline: the written files with the numbers of their pages, the holds, the
/// allotted pages and the inode numbers. The pages may get other bytes while the draft is kept.
#[derive(Drop)]
pub struct Draft {
    outline: Outline,
    told: ToldMemory,
}

impl Model for Draft {
    ghost use Rattle.trio_state.specs.Moves.{Outline};
    ghost use Rattle.trio_entries.specs.Drafts.{outline_size, HasToldPlaces};

    ghost Value = { Outline };

    ghost view = { λ d. d.outline };

    ghost invariant = { λ d. HasToldPlaces (outline_size d.outline) d.told };
}

impl Draft {
    /// The draft for the release of a bundle. It takes no memory.
    pub fn begun(memory: DraftMemory, bundle: &Bundle) -> Draft
        requires { HasDraftMemory bundle.now memory }
        ensures { result ≡ outline_of (bundle_in bundle.now) }
    {
        let DraftMemory { outline, told } = memory;
        Draft {
            outline: Outline::of(outline, bundle),
            told,
        }
    }

    /// Whether it was begun for a bundle of just these leases, holds, pages and inode numbers. It takes
    /// no memory, and goes over the bundle once.
    pub fn is_of(&self, bundle: &Bundle) -> bool
        ensures { IsTrue result ↔ (self.now ≡ outline_of (bundle_in bundle.now)) }
    {
        self.outline.is_of(bundle)
    }

    /// Its memory, which serves the case of its bundle.
    pub(crate) fn into_memory(self, case: &Case) -> ToldMemory
        requires { self ≡ outline_of (bundle_in case.now.bundle) }
        ensures { HasToldPlaces (size_of case.now.bundle) result }
    {
        let _case = case;
        let Draft { outline: _, told } = self;
        told
    }
}
