//! What a controller keeps of its image, and the grants that are open.

ghost use Rattle.std.specs.Prelude.{◌≡◌, ◌↔◌, IfOk, IsTrue, None, length, min};
ghost use Rattle.trio_desk.specs.Contents.{AreWithinLimits};
ghost use Rattle.trio_state.specs.Allotments.{free_numbers, free_pages};
ghost use Rattle.trio_state.specs.Moves.{begun_by};
ghost use Rattle.trio_state.specs.State.{creds_of};
ghost use Rattle.trio_laws.specs.session.Lent.{sizes_of};
ghost use Rattle.trio_ctl.specs.Ctl.{AreAsTold, IsLibrary, superblock_for};
ghost use Rattle.trio_ctl.specs.Kits.{AreSpare, IsMore};

use crate::spares::Spares;
use std::alloc::Global;
use std::marker::Model;
use trio_commit::Store;
use trio_entries::Draft;
use trio_grants::GrantTable;
use trio_layout::{CoreRange, Superblock};
use trio_open::history::History;
use trio_open::open::OpenFile;
use trio_page::NoMemory;
use trio_rights::{Creds, LibNo};
use trio_tables::Shadow;

/// What the controller keeps of one image, the grants that are open, and the credentials of its
/// libraries. Its calls are the controller's steps; it keeps no log of them, and is handed the number of
/// the next entry.
///
/// Contracts see a `Registered` of `specs/Ctl.antt`: the `State` of which the steps speak, which is
/// always kept, the outline of each library's release that has begun and not ended, how often a page at
/// home was looked at, and how many entries are promised.
#[derive(Drop)]
pub(crate) struct Registry {
    pub(crate) alloc: Global,
    pub(crate) store: Store,
    pub(crate) first_core: u32,
    pub(crate) grants: GrantTable,
    // the open grants, in the order of the entries that opened them
    pub(crate) files: Vec<OpenFile>,
    // library n has the n-th, counted from 1
    pub(crate) libs: Vec<Creds>,
    // of library n, counted from 1, the n-th has what the entry of its release wants that has begun and
    // not ended
    pub(crate) begun: Vec<Option<Draft>>,
    pub(crate) history: History,
}

impl Model for Registry {
    ghost use Rattle.trio_commit.specs.Store.{state_of};
    ghost use Rattle.trio_open.specs.Open.{grants_in};
    ghost use Rattle.trio_ctl.specs.Ctl.{Registered, IsControlled};

    ghost Value = { Registered };

    ghost view = { λ c. record {
      state = state_of c.store c.first_core (grants_in c.files.items) c.libs.items c.history.made;
      begun = c.begun.items;
      looked = c.store.home.looked;
      promised = c.history.promised;
    } };

    ghost invariant = { λ c. IsControlled c.store c.first_core c.grants c.files.items c.libs.items c.history c.begun.items };
}

impl Registry {
    /// How often a page at home was looked at, as home itself counts. At 2^64 - 1 it may have been
    /// more.
    pub fn looked(&self) -> u64
        ensures { result ≡ self.now.looked }
    {
        self.store.home.looked()
    }

    /// Each open hold told the directory that the row of its file still names. Nothing is done.
    pub fn is_as_told(&self)
        ensures { AreAsTold self.now.state }
    {
        let _ = &self.alloc;
    }

    /// The sizes of the image are within the limits of every image. Nothing is done.
    pub fn is_within_limits(&self)
        ensures { AreWithinLimits (sizes_of self.now.state) }
    {
        let _ = &self.alloc;
    }

    /// What is to be kept for releases to come, so that there is memory for so many of them, each of
    /// which needs at most so many bytes, and for as many as before.
    pub(crate) fn more_kits(
        &self,
        spares: &Spares,
        count: u64,
        bytes: u64,
    ) -> Result<Spares, NoMemory>
        ensures spare { IfOk result (AreSpare (sizes_of self.now.state)) }
        ensures more { IfOk result (IsMore count bytes spares.now) }
    {
        self.is_within_limits();
        spares.more(
            self.alloc,
            self.range(),
            self.store.rows.inodes(),
            count as usize,
            bytes,
        )
    }

    /// The allocator.
    pub(crate) fn alloc(&self) -> Global {
        self.alloc
    }

    /// How many entries are promised: one for the end of each open read grant, and one for that of each
    /// release that has begun.
    pub(crate) fn promised(&self) -> u64
        ensures { result ≡ self.now.promised }
    {
        self.history.promised()
    }

    /// Whether no release of a library has begun and not ended. Takes no memory.
    pub(crate) fn is_idle(&self, lib: LibNo) -> bool
        ensures { IsTrue result ↔ (begun_by (record { state = self.now.state; begun = self.now.begun }) lib.0 ≡ None) }
    {
        let Some(place) = lib.0.checked_sub(1) else {
            return true;
        };
        !matches!(self.begun.get(place as usize), Some(Some(_)))
    }

    /// The rows of the image.
    pub(crate) fn rows(&self) -> &Shadow
        ensures { result.now ≡ self.now.state.home.rows }
    {
        &self.store.rows
    }

    /// How many pages are free, or so many where there are more.
    pub(crate) fn free_pages_to(&self, most: u32) -> u32
        ensures { result ≡ min most (length (free_pages self.now.state)) }
    {
        self.store
            .allotments
            .free_pages_to(&self.store.owners, most)
    }

    /// How many inode numbers are free, or so many where there are more.
    pub(crate) fn free_inodes_to(&self, most: u32) -> u32
        ensures { result ≡ min most (length (free_numbers self.now.state)) }
    {
        self.store.allotments.free_inodes_to(&self.store.rows, most)
    }

    // the credentials of a library
    pub(crate) fn creds(&self, lib: LibNo) -> Creds
        requires { IsLibrary lib self.now.state }
        ensures { result ≡ creds_of self.now.state lib.0 }
    {
        self.libs[lib.0 as usize - 1]
    }

    // which pages are core pages
    pub(crate) fn range(&self) -> CoreRange
        ensures { result ≡ self.now.state.home.core.range }
    {
        CoreRange {
            first: self.first_core,
            end: self.store.home.len() as u32,
        }
    }

    // the superblock of the image, with the body of the root as it stands
    pub(crate) fn superblock(&self) -> Superblock
        ensures { result ≡ superblock_for self.now.state.home.core }
    {
        let inodes = self.store.rows.inodes();
        let root = self.store.root;
        Superblock {
            pages: self.store.home.len() as u32,
            inodes,
            first_owner: 1 + self.store.rows.table_pages(),
            first_core: self.first_core,
            root,
        }
    }
}
