//! Bodies that are picked in place of the bytes in slots.

ghost use Rattle.std.specs.Prelude.{◌≡◌, ◌+◌, ◌<◌, ◌==◌, ◌&&◌, [], IfOk, length, replicate, slice_set};
ghost use Rattle.trio_survey.specs.Picks.{pick_of};

use crate::blocks::DirEntry;
use std::alloc::Global;
use std::marker::Model;
use trio_page::NoMemory;

/// A body that the entry at one place has in place of the bytes in its slot.
#[derive(Clone, Copy)]
pub struct Picked {
    /// The inode number of the directory that lists the entry.
    pub parent: u32,
    /// The directory page.
    pub page: u32,
    /// The slot on that page, counted from 0.
    pub slot: u16,
    pub body: [u8; 64],
}

/// The bodies that are picked, at most one for an inode number.
///
/// Contracts see what is picked for each number, from 0 on. Every number past the end has nothing
/// picked.
#[derive(Drop)]
pub struct Picks {
    by_number: Vec<Option<Picked>>,
}

impl Model for Picks {
    ghost use Rattle.std.specs.Prelude.{List, Option};
    ghost use Rattle.trio_survey.specs.declared.picks.Picked.{Picked};

    ghost Value = { List (Option Picked) };

    ghost view = { λ p. p.by_number.items };
}

impl Picks {
    /// Nothing picked, with no room for a pick. Takes no memory.
    pub fn none(alloc: Global) -> Picks
        ensures { result ≡ [] }
    {
        Picks {
            by_number: Vec::new(alloc),
        }
    }

    /// Nothing picked, with room for a body of each inode number up to `inodes`.
    pub fn new(alloc: Global, inodes: u32) -> Result<Picks, NoMemory>
        ensures { IfOk result (λ p. p ≡ replicate (inodes + 1) None) }
    {
        let by_number = vec![in alloc; None; inodes as usize + 1]?;
        Ok(Picks { by_number })
    }

    /// Picks the body that `ino` has where the directory `parent` lists it in this slot of this
    /// page. A body that was picked for `ino` before goes. Takes no memory.
    pub fn set(&mut self, ino: u32, parent: u32, page: u32, slot: u16, body: &[u8; 64])
        requires { ino < length self.old }
        ensures { self.new ≡ slice_set self.old ino (Some (record { parent = parent; page = page; slot = slot; body = body.now })) }
    {
        self.by_number[ino as usize] = Some(Picked {
            parent,
            page,
            slot,
            body: *body,
        });
    }

    /// The body of an entry of this directory.
    pub(crate) fn body(&self, directory: u32, listed: &DirEntry) -> [u8; 64]
        ensures { result ≡ pick_of self.now directory listed.now.page listed.now.slot listed.now.ino listed.now.body }
    {
        match self.by_number.get(listed.ino as usize) {
            Some(Some(picked)) if picked.is_at(directory, listed) => picked.body,
            _ => listed.body.bytes(),
        }
    }
}

impl Picked {
    fn is_at(&self, directory: u32, listed: &DirEntry) -> bool
        ensures { result ≡ (self.now.parent == directory && self.now.page == listed.now.page && self.now.slot == listed.now.slot) }
    {
        self.parent == directory && self.page == listed.page && self.slot == listed.slot
    }
}
