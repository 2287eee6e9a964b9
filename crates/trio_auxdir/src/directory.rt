//! Hashed directories.

ghost use Rattle.std.specs.Prelude.{◌≡◌, ℕ, List, if◌then◌else◌, ◌+◌, ◌<◌, ◌≤◌, ◌++◌, [], None, Some, IfSome, IsOk, IsSome, IsTrue, OnErr, OnOk, length, replicate, slice_get, slice_set};
ghost use Rattle.std.specs.List.{filter};
ghost use Rattle.std.specs.Option.{is_some};
ghost use Rattle.std.specs.Str.{bytes_eq};
ghost use Rattle.trio_page.specs.Home.{raised};
ghost use Rattle.trio_auxdir.specs.Directory.{Directory, HasRoom, NoRoomLost};
ghost use Rattle.trio_auxdir.specs.Slots.{is_directory_page, slots_on, NamesDiffer};

use crate::finds::Finds;
use crate::index::{add_empties, add_slots, first_from};
use crate::order::{clear_name, number_of, put_name};
use crate::place::Place;
use std::alloc::Global;
use std::marker::Model;
use trio_names::Name;
use trio_page::{NoMemory, Page};

// slots are numbered and counted by 32 bits, 16 to a block
const SLOT_LIMIT: usize = 0xFFFF_FFF0;

/// The index of one directory: where each name stands, and the first empty slot.
///
/// It is told of the directory's blocks and edits. Contracts see the slots of the blocks told of,
/// in the order of block and slot, each empty or with a name; and the room (`Directory` of
/// `specs/Directory.antt`).
///
/// It serves as a table of hashes would, and keeps the names' byte order instead. Whoever writes a
/// directory chooses its names, and so could make hashes collide; but a look-up in order takes at
/// most 15 comparisons among 16,384 names, whatever they are. An edit takes a look-up or two, and
/// moves 4 bytes for each name behind it in that order. Each name is kept once.
#[derive(Drop)]
pub struct HashedDir {
    inodes: u32,
    slots: Vec<Option<Name>>,
    // the numbers of the slots with names, in the byte order of the names
    order: Vec<u32>,
    // the number of the first empty slot, or how many slots there are
    first: usize,
}

impl Model for HashedDir {
    ghost use Rattle.std.specs.Prelude.{min, vec_capacity, ◌^◌, ◌-◌};
    ghost use Rattle.trio_auxdir.specs.Directory.{Directory};
    ghost use Rattle.trio_auxdir.specs.inner.Index.{IsKept, spare};

    ghost Value = { Directory };

    ghost view = { λ d. record {
      inodes = d.inodes;
      slots = d.slots.items;
      room = record { slots = min (vec_capacity d.slots) (2 ^ 32 - 16); names = spare d.order };
    } };

    ghost invariant = { λ d. IsKept d.slots.items d.order.items d.first };
}

impl HashedDir {
    ghost use Rattle.trio_auxdir.specs.Places.{first_empty, place_of, slot_number, with_slot};

    /// The index of a directory without blocks, in an image of so many inode numbers. Takes no
    /// memory.
    pub fn new(alloc: Global, inodes: u32) -> HashedDir
        ensures inodes { result.inodes ≡ inodes }
        ensures slots { result.slots ≡ [] }
    {
        HashedDir {
            inodes,
            slots: Vec::new(alloc),
            order: Vec::new(alloc),
            first: 0,
        }
    }

    /// Tells of one further block, with its entries: each of its slots is in the grammar, and its
    /// names differ from each other and from those that are there. Where there is room for 16 slots
    /// and as many names already, the answer is `Ok`. With [`NoMemory`] nothing was told.
    pub fn scan(&mut self, block: &Page) -> Result<(), NoMemory>
        requires read { IsTrue (is_directory_page self.old.inodes block.now) }
        requires differ { NamesDiffer (self.old.slots ++ slots_on self.old.inodes block.now) }
        ensures told { OnOk result (self.new ≡ record self.old { slots = self.old.slots ++ slots_on self.old.inodes block.now; room = self.new.room }) }
        ensures kept { OnErr result (self.new ≡ record self.old { room = self.new.room }) }
        ensures succeeds { length self.old.slots + 16 ≤ self.old.room.slots → 16 ≤ self.old.room.names → IsOk result }
    {
        if self.slots.len() > SLOT_LIMIT - 16 {
            return Err(NoMemory);
        }
        self.slots.reserve(16)?;
        self.order.reserve(16)?;
        add_slots(&mut self.slots, &mut self.order, block, self.inodes);
        self.first = first_from(&self.slots, self.first);
        Ok(())
    }

    /// Where a name stands. `None` exactly where it isn't there. The look-up is counted.
    pub fn find(&self, name: &Name, finds: &mut Finds) -> Option<Place>
        ensures place { result ≡ place_of name.now self.now.slots }
        ensures slot { IfSome result (λ place. place.slot < 16) }
        ensures there { IfSome result (λ place. slice_get self.now.slots (slot_number place) ≡ Some (Some name.now)) }
        ensures counted { finds.new ≡ raised finds.old }
    {
        finds.raise();
        let number = number_of(&self.slots, &self.order, name)?;
        Some(Place::of(number as usize))
    }

    /// The first empty slot, in the order of block and slot. `None` exactly where no slot of a
    /// block told of is empty.
    pub fn first_empty(&self) -> Option<Place>
        ensures first { result ≡ first_empty self.now.slots }
        ensures slot { IfSome result (λ place. place.slot < 16) }
        ensures empty { IfSome result (λ place. slice_get self.now.slots (slot_number place) ≡ Some None) }
    {
        if self.first < self.slots.len() {
            Some(Place::of(self.first))
        } else {
            None
        }
    }

    /// How many names there are. It takes the same time whatever the directory.
    pub fn len(&self) -> u32
        ensures { result ≡ length (filter is_some self.now.slots) }
    {
        self.order.len() as u32
    }

    /// Makes room: after `Ok` one [`grow`](Self::grow) and one [`add`](Self::add) or
    /// [`rename`](Self::rename) take no memory. Where there is room already, the answer is `Ok`.
    /// With [`NoMemory`] nothing changed but that there may be more room.
    pub fn reserve(&mut self) -> Result<(), NoMemory>
        ensures kept { self.new ≡ record self.old { room = self.new.room } }
        ensures room { OnOk result (HasRoom self.new) }
        ensures grows { NoRoomLost self.old.room self.new.room }
        ensures succeeds { HasRoom self.old → IsOk result }
    {
        if self.slots.len() > SLOT_LIMIT - 16 {
            return Err(NoMemory);
        }
        self.slots.reserve(16)?;
        self.order.reserve(1)?;
        Ok(())
    }

    /// Tells of one further block, of empty slots. Takes no memory: a
    /// [`reserve`](Self::reserve) made its room.
    pub fn grow(&mut self)
        requires room { length self.old.slots + 16 ≤ self.old.room.slots }
        ensures grown { self.new ≡ record self.old { slots = self.old.slots ++ replicate 16 None } }
        ensures found { (name : List ℕ) → place_of name self.new.slots ≡ place_of name self.old.slots }
    {
        add_empties(&mut self.slots);
    }

    /// Tells that a name which isn't there was put into an empty slot of a block told of. Takes no
    /// memory: a [`reserve`](Self::reserve) made its room.
    pub fn add(&mut self, name: Name, place: Place)
        requires new { place_of name self.old.slots ≡ None }
        requires slot { place.slot < 16 }
        requires empty { slice_get self.old.slots (slot_number place) ≡ Some None }
        requires room { 0 < self.old.room.names }
        ensures added { self.new ≡ record self.old {
          slots = slice_set self.old.slots (slot_number place) (Some name);
          room = record self.old.room { names = self.new.room.names };
        } }
        ensures names { self.old.room.names ≤ self.new.room.names + 1 }
        ensures found { (other : List ℕ) → place_of other self.new.slots ≡
            (if bytes_eq name other then Some place else place_of other self.old.slots) }
    {
        let number = place.number();
        put_name(&mut self.slots, &mut self.order, number, name);
        if number == self.first {
            self.first = first_from(&self.slots, number + 1);
        }
    }

    /// Tells that the slot of a name that is there was emptied. Takes no memory.
    pub fn remove(&mut self, name: &Name)
        requires there { IsSome (place_of name.now self.old.slots) }
        ensures removed { self.new ≡ record self.old {
          slots = with_slot (place_of name.now self.old.slots) None self.old.slots;
          room = record self.old.room { names = self.new.room.names };
        } }
        ensures names { self.old.room.names ≤ self.new.room.names }
        ensures found { (other : List ℕ) → place_of other self.new.slots ≡
            (if bytes_eq name.now other then None else place_of other self.old.slots) }
    {
        let number = clear_name(&mut self.slots, &mut self.order, name);
        self.first = self.first.min(number);
    }

    /// Tells that the slot of the name `from`, which is there, got the name `to`, which isn't. Takes
    /// no memory: a [`reserve`](Self::reserve) made room.
    pub fn rename(&mut self, from: &Name, to: Name)
        requires there { IsSome (place_of from.now self.old.slots) }
        requires new { place_of to self.old.slots ≡ None }
        requires room { 0 < self.old.room.names }
        ensures renamed { self.new ≡ record self.old {
          slots = with_slot (place_of from.now self.old.slots) (Some to) self.old.slots;
          room = record self.old.room { names = self.new.room.names };
        } }
        ensures names { self.old.room.names ≤ self.new.room.names + 1 }
        ensures found { (other : List ℕ) → place_of other self.new.slots ≡
            (if bytes_eq to other then place_of from.now self.old.slots else (if bytes_eq from.now other then None else place_of other self.old.slots)) }
    {
        let number = clear_name(&mut self.slots, &mut self.order, from);
        put_name(&mut self.slots, &mut self.order, number, to);
    }
}
