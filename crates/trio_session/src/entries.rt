//! Edits of the slots of directories.

ghost use Rattle.std.specs.Prelude.{◌≡◌, ◌==◌, ◌+◌, ◌<◌, ◌≤◌, IfSome, IsSome, IsTrue, None, Some, length, slice_get, vec_capacity};
ghost use Rattle.std.specs.List.{position};
ghost use Rattle.trio_auxdir.specs.Places.{slot_number};
ghost use Rattle.trio_lists.specs.Lists.{In};
ghost use Rattle.trio_layout.specs.Slot.{entry_fits};
ghost use Rattle.trio_session.specs.Layout.{cleared as cleared_slot, filled as filled_slot, page_in};
ghost use Rattle.trio_session.specs.Seen.{IsOpenDir, LeavesPlace, LeavesRoom, MayBeMade, block_number, body_in, chain_in, clear, cleared_file, empty_shown, every_number, fill, is_allotted, place_shown, retitle, room_in, slots_shown, with_made};
ghost use Rattle.trio_session.specs.inner.Found.{IsBlank, RemovesMade, TakesLaid};
ghost use Rattle.trio_session.specs.inner.Made.{IsMadeAt};
ghost use Rattle.trio_session.specs.inner.Places.{IsAt, number_at, room_laid};

use crate::dir_slots::{clear_slot, fill_slot, retitle_slot};
use crate::indexes::{index_on, index_place};
use crate::laid::{Laid, PagePlace};
use crate::made::{Made, made_of};
use crate::session::Session;
use std::alloc::Global;
use std::mem::replace;
use trio_auxdir::{Finds, Place};
use trio_layout::EntryPart;
use trio_names::Name;
use trio_rights::Kind;

impl Session {
    /// The first empty slot of a directory gets an entry, with the body of its file. An allotted number
    /// is then a file that the session made, a new one with the room that is kept for the next; a held file
    /// is moved. It takes no memory: a [`reserve`](Self::reserve) of the directory and a
    /// [`reserve_made`](Self::reserve_made) made its room.
    pub fn fill(&mut self, dir: u32, name: &Name, ino: u32, kind: Kind, body: &[u8; 64])
        requires open { IsOpenDir self.old dir }
        requires new { place_shown self.old dir name.now ≡ None }
        requires empty { IsSome (empty_shown self.old dir) }
        requires number { 0 < ino }
        requires made { IsTrue (is_allotted self.old ino) → MayBeMade self.old ino kind body.now }
        requires room { In dir self.old.room.names }
        ensures kept { self.new ≡ record (fill dir name.now ino kind body.now self.old) { room = self.new.room } }
        ensures room { LeavesRoom dir self.old self.new }
        ensures next { IsTrue (is_allotted self.old ino) → cleared_file self.old ino ≡ None → room_in self.new ino ≡ self.old.room.next_blocks }
        ensures body { IsTrue (is_allotted self.old ino) → body_in self.new ino ≡ body.now }
    {
        let place = self.first_empty(dir).unwrap();
        let page = self.slot_page(dir, place);
        let entry = EntryPart {
            ino,
            kind,
            name: *name,
        };
        self.put_entry(dir, place, &entry, body);
        if self.stock.has_ino(ino) {
            self.add_made(ino, kind, page, usize::from(place.slot));
        }
    }

    /// The slot of a name in a directory is cleared. A file that the session made is then no file of
    /// its own any more, until its number is put into a slot again. It takes no memory.
    pub fn clear(&mut self, dir: u32, name: &Name)
        requires open { IsOpenDir self.old dir }
        requires there { IsSome (place_shown self.old dir name.now) }
        ensures kept { self.new ≡ record (clear dir name.now self.old) { room = self.new.room } }
        ensures room { LeavesRoom dir self.old self.new }
        ensures names { In dir self.old.room.names → In dir self.new.room.names }
        ensures place { LeavesPlace self.old self.new }
    {
        let place = self.place_of(dir, name).unwrap();
        let ino = self.entry(dir, place).unwrap().ino;
        let page = self.slot_page(dir, place);
        remove_made(&mut self.made, &mut self.cleared, ino);
        clear_slot(&mut self.stock, page, usize::from(place.slot));
        let at = index_place(&self.dirs, dir).unwrap();
        self.dirs[at].dir.remove(name);
    }

    /// The entry of a name in a directory gets another name, in its slot. It takes no memory: a
    /// [`reserve`](Self::reserve) of the directory made its room.
    pub fn retitle(&mut self, dir: u32, old: &Name, new: &Name)
        requires open { IsOpenDir self.old dir }
        requires there { IsSome (place_shown self.old dir old.now) }
        requires new { place_shown self.old dir new.now ≡ None }
        requires room { In dir self.old.room.names }
        ensures kept { self.new ≡ record (retitle dir old.now new.now self.old) { room = self.new.room } }
        ensures room { LeavesRoom dir self.old self.new }
        ensures place { LeavesPlace self.old self.new }
    {
        let place = self.place_of(dir, old).unwrap();
        let entry = self.entry(dir, place).unwrap();
        let renamed = EntryPart {
            ino: entry.ino,
            kind: entry.kind,
            name: *new,
        };
        let page = self.slot_page(dir, place);
        retitle_slot(&mut self.stock, page, usize::from(place.slot), &renamed);
        let at = index_place(&self.dirs, dir).unwrap();
        self.dirs[at].dir.rename(old, *new);
    }

    /// Where a name stands in a directory that has its index. The look-up isn't counted.
    fn place_of(&self, dir: u32, name: &Name) -> Option<Place>
        requires { IsOpenDir self.now dir }
        ensures place { result ≡ place_shown self.now dir name.now }
        ensures slot { IfSome result (λ place. place.slot < 16) }
        ensures there { IfSome result (λ place. slice_get (slots_shown self.now dir) (slot_number place) ≡ Some (Some name.now)) }
    {
        let mut uncounted = Finds::new();
        index_on(&self.dirs, dir)?.dir.find(name, &mut uncounted)
    }

    /// The page of a directory's slot.
    fn slot_page(&self, dir: u32, place: Place) -> PagePlace
        requires open { IsOpenDir self.now dir }
        requires block { place.block < length (chain_in self.now dir).blocks }
        ensures { IsAt self.now.parcel result (block_number self.now dir place.block) }
    {
        let (file, laid) = self.file_on(dir).unwrap();
        laid.block_place(file, place.block as usize)
    }

    /// An empty slot of a directory gets an entry, whose name isn't there, with a body.
    fn put_entry(&mut self, dir: u32, place: Place, entry: &EntryPart, body: &[u8; 64])
        requires open { IsOpenDir self.old dir }
        requires new { place_shown self.old dir entry.now.name ≡ None }
        requires empty { slice_get (slots_shown self.old dir) (slot_number place) ≡ Some None }
        requires slot { place.slot < 16 }
        requires number { 0 < entry.now.ino }
        requires room { In dir self.old.room.names }
        ensures kept { self.new ≡ record self.old {
          parcel = filled_slot (block_number self.old dir place.block) place.slot entry.now body.now self.old.parcel;
          room = self.new.room;
        } }
        ensures room { LeavesRoom dir self.old self.new }
        ensures made { self.new.room.made ≡ self.old.room.made }
        ensures next { self.new.room.next_blocks ≡ self.old.room.next_blocks }
        ensures fits { IsTrue (entry_fits every_number entry.now) }
        ensures whole { length (page_in self.old.parcel (block_number self.old dir place.block)) ≡ 4096 }
    {
        let page = self.slot_page(dir, place);
        fill_slot(&mut self.stock, page, usize::from(place.slot), entry, body);
        let at = index_place(&self.dirs, dir).unwrap();
        self.dirs[at].dir.add(entry.name, place);
    }

    /// A file of an allotted number is made, in a slot that names it.
    fn add_made(&mut self, ino: u32, kind: Kind, page: PagePlace, slot: usize)
        requires { IsMadeAt self.old ino kind page slot }
        ensures kept { self.new ≡ record (with_made ino kind (number_at self.old.parcel page) slot self.old) { room = self.new.room } }
        ensures calls { self.new.room.calls ≡ self.old.room.calls }
        ensures slots { self.new.room.slots ≡ self.old.room.slots }
        ensures names { self.new.room.names ≡ self.old.room.names }
        ensures next { cleared_file self.old ino ≡ None → room_in self.new ino ≡ self.old.room.next_blocks }
    {
        let laid = take_laid(self.alloc, &mut self.next, &mut self.cleared, ino);
        self.made.push_reserved(Made {
            ino,
            kind,
            page,
            slot,
            laid,
        });
    }
}

/// A file of this number is none of those that were made any more, but one whose slot is cleared; if
/// it is one. The cleared ones have a place for it.
fn remove_made(made: &mut Vec<Made>, cleared: &mut Vec<Made>, ino: u32)
    requires { length made.old.items + length cleared.old.items ≤ vec_capacity cleared.old }
    ensures removed { RemovesMade made.old.items cleared.old.items ino made.new.items cleared.new.items }
    ensures made_places { vec_capacity made.new ≡ vec_capacity made.old }
    ensures places { vec_capacity cleared.new ≡ vec_capacity cleared.old }
{
    match made_of(made, ino) {
        Some(at) => {
            let one = made.remove(at);
            cleared.push_reserved(one);
        }
        None => {}
    }
}

/// Where the pages of a file stand that is made: those of a file of its number whose slot was cleared,
/// which is then none of these any more; or else none, with the room that is kept for the next new one.
fn take_laid(alloc: Global, next: &mut Laid, cleared: &mut Vec<Made>, ino: u32) -> Laid
    requires { IsBlank next.old }
    ensures taken { TakesLaid cleared.old.items ino result cleared.new.items }
    ensures room { position (λ m. m.ino == ino) cleared.old.items ≡ None → room_laid result ≡ room_laid next.old }
    ensures next { IsBlank next.new }
    ensures places { vec_capacity cleared.new ≡ vec_capacity cleared.old }
{
    match made_of(cleared, ino) {
        Some(at) => {
            let Made { laid, .. } = cleared.remove(at);
            laid
        }
        None => replace(next, Laid::new(alloc)),
    }
}
