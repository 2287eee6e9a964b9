//! Sessions.

ghost use Rattle.std.specs.Prelude.{ℕ, List, Option, vec_capacity, ◌≡◌, ◌+◌, ◌≤◌, ◌<◌, ◌++◌, ◌∷◌, [], IsOk, IsSome, IsTrue, MatchOption, OnOk, None, length, slice_get, slice_index_or, ◌==◌, Some, if◌then◌else◌};
ghost use Rattle.std.specs.List.{find};
ghost use Rattle.std.specs.Option.{option_copied, option_map, option_or};
ghost use Rattle.trio_auxdir.specs.Places.{place_of as place_at_name};
ghost use Rattle.trio_lists.specs.Lists.{In, is_among};
ghost use Rattle.trio_page.specs.Home.{raised};
ghost use Rattle.trio_lease.specs.Shown.{Shown};
ghost use Rattle.trio_desk.specs.Edits.{nothing};
ghost use Rattle.trio_session.specs.inner.Found.{IsRelaid, IsThere, Roomier};
ghost use Rattle.trio_session.specs.inner.Made.{FindsFile};
ghost use Rattle.trio_session.specs.Seen.{IsOpenDir, KeepsRoom, MadeFile, block_shown, body_shown, chain_in, children_shown, empty_shown, entry_shown, grant_in, held_file, is_allotted, kind_shown, lower, made_body, made_file, no_chain, open_kind, place_of, place_shown, read_file, room_in, spare_number, used_numbers};

use crate::indexes::{IndexedDir, index_on, reserve_index};
use crate::laid::{FilePlace, Laid};
use crate::made::{Made, file_among, is_at, made_of};
use crate::stock::{Stock, lower};
use std::alloc::Global;
use std::marker::Model;
use trio_auxdir::{Finds, Place};
use trio_layout::{EntryPart, Slot, SlotRead};
use trio_lease::ReadLease;
use trio_lease::things::{let_go_all, thing_of};
use trio_names::Name;
use trio_nodes::{Done, GrantKind};
use trio_page::{NoMemory, Page};
use trio_rights::{Creds, Kind, LibNo};

/// How many calls a session keeps at most.
const CALLS_LIMIT: usize = 0xFFFF_FFFF;

/// The leases, allotments and calls of one library since its last settle.
///
/// Contracts see it as plain data (`SessionSeen` of `specs/Seen.antt`). A file is named by its inode
/// number; sizes and offsets are in bytes, and blocks are counted from 0. Calls that take a desk have
/// the condition that the desk's list of what is out is just what the session has, and keep it so
/// (`IsOn`). A change of mode is no part of a settle: it is asked of the desk at once, where nothing
/// but read leases is in hand.
pub struct Session {
    pub(crate) alloc: Global,
    lib: LibNo,
    creds: Creds,
    pub(crate) stock: Stock,
    // beside the write leases
    pub(crate) laid: Vec<Laid>,
    pub(crate) made: Vec<Made>,
    // files that were made and whose slots were cleared since
    pub(crate) cleared: Vec<Made>,
    pub(crate) reads: Vec<ReadLease>,
    // of directories that are lent or were made
    pub(crate) dirs: Vec<IndexedDir>,
    pub(crate) calls: Vec<Done>,
    // of the next new file: no page yet, and room for some
    pub(crate) next: Laid,
    // so many allotted pages, the first ones, are put in place
    pub(crate) placed: usize,
    finds: Finds,
}

impl Model for Session {
    ghost use Rattle.std.specs.Prelude.{◌≤◌, ◌<◌, ◌^◌, ◌+◌, ◌-◌, length, map, min, vec_capacity};
    ghost use Rattle.std.specs.List.{filter};
    ghost use Rattle.trio_session.specs.Seen.{SessionSeen};

    ghost Value = { SessionSeen };

    ghost use Rattle.trio_session.specs.inner.Found.{IsBlank};
    ghost use Rattle.trio_session.specs.inner.Inside.{AreLaid, chains_laid};
    ghost use Rattle.trio_session.specs.inner.Made.{AreDirs, AreMade, dir_numbers, has_names, has_slots, made_room, made_seen};
    ghost use Rattle.trio_session.specs.inner.Places.{room_laid};

    ghost view = { λ s. record {
      lib = s.lib;
      creds = s.creds;
      parcel = s.stock;
      chains = chains_laid s.stock.writes s.stock.pages s.laid.items;
      made = map (made_seen s.stock) s.made.items;
      cleared = map (made_seen s.stock) s.cleared.items;
      reads = s.reads.items;
      calls = s.calls.items;
      placed = s.placed;
      indexed = dir_numbers s.dirs.items;
      finds = s.finds;
      room = record {
        calls = min (vec_capacity s.calls) (2 ^ 32 - 1);
        blocks = map room_laid s.laid.items;
        made_blocks = map (λ m. room_laid m.laid) s.made.items;
        made = made_room s.made s.cleared;
        next_blocks = room_laid s.next;
        slots = dir_numbers (filter has_slots s.dirs.items);
        names = dir_numbers (filter has_names s.dirs.items);
      };
    } };

    ghost invariant = { λ s.
        AreLaid s.stock s.laid.items × (s.placed ≤ length s.stock.pages) × (length s.calls.items < 2 ^ 32)
        × AreMade s.placed s.reads.items (record { parcel = s.stock; laid = s.laid.items; made = s.made.items; cleared = s.cleared.items })
        × AreDirs s.reads.items (record { parcel = s.stock; laid = s.laid.items; made = s.made.items; cleared = s.cleared.items }) s.dirs.items
        × (length s.made.items + length s.cleared.items ≤ vec_capacity s.cleared)
        × IsBlank s.next };
}

impl Session {
    /// A session that has nothing yet. It takes no memory.
    pub fn new(alloc: Global, lib: LibNo, creds: Creds) -> Session
        ensures { result ≡ record { lib = lib; creds = creds; parcel = nothing; chains = []; made = []; cleared = []; reads = []; calls = []; placed = 0; indexed = []; finds = 0; room = result.room } }
    {
        Session {
            alloc,
            lib,
            creds,
            stock: Stock::new(alloc),
            laid: Vec::new(alloc),
            made: Vec::new(alloc),
            cleared: Vec::new(alloc),
            reads: Vec::new(alloc),
            dirs: Vec::new(alloc),
            calls: Vec::new(alloc),
            next: Laid::new(alloc),
            placed: 0,
            finds: Finds::new(),
        }
    }

    /// Lets all of it go. Its grants and allotments stay out for good, so that others find the files
    /// busy, and the pages and inode numbers not free.
    pub fn discard(self) {
        let Session {
            alloc: _,
            lib: _,
            creds: _,
            stock,
            laid: _,
            made: _,
            cleared: _,
            reads,
            dirs: _,
            calls: _,
            next: _,
            placed: _,
            finds: _,
        } = self;
        stock.discard();
        let_go_all(reads);
    }

    /// The first read lease on this file.
    pub(crate) fn read_on(&self, ino: u32) -> Option<&ReadLease>
        ensures { option_copied result ≡ find (λ f. f.ino == ino) self.now.reads }
    {
        thing_of(&self.reads, ino)
    }

    /// Where a file stands that the session writes or made. `None` exactly where it has no such file.
    pub(crate) fn file_on(&self, ino: u32) -> Option<(FilePlace, &Laid)>
        ensures { FindsFile self.now ino (option_map (λ o. (o.0, o.1.now)) result) }
    {
        file_among(&self.stock, &self.laid, &self.made, ino)
    }

    /// The kind of a file that the session writes or made. `None` exactly where it has no such file.
    pub(crate) fn open_kind(&self, ino: u32) -> Option<Kind>
        ensures { result ≡ open_kind self.now ino }
    {
        match made_of(&self.made, ino) {
            Some(at) => Some(self.made[at].kind),
            None => Some(self.stock.write_on(ino)?.kind()),
        }
    }

    /// The kind of a file that the session writes or made, or has for reading.
    pub fn kind(&self, ino: u32) -> Option<Kind>
        ensures { result ≡ kind_shown self.now ino }
    {
        match self.open_kind(ino) {
            Some(kind) => Some(kind),
            None => Some(self.read_on(ino)?.kind()),
        }
    }

    /// The kind of the grant that the session has on a file, the strongest; for writing on a file that
    /// it made. `None` exactly where it has none.
    pub fn has(&self, ino: u32) -> Option<GrantKind>
        ensures { result ≡ grant_in self.now ino }
    {
        if self.open_kind(ino).is_some() {
            return Some(GrantKind::Write);
        }
        if self.stock.hold_on(ino).is_some() {
            return Some(GrantKind::Hold);
        }
        if self.read_on(ino).is_some() {
            Some(GrantKind::Read)
        } else {
            None
        }
    }

    /// The 64 bytes of a file's body: as they stand where the session writes or made it, or as a read
    /// lease or a hold lent them. `None` exactly where the session has no such file.
    pub fn body(&self, ino: u32) -> Option<&[u8; 64]>
        ensures { option_copied result ≡ body_shown self.now ino }
    {
        if let Some((file, _)) = self.file_on(ino) {
            return Some(self.stock.body(file));
        }
        if let Some(lease) = self.read_on(ino) {
            return Some(lease.body());
        }
        let hold = self.stock.hold_on(ino)?;
        Some(hold.body())
    }

    /// Block `i` of a file: as it stands where the session writes or made it, or as a read lease lent
    /// it. `None` exactly where the session has no such block.
    pub fn block(&self, ino: u32, i: u32) -> Option<&Page>
        ensures { option_copied result ≡ block_shown self.now ino i }
    {
        match self.file_on(ino) {
            Some((file, laid)) => self.stock.block(laid, file, i as usize),
            None => self.read_on(ino)?.block(i as usize),
        }
    }

    /// Where a name stands in a directory that the session writes, made or has for reading, by the
    /// directory's index. `None` exactly where the session has no such directory, or the name isn't
    /// there. A look-up in an index is counted.
    pub fn find(&mut self, dir: u32, name: &Name) -> Option<Place>
        requires { kind_shown self.old dir ≡ Some Kind.Directory → In dir self.old.indexed }
        ensures place { result ≡ place_shown self.old dir name.now }
        ensures counted { self.new ≡ record self.old { finds = (if is_among dir self.old.indexed then raised self.old.finds else self.old.finds) } }
    {
        let kind = self.kind(dir);
        match index_on(&self.dirs, dir) {
            Some(indexed) => in_directory(kind, indexed.dir.find(name, &mut self.finds)),
            None => None,
        }
    }

    /// The first empty slot of a directory that the session writes or made, in the order of block and
    /// slot. `None` exactly where no slot is empty.
    pub fn first_empty(&self, dir: u32) -> Option<Place>
        requires { IsOpenDir self.now dir }
        ensures { result ≡ empty_shown self.now dir }
    {
        index_on(&self.dirs, dir)?.dir.first_empty()
    }

    /// How many look-ups in indexes were counted. A settle leaves the count.
    pub fn finds(&self) -> u64
        ensures { result ≡ self.now.finds }
    {
        self.finds.count()
    }

    /// The entry at a place of a directory. `None` exactly where the session has no such block, or
    /// the slot is empty.
    pub fn entry(&self, dir: u32, place: Place) -> Option<EntryPart>
        requires { place.slot < 16 }
        ensures { result ≡ entry_shown self.now dir place }
    {
        let page = self.block(dir, place.block)?;
        let at = 256 * usize::from(place.slot);
        match Slot::read(page.bytes()[at..at + 256].as_array().unwrap(), u32::MAX) {
            SlotRead::Entry(entry) => Some(entry),
            SlotRead::Empty | SlotRead::Bad => None,
        }
    }

    /// How many entries a directory has that the session holds or made; 0 of any other file. `None`
    /// exactly where it neither holds nor made the file.
    pub fn children(&self, ino: u32) -> Option<u32>
        requires { (m : MadeFile) → made_file self.now ino ≡ Some m → m.kind ≡ Kind.Directory → In ino self.now.indexed }
        ensures { result ≡ children_shown self.now ino }
    {
        match made_of(&self.made, ino) {
            Some(at) => {
                if self.made[at].kind.is_directory() {
                    Some(index_on(&self.dirs, ino)?.dir.len())
                } else {
                    Some(0)
                }
            }
            None => Some(self.stock.hold_on(ino)?.children()),
        }
    }

    /// The kind and the body that a file takes with it into another directory: of one that the session
    /// made its own kind, and the body of its slot; of a held one, which has none of the allotted
    /// numbers, those of its hold. `None` exactly where it has no such file.
    pub fn moving(&self, ino: u32) -> Option<(Kind, [u8; 64])>
        ensures { result ≡ option_or (option_map (λ m. (m.kind, made_body self.now m)) (made_file self.now ino))
            (if is_allotted self.now ino then None else option_map (λ h. (h.kind, h.body)) (held_file self.now ino)) }
    {
        match made_of(&self.made, ino) {
            Some(at) => Some((self.made[at].kind, *self.body(ino)?)),
            None if self.stock.has_ino(ino) => None,
            None => {
                let hold = self.stock.hold_on(ino)?;
                Some((hold.kind(), *hold.body()))
            }
        }
    }

    /// The lowest of the allotted inode numbers that no edit has put in place. `None` exactly where
    /// there is none.
    pub fn spare_ino(&self) -> Option<u32>
        ensures { result ≡ spare_number self.now }
    {
        let mut best = None;
        // files mostly take the numbers, and leave their slots, in the order in which the numbers were
        // allotted, so each is first looked for where the next file stands, and not among all
        let mut made = 0;
        let mut cleared = 0;
        for allotted in self.stock.inodes() {
            let ino = allotted.no();
            if is_at(&self.made, made, ino) {
                made += 1;
            } else if is_at(&self.cleared, cleared, ino) {
                cleared += 1;
            } else {
                best = self.lower_spare(best, ino);
            }
        }
        best
    }

    /// The lower of two numbers, where there is a first and no edit has put the second in place.
    fn lower_spare(&self, best: Option<u32>, ino: u32) -> Option<u32>
        ensures { result ≡ (if is_among ino (used_numbers self.now) then best else lower best ino) }
    {
        if self.is_used(ino) {
            best
        } else {
            Some(lower(best, ino))
        }
    }

    /// Whether an edit has put the number in place.
    fn is_used(&self, ino: u32) -> bool
        ensures { result ≡ is_among ino (used_numbers self.now) }
    {
        made_of(&self.made, ino).is_some() || made_of(&self.cleared, ino).is_some()
    }

    /// Makes room for one call done. After [`NoMemory`] too nothing else has changed.
    pub fn reserve_call(&mut self) -> Result<(), NoMemory>
        ensures kept { self.new ≡ record self.old { room = record self.old.room { calls = self.new.room.calls } } }
        ensures room { OnOk result (length self.new.calls < self.new.room.calls) }
        ensures grows { self.old.room.calls ≤ self.new.room.calls }
        ensures succeeds { length self.old.calls < self.old.room.calls → IsOk result }
        ensures keeps { KeepsRoom self.old self.new }
    {
        if self.calls.len() >= CALLS_LIMIT {
            return Err(NoMemory);
        }
        self.calls.reserve(1)
    }

    /// Adds a call done as the last one. It takes no memory: a
    /// [`reserve_call`](Self::reserve_call) made its room.
    pub fn note(&mut self, done: Done)
        requires { length self.old.calls < self.old.room.calls }
        ensures { self.new ≡ record self.old { calls = self.old.calls ++ done ∷ [] } }
    {
        self.calls.push_reserved(done);
    }

    /// Takes the last call done away again. `None` exactly where there is none.
    pub fn unnote(&mut self) -> Option<Done>
        ensures { MatchOption result ((self.old.calls ≡ []) × (self.new ≡ self.old)) (λ done.
            (self.old.calls ≡ self.new.calls ++ done ∷ []) × (self.new ≡ record self.old { calls = self.new.calls })) }
    {
        self.calls.pop()
    }

    /// Makes room for one file more that the session makes, and for edits by which it comes to so many
    /// blocks if it is a new one. After [`NoMemory`] too nothing else has changed.
    pub fn reserve_made(&mut self, blocks: u32) -> Result<(), NoMemory>
        ensures kept { self.new ≡ record self.old { room = record self.old.room { made = self.new.room.made; next_blocks = self.new.room.next_blocks } } }
        ensures room { OnOk result (length self.new.made < self.new.room.made) }
        ensures blocks { OnOk result (blocks ≤ self.new.room.next_blocks) }
        ensures grows { self.old.room.made ≤ self.new.room.made }
        ensures next { self.old.room.next_blocks ≤ self.new.room.next_blocks }
    {
        self.made.reserve(1)?;
        self.cleared.reserve(self.made.len() + 1)?;
        self.next.reserve(blocks as usize)
    }

    /// Makes room for edits by which a file that the session has for writing, or made, comes to so many
    /// blocks; of a directory with its index also for one block and one name more in the index. After
    /// [`NoMemory`] too nothing else has changed.
    pub fn reserve(&mut self, ino: u32, blocks: u32) -> Result<(), NoMemory>
        requires { IsSome (open_kind self.old ino) }
        ensures kept { self.new ≡ record self.old { room = self.new.room } }
        ensures room { OnOk result (blocks ≤ room_in self.new ino) }
        ensures slots { OnOk result (In ino self.old.indexed → In ino self.new.room.slots) }
        ensures names { OnOk result (In ino self.old.indexed → In ino self.new.room.names) }
        ensures keeps { KeepsRoom self.old self.new }
    {
        reserve_one(
            &self.stock,
            &mut self.laid,
            &mut self.made,
            ino,
            blocks as usize,
        )?;
        reserve_index(&mut self.dirs, ino)
    }
}

/// Makes room for the file of this number, among those that are written and those that were made, to
/// come to so many blocks.
fn reserve_one(
    stock: &Stock,
    laid: &mut Vec<Laid>,
    made: &mut Vec<Made>,
    ino: u32,
    blocks: usize,
) -> Result<(), NoMemory>
    requires there { IsThere stock.now made.old.items ino }
    requires beside { length laid.old.items ≡ length stock.now.writes }
    ensures relaid { IsRelaid (Roomier blocks result) stock.now laid.old.items made.old.items ino laid.new.items made.new.items }
    ensures places { vec_capacity made.new ≡ vec_capacity made.old }
{
    match made_of(made, ino) {
        Some(at) => made[at].laid.reserve(blocks),
        None => {
            let at = stock.file_of(ino).unwrap();
            laid[at].reserve(blocks)
        }
    }
}

/// The place of a name in a directory; a file of another kind has no names.
fn in_directory(kind: Option<Kind>, place: Option<Place>) -> Option<Place>
    ensures { (slots : List (Option (List ℕ))) (name : List ℕ) → place ≡ place_at_name name slots → result ≡ place_of kind slots name }
{
    if kind?.is_directory() { place } else { None }
}
