//! What the judged files of a bundle list.

ghost use Rattle.std.specs.Prelude.{◌≡◌, ◌+◌, ◌==◌, ◌++◌, ◌∷◌, ◌<◌, ◌≤◌, ◌&&◌, [], Some, IfOk, length, map, slice_get, slice_index_or, slice_set, vec_capacity, vec_len};
ghost use Rattle.std.specs.Option.{option_copied, option_map};
ghost use Rattle.std.specs.List.{find, list_any};
ghost use Rattle.trio_lists.specs.Lists.{is_among};
ghost use Rattle.trio_layout.specs.Edges.{has_file, is_listed_kept};
ghost use Rattle.trio_tables.specs.Row.{as_row};
ghost use Rattle.trio_case.specs.Listed.{blocks_listed, entry_seen, index_listed, no_listing};
ghost use Rattle.trio_case.specs.inner.Known.{last_of, noted};

use crate::number_set::NumberSet;
use std::alloc::Global;
use std::marker::Model;
use trio_page::NoMemory;
use trio_rights::Kind;
use trio_tables::Row;

/// A judged file. Its pages are told by [`Listing::index`] and [`Listing::blocks`].
#[derive(Clone, Copy)]
pub struct ListedFile {
    pub ino: u32,
    /// The row that it is to have.
    pub row: Row,
    // where its page numbers stand in the lists of all files
    index: Span,
    blocks: Span,
}

/// A part of a list, from one place to before another.
#[derive(Clone, Copy)]
struct Span {
    start: usize,
    end: usize,
}

/// An entry of a judged directory.
#[derive(Clone, Copy)]
pub struct ListedEntry {
    pub ino: u32,
    pub kind: Kind,
    /// The inode number of the directory that lists it.
    pub dir: u32,
    pub page: u32,
    /// The slot on that page, counted from 0.
    pub slot: u16,
    /// Whether the row of its number names this directory and this place.
    pub kept: bool,
}

/// How much a listing has places for.
#[derive(Clone, Copy)]
pub struct ListingRoom {
    /// Held numbers.
    pub held: usize,
    /// Judged files.
    pub files: usize,
    /// Index pages of all judged files together.
    pub index: usize,
    /// Blocks of all judged files together.
    pub blocks: usize,
    /// Entries of all judged directories together.
    pub entries: usize,
}

/// How many bytes a listing takes for each of these.
pub const LISTED_BYTES: ListingRoom = ListingRoom {
    held: 2 * size_of::<u32>(),
    files: size_of::<ListedFile>() + size_of::<u32>(),
    index: size_of::<u32>(),
    blocks: size_of::<u32>(),
    entries: size_of::<ListedEntry>(),
};

/// How many bytes it takes for each inode number of its table.
pub const LISTED_NUMBER_BYTES: usize = size_of::<u32>();

/// The held numbers, the judged files and the entries of the judged directories of a bundle: what
/// it proposes, without its pages.
///
/// All memory is taken by [`Listing::with`]. Contracts see the listing, and how much it has places
/// for (`Listed`).
#[derive(Drop)]
pub struct Listing {
    lists: Lists,
    // by inode number, how many entries there were with the first that names it, and 0 where none does; for
    // a number past the end the entries are searched
    first: Vec<u32>,
    // the held numbers, and those of the judged files
    held: NumberSet,
    judged: NumberSet,
    room: ListingRoom,
}

#[derive(Drop)]
struct Lists {
    held: Vec<u32>,
    files: Vec<ListedFile>,
    // the numbers of the index pages of all files, and of their blocks
    index: Vec<u32>,
    blocks: Vec<u32>,
    entries: Vec<ListedEntry>,
}

impl Model for Listing {
    ghost use Rattle.std.specs.Prelude.{IsTrue, List, ℕ};
    ghost use Rattle.trio_case.specs.Listed.{Listed};
    ghost use Rattle.trio_case.specs.inner.Known.{IsKept, listing_seen};

    ghost Value = { Listed };

    ghost view = { λ l. record { listing = listing_seen l.lists; room = l.room } };

    ghost invariant = { λ l. IsKept l.lists l.first.items l.held l.judged l.room };
}

impl Listing {
    /// The empty listing with places for so many. To find the first entry that names a number takes one
    /// look for the numbers below `numbers`; for others the entries are searched.
    pub fn with(alloc: Global, room: ListingRoom, numbers: usize) -> Result<Listing, NoMemory>
        ensures { IfOk result (λ l. l ≡ record { listing = no_listing; room = room }) }
    {
        if u32::try_from(room.entries).is_err() {
            return Err(NoMemory);
        }
        let lists = Lists {
            held: Vec::with_capacity(alloc, room.held)?,
            files: Vec::with_capacity(alloc, room.files)?,
            index: Vec::with_capacity(alloc, room.index)?,
            blocks: Vec::with_capacity(alloc, room.blocks)?,
            entries: Vec::with_capacity(alloc, room.entries)?,
        };
        Ok(Listing {
            lists,
            first: vec![in alloc; 0; numbers]?,
            held: NumberSet::with(alloc, room.held)?,
            judged: NumberSet::with(alloc, room.files)?,
            room,
        })
    }

    /// The held numbers, in the order in which they were added.
    pub fn held(&self) -> &[u32]
        ensures { result.now ≡ self.now.listing.held }
    {
        &self.lists.held
    }

    /// The judged files, in the order found.
    pub fn files(&self) -> &[ListedFile]
        ensures numbers { map (λ f. f.ino) result.now ≡ map (λ f. f.ino) self.now.listing.files }
        ensures rows { map (λ f. as_row f.row) result.now ≡ map (λ f. f.row) self.now.listing.files }
    {
        &self.lists.files
    }

    /// The numbers of the index pages of the file at this place of [`files`](Self::files), in the
    /// order of its chain.
    pub fn index(&self, file: usize) -> &[u32]
        requires { file < length self.now.listing.files }
        ensures { option_map (λ f. f.index) (slice_get self.now.listing.files file) ≡ Some result.now }
    {
        let Span { start, end } = self.lists.files[file].index;
        &self.lists.index[start..end]
    }

    /// The numbers of the blocks of the file at this place of [`files`](Self::files), in the order of
    /// the file.
    pub fn blocks(&self, file: usize) -> &[u32]
        requires { file < length self.now.listing.files }
        ensures { option_map (λ f. f.blocks) (slice_get self.now.listing.files file) ≡ Some result.now }
    {
        let Span { start, end } = self.lists.files[file].blocks;
        &self.lists.blocks[start..end]
    }

    /// The entries, in the order found.
    pub fn entries(&self) -> &[ListedEntry]
        ensures { map entry_seen result.now ≡ self.now.listing.entries }
    {
        &self.lists.entries
    }

    /// Adds a held number as the last one.
    pub fn add_held(&mut self, ino: u32)
        requires { length self.old.listing.held < self.old.room.held }
        ensures { self.new ≡ record self.old { listing = record self.old.listing { held = self.old.listing.held ++ ino ∷ [] } } }
    {
        push(&mut self.lists.held, ino);
        self.held.add(ino);
    }

    /// Adds a judged file, with its index pages and its blocks, as the last one.
    pub fn add_file(&mut self, ino: u32, row: Row, index: &[u32], blocks: &[u32])
        requires files { length self.old.listing.files < self.old.room.files }
        requires index { length (index_listed self.old.listing) + length index.now ≤ self.old.room.index }
        requires blocks { length (blocks_listed self.old.listing) + length blocks.now ≤ self.old.room.blocks }
        ensures { self.new ≡ record self.old { listing = record self.old.listing { files = self.old.listing.files ++ record { ino = ino; row = as_row row; index = index.now; blocks = blocks.now } ∷ [] } } }
    {
        let file = ListedFile {
            ino,
            row,
            index: append(&mut self.lists.index, index),
            blocks: append(&mut self.lists.blocks, blocks),
        };
        push(&mut self.lists.files, file);
        self.judged.add(ino);
    }

    /// Adds an entry as the last one.
    pub fn add_entry(&mut self, entry: ListedEntry)
        requires { length self.old.listing.entries < self.old.room.entries }
        ensures { self.new ≡ record self.old { listing = record self.old.listing { entries = self.old.listing.entries ++ entry_seen entry ∷ [] } } }
    {
        push(&mut self.lists.entries, entry);
        note_first(&mut self.first, entry.ino, self.lists.entries.len() as u32);
    }

    /// Whether the file of this number is held.
    pub fn is_held(&self, ino: u32) -> bool
        ensures { result ≡ is_among ino self.now.listing.held }
    {
        self.held.has(ino)
    }

    /// Whether the file of this number is judged.
    pub fn has_file(&self, ino: u32) -> bool
        ensures { result ≡ has_file self.now.listing ino }
    {
        self.judged.has(ino)
    }

    /// Whether a kept child has this number. The entries are searched only where the first that names it
    /// isn't one.
    pub fn is_listed_kept(&self, ino: u32) -> bool
        ensures { result ≡ is_listed_kept self.now.listing ino }
    {
        match self.first_entry(ino) {
            Some(first) => first.kept || is_kept(&self.lists.entries, ino),
            None => false,
        }
    }

    /// The directory of the first entry that names this number; `None` exactly where none does.
    pub fn dir(&self, ino: u32) -> Option<u32>
        ensures { result ≡ option_map (λ e. e.dir) (find (λ e. e.ino == ino) self.now.listing.entries) }
    {
        match self.first_entry(ino) {
            Some(first) => Some(first.dir),
            None => None,
        }
    }

    // the first entry that names this number
    fn first_entry(&self, ino: u32) -> Option<&ListedEntry>
        ensures { option_map entry_seen (option_copied result) ≡ find (λ e. e.ino == ino) self.now.listing.entries }
    {
        match self.first.get(ino as usize) {
            Some(count) => last_of(&self.lists.entries, *count),
            None => find_entry(&self.lists.entries, ino),
        }
    }
}

// the last of so many entries
fn last_of(entries: &[ListedEntry], count: u32) -> Option<&ListedEntry>
    ensures { option_copied result ≡ last_of count entries.now }
{
    let at = count.checked_sub(1)?;
    entries.get(at as usize)
}

fn is_kept(entries: &[ListedEntry], ino: u32) -> bool
    ensures { result ≡ list_any (λ e. e.ino == ino && e.kept) entries.now }
{
    entries.iter().any(|entry| entry.ino == ino && entry.kept)
}

fn find_entry(entries: &[ListedEntry], ino: u32) -> Option<&ListedEntry>
    ensures { option_copied result ≡ find (λ e. e.ino == ino) entries.now }
{
    entries.iter().find(|entry| entry.ino == ino)
}

// notes in the table that the last of so many entries names the number, where none before does
fn note_first(first: &mut Vec<u32>, ino: u32, count: u32)
    ensures { first.new.items ≡ slice_set first.old.items ino (noted (slice_index_or first.old.items ino 0) count) }
{
    let at = ino as usize;
    if at < first.len() && first[at] == 0 {
        first[at] = count;
    }
}

// appends numbers to a list that has places for them, and answers where they stand
fn append(list: &mut Vec<u32>, numbers: &[u32]) -> Span
    requires { vec_len list.old + length numbers.now ≤ vec_capacity list.old }
    ensures items { list.new.items ≡ list.old.items ++ numbers.now }
    ensures start { result.start ≡ vec_len list.old }
    ensures end { result.end ≡ vec_len list.new }
    ensures capacity { vec_capacity list.old ≤ vec_capacity list.new }
{
    let start = list.len();
    let _appended = list.extend_from_slice(numbers);
    Span {
        start,
        end: list.len(),
    }
}

// appends to a list that has a place for it
pub(crate) fn push<T: Drop>(list: &mut Vec<T>, value: T)
    requires { vec_len list.old < vec_capacity list.old }
    ensures items { list.new.items ≡ list.old.items ++ value ∷ [] }
    ensures len { vec_len list.new ≡ vec_len list.old + 1 }
    ensures capacity { vec_capacity list.old ≤ vec_capacity list.new }
{
    let _pushed = list.push(value);
}
