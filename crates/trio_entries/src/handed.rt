//! A bundle as it is handed in.

ghost use Rattle.std.specs.Prelude.{◌≡◌, ◌+◌, ◌≤◌, ◌++◌, ◌∷◌, [], ℕ, IfOk, length, map, slice_get, vec_capacity};
ghost use Rattle.std.specs.List.{flat_map};
ghost use Rattle.std.specs.Option.{option_map};
ghost use Rattle.trio_case.specs.Memory.{size_of};
ghost use Rattle.trio_nodes.specs.Handed.{head_of};
ghost use Rattle.trio_entries.specs.Drafts.{HasHandedPlaces, IsNewRoom, IsRoom};
ghost use Rattle.trio_entries.specs.Handed.{block_in, file_in, file_pages, fresh_in, handed_in, index_in};
ghost use Rattle.trio_entries.specs.inner.Sources.{numbers_in, page_seen, pages_of};

use std::alloc::{AllocError as NoMemory, Global};
use trio_case::{BundleSize, BytesEach};
use trio_lease::{Bundle, FreshIno, FreshPage, HoldLease, WriteLease};
use trio_nodes::{Handed, HandedHead, HandedPage, List};
use trio_page::Page;

/// A copy of a bundle as it stands, byte for byte: its write leases, the inode numbers of its holds,
/// its allotted pages and its allotted inode numbers, each in the bundle's order. Of a lent block it
/// tells whether it is marked as touched. The bytes of each page are copied once.
pub fn copied(alloc: Global, bundle: &Bundle) -> Result<Handed, NoMemory>
    ensures { IfOk result (λ handed. handed ≡ handed_in bundle.now) }
{
    let size = BundleSize::of(bundle)?;
    let room = HandedRoom::with(alloc, size)?;
    Ok(room.fill(bundle))
}

/// How many bytes the memory of a copy takes.
pub(crate) const COPY_BYTES: BytesEach = BytesEach {
    page: 4096 + size_of::<Vec<u8>>() + size_of::<HandedPage>(),
    value: size_of::<HandedHead>() + 2 * size_of::<u32>(),
};

/// The memory of a copy of a bundle.
#[derive(Drop)]
pub(crate) struct HandedRoom {
    heads: Vec<HandedHead>,
    holds: Vec<u32>,
    pages: Room,
    numbers: Vec<u32>,
}

impl HandedRoom {
    /// The memory of a copy of a bundle of this size.
    pub fn with(alloc: Global, size: BundleSize) -> Result<HandedRoom, NoMemory>
        ensures { IfOk result (HasHandedPlaces size) }
    {
        Ok(HandedRoom {
            heads: Vec::with_capacity(alloc, size.values)?,
            holds: Vec::with_capacity(alloc, size.holds)?,
            pages: Room::with(alloc, size.pages)?,
            numbers: Vec::with_capacity(alloc, size.inodes)?,
        })
    }

    /// The copy of a bundle that the memory has room for. It takes no memory.
    pub fn fill(self, bundle: &Bundle) -> Handed
        requires { HasHandedPlaces (size_of bundle.now) self }
        ensures { result ≡ handed_in bundle.now }
    {
        let HandedRoom {
            mut heads,
            mut holds,
            mut pages,
            mut numbers,
        } = self;
        add_files(&mut heads, &mut pages, bundle.writes());
        pages.add_all(&Source::Fresh(bundle.pages()));
        add_holds(&mut holds, bundle.holds());
        add_numbers(&mut numbers, bundle.inodes());
        let Room { buffers: _, pages } = pages;
        Handed::of(heads, holds, pages, numbers)
    }
}

/// Adds the head of each file to an empty list that has places for them, and its pages to others.
fn add_files(heads: &mut Vec<HandedHead>, pages: &mut Room, leases: &[WriteLease])
    requires empty { heads.old.items ≡ [] }
    requires places { length leases.now ≤ vec_capacity heads.old }
    requires room { IsRoom (length (flat_map file_pages leases.now)) pages.old }
    ensures heads { heads.new.items ≡ map (λ f. head_of (file_in f.stands)) leases.now }
    ensures pages { pages.new.pages.items ≡ pages.old.pages.items ++ flat_map file_pages leases.now }
    ensures room { (n : ℕ) → IsRoom (n + length (flat_map file_pages leases.now)) pages.old → IsRoom n pages.new }
{
    for lease in leases {
        heads.push_reserved(head(lease));
        pages.add_file(lease);
    }
}

/// A file without its pages.
fn head(lease: &WriteLease) -> HandedHead
    ensures { result ≡ head_of (file_in lease.now.stands) }
{
    HandedHead {
        ino: lease.ino(),
        kind: lease.kind(),
        body: *lease.body(),
        index: lease.index_len(),
        blocks: lease.blocks_len(),
    }
}

/// Adds the inode number of each hold to an empty list that has places for them.
pub(crate) fn add_holds(numbers: &mut Vec<u32>, holds: &[HoldLease])
    requires empty { numbers.old.items ≡ [] }
    requires places { length holds.now ≤ vec_capacity numbers.old }
    ensures { numbers.new.items ≡ map (λ h. h.ino) holds.now }
{
    for hold in holds {
        numbers.push_reserved(hold.ino());
    }
}

/// Adds each allotted inode number to an empty list that has places for them.
pub(crate) fn add_numbers(numbers: &mut Vec<u32>, inodes: &[FreshIno])
    requires empty { numbers.old.items ≡ [] }
    requires places { length inodes.now ≤ vec_capacity numbers.old }
    ensures { numbers.new.items ≡ map (λ n. n.no) inodes.now }
{
    for ino in inodes {
        numbers.push_reserved(ino.no());
    }
}

/// The memory of copies of pages.
#[derive(Drop)]
struct Room {
    // each without bytes, with places for those of a page
    buffers: Vec<Vec<u8>>,
    pages: Vec<HandedPage>,
}

impl Room {
    /// The memory of copies of so many pages.
    fn with(alloc: Global, count: usize) -> Result<Room, NoMemory>
        ensures { IfOk result (IsNewRoom count) }
    {
        let mut buffers = Vec::with_capacity(alloc, count)?;
        for _ in 0..count {
            buffers.push(Vec::with_capacity(alloc, 4096)?)?;
        }
        Ok(Room {
            buffers,
            pages: Vec::with_capacity(alloc, count)?,
        })
    }

    /// Adds the copies of a file's index pages and of its blocks.
    fn add_file(&mut self, lease: &WriteLease)
        requires { IsRoom (length (file_pages lease.now)) self.old }
        ensures pages { self.new.pages.items ≡ self.old.pages.items ++ file_pages lease.now }
        ensures room { (n : ℕ) → IsRoom (n + length (file_pages lease.now)) self.old → IsRoom n self.new }
    {
        self.add_all(&Source::Index(lease));
        self.add_all(&Source::Blocks(lease));
    }

    /// Adds the copies of all pages of a source.
    fn add_all(&mut self, source: &Source<'_>)
        requires { IsRoom (length (pages_of source.now)) self.old }
        ensures pages { self.new.pages.items ≡ self.old.pages.items ++ pages_of source.now }
        ensures room { (n : ℕ) → IsRoom (n + length (pages_of source.now)) self.old → IsRoom n self.new }
    {
        for i in 0..source.len() {
            if let Some(page) = source.page(i) {
                self.add(&page);
            }
        }
    }

    /// Adds a copy of a page.
    fn add(&mut self, page: &PageSeen<'_>)
        requires { IsRoom 1 self.old }
        ensures pages { self.new.pages.items ≡ self.old.pages.items ++ page_seen page.now ∷ [] }
        ensures room { (n : ℕ) → IsRoom (n + 1) self.old → IsRoom n self.new }
    {
        let Some(mut buffer) = self.buffers.pop() else {
            unreachable!()
        };
        fill_buffer(&mut buffer, page.page);
        self.pages.push_reserved(HandedPage {
            no: page.no,
            bytes: List::from_vec(buffer),
            touched: page.touched,
        });
    }
}

/// Puts the bytes of a page into a buffer that has places for them.
fn fill_buffer(buffer: &mut Vec<u8>, page: &Page)
    requires empty { buffer.old.items ≡ [] }
    requires places { 4096 ≤ vec_capacity buffer.old }
    ensures { buffer.new.items ≡ page.now }
{
    let bytes: &[u8] = page.bytes();
    if buffer.extend_from_slice(bytes).is_err() {
        unreachable!()
    }
}

/// Pages of a bundle.
#[derive(Drop)]
pub(crate) enum Source<'a> {
    Index(&'a WriteLease),
    Blocks(&'a WriteLease),
    Fresh(&'a [FreshPage]),
}

/// A page of a bundle. Of an index page and an allotted one it is `touched: false`.
#[derive(Drop)]
pub(crate) struct PageSeen<'a> {
    no: u32,
    page: &'a Page,
    touched: bool,
}

impl<'a> Source<'a> {
    pub fn len(&self) -> usize
        ensures pages { result ≡ length (pages_of self.now) }
        ensures numbers { result ≡ length (numbers_in self.now) }
    {
        match self {
            Source::Index(lease) => lease.index_len(),
            Source::Blocks(lease) => lease.blocks_len(),
            Source::Fresh(pages) => pages.len(),
        }
    }

    /// Page `i`, counted from 0. `None` exactly past the last.
    fn page(&self, i: usize) -> Option<PageSeen<'_>>
        ensures { option_map page_seen result ≡ slice_get (pages_of self.now) i }
    {
        match self {
            Source::Index(lease) => index_page(lease, i),
            Source::Blocks(lease) => block(lease, i),
            Source::Fresh(pages) => fresh_page(pages, i),
        }
    }

    /// The number of page `i`, counted from 0. `None` exactly past the last.
    pub fn number(&self, i: usize) -> Option<u32>
        ensures { result ≡ slice_get (numbers_in self.now) i }
    {
        match self {
            Source::Index(lease) => index_number(lease, i),
            Source::Blocks(lease) => block_number(lease, i),
            Source::Fresh(pages) => fresh_number(pages, i),
        }
    }
}

/// Index page `i` of a lease, counted from 0. `None` exactly where the lease has no such page.
fn index_page(lease: &WriteLease, i: usize) -> Option<PageSeen<'_>>
    ensures { option_map page_seen result ≡ option_map index_in (slice_get lease.now.stands.index i) }
{
    match (lease.index_no(i), lease.index(i)) {
        (Some(no), Some(page)) => Some(PageSeen {
            no: no.0,
            page,
            touched: false,
        }),
        _ => None,
    }
}

/// Block `i` of a lease, counted from 0. `None` exactly where the lease has no such block.
fn block(lease: &WriteLease, i: usize) -> Option<PageSeen<'_>>
    ensures { option_map page_seen result ≡ option_map block_in (slice_get lease.now.stands.blocks i) }
{
    match (lease.block_no(i), lease.block(i), lease.block_touched(i)) {
        (Some(no), Some(page), Some(touched)) => Some(PageSeen {
            no: no.0,
            page,
            touched,
        }),
        _ => None,
    }
}

/// Allotted page `i`, counted from 0. `None` exactly past the last.
fn fresh_page(pages: &[FreshPage], i: usize) -> Option<PageSeen<'_>>
    ensures { option_map page_seen result ≡ option_map fresh_in (slice_get pages.now i) }
{
    let fresh = pages.get(i)?;
    Some(PageSeen {
        no: fresh.no().0,
        page: fresh.page(),
        touched: false,
    })
}

fn index_number(lease: &WriteLease, i: usize) -> Option<u32>
    ensures { result ≡ slice_get (map (λ p. p.no.0) lease.now.stands.index) i }
{
    match lease.index_no(i) {
        Some(no) => Some(no.0),
        None => None,
    }
}

pub(crate) fn block_number(lease: &WriteLease, i: usize) -> Option<u32>
    ensures { result ≡ slice_get (map (λ p. p.no.0) lease.now.stands.blocks) i }
{
    match lease.block_no(i) {
        Some(no) => Some(no.0),
        None => None,
    }
}

fn fresh_number(pages: &[FreshPage], i: usize) -> Option<u32>
    ensures { result ≡ slice_get (map (λ p. p.no.0) pages.now) i }
{
    let fresh = pages.get(i)?;
    Some(fresh.no().0)
}
