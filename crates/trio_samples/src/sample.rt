//! Sample images: files put into pages, with the tables of what was put.

ghost use Rattle.std.specs.Prelude.{◌≤◌};

use crate::file::SampleFile;
use std::alloc::Global;
use trio_layout::{Body, EntryPart, Superblock};
use trio_names::Name;
use trio_page::field::put_bytes_in;
use trio_page::{Home, NoMemory, PAGE_SIZE, Page, PageNo};
use trio_tables::{Owners, Row, Shadow};

/// A file as it stands so far.
#[derive(Clone, Copy)]
struct Placed {
    body: Body,
    // how many files it lists
    listed: u16,
}

/// An image that is laid out file by file.
#[derive(Drop)]
pub struct Sample {
    pages: Vec<Page>,
    superblock: Superblock,
    rows: Shadow,
    owners: Owners,
    // by inode number
    placed: Vec<Option<Placed>>,
    // the lowest page that no file has
    next: u32,
}

/// Writes bytes at a place, where they fit.
pub fn put(bytes: &mut [u8], at: usize, part: &[u8]) {
    if at <= bytes.len() && part.len() <= bytes.len() - at {
        put_bytes_in(bytes, at, part);
    }
}

impl Sample {
    /// The image of these files, with its tables. The root is the first, and each directory comes
    /// before what it lists. A file that doesn't fit is left out, which a test then meets.
    pub fn of(
        alloc: Global,
        pages: u32,
        inodes: u32,
        files: &[SampleFile],
    ) -> Result<Sample, NoMemory>
        requires pages { pages ≤ 8192 }
        requires inodes { inodes ≤ 16384 }
    {
        let mut sample = Sample::blank(alloc, pages, inodes)?;
        for file in files {
            sample.add(file);
        }
        sample.store_tables();
        Ok(sample)
    }

    /// An image of 32 pages and 64 inode numbers: page 1 has the rows, page 2 the owners, and the
    /// core begins at page 3.
    pub fn small(alloc: Global, files: &[SampleFile]) -> Result<Sample, NoMemory> {
        Sample::of(alloc, 32, 64, files)
    }

    /// Its superblock.
    pub fn superblock(&self) -> &Superblock {
        &self.superblock
    }

    /// Writes bytes at a place of a page, where they fit.
    pub fn put(&mut self, page: usize, at: usize, part: &[u8]) {
        if let Some(page) = self.pages.get_mut(page) {
            put(page.bytes_mut(), at, part);
        }
    }

    /// The bytes of its pages, one after another.
    pub fn bytes(&self, alloc: Global) -> Result<Vec<u8>, NoMemory> {
        let mut bytes = Vec::new(alloc);
        for page in &self.pages {
            bytes.extend_from_slice(page.bytes())?;
        }
        Ok(bytes)
    }

    /// The home of its pages, all of them there.
    pub fn home(self, alloc: Global) -> Result<Home, NoMemory> {
        home_of(alloc, self.pages)
    }

    /// The home of its pages, and the rows of its files.
    pub fn home_and_rows(self, alloc: Global) -> Result<(Home, Shadow), NoMemory> {
        Ok((home_of(alloc, self.pages)?, self.rows))
    }

    // an image without files, and without its tables
    fn blank(alloc: Global, count: u32, inodes: u32) -> Result<Sample, NoMemory>
        requires pages { count ≤ 8192 }
        requires inodes { inodes ≤ 16384 }
    {
        let first_owner = 1 + (32 * inodes).div_ceil(4096);
        let first_core = first_owner + (4 * count).div_ceil(4096);
        let mut pages = Vec::new(alloc);
        for _i in 0..count {
            pages.push(Page::zero(alloc)?)?;
        }
        let mut placed = Vec::new(alloc);
        placed.resize(inodes as usize + 1, None)?;
        Ok(Sample {
            pages,
            superblock: Superblock {
                pages: count,
                inodes,
                first_owner,
                first_core,
                root: [0; 64],
            },
            rows: Shadow::new(alloc, inodes)?,
            owners: Owners::new(alloc, count, first_core.min(count))?,
            placed,
            next: first_core,
        })
    }

    /// Puts one file. `None` where it has no room, no directory or no name.
    pub(crate) fn add(&mut self, file: &SampleFile) -> Option<()> {
        let (page, slot) = self.list(file)?;
        let row = Row {
            kind: file.kind,
            mode: file.mode,
            uid: file.uid,
            gid: file.gid,
            parent: file.parent,
            page,
            slot,
        };
        if file.ino == 0 || file.ino > self.rows.inodes() {
            return None;
        }
        self.rows.set(file.ino, Some(row));
        let body = Body {
            mode: file.mode,
            uid: file.uid,
            gid: file.gid,
            head: 0,
            size: 0,
            guard: file.guard,
        };
        self.place(file.ino, Placed { body, listed: 0 })?;
        for i in 0..file.content.len().div_ceil(PAGE_SIZE) {
            let rest = file.content.get(PAGE_SIZE * i..)?;
            let part = &rest[..rest.len().min(PAGE_SIZE)];
            let block = self.grow(file.ino, part.len())?;
            self.put(block, 0, part);
        }
        Some(())
    }

    // Writes the entry of a file into the next slot of its directory, and tells where that is.
    fn list(&mut self, file: &SampleFile) -> Option<(u32, u16)> {
        if file.parent == 0 {
            return Some((0, 0));
        }
        let name = Name::read(file.name).ok()?;
        let listed = self.placed(file.parent)?.listed;
        if listed % 16 == 0 {
            self.grow(file.parent, PAGE_SIZE)?;
        }
        let mut directory = self.placed(file.parent)?;
        directory.listed = listed.checked_add(1)?;
        self.place(file.parent, directory)?;
        let page = self.block(&directory.body, listed / 16)?;
        let slot = listed % 16;
        let mut part = [0; 192];
        let entry = EntryPart {
            ino: file.ino,
            kind: file.kind,
            name,
        };
        entry.write(&mut part);
        self.put(page as usize, 256 * usize::from(slot), &part);
        Some((page, slot))
    }

    // Gives a file one block more, for so many bytes, and tells which.
    fn grow(&mut self, ino: u32, bytes: usize) -> Option<usize> {
        let mut placed = self.placed(ino)?;
        let blocks = placed.body.blocks() as usize;
        if blocks >= 511 {
            return None;
        }
        if placed.body.head == 0 {
            placed.body.head = self.take_page(ino)?;
        }
        let block = self.take_page(ino)?;
        let number = u64::from(block).to_le_bytes();
        self.put(placed.body.head as usize, 8 * blocks, &number);
        placed.body.size = placed.body.size.checked_add(bytes as u64)?;
        self.place(ino, placed)?;
        Some(block as usize)
    }

    // the number of a block, as the file's index page names it
    fn block(&self, body: &Body, i: u16) -> Option<u32> {
        if i >= 511 {
            return None;
        }
        let index = self.pages.get(body.head as usize)?;
        Some(index.u32_at(8 * usize::from(i)))
    }

    // the lowest page that no file has, which is this file's now
    fn take_page(&mut self, ino: u32) -> Option<u32> {
        let page = self.next;
        if page >= self.owners.pages() {
            return None;
        }
        self.owners.set(PageNo(page), ino);
        self.next = page + 1;
        Some(page)
    }

    fn placed(&self, ino: u32) -> Option<Placed> {
        *self.placed.get(ino as usize)?
    }

    // Keeps what a file is now, and writes its body where it is listed.
    fn place(&mut self, ino: u32, placed: Placed) -> Option<()> {
        *self.placed.get_mut(ino as usize)? = Some(placed);
        let row = self.rows.row(ino)?;
        let mut bytes = [0; 64];
        placed.body.write(&mut bytes);
        if row.page == 0 {
            self.superblock.root = bytes;
        } else {
            let at = 256 * usize::from(row.slot) + 192;
            self.put(row.page as usize, at, &bytes);
        }
        Some(())
    }

    /// Writes the superblock, the rows and the owners.
    pub(crate) fn store_tables(&mut self) {
        if let Some(page) = self.pages.get_mut(0) {
            self.superblock.write(page);
        }
        store_rows(&mut self.pages, &self.rows);
        store_owners(&mut self.pages, self.superblock.first_owner, &self.owners);
    }
}

// the home of the first 8192 pages, all of them there
fn home_of(alloc: Global, pages: Vec<Page>) -> Result<Home, NoMemory> {
    let mut there = Vec::new(alloc);
    for page in pages {
        there.push(Some(page))?;
    }
    there.truncate(8192);
    Ok(Home::of(there))
}

fn store_rows(pages: &mut [Page], rows: &Shadow) {
    let inodes = rows.inodes();
    for at in 0..inodes.div_ceil(128) {
        if let Some(page) = pages.get_mut(1 + at as usize)
            && 128 * at < inodes
        {
            rows.write_page(at, page);
        }
    }
}

fn store_owners(pages: &mut [Page], first: u32, owners: &Owners) {
    let count = owners.pages();
    for at in 0..count.div_ceil(1024) {
        if let Some(page) = pages.get_mut(first as usize + at as usize)
            && 1024 * at < count
        {
            owners.write_page(at, page);
        }
    }
}
