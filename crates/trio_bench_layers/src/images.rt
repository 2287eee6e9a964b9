//! Images of 32 MiB: a full one, a deep one, a wide one, one of equal blocks, and ones whose files share
//! their blocks.

use std::alloc::Global;
use trio_layout::{Body, CoreRange, EntryPart};
use trio_names::Name;
use trio_page::Home;
use trio_rights::{Kind, Mode};
use trio_samples::Sample;
use trio_samples::files::root;

/// The core pages of each image.
pub const RANGE: CoreRange = CoreRange {
    first: 137,
    end: 8192,
};

/// How many inode numbers each image has.
pub const INODES: u32 = 16_384;

/// How many numbers an index page has.
const INDEX: u32 = 511;

/// How many entries a directory page has.
const SLOTS: u32 = 16;

/// How many directories a full image has, and how many files each of them lists.
const DIRECTORIES: u32 = 63;

const LISTED: u32 = 256;

/// How many of these files have blocks, four each.
const LARGE: u32 = 1390;

/// An image, and the body of its root.
#[derive(Drop)]
pub struct Image {
    pub home: Home,
    pub root: [u8; 64],
}

/// Files whose chains differ in their first index page alone.
#[derive(Clone, Copy)]
pub struct Shared {
    pub files: u32,
    /// How many first index pages there are. Each has 511 times the number of an empty block.
    pub heads: u32,
    /// The kind of the first file of each of these, and of the others.
    pub kind: Kind,
    pub again: Kind,
    /// How many full directory pages follow in each chain.
    pub blocks: u32,
    /// How often the empty block follows on these.
    pub empty: u32,
    /// Whether the names are as long as a name can be, and begin alike.
    pub is_long: bool,
}

/// An image of which all pages and nearly all inode numbers are in use: directories of 256 files, of which
/// each of the first has four blocks.
pub fn full_image(alloc: Global) -> Option<Image> {
    let mut sample = blank(alloc)?;
    let pages = behind(alloc, RANGE.first, DIRECTORIES.div_ceil(SLOTS))?;
    put_chain(&mut sample, RANGE.first, &pages, 0);
    for d in 0..DIRECTORIES {
        add_directory(alloc, &mut sample, d)?;
    }
    image_of(alloc, sample, DIRECTORIES.div_ceil(SLOTS))
}

/// Adds the directory of this place in the root, and its files.
fn add_directory(alloc: Global, sample: &mut Sample, d: u32) -> Option<()> {
    let blocks = LISTED / SLOTS;
    let root_pages = DIRECTORIES.div_ceil(SLOTS).wrapping_add(1);
    let head = RANGE
        .first
        .wrapping_add(root_pages)
        .wrapping_add(d.wrapping_mul(blocks.wrapping_add(1)));
    let entry = EntryPart {
        ino: d.wrapping_add(2),
        kind: Kind::Directory,
        name: name_of(d, false)?,
    };
    put_entry(sample, RANGE.first.wrapping_add(1), d, &entry, head, blocks);
    put_chain(sample, head, &behind(alloc, head, blocks)?, 0);
    for i in 0..LISTED {
        add_file(alloc, sample, head, d.wrapping_mul(LISTED).wrapping_add(i))?;
    }
    Some(())
}

/// Adds the file of this number, in the directory of this first index page.
fn add_file(alloc: Global, sample: &mut Sample, directory: u32, file: u32) -> Option<()> {
    let first = RANGE.end.saturating_sub(5 * LARGE);
    let entry = EntryPart {
        ino: file.wrapping_add(2).wrapping_add(DIRECTORIES),
        kind: Kind::Regular,
        name: name_of(file, false)?,
    };
    let (head, blocks) = if file < LARGE {
        (first.wrapping_add(file.wrapping_mul(5)), 4)
    } else {
        (0, 0)
    };
    let page = directory.wrapping_add(1);
    put_entry(sample, page, file % LISTED, &entry, head, blocks);
    if blocks > 0 {
        put_chain(sample, head, &behind(alloc, head, blocks)?, 0);
    }
    Some(())
}

/// An image of one directory in another, as deep as its pages suffice.
pub fn deep_image(alloc: Global) -> Option<Image> {
    let mut sample = blank(alloc)?;
    let depth = RANGE.end.saturating_sub(RANGE.first) / 2;
    for d in 0..depth {
        let head = RANGE.first.wrapping_add(2 * d);
        put_chain(&mut sample, head, &behind(alloc, head, 1)?, 0);
        let entry = shared_entry(Kind::Directory, d, 0, false)?;
        let (child, blocks) = if d.wrapping_add(1) < depth {
            (head.wrapping_add(2), 1)
        } else {
            (0, 0)
        };
        put_entry(&mut sample, head.wrapping_add(1), 0, &entry, child, blocks);
    }
    image_of(alloc, sample, 1)
}

/// An image of as many empty files as it has inode numbers, all in the root.
pub fn wide_image(alloc: Global) -> Option<Image> {
    let mut sample = blank(alloc)?;
    let block = put_root(alloc, &mut sample, INODES - 1)?;
    for file in 0..INODES - 1 {
        let entry = shared_entry(Kind::Regular, file, mixed(file), false)?;
        put_entry(&mut sample, block, file, &entry, 0, 0);
    }
    image_of(alloc, sample, (INODES - 1).div_ceil(SLOTS))
}

/// How many directories an image of equal blocks has.
const EQUALS: u32 = 3500;

/// An image of directories that have one block each, all of the same bytes.
pub fn equal_image(alloc: Global) -> Option<Image> {
    let mut sample = blank(alloc)?;
    let block = put_root(alloc, &mut sample, EQUALS)?;
    let first = block.wrapping_add(EQUALS.div_ceil(SLOTS));
    for d in 0..EQUALS {
        let head = first.wrapping_add(2 * d);
        put_chain(&mut sample, head, &behind(alloc, head, 1)?, 0);
        let entry = shared_entry(Kind::Directory, d, d, false)?;
        put_entry(&mut sample, block, d, &entry, head, 1);
        for slot in 0..SLOTS {
            let entry = shared_entry(Kind::Regular, EQUALS + slot, slot, false)?;
            put_entry(&mut sample, head.wrapping_add(1), slot, &entry, 0, 0);
        }
    }
    image_of(alloc, sample, EQUALS.div_ceil(SLOTS))
}

/// Writes the chain of a root of so many entries, and returns its first block.
fn put_root(alloc: Global, sample: &mut Sample, entries: u32) -> Option<u32> {
    let listing = entries.div_ceil(SLOTS);
    let block = RANGE.first.wrapping_add(listing.div_ceil(INDEX));
    let pages = behind(alloc, block.wrapping_sub(1), listing)?;
    put_chain(sample, RANGE.first, &pages, 0);
    Some(block)
}

/// An image of these files. In this order it has the root's index pages and blocks, the empty block, the
/// full ones, the index pages that all chains share, and the first ones.
pub fn shared_image(alloc: Global, shared: &Shared) -> Option<Image> {
    let mut sample = blank(alloc)?;
    let listing = shared.files.div_ceil(SLOTS);
    let block = put_root(alloc, &mut sample, shared.files)?;
    let empty = block.wrapping_add(listing);
    let rest = empty.wrapping_add(shared.blocks).wrapping_add(1);
    let chain = chain_behind(alloc, shared, empty)?;
    let more = shared.blocks.wrapping_add(shared.empty);
    let first = rest.wrapping_add(more.div_ceil(INDEX));
    put_chain(&mut sample, rest, &chain, 0);
    let padding = vec![in alloc; empty; INDEX as usize].ok()?;
    for head in 0..shared.heads {
        put_chain(&mut sample, first.wrapping_add(head), &padding, rest);
    }
    let count = INDEX.wrapping_add(more);
    for file in 0..shared.files {
        let head = first.wrapping_add(file % shared.heads.max(1));
        let kind = if file < shared.heads {
            shared.kind
        } else {
            shared.again
        };
        let entry = shared_entry(kind, file, file, false)?;
        put_entry(&mut sample, block, file, &entry, head, count);
    }
    for number in 0..shared.blocks.wrapping_mul(SLOTS) {
        let entry = shared_entry(Kind::Regular, number, mixed(number), shared.is_long)?;
        put_entry(&mut sample, empty.wrapping_add(1), number, &entry, 0, 0);
    }
    image_of(alloc, sample, listing)
}

/// The blocks of each chain behind those of its first index page.
fn chain_behind(alloc: Global, shared: &Shared, empty: u32) -> Option<Vec<u32>> {
    let mut chain = behind(alloc, empty, shared.blocks)?;
    for _ in 0..shared.empty {
        chain.push(empty).ok()?;
    }
    Some(chain)
}

/// An entry of one of the inode numbers behind the root's.
fn shared_entry(kind: Kind, number: u32, name: u32, is_long: bool) -> Option<EntryPart> {
    Some(EntryPart {
        ino: number % (INODES - 1) + 2,
        kind,
        name: name_of(name, is_long)?,
    })
}

/// An image with an empty root.
fn blank(alloc: Global) -> Option<Sample> {
    Sample::of(alloc, RANGE.end, INODES, &[root()]).ok()
}

/// The image, whose root has so many blocks and its first index page at the first core page.
fn image_of(alloc: Global, sample: Sample, blocks: u32) -> Option<Image> {
    Some(Image {
        home: sample.home(alloc).ok()?,
        root: body_of(RANGE.first, blocks),
    })
}

/// The bytes of a body of mode 644 with so many blocks.
fn body_of(head: u32, blocks: u32) -> [u8; 64] {
    let body = Body {
        mode: Mode(0o644),
        uid: 0,
        gid: 0,
        head,
        size: 4096 * u64::from(blocks),
        guard: false,
    };
    let mut bytes = [0; 64];
    body.write(&mut bytes);
    bytes
}

/// So many page numbers behind this one.
fn behind(alloc: Global, page: u32, count: u32) -> Option<Vec<u32>> {
    let mut pages = Vec::new(alloc);
    for i in 0..count {
        pages.push(page.wrapping_add(1).wrapping_add(i)).ok()?;
    }
    Some(pages)
}

/// Writes the index pages of a chain of these blocks, from this page on. The last links to `next`.
fn put_chain(sample: &mut Sample, at: u32, blocks: &[u32], next: u32) {
    let mut place = 0_u32;
    for block in blocks {
        let page = at.wrapping_add(place / INDEX);
        put_number(sample, page, place % INDEX, *block);
        put_number(sample, page, INDEX, page.wrapping_add(1));
        place = place.wrapping_add(1);
    }
    let last = place.saturating_sub(1) / INDEX;
    put_number(sample, at.wrapping_add(last), INDEX, next);
}

fn put_number(sample: &mut Sample, page: u32, place: u32, number: u32) {
    let bytes = u64::from(number).to_le_bytes();
    sample.put(page as usize, 8 * place as usize, &bytes);
}

/// Writes the entry of this place in a directory whose blocks begin at this page, and the body of its file.
fn put_entry(
    sample: &mut Sample,
    blocks: u32,
    place: u32,
    entry: &EntryPart,
    head: u32,
    count: u32,
) {
    let page = blocks.wrapping_add(place / SLOTS) as usize;
    let at = 256 * (place % SLOTS) as usize;
    let mut part = [0; 192];
    entry.write(&mut part);
    sample.put(page, at, &part);
    sample.put(page, at.saturating_add(192), &body_of(head, count));
}

/// The name of this number: six digits, behind 178 letters where it is long.
fn name_of(number: u32, is_long: bool) -> Option<Name> {
    let mut bytes = [b'n'; 184];
    let mut left = number;
    for i in 0..6_usize {
        bytes[183 - i] = b'0' + (left % 10) as u8;
        left /= 10;
    }
    let from = if is_long { 0 } else { 178 };
    Name::read(&bytes[from..]).ok()
}

/// Another number below 2 ^ 17 for each, in no order.
fn mixed(number: u32) -> u32 {
    number.wrapping_mul(40_503) % 0x2_0000
}
