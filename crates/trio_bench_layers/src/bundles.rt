//! Bundles of many directory pages, all handed in by one library.
//!
//! The image has an empty root. The library has the write lease on it and hands in all other pages
//! and inode numbers, so that what it writes is all there is to judge.

use std::alloc::Global;
use trio_layout::{Body, CoreRange, EntryPart};
use trio_lease::{Bundle, FreshIno, FreshPage, FreshParts, InoParts, WriteLease, WriteParts};
use trio_names::Name;
use trio_page::{Page, PageNo};
use trio_rights::{Kind, LibNo, Mode};
use trio_samples::put;
use trio_tables::{Row, Shadow};

/// The core pages of the image.
pub const RANGE: CoreRange = CoreRange {
    first: 3,
    end: 8192,
};

/// How many inode numbers the image has.
pub const INODES: u32 = 16_384;

const LIB: LibNo = LibNo(1);

/// How many numbers an index page has.
const INDEX: u32 = 511;

/// How many entries a directory page has.
const SLOTS: u32 = 16;

/// The names of a bundle, each by a number below 2 ^ 17.
#[derive(Clone, Copy)]
pub enum Names {
    /// 34 letters of which the order says nothing.
    Plain,
    /// 17 times `Aa` or `BB`, which a hash that multiplies by 31 can't tell apart, in byte order.
    Colliding,
    /// The same, in no order.
    CollidingMixed,
    /// The same, each half as far from the last as that was from the one before.
    CollidingHalved,
    /// 150 letters that all have, and then such 34.
    Long,
}

/// A bundle of directory pages.
#[derive(Clone, Copy)]
pub struct Shape {
    /// How many directory pages the root has.
    pub blocks: u32,
    /// How many entries each has.
    pub entries: u32,
    /// The first so many entries name a file of their own, the others the last of these again.
    pub files: u32,
    /// The first so many of these files list the root's pages again.
    pub sharing: u32,
    /// The kind of those.
    pub kind: Kind,
    /// How many first index pages they have among them.
    pub heads: u32,
    pub names: Names,
}

/// A bundle as it is handed in.
pub fn bundle_of(alloc: Global, shape: &Shape) -> Option<Bundle> {
    let mut bundle = Bundle::new(alloc);
    let is_whole = add_root(alloc, &mut bundle, shape)
        && add_pages(alloc, &mut bundle, shape)
        && add_inos(&mut bundle, shape.files);
    if is_whole {
        return Some(bundle);
    }
    bundle.discard();
    None
}

/// How many pages the bundle has.
fn page_count(shape: &Shape) -> u32 {
    shape
        .blocks
        .saturating_add(index_count(shape))
        .saturating_add(shape.heads)
}

/// How many index pages the root has.
fn index_count(shape: &Shape) -> u32 {
    shape.blocks.div_ceil(INDEX)
}

/// The rows of an image with an empty root.
pub fn root_alone(alloc: Global) -> Option<Shadow> {
    let mut rows = Shadow::new(alloc, INODES).ok()?;
    if rows.inodes() == 0 {
        return None;
    }
    rows.set(
        1,
        Some(Row {
            kind: Kind::Directory,
            mode: Mode(0o755),
            uid: 0,
            gid: 0,
            parent: 0,
            page: 0,
            slot: 0,
        }),
    );
    Some(rows)
}

/// A body of mode 755 with so many blocks.
fn body(head: u32, blocks: u32) -> Body {
    Body {
        mode: Mode(0o755),
        uid: 0,
        gid: 0,
        head,
        size: 4096 * u64::from(blocks),
        guard: false,
    }
}

/// Writes the page of this place among those of the bundle: first come the root's blocks, then its index
/// pages, and then the first index pages of the files that share them.
fn write_page(page: &mut Page, place: u32, shape: &Shape) -> Option<()> {
    let behind = place.saturating_sub(shape.blocks);
    if place < shape.blocks {
        write_block(page, place, shape)
    } else if behind < index_count(shape) {
        write_index(page, behind, shape);
        Some(())
    } else {
        write_index(page, 0, shape);
        Some(())
    }
}

/// An index page of the root, or of a file that lists the same blocks.
fn write_index(page: &mut Page, at: u32, shape: &Shape) {
    let first = INDEX.wrapping_mul(at);
    let rest = shape.blocks.saturating_sub(first);
    for i in 0..rest.min(INDEX) {
        let number = u64::from(RANGE.first.wrapping_add(first).wrapping_add(i)).to_le_bytes();
        put(page.bytes_mut(), 8 * i as usize, &number);
    }
    if rest > INDEX {
        let next = u64::from(
            RANGE
                .first
                .wrapping_add(shape.blocks)
                .wrapping_add(at)
                .wrapping_add(1),
        )
        .to_le_bytes();
        put(page.bytes_mut(), 4088, &next);
    }
}

/// A directory page.
fn write_block(page: &mut Page, at: u32, shape: &Shape) -> Option<()> {
    for slot in 0..shape.entries.min(SLOTS) {
        write_entry(
            page,
            slot,
            shape.entries.wrapping_mul(at).wrapping_add(slot),
            shape,
        )?;
    }
    Some(())
}

/// The entry of this number in a slot, and the body of its file.
fn write_entry(page: &mut Page, slot: u32, number: u32, shape: &Shape) -> Option<()> {
    let file = number.min(shape.files.saturating_sub(1));
    let (kind, body) = file_of(file, shape);
    let entry = EntryPart {
        ino: file.wrapping_add(2),
        kind,
        name: name_of(shape.names, number)?,
    };
    let mut part = [0; 192];
    entry.write(&mut part);
    let at = 256 * slot as usize;
    put(page.bytes_mut(), at, &part);
    let mut bytes = [0; 64];
    body.write(&mut bytes);
    put(page.bytes_mut(), at.saturating_add(192), &bytes);
    Some(())
}

/// The kind and the body of the file of this place.
fn file_of(file: u32, shape: &Shape) -> (Kind, Body) {
    if file >= shape.sharing {
        return (Kind::Regular, body(0, 0));
    }
    let head = RANGE
        .first
        .wrapping_add(shape.blocks)
        .wrapping_add(index_count(shape))
        .wrapping_add(file % shape.heads.max(1));
    (shape.kind, body(head, shape.blocks))
}

/// The name of this number.
fn name_of(names: Names, number: u32) -> Option<Name> {
    let mut bytes = [b'n'; 184];
    spell(&mut bytes[150..], names, spelled(names, number));
    match names {
        Names::Long => Name::read(&bytes).ok(),
        _ => Name::read(&bytes[150..]).ok(),
    }
}

/// The number whose bits are spelled for this one.
fn spelled(names: Names, number: u32) -> u32 {
    match names {
        Names::Colliding => number,
        Names::CollidingHalved => halved(number),
        Names::Plain | Names::CollidingMixed | Names::Long => mixed(number),
    }
}

/// The two letters of a bit.
fn letters(names: Names, bit: u32) -> &'static [u8; 2] {
    match (names, bit) {
        (Names::Plain, 0) => b"aq",
        (Names::Plain, _) => b"xc",
        (_, 0) => b"Aa",
        _ => b"BB",
    }
}

/// Another number below 2 ^ 17 for each, in no order.
fn mixed(number: u32) -> u32 {
    let mut mixed = number;
    for factor in [40_503_u32, 29_341, 50_261] {
        mixed = mixed.wrapping_mul(factor) % 0x2_0000;
        mixed ^= mixed >> 9;
    }
    mixed
}

/// The number with its 17 bits in the other order.
fn halved(number: u32) -> u32 {
    let mut halved = 0_u32;
    for bit in 0..17_u32 {
        halved = halved.wrapping_mul(2).wrapping_add((number >> bit) % 2);
    }
    halved
}

/// Spells the 17 bits of a number, the highest first, by two letters each.
fn spell(bytes: &mut [u8], names: Names, number: u32) {
    for bit in 0..17_u32 {
        let pair = letters(names, (number >> (16 - bit)) % 2);
        put(bytes, 2 * bit as usize, pair);
    }
}

/// Adds the write lease on the root, with its new body.
fn add_root(alloc: Global, bundle: &mut Bundle, shape: &Shape) -> bool {
    let mut bytes = [0; 64];
    let head = RANGE.first.wrapping_add(shape.blocks);
    body(head, shape.blocks).write(&mut bytes);
    let lease = WriteLease::of(WriteParts {
        lib: LIB,
        ino: 1,
        kind: Kind::Directory,
        entry: 0,
        body: bytes,
        index: Vec::new(alloc),
        blocks: Vec::new(alloc),
    });
    match bundle.add_write(lease) {
        Ok(()) => true,
        Err((lease, _)) => {
            lease.discard();
            false
        }
    }
}

/// Adds the pages, from the first core page on.
fn add_pages(alloc: Global, bundle: &mut Bundle, shape: &Shape) -> bool {
    for place in 0..page_count(shape) {
        if !add_page_at(alloc, bundle, place, shape) {
            return false;
        }
    }
    true
}

fn add_page_at(alloc: Global, bundle: &mut Bundle, place: u32, shape: &Shape) -> bool {
    match page_at(alloc, place, shape) {
        Some(page) => add_page(bundle, page),
        None => false,
    }
}

fn page_at(alloc: Global, place: u32, shape: &Shape) -> Option<FreshPage> {
    let mut page = Page::zero(alloc).ok()?;
    write_page(&mut page, place, shape)?;
    Some(FreshPage::of(FreshParts {
        lib: LIB,
        no: PageNo(RANGE.first.wrapping_add(place)),
        page,
    }))
}

fn add_page(bundle: &mut Bundle, page: FreshPage) -> bool {
    match bundle.add_page(page) {
        Ok(()) => true,
        Err((page, _)) => {
            page.discard();
            false
        }
    }
}

/// Adds so many inode numbers.
fn add_inos(bundle: &mut Bundle, files: u32) -> bool {
    for file in 0..files {
        let no = file.wrapping_add(2);
        if !add_ino(bundle, FreshIno::of(InoParts { lib: LIB, no })) {
            return false;
        }
    }
    true
}

fn add_ino(bundle: &mut Bundle, ino: FreshIno) -> bool {
    match bundle.add_ino(ino) {
        Ok(()) => true,
        Err((ino, _)) => {
            ino.discard();
            false
        }
    }
}
