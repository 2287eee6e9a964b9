//! Bytes spelled by hand from the formats, each read and written.

use std::alloc::Global;
use trio_layout::{Body, CoreRange, IndexPage, Slot, SlotRead, Superblock};
use trio_page::Page;
use trio_page::field::put_bytes_in;
use trio_rights::{Kind, Mode};

const RANGE: CoreRange = CoreRange { first: 3, end: 32 };

/// Mode 644, uid 1001, gid 5, head 7, size 4097: two blocks.
const BODY: [u8; 64] = [
    0xa4, 0x01, 0, 0, 0xe9, 0x03, 0, 0, 5, 0, 0, 0, 7, 0, 0, 0, 0x01, 0x10, 0, 0, 0, 0, 0, 0, 0, 0,
    0, 0, 0, 0, 0, 0, 0, 0, 0, 0, 0, 0, 0, 0, 0, 0, 0, 0, 0, 0, 0, 0, 0, 0, 0, 0, 0, 0, 0, 0, 0, 0,
    0, 0, 0, 0, 0, 0,
];

const READ_BODY: Body = Body {
    mode: Mode(0o644),
    uid: 1001,
    gid: 5,
    head: 7,
    size: 4097,
    guard: false,
};

#[test]
fn body_is_read_and_written(rt: HostRuntime) {
    let mut written = [0xff; 64];
    READ_BODY.write(&mut written);
    assert!(rt; written == BODY);
    assert!(rt; Body::read(&BODY, Kind::Regular, RANGE) == Some(READ_BODY));
    assert!(rt; READ_BODY.blocks() == 2);
}

/// Bytes of the body changed, by place and value, and whether a regular file's and a directory's body
/// is still read.
const BODIES: &[(&[(usize, u8)], bool, bool)] = &[
    (&[(0, 0xa4)], true, false),
    (&[(1, 0x02)], false, false),
    (&[(2, 1)], false, false),
    (&[(12, 2)], false, false),
    (&[(12, 32)], false, false),
    (&[(16, 0)], true, true),
    (&[(17, 0x20)], true, false),
    (&[(18, 2)], false, false),
    (&[(63, 1)], false, false),
    // where there are no blocks, the head is zero
    (&[(16, 0), (17, 0)], false, false),
    (&[(16, 0), (17, 0), (12, 0)], true, true),
];

/// A kind, the byte of the guard and a size, and whether a body of these is read.
const KINDS: &[(Kind, u8, u64, bool)] = &[
    (Kind::Regular, 0, 4097, true),
    (Kind::Regular, 1, 4097, true),
    (Kind::Regular, 2, 4097, false),
    (Kind::Directory, 0, 4096, true),
    (Kind::Directory, 1, 4096, false),
    (Kind::Link, 0, 1, true),
    (Kind::Link, 0, 4096, true),
    (Kind::Link, 0, 4097, false),
    (Kind::Link, 1, 4096, false),
];

fn kind_read(kind: Kind, guard: u8, size: u64) -> Option<bool> {
    let mut bytes = BODY;
    let [low, high, ..] = size.to_le_bytes();
    change(&mut bytes, &[(16, low), (17, high), (24, guard)]);
    let body = Body::read(&bytes, kind, RANGE)?;
    Some(body.guard)
}

#[test]
fn bodies_by_kind(rt: HostRuntime) {
    for (i, (kind, guard, size, is_read)) in KINDS.iter().enumerate() {
        let wanted = if *is_read { Some(*guard == 1) } else { None };
        assert!(rt; kind_read(*kind, *guard, *size) == wanted, "row {i}");
    }
    // a link has a block
    let mut bytes = BODY;
    change(&mut bytes, &[(16, 0), (17, 0), (12, 0)]);
    assert!(rt; Body::read(&bytes, Kind::Link, RANGE).is_none());
}

/// Puts bytes at their places, where there are such.
fn change(bytes: &mut [u8], changes: &[(usize, u8)]) {
    for (at, value) in changes {
        if let Some(byte) = bytes.get_mut(*at) {
            *byte = *value;
        }
    }
}

/// Whether a regular file's and a directory's body is read where these bytes are changed.
fn bodies_read(changes: &[(usize, u8)]) -> (bool, bool) {
    let mut bytes = BODY;
    change(&mut bytes, changes);
    let regular = Body::read(&bytes, Kind::Regular, RANGE);
    let directory = Body::read(&bytes, Kind::Directory, RANGE);
    (regular.is_some(), directory.is_some())
}

#[test]
fn bodies_outside_the_grammar(rt: HostRuntime) {
    for (i, (changes, regular, directory)) in BODIES.iter().enumerate() {
        assert!(rt; bodies_read(changes) == (*regular, *directory), "row {i}");
    }
}

/// Inode 4, a directory named `pq`, and a byte of the body.
const ENTRY: &[(usize, u8)] = &[(0, 4), (4, 2), (5, 2), (8, b'p'), (9, b'q'), (200, 9)];

fn slot_bytes() -> [u8; 256] {
    let mut bytes = [0; 256];
    change(&mut bytes, ENTRY);
    bytes
}

fn is_written_again(bytes: &[u8; 256]) -> Option<bool> {
    let SlotRead::Entry(entry) = Slot::read(bytes, 16) else {
        return None;
    };
    let mut written = [0xff; 192];
    entry.write(&mut written);
    let is_read = entry.ino == 4
        && entry.kind == Kind::Directory
        && entry.name.as_bytes() == b"pq".as_slice();
    Some(is_read && written[..] == bytes[..192])
}

#[test]
fn slot_is_read_and_written(rt: HostRuntime) {
    assert!(rt; is_written_again(&slot_bytes()) == Some(true));
}

/// One byte of the slot changed, by place and value, and what is read: 0 empty, 1 an entry, 2 bad.
const SLOTS: &[(usize, u8, u8)] = &[
    (0, 0, 0),
    (0, 16, 1),
    (0, 17, 2),
    (3, 1, 2),
    (4, 3, 1),
    (4, 4, 2),
    (5, 0, 2),
    (5, 185, 2),
    (6, 1, 2),
    (8, b'/', 2),
    (10, 1, 2),
    (191, 1, 2),
];

fn slot_read(at: usize, value: u8) -> u8 {
    let mut bytes = slot_bytes();
    change(&mut bytes, &[(at, value)]);
    match Slot::read(&bytes, 16) {
        SlotRead::Empty => 0,
        SlotRead::Entry(_) => 1,
        SlotRead::Bad => 2,
    }
}

#[test]
fn slots_outside_the_grammar(rt: HostRuntime) {
    for (at, value, wanted) in SLOTS {
        assert!(rt; slot_read(*at, *value) == *wanted, "byte {at}");
    }
}

/// The first three numbers of an index page, and its link.
type Numbers = (u32, u32, u32, u32);

/// How many numbers are in use, whether the page is the last of its chain, the link and the second
/// number on it, and what is read.
const INDEX_PAGES: &[(u16, bool, u64, u64, Option<Numbers>)] = &[
    (2, true, 0, 31, Some((6, 31, 0, 0))),
    (1, true, 0, 31, None),
    (3, true, 0, 31, None),
    (2, false, 0, 31, None),
    (2, true, 7, 31, None),
    (2, false, 7, 31, Some((6, 31, 0, 7))),
    (2, false, 7, 32, None),
];

fn index_page(alloc: Global, link: u64, second: u64) -> Option<Page> {
    let mut page = Page::zero(alloc).ok()?;
    page.put_u64(0, 6);
    page.put_u64(8, second);
    page.put_u64(4088, link);
    Some(page)
}

fn numbers_read(page: &Page, used: u16, last: bool) -> Option<Numbers> {
    if used == 0 || used > 511 {
        return None;
    }
    let index = IndexPage::read(page, used, last, RANGE)?;
    Some((
        index.number(0),
        index.number(1),
        index.number(2),
        index.next(),
    ))
}

#[test]
fn index_page_is_read(rt: HostRuntime) {
    for (i, (used, last, link, second, wanted)) in INDEX_PAGES.iter().enumerate() {
        let page = index_page(rt.alloc(), *link, *second);
        let read = page.map(|page| numbers_read(&page, *used, *last));
        assert!(rt; read == Some(*wanted), "row {i}");
    }
}

/// 512 pages, 128 inode numbers: one shadow page, one owner page, the first core page is 3.
const SUPERBLOCK: [u8; 41] = [
    b'A', b'R', b'C', b'K', b'T', b'R', b'I', b'O', 2, 0, 0, 0, 0, 0x10, 0, 0, 0, 2, 0, 0, 128, 0,
    0, 0, 1, 0, 0, 0, 2, 0, 0, 0, 3, 0, 0, 0, 1, 0, 0, 0, 0xed,
];

fn superblock_page(alloc: Global) -> Option<Page> {
    let mut page = Page::zero(alloc).ok()?;
    put_bytes_in(page.bytes_mut(), 0, &SUPERBLOCK);
    Some(page)
}

fn has_sizes(block: &Superblock) -> bool {
    let sizes = (block.pages, block.inodes);
    let places = (block.first_owner, block.first_core);
    sizes == (512, 128) && places == (2, 3) && block.root[0] == 0xed
}

fn is_superblock(alloc: Global) -> Option<bool> {
    let page = superblock_page(alloc)?;
    let block = Superblock::read(&page)?;
    let mut written = Page::zero(alloc).ok()?;
    let is_none = Superblock::read(&written).is_none();
    written.put_u64(4088, 1);
    block.write(&mut written);
    Some(is_none && has_sizes(&block) && written.bytes() == page.bytes())
}

#[test]
fn superblock_is_read_and_written(rt: HostRuntime) {
    assert!(rt; is_superblock(rt.alloc()) == Some(true));
}

/// One byte of the superblock changed, by place and value: none is read any more.
const SUPERBLOCKS: &[(usize, u8)] = &[
    (0, b'B'),
    (8, 1),
    (8, 3),
    (13, 0x20),
    (17, 33),
    (20, 15),
    (28, 3),
    (32, 4),
    (36, 2),
    (4095, 1),
];

fn is_refused(alloc: Global, at: usize, value: u8) -> Option<bool> {
    let mut page = superblock_page(alloc)?;
    change(page.bytes_mut(), &[(at, value)]);
    Some(Superblock::read(&page).is_none())
}

// a version in its field, and one that is asked for: whether a superblock is read
const VERSIONS: &[(u8, u32, bool)] = &[
    (1, 1, true),
    (1, 2, false),
    (2, 1, false),
    (2, 2, true),
    (3, 1, false),
];

fn is_of_version(alloc: Global, field: u8, version: u32) -> Option<bool> {
    let mut page = superblock_page(alloc)?;
    change(page.bytes_mut(), &[(8, field)]);
    Some(Superblock::read_version(&page, version).is_some())
}

#[test]
fn superblocks_of_versions(rt: HostRuntime) {
    for (field, version, wanted) in VERSIONS {
        assert!(rt;
            is_of_version(rt.alloc(), *field, *version) == Some(*wanted),
            "{field} {version}"
        );
    }
}

#[test]
fn superblocks_outside_the_grammar(rt: HostRuntime) {
    for (at, value) in SUPERBLOCKS {
        assert!(rt;
            is_refused(rt.alloc(), *at, *value) == Some(true),
            "byte {at}"
        );
    }
}
