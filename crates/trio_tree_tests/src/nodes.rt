//! Nodes by number and by path, names in order, bytes, and blocks that a release tells.

use crate::making::{Row, nodes_of, put};
use std::alloc::Global;
use trio_names::{Name, Path};
use trio_nodes::{
    Bytes, Handed, HandedHead, HandedPage, Nodes, PlacedBlock, RawBundle, SharedBytes,
};
use trio_rights::{Kind, Mode};

const FILES: &[Row] = &[
    (1, 0, b"-", Kind::Regular, 0o644, b"abc"),
    (7, 1, b"b", Kind::Regular, 0o644, b"abc"),
    (3, 7, b"c", Kind::Regular, 0o644, b"abc"),
];

/// A file of the last number, which no node can have.
const LAST: Row = (u32::MAX, 1, b"d", Kind::Regular, 0o644, b"abc");

const FOUND: &[(&[u8], Option<u32>)] = &[
    (b"/", Some(1)),
    (b"/b/c", Some(3)),
    (b"/b/b", None),
    (b"/c/c", None),
];

fn found(alloc: Global, nodes: &Nodes, path: &[u8]) -> Option<Option<u32>> {
    Some(nodes.find(&Path::read(alloc, path).ok()?))
}

/// Whether each path leads where it should.
fn are_found(alloc: Global, nodes: &Nodes) -> bool {
    for (path, ino) in FOUND {
        if found(alloc, nodes, path) != Some(*ino) {
            return false;
        }
    }
    true
}

fn mode_of(nodes: &Nodes, ino: u32) -> Option<Mode> {
    Some(nodes.get(ino)?.mode)
}

fn set_mode(nodes: &mut Nodes, ino: u32, mode: Mode) {
    if let Some(node) = nodes.get_mut(ino) {
        node.mode = mode;
    }
}

/// The directory of the node that is taken out, where there is one.
fn removed_from(nodes: &mut Nodes, ino: u32) -> Option<u32> {
    Some(nodes.remove(ino)?.parent)
}

fn are_kept(alloc: Global) -> Option<bool> {
    let mut nodes = nodes_of(alloc, FILES)?;
    let is_found = are_found(alloc, &nodes) && nodes.count(1) == 1;
    set_mode(&mut nodes, 3, Mode(0o600));
    let modes = (mode_of(&nodes, 3), mode_of(&nodes, 7));
    let is_set = modes == (Some(Mode(0o600)), Some(Mode(0o644)));
    let gone = (
        removed_from(&mut nodes, 3),
        removed_from(&mut nodes, 3),
        removed_from(&mut nodes, 99),
    );
    let is_put = put(alloc, &mut nodes, &LAST);
    Some(is_found && is_set && gone == (Some(7), None, None) && !is_put)
}

#[test]
fn nodes_are_put_and_found(rt: HostRuntime) {
    let nodes = Nodes::new(rt.alloc());
    assert!(rt; nodes.get(1).is_none());
    assert!(rt; found(rt.alloc(), &nodes, b"/") == Some(None));
    assert!(rt; are_kept(rt.alloc()) == Some(true));
}

const LISTED: &[Row] = &[
    (2, 1, b"b", Kind::Regular, 0o644, b"abc"),
    (13, 1, b"\xFF", Kind::Regular, 0o644, b"abc"),
    (17, 1, b"aa", Kind::Regular, 0o644, b"abc"),
    (25, 1, b"B", Kind::Regular, 0o644, b"abc"),
    (23, 1, b"a", Kind::Regular, 0o644, b"abc"),
    (19, 1, b"a\x01", Kind::Regular, 0o644, b"abc"),
    (8, 2, b"elsewhere", Kind::Regular, 0o644, b"abc"),
];

const SORTED: &[&[u8]] = &[b"B", b"a", b"a\x01", b"aa", b"b", b"\xFF"];

fn are_sorted(entries: &[(Name, Kind)]) -> bool {
    for (entry, wanted) in entries.iter().zip(SORTED) {
        if entry.0.as_bytes() != *wanted {
            return false;
        }
    }
    entries.len() == SORTED.len()
}

fn lists_in_order(alloc: Global) -> Option<bool> {
    let nodes = nodes_of(alloc, LISTED)?;
    Some(are_sorted(&nodes.names(1).ok()?))
}

#[test]
fn names_are_in_byte_order(rt: HostRuntime) {
    assert!(rt; lists_in_order(rt.alloc()) == Some(true));
}

fn cuts_and_grows(alloc: Global) -> Option<bool> {
    let mut bytes = Bytes::copied(alloc, b"abcdef").ok()?;
    bytes.put_within(4, b"xyz");
    let is_cut = bytes.as_slice() == b"abcdxy".as_slice();
    bytes.put_within(6, b"w");
    bytes.put_within(1, b"..");
    let is_put = bytes.as_slice() == b"a..dxy".as_slice();
    bytes.resize(2).ok()?;
    bytes.resize(4).ok()?;
    Some(is_cut && is_put && bytes.as_slice() == b"a.\0\0".as_slice())
}

#[test]
fn bytes_are_cut_grown_and_put(rt: HostRuntime) {
    assert!(rt; cuts_and_grows(rt.alloc()) == Some(true));
}

/// The same bytes, where those that they came from are gone.
fn shared(bytes: SharedBytes) -> Option<SharedBytes> {
    bytes.share().ok()
}

fn has_copied(alloc: Global) -> Option<bool> {
    let same = shared(SharedBytes::copied(alloc, b"abc").ok()?)?;
    Some(same.as_slice() == b"abc".as_slice())
}

fn has_moved(alloc: Global) -> Option<bool> {
    let same = shared(SharedBytes::from_vec(b"de".to_vec(alloc).ok()?).ok()?)?;
    Some(same.as_slice() == b"de".as_slice())
}

#[test]
fn shared_bytes_outlive_those_that_they_came_from(rt: HostRuntime) {
    assert!(rt; has_copied(rt.alloc()) == Some(true));
    assert!(rt; has_moved(rt.alloc()) == Some(true));
}

fn page(alloc: Global, no: u32, bytes: &[u8]) -> Option<HandedPage> {
    let bytes = Bytes::copied(alloc, bytes).ok()?;
    Some(HandedPage {
        no,
        bytes,
        touched: false,
    })
}

// The pages of one written file, an index page and a block, and an allotted one.
const PAGES: &[(u32, &[u8])] = &[(20, b"i"), (30, b"b"), (40, b"f")];

fn pages(alloc: Global) -> Option<Vec<HandedPage>> {
    let mut pages = Vec::new(alloc);
    for (no, bytes) in PAGES {
        pages.push(page(alloc, *no, bytes)?).ok()?;
    }
    Some(pages)
}

const HEAD: HandedHead = HandedHead {
    ino: 7,
    kind: Kind::Regular,
    body: [0; 64],
    index: 1,
    blocks: 1,
};

// a written file and an allotted page
fn handed(alloc: Global) -> Option<Handed> {
    let heads = [HEAD].to_vec(alloc).ok()?;
    let pages = pages(alloc)?;
    if pages.len() < 2 {
        return None;
    }
    Some(Handed::of(heads, Vec::new(alloc), pages, Vec::new(alloc)))
}

const PLACES: &[(usize, &[u8])] = &[(1, b"b"), (2, b"f"), (0, b"i"), (3, b"")];

// Whether one block is told, that of the file 9 at 3, with these bytes.
fn tells(bundle: &RawBundle, bytes: &[u8]) -> bool {
    match bundle.block(0) {
        Some(told) => {
            let is_one = bundle.blocks_len() == 1 && bundle.block(1).is_none();
            is_one && told.ino == 9 && told.at == 3 && told.bytes == bytes
        }
        None => false,
    }
}

// Whether the block at a place is told with these bytes.
fn is_told(alloc: Global, place: usize, bytes: &[u8]) -> Option<bool> {
    let placed = PlacedBlock {
        ino: 9,
        at: 3,
        place,
    };
    let handed = handed(alloc)?;
    let blocks = [placed].to_vec(alloc).ok()?;
    Some(tells(&RawBundle::of(handed, blocks), bytes))
}

#[test]
fn told_blocks_have_the_bytes_of_their_pages(rt: HostRuntime) {
    for (i, (place, bytes)) in PLACES.iter().enumerate() {
        assert!(rt; is_told(rt.alloc(), *place, bytes) == Some(true), "row {i}");
    }
}
