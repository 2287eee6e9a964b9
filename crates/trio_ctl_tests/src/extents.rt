//! How files lie in the settled image.

use crate::controllers::started;
use crate::images::Start;
use std::alloc::Global;
use trio_ctl::{Ctl, Extent};
use trio_rights::Kind;

/// The kind of a file, whether it is guarded, and how many index pages and blocks it has.
type Lies = (Kind, bool, u32, u32);

/// An image, an inode number, and how the file of it lies.
const LYING: &[(Start, u32, Option<Lies>)] = &[
    (Start::GuardAndLink, 0, None),
    (Start::GuardAndLink, 1, Some((Kind::Directory, false, 1, 1))),
    (Start::GuardAndLink, 2, Some((Kind::Directory, false, 1, 1))),
    (Start::GuardAndLink, 3, Some((Kind::Regular, true, 1, 1))),
    (Start::GuardAndLink, 4, Some((Kind::Link, false, 1, 1))),
    (Start::GuardAndLink, 5, None),
    (Start::LongFiles, 2, Some((Kind::Regular, false, 1, 2))),
    (Start::LongFiles, 5, Some((Kind::Directory, false, 0, 0))),
    (Start::LongFiles, 4_000_000_000, None),
];

fn parts_of(extent: Extent) -> Lies {
    (extent.kind, extent.guarded, extent.index, extent.blocks)
}

fn lies(ctl: &Ctl, ino: u32) -> Option<Lies> {
    let extent = ctl.extent(ino)?;
    Some(parts_of(extent))
}

fn lies_in(alloc: Global, start: Start, ino: u32, expected: Option<Lies>) -> bool {
    match started(alloc, start, 0) {
        Some(ctl) => lies(&ctl, ino) == expected,
        None => false,
    }
}

#[test]
fn files_lie_as_their_bodies_say(rt: HostRuntime) {
    for (start, ino, expected) in LYING {
        assert!(rt; lies_in(rt.alloc(), *start, *ino, *expected), "{ino}");
    }
}
