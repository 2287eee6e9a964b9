//! The bytes of the image with one file, spelled by hand.

use std::alloc::Global;
use trio_samples::files::one_file;
use trio_samples::{Sample, put};

/// Where the image isn't zero.
const PARTS: &[(usize, &[u8])] = &[
    (0, b"ARCKTRIO"),
    (8, b"\x02\0\0\0\0\x10\0\0\x20\0\0\0\x40"),
    (24, b"\x01\0\0\0\x02\0\0\0\x03\0\0\0\x01"),
    // the root's body: mode 755, first index page 3, size 4096
    (40, b"\xed\x01"),
    (52, b"\x03\0\0\0\0\x10"),
    // the rows of 1 and 2
    (4096, b"\x01\x02\xed\x01"),
    (4128, b"\x01\x01\xa4\x01"),
    (4140, b"\x01\0\0\0\x04"),
    // the owners of pages 0 to 6
    (
        8192,
        b"\xff\xff\xff\xff\xff\xff\xff\xff\xff\xff\xff\xff\x01\0\0\0\x01\0\0\0\x02\0\0\0\x02",
    ),
    // the root's index page and its block, with the entry of 2
    (12_288, b"\x04"),
    (16_384, b"\x02\0\0\0\x01\x01\0\0f"),
    (16_576, b"\xa4\x01\0\0\0\0\0\0\0\0\0\0\x05\0\0\0\x05"),
    // the file's index page and its block
    (20_480, b"\x06"),
    (24_576, b"hello"),
];

fn spell(bytes: &mut [u8]) {
    for (at, part) in PARTS {
        put(bytes, *at, part);
    }
}

fn is_as_spelled(alloc: Global) -> Option<bool> {
    let mut bytes = vec![in alloc; 0; 131_072].ok()?;
    spell(&mut bytes);
    let sample = Sample::small(alloc, &one_file()).ok()?;
    Some(sample.bytes(alloc).ok()?.as_slice() == bytes.as_slice())
}

#[test]
fn one_file_by_hand(rt: HostRuntime) {
    assert!(rt; is_as_spelled(rt.alloc()) == Some(true));
}
