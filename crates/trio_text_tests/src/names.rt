//! Names and paths by their bytes, and bytes as they are printed.

use std::alloc::Global;
use trio_names::{NAME_LIMIT, Name, NameFault, Path, PathFault, escaped};

/// Bytes, and why they are no name.
const NAMES: &[(&[u8], Option<NameFault>)] = &[
    (&[b'n'; NAME_LIMIT], None),
    (&[b'n'; NAME_LIMIT + 1], Some(NameFault::TooLong)),
    (b"", Some(NameFault::Empty)),
    (b"/", Some(NameFault::BadByte)),
    (b"a/b", Some(NameFault::BadByte)),
    (b"a\0", Some(NameFault::BadByte)),
    (b".", Some(NameFault::Dots)),
    (b"..", Some(NameFault::Dots)),
    (b"...", None),
    (b".a", None),
    (b"\xFF\\ \n", None),
    (b"a", None),
];

/// Whether the bytes are refused for this, or read as a name that has them.
fn is_read(bytes: &[u8], fault: Option<NameFault>) -> bool {
    match Name::read(bytes) {
        Ok(name) => fault.is_none() && name.as_bytes() == bytes,
        Err(found) => fault == Some(found),
    }
}

#[test]
fn names_are_read_or_refused(rt: HostRuntime) {
    for (i, (bytes, fault)) in NAMES.iter().enumerate() {
        assert!(rt; is_read(bytes, *fault), "row {i}");
    }
}

/// Two names, whether they are the same, and whether the first is less.
const ORDER: &[(&[u8], &[u8], bool, bool)] = &[
    (b"a", b"a", true, false),
    (b"a", b"aa", false, true),
    (b"aa", b"b", false, true),
];

fn compare(first: &[u8], second: &[u8]) -> Option<(bool, bool, bool)> {
    let (first, second) = (Name::read(first).ok()?, Name::read(second).ok()?);
    Some((first == second, first != second, first < second))
}

#[test]
fn names_are_ordered_as_bytes(rt: HostRuntime) {
    for (i, (first, second, is_same, is_less)) in ORDER.iter().enumerate() {
        let wanted = (*is_same, !*is_same, *is_less);
        assert!(rt; compare(first, second) == Some(wanted), "row {i}");
    }
}

/// Bytes, and how many names the path has that they are, or why they are none.
const PATHS: &[(&[u8], Result<usize, PathFault>)] = &[
    (b"", Err(PathFault::NotAbsolute)),
    (b"a", Err(PathFault::NotAbsolute)),
    (b"a/b", Err(PathFault::NotAbsolute)),
    (b"/", Ok(0)),
    (b"/a/b", Ok(2)),
    (b"/a/", Err(PathFault::BadName)),
    (b"/a//b", Err(PathFault::BadName)),
    (b"//", Err(PathFault::BadName)),
    (b"/a/..", Err(PathFault::BadName)),
];

fn count_names(alloc: Global, bytes: &[u8]) -> Result<usize, PathFault> {
    Ok(Path::read(alloc, bytes)?.names().len())
}

fn has_names(path: &Path) -> bool {
    match path.names() {
        [first, second] => {
            first.as_bytes() == b"usr".as_slice() && second.as_bytes() == b"lib".as_slice()
        }
        _ => false,
    }
}

fn names_in_order(alloc: Global) -> Option<bool> {
    Some(has_names(&Path::read(alloc, b"/usr/lib").ok()?))
}

#[test]
fn paths_are_read_or_refused(rt: HostRuntime) {
    for (i, (bytes, wanted)) in PATHS.iter().enumerate() {
        assert!(rt; count_names(rt.alloc(), bytes) == *wanted, "row {i}");
    }
    assert!(rt; names_in_order(rt.alloc()) == Some(true));
}

/// Bytes, and the word that they are printed as.
const PRINTED: &[(&[u8], &[u8])] = &[
    (b"", b""),
    (b"\x61\x20\x5c", b"a\\x20\\x5C"),
    (b"!~\x7F\xFF", b"!~\\x7F\\xFF"),
    (b"\0\n/", b"\\x00\\x0A/"),
];

fn is_printed(alloc: Global, bytes: &[u8], wanted: &[u8]) -> Option<bool> {
    Some(escaped(alloc, bytes).ok()?.as_slice() == wanted)
}

#[test]
fn bytes_are_printed(rt: HostRuntime) {
    for (i, (bytes, wanted)) in PRINTED.iter().enumerate() {
        assert!(rt;
            is_printed(rt.alloc(), bytes, wanted) == Some(true),
            "row {i}"
        );
    }
}
