//! Images of version 1: what is told of each, and what becomes of it.

use crate::tests::rows::{
    BEFORE, CHECK, IMAGE_SIZE, Kept, NO_ROW, Out, RUNS, Row, SCRIPT, Start, all_end, left_by,
    row_ends, start_bytes, told_over,
};
use std::process::Abort;
use std::sync::Wait;
use std::thread::Threads;
use trio_io::OpenGate;

const MIGRATE: &[&str] = &["migrate", "first.img", "o p"];

// Version 1 in the field of the version.
const OLD: (usize, u8) = (8, 1);

// Version 3, and a magic that is none.
const VERSION_3: (usize, u8) = (8, 3);

const MAGIC: (usize, u8) = (0, b'B');

// The file is as it was, but for its version.
const DONE: Out = ("o p", Kept::Changed(&[(8, 2)]));

// An image of version 2, how many bytes of it there are, what is changed, and how a migration ends.
type Told = (Start, usize, &'static [(usize, u8)], u8, &'static [u8], Out);

const TOLD: &[Told] = &[
    (
        Start::ThreeFiles,
        IMAGE_SIZE,
        &[OLD],
        0,
        b"migrated inodes 3 pages 6 free 23\n",
        DONE,
    ),
    (
        Start::SixDirectories,
        IMAGE_SIZE,
        &[OLD],
        0,
        b"migrated inodes 7 pages 10 free 19\n",
        DONE,
    ),
    // today's version, no version, and lengths
    (
        Start::ThreeFiles,
        IMAGE_SIZE,
        &[],
        1,
        b"version 2\n",
        BEFORE,
    ),
    (
        Start::ThreeFiles,
        IMAGE_SIZE - 1,
        &[],
        1,
        b"version 2\n",
        BEFORE,
    ),
    (
        Start::ThreeFiles,
        IMAGE_SIZE,
        &[VERSION_3],
        1,
        b"bad superblock\n",
        BEFORE,
    ),
    (
        Start::ThreeFiles,
        IMAGE_SIZE,
        &[MAGIC, OLD],
        1,
        b"bad superblock\n",
        BEFORE,
    ),
    (Start::ThreeFiles, 4095, &[OLD], 1, b"length 4095\n", BEFORE),
    (
        Start::ThreeFiles,
        IMAGE_SIZE + 1,
        &[OLD],
        1,
        b"length 131073\n",
        BEFORE,
    ),
    // a link, a guard, and both with a rule that fails behind them
    (
        Start::OneLink,
        IMAGE_SIZE,
        &[OLD],
        1,
        b"invalid I1\n",
        BEFORE,
    ),
    (
        Start::Guarded,
        IMAGE_SIZE,
        &[OLD],
        1,
        b"invalid I1\n",
        BEFORE,
    ),
    (
        Start::OneLink,
        IMAGE_SIZE,
        &[OLD, (20_480, 4)],
        1,
        b"invalid I1\n",
        BEFORE,
    ),
    (
        Start::OneGuarded,
        IMAGE_SIZE,
        &[OLD, (8204, 9)],
        1,
        b"invalid I1\n",
        BEFORE,
    ),
    // rules that fail by both versions
    (
        Start::OneFile,
        IMAGE_SIZE,
        &[OLD, (20_480, 4)],
        1,
        b"invalid I2\n",
        BEFORE,
    ),
    (
        Start::OneFile,
        IMAGE_SIZE,
        &[OLD, (8204, 9)],
        1,
        b"invalid tables\n",
        BEFORE,
    ),
    (
        Start::Nothing,
        33_554_433,
        &[],
        7,
        b"too long first.img\n",
        BEFORE,
    ),
];

// Whether a migration ends so.
fn is_told<R: Threads + Wait + Sync + AllocGlobal>(
    rt: &R,
    (image, length, changes, status, text, (file, kept)): &Told,
) -> bool {
    let row = Row {
        image: *image,
        length: *length,
        changes,
        script: &[],
        failing: (0, 0),
        status: *status,
        text: &[*text],
        is_all: true,
        file,
        kept: *kept,
    };
    row_ends(rt, MIGRATE, &row)
}

#[test]
fn images_are_migrated(rt: HostRuntime) {
    for (i, told) in TOLD.iter().enumerate() {
        assert!(rt; is_told(&rt, told), "row {i}");
    }
}

// Which call of the files or which put fails, and how a migration then ends. Calls 1 to 33 read the image, and 34 writes
// OUT.
const FAILING: &[((u64, u64), u8, &[u8], Out)] = &[
    ((1, 0), 4, b"read fault first.img\n", BEFORE),
    ((33, 0), 4, b"read fault first.img\n", BEFORE),
    (
        (34, 0),
        5,
        b"write fault o\\x20p\n",
        ("o p", Kept::Bytes(65_536)),
    ),
    ((0, 1), 5, b"migrated inodes 3", DONE),
];

#[test]
fn migrations_fail(rt: HostRuntime) {
    for (i, (failing, status, text, (file, kept))) in FAILING.iter().enumerate() {
        let row = Row {
            image: Start::ThreeFiles,
            length: IMAGE_SIZE,
            changes: &[OLD],
            script: &[],
            failing: *failing,
            status: *status,
            text: &[*text],
            is_all: true,
            file,
            kept: *kept,
        };
        assert!(rt; row_ends(&rt, MIGRATE, &row), "row {i}");
    }
}

// A row of an image of version 1 whose end is told so.
const VERSION_1: Row<'static> = Row {
    image: Start::ThreeFiles,
    length: IMAGE_SIZE,
    changes: &[OLD],
    script: &[SCRIPT],
    failing: (0, 0),
    status: 1,
    text: &[b"version 1\n"],
    is_all: true,
    file: "first.img",
    kept: Kept::Image(IMAGE_SIZE),
};

#[test]
fn commands_tell_version_1(rt: HostRuntime) {
    assert!(rt; row_ends(&rt, CHECK, &VERSION_1));
    assert!(rt; row_ends(&rt, &["tree", "first.img"], &VERSION_1));
    assert!(rt; all_end(&rt, RUNS, &VERSION_1));
}

// What `check` says of an image that was migrated.
fn is_valid_then<R: Threads + Wait + Sync + AllocGlobal>(rt: &R) -> Option<bool> {
    let mut old = start_bytes(rt.alloc(), Start::ThreeFiles).ok()?;
    *old.get_mut(8)? = 1;
    let new = left_by(rt, MIGRATE, &old, &NO_ROW, "o p")?;
    let row = Row {
        text: &[b"valid inodes 3 pages 6 free 23\n"],
        is_all: true,
        kept: Kept::Image(IMAGE_SIZE),
        ..NO_ROW
    };
    Some(told_over(rt, &OpenGate, CHECK, &new, &row).is_some())
}

#[test]
fn a_migrated_image_verifies(rt: HostRuntime) {
    assert!(rt; is_valid_then(&rt) == Some(true));
}
