//! Images and scripts up to their limits: what is told of each.

use crate::tests::rows::{
    BEFORE, CHECK, IMAGE_SIZE, JSON, Kept, Out, REPORT, RUNS, Row, SCRIPT, Start, TREE, all_end,
    row_ends,
};
use std::process::Abort;
use std::sync::Wait;
use std::thread::Threads;
use trio_commands::SCRIPT_LIMIT;

const DONE: Out = ("o p", Kept::Image(IMAGE_SIZE));

// Words that read an image, the image, how many of its bytes there are, and the status and the text with which
// the run ends.
type Told = (&'static [&'static str], Start, usize, u8, &'static [u8]);

// A new image and its tree, and further trees in both forms.
const TOLD: &[Told] = &[
    (
        CHECK,
        Start::Made,
        IMAGE_SIZE,
        0,
        b"valid inodes 1 pages 0 free 29\n",
    ),
    (TREE, Start::Made, IMAGE_SIZE, 0, b"0 d 755 0 0 0 /\n"),
    (
        TREE,
        Start::OneDirectory,
        IMAGE_SIZE,
        0,
        b"0 d 755 0 0 1 /\n1 d 755 0 0 0 a\n",
    ),
    (
        JSON,
        Start::OneDirectory,
        IMAGE_SIZE,
        0,
        b"[{\"depth\":0,\"gid\":0,\"kind\":\"d\",\"mode\":\"755\",\"name\":\"/\",\"size\":1,\"uid\":0},{\"depth\":1,\"gid\":0,\"kind\":\"d\",\"mode\":\"755\",\"name\":\"a\",\"size\":0,\"uid\":0}]\n",
    ),
    (
        TREE,
        Start::OddName,
        IMAGE_SIZE,
        0,
        b"0 d 755 0 0 1 /\n1 f 644 0 0 5 \\x0A\"\\x5C\\xFF\n",
    ),
    (
        JSON,
        Start::OddName,
        IMAGE_SIZE,
        0,
        b"[{\"depth\":0,\"gid\":0,\"kind\":\"d\",\"mode\":\"755\",\"name\":\"/\",\"size\":1,\"uid\":0},{\"depth\":1,\"gid\":0,\"kind\":\"f\",\"mode\":\"644\",\"name\":\"\\\\x0A\\\"\\\\x5C\\\\xFF\",\"size\":5,\"uid\":0}]\n",
    ),
    (
        JSON,
        Start::OneLink,
        IMAGE_SIZE,
        0,
        b"[{\"depth\":0,\"gid\":0,\"kind\":\"d\",\"mode\":\"755\",\"name\":\"/\",\"size\":1,\"uid\":0},{\"depth\":1,\"gid\":0,\"kind\":\"l\",\"mode\":\"777\",\"name\":\"l\",\"size\":4,\"uid\":0}]\n",
    ),
    // one byte over the limit, all of them zero
    (
        CHECK,
        Start::Nothing,
        33_554_433,
        7,
        b"too long first.img\n",
    ),
];

// Whether a run ends so, and the image is as before.
fn is_told<R: Threads + Wait + Sync + AllocGlobal>(
    rt: &R,
    (words, image, length, status, text): &Told,
) -> bool {
    let row = Row {
        image: *image,
        length: *length,
        changes: &[],
        script: &[],
        failing: (0, 0),
        status: *status,
        text: &[*text],
        is_all: true,
        file: "first.img",
        kept: Kept::Image(*length),
    };
    row_ends(rt, words, &row)
}

#[test]
fn images_are_told(rt: HostRuntime) {
    for (i, told) in TOLD.iter().enumerate() {
        assert!(rt; is_told(&rt, told), "row {i}");
    }
}

// Whether runs over a script of this length end so.
fn long_script_ends<R: Threads + Wait + Sync + AllocGlobal>(
    rt: &R,
    length: usize,
    (status, text, (file, kept)): (u8, &[u8], Out),
) -> Option<bool> {
    let mut script = SCRIPT.to_vec(rt.alloc()).ok()?;
    script.resize(length, b'#').ok()?;
    let row = Row {
        image: Start::OneFile,
        length: IMAGE_SIZE,
        changes: &[],
        script: &[&script],
        failing: (0, 0),
        status,
        text: &[text],
        is_all: true,
        file,
        kept,
    };
    Some(all_end(rt, RUNS, &row))
}

#[test]
fn limits(rt: HostRuntime) {
    let too_long = (7, b"too long script\n".as_slice(), BEFORE);
    assert!(rt; long_script_ends(&rt, SCRIPT_LIMIT, (0, REPORT, DONE)) == Some(true));
    assert!(rt; long_script_ends(&rt, SCRIPT_LIMIT + 1, too_long) == Some(true));
}
