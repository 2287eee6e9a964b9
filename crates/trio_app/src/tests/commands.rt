//! Words of the command line, and how the run of each ends.

use crate::tests::rows::{BEFORE, IMAGE_SIZE, Kept, Out, REPORT, Row, SCRIPT, Start, row_ends};
use std::process::Abort;
use std::sync::Wait;
use std::thread::Threads;
use trio_commands::USAGE;

const FOUR_FILES: &[u8] =
    b"gen number 7 files 4 calls 9 ok 9 busy 0 bytes 134\ninodes 17 pages 28 free 8139\n";

// The file `/d1/a/f0` has one byte.
const ONE_FILE: &[u8] =
    b"gen number 0 files 1 calls 2 ok 2 busy 0 bytes 1\ninodes 14 pages 14 free 8153\n";

const THOUSAND_FILES: &[u8] =
    b"gen number 7 files 1000 calls 2400 ok 2400 busy 0 bytes 26016\ninodes 813 pages 1674 free 6493\n";

const FIRST: Out = ("first.img", Kept::Image(IMAGE_SIZE));

// A name that isn't among the words has no content.
const NO_OUT: Out = ("o p", Kept::Nothing);

// Words, and how the run then ends: its status, its text, and what a file has. The name that comes first among
// the words is that of an image of one file.
type Command = (&'static [&'static str], u8, &'static [u8], Out);

const WORDS: &[Command] = &[
    (&[], 2, USAGE, NO_OUT),
    (&["turns"], 2, USAGE, NO_OUT),
    (&["turns", "first.img", "script"], 2, USAGE, FIRST),
    (
        &["turns", "first.img", "script", "o p", "o p"],
        2,
        USAGE,
        BEFORE,
    ),
    (
        &["turns", "first.img", "script", "first.img"],
        0,
        REPORT,
        FIRST,
    ),
    (
        &["turns", "first.img", "first.img", "o p"],
        3,
        b"script line 1\n",
        BEFORE,
    ),
    (&["run"], 2, USAGE, NO_OUT),
    (&["run", "first.img", "script"], 2, USAGE, FIRST),
    (
        &["run", "first.img", "script", "o p", "o p"],
        2,
        USAGE,
        BEFORE,
    ),
    (
        &["run", "first.img", "script", "first.img"],
        0,
        REPORT,
        FIRST,
    ),
    (
        &["run", "first.img", "script", "first.img", "1"],
        0,
        REPORT,
        FIRST,
    ),
    (
        &["run", "first.img", "script", "first.img", "8"],
        0,
        REPORT,
        FIRST,
    ),
    (
        &["run", "first.img", "script", "o p", "0"],
        2,
        USAGE,
        BEFORE,
    ),
    (
        &["run", "first.img", "script", "o p", "9"],
        2,
        USAGE,
        BEFORE,
    ),
    (
        &["run", "first.img", "script", "o p", "03"],
        2,
        USAGE,
        BEFORE,
    ),
    (
        &["run", "first.img", "script", "o p", "3", "3"],
        2,
        USAGE,
        BEFORE,
    ),
    (
        &["run", "first.img", "first.img", "o p"],
        3,
        b"script line 1\n",
        BEFORE,
    ),
    (&["tree"], 2, USAGE, NO_OUT),
    (&["tree", "first.img", "JSON"], 2, USAGE, FIRST),
    (&["tree", "first.img", "json", "o p"], 2, USAGE, BEFORE),
    (&["check"], 2, USAGE, NO_OUT),
    (&["checks", "first.img"], 2, USAGE, FIRST),
    (&["--help"], 0, USAGE, NO_OUT),
    (&["--version"], 0, b"trio 0.1.0\n", NO_OUT),
    (
        &["--help", "--version"],
        2,
        USAGE,
        ("--version", Kept::Image(IMAGE_SIZE)),
    ),
];

const NUMBERS: &[Command] = &[
    (&["gen", "7", "4"], 0, FOUR_FILES, NO_OUT),
    (&["gen", "0", "1"], 0, ONE_FILE, NO_OUT),
    (&["gen", "7", "1000"], 0, THOUSAND_FILES, NO_OUT),
    (&["gen", "7", "1001"], 2, USAGE, NO_OUT),
    (&["gen", "7", "0"], 2, USAGE, NO_OUT),
    (&["gen", "4294967296", "4"], 2, USAGE, NO_OUT),
    (&["gen", "07", "4"], 2, USAGE, NO_OUT),
    (&["gen", "-7", "4"], 2, USAGE, NO_OUT),
    (&["gen", "7", ""], 2, USAGE, NO_OUT),
    (
        &["new", "o p", "16", "16"],
        0,
        b"made pages 16 inodes 16 free 13\n",
        ("o p", Kept::Bytes(65_536)),
    ),
    (&["new", "first.img", "15", "16"], 2, USAGE, FIRST),
    (&["new", "first.img", "16", "15"], 2, USAGE, FIRST),
    (&["new", "first.img", "8193", "16"], 2, USAGE, FIRST),
    (&["new", "first.img", "16", "16385"], 2, USAGE, FIRST),
    (&["new", "first.img", "16", "16384"], 2, USAGE, FIRST),
    (&["new", "first.img", "32", "+64"], 2, USAGE, FIRST),
    (&["new", "first.img", "32", "0064"], 2, USAGE, FIRST),
    (&["new", "first.img", "", "64"], 2, USAGE, FIRST),
];

fn command_ends<R: Threads + Wait + Sync + AllocGlobal>(
    rt: &R,
    (words, status, text, (file, kept)): &Command,
) -> bool {
    let row = Row {
        image: Start::OneFile,
        length: IMAGE_SIZE,
        changes: &[],
        script: &[SCRIPT],
        failing: (0, 0),
        status: *status,
        text: &[*text],
        is_all: true,
        file: *file,
        kept: *kept,
    };
    row_ends(rt, words, &row)
}

fn all_end<R: Threads + Wait + Sync + AllocGlobal + Abort>(rt: &R, commands: &[Command]) {
    for (i, command) in commands.iter().enumerate() {
        assert!(rt; command_ends(rt, command), "row {i}");
    }
}

#[test]
fn words_are_read(rt: HostRuntime) {
    all_end(&rt, WORDS);
}

#[test]
fn numbers_are_read(rt: HostRuntime) {
    all_end(&rt, NUMBERS);
}
