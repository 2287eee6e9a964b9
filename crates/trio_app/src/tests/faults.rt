//! Runs that meet a fault of a file or of the sink, a damaged image or a bad script, by tables of rows: how
//! each ends.

use crate::tests::rows::{
    BEFORE, CHECK, IMAGE_SIZE, JSON, Kept, NEW, Out, RUN, RUNS, Row, Start, TREE, TURNS, all_end,
    row_ends,
};
use std::process::Abort;
use std::sync::Wait;
use std::thread::Threads;

// ---- faults

// A script that makes the file `/a/f`, writes it and reads it.
const SCRIPT: &[u8] = b"lib 1 honest 0 0\ncreate /a/f 644\nwrite /a/f 0 hello\nread /a/f 0 10\n";

// What it reports where the directory `a` has no file, and where that file is there.
const REPORT: &[u8] =
    b"lib 1 honest\n2 ok\n3 ok 5\n4 ok 5 hello\nend settled 3\ntree\n0 d 755 0 0 1 /\n1 d 755 0 0 1 a\n2 f 644 0 0 5 f\ninodes 3 pages 6 free 23\n";

const REPORT_AGAIN: &[u8] =
    b"lib 1 honest\n2 exists\n3 ok 5\n4 ok 5 hello\nend settled 3\ntree\n0 d 755 0 0 1 /\n1 d 755 0 0 1 a\n2 f 644 0 0 5 f\ninodes 3 pages 6 free 23\n";

// The first half of the report.
const HALF: &[u8] = b"lib 1 honest\n2 ok\n3 ok 5\n4 ok 5 hello\nend settled 3\ntree\n0 d 755 ";

// How a run ends: its status, its text, and what a file has.
type End = (u8, &'static [u8], Out);

// The block of `/a/f` begins with `h`, in an image that verifies.
const WRITTEN: Out = ("o p", Kept::Part(32_768, 32_769, b'h'));

const MADE: End = (0, REPORT, WRITTEN);

const MADE_BEFORE: End = (0, REPORT_AGAIN, WRITTEN);

const IMAGE_FAULT: End = (4, b"read fault first.img\n", BEFORE);

const SCRIPT_FAULT: End = (4, b"read fault script\n", BEFORE);

// Half of the image stands where its write failed.
const HALF_IMAGE: Out = ("o p", Kept::Bytes(65_536));

const OUT_FAULT: End = (5, b"write fault o\\x20p\n", HALF_IMAGE);

// Half of a text stands where its put failed.
const REPORT_CUT: End = (5, HALF, WRITTEN);

const IMAGE_FAULT_CUT: End = (5, b"read fault", BEFORE);

const OUT_FAULT_CUT: End = (5, b"write fau", HALF_IMAGE);

// Commands that read an image leave it as it was.
const FIRST: Out = ("first.img", Kept::Image(IMAGE_SIZE));

const CHECKED: End = (0, b"valid inodes 3 pages 6 free 23\n", FIRST);

const CHECKED_CUT: End = (5, b"valid inodes 3 ", FIRST);

const TOLD: End = (
    0,
    b"0 d 755 0 0 1 /\n1 d 755 0 0 1 a\n2 f 644 0 0 5 f\n",
    FIRST,
);

const UNREAD: End = (4, b"read fault first.img\n", FIRST);

const NEW_IMAGE: End = (
    0,
    b"made pages 32 inodes 64 free 29\n",
    ("a.img", Kept::Bytes(IMAGE_SIZE)),
);

const NEW_FAULT: End = (5, b"write fault a.img\n", ("a.img", Kept::Bytes(65_536)));

// An image, words, the calls of the files of which each fails in a run of its own, from the first number on and
// before the second, which put fails, and how these runs end. Call 0 and put 0 are none.
type Fault = (Start, &'static [&'static str], (u64, u64), u64, End);

// Calls 1 to 33 read the image, 34 and 35 the script, and 36 writes OUT. There is no further one.
const FAULTS: &[Fault] = &[
    (Start::OneDirectory, TURNS, (1, 34), 0, IMAGE_FAULT),
    (Start::OneDirectory, TURNS, (34, 36), 0, SCRIPT_FAULT),
    (Start::OneDirectory, TURNS, (36, 37), 0, OUT_FAULT),
    (Start::OneDirectory, TURNS, (37, 38), 0, MADE),
    (Start::OneDirectory, RUN, (1, 34), 0, IMAGE_FAULT),
    (Start::OneDirectory, RUN, (34, 36), 0, SCRIPT_FAULT),
    (Start::OneDirectory, RUN, (36, 37), 0, OUT_FAULT),
    (Start::OneDirectory, RUN, (37, 38), 0, MADE),
    (Start::ThreeFiles, TURNS, (1, 34), 0, IMAGE_FAULT),
    (Start::ThreeFiles, TURNS, (34, 36), 0, SCRIPT_FAULT),
    (Start::ThreeFiles, TURNS, (36, 37), 0, OUT_FAULT),
    (Start::ThreeFiles, TURNS, (37, 38), 0, MADE_BEFORE),
    (Start::ThreeFiles, CHECK, (1, 34), 0, UNREAD),
    (Start::ThreeFiles, CHECK, (34, 35), 0, CHECKED),
    (Start::ThreeFiles, JSON, (1, 34), 0, UNREAD),
    (Start::ThreeFiles, TREE, (34, 35), 0, TOLD),
    (Start::Nothing, NEW, (1, 2), 0, NEW_FAULT),
    (Start::Nothing, NEW, (2, 3), 0, NEW_IMAGE),
    // the put fails, that of the line of another fault too
    (Start::OneDirectory, TURNS, (0, 1), 1, REPORT_CUT),
    (Start::OneDirectory, RUN, (0, 1), 1, REPORT_CUT),
    (Start::ThreeFiles, CHECK, (0, 1), 1, CHECKED_CUT),
    (Start::OneDirectory, TURNS, (1, 2), 1, IMAGE_FAULT_CUT),
    (Start::OneDirectory, TURNS, (36, 37), 1, OUT_FAULT_CUT),
];

// Whether the run of a row of which this call fails ends so.
fn fault_ends<R: Threads + Wait + Sync + AllocGlobal>(
    rt: &R,
    (image, words, _, put, (status, text, (file, kept))): &Fault,
    call: u64,
) -> bool {
    let row = Row {
        image: *image,
        length: IMAGE_SIZE,
        changes: &[],
        script: &[SCRIPT],
        failing: (call, *put),
        status: *status,
        text: &[*text],
        is_all: true,
        file: *file,
        kept: *kept,
    };
    row_ends(rt, words, &row)
}

// Whether each run of a row ends so.
fn faults_end<R: Threads + Wait + Sync + AllocGlobal>(rt: &R, fault: &Fault) -> bool {
    let (_, _, (first, end), ..) = fault;
    for call in *first..*end {
        if !fault_ends(rt, fault, call) {
            return false;
        }
    }
    true
}

#[test]
fn each_call_fails(rt: HostRuntime) {
    for (i, fault) in FAULTS.iter().enumerate() {
        assert!(rt; faults_end(&rt, fault), "row {i}");
    }
}

// ---- damaged images

// An image, how many of its bytes there are, which of them are others, and the line that is put.
type Damaged = (Start, usize, &'static [(usize, u8)], &'static [u8]);

// An image that fails has no tree either.
const CHECKS: &[&[&str]] = &[CHECK, TREE];

const NO_SUPERBLOCK: &[u8] = b"bad superblock\n";

const FAILS_I1: &[u8] = b"invalid I1\n";

const FAILS_I2: &[u8] = b"invalid I2\n";

const FAILS_TABLES: &[u8] = b"invalid tables\n";

const DAMAGED: &[Damaged] = &[
    // of another length than there are pages, in the file or in the superblock
    (Start::OneDirectory, 0, &[], b"length 0\n"),
    (Start::Made, 4095, &[], b"length 4095\n"),
    (Start::OneFile, 4096, &[], b"length 4096\n"),
    (Start::Made, 131_071, &[], b"length 131071\n"),
    (Start::Made, 131_073, &[], b"length 131073\n"),
    (Start::OneFile, IMAGE_SIZE, &[(16, 31)], b"length 131072\n"),
    (
        Start::OneDirectory,
        IMAGE_SIZE,
        &[(16, 33)],
        b"length 131072\n",
    ),
    // another magic, and owners that begin a page too late
    (Start::Made, IMAGE_SIZE, &[(0, b'B')], NO_SUPERBLOCK),
    (Start::OneDirectory, IMAGE_SIZE, &[(28, 3)], NO_SUPERBLOCK),
    // the root has a mode of ten bits
    (
        Start::OneDirectory,
        IMAGE_SIZE,
        &[(40, 0), (41, 2)],
        FAILS_I1,
    ),
    // a number that no file has, a directory of five bytes, and a slot with a byte that isn't zero
    (Start::OneDirectory, IMAGE_SIZE, &[(16_384, 65)], FAILS_I1),
    (Start::OneFile, IMAGE_SIZE, &[(16_388, 2)], FAILS_I1),
    (Start::OneFile, IMAGE_SIZE, &[(16_390, 1)], FAILS_I1),
    // a file of the name of a directory beside it
    (
        Start::OneDirectory,
        IMAGE_SIZE,
        &[(16_640, 3), (16_644, 1), (16_645, 1), (16_648, b'a')],
        FAILS_I1,
    ),
    // a guard of the root, a link of the sizes 0 and 4097, and one that is guarded
    (Start::OneDirectory, IMAGE_SIZE, &[(64, 1)], FAILS_I1),
    (
        Start::OneLink,
        IMAGE_SIZE,
        &[(16_588, 0), (16_592, 0)],
        FAILS_I1,
    ),
    (
        Start::OneLink,
        IMAGE_SIZE,
        &[(16_592, 1), (16_593, 0x10)],
        FAILS_I1,
    ),
    (Start::OneLink, IMAGE_SIZE, &[(16_600, 1)], FAILS_I1),
    // the root is listed, and it has one page as both of its blocks, where the tables aren't its either
    (Start::OneDirectory, IMAGE_SIZE, &[(16_384, 1)], FAILS_I2),
    (
        Start::Made,
        IMAGE_SIZE,
        &[(52, 3), (57, 0x20), (12_288, 4), (12_296, 4)],
        FAILS_I2,
    ),
    // an owner of a page that no file uses, and a row of another mode
    (Start::Made, IMAGE_SIZE, &[(8204, 2)], FAILS_TABLES),
    (Start::OneFile, IMAGE_SIZE, &[(8220, 2)], FAILS_TABLES),
    (Start::OneFile, IMAGE_SIZE, &[(4130, 0xa5)], FAILS_TABLES),
];

// Whether each of the commands puts this line. The script is bad too: the image comes before it.
fn all_refuse<R: Threads + Wait + Sync + AllocGlobal>(
    rt: &R,
    commands: &[&[&str]],
    (image, length, changes, text): &Damaged,
    (file, kept): Out,
) -> bool {
    let row = Row {
        image: *image,
        length: *length,
        changes: *changes,
        script: &[],
        failing: (0, 0),
        status: 1,
        text: &[*text],
        is_all: true,
        file,
        kept,
    };
    all_end(rt, commands, &row)
}

// Whether all commands that read an image refuse it, and nothing is written.
fn is_refused<R: Threads + Wait + Sync + AllocGlobal>(rt: &R, damaged: &Damaged) -> bool {
    let (_, length, ..) = damaged;
    let as_it_was = ("first.img", Kept::Image(*length));
    all_refuse(rt, CHECKS, damaged, as_it_was) && all_refuse(rt, RUNS, damaged, BEFORE)
}

#[test]
fn damaged_images_are_refused(rt: HostRuntime) {
    for (i, damaged) in DAMAGED.iter().enumerate() {
        assert!(rt; is_refused(&rt, damaged), "row {i}");
    }
}

// ---- bad scripts

// A script, and how it ends on an image without files.
type Script = (&'static [u8], u8, &'static [u8], Out);

const LINE_1: &[u8] = b"script line 1\n";

const LINE_2: &[u8] = b"script line 2\n";

const LINE_3: &[u8] = b"script line 3\n";

const LINE_4: &[u8] = b"script line 4\n";

const SEVENTEEN: &[u8] =
    b"lib 1 raw 1 0\ngrant read 2\nlib 2 raw 2 0\ngrant read 2\nlib 3 raw 3 0\ngrant read 2\nlib 4 raw 4 0\ngrant read 2\nlib 5 raw 5 0\ngrant read 2\nlib 6 raw 6 0\ngrant read 2\nlib 7 raw 7 0\ngrant read 2\nlib 8 raw 8 0\ngrant read 2\nlib 9 raw 9 0\ngrant read 2\nlib 10 raw 10 0\ngrant read 2\nlib 11 raw 11 0\ngrant read 2\nlib 12 raw 12 0\ngrant read 2\nlib 13 raw 13 0\ngrant read 2\nlib 14 raw 14 0\ngrant read 2\nlib 15 raw 15 0\ngrant read 2\nlib 16 raw 16 0\ngrant read 2\nlib 17 raw 17 0\ngrant read 2\n";

// What the two lawful ones report.
const DIRECTORY: &[u8] =
    b"lib 1 honest\n2 ok\nend settled 1\ntree\n0 d 755 0 0 1 /\n1 d 755 0 0 0 a\ninodes 2 pages 2 free 27\n";

const NOTHING: &[u8] = b"lib 1 raw\nend nothing\ntree\n0 d 755 0 0 0 /\ninodes 1 pages 0 free 29\n";

const SCRIPTS: &[Script] = &[
    // a library that isn't the next one
    (b"", 3, LINE_1, BEFORE),
    (b"lib 2 raw 0 0\n", 3, LINE_1, BEFORE),
    (b"lib 1 raw 0 0\nlib 3 raw 0 0\n", 3, LINE_2, BEFORE),
    (SEVENTEEN, 3, b"script line 33\n", BEFORE),
    // words of a line out of their form
    (b"lib 1 honest 0 0\nmkdir /a 1000\n", 3, LINE_2, BEFORE),
    (b"lib 1 honest 0 0\nwrite /f 01 x\n", 3, LINE_2, BEFORE),
    (b"lib 1 honest 0 0\nsettle \n", 3, LINE_2, BEFORE),
    (b"lib 1 honest 0 0\ntruncate /a//b 5\n", 3, LINE_2, BEFORE),
    (b"lib 1 honest 0 0\nread /f 0 4097\n", 3, LINE_2, BEFORE),
    (b"lib 1 raw 0 0\nallot 4294967296 0\n", 3, LINE_2, BEFORE),
    (b"lib 1 raw 0 0\npoke body 2 0 4A\n", 3, LINE_2, BEFORE),
    (b"lib 1 raw 0 0\nrelease 2,2 - -\n", 3, LINE_2, BEFORE),
    (
        b"lib 1 raw 0 0\nallot 1 0\nrelease - 7,7 -\n",
        3,
        LINE_3,
        BEFORE,
    ),
    (b"lib 1 raw 0 0\n\nallot 1", 3, LINE_3, BEFORE),
    // a line of the other kind of library, and a path that isn't one
    (
        b"lib 1 honest 0 0\nstat /\ngrant read 1\n",
        3,
        LINE_3,
        BEFORE,
    ),
    (b"lib 1 raw 0 0\nstat /\n", 3, LINE_2, BEFORE),
    (
        b"lib 1 raw 0 0\nlib 2 honest 0 0\nchmod /f 600\nmkdir a 755\n",
        3,
        LINE_4,
        BEFORE,
    ),
    // lawful ones
    (
        b"lib 1 honest 0 0\nmkdir /a 0755\n",
        0,
        DIRECTORY,
        ("o p", Kept::Part(0, 0, 0)),
    ),
    (
        b"# nothing else\nlib 1 raw 0 0",
        0,
        NOTHING,
        ("o p", Kept::Image(IMAGE_SIZE)),
    ),
];

// Whether both commands that run a script end so.
fn script_ends<R: Threads + Wait + Sync + AllocGlobal>(
    rt: &R,
    (script, status, text, (file, kept)): &Script,
) -> bool {
    let row = Row {
        image: Start::Empty,
        length: IMAGE_SIZE,
        changes: &[],
        script: &[*script],
        failing: (0, 0),
        status: *status,
        text: &[*text],
        is_all: true,
        file: *file,
        kept: *kept,
    };
    all_end(rt, RUNS, &row)
}

#[test]
fn bad_scripts_are_refused(rt: HostRuntime) {
    for (i, script) in SCRIPTS.iter().enumerate() {
        assert!(rt; script_ends(&rt, script), "row {i}");
    }
}
