//! Calls one after another, each with what it is told.

use crate::images::Start;
use crate::scripts::{Inspect, Library, Row, are_told, bytes_left, has, plays};
use std::alloc::Global;
use std::test::Fail;
use trio_ctl::Ctl;
use trio_image::Counts;
use trio_nodes::Entry;
use trio_page::field::all_zero;
use trio_runner::LibTold;

// Calls on the image of one file.
const CALLS: &[Library] = &[Library {
    head: "lib 1 honest 0 0",
    rows: &[
        ("read /a/f 0 10", "ok 5 hello"),
        ("write /a/f 4096 x", "ok 1"),
        ("stat /a/f", "ok f 644 0 0 4097"),
        ("truncate /a/f 33554433", "toolarge"),
        ("truncate /a/f 33554432", "nospace 8206 22"),
        // the first call was handed in by itself: the second had to settle its read lease
        ("settle", "settled 4"),
    ],
}];

// The lines are told so, and the settled image has the file grown: its second block is page 9, and what
// was not written is zero.
#[derive(Clone, Copy)]
struct Grown;

impl Inspect for Grown {
    fn inspect(
        &mut self,
        alloc: Global,
        ctl: &mut Ctl,
        tolds: &[LibTold],
    ) -> Result<(), &'static str> {
        are_told(alloc, CALLS, tolds)?;
        if has(ctl, &GROWN) && is_grown(alloc, ctl) {
            Ok(())
        } else {
            Err("the file is not as it was written")
        }
    }
}

fn is_grown(alloc: Global, ctl: &mut Ctl) -> bool {
    match bytes_left(alloc, ctl) {
        Some(bytes) => is_written(&bytes) == Some(true),
        None => false,
    }
}

fn is_written(bytes: &[u8]) -> Option<bool> {
    let (index, first, second) = (
        bytes.get(28672..32768)?,
        bytes.get(32768..36864)?,
        bytes.get(36864..40960)?,
    );
    let is_indexed = index.starts_with(b"\x08\0\0\0\0\0\0\0\x09\0\0\0\0\0\0\0")
        && all_zero(&index[16..]);
    let is_first = first.starts_with(b"hello") && all_zero(&first[5..]);
    Some(is_indexed && is_first && second[0] == b'x' && all_zero(&second[1..]))
}

const GROWN: Counts = Counts {
    inodes: 3,
    pages: 7,
    free: 22,
};

#[test]
fn calls_on_a_file(rt: HostRuntime) -> Result<(), Fail> {
    plays(rt.alloc(), Start::OneFile, CALLS, &mut Grown)?;
    Ok(())
}

const DEEP: Row = ("read /a/b/c/d/e/f/g/h/x 0 10", "ok 5 hello");

const ONCE: &[Library] = &[Library {
    head: "lib 1 honest 0 0",
    rows: &[DEEP],
}];

const TWICE: &[Library] = &[Library {
    head: "lib 1 honest 0 0",
    rows: &[DEEP, DEEP],
}];

// The lines are told so. How many entries the log has in all, and how many of them are grants.
#[derive(Clone, Copy)]
struct Asked {
    libs: &'static [Library],
    entries: usize,
    grants: usize,
}

impl Asked {
    fn by(libs: &'static [Library]) -> Asked {
        Asked {
            libs,
            entries: 0,
            grants: 0,
        }
    }
}

impl Inspect for Asked {
    fn inspect(
        &mut self,
        alloc: Global,
        ctl: &mut Ctl,
        tolds: &[LibTold],
    ) -> Result<(), &'static str> {
        for entry in ctl.log().entries() {
            self.entries = self.entries.wrapping_add(1);
            if matches!(entry, Entry::Grant { .. }) {
                self.grants = self.grants.wrapping_add(1);
            }
        }
        are_told(alloc, self.libs, tolds)
    }
}

// A file eight directories below the root is read once or twice: the log has the grants of the first
// walk, and no entry more where it is read twice.
#[test]
fn a_second_read_asks_nothing(rt: HostRuntime) -> Result<(), Fail> {
    let mut once = Asked::by(ONCE);
    let mut twice = Asked::by(TWICE);
    plays(rt.alloc(), Start::Deep, ONCE, &mut once)?;
    plays(rt.alloc(), Start::Deep, TWICE, &mut twice)?;
    assert!(rt; once.grants == 10 && twice.grants == 10 && once.entries == twice.entries);
    Ok(())
}

// ---- directories

// Calls of one library on the image of one file: names that stand already and names that don't,
// files of the other kind, what it made itself, a name with the end of a line, and one of 184 bytes.
// A call that wants `a` held settles first where its walk has it lent.
const MADE: &[Row] = &[
    ("mkdir /b 755", "ok"),
    ("create /b/g 640", "ok"),
    ("list /b 0", "ok 1 g"),
    ("list / 0", "ok 2 a/ b/"),
    ("mkdir /b 755", "exists"),
    ("create /a/f 644", "exists"),
    ("create /a 644", "exists"),
    ("mkdir / 755", "exists"),
    ("create /a/f/x 644", "notdir"),
    ("mkdir /none/x 755", "notfound"),
    ("unlink /b", "isdir"),
    ("unlink /", "isdir"),
    ("unlink /a/none", "notfound"),
    ("unlink /a/f/x", "notdir"),
    ("rmdir /", "denied"),
    ("rmdir /b/g", "notdir"),
    ("rmdir /none", "notfound"),
    ("rmdir /a", "notempty"),
    ("rmdir /b", "notempty"),
    ("list /a/f 0", "notdir"),
    ("list /none 0", "notfound"),
    ("write /b/g 4095 xy", "ok 2"),
    ("stat /b", "ok d 755 0 0 1"),
    ("stat /b/g", "ok f 640 0 0 4097"),
    ("unlink /a/f", "ok"),
    ("rmdir /a", "ok"),
    ("stat /a", "notfound"),
    ("create /a\\x0Ab 644", "ok"),
    ("mkdir /b/d 700", "ok"),
    ("list /b 0", "ok 2 d/ g"),
    ("list / 0", "ok 2 a\\x0Ab b/"),
    ("settle", "settled 6"),
    (LONG_MADE, "ok"),
    ("list / 2", LONG_TOLD),
    ("list / 3", "ok 3"),
    ("read /b/g 4095 10", "ok 2 xy"),
    ("rmdir /b/d", "ok"),
    ("unlink /a\\x0Ab", "ok"),
    ("settle", "settled 1"),
    ("stat /", "ok d 755 0 0 2"),
];

// A slash, and 184 bytes.
const LONG_MADE: &str =
    "create /nnnnnnnnnnnnnnnnnnnnnnnnnnnnnnnnnnnnnnnnnnnnnnnnnnnnnnnnnnnnnnnnnnnnnnnnnnnn\
    nnnnnnnnnnnnnnnnnnnnnnnnnnnnnnnnnnnnnnnnnnnnnnnnnnnnnnnnnnnnnnnnnnnnnnnnnnnnnnnnnnnn\
    nnnnnnnnnnnnnnnnnnnnnnnn 644";

const LONG_TOLD: &str =
    "ok 3 nnnnnnnnnnnnnnnnnnnnnnnnnnnnnnnnnnnnnnnnnnnnnnnnnnnnnnnnnnnnnnnnnnnnnnnnnnnnnnn\
    nnnnnnnnnnnnnnnnnnnnnnnnnnnnnnnnnnnnnnnnnnnnnnnnnnnnnnnnnnnnnnnnnnnnnnnnnnnnnnnnnnnn\
    nnnnnnnnnnnnnnnnnnnnn";

const MAKES: &[Library] = &[Library {
    head: "lib 1 honest 0 0",
    rows: MADE,
}];

// The root has `b`, with `g` of two blocks, and the file of the long name.
const LEFT: Counts = Counts {
    inodes: 4,
    pages: 7,
    free: 22,
};

// The lines are told so, and the settled image has what is left.
#[derive(Clone, Copy)]
struct Made;

impl Inspect for Made {
    fn inspect(
        &mut self,
        alloc: Global,
        ctl: &mut Ctl,
        tolds: &[LibTold],
    ) -> Result<(), &'static str> {
        are_told(alloc, MAKES, tolds)?;
        if has(ctl, &LEFT) {
            Ok(())
        } else {
            Err("the image has other counts")
        }
    }
}

#[test]
fn calls_on_directories(rt: HostRuntime) -> Result<(), Fail> {
    plays(rt.alloc(), Start::OneFile, MAKES, &mut Made)?;
    Ok(())
}

// Links that are made, read, met on a path, renamed and removed, and a guard that is set and taken off.
const LINKED: &[Row] = &[
    ("symlink /a/l ../some/where", "ok"),
    ("readlink /a/l", "ok 13 ../some/where"),
    ("stat /a/l", "ok l 777 0 0 13"),
    ("symlink /a/l other", "exists"),
    ("symlink /a/f other", "exists"),
    ("readlink /a/f", "notlink"),
    ("readlink /a", "notlink"),
    ("read /a/l 0 10", "islink"),
    ("write /a/l 0 x", "islink"),
    ("truncate /a/l 0", "islink"),
    ("guard /a/l 1", "islink"),
    ("guard /a 1", "isdir"),
    ("stat /a/l/x", "notdir"),
    ("guard /a/f 1", "ok"),
    ("write /a/f 4096 x", "ok 1"),
    ("read /a/f 0 5", "ok 5 hello"),
    ("rename /a/l /k", "ok"),
    ("readlink /k", "ok 13 ../some/where"),
    ("guard /a/f 0", "ok"),
    ("symlink /m gone", "ok"),
    ("unlink /m", "ok"),
];

const LINKS: &[Library] = &[Library {
    head: "lib 1 honest 0 0",
    rows: LINKED,
}];

// The root has `a`, with `f` of two blocks, and the link.
const LINKS_LEFT: Counts = Counts {
    inodes: 4,
    pages: 9,
    free: 20,
};

// The lines are told so, and the settled image has the link.
#[derive(Clone, Copy)]
struct Linked;

impl Inspect for Linked {
    fn inspect(
        &mut self,
        alloc: Global,
        ctl: &mut Ctl,
        tolds: &[LibTold],
    ) -> Result<(), &'static str> {
        are_told(alloc, LINKS, tolds)?;
        if has(ctl, &LINKS_LEFT) {
            Ok(())
        } else {
            Err("the image has other counts")
        }
    }
}

#[test]
fn calls_on_links_and_guards(rt: HostRuntime) -> Result<(), Fail> {
    plays(rt.alloc(), Start::OneFile, LINKS, &mut Linked)?;
    Ok(())
}

// Calls of a library where one page and two inode numbers are free, since another one keeps the
// others: 22 of the 23 free pages, and 59 of the 61 free inode numbers. What the library gave up is free
// again once it has settled.
const SHORT: &[Library] = &[
    Library {
        head: "lib 1 raw 0 0",
        rows: &[
            ("allot 22 59", ALLOTTED),
            ("back 1", "absent"),
            ("back 1", "absent"),
            ("back 1", "absent"),
            ("back 1", "absent"),
            ("back 1", "absent"),
            ("back 1", "absent"),
            ("back 1", "absent"),
            ("back 1", "absent"),
            ("back 1", "absent"),
        ],
    },
    Library {
        head: "lib 2 honest 0 0",
        rows: &[
            ("mkdir /b 755", "ok"),
            ("create /b/x 644", "nospace 2 1"),
            ("create /a/x 644", "ok"),
            ("create /a/y 644", "noinodes 1 0"),
            ("mkdir /b/y 755", "nospace 2 1"),
            ("rmdir /b", "ok"),
            ("mkdir /c 755", "noinodes 1 0"),
            ("settle", "settled 7"),
            ("mkdir /c 755", "ok"),
            ("list / 0", "ok 2 a/ c/"),
        ],
    },
];

// The pages 9 to 30, and the inode numbers 4 to 62.
const ALLOTTED: &str =
    "allotted 9,10,11,12,13,14,15,16,17,18,19,20,21,22,23,24,25,26,27,28,29,30 4,5,6,7,8,\
    9,10,11,12,13,14,15,16,17,18,19,20,21,22,23,24,25,26,27,28,29,30,31,32,33,34,35,36,3\
    7,38,39,40,41,42,43,44,45,46,47,48,49,50,51,52,53,54,55,56,57,58,59,60,61,62";

// A file that the other library writes is busy until that has settled.
const FILE_IS_BUSY: &[Library] = &[
    Library {
        head: "lib 1 honest 0 0",
        rows: &[("write /a/f 0 x", "ok 1"), ("settle", "settled 1")],
    },
    Library {
        head: "lib 2 honest 5 5",
        rows: &[("write /a/f 0 y", "busy"), ("write /a/f 0 y", "ok 1")],
    },
];

// So is a directory. In one that all may write the second library makes a file of its own uid, which
// the first then removes; in others the second may make and remove nothing.
const DIRECTORY_IS_BUSY: &[Library] = &[
    Library {
        head: "lib 1 honest 0 0",
        rows: &[
            ("create /g 644", "ok"),
            ("list / 0", "ok 4 a/ g h p/"),
            ("settle", "settled 2"),
            ("stat /a", "ok d 755 0 0 2"),
            ("mkdir /t 777", "ok"),
            ("settle", "settled 1"),
            ("stat /h", "ok f 644 0 0 11"),
            ("settle", "settled 1"),
            ("stat /t/x", "ok f 600 5 5 0"),
            ("unlink /t/x", "ok"),
        ],
    },
    Library {
        head: "lib 2 honest 5 5",
        rows: &[
            ("list / 0", "busy"),
            ("list /a 0", "busy"),
            ("list / 0", "ok 4 a/ g h p/"),
            ("settle", "settled 1"),
            ("create /x 644", "denied"),
            ("create /t/x 600", "ok"),
            ("rmdir /a", "denied"),
            ("settle", "settled 3"),
            ("unlink /h", "denied"),
            ("list /p 0", "denied"),
        ],
    },
];

// The lines are told so.
#[derive(Clone, Copy)]
struct Answers(&'static [Library]);

impl Inspect for Answers {
    fn inspect(
        &mut self,
        alloc: Global,
        _ctl: &mut Ctl,
        tolds: &[LibTold],
    ) -> Result<(), &'static str> {
        are_told(alloc, self.0, tolds)
    }
}

fn told(alloc: Global, start: Start, libs: &'static [Library]) -> Result<(), &'static str> {
    plays(alloc, start, libs, &mut Answers(libs))
}

#[test]
fn what_another_has_is_not_free(rt: HostRuntime) -> Result<(), Fail> {
    told(rt.alloc(), Start::Several, FILE_IS_BUSY)?;
    told(rt.alloc(), Start::Several, DIRECTORY_IS_BUSY)?;
    told(rt.alloc(), Start::OneFile, SHORT)?;
    Ok(())
}
