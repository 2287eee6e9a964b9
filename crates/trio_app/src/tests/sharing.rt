//! Libraries that share an image, each on a thread of its own.

use crate::tests::rows::{
    IMAGE_SIZE, Kept, NO_ROW, RUN, RUN_WITH_WORKERS, Row, Start, TURNS, is_spelled, left_by, told,
    told_over,
};
use std::process::Abort;
use std::sync::Wait;
use std::thread::Threads;
use trio_io::{Gate, GateStop, HoldGate, OpenGate};
use trio_rights::LibNo;

// ---- a thread for each library

// What a library does that writes the file and hands it in, and what it is told where another has the
// file.
const ONE_WRITES: &[u8] = b"lib 1 raw 0 0\ngrant write 2\npoke block 2 0 0 4a\nrelease 2 - -\n";

const OTHER_WRITES: &[u8] = b"lib 2 raw 0 0\ngrant write 2\npoke block 2 0 0 4a\nrelease 2 - -\n";

const FILE_TREE: &[u8] = b"tree\n0 d 755 0 0 1 /\n1 f 644 0 0 5 f\ninodes 2 pages 4 free 25\n";

// The first call of one comes before that of the other, and that one is held off, or comes behind the
// release.
const EXCLUDED: &[&[&[u8]]] = &[
    &[ONE_GRANTED, OTHER_GRANTED, FILE_TREE],
    &[ONE_GRANTED, OTHER_HELD_OFF, FILE_TREE],
    &[ONE_HELD_OFF, OTHER_GRANTED, FILE_TREE],
];

const ONE_GRANTED: &[u8] = b"lib 1 raw\n2 granted\n3 poked\n4 accepted\nend nothing\n";

const OTHER_GRANTED: &[u8] = b"lib 2 raw\n6 granted\n7 poked\n8 accepted\nend nothing\n";

const ONE_HELD_OFF: &[u8] = b"lib 1 raw\n2 busy\n3 absent\n4 absent\nend nothing\n";

const OTHER_HELD_OFF: &[u8] = b"lib 2 raw\n6 busy\n7 absent\n8 absent\nend nothing\n";

const BOTH_WRITE: Row<'static> = Row {
    image: Start::OneFile,
    length: IMAGE_SIZE,
    changes: &[],
    script: &[ONE_WRITES, OTHER_WRITES],
    failing: (0, 0),
    status: 0,
    text: &[b"lib 1 raw\n"],
    is_all: false,
    file: "o p",
    kept: Kept::Changed(&[(24_576, b'J')]),
};

// Whether two libraries that write one file exclude each other.
fn exclude_each_other<R: Threads + Wait + Sync + AllocGlobal>(rt: &R, words: &[&str]) -> bool {
    match told(rt, &OpenGate, words, &BOTH_WRITE) {
        Some(report) => is_one_of(&report),
        None => false,
    }
}

fn is_one_of(report: &[u8]) -> bool {
    let mut is_one = false;
    for parts in EXCLUDED {
        is_one |= is_spelled(report, parts, true);
    }
    is_one
}

#[test]
fn two_that_write_one_file(rt: HostRuntime) {
    for _ in 0..20 {
        assert!(rt; exclude_each_other(&rt, RUN) && exclude_each_other(&rt, RUN_WITH_WORKERS));
    }
}

// Two libraries that write a directory and its file.
const APART: Row<'static> = Row {
    image: Start::ThreeFiles,
    length: IMAGE_SIZE,
    changes: &[],
    script: &[
        b"lib 1 raw 0 0\ngrant write 2\npoke block 2 0 208 ff\nrelease 2 - -\n",
        b"lib 2 raw 0 0\ngrant write 3\npoke block 3 0 0 4a\nrelease 3 - -\n",
    ],
    failing: (0, 0),
    status: 0,
    text: &[
        b"lib 1 raw\n2 granted\n3 poked\n4 accepted\nend nothing\n",
        b"lib 2 raw\n6 granted\n7 poked\n8 accepted\nend nothing\n",
        b"tree\n0 d 755 0 0 1 /\n1 d 755 0 0 1 a\n2 f 644 0 0 5 f\ninodes 3 pages 6 free 23\n",
    ],
    is_all: true,
    file: "o p",
    kept: Kept::Part(32_768, 32_769, b'J'),
};

// ---- homes

// Directories for the homes of two users, and one for all, as they are made one after another.
const HOMES: &[&[u8]] = &[
    b"lib 1 honest 0 0\nmkdir /home 777\nmkdir /srv 777\nmkdir /srv/tmp 777\n",
    b"lib 1 honest 1001 1001\nmkdir /home/u1 700\n",
    b"lib 1 honest 1002 1002\nmkdir /home/u2 700\n",
];

const NEW_HOMES: &[&str] = &["new", "o p", "512", "128"];

// The image after a script that ends well.
fn played<'a, R: Threads + Wait + Sync + AllocGlobal>(
    rt: &R,
    image: &[u8],
    script: &'a [u8],
) -> Option<Vec<u8>> {
    let row = Row {
        image: Start::Nothing,
        length: 0,
        changes: &[],
        script: &[script],
        failing: (0, 0),
        status: 0,
        text: &[],
        is_all: false,
        file: "o p",
        kept: Kept::Nothing,
    };
    left_by(rt, TURNS, image, &row, "o p")
}

// The image on which the four run.
fn homes<R: Threads + Wait + Sync + AllocGlobal>(rt: &R) -> Option<Vec<u8>> {
    let mut image = left_by(rt, NEW_HOMES, b"", &NO_ROW, "o p")?;
    for script in HOMES {
        image = played(rt, &image, script)?;
    }
    Some(image)
}

// Three honest libraries that fill their directories with files of four bytes, beside a hostile one.
const FOUR_HOMES: Row<'static> = Row {
    image: Start::Nothing,
    length: 0,
    changes: &[],
    script: &[
        b"lib 1 honest 1001 1001\ncreate /home/u1/f01 600\nwrite /home/u1/f01 0 note\ncreate /home/u1/f02 600\nwrite /home/u1/f02 0 note\ncreate /home/u1/f03 600\nwrite /home/u1/f03 0 note\ncreate /home/u1/f04 600\nwrite /home/u1/f04 0 note\ncreate /home/u1/f05 600\nwrite /home/u1/f05 0 note\ncreate /home/u1/f06 600\nwrite /home/u1/f06 0 note\ncreate /home/u1/f07 600\nwrite /home/u1/f07 0 note\ncreate /home/u1/f08 600\nwrite /home/u1/f08 0 note\ncreate /home/u1/f09 600\nwrite /home/u1/f09 0 note\ncreate /home/u1/f10 600\nwrite /home/u1/f10 0 note\ncreate /home/u1/f11 600\nwrite /home/u1/f11 0 note\ncreate /home/u1/f12 600\nwrite /home/u1/f12 0 note\ncreate /home/u1/f13 600\nwrite /home/u1/f13 0 note\ncreate /home/u1/f14 600\nwrite /home/u1/f14 0 note\ncreate /home/u1/f15 600\nwrite /home/u1/f15 0 note\ncreate /home/u1/f16 600\nwrite /home/u1/f16 0 note\ncreate /home/u1/f17 600\nwrite /home/u1/f17 0 note\ncreate /home/u1/f18 600\nwrite /home/u1/f18 0 note\ncreate /home/u1/f19 600\nwrite /home/u1/f19 0 note\ncreate /home/u1/f20 600\nwrite /home/u1/f20 0 note\n",
        b"lib 2 honest 1002 1002\ncreate /home/u2/f01 600\nwrite /home/u2/f01 0 note\ncreate /home/u2/f02 600\nwrite /home/u2/f02 0 note\ncreate /home/u2/f03 600\nwrite /home/u2/f03 0 note\ncreate /home/u2/f04 600\nwrite /home/u2/f04 0 note\ncreate /home/u2/f05 600\nwrite /home/u2/f05 0 note\ncreate /home/u2/f06 600\nwrite /home/u2/f06 0 note\ncreate /home/u2/f07 600\nwrite /home/u2/f07 0 note\ncreate /home/u2/f08 600\nwrite /home/u2/f08 0 note\ncreate /home/u2/f09 600\nwrite /home/u2/f09 0 note\ncreate /home/u2/f10 600\nwrite /home/u2/f10 0 note\ncreate /home/u2/f11 600\nwrite /home/u2/f11 0 note\ncreate /home/u2/f12 600\nwrite /home/u2/f12 0 note\n",
        b"lib 3 honest 0 0\ncreate /srv/g01 644\nwrite /srv/g01 0 page\ncreate /srv/g02 644\nwrite /srv/g02 0 page\ncreate /srv/g03 644\nwrite /srv/g03 0 page\ncreate /srv/g04 644\nwrite /srv/g04 0 page\ncreate /srv/g05 644\nwrite /srv/g05 0 page\ncreate /srv/g06 644\nwrite /srv/g06 0 page\ncreate /srv/g07 644\nwrite /srv/g07 0 page\ncreate /srv/g08 644\nwrite /srv/g08 0 page\n",
        b"lib 4 raw 5 5\ngrant write 4\npoke body 4 16 0010000000000000\nrelease 4 - -\n",
    ],
    failing: (0, 0),
    status: 0,
    text: &[],
    is_all: false,
    file: "o p",
    kept: Kept::Part(0, 0, 0),
};

// What the image has in use once they have filled them.
const HOMES_IN_USE: &[u8] = b"\ninodes 46 pages 91 free 418\n";

// What is told where all homes are filled and OUT verifies.
fn filled<R: Threads + Wait + Sync + AllocGlobal, G: Gate + Sync>(
    rt: &R,
    gate: &G,
    words: &[&str],
    image: &[u8],
) -> Option<Vec<u8>> {
    let report = told_over(rt, gate, words, image, &FOUR_HOMES)?;
    if report.ends_with(HOMES_IN_USE) {
        Some(report)
    } else {
        None
    }
}

// Whether all four are told the same in turns, in threads, and beside workers: none of them asks for what
// another has.
fn homes_come_to_one<R: Threads + Wait + Sync + AllocGlobal>(rt: &R, image: &[u8]) -> bool {
    match filled(rt, &OpenGate, TURNS, image) {
        Some(turns) => {
            are_told(rt, RUN, image, &turns) && are_told(rt, RUN_WITH_WORKERS, image, &turns)
        }
        None => false,
    }
}

// Whether they are told this in threads.
fn are_told<R: Threads + Wait + Sync + AllocGlobal>(
    rt: &R,
    words: &[&str],
    image: &[u8],
    turns: &[u8],
) -> bool {
    match filled(rt, &OpenGate, words, image) {
        Some(run) => run.as_slice() == turns,
        None => false,
    }
}

fn homes_are_filled<R: Threads + Wait + Sync + AllocGlobal>(rt: &R) -> bool {
    match homes(rt) {
        Some(image) => homes_come_to_one(rt, &image),
        None => false,
    }
}

#[test]
fn four_homes_are_filled(rt: HostRuntime) {
    assert!(rt; homes_are_filled(&rt));
}

// ---- two at once

// The most looks at the flag for which a library is held.
const LOOKS: u64 = 1_000_000;

// A gate that holds library 1 at its second line until library 2 comes to this line.
fn held_for(line: u32) -> HoldGate {
    let held = GateStop {
        lib: LibNo(1),
        line: 3,
    };
    let awaited = GateStop {
        lib: LibNo(2),
        line,
    };
    HoldGate::new(held, awaited, LOOKS)
}

// Whether library 1, held at its second line, saw library 2 come to its own: each has played its first
// line, so two write leases are out at once. Libraries that run one after another never meet.
fn two_meet<R: Threads + Wait + Sync + AllocGlobal>(rt: &R) -> bool {
    let gate = held_for(7);
    told(rt, &gate, RUN, &APART).is_some() && gate.has_met()
}

// The same of the first two of those that fill their homes.
fn two_homes_meet<R: Threads + Wait + Sync + AllocGlobal>(rt: &R, image: &[u8]) -> bool {
    let gate = held_for(44);
    filled(rt, &gate, RUN, image).is_some() && gate.has_met()
}

#[test]
fn two_write_leases_are_out_at_once(rt: HostRuntime) {
    assert!(rt; two_meet(&rt));
}

fn homes_meet<R: Threads + Wait + Sync + AllocGlobal>(rt: &R) -> bool {
    match homes(rt) {
        Some(image) => two_homes_meet(rt, &image),
        None => false,
    }
}

#[test]
fn two_homes_are_filled_at_once(rt: HostRuntime) {
    assert!(rt; homes_meet(&rt));
}
