//! Calls on the tree as lines of an honest library, and what each is replied as a report tells it.

use crate::making::{Row, nodes_of};
use std::alloc::Global;
use std::process::Abort;
use trio_names::Path;
use trio_nodes::{Call, Nodes, SharedBytes};
use trio_onetree::apply;
use trio_report::{LineAnswer, put_answer};
use trio_rights::{Creds, Kind};
use trio_script::{HonestLine, Lines, ScriptLib, read_script};

/// The caller's user and group, the line, and what its call is replied.
type Step = (u32, &'static str, &'static str);

// `/a` with the file `f` of the bytes `hello`
const SMALL: &[Row] = &[
    (1, 0, b"-", Kind::Directory, 0o755, b""),
    (2, 1, b"a", Kind::Directory, 0o755, b""),
    (3, 2, b"f", Kind::Regular, 0o644, b"hello"),
];

// the same with a directory and a file that uid 0 alone may use, and an empty directory
const TREE: &[Row] = &[
    (1, 0, b"-", Kind::Directory, 0o755, b""),
    (2, 1, b"a", Kind::Directory, 0o755, b""),
    (3, 2, b"f", Kind::Regular, 0o644, b"hello"),
    (4, 1, b"s", Kind::Directory, 0o700, b""),
    (5, 4, b"x", Kind::Regular, 0o644, b"x"),
    (6, 2, b"e", Kind::Directory, 0o755, b""),
    (7, 2, b"k", Kind::Regular, 0o600, b"key"),
];

// Whether a call is replied this. A file that it makes has the number `made`.
fn is_replied(
    alloc: Global,
    nodes: &mut Nodes,
    uid: u32,
    call: &Call,
    made: u32,
    wanted: &str,
) -> Option<bool> {
    let creds = Creds { uid, gid: uid };
    let answer = LineAnswer::Replied(apply(alloc, nodes, creds, call, made).ok()?);
    let mut told = Vec::new(alloc);
    put_answer(alloc, &mut told, 2, &answer).ok()?;
    let line = format!(in alloc; "2 {wanted}\n").ok()?;
    Some(told.as_slice() == line.as_bytes())
}

// a script of one line behind its library's
fn script(alloc: Global, uid: u32, line: &str) -> Option<Vec<ScriptLib>> {
    let text = format!(in alloc; "lib 1 honest {uid} {uid}\n{line}").ok()?;
    read_script(alloc, text.as_bytes()).ok()
}

fn call_of(libs: &[ScriptLib]) -> Option<&Call> {
    let Lines::Honest(lines) = &libs.first()?.lines else {
        return None;
    };
    match &lines.as_slice().first()?.line {
        HonestLine::Call(call) => Some(call),
        HonestLine::Settle => None,
    }
}

fn is_stepped(alloc: Global, nodes: &mut Nodes, made: u32, step: &Step) -> Option<bool> {
    let (uid, line, wanted) = step;
    let libs = script(alloc, *uid, line)?;
    is_replied(alloc, nodes, *uid, call_of(&libs)?, made, wanted)
}

// Does the calls in order on one tree. A file that is made has the next number, from the first on.
fn steps_are_replied<R: Abort>(
    rt: &R,
    alloc: Global,
    rows: &[Row],
    first: u32,
    steps: &[Step],
) -> Option<()> {
    let mut nodes = nodes_of(alloc, rows)?;
    let mut made = first;
    for step in steps {
        let line = step.1;
        assert!(rt;
            is_stepped(alloc, &mut nodes, made, step) == Some(true),
            "{line}"
        );
        made = made.saturating_add(1);
    }
    Some(())
}

const MOVED: &[Step] = &[
    (0, "rename /a /a/b", "intoitself"),
    (0, "rename /a/f /a/g", "ok"),
    (0, "mkdir /b 755", "ok"),
    (0, "rename /a/g /b/h", "ok"),
    (0, "chmod /b/h 600", "ok"),
    (0, "stat /b/h", "ok f 600 0 0 5"),
    (0, "list / 0", "ok 2 a/ b/"),
];

// The third call makes `/b`, with the number 4.
#[test]
fn a_file_is_renamed_moved_and_changed(rt: HostRuntime) {
    assert!(rt; steps_are_replied(&rt, rt.alloc(), SMALL, 2, MOVED).is_some());
}

// Each check of each call in its order, also where a later check would fail too. None changes
// anything, so all are tried on one tree.
const REFUSALS: &[Step] = &[
    (0, "mkdir / 755", "exists"),
    (0, "mkdir /z/n 755", "notfound"),
    (0, "mkdir /a/f/n 755", "notdir"),
    (5, "mkdir /s/x/n 755", "denied"),
    (5, "mkdir /a/n 755", "denied"),
    (5, "mkdir /a/e 755", "denied"),
    (0, "mkdir /a/e 755", "exists"),
    (0, "create / 644", "exists"),
    (0, "create /z/n 644", "notfound"),
    (0, "create /a/f/n 644", "notdir"),
    (5, "create /s/n 644", "denied"),
    (5, "create /a/f 644", "denied"),
    (0, "create /a/f 644", "exists"),
    (0, "write /a/z 0 w", "notfound"),
    (0, "write /a 0 w", "isdir"),
    (5, "write /a/f 33554432 w", "denied"),
    (0, "write /a/f 33554432 w", "toolarge"),
    (0, "read /a/z 0 9", "notfound"),
    (0, "read /a/f/z 0 9", "notdir"),
    (0, "read /a 0 9", "isdir"),
    (5, "read /a/k 0 9", "denied"),
    (5, "read /s/x 0 9", "denied"),
    (0, "truncate /a/z 0", "notfound"),
    (0, "truncate /a 0", "isdir"),
    (5, "truncate /a/f 33554433", "denied"),
    (0, "truncate /a/f 33554433", "toolarge"),
    (0, "unlink /", "isdir"),
    (0, "unlink /a/f/z", "notdir"),
    (5, "unlink /a/z", "denied"),
    (0, "unlink /a/z", "notfound"),
    (0, "unlink /a/e", "isdir"),
    (0, "rmdir /", "denied"),
    (5, "rmdir /a/z", "denied"),
    (0, "rmdir /a/z", "notfound"),
    (0, "rmdir /a/f", "notdir"),
    (0, "rmdir /a", "notempty"),
    (0, "rename / /", "denied"),
    (0, "rename /a /", "exists"),
    (0, "rename /z /z/y", "intoitself"),
    (5, "rename /a/z /a/y", "denied"),
    (0, "rename /y/z /a/f/z", "notfound"),
    (0, "rename /a/z /a/f/z", "notdir"),
    (0, "rename /a/z /a/f", "notfound"),
    (0, "rename /a/f /a/f", "exists"),
    (0, "list /a/f 0", "notdir"),
    (5, "list /s 0", "denied"),
    (5, "stat /a/k", "denied"),
    (0, "chmod / 700", "denied"),
    (5, "chmod /s/x 600", "denied"),
    (0, "chmod /a/z 600", "notfound"),
    (5, "chmod /a/f 666", "denied"),
];

#[test]
fn the_first_check_that_fails_is_replied(rt: HostRuntime) {
    assert!(rt; steps_are_replied(&rt, rt.alloc(), TREE, 8, REFUSALS).is_some());
}

// What is done, call after call on one tree.
const DONE: &[Step] = &[
    (0, "mkdir /a/e/n 777", "ok"),
    (5, "mkdir /a/e/n/m 750", "ok"),
    (5, "stat /a/e/n/m", "ok d 750 5 5 0"),
    (0, "stat /a/e/n", "ok d 777 0 0 1"),
    (0, "create /a/n 640", "ok"),
    (0, "stat /a/n", "ok f 640 0 0 0"),
    (0, "write /a/f 1 ul", "ok 2"),
    (0, "read /a/f 0 99", "ok 5 hullo"),
    (0, "write /a/f 7 xy", "ok 2"),
    (0, "read /a/f 0 99", "ok 9 hullo\\x00\\x00xy"),
    (5, "read /a/f 2 2", "ok 2 ll"),
    (0, "read /a/f 9 9", "ok 0"),
    (0, "truncate /a/f 2", "ok"),
    (0, "truncate /a/f 4", "ok"),
    (0, "read /a/f 0 99", "ok 4 hu\\x00\\x00"),
    (5, "list /a 0", "ok 4 e/ f k n"),
    (5, "list /a 2", "ok 4 k n"),
    (5, "list /a 4", "ok 4"),
    (0, "unlink /a/n", "ok"),
    (0, "stat /a/n", "notfound"),
    (0, "rmdir /a/e/n/m", "ok"),
    (5, "stat /", "ok d 755 0 0 2"),
    (0, "rename /a/f /s/g", "ok"),
    (0, "read /s/g 0 9", "ok 4 hu\\x00\\x00"),
    (0, "list /a 0", "ok 2 e/ k"),
    (0, "chmod /a/k 666", "ok"),
    (5, "write /a/k 3 s", "ok 1"),
    (5, "stat /a/k", "ok f 666 0 0 4"),
];

#[test]
fn calls_are_done(rt: HostRuntime) {
    assert!(rt; steps_are_replied(&rt, rt.alloc(), TREE, 8, DONE).is_some());
}

// `/a` with the file `f` and a link that uid 0 alone may read, and the link `/l`
const LINKED: &[Row] = &[
    (1, 0, b"-", Kind::Directory, 0o755, b""),
    (2, 1, b"a", Kind::Directory, 0o755, b""),
    (3, 2, b"f", Kind::Regular, 0o644, b"hello"),
    (4, 1, b"l", Kind::Link, 0o777, b"/a/f"),
    (5, 2, b"m", Kind::Link, 0o700, b"x"),
];

// What a link is asks no rights, and comes before sizes. A walk doesn't follow one.
const LINK_REFUSALS: &[Step] = &[
    (0, "write /l 0 w", "islink"),
    (5, "write /a/m 33554432 w", "islink"),
    (0, "read /l 0 4", "islink"),
    (5, "read /a/m 0 4", "islink"),
    (0, "truncate /l 0", "islink"),
    (5, "truncate /a/m 33554433", "islink"),
    (0, "guard /l 1", "islink"),
    (0, "guard /a 1", "isdir"),
    (0, "guard / 0", "isdir"),
    (0, "guard /z 1", "notfound"),
    (5, "guard /a/f 1", "denied"),
    (0, "readlink /", "notlink"),
    (0, "readlink /a/f", "notlink"),
    (0, "readlink /z", "notfound"),
    (0, "readlink /l/z", "notdir"),
    (5, "readlink /a/m", "denied"),
    (0, "stat /l/f", "notdir"),
    (0, "create /l/n 644", "notdir"),
    (0, "list /l 0", "notdir"),
    (0, "rmdir /l", "notdir"),
    (0, "symlink / x", "exists"),
    (0, "symlink /z/n x", "notfound"),
    (0, "symlink /l/n x", "notdir"),
    (5, "symlink /a/n x", "denied"),
    (5, "symlink /a/f x", "denied"),
    (0, "symlink /a/f x", "exists"),
    (0, "symlink /l x", "exists"),
    (0, "rename /a/f /l", "exists"),
    (5, "chmod /l 700", "denied"),
];

#[test]
fn a_link_is_followed_by_nobody(rt: HostRuntime) {
    assert!(rt; steps_are_replied(&rt, rt.alloc(), LINKED, 6, LINK_REFUSALS).is_some());
}

// The fifth call makes `/a/n`.
const LINKS_DONE: &[Step] = &[
    (0, "readlink /l", "ok 4 /a/f"),
    (5, "readlink /l", "ok 4 /a/f"),
    (0, "stat /l", "ok l 777 0 0 4"),
    (0, "list / 0", "ok 2 a/ l@"),
    (0, "symlink /a/n \\x00\\x20/", "ok"),
    (5, "readlink /a/n", "ok 3 \\x00\\x20/"),
    (0, "stat /a/n", "ok l 777 0 0 3"),
    (0, "rename /l /a/k", "ok"),
    (0, "readlink /a/k", "ok 4 /a/f"),
    (0, "chmod /a/k 640", "ok"),
    (5, "readlink /a/k", "denied"),
    (0, "unlink /a/k", "ok"),
    (0, "readlink /a/k", "notfound"),
    (0, "list /a 0", "ok 3 f m@ n@"),
];

#[test]
fn links_are_made_read_moved_and_removed(rt: HostRuntime) {
    assert!(rt; steps_are_replied(&rt, rt.alloc(), LINKED, 6, LINKS_DONE).is_some());
}

// whether the file 3 is guarded after each of these lines
const GUARDS: &[(&str, bool)] = &[
    ("guard /a/f 1", true),
    ("guard /a/f 1", true),
    ("write /a/f 0 j", true),
    ("rename /a/f /g", true),
    ("guard /g 0", false),
];

fn is_guarded_after(alloc: Global, nodes: &mut Nodes, line: &str) -> Option<bool> {
    let libs = script(alloc, 0, line)?;
    let creds = Creds { uid: 0, gid: 0 };
    apply(alloc, nodes, creds, call_of(&libs)?, 0).ok()?;
    Some(nodes.get(3)?.guard)
}

fn guards_stay<R: Abort>(rt: &R, alloc: Global) -> Option<()> {
    let mut nodes = nodes_of(alloc, LINKED)?;
    for (line, wanted) in GUARDS {
        assert!(rt;
            is_guarded_after(alloc, &mut nodes, line) == Some(*wanted),
            "{line}"
        );
    }
    Some(())
}

#[test]
fn a_guard_stays_until_it_is_taken_off(rt: HostRuntime) {
    assert!(rt; guards_stay(&rt, rt.alloc()).is_some());
}

// Writes of no bytes, which no line says: where they begin, and what they are replied.
const EMPTY: &[(u64, &str)] = &[(33_554_432, "ok 0"), (u64::MAX, "toolarge")];

fn empty_write(alloc: Global, at: u64) -> Option<Call> {
    let path = Path::read(alloc, b"/a/f").ok()?;
    let bytes = SharedBytes::copied(alloc, b"").ok()?;
    Some(Call::Write { path, at, bytes })
}

fn writes_nothing(alloc: Global, at: u64, wanted: &str) -> Option<bool> {
    let mut nodes = nodes_of(alloc, TREE)?;
    is_replied(alloc, &mut nodes, 0, &empty_write(alloc, at)?, 8, wanted)
}

#[test]
fn writes_of_no_bytes_have_a_limit_too(rt: HostRuntime) {
    for (at, wanted) in EMPTY {
        assert!(rt;
            writes_nothing(rt.alloc(), *at, wanted) == Some(true),
            "at {at}"
        );
    }
}
