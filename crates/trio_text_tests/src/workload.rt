//! The scripts of small workloads, line by line, and what is told of them.

use crate::honest::put_lines;
use std::alloc::Global;
use trio_gen::{FILES_LIMIT, directories_script, files_script, push_call_answers, put_summary};
use trio_nodes::{Answer, Reply};
use trio_report::{LineAnswer, TreeLine, TreeName};
use trio_rights::{Creds, Kind, Mode};
use trio_script::ScriptLib;

const ALL: Creds = Creds { uid: 0, gid: 0 };

/// The lines of libraries of the user 0 and the group 0, which are all honest.
fn shown(alloc: Global, libs: &[ScriptLib]) -> Option<Vec<u8>> {
    let mut out = Vec::new(alloc);
    for lib in libs {
        if lib.creds != ALL {
            return None;
        }
        out.extend_from_slice(b"\nlib").ok()?;
        put_lines(alloc, &mut out, lib)?;
    }
    Some(out)
}

/// 0o755 is 493.
const DIRECTORIES: &[u8] = b"
lib
2 mkdir (d1,) 493
3 mkdir (d1,a,) 493
4 mkdir (d1,b,) 493
5 mkdir (d2,) 493
6 mkdir (d2,a,) 493
7 mkdir (d2,b,) 493
8 mkdir (d3,) 493
9 mkdir (d3,a,) 493
10 mkdir (d3,b,) 493
11 mkdir (d4,) 493
12 mkdir (d4,a,) 493
13 mkdir (d4,b,) 493";

/// The fourth file is renamed, and the fifth, again the first library's, is removed. 0o644 is 420.
const FIVE_FILES: &[u8] = b"
lib
2 create (d1,a,f0,) 420
3 write (d1,a,f0,) 0 abcdefgh
4 settle
5 create (d1,a,f4,) 420
6 write (d1,a,f4,) 0 efghijklmnop
7 settle
8 unlink (d1,a,f4,)
9 settle
lib
11 create (d2,a,f1,) 420
12 write (d2,a,f1,) 0 bcdefghijklmnopqrstuvwxyz
13 settle
lib
15 create (d3,a,f2,) 420
16 write (d3,a,f2,) 0 cdefghijklmnopqrstuvwxyzabcdefghijklmnopqr
17 settle
lib
19 create (d4,a,f3,) 420
20 write (d4,a,f3,) 0 defghijklmnopqrstuvwxyzabcdefghijklmnopqrstuvwxyzabcdefghij
21 settle
22 rename (d4,a,f3,) (d4,b,f3,)
23 settle";

fn shows_directories(alloc: Global) -> Option<bool> {
    let libs = directories_script(alloc).ok()?;
    Some(shown(alloc, &libs)?.as_slice() == DIRECTORIES)
}

fn shows_files(alloc: Global) -> Option<bool> {
    let libs = files_script(alloc, 7, 5).ok()?;
    Some(shown(alloc, &libs)?.as_slice() == FIVE_FILES)
}

/// How many libraries share the most files of the highest number.
fn count_most(alloc: Global) -> Option<usize> {
    Some(files_script(alloc, u32::MAX, FILES_LIMIT).ok()?.len())
}

#[test]
fn scripts_are_shown(rt: HostRuntime) {
    assert!(rt; shows_directories(rt.alloc()) == Some(true));
    assert!(rt; shows_files(rt.alloc()) == Some(true));
    assert!(rt; count_most(rt.alloc()) == Some(4));
}

/// What the first library's line of this number is told. Of its eight lines, which make two files and
/// remove one, five are calls; an answer to a settle isn't counted.
fn told(line: u32) -> LineAnswer {
    match line {
        2 | 8 => LineAnswer::Replied(Reply::Ok(Answer::Done)),
        3 => LineAnswer::Replied(Reply::Ok(Answer::Count(8))),
        4 => LineAnswer::Settled(2),
        6 => LineAnswer::Replied(Reply::NotFound),
        9 => LineAnswer::Settled(1),
        _ => LineAnswer::Busy,
    }
}

fn all_told(alloc: Global) -> Option<Vec<LineAnswer>> {
    let mut answers = Vec::new(alloc);
    for line in 2..10 {
        answers.push(told(line)).ok()?;
    }
    Some(answers)
}

fn tree_line(kind: Kind, size: u64) -> TreeLine {
    TreeLine {
        depth: 0,
        kind,
        mode: Mode(0o755),
        uid: 0,
        gid: 0,
        size,
        name: TreeName::Root,
    }
}

fn tree() -> [TreeLine; 4] {
    [
        tree_line(Kind::Directory, 5),
        tree_line(Kind::Regular, 8),
        tree_line(Kind::Link, 9),
        tree_line(Kind::Regular, u64::MAX),
    ]
}

const SUMMARY: &[u8] = b"gen number 7 files 5 calls 5 ok 3 busy 1 bytes 18446744073709551623\n";

/// Appends what is told of the first library's calls and of the tree.
fn put_first(alloc: Global, out: &mut Vec<u8>, lib: &ScriptLib, told: &[LineAnswer]) -> Option<()> {
    let mut answers = Vec::new(alloc);
    push_call_answers(&mut answers, &lib.lines, told).ok()?;
    put_summary(alloc, out, 7, 5, &answers, &tree()).ok()
}

fn is_counted(alloc: Global) -> Option<bool> {
    let libs = files_script(alloc, 7, 5).ok()?;
    let mut out = Vec::new(alloc);
    put_first(alloc, &mut out, libs.first()?, &all_told(alloc)?)?;
    Some(out.as_slice() == SUMMARY)
}

#[test]
fn answers_are_counted(rt: HostRuntime) {
    assert!(rt; is_counted(rt.alloc()) == Some(true));
}
