//! Images, answers and counts, and the text that is told of them.

use std::alloc::Global;
use trio_names::Name;
use trio_nodes::{Answer, List, Reply, SharedBytes};
use trio_page::Reads;
use trio_report::{
    Counts, EndAnswer, LibraryKind, LineAnswer, TreeLine, put_answer, put_counts, put_end,
    put_heading, put_tree, tree_json, tree_lines,
};
use trio_rights::{Kind, LibNo, Mode};
use trio_samples::files::{one_file, root};
use trio_samples::{Sample, SampleFile, directory, link, regular};

/// The lines of the tree of an image, and how often it was looked at.
fn lines_of(alloc: Global, files: &[SampleFile]) -> Option<(Vec<TreeLine>, u64)> {
    let sample = Sample::small(alloc, files).ok()?;
    let superblock = *sample.superblock();
    let mut home = sample.home(alloc).ok()?;
    let mut reads = Reads::new();
    let lines = tree_lines(alloc, &mut home, &superblock, &mut reads).ok()?;
    Some((lines, reads.count()))
}

/// Whether a tree is told so, in lines.
fn is_tree(alloc: Global, lines: &[TreeLine], wanted: &[u8]) -> Option<bool> {
    let mut out = Vec::new(alloc);
    put_tree(alloc, &mut out, lines).ok()?;
    Some(out.as_slice() == wanted)
}

fn is_json(alloc: Global, lines: &[TreeLine], wanted: &[u8]) -> Option<bool> {
    Some(tree_json(alloc, lines).ok()?.as_slice() == wanted)
}

const FIRST: &[u8] = b"tree
0 d 755 0 0 1 /
1 f 644 0 0 5 f
";

/// The root has one file of five bytes, whose block isn't looked at.
fn tells_first(alloc: Global) -> Option<bool> {
    let (lines, looks) = lines_of(alloc, &one_file())?;
    Some(looks == 3 && is_tree(alloc, &lines, FIRST)?)
}

/// Directories in directories, names that are no text, and names out of order.
fn deep_files<'a>() -> [SampleFile<'a>; 6] {
    [
        root(),
        regular(2, 1, b"b", b""),
        SampleFile {
            mode: Mode(0o700),
            ..directory(3, 1, b"a b").owned(1001, 5)
        },
        regular(4, 1, b"B", b""),
        SampleFile {
            mode: Mode(0o007),
            ..regular(5, 3, b"\xff", b"")
        },
        SampleFile {
            mode: Mode(0o644),
            ..directory(6, 3, b"A")
        },
    ]
}

const DEEP: &[u8] = b"tree
0 d 755 0 0 3 /
1 f 644 0 0 0 B
1 d 700 1001 5 2 a\\x20b
2 d 644 0 0 0 A
2 f 007 0 0 0 \\xFF
1 f 644 0 0 0 b
";

const JSON: &[u8] =
    b"[{\"depth\":0,\"gid\":0,\"kind\":\"d\",\"mode\":\"755\",\"name\":\"/\",\"size\":3,\"uid\":0},{\"depth\":1,\"gid\":0,\"kind\":\"f\",\"mode\":\"644\",\"name\":\"B\",\"size\":0,\"uid\":0},{\"depth\":1,\"gid\":5,\"kind\":\"d\",\"mode\":\"700\",\"name\":\"a\\\\x20b\",\"size\":2,\"uid\":1001},{\"depth\":2,\"gid\":0,\"kind\":\"d\",\"mode\":\"644\",\"name\":\"A\",\"size\":0,\"uid\":0},{\"depth\":2,\"gid\":0,\"kind\":\"f\",\"mode\":\"007\",\"name\":\"\\\\xFF\",\"size\":0,\"uid\":0},{\"depth\":1,\"gid\":0,\"kind\":\"f\",\"mode\":\"644\",\"name\":\"b\",\"size\":0,\"uid\":0}]\n";

fn tells_deep(alloc: Global) -> Option<bool> {
    let (lines, _) = lines_of(alloc, &deep_files())?;
    Some(is_tree(alloc, &lines, DEEP)? && is_json(alloc, &lines, JSON)?)
}

const LINKED: &[u8] = b"tree
0 d 755 0 0 1 /
1 l 777 0 0 2 l@
";

/// The root has one link, whose text isn't looked at.
fn tells_link(alloc: Global) -> Option<bool> {
    let (lines, looks) = lines_of(alloc, &[root(), link(2, 1, b"l@", b"/a")])?;
    Some(looks == 3 && is_tree(alloc, &lines, LINKED)?)
}

#[test]
fn images_are_told(rt: HostRuntime) {
    assert!(rt; tells_first(rt.alloc()) == Some(true));
    assert!(rt; tells_deep(rt.alloc()) == Some(true));
    assert!(rt; tells_link(rt.alloc()) == Some(true));
}

/// A library of this number and kind, and the line that begins its report.
const HEADINGS: &[(u32, LibraryKind, &[u8])] = &[
    (1, LibraryKind::Raw, b"lib 1 raw\n"),
    (16, LibraryKind::Raw, b"lib 16 raw\n"),
    (2, LibraryKind::Honest, b"lib 2 honest\n"),
];

const ENDS: &[(EndAnswer, &[u8])] = &[
    (EndAnswer::Nothing, b"end nothing\n"),
    (EndAnswer::Accepted, b"end accepted\n"),
    (EndAnswer::Refused(1), b"end refused I1\n"),
    (EndAnswer::Settled(0), b"end settled 0\n"),
];

fn is_heading(alloc: Global, number: u32, kind: LibraryKind, wanted: &[u8]) -> Option<bool> {
    let mut out = Vec::new(alloc);
    put_heading(alloc, &mut out, LibNo(number), kind).ok()?;
    Some(out.as_slice() == wanted)
}

fn is_end(alloc: Global, answer: EndAnswer, wanted: &[u8]) -> Option<bool> {
    let mut out = Vec::new(alloc);
    put_end(alloc, &mut out, answer).ok()?;
    Some(out.as_slice() == wanted)
}

const COUNTS: Counts = Counts {
    inodes: 2,
    pages: 4,
    free: 25,
};

fn counts_told(alloc: Global) -> Option<bool> {
    let mut out = Vec::new(alloc);
    put_counts(alloc, &mut out, &COUNTS).ok()?;
    Some(out.as_slice() == b"inodes 2 pages 4 free 25\n".as_slice())
}

#[test]
fn heads_ends_and_counts_are_told(rt: HostRuntime) {
    for (number, kind, wanted) in HEADINGS {
        assert!(rt;
            is_heading(rt.alloc(), *number, *kind, wanted) == Some(true),
            "lib {number}"
        );
    }
    for (i, (answer, wanted)) in ENDS.iter().enumerate() {
        assert!(rt;
            is_end(rt.alloc(), *answer, wanted) == Some(true),
            "end {i}"
        );
    }
    assert!(rt; counts_told(rt.alloc()) == Some(true));
}

fn is_told(alloc: Global, number: u32, answer: &LineAnswer, wanted: &str) -> Option<bool> {
    let mut out = Vec::new(alloc);
    put_answer(alloc, &mut out, number, answer).ok()?;
    let line = format!(in alloc; "{number} {wanted}\n").ok()?;
    Some(out.as_slice() == line.as_bytes())
}

fn stat(kind: Kind, mode: u16, uid: u32, gid: u32, size: u64) -> Answer {
    let mode = Mode(mode);
    Answer::Stat {
        kind,
        mode,
        uid,
        gid,
        size,
    }
}

/// What the line of this number is answered.
fn answer(number: u32) -> LineAnswer {
    match number {
        2 => LineAnswer::Granted,
        3 => LineAnswer::NotLive,
        4 => LineAnswer::Denied(12),
        5 => LineAnswer::NoParent,
        6 => LineAnswer::NoPages {
            wanted: 30,
            free: 25,
        },
        7 => LineAnswer::NoInodes {
            wanted: 64,
            free: 0,
        },
        10 => LineAnswer::Busy,
        11 => LineAnswer::Poked,
        12 => LineAnswer::Accepted,
        13 => LineAnswer::Refused(4),
        14 => LineAnswer::GrantedHold { children: 1 },
        15 => LineAnswer::NotClosed(12),
        16 => LineAnswer::GivenBack,
        18 => LineAnswer::ModeSet,
        19 => LineAnswer::NotOwner,
        20 => LineAnswer::BadMode,
        9 => LineAnswer::Settled(10),
        _ => LineAnswer::Absent,
    }
}

/// The number of a line, and the words of what it is answered.
const ANSWERS: &[(u32, &str)] = &[
    (2, "granted"),
    (3, "notlive"),
    (4, "denied 12"),
    (5, "noparent"),
    (6, "nopages 30 25"),
    (7, "noinodes 64 0"),
    (9, "settled 10"),
    (10, "busy"),
    (11, "poked"),
    (12, "accepted"),
    (13, "refused I4"),
    (14, "granted children 1"),
    (15, "notclosed 12"),
    (16, "ok"),
    (18, "ok"),
    (19, "notowner"),
    (20, "badmode"),
    (16_384, "absent"),
];

/// What the call in the line of this number is replied.
fn reply(number: u32) -> Reply {
    match number {
        1 => Reply::NotFound,
        2 => Reply::Exists,
        3 => Reply::NotDir,
        4 => Reply::IsDir,
        5 => Reply::NotEmpty,
        6 => Reply::Denied,
        7 => Reply::IntoItself,
        8 => Reply::NoSpace {
            wanted: 8206,
            free: 22,
        },
        9 => Reply::NoInodes { wanted: 1, free: 0 },
        10 => Reply::TooLarge,
        11 => Reply::Ok(Answer::Count(4096)),
        12 => Reply::Ok(stat(Kind::Regular, 0o644, 1001, 5, 4097)),
        13 => Reply::Ok(stat(Kind::Directory, 0o007, 0, 4_294_967_295, 0)),
        15 => Reply::Ok(stat(Kind::Link, 0o777, 0, 0, 4)),
        16 => Reply::IsLink,
        17 => Reply::NotLink,
        _ => Reply::Ok(Answer::Done),
    }
}

/// The number of a line, and the words of what its call is replied.
const REPLIES: &[(u32, &str)] = &[
    (1, "notfound"),
    (2, "exists"),
    (3, "notdir"),
    (4, "isdir"),
    (5, "notempty"),
    (6, "denied"),
    (7, "intoitself"),
    (8, "nospace 8206 22"),
    (9, "noinodes 1 0"),
    (10, "toolarge"),
    (11, "ok 4096"),
    (12, "ok f 644 1001 5 4097"),
    (13, "ok d 007 0 4294967295 0"),
    (14, "ok"),
    (15, "ok l 777 0 0 4"),
    (16, "islink"),
    (17, "notlink"),
];

#[test]
fn answers_are_told(rt: HostRuntime) {
    for (number, wanted) in ANSWERS {
        let answer = answer(*number);
        assert!(rt;
            is_told(rt.alloc(), *number, &answer, wanted) == Some(true),
            "{wanted}"
        );
    }
    for (number, wanted) in REPLIES {
        let answer = LineAnswer::Replied(reply(*number));
        assert!(rt;
            is_told(rt.alloc(), *number, &answer, wanted) == Some(true),
            "{wanted}"
        );
    }
}

fn list(alloc: Global, numbers: &[u32]) -> Option<List<u32>> {
    Some(List::from_vec(numbers.to_vec(alloc).ok()?))
}

fn allotted(alloc: Global, pages: &[u32], inodes: &[u32]) -> Option<LineAnswer> {
    Some(LineAnswer::Allotted {
        pages: list(alloc, pages)?,
        inodes: list(alloc, inodes)?,
    })
}

/// The pages and the inode numbers that are allotted: none, one and more.
const ALLOTTED: &[(&[u32], &[u32], &str)] = &[
    (&[9], &[], "allotted 9 -"),
    (&[], &[0, 12, 4_294_967_295], "allotted - 0,12,4294967295"),
];

fn tells_allotted(alloc: Global, pages: &[u32], inodes: &[u32], wanted: &str) -> Option<bool> {
    is_told(alloc, 7, &allotted(alloc, pages, inodes)?, wanted)
}

fn tells_seen(alloc: Global) -> Option<bool> {
    let bytes = List::from_vec([0, 9, 10, 0xa5, 0xff].to_vec(alloc).ok()?);
    is_told(alloc, 17, &LineAnswer::Seen(bytes), "00090aa5ff")
}

fn done(answer: Answer) -> LineAnswer {
    LineAnswer::Replied(Reply::Ok(answer))
}

/// Bytes that are read, and the words for them.
const READ: &[(&[u8], &str)] = &[(b"", "ok 0"), (b"hello \\", "ok 7 hello\\x20\\x5C")];

fn tells_read(alloc: Global, bytes: &[u8], wanted: &str) -> Option<bool> {
    let bytes = SharedBytes::copied(alloc, bytes).ok()?;
    is_told(alloc, 3, &done(Answer::Bytes(bytes)), wanted)
}

/// How many names a directory has, some of them, and the words for these.
const NAMES: &[(u32, &[(&[u8], Kind)], &str)] = &[
    (0, &[], "ok 0"),
    (
        66,
        &[(b"a b", Kind::Directory), (b"f\xff", Kind::Regular)],
        "ok 66 a\\x20b/ f\\xFF",
    ),
    (
        2,
        &[(b"l", Kind::Link), (b"n@", Kind::Regular)],
        "ok 2 l@ n@",
    ),
];

fn listed(alloc: Global, rows: &[(&[u8], Kind)]) -> Option<List<(Name, Kind)>> {
    let mut names = Vec::new(alloc);
    for (name, kind) in rows {
        names.push((Name::read(name).ok()?, *kind)).ok()?;
    }
    Some(List::from_vec(names))
}

fn tells_names(alloc: Global, count: u32, rows: &[(&[u8], Kind)], wanted: &str) -> Option<bool> {
    let names = listed(alloc, rows)?;
    is_told(alloc, 3, &done(Answer::Names { count, names }), wanted)
}

#[test]
fn lists_and_bytes_are_told(rt: HostRuntime) {
    for (pages, inodes, wanted) in ALLOTTED {
        assert!(rt;
            tells_allotted(rt.alloc(), pages, inodes, wanted) == Some(true),
            "{wanted}"
        );
    }
    for (bytes, wanted) in READ {
        assert!(rt;
            tells_read(rt.alloc(), bytes, wanted) == Some(true),
            "{wanted}"
        );
    }
    for (count, rows, wanted) in NAMES {
        assert!(rt;
            tells_names(rt.alloc(), *count, rows, wanted) == Some(true),
            "{wanted}"
        );
    }
    assert!(rt; tells_seen(rt.alloc()) == Some(true));
}
