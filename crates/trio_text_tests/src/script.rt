use std::alloc::Global;
use trio_nodes::{GrantKind, List, Spot};
use trio_rights::Creds;
use trio_script::{Lines, RawLine, ScriptFault, ScriptLib, ScriptLine, read_script};

/// The lines of a raw library that acts for this user and this group.
fn raw_lines(library: &ScriptLib, uid: u32, gid: u32) -> Option<&[ScriptLine<RawLine>]> {
    match &library.lines {
        Lines::Raw(lines) if library.creds == Creds { uid, gid } => Some(lines.as_slice()),
        _ => None,
    }
}

fn is_line(read: &ScriptLine<RawLine>, number: u32, line: &RawLine) -> bool {
    read.number == number && read.line == *line
}

/// What a script says whose first line is the library's, and these bytes the second.
fn second_line(alloc: Global, line: &[u8]) -> Option<Result<Vec<ScriptLib>, ScriptFault>> {
    let mut script = b"lib 1 raw 0 0\n".to_vec(alloc).ok()?;
    script.extend_from_slice(line).ok()?;
    Some(read_script(alloc, &script))
}

/// Whether the one library has the second line alone, which says this.
fn has_line(libs: &[ScriptLib], line: &RawLine) -> Option<bool> {
    let [library] = libs else {
        return None;
    };
    match raw_lines(library, 0, 0)? {
        [read] => Some(is_line(read, 2, line)),
        _ => None,
    }
}

/// Whether the second line says just this.
fn says(alloc: Global, text: &[u8], line: &RawLine) -> Option<bool> {
    has_line(&second_line(alloc, text)?.ok()?, line)
}

const GRANTS: &[(&str, GrantKind, u32)] = &[
    ("grant write 2", GrantKind::Write, 2),
    ("grant write 0\n", GrantKind::Write, 0),
    ("grant write 4294967295", GrantKind::Write, 4_294_967_295),
    ("grant read 3", GrantKind::Read, 3),
    ("grant hold 4", GrantKind::Hold, 4),
];

const ALLOTS: &[(&str, u32, u32)] = &[
    ("allot 1 0", 1, 0),
    ("allot 0 64\n", 0, 64),
    ("allot 4294967295 3", 4_294_967_295, 3),
];

#[test]
fn requests_are_read(rt: HostRuntime) {
    for (text, kind, ino) in GRANTS {
        let line = RawLine::Grant {
            ino: *ino,
            kind: *kind,
        };
        assert!(rt;
            says(rt.alloc(), text.as_bytes(), &line) == Some(true),
            "{text}"
        );
    }
    for (text, pages, inodes) in ALLOTS {
        let line = RawLine::Allot {
            pages: *pages,
            inodes: *inodes,
        };
        assert!(rt;
            says(rt.alloc(), text.as_bytes(), &line) == Some(true),
            "{text}"
        );
    }
}

const POKES: &[(&str, Spot, u32, &[u8])] = &[
    ("poke body 5 16 00ff", Spot::Body(5), 16, &[0x00, 0xff]),
    ("poke index 5 1 8 0a", Spot::Index(5, 1), 8, &[0x0a]),
    ("poke block 2 0 0 4a9f", Spot::Block(2, 0), 0, &[0x4a, 0x9f]),
    ("poke fresh 9 4095 61", Spot::Fresh(9), 4095, &[0x61]),
];

fn says_poke(alloc: Global, text: &str, at: Spot, offset: u32, bytes: &[u8]) -> Option<bool> {
    let bytes = List::from_vec(bytes.to_vec(alloc).ok()?);
    says(alloc, text.as_bytes(), &RawLine::Poke { at, offset, bytes })
}

#[test]
fn pokes_are_read(rt: HostRuntime) {
    for (text, at, offset, bytes) in POKES {
        assert!(rt;
            says_poke(rt.alloc(), text, *at, *offset, bytes) == Some(true),
            "{text}"
        );
    }
}

const PEEKS: &[(&str, Spot, u32, u32)] = &[
    ("peek body 5 16 2", Spot::Body(5), 16, 2),
    ("peek index 5 1 8 4096", Spot::Index(5, 1), 8, 4096),
    ("peek block 2 0 0 1\n", Spot::Block(2, 0), 0, 1),
    ("peek fresh 9 4095 7", Spot::Fresh(9), 4095, 7),
];

#[test]
fn peeks_and_backs_are_read(rt: HostRuntime) {
    for (text, at, offset, len) in PEEKS {
        let line = RawLine::Peek {
            at: *at,
            offset: *offset,
            len: *len,
        };
        assert!(rt;
            says(rt.alloc(), text.as_bytes(), &line) == Some(true),
            "{text}"
        );
    }
    assert!(rt; says(rt.alloc(), b"back 7", &RawLine::Back(7)) == Some(true));
}

/// The text, and the inode numbers of files, the page numbers and the inode numbers that it names.
const RELEASES: &[(&str, &[u32], &[u32], &[u32])] = &[
    ("release - - -", &[], &[], &[]),
    ("release 2,1,10 9 7,8\n", &[2, 1, 10], &[9], &[7, 8]),
];

fn list(alloc: Global, numbers: &[u32]) -> Option<List<u32>> {
    Some(List::from_vec(numbers.to_vec(alloc).ok()?))
}

fn says_release(
    alloc: Global,
    text: &str,
    inos: &[u32],
    pages: &[u32],
    inodes: &[u32],
) -> Option<bool> {
    let line = RawLine::Release {
        inos: list(alloc, inos)?,
        pages: list(alloc, pages)?,
        inodes: list(alloc, inodes)?,
    };
    says(alloc, text.as_bytes(), &line)
}

#[test]
fn releases_are_read(rt: HostRuntime) {
    for (text, inos, pages, inodes) in RELEASES {
        assert!(rt;
            says_release(rt.alloc(), text, inos, pages, inodes) == Some(true),
            "{text}"
        );
    }
}

/// The text, the inode number and the mode.
const MODES: &[(&str, u32, u16)] = &[
    ("mode 2 700", 2, 0o700),
    ("mode 2 1000", 2, 0o1000),
    ("mode 2 7777\n", 2, 0o7777),
    ("mode 0 0", 0, 0),
    ("mode 4294967295 0644", 4_294_967_295, 0o644),
    ("mode 3 00", 3, 0),
    ("mode 3 7", 3, 7),
];

#[test]
fn modes_are_read(rt: HostRuntime) {
    for (text, ino, mode) in MODES {
        let line = RawLine::Mode {
            ino: *ino,
            mode: *mode,
        };
        assert!(rt;
            says(rt.alloc(), text.as_bytes(), &line) == Some(true),
            "{text}"
        );
    }
}

/// Lines that have none of the forms of a raw library's.
const BAD: &[&str] = &[
    "grant",
    "grant write",
    "grant write 02",
    "grant write 00",
    "grant write 4294967296",
    "grant write 42949672950",
    "grant write +2",
    "grant write -2",
    "grant write 2a",
    "grant write ",
    "grant write 2 ",
    "grant write 2 3",
    "grant write 2\r",
    "grant  write 2",
    " grant write 2",
    "grant reads 2",
    "grant hold",
    "back",
    "back 2 3",
    "back x",
    "peek body 5 16",
    "peek body 5 16 0",
    "peek body 5 16 4097",
    "peek index 5 16 1",
    "peek block 2 0 0 1 1",
    "peek fresh 9 0 ff",
    "Grant write 2",
    "allot",
    "allot 1",
    "allot 1 ",
    "allot 1 -",
    "allot 01 2",
    "allot 1 02",
    "allot 1,2 3",
    "allot 1 2 3",
    "poke body 2 0",
    "poke body 2 0 ",
    "poke body 2 0 0 4a",
    "poke fresh 2 0 0 4a",
    "poke block 2 0 4a",
    "poke index 2 0 4a",
    "poke block 2 0 0 4A",
    "poke block 2 0 0 4",
    "poke block 2 0 0 4g",
    "poke block 2 0 0 0x4a",
    "poke block 2 0 0 4a 4a",
    "poke page 2 0 4a",
    "release - -",
    "release - - - -",
    "release - 1,3,1 -",
    "release 2, - -",
    "release ,2 - -",
    "release 2,03 - -",
    "release -,2 - -",
    "mode",
    "mode 2",
    "mode 2 ",
    "mode 2 8",
    "mode 2 709",
    "mode 2 00700",
    "mode 2 10000",
    "mode 2 -700",
    "mode 2 7a",
    "mode 02 700",
    "mode - 700",
    "mode 2 700 700",
    "mode 4294967296 700",
    "chmod /f 700",
    "stat /",
    "read /f 0 1",
    "settle",
];

fn is_bad(alloc: Global, line: &[u8]) -> Option<bool> {
    Some(second_line(alloc, line)?.err() == Some(ScriptFault::BadLine(2)))
}

#[test]
fn other_lines_are_bad(rt: HostRuntime) {
    for line in BAD {
        assert!(rt; is_bad(rt.alloc(), line.as_bytes()) == Some(true), "{line}");
    }
}

/// Whether 4096 bytes of two digits each are read, and one more isn't.
fn counts_bytes(alloc: Global) -> Option<bool> {
    let mut line = b"poke fresh 9 0 ".to_vec(alloc).ok()?;
    line.resize(line.len() + 8192, b'7').ok()?;
    let poke = RawLine::Poke {
        at: Spot::Fresh(9),
        offset: 0,
        bytes: List::from_vec(vec![in alloc; 0x77; 4096].ok()?),
    };
    let is_read = says(alloc, &line, &poke)?;
    line.extend_from_slice(b"77").ok()?;
    Some(is_read && is_bad(alloc, &line)?)
}

#[test]
fn bytes_are_counted(rt: HostRuntime) {
    assert!(rt; counts_bytes(rt.alloc()) == Some(true));
}

/// Each line that says something has its own number, and stands with the library that began last.
const TWO_LIBS: &[u8] =
    b"#\nlib 1 raw 1001 5\n\ngrant write 2\n#\ngrant write 3\nlib 2 raw 0 4294967295\n#\n\nmode 3 700";

/// Whether a line asks for a write grant on this file.
fn asks_write(read: &ScriptLine<RawLine>, number: u32, ino: u32) -> bool {
    let kind = GrantKind::Write;
    is_line(read, number, &RawLine::Grant { ino, kind })
}

fn has_grants(library: &ScriptLib) -> Option<bool> {
    match raw_lines(library, 1001, 5)? {
        [first, second] => Some(asks_write(first, 4, 2) && asks_write(second, 6, 3)),
        _ => None,
    }
}

fn has_mode(library: &ScriptLib) -> Option<bool> {
    let mode = RawLine::Mode {
        ino: 3,
        mode: 0o700,
    };
    match raw_lines(library, 0, 4_294_967_295)? {
        [read] => Some(is_line(read, 10, &mode)),
        _ => None,
    }
}

fn are_two(libs: &[ScriptLib]) -> Option<bool> {
    match libs {
        [first, second] => Some(has_grants(first)? && has_mode(second)?),
        _ => None,
    }
}

fn reads_two_libs(alloc: Global) -> Option<bool> {
    are_two(&read_script(alloc, TWO_LIBS).ok()?)
}

/// Libraries without a line of their own.
fn are_bare(libs: &[ScriptLib]) -> Option<bool> {
    let [first, second, third] = libs else {
        return None;
    };
    let lines = (raw_lines(first, 3, 4)?, raw_lines(second, 5, 6)?);
    Some(lines.0.is_empty() && lines.1.is_empty() && raw_lines(third, 7, 8)?.is_empty())
}

fn reads_bare_libs(alloc: Global) -> Option<bool> {
    let script = b"lib 1 raw 3 4\nlib 2 raw 5 6\n#\nlib 3 raw 7 8\n\n";
    are_bare(&read_script(alloc, script).ok()?)
}

#[test]
fn libraries_are_read(rt: HostRuntime) {
    assert!(rt; reads_two_libs(rt.alloc()) == Some(true));
    assert!(rt; reads_bare_libs(rt.alloc()) == Some(true));
}

/// How many libraries are read of a script with so many, a line for each, or the first bad line.
fn count_libs(alloc: Global, count: u32) -> Option<Result<usize, ScriptFault>> {
    let mut script = Vec::new(alloc);
    for begun in 0..count {
        let number = begun + 1;
        let line = format!(in alloc; "lib {number} raw 0 {number}\n").ok()?;
        script.extend_from_slice(line.as_bytes()).ok()?;
    }
    match read_script(alloc, &script) {
        Ok(libs) => Some(Ok(libs.len())),
        Err(fault) => Some(Err(fault)),
    }
}

#[test]
fn libraries_are_counted(rt: HostRuntime) {
    assert!(rt; count_libs(rt.alloc(), 2) == Some(Ok(2)));
    assert!(rt; count_libs(rt.alloc(), 16) == Some(Ok(16)));
    assert!(rt; count_libs(rt.alloc(), 17) == Some(Err(ScriptFault::BadLine(17))));
    assert!(rt; count_libs(rt.alloc(), 18) == Some(Err(ScriptFault::BadLine(17))));
}

/// Scripts, and the number of the first bad line, or 0.
const SCRIPTS: &[(&str, u32)] = &[
    ("\n", 1),
    ("# lib 1 raw 0 0\n#\n", 1),
    ("lib 1 raw 0 0", 0),
    ("lib 1 raw 0 0\n", 0),
    ("# first\n\nlib 1 raw 0 0\n", 0),
    ("lib 1 raw 0 0\n#last\n\n#", 0),
    ("lib 1 raw 4294967295 4294967295\n", 0),
    ("lib 1 raw 0 4294967296\n", 1),
    ("\nlib 1 raw 4294967296 0\n", 1),
    ("\nlib 1 raw 0\n", 1),
    ("\nlib 1 raw 0 0 0\n", 1),
    ("\nlib 1 raw 0 00\n", 1),
    ("\nlib 1 raw 01 0\n", 1),
    ("\nlib 1 raw -1 0\n", 1),
    ("\nlib 01 raw 0 0\n", 1),
    ("\nlib 0 raw 0 0\n", 2),
    ("\nlib 2 raw 0 0\nlib 1 raw 0 0\n", 2),
    ("\nlib 1 Raw 0 0\n", 1),
    ("#\nlib 1 Raw 0 0\nlib 1 raw 0 0\n", 2),
    ("#\nlib 1 Raw 0 0\nlib 7 raw 0 0\n", 2),
    ("\nlib  1 raw 0 0\n", 1),
    ("\nlib 1 keyval 0 0\n", 1),
    ("\nlib \n", 1),
    ("\nlib\n", 1),
    ("\nlib\nlib 1 raw 0 0\n", 2),
    ("lib 1 raw 0 0\nlib 2 raw 0 0\n", 0),
    ("lib 1 raw 0 0\nlib 2 raw 5\n", 2),
    ("lib 1 raw 0 0\nlib 2 raw 5 5\nlib 4 raw 0 0\nx\n", 3),
    ("lib 1 raw 0 0\nlib 2 raw 5 5\nlib 2 raw 5 5\n", 3),
    ("lib 1 raw 0 0\nlib 2 raw 5 5\n\nlib 1 raw 0 0\n", 4),
    ("lib 1 raw 0 0\nlib 2 honest 0 0\nlib 3 raw 0 0\n", 0),
    ("lib 1 raw 0 0\nlib\n", 2),
    ("lib 1 raw 0 0\n#\nlib 1 raw 0 0", 3),
    ("lib 1 raw 0 0\n\ngrant write 2\nsettle\n", 4),
    ("#\nsettle\nlib 1 raw 0 0\n", 2),
    ("#\nsettle\nstat /\n", 1),
    ("#\nallot 1 0\nlib 1 raw 0 0\n", 2),
    ("#\nallot 1 0\n", 1),
    ("lib 1 honest 0 0\n", 0),
    ("\n\nlib 1 honest 0 0\n", 0),
    ("\nlib 1 honest 0 0\nlib 1 raw 0 0\n", 3),
    ("\nlib 1 raw 0 0 \n", 1),
    ("\nlib 1 raw 0 0\r\n", 1),
    ("\n lib 1 raw 0 0\n", 1),
    ("lib 1 raw 0 0\n \n", 2),
    ("\nlibrary\n", 1),
    ("grant write 2\nlib 1 raw 0 0\n", 1),
    ("lib 1 raw 0 0\ngrant write 2\ngrant write x\nsettle\n", 3),
    ("lib 1 other 0 0\n", 1),
    ("\nlib 1 honest 0\n", 1),
    ("\nlib 1 Honest 0 0\n", 1),
    ("\nlib 1 honestly 0 0\n", 1),
    ("\nlib 1 honest raw 0 0\n", 1),
    ("lib 1 honest 0 0\nlib 3 honest 0 0\n", 2),
    ("lib 1 honest 0 0\nsettle\nlib 2 raw 0 0\nsettle\n", 4),
    ("lib 1 raw 0 0\nback 2\nlib 2 honest 0 0\nback 2\n", 4),
    (
        "lib 1 honest 0 0\nstat /\nlib 2 raw 0 0\nback 1\nlib 3 honest 1 1\n#\nstat /",
        0,
    ),
    ("lib 1 honest 0 0\nmkdir a 755\nsettle 1\n", 2),
    ("stat /\nlib 1 honest 0 0\n", 1),
];

/// The number of the first bad line, or 0.
fn bad_line(alloc: Global, script: &[u8]) -> Option<u32> {
    match read_script(alloc, script) {
        Ok(_) => Some(0),
        Err(ScriptFault::BadLine(number)) => Some(number),
        Err(ScriptFault::NoMemory) => None,
    }
}

#[test]
fn scripts_are_read(rt: HostRuntime) {
    for (script, line) in SCRIPTS {
        assert!(rt;
            bad_line(rt.alloc(), script.as_bytes()) == Some(*line),
            "{script}"
        );
    }
}

/// The first bad line where the library's line, of 14 bytes, and lines without bytes make up a
/// script of so many, and these follow.
fn bad_line_behind(alloc: Global, length: usize, last: &[u8]) -> Option<u32> {
    let mut script = b"lib 1 raw 0 0\n".to_vec(alloc).ok()?;
    script.resize(length, b'\n').ok()?;
    script.extend_from_slice(last).ok()?;
    bad_line(alloc, &script)
}

#[test]
fn lines_are_counted(rt: HostRuntime) {
    assert!(rt; bad_line_behind(rt.alloc(), 14 + 16_383, b"") == Some(0));
    assert!(rt; bad_line_behind(rt.alloc(), 14 + 16_383, b"\n") == Some(16_385));
    assert!(rt; bad_line_behind(rt.alloc(), 14 + 16_383, b"\nx") == Some(16_385));
}
