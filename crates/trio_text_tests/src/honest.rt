use std::alloc::Global;
use trio_names::Path;
use trio_nodes::Call;
use trio_rights::Creds;
use trio_script::{HonestLine, Lines, ScriptFault, ScriptLib, ScriptLine, read_script};

/// What a script says whose first line is an honest library's, and these bytes the second.
fn second_line(alloc: Global, line: &[u8]) -> Option<Result<Vec<ScriptLib>, ScriptFault>> {
    let mut script = b"lib 1 honest 0 0\n".to_vec(alloc).ok()?;
    script.extend_from_slice(line).ok()?;
    Some(read_script(alloc, &script))
}

/// Puts a word, and behind it the names of a path, each with a comma, in brackets.
fn put_path(out: &mut Vec<u8>, word: &str, path: &Path) -> Option<()> {
    out.extend_from_slice(word.as_bytes()).ok()?;
    out.extend_from_slice(b" (").ok()?;
    for name in path.names() {
        out.extend_from_slice(name.as_bytes()).ok()?;
        out.extend_from_slice(b",").ok()?;
    }
    out.extend_from_slice(b")").ok()
}

/// Puts a space and a number.
fn put_number(alloc: Global, out: &mut Vec<u8>, number: u64) -> Option<()> {
    let text = format!(in alloc; " {number}").ok()?;
    out.extend_from_slice(text.as_bytes()).ok()
}

fn word_of(call: &Call) -> &'static str {
    match call {
        Call::Mkdir { .. } => "mkdir",
        Call::Create { .. } => "create",
        Call::Write { .. } => "write",
        Call::Read { .. } => "read",
        Call::Truncate { .. } => "truncate",
        Call::List { .. } => "list",
        Call::Chmod { .. } => "chmod",
        Call::Rename { .. } => "rename",
        Call::Unlink { .. } => "unlink",
        Call::Rmdir { .. } => "rmdir",
        Call::Stat { .. } => "stat",
        Call::Symlink { .. } => "symlink",
        Call::Readlink { .. } => "readlink",
        Call::Guard { .. } => "guard",
    }
}

/// The path that a call names first.
fn path_of(call: &Call) -> &Path {
    match call {
        Call::Mkdir { path, .. } => path,
        Call::Create { path, .. } => path,
        Call::Write { path, .. } => path,
        Call::Read { path, .. } => path,
        Call::Truncate { path, .. } => path,
        Call::List { path, .. } => path,
        Call::Chmod { path, .. } => path,
        Call::Rename { from, .. } => from,
        Call::Unlink { path } => path,
        Call::Rmdir { path } => path,
        Call::Stat { path } => path,
        Call::Symlink { path, .. } => path,
        Call::Readlink { path } => path,
        Call::Guard { path, .. } => path,
    }
}

/// Puts what stands behind that path: numbers, bytes or another path.
fn put_rest(alloc: Global, out: &mut Vec<u8>, call: &Call) -> Option<()> {
    match call {
        Call::Mkdir { mode, .. } => put_number(alloc, out, u64::from(mode.0)),
        Call::Create { mode, .. } => put_number(alloc, out, u64::from(mode.0)),
        Call::Chmod { mode, .. } => put_number(alloc, out, u64::from(mode.0)),
        Call::Write { at, bytes, .. } => put_written(alloc, out, *at, bytes.as_slice()),
        Call::Read { at, len, .. } => {
            put_number(alloc, out, *at)?;
            put_number(alloc, out, u64::from(*len))
        }
        Call::Truncate { size, .. } => put_number(alloc, out, *size),
        Call::List { from, .. } => put_number(alloc, out, u64::from(*from)),
        Call::Rename { to, .. } => put_path(out, "", to),
        Call::Symlink { text, .. } => put_text(out, text.as_slice()),
        Call::Guard { on, .. } => put_number(alloc, out, u64::from(*on)),
        Call::Unlink { .. } | Call::Rmdir { .. } | Call::Stat { .. } => Some(()),
        Call::Readlink { .. } => Some(()),
    }
}

/// Puts a space and bytes as they are.
fn put_text(out: &mut Vec<u8>, bytes: &[u8]) -> Option<()> {
    out.extend_from_slice(b" ").ok()?;
    out.extend_from_slice(bytes).ok()
}

/// Puts an offset, and bytes as they are.
fn put_written(alloc: Global, out: &mut Vec<u8>, at: u64, bytes: &[u8]) -> Option<()> {
    put_number(alloc, out, at)?;
    put_text(out, bytes)
}

/// Puts a call as its word, its paths, its numbers and its bytes, which are left as they are.
fn put_call(alloc: Global, out: &mut Vec<u8>, call: &Call) -> Option<()> {
    put_path(out, word_of(call), path_of(call))?;
    put_rest(alloc, out, call)
}

/// A line of its own, of the number and what it says.
fn put_line(alloc: Global, out: &mut Vec<u8>, line: &ScriptLine<HonestLine>) -> Option<()> {
    let number = line.number;
    let text = format!(in alloc; "\n{number} ").ok()?;
    out.extend_from_slice(text.as_bytes()).ok()?;
    match &line.line {
        HonestLine::Call(call) => put_call(alloc, out, call),
        HonestLine::Settle => out.extend_from_slice(b"settle").ok(),
    }
}

/// Puts what an honest library's lines say, one after another; `None` of another library.
pub fn put_lines(alloc: Global, out: &mut Vec<u8>, library: &ScriptLib) -> Option<()> {
    let Lines::Honest(lines) = &library.lines else {
        return None;
    };
    for line in lines.as_slice() {
        put_line(alloc, out, line)?;
    }
    Some(())
}

fn shown(alloc: Global, library: &ScriptLib) -> Option<Vec<u8>> {
    let mut out = Vec::new(alloc);
    put_lines(alloc, &mut out, library)?;
    Some(out)
}

/// Whether the second line says just this.
fn says(alloc: Global, text: &[u8], wanted: &[u8]) -> Option<bool> {
    let libs = second_line(alloc, text)?.ok()?;
    let mut line = b"\n2 ".to_vec(alloc).ok()?;
    line.extend_from_slice(wanted).ok()?;
    Some(libs.len() == 1 && shown(alloc, &libs[0])?.as_slice() == line.as_slice())
}

/// Whether the second line is bad.
fn is_bad(alloc: Global, line: &[u8]) -> Option<bool> {
    Some(second_line(alloc, line)?.err() == Some(ScriptFault::BadLine(2)))
}

/// Lines, and what they say: 0o755 is 493, 0o777 is 511 and 0o644 is 420.
const LINES: &[(&str, &[u8])] = &[
    ("mkdir /a 755", b"mkdir (a,) 493"),
    ("mkdir /a/b/c 0", b"mkdir (a,b,c,) 0"),
    ("mkdir / 0755\n", b"mkdir () 493"),
    ("mkdir /a 0777", b"mkdir (a,) 511"),
    ("create /f 777", b"create (f,) 511"),
    ("create /f 7", b"create (f,) 7"),
    ("create /f 0000", b"create (f,) 0"),
    ("create /\\x0Ab 644", b"create (\nb,) 420"),
    ("create /\\xFF\\x20\\x5C 644", b"create (\xff \\,) 420"),
    ("write /f 0 hello", b"write (f,) 0 hello"),
    ("write /f 4294967295 ~", b"write (f,) 4294967295 ~"),
    (
        "write /f 1 \\x00\\xFF\\x5Cx41!#",
        b"write (f,) 1 \x00\xff\\x41!#",
    ),
    ("read /f 0 10", b"read (f,) 0 10"),
    ("read /f 4294967295 0", b"read (f,) 4294967295 0"),
    ("read /f 7 4096\n", b"read (f,) 7 4096"),
    ("truncate /f 0", b"truncate (f,) 0"),
    ("truncate /f 4294967295", b"truncate (f,) 4294967295"),
    ("unlink /a/f", b"unlink (a,f,)"),
    ("rmdir /a", b"rmdir (a,)"),
    ("rename /a/f /b/g", b"rename (a,f,) (b,g,)"),
    ("rename / /", b"rename () ()"),
    ("list / 64", b"list () 64"),
    ("stat /", b"stat ()"),
    ("stat /a\\x2Fb", b"stat (a,b,)"),
    ("stat \\x2Fa", b"stat (a,)"),
    ("stat \\x2F", b"stat ()"),
    ("stat /...", b"stat (...,)"),
    ("stat /.a/a.", b"stat (.a,a.,)"),
    ("stat /#", b"stat (#,)"),
    ("chmod /f 1", b"chmod (f,) 1"),
    ("symlink /l /a/f", b"symlink (l,) /a/f"),
    ("symlink /l \\x00\\x20~", b"symlink (l,) \x00 ~"),
    ("symlink / x", b"symlink () x"),
    ("readlink /a/l", b"readlink (a,l,)"),
    ("readlink /", b"readlink ()"),
    ("guard /a/f 1", b"guard (a,f,) 1"),
    ("guard / 0\n", b"guard () 0"),
    ("settle", b"settle"),
    ("settle\n", b"settle"),
];

#[test]
fn honest_lines_are_read(rt: HostRuntime) {
    for (text, wanted) in LINES {
        assert!(rt;
            says(rt.alloc(), text.as_bytes(), wanted) == Some(true),
            "{text}"
        );
    }
}

/// Lines that have none of the forms of an honest library's.
const BAD: &[&str] = &[
    "mkdir",
    "mkdir /a",
    "mkdir a 755",
    "mkdir  /a 755",
    "mkdir /a  755",
    " mkdir /a 755",
    "mkdir /a 755 ",
    "mkdir /a 755 0",
    "mkdir /a 755\r",
    "mkdir 755 /a",
    "Mkdir /a 755",
    "mkdir /a 7777",
    "mkdir /a 00755",
    "mkdir /a 758",
    "mkdir /a ",
    "mkdir /a/ 755",
    "mkdir // 755",
    "mkdir //a 755",
    "mkdir /a//b 755",
    "mkdir /. 755",
    "mkdir /a/.. 755",
    "mkdir /\\x2E\\x2E 755",
    "mkdir /a\\x00 755",
    "create /\\xFF\\x00x 644",
    "mkdir /a\\x2F 755",
    "mkdir /\\x0a 755",
    "mkdir /\\xfF 755",
    "mkdir /\\X0A 755",
    "mkdir /\\x0G 755",
    "mkdir /\\x0 755",
    "mkdir /\\x 755",
    "mkdir /\\ 755",
    "mkdir /\\\\ 755",
    "mkdir /\\n 755",
    "mkdir /\\: 755",
    "mkdir /\\x:0 755",
    "mkdir /\\x@0 755",
    "mkdir /a\tb 755",
    "mkdir /\u{7f} 755",
    "mkdir /\u{e4} 755",
    "create /f 1000",
    "create / ",
    "create f 644",
    "write /f 0",
    "write /f 0 ",
    "write /f 0 a b",
    "write /f 01 a",
    "write /f 4294967296 a",
    "write /f -1 a",
    "write f 0 a",
    "write /f 0 \\",
    "write /f 0 \\x0a",
    "read /f 0",
    "read /f 01 1",
    "read /f 1 01",
    "read /f 0 1 1",
    "truncate /f",
    "truncate /f 01",
    "truncate /f 4294967296",
    "truncate f 1",
    "unlink",
    "unlink ",
    "unlink f",
    "unlink /f /g",
    "rmdir",
    "rmdir a",
    "rename /a",
    "rename /a b",
    "rename a /b",
    "rename /a /b /c",
    "list /",
    "list / -",
    "list / 00",
    "list a 0",
    "stat",
    "stat \\",
    "stat / 0",
    "stat /f/",
    "chmod /f",
    "chmod /f 1000",
    "chmod /f 8",
    "symlink",
    "symlink /l",
    "symlink /l ",
    "symlink l x",
    "symlink /l a b",
    "symlink /l \\x0a",
    "readlink",
    "readlink l",
    "readlink /l 0",
    "guard /f",
    "guard /f ",
    "guard f 1",
    "guard /f 2",
    "guard /f 01",
    "guard /f on",
    "guard /f 1 0",
    "Symlink /l x",
    "settle 1",
    "Settle",
    "settled",
    "grant read 1",
    "allot 1 0",
    "poke body 1 0 00",
    "peek body 1 0 1",
    "back 1",
    "release - - -",
    "mode 1 755",
    "open /f",
];

#[test]
fn other_lines_are_bad(rt: HostRuntime) {
    for line in BAD {
        assert!(rt; is_bad(rt.alloc(), line.as_bytes()) == Some(true), "{line}");
    }
}

/// Whether a line is read that ends with so many of these pieces, and is bad with one more.
fn is_limit(alloc: Global, start: &[u8], piece: &[u8], count: usize) -> Option<bool> {
    let mut line = start.to_vec(alloc).ok()?;
    for _ in 0..count {
        line.extend_from_slice(piece).ok()?;
    }
    let is_read = second_line(alloc, &line)?.is_ok();
    line.extend_from_slice(piece).ok()?;
    Some(is_read && is_bad(alloc, &line)?)
}

#[test]
fn texts_are_counted(rt: HostRuntime) {
    assert!(rt; is_limit(rt.alloc(), b"write /f 0 ", b"x", 4096) == Some(true));
    assert!(rt; is_limit(rt.alloc(), b"write /f 0 ", b"\\x00", 4096) == Some(true));
    assert!(rt; is_limit(rt.alloc(), b"symlink /l ", b"x", 4096) == Some(true));
    assert!(rt; is_limit(rt.alloc(), b"stat /", b"n", 184) == Some(true));
    assert!(rt; is_limit(rt.alloc(), b"stat /a/", b"\\xFF", 184) == Some(true));
}

/// Libraries of both kinds, one after another.
const MIXED: &[u8] =
    b"lib 1 honest 1001 5\n#\nstat /\n\nsettle\nlib 2 raw 0 0\nback 7\nlib 3 honest 1 2\n#";

fn reads_mixed_libs(alloc: Global) -> Option<bool> {
    let libs = read_script(alloc, MIXED).ok()?;
    Some(
        libs.len() == 3
            && libs[0].creds == Creds { uid: 1001, gid: 5 }
            && shown(alloc, &libs[0])?.as_slice() == b"\n3 stat ()\n5 settle".as_slice()
            && shown(alloc, &libs[1]).is_none()
            && libs[2].creds == Creds { uid: 1, gid: 2 }
            && shown(alloc, &libs[2])?.is_empty(),
    )
}

#[test]
fn libraries_of_both_kinds_are_read(rt: HostRuntime) {
    assert!(rt; reads_mixed_libs(rt.alloc()) == Some(true));
}
