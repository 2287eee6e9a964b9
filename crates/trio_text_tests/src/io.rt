//! Tests over the forms in memory.

use std::alloc::{AllocError as NoMemory, Global};
use std::process::Abort;
use std::test::Fail;
use trio_io::{
    Failed, FailingCalls, Files, Gate, GateStop, HoldGate, MAX_OFFSET, MemFiles, MemSink, OpenGate,
    ReadWholeFault, RealFiles, Sink, StdoutSink, SureFiles, SureSink, read_whole,
};
use trio_rights::LibNo;

// A name that is served and has a content, and one that is served and has none.
const FULL: &str = "full";

const BARE: &str = "bare";

fn names_of(alloc: Global, texts: &[&str]) -> Result<Vec<String>, NoMemory> {
    let mut names = Vec::new(alloc);
    for text in texts {
        names.push(String::from_str(alloc, text)?)?;
    }
    Ok(names)
}

// Files of which one has this content, and of which these calls fail.
fn mem_files(alloc: Global, content: &[u8], failing: &[u64]) -> Result<MemFiles, NoMemory> {
    let plan = FailingCalls::new(failing.to_vec(alloc)?);
    let mut files = MemFiles::new(alloc, names_of(alloc, &[FULL, BARE])?, plan)?;
    files.hold(FULL, content.to_vec(alloc)?);
    Ok(files)
}

// Whether a read of at most so many bytes from an offset on gives these, or fails where there are none.
fn reads<R: Abort>(
    rt: &R,
    files: &mut MemFiles,
    name: &str,
    (at, most): (u64, usize),
    wanted: Option<&[u8]>,
) -> bool {
    let mut buf = [0u8; 8];
    assert!(rt; files.serves(name) && at <= MAX_OFFSET && most <= 8);
    match files.read_at(name, at, &mut buf[..most]) {
        Ok(count) => wanted == Some(&buf[..count]),
        Err(Failed) => wanted.is_none(),
    }
}

fn replace<R: Abort>(rt: &R, files: &mut MemFiles, name: &str, bytes: &[u8]) -> bool {
    assert!(rt; files.serves(name));
    files.replace(name, bytes).is_ok()
}

// An offset, the most bytes, and the bytes that are read.
const PIECES: &[(u64, usize, &[u8])] = &[
    (0, 4, b"hell"),
    (4, 4, b"o wo"),
    (8, 4, b"rld"),
    (11, 4, b""),
    (MAX_OFFSET, 4, b""),
    (0, 0, b""),
];

fn read_pieces<R: Abort>(rt: &R, files: &mut MemFiles) {
    for (at, most, piece) in PIECES {
        assert!(rt;
            reads(rt, files, FULL, (*at, *most), Some(piece)),
            "at {at}"
        );
    }
    assert!(rt; reads(rt, files, BARE, (0, 4), None));
    assert!(rt; files.read_faults(BARE) == 1 && files.read_faults(FULL) == 0);
    assert!(rt; files.write_faults(BARE) == 0 && !files.serves("other"));
}

#[test]
fn reads_in_pieces(rt: HostRuntime) -> Result<(), Fail> {
    let mut files = mem_files(rt.alloc(), b"hello world", &[])?;
    read_pieces(&rt, &mut files);
    Ok(())
}

// The first, the third and the fifth call fail.
fn call_as_planned<R: Abort>(rt: &R, files: &mut MemFiles) {
    assert!(rt; reads(rt, files, FULL, (0, 8), None));
    assert!(rt; reads(rt, files, FULL, (0, 8), Some(b"old")));
    assert!(rt; !replace(rt, files, BARE, b"newer"));
    assert!(rt; files.content(BARE) == Some(b"ne".as_slice()));
    assert!(rt; replace(rt, files, BARE, b"newer"));
    assert!(rt; files.content(BARE) == Some(b"newer".as_slice()));
    assert!(rt; !replace(rt, files, BARE, b"newest"));
    assert!(rt; files.write_faults(BARE) == 2 && files.write_faults(FULL) == 0);
    assert!(rt; files.read_faults(FULL) == 1);
    assert!(rt; files.content(FULL) == Some(b"old".as_slice()));
}

#[test]
fn calls_that_fail(rt: HostRuntime) -> Result<(), Fail> {
    let mut files = mem_files(rt.alloc(), b"old", &[1, 3, 5])?;
    call_as_planned(&rt, &mut files);
    Ok(())
}

fn replace_and_read<R: Abort>(rt: &R, files: &mut MemFiles) {
    assert!(rt; replace(rt, files, FULL, b"new"));
    assert!(rt; reads(rt, files, FULL, (0, 8), Some(b"new")));
    assert!(rt; replace(rt, files, FULL, b""));
    assert!(rt; reads(rt, files, FULL, (0, 8), Some(b"")));
}

#[test]
fn replaced_is_read_back(rt: HostRuntime) -> Result<(), Fail> {
    let mut files = mem_files(rt.alloc(), b"a long old content", &[])?;
    replace_and_read(&rt, &mut files);
    Ok(())
}

// Whether a read of a whole file gives this.
fn gives<R: Abort + AllocGlobal>(
    rt: &R,
    files: &mut MemFiles,
    name: &str,
    limit: usize,
    wanted: Result<&[u8], ReadWholeFault>,
) -> bool {
    assert!(rt; files.serves(name) && limit as u64 <= MAX_OFFSET);
    match read_whole(rt.alloc(), files, name, limit) {
        Ok(bytes) => wanted == Ok(bytes.as_slice()),
        Err(fault) => wanted == Err(fault),
    }
}

fn long_content(alloc: Global) -> Result<Vec<u8>, NoMemory> {
    let mut content = Vec::new(alloc);
    for i in 0..9000u32 {
        content.push((i % 251) as u8)?;
    }
    Ok(content)
}

// Nine thousand bytes are no more than the limit, or they are.
fn read_long<R: Abort + AllocGlobal>(rt: &R, files: &mut MemFiles, content: &[u8]) {
    for limit in [9000, 9001, 20_000] {
        assert!(rt; gives(rt, files, FULL, limit, Ok(content)), "{limit}");
    }
    for limit in [0, 1, 4096, 8999] {
        assert!(rt;
            gives(rt, files, FULL, limit, Err(ReadWholeFault::TooLong)),
            "{limit}"
        );
    }
    assert!(rt; gives(rt, files, BARE, 9000, Err(ReadWholeFault::ReadFault)));
    assert!(rt; files.read_faults(BARE) == 1);
}

#[test]
fn whole_files(rt: HostRuntime) -> Result<(), Fail> {
    let content = long_content(rt.alloc())?;
    let mut files = mem_files(rt.alloc(), &content, &[])?;
    read_long(&rt, &mut files, &content);
    Ok(())
}

#[test]
fn a_read_of_a_whole_file_fails(rt: HostRuntime) -> Result<(), Fail> {
    let content = long_content(rt.alloc())?;
    let mut files = mem_files(rt.alloc(), &content, &[3])?;
    assert!(rt; gives(&rt, &mut files, FULL, 9000, Err(ReadWholeFault::ReadFault)));
    Ok(())
}

#[test]
fn an_empty_file_is_read_whole(rt: HostRuntime) -> Result<(), Fail> {
    let mut files = mem_files(rt.alloc(), b"", &[])?;
    assert!(rt; gives(&rt, &mut files, FULL, 0, Ok(b"")));
    Ok(())
}

// The second call fails.
fn put_as_planned<R: Abort>(rt: &R, out: &mut MemSink) {
    assert!(rt; out.put(b"one ").is_ok());
    assert!(rt; out.put(b"second").is_err());
    assert!(rt; out.faults() == 1);
    assert!(rt; out.put(b"!").is_ok());
    assert!(rt; out.bytes() == b"one sec!".as_slice());
    assert!(rt; out.faults() == 1);
}

#[test]
fn sink_in_memory(rt: HostRuntime) -> Result<(), Fail> {
    let mut out = MemSink::new(rt.alloc(), FailingCalls::new(vec![in rt.alloc(); 2; 1]?));
    put_as_planned(&rt, &mut out);
    Ok(())
}

fn use_sure_files<R: Abort>(rt: &R, files: &mut SureFiles) {
    let mut buf = [7u8; 4];
    assert!(rt; files.serves(FULL) && files.serves(BARE) && !files.serves("other"));
    assert!(rt; files.read_at(BARE, 0, &mut buf) == Ok(0));
    assert!(rt; files.read_at(FULL, 1, &mut buf) == Ok(2));
    assert!(rt; buf == *b"bc\x07\x07");
    assert!(rt; files.replace(BARE, b"written") == Ok(()));
    assert!(rt; files.content(BARE) == Some(b"written".as_slice()));
    assert!(rt; files.read_at(BARE, 3, &mut buf) == Ok(4));
    assert!(rt; buf == *b"tten");
}

fn use_sure_sink<R: Abort>(rt: &R, out: &mut SureSink) {
    assert!(rt; out.put(b"line\n") == Ok(()));
    assert!(rt; out.put(b"two\n") == Ok(()));
    assert!(rt; out.bytes() == b"line\ntwo\n".as_slice());
}

#[test]
fn sure_forms(rt: HostRuntime) -> Result<(), Fail> {
    let mut files = SureFiles::new(rt.alloc(), names_of(rt.alloc(), &[FULL, BARE])?)?;
    files.hold(FULL, b"abc".to_vec(rt.alloc())?);
    use_sure_files(&rt, &mut files);
    use_sure_sink(&rt, &mut SureSink::new(rt.alloc()));
    Ok(())
}

// Two files that it writes in the folder where it runs.
const ONE: &str = "real_one";

const TWO: &str = "real_two";

// A file, an offset, and what a read of at most three bytes then gives: each file goes on where its last read
// ended, or begins anew.
const REAL_READS: &[(&str, u64, &[u8])] = &[
    (ONE, 0, b"abc"),
    (TWO, 3, b"DEF"),
    (ONE, 3, b"def"),
    (ONE, 6, b"g"),
    (ONE, 7, b""),
    (ONE, 1, b"bcd"),
    (ONE, 0, b"abc"),
];

// Writes both files, reads them by turns, and writes the one anew.
fn use_real_files<R: Abort>(rt: &R, files: &mut RealFiles<'_, HostRuntime>) {
    let mut buf = [0u8; 3];
    assert!(rt; files.serves(ONE) && files.serves(TWO));
    assert!(rt; files.replace(ONE, b"abcdefg") == Ok(()));
    assert!(rt; files.replace(TWO, b"ABCDEFG") == Ok(()));
    for (name, at, wanted) in REAL_READS {
        assert!(rt; files.serves(name) && *at <= MAX_OFFSET);
        let read = files.read_at(name, *at, &mut buf);
        assert!(rt;
            read == Ok(wanted.len()) && &buf[..wanted.len()] == *wanted,
            "{name} {at}"
        );
    }
    assert!(rt; files.serves(ONE));
    assert!(rt; files.replace(ONE, b"xyzw") == Ok(()));
    assert!(rt; files.read_at(ONE, 3, &mut buf) == Ok(1) && buf[0] == b'w');
}

#[test]
fn real_files(rt: HostRuntime) -> Result<(), Fail> {
    let mut files = RealFiles::new(&rt, rt.alloc(), names_of(rt.alloc(), &[ONE, TWO])?)?;
    use_real_files(&rt, &mut files);
    Ok(())
}

// Devices that every host has: one that is empty, one without an end, and one that takes nothing. The
// last is nowhere.
const DEVICES: [&str; 4] = ["/dev/null", "/dev/zero", "/dev/full", "/dev/no such device"];

const READS: &[(&str, Result<usize, Failed>)] = &[
    ("/dev/null", Ok(0)),
    ("/dev/zero", Ok(4)),
    ("/dev/no such device", Err(Failed)),
];

const WRITES: &[(&str, &[u8], bool)] = &[
    ("/dev/null", b"some", true),
    ("/dev/full", b"some", false),
    ("/dev/full", b"", true),
];

fn use_devices<R: Abort>(rt: &R, files: &mut RealFiles<'_, HostRuntime>) {
    let mut buf = [7u8; 4];
    for (name, answer) in READS {
        assert!(rt; files.serves(name));
        assert!(rt; files.read_at(name, 9, &mut buf) == *answer, "{name}");
    }
    assert!(rt; buf == [0; 4]);
    for (name, bytes, is_ok) in WRITES {
        assert!(rt; files.serves(name));
        assert!(rt; files.replace(name, bytes).is_ok() == *is_ok, "{name}");
    }
}

#[test]
fn real_forms(rt: HostRuntime) -> Result<(), Fail> {
    let mut files = RealFiles::new(&rt, rt.alloc(), names_of(rt.alloc(), &DEVICES)?)?;
    use_devices(&rt, &mut files);
    assert!(rt; StdoutSink::new(&rt).put(b"") == Ok(()));
    Ok(())
}

// A gate is shared by threads.
fn arrives<G: Gate + Sync>(gate: &G, lib: u32, line: u32) {
    gate.arrive(LibNo(lib), line);
}

const HELD: GateStop = GateStop {
    lib: LibNo(1),
    line: 3,
};

const AWAITED: GateStop = GateStop {
    lib: LibNo(2),
    line: 0,
};

// The gate has met once the held library comes behind the awaited one.
fn meet<R: Abort>(rt: &R, gate: &HoldGate) {
    arrives(gate, 1, 3);
    arrives(gate, 2, 3);
    arrives(gate, 1, 0);
    arrives(gate, 1, 3);
    assert!(rt; !gate.has_met());
    arrives(gate, 2, 0);
    assert!(rt; !gate.has_met());
    arrives(gate, 1, 3);
    assert!(rt; gate.has_met());
}

#[test]
fn gates(rt: HostRuntime) {
    arrives(&OpenGate, 1, 0);
    meet(&rt, &HoldGate::new(HELD, AWAITED, 10));
}
