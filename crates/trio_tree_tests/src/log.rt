//! A log of a release, a settle and two changes of mode, and the nodes that come of it.

use crate::making::{Row, nodes_of};
use std::alloc::Global;
use trio_log::{Log, replay};
use trio_names::{Name, Path};
use trio_nodes::{
    Answer, Bytes, Call, Done, Entry, Handed, HandedPage, List, ModeFault, Nodes, PlacedBlock,
    RawBundle, RawFile, ReleaseAnswer, Reply,
};
use trio_rights::{Creds, Kind, LibNo, Mode};

const TREE: &[Row] = &[
    (1, 0, b"-", Kind::Directory, 0o755, b""),
    (2, 1, b"a", Kind::Directory, 0o755, b""),
    (3, 2, b"f", Kind::Regular, 0o755, b"hello"),
    (4, 2, b"g", Kind::Regular, 0o755, b"gone"),
];

fn handed(alloc: Global, pages: Vec<HandedPage>) -> Handed {
    Handed::of(Vec::new(alloc), Vec::new(alloc), pages, Vec::new(alloc))
}

// The pages that are handed in.
const PAGES: &[(u32, &[u8])] = &[(30, b"new"), (31, b"xyz")];

fn fresh_page(alloc: Global, no: u32, bytes: &[u8]) -> Option<HandedPage> {
    let bytes = Bytes::copied(alloc, bytes).ok()?;
    Some(HandedPage {
        no,
        bytes,
        touched: false,
    })
}

fn two_pages(alloc: Global) -> Option<Vec<HandedPage>> {
    let mut pages = Vec::new(alloc);
    for (no, bytes) in PAGES {
        pages.push(fresh_page(alloc, *no, bytes)?).ok()?;
    }
    Some(pages)
}

// The second page is block 1 of the file 3, the first one block 0 of the file 6.
const BLOCKS: &[PlacedBlock] = &[
    PlacedBlock {
        ino: 3,
        at: 1,
        place: 1,
    },
    PlacedBlock {
        ino: 6,
        at: 0,
        place: 0,
    },
];

fn bundle(alloc: Global) -> Option<RawBundle> {
    let pages = two_pages(alloc)?;
    let blocks = BLOCKS.to_vec(alloc).ok()?;
    Some(RawBundle::of(handed(alloc, pages), blocks))
}

// The file 3 is guarded and grows to 4098 bytes, of which the second block is listed, 4 goes, and 6 is new: the
// number, whether the file is gone, its name and its size.
const FILES: &[(u32, bool, &[u8], u64)] = &[
    (3, false, b"f", 4098),
    (4, true, b"g", 0),
    (6, false, b"n", 2),
];

fn raw_file(ino: u32, gone: bool, name: &[u8], size: u64) -> Option<RawFile> {
    let name = Name::read(name).ok()?;
    Some(RawFile {
        ino,
        given: true,
        gone,
        parent: 2,
        name,
        kind: Kind::Regular,
        mode: Mode(0o640),
        uid: 1,
        gid: 2,
        guard: ino == 3,
        size,
    })
}

fn files(alloc: Global) -> Option<List<RawFile>> {
    let mut files = Vec::new(alloc);
    for (ino, gone, name, size) in FILES {
        files.push(raw_file(*ino, *gone, name, *size)?).ok()?;
    }
    Some(List::from_vec(files))
}

fn release(alloc: Global) -> Option<Entry> {
    let files = files(alloc)?;
    let bundle = bundle(alloc)?;
    Some(Entry::Raw {
        lib: LibNo(1),
        verdict: ReleaseAnswer::Accepted,
        files,
        bundle,
    })
}

fn made(alloc: Global, path: &[u8], reply: Reply, made: u32) -> Option<Done> {
    let path = Path::read(alloc, path).ok()?;
    let call = Call::Mkdir {
        path,
        mode: Mode(0o700),
    };
    Some(Done { call, reply, made })
}

// A directory is made, and another call finds no room.
fn calls(alloc: Global) -> Option<List<Done>> {
    let mut calls = Vec::new(alloc);
    let done = made(alloc, b"/d", Reply::Ok(Answer::Done), 5)?;
    calls.push(done).ok()?;
    let refused = made(alloc, b"/e", Reply::NoSpace { wanted: 2, free: 1 }, 0)?;
    calls.push(refused).ok()?;
    Some(List::from_vec(calls))
}

fn settling(alloc: Global) -> Option<Entry> {
    let calls = calls(alloc)?;
    Some(Entry::Batch {
        lib: LibNo(2),
        calls,
        handed: handed(alloc, Vec::new(alloc)),
    })
}

fn moded(ino: u32, answer: Result<(), ModeFault>) -> Entry {
    Entry::Mode {
        lib: LibNo(1),
        ino,
        mode: 0o600,
        answer,
        call: None,
    }
}

fn add(log: &mut Log, entry: Option<Entry>) -> Option<()> {
    log.reserve(1).ok()?;
    log.push(entry?);
    Some(())
}

fn logged(alloc: Global) -> Option<Log> {
    let mut log = Log::new(alloc);
    add(&mut log, release(alloc))?;
    add(&mut log, settling(alloc))?;
    add(&mut log, Some(moded(3, Ok(()))))?;
    add(&mut log, Some(moded(2, Err(ModeFault::NotOwner))))?;
    Some(log)
}

const LIBS: &[Creds] = &[Creds { uid: 0, gid: 0 }, Creds { uid: 0, gid: 9 }];

fn replayed(alloc: Global) -> Option<Nodes> {
    let log = logged(alloc)?;
    replay(alloc, nodes_of(alloc, TREE)?, LIBS, &log).ok()
}

fn is_two_bytes(bytes: &[u8]) -> bool {
    bytes.len() == 2 && bytes.starts_with(b"ne")
}

fn is_grown(bytes: &[u8]) -> bool {
    bytes.len() == 4098 && bytes.starts_with(b"hello\0\0") && bytes.ends_with(b"\0\0xy")
}

fn has_bytes(nodes: &Nodes) -> Option<bool> {
    let (new, grown) = (nodes.get(6)?, nodes.get(3)?);
    Some(is_two_bytes(new.bytes.as_slice()) && is_grown(grown.bytes.as_slice()))
}

fn has_rights(nodes: &Nodes) -> Option<bool> {
    let (file, directory) = (nodes.get(3)?, nodes.get(2)?);
    let is_moded = file.mode == Mode(0o600) && directory.mode == Mode(0o755);
    Some(is_moded && (file.uid, file.gid) == (1, 2) && file.guard && !directory.guard)
}

fn has_made(nodes: &Nodes) -> Option<bool> {
    let made = nodes.get(5)?;
    Some((made.uid, made.gid, made.parent) == (0, 9, 1) && nodes.count(1) == 2)
}

// Whether the files have their bytes, their rights, whether the directory is made, and 4 is gone.
fn found(alloc: Global) -> Option<[bool; 4]> {
    let nodes = replayed(alloc)?;
    let is_gone = nodes.get(4).is_none();
    Some([
        has_bytes(&nodes)?,
        has_rights(&nodes)?,
        has_made(&nodes)?,
        is_gone,
    ])
}

#[test]
fn a_log_is_replayed(rt: HostRuntime) {
    assert!(rt; found(rt.alloc()) == Some([true; 4]));
}
