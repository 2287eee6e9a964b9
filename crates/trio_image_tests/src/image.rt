//! Images from files and back.

ghost use Rattle.std.specs.Prelude.{None, false};

use std::alloc::Global;
use trio_image::{Counts, Image, LoadFault, SaveFault, load};
use trio_io::{Failed, FailingCalls, Files, MemFiles, SureFiles};
use trio_names::Path;
use trio_page::NoMemory;
use trio_rights::Kind;
use trio_samples::files::{root, three_files};
use trio_samples::{Sample, link, regular};

// An image with an empty root: page 1 has the rows, page 2 the owners, and the core begins at page 3.
fn image_bytes(alloc: Global) -> Option<Vec<u8>> {
    Sample::small(alloc, &[root()]).ok()?.bytes(alloc).ok()
}

// A name that the files of a test serve.
const NAME: &str = "a.img";

fn names(alloc: Global) -> Result<Vec<String>, NoMemory> {
    Ok(vec![in alloc; String::from_str(alloc, NAME)?]?)
}

// What loading a file of these bytes answers.
fn load_bytes(alloc: Global, bytes: &[u8]) -> Option<Result<Image, LoadFault>> {
    let mut files = SureFiles::new(alloc, names(alloc).ok()?).ok()?;
    files.hold(NAME, bytes.to_vec(alloc).ok()?);
    if !files.serves(NAME) {
        return None;
    }
    Some(load(alloc, &mut files, NAME))
}

fn image_of(alloc: Global, bytes: &[u8]) -> Option<Image> {
    load_bytes(alloc, bytes)?.ok()
}

fn has_sizes(image: &Image) -> bool {
    let superblock = image.superblock();
    let sizes = (superblock.pages, superblock.inodes);
    let places = (superblock.first_owner, superblock.first_core);
    sizes == (32, 64) && places == (2, 3)
}

const COUNTS: Counts = Counts {
    inodes: 1,
    pages: 0,
    free: 29,
};

fn is_told_as_read(alloc: Global) -> Option<bool> {
    let bytes = image_bytes(alloc)?;
    let image = image_of(alloc, &bytes)?;
    Some(image.into_bytes(alloc).ok()?.as_slice() == bytes.as_slice())
}

fn is_taken_apart(alloc: Global) -> Option<bool> {
    let image = image_of(alloc, &image_bytes(alloc)?)?;
    let is_read = has_sizes(&image) && image.counts() == COUNTS;
    let parts = image.into_parts();
    Some(is_read && parts.home.len() == 32 && has_sizes(&Image::of(parts)))
}

#[test]
fn an_image_is_read_and_told(rt: HostRuntime) {
    assert!(rt; is_told_as_read(rt.alloc()) == Some(true));
    assert!(rt; is_taken_apart(rt.alloc()) == Some(true));
}

// an owner of a page that no file uses, a size without a block, a magic that is none, and other
// versions
const OWNER: (usize, u8) = (8204, 2);

const SIZE: (usize, u8) = (56, 1);

const MAGIC: (usize, u8) = (0, b'B');

const VERSION_1: (usize, u8) = (8, 1);

const VERSION_3: (usize, u8) = (8, 3);

// How many bytes there are, zeros behind the image's own, which of them are others, and why they are
// no image.
const LOADS: &[(usize, &[(usize, u8)], Option<LoadFault>)] = &[
    (131_072, &[], None),
    (0, &[], Some(LoadFault::Length(0))),
    (131_071, &[], Some(LoadFault::Length(131_071))),
    (131_073, &[], Some(LoadFault::Length(131_073))),
    (4095, &[], Some(LoadFault::Length(4095))),
    (4096, &[], Some(LoadFault::Length(4096))),
    (
        131_072,
        &[OWNER],
        Some(LoadFault::Fails {
            rule: 5,
            ino: 0,
            page: 3,
            slot: 0,
        }),
    ),
    (
        131_072,
        &[OWNER, SIZE],
        Some(LoadFault::Fails {
            rule: 1,
            ino: 1,
            page: 0,
            slot: 0,
        }),
    ),
    (131_072, &[MAGIC], Some(LoadFault::BadSuper)),
    (131_071, &[MAGIC], Some(LoadFault::BadSuper)),
    (4095, &[MAGIC], Some(LoadFault::Length(4095))),
    (131_072, &[VERSION_1], Some(LoadFault::OldVersion)),
    (131_071, &[VERSION_1], Some(LoadFault::OldVersion)),
    (4095, &[VERSION_1], Some(LoadFault::Length(4095))),
    (131_072, &[VERSION_1, OWNER], Some(LoadFault::OldVersion)),
    (131_072, &[VERSION_3], Some(LoadFault::BadSuper)),
    (131_072, &[VERSION_1, MAGIC], Some(LoadFault::BadSuper)),
];

fn fault(alloc: Global, count: usize, edits: &[(usize, u8)]) -> Option<Option<LoadFault>> {
    let mut bytes = image_bytes(alloc)?;
    bytes.resize(count, 0).ok()?;
    for (at, byte) in edits {
        if let Some(place) = bytes.get_mut(*at) {
            *place = *byte;
        }
    }
    Some(load_bytes(alloc, &bytes)?.err())
}

#[test]
fn other_bytes_are_refused(rt: HostRuntime) {
    for (i, (count, edits, wanted)) in LOADS.iter().enumerate() {
        assert!(rt;
            fault(rt.alloc(), *count, edits) == Some(*wanted),
            "row {i}"
        );
    }
}

// The file `/a/f` of inode number 3 has its bytes, and its directory names it.
fn nodes_are_told(alloc: Global) -> Option<bool> {
    let bytes = Sample::small(alloc, &three_files())
        .ok()?
        .bytes(alloc)
        .ok()?;
    let nodes = image_of(alloc, &bytes)?.nodes(alloc).ok()?;
    let is_found = nodes.find(&Path::read(alloc, b"/a/f").ok()?) == Some(3);
    let is_read = nodes.get(3)?.bytes.as_slice() == b"hello".as_slice();
    let names = nodes.names(2).ok()?;
    let (name, kind) = names.first()?;
    let is_named = name.as_bytes() == b"f".as_slice() && *kind == Kind::Regular;
    Some(is_found && is_read && is_named && names.len() == 1)
}

// A link has its text, and a guarded file says so.
fn links_are_told(alloc: Global) -> Option<bool> {
    let files = [
        root(),
        link(2, 1, b"l", b"/a/f"),
        regular(3, 1, b"g", b"hello").guarded(),
    ];
    let bytes = Sample::small(alloc, &files).ok()?.bytes(alloc).ok()?;
    let mut image = image_of(alloc, &bytes)?;
    let nodes = image.nodes(alloc).ok()?;
    let (text, guarded) = (nodes.get(2)?, nodes.get(3)?);
    let is_link = text.kind == Kind::Link && text.bytes.as_slice() == b"/a/f".as_slice();
    let notes = image.notes(alloc).ok()?;
    let is_noted = match (notes.get(2)?, notes.get(3)?) {
        (Some(text), Some(guarded)) => !text.guard && guarded.guard && text.size == 4,
        _ => false,
    };
    Some(is_link && is_noted && !text.guard && guarded.guard)
}

#[test]
fn files_are_nodes(rt: HostRuntime) {
    assert!(rt; nodes_are_told(rt.alloc()) == Some(true));
    assert!(rt; links_are_told(rt.alloc()) == Some(true));
}

// Files in memory, of which this call fails.
fn mem_files(alloc: Global, failing: u64) -> Result<MemFiles, NoMemory> {
    let plan = FailingCalls::new(vec![in alloc; failing; 1]?);
    MemFiles::new(alloc, names(alloc)?, plan)
}

// What loading an image whose file fails at this call answers, and how often a read has failed.
fn load_failing(alloc: Global, failing: u64) -> Option<(Option<LoadFault>, u64)> {
    let mut files = mem_files(alloc, failing).ok()?;
    files.hold(NAME, image_bytes(alloc)?);
    if !files.serves(NAME) {
        return None;
    }
    let loaded = load(alloc, &mut files, NAME);
    Some((loaded.err(), files.read_faults(NAME)))
}

// There are 33 reads: one a page, and one that meets the end.
#[test]
fn reads_fail(rt: HostRuntime) {
    for failing in [1, 2, 33] {
        assert!(rt;
            load_failing(rt.alloc(), failing) == Some((Some(LoadFault::ReadFault), 1)),
            "call {failing}"
        );
    }
    assert!(rt; load_failing(rt.alloc(), 34) == Some((None, 0)));
}

// What saving an image over other bytes answers where this call fails, and whether the image's bytes
// stand there then.
fn save_failing(alloc: Global, failing: u64) -> Option<(Option<SaveFault>, bool)> {
    let bytes = image_bytes(alloc)?;
    let image = image_of(alloc, &bytes)?;
    let mut files = mem_files(alloc, failing).ok()?;
    files.hold(NAME, b"other".to_vec(alloc).ok()?);
    if !files.serves(NAME) {
        return None;
    }
    let saved = image.save(alloc, &mut files, NAME);
    let is_there = files.content(NAME)? == bytes.as_slice();
    Some((saved.err(), is_there))
}

#[test]
fn an_image_is_saved(rt: HostRuntime) {
    assert!(rt; save_failing(rt.alloc(), 2) == Some((None, true)));
    assert!(rt; save_failing(rt.alloc(), 1) == Some((Some(SaveFault::WriteFault), false)));
}

// Files that give 1000 bytes at most at a call. They tell no content.
#[derive(Drop)]
struct SlowFiles {
    files: SureFiles,
}

impl Files for SlowFiles {
    ghost seen = { λ s. record {
      served = (⟦<SureFiles as Files>⟧.seen s.files).served;
      tells = false;
      held = λ _. None;
      read_faults = λ _. 0;
      write_faults = λ _. 0;
    } };

    fn read_at(&mut self, name: &str, at: u64, buf: &mut [u8]) -> Result<usize, Failed> {
        let most = buf.len().min(1000);
        self.files.read_at(name, at, &mut buf[..most])
    }

    fn replace(&mut self, name: &str, bytes: &[u8]) -> Result<(), Failed> {
        self.files.replace(name, bytes)
    }
}

fn loads_slowly(alloc: Global) -> Option<bool> {
    let bytes = image_bytes(alloc)?;
    let mut files = SureFiles::new(alloc, names(alloc).ok()?).ok()?;
    files.hold(NAME, bytes.to_vec(alloc).ok()?);
    if !files.serves(NAME) {
        return None;
    }
    let image = load(alloc, &mut SlowFiles { files }, NAME).ok()?;
    Some(image.into_bytes(alloc).ok()?.as_slice() == bytes.as_slice())
}

#[test]
fn short_reads_go_on(rt: HostRuntime) {
    assert!(rt; loads_slowly(rt.alloc()) == Some(true));
}
