//! What the tables of whole runs share: the images that are there, a row, and how a run is compared with it.

ghost use Rattle.std.specs.Prelude.{◌≡◌, IfOk};
ghost use Rattle.trio_io.specs.Names.{texts_of};

use crate::{copy_words, trio_main};
use std::alloc::Global;
use std::process::Abort;
use std::sync::Wait;
use std::thread::Threads;
use trio_io::{FailingCalls, Files, Gate, MemFiles, MemSink, OpenGate};
use trio_page::NoMemory;
use trio_rights::Mode;
use trio_samples::files::{one_file, root, six_directories, three_files};
use trio_samples::{Sample, SampleFile, directory, link, regular};

/// How many bytes an image of 32 pages has.
pub const IMAGE_SIZE: usize = 131_072;

// ---- the image that is there

/// The image of a row.
#[derive(Clone, Copy)]
pub enum Start {
    /// No bytes.
    Nothing,
    /// A new image.
    Made,
    /// A root without files.
    Empty,
    /// A file `f` of the five bytes `hello`.
    OneFile,
    /// A directory `a`, and in it a file `f` of the five bytes `hello`.
    ThreeFiles,
    /// `a`, `a/p` and `a/p/p1`, and `b`, `b/q` and `b/q/q1`: 2, 4, 5, 3, 6 and 7.
    SixDirectories,
    /// A directory `a`.
    OneDirectory,
    /// A directory `t` that anybody may write into.
    OpenDirectory,
    /// Directories `a`, with a block of sixteen files, and `b`.
    TwoDirectories,
    /// A file of a name that isn't visible ASCII.
    OddName,
    /// The three files, of which `f` is guarded.
    Guarded,
    /// Files `f`, which is guarded, and `g`, each of the five bytes `hello`.
    OneGuarded,
    /// A link `l` to `/a/f`.
    OneLink,
}

/// The bytes of a laid out image; none of one that is made or of none.
pub fn start_bytes(alloc: Global, start: Start) -> Result<Vec<u8>, NoMemory> {
    match start {
        Start::Nothing | Start::Made => Ok(Vec::new(alloc)),
        Start::Empty => laid_out(alloc, &[root()]),
        Start::OneFile => laid_out(alloc, &one_file()),
        Start::ThreeFiles => laid_out(alloc, &three_files()),
        Start::SixDirectories => laid_out(alloc, &six_directories()),
        Start::OneDirectory => laid_out(alloc, &[root(), directory(2, 1, b"a")]),
        Start::OpenDirectory => laid_out(alloc, &[root(), open_directory()]),
        Start::TwoDirectories => block_bytes(alloc),
        Start::OddName => laid_out(alloc, &[root(), regular(2, 1, b"\n\"\\\xFF", b"hello")]),
        Start::Guarded => laid_out(alloc, &guarded_files()),
        Start::OneGuarded => laid_out(alloc, &one_guarded()),
        Start::OneLink => laid_out(alloc, &[root(), link(2, 1, b"l", b"/a/f")]),
    }
}

fn laid_out(alloc: Global, files: &[SampleFile]) -> Result<Vec<u8>, NoMemory> {
    Sample::small(alloc, files)?.bytes(alloc)
}

fn open_directory<'a>() -> SampleFile<'a> {
    SampleFile {
        mode: Mode(0o777),
        ..directory(2, 1, b"t")
    }
}

fn guarded_files<'a>() -> [SampleFile<'a>; 3] {
    let [root, directory, file] = three_files();
    [root, directory, file.guarded()]
}

fn one_guarded<'a>() -> [SampleFile<'a>; 3] {
    let guarded = regular(2, 1, b"f", b"hello").guarded();
    [root(), guarded, regular(3, 1, b"g", b"hello")]
}

const LETTERS: &[u8] = b"abcdefghijklmnop";

fn block_bytes(alloc: Global) -> Result<Vec<u8>, NoMemory> {
    let mut files = vec![in alloc; root(), directory(2, 1, b"a"), directory(3, 1, b"b")]?;
    for k in 0..16_usize {
        files.push(regular(4 + k as u32, 2, &LETTERS[k..k + 1], b""))?;
    }
    laid_out(alloc, &files)
}

// ---- rows

/// One run and its end.
#[derive(Drop)]
pub struct Row<'a> {
    pub image: Start,
    /// How many bytes of it there are, with zeros behind it.
    pub length: usize,
    /// Which of its bytes are changed.
    pub changes: &'a [(usize, u8)],
    pub script: &'a [&'a [u8]],
    /// Which call of the files and which put fails, counted from 1 on.
    pub failing: (u64, u64),
    pub status: u8,
    pub text: &'a [&'a [u8]],
    /// Whether no more is put.
    pub is_all: bool,
    /// A file, and what it then has.
    pub file: &'a str,
    pub kept: Kept,
}

/// What a file has at the end.
#[derive(Clone, Copy)]
pub enum Kept {
    /// There is no such file.
    Nothing,
    /// What OUT had before.
    Before,
    /// The first so many bytes of the image.
    Image(usize),
    /// So many bytes.
    Bytes(usize),
    /// The image, but with these bytes at these offsets, which rise.
    Changed(&'static [(usize, u8)]),
    /// An image that verifies, of which each byte from an offset on and before another is this one.
    Part(usize, usize, u8),
}

/// The words of `turns` on the image and the script of a row.
pub const TURNS: &[&str] = &["turns", "first.img", "script", "o p"];

/// The same with a thread for each library.
pub const RUN: &[&str] = &["run", "first.img", "script", "o p"];

/// The same with three workers that judge what libraries release.
pub const RUN_WITH_WORKERS: &[&str] = &["run", "first.img", "script", "o p", "3"];

/// The words of `check` on the image of a row.
pub const CHECK: &[&str] = &["check", "first.img"];

/// Those of `tree`.
pub const TREE: &[&str] = &["tree", "first.img"];

/// Those of `tree` as JSON.
pub const JSON: &[&str] = &["tree", "first.img", "json"];

/// The words of `new` of 32 pages and 64 inode numbers.
pub const NEW: &[&str] = &["new", "a.img", "32", "64"];

// What OUT has before.
const OLD: &[u8] = b"before";

/// The words of a command line.
pub fn words_of(alloc: Global, words: &[&str]) -> Result<Vec<String>, NoMemory> {
    let mut all = Vec::new(alloc);
    for word in words {
        all.push(String::from_str(alloc, word)?)?;
    }
    Ok(all)
}

fn joined(alloc: Global, parts: &[&[u8]]) -> Result<Vec<u8>, NoMemory> {
    let mut all = Vec::new(alloc);
    for part in parts {
        all.extend_from_slice(part)?;
    }
    Ok(all)
}

// The name that comes first behind a command.
fn first_name<'a>(words: &[&'a str]) -> &'a str {
    match words {
        [_, name, ..] => *name,
        _ => "first.img",
    }
}

fn failing(alloc: Global, call: u64) -> Result<FailingCalls, NoMemory> {
    Ok(FailingCalls::new(vec![in alloc; call]?))
}

// Files of these names, none of which has a content.
fn files_of(alloc: Global, words: &[String], call: u64) -> Result<MemFiles, NoMemory>
    ensures { IfOk result (λ files. (⟦<MemFiles as Files>⟧.seen files).served ≡ texts_of words.now) }
{
    let names = copy_words(alloc, words)?;
    MemFiles::new(alloc, names, failing(alloc, call)?)
}

// Gives the files their contents: `image` is that of the name that comes first among the words.
fn fill(
    alloc: Global,
    files: &mut MemFiles,
    name: &str,
    image: &[u8],
    script: &[&[u8]],
) -> Result<(), NoMemory>
    ensures { (⟦<MemFiles as Files>⟧.seen files.new).served ≡ (⟦<MemFiles as Files>⟧.seen files.old).served }
{
    files.hold("script", joined(alloc, script)?);
    files.hold("o p", OLD.to_vec(alloc)?);
    files.hold(name, image.to_vec(alloc)?);
    Ok(())
}

// What is left of a run: how it ended, the files and the sink.
#[derive(Drop)]
struct Left {
    status: u8,
    files: MemFiles,
    out: MemSink,
}

// A run of these words over an image, with the script and the failing calls of a row.
fn run_over<R: Threads + Wait + Sync + AllocGlobal, G: Gate + Sync>(
    rt: &R,
    gate: &G,
    texts: &[&str],
    image: &[u8],
    row: &Row,
) -> Option<Left> {
    let alloc = rt.alloc();
    let words = words_of(alloc, texts).ok()?;
    let mut files = files_of(alloc, &words, row.failing.0).ok()?;
    fill(alloc, &mut files, first_name(texts), image, row.script).ok()?;
    let mut out = MemSink::new(alloc, failing(alloc, row.failing.1).ok()?);
    let status = trio_main(rt, alloc, &words, &mut files, &mut out, gate);
    Some(Left { status, files, out })
}

/// What a run of these words puts out, where it ends as its row says.
pub fn told<R: Threads + Wait + Sync + AllocGlobal, G: Gate + Sync>(
    rt: &R,
    gate: &G,
    words: &[&str],
    row: &Row,
) -> Option<Vec<u8>> {
    match image_of(rt, row) {
        Some(image) => told_over(rt, gate, words, &image, row),
        None => None,
    }
}

/// The same over this image.
pub fn told_over<R: Threads + Wait + Sync + AllocGlobal, G: Gate + Sync>(
    rt: &R,
    gate: &G,
    words: &[&str],
    image: &[u8],
    row: &Row,
) -> Option<Vec<u8>> {
    match run_over(rt, gate, words, image, row) {
        Some(left) => told_by(rt, &left, image, row),
        None => None,
    }
}

fn told_by<R: Threads + Wait + Sync + AllocGlobal>(
    rt: &R,
    left: &Left,
    image: &[u8],
    row: &Row,
) -> Option<Vec<u8>> {
    if ends(row, left, image) && verifies(rt, row, left) {
        left.out.bytes().to_vec(rt.alloc()).ok()
    } else {
        None
    }
}

/// Whether a run of these words ends as its row says.
pub fn row_ends<R: Threads + Wait + Sync + AllocGlobal>(rt: &R, words: &[&str], row: &Row) -> bool {
    told(rt, &OpenGate, words, row).is_some()
}

// Whether a run over this image ended as its row says.
fn ends(row: &Row, left: &Left, image: &[u8]) -> bool {
    left.status == row.status
        && is_spelled(left.out.bytes(), row.text, row.is_all)
        && left.out.faults() == row.failing.1
        && keeps(left.files.content(row.file), image, row.kept)
}

/// Whether bytes are these parts, one behind the other, with nothing or anything behind them.
pub fn is_spelled(bytes: &[u8], parts: &[&[u8]], is_all: bool) -> bool {
    let mut rest = bytes;
    for part in parts {
        match rest.strip_prefix(*part) {
            Some(behind) => rest = behind,
            None => return false,
        }
    }
    !is_all || rest.is_empty()
}

fn keeps(content: Option<&[u8]>, image: &[u8], kept: Kept) -> bool {
    match (content, kept) {
        (None, kept) => matches!(kept, Kept::Nothing),
        (Some(_), Kept::Nothing) => false,
        (Some(bytes), Kept::Before) => bytes == OLD,
        (Some(bytes), Kept::Image(length)) => Some(bytes) == image.get(..length),
        (Some(bytes), Kept::Bytes(length)) => bytes.len() == length,
        (Some(bytes), Kept::Changed(changes)) => is_changed(bytes, image, changes),
        (Some(bytes), Kept::Part(from, to, byte)) => is_all_of(bytes.get(from..to), byte),
    }
}

fn is_changed(bytes: &[u8], image: &[u8], changes: &[(usize, u8)]) -> bool {
    let mut from = 0_usize;
    for (at, byte) in changes {
        let is_same = from <= *at && bytes.get(from..*at) == image.get(from..*at);
        if !is_same || bytes.get(*at) != Some(byte) {
            return false;
        }
        from = at.saturating_add(1);
    }
    bytes.get(from..) == image.get(from..)
}

fn is_all_of(part: Option<&[u8]>, byte: u8) -> bool {
    match part {
        Some(bytes) => bytes.iter().all(|it| *it == byte),
        None => false,
    }
}

// The image of a row.
fn image_of<R: Threads + Wait + Sync + AllocGlobal>(rt: &R, row: &Row) -> Option<Vec<u8>> {
    let mut bytes = match row.image {
        Start::Made => left_by(rt, NEW, b"", &NO_ROW, "a.img")?,
        start => start_bytes(rt.alloc(), start).ok()?,
    };
    for (at, value) in row.changes {
        if let Some(byte) = bytes.get_mut(*at) {
            *byte = *value;
        }
    }
    bytes.resize(row.length, 0).ok()?;
    Some(bytes)
}

/// What a file has after a run of these words over an image that ends well.
pub fn left_by<R: Threads + Wait + Sync + AllocGlobal>(
    rt: &R,
    words: &[&str],
    image: &[u8],
    row: &Row,
    file: &str,
) -> Option<Vec<u8>> {
    match run_over(rt, &OpenGate, words, image, row) {
        Some(left) => content_of(rt.alloc(), &left, file),
        None => None,
    }
}

fn content_of(alloc: Global, left: &Left, file: &str) -> Option<Vec<u8>> {
    if left.status != 0 {
        return None;
    }
    left.files.content(file)?.to_vec(alloc).ok()
}

/// A row of no image and no script.
pub const NO_ROW: Row<'static> = Row {
    image: Start::Nothing,
    length: 0,
    changes: &[],
    script: &[],
    failing: (0, 0),
    status: 0,
    text: &[],
    is_all: false,
    file: "first.img",
    kept: Kept::Nothing,
};

// Whether OUT verifies, where the row says so of it.
fn verifies<R: Threads + Wait + Sync + AllocGlobal>(rt: &R, row: &Row, left: &Left) -> bool {
    if !matches!(row.kept, Kept::Part(..)) {
        return true;
    }
    match left.files.content(row.file) {
        Some(out) => is_valid(rt, out),
        None => false,
    }
}

fn is_valid<R: Threads + Wait + Sync + AllocGlobal>(rt: &R, image: &[u8]) -> bool {
    match run_over(rt, &OpenGate, CHECK, image, &NO_ROW) {
        Some(left) => left.status == 0,
        None => false,
    }
}

/// A file, and what it then has.
pub type Out = (&'static str, Kept);

/// Nothing was written.
pub const BEFORE: Out = ("o p", Kept::Before);

/// The words of both commands that run a script.
pub const RUNS: &[&[&str]] = &[TURNS, RUN];

/// A script of a library that does nothing.
pub const SCRIPT: &[u8] = b"lib 1 raw 0 0\n";

/// What it reports on the image of one file.
pub const REPORT: &[u8] =
    b"lib 1 raw\nend nothing\ntree\n0 d 755 0 0 1 /\n1 f 644 0 0 5 f\ninodes 2 pages 4 free 25\n";

/// Whether a run of each of these words ends as a row says.
pub fn all_end<R: Threads + Wait + Sync + AllocGlobal>(
    rt: &R,
    commands: &[&[&str]],
    row: &Row,
) -> bool {
    for words in commands {
        if !row_ends(rt, words, row) {
            return false;
        }
    }
    true
}
