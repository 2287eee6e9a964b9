//! Images that the tests start from.

use std::alloc::Global;
use trio_image::{Image, load};
use trio_io::SureFiles;
use trio_page::NoMemory;
use trio_rights::Mode;
use trio_samples::files::{root, three_files};
use trio_samples::{Sample, SampleFile, directory, regular};

/// Images of one or two directories with a few files.
#[derive(Clone, Copy)]
pub enum Start {
    /// 32 pages and 64 inode numbers: the directory `a`, number 2, with the file `f`, number 3, of the
    /// five bytes `hello`. The root has pages 3 and 4, `a` 5 and 6, `f` 7 and 8.
    OneFile,
    /// 1024 pages and 64 inode numbers: the empty file `f`, number 2.
    Large,
    /// 64 pages and 64 inode numbers: `a`, number 2, with `f`, 3, and `g`, 4, which all may write;
    /// `h`, 5, which its owner alone may write and others may read; and `p`, 6, a directory that its
    /// owner alone may enter, with `q`, 7.
    Several,
    /// 64 pages and 64 inode numbers: the directories `a`, number 2, `a/d`, 3, `b`, 4, and `b/d`, 5, which
    /// all may write, with the file `f` in each, 6 to 9; `h`, 10, which its owner alone may write and
    /// others may read; and `p`, 11, a directory that its owner alone may enter, with `q`, 12.
    Shared,
    /// 32 pages and 64 inode numbers: the directories `a`, `a/b`, and so on to `a/b/c/d/e/f/g/h`,
    /// numbers 2 to 9, and in the last one the file `x`, number 10, of the five bytes `hello`.
    Deep,
    /// 512 pages and 256 inode numbers: the root alone.
    Bare,
}

fn sample_of(alloc: Global, start: Start) -> Result<Sample, NoMemory> {
    match start {
        Start::OneFile => Sample::small(alloc, &three_files()),
        Start::Large => Sample::of(alloc, 1024, 64, &[root(), regular(2, 1, b"f", b"")]),
        Start::Several => Sample::of(alloc, 64, 64, &several()),
        Start::Shared => Sample::of(alloc, 64, 64, &shared()),
        Start::Deep => Sample::small(alloc, &deep()),
        Start::Bare => Sample::of(alloc, 512, 256, &[root()]),
    }
}

fn several<'a>() -> [SampleFile<'a>; 7] {
    [
        root(),
        directory(2, 1, b"a"),
        of_mode(0o666, regular(3, 2, b"f", b"hello")),
        of_mode(0o666, regular(4, 2, b"g", b"")),
        regular(5, 1, b"h", b"one and two"),
        of_mode(0o700, directory(6, 1, b"p")),
        regular(7, 6, b"q", b"hidden"),
    ]
}

fn shared<'a>() -> [SampleFile<'a>; 12] {
    [
        root(),
        of_mode(0o777, directory(2, 1, b"a")),
        of_mode(0o777, directory(3, 2, b"d")),
        of_mode(0o777, directory(4, 1, b"b")),
        of_mode(0o777, directory(5, 4, b"d")),
        of_mode(0o777, regular(6, 2, b"f", b"hello")),
        of_mode(0o777, regular(7, 3, b"f", b"")),
        of_mode(0o777, regular(8, 4, b"f", b"one and two")),
        of_mode(0o777, regular(9, 5, b"f", b"three")),
        regular(10, 1, b"h", b"four"),
        of_mode(0o700, directory(11, 1, b"p")),
        regular(12, 11, b"q", b"hidden"),
    ]
}

// The file with this mode.
fn of_mode(mode: u16, file: SampleFile) -> SampleFile {
    SampleFile {
        mode: Mode(mode),
        ..file
    }
}

fn deep<'a>() -> [SampleFile<'a>; 10] {
    [
        root(),
        directory(2, 1, b"a"),
        directory(3, 2, b"b"),
        directory(4, 3, b"c"),
        directory(5, 4, b"d"),
        directory(6, 5, b"e"),
        directory(7, 6, b"f"),
        directory(8, 7, b"g"),
        directory(9, 8, b"h"),
        regular(10, 9, b"x", b"hello"),
    ]
}

/// The image.
pub fn image_of(alloc: Global, start: Start) -> Option<Image> {
    loaded(alloc, bytes_of(alloc, start).ok()?)
}

fn bytes_of(alloc: Global, start: Start) -> Result<Vec<u8>, NoMemory> {
    sample_of(alloc, start)?.bytes(alloc)
}

/// The image of these bytes.
pub fn loaded(alloc: Global, bytes: Vec<u8>) -> Option<Image> {
    let names = vec![in alloc; String::from_str(alloc, "a.img").ok()?].ok()?;
    let mut files = SureFiles::new(alloc, names).ok()?;
    files.hold("a.img", bytes);
    if !files.serves("a.img") {
        return None;
    }
    load(alloc, &mut files, "a.img").ok()
}
