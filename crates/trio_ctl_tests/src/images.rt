//! Images that tests start controllers from.

use std::alloc::Global;
use trio_image::{Image, load};
use trio_io::SureFiles;
use trio_page::NoMemory;
use trio_rights::Mode;
use trio_samples::files::{root, six_directories, three_files};
use trio_samples::{Sample, SampleFile, directory, link, put, regular};

/// Such an image.
pub fn start_image(alloc: Global, start: Start) -> Option<Image> {
    let bytes = image_bytes(alloc, start).ok()?;
    image_of(alloc, &bytes)
}

// The image of these bytes.
fn image_of(alloc: Global, bytes: &[u8]) -> Option<Image> {
    let mut files = one_name(alloc)?;
    hold(alloc, &mut files, bytes)?;
    loaded(alloc, &mut files)
}

fn one_name(alloc: Global) -> Option<SureFiles> {
    let mut names = Vec::new(alloc);
    names.push(String::from_str(alloc, "a.img").ok()?).ok()?;
    SureFiles::new(alloc, names).ok()
}

fn hold(alloc: Global, files: &mut SureFiles, bytes: &[u8]) -> Option<()> {
    files.hold("a.img", bytes.to_vec(alloc).ok()?);
    Some(())
}

fn loaded(alloc: Global, files: &mut SureFiles) -> Option<Image> {
    if files.serves("a.img") {
        load(alloc, files, "a.img").ok()
    } else {
        None
    }
}

/// Images of 32 pages and 64 inode numbers, of which 0 to 2 are the superblock and the tables.
#[derive(Clone, Copy)]
pub enum Start {
    /// A root that lists nothing.
    Empty,
    /// The directory `a`, number 2: the root has pages 3 and 4.
    OneDirectory,
    /// The same, with bytes in page 6, which nobody owns.
    LeftBytes,
    /// The directory `t` of mode 777, number 2: the root has pages 3 and 4.
    OpenDirectory,
    /// The directory `a`, number 2, with the file `f`, number 3, of the five bytes `hello`: the root
    /// has pages 3 and 4, `a` 5 and 6, `f` 7 and 8.
    OneFile,
    /// The same, but that `f` is guarded, and the link `l`, number 4, of the text `/a/f` beside it: `l`
    /// has pages 9 and 10.
    GuardAndLink,
    /// The image with `f`, not guarded, and the directory `b`, number 4, beside `a`.
    TwoDirectories,
    /// `a`, `b`, `a/p`, `a/p/p1`, `b/q`, `b/q/q1`, numbers 2 to 7, on pages 3 to 12.
    SixDirectories,
    /// The files `f`, `g` and `h` and the directory `d`, of numbers 2 to 5, in the root: `f` has index
    /// page 5 and blocks 6 and 7, `g` 8, 9 and 10, `h` 11 and 12, and `d` is empty.
    LongFiles,
}

/// The bytes of an image.
pub fn image_bytes(alloc: Global, start: Start) -> Result<Vec<u8>, NoMemory> {
    match start {
        Start::Empty => bytes_of(alloc, &[root()]),
        Start::OneDirectory => bytes_of(alloc, &[root(), directory(2, 1, b"a")]),
        Start::LeftBytes => left_bytes(alloc),
        Start::OpenDirectory => bytes_of(alloc, &[root(), open_directory()]),
        Start::OneFile => bytes_of(alloc, &three_files()),
        Start::GuardAndLink => bytes_of(alloc, &guard_and_link()),
        Start::TwoDirectories => bytes_of(alloc, &two_directories()),
        Start::SixDirectories => bytes_of(alloc, &six_directories()),
        Start::LongFiles => long_files(alloc),
    }
}

fn left_bytes(alloc: Global) -> Result<Vec<u8>, NoMemory> {
    let mut bytes = bytes_of(alloc, &[root(), directory(2, 1, b"a")])?;
    put(&mut bytes, 24_576, b"left");
    Ok(bytes)
}

fn long_files(alloc: Global) -> Result<Vec<u8>, NoMemory> {
    let long = [b'x'; 4097];
    let files = [
        root(),
        regular(2, 1, b"f", &long),
        regular(3, 1, b"g", &long),
        regular(4, 1, b"h", b"hello"),
        directory(5, 1, b"d"),
    ];
    bytes_of(alloc, &files)
}

fn guard_and_link<'a>() -> [SampleFile<'a>; 4] {
    let [root, a, f] = three_files();
    [root, a, f.guarded(), link(4, 2, b"l", b"/a/f")]
}

fn two_directories<'a>() -> [SampleFile<'a>; 4] {
    let [root, a, f] = three_files();
    [root, a, f, directory(4, 1, b"b")]
}

fn open_directory<'a>() -> SampleFile<'a> {
    SampleFile {
        mode: Mode(0o777),
        ..directory(2, 1, b"t")
    }
}

fn bytes_of(alloc: Global, files: &[SampleFile]) -> Result<Vec<u8>, NoMemory> {
    Sample::small(alloc, files)?.bytes(alloc)
}
