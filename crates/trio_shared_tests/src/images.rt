//! Images that the tests start controllers from, of 32 pages and 64 inode numbers.

use std::alloc::Global;
use trio_image::{Image, load};
use trio_io::SureFiles;
use trio_page::PAGE_SIZE;
use trio_samples::files::root;
use trio_samples::{Sample, SampleFile, directory, regular};

/// What the files of one block have first.
const DASHES: [u8; PAGE_SIZE] = [b'-'; PAGE_SIZE];

fn bytes_of(alloc: Global, files: &[SampleFile]) -> Option<Vec<u8>> {
    match Sample::small(alloc, files) {
        Ok(sample) => sample.bytes(alloc).ok(),
        Err(_) => None,
    }
}

fn one_name(alloc: Global) -> Option<SureFiles> {
    let names = vec![in alloc; String::from_str(alloc, "a.img").ok()?].ok()?;
    SureFiles::new(alloc, names).ok()
}

// The image of these bytes.
fn image_of(alloc: Global, bytes: Vec<u8>) -> Option<Image> {
    let mut held = one_name(alloc)?;
    held.hold("a.img", bytes);
    if held.serves("a.img") {
        load(alloc, &mut held, "a.img").ok()
    } else {
        None
    }
}

/// The root with the files `f` and `g`, numbers 2 and 3, which uid 5 owns. `f` has the bytes that are
/// given, `g` has `world`.
pub fn owned_bytes(alloc: Global, bytes: &[u8]) -> Option<Vec<u8>> {
    let files = [
        root(),
        regular(2, 1, b"f", bytes).owned(5, 5),
        regular(3, 1, b"g", b"world").owned(5, 5),
    ];
    bytes_of(alloc, &files)
}

/// The image of these files, where `f` has `hello`.
pub fn owned_files(alloc: Global) -> Option<Image> {
    image_of(alloc, owned_bytes(alloc, b"hello")?)
}

/// The directory `a`, number 2, with the files `f` and `g`, numbers 3 and 4, of five bytes each.
pub fn two_files(alloc: Global) -> Option<Image> {
    let files = [
        root(),
        directory(2, 1, b"a"),
        regular(3, 2, b"f", b"hello"),
        regular(4, 2, b"g", b"world"),
    ];
    image_of(alloc, bytes_of(alloc, &files)?)
}

/// The directory `a`, number 2, with the files `f`, `g` and `h`, numbers 3 to 5, of one block each.
pub fn three_files(alloc: Global) -> Option<Image> {
    let files = [
        root(),
        directory(2, 1, b"a"),
        regular(3, 2, b"f", &DASHES),
        regular(4, 2, b"g", &DASHES),
        regular(5, 2, b"h", &DASHES),
    ];
    image_of(alloc, bytes_of(alloc, &files)?)
}

/// The directory `a` with files `f` and `g`, and the directory `b` with a file `h`: numbers 2 to 6, five
/// bytes in each file.
pub fn two_directories(alloc: Global) -> Option<Image> {
    let files = [
        root(),
        directory(2, 1, b"a"),
        regular(3, 2, b"f", b"hello"),
        regular(4, 2, b"g", b"world"),
        directory(5, 1, b"b"),
        regular(6, 5, b"h", b"again"),
    ];
    image_of(alloc, bytes_of(alloc, &files)?)
}
