//! Files of the images that several tests use.

use crate::file::{SampleFile, directory, regular};
use crate::sample::Sample;
use std::alloc::Global;
use trio_page::NoMemory;

/// A directory without files.
pub fn root<'a>() -> SampleFile<'a> {
    directory(1, 0, b"")
}

/// A root, and a file `f` of five bytes: pages 3 and 4 are the root's, 5 and 6 the file's.
pub fn one_file<'a>() -> [SampleFile<'a>; 2] {
    [root(), regular(2, 1, b"f", b"hello")]
}

/// A directory `a`, and a file `f` of five bytes in it: pages 3 and 4 are the root's, 5 and 6 the
/// directory's, 7 and 8 the file's.
pub fn three_files<'a>() -> [SampleFile<'a>; 3] {
    [root(), directory(2, 1, b"a"), regular(3, 2, b"f", b"hello")]
}

/// Directories `a`, `a/p`, `a/p/p1`, `b`, `b/q` and `b/q/q1`. Each that lists one has an index page
/// and a block: the root pages 3 and 4, `a` 5 and 6, `p` 7 and 8, `b` 9 and 10, `q` 11 and 12.
pub fn six_directories<'a>() -> [SampleFile<'a>; 7] {
    [
        root(),
        directory(2, 1, b"a"),
        directory(4, 2, b"p"),
        directory(5, 4, b"p1"),
        directory(3, 1, b"b"),
        directory(6, 3, b"q"),
        directory(7, 6, b"q1"),
    ]
}

/// A root of 900 directories with 16 empty files each, in an image of 8192 pages and 16384 inode
/// numbers: the root has pages 137 to 194, and each directory two pages behind them.
pub fn large_tree(alloc: Global) -> Result<Sample, NoMemory> {
    let mut sample = Sample::of(alloc, 8192, 16384, &[root()])?;
    for d in 0..900_u32 {
        sample.add(&directory(2 + d, 1, &digits(d)));
    }
    for i in 0..14_400_u32 {
        sample.add(&regular(902 + i, 2 + i / 16, &digits(i % 16), b""));
    }
    sample.store_tables();
    Ok(sample)
}

/// The bytes that a file of the workload's image has first.
const LETTERS: [u8; 64] = [b'a'; 64];

/// An image of the shape and size in which the generator's workload leaves one: 8192 pages, 2048
/// inode numbers of which 813 are live, and directories `/d1` to `/d4`, each with `a` and `b`. Files
/// of one block, of inode numbers 14 to 813, stand in these: 150 in each `a`, 50 in each `b`.
pub fn workload_tree(alloc: Global) -> Result<Sample, NoMemory> {
    let mut sample = Sample::of(alloc, 8192, 2048, &[root()])?;
    for k in 0..4_u32 {
        let tree = 2 + 3 * k;
        sample.add(&directory(tree, 1, &[b'd', b'1' + k as u8]));
        sample.add(&directory(tree + 1, tree, b"a"));
        sample.add(&directory(tree + 2, tree, b"b"));
    }
    for i in 0..800_u32 {
        let part = if i % 16 < 12 { 3 } else { 4 };
        let [hundreds, tens, ones] = digits(i);
        let name = [b'f', hundreds, tens, ones];
        let content = &LETTERS[..1 + i as usize % 64];
        sample.add(&regular(14 + i, part + 3 * (i % 4), &name, content));
    }
    sample.store_tables();
    Ok(sample)
}

// the last three decimal digits of a number
fn digits(n: u32) -> [u8; 3] {
    [
        b'0' + (n / 100 % 10) as u8,
        b'0' + (n / 10 % 10) as u8,
        b'0' + (n % 10) as u8,
    ]
}
