//! Reading a file, a page at a time.

ghost use Rattle.std.specs.Prelude.{◌≡◌, ◌+◌, ◌<◌, ◌≤◌, Contains, IfErr, IfOk, None, length, slice_index_or};
ghost use Rattle.std.specs.Option.{option_copied};
ghost use Rattle.trio_io.specs.Shelf.{OnlyReads};
ghost use Rattle.trio_image.specs.Reading.{IsFileOf, StopsReading};
ghost use Rattle.trio_image.specs.inner.Reading.{IsPartOf};

use crate::fault::LoadFault;
use std::alloc::Global;
use trio_io::Files;
use trio_page::{PAGE_SIZE, Page};

/// The most pages that an image may have.
const MAX_PAGES: usize = 8192;

/// A file of at most 8192 pages.
#[derive(Drop)]
pub struct FilePages {
    /// The pages that the file fills, from its front on. What follows them isn't kept.
    pub whole: Vec<Option<Page>>,
    /// How many bytes the file has.
    pub count: usize,
}

impl FilePages {
    /// The first page, where the file fills it.
    pub fn first(&self) -> Option<&Page>
        ensures { option_copied result ≡ slice_index_or self.now.whole.items 0 None }
    {
        self.whole.first()?.as_ref()
    }
}

/// A part of a file.
#[derive(Drop)]
struct FilePart {
    /// The page that begins with the part.
    page: Page,
    /// How many bytes the part has.
    count: usize,
}

/// Reads a file into pages, until its end or one byte past 8192 pages.
///
/// [`LoadFault::ReadFault`]: a read failed. [`LoadFault::TooLong`]: the file has more bytes.
/// [`LoadFault::NoMemory`]: there was no memory for the pages. No other fault comes.
pub fn read_file<F: Files>(alloc: Global, files: &mut F, name: &str) -> Result<FilePages, LoadFault>
    requires { Contains (F.seen files.old).served name.now }
    ensures file { IfOk result (λ read. IsFileOf ((F.seen files.old).held name.now) read.whole.items read.count) }
    ensures fault { IfErr result (StopsReading name.now (F.seen files.old) (F.seen files.new)) }
    ensures files { OnlyReads name.now (F.seen files.old) (F.seen files.new) }
{
    let mut whole = Vec::new(alloc);
    for i in 0..MAX_PAGES {
        let part = read_part(alloc, files, name, PAGE_SIZE * i, PAGE_SIZE)?;
        if part.count < PAGE_SIZE {
            let count = PAGE_SIZE * i + part.count;
            return Ok(FilePages { whole, count });
        }
        let Ok(()) = whole.push(Some(part.page)) else {
            return Err(LoadFault::NoMemory);
        };
    }
    let past = read_part(alloc, files, name, PAGE_SIZE * MAX_PAGES, 1)?;
    if past.count > 0 {
        return Err(LoadFault::TooLong);
    }
    let count = PAGE_SIZE * MAX_PAGES;
    Ok(FilePages { whole, count })
}

/// Reads a file from an offset on into a page, until there are so many bytes or the file ends.
fn read_part<F: Files>(
    alloc: Global,
    files: &mut F,
    name: &str,
    at: usize,
    room: usize,
) -> Result<FilePart, LoadFault>
    requires served { Contains (F.seen files.old).served name.now }
    requires within { at + room ≤ 33554433 }
    requires some { 0 < room }
    requires fits { room ≤ 4096 }
    ensures room { IfOk result (λ part. part.count ≤ room) }
    ensures whole { IfOk result (λ part. length part.page ≡ 4096) }
    ensures part { IfOk result (λ part. IsPartOf ((F.seen files.old).held name.now) at room part.page part.count) }
    ensures fault { IfErr result (StopsReading name.now (F.seen files.old) (F.seen files.new)) }
    ensures files { OnlyReads name.now (F.seen files.old) (F.seen files.new) }
{
    let mut page = Page::zero(alloc)?;
    let mut count = 0;
    // Each turn takes a byte at least, so the turns don't run out.
    for _ in 0..room {
        match files.read_at(
            name,
            (at + count) as u64,
            &mut page.bytes_mut()[count..room],
        ) {
            Err(_) => return Err(LoadFault::ReadFault),
            Ok(0) => return Ok(FilePart { page, count }),
            Ok(more) => count += more,
        }
        if count == room {
            return Ok(FilePart { page, count });
        }
    }
    unreachable!()
}
