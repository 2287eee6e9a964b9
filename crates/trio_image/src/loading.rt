//! Loading an image from a file.

ghost use Rattle.std.specs.Prelude.{◌≡◌, ◌≢◌, Contains, IfErr, IfOk, List, ℕ};
ghost use Rattle.trio_io.specs.Shelf.{OnlyReads};
ghost use Rattle.trio_survey.specs.Stored.{PagesVerify};
ghost use Rattle.trio_image.specs.Fault.{HasLengthOf, IsPagesFault};
ghost use Rattle.trio_image.specs.Image.{IsVerified, IsWholeImage};
ghost use Rattle.trio_image.specs.Load.{LoadFails, Loads};
ghost use Rattle.trio_image.specs.Reading.{AreFilePages, IsFirstPageFault};
ghost use Rattle.trio_image.specs.inner.Reading.{IsFirstFault};

use crate::fault::LoadFault;
use crate::image::{Image, ImageParts};
use crate::reading::{FilePages, read_file};
use std::alloc::Global;
use trio_io::Files;
use trio_layout::{Superblock, VERSION};
use trio_page::{Home, Page, Reads};
use trio_survey::{OLD_VERSION, verify_found};

/// The image in a file, or the first cause for which there is none. The file is read from the front
/// until its end or one byte past 33,554,432, straight into the image's pages. They are verified by one
/// survey, which looks at each page once at most ([`verify_found`]), and the image keeps its tables.
pub fn load<F: Files>(alloc: Global, files: &mut F, name: &str) -> Result<Image, LoadFault>
    requires { Contains (F.seen files.old).served name.now }
    ensures image { IfOk result (λ image. Loads ((F.seen files.old).held name.now) image.superblock image.pages) }
    ensures fault { IfErr result (LoadFails name.now (F.seen files.old) (F.seen files.new)) }
    ensures files { OnlyReads name.now (F.seen files.old) (F.seen files.new) }
{
    let read = read_file(alloc, files, name)?;
    let superblock = superblock_of(&read, VERSION, OLD_VERSION)?;
    Image::from_pages(alloc, superblock, Home::of(read.whole))
}

/// What the first page of a file says in a version, where the file has as many bytes as it tells. The
/// other version is told apart.
///
/// [`LoadFault::Length`]: the count of bytes is under 4096, or isn't the superblock's.
/// [`LoadFault::OldVersion`]: the first page is a superblock in the other version.
/// [`LoadFault::BadSuper`]: it is one in neither. No other fault comes.
pub fn superblock_of(file: &FilePages, version: u32, other: u32) -> Result<Superblock, LoadFault>
    ensures superblock { IfOk result (λ s. (bytes : List ℕ) → AreFilePages bytes file.now.whole.items file.now.count → HasLengthOf version bytes s) }
    ensures fault { IfErr result (λ fault. (bytes : List ℕ) → AreFilePages bytes file.now.whole.items file.now.count → IsFirstPageFault version other bytes fault) }
{
    let count = file.count as u64;
    let Some(first) = file.first() else {
        return Err(LoadFault::Length(count));
    };
    let Some(superblock) = Superblock::read_version(first, version) else {
        return Err(first_fault(first, other));
    };
    if count == 4096 * u64::from(superblock.pages) {
        Ok(superblock)
    } else {
        Err(LoadFault::Length(count))
    }
}

/// Why a page is no superblock in one version: it is one in the other, or one in neither.
fn first_fault(first: &Page, other: u32) -> LoadFault
    ensures { IsFirstFault other first.now result }
{
    match Superblock::read_version(first, other) {
        Some(_) => LoadFault::OldVersion,
        None => LoadFault::BadSuper,
    }
}

impl Image {
    /// The image of these pages, of which the first is this superblock; or, exactly where they don't
    /// verify, why. Each page is looked at once at most ([`verify_found`]). After a fault the pages are
    /// gone.
    pub fn from_pages(alloc: Global, superblock: Superblock, home: Home) -> Result<Image, LoadFault>
        requires { IsWholeImage superblock home.pages }
        ensures image { IfOk result (λ image. image ≡ record { superblock = superblock; pages = home.pages }) }
        ensures verify { IfOk result (λ image. IsVerified image.superblock image.pages) }
        ensures fault { IfErr result (IsPagesFault superblock home.pages) }
        ensures refused { IfErr result (λ fault. fault ≢ LoadFault.NoMemory → PagesVerify superblock home.pages → ⊥) }
    {
        let mut home = home;
        let found = verify_found(alloc, &mut home, &mut Reads::new())?;
        Ok(Image::sealed(
            superblock,
            ImageParts {
                home,
                rows: found.rows,
                owners: found.owners,
            },
        ))
    }
}
