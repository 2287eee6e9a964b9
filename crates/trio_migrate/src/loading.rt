//! Loading an image of version 1 from a file.

ghost use Rattle.std.specs.Prelude.{Contains, IfErr, IfOk};
ghost use Rattle.trio_io.specs.Shelf.{OnlyReads};
ghost use Rattle.trio_migrate.specs.OldLoad.{OldLoadFails, OldLoads};

use crate::old_image::OldImage;
use std::alloc::Global;
use trio_image::{LoadFault, read_file, superblock_of};
use trio_io::Files;
use trio_layout::VERSION;
use trio_page::Home;
use trio_survey::OLD_VERSION;

/// The image of version 1 in a file, or the first cause for which there is none, as `load` of
/// `trio_image` reads one of today's version. All causes speak of version 1's formats, and
/// [`LoadFault::OldVersion`] says that the first page is a superblock of today's version.
pub fn load_old<F: Files>(alloc: Global, files: &mut F, name: &str) -> Result<OldImage, LoadFault>
    requires { Contains (F.seen files.old).served name.now }
    ensures image { IfOk result (λ image. OldLoads ((F.seen files.old).held name.now) image.superblock image.pages) }
    ensures fault { IfErr result (OldLoadFails name.now (F.seen files.old) (F.seen files.new)) }
    ensures files { OnlyReads name.now (F.seen files.old) (F.seen files.new) }
{
    let read = read_file(alloc, files, name)?;
    let superblock = superblock_of(&read, OLD_VERSION, VERSION)?;
    OldImage::from_pages(alloc, superblock, Home::of(read.whole))
}
