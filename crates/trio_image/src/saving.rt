//! Writing an image to a file.

ghost use Rattle.std.specs.Prelude.{◌≡◌, Contains, IfErr, IfOk, OnOk};
ghost use Rattle.trio_io.specs.Shelf.{OnlyReplaces, told};
ghost use Rattle.trio_survey.specs.Stored.{bytes_in, pages_in, BytesVerify};
ghost use Rattle.trio_image.specs.Save.{SaveFails};

use crate::fault::SaveFault;
use crate::image::Image;
use std::alloc::Global;
use trio_io::Files;
use trio_page::{Home, NoMemory, PAGE_SIZE, PageNo, Reads};

impl Image {
    /// Makes the bytes of the image, one page after another, the content of a file. They verify, and
    /// are read as this image again.
    pub fn save<F: Files>(self, alloc: Global, files: &mut F, name: &str) -> Result<(), SaveFault>
        requires { Contains (F.seen files.old).served name.now }
        ensures content { OnOk result ((F.seen files.new).held name.now ≡ told (F.seen files.old).tells (bytes_in self.pages)) }
        ensures verify { BytesVerify (bytes_in self.pages) }
        ensures again { pages_in self.superblock.pages (bytes_in self.pages) ≡ self.pages }
        ensures fault { IfErr result (SaveFails name.now (F.seen files.old) (F.seen files.new)) }
        ensures files { OnlyReplaces name.now (F.seen files.old) (F.seen files.new) }
    {
        let bytes = self.into_bytes(alloc)?;
        match files.replace(name, &bytes) {
            Ok(()) => Ok(()),
            Err(_) => Err(SaveFault::WriteFault),
        }
    }

    /// The bytes of the image, one page after another. They verify, and are read as this image again.
    /// Each page goes as soon as its bytes are copied. `NoMemory`: there was no memory for the bytes.
    pub fn into_bytes(self, alloc: Global) -> Result<Vec<u8>, NoMemory>
        ensures bytes { IfOk result (λ bytes. bytes.items ≡ bytes_in self.pages) }
        ensures verify { BytesVerify (bytes_in self.pages) }
        ensures again { pages_in self.superblock.pages (bytes_in self.pages) ≡ self.pages }
    {
        home_bytes(alloc, self.into_home())
    }
}

/// The bytes of all pages, one after another; an absent page has none. `NoMemory`: there was no
/// memory for the bytes.
fn home_bytes(alloc: Global, home: Home) -> Result<Vec<u8>, NoMemory>
    ensures { IfOk result (λ bytes. bytes.items ≡ bytes_in home.pages) }
{
    let mut home = home;
    let mut reads = Reads::new();
    let mut bytes = Vec::with_capacity(alloc, PAGE_SIZE * home.len())?;
    for i in 0..home.len() as u32 {
        if let Some(page) = home.take(PageNo(i), &mut reads) {
            bytes.extend_from_slice(page.bytes())?;
        }
    }
    Ok(bytes)
}
