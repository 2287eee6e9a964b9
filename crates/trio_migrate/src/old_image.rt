//! An image of version 1 that verifies.

ghost use Rattle.std.specs.Prelude.{◌≡◌, ◌≢◌, IfErr, IfOk};
ghost use Rattle.trio_layout.specs.declared.superblock.Superblock.{Superblock};
ghost use Rattle.trio_state.specs.ImageNodes.{nodes_of};
ghost use Rattle.trio_survey.specs.OldVersion.{old_version, OldPagesVerify};
ghost use Rattle.trio_survey.specs.Stored.{bytes_in, image_in};
ghost use Rattle.trio_image.specs.Counts.{counts_of};
ghost use Rattle.trio_image.specs.Image.{IsVerified, IsWholeImageOf, TablesAre};
ghost use Rattle.trio_migrate.specs.Migrated.{migrated, migrated_pages};
ghost use Rattle.trio_migrate.specs.inner.OldFault.{IsOldPagesFault};
ghost use Rattle.trio_migrate.specs.OldImage.{IsOldVerified};

use std::alloc::Global;
use std::marker::Model;
use trio_image::{Image, ImageParts, LoadFault};
use trio_layout::{Superblock, VERSION};
use trio_page::field::put_u32_in;
use trio_page::{Home, PageNo, Reads};
use trio_survey::verify_old;

/// An image of version 1 that verifies, with just the pages that its superblock tells, none absent. It
/// keeps the tables that its verification found.
///
/// Contracts see its superblock and its pages by number, each as its bytes.
pub struct OldImage {
    superblock: Superblock,
    parts: ImageParts,
}

impl Drop for OldImage {
    fn drop(self) {
        let OldImage {
            superblock: _,
            parts: _,
        } = self;
    }
}

impl Model for OldImage {
    ghost use Rattle.trio_image.specs.Image.{ImagePages, TablesAre};
    ghost use Rattle.trio_migrate.specs.OldImage.{IsOldVerified};

    ghost Value = { ImagePages };

    ghost view = { λ i. record { superblock = i.superblock; pages = i.parts.home.pages } };

    ghost invariant = { λ i. IsOldVerified i.superblock i.parts.home.pages
        × TablesAre i.superblock i.parts.home.pages i.parts.rows i.parts.owners };
}

impl OldImage {
    /// The image of version 1 of these pages, of which the first is this superblock; or, exactly where
    /// they don't verify by that version, why. After a fault the pages are gone.
    pub(crate) fn from_pages(
        alloc: Global,
        superblock: Superblock,
        home: Home,
    ) -> Result<OldImage, LoadFault>
        requires { IsWholeImageOf old_version superblock home.pages }
        ensures image { IfOk result (λ image. image ≡ record { superblock = superblock; pages = home.pages }) }
        ensures verify { IfOk result (λ image. OldPagesVerify superblock home.pages) }
        ensures fault { IfErr result (IsOldPagesFault superblock home.pages) }
    {
        let mut home = home;
        let found = verify_old(alloc, &mut home, &superblock, &mut Reads::new())?;
        Ok(OldImage {
            superblock,
            parts: ImageParts {
                home,
                rows: found.rows,
                owners: found.owners,
            },
        })
    }

    /// The image of today's version with the same bytes, but for the version on its first page. It has
    /// the same nodes and counts. Takes no memory.
    pub fn migrate(self) -> Image
        ensures superblock { result.superblock ≡ self.superblock }
        ensures pages { result.pages ≡ migrated_pages self.pages }
        ensures verified { IsVerified result.superblock result.pages }
        ensures bytes { bytes_in result.pages ≡ migrated (bytes_in self.pages) }
        ensures counts { counts_of (image_in result.superblock result.pages) ≡ counts_of (image_in self.superblock self.pages) }
        ensures nodes { nodes_of (image_in result.superblock result.pages) ≡ nodes_of (image_in self.superblock self.pages) }
    {
        let OldImage {
            superblock: _,
            parts,
        } = self;
        let ImageParts { home, rows, owners } = parts;
        let home = with_version(home);
        Image::of(ImageParts { home, rows, owners })
    }
}

/// The home with today's version on its first page.
fn with_version(home: Home) -> Home
    ensures { result.pages ≡ migrated_pages home.pages }
{
    let mut home = home;
    if let Some(page) = home.take(PageNo(0), &mut Reads::new()) {
        let mut page = page;
        put_u32_in(page.bytes_mut(), 8, VERSION);
        home.put(PageNo(0), page);
    }
    home
}
