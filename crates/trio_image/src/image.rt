//! An image that verifies.

ghost use Rattle.std.specs.Prelude.{◌≡◌, IfOk};
ghost use Rattle.trio_layout.specs.declared.superblock.Superblock.{Superblock};
ghost use Rattle.trio_survey.specs.Stored.{image_in, HasSuperblock};
ghost use Rattle.trio_image.specs.Counts.{counts_of};
ghost use Rattle.trio_image.specs.Image.{IsVerified, TablesAre};
ghost use Rattle.trio_state.specs.ImageNodes.{nodes_of, notes_by_rows};

use crate::counts::{Counts, counts_in};
use crate::nodes::nodes_in;
use crate::notes::notes_in;
use std::alloc::Global;
use std::marker::Model;
use trio_layout::Superblock;
use trio_nodes::{Nodes, Note};
use trio_page::{Home, NoMemory, PageNo, Reads};
use trio_tables::{Owners, Shadow};

/// An image that verifies, with just the pages that its superblock tells, none absent. It keeps the
/// tables that its verification found.
///
/// Contracts see its superblock and its pages by number, each as its bytes (`ImagePages` of
/// `specs/Image.antt`).
pub struct Image {
    superblock: Superblock,
    parts: ImageParts,
}

/// The pages of an image and its tables.
#[derive(Drop)]
pub struct ImageParts {
    pub home: Home,
    /// The row of each live inode number.
    pub rows: Shadow,
    /// The owner of each page.
    pub owners: Owners,
}

impl Drop for Image {
    fn drop(self) {
        let Image {
            superblock: _,
            parts: _,
        } = self;
    }
}

impl Model for Image {
    ghost use Rattle.trio_image.specs.Image.{ImagePages, IsVerified, TablesAre};

    ghost Value = { ImagePages };

    ghost view = { λ i. record { superblock = i.superblock; pages = i.parts.home.pages } };

    ghost invariant = { λ i. IsVerified i.superblock i.parts.home.pages
        × TablesAre i.superblock i.parts.home.pages i.parts.rows i.parts.owners };
}

impl Image {
    /// The image of a home that verifies, with just the superblock's pages, none absent, and of its
    /// tables. Takes no memory.
    pub fn of(parts: ImageParts) -> Image
        requires { (s : Superblock) × IsVerified s parts.home.pages × TablesAre s parts.home.pages parts.rows parts.owners }
        ensures pages { result.pages ≡ parts.home.pages }
        ensures verified { IsVerified result.superblock result.pages }
        ensures superblock { (s : Superblock) → HasSuperblock s parts.home.pages → result.superblock ≡ s }
    {
        let mut parts = parts;
        let superblock = superblock_of(&mut parts.home);
        Image { superblock, parts }
    }

    /// The image of a home whose first page says this superblock.
    pub(crate) fn sealed(superblock: Superblock, parts: ImageParts) -> Image
        requires verified { IsVerified superblock parts.home.pages }
        requires tables { TablesAre superblock parts.home.pages parts.rows parts.owners }
        ensures { result ≡ record { superblock = superblock; pages = parts.home.pages } }
    {
        Image { superblock, parts }
    }

    /// The home with the pages of the image, and its tables. Takes no memory.
    pub fn into_parts(self) -> ImageParts
        ensures pages { result.home.pages ≡ self.pages }
        ensures verified { IsVerified self.superblock self.pages }
        ensures tables { TablesAre self.superblock self.pages result.rows result.owners }
    {
        let Image {
            superblock: _,
            parts,
        } = self;
        parts
    }

    /// The home with the pages of the image. Takes no memory.
    pub fn into_home(self) -> Home
        ensures pages { result.pages ≡ self.pages }
        ensures verified { IsVerified self.superblock self.pages }
    {
        self.into_parts().home
    }

    /// What the image has in use. The pages are not read.
    pub fn counts(&self) -> Counts
        ensures { result ≡ counts_of (image_in self.now.superblock self.now.pages) }
    {
        counts_in(&self.parts.rows, &self.parts.owners)
    }

    /// The files of the image as nodes, with the bytes of regular files and links. The image stays as it was.
    /// `NoMemory`: there was no memory for the nodes.
    pub fn nodes(&mut self, alloc: Global) -> Result<Nodes, NoMemory>
        ensures nodes { IfOk result (λ nodes. nodes ≡ nodes_of (image_in self.old.superblock self.old.pages)) }
        ensures image { self.new ≡ self.old }
    {
        nodes_in(
            alloc,
            &mut self.parts.home,
            &self.superblock,
            &self.parts.rows,
        )
    }

    /// The name, the size and the guard of each live file by inode number, from 0 on, which is no file's. Of each
    /// file its slot alone is looked at, and none of its pages. The image stays as it was.
    /// `NoMemory`: there was no memory for the list.
    pub fn notes(&mut self, alloc: Global) -> Result<Vec<Option<Note>>, NoMemory>
        ensures notes { let image = image_in self.old.superblock self.old.pages in IfOk result (λ notes. notes.items ≡ notes_by_rows image.core image.rows) }
        ensures image { self.new ≡ self.old }
    {
        notes_in(
            alloc,
            &mut self.parts.home,
            &self.superblock,
            &self.parts.rows,
        )
    }

    /// What the first page says.
    pub fn superblock(&self) -> Superblock
        ensures superblock { result ≡ self.now.superblock }
        ensures verified { IsVerified self.now.superblock self.now.pages }
    {
        self.superblock
    }
}

/// What the first page at home says, which is a superblock.
fn superblock_of(home: &mut Home) -> Superblock
    requires { (s : Superblock) × HasSuperblock s home.old.pages }
    ensures pages { home.new.pages ≡ home.old.pages }
    ensures superblock { HasSuperblock result home.old.pages }
{
    let page = home.page(PageNo(0), &mut Reads::new()).unwrap();
    Superblock::read(page).unwrap()
}
