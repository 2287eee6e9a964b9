//! The settled image.

ghost use Rattle.std.specs.Prelude.{◌≡◌, ◌≤◌, IfErr, IfOk};
ghost use Rattle.trio_state.specs.Kept.{Kept};
ghost use Rattle.trio_ctl.specs.Answers.{TellsImage, TellsLastImage};
ghost use Rattle.trio_ctl.specs.Ctl.{TellsSettled, writer_of};

use crate::registry::Registry;
use crate::stored::{moved_pages, stored_pages};
use trio_commit::Store;
use trio_image::{Image, ImageParts};
use trio_nodes::Holder;
use trio_page::{Home, NoMemory};

/// Why a settled image isn't told.
#[derive(Clone, Copy, Debug, PartialEq, Eq)]
pub enum ImageFault {
    /// A write grant is out: of those that are, the one of the lowest entry.
    Busy(Holder),
    /// Want of memory.
    NoMemory,
}

impl Registry {
    /// The settled image, as [`Ctl::image`](crate::Ctl::image) says.
    pub fn image(&mut self) -> Result<Image, ImageFault>
        ensures answer { TellsImage (writer_of self.old.state) result }
        ensures image { IfOk result (TellsSettled self.old.state) }
        ensures state { self.new.state ≡ self.old.state }
        ensures floor { self.old.looked ≤ self.new.looked }
        ensures begun { self.new.begun ≡ self.old.begun }
        ensures promised { self.new.promised ≡ self.old.promised }
        ensures kept { Kept self.old.state }
    {
        if let Some(holder) = self.grants.writer() {
            return Err(ImageFault::Busy(holder));
        }
        let superblock = self.superblock();
        let Ok(pages) = stored_pages(
            self.alloc,
            &mut self.store.home,
            &superblock,
            &self.store.rows,
            &self.store.owners,
        ) else {
            return Err(ImageFault::NoMemory);
        };
        let Ok(rows) = self.store.rows.copy(self.alloc) else {
            return Err(ImageFault::NoMemory);
        };
        let Ok(owners) = self.store.owners.copy(self.alloc) else {
            return Err(ImageFault::NoMemory);
        };
        Ok(Image::of(ImageParts {
            home: Home::of(pages),
            rows,
            owners,
        }))
    }

    /// The settled image with the pages of the registry, as [`Ctl::into_image`](crate::Ctl::into_image)
    /// says.
    pub fn into_image(self) -> Result<Image, (Registry, ImageFault)>
        ensures answer { TellsLastImage (writer_of self.state) result (λ back. back.1) }
        ensures image { IfOk result (TellsSettled self.state) }
        ensures back { IfErr result (λ back. back.0.state ≡ self.state) }
        ensures begun { IfErr result (λ back. back.0.begun ≡ self.begun) }
        ensures promised { IfErr result (λ back. back.0.promised ≡ self.promised) }
        ensures floor { IfErr result (λ back. self.looked ≤ back.0.looked) }
        ensures kept { Kept self.state }
    {
        let mut ctl = self;
        if let Some(holder) = ctl.grants.writer() {
            return Err((ctl, ImageFault::Busy(holder)));
        }
        let superblock = ctl.superblock();
        let Ok(pages) = moved_pages(
            ctl.alloc,
            &mut ctl.store.home,
            &superblock,
            &ctl.store.rows,
            &ctl.store.owners,
        ) else {
            return Err((ctl, ImageFault::NoMemory));
        };
        let Store { rows, owners, .. } = ctl.store;
        Ok(Image::of(ImageParts {
            home: Home::of(pages),
            rows,
            owners,
        }))
    }
}
