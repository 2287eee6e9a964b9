//! What a release handed in, with the data blocks that it tells.

ghost use Rattle.std.specs.Prelude.{◌≡◌, length, map, slice_get};
ghost use Rattle.std.specs.Option.{option_map};
ghost use Rattle.trio_nodes.specs.Told.{block_in, block_told};

use crate::entry::Handed;
use std::marker::Model;

/// A data block that a release tells, by the page that was handed in for it.
#[derive(Clone, Copy)]
pub struct PlacedBlock {
    /// The inode number of its file, which is no directory.
    pub ino: u32,
    /// Its position in the file, counted from 0.
    pub at: u32,
    /// Where its page stands among all that were handed in ([`Handed::pages`]), counted from 0.
    pub place: usize,
}

/// A data block of a release: block `at` of a regular file or a link, counted from 0.
#[derive(Clone, Copy)]
pub struct RawBlock<'a> {
    pub ino: u32,
    pub at: u32,
    pub bytes: &'a [u8],
}

/// A bundle as it was handed in, and those data blocks of files that it tells. The bytes of a block are
/// those of its page, of which there is no copy.
///
/// Contracts see both, each block with its bytes (`ToldBundle` of `specs/Told.antt`).
#[derive(Drop)]
pub struct RawBundle {
    handed: Handed,
    blocks: Vec<PlacedBlock>,
}

impl Model for RawBundle {
    ghost use Rattle.std.specs.Prelude.{map};
    ghost use Rattle.trio_nodes.specs.Told.{block_in, ToldBundle};

    ghost Value = { ToldBundle };

    ghost view = { λ b. record { handed = b.handed; blocks = map (block_in b.handed) b.blocks.items } };
}

impl RawBundle {
    /// What was handed in, with blocks by the places of their pages. A block for which there is no page
    /// has no bytes. It takes no memory.
    pub fn of(handed: Handed, blocks: Vec<PlacedBlock>) -> RawBundle
        ensures { result ≡ record { handed = handed; blocks = map (block_in handed) blocks.items } }
    {
        RawBundle { handed, blocks }
    }

    /// The bundle as it was handed in.
    pub fn handed(&self) -> &Handed
        ensures { result.now ≡ self.now.handed }
    {
        &self.handed
    }

    /// The bundle as it was handed in, by move.
    pub fn into_handed(self) -> Handed
        ensures { result ≡ self.handed }
    {
        let RawBundle { handed, blocks: _ } = self;
        handed
    }

    /// How many blocks it tells.
    pub fn blocks_len(&self) -> usize
        ensures { result ≡ length self.now.blocks }
    {
        self.blocks.len()
    }

    /// Block `i` of those that it tells, counted from 0; `None` exactly past the last.
    pub fn block(&self, i: usize) -> Option<RawBlock<'_>>
        ensures { option_map block_told result ≡ slice_get self.now.blocks i }
    {
        let block = self.blocks.get(i)?;
        let bytes: &[u8] = match self.handed.pages().get(block.place) {
            Some(page) => page.bytes.as_slice(),
            None => &[],
        };
        Some(RawBlock {
            ino: block.ino,
            at: block.at,
            bytes,
        })
    }
}
