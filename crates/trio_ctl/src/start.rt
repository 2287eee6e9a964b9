//! The start of a controller.

ghost use Rattle.std.specs.Prelude.{◌≡◌, ◌≤◌, ◌+◌, IfErr, IfOk, None, length, replicate, vec_len};
ghost use Rattle.trio_state.specs.Kept.{Kept};
ghost use Rattle.trio_state.specs.Run.{start};
ghost use Rattle.trio_survey.specs.Stored.{image_in};

use crate::registry::Registry;
use std::alloc::Global;
use trio_allot::Allotments;
use trio_checkpoint::Checkpoint;
use trio_commit::Store;
use trio_grants::GrantTable;
use trio_image::{Image, ImageParts};
use trio_open::history::History;
use trio_page::NoMemory;
use trio_rights::Creds;

impl Registry {
    /// The registry of an image, as [`Ctl::start`](crate::Ctl::start) says.
    pub fn start(
        alloc: Global,
        image: Image,
        libs: Vec<Creds>,
    ) -> Result<Registry, (Image, NoMemory)>
        requires some { 1 ≤ vec_len libs }
        requires few { vec_len libs ≤ 16 }
        ensures started { IfOk result (λ ctl. ctl.state ≡ start (image_in image.superblock image.pages) libs.items) }
        ensures kept { IfOk result (λ ctl. Kept ctl.state) }
        ensures begun { IfOk result (λ ctl. ctl.begun ≡ replicate (length libs.items) None) }
        ensures promised { IfOk result (λ ctl. ctl.promised ≡ 0) }
        ensures back { IfErr result (λ back. back.0 ≡ image) }
    {
        let superblock = image.superblock();
        let Ok(allotments) = Allotments::new(alloc, superblock.pages, superblock.inodes) else {
            return Err((image, NoMemory));
        };
        // a place for a checkpoint at each inode number, and at 0
        let Ok(checkpoints) = empty_places(alloc, superblock.inodes as usize + 1) else {
            return Err((image, NoMemory));
        };
        let Ok(begun) = empty_places(alloc, libs.len()) else {
            return Err((image, NoMemory));
        };
        let root = superblock.root;
        let ImageParts { home, rows, owners } = image.into_parts();
        Ok(Registry {
            alloc,
            store: Store {
                home,
                root,
                rows,
                owners,
                allotments,
                checkpoints,
            },
            first_core: superblock.first_core,
            grants: GrantTable::new(alloc),
            files: Vec::new(alloc),
            libs,
            begun,
            history: History::new(),
        })
    }
}

// So many places, at which nothing stands. `NoMemory`: there was no memory for them.
fn empty_places<T: Drop>(alloc: Global, count: usize) -> Result<Vec<Option<T>>, NoMemory>
    ensures { IfOk result (λ places. places.items ≡ replicate count None) }
{
    let mut places = Vec::with_capacity(alloc, count)?;
    for _i in 0..count {
        places.push(None)?;
    }
    Ok(places)
}
