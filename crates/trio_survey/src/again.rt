//! Files whose chain is that of one that was passed.

ghost use Rattle.std.specs.Prelude.{◌≡◌, true, false, IfOk, IfSome, replicate, slice_set};
ghost use Rattle.trio_layout.specs.Body.{block_count};
ghost use Rattle.trio_rights.specs.ByKind.{is_directory};
ghost use Rattle.trio_survey.specs.Seen.{met_seen};
ghost use Rattle.trio_survey.specs.inner.Again.{heads_after, heads_of, IsListedBefore};

use crate::file::MetFile;
use std::alloc::Global;
use trio_layout::{Body, CoreRange};
use trio_page::NoMemory;
use trio_rights::Kind;

/// Where the chains of files that were passed begin: by page number, how many blocks one of them has,
/// and 0 where none begins.
#[derive(Drop)]
pub struct Heads {
    /// Those of other files.
    pub other: Vec<u64>,
    pub directory: Vec<u64>,
}

impl Heads {
    /// No file was passed, in an image of so many pages.
    pub fn none(alloc: Global, pages: u32) -> Result<Heads, NoMemory>
        ensures other { IfOk result (λ h. h.other.items ≡ replicate pages 0) }
        ensures directory { IfOk result (λ h. h.directory.items ≡ replicate pages 0) }
    {
        Ok(Heads {
            other: vec![in alloc; 0; pages as usize]?,
            directory: vec![in alloc; 0; pages as usize]?,
        })
    }

    /// Those of directories, or of other files, as a file of this kind is.
    pub fn of(&self, kind: Kind) -> &[u64]
        ensures { result.now ≡ heads_of self.now (is_directory kind) }
    {
        if kind.is_directory() {
            &self.directory
        } else {
            &self.other
        }
    }

    /// Notes where the chain of a file of this kind begins.
    pub fn note(&mut self, kind: Kind, body: &Body)
        ensures other { self.new.other.items ≡ heads_after false self.old.other.items (is_directory kind) body.now }
        ensures directory { self.new.directory.items ≡ heads_after true self.old.directory.items (is_directory kind) body.now }
    {
        if kind.is_directory() {
            note_head(&mut self.directory, body);
        } else {
            note_head(&mut self.other, body);
        }
    }
}

fn note_head(heads: &mut Vec<u64>, body: &Body)
    ensures { heads.new.items ≡ slice_set heads.old.items body.now.head (block_count body.now.size) }
{
    let head = body.head as usize;
    if head < heads.len() {
        heads[head] = body.blocks();
    }
}

/// The body of a file whose chain begins where one of as many blocks was passed. `heads` are those of
/// directories or of other files, as the file is.
pub(crate) fn listed_before(heads: &[u64], range: CoreRange, met: &MetFile) -> Option<Body>
    ensures { IfSome result (IsListedBefore range heads.now (met_seen met.now)) }
{
    let body = Body::read(&met.body, met.kind, range)?;
    let blocks = body.blocks();
    match heads.get(body.head as usize) {
        Some(passed) if blocks > 0 && *passed == blocks => Some(body),
        _ => None,
    }
}
