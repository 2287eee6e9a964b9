//! How a file lies in the settled image.

ghost use Rattle.std.specs.Prelude.{◌≡◌, ◌≤◌};
ghost use Rattle.trio_layout.specs.Body.{block_count};
ghost use Rattle.trio_state.specs.State.{settled};
ghost use Rattle.trio_ctl.specs.Extents.{extent_in, extent_of};

use crate::ctl::Ctl;
use trio_nodes::Note;
use trio_rights::Kind;

/// How a live file lies in the settled image.
#[derive(Clone, Copy, Debug, PartialEq, Eq)]
pub struct Extent {
    pub kind: Kind,
    /// Whether the file is guarded.
    pub guarded: bool,
    /// How many index pages it has.
    pub index: u32,
    /// How many blocks it has.
    pub blocks: u32,
}

impl Ctl {
    /// How the file of this number lies in the settled image, by its settled body: what a writer has made
    /// of a body that is out doesn't count. `None` exactly where the number isn't live.
    ///
    /// It looks at no page and takes no memory, since the controller keeps the kind, the size and the
    /// guard of each live file.
    pub fn extent(&self, ino: u32) -> Option<Extent>
        ensures { result ≡ extent_in (settled self.now.state) ino }
    {
        let row = self.registry.rows().row(ino)?;
        let note = self.notes.get(ino)?;
        self.registry.is_within_limits();
        Some(extent_of(row.kind, &note))
    }
}

/// How a file of this kind lies, of which this is noted.
fn extent_of(kind: Kind, note: &Note) -> Extent
    requires { block_count note.now.size ≤ 8192 }
    ensures { result ≡ extent_of kind note.now.guard note.now.size }
{
    let blocks = note.size.div_ceil(4096) as u32;
    Extent {
        kind,
        guarded: note.guard,
        index: blocks.div_ceil(511),
        blocks,
    }
}
