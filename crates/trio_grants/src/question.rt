//! What the table's look-ups ask of a grant.

ghost use Rattle.std.specs.Prelude.{◌≡◌};
ghost use Rattle.trio_nodes.specs.GrantKinds.{excludes_kind};
ghost use Rattle.trio_grants.specs.inner.Search.{meets};

use crate::grant::Grant;
use trio_nodes::GrantKind;
use trio_rights::LibNo;

/// A question about one grant.
#[derive(Drop)]
pub(crate) enum Question {
    /// Does it exclude a grant of this kind, asked by this library on this file?
    Excludes(LibNo, u32, GrantKind),
    /// Is it on this file?
    On(u32),
    /// Is it on this file, and of another library than this?
    OnBut(u32, LibNo),
    /// Is it a write grant?
    Writes,
    /// Is it this library's on this file, of this kind?
    Is(LibNo, u32, GrantKind),
}

impl Question {
    /// Whether the answer is yes of `grant`.
    pub(crate) fn is_met_by(&self, grant: &Grant) -> bool
        ensures { result ≡ meets self.now grant.now }
    {
        match self {
            Question::Excludes(lib, ino, kind) => {
                grant.ino == *ino && excludes(*kind, grant.kind, grant.lib == *lib)
            }
            Question::On(ino) => grant.ino == *ino,
            Question::OnBut(ino, but) => grant.ino == *ino && grant.lib != *but,
            Question::Writes => grant.kind == GrantKind::Write,
            Question::Is(lib, ino, kind) => {
                grant.lib == *lib && grant.ino == *ino && grant.kind == *kind
            }
        }
    }
}

/// Whether an open grant excludes one that is asked on the same file, by the kinds of both and by
/// whether they are of the same library.
fn excludes(asked: GrantKind, standing: GrantKind, same_library: bool) -> bool
    ensures { result ≡ excludes_kind asked standing same_library }
{
    match (asked, standing) {
        (GrantKind::Read, GrantKind::Read) => same_library,
        _ => true,
    }
}
