//! An open grant.

ghost use Rattle.std.specs.Prelude.{◌≡◌};
ghost use Rattle.trio_grants.specs.Grants.{holder};

use trio_nodes::{GrantKind, Holder};
use trio_rights::LibNo;

/// An open grant, with the file that it is on. The table keeps such values and contracts name them.
#[derive(Clone, Copy, Debug, PartialEq, Eq)]
pub struct Grant {
    /// The library that has the grant.
    pub lib: LibNo,
    /// The inode number of the file.
    pub ino: u32,
    pub kind: GrantKind,
    /// The number of the log entry that opened it, counted from 0.
    pub entry: u64,
}

impl Grant {
    /// The grant as others are told of it, without its file.
    pub(crate) fn holder(&self) -> Holder
        ensures { result ≡ holder self.now }
    {
        Holder {
            lib: self.lib,
            kind: self.kind,
            entry: self.entry,
        }
    }
}
