//! What a value of the cell is to a contract.

ghost use Rattle.std.specs.Prelude.{◌≡◌, ℕ, List, length};

use std::marker::Model;
use trio_nodes::List;
use trio_rights::{Creds, Kind};

/// What a value began from: its image, and the credentials of the libraries, of library 1 first.
///
/// It is in contracts alone, as `Origin` of `specs/Origins.antt`: no value of it is made.
pub struct Origin {
    creds: List<Creds>,
}

impl Model for Origin {
    ghost use Rattle.trio_turn.specs.Origins.{Origin, no_image};

    ghost Value = { Origin };

    ghost view = { λ o. record { image = no_image; creds = o.creds } };
}

/// A release that has begun and not ended, by what was handed in. It is in contracts alone.
pub struct Begun {
    pub leases: List<BegunLease>,
    /// The inode numbers of the held files.
    pub holds: List<u32>,
    /// The numbers of the allotted pages.
    pub pages: List<u32>,
    /// The allotted inode numbers.
    pub numbers: List<u32>,
}

/// A write lease of such a release. What stands in its pages is not said.
pub struct BegunLease {
    /// The inode number of the file.
    pub ino: u32,
    pub kind: Kind,
    /// The number of the entry that granted it, counted from 0.
    pub entry: u64,
    /// The page numbers of the file's index pages, in order.
    pub index: List<u32>,
    /// The page numbers of the file's blocks, in order.
    pub blocks: List<u32>,
}

/// A value with a history.
///
/// Contracts see three things of it: what it began from, the list of its entries, and for each
/// library the release that the library has begun and not ended, if there is one.
pub trait Logged {
    ghost use Rattle.std.specs.Prelude.{Option};
    ghost use Rattle.trio_nodes.specs.declared.entry.Entry.{Entry};
    ghost use Rattle.trio_turn.specs.declared.logged.Begun.{Begun};
    ghost use Rattle.trio_turn.specs.Origins.{Origin};

    // What the value began from.
    ghost first: { Self → Origin };

    // All entries that the value has, in order.
    ghost log: { Self → List Entry };

    // The release that a library, by its number, has begun and not ended.
    ghost begun: { Self → ℕ → Option Begun };

    /// How many entries the value has.
    fn len(&self) -> u64
        ensures { result ≡ length (log self.now) };
}
