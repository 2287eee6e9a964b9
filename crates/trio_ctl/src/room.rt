//! What a release needs.

ghost use Rattle.std.specs.Prelude.{◌≡◌, ◌+◌, ℕ};
ghost use Rattle.trio_lease.specs.Views.{bundle_in};
ghost use Rattle.trio_state.specs.Given.{GivenTo};
ghost use Rattle.trio_ctl.specs.Room.{room_for};

use crate::registry::Registry;
use trio_lease::Bundle;
use trio_open::room::{page_count, value_count};

/// The bytes for each page and each inode number of the image.
const NUMBER_ROOM: u64 = 4;

/// The bytes for each page of a bundle.
const PAGE_ROOM: u64 = 16384;

/// The bytes for a release, and for each write lease, hold and inode number of a bundle.
const VALUE_ROOM: u64 = 1024;

impl Registry {
    /// What one release of a bundle needs, as [`Ctl::room`](crate::Ctl::room) says.
    pub(crate) fn room(&self, bundle: &Bundle) -> u64
        requires { (lib : ℕ) × GivenTo self.now.state lib (bundle_in bundle.now) }
        ensures { result ≡ room_for self.now.state.home.core (bundle_in bundle.now) }
    {
        let pages = self.range().end;
        let inodes = self.store.rows.inodes();
        NUMBER_ROOM * (u64::from(pages) + u64::from(inodes))
            + PAGE_ROOM * page_count(bundle)
            + VALUE_ROOM * (1 + value_count(bundle))
    }
}
