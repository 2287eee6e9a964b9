//! Whether what a bundle has was given to a library.

ghost use Rattle.std.specs.Prelude.{◌≡◌, ◌↔◌, ◌==◌, IsTrue, Some};
ghost use Rattle.std.specs.List.{list_all};
ghost use Rattle.trio_layout.specs.Allowed.{has_kind};
ghost use Rattle.trio_lease.specs.Views.{bundle_in};
ghost use Rattle.trio_state.specs.Given.{GivenTo};
ghost use Rattle.trio_commit.specs.Store.{checkpoint_at};
ghost use Rattle.trio_open.specs.Belonging.{Belongs};
ghost use Rattle.trio_ctl.specs.Ctl.{IsLibrary};
ghost use Rattle.trio_ctl.specs.HandedIn.{WereHeld};
ghost use Rattle.trio_ctl.specs.inner.Belonging.{are_given_by, is_lease_by};
ghost use Rattle.trio_open.specs.inner.Given.{has_pages_of, stand_once, writes_since};

use crate::registry::Registry;
use trio_commit::Store;
use trio_grants::GrantTable;
use trio_lease::{Bundle, WriteLease};
use trio_open::belongs::{
    are_held, are_inodes_out, are_pages_out, has_chain, has_kind, stand_once, writes_since,
};
use trio_open::open::OpenFile;
use trio_rights::LibNo;

impl Registry {
    /// Whether all of a bundle was given to this library, as [`Ctl::belongs`](crate::Ctl::belongs) says.
    pub fn belongs(&self, lib: LibNo, bundle: &Bundle) -> bool
        requires library { IsLibrary lib self.now.state }
        ensures exactly { IsTrue result ↔ Belongs self.now.state lib.0 bundle.now }
        ensures given { IsTrue result → GivenTo self.now.state lib.0 (bundle_in bundle.now) × WereHeld self.now.state lib.0 bundle.now.holds }
    {
        are_given(&self.grants, &self.files, &self.store, lib, bundle) && stand_once(bundle)
    }
}

/// Whether each thing of a bundle was given to the library, and is out.
fn are_given(
    grants: &GrantTable,
    files: &[OpenFile],
    store: &Store,
    lib: LibNo,
    bundle: &Bundle,
) -> bool
    ensures { result ≡ are_given_by grants.now files.now store.now lib bundle.now }
{
    are_lent(grants, store, lib, bundle.writes())
        && are_held(files, lib, bundle.holds())
        && are_pages_out(&store.allotments, lib, bundle.pages())
        && are_inodes_out(&store.allotments, lib, bundle.inodes())
}

fn are_lent(grants: &GrantTable, store: &Store, lib: LibNo, leases: &[WriteLease]) -> bool
    ensures { result ≡ list_all (λ f. is_lease_by grants.now store.now lib f.stands) leases.now }
{
    leases
        .iter()
        .all(|lease| is_lent(grants, store, lib, lease))
}

/// Whether a write lease is that of an open write grant of the library: each write grant is the only
/// one on its file, and the checkpoint of the file has the numbers of the pages that were lent.
fn is_lent(grants: &GrantTable, store: &Store, lib: LibNo, lease: &WriteLease) -> bool
    ensures { result ≡ is_lease_by grants.now store.now lib lease.now.stands }
{
    lease.lib() == lib
        && writes_since(lib, lease.entry(), grants.holder_of(lease.ino(), None))
        && has_kind(&store.rows, lease.kind(), lease.ino())
        && has_pages(store, lease)
}

/// Whether a write lease has the pages that were lent of its file.
fn has_pages(store: &Store, lease: &WriteLease) -> bool
    ensures { result ≡ has_pages_of lease.now.stands (checkpoint_at store.now.checkpoints.items lease.now.stands.ino) }
{
    match store.checkpoints.get(lease.ino() as usize) {
        Some(Some(checkpoint)) => has_chain(lease, checkpoint),
        _ => false,
    }
}
