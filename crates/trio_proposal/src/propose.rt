//! What a bundle proposes, as tables by inode number and by page.

ghost use Rattle.std.specs.Prelude.{◌≡◌, OnOk, IfOk, length};
ghost use Rattle.trio_lease.specs.Views.{bundle_in};
ghost use Rattle.trio_rights.specs.Bundle.{bundle_sheets};
ghost use Rattle.trio_rights.specs.Sheets.{with_pages};
ghost use Rattle.trio_proposal.specs.inner.Steps.{ArePlaced, AreWithin};
ghost use Rattle.trio_proposal.specs.inner.Proposes.{Proposes};

use crate::allowed::BundleTables;
use crate::marks::number_marks;
use crate::pages::put_bundle;
use crate::picks::{Bodies, kept_bodies, picks_of, root_body, written_bodies};
use std::alloc::Global;
use trio_lease::Bundle;
use trio_page::{Home, NoMemory, Reads};
use trio_survey::Picks;
use trio_tables::Shadow;

/// What a bundle proposes beside its pages.
#[derive(Drop)]
pub(crate) struct Proposal {
    /// The body of the root.
    pub root: [u8; 64],
    /// The body that each live number keeps.
    pub kept: Bodies,
    /// The same, picked at the places of the rows.
    pub picks: Picks,
    /// What the bundle has.
    pub handed: BundleTables,
}

/// Puts copies of the bundle's pages in their places, and answers what else the bundle proposes.
pub(crate) fn propose(
    alloc: Global,
    home: &mut Home,
    root: &[u8; 64],
    rows: &Shadow,
    bundle: &Bundle,
    reads: &mut Reads,
) -> Result<Proposal, NoMemory>
    requires placed { ArePlaced home.old.pages rows.now }
    requires within { AreWithin (length home.old.pages) (bundle_sheets (bundle_in bundle.now)) }
    ensures proposes { IfOk result (Proposes home.old.pages root.now rows.now bundle.now) }
    ensures pages { OnOk result (home.new.pages ≡ with_pages (bundle_sheets (bundle_in bundle.now)) home.old.pages) }
{
    let inodes = rows.inodes();
    let written = written_bodies(alloc, bundle.writes(), inodes)?;
    let kept = kept_bodies(alloc, home, root, rows, &written, reads)?;
    let picks = picks_of(alloc, rows, &kept)?;
    let root = root_body(&written, root);
    let numbers = number_marks(alloc, bundle.inodes(), inodes)?;
    let pages = put_bundle(alloc, bundle, home)?;
    Ok(Proposal {
        root,
        kept,
        picks,
        handed: BundleTables {
            written,
            numbers,
            pages,
        },
    })
}
