//! The judgement of a bundle.

ghost use Rattle.std.specs.Prelude.{◌≡◌, ℕ, List, [], IfOk, true, false};
ghost use Rattle.trio_layout.specs.Accept.{is_accepted, next};
ghost use Rattle.trio_lease.specs.Views.{bundle_in};
ghost use Rattle.trio_proposal.specs.Judgement.{CanBeJudged, IfAccepted, IfRefused, IsImage, image_of};

use crate::allowed::is_allowed;
use crate::place::place_bodies;
use crate::propose::{Proposal, propose};
use std::alloc::Global;
use trio_layout::CoreRange;
use trio_lease::Bundle;
use trio_page::{Home, NoMemory, Reads};
use trio_rights::Creds;
use trio_survey::{SurveyFault, survey_picked};
use trio_tables::{Owners, Shadow};

/// The image that stands once a bundle was accepted.
#[derive(Drop)]
pub struct NextImage {
    /// The pages, with each picked body at its place.
    pub pages: Home,
    /// The body of the root.
    pub root: [u8; 64],
    /// The row of each inode number.
    pub rows: Shadow,
    /// The owner of each page.
    pub owners: Owners,
}

/// What becomes of a bundle.
#[derive(Drop)]
pub enum Verdict {
    /// The image that it proposes is sound, and the change is allowed.
    Accepted(NextImage),
    /// It is not.
    Refused,
}

/// Judges a bundle of a library with these credentials against the settled image: its pages, handed
/// in as copies, the root's body, the core pages and the rows.
///
/// The image and the bundle are as a controller has them (`CanBeJudged` of `specs/Judgement.antt`).
/// No page of the bundle is moved. `NoMemory`: there was no memory for the judgement.
pub fn judge(
    alloc: Global,
    mut settled: Home,
    root: &[u8; 64],
    range: CoreRange,
    rows: &Shadow,
    creds: Creds,
    bundle: &Bundle,
    reads: &mut Reads,
) -> Result<Verdict, NoMemory>
    requires { CanBeJudged (image_of settled.pages root.now range rows.now []) (bundle_in bundle.now) }
    ensures accepted { (owners : List ℕ) → IfOk result
        (IfAccepted (λ n. is_accepted (image_of settled.pages root.now range rows.now owners) creds (bundle_in bundle.now) ≡ true)) }
    ensures next { (owners : List ℕ) → IfOk result
        (IfAccepted (IsImage (next (image_of settled.pages root.now range rows.now owners) (bundle_in bundle.now)))) }
    ensures refused { (owners : List ℕ) → IfOk result
        (IfRefused (is_accepted (image_of settled.pages root.now range rows.now owners) creds (bundle_in bundle.now) ≡ false)) }
{
    let proposal = propose(alloc, &mut settled, root, rows, bundle, reads)?;
    let Proposal {
        root,
        kept,
        picks,
        handed,
    } = proposal;
    let inodes = rows.inodes();
    let found = match survey_picked(alloc, &mut settled, &root, range, inodes, &picks, reads) {
        Ok(found) => found,
        Err(SurveyFault::NoMemory) => return Err(NoMemory),
        Err(SurveyFault::Fails { .. }) => return Ok(Verdict::Refused),
    };
    if !is_allowed(rows, &found, range, creds, &handed) {
        return Ok(Verdict::Refused);
    }
    place_bodies(&mut settled, rows, &kept, reads);
    Ok(Verdict::Accepted(NextImage {
        pages: settled,
        root,
        rows: found.rows,
        owners: found.owners,
    }))
}
