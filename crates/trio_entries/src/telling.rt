//! What a release tells, by its bundle, its listing and what is noted.

ghost use Rattle.std.specs.Prelude.{◌≡◌, ◌≤◌, ◌<◌, ◌*◌, ◌^◌, [], IsTrue, length, true};
ghost use Rattle.std.specs.List.{list_all};
ghost use Rattle.trio_rights.specs.Bundle.{bundle_pages};
ghost use Rattle.trio_rights.specs.Row.{row_in};
ghost use Rattle.trio_lists.specs.Lists.{are_new};
ghost use Rattle.trio_layout.specs.Allowed.{has_kind};
ghost use Rattle.trio_layout.specs.Listing.{listing as listing_of};
ghost use Rattle.trio_layout.specs.Range.{is_core};
ghost use Rattle.trio_layout.specs.Rules.{meets_rules};
ghost use Rattle.trio_lease.specs.Views.{bundle_in};
ghost use Rattle.trio_state.specs.Listed.{accepted_blocks, accepted_files, refused_blocks, refused_files};
ghost use Rattle.trio_state.specs.Moves.{outline_of};
ghost use Rattle.trio_entries.specs.Handed.{handed_in};
ghost use Rattle.trio_entries.specs.Telling.{whole_case, AreNoted};
ghost use Rattle.trio_entries.specs.inner.Once.{lent_once};

use crate::blocks::{accepted_blocks, refused_blocks};
use crate::draft::{Draft, ToldMemory};
use crate::files::{accepted_files, refused_files};
use crate::notes::Notes;
use trio_case::{Case, Listing};
use trio_layout::CoreRange;
use trio_lease::Bundle;
use trio_nodes::{List, RawBundle, RawFile};
use trio_tables::Shadow;

/// What the entry of a release tells.
#[derive(Drop)]
pub struct Told {
    /// The files, in the order of their numbers.
    pub files: List<RawFile>,
    /// The bundle as it was handed in, with those of the files' blocks that may have changed, in the
    /// order of the files.
    pub bundle: RawBundle,
}

/// What a release tells that is accepted, before it is put in place: each file that was given out, is
/// new, is gone, or has another name, as it stands after the release, and its blocks that may have
/// changed. The rows and the notes are those before the release.
///
/// It looks at the pages of the bundle alone, and at each but a few times. It needs no memory but the
/// draft's.
pub fn accepted(draft: Draft, case: &Case, listing: &Listing, rows: &Shadow, notes: &Notes) -> Told
    requires draft { draft ≡ outline_of (bundle_in case.now.bundle) }
    requires live { list_all (λ f. has_kind f.stands.kind (row_in rows.now f.stands.ino)) case.now.bundle.writes ≡ true }
    requires rules { IsTrue (meets_rules (whole_case case.now rows.now)) }
    requires listed { listing.now.listing ≡ listing_of (whole_case case.now rows.now) }
    requires few { length listing.now.listing.entries ≤ 16 * length (bundle_pages (bundle_in case.now.bundle)) }
    requires noted { AreNoted rows.now notes.now }
    ensures files { result.files ≡ accepted_files (whole_case case.now rows.now) listing.now.listing notes.now }
    ensures handed { result.bundle.handed ≡ handed_in case.now.bundle }
    ensures blocks { result.bundle.blocks ≡ accepted_blocks (whole_case case.now rows.now) listing.now.listing notes.now (handed_in case.now.bundle) result.files }
{
    bounds(case);
    let ToldMemory {
        handed,
        mut files,
        mut blocks,
        mut finder,
    } = draft.into_memory(case);
    let handed = handed.fill(case.bundle());
    finder.look(case, &handed);
    finder.judge(case, listing);
    accepted_files(&mut files, case, listing, rows, notes, &finder);
    accepted_blocks(&mut blocks, case, listing, notes, &finder, &files);
    files.shrink_to_fit();
    Told {
        files: List::from_vec(files),
        bundle: RawBundle::of(handed, blocks),
    }
}

/// What a release tells that is refused: the files that it wrote or held, as they stand still, and
/// those of their blocks that its writer may have changed.
///
/// It looks at the bundle alone. It needs no memory but the draft's.
pub fn refused(draft: Draft, case: &Case, rows: &Shadow, notes: &Notes) -> Told
    requires draft { draft ≡ outline_of (bundle_in case.now.bundle) }
    requires noted { AreNoted rows.now notes.now }
    ensures files { result.files ≡ refused_files (whole_case case.now rows.now) notes.now }
    ensures handed { result.bundle.handed ≡ handed_in case.now.bundle }
    ensures blocks { result.bundle.blocks ≡ refused_blocks (whole_case case.now rows.now) notes.now (handed_in case.now.bundle) result.files }
{
    bounds(case);
    let ToldMemory {
        handed,
        mut files,
        mut blocks,
        mut finder,
    } = draft.into_memory(case);
    let handed = handed.fill(case.bundle());
    finder.look(case, &handed);
    refused_files(&mut files, case, rows, notes);
    refused_blocks(&mut blocks, case, notes, &finder, &files);
    files.shrink_to_fit();
    Told {
        files: List::from_vec(files),
        bundle: RawBundle::of(handed, blocks),
    }
}

/// The pages of a case are less than 2 ^ 32, and its leases and holds are of one file each.
fn bounds(case: &Case)
    ensures pages { length (bundle_pages (bundle_in case.now.bundle)) < 2 ^ 32 }
    ensures once { lent_once case.now ≡ true }
{
    few_pages(case.bundle(), case.range());
}

/// Distinct core pages are less than 2 ^ 32.
fn few_pages(bundle: &Bundle, range: CoreRange)
    requires core { list_all (is_core range) (bundle_pages (bundle_in bundle.now)) ≡ true }
    requires apart { are_new [] (bundle_pages (bundle_in bundle.now)) ≡ true }
    ensures { length (bundle_pages (bundle_in bundle.now)) < 2 ^ 32 }
{
    let (_bundle, _range) = (bundle, range);
}
