//! Images of version 1.

ghost use Rattle.std.specs.Prelude.{◌≡◌, ◌+◌, ◌≤◌, ℕ, List, None, IfErr, IfOk, IsTrue, OnOk, if◌then◌else◌, map};
ghost use Rattle.std.specs.List.{flat_map};
ghost use Rattle.trio_layout.specs.Superblock.{superblock_fits};
ghost use Rattle.trio_survey.specs.OldVersion.{first_link, new_place, IsOldDenied, OldPagesVerify};
ghost use Rattle.trio_survey.specs.Stored.{image_in};
ghost use Rattle.trio_survey.specs.inner.Blocks.{entries_kept, entry_seen, HasParts};
ghost use Rattle.trio_survey.specs.inner.Files.{file_kept};
ghost use Rattle.trio_survey.specs.inner.Old.{place_unknown};

use crate::blocks::{DirEntry, KeptBlocks};
use crate::fault::SurveyFault;
use crate::file::{FilePages, listing_blocks};
use crate::marks::place_of;
use crate::picks::Picks;
use crate::verdict::compare;
use crate::walk::CoreFrame;
use crate::whole::{Found, survey_framed};
use std::alloc::Global;
use trio_layout::{CoreRange, Location, Superblock};
use trio_page::{Home, Reads};
use trio_rights::Kind;

/// The version of the formats before today's. Its images have neither links nor guarded files, and are
/// told apart by their first page.
pub const OLD_VERSION: u32 = 1;

/// Whether the pages behind the first are those of an image of version 1 that has this superblock and
/// verifies, with its tables.
///
/// `Ok` comes exactly where they are. [`SurveyFault::Fails`] names the lowest that fails of the rules I1
/// and I2 and that of the tables, by the grammar of version 1, with a place at which it does. The
/// pages are as they were after any answer. The first page isn't looked at, and each other page once at most.
pub fn verify_old(
    alloc: Global,
    home: &mut Home,
    superblock: &Superblock,
    reads: &mut Reads,
) -> Result<Found, SurveyFault>
    requires { IsTrue (superblock_fits superblock.now) }
    ensures pages { home.new.pages ≡ home.old.pages }
    ensures verified { OnOk result (OldPagesVerify superblock.now home.old.pages) }
    ensures rows { IfOk result (λ f. f.rows ≡ (image_in superblock.now home.old.pages).rows) }
    ensures owners { IfOk result (λ f. f.owners ≡ (image_in superblock.now home.old.pages).owners) }
    ensures fails { IfErr result (IsOldDenied superblock.now home.old.pages) }
    ensures reads { reads.new ≤ reads.old + superblock.now.pages }
    ensures looked { home.new.looked ≤ home.old.looked + superblock.now.pages }
{
    let frame = CoreFrame {
        root: superblock.root,
        range: CoreRange {
            first: superblock.first_core,
            end: superblock.pages,
        },
        inodes: superblock.inodes,
        old: true,
    };
    let picks = Picks::none(alloc);
    let found = survey_framed(alloc, home, &frame, &picks, reads)?;
    compare(home, superblock, &found, reads)?;
    Ok(found)
}

/// Where version 1 is asked, the place of what it doesn't know of a file.
pub(crate) fn unknown(
    old: bool,
    range: CoreRange,
    kept: &KeptBlocks,
    kind: Kind,
    file: &FilePages,
) -> Option<Location>
    requires { HasParts range kept.now }
    ensures { result ≡ place_unknown old (file_kept range kept.now kind file.now) }
{
    if !old {
        return None;
    }
    if file.body.guard {
        return Some(Location { page: 0, slot: 0 });
    }
    first_link(kept, range, listing_blocks(kind, &file.chain.blocks))
}

/// The place of the first entry of these blocks that is a link's.
fn first_link(kept: &KeptBlocks, range: CoreRange, blocks: &[u32]) -> Option<Location>
    requires { HasParts range kept.now }
    ensures { result ≡ first_link (flat_map (entries_kept range kept.now) blocks.now) }
{
    for block in blocks {
        if let Some(place) = link_among(kept.entries_of(range, *block)) {
            return Some(place);
        }
    }
    None
}

/// The place of the first of these entries that is a link's.
fn link_among(entries: &[DirEntry]) -> Option<Location>
    ensures { (names : List (List ℕ)) → result ≡ first_link (map (entry_seen names) entries.now) }
{
    for entry in entries {
        if entry.kind.is_link() {
            return Some(place_of(entry));
        }
    }
    None
}
