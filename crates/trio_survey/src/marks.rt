//! Marks over numbers, by which the walk knows what was listed before.

ghost use Rattle.std.specs.Prelude.{◌≡◌, ◌++◌, ℕ, List, IfOk, map, true, vec_len};
ghost use Rattle.std.specs.List.{flat_map};
ghost use Rattle.trio_lists.specs.Marked.{MarksJust, all_below};
ghost use Rattle.trio_layout.specs.Entries.{Listed};
ghost use Rattle.trio_layout.specs.Survey.{Met};
ghost use Rattle.trio_survey.specs.Picks.{pick_of};
ghost use Rattle.trio_survey.specs.Seen.{met_seen};
ghost use Rattle.trio_survey.specs.inner.Blocks.{entries_kept, entry_seen, HasParts};
ghost use Rattle.trio_survey.specs.inner.Walk.{are_marked, AreMarked, FirstRepeat, Grows};

use crate::blocks::{DirEntry, KeptBlocks};
use crate::file::MetFile;
use crate::picks::Picks;
use trio_layout::{CoreRange, Location};
use trio_page::NoMemory;

/// Marks the numbers, and answers the first that had its mark.
pub fn mark_new(marks: &mut Vec<bool>, these: &[u32]) -> Option<u32>
    requires { all_below (vec_len marks.old) these.now ≡ true }
    ensures marked { (before : List ℕ) → MarksJust marks.old.items before → MarksJust marks.new.items (before ++ these.now) }
    ensures len { vec_len marks.new ≡ vec_len marks.old }
    ensures first { (before : List ℕ) → MarksJust marks.old.items before → FirstRepeat before these.now result }
{
    let mut repeated = None;
    for n in these {
        let at = *n as usize;
        if marks[at] {
            repeated = repeated.or(Some(*n));
        }
        marks[at] = true;
    }
    repeated
}

/// Adds the files that the entries of these blocks list and whose number has no mark yet, marks them,
/// and answers the place of the first entry whose number had its mark.
pub fn add_children(
    files: &mut Vec<MetFile>,
    marks: &mut Vec<bool>,
    picks: &Picks,
    directory: u32,
    range: CoreRange,
    kept: &KeptBlocks,
    blocks: &[u32],
) -> Result<Option<Location>, NoMemory>
    requires parts { HasParts range kept.now }
    requires fit { all_below (vec_len marks.old) (map (λ l. l.entry.ino) (flat_map (entries_kept range kept.now) blocks.now)) ≡ true }
    requires marked { AreMarked (map met_seen files.old.items) marks.old.items }
    ensures grows { IfOk result (λ again. Grows (pick_of picks.now) directory (map met_seen files.old.items) (map met_seen files.new.items) marks.new.items again
        (flat_map (entries_kept range kept.now) blocks.now)) }
    ensures len { vec_len marks.new ≡ vec_len marks.old }
{
    let mut repeated = None;
    for block in blocks {
        let entries = kept.entries_of(range, *block);
        repeated = add_listed(files, marks, picks, directory, entries, repeated)?;
    }
    Ok(repeated)
}

/// Adds the files that these entries list and whose number has no mark yet, and marks them. `repeated`
/// is the first place of an entry before them whose number had its mark.
fn add_listed(
    files: &mut Vec<MetFile>,
    marks: &mut Vec<bool>,
    picks: &Picks,
    directory: u32,
    entries: &[DirEntry],
    repeated: Option<Location>,
) -> Result<Option<Location>, NoMemory>
    requires { all_below (vec_len marks.old) (map (λ l. l.ino) entries.now) ≡ true }
    ensures grows { IfOk result (λ again. (names : List (List ℕ)) (old : List Met) (before : List Listed)
        → Grows (pick_of picks.now) directory old (map met_seen files.old.items) marks.old.items repeated before
        → Grows (pick_of picks.now) directory old (map met_seen files.new.items) marks.new.items again (before ++ map (entry_seen names) entries.now)) }
    ensures len { vec_len marks.new ≡ vec_len marks.old }
{
    if !entries.is_empty() && are_marked(marks, entries) {
        return Ok(repeated.or(Some(place_of(&entries[0]))));
    }
    let mut repeated = repeated;
    for listed in entries {
        let at = listed.ino as usize;
        if marks[at] {
            repeated = repeated.or(Some(place_of(listed)));
        } else {
            files.push(MetFile {
                ino: listed.ino,
                kind: listed.kind,
                parent: directory,
                page: listed.page,
                slot: listed.slot,
                body: picks.body(directory, listed),
            })?;
            marks[at] = true;
        }
    }
    Ok(repeated)
}

/// Whether each of these entries has a mark at its number. A block that many directories list is gone
/// over by this short loop alone, from the second of them on.
fn are_marked(marks: &Vec<bool>, entries: &[DirEntry]) -> bool
    requires { all_below (vec_len marks.now) (map (λ l. l.ino) entries.now) ≡ true }
    ensures { result ≡ are_marked marks.now.items entries.now }
{
    for listed in entries {
        if !marks[listed.ino as usize] {
            return false;
        }
    }
    true
}

/// Where an entry stands.
pub(crate) fn place_of(listed: &DirEntry) -> Location
    ensures { result ≡ record { page = listed.now.page; slot = listed.now.slot } }
{
    Location {
        page: listed.page,
        slot: listed.slot,
    }
}
