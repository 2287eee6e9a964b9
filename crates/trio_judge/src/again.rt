//! Directories that list again just what one before them lists.

ghost use Rattle.std.specs.Prelude.{◌≡◌, ◌+◌, ◌≤◌, ℕ, IfErr, IfOk, IsTrue, List, Err, Ok, OnOk, Some, is_some, length, true, vec_len};
ghost use Rattle.std.specs.List.{flat_map, list_all};
ghost use Rattle.trio_rights.specs.Bundle.{bundle_pages};
ghost use Rattle.trio_lease.specs.Views.{bundle_in};
ghost use Rattle.trio_layout.specs.Body.{body_of};
ghost use Rattle.trio_layout.specs.Case.{file_in};
ghost use Rattle.trio_layout.specs.JudgedFiles.{entries_in};
ghost use Rattle.trio_case.specs.Cases.{case_in};
ghost use Rattle.trio_case.specs.Rooms.{entries_kept, file_in_room, looks_left, Keeps};
ghost use Rattle.trio_judge.specs.inner.Again.{has_body, AreAllFound, AreFoundHeads, IsListedBefore};
ghost use Rattle.trio_judge.specs.inner.Walk.{file_met};

use crate::pages::{is_marked, mark};
use crate::walk::JudgedFile;
use trio_case::{Case, DirEntry, PageRoom, read_chain};
use trio_layout::{Body, CoreRange, Location};
use trio_page::Reads;

/// Whether a directory has a chain that begins with a marked index page, or where its body or this
/// chain leaves the grammar.
#[tactic(auto, unfolding(trio_layout::specs::Within::file_within))]
pub(crate) fn is_listed_before(
    case: &Case,
    room: &mut PageRoom,
    heads: &[bool],
    file: &JudgedFile,
    reads: &mut Reads,
) -> Result<bool, Location>
    requires keeps { Keeps case.now room.old }
    requires places { length heads.now ≡ length (bundle_pages (bundle_in case.now.bundle)) }
    ensures before { IfOk result (λ before. IsTrue before → IsListedBefore (case_in case.now) heads.now (file_met file.now)) }
    ensures bad { IfErr result (λ p. file_in (case_in case.now) (file_met file.now) ≡ Err p) }
    ensures keeps { Keeps case.now room.new }
    ensures looks { OnOk result (reads.new + looks_left room.new ≤ reads.old + looks_left room.old) }
    ensures last { reads.new ≤ reads.old + looks_left room.old }
{
    let Some(body) = Body::read(&file.body, file.kind, case.range()) else {
        return Err(Location { page: 0, slot: 0 });
    };
    let no_directory = !file.kind.is_directory();
    if no_directory || body.blocks() == 0 || !is_marked(case, room, heads, body.head) {
        return Ok(false);
    }
    match read_chain(case, room, &body, reads) {
        Ok(()) => Ok(true),
        Err(page) => Err(Location { page, slot: 0 }),
    }
}

/// Marks the first index page of a directory that was gone over, where the body in each of its
/// entries is in the grammar.
pub(crate) fn mark_head(case: &Case, room: &PageRoom, heads: &mut Vec<bool>, file: &JudgedFile)
    requires keeps { Keeps case.now room.now }
    requires places { vec_len heads.old ≡ length (bundle_pages (bundle_in case.now.bundle)) }
    requires read { (body : Body) → body_of file.now.kind case.now.range file.now.body ≡ Some body → file_in (case_in case.now) (file_met file.now) ≡ Ok (file_in_room room.now file.now.kind body) }
    ensures heads { (found : List ℕ) → AreFoundHeads (case_in case.now) found heads.old.items → AreAllFound (case_in case.now) found (entries_in (case_in case.now) (file_met file.now)) → AreFoundHeads (case_in case.now) found heads.new.items }
{
    let Some(body) = Body::read(&file.body, file.kind, case.range()) else {
        return;
    };
    if file.kind.is_directory() && body.blocks() > 0 && have_bodies(case, room) {
        let _new = mark(case, room, heads, body.head);
    }
}

/// Whether the body in the slot of each entry of these blocks is in the grammar.
fn have_bodies(case: &Case, room: &PageRoom) -> bool
    requires { Keeps case.now room.now }
    ensures { IsTrue result → list_all (has_body case.now.range) (flat_map (entries_kept room.now.kept) room.now.blocks.items) ≡ true }
{
    let range = case.range();
    for block in room.blocks() {
        if !are_bodies(room.entries_of(case, *block), range) {
            return false;
        }
    }
    true
}

fn are_bodies(entries: &[DirEntry], range: CoreRange) -> bool
    ensures { result ≡ list_all (λ l. is_some (body_of l.kind range l.body)) entries.now }
{
    entries.iter().all(|listed| has_body(listed, range))
}

fn has_body(listed: &DirEntry, range: CoreRange) -> bool
    ensures { result ≡ is_some (body_of listed.now.kind range listed.now.body) }
{
    Body::read(&listed.body, listed.kind, range).is_some()
}
