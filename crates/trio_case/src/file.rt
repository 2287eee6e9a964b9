//! One file read as far as its pages are the bundle's.

ghost use Rattle.std.specs.Prelude.{◌≡◌, ◌+◌, ◌≤◌, OnOk, true};
ghost use Rattle.trio_rights.specs.ByKind.{is_directory};
ghost use Rattle.trio_layout.specs.Case.{file_in};
ghost use Rattle.trio_layout.specs.Survey.{Met};
ghost use Rattle.trio_case.specs.Cases.{case_in};
ghost use Rattle.trio_case.specs.Memory.{writes_directory};
ghost use Rattle.trio_case.specs.Rooms.{file_in_room, looks_left, Keeps};
ghost use Rattle.trio_lists.specs.Lists.{result_map};

use crate::case::Case;
use crate::chain::read_chain;
use crate::entries::read_entries;
use crate::names::repeated_name;
use crate::room::PageRoom;
use trio_layout::{Body, Location};
use trio_page::Reads;
use trio_rights::Kind;

/// Reads a file of this kind with this body, or finds where it leaves the grammar: neither page nor
/// slot for its body, an index page as a whole, a bad slot, or the first entry that has the name of
/// one before it. Its chain and its entries then stand in the room.
///
/// The file is no directory where the bundle writes none.
///
/// It takes no memory, and looks at a page only where the room doesn't keep what the page says.
/// Each look but that at the fault leaves one look less that the judgement may make.
#[tactic(auto, unfolding(trio_layout::specs::Within::file_within))]
pub fn read_file(
    case: &Case,
    room: &mut PageRoom,
    kind: Kind,
    body: &[u8; 64],
    reads: &mut Reads,
) -> Result<Body, Location>
    requires room { Keeps case.now room.old }
    requires lists { is_directory kind ≡ true → writes_directory case.now.bundle ≡ true }
    ensures file { (m : Met) → m.kind ≡ kind → m.body ≡ body.now
        → result_map (file_in_room room.new kind) result ≡ file_in (case_in case.now) m }
    ensures room { Keeps case.now room.new }
    ensures looks { OnOk result (reads.new + looks_left room.new ≤ reads.old + looks_left room.old) }
    ensures last { reads.new ≤ reads.old + looks_left room.old }
{
    let Some(body) = Body::read(body, kind, case.range()) else {
        return Err(Location { page: 0, slot: 0 });
    };
    if let Err(page) = read_chain(case, room, &body, reads) {
        return Err(Location { page, slot: 0 });
    }
    if kind.is_directory() {
        if let Err(place) = read_entries(case, &mut room.kept, &room.blocks, reads) {
            return Err(place);
        }
        if let Some(place) = repeated_name(case, &room.kept, &room.blocks, &mut room.named) {
            return Err(place);
        }
    }
    Ok(body)
}
