//! Names that a directory has twice.

ghost use Rattle.std.specs.Prelude.{◌≡◌, ◌++◌, ◌<◌, ◌≤◌, ℕ, List, IfNone, length, map, []};
ghost use Rattle.std.specs.List.{flat_map};
ghost use Rattle.trio_lists.specs.Lists.{In};
ghost use Rattle.trio_layout.specs.Entries.{Listed, repeated_name};
ghost use Rattle.trio_case.specs.Reading.{listed_seen, AreNamed};
ghost use Rattle.trio_case.specs.Rooms.{entries_kept, KeepsPages};
ghost use Rattle.trio_case.specs.inner.Named.{MarksNames};

use crate::case::Case;
use crate::entries::DirEntry;
use crate::kept::KeptPages;
use trio_layout::Location;
use trio_marks::Marks;

/// The place of the first entry whose name one before it has, among those of these blocks. There is a
/// mark for each name that is kept, and all are taken away first.
pub(crate) fn repeated_name(
    case: &Case,
    kept: &KeptPages,
    blocks: &[u32],
    named: &mut Marks,
) -> Option<Location>
    requires keeps { KeepsPages case.now kept.now }
    requires space { length kept.now.names.names ≤ length named.old }
    ensures repeated { result ≡ repeated_name [] (flat_map (entries_kept kept.now) blocks.now) }
    ensures room { length named.new ≡ length named.old }
{
    kept.names.are_apart();
    named.clear();
    for block in blocks {
        if let Some(place) = repeated_on(named, kept.entries_of(case, *block)) {
            return Some(place);
        }
    }
    None
}

/// Marks the names of these entries, and answers the place of the first whose name was marked.
fn repeated_on(named: &mut Marks, entries: &[DirEntry]) -> Option<Location>
    requires { (l : DirEntry) → In l entries.now → l.name < length named.old }
    ensures repeated { (names : List (List ℕ)) (seen : List Listed) → AreNamed names entries.now → MarksNames names named.old seen
        → result ≡ repeated_name seen (map (listed_seen names) entries.now) }
    ensures marked { IfNone result ((names : List (List ℕ)) (seen : List Listed) → AreNamed names entries.now → MarksNames names named.old seen
        → MarksNames names named.new (seen ++ map (listed_seen names) entries.now)) }
    ensures room { length named.new ≡ length named.old }
{
    for listed in entries {
        if !named.set(listed.name) {
            return Some(Location {
                page: listed.page,
                slot: listed.slot,
            });
        }
    }
    None
}
