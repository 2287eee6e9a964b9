//! The laws of the entries of a session's directories, and of what it writes into their slots: the
//! body of each function is empty, and its contract is the law.

ghost use Rattle.trio_edit_laws.specs.session.Named.{EntriesAreInSlots, EntryNames, MadeIsJudged, NamedIsRead, WrittenIsJudged};
ghost use Rattle.trio_edit_laws.specs.session.SlotEdits.{AfterClear, AfterFill, AfterMove, AfterRekind, AfterRetitle, ClearShows, FillShows, MoveShows, RekindShows, RetitleShows};

/// An entry of a directory names its number, which no other does; by what is named, what was made is
/// judged, as is each written file; and entries are just what slots say.
pub fn entries_name()
    ensures names { EntryNames }
    ensures read { NamedIsRead }
    ensures made { MadeIsJudged }
    ensures written { WrittenIsJudged }
    ensures slots { EntriesAreInSlots }
{}

/// A file that is made in an empty slot is a new node.
pub fn fill_shows()
    ensures law { FillShows }
    ensures after { AfterFill }
{}

/// A file whose slot gets another name is renamed.
pub fn retitle_shows()
    ensures law { RetitleShows }
    ensures after { AfterRetitle }
{}

/// A file whose slot gets another kind has it.
pub fn rekind_shows()
    ensures law { RekindShows }
    ensures after { AfterRekind }
{}

/// A file whose slot is emptied is gone.
pub fn clear_shows()
    ensures law { ClearShows }
    ensures after { AfterClear }
{}

/// A file whose entry goes to a slot of another directory is moved.
pub fn move_shows()
    ensures law { MoveShows }
    ensures after { AfterMove }
{}
