//! The laws of calls on directories, by what a session sees: the body of each function is empty, and
//! its contract is the law.

ghost use Rattle.trio_laws.specs.session.DirCalls.{
  DoneIsTree,
  EntersWalked,
  ListRefusedByCheck,
  ListRefusedByWalk,
  ListsNames,
  MakesEntry,
  MovesEntry,
  NameRefusedByWalk,
  NamesInOrder,
  NeedsWrite,
  NoRoomToMake,
  NoRoomToMove,
  RefusedAtEntry,
  RefusedByName,
  RefusedByPath,
  RemovesEntry,
  RenameRefusedByName,
  RenameRefusedByWalk,
  RetitlesEntry,
  ShownIsTree,
};

/// The directory at the end of a walk is entered by its kind and rights, and for writing it needs Write.
pub fn enters_by_sight()
    ensures walked { EntersWalked }
    ensures write { NeedsWrite }
{}

/// A call may be refused by its paths alone, before any walk.
pub fn refuses_paths()
    ensures law { RefusedByPath }
{}

/// A call that makes or removes a file or changes its mode is decided by the walk into the directory, by
/// what its name is found to be there, and by the rights and the entries of the file that has the name;
/// or there is no room for it.
pub fn decides_name_calls()
    ensures walk { NameRefusedByWalk }
    ensures name { RefusedByName }
    ensures entry { RefusedAtEntry }
    ensures makes { MakesEntry }
    ensures removes { RemovesEntry }
    ensures room { NoRoomToMake }
{}

/// A rename is decided by the walks into both directories, and by what its names are found to be there;
/// or there is no room for it.
pub fn decides_renames()
    ensures walk { RenameRefusedByWalk }
    ensures name { RenameRefusedByName }
    ensures moves { MovesEntry }
    ensures retitles { RetitlesEntry }
    ensures room { NoRoomToMove }
{}

/// A list of names is decided by its walk and by the rights of the directory, and has the names of the
/// entries in their order.
pub fn decides_lists()
    ensures walk { ListRefusedByWalk }
    ensures check { ListRefusedByCheck }
    ensures names { ListsNames }
    ensures order { NamesInOrder }
{}

/// What a call makes of a tree is a tree.
pub fn calls_keep_trees()
    ensures law { DoneIsTree }
    ensures shown { ShownIsTree }
{}
