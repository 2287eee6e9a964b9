//! The laws of a session's directories: the body of each function is empty, and its contract is the
//! law.

ghost use Rattle.trio_edit_laws.specs.DirLaws.{
  ClearLeaves,
  ClearShows,
  FillLeaves,
  FillShows,
  LinkLeaves,
  LinkShows,
  MoveLeaves,
  MoveShows,
  RetitleLeaves,
  RetitleShows,
  SeesDirectory,
};

/// What the session sees of a directory that it has open is so in the nodes that it shows.
pub fn sees_directory()
    ensures law { SeesDirectory }
{}

/// A file that is made in an empty slot is a new node.
pub fn fill_shows()
    ensures law { FillShows }
    ensures leaves { FillLeaves }
{}

/// A link that is made with its text is a new node.
pub fn link_shows()
    ensures law { LinkShows }
    ensures leaves { LinkLeaves }
{}

/// An entry that gets another name is renamed.
pub fn retitle_shows()
    ensures law { RetitleShows }
    ensures leaves { RetitleLeaves }
{}

/// A file whose slot is cleared is gone.
pub fn clear_shows()
    ensures law { ClearShows }
    ensures leaves { ClearLeaves }
{}

/// A file whose entry goes to another directory is moved.
pub fn move_shows()
    ensures law { MoveShows }
    ensures leaves { MoveLeaves }
{}
