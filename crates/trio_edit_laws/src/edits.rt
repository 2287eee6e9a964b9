//! The laws of edits: the body of each function is empty, and its contract is the law.

ghost use Rattle.trio_edit_laws.specs.EditLaws.{CutShows, GrowDirShows, GrowShows, GuardShows, PutShows, SeesBytes};

/// Bytes that are put within the size of a file stand in the node.
pub fn put_shows()
    ensures law { PutShows }
{}

/// A file that grows has zeros behind its bytes.
pub fn grow_shows()
    ensures law { GrowShows }
{}

/// A file that is cut has the first of its bytes.
pub fn cut_shows()
    ensures law { CutShows }
{}

/// A file that is guarded from now on, or no longer, is so in the nodes, and reads as before.
pub fn guard_shows()
    ensures law { GuardShows }
{}

/// What the session reads of a file that it has open is what the node has.
pub fn sees_bytes()
    ensures law { SeesBytes }
{}

/// A directory that grows has empty slots behind its others, and shows the same nodes.
pub fn grow_dir_shows()
    ensures law { GrowDirShows }
{}
