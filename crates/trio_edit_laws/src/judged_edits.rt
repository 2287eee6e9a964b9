//! The laws of what a session edits in place, of every judged file: the body of each function is
//! empty, and its contract is the law.

ghost use Rattle.trio_edit_laws.specs.session.JudgedEdits.{JudgedAfterEdit, JudgedEditShows, ListedAfterJudgedEdit, ReadsAfterEdit};

/// Where one judged file is edited, written or made, the nodes that are shown have the bytes that it
/// now reads, and its guard; where it is a directory they are the same.
pub fn judged_edit_shows()
    ensures law { JudgedEditShows }
{}

/// What the judged files are and read after such an edit, and which pages they list.
pub fn reads_after_edit()
    ensures judged { JudgedAfterEdit }
    ensures reads { ReadsAfterEdit }
    ensures listed { ListedAfterJudgedEdit }
{}
