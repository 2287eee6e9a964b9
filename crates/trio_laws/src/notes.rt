//! The laws of what is noted of live files, their names and sizes: the body of each function is empty,
//! and its contract is the law.

ghost use Rattle.trio_laws.specs.history.ToldLaws.{RefusedNotes, ReleaseNotes, StartNotes, StepsKeepNotes};

/// At the start the notes are as the rows of the image tell them.
pub fn start_notes()
    ensures law { StartNotes }
{}

/// After an accepted release the notes are those that its files tell.
pub fn release_notes()
    ensures law { ReleaseNotes }
{}

/// After a refused release they are as before.
pub fn refused_notes()
    ensures law { RefusedNotes }
{}

/// So they are after every step that ends no bundle, whatever its answer.
pub fn steps_keep_notes()
    ensures law { StepsKeepNotes }
{}
