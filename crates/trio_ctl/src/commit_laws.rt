//! The law of what is put in place: the body of the function is empty, and its contract is the law.

ghost use Rattle.trio_ctl.specs.CommitLaws.{CommitIsNext};

/// An accepted bundle that is put in place gives the next image.
pub fn commit_is_next()
    ensures law { CommitIsNext }
{}
