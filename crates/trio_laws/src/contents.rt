//! The laws of the content of files: the body of each function is empty, and its contract is the law.

ghost use Rattle.trio_laws.specs.ContentLaws.{HeldFilesKeepContent};

/// A file that an accepted bundle holds, and that stays or moves, has the same kind, body, chain and
/// bytes afterwards and, of a directory, the same entries but for its children's bodies.
pub fn held_files_keep_content()
    ensures law { HeldFilesKeepContent }
{}
