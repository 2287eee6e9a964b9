//! The laws of checkpoints: the body of each function is empty, and its contract is the law.

ghost use Rattle.trio_checkpoint.specs.Laws.{RenewedBodyIsRestored, RestoringKeeps};

/// A checkpoint that is taken and then restored leaves the pages at home as they were.
pub fn restoring_keeps()
    ensures law { RestoringKeeps }
{}

/// A body that is put into a covered page is the body at that place once the page is put back.
pub fn renewed_body_is_restored()
    ensures law { RenewedBodyIsRestored }
{}
