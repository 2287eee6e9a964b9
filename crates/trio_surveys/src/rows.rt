//! The laws of a core with rows: the body of each function is empty, and its contract is the law.

ghost use Rattle.trio_surveys.specs.Rows.{RowsAreSurvey, VerifiedHasRows};

/// Over a core with rows the survey is sound and meets just the live numbers, each where its row
/// says, exactly where each is listed there once, nothing else is listed, and every climb over the
/// rows' parents reaches the root.
pub fn rows_are_survey()
    ensures law { RowsAreSurvey }
{}

/// The core of an image that verifies is a core with the image's rows.
pub fn verified_has_rows()
    ensures law { VerifiedHasRows }
{}
