//! The laws of surveys: the body of each function is empty, and its contract is the law.

ghost use Rattle.trio_surveys.specs.SurveyLaws.{BodiesInAnyOrder, BodiesInParts, BodiesInPlace, FileKeeps, SoundnessIsLocal, SurveyFollows, SurveyIsLocal, SurveyIsTree};
ghost use Rattle.trio_surveys.specs.Tree.{ImageIsTree};

/// Two cores that differ in pages alone have one survey, where each file that the first survey meets
/// lists the same in both.
pub fn survey_follows()
    ensures law { SurveyFollows }
{}

/// A survey goes by the pages that it reads.
pub fn survey_is_local()
    ensures law { SurveyIsLocal }
{}

/// Soundness goes by the pages that the survey reads.
pub fn soundness_is_local()
    ensures law { SoundnessIsLocal }
{}

/// A sound survey is one tree: the root, and what its files list.
pub fn survey_is_tree()
    ensures law { SurveyIsTree }
{}

/// Each file of a sound survey reads the same once the picked bodies are at their places.
pub fn file_keeps()
    ensures law { FileKeeps }
{}

/// The plain survey of the core with the picked bodies at their places is the survey with the pick.
pub fn bodies_in_place()
    ensures law { BodiesInPlace }
{}

/// An image that verifies is one connected tree: each live number is that of one file, which is
/// met from the root; each page is listed once, and its owner row names the file that lists it; and
/// rows and bodies agree.
pub fn image_is_tree()
    ensures law { ImageIsTree }
{}

/// The bodies of a sound survey can be put at their places in any order, and a body that stands in
/// its slot already can be left out.
pub fn bodies_in_any_order()
    ensures law { BodiesInAnyOrder }
{}

/// Bodies that are put on pages at home, on pages that come home and on pages that stay aside, each
/// in its part, are as if all were put at once.
pub fn bodies_in_parts()
    ensures law { BodiesInParts }
{}
