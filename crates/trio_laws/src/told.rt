//! The laws of what a release tells: the body of each function is empty, and its contract is the law.

ghost use Rattle.trio_laws.specs.history.ToldLaws.{AcceptedIsListed, RefusedIsListed};

/// The entry of a release that is accepted, its files and blocks by all numbers of the images before and
/// after, is what the bundle, its listing and the notes of live files tell.
pub fn accepted_is_listed()
    ensures law { AcceptedIsListed }
{}

/// The entry of a release that is refused is what the bundle and the notes of live files tell.
pub fn refused_is_listed()
    ensures law { RefusedIsListed }
{}
