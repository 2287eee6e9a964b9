//! The laws of local judgement: the body of each function is empty, and its contract is the law.

ghost use Rattle.trio_laws.specs.RuleLaws.{BreaksWhereNotMet, CopiedRowsSuffice, ListingGivesTables, RulesAreAccept};

/// The four rules on a bundle, which look at the bundle, the rows and the credentials alone, hold
/// exactly where the whole image with its bytes would be sound by an allowed change.
pub fn rules_are_accept()
    ensures law { RulesAreAccept }
{}

/// A bundle breaks a rule, with a file and a place at which it does, exactly where it doesn't meet
/// all four; the rule that is named is the lowest.
pub fn breaks_where_not_met()
    ensures law { BreaksWhereNotMet }
{}

/// After a bundle that is accepted the rows, and the owners of core pages, are those that its
/// listing and the tables before it say.
pub fn listing_gives_tables()
    ensures law { ListingGivesTables }
{}

/// The rows of written and held files, and of the recorded children of written ones, are all that
/// rules I1, I2 and I4 and the listing look at.
pub fn copied_rows_suffice()
    ensures law { CopiedRowsSuffice }
{}
