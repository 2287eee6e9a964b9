//! Held files that are listed nowhere.

ghost use Rattle.std.specs.Prelude.{◌≡◌};
ghost use Rattle.std.specs.List.{list_any};
ghost use Rattle.trio_layout.specs.Edges.{is_listed};
ghost use Rattle.trio_commit.specs.inner.Tables.{is_gone};

use trio_case::Listing;

/// Whether an entry names this number.
#[tactic(auto, using(crate::proofs::Naming::listed_by_dir))]
pub(crate) fn is_listed(listing: &Listing, ino: u32) -> bool
    ensures { result ≡ is_listed listing.now.listing ino }
{
    listing.dir(ino).is_some()
}

/// Whether the file of this number is held, and listed nowhere.
pub(crate) fn is_gone(listing: &Listing, ino: u32) -> bool
    ensures { result ≡ is_gone listing.now.listing ino }
{
    listing.is_held(ino) && !is_listed(listing, ino)
}

/// Whether some held file is listed nowhere.
pub(crate) fn is_any_gone(listing: &Listing) -> bool
    ensures { result ≡ list_any (is_gone listing.now.listing) listing.now.listing.held }
{
    listing.held().iter().any(|ino| is_gone(listing, *ino))
}
