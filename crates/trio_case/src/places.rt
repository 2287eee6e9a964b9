//! Where the pages of a bundle stand in it.

ghost use Rattle.std.specs.Prelude.{◌≡◌};
ghost use Rattle.std.specs.Option.{option_copied};
ghost use Rattle.trio_page.specs.Home.{raised};
ghost use Rattle.trio_case.specs.Places.{bytes_at};

use trio_lease::Bundle;
use trio_page::{Page, Reads};

/// The place of a page in its bundle.
#[derive(Clone, Copy)]
pub(crate) enum PagePlace {
    /// An index page of a write lease: which lease, and which page.
    Index(usize, usize),
    /// A block of a write lease: which lease, and which page.
    Block(usize, usize),
    /// A page that was allotted.
    Fresh(usize),
}

/// A look at the page at this place.
pub(crate) fn look<'a>(bundle: &'a Bundle, place: PagePlace, reads: &mut Reads) -> Option<&'a Page>
    ensures page { option_copied result ≡ bytes_at bundle.now place }
    ensures reads { reads.new ≡ raised reads.old }
{
    reads.raise();
    page_at(bundle, place)
}

/// The page at this place.
pub(crate) fn page_at(bundle: &Bundle, place: PagePlace) -> Option<&Page>
    ensures { option_copied result ≡ bytes_at bundle.now place }
{
    match place {
        PagePlace::Index(file, at) => bundle.writes().get(file)?.index(at),
        PagePlace::Block(file, at) => bundle.writes().get(file)?.block(at),
        PagePlace::Fresh(at) => Some(bundle.pages().get(at)?.page()),
    }
}
