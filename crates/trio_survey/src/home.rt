//! Core pages at home.

ghost use Rattle.std.specs.Prelude.{◌≡◌, ⊤};
ghost use Rattle.std.specs.Option.{option_copied};
ghost use Rattle.std.specs.Borrow.{sem, follows_so};
ghost use mathlib.Core.Option.{none};
ghost use Rattle.trio_page.specs.contracts.home.Home.{the_row};
ghost use Rattle.trio_layout.specs.Core.{page_of};
ghost use Rattle.trio_survey.specs.Seen.{core_with};

use trio_layout::CoreRange;
use trio_page::{Home, Page, PageNo, Reads};

/// A look at a core page. `None` exactly where the number isn't a core page's or the page is absent;
/// a number that isn't a core page's costs no look. The pages are as they were.
pub fn core_page<'a>(
    home: &'a mut Home,
    range: CoreRange,
    page: u32,
    reads: &mut Reads,
) -> Option<&'a Page>
    ensures page { option_copied result ≡ page_of (core_with home.old.pages range 0) page }
    ensures* home { sem 𝓛 (follows_so the_row the_row home.entry.ghost_name none (λ _ _. ⊤) (λ h. h.pages ≡ home.old.pages)) }
{
    if !range.has(u64::from(page)) {
        return None;
    }
    home.page(PageNo(page), reads)
}
