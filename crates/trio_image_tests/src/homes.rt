//! Homes of a few pages.

ghost use Rattle.std.specs.Prelude.{◌≡◌, length};

use std::alloc::Global;
use trio_page::{Home, Page, PageNo};

// six pages, all of them absent
fn absent(alloc: Global) -> Option<Home> {
    let mut pages = Vec::new(alloc);
    for _page in 0..6 {
        pages.push(None).ok()?;
    }
    pages.truncate(6);
    Some(Home::of(pages))
}

/// Puts these pages as 3 and 4, and tells whether the home has as many.
pub fn put_both(home: &mut Home, third: Page, fourth: Page) -> bool
    ensures { length home.new.pages ≡ length home.old.pages }
{
    if home.len() < 5 {
        return false;
    }
    home.put(PageNo(3), third);
    home.put(PageNo(4), fourth);
    true
}

/// The home of six pages, of which 3 and 4 are these and the others are absent.
pub fn home_with(alloc: Global, third: Page, fourth: Page) -> Option<Home> {
    let mut home = absent(alloc)?;
    if put_both(&mut home, third, fourth) {
        Some(home)
    } else {
        None
    }
}
