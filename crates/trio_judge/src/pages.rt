//! Which pages a file may list, and marks over the bundle's pages, in the order of their numbers.

ghost use Rattle.std.specs.Prelude.{◌≡◌, ◌==◌, ◌++◌, ◌&&◌, ◌||◌, ℕ, List, length, not, vec_len};
ghost use Rattle.trio_lists.specs.Lists.{is_among};
ghost use Rattle.trio_rights.specs.Bundle.{bundle_pages};
ghost use Rattle.trio_lease.specs.Views.{bundle_in};
ghost use Rattle.trio_case.specs.Order.{is_marked, AreMarked};
ghost use Rattle.trio_case.specs.Rooms.{Keeps};
ghost use Rattle.trio_judge.specs.inner.Walk.{FirstForeign};

use trio_case::{Case, PageRoom};

/// Marks the pages, up to the first that isn't the bundle's or that had its mark, and answers that.
pub(crate) fn mark_own(
    case: &Case,
    room: &PageRoom,
    marks: &mut Vec<bool>,
    pages: &[u32],
) -> Option<u32>
    requires keeps { Keeps case.now room.now }
    requires places { vec_len marks.old ≡ length (bundle_pages (bundle_in case.now.bundle)) }
    ensures first { let own = bundle_pages (bundle_in case.now.bundle) in
        (before : List ℕ) → AreMarked own marks.old.items before → FirstForeign own before pages.now marks.new.items result }
    ensures len { vec_len marks.new ≡ vec_len marks.old }
{
    for page in pages {
        if !mark(case, room, marks, *page) {
            return Some(*page);
        }
    }
    None
}

/// Marks a page of the bundle, and answers whether the mark is new. Any other page gets none.
pub(crate) fn mark(case: &Case, room: &PageRoom, marks: &mut Vec<bool>, page: u32) -> bool
    requires keeps { Keeps case.now room.now }
    requires places { vec_len marks.old ≡ length (bundle_pages (bundle_in case.now.bundle)) }
    ensures new { let own = bundle_pages (bundle_in case.now.bundle) in
        result ≡ (is_among page own && not (is_marked own marks.old.items page)) }
    ensures marked { let own = bundle_pages (bundle_in case.now.bundle) in
        (other : ℕ) → is_marked own marks.new.items other ≡ (is_marked own marks.old.items other || (is_among page own && page == other)) }
    ensures len { vec_len marks.new ≡ vec_len marks.old }
{
    let Some(at) = room.place(case, page) else {
        return false;
    };
    let new = !marks[at];
    marks[at] = true;
    new
}

/// Whether a page is marked; only one of the bundle's is.
pub(crate) fn is_marked(case: &Case, room: &PageRoom, marks: &[bool], page: u32) -> bool
    requires keeps { Keeps case.now room.now }
    requires places { length marks.now ≡ length (bundle_pages (bundle_in case.now.bundle)) }
    ensures { result ≡ is_marked (bundle_pages (bundle_in case.now.bundle)) marks.now page }
{
    match room.place(case, page) {
        Some(at) => marks[at],
        None => false,
    }
}
