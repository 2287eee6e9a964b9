//! The owners after an accepted bundle.

ghost use Rattle.std.specs.Prelude.{◌≡◌, ◌<◌, ℕ, IsTrue, if◌then◌else◌, length, slice_index, slice_set};
ghost use Rattle.trio_lists.specs.Marked.{all_below};
ghost use Rattle.trio_tables.specs.Out.{with_all};
ghost use Rattle.trio_commit.specs.Listed.{HasPagesBelow};
ghost use Rattle.trio_commit.specs.inner.Tables.{is_gone, owner_listed, owner_staying};

use crate::gone::{is_any_gone, is_gone};
use trio_case::Listing;
use trio_page::PageNo;
use trio_tables::Owners;

/// Puts the owners in place, once the pages of the judged files are free: a judged file owns the
/// pages that it lists, and the pages of held files that are listed nowhere are free.
pub(crate) fn put_owners(owners: &mut Owners, listing: &Listing)
    requires { HasPagesBelow (length owners.old) listing.now.listing }
    ensures owners { (page : ℕ) → slice_index owners.new page
        ≡ owner_listed listing.now.listing.files page (owner_staying listing.now.listing (slice_index owners.old page)) }
    ensures size { length owners.new ≡ length owners.old }
{
    free_gone(owners, listing);
    give_listed(owners, listing);
}

/// Frees the pages of the held files that are listed nowhere: one pass over the table, if there are
/// such files.
fn free_gone(owners: &mut Owners, listing: &Listing)
    ensures owners { (page : ℕ) → slice_index owners.new page ≡ owner_staying listing.now.listing (slice_index owners.old page) }
    ensures size { length owners.new ≡ length owners.old }
{
    if !is_any_gone(listing) {
        return;
    }
    for no in 0..owners.pages() {
        free_if_gone(owners, listing, PageNo(no));
    }
}

/// Frees a page of the table whose owner is held and listed nowhere.
fn free_if_gone(owners: &mut Owners, listing: &Listing, no: PageNo)
    requires { no.0 < length owners.old }
    ensures { owners.new ≡ (if is_gone listing.now.listing (slice_index owners.old no.0) then slice_set owners.old no.0 0 else owners.old) }
{
    if is_gone(listing, owners.owner(no)) {
        owners.set(no, 0);
    }
}

/// Gives the judged files the pages that they list.
fn give_listed(owners: &mut Owners, listing: &Listing)
    requires { HasPagesBelow (length owners.old) listing.now.listing }
    ensures owners { (page : ℕ) → slice_index owners.new page ≡ owner_listed listing.now.listing.files page (slice_index owners.old page) }
    ensures size { length owners.new ≡ length owners.old }
{
    let files = listing.files();
    let mut left = files.len();
    while left > 0 {
        left -= 1;
        let ino = files[left].ino;
        give(owners, listing.index(left), ino);
        give(owners, listing.blocks(left), ino);
    }
}

/// Gives pages to a file.
fn give(owners: &mut Owners, pages: &[u32], ino: u32)
    requires { IsTrue (all_below (length owners.old) pages.now) }
    ensures { owners.new ≡ with_all ino pages.now owners.old }
{
    for page in pages {
        owners.set(PageNo(*page), ino);
    }
}
