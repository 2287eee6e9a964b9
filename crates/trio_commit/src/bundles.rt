//! What becomes of a bundle that was handed in.

ghost use Rattle.std.specs.Prelude.{◌≡◌, ◌++◌, IsTrue, length};
ghost use Rattle.std.specs.List.{flat_map};
ghost use Rattle.trio_lists.specs.Marked.{all_below};
ghost use Rattle.trio_rights.specs.Bundle.{bundle_pages, bundle_sheets};
ghost use Rattle.trio_rights.specs.Sheets.{sheet_numbers, with_pages};
ghost use Rattle.trio_layout.specs.Body.{guard_in};
ghost use Rattle.trio_lease.specs.Bundles.{bundled};
ghost use Rattle.trio_lease.specs.Views.{bundle_in};
ghost use Rattle.trio_tables.specs.Out.{with_all};
ghost use Rattle.trio_allot.specs.Out.{outs_after};
ghost use Rattle.trio_commit.specs.Listed.{written_pages};
ghost use Rattle.trio_commit.specs.inner.Files.{IsWithinImage, file_sheets, lent_sheets, uncovered_sheets};

use trio_allot::Allotments;
use trio_lease::things::let_go_all;
use trio_lease::{Allotted, Bundle, BundleParts, LentPage, WriteLease, WriteParts};
use trio_page::Home;
use trio_tables::Owners;

/// Brings all pages of a bundle home: each lease's index pages and blocks, which are nobody's then,
/// and the allotted pages. The allotments of its pages and numbers end, and its holds are let go.
pub(crate) fn bring_home(
    home: &mut Home,
    owners: &mut Owners,
    allotments: &mut Allotments,
    bundle: Bundle,
)
    requires within { IsTrue (all_below (length home.old.pages) (bundle_pages (bundle_in bundle))) }
    requires table { length owners.old ≡ length home.old.pages }
    requires allotted { IsWithinImage allotments.old (bundle_in bundle) }
    ensures home { home.new ≡ record home.old { pages = with_pages (bundle_sheets (bundle_in bundle)) home.old.pages } }
    ensures owners { owners.new ≡ with_all 0 (written_pages (bundle_in bundle)) owners.old }
    ensures ended { allotments.new ≡ outs_after allotments.old (sheet_numbers (bundle_in bundle).pages) (bundle_in bundle).numbers }
{
    let BundleParts {
        writes,
        holds,
        pages,
        inodes,
    } = bundle.parts();
    bring_files(home, owners, writes);
    allotments.put_back(home, Allotted { pages, inodes });
    let_go_all(holds);
}

/// Brings home what no checkpoint covers of a bundle of these parts, by the bodies of its leases: the
/// blocks of links and of regular files that aren't guarded, and the allotted pages. The allotments
/// of its pages and numbers end, and the rest of it is let go.
pub(crate) fn bring_uncovered(home: &mut Home, allotments: &mut Allotments, parts: BundleParts)
    requires within { IsTrue (all_below (length home.old.pages) (bundle_pages (bundle_in (bundled parts)))) }
    requires allotted { IsWithinImage allotments.old (bundle_in (bundled parts)) }
    ensures home { home.new ≡ record home.old {
      pages = with_pages (flat_map uncovered_sheets parts.writes.items ++ (bundle_in (bundled parts)).pages) home.old.pages;
    } }
    ensures ended { allotments.new ≡ outs_after allotments.old (sheet_numbers (bundle_in (bundled parts)).pages) (bundle_in (bundled parts)).numbers }
{
    let BundleParts {
        writes,
        holds,
        pages,
        inodes,
    } = parts;
    bring_uncovered_blocks(home, writes);
    allotments.put_back(home, Allotted { pages, inodes });
    let_go_all(holds);
}

/// Brings all pages of written files home, file by file; they are nobody's then.
fn bring_files(home: &mut Home, owners: &mut Owners, mut writes: Vec<WriteLease>)
    requires within { IsTrue (all_below (length home.old.pages) (sheet_numbers (flat_map file_sheets writes.items))) }
    requires table { length owners.old ≡ length home.old.pages }
    ensures home { home.new ≡ record home.old { pages = with_pages (flat_map file_sheets writes.items) home.old.pages } }
    ensures owners { owners.new ≡ with_all 0 (sheet_numbers (flat_map file_sheets writes.items)) owners.old }
{
    writes.reverse();
    while let Some(lease) = writes.pop() {
        bring_file(home, owners, lease);
    }
    writes.destroy_empty();
}

/// Brings the pages of one file home; they are nobody's then.
fn bring_file(home: &mut Home, owners: &mut Owners, lease: WriteLease)
    requires within { IsTrue (all_below (length home.old.pages) (sheet_numbers (file_sheets lease))) }
    requires table { length owners.old ≡ length home.old.pages }
    ensures home { home.new ≡ record home.old { pages = with_pages (file_sheets lease) home.old.pages } }
    ensures owners { owners.new ≡ with_all 0 (sheet_numbers (file_sheets lease)) owners.old }
{
    let WriteParts { index, blocks, .. } = lease.parts();
    disown(owners, &index);
    disown(owners, &blocks);
    bring_pages(home, index);
    bring_pages(home, blocks);
}

/// Makes lent pages nobody's.
fn disown(owners: &mut Owners, pages: &[LentPage])
    requires { IsTrue (all_below (length owners.old) (sheet_numbers (lent_sheets pages.now))) }
    ensures { owners.new ≡ with_all 0 (sheet_numbers (lent_sheets pages.now)) owners.old }
{
    for lent in pages {
        owners.set(lent.no, 0);
    }
}

/// Brings those blocks of these files home that no checkpoint covers.
fn bring_uncovered_blocks(home: &mut Home, mut writes: Vec<WriteLease>)
    requires { IsTrue (all_below (length home.old.pages) (sheet_numbers (flat_map uncovered_sheets writes.items))) }
    ensures { home.new ≡ record home.old { pages = with_pages (flat_map uncovered_sheets writes.items) home.old.pages } }
{
    writes.reverse();
    while let Some(lease) = writes.pop() {
        bring_blocks(home, lease);
    }
    writes.destroy_empty();
}

/// Brings the blocks of one file home, unless a checkpoint covers them by the body of the lease.
fn bring_blocks(home: &mut Home, lease: WriteLease)
    requires { IsTrue (all_below (length home.old.pages) (sheet_numbers (uncovered_sheets lease))) }
    ensures { home.new ≡ record home.old { pages = with_pages (uncovered_sheets lease) home.old.pages } }
{
    let WriteParts {
        kind,
        body,
        blocks,
        ..
    } = lease.parts();
    if !kind.covers_blocks(is_guarded(&body)) {
        bring_pages(home, blocks);
    }
}

/// Whether a body says that its file is guarded.
fn is_guarded(body: &[u8; 64]) -> bool
    ensures { result ≡ guard_in body.now }
{
    body[24] == 1
}

/// Puts lent pages in their places at home.
fn bring_pages(home: &mut Home, pages: Vec<LentPage>)
    requires { IsTrue (all_below (length home.old.pages) (sheet_numbers (lent_sheets pages.items))) }
    ensures { home.new ≡ record home.old { pages = with_pages (lent_sheets pages.items) home.old.pages } }
{
    for lent in pages {
        home.put(lent.no, lent.page);
    }
}
