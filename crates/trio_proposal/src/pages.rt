//! The pages of a bundle, copied into their places.

ghost use Rattle.std.specs.Prelude.{◌≡◌, ◌<◌, ◌∷◌, [], IfOk, OnOk, length, map, vec_len};
ghost use Rattle.std.specs.List.{flat_map};
ghost use Rattle.trio_lists.specs.Marked.{MarksJust};
ghost use Rattle.trio_lease.specs.Views.{bundle_in, fresh_sheet, lent_sheet};
ghost use Rattle.trio_rights.specs.Bundle.{bundle_pages, bundle_sheets};
ghost use Rattle.trio_rights.specs.Sheets.{with_pages};
ghost use Rattle.trio_proposal.specs.inner.Steps.{ArePut, AreWithin, lease_sheets};

use crate::marks::{mark, no_marks};
use std::alloc::Global;
use trio_lease::{Bundle, FreshPage, WriteLease};
use trio_page::{Home, NoMemory, Page, PageNo};

/// Puts copies of all pages of a bundle in their places, and answers which pages these are.
pub(crate) fn put_bundle(
    alloc: Global,
    bundle: &Bundle,
    home: &mut Home,
) -> Result<Vec<bool>, NoMemory>
    requires { AreWithin (length home.old.pages) (bundle_sheets (bundle_in bundle.now)) }
    ensures pages { OnOk result (home.new.pages ≡ with_pages (bundle_sheets (bundle_in bundle.now)) home.old.pages) }
    ensures marks { IfOk result (λ marks. MarksJust marks.items (bundle_pages (bundle_in bundle.now))) }
    ensures len { IfOk result (λ marks. vec_len marks ≡ length home.old.pages) }
{
    let mut marks = no_marks(alloc, home.len())?;
    put_leases(alloc, bundle.writes(), home, &mut marks)?;
    put_fresh(alloc, bundle.pages(), home, &mut marks)?;
    Ok(marks)
}

/// The pages of each lease: its index pages, then its blocks.
fn put_leases(
    alloc: Global,
    leases: &[WriteLease],
    home: &mut Home,
    marks: &mut Vec<bool>,
) -> Result<(), NoMemory>
    requires { AreWithin (length home.old.pages) (flat_map lease_sheets leases.now) }
    ensures { OnOk result (ArePut (flat_map lease_sheets leases.now) home.old.pages home.new.pages marks.old.items marks.new.items) }
{
    for lease in leases {
        put_index(alloc, lease, home, marks)?;
        put_blocks(alloc, lease, home, marks)?;
    }
    Ok(())
}

/// The index pages of a lease.
fn put_index(
    alloc: Global,
    lease: &WriteLease,
    home: &mut Home,
    marks: &mut Vec<bool>,
) -> Result<(), NoMemory>
    requires { AreWithin (length home.old.pages) (map lent_sheet lease.now.stands.index) }
    ensures { OnOk result (ArePut (map lent_sheet lease.now.stands.index) home.old.pages home.new.pages marks.old.items marks.new.items) }
{
    for i in 0..usize::MAX {
        let (Some(no), Some(page)) = (lease.index_no(i), lease.index(i)) else {
            return Ok(());
        };
        put_copy(alloc, no, page, home, marks)?;
    }
    // so many pages fit in no memory
    Err(NoMemory)
}

/// The blocks of a lease.
fn put_blocks(
    alloc: Global,
    lease: &WriteLease,
    home: &mut Home,
    marks: &mut Vec<bool>,
) -> Result<(), NoMemory>
    requires { AreWithin (length home.old.pages) (map lent_sheet lease.now.stands.blocks) }
    ensures { OnOk result (ArePut (map lent_sheet lease.now.stands.blocks) home.old.pages home.new.pages marks.old.items marks.new.items) }
{
    for i in 0..usize::MAX {
        let (Some(no), Some(page)) = (lease.block_no(i), lease.block(i)) else {
            return Ok(());
        };
        put_copy(alloc, no, page, home, marks)?;
    }
    // so many pages fit in no memory
    Err(NoMemory)
}

/// The allotted pages.
fn put_fresh(
    alloc: Global,
    pages: &[FreshPage],
    home: &mut Home,
    marks: &mut Vec<bool>,
) -> Result<(), NoMemory>
    requires { AreWithin (length home.old.pages) (map fresh_sheet pages.now) }
    ensures { OnOk result (ArePut (map fresh_sheet pages.now) home.old.pages home.new.pages marks.old.items marks.new.items) }
{
    for page in pages {
        put_copy(alloc, page.no(), page.page(), home, marks)?;
    }
    Ok(())
}

/// Puts a copy of a page in the place of this number, and marks it.
fn put_copy(
    alloc: Global,
    no: PageNo,
    page: &Page,
    home: &mut Home,
    marks: &mut Vec<bool>,
) -> Result<(), NoMemory>
    requires { no.0 < length home.old.pages }
    ensures { OnOk result (ArePut (record { page = no.0; bytes = page.now } ∷ []) home.old.pages home.new.pages marks.old.items marks.new.items) }
{
    let copy = page.copy(alloc)?;
    home.put(no, copy);
    mark(marks, no.0);
    Ok(())
}
