//! Bundles that are not closed.

ghost use Rattle.std.specs.Prelude.{◌≡◌, ◌==◌, Some, if◌then◌else◌, not};
ghost use Rattle.std.specs.List.{list_any};
ghost use Rattle.trio_rights.specs.Bundle.{is_written};
ghost use Rattle.trio_rights.specs.Row.{row_in};
ghost use Rattle.trio_lists.specs.Lists.{is_among};
ghost use Rattle.trio_lease.specs.Views.{bundle_in};
ghost use Rattle.trio_state.specs.Bundles.{is_parent_written, lower};
ghost use Rattle.trio_open.specs.inner.Parting.{is_parted_by, lowest_parted};

use crate::open::OpenFile;
use trio_lease::Bundle;
use trio_nodes::GrantKind;
use trio_rights::LibNo;
use trio_tables::Shadow;

/// The lowest number that the library holds at which the bundle is not closed: of the hold and the
/// library's lease on the file's directory just one is in the bundle.
pub fn parted_hold(files: &[OpenFile], rows: &Shadow, lib: LibNo, bundle: &Bundle) -> Option<u32>
    ensures { result ≡ lowest_parted rows.now lib.0 (bundle_in bundle.now) files.now }
{
    let mut lowest = None;
    for file in files {
        if is_parted(rows, lib, bundle, file) {
            lowest = Some(lower(file.ino(), lowest));
        }
    }
    lowest
}

/// Whether the grant is a hold of the library at which the bundle is not closed.
fn is_parted(rows: &Shadow, lib: LibNo, bundle: &Bundle, file: &OpenFile) -> bool
    ensures { result ≡ is_parted_by rows.now lib.0 (bundle_in bundle.now) file.now.grant }
{
    file.lib() == lib && file.kind() == GrantKind::Hold && is_apart(rows, bundle, file.ino())
}

/// Whether just one of the file's hold and the lease on its directory is in the bundle.
fn is_apart(rows: &Shadow, bundle: &Bundle, ino: u32) -> bool
    ensures { let parent = is_parent_written (bundle_in bundle.now) (row_in rows.now ino) in
        result ≡ (if is_among ino (bundle_in bundle.now).holds then not parent else parent) }
{
    let is_parent_in = is_parent_in(rows, bundle, ino);
    if is_held(bundle, ino) {
        !is_parent_in
    } else {
        is_parent_in
    }
}

/// Whether the bundle has the lease on the directory that lists the file.
fn is_parent_in(rows: &Shadow, bundle: &Bundle, ino: u32) -> bool
    ensures { result ≡ is_parent_written (bundle_in bundle.now) (row_in rows.now ino) }
{
    match rows.row(ino) {
        Some(row) => is_written(bundle, row.parent),
        None => false,
    }
}

/// The lower of a number and of one that may be there.
fn lower(ino: u32, other: Option<u32>) -> u32
    ensures { Some result ≡ lower ino other }
{
    match other {
        Some(other) if other < ino => other,
        _ => ino,
    }
}

/// Whether the bundle has a write lease on this number.
fn is_written(bundle: &Bundle, ino: u32) -> bool
    ensures { result ≡ is_written (bundle_in bundle.now) ino }
{
    has_lease(bundle, ino)
}

/// Whether the bundle has a hold on this number.
fn is_held(bundle: &Bundle, ino: u32) -> bool
    ensures { result ≡ is_among ino (bundle_in bundle.now).holds }
{
    has_hold(bundle, ino)
}

fn has_lease(bundle: &Bundle, ino: u32) -> bool
    ensures { result ≡ list_any (λ f. f.stands.ino == ino) bundle.now.writes }
{
    bundle.writes().iter().any(|lease| lease.ino() == ino)
}

fn has_hold(bundle: &Bundle, ino: u32) -> bool
    ensures { result ≡ list_any (λ h. h.ino == ino) bundle.now.holds }
{
    bundle.holds().iter().any(|hold| hold.ino() == ino)
}
