//! The end of the grants that a bundle hands back.

ghost use Rattle.std.specs.Prelude.{◌≡◌, [], IsTrue, map, not};
ghost use Rattle.std.specs.List.{filter};
ghost use Rattle.trio_lists.specs.Lists.{are_new};
ghost use Rattle.trio_lease.specs.Views.{bundle_in};
ghost use Rattle.trio_state.specs.Bundles.{is_in_bundle};
ghost use Rattle.trio_open.specs.Open.{keyed};

use crate::open::OpenFile;
use trio_case::Case;
use trio_grants::GrantTable;
use trio_nodes::GrantKind;
use trio_rights::LibNo;

/// Ends the grants of the leases and holds of the case's bundle; the others stay, in their order.
/// Takes no memory.
pub fn end_files(files: &mut Vec<OpenFile>, grants: &mut GrantTable, lib: LibNo, case: &Case)
    requires table { grants.old ≡ map keyed files.old.items }
    requires once { IsTrue (are_new [] (map (λ o. o.key) files.old.items)) }
    ensures files { files.new.items ≡ filter (λ o. not (is_in_bundle lib.0 (bundle_in case.now.bundle) o.grant)) files.old.items }
    ensures table { grants.new ≡ map keyed files.new.items }
{
    end_grants(files, grants, lib, case);
    files.retain(|file| !ends(lib, case, file));
}

/// Ends these grants in the table.
fn end_grants(files: &[OpenFile], grants: &mut GrantTable, lib: LibNo, case: &Case)
    requires table { grants.old ≡ map keyed files.now }
    requires once { IsTrue (are_new [] (map (λ o. o.key) files.now)) }
    ensures { grants.new ≡ map keyed (filter (λ o. not (is_in_bundle lib.0 (bundle_in case.now.bundle) o.grant)) files.now) }
{
    for file in files {
        if ends(lib, case, file) {
            grants.end(file.key());
        }
    }
}

/// Whether the grant is that of a lease or a hold of this library's bundle.
fn ends(lib: LibNo, case: &Case, file: &OpenFile) -> bool
    ensures { result ≡ is_in_bundle lib.0 (bundle_in case.now.bundle) file.now.grant }
{
    file.lib() == lib
        && match file.kind() {
            GrantKind::Read => false,
            GrantKind::Write => case.is_written(file.ino()),
            GrantKind::Hold => case.lent_body(file.ino()).is_some(),
        }
}
