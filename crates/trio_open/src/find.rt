//! Finding a grant among those that are open.

ghost use Rattle.std.specs.Prelude.{◌≡◌, ◌==◌, ◌&&◌, ◌<◌, Some};
ghost use Rattle.std.specs.List.{find, list_any, position};
ghost use Rattle.std.specs.Option.{option_map};
ghost use Rattle.trio_nodes.specs.GrantKinds.{is_read};
ghost use Rattle.trio_open.specs.inner.Modes.{is_around, is_back, stays_around};
ghost use Rattle.trio_open.specs.inner.Reads.{is_read_of};

use crate::open::OpenFile;
use trio_grants::GrantKey;
use trio_lease::ReadLease;
use trio_nodes::GrantKind;
use trio_rights::LibNo;

/// The place of the library's grant for reading a file.
pub fn place_of_read(files: &[OpenFile], lib: LibNo, ino: u32) -> Option<usize>
    ensures { result ≡ position (λ o. is_read_of lib.0 ino o.grant) files.now }
{
    files.iter().position(|file| is_read_of(lib, ino, file))
}

/// Whether the grant is the library's for reading the file.
fn is_read_of(lib: LibNo, ino: u32, file: &OpenFile) -> bool
    ensures { result ≡ is_read_of lib.0 ino file.now.grant }
{
    file.lib() == lib && file.ino() == ino && file.kind() == GrantKind::Read
}

/// The key of the first grant that is on one of two files and stays when these leases of a library
/// are given back.
pub fn key_around(
    files: &[OpenFile],
    lib: LibNo,
    ino: u32,
    parent: u32,
    back: &[ReadLease],
) -> Option<GrantKey>
    ensures { result ≡ option_map (λ o. o.key) (find (λ o. stays_around lib.0 ino parent back.now o.grant) files.now) }
{
    let file = files.iter().find(|file| is_around(ino, parent, file) && !is_back(lib, back, file))?;
    Some(file.key())
}

/// Whether the grant is the library's for reading one of the files of these leases.
fn is_back(lib: LibNo, back: &[ReadLease], file: &OpenFile) -> bool
    ensures { result ≡ is_back lib.0 back.now file.now.grant }
{
    is_read_by(lib, file) && has_lease(back, file.ino())
}

/// Whether the grant is the library's for reading its file.
fn is_read_by(lib: LibNo, file: &OpenFile) -> bool
    ensures { result ≡ (file.now.grant.lib == lib.0 && is_read file.now.grant.kind) }
{
    file.lib() == lib && file.kind() == GrantKind::Read
}

/// Whether one of these leases is on the file of this number.
fn has_lease(back: &[ReadLease], ino: u32) -> bool
    ensures { result ≡ list_any (λ f. ino == f.ino) back.now }
{
    back.iter().any(|lease| ino == lease.ino())
}

/// Whether the grant is on one of two files.
fn is_around(ino: u32, parent: u32, file: &OpenFile) -> bool
    ensures { result ≡ is_around ino parent file.now.grant }
{
    file.ino() == ino || file.ino() == parent
}
