//! A file of the host gets a new content, and none is lost on the way.

ghost use Rattle.std.specs.Prelude.{◌≤◌, OnErr, OnOk};
ghost use Rattle.std.specs.Io.KnownBytes.{Appends};
ghost use Rattle.trio_io.specs.Shelf.{Rose};

use crate::Failed;
use crate::limit::check_size;
use crate::standing::{Standing, Target, is_link};
use crate::streams::{HostErrors, counted, failed, write_all};
use crate::temporary::{create_beside, lock, set_beside};
use std::alloc::Global;
use std::fs::{File, Metadata, OpenFile, OpenOptions, Permissions};
use std::io::{ErrorKind, Write};
use std::os::unix::fs::{FileTypeExt, MetadataExt, PermissionsExt};
use std::rt::Files as Host;
use std::{fs, io};

/// The bits of a mode that lend the owner's and the group's rights to whoever runs the file.
const SET_ID_BITS: u32 = 0o6000;

/// The file that stood at a name, opened to be written.
#[derive(Drop)]
struct OldFile {
    file: File,
    metadata: Metadata,
}

/// Makes these bytes the whole content of a file. `path` gets the names that are needed, and has room for
/// those beside a target that leads where it led before.
///
/// A regular file, or none, is replaced by a temporary file that was written and synced beside it:
/// whatever happens, the old content or the new one stands whole. It may be replaced only where it
/// may be written, and only where it is still the file that was read. Its mode stays, as
/// [`kept_permissions`] says. Anything else, as a device or a pipe, is written in place.
pub(crate) fn replace_file<R: Host<File = File>>(
    host: &R,
    alloc: Global,
    path: &mut String,
    target: &Target<'_>,
    bytes: &[u8],
    errors: &mut HostErrors,
) -> Result<(), Failed>
    ensures cause { OnErr result (Rose errors.old.count errors.new.count) }
    ensures later { errors.old.count ≤ errors.new.count }
{
    match OpenOptions::new().write(true).open(host, target.name) {
        Ok(mut file) => {
            let metadata = counted(file.metadata(), errors)?;
            if metadata.is_file() {
                let old = Some(OldFile { file, metadata });
                replace_regular(host, alloc, path, target, &old, bytes, errors)
            } else {
                write_in_place(&mut file, &metadata, bytes, errors)
            }
        }
        Err(error) if error.kind() == ErrorKind::NotFound => {
            replace_regular(host, alloc, path, target, &None, bytes, errors)
        }
        Err(error) => Err(failed(error, errors)),
    }
}

/// Writes to what is no regular file. A device that keeps blocks is then synced.
fn write_in_place<F: OpenFile + Write>(
    file: &mut F,
    metadata: &Metadata,
    bytes: &[u8],
    errors: &mut HostErrors,
) -> Result<(), Failed>
    ensures all { OnOk result (Appends (F.contents file.old) (F.contents file.new) bytes.now) }
    ensures cause { OnErr result (Rose errors.old.count errors.new.count) }
    ensures later { errors.old.count ≤ errors.new.count }
{
    write_all(file, bytes, errors)?;
    if metadata.file_type().is_block_device() {
        counted(file.sync_all(), errors)?;
    }
    Ok(())
}

/// Replaces a regular file, or none, and sees to it that the disk knows the new one by its name. An
/// error of the latter changes nothing: the new content stands whole already.
fn replace_regular<R: Host<File = File>>(
    host: &R,
    alloc: Global,
    path: &mut String,
    target: &Target<'_>,
    old: &Option<OldFile>,
    bytes: &[u8],
    errors: &mut HostErrors,
) -> Result<(), Failed>
    ensures cause { OnErr result (Rose errors.old.count errors.new.count) }
    ensures later { errors.old.count ≤ errors.new.count }
{
    let is_link = is_link(host, target.name);
    let known = if is_link {
        target.known_path(host)
    } else {
        None
    };
    let found = if is_link && known.is_none() {
        Some(counted(host.canonicalize(alloc, target.name), errors)?)
    } else {
        None
    };
    let place = match (known, &found) {
        (Some(path), _) => path,
        (None, Some(path)) => path.as_str(),
        (None, None) => target.name,
    };
    write_and_rename(host, path, place, target, old, bytes, errors)?;
    let _ = sync_folder(host, path, place);
    Ok(())
}

/// Writes a temporary file beside a path and renames it to that path, or removes it.
fn write_and_rename<R: Host<File = File>>(
    host: &R,
    path: &mut String,
    place: &str,
    target: &Target<'_>,
    old: &Option<OldFile>,
    bytes: &[u8],
    errors: &mut HostErrors,
) -> Result<(), Failed>
    ensures cause { OnErr result (Rose errors.old.count errors.new.count) }
    ensures later { errors.old.count ≤ errors.new.count }
{
    let old_metadata = match old {
        Some(old) => Some(&old.metadata),
        None => None,
    };
    let mode = first_mode(old_metadata);
    counted(check_size(host, bytes), errors)?;
    let mut new = counted(create_beside(host, path, place, mode), errors)?;
    let replaced = match write_synced(&mut new, old_metadata, bytes, errors) {
        Ok(()) => counted(rename_over(host, path, place, target, old), errors),
        Err(failure) => Err(failure),
    };
    // (while it is locked, no other run takes its name)
    if replaced.is_err() {
        let _ = fs::remove_file(host, path.as_str());
    }
    replaced
}

/// The mode that a temporary file begins with. Nobody may do with it what the old file's mode keeps from
/// them.
fn first_mode(old: Option<&Metadata>) -> u32 {
    match old {
        Some(old) => old.permissions().mode() & 0o777,
        None => 0o666,
    }
}

/// Gives a new file its content and the permissions of an old one, and sees to it that the disk has
/// them.
fn write_synced<F: OpenFile + Write>(
    file: &mut F,
    old: Option<&Metadata>,
    bytes: &[u8],
    errors: &mut HostErrors,
) -> Result<(), Failed>
    ensures all { OnOk result (Appends (F.contents file.old) (F.contents file.new) bytes.now) }
    ensures cause { OnErr result (Rose errors.old.count errors.new.count) }
    ensures later { errors.old.count ≤ errors.new.count }
{
    write_all(file, bytes, errors)?;
    if let Some(old) = old {
        let new = counted(file.metadata(), errors)?;
        counted(file.set_permissions(kept_permissions(old, &new)), errors)?;
    }
    counted(file.sync_all(), errors)
}

/// The old file's permissions for the new one, without the set-id bits where the new one has another
/// owner or group.
fn kept_permissions(old: &Metadata, new: &Metadata) -> Permissions {
    let mode = old.permissions().mode();
    if old.uid() == new.uid() && old.gid() == new.gid() {
        Permissions::from_mode(mode)
    } else {
        Permissions::from_mode(mode & !SET_ID_BITS)
    }
}

/// Renames a file over the old one, unless that has changed or somebody else has locked it.
/// The lock on the old file lasts until the old file is closed.
fn rename_over<R: Host>(
    host: &R,
    path: &str,
    place: &str,
    target: &Target<'_>,
    old: &Option<OldFile>,
) -> io::Result<()> {
    let stood = match old {
        Some(old) => {
            lock(&old.file)?;
            Some(Standing::of(&old.metadata))
        }
        None => None,
    };
    target.check(host, stood)?;
    fs::rename(host, path, place)
}

/// Sees to it that the disk knows a file by its new name. Some hosts and folders don't grant that.
fn sync_folder<R: Host>(host: &R, path: &mut String, place: &str) -> io::Result<()> {
    set_beside(path, place, ".")?;
    fs::open(host, path.as_str())?.sync_all()
}
