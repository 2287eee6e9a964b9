//! Temporary files of the host, each locked as long as it is written.

use crate::standing::Standing;
use std::alloc::AllocError as NoMemory;
use std::fmt::Write;
use std::fs::{File, OpenOptions, TryLockError};
use std::io::ErrorKind;
use std::os::unix::fs::OpenOptionsExt;
use std::rt::Files as Host;
use std::{fs, io};

/// How many names are tried for a temporary file.
const TEMPORARY_NAMES: usize = 100;

/// The most bytes that a temporary file's name has in its folder.
pub(crate) const NAME_LENGTH: usize = 12;

/// Makes a file of this mode in the folder of another, and locks it. `path` gets its path.
///
/// It gets the first name that nothing has. A regular file that has such a name and isn't locked was
/// left by a run that was killed, and is removed.
pub(crate) fn create_beside<R: Host<File = File>>(
    host: &R,
    path: &mut String,
    place: &str,
    mode: u32,
) -> io::Result<File> {
    let mut options = OpenOptions::new();
    options.write(true).create_new(true).mode(mode);
    for number in 0..TEMPORARY_NAMES {
        set_temporary(path, place, number)?;
        let _ = remove_stale(host, path.as_str());
        match options.open(host, path.as_str()) {
            Ok(file) => {
                // (else another run held it for stale before the lock)
                if lock(&file).is_ok() && is_at(host, path.as_str(), &file) {
                    return Ok(file);
                }
            }
            Err(error) if error.kind() == ErrorKind::AlreadyExists => {}
            Err(error) => return Err(error),
        }
    }
    Err(io::Error::from(ErrorKind::AlreadyExists))
}

/// Removes a regular file that nobody has locked. Only the holder of its lock removes a file.
fn remove_stale<R: Host<File = File>>(host: &R, path: &str) -> io::Result<()> {
    if !fs::symlink_metadata(host, path)?.is_file() {
        return Ok(());
    }
    let file = OpenOptions::new().write(true).open(host, path)?;
    if lock(&file)? && is_at(host, path, &file) {
        fs::remove_file(host, path)?;
    }
    Ok(())
}

/// Whether a path leads to this file, and not through a link.
fn is_at<R: Host>(host: &R, path: &str, file: &File) -> bool {
    match (fs::symlink_metadata(host, path), file.metadata()) {
        (Ok(there), Ok(metadata)) => Standing::of(&there).is_same_file(&Standing::of(&metadata)),
        _ => false,
    }
}

/// Locks a file until it is closed, unless somebody else has locked it. `false` where the host has
/// no locks.
pub(crate) fn lock(file: &File) -> io::Result<bool> {
    match file.try_lock() {
        Ok(()) => Ok(true),
        Err(TryLockError::WouldBlock) => {
            let message = "another program has locked the file";
            Err(io::Error::new(ErrorKind::WouldBlock, message))
        }
        Err(TryLockError::Error(_)) => Ok(false),
    }
}

/// Sets a path to that of a temporary file beside a place.
fn set_temporary(path: &mut String, place: &str, number: usize) -> io::Result<()> {
    set_beside(path, place, ".trio-")?;
    write!(path, "{number}.tmp")?;
    Ok(())
}

/// Sets a path to that of a name in the folder of a place.
pub(crate) fn set_beside(path: &mut String, place: &str, name: &str) -> Result<(), NoMemory> {
    path.clear();
    if let Some((folder, _)) = place.rsplit_once('/') {
        path.push_str(folder)?;
        path.push_str("/")?;
    }
    path.push_str(name)
}
