//! Which file of the host a name leads to, and whether it is still that file.

use crate::counts::place;
use std::alloc::{AllocError as NoMemory, Global};
use std::fs::Metadata;
use std::io::ErrorKind;
use std::os::unix::fs::MetadataExt;
use std::path::PathBuf;
use std::rt::Files as Host;
use std::{fs, io};

/// Which file of the host it is, and how it stood at some time.
#[derive(Clone, Copy, PartialEq, Eq)]
pub(crate) struct Standing {
    device: u64,
    inode: u64,
    size: u64,
    seconds: i64,
    nanoseconds: i64,
}

impl Standing {
    /// The device and the number of the file, its size, and the time of its last write.
    pub fn of(metadata: &Metadata) -> Standing {
        Standing {
            device: metadata.dev(),
            inode: metadata.ino(),
            size: metadata.size(),
            seconds: metadata.mtime(),
            nanoseconds: metadata.mtime_nsec(),
        }
    }

    /// Whether both are one file, which may have changed.
    pub fn is_same_file(&self, other: &Standing) -> bool {
        self.device == other.device && self.inode == other.inode
    }
}

/// A name that is served, with what was read of all names.
#[derive(Clone, Copy)]
pub(crate) struct Target<'a> {
    pub name: &'a str,
    pub names: &'a [String],
    /// Each name's file as it stood at the first read of the name.
    pub first_reads: &'a [Option<Standing>],
    /// Of each name that was a link, the path of the file to which it led.
    pub links: &'a [Option<PathBuf>],
}

impl<'a> Target<'a> {
    /// The path of the file to which the name led, where it still leads there.
    pub fn known_path<R: Host>(&self, host: &R) -> Option<&'a str> {
        let path = match self.links.get(place(self.names, self.name))? {
            Some(path) => path.as_str(),
            None => return None,
        };
        match (standing_of(host, self.name), standing_of(host, path)) {
            (Ok(Some(now)), Ok(Some(there))) if now.is_same_file(&there) => Some(path),
            _ => None,
        }
    }

    /// Fails unless the name leads to the file that stood there, or to none where none did, and
    /// that file is as it was when it was read.
    pub fn check<R: Host>(&self, host: &R, stood: Option<Standing>) -> io::Result<()> {
        let now = standing_of(host, self.name)?;
        if is_one_file(stood, now) && self.is_as_read(host, now) {
            Ok(())
        } else {
            Err(io::Error::other("the file has changed meanwhile"))
        }
    }

    /// Whether each name that was read and leads to this file leads to it as it was read.
    fn is_as_read<R: Host>(&self, host: &R, now: Option<Standing>) -> bool {
        let own_place = place(self.names, self.name);
        for (i, name) in self.names.iter().enumerate() {
            if let Some(Some(first)) = self.first_reads.get(i) {
                let there = standing_of(host, name.as_str()).unwrap_or(None);
                let is_meant = i == own_place || is_one_file(there, now);
                if is_meant && there != Some(*first) {
                    return false;
                }
            }
        }
        true
    }
}

/// Of each name that is a link, the path of the file to which it leads, if it leads to one.
pub(crate) fn linked_paths<R: Host>(
    host: &R,
    alloc: Global,
    names: &[String],
) -> Result<Vec<Option<PathBuf>>, NoMemory> {
    let mut paths = Vec::with_capacity(alloc, names.len())?;
    for name in names {
        paths.push(linked_path(host, alloc, name.as_str())?)?;
    }
    Ok(paths)
}

fn linked_path<R: Host>(host: &R, alloc: Global, name: &str) -> Result<Option<PathBuf>, NoMemory> {
    if !is_link(host, name) {
        return Ok(None);
    }
    match host.canonicalize(alloc, name) {
        Ok(path) => Ok(Some(path)),
        Err(error) if error.kind() == ErrorKind::OutOfMemory => Err(NoMemory),
        Err(_) => Ok(None),
    }
}

/// Whether a name is a link of the host.
pub(crate) fn is_link<R: Host>(host: &R, name: &str) -> bool {
    match fs::symlink_metadata(host, name) {
        Ok(metadata) => metadata.is_symlink(),
        Err(_) => false,
    }
}

/// Whether both are one file, or both are none.
fn is_one_file(one: Option<Standing>, other: Option<Standing>) -> bool {
    match (one, other) {
        (Some(one), Some(other)) => one.is_same_file(&other),
        (None, None) => true,
        _ => false,
    }
}

/// The file that a name leads to. `None` where there is none.
fn standing_of<R: Host>(host: &R, name: &str) -> io::Result<Option<Standing>> {
    match fs::metadata(host, name) {
        Ok(metadata) => Ok(Some(Standing::of(&metadata))),
        Err(error) if error.kind() == ErrorKind::NotFound => Ok(None),
        Err(error) => Err(error),
    }
}
