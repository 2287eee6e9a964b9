//! The host's files and its standard output. They tell no content, and count each error of the
//! host.
//!
//! This is the trusted edge. Proved are its safety, its counts, and that its loops pass on all
//! bytes that a reader gives or a writer takes. That the host's calls reach the file of that name,
//! at that offset, and that a file is replaced whole or not at all, is trusted;
//! `scripts/real-files` shows it.

ghost use Rattle.std.specs.Prelude.{◌≡◌, ◌≤◌, ◌↔◌, length, None, false, Contains, IsTrue, IfOk, OnErr, List, ℕ};
ghost use Rattle.trio_io.specs.Names.{texts_of, count_of};
ghost use Rattle.trio_io.specs.Shelf.{Rose, NoFaults};

use crate::counts::{FaultCounts, is_among, place};
use crate::replacing::replace_file;
use crate::standing::{Standing, Target, linked_paths};
use crate::streams::{HostErrors, counted, fill, write_all};
use crate::temporary::NAME_LENGTH;
use crate::{Failed, Files, MAX_OFFSET, Sink};
use std::alloc::{AllocError as NoMemory, Global};
use std::fs::File;
use std::io::{Seek, SeekFrom};
use std::path::PathBuf;
use std::rt::Files as Host;
use std::{fs, io};

/// The host's files. A name is a path of the host.
///
/// The file that was read last stays open, and a read that begins where the last one ended goes on
/// from there. So a pipe can be read in order; any other read of one fails.
///
/// A regular file is replaced whole or not at all: a temporary file is written beside it, synced and
/// renamed over it. Its mode stays, but for the set-id bits where the owner or the group is another.
/// Where a name leads to a regular file through a link, that file is replaced and the link stays. A
/// file that may not be written isn't replaced. What is no regular file, as a device or a pipe, is
/// written in place, and a device of blocks is then synced.
///
/// A file is replaced only where it is still the file that stood there when the write began, and, if
/// it was read under any name, as it was at the first read: of the same device, number, size and time
/// of its last write. Else the write fails. The old file is locked for this look and the rename, and
/// the write fails where somebody else has locked it. So of two runs that read and replace one file
/// at once, only one succeeds. A program that heeds no lock can still change the file between the look
/// and the rename, and so can any where the host has no locks or where no file stood.
///
/// A temporary file is locked while it is written. One that nobody has locked was left by a run that
/// was killed, and a write that would take its name removes it.
///
/// A regular file isn't replaced by more bytes than the process may write into one.
///
/// The memory for a temporary file's path is taken beforehand, and that for where a link leads. Where a
/// link was changed since and there is no memory for where it leads now, the write fails.
///
/// An error of the host that makes a call fail raises the count of its name and direction. A call
/// that was interrupted raises it too, and is made again. It changes nothing that the host has no
/// locks, or that it can't remove a temporary file that was left or sync a folder.
#[derive(Drop)]
pub struct RealFiles<'a, R: Host<File = File>> {
    host: &'a R,
    alloc: Global,
    counts: FaultCounts,
    last_read: Option<OpenRead>,
    first_reads: Vec<Option<Standing>>,
    links: Vec<Option<PathBuf>>,
    path: String,
    last_fault: Option<(usize, io::Error)>,
}

/// An open file, with the place of its name, how it stood when it was opened, and the offset that
/// has been read up to.
#[derive(Drop)]
struct OpenRead {
    place: usize,
    file: File,
    standing: Standing,
    end: u64,
}

impl<'a, R: Host<File = File>> RealFiles<'a, R> {
    /// Serves these names. No file is touched yet.
    pub fn new(host: &'a R, alloc: Global, names: Vec<String>) -> Result<RealFiles<'a, R>, NoMemory>
        ensures serves { IfOk result
            (λ files. (⟦<RealFiles<'a, R> as Files>⟧.seen files).served ≡ texts_of names.items) }
        ensures tells { IfOk result
            (λ files. (⟦<RealFiles<'a, R> as Files>⟧.seen files).tells ≡ false) }
        ensures untold { IfOk result
            (λ files. (q : List ℕ) → (⟦<RealFiles<'a, R> as Files>⟧.seen files).held q ≡ None) }
        ensures faults { IfOk result
            (λ files. NoFaults (⟦<RealFiles<'a, R> as Files>⟧.seen files)) }
    {
        let first_reads = vec![in alloc; None; names.len()]?;
        let links = linked_paths(host, alloc, &names)?;
        let most = longest(&names).max(longest_path(&links));
        let path = String::with_capacity(alloc, most.saturating_add(NAME_LENGTH))?;
        Ok(RealFiles {
            host,
            alloc,
            counts: FaultCounts::new(alloc, names)?,
            last_read: None,
            first_reads,
            links,
            path,
            last_fault: None,
        })
    }

    /// The name and the error of the last call that failed. `None` where none has.
    pub fn last_fault(&self) -> Option<(&str, io::Error)> {
        let (place, error) = self.last_fault?;
        let name = self.counts.names.get(place)?;
        Some((name.as_str(), error))
    }

    /// Keeps the last error of a call that failed.
    fn keep_fault(&mut self, place: usize, errors: &HostErrors, has_failed: bool)
        ensures { self.new.counts ≡ self.old.counts }
    {
        if let Some(error) = errors.last {
            if has_failed {
                self.last_fault = Some((place, error));
            }
        }
    }

    /// Whether this name may be asked for.
    pub fn serves(&self, name: &str) -> bool
        ensures { IsTrue result
            ↔ Contains (⟦<RealFiles<'a, R> as Files>⟧.seen self.now).served name.now }
    {
        is_among(&self.counts.names, name)
    }
}

/// The length of the longest of these names.
fn longest(names: &[String]) -> usize {
    let mut most = 0;
    for name in names {
        most = most.max(name.len());
    }
    most
}

/// The length of the longest of these paths.
fn longest_path(paths: &[Option<PathBuf>]) -> usize {
    let mut most = 0;
    for path in paths {
        if let Some(path) = path {
            most = most.max(path.as_str().len());
        }
    }
    most
}

/// Reads a file from an offset on until the buffer is full or the file has ended: the file that was
/// read last goes on where it can, and else the file is opened anew. It stays open unless it failed.
fn read_on<R: Host<File = File>>(
    host: &R,
    last_read: &mut Option<OpenRead>,
    place: usize,
    name: &str,
    at: u64,
    buf: &mut [u8],
    errors: &mut HostErrors,
) -> Result<usize, Failed>
    requires { at ≤ MAX_OFFSET }
    ensures bound { IfOk result (λ n. n ≤ length buf.new) }
    ensures cause { OnErr result (Rose errors.old.count errors.new.count) }
    ensures later { errors.old.count ≤ errors.new.count }
{
    let mut from = match last_read.take() {
        Some(last) if last.place == place && last.end == at => last,
        _ => open_at(host, place, name, at, errors)?,
    };
    let count = fill(&mut from.file, buf, errors)?;
    from.end = at + count as u64;
    *last_read = Some(from);
    Ok(count)
}

/// Opens a file to be read from an offset on.
fn open_at<R: Host<File = File>>(
    host: &R,
    place: usize,
    name: &str,
    at: u64,
    errors: &mut HostErrors,
) -> Result<OpenRead, Failed>
    ensures cause { OnErr result (Rose errors.old.count errors.new.count) }
    ensures later { errors.old.count ≤ errors.new.count }
{
    let mut file = counted(fs::open(host, name), errors)?;
    let standing = Standing::of(&counted(file.metadata(), errors)?);
    // (a pipe has no offset to begin at)
    if at > 0 {
        counted(file.seek(SeekFrom::Start(at)), errors)?;
    }
    Ok(OpenRead {
        place,
        file,
        standing,
        end: at,
    })
}

/// Notes what a name's first read came from.
fn note_first(first_reads: &mut [Option<Standing>], last_read: &Option<OpenRead>) {
    if let Some(last) = last_read {
        if let Some(first) = first_reads.get_mut(last.place) {
            if first.is_none() {
                *first = Some(last.standing);
            }
        }
    }
}

/// Forgets what a name's first read came from.
fn forget_first(first_reads: &mut [Option<Standing>], place: usize) {
    if let Some(first) = first_reads.get_mut(place) {
        *first = None;
    }
}

impl<R: Host<File = File>> Files for RealFiles<'_, R> {
    ghost seen = { λ s. record {
      served = texts_of s.counts.names.items;
      tells = false;
      held = λ _. None;
      read_faults = count_of s.counts.names.items s.counts.reads.items;
      write_faults = count_of s.counts.names.items s.counts.writes.items;
    } };

    fn read_at(&mut self, name: &str, at: u64, buf: &mut [u8]) -> Result<usize, Failed> {
        let mut errors = HostErrors::from(self.counts.read_count(name));
        let place = place(&self.counts.names, name);
        let last_read = &mut self.last_read;
        let result = read_on(self.host, last_read, place, name, at, buf, &mut errors);
        note_first(&mut self.first_reads, &self.last_read);
        self.keep_fault(place, &errors, result.is_err());
        let faults = errors.count;
        self.counts.set_read_count(name, faults);
        result
    }

    fn replace(&mut self, name: &str, bytes: &[u8]) -> Result<(), Failed> {
        // what stays open may be the file that is replaced
        self.last_read = None;
        let counts = &self.counts;
        let mut errors = HostErrors::from(counts.write_count(name));
        let place = place(&counts.names, name);
        let target = Target {
            name,
            names: &counts.names,
            first_reads: &self.first_reads,
            links: &self.links,
        };
        let path = &mut self.path;
        let result = replace_file(self.host, self.alloc, path, &target, bytes, &mut errors);
        if result.is_ok() {
            forget_first(&mut self.first_reads, place);
        }
        self.keep_fault(place, &errors, result.is_err());
        let faults = errors.count;
        self.counts.set_write_count(name, faults);
        result
    }
}

/// The standard output.
///
/// Each error of the host raises the count of its faults. A call that was interrupted is made again; any other
/// error is answered by `Failed`.
#[derive(Drop)]
pub struct StdoutSink<'a, P: Print> {
    to: &'a P,
    errors: HostErrors,
}

impl<'a, P: Print> StdoutSink<'a, P> {
    /// Nothing is printed yet.
    pub fn new(to: &'a P) -> StdoutSink<'a, P>
        ensures written { (⟦<StdoutSink<'a, P> as Sink>⟧.seen result).written ≡ None }
        ensures faults { (⟦<StdoutSink<'a, P> as Sink>⟧.seen result).faults ≡ 0 }
    {
        StdoutSink {
            to,
            errors: HostErrors::from(0),
        }
    }

    /// The error of the last call, where that failed.
    pub fn last_fault(&self) -> Option<io::Error> {
        self.errors.last
    }
}

impl<P: Print> Sink for StdoutSink<'_, P> {
    ghost seen = { λ s. record { written = None; faults = s.errors.count } };

    fn put(&mut self, bytes: &[u8]) -> Result<(), Failed> {
        let result = write_all(&mut io::writer(self.to), bytes, &mut self.errors);
        if result.is_ok() {
            self.errors.last = None;
        }
        result
    }
}
