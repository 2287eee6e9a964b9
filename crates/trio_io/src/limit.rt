//! The host's limit on the size of a file.

use std::fs::File;
use std::io::Read;
use std::rt::Files as Host;
use std::{fs, io, str};

/// Fails where the host tells that this process may write no file of so many bytes. A write past that
/// limit would end the process by a signal.
pub(crate) fn check_size<R: Host<File = File>>(host: &R, bytes: &[u8]) -> io::Result<()> {
    match told_limit(host) {
        Some(limit) if bytes.len() as u64 > limit => {
            Err(io::Error::other("the file would be larger than the limit on file sizes"))
        }
        _ => Ok(()),
    }
}

/// The most bytes that a file written by this process may have. `None` where the host tells no limit.
fn told_limit<R: Host<File = File>>(host: &R) -> Option<u64> {
    let mut buf = [0; 4096];
    let mut limits = fs::open(host, "/proc/self/limits").ok()?;
    let count = limits.read(&mut buf).ok()?;
    limit_in(str::from_utf8(buf.get(..count)?).ok()?)
}

/// The limit on file sizes in the text of `/proc/self/limits`. `None` where it has none.
fn limit_in(limits: &str) -> Option<u64> {
    for line in limits.lines() {
        if let Some(values) = line.strip_prefix("Max file size") {
            return values.split_ascii_whitespace().next()?.parse().ok();
        }
    }
    None
}
