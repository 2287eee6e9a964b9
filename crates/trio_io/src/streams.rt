//! Loops over the host's reads and writes, and its errors.
//!
//! A call that was interrupted is made again. Each error of the host raises a count, and any other
//! error than that is answered by [`Failed`].

ghost use Rattle.std.specs.Prelude.{◌≡◌, ◌<◌, ◌≤◌, length, take, IfOk, OnOk, OnErr, Ok, ℕ};
ghost use Rattle.std.specs.Io.KnownBytes.{Appends, Consumes, IsAtEnd};
ghost use Rattle.trio_io.specs.Shelf.{Rose};

use crate::Failed;
use std::io;
use std::io::{ErrorKind, Read, Write};

/// How many errors of the host there were, and the last of those since this was made.
#[derive(Clone, Copy)]
pub(crate) struct HostErrors {
    pub count: u64,
    pub last: Option<io::Error>,
}

impl HostErrors {
    /// None but those of this count.
    pub fn from(count: u64) -> HostErrors
        ensures { result.count ≡ count }
    {
        HostErrors { count, last: None }
    }
}

/// Counts an error of the host, unless the count stands at its last value.
pub(crate) fn failed(error: io::Error, errors: &mut HostErrors) -> Failed
    ensures rose { Rose errors.old.count errors.new.count }
    ensures later { errors.old.count ≤ errors.new.count }
{
    errors.count = errors.count.saturating_add(1);
    errors.last = Some(error);
    Failed
}

/// What the host answered, where an error of it is counted.
pub(crate) fn counted<T>(answer: io::Result<T>, errors: &mut HostErrors) -> Result<T, Failed>
    ensures same { IfOk result (λ value. answer ≡ Ok value) }
    ensures cause { OnErr result (Rose errors.old.count errors.new.count) }
    ensures later { errors.old.count ≤ errors.new.count }
{
    match answer {
        Ok(value) => Ok(value),
        Err(error) => Err(failed(error, errors)),
    }
}

/// Reads until the buffer is full or there is no more.
pub(crate) fn fill<R: Read>(
    from: &mut R,
    buf: &mut [u8],
    errors: &mut HostErrors,
) -> Result<usize, Failed>
    ensures bound { IfOk result (λ n. n ≤ length buf.new) }
    ensures bytes { IfOk result
        (λ n. Consumes (R.remaining from.old) (R.remaining from.new) (take n buf.new)) }
    ensures end { IfOk result (λ n. n < length buf.new → IsAtEnd (R.remaining from.new)) }
    ensures cause { OnErr result (Rose errors.old.count errors.new.count) }
    ensures later { errors.old.count ≤ errors.new.count }
{
    let mut filled = 0;
    for _ in 0..u64::MAX {
        if filled == buf.len() {
            return Ok(filled);
        }
        match from.read(&mut buf[filled..]) {
            Ok(0) => return Ok(filled),
            Ok(count) => filled += count,
            Err(error) => {
                let failure = failed(error, errors);
                if error.kind() != ErrorKind::Interrupted {
                    return Err(failure);
                }
            }
        }
    }
    Err(failed(io::Error::from(ErrorKind::Other), errors))
}

/// Writes all of the bytes.
pub(crate) fn write_all<W: Write>(
    to: &mut W,
    bytes: &[u8],
    errors: &mut HostErrors,
) -> Result<(), Failed>
    ensures all { OnOk result (Appends (W.contents to.old) (W.contents to.new) bytes.now) }
    ensures part { OnErr result
        ((n : ℕ) × Appends (W.contents to.old) (W.contents to.new) (take n bytes.now)) }
    ensures cause { OnErr result (Rose errors.old.count errors.new.count) }
    ensures later { errors.old.count ≤ errors.new.count }
{
    let mut written = 0;
    for _ in 0..u64::MAX {
        if written == bytes.len() {
            return Ok(());
        }
        match to.write(&bytes[written..]) {
            Ok(0) => return Err(failed(io::Error::from(ErrorKind::WriteZero), errors)),
            Ok(count) => written += count,
            Err(error) => {
                let failure = failed(error, errors);
                if error.kind() != ErrorKind::Interrupted {
                    return Err(failure);
                }
            }
        }
    }
    Err(failed(io::Error::from(ErrorKind::Other), errors))
}
