//! A whole file as bytes.

ghost use Rattle.std.specs.Prelude.{◌≡◌, ◌≤◌, length, Contains, IfOk, IsErrOf};
ghost use Rattle.trio_io.specs.Shelf.{Rose, IsTold, IsLonger, OnlyReads};
ghost use Rattle.trio_io.specs.declared.whole.ReadWholeFault.TheVariants.{NoMemory as lacking};

use crate::{Files, MAX_OFFSET};
use std::alloc::{AllocError, Global};

/// Why a whole file wasn't read. The files are as before, but for the count of a read that failed.
#[derive(Clone, Copy, Debug, PartialEq, Eq)]
pub enum ReadWholeFault {
    /// A read failed, and `read_faults` of the name rose.
    ReadFault,
    /// The file is longer than the limit.
    TooLong,
    /// There is no memory for the bytes.
    NoMemory,
}

impl From<AllocError> for ReadWholeFault {
    ghost from_gives = { λ _ e. e ≡ lacking };

    fn from(_: AllocError) -> Self {
        ReadWholeFault::NoMemory
    }
}

/// Reads a whole file of at most `limit` bytes.
///
/// It reads from the front until the end of the file or one byte past the limit, so a file that is
/// too long isn't read to its end.
pub fn read_whole<F: Files>(
    alloc: Global,
    files: &mut F,
    name: &str,
    limit: usize,
) -> Result<Vec<u8>, ReadWholeFault>
    requires served { Contains (F.seen files.old).served name.now }
    requires within { limit ≤ MAX_OFFSET }
    ensures bytes { IfOk result (λ v. IsTold ((F.seen files.old).held name.now) v.items) }
    ensures no_longer { IfOk result (λ v. length v.items ≤ limit) }
    ensures too_long { IsErrOf result ReadWholeFault.TooLong
        → IsLonger limit ((F.seen files.old).held name.now) }
    ensures fault { IsErrOf result ReadWholeFault.ReadFault
        → Rose ((F.seen files.old).read_faults name.now) ((F.seen files.new).read_faults name.now) }
    ensures files { OnlyReads name.now (F.seen files.old) (F.seen files.new) }
{
    let mut bytes = Vec::new(alloc);
    let mut buf = [0u8; 4096];
    // Each turn takes at least a byte, so the turns don't run out.
    for _ in 0..limit + 1 {
        let room = (limit + 1 - bytes.len()).min(buf.len());
        match files.read_at(name, bytes.len() as u64, &mut buf[..room]) {
            Err(_) => return Err(ReadWholeFault::ReadFault),
            Ok(0) => return Ok(bytes),
            Ok(count) => bytes.extend_from_slice(&buf[..count])?,
        }
        if bytes.len() > limit {
            return Err(ReadWholeFault::TooLong);
        }
    }
    unreachable!()
}
