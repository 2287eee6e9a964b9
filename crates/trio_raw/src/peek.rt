//! Bytes of lent things, looked at.

ghost use Rattle.std.specs.Prelude.{◌≡◌, ◌==◌};
ghost use Rattle.std.specs.List.{find};
ghost use Rattle.std.specs.Option.{option_and_then, option_copied, option_map};
ghost use Rattle.trio_lease.specs.Shown.{page_at};
ghost use Rattle.trio_raw.specs.Has.{body_of, lent_as, nothing, peeked_bytes};

use trio_lease::things::thing_of;
use trio_lease::{FreshPage, HoldLease, ReadLease, WriteLease};

/// So many of these bytes, from an offset on. `None` exactly where they leave them.
pub(crate) fn peek_bytes(bytes: &[u8], offset: u32, len: u32) -> Option<&[u8]>
    ensures { option_copied result ≡ peeked_bytes offset len bytes.now }
{
    let start = offset as usize;
    let end = start + len as usize;
    if end <= bytes.len() {
        Some(&bytes[start..end])
    } else {
        None
    }
}

/// The body of the file of this number, as the first lease on it shows it: a write lease, or else a
/// read lease, or else a hold.
pub(crate) fn shown_body<'a>(
    files: &'a [WriteLease],
    reads: &'a [ReadLease],
    holds: &'a [HoldLease],
    ino: u32,
) -> Option<&'a [u8]>
    ensures { option_copied result ≡ body_of (record nothing { writes = files.now; reads = reads.now; holds = holds.now }) ino }
{
    if let Some(lease) = thing_of(files, ino) {
        return Some(lease.body());
    }
    if let Some(lease) = thing_of(reads, ino) {
        return Some(lease.body());
    }
    let hold = thing_of(holds, ino)?;
    Some(hold.body())
}

/// An index page of the file of this number, counted from 0, as the first lease on it shows it: a
/// write lease, or else a read lease.
pub(crate) fn shown_index<'a>(
    files: &'a [WriteLease],
    reads: &'a [ReadLease],
    ino: u32,
    page: u32,
) -> Option<&'a [u8]>
    ensures { option_copied result ≡ option_and_then (λ f. page_at f.index page) (lent_as (record nothing { writes = files.now; reads = reads.now }) ino) }
{
    let shown = match thing_of(files, ino) {
        Some(lease) => lease.index(page as usize),
        None => thing_of(reads, ino)?.index(page as usize),
    };
    Some(shown?.bytes())
}

/// The same of a block of it.
pub(crate) fn shown_block<'a>(
    files: &'a [WriteLease],
    reads: &'a [ReadLease],
    ino: u32,
    block: u32,
) -> Option<&'a [u8]>
    ensures { option_copied result ≡ option_and_then (λ f. page_at f.blocks block) (lent_as (record nothing { writes = files.now; reads = reads.now }) ino) }
{
    let shown = match thing_of(files, ino) {
        Some(lease) => lease.block(block as usize),
        None => thing_of(reads, ino)?.block(block as usize),
    };
    Some(shown?.bytes())
}

/// The allotted page of this number.
pub(crate) fn shown_fresh(pages: &[FreshPage], page: u32) -> Option<&[u8]>
    ensures { option_copied result ≡ option_map (λ p. p.page) (find (λ p. p.no.0 == page) pages.now) }
{
    Some(thing_of(pages, page)?.page().bytes())
}
