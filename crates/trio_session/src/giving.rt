//! What a desk gives.

ghost use Rattle.std.specs.Prelude.{◌≡◌};
ghost use Rattle.trio_lease.specs.Bundles.{bundled};
ghost use Rattle.trio_desk.specs.Out.{parcel_of};
ghost use Rattle.trio_session.specs.inner.Giving.{Allots, Grants};

use crate::laid::Laid;
use std::alloc::Global;
use trio_desk::Desk;
use trio_lease::things::append_all;
use trio_lease::{Allotted, BundleParts, Lease, ReadLease};
use trio_nodes::{AllotFault, GrantFault, GrantKind};

/// Asks the desk for so many pages and inode numbers, and keeps them as the last ones.
pub(crate) fn allot_into<D: Desk>(
    parts: &mut BundleParts,
    desk: &mut D,
    pages: u32,
    inodes: u32,
) -> Result<(), AllotFault>
    ensures { Allots D.called D.seen desk.old pages inodes desk.new (parcel_of (bundled parts.old)) (parcel_of (bundled parts.new)) result }
{
    if parts.pages.reserve(pages as usize).is_err()
        || parts.inodes.reserve(inodes as usize).is_err()
    {
        return Err(AllotFault::NoMemory);
    }
    match desk.allot(pages, inodes) {
        Ok(given) => {
            let Allotted { pages, inodes } = given;
            append_all(pages, &mut parts.pages);
            append_all(inodes, &mut parts.inodes);
            Ok(())
        }
        Err(fault) => Err(fault),
    }
}

/// Asks the desk for a grant, and keeps the lease as the last one of its kind.
pub(crate) fn grant_into<D: Desk>(
    alloc: Global,
    parts: &mut BundleParts,
    laid: &mut Vec<Laid>,
    reads: &mut Vec<ReadLease>,
    desk: &mut D,
    ino: u32,
    kind: GrantKind,
) -> Result<(), GrantFault>
    ensures { Grants D.called D.seen desk.old ino kind desk.new (parcel_of (bundled parts.old)) (parcel_of (bundled parts.new))
        reads.old.items reads.new.items laid.old.items laid.new.items result }
{
    if parts.writes.reserve(1).is_err()
        || parts.holds.reserve(1).is_err()
        || laid.reserve(1).is_err()
        || reads.reserve(1).is_err()
    {
        return Err(GrantFault::NoMemory);
    }
    match desk.grant(ino, kind) {
        Ok(Lease::Write(lease)) => {
            laid.push_reserved(Laid::as_lent(alloc, &lease));
            parts.writes.push_reserved(lease);
            Ok(())
        }
        Ok(Lease::Read(lease)) => {
            reads.push_reserved(lease);
            Ok(())
        }
        Ok(Lease::Hold(lease)) => {
            parts.holds.push_reserved(lease);
            Ok(())
        }
        Err(fault) => Err(fault),
    }
}
