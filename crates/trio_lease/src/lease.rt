//! What a grant gives.

use crate::hold::HoldLease;
use crate::read::ReadLease;
use crate::write::WriteLease;

/// What a grant gives, one of the three kinds of lease.
pub enum Lease {
    Write(WriteLease),
    Read(ReadLease),
    Hold(HoldLease),
}

impl Lease {
    /// Lets the lease go. Its grant stays out for good, so that others find the file busy.
    pub fn discard(self) {
        match self {
            Lease::Write(lease) => lease.discard(),
            Lease::Read(lease) => lease.discard(),
            Lease::Hold(lease) => lease.discard(),
        }
    }
}
