//! What the judge and the rule on edges say of a bundle.

use crate::checked::case_of;
use crate::handed::{Grants, Poke, RANGE, handed_in};
use crate::leaves::broken_edge;
use std::alloc::Global;
use trio_case::{Case, Listing};
use trio_judge::{Room, Verdict, judge};
use trio_page::Reads;
use trio_tables::Shadow;

/// The lowest rule that fails, with a file, a page and a slot at which it does; all 0 where each
/// rule holds.
pub type Fault = (u8, u32, u32, u16);

/// Judges what is lent, after the writes. `None`: there was no memory, or it can't be judged.
pub fn fault_of(alloc: Global, grants: Grants, pokes: &[Poke]) -> Option<Fault> {
    let (bundle, lender, creds) = handed_in(alloc, grants, pokes)?;
    let case = case_of(alloc, creds, bundle, &lender.rows, RANGE)?;
    let fault = fault_in(alloc, &case, &lender.rows);
    case.into_bundle().discard();
    fault
}

fn fault_in(alloc: Global, case: &Case, rows: &Shadow) -> Option<Fault> {
    let room = Room::with(alloc, case).ok()?;
    match judge(case, room, &mut Reads::new()) {
        Verdict::Sound(listing) => Some(lost(&listing, rows).unwrap_or((0, 0, 0, 0))),
        Verdict::Broken {
            rule,
            ino,
            page,
            slot,
            listing,
        } => {
            let fault = (rule, ino, page, slot);
            match listing {
                Some(listing) => Some(lost(&listing, rows).unwrap_or(fault)),
                None => Some(fault),
            }
        }
    }
}

/// Where the rule on edges fails.
fn lost(listing: &Listing, rows: &Shadow) -> Option<Fault> {
    Some((3, broken_edge(listing, rows)?, 0, 0))
}
