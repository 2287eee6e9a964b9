//! What comes of a bundle that was judged.

ghost use Rattle.std.specs.Prelude.{◌≡◌};
ghost use Rattle.trio_layout.specs.declared.refusal.Rule.TheVariants.{Edges};
ghost use Rattle.trio_layout.specs.Rule.{rule_number};
ghost use Rattle.trio_layout.specs.Case.{Case};
ghost use Rattle.trio_layout.specs.Listing.{listing};
ghost use Rattle.trio_judge.specs.Verdicts.{HasFewEntries};
ghost use Rattle.trio_edges.specs.Leaves.{DataFilesAreLeaves};
ghost use Rattle.trio_ctl.specs.Pending.{IsVerdict};
ghost use Rattle.trio_ctl.specs.inner.Outcomes.{HasFew, IsOutcome};

use trio_case::Listing;
use trio_edges::edges;
use trio_judge::Verdict;
use trio_layout::Rule;
use trio_tables::Shadow;

/// What comes of a bundle.
#[derive(Drop)]
pub(crate) enum Outcome {
    /// It meets the four rules, and this is what it lists.
    Accepted(Listing),
    /// The number of the lowest rule that fails, and where it does.
    Refused {
        rule: u8,
        ino: u32,
        page: u32,
        slot: u16,
    },
}

/// What comes of a bundle with this verdict: rule I3 is asked after I1 and I2, and before I4.
pub(crate) fn outcome_of(verdict: Verdict, rows: &Shadow) -> Outcome
    requires { (c : Case) × IsVerdict c verdict × (c.rows ≡ rows.now) × DataFilesAreLeaves (listing c) rows.now }
    ensures outcome { (c : Case) → IsVerdict c verdict → c.rows ≡ rows.now → IsOutcome c result }
    ensures few { (c : Case) → HasFewEntries c verdict → HasFew c.bundle result }
{
    match verdict {
        Verdict::Sound(listing) => match edges(&listing, rows) {
            Some(ino) => Outcome::at_number(ino),
            None => Outcome::Accepted(listing),
        },
        Verdict::Broken {
            rule,
            ino,
            page,
            slot,
            listing,
        } => {
            if let Some(listing) = listing {
                if let Some(ino) = edges(&listing, rows) {
                    return Outcome::at_number(ino);
                }
            }
            Outcome::Refused {
                rule,
                ino,
                page,
                slot,
            }
        }
    }
}

impl Outcome {
    // the edges fail, at this number
    fn at_number(ino: u32) -> Outcome
        ensures { result ≡ Outcome.Refused (rule_number Edges) ino 0 0 }
    {
        Outcome::Refused {
            rule: Rule::Edges.number(),
            ino,
            page: 0,
            slot: 0,
        }
    }
}
