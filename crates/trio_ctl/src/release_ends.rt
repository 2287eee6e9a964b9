//! The end of a release: its bundle is put in place or rolled back.

ghost use Rattle.std.specs.Prelude.{◌≡◌, ◌≤◌, ◌+◌, None, length};
ghost use Rattle.trio_rights.specs.Bundle.{bundle_pages};
ghost use Rattle.trio_lease.specs.Views.{bundle_in};
ghost use Rattle.trio_state.specs.Bundles.{parted_hold};
ghost use Rattle.trio_state.specs.Given.{GivenTo};
ghost use Rattle.trio_state.specs.Kept.{Kept};
ghost use Rattle.trio_state.specs.Step.{Release, Step};
ghost use Rattle.trio_state.specs.Tells.{case_in};
ghost use Rattle.trio_ctl.specs.Answers.{verdict_of};
ghost use Rattle.trio_open.specs.Entries.{HasRoom};
ghost use Rattle.trio_ctl.specs.inner.Outcomes.{IsOutcome, verdict_on};

use crate::outcome::Outcome;
use crate::registry::Registry;
use trio_case::Case;
use trio_nodes::ReleaseAnswer;
use trio_open::closing::end_files;
use trio_page::Reads;
use trio_rights::LibNo;

impl Registry {
    /// Puts a judged bundle in place, which is closed, or rolls it back; there is room for an entry. Takes
    /// no memory.
    pub(crate) fn conclude(
        &mut self,
        entry: u64,
        lib: LibNo,
        case: Case,
        outcome: Outcome,
        reads: &mut Reads,
    ) -> ReleaseAnswer
        requires entry { entry ≡ self.old.state.entries }
        requires room { HasRoom (record { made = self.old.state.entries; promised = self.old.promised }) 1 }
        requires given { GivenTo self.old.state lib.0 (bundle_in case.bundle) }
        requires closed { parted_hold self.old.state lib.0 (bundle_in case.bundle) ≡ None }
        requires outcome { IsOutcome (case_in self.old.state lib.0 (bundle_in case.bundle)) outcome }
        ensures step { Step self.old.state (Release lib.0 (bundle_in case.bundle)) (verdict_of result) self.new.state }
        ensures verdict { result ≡ verdict_on outcome }
        ensures floor { self.old.looked ≤ self.new.looked }
        ensures looked { self.new.looked ≤ self.old.looked + length (bundle_pages (bundle_in case.bundle)) + length (bundle_in case.bundle).writes }
        ensures reads { reads.new ≤ reads.old + length (bundle_pages (bundle_in case.bundle)) + length (bundle_in case.bundle).writes }
        ensures was_kept { Kept self.old.state }
        ensures kept { Kept self.new.state }
        ensures begun { self.new.begun ≡ self.old.begun }
        ensures promised { self.new.promised ≡ self.old.promised }
    {
        end_files(&mut self.files, &mut self.grants, lib, &case);
        self.history.enter(entry);
        let bundle = case.into_bundle();
        match outcome {
            Outcome::Accepted(listing) => {
                self.store.commit(lib, bundle, listing, reads);
                ReleaseAnswer::Accepted
            }
            Outcome::Refused {
                rule,
                ino,
                page,
                slot,
            } => {
                self.store.roll_back(lib, bundle);
                ReleaseAnswer::Refused {
                    rule,
                    ino,
                    page,
                    slot,
                }
            }
        }
    }
}
