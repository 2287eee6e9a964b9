//! The judgement of what a library hands in, and its memory.

ghost use Rattle.std.specs.Prelude.{◌≡◌, ◌≢◌, ◌≤◌, ◌+◌, ◌*◌, ℕ, IfErr, IfOk, IsOk, None, OnErr, length, vec_len};
ghost use Rattle.trio_rights.specs.Bundle.{bundle_pages};
ghost use Rattle.trio_lease.specs.Views.{bundle_in};
ghost use Rattle.trio_layout.specs.Copied.{with_copied};
ghost use Rattle.trio_case.specs.Cases.{IsJudgeable, case_in as case_shown};
ghost use Rattle.trio_judge.specs.Judging.{IsJudgeRoom};
ghost use Rattle.trio_judge.specs.Verdicts.{HasFewEntries};
ghost use Rattle.trio_state.specs.Bundles.{parted_hold};
ghost use Rattle.trio_state.specs.Given.{GivenTo};
ghost use Rattle.trio_state.specs.Kept.{Kept};
ghost use Rattle.trio_state.specs.Moves.{Answered, Beginning, outline_of};
ghost use Rattle.trio_state.specs.Tells.{case_in};
ghost use Rattle.trio_laws.specs.RuleLaws.{IsJudgeable as CanBeJudged};
ghost use Rattle.trio_laws.specs.session.Lent.{sizes_of};
ghost use Rattle.trio_nodes.specs.declared.answers.ReleaseFault.TheVariants.{NoMemory as NoReleaseMemory};
ghost use Rattle.trio_ctl.specs.Answers.{release_fault_answer};
ghost use Rattle.trio_ctl.specs.Ctl.{IsLibrary};
ghost use Rattle.trio_open.specs.Entries.{HasRoom};
ghost use Rattle.trio_ctl.specs.HandedIn.{WereHeld};
ghost use Rattle.trio_ctl.specs.Kits.{AreSpare, HasKit, HasSpare, TakesOne};
ghost use Rattle.trio_ctl.specs.Pending.{IsVerdict, case_made};
ghost use Rattle.trio_ctl.specs.Room.{room_for};
ghost use Rattle.trio_ctl.specs.inner.Beginning.{underway_at};
ghost use Rattle.trio_ctl.specs.inner.Outcomes.{HasFew, IsOutcome};

use crate::kit::Kit;
use crate::outcome::{Outcome, outcome_of};
use crate::registry::Registry;
use crate::spares::Spares;
use trio_case::Case;
use trio_entries::Draft;
use trio_judge::{Room, Verdict, judge};
use trio_lease::Bundle;
use trio_nodes::ReleaseFault;
use trio_open::parted::parted_hold;
use trio_page::{NoMemory, Reads};
use trio_rights::LibNo;

impl Registry {
    /// Takes a closed bundle: its case, the room to judge it, and what its entry wants, where there is room
    /// for an entry more. Nothing has begun yet. With a fault the bundle comes back.
    pub(crate) fn taken_in(
        &self,
        spares: &mut Spares,
        entry: u64,
        lib: LibNo,
        bundle: Bundle,
    ) -> Result<(Case, Room, Draft), (Bundle, ReleaseFault)>
        requires entry { entry ≡ self.now.state.entries }
        requires library { IsLibrary lib self.now.state }
        requires given { GivenTo self.now.state lib.0 (bundle_in bundle) }
        requires held { WereHeld self.now.state lib.0 bundle.holds }
        requires spare { AreSpare (sizes_of self.now.state) spares.old }
        ensures case { IfOk result (λ taken. taken.0 ≡ case_made self.now.state lib bundle) }
        ensures room { IfOk result (λ taken. IsJudgeRoom taken.0 taken.1) }
        ensures draft { IfOk result (λ taken. taken.2 ≡ outline_of (bundle_in bundle)) }
        ensures judgeable { IfOk result (λ taken. IsJudgeable taken.0.bundle self.now.state.home.rows taken.0.range taken.0.inodes) }
        ensures closed { IsOk result → parted_hold self.now.state lib.0 (bundle_in bundle) ≡ None }
        ensures places { IsOk result → HasRoom (record { made = self.now.state.entries; promised = self.now.promised }) 1 }
        ensures kept { Kept self.now.state }
        ensures fault { IfErr result (λ back. Beginning (underway_at self.now) lib.0 (bundle_in bundle) (Answered (release_fault_answer back.1)) (underway_at self.now)) }
        ensures back { IfErr result (λ back. back.0 ≡ bundle) }
        ensures takes { TakesOne (sizes_of self.now.state) spares.old spares.new }
        ensures unspent { OnErr result (vec_len spares.old.kits ≤ vec_len spares.new.kits) }
        ensures sure { HasRoom (record { made = self.now.state.entries; promised = self.now.promised }) 1 → HasSpare (room_for self.now.state.home.core (bundle_in bundle)) spares.old → IfErr result (λ back. back.1 ≢ NoReleaseMemory) }
    {
        if let Some(ino) = parted_hold(&self.files, &self.store.rows, lib, &bundle) {
            return Err((bundle, ReleaseFault::NotClosed(ino)));
        }
        let Ok(()) = self.history.make_room(entry, 1) else {
            return Err((bundle, ReleaseFault::NoMemory));
        };
        let Ok(kit) = self.kit_for(spares, &bundle) else {
            return Err((bundle, ReleaseFault::NoMemory));
        };
        Ok(self.within(kit, lib, bundle))
    }

    /// Judges what a library hands in, and ends nothing yet: the case of its bundle, what comes of it, and
    /// what its entry wants. With a fault the bundle comes back.
    pub(crate) fn judged(
        &self,
        spares: &mut Spares,
        entry: u64,
        lib: LibNo,
        bundle: Bundle,
        reads: &mut Reads,
    ) -> Result<(Case, Outcome, Draft), (Bundle, ReleaseFault)>
        requires entry { entry ≡ self.now.state.entries }
        requires library { IsLibrary lib self.now.state }
        requires given { GivenTo self.now.state lib.0 (bundle_in bundle) }
        requires held { WereHeld self.now.state lib.0 bundle.holds }
        requires spare { AreSpare (sizes_of self.now.state) spares.old }
        ensures case { IfOk result (λ made. made.0.bundle ≡ bundle) }
        ensures rows { IfOk result (λ made. case_shown made.0 ≡ with_copied (case_in self.now.state lib.0 (bundle_in bundle))) }
        ensures judgeable { IfOk result (λ made. IsJudgeable made.0.bundle self.now.state.home.rows made.0.range made.0.inodes) }
        ensures closed { IsOk result → parted_hold self.now.state lib.0 (bundle_in bundle) ≡ None }
        ensures outcome { IfOk result (λ made. IsOutcome (case_in self.now.state lib.0 (bundle_in bundle)) made.1) }
        ensures few { IfOk result (λ made. HasFew (bundle_in bundle) made.1) }
        ensures draft { IfOk result (λ made. made.2 ≡ outline_of (bundle_in bundle)) }
        ensures fault { IfErr result (λ back. Beginning (underway_at self.now) lib.0 (bundle_in bundle) (Answered (release_fault_answer back.1)) (underway_at self.now)) }
        ensures room { IsOk result → HasRoom (record { made = self.now.state.entries; promised = self.now.promised }) 1 }
        ensures back { IfErr result (λ back. back.0 ≡ bundle) }
        ensures reads { reads.new ≤ reads.old + 2 * length (bundle_pages (bundle_in bundle)) }
        ensures takes { TakesOne (sizes_of self.now.state) spares.old spares.new }
        ensures unspent { OnErr result (vec_len spares.old.kits ≤ vec_len spares.new.kits) }
        ensures sure { HasRoom (record { made = self.now.state.entries; promised = self.now.promised }) 1 → HasSpare (room_for self.now.state.home.core (bundle_in bundle)) spares.old → IfErr result (λ back. back.1 ≢ NoReleaseMemory) }
    {
        let (case, room, draft) = match self.taken_in(spares, entry, lib, bundle) {
            Ok(taken) => taken,
            Err(back) => return Err(back),
        };
        let verdict = judge(&case, room, reads);
        let outcome = self.outcome(&case, verdict);
        Ok((case, outcome, draft))
    }

    // all memory of the release of a bundle
    fn kit_for(&self, spares: &mut Spares, bundle: &Bundle) -> Result<Kit, NoMemory>
        requires given { (lib : ℕ) × GivenTo self.now.state lib (bundle_in bundle.now) }
        requires spare { AreSpare (sizes_of self.now.state) spares.old }
        ensures kit { IfOk result (HasKit (sizes_of self.now.state) bundle.now) }
        ensures sure { HasSpare (room_for self.now.state.home.core (bundle_in bundle.now)) spares.old → IsOk result }
        ensures takes { TakesOne (sizes_of self.now.state) spares.old spares.new }
        ensures unspent { OnErr result (vec_len spares.old.kits ≤ vec_len spares.new.kits) }
    {
        let inodes = self.store.rows.inodes();
        spares.kit_for(self.alloc, bundle, self.range(), inodes, self.room(bundle))
    }

    // the case of a closed bundle, the room to judge it, and what its entry wants, in memory that was made
    // for them
    fn within(&self, kit: Kit, lib: LibNo, bundle: Bundle) -> (Case, Room, Draft)
        requires library { IsLibrary lib self.now.state }
        requires given { GivenTo self.now.state lib.0 (bundle_in bundle) }
        requires held { WereHeld self.now.state lib.0 bundle.holds }
        requires closed { parted_hold self.now.state lib.0 (bundle_in bundle) ≡ None }
        requires kit { HasKit (sizes_of self.now.state) bundle kit }
        ensures case { result.0 ≡ case_made self.now.state lib bundle }
        ensures room { IsJudgeRoom result.0 result.1 }
        ensures draft { result.2 ≡ outline_of (bundle_in bundle) }
        ensures judgeable { IsJudgeable result.0.bundle self.now.state.home.rows result.0.range result.0.inodes }
    {
        let Kit { case, room, draft } = kit;
        let case = Case::within(
            case,
            lib,
            self.creds(lib),
            bundle,
            &self.store.rows,
            self.range(),
            self.store.rows.inodes(),
        );
        let room = Room::of(room, &case);
        let draft = Draft::begun(draft, case.bundle());
        (case, room, draft)
    }

    /// What comes of a bundle that was given and is closed, whose case has the rows, the bodies and the
    /// sizes of now: rule I3 is asked of the rows of now.
    pub(crate) fn outcome(&self, case: &Case, verdict: Verdict) -> Outcome
        requires judgeable { CanBeJudged self.now.state case.now.lib.0 (bundle_in case.now.bundle) }
        requires copied { case_shown case.now ≡ with_copied (case_in self.now.state case.now.lib.0 (bundle_in case.now.bundle)) }
        requires verdict { IsVerdict (case_shown case.now) verdict }
        requires few { HasFewEntries (case_shown case.now) verdict }
        ensures outcome { IsOutcome (case_in self.now.state case.now.lib.0 (bundle_in case.now.bundle)) result }
        ensures few { HasFew (bundle_in case.now.bundle) result }
    {
        let _case = case;
        outcome_of(verdict, &self.store.rows)
    }
}
