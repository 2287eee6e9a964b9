//! Releases, in two moves or in one call, with their entries in the log.

ghost use Rattle.std.specs.Prelude.{◌≡◌, ◌≢◌, ◌≤◌, ◌+◌, ◌*◌, ◌++◌, ◌↔◌, IfErr, IfOk, IsTrue, OnErr, length, true};
ghost use Rattle.std.specs.List.{list_all};
ghost use Rattle.trio_rights.specs.Bundle.{bundle_pages};
ghost use Rattle.trio_rights.specs.Row.{row_in};
ghost use Rattle.trio_lease.specs.Views.{bundle_in};
ghost use Rattle.trio_layout.specs.Allowed.{has_kind};
ghost use Rattle.trio_nodes.specs.declared.answers.ReleaseFault.TheVariants.{NoMemory as NoReleaseMemory};
ghost use Rattle.trio_case.specs.Cases.{case_in as case_shown};
ghost use Rattle.trio_state.specs.Given.{GivenTo};
ghost use Rattle.trio_state.specs.Kept.{Kept};
ghost use Rattle.trio_state.specs.Moves.{Acts, Answered, Begin, End, IsAwaited, KeptUnderway, outline_of};
ghost use Rattle.trio_state.specs.Step.{Release, Step};
ghost use Rattle.trio_entries.specs.Handed.{handed_in};
ghost use Rattle.trio_entries.specs.Telling.{AreNoted, whole_case};
ghost use Rattle.trio_ctl.specs.Answers.{begin_answer, release_answer, verdict_of};
ghost use Rattle.trio_ctl.specs.Ctl.{IsIdle, IsLibrary, underway_of};
ghost use Rattle.trio_ctl.specs.HandedIn.{AreMarked, WereHeld, WereLent};
ghost use Rattle.trio_ctl.specs.Logged.{Logs, entries_made, with_bundle};
ghost use Rattle.trio_ctl.specs.Pending.{case_made};
ghost use Rattle.trio_ctl.specs.Room.{HasRoomFor, Spends};
ghost use Rattle.trio_ctl.specs.inner.Outcomes.{HasFew, IsOutcome};
ghost use Rattle.trio_ctl.specs.inner.Telling.{TellsOutcome, noted_by};

use crate::ctl::{Ctl, make_places};
use crate::outcome::Outcome;
use crate::pending::{Judged, Pending};
use trio_case::Case;
use trio_entries::{Draft, Notes, Told, accepted, refused};
use trio_lease::Bundle;
use trio_nodes::{Entry, RawFile, ReleaseAnswer, ReleaseFault};
use trio_page::Reads;
use trio_rights::LibNo;
use trio_tables::Shadow;

impl Ctl {
    /// The beginning of a release: takes in what a library hands in, to be judged.
    ///
    /// After `Ok` a release of the library has begun, and the library makes no call until it ends
    /// ([`finish`](Self::finish)). Others go on meanwhile, and whoever has the [`Pending`] may write into
    /// the pages of its bundle and then weighs it. All memory of the whole release is taken here, with a
    /// place for its entry in the log; no grant ends yet, and nothing else has changed.
    ///
    /// `NotClosed` exactly where a hold of the library and its write lease on the directory of the
    /// held file aren't both in the bundle or both out of it, with the lowest such number: then
    /// nothing changed, and the bundle comes back unjudged.
    ///
    /// After `NoMemory`, which may come in place of each answer, nothing changed and the bundle comes
    /// back; a log that has or has promised as many entries as a `u64` counts has no memory for more. With
    /// one spare entry and the bundle's [`room`](Self::room) in spare bytes it doesn't come
    /// ([`make_room`](Self::make_room)).
    pub fn begin(&mut self, lib: LibNo, bundle: Bundle) -> Result<Pending, (Bundle, ReleaseFault)>
        requires library { IsLibrary lib self.old.state }
        requires idle { IsIdle self.old lib.0 }
        requires given { GivenTo self.old.state lib.0 (bundle_in bundle) }
        requires held { WereHeld self.old.state lib.0 bundle.holds }
        ensures acts { Acts (underway_of self.old) (Begin lib.0 (bundle_in bundle)) (begin_answer result (λ back. back.1)) (underway_of self.new) }
        ensures pending { IfOk result (λ p. p ≡ case_made self.old.state lib bundle) }
        ensures rest { self.new ≡ record self.old { begun = self.new.begun; spare = self.new.spare } }
        ensures sure { HasRoomFor self.old (bundle_in bundle) → IfErr result (λ back. back.1 ≢ NoReleaseMemory) }
        ensures spends { Spends 1 0 self.old.spare self.new.spare }
        ensures unspent { OnErr result (Spends 0 0 self.old.spare self.new.spare) }
        ensures back { IfErr result (λ back. back.0 ≡ bundle) }
        ensures was_kept { KeptUnderway (underway_of self.old) }
        ensures kept { KeptUnderway (underway_of self.new) }
    {
        self.log.is_small();
        let Ok(()) = make_places(&mut self.log, self.registry.promised(), 1) else {
            return Err((bundle, ReleaseFault::NoMemory));
        };
        let entry = self.log.len();
        let (case, room) = match self.registry.begin(&mut self.spares, entry, lib, bundle) {
            Ok(made) => made,
            Err(back) => return Err(back),
        };
        Ok(Pending::begun(case, room))
    }

    /// Whether this is a release that has begun here and not ended, and is as it would be judged now:
    /// its bundle has the outline with which it began, and the rows, the bodies, the credentials and the
    /// sizes beside the bundle are those of now. Takes no memory, and looks at no page at home.
    ///
    /// What began here is awaited until it ends, whatever others do meanwhile.
    pub fn awaits(&self, judged: &Judged) -> bool
        ensures { IsTrue result ↔ IsAwaited (underway_of self.now) judged.now.case.lib.0 (case_shown judged.now.case) }
    {
        self.registry.awaits(judged.case())
    }

    /// The end of a release that is awaited ([`awaits`](Self::awaits)): its bundle is put in place or
    /// rolled back. It takes no memory.
    ///
    /// `Accepted` exactly where the whole image that the bundle proposes, with its bytes over the
    /// settled ones, is sound and the change is allowed: then that image is settled. `Refused`
    /// exactly where it is not, with the lowest rule that fails, and a file and a place at which it
    /// does: then the image is settled as before, but for the blocks of the regular files and the
    /// allotted pages, which stand as handed in. The grants and allotments of the bundle end in both
    /// cases, what no file has then is free, and the library is idle.
    ///
    /// Of the bundle's pages nothing is asked that was weighed. Of the marks of its lent blocks it is asked
    /// that a block without one has the bytes that its grant lent: whatever the leases show as lent, by what
    /// is handed in alone. Rule I3 is asked of the rows of now. Home
    /// is looked at no more than once for each page of the bundle and once for each of its write leases.
    /// The entry has the bundle as it then stands, and the files and blocks that it tells.
    pub fn finish(&mut self, judged: Judged, reads: &mut Reads) -> ReleaseAnswer
        requires awaited { IsAwaited (underway_of self.old) judged.case.lib.0 (case_shown judged.case) }
        requires marked { AreMarked self.old.state judged.case.lib.0 (handed_in judged.case.bundle) }
        ensures acts { Acts (underway_of self.old) (End judged.case.lib.0 (bundle_in judged.case.bundle)) (Answered (verdict_of result)) (underway_of self.new) }
        ensures log { self.new.log ≡ self.old.log ++ entries_made self.old.state (with_bundle judged.case.bundle) (Release judged.case.lib.0 (bundle_in judged.case.bundle)) (verdict_of result) }
        ensures first { self.new.first ≡ self.old.first }
        ensures spends { Spends 0 0 self.old.spare self.new.spare }
        ensures floor { self.old.looked ≤ self.new.looked }
        ensures looked { self.new.looked ≤ self.old.looked + length (bundle_pages (bundle_in judged.case.bundle)) + length (bundle_in judged.case.bundle).writes }
        ensures reads { reads.new ≤ reads.old + length (bundle_pages (bundle_in judged.case.bundle)) + length (bundle_in judged.case.bundle).writes }
        ensures was_kept { KeptUnderway (underway_of self.old) }
        ensures kept { KeptUnderway (underway_of self.new) }
    {
        let (case, verdict) = judged.parts();
        let lib = case.lib();
        let draft = self.registry.take_begun(lib);
        let outcome = self.registry.outcome(&case, verdict);
        let rows = self.registry.rows();
        let told = told(draft, rows, &self.notes, &case, &outcome);
        let entry = self.log.len();
        let verdict = self.registry.conclude(entry, lib, case, outcome, reads);
        let Told { files, bundle } = told;
        note(&mut self.notes, verdict, files.as_slice());
        self.log.push(Entry::Raw {
            lib,
            verdict,
            files,
            bundle,
        });
        verdict
    }

    /// Judges what a library hands in.
    ///
    /// `Accepted` exactly where the whole image that the bundle proposes, with its bytes over the
    /// settled ones, is sound and the change is allowed: then that image is settled. `Refused`
    /// exactly where it is not, with the lowest rule that fails, and a file and a place at which it
    /// does: then the image is settled as before, but for the blocks of the regular files and the
    /// allotted pages, which stand as handed in. The grants and allotments of the bundle end in both
    /// cases: what no file has then is free.
    ///
    /// `NotClosed` exactly where a hold of the library and its write lease on the directory of the
    /// held file aren't both in the bundle or both out of it, with the lowest such number: then
    /// nothing changed, and the bundle comes back unjudged.
    ///
    /// After `NoMemory`, which may come in place of each answer, nothing changed and the bundle comes
    /// back; a log that has as many entries as a `u64` counts has no memory for one more. With one spare
    /// entry and the bundle's [`room`](Self::room) in spare bytes it doesn't come
    /// ([`make_room`](Self::make_room)).
    ///
    /// The bundle is judged by its own pages: home is looked at no more than once for each page of
    /// the bundle and once for each of its write leases. Its entry has the bundle as it was handed in,
    /// and the files and blocks that it tells; the bytes of each page stand in it once.
    pub fn release(
        &mut self,
        lib: LibNo,
        bundle: Bundle,
        reads: &mut Reads,
    ) -> Result<ReleaseAnswer, (Bundle, ReleaseFault)>
        requires library { IsLibrary lib self.old.state }
        requires idle { IsIdle self.old lib.0 }
        requires given { GivenTo self.old.state lib.0 (bundle_in bundle) }
        requires held { WereHeld self.old.state lib.0 bundle.holds }
        requires lent { WereLent self.old.state lib.0 bundle.writes }
        ensures step { Step self.old.state (Release lib.0 (bundle_in bundle)) (release_answer result (λ back. back.1)) self.new.state }
        ensures logs { Logs self.old (with_bundle bundle) (Release lib.0 (bundle_in bundle)) (release_answer result (λ back. back.1)) self.new }
        ensures back { IfErr result (λ back. back.0 ≡ bundle) }
        ensures sure { HasRoomFor self.old (bundle_in bundle) → IfErr result (λ back. back.1 ≢ NoReleaseMemory) }
        ensures spends { Spends 1 0 self.old.spare self.new.spare }
        ensures unspent { OnErr result (Spends 0 0 self.old.spare self.new.spare) }
        ensures floor { self.old.looked ≤ self.new.looked }
        ensures looked { self.new.looked ≤ self.old.looked + length (bundle_pages (bundle_in bundle)) + length (bundle_in bundle).writes }
        ensures reads { reads.new ≤ reads.old + 3 * length (bundle_pages (bundle_in bundle)) + length (bundle_in bundle).writes }
        ensures was_kept { Kept self.old.state }
        ensures kept { Kept self.new.state }
    {
        bundle.keeps_untouched();
        match self.begin(lib, bundle) {
            Ok(pending) => {
                let judged = pending.weigh(reads);
                Ok(self.finish(judged, reads))
            }
            Err(back) => Err(back),
        }
    }
}

// what the entry of a judged release tells; nothing has changed yet
pub(crate) fn told(
    draft: Draft,
    rows: &Shadow,
    notes: &Notes,
    case: &Case,
    outcome: &Outcome,
) -> Told
    requires draft { draft ≡ outline_of (bundle_in case.now.bundle) }
    requires live { list_all (λ f. has_kind f.stands.kind (row_in rows.now f.stands.ino)) case.now.bundle.writes ≡ true }
    requires outcome { IsOutcome (whole_case case.now rows.now) outcome.now }
    requires few { HasFew (bundle_in case.now.bundle) outcome.now }
    requires noted { AreNoted rows.now notes.now }
    ensures told { TellsOutcome (whole_case case.now rows.now) notes.now (handed_in case.now.bundle) outcome.now result }
    ensures handed { result.bundle.handed ≡ handed_in case.now.bundle }
{
    match outcome {
        Outcome::Accepted(listing) => accepted(draft, case, listing, rows, notes),
        Outcome::Refused { .. } => refused(draft, case, rows, notes),
    }
}

// notes what the files of a release tell, if it was accepted
pub(crate) fn note(notes: &mut Notes, verdict: ReleaseAnswer, files: &[RawFile])
    ensures { notes.new ≡ noted_by verdict files.now notes.old }
{
    match verdict {
        ReleaseAnswer::Accepted => notes.tell(files),
        ReleaseAnswer::Refused { .. } => {}
    }
}
