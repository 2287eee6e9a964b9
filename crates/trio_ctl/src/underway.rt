//! Releases that begin, and that wait for their end.

ghost use Rattle.std.specs.Prelude.{◌≡◌, ◌≢◌, ◌+◌, ◌≤◌, ◌↔◌, IfErr, IfOk, IsTrue, None, OnErr, OnOk, Some, vec_len};
ghost use Rattle.trio_lease.specs.Views.{bundle_in};
ghost use Rattle.trio_case.specs.Cases.{case_in as case_shown};
ghost use Rattle.trio_judge.specs.Judging.{IsJudgeRoom};
ghost use Rattle.trio_laws.specs.session.Lent.{sizes_of};
ghost use Rattle.trio_nodes.specs.declared.answers.ReleaseFault.TheVariants.{NoMemory as NoReleaseMemory};
ghost use Rattle.trio_state.specs.Given.{GivenTo};
ghost use Rattle.trio_state.specs.Moves.{Beginning, IsAwaited, begun_by, outline_of, with_begun};
ghost use Rattle.trio_ctl.specs.Answers.{begin_answer};
ghost use Rattle.trio_ctl.specs.Ctl.{IsLibrary};
ghost use Rattle.trio_open.specs.Entries.{HasRoom};
ghost use Rattle.trio_ctl.specs.HandedIn.{WereHeld};
ghost use Rattle.trio_ctl.specs.Kits.{AreSpare, HasSpare, TakesOne};
ghost use Rattle.trio_ctl.specs.Pending.{case_made};
ghost use Rattle.trio_ctl.specs.Room.{room_for};
ghost use Rattle.trio_ctl.specs.inner.Beginning.{HaveBodies, IsCopy, underway_at};

use crate::registry::Registry;
use crate::spares::Spares;
use trio_case::Case;
use trio_entries::Draft;
use trio_judge::Room;
use trio_lease::Bundle;
use trio_nodes::ReleaseFault;
use trio_open::belongs::have_bodies;
use trio_rights::LibNo;

impl Registry {
    /// Takes a closed bundle in: its case, and the room to judge it. All memory of its end is taken, and
    /// an entry is promised for it. With a fault the bundle comes back, and nothing has changed.
    pub(crate) fn begin(
        &mut self,
        spares: &mut Spares,
        entry: u64,
        lib: LibNo,
        bundle: Bundle,
    ) -> Result<(Case, Room), (Bundle, ReleaseFault)>
        requires entry { entry ≡ self.old.state.entries }
        requires library { IsLibrary lib self.old.state }
        requires idle { begun_by (underway_at self.old) lib.0 ≡ None }
        requires given { GivenTo self.old.state lib.0 (bundle_in bundle) }
        requires held { WereHeld self.old.state lib.0 bundle.holds }
        requires spare { AreSpare (sizes_of self.old.state) spares.old }
        ensures begins { Beginning (underway_at self.old) lib.0 (bundle_in bundle) (begin_answer result (λ back. back.1)) (underway_at self.new) }
        ensures case { IfOk result (λ made. made.0 ≡ case_made self.old.state lib bundle) }
        ensures room { IfOk result (λ made. IsJudgeRoom made.0 made.1) }
        ensures state { self.new.state ≡ self.old.state }
        ensures promised { OnOk result (self.new.promised ≡ self.old.promised + 1) }
        ensures unpromised { OnErr result (self.new.promised ≡ self.old.promised) }
        ensures looked { self.new.looked ≡ self.old.looked }
        ensures back { IfErr result (λ back. back.0 ≡ bundle) }
        ensures takes { TakesOne (sizes_of self.old.state) spares.old spares.new }
        ensures unspent { OnErr result (vec_len spares.old.kits ≤ vec_len spares.new.kits) }
        ensures sure { HasRoom (record { made = self.old.state.entries; promised = self.old.promised }) 1 → HasSpare (room_for self.old.state.home.core (bundle_in bundle)) spares.old → IfErr result (λ back. back.1 ≢ NoReleaseMemory) }
    {
        let (case, room, draft) = match self.taken_in(spares, entry, lib, bundle) {
            Ok(taken) => taken,
            Err(back) => return Err(back),
        };
        self.history.promise();
        self.begun[lib.0 as usize - 1] = Some(draft);
        Ok((case, room))
    }

    /// Takes out what was made ready when the release of a library began, and takes the promise of its
    /// entry back, so that there is room to make it.
    pub(crate) fn take_begun(&mut self, lib: LibNo) -> Draft
        requires { begun_by (underway_at self.old) lib.0 ≢ None }
        ensures begun { begun_by (underway_at self.old) lib.0 ≡ Some result }
        ensures state { self.new.state ≡ self.old.state }
        ensures taken { self.new.begun ≡ (with_begun (underway_at self.old) lib.0 None).begun }
        ensures promised { self.new.promised + 1 ≡ self.old.promised }
        ensures room { HasRoom (record { made = self.new.state.entries; promised = self.new.promised }) 1 }
        ensures looked { self.new.looked ≡ self.old.looked }
    {
        let Some(begun) = self.begun[lib.0 as usize - 1].take() else {
            unreachable!()
        };
        self.history.withdraw();
        begun
    }

    /// Whether the case is that of the release that has begun of its library, with the rows, the bodies
    /// and the sizes of now. Takes no memory.
    pub(crate) fn awaits(&self, case: &Case) -> bool
        ensures only { IsTrue result → IsAwaited (underway_at self.now) case.now.lib.0 (case_shown case.now) }
        ensures each { GivenTo self.now.state case.now.lib.0 (bundle_in case.now.bundle) → IsAwaited (underway_at self.now) case.now.lib.0 (case_shown case.now) → IsTrue result }
    {
        if !self.has_begun(case) {
            return false;
        }
        self.is_copy(case) && self.has_bodies(case)
    }

    // whether the release that has begun of the case's library has the outline of its bundle
    fn has_begun(&self, case: &Case) -> bool
        ensures begun { IsTrue result ↔ (begun_by (underway_at self.now) case.now.lib.0 ≡ Some (outline_of (bundle_in case.now.bundle))) }
        ensures library { IsTrue result → IsLibrary case.now.lib self.now.state }
    {
        let Some(place) = case.lib().0.checked_sub(1) else {
            return false;
        };
        match self.begun.get(place as usize) {
            Some(Some(begun)) => begun.is_of(case.bundle()),
            _ => false,
        }
    }

    // whether the rows, the credentials and the sizes of the case are those of now
    fn is_copy(&self, case: &Case) -> bool
        requires { IsLibrary case.now.lib self.now.state }
        ensures { IsTrue result ↔ IsCopy self.now.state case.now }
    {
        case.fits(&self.store.rows)
            && case.creds() == self.creds(case.lib())
            && case.range() == self.range()
            && case.inodes() == self.store.rows.inodes()
    }

    // whether the holds of the case's bundle have the bodies of now
    fn has_bodies(&self, case: &Case) -> bool
        ensures only { IsTrue result → HaveBodies self.now.state case.now.bundle.holds }
        ensures each { GivenTo self.now.state case.now.lib.0 (bundle_in case.now.bundle) → HaveBodies self.now.state case.now.bundle.holds → IsTrue result }
    {
        have_bodies(&self.files, case.lib(), case.bundle().holds())
    }
}
