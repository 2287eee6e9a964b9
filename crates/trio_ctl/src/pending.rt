//! A release between its beginning and its end.

ghost use Rattle.std.specs.Prelude.{◌≡◌, ◌≤◌, ◌+◌, ◌*◌, ◌↔◌, ℕ, IfSome, IsSome, IsTrue, Some, length};
ghost use Rattle.trio_rights.specs.Bundle.{bundle_pages};
ghost use Rattle.trio_lists.specs.Lists.{In};
ghost use Rattle.trio_lease.specs.Shown.{KeepsUntouched, LentFile};
ghost use Rattle.trio_lease.specs.Views.{bundle_in};
ghost use Rattle.trio_case.specs.Cases.{case_in};
ghost use Rattle.trio_judge.specs.Judging.{IsJudgeRoom};
ghost use Rattle.trio_judge.specs.Verdicts.{meets_three, HasFewEntries, HasListing, IsLowest, is_sound};
ghost use Rattle.trio_entries.specs.Handed.{handed_in};
ghost use Rattle.trio_ctl.specs.Pending.{all_marked, IsWeighed};

use crate::same::is_same;
use std::marker::Model;
use trio_case::Case;
use trio_judge::{Room, Verdict, judge};
use trio_nodes::Handed;
use trio_open::full::is_full;
use trio_page::{Page, PageNo, Reads};
use trio_rights::LibNo;

/// A release that has begun and is not yet judged: the bundle with all that it is judged by, and the
/// memory that its judgement takes.
///
/// Whoever has it may write into the bundle's pages until it is weighed. Where it is dropped its release
/// never ends: its grants and allotments stay out for good, and its library makes no call any more.
///
/// Contracts see its case.
pub struct Pending {
    case: Case,
    room: Room,
}

impl Model for Pending {
    ghost use Rattle.trio_case.specs.Cases.{CaseShown};
    ghost use Rattle.trio_judge.specs.Judging.{IsJudgeRoom};

    ghost Value = { CaseShown };

    ghost view = { λ p. p.case };

    ghost invariant = { λ p. IsJudgeRoom p.case p.room };
}

/// A release that has begun and was weighed: the bundle with all that it was judged by, none of which
/// changes any more, and what the judge says of it.
///
/// Where it is dropped its release never ends, as with a [`Pending`].
///
/// Contracts see the case and the verdict (`JudgedCase` of `specs/Pending.antt`). The verdict is always
/// the judge's of just this case.
pub struct Judged {
    case: Case,
    verdict: Verdict,
}

impl Model for Judged {
    ghost use Rattle.trio_ctl.specs.Pending.{JudgedCase, IsWeighed};

    ghost Value = { JudgedCase };

    ghost view = { λ j. record { case = j.case; verdict = j.verdict } };

    ghost invariant = { λ j. IsWeighed (record { case = j.case; verdict = j.verdict }) };
}

impl Drop for Pending {
    fn drop(self) {
        let Pending { room, case } = self;
        drop(room);
        case.into_bundle().discard();
    }
}

impl Drop for Judged {
    fn drop(self) {
        let Judged { case, verdict } = self;
        drop(verdict);
        case.into_bundle().discard();
    }
}

impl Pending {
    ghost use Rattle.std.specs.Borrow.{sem, LendsIf};
    ghost use Rattle.trio_page.specs.contracts.page.Page.{the_row as page_row};
    ghost use Rattle.trio_lease.specs.Places.{bytes_of, with_bytes};
    ghost use Rattle.trio_ctl.specs.contracts.pending.Pending.{the_row};

    /// A release with this case, in a room that was made for it. Takes no memory.
    ///
    /// Without a beginning nobody knows what was lent, so each block of its write leases counts as
    /// touched.
    pub fn of(case: Case, room: Room) -> Pending
        requires { IsJudgeRoom case room }
        ensures { result ≡ all_marked case }
    {
        let mut case = case;
        case.touch_blocks();
        Pending { case, room }
    }

    // the same, where the marks tell which blocks were touched
    pub(crate) fn begun(case: Case, room: Room) -> Pending
        requires { IsJudgeRoom case room }
        ensures { result ≡ case }
    {
        Pending { case, room }
    }

    /// The library whose release it is.
    pub fn lib(&self) -> LibNo
        ensures { result ≡ self.now.lib }
    {
        self.case.lib()
    }

    /// The page of this number of the bundle, lent or handed in, for writing. `None` exactly where the
    /// bundle has no such page. A lent block is then marked as touched, whether anything is written or
    /// not. Takes no memory.
    pub fn page_mut(&mut self, no: PageNo) -> Option<&mut Page>
        ensures value { IfSome result (λ p. bytes_of self.old.bundle no ≡ Some p.now) }
        ensures some { IsSome result ↔ IsSome (bytes_of self.old.bundle no) }
        ensures* lends { sem 𝓛 (LendsIf the_row page_row self.entry result (λ w. record self.old { bundle = with_bytes self.old.bundle no w }) self.old) }
    {
        self.case.page_mut(no)
    }

    /// What the judge says of the rules I1, I2 and I4 of the bundle as it now stands. Takes no memory,
    /// and asks nothing of the controller.
    ///
    /// A page of the bundle is looked at no more than twice.
    pub fn weigh(self, reads: &mut Reads) -> Judged
        ensures case { result.case ≡ self }
        ensures sound { is_sound result.verdict ≡ meets_three (case_in self) }
        ensures lowest { IsLowest (case_in self) result.verdict }
        ensures listing { HasListing (case_in self) result.verdict }
        ensures few { HasFewEntries (case_in self) result.verdict }
        ensures reads { reads.new ≤ reads.old + 2 * length (bundle_pages (bundle_in self.bundle)) }
    {
        let Pending { case, room } = self;
        is_full(case.bundle());
        let verdict = judge(&case, room, reads);
        Judged { case, verdict }
    }
}

impl Judged {
    /// The library whose release it is.
    pub fn lib(&self) -> LibNo
        ensures { result ≡ self.now.case.lib }
    {
        self.case.lib()
    }

    /// Its verdict is the judge's of just its case, and each page of its bundle has 4096 bytes. Nothing is
    /// done.
    pub fn is_weighed(&self)
        ensures { IsWeighed self.now }
    {
        let _ = &self.case;
    }

    /// Each lent block of its bundle that isn't marked as touched is as it was lent. Nothing is done.
    pub fn keeps_untouched(&self)
        ensures { (f : LentFile) → In f self.now.case.bundle.writes → KeepsUntouched f }
    {
        self.case.bundle().keeps_untouched();
    }

    // the case
    pub(crate) fn case(&self) -> &Case
        ensures case { result.now ≡ self.now.case }
        ensures weighed { IsWeighed self.now }
    {
        &self.case
    }

    // the case, and what the judge says of it
    pub(crate) fn parts(self) -> (Case, Verdict)
        ensures case { result.0 ≡ self.case }
        ensures verdict { result.1 ≡ self.verdict }
        ensures weighed { IsWeighed self }
    {
        let Judged { case, verdict } = self;
        (case, verdict)
    }

    /// Whether this is a copy of its bundle as it would be handed in, byte for byte, and with the marks
    /// of the touched blocks. Takes no memory.
    pub fn is(&self, copy: &Handed) -> bool
        ensures { IsTrue result ↔ (copy.now ≡ handed_in self.now.case.bundle) }
    {
        is_same(copy, self.case.bundle())
    }
}
