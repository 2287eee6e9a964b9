//! The survey of a whole core.

ghost use Rattle.std.specs.Prelude.{◌≡◌, ◌+◌, ◌≤◌, IfErr, IfOk, OnOk};
ghost use Rattle.trio_layout.specs.Range.{core_count};
ghost use Rattle.trio_layout.specs.Survey.{plain, survey};
ghost use Rattle.trio_layout.specs.Sound.{IsSound, rows_table, owners_table};
ghost use Rattle.trio_survey.specs.Answer.{core_of, IsRefused};
ghost use Rattle.trio_survey.specs.Picks.{pick_of};
ghost use Rattle.trio_survey.specs.inner.Old.{AreOld, IsRefusedBy};
ghost use Rattle.trio_survey.specs.inner.Walk.{framed};

use crate::fault::SurveyFault;
use crate::picks::Picks;
use crate::walk::{CoreFrame, Walk};
use std::alloc::Global;
use trio_layout::{CoreRange, Rule};
use trio_page::{Home, Reads};
use trio_tables::{Owners, Shadow};

/// The tables of all files that are reached from the root.
#[derive(Drop)]
pub struct Found {
    /// The row of each inode number.
    pub rows: Shadow,
    /// The owner of each page: the controller below the first core page, else the file that lists
    /// the page, or 0.
    pub owners: Owners,
}

/// Goes through the files of a core from the root downward, level by level, and answers the tables
/// of a sound core. `root` is the body of the root, `range` says which pages are core pages, and the
/// inode numbers run from 1 up to `inodes`.
///
/// Blocks of what is no directory aren't looked at, and each core page is looked at once at most, however
/// often it is listed.
///
/// [`SurveyFault::Fails`] names the lower of the rules I1 and I2 that fails, with a file and place at
/// which it does; it comes exactly where the core isn't sound. The pages are as they were after any
/// answer.
pub fn survey(
    alloc: Global,
    home: &mut Home,
    root: &[u8; 64],
    range: CoreRange,
    inodes: u32,
    reads: &mut Reads,
) -> Result<Found, SurveyFault>
    requires order { range.first ≤ range.end }
    requires pages { range.end ≤ 8192 }
    requires some { 1 ≤ inodes }
    requires inodes { inodes ≤ 16384 }
    ensures pages { home.new.pages ≡ home.old.pages }
    ensures sound { OnOk result (IsSound (core_of home.old.pages root.now range inodes) plain) }
    ensures rows { let core = core_of home.old.pages root.now range inodes in
        IfOk result (λ f. f.rows ≡ rows_table core (survey core plain)) }
    ensures owners { let core = core_of home.old.pages root.now range inodes in
        IfOk result (λ f. f.owners ≡ owners_table core (survey core plain)) }
    ensures fails { IfErr result (IsRefused (core_of home.old.pages root.now range inodes) plain) }
    ensures reads { reads.new ≤ reads.old + core_count range }
    ensures looked { home.new.looked ≤ home.old.looked + core_count range }
{
    let picks = Picks::none(alloc);
    survey_picked(alloc, home, root, range, inodes, &picks, reads)
}

/// As [`survey`], where an entry for whose number a body is picked at its place has that body in
/// place of the bytes in its slot.
pub fn survey_picked(
    alloc: Global,
    home: &mut Home,
    root: &[u8; 64],
    range: CoreRange,
    inodes: u32,
    picks: &Picks,
    reads: &mut Reads,
) -> Result<Found, SurveyFault>
    requires order { range.first ≤ range.end }
    requires pages { range.end ≤ 8192 }
    requires some { 1 ≤ inodes }
    requires inodes { inodes ≤ 16384 }
    ensures pages { home.new.pages ≡ home.old.pages }
    ensures sound { OnOk result (IsSound (core_of home.old.pages root.now range inodes) (pick_of picks.now)) }
    ensures rows { let core = core_of home.old.pages root.now range inodes in
        IfOk result (λ f. f.rows ≡ rows_table core (survey core (pick_of picks.now))) }
    ensures owners { let core = core_of home.old.pages root.now range inodes in
        IfOk result (λ f. f.owners ≡ owners_table core (survey core (pick_of picks.now))) }
    ensures fails { IfErr result (IsRefused (core_of home.old.pages root.now range inodes) (pick_of picks.now)) }
    ensures reads { reads.new ≤ reads.old + core_count range }
    ensures looked { home.new.looked ≤ home.old.looked + core_count range }
{
    let frame = CoreFrame {
        root: *root,
        range,
        inodes,
        old: false,
    };
    survey_framed(alloc, home, &frame, picks, reads)
}

/// As [`survey_picked`], of a core by its frame. Where version 1 is asked, the core is sound only if its
/// files are in that version's grammar too.
#[tactic(auto, using(crate::proofs::KeptPages::few_kept))]
pub(crate) fn survey_framed(
    alloc: Global,
    home: &mut Home,
    frame: &CoreFrame,
    picks: &Picks,
    reads: &mut Reads,
) -> Result<Found, SurveyFault>
    requires order { frame.now.range.first ≤ frame.now.range.end }
    requires pages { frame.now.range.end ≤ 8192 }
    requires some { 1 ≤ frame.now.inodes }
    requires inodes { frame.now.inodes ≤ 16384 }
    ensures pages { home.new.pages ≡ home.old.pages }
    ensures sound { OnOk result (IsSound (framed home.old.pages frame.now) (pick_of picks.now)) }
    ensures rows { let core = framed home.old.pages frame.now in
        IfOk result (λ f. f.rows ≡ rows_table core (survey core (pick_of picks.now))) }
    ensures owners { let core = framed home.old.pages frame.now in
        IfOk result (λ f. f.owners ≡ owners_table core (survey core (pick_of picks.now))) }
    ensures old { let core = framed home.old.pages frame.now in
        OnOk result (AreOld frame.now.old core (survey core (pick_of picks.now))) }
    ensures fails { IfErr result (IsRefusedBy frame.now.old (framed home.old.pages frame.now) (pick_of picks.now)) }
    ensures reads { reads.new ≤ reads.old + core_count frame.now.range }
    ensures looked { home.new.looked ≤ home.old.looked + core_count frame.now.range }
{
    let mut walk = Walk::start(alloc, frame)?;
    let mut at = 0;
    while at < walk.files.len() {
        walk.visit(alloc, home, frame, picks, at, reads)?;
        at += 1;
    }
    match walk.repeated {
        Some(at) => Err(SurveyFault::fails(Rule::Owning, at)),
        None => Ok(Found {
            rows: walk.rows,
            owners: walk.owners,
        }),
    }
}
