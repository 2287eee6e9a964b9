//! The walk over the files that are met, level by level.

ghost use Rattle.std.specs.Prelude.{◌≡◌, ◌+◌, ◌<◌, ◌≤◌, ℕ, List, Option, IfErr, IfOk, OnOk, vec_len};
ghost use Rattle.trio_layout.specs.Survey.{Pick};
ghost use Rattle.trio_survey.specs.Picks.{pick_of};
ghost use Rattle.trio_survey.specs.inner.Blocks.{HasParts, SaysBlocks};
ghost use Rattle.trio_survey.specs.inner.Kept.{kept_count, Keeps};
ghost use Rattle.trio_layout.specs.Rule.{rule_number};
ghost use Rattle.trio_layout.specs.declared.refusal.Rule.TheVariants.{Grammar};
ghost use Rattle.trio_survey.specs.inner.Old.{IsFaultBy, WalkOld};
ghost use Rattle.trio_survey.specs.inner.Walk.{file_repeat, framed, WalkHeads, WalkStands, WalkTables};

use crate::again::{Heads, listed_before};
use crate::enter::{enter, row_of};
use crate::fault::SurveyFault;
use crate::file::{MetFile, listing_blocks, read_pages};
use crate::kept::Kept;
use crate::marks::{add_children, mark_new};
use crate::old::unknown;
use crate::picks::Picks;
use std::alloc::Global;
use trio_layout::{CoreRange, FaultAt, Location, Rule};
use trio_page::{Home, NoMemory, Reads};
use trio_rights::Kind;
use trio_tables::{Owners, Shadow};

/// What a survey is told of a core beside its pages.
#[derive(Clone, Copy)]
pub struct CoreFrame {
    /// The body of the root.
    pub root: [u8; 64],
    pub range: CoreRange,
    /// How many inode numbers there are.
    pub inodes: u32,
    /// Whether the files are read by version 1.
    pub old: bool,
}

/// A walk on its way: the files met so far, those passed at the front, and what was found of these.
#[derive(Drop)]
pub struct Walk {
    /// The files met, each once, in the order in which they are passed.
    pub files: Vec<MetFile>,
    /// By inode number, which was met.
    pub met: Vec<bool>,
    /// By page number, which was listed.
    pub used: Vec<bool>,
    /// The first file that lists something that was listed before, and where: a page as a whole, or
    /// an entry.
    pub repeated: Option<FaultAt>,
    /// Where the chains of the files that were passed begin.
    pub heads: Heads,
    pub rows: Shadow,
    pub owners: Owners,
    /// What was read of the core.
    pub kept: Kept,
}

impl Walk {
    /// The walk that has met the root and passed nothing.
    pub fn start(alloc: Global, frame: &CoreFrame) -> Result<Walk, NoMemory>
        requires order { frame.now.range.first ≤ frame.now.range.end }
        requires pages { frame.now.range.end ≤ 8192 }
        requires some { 1 ≤ frame.now.inodes }
        requires inodes { frame.now.inodes ≤ 16384 }
        ensures stands { IfOk result (λ w. (pages : List (Option (List ℕ))) → (pick : Pick)
            → WalkStands (framed pages frame.now) pick 0 w) }
        ensures tables { IfOk result (λ w. (pages : List (Option (List ℕ)))
            → WalkTables (framed pages frame.now) 0 w) }
        ensures heads { IfOk result (λ w. (pages : List (Option (List ℕ))) → WalkHeads (framed pages frame.now) 0 w) }
        ensures keeps { IfOk result (λ w. (pages : List (Option (List ℕ))) → Keeps frame.now.range pages w.kept.pages.pages.items) }
        ensures parts { IfOk result (λ w. HasParts frame.now.range w.kept.blocks) }
        ensures says { IfOk result (λ w. (pages : List (Option (List ℕ))) → SaysBlocks pages frame.now.range frame.now.inodes w.kept.blocks) }
        ensures count { IfOk result (λ w. kept_count w.kept.pages.pages.items ≡ 0) }
    {
        let root = MetFile {
            ino: 1,
            kind: Kind::Directory,
            parent: 0,
            page: 0,
            slot: 0,
            body: frame.root,
        };
        let mut met = vec![in alloc; false; frame.inodes as usize + 1]?;
        met[1] = true;
        Ok(Walk {
            files: vec![in alloc; root]?,
            met,
            used: vec![in alloc; false; frame.range.end as usize]?,
            repeated: None,
            heads: Heads::none(alloc, frame.range.end)?,
            rows: Shadow::new(alloc, frame.inodes)?,
            owners: Owners::new(alloc, frame.range.end, frame.range.first)?,
            kept: Kept::none(alloc, frame.range)?,
        })
    }

    /// Passes the file at this place of the queue. Once something was listed again, a file whose chain
    /// is that of one that was passed, a directory's as a directory's, isn't gone over: all that it lists
    /// was met.
    #[tactic(auto, using(crate::proofs::OldFiles::no_memory_by))]
    pub fn visit(
        &mut self,
        alloc: Global,
        home: &mut Home,
        frame: &CoreFrame,
        picks: &Picks,
        at: usize,
        reads: &mut Reads,
    ) -> Result<(), SurveyFault>
        requires inside { at < vec_len self.old.files }
        requires stands { WalkStands (framed home.old.pages frame.now) (pick_of picks.now) at self.old }
        requires tables { WalkTables (framed home.old.pages frame.now) at self.old }
        requires heads { WalkHeads (framed home.old.pages frame.now) at self.old }
        requires old { WalkOld frame.now.old (framed home.old.pages frame.now) at self.old }
        requires keeps { Keeps frame.now.range home.old.pages self.old.kept.pages.pages.items }
        requires parts { HasParts frame.now.range self.old.kept.blocks }
        requires says { SaysBlocks home.old.pages frame.now.range frame.now.inodes self.old.kept.blocks }
        ensures pages { home.new.pages ≡ home.old.pages }
        ensures stands { OnOk result (WalkStands (framed home.old.pages frame.now) (pick_of picks.now) (at + 1) self.new) }
        ensures tables { OnOk result (WalkTables (framed home.old.pages frame.now) (at + 1) self.new) }
        ensures heads { OnOk result (WalkHeads (framed home.old.pages frame.now) (at + 1) self.new) }
        ensures old { OnOk result (WalkOld frame.now.old (framed home.old.pages frame.now) (at + 1) self.new) }
        ensures fault { IfErr result (IsFaultBy frame.now.old (framed home.old.pages frame.now) (pick_of picks.now)) }
        ensures keeps { Keeps frame.now.range home.old.pages self.new.kept.pages.pages.items }
        ensures parts { OnOk result (HasParts frame.now.range self.new.kept.blocks) }
        ensures says { OnOk result (SaysBlocks home.old.pages frame.now.range frame.now.inodes self.new.kept.blocks) }
        ensures looks { reads.new + kept_count self.old.kept.pages.pages.items ≤ reads.old + kept_count self.new.kept.pages.pages.items }
        ensures looked { home.new.looked + kept_count self.old.kept.pages.pages.items ≤ home.old.looked + kept_count self.new.kept.pages.pages.items }
    {
        let met = self.files[at];
        if self.repeated.is_some() {
            if let Some(body) = listed_before(self.heads.of(met.kind), frame.range, &met) {
                if frame.old && body.guard {
                    return Err(leaves_grammar(met.ino, Location { page: 0, slot: 0 }));
                }
                self.rows.set(met.ino, Some(row_of(&met, &body)));
                return Ok(());
            }
        }
        self.pass(alloc, home, frame, picks, at, reads)
    }

    /// Goes over the file at this place of the queue.
    #[tactic(auto, using(crate::proofs::OldFiles::no_memory_by))]
    fn pass(
        &mut self,
        alloc: Global,
        home: &mut Home,
        frame: &CoreFrame,
        picks: &Picks,
        at: usize,
        reads: &mut Reads,
    ) -> Result<(), SurveyFault>
        requires inside { at < vec_len self.old.files }
        requires stands { WalkStands (framed home.old.pages frame.now) (pick_of picks.now) at self.old }
        requires tables { WalkTables (framed home.old.pages frame.now) at self.old }
        requires heads { WalkHeads (framed home.old.pages frame.now) at self.old }
        requires old { WalkOld frame.now.old (framed home.old.pages frame.now) at self.old }
        requires keeps { Keeps frame.now.range home.old.pages self.old.kept.pages.pages.items }
        requires parts { HasParts frame.now.range self.old.kept.blocks }
        requires says { SaysBlocks home.old.pages frame.now.range frame.now.inodes self.old.kept.blocks }
        ensures pages { home.new.pages ≡ home.old.pages }
        ensures stands { OnOk result (WalkStands (framed home.old.pages frame.now) (pick_of picks.now) (at + 1) self.new) }
        ensures tables { OnOk result (WalkTables (framed home.old.pages frame.now) (at + 1) self.new) }
        ensures heads { OnOk result (WalkHeads (framed home.old.pages frame.now) (at + 1) self.new) }
        ensures old { OnOk result (WalkOld frame.now.old (framed home.old.pages frame.now) (at + 1) self.new) }
        ensures fault { IfErr result (IsFaultBy frame.now.old (framed home.old.pages frame.now) (pick_of picks.now)) }
        ensures keeps { Keeps frame.now.range home.old.pages self.new.kept.pages.pages.items }
        ensures parts { OnOk result (HasParts frame.now.range self.new.kept.blocks) }
        ensures says { OnOk result (SaysBlocks home.old.pages frame.now.range frame.now.inodes self.new.kept.blocks) }
        ensures looks { reads.new + kept_count self.old.kept.pages.pages.items ≤ reads.old + kept_count self.new.kept.pages.pages.items }
        ensures looked { home.new.looked + kept_count self.old.kept.pages.pages.items ≤ home.old.looked + kept_count self.new.kept.pages.pages.items }
    {
        let met = self.files[at];
        let file = match read_pages(
            alloc,
            home,
            frame.range,
            frame.inodes,
            &met,
            &mut self.kept,
            reads,
        )? {
            Ok(file) => file,
            Err(place) => return Err(leaves_grammar(met.ino, place)),
        };
        let unknown = unknown(frame.old, frame.range, &self.kept.blocks, met.kind, &file);
        if let Some(place) = unknown {
            return Err(leaves_grammar(met.ino, place));
        }
        let index = mark_new(&mut self.used, &file.chain.index);
        let block = mark_new(&mut self.used, &file.chain.blocks);
        let entry = add_children(
            &mut self.files,
            &mut self.met,
            picks,
            met.ino,
            frame.range,
            &self.kept.blocks,
            listing_blocks(met.kind, &file.chain.blocks),
        )?;
        enter(&mut self.rows, &mut self.owners, &met, &file);
        self.heads.note(met.kind, &file.body);
        self.repeated = self.repeated.or(repeated_in(met.ino, index, block, entry));
        Ok(())
    }
}

/// The fault of a file that can't be read, because of this place.
fn leaves_grammar(ino: u32, place: Location) -> SurveyFault
    ensures { result ≡ SurveyFault.Fails (rule_number Grammar) ino place.page place.slot }
{
    SurveyFault::fails(Rule::Grammar, FaultAt { ino, place })
}

/// What a file lists again, by the first such index page, block and entry.
fn repeated_in(
    ino: u32,
    index: Option<u32>,
    block: Option<u32>,
    entry: Option<Location>,
) -> Option<FaultAt>
    ensures { result ≡ file_repeat ino index block entry }
{
    if let Some(page) = index.or(block) {
        let place = Location { page, slot: 0 };
        return Some(FaultAt { ino, place });
    }
    let place = entry?;
    Some(FaultAt { ino, place })
}
