//! The walk over the judged files.

ghost use Rattle.std.specs.Prelude.{◌≡◌, if◌then◌else◌, Some, ◌+◌, ◌<◌, ◌≤◌, ◌++◌, ◌∷◌, [], ℕ, List, Ok, IfErr, OnOk, length, map, None, slice_index_or, true, vec_len, vec_capacity};
ghost use Rattle.std.specs.List.{filter, flat_map};
ghost use Rattle.std.specs.Option.{option_or};
ghost use Rattle.trio_layout.specs.Listing.{is_kept};
ghost use Rattle.trio_layout.specs.Broken.{BreaksGrammar};
ghost use Rattle.trio_layout.specs.Body.{body_of};
ghost use Rattle.trio_layout.specs.Case.{file_in};
ghost use Rattle.trio_layout.specs.JudgedFiles.{entries_in};
ghost use Rattle.trio_layout.specs.Survey.{Met, first_listed, met_in, numbers, plain, row_by};
ghost use Rattle.trio_tables.specs.Row.{as_row};
ghost use Rattle.trio_case.specs.Cases.{case_in};
ghost use Rattle.trio_case.specs.Rooms.{entries_in_room, entries_kept, file_in_room, looks_left, Keeps};
ghost use Rattle.trio_judge.specs.inner.Again.{AreFoundHeads};
ghost use Rattle.trio_judge.specs.inner.Walk.{file_met, files_of, listed_met, BadEntry, IsListed, IsOnWay, IsQueued, IsReady, IsPassed, Noted, PlacesLeft, SameFindings, SameQueue, Stands, is_new, writes_directory};

use crate::again::{is_listed_before, mark_head};
use crate::pages::mark_own;
use crate::rules::{entry_keeps_rights, file_keeps_rights, is_in_grammar, is_kept, is_own};
use trio_case::{Case, DirEntry, ListedEntry, Listing, PageRoom, read_file};
use trio_layout::{Body, FaultAt, Location};
use trio_page::Reads;
use trio_rights::Kind;
use trio_tables::Row;

/// A file at the place where an entry of a judged directory lists it.
#[derive(Clone, Copy)]
pub(crate) struct JudgedFile {
    pub ino: u32,
    pub kind: Kind,
    /// The directory that lists it.
    pub parent: u32,
    pub page: u32,
    pub slot: u16,
    pub body: [u8; 64],
}

impl JudgedFile {
    /// The file that an entry of this directory lists.
    fn listed(directory: u32, listed: &DirEntry) -> JudgedFile
        ensures { file_met result ≡ listed_met directory listed.now }
    {
        JudgedFile {
            ino: listed.ino,
            kind: listed.kind,
            parent: directory,
            page: listed.page,
            slot: listed.slot,
            body: listed.body,
        }
    }

    /// The place of an entry.
    fn fault(&self) -> FaultAt
        ensures { result ≡ record { ino = self.now.parent; place = record { page = self.now.page; slot = self.now.slot } } }
    {
        FaultAt {
            ino: self.parent,
            place: Location {
                page: self.page,
                slot: self.slot,
            },
        }
    }

    /// The row that it is to have with this body.
    fn row(&self, body: &Body) -> Row
        ensures { as_row result ≡ row_by (file_met self.now) body.now }
    {
        Row {
            kind: self.kind,
            mode: body.mode,
            uid: body.uid,
            gid: body.gid,
            parent: self.parent,
            page: self.page,
            slot: self.slot,
        }
    }
}

/// A walk on its way: the files found so far, those passed at the front, and what was found of these.
#[derive(Drop)]
pub(crate) struct Walk {
    /// The judged files, each once, in the order in which they are passed.
    pub files: Vec<JudgedFile>,
    /// By the places of the numbers that judged files may have ([`Case::own_place`]), whether a file of
    /// the number is one of these.
    pub found: Vec<bool>,
    /// In the order of the bundle's pages, whether a file passed lists the page.
    pub pages: Vec<bool>,
    /// What is listed, up to the first fault of I2.
    pub listing: Listing,
    /// The first place at which I2 fails.
    pub owning: Option<FaultAt>,
    /// The first place at which I4 fails, up to the first fault of I2.
    pub rights: Option<FaultAt>,
}

impl Walk {
    /// Passes the file at this place. An error is a place at which I1 fails.
    ///
    /// Where I2 is known to fail, a directory whose chain begins with a marked index page isn't gone
    /// over: nothing is left to find in it, and nothing more is listed.
    pub fn visit(
        &mut self,
        case: &Case,
        room: &mut PageRoom,
        heads: &mut Vec<bool>,
        at: usize,
        reads: &mut Reads,
    ) -> Result<(), FaultAt>
        requires inside { at < vec_len self.old.files }
        requires keeps { Keeps case.now room.old }
        requires queued { IsQueued (case_in case.now) at self.old }
        requires passed { IsPassed (case_in case.now) at self.old }
        requires ready { IsReady (case_in case.now) self.old }
        requires heads { AreFoundHeads (case_in case.now) (numbers (files_of self.old)) heads.old.items }
        ensures keeps { Keeps case.now room.new }
        ensures queued { OnOk result (IsQueued (case_in case.now) (at + 1) self.new) }
        ensures passed { OnOk result (IsPassed (case_in case.now) (at + 1) self.new) }
        ensures ready { OnOk result (IsReady (case_in case.now) self.new) }
        ensures heads { OnOk result (AreFoundHeads (case_in case.now) (numbers (files_of self.new)) heads.new.items) }
        ensures fault { IfErr result (λ p. BreaksGrammar (case_in case.now) p.ino p.place) }
        ensures looks { OnOk result (reads.new + looks_left room.new ≤ reads.old + looks_left room.old) }
        ensures last { reads.new ≤ reads.old + looks_left room.old }
    {
        let file = self.files[at];
        if self.owning.is_none() {
            return self.go_over(case, room, &file, at, reads);
        }
        match is_listed_before(case, room, heads, &file, reads) {
            Ok(true) => Ok(()),
            Ok(false) => self.go_over_marked(case, room, heads, &file, at, reads),
            Err(place) => Err(FaultAt {
                ino: file.ino,
                place,
            }),
        }
    }

    /// Passes this file, the one at this place, and marks its head.
    fn go_over_marked(
        &mut self,
        case: &Case,
        room: &mut PageRoom,
        heads: &mut Vec<bool>,
        file: &JudgedFile,
        at: usize,
        reads: &mut Reads,
    ) -> Result<(), FaultAt>
        requires inside { at < vec_len self.old.files }
        requires here { slice_index_or (files_of self.old) at (file_met file.now) ≡ file_met file.now }
        requires keeps { Keeps case.now room.old }
        requires queued { IsQueued (case_in case.now) at self.old }
        requires passed { IsPassed (case_in case.now) at self.old }
        requires ready { IsReady (case_in case.now) self.old }
        requires heads { AreFoundHeads (case_in case.now) (numbers (files_of self.old)) heads.old.items }
        ensures keeps { Keeps case.now room.new }
        ensures queued { OnOk result (IsQueued (case_in case.now) (at + 1) self.new) }
        ensures passed { OnOk result (IsPassed (case_in case.now) (at + 1) self.new) }
        ensures ready { OnOk result (IsReady (case_in case.now) self.new) }
        ensures heads { OnOk result (AreFoundHeads (case_in case.now) (numbers (files_of self.new)) heads.new.items) }
        ensures fault { IfErr result (λ p. BreaksGrammar (case_in case.now) p.ino p.place) }
        ensures looks { OnOk result (reads.new + looks_left room.new ≤ reads.old + looks_left room.old) }
        ensures last { reads.new ≤ reads.old + looks_left room.old }
    {
        self.go_over(case, room, file, at, reads)?;
        mark_head(case, room, heads, file);
        Ok(())
    }

    /// Passes this file, the one at this place, by going over all that it lists.
    fn go_over(
        &mut self,
        case: &Case,
        room: &mut PageRoom,
        file: &JudgedFile,
        at: usize,
        reads: &mut Reads,
    ) -> Result<(), FaultAt>
        requires inside { at < vec_len self.old.files }
        requires here { slice_index_or (files_of self.old) at (file_met file.now) ≡ file_met file.now }
        requires keeps { Keeps case.now room.old }
        requires queued { IsQueued (case_in case.now) at self.old }
        requires passed { IsPassed (case_in case.now) at self.old }
        requires ready { IsReady (case_in case.now) self.old }
        ensures keeps { Keeps case.now room.new }
        ensures queued { OnOk result (IsQueued (case_in case.now) (at + 1) self.new) }
        ensures passed { OnOk result (IsPassed (case_in case.now) (at + 1) self.new) }
        ensures ready { OnOk result (IsReady (case_in case.now) self.new) }
        ensures grows { OnOk result (files_of self.new ≡ files_of self.old ++ first_listed (numbers (files_of self.old)) (filter (is_new (case_in case.now)) (entries_in (case_in case.now) (file_met file.now)))) }
        ensures read { OnOk result ((body : Body) → body_of file.now.kind case.now.range file.now.body ≡ Some body → file_in (case_in case.now) (file_met file.now) ≡ Ok (file_in_room room.new file.now.kind body)) }
        ensures fault { IfErr result (λ p. BreaksGrammar (case_in case.now) p.ino p.place) }
        ensures looks { OnOk result (reads.new + looks_left room.new ≤ reads.old + looks_left room.old) }
        ensures last { reads.new ≤ reads.old + looks_left room.old }
    {
        let body = match read_file(case, room, file.kind, &file.body, reads) {
            Ok(body) => body,
            Err(place) => {
                return Err(FaultAt {
                    ino: file.ino,
                    place,
                });
            }
        };
        self.note_file(case, room, file, &body);
        if file.kind.is_directory() {
            self.note_entries(case, room, file.ino)
        } else {
            Ok(())
        }
    }

    /// Notes the pages and the rights of a file that was read last.
    fn note_file(&mut self, case: &Case, room: &PageRoom, file: &JudgedFile, body: &Body)
        requires keeps { Keeps case.now room.now }
        requires ready { IsReady (case_in case.now) self.old }
        requires read { file_in (case_in case.now) (file_met file.now) ≡ Ok (file_in_room room.now file.now.kind body.now) }
        requires on_way { IsOnWay (case_in case.now) (file_met file.now) self.old }
        ensures stands { (done es : List Met) → Stands (case_in case.now) done es self.old → Stands (case_in case.now) (done ++ file_met file.now ∷ []) es self.new }
        ensures same { SameQueue self.old self.new }
    {
        if self.owning.is_some() {
            return;
        }
        let index = mark_own(case, room, &mut self.pages, room.index());
        let block = mark_own(case, room, &mut self.pages, room.blocks());
        if let Some(page) = index.or(block) {
            self.owning = Some(FaultAt {
                ino: file.ino,
                place: Location { page, slot: 0 },
            });
            return;
        }
        let denied = FaultAt {
            ino: file.ino,
            place: Location { page: 0, slot: 0 },
        };
        self.rights = first_denied(self.rights, file_keeps_rights(case, file.ino, body), denied);
        self.listing
            .add_file(file.ino, file.row(body), room.index(), room.blocks());
    }

    /// Notes the entries of the directory of this number, which was read last. An error is the
    /// place of one whose body leaves the grammar.
    fn note_entries(&mut self, case: &Case, room: &PageRoom, directory: u32) -> Result<(), FaultAt>
        requires keeps { Keeps case.now room.now }
        requires ready { IsReady (case_in case.now) self.old }
        requires lists { writes_directory (case_in case.now) ≡ true }
        requires places { PlacesLeft (length (flat_map (entries_kept room.now.kept) room.now.blocks.items)) self.old }
        ensures noted { OnOk result (Noted (case_in case.now) (map (met_in plain directory) (flat_map (entries_kept room.now.kept) room.now.blocks.items)) self.old self.new) }
        ensures bad { IfErr result (BadEntry (case_in case.now) (map (met_in plain directory) (flat_map (entries_kept room.now.kept) room.now.blocks.items))) }
    {
        for block in room.blocks() {
            if let Err(fault) = self.note_block(case, directory, room.entries_of(case, *block)) {
                return Err(fault);
            }
        }
        Ok(())
    }

    fn note_block(
        &mut self,
        case: &Case,
        directory: u32,
        entries: &[DirEntry],
    ) -> Result<(), FaultAt>
        requires ready { IsReady (case_in case.now) self.old }
        requires lists { writes_directory (case_in case.now) ≡ true }
        requires places { PlacesLeft (length entries.now) self.old }
        ensures noted { OnOk result (Noted (case_in case.now) (map (listed_met directory) entries.now) self.old self.new) }
        ensures bad { IfErr result (BadEntry (case_in case.now) (map (listed_met directory) entries.now)) }
    {
        for listed in entries {
            if let Err(fault) = self.note_entry(case, &JudgedFile::listed(directory, listed)) {
                return Err(fault);
            }
        }
        Ok(())
    }

    fn note_entry(&mut self, case: &Case, entry: &JudgedFile) -> Result<(), FaultAt>
        requires ready { IsReady (case_in case.now) self.old }
        requires lists { writes_directory (case_in case.now) ≡ true }
        requires places { PlacesLeft 1 self.old }
        ensures noted { OnOk result (Noted (case_in case.now) (file_met entry.now ∷ []) self.old self.new) }
        ensures bad { IfErr result (BadEntry (case_in case.now) (file_met entry.now ∷ [])) }
    {
        let kept = is_kept(case, entry);
        if !is_in_grammar(case, entry, kept) {
            return Err(entry.fault());
        }
        self.list(case, entry, kept);
        self.find(case, entry);
        Ok(())
    }

    /// Puts the file of an entry into the queue where it is new and wasn't found before.
    fn find(&mut self, case: &Case, entry: &JudgedFile)
        requires ready { IsReady (case_in case.now) self.old }
        requires lists { writes_directory (case_in case.now) ≡ true }
        ensures grows { files_of self.new ≡ files_of self.old ++ first_listed (numbers (files_of self.old)) (filter (is_new (case_in case.now)) (file_met entry.now ∷ [])) }
        ensures ready { IsReady (case_in case.now) self.new }
        ensures same { SameFindings self.old self.new }
    {
        let Some(at) = case.own_place(entry.ino) else {
            return;
        };
        if self.found[at] {
            return;
        }
        self.found[at] = true;
        add(&mut self.files, *entry);
    }

    /// Lists an entry, or notes that it isn't its own or names a number again. After such a fault
    /// nothing more is listed.
    fn list(&mut self, case: &Case, entry: &JudgedFile, kept: bool)
        requires kept { kept ≡ is_kept (case_in case.now) (file_met entry.now) }
        requires places { PlacesLeft 1 self.old }
        ensures lists { (done es : List Met) → IsListed (case_in case.now) done es self.old → IsListed (case_in case.now) done (es ++ file_met entry.now ∷ []) self.new }
        ensures same { SameQueue self.old self.new }
        ensures places { (n : ℕ) → PlacesLeft (n + 1) self.old → PlacesLeft n self.new }
    {
        if self.owning.is_some() {
            return;
        }
        if self.listing.dir(entry.ino).is_some() || !is_own(case, entry, kept) {
            self.owning = Some(entry.fault());
            return;
        }
        self.rights = first_denied(
            self.rights,
            entry_keeps_rights(case, entry, kept),
            entry.fault(),
        );
        self.listing.add_entry(ListedEntry {
            ino: entry.ino,
            kind: entry.kind,
            dir: entry.parent,
            page: entry.page,
            slot: entry.slot,
            kept,
        });
    }
}

/// The first place at which rights aren't kept, after one place more.
fn first_denied(before: Option<FaultAt>, keeps: bool, place: FaultAt) -> Option<FaultAt>
    ensures { result ≡ option_or before (if keeps then None else Some place) }
{
    if keeps {
        before
    } else {
        before.or(Some(place))
    }
}

/// Appends to a list that has a place for it.
pub(crate) fn add<T: Drop>(list: &mut Vec<T>, value: T)
    requires room { vec_len list.old < vec_capacity list.old }
    ensures added { list.new.items ≡ list.old.items ++ value ∷ [] }
    ensures len { vec_len list.new ≡ vec_len list.old + 1 }
    ensures room { vec_capacity list.old ≤ vec_capacity list.new }
{
    let _pushed = list.push(value);
}
