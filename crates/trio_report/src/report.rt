//! What a report says of its libraries and of the whole image.

ghost use Rattle.std.specs.Prelude.{◌≡◌, ◌++◌, OnOk};
ghost use Rattle.trio_report.specs.Report.{library_word, lib_heading, end_text, end_line, counts_text};

use crate::answer::{put_refused, put_settled};
use crate::text::put_text;
use std::alloc::Global;
use trio_page::NoMemory;
use trio_rights::LibNo;

/// What kind of library a script has.
#[derive(Clone, Copy, Debug, PartialEq, Eq)]
pub enum LibraryKind {
    /// A library that asks the controller itself, and may write any bytes.
    Raw,
    /// A library whose calls go through a session.
    Honest,
}

impl LibraryKind {
    fn word(self) -> &'static str
        ensures { result.now ≡ library_word self }
    {
        match self {
            LibraryKind::Raw => "raw",
            LibraryKind::Honest => "honest",
        }
    }
}

/// What a library's end is answered.
#[derive(Clone, Copy, Debug, PartialEq, Eq)]
pub enum EndAnswer {
    /// The library had nothing to give back.
    Nothing,
    /// What was given back for it was accepted.
    Accepted,
    /// What was given back for it was refused, by the rule of this number: 1 to 4 for I1 to I4.
    Refused(u8),
    /// An honest library handed in so many calls.
    Settled(u32),
}

/// Appends the line that begins the report on a library, as `lib 1 raw`.
pub fn put_heading(
    alloc: Global,
    out: &mut Vec<u8>,
    library: LibNo,
    kind: LibraryKind,
) -> Result<(), NoMemory>
    ensures { OnOk result (out.new.items ≡ out.old.items ++ lib_heading library.0 kind) }
{
    let number = library.0;
    put_text(out, &format!(in alloc; "lib {number} ")?)?;
    put_text(out, kind.word())?;
    put_text(out, "\n")
}

/// Appends the line that ends the report on a library, as `end nothing`.
pub fn put_end(alloc: Global, out: &mut Vec<u8>, answer: EndAnswer) -> Result<(), NoMemory>
    ensures { OnOk result (out.new.items ≡ out.old.items ++ end_line answer) }
{
    put_text(out, "end ")?;
    put_end_words(alloc, out, answer)?;
    put_text(out, "\n")
}

fn put_end_words(alloc: Global, out: &mut Vec<u8>, answer: EndAnswer) -> Result<(), NoMemory>
    ensures { OnOk result (out.new.items ≡ out.old.items ++ end_text answer) }
{
    match answer {
        EndAnswer::Nothing => put_text(out, "nothing"),
        EndAnswer::Accepted => put_text(out, "accepted"),
        EndAnswer::Refused(rule) => put_refused(alloc, out, rule),
        EndAnswer::Settled(count) => put_settled(alloc, out, count),
    }
}

/// How much of an image is in use.
#[derive(Clone, Copy, Debug, PartialEq, Eq)]
pub struct Counts {
    /// How many inode numbers are live.
    pub inodes: u32,
    /// How many core pages are owned by files.
    pub pages: u32,
    /// How many core pages are free.
    pub free: u32,
}

/// Appends the counts as a line, as `inodes 2 pages 4 free 25`.
pub fn put_counts(alloc: Global, out: &mut Vec<u8>, counts: &Counts) -> Result<(), NoMemory>
    ensures { OnOk result (out.new.items ≡ out.old.items ++ counts_text counts.now) }
{
    let Counts {
        inodes,
        pages,
        free,
    } = *counts;
    put_text(
        out,
        &format!(in alloc; "inodes {inodes} pages {pages} free {free}\n")?,
    )
}
