//! The libraries of a script: the lines that begin them, and those that began.

ghost use Rattle.std.specs.Prelude.{◌≡◌, ◌++◌, IfOk, OnOk, Some, is_some, map};
ghost use Rattle.trio_script.specs.Said.{library_in, library_kind, library_said, named};
ghost use Rattle.trio_script.specs.Script.{is_next, said_at};
ghost use Rattle.trio_script.specs.inner.Taken.{TakesForm, TakesOwn, count_of, libs_as, lines_seen, no_lines};

use crate::honest::{HonestLine, read_honest};
use crate::line::{RawLine, read_line};
use crate::word::{parts, read_number};
use crate::{LIB_LIMIT, Lines, ScriptLib, ScriptLine};
use std::alloc::Global;
use trio_nodes::List;
use trio_page::NoMemory;
use trio_rights::Creds;

/// What kind of library a line begins.
#[derive(Clone, Copy)]
pub enum LibKind {
    /// `raw`: its lines are those of [`RawLine`].
    Raw,
    /// `honest`: its lines are those of [`HonestLine`].
    Honest,
}

/// What a library's line says: `lib N KIND UID GID`.
#[derive(Clone, Copy)]
pub struct LibLine {
    /// The library's number.
    pub number: u32,
    pub kind: LibKind,
    /// Whom the library acts for.
    pub creds: Creds,
}

/// Which library a line begins, where it begins one.
pub fn read_library(alloc: Global, line: &[u8]) -> Result<Option<LibLine>, NoMemory>
    ensures { IfOk result (λ said. said ≡ library_said line.now) }
{
    Ok(library_in(&parts(alloc, line, b' ')?))
}

fn library_in(words: &[&[u8]]) -> Option<LibLine>
    ensures { result ≡ library_in (map (λ word. word.now) words.now) }
{
    let [command, number, kind, uid, gid] = words else {
        return None;
    };
    if *command == b"lib".as_slice() {
        named(
            read_number(number),
            library_kind(kind),
            read_number(uid),
            read_number(gid),
        )
    } else {
        None
    }
}

fn library_kind(word: &[u8]) -> Option<LibKind>
    ensures { result ≡ library_kind word.now }
{
    if word == b"raw".as_slice() {
        Some(LibKind::Raw)
    } else if word == b"honest".as_slice() {
        Some(LibKind::Honest)
    } else {
        None
    }
}

fn named(
    number: Option<u32>,
    kind: Option<LibKind>,
    uid: Option<u32>,
    gid: Option<u32>,
) -> Option<LibLine>
    ensures { result ≡ named number kind uid gid }
{
    Some(LibLine {
        number: number?,
        kind: kind?,
        creds: Creds {
            uid: uid?,
            gid: gid?,
        },
    })
}

/// The libraries that began: all lines of all but the last, and what was read of that one.
#[derive(Drop)]
pub struct Begun {
    pub whole: Vec<ScriptLib>,
    pub creds: Creds,
    pub lines: BegunLines,
}

impl Begun {
    /// Puts what a line says behind the last library's lines, or answers false where it has no form of
    /// that library's kind.
    pub fn take_line(&mut self, alloc: Global, number: u32, line: &[u8]) -> Result<bool, NoMemory>
        ensures { IfOk result (TakesOwn number line.now self.old self.new) }
    {
        self.lines.take_line(alloc, number, line)
    }
}

/// What was read of a library's lines, by its kind.
#[derive(Drop)]
pub enum BegunLines {
    Raw(Vec<ScriptLine<RawLine>>),
    Honest(Vec<ScriptLine<HonestLine>>),
}

impl BegunLines {
    /// No lines of a library of this kind.
    pub fn new(alloc: Global, kind: LibKind) -> BegunLines
        ensures { lines_seen result ≡ no_lines kind }
    {
        match kind {
            LibKind::Raw => BegunLines::Raw(Vec::new(alloc)),
            LibKind::Honest => BegunLines::Honest(Vec::new(alloc)),
        }
    }

    fn take_line(&mut self, alloc: Global, number: u32, line: &[u8]) -> Result<bool, NoMemory>
        ensures { IfOk result (TakesForm number line.now self.old self.new) }
    {
        match self {
            BegunLines::Raw(lines) => put_line(lines, number, read_line(alloc, line)?),
            BegunLines::Honest(lines) => put_line(lines, number, read_honest(alloc, line)?),
        }
    }

    fn close(self) -> Lines
        ensures { result ≡ lines_seen self }
    {
        match self {
            BegunLines::Raw(lines) => Lines::Raw(List::from_vec(lines)),
            BegunLines::Honest(lines) => Lines::Honest(List::from_vec(lines)),
        }
    }
}

// puts a line with its number behind the others, where there is one
fn put_line<L: Drop>(
    lines: &mut Vec<ScriptLine<L>>,
    number: u32,
    said: Option<L>,
) -> Result<bool, NoMemory>
    ensures answer { IfOk result (λ answer. answer ≡ is_some said) }
    ensures lines { OnOk result (lines.new.items ≡ lines.old.items ++ said_at number said) }
{
    let Some(line) = said else {
        return Ok(false);
    };
    lines.push(ScriptLine { number, line })?;
    Ok(true)
}

/// How many libraries began.
pub fn begun_count(begun: &Option<Begun>) -> usize
    ensures { result ≡ count_of begun.now }
{
    match begun {
        Some(begun) => begun.whole.len() + 1,
        None => 0,
    }
}

/// Whether this is the line of the library behind so many.
pub fn is_next(begun: usize, line: &LibLine) -> bool
    ensures { result ≡ is_next begun (Some line.now) }
{
    begun < LIB_LIMIT && line.number as usize == begun + 1
}

/// The libraries that began, with the lines that they have.
pub fn close(alloc: Global, begun: Option<Begun>) -> Result<Vec<ScriptLib>, NoMemory>
    ensures { IfOk result (λ libs. libs.items ≡ libs_as begun) }
{
    let Some(
        Begun {
            mut whole,
            creds,
            lines,
        },
    ) = begun
    else {
        return Ok(Vec::new(alloc));
    };
    whole.push(ScriptLib {
        creds,
        lines: lines.close(),
    })?;
    Ok(whole)
}
