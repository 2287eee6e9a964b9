//! Scripts: their lines, read as values.
//!
//! A script is bytes. Lines end with the byte 10, which the last line may lack. A line without bytes
//! and a line that begins with `#` say nothing, but count. The first line that says something is
//! `lib 1 KIND UID GID`, and a line `lib N KIND UID GID` begins library N: the numbers are 1, 2, 3 and
//! so on, at most [`LIB_LIMIT`]. The kind is `raw`, for a library that nobody trusts, or `honest`, for
//! one whose calls go through a session. Behind it come the lines of this library, each a [`RawLine`]
//! or an [`HonestLine`]. There are at most [`LINE_LIMIT`] lines.
//!
//! The words of a line are separated by one space. A number is decimal, without a sign and without a
//! leading zero, and at most 4,294,967,295. A mode is 1 to 4 octal digits. Bytes are 1 to 4096, two
//! lower-case hexadecimal digits each. A list is numbers joined by commas, none of them twice, or `-`
//! where it is empty. A text word has bytes from 0x21 to 0x7E: a backslash, `x` and two upper-case
//! hexadecimal digits stand for the byte that they write, and each other byte for itself, but no
//! backslash stands otherwise. A path is a text word that stands for the bytes of a path, a slash
//! before each name or a slash alone.
//!
//! `specs/Script.antt`, `specs/Said.antt`, `specs/Honest.antt` and `specs/Words.antt` have these rules as functions of the
//! bytes. A script is read in a time that grows with its length, but for the lists: one of k numbers
//! takes a time of k log k. Beside the answer, memory is taken for the words of one line at a time.
#![tactic(auto)]

ghost use Rattle.std.specs.Prelude.{◌≡◌, ◌∷◌, ◌<◌, ◌≤◌, length, is_some, IfOk, MatchOption, MatchResult, None, Some};
ghost use Rattle.std.specs.List.{list_any};
ghost use Rattle.trio_script.specs.inner.Ends.{EndsLine, IsPlain};
ghost use Rattle.trio_script.specs.Script.{lines_of, is_silent, names_library, says_library, bad_line, script_libs, IsFault};
ghost use Rattle.trio_script.specs.Within.{AreWithin};
ghost use Rattle.trio_script.specs.inner.Taken.{Begins, Takes, bad_at};

mod honest;
mod laws;
mod library;
mod line;
mod text;
mod word;

pub use honest::HonestLine;
pub use laws::escaped_is_read;
use library::{Begun, BegunLines, begun_count, close, is_next, read_library};
pub use line::RawLine;
use std::alloc::Global;
use trio_nodes::List;
/// Want of memory.
pub use trio_page::NoMemory;
use trio_rights::Creds;
pub use word::read_number;

/// The most libraries that a script may have.
pub const LIB_LIMIT: usize = 16;

/// The most lines that a script may have.
pub const LINE_LIMIT: u32 = 16_384;

/// A library of a script: whom it acts for, and what its lines say.
#[derive(Drop)]
pub struct ScriptLib {
    /// Whom the library acts for, as its line says.
    pub creds: Creds,
    pub lines: Lines,
}

/// The lines of a library that say something, from its own up to the next library's, by its kind.
#[derive(Drop)]
pub enum Lines {
    /// Of a library that nobody trusts.
    Raw(List<ScriptLine<RawLine>>),
    /// Of a library whose calls go through a session.
    Honest(List<ScriptLine<HonestLine>>),
}

/// A line of a script that says something, but those that begin libraries.
#[derive(PartialEq, Eq, Drop)]
pub struct ScriptLine<L> {
    /// The line's number, counted from 1.
    pub number: u32,
    pub line: L,
}

/// Why a script was not read.
#[derive(Clone, Copy, PartialEq, Eq)]
pub enum ScriptFault {
    /// The first line outside the grammar has this number, counted from 1. A script without a line
    /// of the form `lib N KIND UID GID` is bad at line 1.
    BadLine(u32),
    /// Want of memory, which may come in place of any other answer.
    NoMemory,
}

impl From<NoMemory> for ScriptFault {
    ghost use Rattle.trio_script.specs.declared.ScriptFault.TheVariants.{NoMemory as NoScriptMemory};

    ghost from_gives = { λ _ e. e ≡ NoScriptMemory };

    fn from(_e: NoMemory) -> ScriptFault {
        ScriptFault::NoMemory
    }
}

/// Reads a script, in one pass over its bytes. `Ok` comes only where no line is bad, with its
/// 1 to 16 libraries in the order of their numbers: library N stands at index N - 1. Each call of an
/// honest line then reads or writes at most 4096 bytes, and a mode is at most 0o777.
///
/// A script without a line of the form `lib N KIND UID GID` is bad at line 1, also where another line
/// is bad. Else the answer is the number of the first bad line: a line that has no form of its
/// library's kind, one that begins with `lib` and a space and has not that form, or whose number isn't
/// the next or is above 16, a line before the first library's, or line 16,385.
pub fn read_script(alloc: Global, bytes: &[u8]) -> Result<Vec<ScriptLib>, ScriptFault>
    ensures good { MatchResult result (λ _. bad_line bytes.now ≡ None) (IsFault bytes.now) }
    ensures libs { IfOk result (λ libs. libs.items ≡ script_libs bytes.now) }
    ensures some { IfOk result (λ libs. 1 ≤ length libs.items) }
    ensures few { IfOk result (λ libs. length libs.items ≤ 16) }
    ensures within { IfOk result (λ libs. AreWithin libs.items) }
{
    let mut begun = None;
    let mut rest = bytes;
    let mut number = 1;
    while !rest.is_empty() {
        let (line, after) = cut_line(rest);
        if !take_line(alloc, number, line, &mut begun)? {
            let at = bad_line(alloc, number, begun.is_some(), rest)?;
            return Err(ScriptFault::BadLine(at));
        }
        number += 1;
        rest = after;
    }
    if begun.is_none() {
        return Err(ScriptFault::BadLine(1));
    }
    Ok(close(alloc, begun)?)
}

// takes the next line, or answers false where it is bad
fn take_line(
    alloc: Global,
    number: u32,
    line: &[u8],
    begun: &mut Option<Begun>,
) -> Result<bool, NoMemory>
    ensures { IfOk result (Takes number line.now begun.old begun.new) }
{
    if number > LINE_LIMIT {
        return Ok(false);
    }
    if is_silent(line) {
        return Ok(true);
    }
    if names_library(line) {
        return begin_library(alloc, line, begun);
    }
    let Some(begun) = begun else {
        return Ok(false);
    };
    begun.take_line(alloc, number, line)
}

// begins the library of this line, or answers false where it isn't the next
fn begin_library(alloc: Global, line: &[u8], begun: &mut Option<Begun>) -> Result<bool, NoMemory>
    ensures { IfOk result (Begins line.now begun.old begun.new) }
{
    let Some(library) = read_library(alloc, line)? else {
        return Ok(false);
    };
    if !is_next(begun_count(begun), &library) {
        return Ok(false);
    }
    *begun = Some(Begun {
        whole: close(alloc, begun.take())?,
        creds: library.creds,
        lines: BegunLines::new(alloc, library.kind),
    });
    Ok(true)
}

// where a script is bad whose first bad line has this number; `rest` begins with it
fn bad_line(alloc: Global, number: u32, begun: bool, rest: &[u8]) -> Result<u32, NoMemory>
    ensures { IfOk result (λ at. at ≡ bad_at number begun (lines_of rest.now)) }
{
    if begun || has_library(alloc, rest)? {
        return Ok(number);
    }
    Ok(1)
}

// whether a line of these bytes says which library it begins
fn has_library(alloc: Global, bytes: &[u8]) -> Result<bool, NoMemory>
    ensures { IfOk result (λ has. has ≡ list_any says_library (lines_of bytes.now)) }
{
    let mut rest = bytes;
    while !rest.is_empty() {
        let (line, after) = cut_line(rest);
        if read_library(alloc, line)?.is_some() {
            return Ok(true);
        }
        rest = after;
    }
    Ok(false)
}

// the first line, and the bytes after its line end
fn cut_line(bytes: &[u8]) -> (&[u8], &[u8])
    requires { 0 < length bytes.now }
    ensures lines { lines_of bytes.now ≡ result.0.now ∷ lines_of result.1.now }
    ensures shorter { length result.1.now < length bytes.now }
{
    match line_end(bytes) {
        Some(end) => (&bytes[..end], &bytes[end + 1..]),
        None => (bytes, &bytes[bytes.len()..]),
    }
}

fn line_end(bytes: &[u8]) -> Option<usize>
    ensures { MatchOption result (IsPlain bytes.now (length bytes.now)) (λ end. EndsLine bytes.now end) }
{
    bytes.iter().position(|b| *b == b'\n')
}

fn is_silent(line: &[u8]) -> bool
    ensures { result ≡ is_silent line.now }
{
    matches!(line, [] | [b'#', ..])
}

fn names_library(line: &[u8]) -> bool
    ensures { result ≡ names_library line.now }
{
    line.starts_with(b"lib ")
}
