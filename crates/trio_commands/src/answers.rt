//! The answers to the lines of a library.

ghost use Rattle.std.specs.Prelude.{◌≡◌, ◌++◌, OnOk};
ghost use Rattle.trio_script.specs.declared.Lines.{Lines};
ghost use Rattle.trio_commands.specs.Report.{answers_text, kind_of, numbers_of};

use std::alloc::Global;
use trio_page::NoMemory;
use trio_report::{LibraryKind, LineAnswer, put_answer};
use trio_script::{HonestLine, Lines, RawLine, ScriptLine};

/// The kind of a library, by its lines.
pub fn kind_of(lines: &Lines) -> LibraryKind
    ensures { result ≡ kind_of lines.now }
{
    match lines {
        Lines::Raw(_) => LibraryKind::Raw,
        Lines::Honest(_) => LibraryKind::Honest,
    }
}

/// Appends the answer to each line, behind the line's number. `NoMemory`: there was no memory for all of
/// them.
pub fn put_answers(
    alloc: Global,
    text: &mut Vec<u8>,
    lines: &Lines,
    answers: &[LineAnswer],
) -> Result<(), NoMemory>
    ensures { OnOk result (text.new.items ≡ text.old.items ++ answers_text (numbers_of lines.now) answers.now) }
{
    match lines {
        Lines::Raw(lines) => put_raw_answers(alloc, text, lines.as_slice(), answers),
        Lines::Honest(lines) => put_honest_answers(alloc, text, lines.as_slice(), answers),
    }
}

fn put_raw_answers(
    alloc: Global,
    text: &mut Vec<u8>,
    lines: &[ScriptLine<RawLine>],
    answers: &[LineAnswer],
) -> Result<(), NoMemory>
    ensures { OnOk result (text.new.items ≡ text.old.items ++ answers_text (numbers_of (Lines.Raw lines.now)) answers.now) }
{
    for at in 0..lines.len().min(answers.len()) {
        put_answer(alloc, text, lines[at].number, &answers[at])?;
    }
    Ok(())
}

fn put_honest_answers(
    alloc: Global,
    text: &mut Vec<u8>,
    lines: &[ScriptLine<HonestLine>],
    answers: &[LineAnswer],
) -> Result<(), NoMemory>
    ensures { OnOk result (text.new.items ≡ text.old.items ++ answers_text (numbers_of (Lines.Honest lines.now)) answers.now) }
{
    for at in 0..lines.len().min(answers.len()) {
        put_answer(alloc, text, lines[at].number, &answers[at])?;
    }
    Ok(())
}
