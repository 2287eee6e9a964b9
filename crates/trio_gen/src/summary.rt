//! What is told of the workload once it was played.

ghost use Rattle.std.specs.Prelude.{◌≡◌, ◌++◌, OnOk, map};
ghost use Rattle.std.specs.List.{count_by};
ghost use Rattle.trio_gen.specs.Summary.{answer_where, answers_where, bytes_in, call_answers, calls_text, ends_text, is_busy, is_call, is_ok, size_of, summary_line, tally_line, tally_of};

use std::alloc::Global;
use trio_nodes::Reply;
use trio_page::NoMemory;
use trio_report::{LineAnswer, TreeLine};
use trio_rights::Kind;
use trio_script::{HonestLine, Lines, ScriptLine};

/// What a workload came to.
#[derive(Clone, Copy)]
pub struct Tally {
    /// How many calls were answered.
    pub calls: usize,
    /// How many of them were done.
    pub ok: usize,
    /// How many of them were kept from being done by an open grant.
    pub busy: usize,
    /// The sum of the sizes of all regular files, in bytes.
    pub bytes: u128,
}

/// Appends the answers to those of a library's lines that are calls, in their order. After
/// [`NoMemory`] a part of them may have been appended.
pub fn push_call_answers<'a>(
    calls: &mut Vec<&'a LineAnswer>,
    lines: &Lines,
    answers: &'a [LineAnswer],
) -> Result<(), NoMemory>
    ensures { OnOk result (map (λ a. a.now) calls.new.items ≡ map (λ a. a.now) calls.old.items ++ call_answers lines.now answers.now) }
{
    match lines {
        Lines::Raw(_) => Ok(()),
        Lines::Honest(lines) => push_honest(calls, lines.as_slice(), answers),
    }
}

fn push_honest<'a>(
    calls: &mut Vec<&'a LineAnswer>,
    lines: &[ScriptLine<HonestLine>],
    answers: &'a [LineAnswer],
) -> Result<(), NoMemory>
    ensures { OnOk result (map (λ a. a.now) calls.new.items ≡ map (λ a. a.now) calls.old.items ++ answers_where (map (λ l. is_call l.line) lines.now) answers.now) }
{
    for at in 0..lines.len().min(answers.len()) {
        push_where(calls, is_call(&lines[at].line), &answers[at])?;
    }
    Ok(())
}

fn push_where<'a>(
    calls: &mut Vec<&'a LineAnswer>,
    call: bool,
    answer: &'a LineAnswer,
) -> Result<(), NoMemory>
    ensures { OnOk result (map (λ a. a.now) calls.new.items ≡ map (λ a. a.now) calls.old.items ++ answer_where call answer.now) }
{
    if call {
        calls.push(answer)?;
    }
    Ok(())
}

fn is_call(line: &HonestLine) -> bool
    ensures { result ≡ is_call line.now }
{
    matches!(line, HonestLine::Call(_))
}

/// Appends the line that tells of the workload: its number and its files, how many calls were
/// answered, how many of them were done and how many were busy, and the sum of the sizes of the tree's
/// regular files in bytes. `answers` are those to the calls. After [`NoMemory`] a part of the line may
/// have been appended.
pub fn put_summary(
    alloc: Global,
    out: &mut Vec<u8>,
    number: u32,
    files: u32,
    answers: &[&LineAnswer],
    tree: &[TreeLine],
) -> Result<(), NoMemory>
    ensures { OnOk result (out.new.items ≡ out.old.items ++ summary_line number files (map (λ a. a.now) answers.now) tree.now) }
{
    put_tally(alloc, out, number, files, tally_of(answers, tree))
}

fn put_tally(
    alloc: Global,
    out: &mut Vec<u8>,
    number: u32,
    files: u32,
    tally: Tally,
) -> Result<(), NoMemory>
    ensures { OnOk result (out.new.items ≡ out.old.items ++ tally_line number files tally) }
{
    put_calls(alloc, out, number, files, tally.calls)?;
    put_ends(alloc, out, tally.ok, tally.busy, tally.bytes)
}

fn put_calls(
    alloc: Global,
    out: &mut Vec<u8>,
    number: u32,
    files: u32,
    calls: usize,
) -> Result<(), NoMemory>
    ensures { OnOk result (out.new.items ≡ out.old.items ++ calls_text number files calls) }
{
    let text = format!(in alloc; "gen number {number} files {files} calls {calls}")?;
    out.extend_from_slice(text.as_bytes())?;
    Ok(())
}

fn put_ends(
    alloc: Global,
    out: &mut Vec<u8>,
    ok: usize,
    busy: usize,
    bytes: u128,
) -> Result<(), NoMemory>
    ensures { OnOk result (out.new.items ≡ out.old.items ++ ends_text ok busy bytes) }
{
    let text = format!(in alloc; " ok {ok} busy {busy} bytes {bytes}\n")?;
    out.extend_from_slice(text.as_bytes())
}

fn tally_of(answers: &[&LineAnswer], tree: &[TreeLine]) -> Tally
    ensures { result ≡ tally_of (map (λ a. a.now) answers.now) tree.now }
{
    Tally {
        calls: answers.len(),
        ok: count_ok(answers),
        busy: count_busy(answers),
        bytes: bytes_in(tree),
    }
}

fn count_ok(answers: &[&LineAnswer]) -> usize
    ensures { result ≡ count_by (λ a. is_ok a.now) answers.now }
{
    answers.iter().filter(|a| is_ok(a)).count()
}

fn count_busy(answers: &[&LineAnswer]) -> usize
    ensures { result ≡ count_by (λ a. is_busy a.now) answers.now }
{
    answers.iter().filter(|a| is_busy(a)).count()
}

fn is_ok(answer: &LineAnswer) -> bool
    ensures { result ≡ is_ok answer.now }
{
    matches!(answer, LineAnswer::Replied(Reply::Ok(_)))
}

fn is_busy(answer: &LineAnswer) -> bool
    ensures { result ≡ is_busy answer.now }
{
    matches!(answer, LineAnswer::Busy)
}

/// The sum of the sizes of all regular files. No tree's is above the type's limit.
fn bytes_in(tree: &[TreeLine]) -> u128
    ensures { result ≡ bytes_in tree.now }
{
    let mut bytes = 0;
    for line in tree {
        bytes += u128::from(size_of(line));
    }
    bytes
}

fn size_of(line: &TreeLine) -> u64
    ensures { result ≡ size_of line.now.kind line.now.size }
{
    match line.kind {
        Kind::Regular => line.size,
        Kind::Directory | Kind::Link => 0,
    }
}
