//! The two scripts of the workload.

ghost use Rattle.std.specs.Prelude.{◌≡◌, ◌+◌, ◌-◌, ◌<◌, ◌≤◌, ◌++◌, ◌∷◌, [], ◌^◌, IfOk, length};
ghost use Rattle.trio_script.specs.Within.{AreWithin};
ghost use Rattle.trio_gen.specs.Workload.{directories_script, files_script, library_at, numbered};

use crate::lines::{directories_of, library_lines};
use std::alloc::Global;
use trio_nodes::List;
use trio_page::NoMemory;
use trio_rights::Creds;
use trio_script::{HonestLine, Lines, ScriptLib, ScriptLine};

/// How many libraries share the files.
const LIBRARIES: u32 = 4;

/// The most files that the workload has.
pub const FILES_LIMIT: u32 = 1000;

/// The first script: one library, which makes the directories.
pub fn directories_script(alloc: Global) -> Result<Vec<ScriptLib>, NoMemory>
    ensures script { IfOk result (λ libs. libs.items ≡ directories_script) }
    ensures count { IfOk result (λ libs. length libs.items ≡ 1) }
    ensures within { IfOk result (λ libs. AreWithin libs.items) }
{
    let lines = directories_of(alloc, LIBRARIES)?;
    let mut libs = Vec::new(alloc);
    push_library(alloc, &mut libs, 1, lines)?;
    Ok(libs)
}

/// The second script: four libraries, which make so many files in turn.
pub fn files_script(alloc: Global, number: u32, files: u32) -> Result<Vec<ScriptLib>, NoMemory>
    requires { files ≤ 1000 }
    ensures script { IfOk result (λ libs. libs.items ≡ files_script number files) }
    ensures count { IfOk result (λ libs. length libs.items ≡ 4) }
    ensures within { IfOk result (λ libs. AreWithin libs.items) }
{
    let mut libs = Vec::new(alloc);
    let mut next = 1;
    for k in 0..LIBRARIES {
        let lines = library_lines(alloc, number, files, k + 1)?;
        next = push_library(alloc, &mut libs, next, lines)?;
    }
    Ok(libs)
}

/// Appends the library that line `first` begins, with these lines, and returns the number of the line
/// behind them.
fn push_library(
    alloc: Global,
    libs: &mut Vec<ScriptLib>,
    first: u32,
    lines: Vec<HonestLine>,
) -> Result<u32, NoMemory>
    requires { first + length lines.items < 2 ^ 32 - 1 }
    ensures library { IfOk result (λ next. libs.new.items ≡ libs.old.items ++ library_at first lines.items ∷ []) }
    ensures next { IfOk result (λ next. next ≡ first + 1 + length lines.items) }
{
    let next = first + 1 + lines.len() as u32;
    let lines = Lines::Honest(List::from_vec(numbered(alloc, first + 1, lines)?));
    let creds = Creds { uid: 0, gid: 0 };
    libs.push(ScriptLib { creds, lines })?;
    Ok(next)
}

/// These lines with their numbers, from `first` on.
fn numbered(
    alloc: Global,
    first: u32,
    lines: Vec<HonestLine>,
) -> Result<Vec<ScriptLine<HonestLine>>, NoMemory>
    requires { first + length lines.items < 2 ^ 32 }
    ensures { IfOk result (λ all. all.items ≡ numbered first lines.items) }
{
    let mut all = Vec::with_capacity(alloc, lines.len())?;
    let mut number = first;
    for line in lines {
        all.push(ScriptLine { number, line })?;
        number += 1;
    }
    Ok(all)
}
