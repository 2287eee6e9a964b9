//! The lines of the workload's libraries.

ghost use Rattle.std.specs.Prelude.{◌≡◌, ◌++◌, IfOk, OnOk};
ghost use Rattle.trio_gen.specs.Workload.{directory_lines, directories_of, file_bytes, file_lines, last_lines, library_lines, mkdir};

use crate::paths::{file_in, home, part_in};
use std::alloc::Global;
use trio_names::Path;
use trio_nodes::{Call, SharedBytes};
use trio_page::NoMemory;
use trio_rights::Mode;
use trio_script::HonestLine;

/// The mode of the directories.
const DIRECTORY_MODE: Mode = Mode(0o755);

/// The mode of the files.
const FILE_MODE: Mode = Mode(0o644);

/// The lines that make the directories of so many libraries, from the first on.
pub fn directories_of(alloc: Global, libraries: u32) -> Result<Vec<HonestLine>, NoMemory>
    ensures { IfOk result (λ lines. lines.items ≡ directories_of libraries) }
{
    let mut lines = Vec::new(alloc);
    for k in 0..libraries {
        push_directories(alloc, &mut lines, k + 1)?;
    }
    Ok(lines)
}

/// Appends the lines that make the directories of library `k`.
fn push_directories(alloc: Global, lines: &mut Vec<HonestLine>, k: u32) -> Result<(), NoMemory>
    ensures { OnOk result (lines.new.items ≡ lines.old.items ++ directory_lines k) }
{
    lines.push(mkdir(home(alloc, k)?))?;
    lines.push(mkdir(part_in(alloc, k, "a")?))?;
    lines.push(mkdir(part_in(alloc, k, "b")?))?;
    Ok(())
}

fn mkdir(path: Path) -> HonestLine
    ensures { result ≡ mkdir path }
{
    HonestLine::Call(Call::Mkdir {
        path,
        mode: DIRECTORY_MODE,
    })
}

/// The lines of library `k`, where there are so many files in all: those of its own, in rising order.
pub fn library_lines(
    alloc: Global,
    number: u32,
    files: u32,
    k: u32,
) -> Result<Vec<HonestLine>, NoMemory>
    ensures { IfOk result (λ lines. lines.items ≡ library_lines number files k) }
{
    let mut lines = Vec::new(alloc);
    for j in 0..files {
        if 1 + j % 4 == k {
            push_file(alloc, &mut lines, number, k, j)?;
        }
    }
    Ok(lines)
}

/// Appends the lines of file `j`.
fn push_file(
    alloc: Global,
    lines: &mut Vec<HonestLine>,
    number: u32,
    k: u32,
    j: u32,
) -> Result<(), NoMemory>
    ensures { OnOk result (lines.new.items ≡ lines.old.items ++ file_lines number k j) }
{
    lines.push(HonestLine::Call(Call::Create {
        path: file_in(alloc, k, "a", j)?,
        mode: FILE_MODE,
    }))?;
    lines.push(HonestLine::Call(Call::Write {
        path: file_in(alloc, k, "a", j)?,
        at: 0,
        bytes: SharedBytes::from_vec(file_bytes(alloc, number, j)?)?,
    }))?;
    lines.push(HonestLine::Settle)?;
    push_last(alloc, lines, k, j)
}

/// Appends the lines that say what becomes of file `j` at the end.
fn push_last(alloc: Global, lines: &mut Vec<HonestLine>, k: u32, j: u32) -> Result<(), NoMemory>
    ensures { OnOk result (lines.new.items ≡ lines.old.items ++ last_lines k j) }
{
    let call = match j % 5 {
        3 => Call::Rename {
            from: file_in(alloc, k, "a", j)?,
            to: file_in(alloc, k, "b", j)?,
        },
        4 => Call::Unlink {
            path: file_in(alloc, k, "a", j)?,
        },
        _ => return Ok(()),
    };
    lines.push(HonestLine::Call(call))?;
    lines.push(HonestLine::Settle)?;
    Ok(())
}

/// The bytes of file `j`: 1 to 64 letters.
fn file_bytes(alloc: Global, number: u32, j: u32) -> Result<Vec<u8>, NoMemory>
    ensures { IfOk result (λ bytes. bytes.items ≡ file_bytes number j) }
{
    let count = 1 + (u64::from(number) + 977 * u64::from(j)) % 64;
    let mut bytes = Vec::new(alloc);
    for t in 0..count {
        bytes.push(b'a' + ((u64::from(j) + t) % 26) as u8)?;
    }
    Ok(bytes)
}
