//! The lines of the program.

ghost use Rattle.std.specs.Prelude.{◌≡◌, ◌++◌, codes, IfOk};
ghost use Rattle.trio_names.specs.Escaped.{escaped_of};
ghost use Rattle.trio_commands.specs.Lines.{image_version_line, invalid_line, length_line, made_line, migrated_line, script_line, valid_line};

use std::alloc::Global;
use trio_layout::Rule;
use trio_names::escaped;
use trio_page::NoMemory;
use trio_report::{Counts, put_counts};

/// The words of each command.
pub const USAGE: &[u8] =
    b"usage: trio new OUT PAGES INODES | check IMAGE | tree IMAGE [json] | turns IMAGE SCRIPT OUT | run IMAGE SCRIPT OUT [WORKERS] | gen NUMBER FILES | migrate IMAGE OUT\n";

/// The program's name and version.
pub const VERSION: &[u8] = b"trio 0.1.0\n";

/// A line of words and the name of a file, as `read fault NAME`. The name is printed as one word of
/// visible ASCII.
pub fn named_line(alloc: Global, words: &str, name: &str) -> Result<Vec<u8>, NoMemory>
    ensures { IfOk result (λ line. line.items ≡ words.now ++ escaped_of name.now ++ codes "\n") }
{
    let mut line = Vec::new(alloc);
    line.extend_from_slice(words.as_bytes())?;
    line.extend_from_slice(&escaped(alloc, name.as_bytes())?)?;
    line.push(b'\n')?;
    Ok(line)
}

/// The line that says how many bytes a file has.
pub fn length_line(alloc: Global, count: u64) -> Result<Vec<u8>, NoMemory>
    ensures { IfOk result (λ line. line.items ≡ length_line count) }
{
    let line = format!(in alloc; "length {count}\n")?;
    Ok(line.into_bytes())
}

/// The line that names the rule of an image that fails.
pub fn invalid_line(alloc: Global, rule: u8) -> Result<Vec<u8>, NoMemory>
    ensures { IfOk result (λ line. line.items ≡ invalid_line rule) }
{
    if rule == Rule::Tables.number() {
        return b"invalid tables\n".to_vec(alloc);
    }
    let line = format!(in alloc; "invalid I{rule}\n")?;
    Ok(line.into_bytes())
}

/// The line of an image of another version.
pub fn image_version_line(alloc: Global, version: u32) -> Result<Vec<u8>, NoMemory>
    ensures { IfOk result (λ line. line.items ≡ image_version_line version) }
{
    let line = format!(in alloc; "version {version}\n")?;
    Ok(line.into_bytes())
}

/// The line that names a line of a script that is outside the grammar.
pub fn bad_line_text(alloc: Global, number: u32) -> Result<Vec<u8>, NoMemory>
    ensures { IfOk result (λ line. line.items ≡ script_line number) }
{
    let line = format!(in alloc; "script line {number}\n")?;
    Ok(line.into_bytes())
}

/// The line of an image that was made.
pub fn made_line(alloc: Global, pages: u32, inodes: u32, free: u32) -> Result<Vec<u8>, NoMemory>
    ensures { IfOk result (λ line. line.items ≡ made_line pages inodes free) }
{
    let line = format!(in alloc; "made pages {pages} inodes {inodes} free {free}\n")?;
    Ok(line.into_bytes())
}

/// The line of an image that verifies.
pub fn valid_line(alloc: Global, counts: &Counts) -> Result<Vec<u8>, NoMemory>
    ensures { IfOk result (λ line. line.items ≡ valid_line counts.now) }
{
    let mut line = b"valid ".to_vec(alloc)?;
    put_counts(alloc, &mut line, counts)?;
    Ok(line)
}

/// The line of an image of version 1 that became one of today's version.
pub fn migrated_line(alloc: Global, counts: &Counts) -> Result<Vec<u8>, NoMemory>
    ensures { IfOk result (λ line. line.items ≡ migrated_line counts.now) }
{
    let mut line = b"migrated ".to_vec(alloc)?;
    put_counts(alloc, &mut line, counts)?;
    Ok(line)
}
