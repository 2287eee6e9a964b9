//! What the lines of an honest library say.

ghost use Rattle.std.specs.Prelude.{◌≡◌, IfOk, map};
ghost use Rattle.trio_script.specs.Honest.{call_in, chmod_in, create_in, file_mode, guard_in, guarded, honest_in, honest_said, linked, list_in, mkdir_in, path_alone, path_and_mode, path_and_number, path_with_mode, path_with_number, read_in, read_length, readlink_in, reads, rename_in, renamed, rmdir_in, settle_in, stat_in, switch_of, symlink_in, truncate_in, unlink_in, write_in, wrote};

use crate::text::{read_path, read_written};
use crate::word::{parts, read_mode, read_number};
use std::alloc::Global;
use trio_names::Path;
use trio_nodes::{Call, SharedBytes};
use trio_page::NoMemory;
use trio_rights::Mode;

/// The highest mode that a file may have.
const FILE_MODE_LIMIT: u16 = 0o777;

/// The most bytes that one line may read.
const READ_LIMIT: u32 = 4096;

/// What a line of an honest library says.
#[derive(Drop)]
pub enum HonestLine {
    /// A call of the tree is made: `mkdir PATH MODE`, `create PATH MODE`, `write PATH AT TEXT` with 1
    /// to 4096 bytes, `read PATH AT LEN` of at most 4096, `truncate PATH SIZE`, `unlink PATH`,
    /// `rmdir PATH`, `rename PATH PATH`, `list PATH FROM`, `stat PATH`, `chmod PATH MODE`,
    /// `symlink PATH TEXT` with 1 to 4096 bytes, `readlink PATH`, `guard PATH 0` or `guard PATH 1`.
    /// A mode is at most 0o777.
    Call(Call),
    /// `settle`: what the library's calls did is handed in.
    Settle,
}

/// What a line says, where it has one of the forms of [`HonestLine`].
pub fn read_honest(alloc: Global, line: &[u8]) -> Result<Option<HonestLine>, NoMemory>
    ensures { IfOk result (λ said. said ≡ honest_said line.now) }
{
    read_words(alloc, &parts(alloc, line, b' ')?)
}

fn read_words(alloc: Global, words: &[&[u8]]) -> Result<Option<HonestLine>, NoMemory>
    ensures { IfOk result (λ said. said ≡ honest_in (map (λ word. word.now) words.now)) }
{
    let Some((command, words)) = words.split_first() else {
        return Ok(None);
    };
    if *command == b"settle".as_slice() {
        return Ok(read_settle(words));
    }
    match read_call(alloc, command, words)? {
        Some(call) => Ok(Some(HonestLine::Call(call))),
        None => Ok(None),
    }
}

fn read_settle(words: &[&[u8]]) -> Option<HonestLine>
    ensures { result ≡ settle_in (map (λ word. word.now) words.now) }
{
    if words.is_empty() {
        Some(HonestLine::Settle)
    } else {
        None
    }
}

fn read_call(alloc: Global, command: &[u8], words: &[&[u8]]) -> Result<Option<Call>, NoMemory>
    ensures { IfOk result (λ call. call ≡ call_in command.now (map (λ word. word.now) words.now)) }
{
    if command == b"mkdir".as_slice() {
        read_mkdir(alloc, words)
    } else if command == b"create".as_slice() {
        read_create(alloc, words)
    } else if command == b"write".as_slice() {
        read_write(alloc, words)
    } else if command == b"read".as_slice() {
        read_read(alloc, words)
    } else if command == b"truncate".as_slice() {
        read_truncate(alloc, words)
    } else if command == b"unlink".as_slice() {
        read_unlink(alloc, words)
    } else if command == b"rmdir".as_slice() {
        read_rmdir(alloc, words)
    } else if command == b"rename".as_slice() {
        read_rename(alloc, words)
    } else if command == b"list".as_slice() {
        read_list(alloc, words)
    } else if command == b"stat".as_slice() {
        read_stat(alloc, words)
    } else if command == b"chmod".as_slice() {
        read_chmod(alloc, words)
    } else if command == b"symlink".as_slice() {
        read_symlink(alloc, words)
    } else if command == b"readlink".as_slice() {
        read_readlink(alloc, words)
    } else if command == b"guard".as_slice() {
        read_guard(alloc, words)
    } else {
        Ok(None)
    }
}

fn read_mkdir(alloc: Global, words: &[&[u8]]) -> Result<Option<Call>, NoMemory>
    ensures { IfOk result (λ call. call ≡ mkdir_in (map (λ word. word.now) words.now)) }
{
    match path_and_mode(alloc, words)? {
        Some((path, mode)) => Ok(Some(Call::Mkdir { path, mode })),
        None => Ok(None),
    }
}

fn read_create(alloc: Global, words: &[&[u8]]) -> Result<Option<Call>, NoMemory>
    ensures { IfOk result (λ call. call ≡ create_in (map (λ word. word.now) words.now)) }
{
    match path_and_mode(alloc, words)? {
        Some((path, mode)) => Ok(Some(Call::Create { path, mode })),
        None => Ok(None),
    }
}

fn read_write(alloc: Global, words: &[&[u8]]) -> Result<Option<Call>, NoMemory>
    ensures { IfOk result (λ call. call ≡ write_in (map (λ word. word.now) words.now)) }
{
    let [path, at, text] = words else {
        return Ok(None);
    };
    Ok(wrote(
        read_path(alloc, path)?,
        read_number(at),
        read_written(alloc, text)?,
    ))
}

fn wrote(path: Option<Path>, at: Option<u32>, bytes: Option<SharedBytes>) -> Option<Call>
    ensures { result ≡ wrote path at bytes }
{
    Some(Call::Write {
        path: path?,
        at: u64::from(at?),
        bytes: bytes?,
    })
}

fn read_read(alloc: Global, words: &[&[u8]]) -> Result<Option<Call>, NoMemory>
    ensures { IfOk result (λ call. call ≡ read_in (map (λ word. word.now) words.now)) }
{
    let [path, at, len] = words else {
        return Ok(None);
    };
    Ok(reads(
        read_path(alloc, path)?,
        read_number(at),
        read_length(read_number(len)),
    ))
}

fn reads(path: Option<Path>, at: Option<u32>, len: Option<u32>) -> Option<Call>
    ensures { result ≡ reads path at len }
{
    Some(Call::Read {
        path: path?,
        at: u64::from(at?),
        len: len?,
    })
}

/// How many bytes one line may read: at most 4096.
fn read_length(number: Option<u32>) -> Option<u32>
    ensures { result ≡ read_length number }
{
    let number = number?;
    if number <= READ_LIMIT {
        Some(number)
    } else {
        None
    }
}

fn read_truncate(alloc: Global, words: &[&[u8]]) -> Result<Option<Call>, NoMemory>
    ensures { IfOk result (λ call. call ≡ truncate_in (map (λ word. word.now) words.now)) }
{
    match path_and_number(alloc, words)? {
        Some((path, size)) => Ok(Some(Call::Truncate {
            path,
            size: u64::from(size),
        })),
        None => Ok(None),
    }
}

fn read_unlink(alloc: Global, words: &[&[u8]]) -> Result<Option<Call>, NoMemory>
    ensures { IfOk result (λ call. call ≡ unlink_in (map (λ word. word.now) words.now)) }
{
    match path_alone(alloc, words)? {
        Some(path) => Ok(Some(Call::Unlink { path })),
        None => Ok(None),
    }
}

fn read_rmdir(alloc: Global, words: &[&[u8]]) -> Result<Option<Call>, NoMemory>
    ensures { IfOk result (λ call. call ≡ rmdir_in (map (λ word. word.now) words.now)) }
{
    match path_alone(alloc, words)? {
        Some(path) => Ok(Some(Call::Rmdir { path })),
        None => Ok(None),
    }
}

fn read_rename(alloc: Global, words: &[&[u8]]) -> Result<Option<Call>, NoMemory>
    ensures { IfOk result (λ call. call ≡ rename_in (map (λ word. word.now) words.now)) }
{
    let [from, to] = words else {
        return Ok(None);
    };
    Ok(renamed(read_path(alloc, from)?, read_path(alloc, to)?))
}

fn renamed(from: Option<Path>, to: Option<Path>) -> Option<Call>
    ensures { result ≡ renamed from to }
{
    Some(Call::Rename {
        from: from?,
        to: to?,
    })
}

fn read_list(alloc: Global, words: &[&[u8]]) -> Result<Option<Call>, NoMemory>
    ensures { IfOk result (λ call. call ≡ list_in (map (λ word. word.now) words.now)) }
{
    match path_and_number(alloc, words)? {
        Some((path, from)) => Ok(Some(Call::List { path, from })),
        None => Ok(None),
    }
}

fn read_stat(alloc: Global, words: &[&[u8]]) -> Result<Option<Call>, NoMemory>
    ensures { IfOk result (λ call. call ≡ stat_in (map (λ word. word.now) words.now)) }
{
    match path_alone(alloc, words)? {
        Some(path) => Ok(Some(Call::Stat { path })),
        None => Ok(None),
    }
}

fn read_chmod(alloc: Global, words: &[&[u8]]) -> Result<Option<Call>, NoMemory>
    ensures { IfOk result (λ call. call ≡ chmod_in (map (λ word. word.now) words.now)) }
{
    match path_and_mode(alloc, words)? {
        Some((path, mode)) => Ok(Some(Call::Chmod { path, mode })),
        None => Ok(None),
    }
}

fn read_symlink(alloc: Global, words: &[&[u8]]) -> Result<Option<Call>, NoMemory>
    ensures { IfOk result (λ call. call ≡ symlink_in (map (λ word. word.now) words.now)) }
{
    let [path, text] = words else {
        return Ok(None);
    };
    Ok(linked(read_path(alloc, path)?, read_written(alloc, text)?))
}

fn linked(path: Option<Path>, text: Option<SharedBytes>) -> Option<Call>
    ensures { result ≡ linked path text }
{
    Some(Call::Symlink {
        path: path?,
        text: text?,
    })
}

fn read_readlink(alloc: Global, words: &[&[u8]]) -> Result<Option<Call>, NoMemory>
    ensures { IfOk result (λ call. call ≡ readlink_in (map (λ word. word.now) words.now)) }
{
    match path_alone(alloc, words)? {
        Some(path) => Ok(Some(Call::Readlink { path })),
        None => Ok(None),
    }
}

fn read_guard(alloc: Global, words: &[&[u8]]) -> Result<Option<Call>, NoMemory>
    ensures { IfOk result (λ call. call ≡ guard_in (map (λ word. word.now) words.now)) }
{
    let [path, switch] = words else {
        return Ok(None);
    };
    Ok(guarded(read_path(alloc, path)?, read_switch(switch)))
}

fn guarded(path: Option<Path>, on: Option<bool>) -> Option<Call>
    ensures { result ≡ guarded path on }
{
    Some(Call::Guard {
        path: path?,
        on: on?,
    })
}

/// On and off: `1` and `0`.
fn read_switch(word: &[u8]) -> Option<bool>
    ensures { result ≡ switch_of word.now }
{
    if word == b"1".as_slice() {
        Some(true)
    } else if word == b"0".as_slice() {
        Some(false)
    } else {
        None
    }
}

/// What `PATH MODE` says, where the words are these two.
fn path_and_mode(alloc: Global, words: &[&[u8]]) -> Result<Option<(Path, Mode)>, NoMemory>
    ensures { IfOk result (λ said. said ≡ path_and_mode (map (λ word. word.now) words.now)) }
{
    let [path, mode] = words else {
        return Ok(None);
    };
    Ok(path_with_mode(read_path(alloc, path)?, file_mode(read_mode(mode))))
}

fn path_with_mode(path: Option<Path>, mode: Option<Mode>) -> Option<(Path, Mode)>
    ensures { result ≡ path_with_mode path mode }
{
    Some((path?, mode?))
}

/// The mode of a file: at most 0o777.
fn file_mode(bits: Option<u16>) -> Option<Mode>
    ensures { result ≡ file_mode bits }
{
    let bits = bits?;
    if bits <= FILE_MODE_LIMIT {
        Some(Mode(bits))
    } else {
        None
    }
}

/// What `PATH NUMBER` says, where the words are these two.
fn path_and_number(alloc: Global, words: &[&[u8]]) -> Result<Option<(Path, u32)>, NoMemory>
    ensures { IfOk result (λ said. said ≡ path_and_number (map (λ word. word.now) words.now)) }
{
    let [path, number] = words else {
        return Ok(None);
    };
    Ok(path_with_number(read_path(alloc, path)?, read_number(number)))
}

fn path_with_number(path: Option<Path>, number: Option<u32>) -> Option<(Path, u32)>
    ensures { result ≡ path_with_number path number }
{
    Some((path?, number?))
}

/// What `PATH` says, where there is one word.
fn path_alone(alloc: Global, words: &[&[u8]]) -> Result<Option<Path>, NoMemory>
    ensures { IfOk result (λ path. path ≡ path_alone (map (λ word. word.now) words.now)) }
{
    let [path] = words else {
        return Ok(None);
    };
    read_path(alloc, path)
}
