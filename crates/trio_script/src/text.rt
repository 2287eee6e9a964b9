//! Text words and paths.

ghost use Rattle.std.specs.Prelude.{◌≡◌, ◌<◌, None, Some, IfOk, IsTrue, MatchOption, length};
ghost use Rattle.std.specs.Option.{option_map};
ghost use Rattle.trio_script.specs.Words.{is_upper_digit, names_of, not_long, number_before, path_of, text_of, upper_value, written_of};

use crate::word::is_digit;
use std::alloc::Global;
use trio_names::{Path, PathFault};
use trio_nodes::SharedBytes;
use trio_page::NoMemory;

/// The most bytes that one line may write.
const WRITE_LIMIT: usize = 4096;

/// The path that a text word is, where its bytes are one.
pub fn read_path(alloc: Global, word: &[u8]) -> Result<Option<Path>, NoMemory>
    ensures { IfOk result (λ path. path ≡ path_of word.now) }
{
    match text_bytes(alloc, word)? {
        Some(bytes) => path_of_bytes(alloc, &bytes),
        None => Ok(None),
    }
}

fn path_of_bytes(alloc: Global, bytes: &[u8]) -> Result<Option<Path>, NoMemory>
    ensures { IfOk result (λ path. path ≡ names_of bytes.now) }
{
    match Path::read(alloc, bytes) {
        Ok(path) => Ok(Some(path)),
        Err(PathFault::NotAbsolute) => Ok(None),
        Err(PathFault::BadName) => Ok(None),
        Err(PathFault::NoMemory) => Err(NoMemory),
    }
}

/// The bytes that a text word stands for, where they are 1 to 4096.
pub fn read_written(alloc: Global, word: &[u8]) -> Result<Option<SharedBytes>, NoMemory>
    ensures { IfOk result (λ bytes. bytes ≡ written_of word.now) }
{
    match text_bytes(alloc, word)? {
        Some(bytes) if !bytes.is_empty() && bytes.len() <= WRITE_LIMIT => {
            Ok(Some(SharedBytes::from_vec(bytes)?))
        }
        _ => Ok(None),
    }
}

/// The bytes that a text word stands for: its bytes are visible ASCII, and a backslash, `x` and two
/// upper-case hexadecimal digits stand for the byte that they write.
fn text_bytes(alloc: Global, word: &[u8]) -> Result<Option<Vec<u8>>, NoMemory>
    ensures { IfOk result (λ text. option_map (λ bytes. bytes.items) text ≡ text_of word.now) }
{
    let mut bytes = Vec::new(alloc);
    let mut rest = word;
    while !rest.is_empty() {
        let Some((byte, after)) = cut_byte(rest) else {
            return Ok(None);
        };
        bytes.push(byte)?;
        rest = after;
    }
    Ok(Some(bytes))
}

// the first byte that a text word stands for, and the word behind what says it
fn cut_byte(word: &[u8]) -> Option<(u8, &[u8])>
    requires { 0 < length word.now }
    ensures { MatchOption result (text_of word.now ≡ None)
        (λ cut. (text_of word.now ≡ number_before (Some cut.0) (text_of cut.1.now)) × (length cut.1.now < length word.now)) }
{
    match word {
        [b'\\', b'x', high, low, after @ ..] if is_upper_digit(*high) && is_upper_digit(*low) => {
            Some((upper_value(*high) * 16 + upper_value(*low), after))
        }
        [b'\\', ..] => None,
        [byte @ b'!'..=b'~', after @ ..] => Some((*byte, after)),
        _ => None,
    }
}

fn is_upper_digit(byte: u8) -> bool
    ensures { result ≡ is_upper_digit byte }
{
    is_digit(byte) || matches!(byte, b'A'..=b'F')
}

fn upper_value(digit: u8) -> u8
    requires { IsTrue (is_upper_digit digit) }
    ensures value { result ≡ upper_value digit }
    ensures small { result < 16 }
{
    if digit < b'A' {
        digit - b'0'
    } else {
        digit - b'A' + 10
    }
}
