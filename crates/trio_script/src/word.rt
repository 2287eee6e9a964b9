//! The words of a line: numbers, bytes in hexadecimal digits, and lists of numbers.

ghost use Rattle.std.specs.Prelude.{◌≡◌, ◌==◌, ◌<◌, ◌^◌, ◌%◌, ◌≤◌, nat_lt, IfOk, IsTrue, length, map, None, Some, [], if◌then◌else◌};
ghost use Rattle.std.specs.List.{slice_split, list_all};
ghost use Rattle.std.specs.Option.{option_map};
ghost use Rattle.trio_script.specs.Words.{is_digit, digits_after, is_numeral, number_of, is_octal_digit, is_octal, mode_of, is_hex_digit, hex_value, is_hex, hex_bytes, hex_of, numbers_of, are_new, list_of};

use std::alloc::Global;
use std::collections::BTreeSet;
use trio_nodes::{Bytes, List};
use trio_page::NoMemory;

/// The most octal digits that a mode may have.
const MODE_LIMIT: usize = 4;

/// The most bytes that a word may write in hexadecimal digits.
const HEX_LIMIT: usize = 4096;

/// The parts of these bytes before, between and behind those that are `at`.
pub fn parts(alloc: Global, bytes: &[u8], at: u8) -> Result<Vec<&[u8]>, NoMemory>
    ensures { IfOk result (λ parts. map (λ part. part.now) parts.items ≡ slice_split (λ b. b == at) bytes.now) }
{
    bytes.split(|b| *b == at).collect(alloc)
}

/// The number that a word is: decimal digits without a leading zero, at most 4,294,967,295.
pub fn read_number(word: &[u8]) -> Option<u32>
    ensures { result ≡ number_of word.now }
{
    if is_numeral(word) {
        digits_value(word)
    } else {
        None
    }
}

fn is_numeral(word: &[u8]) -> bool
    ensures { result ≡ is_numeral word.now }
{
    all_digits(word) && !word.is_empty() && (word.len() == 1 || word[0] != b'0')
}

fn all_digits(word: &[u8]) -> bool
    ensures { result ≡ list_all is_digit word.now }
{
    word.iter().all(|b| is_digit(*b))
}

/// Whether a byte is a decimal digit.
pub fn is_digit(byte: u8) -> bool
    ensures { result ≡ is_digit byte }
{
    matches!(byte, b'0'..=b'9')
}

fn digits_value(digits: &[u8]) -> Option<u32>
    requires { IsTrue (list_all is_digit digits.now) }
    ensures { result ≡ (if nat_lt (digits_after 10 0 digits.now) (2 ^ 32) then Some (digits_after 10 0 digits.now) else None) }
{
    let mut number: u32 = 0;
    for digit in digits {
        number = number
            .checked_mul(10)?
            .checked_add(u32::from(*digit - b'0'))?;
    }
    Some(number)
}

/// The mode that a word is: 1 to 4 octal digits, so at most 0o7777.
pub fn read_mode(word: &[u8]) -> Option<u16>
    ensures { result ≡ mode_of word.now }
{
    if is_octal(word) {
        Some(octal_value(word))
    } else {
        None
    }
}

fn is_octal(word: &[u8]) -> bool
    ensures { result ≡ is_octal word.now }
{
    all_octal_digits(word) && !word.is_empty() && word.len() <= MODE_LIMIT
}

fn all_octal_digits(word: &[u8]) -> bool
    ensures { result ≡ list_all is_octal_digit word.now }
{
    word.iter().all(|b| is_octal_digit(*b))
}

fn is_octal_digit(byte: u8) -> bool
    ensures { result ≡ is_octal_digit byte }
{
    matches!(byte, b'0'..=b'7')
}

fn octal_value(digits: &[u8]) -> u16
    requires octal { IsTrue (list_all is_octal_digit digits.now) }
    requires short { length digits.now ≤ 4 }
    ensures { result ≡ digits_after 8 0 digits.now }
{
    let mut mode = 0;
    for digit in digits {
        mode = mode * 8 + u16::from(*digit - b'0');
    }
    mode
}

/// The bytes that a word writes: two lower-case hexadecimal digits for each of 1 to 4096 bytes.
pub fn read_hex(alloc: Global, word: &[u8]) -> Result<Option<Bytes>, NoMemory>
    ensures { IfOk result (λ bytes. bytes ≡ hex_of word.now) }
{
    if is_hex(word) {
        Ok(Some(List::from_vec(hex_bytes(alloc, word)?)))
    } else {
        Ok(None)
    }
}

fn is_hex(word: &[u8]) -> bool
    ensures { result ≡ is_hex word.now }
{
    all_hex_digits(word) && word.len() % 2 == 0 && !word.is_empty() && word.len() <= 2 * HEX_LIMIT
}

fn all_hex_digits(word: &[u8]) -> bool
    ensures { result ≡ list_all is_hex_digit word.now }
{
    word.iter().all(|b| is_hex_digit(*b))
}

fn is_hex_digit(byte: u8) -> bool
    ensures { result ≡ is_hex_digit byte }
{
    matches!(byte, b'0'..=b'9' | b'a'..=b'f')
}

fn hex_bytes(alloc: Global, digits: &[u8]) -> Result<Vec<u8>, NoMemory>
    requires hex { IsTrue (list_all is_hex_digit digits.now) }
    requires even { length digits.now % 2 ≡ 0 }
    ensures { IfOk result (λ bytes. bytes.items ≡ hex_bytes digits.now) }
{
    let mut bytes = Vec::new(alloc);
    for i in 0..digits.len() / 2 {
        bytes.push(hex_value(digits[2 * i]) * 16 + hex_value(digits[2 * i + 1]))?;
    }
    Ok(bytes)
}

fn hex_value(digit: u8) -> u8
    requires { IsTrue (is_hex_digit digit) }
    ensures value { result ≡ hex_value digit }
    ensures small { result < 16 }
{
    if digit < b'a' {
        digit - b'0'
    } else {
        digit - b'a' + 10
    }
}

/// The numbers of a word, none of them twice: they are joined by commas, and `-` has none.
pub fn read_list(alloc: Global, word: &[u8]) -> Result<Option<List<u32>>, NoMemory>
    ensures { IfOk result (λ numbers. numbers ≡ list_of word.now) }
{
    if word == b"-".as_slice() {
        return Ok(Some(List::from_vec(Vec::new(alloc))));
    }
    match read_numbers(alloc, &parts(alloc, word, b',')?)? {
        Some(numbers) if are_distinct(alloc, &numbers)? => Ok(Some(List::from_vec(numbers))),
        _ => Ok(None),
    }
}

fn read_numbers(alloc: Global, parts: &[&[u8]]) -> Result<Option<Vec<u32>>, NoMemory>
    ensures { IfOk result (λ numbers. option_map (λ ns. ns.items) numbers ≡ numbers_of (map (λ part. part.now) parts.now)) }
{
    let mut numbers = Vec::new(alloc);
    for part in parts {
        let Some(number) = read_number(part) else {
            return Ok(None);
        };
        numbers.push(number)?;
    }
    Ok(Some(numbers))
}

fn are_distinct(alloc: Global, numbers: &[u32]) -> Result<bool, NoMemory>
    ensures { IfOk result (λ answer. answer ≡ are_new [] numbers.now) }
{
    let mut seen = BTreeSet::new(alloc);
    for number in numbers {
        if !seen.insert(*number)? {
            return Ok(false);
        }
    }
    Ok(true)
}
