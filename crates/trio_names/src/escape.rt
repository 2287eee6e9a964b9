//! Bytes as they are printed.

ghost use Rattle.std.specs.Prelude.{◌≡◌, ◌++◌, ◌<◌, All, OnOk, IfOk};
ghost use Rattle.trio_names.specs.Escaped.{hex_digit, escaped_byte, escaped_of, IsVisible};

use std::alloc::{AllocError as NoMemory, Global};

/// The bytes as one word of visible ASCII.
///
/// A byte from 0x21 to 0x7E other than the backslash stands for itself. Each other byte is printed
/// as a backslash, `x` and two upper-case hexadecimal digits: a space is `\x20`, a backslash `\x5C`.
/// So a byte takes one byte of the answer or four. `NoMemory` leaves nothing behind.
pub fn escaped(alloc: Global, bytes: &[u8]) -> Result<Vec<u8>, NoMemory>
    ensures printed { IfOk result (λ text. text.items ≡ escaped_of bytes.now) }
    ensures visible { IfOk result (λ text. All IsVisible text.items) }
{
    let mut text = Vec::new(alloc);
    for byte in bytes {
        put_escaped(&mut text, *byte)?;
    }
    Ok(text)
}

fn put_escaped(text: &mut Vec<u8>, byte: u8) -> Result<(), NoMemory>
    ensures { OnOk result (text.new.items ≡ text.old.items ++ escaped_byte byte) }
{
    if matches!(byte, b'!'..=b'~') && byte != b'\\' {
        text.push(byte)?;
        Ok(())
    } else {
        text.extend_from_slice(&[b'\\', b'x', upper_digit(byte / 16), upper_digit(byte % 16)])
    }
}

fn upper_digit(digit: u8) -> u8
    requires { digit < 16 }
    ensures { result ≡ hex_digit digit }
{
    if digit < 10 {
        b'0' + digit
    } else {
        b'A' + (digit - 10)
    }
}
