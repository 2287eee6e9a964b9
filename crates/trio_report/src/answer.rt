//! What the lines of a script are answered.

ghost use Rattle.std.specs.Prelude.{◌≡◌, ◌++◌, ◌<◌, OnOk, codes};
ghost use Rattle.std.specs.List.{flat_map};
ghost use Rattle.std.specs.Fmt.{decimal};
ghost use Rattle.trio_report.specs.Answers.{after_comma, answer_line, answer_text, hex_byte, hex_digit, hex_text, numbers_text, refused_text, settled_text};

use crate::reply::put_reply;
use crate::text::put_text;
use std::alloc::Global;
use trio_nodes::{Bytes, List, Reply};
use trio_page::NoMemory;

/// What a line of a script is answered.
#[derive(Drop)]
pub enum LineAnswer {
    /// The grant was given, to read or to write.
    Granted,
    /// The hold was given, on a file of so many children.
    GrantedHold { children: u32 },
    /// The grant wasn't given, or the mode wasn't changed: no live file has this inode number.
    NotLive,
    /// The grant wasn't given: the file of this inode number denies it.
    Denied(u32),
    /// The grant wasn't given: it needs a write grant on the file's parent, and there is none.
    NoParent,
    /// The grant wasn't given, the mode wasn't changed, or the call wasn't done: an open grant
    /// excludes it.
    Busy,
    /// These pages and inode numbers were allotted.
    Allotted { pages: List<u32>, inodes: List<u32> },
    /// Nothing was allotted: more pages were wanted than are free.
    NoPages { wanted: u32, free: u32 },
    /// Nothing was allotted: more inode numbers were wanted than are free.
    NoInodes { wanted: u32, free: u32 },
    /// The bytes were written.
    Poked,
    /// These bytes are there.
    Seen(Bytes),
    /// The read lease was given back.
    GivenBack,
    /// The release was accepted.
    Accepted,
    /// The release was refused, by the rule of this number: 1 to 4 for I1 to I4.
    Refused(u8),
    /// Nothing was released: of the hold on this file and the write lease on its parent the one was
    /// handed in without the other.
    NotClosed(u32),
    /// The library doesn't have what the line names.
    Absent,
    /// The file has the mode that was asked.
    ModeSet,
    /// The mode wasn't changed: the file is the root, or the library acts neither for its user nor
    /// for the user 0.
    NotOwner,
    /// The mode wasn't changed: it is above 0o777.
    BadMode,
    /// A call of an honest library was replied this.
    Replied(Reply),
    /// An honest library handed in so many calls.
    Settled(u32),
}

/// Appends what the line of this number is answered as a line, as `3 granted` or
/// `4 allotted 9,10 -`.
pub fn put_answer(
    alloc: Global,
    out: &mut Vec<u8>,
    number: u32,
    answer: &LineAnswer,
) -> Result<(), NoMemory>
    ensures { OnOk result (out.new.items ≡ out.old.items ++ answer_line number answer.now) }
{
    put_text(out, &format!(in alloc; "{number} ")?)?;
    put_words(alloc, out, answer)?;
    put_text(out, "\n")
}

fn put_words(alloc: Global, out: &mut Vec<u8>, answer: &LineAnswer) -> Result<(), NoMemory>
    ensures { OnOk result (out.new.items ≡ out.old.items ++ answer_text answer.now) }
{
    match answer {
        LineAnswer::Granted => put_text(out, "granted"),
        LineAnswer::GrantedHold { children } => {
            put_number(alloc, out, "granted children ", *children)
        }
        LineAnswer::NotLive => put_text(out, "notlive"),
        LineAnswer::Denied(ino) => put_number(alloc, out, "denied ", *ino),
        LineAnswer::NoParent => put_text(out, "noparent"),
        LineAnswer::Busy => put_text(out, "busy"),
        LineAnswer::Allotted { pages, inodes } => put_allotted(
            alloc,
            out,
            pages.as_slice(),
            inodes.as_slice(),
        ),
        LineAnswer::NoPages { wanted, free } => put_want(alloc, out, "nopages", *wanted, *free),
        LineAnswer::NoInodes { wanted, free } => put_want(alloc, out, "noinodes", *wanted, *free),
        LineAnswer::Poked => put_text(out, "poked"),
        LineAnswer::Seen(bytes) => put_hex(out, bytes.as_slice()),
        LineAnswer::GivenBack => put_text(out, "ok"),
        LineAnswer::Accepted => put_text(out, "accepted"),
        LineAnswer::Refused(rule) => put_refused(alloc, out, *rule),
        LineAnswer::NotClosed(ino) => put_number(alloc, out, "notclosed ", *ino),
        LineAnswer::Absent => put_text(out, "absent"),
        LineAnswer::ModeSet => put_text(out, "ok"),
        LineAnswer::NotOwner => put_text(out, "notowner"),
        LineAnswer::BadMode => put_text(out, "badmode"),
        LineAnswer::Replied(reply) => put_reply(alloc, out, reply),
        LineAnswer::Settled(count) => put_settled(alloc, out, *count),
    }
}

/// Appends these words and a number.
pub(crate) fn put_number(
    alloc: Global,
    out: &mut Vec<u8>,
    words: &str,
    number: u32,
) -> Result<(), NoMemory>
    ensures { OnOk result (out.new.items ≡ out.old.items ++ (words.now ++ decimal number)) }
{
    put_text(out, words)?;
    put_text(out, &format!(in alloc; "{number}")?)
}

/// Appends two lower-case hexadecimal digits for each of these bytes.
fn put_hex(out: &mut Vec<u8>, bytes: &[u8]) -> Result<(), NoMemory>
    ensures { OnOk result (out.new.items ≡ out.old.items ++ hex_text bytes.now) }
{
    for byte in bytes {
        put_hex_byte(out, *byte)?;
    }
    Ok(())
}

fn put_hex_byte(out: &mut Vec<u8>, byte: u8) -> Result<(), NoMemory>
    ensures { OnOk result (out.new.items ≡ out.old.items ++ hex_byte byte) }
{
    out.extend_from_slice(&[hex_digit(byte / 16), hex_digit(byte % 16)])
}

fn hex_digit(value: u8) -> u8
    requires { value < 16 }
    ensures { result ≡ hex_digit value }
{
    if value < 10 {
        b'0' + value
    } else {
        b'a' + (value - 10)
    }
}

/// Appends the words for a refusal, as `refused I1`.
pub(crate) fn put_refused(alloc: Global, out: &mut Vec<u8>, rule: u8) -> Result<(), NoMemory>
    ensures { OnOk result (out.new.items ≡ out.old.items ++ refused_text rule) }
{
    put_text(out, "refused I")?;
    put_text(out, &format!(in alloc; "{rule}")?)
}

/// Appends the words for a settle, as `settled 4`.
pub(crate) fn put_settled(alloc: Global, out: &mut Vec<u8>, count: u32) -> Result<(), NoMemory>
    ensures { OnOk result (out.new.items ≡ out.old.items ++ settled_text count) }
{
    put_number(alloc, out, "settled ", count)
}

fn put_allotted(
    alloc: Global,
    out: &mut Vec<u8>,
    pages: &[u32],
    inodes: &[u32],
) -> Result<(), NoMemory>
    ensures { OnOk result (out.new.items ≡ out.old.items ++ (codes "allotted " ++ numbers_text pages.now ++ codes " " ++ numbers_text inodes.now)) }
{
    put_text(out, "allotted ")?;
    put_numbers(alloc, out, pages)?;
    put_text(out, " ")?;
    put_numbers(alloc, out, inodes)
}

/// Appends a word, what was wanted and what is free, as `nopages 30 25`.
pub(crate) fn put_want(
    alloc: Global,
    out: &mut Vec<u8>,
    word: &str,
    wanted: u32,
    free: u32,
) -> Result<(), NoMemory>
    ensures { OnOk result (out.new.items ≡ out.old.items ++ (word.now ++ codes " " ++ decimal wanted ++ codes " " ++ decimal free)) }
{
    put_text(out, word)?;
    put_text(out, &format!(in alloc; " {wanted} {free}")?)
}

// a list of numbers, as a script has it
fn put_numbers(alloc: Global, out: &mut Vec<u8>, numbers: &[u32]) -> Result<(), NoMemory>
    ensures { OnOk result (out.new.items ≡ out.old.items ++ numbers_text numbers.now) }
{
    match numbers.split_first() {
        Some((first, rest)) => {
            put_text(out, &format!(in alloc; "{first}")?)?;
            put_more(alloc, out, rest)
        }
        None => put_text(out, "-"),
    }
}

fn put_more(alloc: Global, out: &mut Vec<u8>, numbers: &[u32]) -> Result<(), NoMemory>
    ensures { OnOk result (out.new.items ≡ out.old.items ++ flat_map after_comma numbers.now) }
{
    for number in numbers {
        put_after_comma(alloc, out, *number)?;
    }
    Ok(())
}

fn put_after_comma(alloc: Global, out: &mut Vec<u8>, number: u32) -> Result<(), NoMemory>
    ensures { OnOk result (out.new.items ≡ out.old.items ++ after_comma number) }
{
    put_text(out, &format!(in alloc; ",{number}")?)
}
