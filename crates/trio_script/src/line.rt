//! What the lines of a hostile library say.

ghost use Rattle.std.specs.Prelude.{◌≡◌, IfOk, map};
ghost use Rattle.trio_script.specs.Said.{allot_in, back_in, grant_in, grant_kind, line_said, mode_in, part_spot, peek_in, peeked, poke_in, poked, release_in, released, said_in, seen_length, whole_spot};

use crate::word::{parts, read_hex, read_list, read_mode, read_number};
use std::alloc::Global;
use trio_nodes::{Bytes, GrantKind, List, Spot};
use trio_page::NoMemory;

/// The most bytes that one line may show.
const PEEK_LIMIT: u32 = 4096;

/// What a line of a hostile library says.
#[derive(PartialEq, Eq, Drop)]
pub enum RawLine {
    /// `grant read INO`, `grant write INO` or `grant hold INO`: a grant of this kind on this file is
    /// asked.
    Grant {
        ino: u32,
        kind: GrantKind,
    },
    /// `back INO`: the read lease on this file is given back.
    Back(u32),
    /// `allot PAGES INODES`: so many pages and inode numbers are asked.
    Allot {
        pages: u32,
        inodes: u32,
    },
    /// `poke body INO OFF HEX`, `poke index INO I OFF HEX`, `poke block INO I OFF HEX` or
    /// `poke fresh PAGE OFF HEX`: these bytes are written from this byte on, counted from 0.
    Poke {
        at: Spot,
        offset: u32,
        bytes: Bytes,
    },
    /// `peek` with the same spots, and `OFF LEN` behind them: so many bytes, 1 to 4096, are shown from
    /// this byte on, counted from 0.
    Peek {
        at: Spot,
        offset: u32,
        len: u32,
    },
    /// `release INOS PAGES INODES`: the write leases and holds on these files, and these allotted pages
    /// and inode numbers, are handed in. No number stands twice in a list.
    Release {
        inos: List<u32>,
        pages: List<u32>,
        inodes: List<u32>,
    },
    /// `mode INO MODE`: the file's mode shall be this, at most 0o7777.
    Mode {
        ino: u32,
        mode: u16,
    },
}

/// What a line says, where it has one of the forms of [`RawLine`].
pub fn read_line(alloc: Global, line: &[u8]) -> Result<Option<RawLine>, NoMemory>
    ensures { IfOk result (λ said. said ≡ line_said line.now) }
{
    read_words(alloc, &parts(alloc, line, b' ')?)
}

fn read_words(alloc: Global, words: &[&[u8]]) -> Result<Option<RawLine>, NoMemory>
    ensures { IfOk result (λ said. said ≡ said_in (map (λ word. word.now) words.now)) }
{
    let Some((command, words)) = words.split_first() else {
        return Ok(None);
    };
    if *command == b"grant".as_slice() {
        Ok(read_grant(words))
    } else if *command == b"allot".as_slice() {
        Ok(read_allot(words))
    } else if *command == b"poke".as_slice() {
        read_poke(alloc, words)
    } else if *command == b"peek".as_slice() {
        Ok(read_peek(words))
    } else if *command == b"back".as_slice() {
        Ok(read_back(words))
    } else if *command == b"release".as_slice() {
        read_release(alloc, words)
    } else if *command == b"mode".as_slice() {
        Ok(read_mode_line(words))
    } else {
        Ok(None)
    }
}

fn read_grant(words: &[&[u8]]) -> Option<RawLine>
    ensures { result ≡ grant_in (map (λ word. word.now) words.now) }
{
    let [kind, ino] = words else {
        return None;
    };
    Some(RawLine::Grant {
        ino: read_number(ino)?,
        kind: grant_kind(kind)?,
    })
}

fn grant_kind(word: &[u8]) -> Option<GrantKind>
    ensures { result ≡ grant_kind word.now }
{
    match word {
        b"read" => Some(GrantKind::Read),
        b"write" => Some(GrantKind::Write),
        b"hold" => Some(GrantKind::Hold),
        _ => None,
    }
}

fn read_back(words: &[&[u8]]) -> Option<RawLine>
    ensures { result ≡ back_in (map (λ word. word.now) words.now) }
{
    let [ino] = words else {
        return None;
    };
    Some(RawLine::Back(read_number(ino)?))
}

fn read_allot(words: &[&[u8]]) -> Option<RawLine>
    ensures { result ≡ allot_in (map (λ word. word.now) words.now) }
{
    let [pages, inodes] = words else {
        return None;
    };
    Some(RawLine::Allot {
        pages: read_number(pages)?,
        inodes: read_number(inodes)?,
    })
}

fn read_poke(alloc: Global, words: &[&[u8]]) -> Result<Option<RawLine>, NoMemory>
    ensures { IfOk result (λ said. said ≡ poke_in (map (λ word. word.now) words.now)) }
{
    match words {
        [place, number, offset, hex] => Ok(poked(
            whole_spot(place, read_number(number)),
            read_number(offset),
            read_hex(alloc, hex)?,
        )),
        [place, ino, i, offset, hex] => Ok(poked(
            part_spot(place, read_number(ino), read_number(i)),
            read_number(offset),
            read_hex(alloc, hex)?,
        )),
        _ => Ok(None),
    }
}

fn read_peek(words: &[&[u8]]) -> Option<RawLine>
    ensures { result ≡ peek_in (map (λ word. word.now) words.now) }
{
    match words {
        [place, number, offset, len] => peeked(
            whole_spot(place, read_number(number)),
            read_number(offset),
            seen_length(read_number(len)),
        ),
        [place, ino, i, offset, len] => peeked(
            part_spot(place, read_number(ino), read_number(i)),
            read_number(offset),
            seen_length(read_number(len)),
        ),
        _ => None,
    }
}

/// How many bytes a peek may show: 1 to 4096.
fn seen_length(number: Option<u32>) -> Option<u32>
    ensures { result ≡ seen_length number }
{
    let number = number?;
    if 1 <= number && number <= PEEK_LIMIT {
        Some(number)
    } else {
        None
    }
}

fn whole_spot(place: &[u8], number: Option<u32>) -> Option<Spot>
    ensures { result ≡ whole_spot place.now number }
{
    let number = number?;
    match place {
        b"body" => Some(Spot::Body(number)),
        b"fresh" => Some(Spot::Fresh(number)),
        _ => None,
    }
}

fn part_spot(place: &[u8], ino: Option<u32>, i: Option<u32>) -> Option<Spot>
    ensures { result ≡ part_spot place.now ino i }
{
    let (ino, i) = (ino?, i?);
    match place {
        b"index" => Some(Spot::Index(ino, i)),
        b"block" => Some(Spot::Block(ino, i)),
        _ => None,
    }
}

fn poked(at: Option<Spot>, offset: Option<u32>, bytes: Option<Bytes>) -> Option<RawLine>
    ensures { result ≡ poked at offset bytes }
{
    Some(RawLine::Poke {
        at: at?,
        offset: offset?,
        bytes: bytes?,
    })
}

fn peeked(at: Option<Spot>, offset: Option<u32>, len: Option<u32>) -> Option<RawLine>
    ensures { result ≡ peeked at offset len }
{
    Some(RawLine::Peek {
        at: at?,
        offset: offset?,
        len: len?,
    })
}

fn read_release(alloc: Global, words: &[&[u8]]) -> Result<Option<RawLine>, NoMemory>
    ensures { IfOk result (λ said. said ≡ release_in (map (λ word. word.now) words.now)) }
{
    let [inos, pages, inodes] = words else {
        return Ok(None);
    };
    Ok(released(
        read_list(alloc, inos)?,
        read_list(alloc, pages)?,
        read_list(alloc, inodes)?,
    ))
}

fn released(
    inos: Option<List<u32>>,
    pages: Option<List<u32>>,
    inodes: Option<List<u32>>,
) -> Option<RawLine>
    ensures { result ≡ released inos pages inodes }
{
    Some(RawLine::Release {
        inos: inos?,
        pages: pages?,
        inodes: inodes?,
    })
}

fn read_mode_line(words: &[&[u8]]) -> Option<RawLine>
    ensures { result ≡ mode_in (map (λ word. word.now) words.now) }
{
    let [ino, mode] = words else {
        return None;
    };
    Some(RawLine::Mode {
        ino: read_number(ino)?,
        mode: read_mode(mode)?,
    })
}
