//! Entries of a log as lines of text.

use std::alloc::Global;
use std::fmt::Write;
use trio_ctl::Ctl;
use trio_nodes::{
    AllotAnswer, AllotFault, Entry, GrantAnswer, GrantFault, GrantKind, Handed, HandedHead,
    HandedPage, ModeFault, RawBlock, RawBundle, RawFile, ReleaseAnswer,
};
use trio_page::NoMemory;
use trio_rights::Kind;

/// Whether the log of a controller has these lines.
pub fn has_lines(alloc: Global, ctl: &Ctl, lines: &str) -> bool {
    let mut text = String::new(alloc);
    let is_whole = put_log(&mut text, ctl.log().entries()).is_ok();
    is_whole && text.as_str() == lines
}

/// Appends the lines of these entries, as `1 grant write 3 granted 0`; `1 raw accepted` with a line for
/// each file, for each block and for the bundle behind it; or `1 batch 2`, of two calls, with a line for
/// the bundle.
fn put_log(out: &mut String, entries: &[Entry]) -> Result<(), NoMemory> {
    for entry in entries {
        put_entry(out, entry)?;
    }
    Ok(())
}

fn put_entry(out: &mut String, entry: &Entry) -> Result<(), NoMemory> {
    match entry {
        Entry::Grant {
            lib,
            ino,
            kind,
            answer,
        } => {
            write!(out, "{} grant {} {ino} ", lib.0, kind_word(*kind))?;
            put_granted(out, answer)
        }
        Entry::Allot {
            lib,
            pages,
            inodes,
            answer,
        } => {
            write!(out, "{} allot {pages} {inodes} ", lib.0)?;
            put_allotted(out, answer)
        }
        Entry::Back { lib, ino } => writeln!(out, "{} back {ino}", lib.0),
        Entry::Raw {
            lib,
            verdict,
            files,
            bundle,
        } => {
            writeln!(out, "{} raw {}", lib.0, verdict_word(*verdict))?;
            put_told(out, files.as_slice(), bundle)
        }
        Entry::Mode {
            lib,
            ino,
            mode,
            answer,
            ..
        } => writeln!(out, "{} mode {ino} {mode:o} {}", lib.0, mode_word(answer)),
        Entry::Batch { lib, calls, handed } => {
            writeln!(out, "{} batch {}", lib.0, calls.as_slice().len())?;
            put_handed(out, handed)
        }
    }
}

fn kind_word(kind: GrantKind) -> &'static str {
    match kind {
        GrantKind::Read => "read",
        GrantKind::Write => "write",
        GrantKind::Hold => "hold",
    }
}

fn put_granted(out: &mut String, answer: &GrantAnswer) -> Result<(), NoMemory> {
    match answer {
        GrantAnswer::Granted(children) => writeln!(out, "granted {children}"),
        GrantAnswer::Refused(GrantFault::NotLive) => out.push_str("notlive\n"),
        GrantAnswer::Refused(GrantFault::Denied(ino)) => writeln!(out, "denied {ino}"),
        GrantAnswer::Refused(GrantFault::NoParent) => out.push_str("noparent\n"),
        GrantAnswer::Refused(GrantFault::Busy(_) | GrantFault::NoMemory) => out.push_str("none\n"),
    }
}

fn put_allotted(out: &mut String, answer: &AllotAnswer) -> Result<(), NoMemory> {
    match answer {
        AllotAnswer::Given { pages, inodes } => {
            out.push_str("given")?;
            put_numbers(out, pages.as_slice())?;
            put_numbers(out, inodes.as_slice())?;
            out.push_str("\n")
        }
        AllotAnswer::Refused(AllotFault::NoPages { wanted, free }) => {
            writeln!(out, "nopages {wanted} {free}")
        }
        AllotAnswer::Refused(AllotFault::NoInodes { wanted, free }) => {
            writeln!(out, "noinodes {wanted} {free}")
        }
        AllotAnswer::Refused(AllotFault::NoMemory) => out.push_str("none\n"),
    }
}

/// Appends numbers behind a space, with commas between them; `-` where there are none.
fn put_numbers(out: &mut String, numbers: &[u32]) -> Result<(), NoMemory> {
    if numbers.is_empty() {
        return out.push_str(" -");
    }
    for (i, number) in numbers.iter().enumerate() {
        let mark = if i == 0 { " " } else { "," };
        write!(out, "{mark}{number}")?;
    }
    Ok(())
}

fn verdict_word(verdict: ReleaseAnswer) -> &'static str {
    match verdict {
        ReleaseAnswer::Accepted => "accepted",
        ReleaseAnswer::Refused { rule: 1, .. } => "refused I1",
        ReleaseAnswer::Refused { rule: 2, .. } => "refused I2",
        ReleaseAnswer::Refused { rule: 3, .. } => "refused I3",
        ReleaseAnswer::Refused { .. } => "refused I4",
    }
}

fn mode_word(answer: &Result<(), ModeFault>) -> &'static str {
    match answer {
        Ok(()) => "ok",
        Err(ModeFault::NotLive) => "notlive",
        Err(ModeFault::NotOwner) => "notowner",
        Err(ModeFault::BadMode) => "badmode",
        Err(ModeFault::Busy(_) | ModeFault::NoMemory) => "none",
    }
}

fn put_told(out: &mut String, files: &[RawFile], bundle: &RawBundle) -> Result<(), NoMemory> {
    for file in files {
        put_file(out, file)?;
    }
    for i in 0..bundle.blocks_len() {
        if let Some(block) = bundle.block(i) {
            put_block(out, &block)?;
        }
    }
    put_handed(out, bundle.handed())
}

/// Appends a file with its parent, name, kind, mode, owner, group and size, as
/// ` file 3 given 2 f regular 644 0 0 5`.
fn put_file(out: &mut String, file: &RawFile) -> Result<(), NoMemory> {
    let given = if file.given { " given" } else { "" };
    let gone = if file.gone { " gone" } else { "" };
    write!(out, " file {}{given}{gone} {} ", file.ino, file.parent)?;
    for byte in file.name.as_bytes() {
        out.push(char::from(*byte))?;
    }
    let (kind, mode) = (kind_of_file(file.kind), file.mode.0);
    let (uid, gid, size) = (file.uid, file.gid, file.size);
    write!(out, " {kind} {mode:o} {uid} {gid} {size}")?;
    if file.guard {
        out.push_str(" guarded")?;
    }
    out.push('\n')
}

fn kind_of_file(kind: Kind) -> &'static str {
    match kind {
        Kind::Directory => "directory",
        Kind::Regular => "regular",
        Kind::Link => "link",
    }
}

/// Appends a block with its bytes in hexadecimal digits, but for the zeros at its end, and with how
/// many they are, as ` block 3 0 4a656c6c6f of 4096`.
fn put_block(out: &mut String, block: &RawBlock) -> Result<(), NoMemory> {
    write!(out, " block {} {} ", block.ino, block.at)?;
    for byte in without_zeros(block.bytes) {
        write!(out, "{byte:02x}")?;
    }
    writeln!(out, " of {}", block.bytes.len())
}

fn without_zeros(bytes: &[u8]) -> &[u8] {
    let mut end = 0;
    for (i, byte) in bytes.iter().enumerate() {
        if *byte != 0 {
            end = i + 1;
        }
    }
    bytes.get(..end).unwrap_or(bytes)
}

/// Appends the files of write leases with the numbers of their index pages and blocks, where a block
/// that was written has a star; and the held files, the allotted pages and the inode numbers, as
/// ` writes 3 7 8* holds - pages 9 numbers -`.
fn put_handed(out: &mut String, handed: &Handed) -> Result<(), NoMemory> {
    out.push_str(" writes")?;
    if handed.heads().is_empty() {
        out.push_str(" -")?;
    }
    let mut next = 0;
    for head in handed.heads() {
        next = put_file_pages(out, head, handed.pages(), next)?;
    }
    out.push_str(" holds")?;
    put_numbers(out, handed.holds())?;
    out.push_str(" pages")?;
    put_pages(out, handed.pages().get(next..).unwrap_or(&[]))?;
    out.push_str(" numbers")?;
    put_numbers(out, handed.numbers())?;
    out.push_str("\n")
}

/// Appends a file, whose pages begin at a place among all; gives the place behind them.
fn put_file_pages(
    out: &mut String,
    head: &HandedHead,
    pages: &[HandedPage],
    start: usize,
) -> Result<usize, NoMemory> {
    write!(out, " {}:", head.ino)?;
    let blocks = start.saturating_add(head.index);
    let end = blocks.saturating_add(head.blocks);
    put_pages(out, pages.get(start..blocks).unwrap_or(&[]))?;
    put_pages(out, pages.get(blocks..end).unwrap_or(&[]))?;
    Ok(end)
}

/// Appends the numbers of pages behind a space, with a star at each that is marked.
fn put_pages(out: &mut String, pages: &[HandedPage]) -> Result<(), NoMemory> {
    if pages.is_empty() {
        return out.push_str(" -");
    }
    for (i, page) in pages.iter().enumerate() {
        let mark = if i == 0 { " " } else { "," };
        let star = if page.touched { "*" } else { "" };
        write!(out, "{mark}{}{star}", page.no)?;
    }
    Ok(())
}
