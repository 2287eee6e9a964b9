//! The lines of a tree.

ghost use Rattle.std.specs.Prelude.{◌≡◌, ◌+◌, ◌%◌, ◌++◌, OnOk, codes};
ghost use Rattle.std.specs.Fmt.{decimal};
ghost use Rattle.trio_names.specs.Escaped.{escaped_of};
ghost use Rattle.trio_rights.specs.Kind.{letter};
ghost use Rattle.trio_report.specs.Octal.{octal_of};
ghost use Rattle.trio_report.specs.Report.{tree_line, tree_lines_text, tree_text};
ghost use Rattle.trio_report.specs.Seen.{name_seen};

use crate::text::{put_escaped, put_text};
use std::alloc::Global;
use std::marker::Model;
use trio_names::Name;
use trio_page::NoMemory;
use trio_rights::{Kind, Mode};

/// By which name a file is told.
#[derive(Clone, Copy)]
pub enum TreeName {
    /// The root, told as a slash.
    Root,
    /// A file that a directory lists by this name.
    Entry(Name),
}

/// What is told of one file of a tree. Contracts see it as the line of the definition of a tree,
/// `TreeLine` of `trio_layout`'s `specs/Tree.antt`.
#[derive(Drop)]
pub struct TreeLine {
    /// How many directories are above the file: 0 for the root.
    pub depth: u32,
    pub kind: Kind,
    pub mode: Mode,
    pub uid: u32,
    pub gid: u32,
    /// The size in bytes of a regular file, the number of entries of a directory.
    pub size: u64,
    pub name: TreeName,
}

impl Model for TreeLine {
    ghost use Rattle.trio_layout.specs.Tree.{TreeLine};
    ghost use Rattle.trio_report.specs.Seen.{name_seen};

    ghost Value = { TreeLine };

    ghost view = { λ l. record {
      depth = l.depth;
      kind = l.kind;
      mode = l.mode;
      uid = l.uid;
      gid = l.gid;
      size = l.size;
      name = name_seen l.name;
    } };
}

/// Appends a line `tree` and a line `DEPTH KIND MODE UID GID SIZE NAME` for each file.
///
/// The kind is `d` or `f`, the mode three octal digits, the name printed as one word of visible
/// ASCII ([`trio_names::escaped`]), and the other numbers are decimal.
pub fn put_tree(alloc: Global, out: &mut Vec<u8>, lines: &[TreeLine]) -> Result<(), NoMemory>
    ensures { OnOk result (out.new.items ≡ out.old.items ++ tree_text lines.now) }
{
    put_text(out, "tree\n")?;
    put_tree_lines(alloc, out, lines)
}

/// Appends a line `DEPTH KIND MODE UID GID SIZE NAME` for each file, as [`put_tree`] does behind its
/// first line.
pub fn put_tree_lines(alloc: Global, out: &mut Vec<u8>, lines: &[TreeLine]) -> Result<(), NoMemory>
    ensures { OnOk result (out.new.items ≡ out.old.items ++ tree_lines_text lines.now) }
{
    for line in lines {
        put_line(alloc, out, line)?;
    }
    Ok(())
}

fn put_line(alloc: Global, out: &mut Vec<u8>, line: &TreeLine) -> Result<(), NoMemory>
    ensures { OnOk result (out.new.items ≡ out.old.items ++ tree_line line.now) }
{
    put_kind(alloc, out, line.depth, line.kind)?;
    put_mode(out, line.mode)?;
    put_owner(alloc, out, line.uid, line.gid, line.size)?;
    put_name(alloc, out, &line.name)?;
    put_text(out, "\n")
}

fn put_kind(alloc: Global, out: &mut Vec<u8>, depth: u32, kind: Kind) -> Result<(), NoMemory>
    ensures { OnOk result (out.new.items ≡ out.old.items ++ (decimal depth ++ codes " " ++ letter kind ++ codes " ")) }
{
    let letter = kind.letter();
    put_text(out, &format!(in alloc; "{depth} {letter} ")?)
}

fn put_owner(
    alloc: Global,
    out: &mut Vec<u8>,
    uid: u32,
    gid: u32,
    size: u64,
) -> Result<(), NoMemory>
    ensures { OnOk result (out.new.items ≡ out.old.items ++ (codes " " ++ decimal uid ++ codes " " ++ decimal gid ++ codes " " ++ decimal size ++ codes " ")) }
{
    put_text(out, &format!(in alloc; " {uid} {gid} {size} ")?)
}

pub(crate) fn put_mode(out: &mut Vec<u8>, mode: Mode) -> Result<(), NoMemory>
    ensures { OnOk result (out.new.items ≡ out.old.items ++ octal_of mode.0) }
{
    out.extend_from_slice(&[
        octal_digit(mode.0 / 64),
        octal_digit(mode.0 / 8),
        octal_digit(mode.0),
    ])
}

// the last octal digit of a number
fn octal_digit(number: u16) -> u8
    ensures { result ≡ 48 + number % 8 }
{
    b'0' + (number % 8) as u8
}

fn put_name(alloc: Global, out: &mut Vec<u8>, name: &TreeName) -> Result<(), NoMemory>
    ensures { OnOk result (out.new.items ≡ out.old.items ++ escaped_of (name_seen name.now)) }
{
    match name {
        TreeName::Root => put_text(out, "/"),
        TreeName::Entry(name) => put_escaped(alloc, out, name.as_bytes()),
    }
}
