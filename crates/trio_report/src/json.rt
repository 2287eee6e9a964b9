//! The tree as JSON.

ghost use Rattle.std.specs.Prelude.{◌≡◌, IfOk, All, string_bytes};
ghost use Rattle.serde_json.specs.View.{view};
ghost use Rattle.trio_names.specs.Escaped.{escaped_of, IsVisible};
ghost use Rattle.trio_report.specs.Json.{json_of_line, json_of_lines, tree_json};
ghost use Rattle.trio_report.specs.Octal.{octal_of};
ghost use Rattle.trio_report.specs.Seen.{name_seen};

use crate::line::{TreeLine, TreeName, put_mode};
use serde_json::{Value, json};
use std::alloc::Global;
use trio_names::escaped;
use trio_page::NoMemory;
use trio_rights::Mode;

/// The tree as JSON: an array without spaces, with an object for each file in the order of the
/// lines, and a line end behind it.
///
/// The keys are `depth`, `gid`, `kind`, `mode`, `name`, `size` and `uid`, in this order. Kind, mode
/// and name are texts as [`put_tree`](crate::put_tree) has them, the others are numbers.
pub fn tree_json(alloc: Global, lines: &[TreeLine]) -> Result<Vec<u8>, NoMemory>
    ensures { IfOk result (λ text. text.items ≡ tree_json lines.now) }
{
    let mut text = lines_value(alloc, lines)?.to_vec(alloc)?;
    text.push(b'\n')?;
    Ok(text)
}

fn lines_value(alloc: Global, lines: &[TreeLine]) -> Result<Value, NoMemory>
    ensures { IfOk result (λ value. view value ≡ json_of_lines lines.now) }
{
    let mut files = Vec::new(alloc);
    for line in lines {
        files.push(line_value(alloc, line)?)?;
    }
    Ok(Value::Array(files))
}

fn line_value(alloc: Global, line: &TreeLine) -> Result<Value, NoMemory>
    ensures { IfOk result (λ value. view value ≡ json_of_line line.now) }
{
    let kind = line.kind.letter();
    let mode = mode_text(alloc, line.mode)?;
    let name = name_text(alloc, &line.name)?;
    json!(in alloc; {
        "depth": line.depth,
        "gid": line.gid,
        "kind": kind,
        "mode": mode,
        "name": name,
        "size": line.size,
        "uid": line.uid
    })
}

#[tactic(auto, using(crate::proofs::Texts::octal_visible))]
fn mode_text(alloc: Global, mode: Mode) -> Result<String, NoMemory>
    ensures { IfOk result (λ text. string_bytes text ≡ octal_of mode.0) }
{
    let mut bytes = Vec::new(alloc);
    put_mode(&mut bytes, mode)?;
    Ok(text_of(bytes))
}

fn name_text(alloc: Global, name: &TreeName) -> Result<String, NoMemory>
    ensures { IfOk result (λ text. string_bytes text ≡ escaped_of (name_seen name.now)) }
{
    match name {
        TreeName::Root => String::from_str(alloc, "/"),
        TreeName::Entry(name) => Ok(text_of(escaped(alloc, name.as_bytes())?)),
    }
}

/// Visible ASCII as a text.
#[tactic(auto, using(crate::proofs::Texts::utf8_of_visible))]
fn text_of(bytes: Vec<u8>) -> String
    requires { All IsVisible bytes.items }
    ensures { string_bytes result ≡ bytes.items }
{
    match String::from_utf8(bytes) {
        Ok(text) => text,
        Err(_) => unreachable!(),
    }
}
