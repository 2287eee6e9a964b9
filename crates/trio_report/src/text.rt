//! Pieces of text, appended to bytes.

ghost use Rattle.std.specs.Prelude.{◌≡◌, ◌++◌, OnOk};
ghost use Rattle.trio_names.specs.Escaped.{escaped_of};

use std::alloc::Global;
use trio_names::escaped;
use trio_page::NoMemory;

/// Appends a text.
pub fn put_text(out: &mut Vec<u8>, text: &str) -> Result<(), NoMemory>
    ensures { OnOk result (out.new.items ≡ out.old.items ++ text.now) }
{
    out.extend_from_slice(text.as_bytes())
}

/// Appends bytes as they are printed.
pub fn put_escaped(alloc: Global, out: &mut Vec<u8>, bytes: &[u8]) -> Result<(), NoMemory>
    ensures { OnOk result (out.new.items ≡ out.old.items ++ escaped_of bytes.now) }
{
    out.extend_from_slice(&escaped(alloc, bytes)?)
}
