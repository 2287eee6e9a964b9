//! Copies of calls, since a session keeps the call that it makes.

ghost use Rattle.std.specs.Prelude.{◌≡◌, IfOk};
ghost use Rattle.trio_names.specs.Path.{parts_bytes, path_bytes};

use std::alloc::Global;
use trio_names::{Name, Path};
use trio_nodes::Call;
use trio_page::NoMemory;

/// The same call once more. Bytes that it writes, and the text of a link, are shared and not copied.
pub(crate) fn copied(alloc: Global, call: &Call) -> Result<Call, NoMemory>
    ensures { IfOk result (λ copy. copy ≡ call.now) }
{
    Ok(match call {
        Call::Mkdir { path, mode } => Call::Mkdir {
            path: copied_path(alloc, path)?,
            mode: *mode,
        },
        Call::Create { path, mode } => Call::Create {
            path: copied_path(alloc, path)?,
            mode: *mode,
        },
        Call::Write { path, at, bytes } => Call::Write {
            path: copied_path(alloc, path)?,
            at: *at,
            bytes: bytes.share()?,
        },
        Call::Read { path, at, len } => Call::Read {
            path: copied_path(alloc, path)?,
            at: *at,
            len: *len,
        },
        Call::Truncate { path, size } => Call::Truncate {
            path: copied_path(alloc, path)?,
            size: *size,
        },
        Call::Unlink { path } => Call::Unlink {
            path: copied_path(alloc, path)?,
        },
        Call::Rmdir { path } => Call::Rmdir {
            path: copied_path(alloc, path)?,
        },
        Call::Rename { from, to } => Call::Rename {
            from: copied_path(alloc, from)?,
            to: copied_path(alloc, to)?,
        },
        Call::List { path, from } => Call::List {
            path: copied_path(alloc, path)?,
            from: *from,
        },
        Call::Stat { path } => Call::Stat {
            path: copied_path(alloc, path)?,
        },
        Call::Chmod { path, mode } => Call::Chmod {
            path: copied_path(alloc, path)?,
            mode: *mode,
        },
        Call::Symlink { path, text } => Call::Symlink {
            path: copied_path(alloc, path)?,
            text: text.share()?,
        },
        Call::Readlink { path } => Call::Readlink {
            path: copied_path(alloc, path)?,
        },
        Call::Guard { path, on } => Call::Guard {
            path: copied_path(alloc, path)?,
            on: *on,
        },
    })
}

fn copied_path(alloc: Global, path: &Path) -> Result<Path, NoMemory>
    ensures { IfOk result (λ copy. copy ≡ path.now) }
{
    let bytes = spelled(alloc, path.names())?;
    match Path::read(alloc, &bytes) {
        Ok(copy) => Ok(copy),
        Err(_) => Err(NoMemory),
    }
}

// the bytes of the path of these names
fn spelled(alloc: Global, names: &[Name]) -> Result<Vec<u8>, NoMemory>
    ensures { IfOk result (λ bytes. bytes.items ≡ path_bytes names.now) }
{
    if names.is_empty() {
        return b"/".to_vec(alloc);
    }
    let mut bytes = Vec::new(alloc);
    for name in names {
        bytes.push(b'/')?;
        bytes.extend_from_slice(name.as_bytes())?;
    }
    Ok(bytes)
}
