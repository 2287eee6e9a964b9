//! The bytes of a file.

ghost use Rattle.std.specs.Prelude.{◌≡◌, ◌+◌, ◌≤◌, take, drop, length, IfOk};
ghost use Rattle.trio_nodes.specs.Apply.{resized, put_at};

use std::alloc::{AllocError as NoMemory, Global};
use trio_nodes::Bytes;

/// No file may end past so many bytes.
pub(crate) const LARGEST_SIZE: u64 = 33_554_432;

/// The bytes cut, or grown by zeros.
pub(crate) fn resized(alloc: Global, size: u64, bytes: &[u8]) -> Result<Bytes, NoMemory>
    ensures { IfOk result (λ b. b ≡ resized size bytes.now) }
{
    Ok(Bytes::from_vec(resized_items(alloc, size as usize, bytes)?))
}

fn resized_items(alloc: Global, size: usize, bytes: &[u8]) -> Result<Vec<u8>, NoMemory>
    ensures { IfOk result (λ v. v.items ≡ resized size bytes.now) }
{
    let mut items = Vec::from_slice(alloc, bytes)?;
    items.resize(size, 0)?;
    Ok(items)
}

/// These bytes put at a place of the old ones, where a gap before them is zeros. No bytes change
/// nothing.
pub(crate) fn put_at(alloc: Global, at: u64, bytes: &[u8], old: &[u8]) -> Result<Bytes, NoMemory>
    requires { at + length bytes.now ≤ LARGEST_SIZE }
    ensures { IfOk result (λ b. b ≡ put_at at bytes.now old.now) }
{
    if bytes.is_empty() {
        return Bytes::copied(alloc, old);
    }
    let end = at as usize + bytes.len();
    let mut items = resized_items(alloc, at as usize, old)?;
    items.extend_from_slice(bytes)?;
    items.extend_from_slice(&old[end.min(old.len())..])?;
    Ok(Bytes::from_vec(items))
}

/// At most so many of the items from a place on.
pub(crate) fn part<T>(items: &[T], at: usize, len: usize) -> &[T]
    ensures { result.now ≡ take len (drop at items.now) }
{
    let rest = &items[at.min(items.len())..];
    &rest[..len.min(rest.len())]
}
