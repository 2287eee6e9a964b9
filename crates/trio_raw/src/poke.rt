//! Bytes written into lent things.

ghost use Rattle.std.specs.Prelude.{◌≡◌, ◌+◌, IsFalse, None, Some, if◌then◌else◌, length, nat_le};
ghost use Rattle.trio_raw.specs.Has.{poked_block, poked_body, poked_fresh, poked_index};

use trio_lease::{FreshPage, WriteLease};
use trio_page::PAGE_SIZE;
use trio_page::field::put_bytes_in;

/// The size of a file's body in bytes.
const BODY_SIZE: usize = 64;

/// Whether these bytes, from an offset on, stay within this many.
fn fits(offset: u32, bytes: &[u8], size: usize) -> bool
    ensures { result ≡ nat_le (offset + length bytes.now) size }
{
    offset as usize + bytes.len() <= size
}

/// Writes bytes into the file's body. `false` where they leave it; then nothing has changed.
pub(crate) fn poke_body(lease: &mut WriteLease, offset: u32, bytes: &[u8]) -> bool
    ensures poked { poked_body offset bytes.now lease.old ≡ (if result then Some lease.new else None) }
    ensures kept { IsFalse result → lease.new ≡ lease.old }
{
    if !fits(offset, bytes, BODY_SIZE) {
        return false;
    }
    put_bytes_in(lease.body_mut(), offset as usize, bytes);
    true
}

/// Writes bytes into index page `i` of the file. `false` where there is no such page, or they leave
/// it; then nothing has changed.
pub(crate) fn poke_index(lease: &mut WriteLease, i: u32, offset: u32, bytes: &[u8]) -> bool
    ensures poked { poked_index i offset bytes.now lease.old ≡ (if result then Some lease.new else None) }
    ensures kept { IsFalse result → lease.new ≡ lease.old }
{
    if !fits(offset, bytes, PAGE_SIZE) {
        return false;
    }
    match lease.index_mut(i as usize) {
        Some(page) => {
            put_bytes_in(page.bytes_mut(), offset as usize, bytes);
            true
        }
        None => false,
    }
}

/// Writes bytes into block `i` of the file. `false` where there is no such page, or they leave it;
/// then nothing has changed.
pub(crate) fn poke_block(lease: &mut WriteLease, i: u32, offset: u32, bytes: &[u8]) -> bool
    ensures poked { poked_block i offset bytes.now lease.old ≡ (if result then Some lease.new else None) }
    ensures kept { IsFalse result → lease.new ≡ lease.old }
{
    if !fits(offset, bytes, PAGE_SIZE) {
        return false;
    }
    match lease.block_mut(i as usize) {
        Some(page) => {
            put_bytes_in(page.bytes_mut(), offset as usize, bytes);
            true
        }
        None => false,
    }
}

/// Writes bytes into an allotted page. `false` where they leave it; then nothing has changed.
pub(crate) fn poke_fresh(page: &mut FreshPage, offset: u32, bytes: &[u8]) -> bool
    ensures poked { poked_fresh offset bytes.now page.old ≡ (if result then Some page.new else None) }
    ensures kept { IsFalse result → page.new ≡ page.old }
{
    if !fits(offset, bytes, PAGE_SIZE) {
        return false;
    }
    put_bytes_in(page.page_mut().bytes_mut(), offset as usize, bytes);
    true
}
