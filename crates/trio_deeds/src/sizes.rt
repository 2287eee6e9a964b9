//! Sizes of files in bytes, blocks and pages.

ghost use Rattle.std.specs.Prelude.{◌≡◌, ◌≤◌, length};
ghost use Rattle.trio_layout.specs.Body.{block_count};
ghost use Rattle.trio_layout.specs.Chain.{index_count};
ghost use Rattle.trio_nodes.specs.Apply.{largest_size};
ghost use Rattle.trio_session.specs.Deeds.{IsHad, body_had, sized};
ghost use Rattle.trio_session.specs.Layout.{growth, size_in};
ghost use Rattle.trio_session.specs.Seen.{IsOpen, body_in, chain_in, room_in, spare_pages};

use trio_page::PAGE_SIZE;
use trio_page::field::u64_in;
use trio_session::Session;

/// How many blocks hold so many bytes.
pub fn block_count(size: u64) -> u32
    requires { size ≤ 33554432 }
    ensures count { result ≡ block_count size }
    ensures few { result ≤ 8192 }
{
    size.div_ceil(PAGE_SIZE as u64) as u32
}

/// How many pages are in the index of a file of so many blocks.
pub(crate) fn index_count(blocks: u32) -> u32
    ensures { result ≡ index_count blocks }
{
    blocks.div_ceil(511)
}

/// By how many pages a file grows from one size to another.
pub fn growth(old: u64, size: u64) -> u32
    requires old { old ≤ largest_size }
    requires size { size ≤ largest_size }
    ensures { result ≡ growth (block_count old) (block_count size) }
{
    let (from, to) = (block_count(old), block_count(size));
    if to <= from {
        return 0;
    }
    (to - from) + (index_count(to) - index_count(from))
}

/// The size of a file that the session has.
pub fn size_of(session: &Session, ino: u32) -> u64
    requires { IsHad session.now ino }
    ensures size { result ≡ size_in (body_had session.now ino) }
    ensures few { result ≤ 33554432 }
{
    match session.body(ino) {
        Some(body) => u64_in(body, 16),
        None => unreachable!(),
    }
}

/// A file comes from one size to another. It takes no memory: places and pages for it are there.
pub fn resize(session: &mut Session, ino: u32, old: u64, size: u64)
    requires open { IsOpen session.old ino }
    requires old { old ≡ size_in (body_in session.old ino) }
    requires pages { growth (length (chain_in session.old ino).blocks) (block_count size) ≤ length (spare_pages session.old) }
    requires room { block_count size ≤ room_in session.old ino }
    ensures kept { session.new ≡ record (sized ino size session.old) { room = session.new.room } }
    ensures calls { session.new.room.calls ≡ session.old.room.calls }
{
    if old < size {
        session.grow(ino, size);
    } else if size < old {
        session.cut(ino, size);
    }
}
