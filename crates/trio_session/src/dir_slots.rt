//! Slots of a directory's pages in what is handed in, and the index of such a directory.

ghost use Rattle.std.specs.Prelude.{◌≡◌, ◌<◌, IfOk, IsSome, IsTrue, length, map};
ghost use Rattle.trio_auxdir.specs.Slots.{slots_of};
ghost use Rattle.trio_layout.specs.Slot.{entry_bytes, entry_fits};
ghost use Rattle.trio_session.specs.Layout.{cleared, filled, page_in, retitled};
ghost use Rattle.trio_session.specs.Seen.{every_number};
ghost use Rattle.trio_session.specs.inner.Indexes.{AreRead};
ghost use Rattle.trio_session.specs.inner.Places.{IsFile, chain_at, number_at, sheet_at};

use crate::laid::{FilePlace, Laid, PagePlace};
use crate::stock::Stock;
use std::alloc::Global;
use trio_auxdir::HashedDir;
use trio_layout::EntryPart;
use trio_page::NoMemory;
use trio_page::field::put_bytes_in;

/// How many bytes a slot has.
const SLOT_SIZE: usize = 256;

/// How many of these are the entry's; the body of the file stands behind them.
const ENTRY_SIZE: usize = 192;

/// Writes an entry and the body of its file into a slot of the page at a place.
pub(crate) fn fill_slot(
    stock: &mut Stock,
    place: PagePlace,
    slot: usize,
    entry: &EntryPart,
    body: &[u8; 64],
)
    requires there { IsSome (sheet_at stock.old place) }
    requires slot { slot < 16 }
    ensures fits { 0 < entry.now.ino → IsTrue (entry_fits every_number entry.now) }
    ensures filled { stock.new ≡ filled (number_at stock.old place) slot entry.now body.now stock.old }
    ensures whole { length (page_in stock.old (number_at stock.old place)) ≡ 4096 }
{
    let _whole = stock.page(place).bytes();
    let mut bytes = [0; SLOT_SIZE];
    put_bytes_in(&mut bytes, 0, &spelled(entry));
    put_bytes_in(&mut bytes, ENTRY_SIZE, body);
    stock.put_part(place, SLOT_SIZE * slot, &bytes);
}

/// Makes the inode number in a slot zero; all else of the slot stays.
pub(crate) fn clear_slot(stock: &mut Stock, place: PagePlace, slot: usize)
    requires there { IsSome (sheet_at stock.old place) }
    requires slot { slot < 16 }
    ensures cleared { stock.new ≡ cleared (number_at stock.old place) slot stock.old }
    ensures whole { length (page_in stock.old (number_at stock.old place)) ≡ 4096 }
{
    let _whole = stock.page(place).bytes();
    stock.put_part(place, SLOT_SIZE * slot, &[0; 4]);
}

/// Writes an entry into a slot; the body in the slot stays.
pub(crate) fn retitle_slot(stock: &mut Stock, place: PagePlace, slot: usize, entry: &EntryPart)
    requires there { IsSome (sheet_at stock.old place) }
    requires slot { slot < 16 }
    ensures fits { 0 < entry.now.ino → IsTrue (entry_fits every_number entry.now) }
    ensures retitled { stock.new ≡ retitled (number_at stock.old place) slot entry.now stock.old }
    ensures whole { length (page_in stock.old (number_at stock.old place)) ≡ 4096 }
{
    let _whole = stock.page(place).bytes();
    stock.put_part(place, SLOT_SIZE * slot, &spelled(entry));
}

/// The bytes of an entry.
fn spelled(entry: &EntryPart) -> [u8; ENTRY_SIZE]
    ensures bytes { result ≡ entry_bytes entry.now }
    ensures fits { 0 < entry.now.ino → IsTrue (entry_fits every_number entry.now) }
{
    // the ranges of the number and of the name's length
    let (_ino, _name) = (entry.ino, entry.name.as_bytes());
    let mut bytes = [0; ENTRY_SIZE];
    entry.write(&mut bytes);
    bytes
}

/// The index of a directory that is written, made of its blocks as they stand. They are in the
/// grammar, and their names are apart.
pub(crate) fn index_of_places(
    alloc: Global,
    stock: &Stock,
    laid: &Laid,
    file: FilePlace,
) -> Result<HashedDir, NoMemory>
    requires file { IsFile stock.now file laid.now }
    requires read { AreRead (map (page_in stock.now) (chain_at stock.now file laid.now).blocks) }
    ensures inodes { IfOk result (λ dir. dir.inodes ≡ every_number) }
    ensures slots { IfOk result (λ dir. dir.slots ≡ slots_of every_number (map (page_in stock.now) (chain_at stock.now file laid.now).blocks)) }
{
    let mut dir = HashedDir::new(alloc, u32::MAX);
    for k in 0..laid.blocks_len() {
        let place = laid.block_place(file, k);
        dir.scan(stock.page(place))?;
    }
    Ok(dir)
}
