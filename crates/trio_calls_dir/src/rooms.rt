//! Room for one entry more of a directory.

ghost use Rattle.std.specs.Prelude.{◌≤◌};
ghost use Rattle.trio_nodes.specs.Apply.{largest_size};
ghost use Rattle.trio_session.specs.Seen.{IsOpenDir};
ghost use Rattle.trio_edit_laws.specs.Calls.{MayCall};
ghost use Rattle.trio_calls_dir.specs.inner.Rooms.{MadeRoom};

use trio_deeds::{add_slot, allot, block_count, entry_places, growth, size_of, slot_growth};
use trio_desk::Desk;
use trio_nodes::AllotFault;
use trio_page::NoMemory;
use trio_session::Session;

/// Sees to it that a directory that is taken for writing has an empty slot, that so many inode numbers
/// are spare, and the pages of a new file of this size in bytes.
///
/// All memory comes first: for the note of a call, for a file that is made, and for a name more in
/// the directory's index. Then the desk is asked for one allotment, if any page or number is wanted:
/// where no slot is empty the directory grows by a block, with the lower pages. After a fault nothing
/// has changed.
pub(crate) fn make_room<D: Desk>(
    session: &mut Session,
    desk: &mut D,
    dir: u32,
    numbers: u32,
    new_size: u64,
) -> Result<(), AllotFault>
    requires may { MayCall (D.seen desk.old) session.old }
    requires open { IsOpenDir session.old dir }
    requires new { new_size ≤ largest_size }
    ensures room { MadeRoom D.called D.seen desk.old session.old dir numbers new_size result desk.new session.new }
{
    // with its credentials a desk says that its image is within the limits
    let _creds = desk.creds();
    let size = size_of(session, dir);
    let blocks = block_count(size);
    match entry_places(session, dir, blocks + 1, block_count(new_size)) {
        Ok(()) => {
            let pages = slot_growth(session, dir, blocks) + growth(0, new_size);
            match allot(session, desk, pages, numbers) {
                Ok(()) => {
                    add_slot(session, dir, size);
                    Ok(())
                }
                Err(fault) => Err(fault),
            }
        }
        Err(NoMemory) => Err(AllotFault::NoMemory),
    }
}
