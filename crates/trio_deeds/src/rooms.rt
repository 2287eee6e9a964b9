//! Room for edits: places that take no memory then, and one allotment.

ghost use Rattle.std.specs.Prelude.{◌≡◌, ◌<◌, ◌≤◌, IsSome, OnOk, length};
ghost use Rattle.trio_lists.specs.Lists.{In};
ghost use Rattle.trio_session.specs.Asked.{Allots, IsSame};
ghost use Rattle.trio_session.specs.Seen.{IsOn, IsOpenDir, open_kind, room_in};

use trio_desk::Desk;
use trio_nodes::AllotFault;
use trio_page::NoMemory;
use trio_session::Session;

/// Makes places for one call done, and for so many blocks of a file that the session has for
/// writing, or made; of a directory with its index also for a block and a name more there. After
/// [`NoMemory`] too nothing else has changed.
pub fn places(session: &mut Session, ino: u32, blocks: u32) -> Result<(), NoMemory>
    requires { IsSome (open_kind session.old ino) }
    ensures kept { IsSame session.old session.new }
    ensures calls { OnOk result (length session.new.calls < session.new.room.calls) }
    ensures blocks { OnOk result (blocks ≤ room_in session.new ino) }
    ensures slots { OnOk result (In ino session.old.indexed → In ino session.new.room.slots) }
    ensures names { OnOk result (In ino session.old.indexed → In ino session.new.room.names) }
{
    session.reserve_call()?;
    session.reserve(ino, blocks)
}

/// Makes places for one entry more of a directory: [`places`] for so many blocks, and one for the
/// file that is made or moved, with so many blocks of its own if it is a new one. After [`NoMemory`] too
/// nothing else has changed.
pub fn entry_places(
    session: &mut Session,
    dir: u32,
    blocks: u32,
    new_blocks: u32,
) -> Result<(), NoMemory>
    requires { IsOpenDir session.old dir }
    ensures kept { IsSame session.old session.new }
    ensures calls { OnOk result (length session.new.calls < session.new.room.calls) }
    ensures made { OnOk result (length session.new.made < session.new.room.made) }
    ensures next { OnOk result (new_blocks ≤ session.new.room.next_blocks) }
    ensures blocks { OnOk result (blocks ≤ room_in session.new dir) }
    ensures slots { OnOk result (In dir session.new.room.slots) }
    ensures names { OnOk result (In dir session.new.room.names) }
{
    session.reserve_call()?;
    session.reserve_made(new_blocks)?;
    session.reserve(dir, blocks)
}

/// Asks the desk for so many pages and inode numbers, if any. After a fault the session has what it
/// had. [`AllotFault::NoMemory`] also comes, without a call, where there is no room for them.
pub fn allot<D: Desk>(
    session: &mut Session,
    desk: &mut D,
    pages: u32,
    numbers: u32,
) -> Result<(), AllotFault>
    requires { IsOn (D.seen desk.old) session.old }
    ensures allots { Allots D.called D.seen desk.old session.old pages numbers result desk.new session.new }
    ensures room { session.new.room ≡ session.old.room }
    ensures on { IsOn (D.seen desk.new) session.new }
{
    if pages == 0 && numbers == 0 {
        return Ok(());
    }
    session.want(desk, pages, numbers)
}
