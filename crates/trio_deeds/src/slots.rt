//! Slots of directories: an empty one is added, and a file moves from one to another.

ghost use Rattle.std.specs.Prelude.{◌≡◌, ◌≤◌, length};
ghost use Rattle.trio_lists.specs.Lists.{In};
ghost use Rattle.trio_session.specs.Deeds.{slot_growth, with_slot};
ghost use Rattle.trio_session.specs.Seen.{IsOpenDir, LeavesPlace, chain_in};
ghost use Rattle.trio_deeds.specs.Slots.{MayAddSlot, MayPut, PutFile};

use crate::sizes::index_count;
use trio_names::Name;
use trio_session::Session;

/// By how many pages a directory of so many blocks grows for one entry more: by none where it has an
/// empty slot.
pub fn slot_growth(session: &Session, dir: u32, blocks: u32) -> u32
    requires open { IsOpenDir session.now dir }
    requires blocks { blocks ≡ length (chain_in session.now dir).blocks }
    requires few { blocks ≤ 8192 }
    ensures { result ≡ slot_growth session.now dir }
{
    if session.first_empty(dir).is_some() {
        return 0;
    }
    1 + (index_count(blocks + 1) - index_count(blocks))
}

/// A directory of this size without an empty slot grows by a block. It takes no memory: places and
/// pages for it are there.
pub fn add_slot(session: &mut Session, dir: u32, size: u64)
    requires { MayAddSlot session.old dir size }
    ensures kept { session.new ≡ record (with_slot dir session.old) { room = session.new.room } }
    ensures calls { session.new.room.calls ≡ session.old.room.calls }
    ensures names { In dir session.old.room.names → In dir session.new.room.names }
    ensures place { LeavesPlace session.old session.new }
    ensures next { session.new.room.next_blocks ≡ session.old.room.next_blocks }
{
    if session.first_empty(dir).is_none() {
        session.grow(dir, size + 4096);
    }
}

/// A file moves from its slot in a directory to the first empty one of another, with its kind and its
/// body. It takes no memory: places for it are there.
pub fn move_file(session: &mut Session, dir: u32, old: &Name, new_dir: u32, new: &Name, ino: u32)
    requires { MayPut session.old old.now new.now dir new_dir ino }
    ensures { PutFile session.old old.now new.now dir new_dir ino session.new }
{
    match session.moving(ino) {
        Some(moving) => {
            let body = moving.1;
            session.clear(dir, old);
            session.fill(new_dir, new, ino, moving.0, &body);
        }
        None => unreachable!(),
    }
}
