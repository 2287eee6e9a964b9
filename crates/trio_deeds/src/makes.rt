//! New files.

ghost use Rattle.std.specs.Prelude.{◌≡◌, ◌≤◌, ◌<◌, IsFalse, Some, false, length};
ghost use Rattle.trio_rights.specs.ByKind.{is_link};
ghost use Rattle.trio_layout.specs.Body.{body_of};
ghost use Rattle.trio_layout.specs.declared.range.CoreRange.{CoreRange};
ghost use Rattle.trio_nodes.specs.Apply.{link_mode};
ghost use Rattle.trio_session.specs.Deeds.{link_made, new_body, new_number};
ghost use Rattle.trio_session.specs.Layout.{size_in};
ghost use Rattle.trio_session.specs.Seen.{LeavesRoom, fill, spare_pages};
ghost use Rattle.trio_deeds.specs.Slots.{MayMakeFile};

use trio_layout::Body;
use trio_names::Name;
use trio_rights::{Creds, Kind, Mode};
use trio_session::Session;

/// A link gives everybody all rights; who may read what it names is asked where that is.
const LINK_MODE: Mode = Mode(0o777);

/// Makes an empty file of this kind, no link, under a name in a directory, with the lowest spare
/// number, and returns that number. The file belongs to the user and the group of these credentials. It
/// takes no memory: a number, an empty slot and places for it are there.
pub fn make_file(
    session: &mut Session,
    dir: u32,
    name: &Name,
    kind: Kind,
    creds: Creds,
    mode: Mode,
) -> u32
    requires may { MayMakeFile session.old name.now dir }
    requires mode { mode.0 ≤ 511 }
    requires kind { IsFalse (is_link kind) }
    ensures kept { session.new ≡ record (fill dir name.now (new_number session.old) kind (new_body creds mode) session.old) { room = session.new.room } }
    ensures room { LeavesRoom dir session.old session.new }
    ensures number { result ≡ new_number session.old }
    ensures body { (range : CoreRange) → body_of kind range (new_body creds mode) ≡ Some (record { mode = mode; uid = creds.uid; gid = creds.gid; head = 0; size = 0; guard = false }) }
{
    match session.spare_ino() {
        Some(ino) => {
            session.fill(dir, name, ino, kind, &new_body(creds, mode));
            ino
        }
        None => unreachable!(),
    }
}

/// Makes a link with a text of 1 to 4096 bytes under a name in a directory, with the lowest spare number,
/// and returns that number. The link belongs to the user and the group of these credentials. It takes no
/// memory: a number, two pages, an empty slot and places for it are there.
pub fn make_link(session: &mut Session, dir: u32, name: &Name, creds: Creds, text: &[u8]) -> u32
    requires may { MayMakeFile session.old name.now dir }
    requires some { 0 < length text.now }
    requires few { length text.now ≤ 4096 }
    requires pages { 2 ≤ length (spare_pages session.old) }
    requires room { 0 < session.old.room.next_blocks }
    ensures kept { session.new ≡ record (link_made dir name.now (new_number session.old) (new_body creds link_mode) text.now session.old) { room = session.new.room } }
    ensures calls { session.new.room.calls ≡ session.old.room.calls }
    ensures number { result ≡ new_number session.old }
    ensures body { (range : CoreRange) → body_of Kind.Regular range (new_body creds link_mode) ≡ Some (record { mode = link_mode; uid = creds.uid; gid = creds.gid; head = 0; size = 0; guard = false }) }
{
    match session.spare_ino() {
        Some(ino) => {
            session.fill(dir, name, ino, Kind::Link, &new_body(creds, LINK_MODE));
            session.grow(ino, text.len() as u64);
            session.put(ino, 0, text);
            ino
        }
        None => unreachable!(),
    }
}

// the body of a new file: without pages
fn new_body(creds: Creds, mode: Mode) -> [u8; 64]
    requires { mode.0 ≤ 511 }
    ensures body { result ≡ new_body creds mode }
    ensures read { (kind : Kind) (range : CoreRange) → is_link kind ≡ false → body_of kind range result ≡ Some (record { mode = mode; uid = creds.uid; gid = creds.gid; head = 0; size = 0; guard = false }) }
    ensures size { size_in result ≡ 0 }
{
    let mut bytes = [0; 64];
    Body {
        mode,
        uid: creds.uid,
        gid: creds.gid,
        head: 0,
        size: 0,
        guard: false,
    }
    .write(&mut bytes);
    bytes
}
