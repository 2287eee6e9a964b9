//! New files: empty regular files and directories, and links with their text.

ghost use Rattle.std.specs.Prelude.{◌≡◌, ◌≤◌, [], IsFalse, IsTrue, None, Some, length};
ghost use Rattle.trio_names.specs.Name.{IsName};
ghost use Rattle.trio_layout.specs.Body.{block_count, body_of};
ghost use Rattle.trio_layout.specs.declared.range.CoreRange.{CoreRange};
ghost use Rattle.trio_nodes.specs.Apply.{makes_file};
ghost use Rattle.trio_nodes.specs.Nodes.{find_named};
ghost use Rattle.trio_nodes.specs.Walk.{is_root, name_of};
ghost use Rattle.trio_session.specs.Deeds.{new_body, new_number};
ghost use Rattle.trio_session.specs.Seen.{IsOpenDir, place_shown, spare_pages};
ghost use Rattle.trio_edit_laws.specs.Calls.{MayCall};
ghost use Rattle.trio_laws.specs.session.DirCalls.{ComesInto};
ghost use Rattle.trio_deeds.specs.Slots.{MayMakeFile};
ghost use Rattle.trio_walk.specs.Walks.{InAllShown, shows_root};
ghost use Rattle.trio_walk.specs.Needs.{dir_needs};
ghost use Rattle.trio_calls_dir.specs.Asks.{IsEntryCall};
ghost use Rattle.trio_calls_dir.specs.inner.Goes.{Goes, MakesNew, body_made, new_bytes, new_kind, new_mode, new_path, number_made, put_new, try_ends};
ghost use Rattle.trio_calls_dir.specs.inner.Rooms.{new_pages};
ghost use Rattle.trio_walk.specs.Asks.{IsNotBusy};
ghost use Rattle.trio_walk.specs.Tries.{OthersHold, HasNothing};

use crate::paths::{name_of, parent};
use crate::replies::{Replied, noted_reply, stopped, unmade};
use crate::rooms::make_room;
use std::alloc::Global;
use trio_deeds::{make_file, make_link};
use trio_desk::Desk;
use trio_names::Path;
use trio_nodes::{Answer, Call, Reply};
use trio_rights::{Creds, Kind};
use trio_session::Session;
use trio_walk::{Stop, look_up, reach_into};

/// Makes what a call makes by this path: an empty file or directory, or a link with its text.
pub(crate) fn make<D: Desk>(
    alloc: Global,
    session: &mut Session,
    desk: &mut D,
    call: &Call,
    path: &Path,
) -> Result<Replied, Stop>
    requires may { MayCall (D.seen desk.old) session.old }
    requires makes { MakesNew call.now path.now }
    requires root { IsFalse (is_root path.now) }
    ensures goes { Goes D.called D.seen desk.old session.old call.now (λ now. dir_needs now (D.seen desk.new).creds (shows_root session.old) call.now) (try_ends result) (number_made result) desk.new session.new }
    ensures others { HasNothing session.old → OthersHold session.old.lib (try_ends result) }
{
    let Ok(dir) = parent(alloc, path) else {
        return Err(Stop::NoMemory);
    };
    let writes = [dir];
    match reach_into(session, desk, &writes[0], &writes) {
        Ok(met) => match look_up(session, met.ino, name_of(path)) {
            None => make_in(session, desk, call, path, met.ino),
            Some(_) => noted_reply(session, Reply::Exists),
        },
        Err(end) => stopped(session, end),
    }
}

// makes a file in a directory that has no such name
fn make_in<D: Desk>(
    session: &mut Session,
    desk: &mut D,
    call: &Call,
    path: &Path,
    dir: u32,
) -> Result<Replied, Stop>
    requires may { MayCall (D.seen desk.old) session.old }
    requires makes { MakesNew call.now path.now }
    requires root { IsFalse (is_root path.now) }
    requires open { IsOpenDir session.old dir }
    requires new { place_shown session.old dir (name_of path.now) ≡ None }
    requires comes { InAllShown (D.seen desk.old) session.old (λ now. ComesInto now (D.seen desk.old).creds call.now path.now dir) }
    requires free { InAllShown (D.seen desk.old) session.old (λ now. find_named now dir (name_of path.now) ≡ None) }
    ensures goes { Goes D.called D.seen desk.old session.old call.now (λ now. []) (try_ends result) (number_made result) desk.new session.new }
    ensures idle { IsNotBusy (try_ends result) }
{
    let creds = desk.creds();
    match make_room(session, desk, dir, 1, new_size(call)) {
        Ok(()) => {
            let made = put_new(session, dir, creds, call);
            Ok(Replied {
                reply: Reply::Ok(Answer::Done),
                made,
            })
        }
        Err(fault) => unmade(fault),
    }
}

// how many bytes the new file has
fn new_size(call: &Call) -> u64
    ensures { result ≡ length (new_bytes call.now) }
{
    match call {
        Call::Symlink { text, .. } => text.as_slice().len() as u64,
        _ => 0,
    }
}

// puts the new file into its directory, where there is room for it
fn put_new(session: &mut Session, dir: u32, creds: Creds, call: &Call) -> u32
    requires entry { IsEntryCall call.now }
    requires makes { IsTrue (makes_file call.now) }
    requires root { IsFalse (is_root (new_path call.now)) }
    requires may { MayMakeFile session.old (name_of (new_path call.now)) dir }
    requires pages { length (spare_pages session.old) ≡ new_pages (length (new_bytes call.now)) }
    requires room { block_count (length (new_bytes call.now)) ≤ session.old.room.next_blocks }
    ensures kept { session.new ≡ record (put_new creds call.now dir (new_number session.old) session.old) { room = session.new.room } }
    ensures calls { session.new.room.calls ≡ session.old.room.calls }
    ensures number { result ≡ new_number session.old }
    ensures name { IsName (name_of (new_path call.now)) }
    ensures body { (range : CoreRange) → body_of (new_kind call.now) range (new_body creds (new_mode call.now)) ≡ Some (body_made creds (new_mode call.now)) }
{
    match call {
        Call::Mkdir { path, mode } => {
            make_file(session, dir, name_of(path), Kind::Directory, creds, *mode)
        }
        Call::Create { path, mode } => {
            make_file(session, dir, name_of(path), Kind::Regular, creds, *mode)
        }
        Call::Symlink { path, text } => {
            make_link(session, dir, name_of(path), creds, text.as_slice())
        }
        _ => unreachable!(),
    }
}
