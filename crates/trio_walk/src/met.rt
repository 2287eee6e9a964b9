//! Files as their directory shows them.

ghost use Rattle.std.specs.Prelude.{◌≡◌, ◌≤◌, ◌<◌, IsSome, Some, length};
ghost use Rattle.std.specs.Option.{option_map};
ghost use Rattle.trio_layout.specs.Entries.{slot_bytes};
ghost use Rattle.trio_layout.specs.Slot.{slot_of};
ghost use Rattle.trio_lists.specs.Lists.{In};
ghost use Rattle.trio_page.specs.Home.{raised};
ghost use Rattle.trio_session.specs.Seen.{entry_in, every_number, kind_shown};
ghost use Rattle.trio_desk.specs.Call.{DeskSeen};
ghost use Rattle.trio_walk.specs.Walks.{FindsEntry, IsHad, LooksUp, MayLookIn, MayWalk, gives_met};
ghost use Rattle.trio_nodes.specs.declared.grant.GrantKind.{GrantKind};
ghost use Rattle.trio_walk.specs.inner.Steps.{body_refuses, found_in, met_in, met_of, refuses, rights_at, root_met};

use trio_names::Name;
use trio_page::Page;
use trio_page::field::{u16_in, u32_in};
use trio_rights::{Creds, Kind, Mode, Need, may};
use trio_session::Session;

/// Who may use a file.
#[derive(Clone, Copy)]
pub struct Rights {
    pub mode: Mode,
    pub uid: u32,
    pub gid: u32,
}

/// A file to which a walk has come, as its directory shows it. Where no lease shows the rights of
/// the root, there are none.
#[derive(Clone, Copy)]
pub struct Met {
    /// The inode number.
    pub ino: u32,
    pub kind: Kind,
    pub rights: Option<Rights>,
}

/// The rights that the bytes of a body say.
pub(crate) fn rights_in(body: &[u8]) -> Rights
    requires { 64 ≤ length body.now }
    ensures { result ≡ rights_at body.now }
{
    Rights {
        mode: Mode(u16_in(body, 0)),
        uid: u32_in(body, 4),
        gid: u32_in(body, 8),
    }
}

/// Whether the rights that are known of a file give what is needed; `true` where none are known.
pub fn gives(creds: Creds, met: Met, need: Need) -> bool
    ensures { result ≡ gives_met creds met need }
{
    match met.rights {
        Some(rights) => may(creds, met.kind, rights.mode, rights.uid, rights.gid, need),
        None => true,
    }
}

/// Whether the rights of a directory don't give what is needed.
pub(crate) fn refuses(creds: Creds, need: Need, rights: Rights) -> bool
    ensures { result ≡ refuses creds need rights }
{
    !may(
        creds,
        Kind::Directory,
        rights.mode,
        rights.uid,
        rights.gid,
        need,
    )
}

/// Whether the rights that a session shows of a directory don't give what is needed.
pub(crate) fn body_refuses(session: &Session, creds: Creds, need: Need, ino: u32) -> bool
    ensures { result ≡ body_refuses session.now creds need ino }
{
    match session.body(ino) {
        Some(body) => refuses(creds, need, rights_in(body)),
        None => false,
    }
}

/// The root, with its rights where a lease shows them.
pub(crate) fn root_met(session: &Session) -> Met
    ensures { result ≡ root_met session.now }
{
    let rights = match session.body(1) {
        Some(body) => Some(rights_in(body)),
        None => None,
    };
    Met {
        ino: 1,
        kind: Kind::Directory,
        rights,
    }
}

/// The file of a name in a directory that the session has, by the directory's index and the one slot
/// to which it points. `None` exactly where the directory lists no such name.
pub fn look_up(session: &mut Session, dir: u32, name: &Name) -> Option<Met>
    requires { (kind : GrantKind) × IsHad session.old dir kind }
    ensures kept { session.new ≡ record session.old { finds = raised session.old.finds } }
    ensures finds { FindsEntry session.old dir name.now result }
    ensures may { (desk : DeskSeen) → MayWalk desk session.old → MayWalk desk session.new }
    ensures looked { (desk : DeskSeen) → MayWalk desk session.old → MayLookIn desk session.old dir → LooksUp desk session.new dir name.now result }
{
    entry_met(session, dir, name)
}

// the file of a name, by the index and the slot
fn entry_met(session: &mut Session, dir: u32, name: &Name) -> Option<Met>
    requires { kind_shown session.old dir ≡ Some Kind.Directory → In dir session.old.indexed }
    ensures met { result ≡ met_in session.old dir name.now }
    ensures found { session.new ≡ found_in session.old dir }
{
    let place = session.find(dir, name)?;
    let page = session.block(dir, place.block)?;
    Some(slot_met(page, usize::from(place.slot)))
}

// the file that a slot names: its number, its kind and its rights, read at their places. The rest of
// the slot isn't looked at, as the session's type has it in the grammar
fn slot_met(page: &Page, slot: usize) -> Met
    requires slot { slot < 16 }
    requires entry { IsSome (entry_in (slot_of every_number (slot_bytes slot page.now))) }
    ensures { option_map (λ e. met_of slot e page.now) (entry_in (slot_of every_number (slot_bytes slot page.now))) ≡ Some result }
{
    let from = 256 * slot;
    let bytes = &page.bytes()[from..from + 256];
    let Some(kind) = Kind::from_byte(bytes[4]) else {
        unreachable!()
    };
    let body = &page.bytes()[from + 192..from + 256];
    Met {
        ino: u32_in(bytes, 0),
        kind,
        rights: Some(rights_in(body)),
    }
}
