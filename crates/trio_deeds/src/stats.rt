//! What a file is by its body: who may use it, and what a stat tells.

ghost use Rattle.std.specs.Prelude.{◌≡◌};
ghost use Rattle.trio_layout.specs.Body.{body_at};
ghost use Rattle.trio_session.specs.Deeds.{IsHad, body_had};
ghost use Rattle.trio_deeds.specs.Reads.{allows, stat_had};

use crate::reads::entry_count;
use crate::sizes::size_of;
use trio_nodes::Answer;
use trio_page::field::{u16_in, u32_in};
use trio_rights::{Creds, Kind, Mode, Need, may};
use trio_session::Session;

/// Whether the rights of a file that the session has give what is needed.
pub fn allows(session: &Session, ino: u32, kind: Kind, creds: Creds, need: Need) -> bool
    requires { IsHad session.now ino }
    ensures { result ≡ allows session.now ino kind creds need }
{
    let (mode, uid, gid) = rights_of(session, ino);
    may(creds, kind, mode, uid, gid, need)
}

/// What a stat answers of a file of this kind that the session has. The size of a directory is its
/// number of entries.
pub fn stat_of(session: &Session, ino: u32, kind: Kind) -> Answer
    requires { IsHad session.now ino }
    ensures { result ≡ stat_had session.now ino kind }
{
    let (mode, uid, gid) = rights_of(session, ino);
    let size = if kind.is_directory() {
        entry_count(session, ino)
    } else {
        size_of(session, ino)
    };
    Answer::Stat {
        kind,
        mode,
        uid,
        gid,
        size,
    }
}

// its mode, its owner and its group
fn rights_of(session: &Session, ino: u32) -> (Mode, u32, u32)
    requires { IsHad session.now ino }
    ensures { result ≡ ((body_at (body_had session.now ino)).mode, (body_at (body_had session.now ino)).uid, (body_at (body_had session.now ino)).gid) }
{
    match session.body(ino) {
        Some(body) => (Mode(u16_in(body, 0)), u32_in(body, 4), u32_in(body, 8)),
        None => unreachable!(),
    }
}
