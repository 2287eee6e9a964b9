//! Permission classes and the rights table.

ghost use Rattle.std.specs.Prelude.{◌≡◌, ◌<◌};
ghost use Rattle.trio_rights.specs.Rights.{class_bits_of, permits};

use crate::kind::Kind;

/// The number of a library, counted from 1.
#[derive(Clone, Copy, Debug, PartialEq, Eq, PartialOrd, Ord)]
pub struct LibNo(pub u32);

/// The user and the group that a library acts for.
#[derive(Clone, Copy, Debug, PartialEq, Eq)]
pub struct Creds {
    pub uid: u32,
    pub gid: u32,
}

/// Nine permission bits, at most `0o777`: three each for the owner, the group and all others.
/// In each three, 4 is read, 2 is write and 1 is execute.
#[derive(Clone, Copy, Debug, PartialEq, Eq)]
pub struct Mode(pub u16);

/// What somebody wants to do with a file.
#[derive(Clone, Copy, Debug, PartialEq, Eq)]
pub enum Need {
    Read,
    Write,
}

/// The three permission bits that apply to `creds` at a file of this mode, owner and group:
/// the owner's where the uids are equal, else the group's where the gids are equal, else the
/// others'. The result is below 8.
pub fn class_bits(creds: Creds, mode: Mode, uid: u32, gid: u32) -> u8
    ensures bits { result ≡ class_bits_of creds mode uid gid }
    ensures small { result < 8 }
{
    let shift = if creds.uid == uid {
        6
    } else if creds.gid == gid {
        3
    } else {
        0
    };
    ((mode.0 >> shift) & 7) as u8
}

/// Whether `creds` may use a file of this kind, mode, owner and group in this way, by the rights
/// table. Uid 0 may always. Rights on the file's ancestors are not looked at.
pub fn may(creds: Creds, kind: Kind, mode: Mode, uid: u32, gid: u32, need: Need) -> bool
    ensures { result ≡ permits creds kind mode uid gid need }
{
    let wanted = match (kind, need) {
        (Kind::Regular | Kind::Link, Need::Read) => 4,
        (Kind::Regular | Kind::Link, Need::Write) => 6,
        (Kind::Directory, Need::Read) => 5,
        (Kind::Directory, Need::Write) => 7,
    };
    creds.uid == 0 || class_bits(creds, mode, uid, gid) & wanted == wanted
}
