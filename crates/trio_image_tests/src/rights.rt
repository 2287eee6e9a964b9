//! The table of rights.

use trio_rights::{Creds, Kind, Mode, Need, may};

/// Who asks, by user and group, the kind and the mode of a file of the user 10 and the group 20, for
/// what, and whether it is allowed.
const ROWS: &[(u32, u32, Kind, u16, Need, bool)] = &[
    (10, 0, Kind::Regular, 0o400, Need::Read, true),
    (10, 0, Kind::Regular, 0o200, Need::Read, false),
    (10, 20, Kind::Regular, 0o077, Need::Read, false),
    (10, 0, Kind::Regular, 0o600, Need::Write, true),
    (10, 0, Kind::Regular, 0o200, Need::Write, false),
    (1, 20, Kind::Regular, 0o040, Need::Read, true),
    (1, 20, Kind::Regular, 0o707, Need::Read, false),
    (1, 2, Kind::Regular, 0o006, Need::Write, true),
    (10, 0, Kind::Link, 0o400, Need::Read, true),
    (10, 0, Kind::Link, 0o200, Need::Write, false),
    (10, 0, Kind::Link, 0o600, Need::Write, true),
    (1, 2, Kind::Link, 0o770, Need::Read, false),
    (1, 2, Kind::Directory, 0o004, Need::Read, false),
    (1, 2, Kind::Directory, 0o005, Need::Read, true),
    (1, 2, Kind::Directory, 0o006, Need::Write, false),
    (1, 2, Kind::Directory, 0o007, Need::Write, true),
    (0, 0, Kind::Directory, 0o000, Need::Write, true),
];

fn is_allowed(uid: u32, gid: u32, kind: Kind, mode: u16, need: Need) -> bool {
    may(Creds { uid, gid }, kind, Mode(mode), 10, 20, need)
}

#[test]
fn rights_table(rt: HostRuntime) {
    for (i, (uid, gid, kind, mode, need, allowed)) in ROWS.iter().enumerate() {
        assert!(rt;
            is_allowed(*uid, *gid, *kind, *mode, *need) == *allowed,
            "row {i}"
        );
    }
}
