use std::alloc::Global;
use std::test::Fail;
use trio_page::{Page, PageNo};
use trio_rights::{Creds, Kind, Mode, Need};
use trio_tables::{CONTROLLER, Owners, Row, RowRead, Shadow};

/// A directory of mode 755, uid 1001 and gid 5 that the directory 7 lists in slot 3 of page 258.
const ROW: Row = Row {
    kind: Kind::Directory,
    mode: Mode(0o755),
    uid: 1001,
    gid: 5,
    parent: 7,
    page: 258,
    slot: 3,
};

/// Its bytes, spelled by hand.
const BYTES: [u8; 32] = [
    1, 2, 0xed, 0x01, 0xe9, 0x03, 0, 0, 5, 0, 0, 0, 7, 0, 0, 0, 0x02, 0x01, 0, 0, 3, 0, 0, 0, 0, 0,
    0, 0, 0, 0, 0, 0,
];

/// State 2, kind 4, slot 16, the last byte 1, and a free row with a uid: an offset and the byte there.
const BAD: &[(usize, u8)] = &[(0, 2), (1, 4), (20, 16), (31, 1), (0, 0)];

fn read_with(at: usize, byte: u8) -> RowRead {
    let mut bytes = BYTES;
    if let Some(place) = bytes.get_mut(at) {
        *place = byte;
    }
    Row::read(&bytes)
}

#[test]
fn rows_by_hand(rt: HostRuntime) {
    let mut bytes = [9; 32];
    Row::write(Some(ROW), &mut bytes);
    assert!(rt; bytes == BYTES && Row::read(&BYTES) == RowRead::Live(ROW));
    Row::write(None, &mut bytes);
    assert!(rt; bytes == [0; 32] && Row::read(&bytes) == RowRead::Free);
    for (at, byte) in BAD {
        assert!(rt; read_with(*at, *byte) == RowRead::Bad, "byte {at}");
    }
}

fn counts_rows(alloc: Global) -> Option<bool> {
    let mut rows = Shadow::new(alloc, 200).ok()?;
    let is_new = (rows.inodes(), rows.live(), rows.table_pages()) == (200, 0, 2);
    rows.set(7, Some(ROW));
    rows.set(8, Some(ROW));
    rows.set(200, Some(Row { parent: 8, ..ROW }));
    let children = (rows.children(7), rows.children(8), rows.children(1));
    let is_set = rows.live() == 3 && children == (2, 1, 0);
    rows.set(8, None);
    let is_cleared = (rows.live(), rows.children(7)) == (2, 1);
    let is_there = rows.row(7) == Some(ROW) && rows.row(8).is_none() && rows.row(201).is_none();
    Some(is_new && is_set && is_cleared && is_there)
}

fn counts_owners(alloc: Global) -> Option<bool> {
    let mut owners = Owners::new(alloc, 1100, 5).ok()?;
    let is_new = (owners.pages(), owners.free(), owners.table_pages()) == (1100, 1095, 2);
    owners.set(PageNo(1099), 7);
    let found = (
        owners.owner(PageNo(4)),
        owners.owner(PageNo(5)),
        owners.owner(PageNo(1099)),
    );
    Some(is_new && found == (CONTROLLER, 0, 7) && owners.free() == 1094)
}

#[test]
fn tables(rt: HostRuntime) {
    assert!(rt; counts_rows(rt.alloc()) == Some(true));
    assert!(rt; counts_owners(rt.alloc()) == Some(true));
}

fn stores_rows(alloc: Global) -> Option<bool> {
    let mut rows = Shadow::new(alloc, 200).ok()?;
    rows.set(130, Some(ROW));
    let mut page = Page::zero(alloc).ok()?;
    page.put_u32(100, 1);
    rows.write_page(1, &mut page);
    let is_written = page.bytes()[32..64] == BYTES[..] && page.u32_at(100) == 0;
    let is_same = rows.differs_at(1, &page).is_none() && rows.differs_at(0, &page) == Some(2);
    page.put_u32(4092, 1);
    let is_behind = rows.differs_at(1, &page) == Some(0);
    page.put_u32(36, 0);
    Some(is_written && is_same && is_behind && rows.differs_at(1, &page) == Some(130))
}

fn stores_owners(alloc: Global) -> Option<bool> {
    let mut owners = Owners::new(alloc, 1100, 5).ok()?;
    owners.set(PageNo(1026), 0x0102_0304);
    let mut page = Page::zero(alloc).ok()?;
    page.put_u32(4092, 1);
    owners.write_page(1, &mut page);
    let is_written = (page.bytes()[8], page.bytes()[11]) == (4, 1) && page.u32_at(4092) == 0;
    let is_same = owners.differs_at(1, &page).is_none();
    page.put_u32(4092, 1);
    let is_behind = owners.differs_at(1, &page) == Some(0);
    page.put_u32(8, 1);
    let is_found = owners.differs_at(1, &page) == Some(1026);
    owners.write_page(0, &mut page);
    let is_first = page.u32_at(16) == CONTROLLER && page.u32_at(20) == 0;
    Some(is_written && is_same && is_behind && is_found && is_first)
}

#[test]
fn pages_by_hand(rt: HostRuntime) {
    assert!(rt; stores_rows(rt.alloc()) == Some(true));
    assert!(rt; stores_owners(rt.alloc()) == Some(true));
}

/// `/` of this mode is 1, `/a` 2 and `/a/f` 3, which belong to uid 1001 and gid 5.
fn tree(alloc: Global, mode: Mode) -> Option<Shadow> {
    let mut rows = Shadow::new(alloc, 8).ok()?;
    let root = Row {
        mode,
        parent: 0,
        uid: 0,
        gid: 0,
        ..ROW
    };
    rows.set(1, Some(root));
    let directory = Row {
        parent: 1,
        mode: Mode(0o750),
        ..ROW
    };
    rows.set(2, Some(directory));
    let file = Row {
        parent: 2,
        kind: Kind::Regular,
        mode: Mode(0o640),
        ..ROW
    };
    rows.set(3, Some(file));
    Some(rows)
}

const OWNER: Creds = Creds { uid: 1001, gid: 5 };

const GROUP: Creds = Creds { uid: 7, gid: 5 };

const OTHER: Creds = Creds { uid: 7, gid: 7 };

const ALL: Creds = Creds { uid: 0, gid: 7 };

const DENIED: &[(Creds, u32, Need, Result<(), u32>)] = &[
    (OWNER, 3, Need::Write, Ok(())),
    (GROUP, 3, Need::Read, Ok(())),
    (GROUP, 3, Need::Write, Err(3)),
    (OTHER, 3, Need::Read, Err(2)),
    (OTHER, 1, Need::Read, Ok(())),
    (OTHER, 1, Need::Write, Err(1)),
    (ALL, 3, Need::Write, Ok(())),
    // not live
    (ALL, 4, Need::Read, Err(4)),
];

#[test]
fn the_first_that_denies(rt: HostRuntime) -> Result<(), Fail> {
    let rows = tree(rt.alloc(), Mode(0o755)).ok_or("memory")?;
    for (i, (creds, ino, need, wanted)) in DENIED.iter().enumerate() {
        assert!(rt; rows.may(*creds, *ino, *need) == *wanted, "row {i}");
    }
    // the root denies all but reading
    let rows = tree(rt.alloc(), Mode(0o700)).ok_or("memory")?;
    assert!(rt; rows.may(OWNER, 3, Need::Read) == Err(1));
    Ok(())
}
