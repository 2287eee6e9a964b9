//! Which grants exclude which.

use std::alloc::Global;
use trio_grants::{AdmitFault, GrantTable};
use trio_nodes::{GrantKind, Holder};
use trio_rights::LibNo;

const ONE: LibNo = LibNo(1);

const TWO: LibNo = LibNo(2);

const FILE: u32 = 7;

/// The kind that is asked, the kind that library 1 has open on the file, and whether it excludes a
/// grant of library 1 and of library 2.
const KINDS: &[(GrantKind, GrantKind, bool, bool)] = &[
    (GrantKind::Read, GrantKind::Read, true, false),
    (GrantKind::Read, GrantKind::Write, true, true),
    (GrantKind::Read, GrantKind::Hold, true, true),
    (GrantKind::Write, GrantKind::Read, true, true),
    (GrantKind::Write, GrantKind::Write, true, true),
    (GrantKind::Write, GrantKind::Hold, true, true),
    (GrantKind::Hold, GrantKind::Read, true, true),
    (GrantKind::Hold, GrantKind::Write, true, true),
    (GrantKind::Hold, GrantKind::Hold, true, true),
];

/// Whether a grant that is open excludes one that a library asks on the same file, and none on another.
/// `None`: another answer came.
fn excludes(alloc: Global, asked: GrantKind, standing: GrantKind, lib: LibNo) -> Option<bool> {
    let mut table = GrantTable::new(alloc);
    table.admit(ONE, FILE, standing, 3).ok()?;
    let fault = table.admit(lib, FILE, asked, 4).err();
    table.admit(lib, FILE + 1, asked, 5).ok()?;
    match fault {
        None => Some(false),
        Some(AdmitFault::Busy(by)) if is(by, ONE, standing, 3) => Some(true),
        Some(_) => None,
    }
}

fn is(holder: Holder, lib: LibNo, kind: GrantKind, entry: u64) -> bool {
    holder.lib == lib && holder.kind == kind && holder.entry == entry
}

#[test]
fn exclusion_table(rt: HostRuntime) {
    for (i, (asked, standing, by_same, by_other)) in KINDS.iter().enumerate() {
        let same = excludes(rt.alloc(), *asked, *standing, ONE);
        let other = excludes(rt.alloc(), *asked, *standing, TWO);
        assert!(rt;
            same == Some(*by_same) && other == Some(*by_other),
            "row {i}"
        );
    }
}

const LATE: Holder = Holder {
    lib: ONE,
    kind: GrantKind::Read,
    entry: 9,
};

const EARLY: Holder = Holder {
    lib: TWO,
    kind: GrantKind::Read,
    entry: 4,
};

fn has_readers(table: &GrantTable, is_early_there: bool) -> bool {
    table.has(TWO, FILE, GrantKind::Read) == is_early_there && table.has(ONE, FILE, GrantKind::Read)
}

fn tells_early(table: &GrantTable) -> bool {
    table.holder_of(FILE, None) == Some(EARLY)
        && table.holder_of(FILE, Some(TWO)) == Some(LATE)
        && table.holder_of(FILE + 1, None).is_none()
}

/// Of two readers the one of lower entry is told, until it ends. Then the other keeps a writer off.
fn lowest_is_told(alloc: Global) -> Option<bool> {
    let mut table = GrantTable::new(alloc);
    table.admit(ONE, FILE, GrantKind::Read, 9).ok()?;
    let key = table.admit(TWO, FILE, GrantKind::Read, 4).ok()?;
    let is_early = tells_early(&table) && has_readers(&table, true);
    table.end(key);
    let asked = table.admit(TWO, FILE, GrantKind::Write, 10);
    Some(is_early && has_readers(&table, false) && asked == Err(AdmitFault::Busy(LATE)))
}

/// A file is free for a writer once its hold has ended.
fn ended_excludes_nothing(alloc: Global) -> Option<bool> {
    let mut table = GrantTable::new(alloc);
    let key = table.admit(ONE, FILE, GrantKind::Hold, 0).ok()?;
    let is_unwritten = table.writer().is_none();
    table.end(key);
    table.admit(TWO, FILE, GrantKind::Write, 1).ok()?;
    let writer = table.writer()?;
    Some(is_unwritten && is(writer, TWO, GrantKind::Write, 1))
}

#[test]
fn lowest_entry_is_told_until_it_ends(rt: HostRuntime) {
    assert!(rt; lowest_is_told(rt.alloc()) == Some(true));
    assert!(rt; ended_excludes_nothing(rt.alloc()) == Some(true));
}

/// Grants that are open: the library, the file, the kind and the entry.
const OPEN: &[(LibNo, u32, GrantKind, u64)] = &[
    (ONE, 9, GrantKind::Hold, 0),
    (ONE, 5, GrantKind::Hold, 1),
    (TWO, 6, GrantKind::Hold, 2),
    (ONE, 4, GrantKind::Write, 3),
];

/// A library, a number, and the lowest file from that number on that the library holds.
const HOLDS: &[(LibNo, u32, Option<u32>)] = &[
    (ONE, 0, Some(5)),
    (ONE, 5, Some(5)),
    (ONE, 6, Some(9)),
    (ONE, 10, None),
    (TWO, 0, Some(6)),
    (TWO, 7, None),
];

fn opened(alloc: Global) -> Option<GrantTable> {
    let mut table = GrantTable::new(alloc);
    for (lib, ino, kind, entry) in OPEN {
        table.admit(*lib, *ino, *kind, *entry).ok()?;
    }
    Some(table)
}

/// The first row that isn't so.
fn wrong_hold(table: &GrantTable) -> Option<usize> {
    HOLDS
        .iter()
        .position(|(lib, from, lowest)| table.holds(*lib, *from) != *lowest)
}

/// Holds are found from a number on, the number itself among them.
#[test]
fn holds_from_a_number_on(rt: HostRuntime) {
    let wrong = opened(rt.alloc()).map(|table| wrong_hold(&table));
    assert!(rt; wrong == Some(None), "{wrong:?}");
}
