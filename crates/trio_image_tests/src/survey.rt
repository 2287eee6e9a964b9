//! The survey, on images of 32 pages and 64 inode numbers, and each of them damaged.
//!
//! Page 0 is the superblock, page 1 has the shadow rows, page 2 the owner rows, and the core begins at
//! page 3.

use crate::homes::home_with;
use std::alloc::Global;
use trio_layout::{Body, CoreRange, Superblock};
use trio_page::{Home, Page, PageNo, Reads};
use trio_rights::{Kind, Mode};
use trio_samples::files::{large_tree, one_file, root, six_directories, three_files};
use trio_samples::{Sample, SampleFile, link, regular};
use trio_survey::file::{MetFile, read_file};
use trio_survey::{Found, Picks, SurveyFault, survey, survey_picked, verify, verify_old};
use trio_tables::{CONTROLLER, Owners, Row};

/// What `verify` answers, and how often it looked at a page.
fn verdict(alloc: Global, home: &mut Home) -> Option<(Result<(), SurveyFault>, u64)> {
    Superblock::read(home.page(PageNo(0), &mut Reads::new())?)?;
    let mut reads = Reads::new();
    let answer = verify(alloc, home, &mut reads);
    Some((answer, reads.count()))
}

/// The image that is damaged.
#[derive(Clone, Copy)]
enum Files {
    OnlyRoot,
    OneFile,
    ThreeFiles,
    SixDirectories,
    /// A link `l` of four bytes, with pages 5 and 6, and a guarded file `g` of five, with pages 7 and 8.
    Links,
}

/// The image, the page, the offset and the bytes written there, and the rule, file, page and slot
/// that come out, all 0 where the image verifies.
type Damaged = (Files, (usize, usize, &'static [u8]), (u8, u32, u32, u16));

const DAMAGED: &[Damaged] = &[
    // whole, and with another block of the file
    (Files::OneFile, (0, 0, b""), (0, 0, 0, 0)),
    (Files::ThreeFiles, (0, 0, b""), (0, 0, 0, 0)),
    (Files::SixDirectories, (0, 0, b""), (0, 0, 0, 0)),
    (Files::OnlyRoot, (0, 0, b""), (0, 0, 0, 0)),
    (Files::OneFile, (6, 0, b"world"), (0, 0, 0, 0)),
    (Files::OneFile, (6, 5, b"more"), (0, 0, 0, 0)),
    // the body of a directory, of a file and of the root
    (Files::ThreeFiles, (4, 192 + 16, &[1]), (1, 2, 0, 0)),
    (Files::OneFile, (4, 192 + 2, &[1]), (1, 2, 0, 0)),
    (Files::OneFile, (4, 192 + 12, &[2]), (1, 2, 0, 0)),
    (Files::OneFile, (4, 192 + 12, &[32]), (1, 2, 0, 0)),
    (Files::OneFile, (4, 192 + 18, &[2]), (1, 2, 0, 0)),
    (Files::SixDirectories, (8, 192 + 17, &[16]), (1, 5, 0, 0)),
    (Files::OnlyRoot, (0, 40 + 17, &[16]), (1, 1, 0, 0)),
    // the guard: of a regular file, of a directory, of the root, and a byte that says none
    (Files::OneFile, (4, 192 + 24, &[1]), (0, 0, 0, 0)),
    (Files::ThreeFiles, (4, 192 + 24, &[1]), (1, 2, 0, 0)),
    (Files::OnlyRoot, (0, 40 + 24, &[1]), (1, 1, 0, 0)),
    (Files::OneFile, (4, 192 + 24, &[2]), (1, 2, 0, 0)),
    // a link: whole, of no bytes, of a block and a byte, guarded, with another text
    (Files::Links, (0, 0, b""), (0, 0, 0, 0)),
    (Files::Links, (4, 192 + 16, &[0]), (1, 2, 0, 0)),
    (Files::Links, (4, 192 + 17, &[16]), (1, 2, 0, 0)),
    (Files::Links, (4, 192 + 24, &[1]), (1, 2, 0, 0)),
    (Files::Links, (6, 0, b"\0b/c"), (0, 0, 0, 0)),
    // an index page: a page out of the core, a number behind the last, a further link
    (Files::OneFile, (5, 0, &[2]), (1, 2, 5, 0)),
    (Files::OneFile, (5, 0, &[32]), (1, 2, 5, 0)),
    (Files::OneFile, (5, 8, &[7]), (1, 2, 5, 0)),
    (Files::OneFile, (5, 4088, &[7]), (1, 2, 5, 0)),
    (Files::ThreeFiles, (3, 4088, &[32]), (1, 1, 3, 0)),
    // more blocks than there are core pages
    (Files::OneFile, (4, 192 + 16, &[0, 16, 0x20]), (1, 2, 0, 0)),
    // a slot: number, kind, length, zeros and name
    (Files::OneFile, (4, 0, &[65]), (1, 1, 4, 0)),
    (Files::OneFile, (4, 4, &[4]), (1, 1, 4, 0)),
    (Files::ThreeFiles, (6, 5, &[0]), (1, 2, 6, 0)),
    (Files::ThreeFiles, (6, 6, &[1]), (1, 2, 6, 0)),
    (Files::SixDirectories, (8, 8, b"/"), (1, 4, 8, 0)),
    // the same name again
    (
        Files::OneFile,
        (4, 256, &[3, 0, 0, 0, 1, 1, 0, 0, b'f']),
        (1, 1, 4, 1),
    ),
    (Files::SixDirectories, (4, 256 + 8, b"a"), (1, 1, 4, 1)),
    // a number again: in its directory, in another, as its own child, and the root's
    (
        Files::OneFile,
        (4, 256, &[2, 0, 0, 0, 1, 1, 0, 0, b'g']),
        (2, 1, 4, 1),
    ),
    (Files::SixDirectories, (12, 0, &[5]), (2, 6, 12, 0)),
    (
        Files::ThreeFiles,
        (6, 512, &[2, 0, 0, 0, 2, 1, 0, 0, b'a']),
        (2, 2, 6, 2),
    ),
    (
        Files::OneFile,
        (4, 512, &[1, 0, 0, 0, 2, 1, 0, 0, b'g']),
        (2, 1, 4, 2),
    ),
    // a page again: the block and the index page of another file, and of the file itself
    (Files::OneFile, (5, 0, &[4]), (2, 2, 4, 0)),
    (Files::ThreeFiles, (7, 0, &[5]), (2, 3, 5, 0)),
    (Files::OneFile, (5, 0, &[5]), (2, 2, 5, 0)),
    (Files::SixDirectories, (10, 192 + 12, &[7]), (2, 6, 7, 0)),
    // a kind that isn't the row's
    (Files::OneFile, (4, 4, &[3]), (5, 2, 0, 0)),
    // rows: state, kind, mode, uid, parent, page, slot, one that isn't live, and behind the last
    (Files::OneFile, (1, 0, &[0]), (5, 1, 0, 0)),
    (Files::OneFile, (1, 33, &[2]), (5, 2, 0, 0)),
    (Files::OneFile, (1, 34, &[0xa5]), (5, 2, 0, 0)),
    (Files::ThreeFiles, (1, 68, &[1]), (5, 3, 0, 0)),
    (Files::ThreeFiles, (1, 76, &[1]), (5, 3, 0, 0)),
    (Files::ThreeFiles, (1, 80, &[7]), (5, 3, 0, 0)),
    (Files::SixDirectories, (1, 84 + 128, &[1]), (5, 7, 0, 0)),
    (Files::OneFile, (1, 2048, &[1]), (5, 0, 0, 0)),
    // owners: of a block, of a free page, of the controller's page, and behind the last
    (Files::OneFile, (2, 24, &[3]), (5, 0, 6, 0)),
    (Files::OnlyRoot, (2, 12, &[2]), (5, 0, 3, 0)),
    (Files::OneFile, (2, 4, &[0xfe]), (5, 0, 1, 0)),
    (Files::OneFile, (2, 128, &[1]), (5, 0, 0, 0)),
];

fn sample(alloc: Global, files: Files) -> Option<Sample> {
    let made = match files {
        Files::OnlyRoot => Sample::small(alloc, &[root()]),
        Files::OneFile => Sample::small(alloc, &one_file()),
        Files::ThreeFiles => Sample::small(alloc, &three_files()),
        Files::SixDirectories => Sample::small(alloc, &six_directories()),
        Files::Links => Sample::small(alloc, &links()),
    };
    made.ok()
}

fn links<'a>() -> [SampleFile<'a>; 3] {
    [
        root(),
        link(2, 1, b"l", b"/a/f"),
        regular(3, 1, b"g", b"hello").guarded(),
    ]
}

/// What `verify` answers of a damaged image.
fn damaged(
    alloc: Global,
    files: Files,
    (page, at, bytes): (usize, usize, &[u8]),
) -> Option<Result<(), SurveyFault>> {
    let mut sample = sample(alloc, files)?;
    sample.put(page, at, bytes);
    Some(verdict(alloc, &mut sample.home(alloc).ok()?)?.0)
}

/// The answer with this rule, file, page and slot, all 0 where the image verifies.
fn answer((rule, ino, page, slot): (u8, u32, u32, u16)) -> Result<(), SurveyFault> {
    if rule == 0 {
        return Ok(());
    }
    Err(SurveyFault::Fails {
        rule,
        ino,
        page,
        slot,
    })
}

#[test]
fn damaged_images(rt: HostRuntime) {
    for (i, (files, damage, wanted)) in DAMAGED.iter().enumerate() {
        assert!(rt;
            damaged(rt.alloc(), *files, *damage) == Some(answer(*wanted)),
            "row {i}"
        );
    }
}

/// Images that are read by version 1, as those above.
const OLD: &[Damaged] = &[
    // nothing new
    (Files::OneFile, (0, 0, b""), (0, 0, 0, 0)),
    (Files::SixDirectories, (0, 0, b""), (0, 0, 0, 0)),
    // what version 2 doesn't take either
    (Files::OneFile, (4, 4, &[4]), (1, 1, 4, 0)),
    (Files::OneFile, (5, 0, &[4]), (2, 2, 4, 0)),
    (Files::OneFile, (1, 0, &[0]), (5, 1, 0, 0)),
    // a link, and a guarded file alone
    (Files::Links, (0, 0, b""), (1, 1, 4, 0)),
    (Files::Links, (4, 4, &[1]), (1, 3, 0, 0)),
    (Files::OneFile, (4, 192 + 24, &[1]), (1, 2, 0, 0)),
    (Files::OneFile, (4, 4, &[3]), (1, 1, 4, 0)),
    // a link that lists a number again
    (
        Files::ThreeFiles,
        (6, 256, &[2, 0, 0, 0, 3, 1, 0, 0, b'l']),
        (1, 2, 6, 1),
    ),
    // a directory with a link and a bad slot
    (
        Files::Links,
        (4, 512, &[9, 0, 0, 0, 4, 1, 0, 0, b'x']),
        (1, 1, 4, 2),
    ),
    // a page again, by a guarded file
    (Files::Links, (4, 256 + 192 + 12, &[5]), (1, 1, 4, 0)),
];

/// What `verify_old` answers of a damaged image.
fn damaged_old(
    alloc: Global,
    files: Files,
    (page, at, bytes): (usize, usize, &[u8]),
) -> Option<Result<(), SurveyFault>> {
    let mut sample = sample(alloc, files)?;
    sample.put(page, at, bytes);
    let mut home = sample.home(alloc).ok()?;
    let superblock = Superblock::read(home.page(PageNo(0), &mut Reads::new())?)?;
    Some(verify_old(alloc, &mut home, &superblock, &mut Reads::new()).map(|_| ()))
}

#[test]
fn images_by_version_1(rt: HostRuntime) {
    for (i, (files, damage, wanted)) in OLD.iter().enumerate() {
        assert!(rt;
            damaged_old(rt.alloc(), *files, *damage) == Some(answer(*wanted)),
            "row {i}"
        );
    }
}

/// What `verify` answers of the image of one file without these pages, and how often it looked at one.
fn verdict_without(alloc: Global, pages: &[u32]) -> Option<(Result<(), SurveyFault>, u64)> {
    let mut home = sample(alloc, Files::OneFile)?.home(alloc).ok()?;
    for page in pages {
        home.take(PageNo(*page), &mut Reads::new());
    }
    verdict(alloc, &mut home)
}

/// A page that is absent, and the rule, file, page and slot that come out.
const ABSENT: &[(u32, (u8, u32, u32, u16))] = &[
    (1, (5, 0, 0, 0)),
    (2, (5, 0, 0, 0)),
    (3, (1, 1, 3, 0)),
    (4, (1, 1, 4, 0)),
    (5, (1, 2, 5, 0)),
];

fn fails_without(alloc: Global, page: u32, wanted: (u8, u32, u32, u16)) -> Option<bool> {
    Some(verdict_without(alloc, &[page])?.0 == answer(wanted))
}

#[test]
fn absent_pages(rt: HostRuntime) {
    for (page, wanted) in ABSENT {
        assert!(rt;
            fails_without(rt.alloc(), *page, *wanted) == Some(true),
            "page {page}"
        );
    }
    // the block of a regular file isn't looked at, nor are free pages
    assert!(rt; verdict_without(rt.alloc(), &[6, 7, 31]) == Some((Ok(()), 6)));
}

const RANGE: CoreRange = CoreRange { first: 3, end: 32 };

/// What is found in the image of three files.
fn found(alloc: Global) -> Option<Found> {
    let sample = sample(alloc, Files::ThreeFiles)?;
    let body = sample.superblock().root;
    let mut home = sample.home(alloc).ok()?;
    survey(alloc, &mut home, &body, RANGE, 64, &mut Reads::new()).ok()
}

const ROW: Row = Row {
    kind: Kind::Regular,
    mode: Mode(0o644),
    uid: 0,
    gid: 0,
    parent: 2,
    page: 6,
    slot: 0,
};

fn has_rows(alloc: Global) -> Option<bool> {
    let rows = found(alloc)?.rows;
    let counts = (rows.inodes(), rows.live(), rows.children(2));
    Some(rows.row(3) == Some(ROW) && counts == (64, 3, 1))
}

/// Pages and their owners.
const OWNED: &[(u32, u32)] = &[
    (0, CONTROLLER),
    (2, CONTROLLER),
    (3, 1),
    (4, 1),
    (5, 2),
    (6, 2),
    (7, 3),
    (8, 3),
    (9, 0),
];

/// The owner of a page, where the table has it.
fn owner(owners: &Owners, page: u32) -> Option<u32> {
    if page < owners.pages() {
        Some(owners.owner(PageNo(page)))
    } else {
        None
    }
}

fn has_owners(alloc: Global) -> Option<bool> {
    let owners = found(alloc)?.owners;
    for (page, wanted) in OWNED {
        if owner(&owners, *page) != Some(*wanted) {
            return Some(false);
        }
    }
    Some((owners.pages(), owners.free()) == (32, 23))
}

/// The mode of `f` that is found where one of mode 200 is picked for this directory, page and slot.
fn picked_mode(alloc: Global, parent: u32, page: u32, slot: u16) -> Option<Mode> {
    let sample = sample(alloc, Files::ThreeFiles)?;
    let body = sample.superblock().root;
    let mut home = sample.home(alloc).ok()?;
    let mut other = [0; 64];
    other[0] = 0x80;
    let mut picks = Picks::new(alloc, 64).ok()?;
    picks.set(3, parent, page, slot, &other);
    let found = survey_picked(
        alloc,
        &mut home,
        &body,
        RANGE,
        64,
        &picks,
        &mut Reads::new(),
    );
    Some(found.ok()?.rows.row(3)?.mode)
}

/// Directory, page and slot of the pick, and the mode of `f` that is found.
const PICKS: &[(u32, u32, u16, Mode)] = &[
    (2, 6, 0, Mode(0x80)),
    (1, 6, 0, Mode(0o644)),
    (2, 5, 0, Mode(0o644)),
    (2, 6, 1, Mode(0o644)),
];

#[test]
fn tables_and_picks(rt: HostRuntime) {
    assert!(rt; has_rows(rt.alloc()) == Some(true));
    assert!(rt; has_owners(rt.alloc()) == Some(true));
    for (i, (parent, page, slot, mode)) in PICKS.iter().enumerate() {
        assert!(rt;
            picked_mode(rt.alloc(), *parent, *page, *slot) == Some(*mode),
            "row {i}"
        );
    }
}

/// The live numbers, the free pages and the looks of a root of 900 directories with 16 empty files each.
fn large_counts(alloc: Global) -> Option<(u32, u32, u64)> {
    let sample = large_tree(alloc).ok()?;
    let body = sample.superblock().root;
    let mut home = sample.home(alloc).ok()?;
    let mut reads = Reads::new();
    let range = CoreRange {
        first: 137,
        end: 8192,
    };
    let found = survey(alloc, &mut home, &body, range, 16384, &mut reads).ok()?;
    Some((found.rows.live(), found.owners.free(), reads.count()))
}

#[test]
fn a_large_tree(rt: HostRuntime) {
    assert!(rt; large_counts(rt.alloc()) == Some((15301, 6197, 1858)));
}

/// 511 blocks and the next index page.
fn first_index(alloc: Global) -> Option<Page> {
    let mut page = Page::zero(alloc).ok()?;
    for i in 0..511usize {
        page.put_u64(8 * i, 20);
    }
    page.put_u64(4088, 4);
    Some(page)
}

/// One block.
fn last_index(alloc: Global) -> Option<Page> {
    let mut page = Page::zero(alloc).ok()?;
    page.put_u64(0, 21);
    Some(page)
}

/// 511 blocks named by page 3, and one more by page 4.
fn long_chain(alloc: Global) -> Option<Home> {
    home_with(alloc, first_index(alloc)?, last_index(alloc)?)
}

/// The body of a file of as many blocks and a byte.
fn long_body() -> [u8; 64] {
    let mut bytes = [0; 64];
    let body = Body {
        mode: Mode(0o644),
        uid: 0,
        gid: 0,
        head: 3,
        size: 511 * 4096 + 1,
        guard: false,
    };
    body.write(&mut bytes);
    bytes
}

/// Whether a regular file of two index pages is read in two looks.
fn is_read_whole(alloc: Global) -> Option<bool> {
    let met = MetFile {
        ino: 2,
        kind: Kind::Regular,
        parent: 1,
        page: 9,
        slot: 1,
        body: long_body(),
    };
    let range = CoreRange { first: 3, end: 600 };
    let mut reads = Reads::new();
    let file = read_file(alloc, &mut long_chain(alloc)?, range, 16, &met, &mut reads);
    let file = file.ok()?.ok()?;
    let ends = (
        file.blocks.len(),
        file.blocks.first().copied(),
        file.blocks.last().copied(),
    );
    let is_listed = file.index.as_slice() == [3, 4].as_slice() && ends == (512, Some(20), Some(21));
    Some(is_listed && file.entries.is_empty() && reads.count() == 2)
}

#[test]
fn regular_file_of_two_index_pages(rt: HostRuntime) {
    assert!(rt; is_read_whole(rt.alloc()) == Some(true));
}
