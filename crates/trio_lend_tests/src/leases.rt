//! What leases and bundles show of what was written into them.

use std::alloc::Global;
use trio_lease::{
    Allotted, Bundle, BundleParts, FreshIno, FreshPage, FreshParts, HoldLease, HoldParts, InoParts,
    LentPage, WriteLease, WriteParts,
};
use trio_page::{NoMemory, Page, PageNo};
use trio_rights::{Kind, LibNo};

/// A page of this number, which begins with it.
fn lent_page(alloc: Global, no: u32) -> Result<LentPage, NoMemory> {
    let mut page = Page::zero(alloc)?;
    page.put_u64(0, u64::from(no));
    Ok(LentPage {
        no: PageNo(no),
        page,
        touched: false,
    })
}

fn lent_pages(alloc: Global, numbers: &[u32]) -> Result<Vec<LentPage>, NoMemory> {
    let mut pages = Vec::new(alloc);
    for no in numbers {
        pages.push(lent_page(alloc, *no)?)?;
    }
    Ok(pages)
}

/// A file with this index page and these blocks.
fn file(alloc: Global, ino: u32, index: u32, blocks: &[u32]) -> Option<WriteParts> {
    let index = lent_pages(alloc, &[index]).ok()?;
    let blocks = lent_pages(alloc, blocks).ok()?;
    Some(WriteParts {
        lib: LibNo(2),
        ino,
        kind: Kind::Regular,
        entry: 5,
        body: [9; 64],
        index,
        blocks,
    })
}

/// Writes a number into a block, and answers whether there is such a block.
fn poke(lease: &mut WriteLease, i: usize, v: u64) -> bool {
    match lease.block_mut(i) {
        Some(page) => {
            page.put_u64(8, v);
            true
        }
        None => false,
    }
}

/// Writes a number into an index page, and answers whether there is such a page.
fn link(lease: &mut WriteLease, i: usize, v: u64) -> bool {
    match lease.index_mut(i) {
        Some(page) => {
            page.put_u64(8, v);
            true
        }
        None => false,
    }
}

/// Writes a number into the page of this number, and answers whether there is such a page.
fn put(bundle: &mut Bundle, no: u32, v: u64) -> bool {
    match bundle.page_mut(PageNo(no)) {
        Some(page) => {
            page.put_u64(8, v);
            true
        }
        None => false,
    }
}

/// Whether a page begins with this number.
fn begins(page: Option<&Page>, first: u64) -> bool {
    match page {
        Some(page) => page.u64_at(0) == first,
        None => false,
    }
}

/// Whether a page has this number in its bytes at 8.
fn has(page: Option<&Page>, written: u64) -> bool {
    match page {
        Some(page) => page.u64_at(8) == written,
        None => false,
    }
}

/// Whether a page has this number, this number in its bytes at 8, and this mark.
fn is_lent(lent: Option<&LentPage>, no: u32, written: u64, touched: bool) -> bool {
    match lent {
        Some(lent) => {
            lent.no == PageNo(no) && lent.page.u64_at(8) == written && lent.touched == touched
        }
        None => false,
    }
}

/// Writes into the body, the one index page and the second block, and answers whether there are no more.
fn writes_all(lease: &mut WriteLease) -> bool {
    lease.body_mut()[0] = 1;
    link(lease, 0, 40) && !link(lease, 1, 42) && poke(lease, 1, 41) && !poke(lease, 2, 42)
}

fn shows_file(lease: &WriteLease) -> bool {
    lease.lib() == LibNo(2)
        && lease.ino() == 7
        && lease.entry() == 5
        && lease.kind() == Kind::Regular
        && lease.body()[0] == 1
}

fn shows_pages(lease: &WriteLease) -> bool {
    begins(lease.index(0), 20)
        && begins(lease.block(1), 31)
        && lease.index_no(0) == Some(PageNo(20))
        && lease.index_no(1).is_none()
        && lease.block_no(1) == Some(PageNo(31))
        && lease.block_no(2).is_none()
        && lease.block_touched(0) == Some(false)
        && lease.block_touched(1) == Some(true)
}

fn has_parts(parts: &WriteParts) -> bool {
    parts.body[0] == 1
        && parts.body[1] == 9
        && is_lent(parts.index.get(0), 20, 40, false)
        && is_lent(parts.blocks.get(0), 30, 0, false)
        && is_lent(parts.blocks.get(1), 31, 41, true)
}

/// Whether what is written into file 7 was written, and shows: the file, its pages and its parts.
fn shows_written(parts: WriteParts) -> [bool; 4] {
    let mut lease = WriteLease::of(parts);
    let is_written = writes_all(&mut lease);
    let (file, pages) = (shows_file(&lease), shows_pages(&lease));
    [is_written, file, pages, has_parts(&lease.parts())]
}

#[test]
fn a_write_lease_shows_what_was_written(rt: HostRuntime) {
    let shown = file(rt.alloc(), 7, 20, &[30, 31]).map(shows_written);
    assert!(rt; shown == Some([true; 4]));
}

fn hold() -> HoldLease {
    HoldLease::of(HoldParts {
        lib: LibNo(2),
        ino: 8,
        kind: Kind::Directory,
        entry: 6,
        parent: 7,
        body: [4; 64],
        children: 3,
    })
}

fn fresh_ino() -> FreshIno {
    FreshIno::of(InoParts {
        lib: LibNo(2),
        no: 11,
    })
}

/// Page 50, which begins with 51.
fn fresh_page(page: Page) -> FreshPage {
    let mut fresh = FreshPage::of(FreshParts {
        lib: LibNo(2),
        no: PageNo(50),
        page,
    });
    fresh.page_mut().put_u64(0, 51);
    fresh
}

fn adds_file(bundle: &mut Bundle, file: WriteParts) -> bool {
    match bundle.add_write(WriteLease::of(file)) {
        Ok(()) => true,
        Err((file, _)) => {
            file.discard();
            false
        }
    }
}

fn adds_hold(bundle: &mut Bundle) -> bool {
    match bundle.add_hold(hold()) {
        Ok(()) => true,
        Err((hold, _)) => {
            hold.discard();
            false
        }
    }
}

fn adds_page(bundle: &mut Bundle, page: Page) -> bool {
    match bundle.add_page(fresh_page(page)) {
        Ok(()) => true,
        Err((page, _)) => {
            page.discard();
            false
        }
    }
}

fn adds_ino(bundle: &mut Bundle) -> bool {
    match bundle.add_ino(fresh_ino()) {
        Ok(()) => true,
        Err((ino, _)) => {
            ino.discard();
            false
        }
    }
}

/// Adds one value of each kind, and answers whether each found its place.
fn adds_each(bundle: &mut Bundle, file: WriteParts, page: Page) -> bool {
    adds_file(bundle, file) && adds_hold(bundle) && adds_page(bundle, page) && adds_ino(bundle)
}

fn has_each(bundle: &Bundle) -> bool {
    bundle.writes().len() == 1
        && bundle.writes()[0].ino() == 7
        && bundle.holds().len() == 1
        && bundle.holds()[0].ino() == 8
        && bundle.pages().len() == 1
        && begins(Some(bundle.pages()[0].page()), 51)
        && bundle.inodes().len() == 1
        && bundle.inodes()[0].no() == 11
}

/// Lets a bundle go in parts: what was allotted, and the rest.
fn let_go(alloc: Global, bundle: Bundle) {
    let BundleParts {
        writes,
        holds,
        pages,
        inodes,
    } = bundle.parts();
    Allotted { pages, inodes }.discard();
    Bundle::of(BundleParts {
        writes,
        holds,
        pages: Vec::new(alloc),
        inodes: Vec::new(alloc),
    })
    .discard();
}

/// Whether a bundle with this room has what was added, also after it was taken apart and made again.
fn has_added(alloc: Global, room: u32, file: WriteParts, page: Page) -> bool {
    let mut bundle = Bundle::new(alloc);
    let is_reserved = bundle.reserve(room, room, room, room).is_ok();
    let is_added = adds_each(&mut bundle, file, page);
    let bundle = Bundle::of(bundle.parts());
    let is_so = is_reserved && is_added && has_each(&bundle);
    let_go(alloc, bundle);
    is_so
}

fn is_added_to(alloc: Global, room: u32) -> Option<bool> {
    let file = file(alloc, 7, 20, &[30, 31])?;
    Some(has_added(alloc, room, file, Page::zero(alloc).ok()?))
}

#[test]
fn a_bundle_has_what_was_added(rt: HostRuntime) {
    for room in [0, 1] {
        assert!(rt; is_added_to(rt.alloc(), room) == Some(true), "room {room}");
    }
}

/// The numbers of pages, and whether the bundle of two files has such a page. Both files list page 30, and
/// both allotted pages have the number 50.
const PAGES: &[(u32, bool)] = &[
    (20, true),
    (30, true),
    (40, true),
    (41, true),
    (50, true),
    (60, false),
];

/// Puts its number into each page that there is. Answers whether just those are there.
fn puts_numbers(bundle: &mut Bundle) -> bool {
    let mut all = true;
    for (no, there) in PAGES {
        all = all && put(bundle, *no, u64::from(*no)) == *there;
    }
    all
}

fn is_first(file: &WriteLease) -> bool {
    has(file.index(0), 20)
        && has(file.block(0), 30)
        && has(file.block(1), 0)
        && file.block_touched(0) == Some(true)
        && file.block_touched(1) == Some(false)
}

fn is_second(file: &WriteLease) -> bool {
    has(file.index(0), 40)
        && has(file.block(0), 0)
        && has(file.block(1), 41)
        && file.block_touched(0) == Some(false)
        && file.block_touched(1) == Some(true)
}

/// Whether each number stands in the first page of that number alone.
fn has_numbers(bundle: &Bundle) -> bool {
    bundle.writes().len() == 2
        && is_first(&bundle.writes()[0])
        && is_second(&bundle.writes()[1])
        && bundle.pages().len() == 2
        && has(Some(bundle.pages()[0].page()), 50)
        && has(Some(bundle.pages()[1].page()), 0)
}

/// A bundle of these files and two pages, with two of the rest.
fn bundle_of_two(alloc: Global, first: WriteParts, second: WriteParts) -> Option<Bundle> {
    let page = Page::zero(alloc).ok()?;
    let other = Page::zero(alloc).ok()?;
    let mut bundle = Bundle::new(alloc);
    if adds_each(&mut bundle, first, page) && adds_each(&mut bundle, second, other) {
        Some(bundle)
    } else {
        bundle.discard();
        None
    }
}

fn two_of_each(alloc: Global) -> Option<Bundle> {
    let first = file(alloc, 7, 20, &[30, 31])?;
    bundle_of_two(alloc, first, file(alloc, 8, 40, &[30, 41])?)
}

fn are_found(alloc: Global) -> Option<bool> {
    let mut bundle = two_of_each(alloc)?;
    let is_so = puts_numbers(&mut bundle) && has_numbers(&bundle);
    bundle.discard();
    Some(is_so)
}

#[test]
fn a_bundle_finds_its_pages_by_their_numbers(rt: HostRuntime) {
    assert!(rt; are_found(rt.alloc()) == Some(true));
}
