//! What a bundle is as it is handed in.

use crate::handed::{Parts, bundle_of};
use std::alloc::Global;
use trio_case::BundleSize;
use trio_entries::handed::copied;
use trio_entries::{Draft, DraftMemory};
use trio_lease::{Bundle, FreshParts, HoldParts, InoParts, LentPage, WriteParts};
use trio_nodes::{Handed, HandedHead, HandedPage};
use trio_page::{NoMemory, Page, PageNo};
use trio_rights::{Kind, LibNo};

/// A page that begins with its number.
fn numbered(alloc: Global, no: u32) -> Option<Page> {
    let mut page = Page::zero(alloc).ok()?;
    page.put_u64(0, u64::from(no));
    Some(page)
}

fn lent_pages(alloc: Global, numbers: &[u32]) -> Option<Vec<LentPage>> {
    let mut pages = Vec::new(alloc);
    for no in numbers {
        let page = numbered(alloc, *no)?;
        let (no, touched) = (PageNo(*no), false);
        pages.push(LentPage { no, page, touched }).ok()?;
    }
    Some(pages)
}

fn file(alloc: Global) -> Option<WriteParts> {
    let index = lent_pages(alloc, &[20])?;
    let blocks = lent_pages(alloc, &[30, 31])?;
    Some(WriteParts {
        lib: LibNo(2),
        ino: 7,
        kind: Kind::Regular,
        entry: 5,
        body: [9; 64],
        index,
        blocks,
    })
}

fn hold() -> HoldParts {
    HoldParts {
        lib: LibNo(2),
        ino: 8,
        kind: Kind::Directory,
        entry: 6,
        parent: 7,
        body: [4; 64],
        children: 3,
    }
}

fn number() -> InoParts {
    InoParts {
        lib: LibNo(2),
        no: 11,
    }
}

fn fresh(alloc: Global) -> Option<FreshParts> {
    Some(FreshParts {
        lib: LibNo(2),
        no: PageNo(50),
        page: numbered(alloc, 50)?,
    })
}

fn with_all(alloc: Global, mut parts: Parts) -> Option<Parts> {
    parts.writes.push(file(alloc)?).ok()?;
    parts.holds.push(hold()).ok()?;
    parts.pages.push(fresh(alloc)?).ok()?;
    parts.inodes.push(number()).ok()?;
    Some(parts)
}

/// File 7 with index page 20 and blocks 30 and 31, of which the second is written, a hold, page 50 and
/// inode number 11.
fn bundle(alloc: Global) -> Option<Bundle> {
    let parts = with_all(alloc, Parts::none(alloc))?;
    let mut bundle = bundle_of(alloc, parts)?;
    if let Some(page) = bundle.page_mut(PageNo(31)) {
        page.put_u64(0, 99);
    }
    Some(bundle)
}

/// Whether a page has this number and mark, and begins with this byte.
fn is_page(page: Option<&HandedPage>, no: u32, first: u8, touched: bool) -> bool {
    match page {
        Some(page) => {
            let bytes = page.bytes.as_slice();
            let begins = bytes.len() == 4096 && bytes.starts_with(&[first]);
            page.no == no && page.touched == touched && begins
        }
        None => false,
    }
}

fn is_head(head: &HandedHead) -> bool {
    head.ino == 7
        && head.kind == Kind::Regular
        && head.body == [9; 64]
        && head.index == 1
        && head.blocks == 2
}

fn are_pages(pages: &[HandedPage]) -> bool {
    pages.len() == 4
        && is_page(pages.get(0), 20, 20, false)
        && is_page(pages.get(1), 30, 30, false)
        && is_page(pages.get(2), 31, 99, true)
        && is_page(pages.get(3), 50, 50, false)
}

fn is_whole(handed: &Handed) -> bool {
    let heads = handed.heads();
    heads.len() == 1
        && is_head(&heads[0])
        && handed.holds() == [8].as_slice()
        && are_pages(handed.pages())
        && handed.numbers() == [11].as_slice()
}

fn is_copied(alloc: Global) -> Option<bool> {
    let bundle = bundle(alloc)?;
    let handed = copied(alloc, &bundle);
    bundle.discard();
    Some(is_whole(&handed.ok()?))
}

#[test]
fn a_bundle_is_copied_with_its_marks(rt: HostRuntime) {
    assert!(rt; is_copied(rt.alloc()) == Some(true));
}

/// A draft that was begun for a bundle.
fn draft_of(alloc: Global, bundle: &Bundle) -> Result<Draft, NoMemory> {
    let size = BundleSize::of(bundle)?;
    let memory = DraftMemory::with(alloc, size)?;
    Ok(Draft::begun(memory, bundle))
}

/// Whether a draft that was begun for a bundle is of it after one of its pages was written.
fn is_same(alloc: Global) -> Option<bool> {
    let mut bundle = bundle(alloc)?;
    let draft = draft_of(alloc, &bundle).ok();
    if let Some(page) = bundle.page_mut(PageNo(30)) {
        page.put_u64(0, 98);
    }
    let same = draft.map(|draft| draft.is_of(&bundle));
    bundle.discard();
    same
}

/// Whether a draft that was begun for an empty bundle is of one that is not.
fn is_other(alloc: Global) -> Option<bool> {
    let empty = bundle_of(alloc, Parts::none(alloc))?;
    let draft = draft_of(alloc, &empty).ok();
    empty.discard();
    let bundle = bundle(alloc)?;
    let other = draft.map(|draft| draft.is_of(&bundle));
    bundle.discard();
    other
}

#[test]
fn a_draft_is_of_its_bundle_whatever_is_written(rt: HostRuntime) {
    assert!(rt; is_same(rt.alloc()) == Some(true));
}

#[test]
fn a_draft_is_of_no_other_bundle(rt: HostRuntime) {
    assert!(rt; is_other(rt.alloc()) == Some(false));
}
