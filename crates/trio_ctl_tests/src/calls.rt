//! The controller's calls, each run with ample memory.

ghost use Rattle.std.specs.Prelude.{◌≡◌, [], length};
ghost use Rattle.trio_ctl.specs.HandedIn.{WereLent};

use crate::controllers::{Trial, allotted, asked, lent, passes, stores};
use crate::images::Start;
use crate::looks::released;
use crate::moves::{taken, taken_file};
use std::alloc::Global;
use trio_ctl::{Ctl, ImageFault};
use trio_image::Counts;
use trio_lease::{Allotted, Bundle, Lease, WriteLease};
use trio_nodes::{GrantFault, GrantKind, Holder};
use trio_page::PageNo;
use trio_page::field::all_zero;
use trio_rights::LibNo;

const EMPTY: Counts = Counts {
    inodes: 1,
    pages: 0,
    free: 29,
};

const WITH_DIRECTORY: Counts = Counts {
    inodes: 2,
    pages: 2,
    free: 27,
};

/// The name of an image, the image, and its counts.
const STORED: &[(&str, Start, Counts)] = &[
    ("an empty root", Start::Empty, EMPTY),
    ("one directory", Start::OneDirectory, WITH_DIRECTORY),
];

#[test]
fn the_settled_image_is_stored_again(rt: HostRuntime) {
    for (name, start, counts) in STORED {
        assert!(rt;
            passes(rt.alloc(), *start, 5, &Deed::Stores(*start, *counts)),
            "{name}"
        );
    }
}

/// Whether the first library asks, the file, and what it is asked for.
type Request = (bool, u32, GrantKind);

/// A request, and what is told.
struct Asking {
    name: &'static str,
    start: Start,
    /// That of the first library.
    uid: u32,
    /// What is asked for and granted before.
    before: Option<Request>,
    request: Request,
    /// `Ok` with the children that a hold tells.
    told: Result<u32, GrantFault>,
}

const BUSY_READ: Result<u32, GrantFault> = Err(GrantFault::Busy(Holder {
    lib: LibNo(1),
    kind: GrantKind::Read,
    entry: 0,
}));

const BUSY_WRITE: Result<u32, GrantFault> = Err(GrantFault::Busy(Holder {
    lib: LibNo(1),
    kind: GrantKind::Write,
    entry: 0,
}));

const ALONE: &[Asking] = &[
    Asking {
        name: "a number that isn't live",
        start: Start::OneDirectory,
        uid: 0,
        before: None,
        request: (true, 3, GrantKind::Write),
        told: Err(GrantFault::NotLive),
    },
    Asking {
        name: "a file of another user",
        start: Start::OneDirectory,
        uid: 5,
        before: None,
        request: (true, 2, GrantKind::Write),
        told: Err(GrantFault::Denied(2)),
    },
    Asking {
        name: "the root, which is another user's",
        start: Start::OneDirectory,
        uid: 5,
        before: None,
        request: (true, 1, GrantKind::Write),
        told: Err(GrantFault::Denied(1)),
    },
];

const BESIDE: &[Asking] = &[
    Asking {
        name: "a reader beside a reader",
        start: Start::OneFile,
        uid: 0,
        before: Some((true, 3, GrantKind::Read)),
        request: (false, 3, GrantKind::Read),
        told: Ok(0),
    },
    Asking {
        name: "a file that the library reads already",
        start: Start::OneFile,
        uid: 0,
        before: Some((true, 3, GrantKind::Read)),
        request: (true, 3, GrantKind::Read),
        told: BUSY_READ,
    },
    Asking {
        name: "a writer beside a reader",
        start: Start::OneFile,
        uid: 0,
        before: Some((true, 3, GrantKind::Read)),
        request: (false, 3, GrantKind::Write),
        told: BUSY_READ,
    },
    Asking {
        name: "a writer beside a writer",
        start: Start::OneFile,
        uid: 0,
        before: Some((true, 3, GrantKind::Write)),
        request: (false, 3, GrantKind::Write),
        told: BUSY_WRITE,
    },
    Asking {
        name: "a hold where the library writes the directory above",
        start: Start::OneFile,
        uid: 0,
        before: Some((true, 1, GrantKind::Write)),
        request: (true, 2, GrantKind::Hold),
        told: Ok(1),
    },
    Asking {
        name: "a hold where another library writes the directory above",
        start: Start::OneFile,
        uid: 0,
        before: Some((false, 1, GrantKind::Write)),
        request: (true, 2, GrantKind::Hold),
        told: Err(GrantFault::NoParent),
    },
];

// Whether what is asked for before, if anything, is granted.
fn is_granted(ctl: &mut Ctl, before: Option<Request>) -> bool
    requires { length ctl.old.state.creds ≡ 2 }
    ensures { length ctl.new.state.creds ≡ 2 }
{
    match before {
        Some((is_first, ino, kind)) => is_lent_for(ctl, is_first, ino, kind),
        None => true,
    }
}

fn is_lent_for(ctl: &mut Ctl, is_first: bool, ino: u32, kind: GrantKind) -> bool
    requires { length ctl.old.state.creds ≡ 2 }
    ensures { length ctl.new.state.creds ≡ 2 }
{
    match asked(ctl, is_first, ino, kind) {
        Some(told) => told.is_ok(),
        None => false,
    }
}

fn told(ctl: &mut Ctl, row: &Asking) -> Option<Result<u32, GrantFault>>
    requires { length ctl.old.state.creds ≡ 2 }
{
    if !is_granted(ctl, row.before) {
        return None;
    }
    let (is_first, ino, kind) = row.request;
    asked(ctl, is_first, ino, kind)
}

// Whether the directory 2 is lent as the first library asked for it.
fn is_lent(ctl: &mut Ctl) -> Option<bool>
    requires { length ctl.old.state.creds ≡ 2 }
{
    let lease = lent(ctl, true, 2, GrantKind::Write)?;
    let is_so = is_directory(&lease);
    lease.discard();
    Some(is_so)
}

fn is_directory(lease: &Lease) -> bool {
    match lease {
        Lease::Write(lease) => (lease.ino(), lease.lib().0, lease.entry()) == (2, 1, 0),
        Lease::Read(_) | Lease::Hold(_) => false,
    }
}

#[test]
fn files_are_lent_or_refused(rt: HostRuntime) {
    for row in ALONE {
        assert!(rt;
            passes(rt.alloc(), row.start, row.uid, &Deed::Asks(row)),
            "{}",
            row.name
        );
    }
    assert!(rt; passes(rt.alloc(), Start::OneDirectory, 0, &Deed::TakesDirectory));
}

#[test]
fn grants_stand_beside_each_other_or_not(rt: HostRuntime) {
    for row in BESIDE {
        assert!(rt;
            passes(rt.alloc(), row.start, row.uid, &Deed::Asks(row)),
            "{}",
            row.name
        );
    }
}

// Whether the root is lent: its index page names its block, in which the entry of `a` stands.
fn root_is_lent(ctl: &mut Ctl) -> bool
    requires { length ctl.old.state.creds ≡ 2 }
{
    match lent(ctl, true, 1, GrantKind::Write) {
        Some(lease) => is_root_lent(lease),
        None => false,
    }
}

fn is_root_lent(lease: Lease) -> bool {
    let is_so = match &lease {
        Lease::Write(lease) => is_root(lease),
        Lease::Read(_) | Lease::Hold(_) => false,
    };
    lease.discard();
    is_so
}

fn is_root(lease: &WriteLease) -> bool {
    let (Some(index), Some(block)) = (lease.index(0), lease.block(0)) else {
        return false;
    };
    let numbers = (lease.index_no(0), lease.block_no(0), lease.block_no(1));
    let is_there = numbers == (Some(PageNo(3)), Some(PageNo(4)), None);
    is_there && index.u32_at(0) == 4 && block.u32_at(0) == 2
}

// Whether nobody is told an image while the first library writes by the grant of this entry.
fn waits_for(ctl: &mut Ctl, entry: u64) -> bool {
    let holder = Holder {
        lib: LibNo(1),
        kind: GrantKind::Write,
        entry,
    };
    ctl.image().err() == Some(ImageFault::Busy(holder))
}

#[test]
fn what_is_lent_has_left_home(rt: HostRuntime) {
    assert!(rt; passes(rt.alloc(), Start::OneDirectory, 0, &Deed::TakesRoot));
}

// Whether just these pages were allotted, and all of them are all zero.
fn has_pages(given: &Allotted, numbers: &[u32]) -> bool {
    for (i, page) in given.pages.iter().enumerate() {
        let number = page.no().0;
        if numbers.get(i) != Some(&number) || !all_zero(page.page().bytes()) {
            return false;
        }
    }
    given.pages.len() == numbers.len()
}

fn has_inodes(given: &Allotted, numbers: &[u32]) -> bool {
    for (i, inode) in given.inodes.iter().enumerate() {
        let number = inode.no();
        if numbers.get(i) != Some(&number) {
            return false;
        }
    }
    given.inodes.len() == numbers.len()
}

// Whether the lowest that are free are allotted: pages 3 and 4 are the root's, and the numbers 1 and 2
// are live.
fn allots_the_lowest(ctl: &mut Ctl) -> bool
    requires { length ctl.old.state.creds ≡ 2 }
{
    match allotted(ctl, true, 2, 1) {
        Some(given) => are_the_lowest(given),
        None => false,
    }
}

fn are_the_lowest(given: Allotted) -> bool {
    let is_so = has_pages(&given, &[5, 6]) && has_inodes(&given, &[3]);
    given.discard();
    is_so
}

#[test]
fn the_lowest_free_are_allotted(rt: HostRuntime) {
    assert!(rt; passes(rt.alloc(), Start::LeftBytes, 5, &Deed::IsAllotted));
}

// Whether the file is asked for in vain by the number 9, and then lent for writing.
fn asks_twice(ctl: &mut Ctl) -> bool
    requires { length ctl.old.state.creds ≡ 2 }
{
    let first = asked(ctl, true, 9, GrantKind::Write);
    let second = asked(ctl, true, 3, GrantKind::Write);
    first == Some(Err(GrantFault::NotLive)) && second == Some(Ok(0))
}

#[test]
fn an_image_waits_for_the_writer(rt: HostRuntime) {
    assert!(rt; passes(rt.alloc(), Start::OneFile, 0, &Deed::AsksTwice));
}

// What a release of the file `f` needs.
fn room_of_file(alloc: Global, ctl: &mut Ctl) -> Option<u64>
    requires { length ctl.old.state.creds ≡ 2 }
{
    let bundle = taken_file(alloc, ctl)?;
    let room = room_where_it_belongs(ctl, &bundle);
    bundle.discard();
    room
}

fn room_where_it_belongs(ctl: &Ctl, bundle: &Bundle) -> Option<u64>
    requires { length ctl.now.state.creds ≡ 2 }
{
    if ctl.belongs(LibNo(1), bundle) {
        Some(ctl.room(bundle))
    } else {
        None
    }
}

// Makes room for a release of a bundle of the first library's. Whether there is room then.
fn has_room(ctl: &mut Ctl, bundle: &Bundle) -> bool
    requires { length ctl.old.state.creds ≡ 2 }
    ensures { ctl.new.state ≡ ctl.old.state }
{
    match room_where_it_belongs(ctl, bundle) {
        Some(room) => ctl.make_room(1, room).is_ok(),
        None => false,
    }
}

fn is_accepted(ctl: &mut Ctl, bundle: Bundle) -> bool
    requires two { length ctl.old.state.creds ≡ 2 }
    requires holds { bundle.holds ≡ [] }
    requires lent { WereLent ctl.old.state 1 bundle.writes }
{
    match released(ctl, bundle) {
        Some(looks) => looks.is_accepted,
        None => false,
    }
}

// Whether the release of the file `f` is accepted once there is room for it; `None` where memory was
// wanting before.
fn is_accepted_with_room(alloc: Global, ctl: &mut Ctl) -> Option<bool>
    requires { length ctl.old.state.creds ≡ 2 }
{
    let bundle = taken(alloc, ctl, 3)?;
    if !has_room(ctl, &bundle) {
        bundle.discard();
        return None;
    }
    Some(is_accepted(ctl, bundle))
}

#[test]
fn room_is_told_and_made(rt: HostRuntime) {
    assert!(rt; passes(rt.alloc(), Start::OneFile, 0, &Deed::TellsRoom));
    assert!(rt; passes(rt.alloc(), Start::OneFile, 0, &Deed::ReleasesWithRoom));
}

// Whichever allocation fails, a release that has room is answered as it is with ample memory.
#[test]
fn a_release_with_room_lacks_no_memory(rt: HostRuntime) {
    assert!(rt; !passes(rt.alloc(), Start::OneFile, 0, &Deed::LacksMemoryWithRoom));
}

/// What is done with a controller that has just started.
#[derive(Clone, Copy)]
enum Deed {
    /// The settled image is as it was.
    Stores(Start, Counts),
    Asks(&'static Asking),
    TakesDirectory,
    /// An image waits for the writer of the root then.
    TakesRoot,
    /// In the settled image what is allotted is all zero, of which one page had bytes that nobody owned.
    IsAllotted,
    /// An image waits for the writer of the file then.
    AsksTwice,
    /// 4 bytes for each of 32 pages and 64 numbers, 16384 for each of two pages, and 1024 for the release
    /// and for its lease.
    TellsRoom,
    ReleasesWithRoom,
    /// A release isn't accepted though there is room.
    LacksMemoryWithRoom,
}

impl Trial for Deed {
    fn passes(&self, alloc: Global, ctl: &mut Ctl) -> bool {
        match self {
            Deed::Stores(start, counts) => stores(alloc, ctl, *start, *counts),
            Deed::Asks(row) => told(ctl, row) == Some(row.told),
            Deed::TakesDirectory => is_lent(ctl) == Some(true),
            Deed::TakesRoot => root_is_lent(ctl) && waits_for(ctl, 0),
            Deed::IsAllotted => {
                allots_the_lowest(ctl) && stores(alloc, ctl, Start::OneDirectory, WITH_DIRECTORY)
            }
            Deed::AsksTwice => asks_twice(ctl) && waits_for(ctl, 1),
            Deed::TellsRoom => room_of_file(alloc, ctl) == Some(35_200),
            Deed::ReleasesWithRoom => is_accepted_with_room(alloc, ctl) == Some(true),
            Deed::LacksMemoryWithRoom => is_accepted_with_room(alloc, ctl) == Some(false),
        }
    }
}
