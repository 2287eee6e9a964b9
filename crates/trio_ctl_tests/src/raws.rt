//! What a library that nobody trusts does with files that it was lent, a hold, and an allotted page and
//! inode number: which bytes it writes and sees, and what it may name.

ghost use Rattle.std.specs.Prelude.{◌≡◌, length};
ghost use Rattle.trio_raw.specs.Has.{OnList};

use crate::controllers::{Trial, passes};
use crate::images::Start;
use crate::noting::{NONE, NotingDesk, Numbers};
use std::alloc::Global;
use trio_ctl::{Ctl, PlainDesk};
use trio_desk::Desk;
use trio_nodes::{AllotAnswer, GrantKind, ReleaseAnswer, Spot};
use trio_raw::{Absent, Raw, RawFault};
use trio_rights::LibNo;

/// Takes the root, `f` and `g` for writing.
fn takes_files<D: Desk>(raw: &mut Raw, desk: &mut D) -> bool
    requires { OnList (D.seen desk.old).out raw.old.has }
    ensures { OnList (D.seen desk.new).out raw.new.has }
{
    raw.grant(desk, 1, GrantKind::Write) == Ok(0)
        && raw.grant(desk, 2, GrantKind::Write) == Ok(0)
        && raw.grant(desk, 3, GrantKind::Write) == Ok(0)
}

/// Takes `h` for reading and holds `d`.
fn takes_others<D: Desk>(raw: &mut Raw, desk: &mut D) -> bool
    requires { OnList (D.seen desk.old).out raw.old.has }
    ensures { OnList (D.seen desk.new).out raw.new.has }
{
    raw.grant(desk, 4, GrantKind::Read) == Ok(0) && raw.grant(desk, 5, GrantKind::Hold) == Ok(0)
}

/// Is allotted page 13 and the inode number 6.
fn is_allotted<D: Desk>(raw: &mut Raw, desk: &mut D) -> bool
    requires { OnList (D.seen desk.old).out raw.old.has }
    ensures { OnList (D.seen desk.new).out raw.new.has }
{
    match raw.allot(desk, 1, 1) {
        Ok(AllotAnswer::Given { pages, inodes }) => {
            pages.as_slice() == [13].as_slice() && inodes.as_slice() == [6].as_slice()
        }
        _ => false,
    }
}

/// Bytes that are written at a spot, from an offset on, and whether they stay within it.
type Poke = (Spot, u32, &'static [u8], bool);

/// The first of these bytes and how many there are; `None` where they leave the spot.
type Shown = Option<(u8, usize)>;

/// A spot, an offset and a length, and the bytes that stand there.
type Peek = (Spot, u32, u32, Shown);

/// Files, pages and inode numbers that are named.
type Names = (&'static [u32], &'static [u32], &'static [u32]);

/// What the library does with all of it, in [`Start::LongFiles`].
#[derive(Clone, Copy)]
enum Deed {
    /// It writes, and then looks.
    Writes(&'static [Poke], &'static [Peek]),
    /// It names what it hasn't, or hasn't twice.
    Misnames(Names),
    /// It writes into `f`, and names it with the hold and without the root, so all of it comes back;
    /// then it gives `h` back, once.
    Parts,
    /// The same; then it hands the hold in with the root, and the rest after that.
    HandsIn,
}

fn seen(bytes: Option<&[u8]>) -> Shown {
    let bytes = bytes?;
    Some((*bytes.get(0)?, bytes.len()))
}

fn are_poked(raw: &mut Raw, pokes: &[Poke]) -> bool {
    let mut all = true;
    for (at, offset, bytes, within) in pokes {
        all = all && raw.poke(*at, *offset, bytes) == *within;
    }
    all
}

fn are_seen(raw: &Raw, peeks: &[Peek]) -> bool {
    let mut all = true;
    for (at, offset, len, wanted) in peeks {
        all = all && seen(raw.peek(*at, *offset, *len)) == *wanted;
    }
    all
}

fn is_absent<D: Desk>(raw: &mut Raw, desk: &mut D, names: Names) -> bool
    requires { OnList (D.seen desk.old).out raw.old.has }
    ensures { OnList (D.seen desk.new).out raw.new.has }
{
    let (inos, pages, inodes) = names;
    raw.release(desk, inos, pages, inodes) == Err(RawFault::Absent)
}

fn is_given_back<D: Desk>(raw: &mut Raw, desk: &mut D) -> bool
    requires { OnList (D.seen desk.old).out raw.old.has }
    ensures { OnList (D.seen desk.new).out raw.new.has }
{
    raw.back(desk, 4).is_ok() && raw.back(desk, 4) == Err(Absent)
}

fn is_parted<D: Desk>(raw: &mut Raw, desk: &mut D) -> bool
    requires { OnList (D.seen desk.old).out raw.old.has }
    ensures { OnList (D.seen desk.new).out raw.new.has }
{
    raw.poke(Spot::Block(2, 0), 0, &[1])
        && raw.release(desk, &[5, 2], &[13], &[]) == Err(RawFault::NotClosed(5))
        && is_given_back(raw, desk)
}

fn is_accepted<D: Desk>(raw: &mut Raw, desk: &mut D, names: Names) -> bool
    requires { OnList (D.seen desk.old).out raw.old.has }
    ensures { OnList (D.seen desk.new).out raw.new.has }
{
    let (inos, pages, inodes) = names;
    raw.release(desk, inos, pages, inodes) == Ok(ReleaseAnswer::Accepted)
}

/// Whether the root, the hold and the page are there no more once they are handed in, and the rest is.
fn is_handed_in<D: Desk>(raw: &mut Raw, desk: &mut D) -> bool
    requires { OnList (D.seen desk.old).out raw.old.has }
{
    is_parted(raw, desk)
        && is_accepted(raw, desk, (&[5, 1], &[13], &[]))
        && is_absent(raw, desk, (&[1], &[], &[]))
        && is_absent(raw, desk, (&[5], &[], &[]))
        && is_absent(raw, desk, (&[2], &[13], &[]))
        && is_accepted(raw, desk, (&[3, 2], &[], &[6]))
}

/// Whether the library is given all that there is, and then does so.
fn is_done<D: Desk>(raw: &mut Raw, desk: &mut D, deed: Deed) -> bool
    requires { OnList (D.seen desk.old).out raw.old.has }
{
    if !takes_files(raw, desk) || !takes_others(raw, desk) || !is_allotted(raw, desk) {
        return false;
    }
    match deed {
        Deed::Writes(pokes, peeks) => are_poked(raw, pokes) && are_seen(raw, peeks),
        Deed::Misnames(names) => is_absent(raw, desk, names),
        Deed::Parts => is_parted(raw, desk),
        Deed::HandsIn => is_handed_in(raw, desk),
    }
}

fn plays<D: Desk>(alloc: Global, desk: &mut D, deed: Deed) -> bool {
    let mut raw = Raw::new(alloc, LibNo(1));
    let told = is_done(&mut raw, desk, deed);
    raw.discard();
    told
}

/// The file `f`, its first block marked; the hold and the page.
const PARTED: Numbers = ([1, 1, 2, 1], [0; 4], [5, 13, 0, 0, 0]);

/// The root, and what came back of that.
const TOGETHER: Numbers = ([1, 0, 1, 0], [0; 4], [5, 13, 0, 0, 0]);

/// The file `g`, and `f`, which came back; and the inode number.
const REST: Numbers = ([1, 2, 3, 0], [1, 1, 2, 1], [0, 0, 0, 6, 0]);

/// The bundles that its desk is handed in then, whether it takes them or not. Each file is the first
/// library's, by the grant that made the entry of this number.
fn bundles(deed: Deed) -> [Numbers; 4] {
    match deed {
        Deed::Writes(_, _) | Deed::Misnames(_) => [NONE; 4],
        Deed::Parts => [PARTED, NONE, NONE, NONE],
        Deed::HandsIn => [PARTED, TOGETHER, REST, NONE],
    }
}

fn hands_in<D: Desk>(alloc: Global, desk: &mut D, deed: Deed) -> bool {
    let mut noting = NotingDesk::before(desk);
    plays(alloc, &mut noting, deed) && noting.handed() == bundles(deed)
}

impl Trial for Deed {
    fn passes(&self, alloc: Global, ctl: &mut Ctl) -> bool {
        let mut desk = PlainDesk::of(ctl, LibNo(1));
        hands_in(alloc, &mut desk, *self)
    }
}

const DEEDS: &[Deed] = &[
    // bytes stay within their spot: the body
    Deed::Writes(
        &[
            (Spot::Body(3), 0, &[1], true),
            (Spot::Body(3), 62, &[3, 2], true),
            (Spot::Body(3), 64, &[], true),
            (Spot::Body(3), 64, &[4], false),
            (Spot::Body(3), 63, &[4, 4], false),
            (Spot::Body(3), u32::MAX, &[4], false),
        ],
        &[
            (Spot::Body(3), 0, 64, Some((1, 64))),
            (Spot::Body(3), 63, 1, Some((2, 1))),
            (Spot::Body(2), 0, 64, Some((0xa4, 64))),
        ],
    ),
    // the index page
    Deed::Writes(
        &[
            (Spot::Index(3, 0), 0, &[1], true),
            (Spot::Index(3, 0), 4094, &[3, 2], true),
            (Spot::Index(3, 0), 4096, &[], true),
            (Spot::Index(3, 0), 4096, &[4], false),
            (Spot::Index(3, 0), 4095, &[4, 4], false),
            (Spot::Index(3, 0), u32::MAX, &[4], false),
        ],
        &[
            (Spot::Index(3, 0), 0, 4096, Some((1, 4096))),
            (Spot::Index(3, 0), 4095, 1, Some((2, 1))),
        ],
    ),
    // the second block, and not the first
    Deed::Writes(
        &[
            (Spot::Block(3, 1), 0, &[1], true),
            (Spot::Block(3, 1), 4094, &[3, 2], true),
            (Spot::Block(3, 1), 4096, &[], true),
            (Spot::Block(3, 1), 4096, &[4], false),
            (Spot::Block(3, 1), 4095, &[4, 4], false),
            (Spot::Block(3, 1), u32::MAX, &[4], false),
        ],
        &[
            (Spot::Block(3, 1), 0, 4096, Some((1, 4096))),
            (Spot::Block(3, 1), 4095, 1, Some((2, 1))),
            (Spot::Block(3, 0), 0, 4096, Some((b'x', 4096))),
        ],
    ),
    // the allotted page
    Deed::Writes(
        &[
            (Spot::Fresh(13), 0, &[1], true),
            (Spot::Fresh(13), 4094, &[3, 2], true),
            (Spot::Fresh(13), 4096, &[], true),
            (Spot::Fresh(13), 4096, &[4], false),
            (Spot::Fresh(13), 4095, &[4, 4], false),
            (Spot::Fresh(13), u32::MAX, &[4], false),
        ],
        &[
            (Spot::Fresh(13), 0, 4096, Some((1, 4096))),
            (Spot::Fresh(13), 4095, 1, Some((2, 1))),
        ],
    ),
    // nothing is written into what it hasn't for writing, not even no bytes
    Deed::Writes(
        &[
            (Spot::Body(9), 0, &[1], false),
            (Spot::Body(9), 0, &[], false),
            (Spot::Index(2, 1), 0, &[1], false),
            (Spot::Index(2, 1), 0, &[], false),
            (Spot::Block(2, 2), 0, &[1], false),
            (Spot::Block(2, 2), 0, &[], false),
            (Spot::Body(4), 0, &[1], false),
            (Spot::Body(4), 0, &[], false),
            (Spot::Body(5), 0, &[1], false),
            (Spot::Body(5), 0, &[], false),
            (Spot::Fresh(9), 0, &[1], false),
            (Spot::Fresh(9), 0, &[], false),
        ],
        &[],
    ),
    // each lease shows what it has
    Deed::Writes(
        &[
            (Spot::Body(2), 63, &[1], true),
            (Spot::Index(3, 0), 1, &[2], true),
            (Spot::Block(2, 1), 4095, &[3], true),
            (Spot::Fresh(13), 9, &[4], true),
        ],
        &[
            (Spot::Body(2), 63, 1, Some((1, 1))),
            (Spot::Index(3, 0), 1, 4095, Some((2, 4095))),
            (Spot::Block(2, 1), 4095, 1, Some((3, 1))),
            (Spot::Fresh(13), 9, 2, Some((4, 2))),
            (Spot::Body(4), 0, 64, Some((0xa4, 64))),
            (Spot::Index(4, 0), 0, 4096, Some((12, 4096))),
            (Spot::Block(4, 0), 0, 4096, Some((b'h', 4096))),
            (Spot::Body(5), 0, 64, Some((0xed, 64))),
            (Spot::Body(5), 60, 4, Some((0, 4))),
            (Spot::Body(2), 63, 2, None),
            (Spot::Body(4), 0, 65, None),
            (Spot::Block(2, 1), u32::MAX, u32::MAX, None),
            (Spot::Index(5, 0), 0, 1, None),
            (Spot::Block(5, 0), 0, 1, None),
            (Spot::Block(4, 1), 0, 1, None),
            (Spot::Body(9), 0, 1, None),
            (Spot::Fresh(9), 0, 1, None),
        ],
    ),
    // a file that it hasn't, and one that it only reads
    Deed::Misnames((&[9], &[], &[])),
    Deed::Misnames((&[4], &[], &[])),
    // a page and a number that it hasn't
    Deed::Misnames((&[2], &[14], &[])),
    Deed::Misnames((&[2], &[13], &[7])),
    // what it has, twice
    Deed::Misnames((&[2, 2], &[], &[])),
    Deed::Misnames((&[5, 2, 5], &[], &[])),
    Deed::Parts,
    Deed::HandsIn,
];

#[test]
fn a_library_has_what_it_was_lent(rt: HostRuntime) {
    for (i, deed) in DEEDS.iter().enumerate() {
        assert!(rt; passes(rt.alloc(), Start::LongFiles, 0, deed), "row {i}");
    }
}
