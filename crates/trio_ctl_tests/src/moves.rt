//! Releases in two moves: in which order they end, and what is done between the moves.

ghost use Rattle.std.specs.Prelude.{◌≡◌, ◌∷◌, [], IfSome, IsTrue, Ok, length};
ghost use Rattle.trio_lease.specs.declared.lease.Lease.TheVariants.{Write};
ghost use Rattle.trio_ctl.specs.HandedIn.{AreMarked, WasLentAs, WereLent};
ghost use Rattle.trio_entries.specs.Handed.{handed_in};
ghost use Rattle.trio_ctl_tests.specs.Leases.{AreAllTouched, AreLentAlike};

use crate::controllers::{Trial, allotted, asked, lent, passes, started, stores};
use crate::images::Start;
use std::alloc::Global;
use trio_ctl::desk_laws::lent_is_marked;
use trio_ctl::{Ctl, Judged, Pending, copied};
use trio_image::Counts;
use trio_lease::{Allotted, Bundle, HoldLease, Lease, WriteLease};
use trio_names::Path;
use trio_nodes::{GrantFault, GrantKind, Handed, Holder, Nodes, ReleaseAnswer};
use trio_page::{NoMemory, PageNo, Reads};
use trio_rights::LibNo;
use trio_samples::put;

/// The number of a page, a place in it, and the bytes that are written there.
type Poke = (u32, usize, &'static [u8]);

/// What one library does to move a directory: it takes the directory that lists it and the one below
/// which it goes for writing, holds it, has two pages allotted, and writes.
struct Shift {
    is_first: bool,
    from: u32,
    held: u32,
    to: u32,
    /// What is written into the body of the directory below which it goes, from byte 12 on: its first
    /// index page, and its size.
    body: &'static [u8],
    pokes: &'static [Poke],
}

/// `/a/p` goes below `/b/q/q1`.
const FIRST: Shift = Shift {
    is_first: true,
    from: 2,
    held: 4,
    to: 7,
    body: &[13, 0, 0, 0, 0, 16, 0, 0, 0, 0, 0, 0],
    pokes: &[
        (6, 0, &[0, 0, 0, 0]),
        (13, 0, &[14, 0, 0, 0, 0, 0, 0, 0]),
        (14, 0, b"\x04\0\0\0\x02\x01\0\0p"),
        (
            14,
            192,
            b"\xed\x01\0\0\0\0\0\0\0\0\0\0\x07\0\0\0\0\x10\0\0\0\0\0\0",
        ),
    ],
};

/// `/b/q` goes below `/a/p/p1`.
const SECOND: Shift = Shift {
    is_first: false,
    from: 3,
    held: 6,
    to: 5,
    body: &[15, 0, 0, 0, 0, 16, 0, 0, 0, 0, 0, 0],
    pokes: &[
        (10, 0, &[0, 0, 0, 0]),
        (15, 0, &[16, 0, 0, 0, 0, 0, 0, 0]),
        (16, 0, b"\x06\0\0\0\x02\x01\0\0q"),
        (
            16,
            192,
            b"\xed\x01\0\0\0\0\0\0\0\0\0\0\x0b\0\0\0\0\x10\0\0\0\0\0\0",
        ),
    ],
};

// Adds a lease to write a file, with these bytes in its body from byte 12 on, or to hold it.
fn add_lease(bundle: &mut Bundle, lease: Lease, body: &[u8]) -> bool {
    match lease {
        Lease::Write(lease) => add_written(bundle, lease, body),
        Lease::Hold(lease) => add_hold(bundle, lease),
        Lease::Read(lease) => {
            lease.discard();
            false
        }
    }
}

fn add_written(bundle: &mut Bundle, mut lease: WriteLease, body: &[u8]) -> bool {
    put(lease.body_mut(), 12, body);
    match bundle.add_write(lease) {
        Ok(()) => true,
        Err((lease, _)) => {
            lease.discard();
            false
        }
    }
}

fn add_hold(bundle: &mut Bundle, lease: HoldLease) -> bool {
    match bundle.add_hold(lease) {
        Ok(()) => true,
        Err((lease, _)) => {
            lease.discard();
            false
        }
    }
}

// Adds allotted pages to a bundle. Whether there was memory for all of them.
fn add_pages(bundle: &mut Bundle, mut given: Allotted) -> bool {
    let mut is_added = true;
    while let Some(page) = given.pages.pop() {
        if let Err((page, _)) = bundle.add_page(page) {
            page.discard();
            is_added = false;
        }
    }
    given.discard();
    is_added
}

// Takes a lease for a library, and adds it.
fn take(
    ctl: &mut Ctl,
    is_first: bool,
    ino: u32,
    kind: GrantKind,
    body: &[u8],
    bundle: &mut Bundle,
) -> bool
    requires { length ctl.old.state.creds ≡ 2 }
    ensures { length ctl.new.state.creds ≡ 2 }
{
    match lent(ctl, is_first, ino, kind) {
        Some(lease) => add_lease(bundle, lease, body),
        None => false,
    }
}

fn take_pages(ctl: &mut Ctl, is_first: bool, bundle: &mut Bundle) -> bool
    requires { length ctl.old.state.creds ≡ 2 }
    ensures { length ctl.new.state.creds ≡ 2 }
{
    match allotted(ctl, is_first, 2, 0) {
        Some(given) => add_pages(bundle, given),
        None => false,
    }
}

// Takes for a library what it moves a directory by.
fn take_all(ctl: &mut Ctl, shift: &Shift, bundle: &mut Bundle) -> bool
    requires { length ctl.old.state.creds ≡ 2 }
    ensures { length ctl.new.state.creds ≡ 2 }
{
    let lib = shift.is_first;
    if !take(ctl, lib, shift.from, GrantKind::Write, &[], bundle) {
        return false;
    }
    if !take(ctl, lib, shift.held, GrantKind::Hold, &[], bundle) {
        return false;
    }
    if !take(ctl, lib, shift.to, GrantKind::Write, shift.body, bundle) {
        return false;
    }
    take_pages(ctl, lib, bundle)
}

// Writes into the pages of a bundle. Whether it has all of them.
fn write_pages(bundle: &mut Bundle, pokes: &[Poke]) -> bool {
    for (no, at, part) in pokes {
        match bundle.page_mut(PageNo(*no)) {
            Some(page) => put(page.bytes_mut(), *at, part),
            None => return false,
        }
    }
    true
}

// Takes for a library what it moves a directory by, and writes. All blocks are marked then.
#[tactic(auto, using(crate::proofs::Leases::all_are_touched))]
fn gather(ctl: &mut Ctl, shift: &Shift, bundle: &mut Bundle) -> bool
    requires { length ctl.old.state.creds ≡ 2 }
    ensures two { length ctl.new.state.creds ≡ 2 }
    ensures touched { AreAllTouched bundle.new.writes }
{
    let is_taken = take_all(ctl, shift, bundle);
    let is_written = write_pages(bundle, shift.pokes);
    bundle.touch_blocks();
    is_taken && is_written
}

// The beginning of a release of one of two libraries, where the bundle is its own and it is idle.
fn begun(ctl: &mut Ctl, is_first: bool, bundle: Bundle) -> Option<Pending>
    requires { length ctl.old.state.creds ≡ 2 }
    ensures state { ctl.new.state ≡ ctl.old.state }
    ensures bundle { IfSome result (λ p. p.bundle ≡ bundle) }
    ensures lib { IsTrue is_first → IfSome result (λ p. p.lib.0 ≡ 1) }
{
    let lib = LibNo(if is_first { 1 } else { 2 });
    if !ctl.belongs(lib, &bundle) || !ctl.idle(lib) {
        bundle.discard();
        return None;
    }
    match ctl.begin(lib, bundle) {
        Ok(pending) => Some(pending),
        Err((bundle, _)) => {
            bundle.discard();
            None
        }
    }
}

// The beginning of a move, with all that goes before it.
fn begun_move(alloc: Global, ctl: &mut Ctl, shift: &Shift) -> Option<Pending>
    requires { length ctl.old.state.creds ≡ 2 }
    ensures two { length ctl.new.state.creds ≡ 2 }
    ensures touched { IfSome result (λ p. AreAllTouched p.bundle.writes) }
{
    let mut bundle = Bundle::new(alloc);
    if gather(ctl, shift, &mut bundle) {
        begun(ctl, shift.is_first, bundle)
    } else {
        bundle.discard();
        None
    }
}

// What is judged of a release.
fn weighed(pending: Pending) -> Judged
    ensures { result.case ≡ pending }
{
    pending.weigh(&mut Reads::new())
}

// What a release is told at its end, where it is awaited.
fn ended(ctl: &mut Ctl, judged: Judged) -> Option<ReleaseAnswer>
    requires { AreMarked ctl.old.state judged.case.lib.0 (handed_in judged.case.bundle) }
{
    if ctl.awaits(&judged) {
        Some(ctl.finish(judged, &mut Reads::new()))
    } else {
        None
    }
}

// What is judged of a release all of whose blocks are marked.
fn weighed_marked(pending: Pending) -> Judged
    requires { AreAllTouched pending.bundle.writes }
    ensures { AreAllTouched result.case.bundle.writes }
{
    weighed(pending)
}

// Whether such a release is told this at its end.
fn ends_so(ctl: &mut Ctl, judged: Judged, refused: Option<u8>) -> bool
    requires { AreAllTouched judged.case.bundle.writes }
{
    is_told(ended(ctl, judged), refused)
}

// Whether a release was accepted, or refused for this rule.
fn is_told(told: Option<ReleaseAnswer>, refused: Option<u8>) -> bool {
    match told {
        Some(ReleaseAnswer::Refused { rule, .. }) => refused == Some(rule),
        Some(ReleaseAnswer::Accepted) => refused.is_none(),
        None => false,
    }
}

fn judged_move(alloc: Global, ctl: &mut Ctl, shift: &Shift) -> Option<Judged>
    requires { length ctl.old.state.creds ≡ 2 }
    ensures two { length ctl.new.state.creds ≡ 2 }
    ensures touched { IfSome result (λ j. AreAllTouched j.case.bundle.writes) }
{
    let pending = begun_move(alloc, ctl, shift)?;
    Some(weighed_marked(pending))
}

// Whether of two crossed moves that have both begun the one that ends first is accepted, and the other
// refused for rule I3. Neither library is idle before that, and both are then.
fn is_crossing_refused(alloc: Global, ctl: &mut Ctl) -> Option<bool>
    requires { length ctl.old.state.creds ≡ 2 }
{
    let first = judged_move(alloc, ctl, &FIRST)?;
    let second = judged_move(alloc, ctl, &SECOND)?;
    let are_begun = !ctl.idle(LibNo(1)) && !ctl.idle(LibNo(2));
    let is_second_told = ends_so(ctl, second, None);
    let is_first_told = ends_so(ctl, first, Some(3));
    let are_idle = ctl.idle(LibNo(1)) && ctl.idle(LibNo(2));
    Some(are_begun && is_second_told && is_first_told && are_idle)
}

// Whether the directory `q` is found below `/a/p/p1` alone.
fn is_second_moved(alloc: Global, ctl: &mut Ctl) -> Option<bool> {
    let nodes = settled_nodes(alloc, ctl)?;
    let path = Path::read(alloc, b"/a/p/p1/q/q1").ok()?;
    Some((nodes.find(&path), nodes.count(3)) == (Some(7), 0))
}

fn settled_nodes(alloc: Global, ctl: &mut Ctl) -> Option<Nodes> {
    let mut image = ctl.image().ok()?;
    image.nodes(alloc).ok()
}

fn are_crossed(alloc: Global, ctl: &mut Ctl) -> Option<bool>
    requires { length ctl.old.state.creds ≡ 2 }
{
    let is_refused = is_crossing_refused(alloc, ctl)?;
    let is_moved = is_second_moved(alloc, ctl)?;
    Some(is_refused && is_moved)
}

#[test]
fn crossed_moves_end_in_another_order(rt: HostRuntime) {
    assert!(rt; passes(rt.alloc(), Start::SixDirectories, 0, &Deed::CrossesMoves));
}

// The lease of a grant for writing; another is let go.
fn written(told: Result<Lease, GrantFault>) -> Option<WriteLease>
    ensures { IfSome result (λ lease. told ≡ Ok (Write lease)) }
{
    match told {
        Ok(lease) => write_lease(lease),
        Err(_) => None,
    }
}

fn write_lease(lease: Lease) -> Option<WriteLease>
    ensures { IfSome result (λ w. lease ≡ Write w) }
{
    match lease {
        Lease::Write(lease) => Some(lease),
        other => {
            other.discard();
            None
        }
    }
}

// A file, lent to the first library for writing.
fn lent_file(ctl: &mut Ctl, ino: u32) -> Option<WriteLease>
    requires { length ctl.old.state.creds ≡ 2 }
    ensures two { length ctl.new.state.creds ≡ 2 }
    ensures lent { IfSome result (WasLentAs ctl.new.state 1) }
{
    if ctl.idle(LibNo(1)) {
        written(ctl.grant(LibNo(1), ino, GrantKind::Write))
    } else {
        None
    }
}

// The lease alone, as a bundle.
fn bundled(alloc: Global, lease: WriteLease) -> Option<Bundle>
    ensures writes { IfSome result (λ bundle. bundle.writes ≡ lease ∷ []) }
    ensures holds { IfSome result (λ bundle. bundle.holds ≡ []) }
{
    let mut bundle = Bundle::new(alloc);
    match bundle.add_write(lease) {
        Ok(()) => Some(bundle),
        Err((lease, _)) => {
            lease.discard();
            bundle.discard();
            None
        }
    }
}

/// The file `f`, lent to the first library for writing, as a bundle.
pub fn taken_file(alloc: Global, ctl: &mut Ctl) -> Option<Bundle>
    requires { length ctl.old.state.creds ≡ 2 }
    ensures two { length ctl.new.state.creds ≡ 2 }
    ensures lent { IfSome result (λ bundle. WereLent ctl.new.state 1 bundle.writes) }
{
    taken(alloc, ctl, 3)
}

/// The file of this number, lent to the first library for writing, as a bundle.
pub fn taken(alloc: Global, ctl: &mut Ctl, ino: u32) -> Option<Bundle>
    requires { length ctl.old.state.creds ≡ 2 }
    ensures two { length ctl.new.state.creds ≡ 2 }
    ensures lent { IfSome result (λ bundle. WereLent ctl.new.state 1 bundle.writes) }
    ensures holds { IfSome result (λ bundle. bundle.holds ≡ []) }
{
    let lease = lent_file(ctl, ino)?;
    bundled(alloc, lease)
}

// Its release, which the first library has begun as the file was lent.
fn begun_file(alloc: Global, ctl: &mut Ctl) -> Option<Pending>
    requires { length ctl.old.state.creds ≡ 2 }
    ensures two { length ctl.new.state.creds ≡ 2 }
    ensures lent { IfSome result (λ p. WereLent ctl.new.state p.lib.0 p.bundle.writes) }
{
    let bundle = taken_file(alloc, ctl)?;
    begun(ctl, true, bundle)
}

// Writes over what the index page of `f` lists, where the bundle has that page.
fn unlist(pending: &mut Pending) -> bool
    ensures lib { pending.new.lib ≡ pending.old.lib }
    ensures lent { IsTrue result → AreLentAlike pending.new.bundle.writes pending.old.bundle.writes }
{
    match pending.page_mut(PageNo(7)) {
        Some(page) => {
            page.put_u64(0, 0);
            true
        }
        None => false,
    }
}

// What has begun, with that page written over.
fn unlisted(mut pending: Pending) -> Option<Pending>
    ensures lib { IfSome result (λ p. p.lib ≡ pending.lib) }
    ensures lent { IfSome result (λ p. AreLentAlike p.bundle.writes pending.bundle.writes) }
{
    if unlist(&mut pending) {
        Some(pending)
    } else {
        None
    }
}

// The release of `f`, whose index page is written over between the moves.
fn judged_unlisted(alloc: Global, ctl: &mut Ctl) -> Option<Judged>
    requires { length ctl.old.state.creds ≡ 2 }
    ensures { IfSome result (λ j. WereLent ctl.new.state j.case.lib.0 j.case.bundle.writes) }
{
    let before = begun_file(alloc, ctl)?;
    let pending = unlisted(before)?;
    Some(weighed(pending))
}

const WITH_FILE: Counts = Counts {
    inodes: 3,
    pages: 6,
    free: 23,
};

// Whether that release is refused for rule I1.
fn is_unlisted_refused(alloc: Global, ctl: &mut Ctl) -> bool
    requires { length ctl.old.state.creds ≡ 2 }
{
    match judged_unlisted(alloc, ctl) {
        Some(judged) => {
            lent_is_marked();
            ctl.is_recorded();
            judged.keeps_untouched();
            is_told(ended(ctl, judged), Some(1))
        }
        None => false,
    }
}

// Whether what has begun with `f` has no page but those of its bundle.
fn has_its_pages(alloc: Global, ctl: &mut Ctl) -> Option<bool>
    requires { length ctl.old.state.creds ≡ 2 }
{
    let mut pending = begun_file(alloc, ctl)?;
    Some(has_page(&mut pending, 8) && !has_page(&mut pending, 4))
}

fn has_page(pending: &mut Pending, no: u32) -> bool {
    pending.page_mut(PageNo(no)).is_some()
}

#[test]
fn what_is_written_between_the_moves_is_judged(rt: HostRuntime) {
    assert!(rt; passes(rt.alloc(), Start::OneFile, 0, &Deed::WritesOver));
    assert!(rt; passes(rt.alloc(), Start::OneFile, 0, &Deed::AsksForPages));
}

const WRITER: Holder = Holder {
    lib: LibNo(1),
    kind: GrantKind::Write,
    entry: 0,
};

// Whether a release that is let go after its beginning leaves `f` out, and its library not idle.
fn is_let_go(alloc: Global, ctl: &mut Ctl) -> Option<bool>
    requires { length ctl.old.state.creds ≡ 2 }
{
    drop(begun_file(alloc, ctl)?);
    let told = asked(ctl, false, 3, GrantKind::Write);
    Some(told == Some(Err(GrantFault::Busy(WRITER))) && !ctl.idle(LibNo(1)))
}

// Whether a release is awaited by the controller where it began, and by no other.
fn is_awaited_alone(alloc: Global, ctl: &mut Ctl, other: &Ctl) -> Option<bool>
    requires { length ctl.old.state.creds ≡ 2 }
{
    let judged = weighed(begun_file(alloc, ctl)?);
    Some(ctl.awaits(&judged) && !other.awaits(&judged))
}

/// A release begins while another controller stands beside.
#[derive(Clone, Copy)]
struct Beside<'a>(&'a Ctl);

impl<'a> Trial for Beside<'a> {
    fn passes(&self, alloc: Global, ctl: &mut Ctl) -> bool {
        is_awaited_alone(alloc, ctl, self.0) == Some(true)
    }
}

fn is_awaited_there_alone(alloc: Global) -> bool {
    match started(alloc, Start::OneFile, 0) {
        Some(other) => passes(alloc, Start::OneFile, 0, &Beside(&other)),
        None => false,
    }
}

#[test]
fn a_release_ends_where_it_began(rt: HostRuntime) {
    assert!(rt; passes(rt.alloc(), Start::OneFile, 0, &Deed::IsLetGo));
    assert!(rt; is_awaited_there_alone(rt.alloc()));
}

// The release of a bundle, with and without a byte written between the moves.
fn judged_file(ctl: &mut Ctl, bundle: Bundle, is_written: bool) -> Option<Judged>
    requires { length ctl.old.state.creds ≡ 2 }
{
    let pending = begun(ctl, true, bundle)?;
    if is_written {
        Some(weighed(unlisted(pending)?))
    } else {
        Some(weighed(pending))
    }
}

fn is_copy(judged: &Judged, copy: &Result<Handed, NoMemory>) -> Option<bool> {
    match copy {
        Ok(copy) => Some(judged.is(copy)),
        Err(_) => None,
    }
}

// Whether what is judged is the copy that was taken before its beginning.
fn is_its_copy(alloc: Global, ctl: &mut Ctl, is_written: bool) -> Option<bool>
    requires { length ctl.old.state.creds ≡ 2 }
{
    let bundle = taken_file(alloc, ctl)?;
    let copy = copied(alloc, &bundle);
    let judged = judged_file(ctl, bundle, is_written)?;
    is_copy(&judged, &copy)
}

#[test]
fn a_copy_tells_what_was_written(rt: HostRuntime) {
    assert!(rt; passes(rt.alloc(), Start::OneFile, 0, &Deed::StaysItsCopy));
    assert!(rt; passes(rt.alloc(), Start::OneFile, 0, &Deed::LeavesItsCopy));
}

/// What is done with a controller that has just started.
#[derive(Clone, Copy)]
enum Deed {
    CrossesMoves,
    /// The release is refused, and the image is then as before.
    WritesOver,
    AsksForPages,
    IsLetGo,
    StaysItsCopy,
    LeavesItsCopy,
}

impl Trial for Deed {
    fn passes(&self, alloc: Global, ctl: &mut Ctl) -> bool {
        match self {
            Deed::CrossesMoves => are_crossed(alloc, ctl) == Some(true),
            Deed::WritesOver => {
                is_unlisted_refused(alloc, ctl) && stores(alloc, ctl, Start::OneFile, WITH_FILE)
            }
            Deed::AsksForPages => has_its_pages(alloc, ctl) == Some(true),
            Deed::IsLetGo => is_let_go(alloc, ctl) == Some(true),
            Deed::StaysItsCopy => is_its_copy(alloc, ctl, false) == Some(true),
            Deed::LeavesItsCopy => is_its_copy(alloc, ctl, true) == Some(false),
        }
    }
}
