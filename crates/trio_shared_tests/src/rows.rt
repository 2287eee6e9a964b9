//! Calls of two seats, one after the other.

ghost use Rattle.std.specs.Prelude.{◌≡◌};
ghost use mathlib.Core.List.{IsPrefix};
ghost use Rattle.trio_shared.specs.Seats.{out};
ghost use Rattle.trio_turn.specs.Seats.{seen};
ghost use Rattle.trio_shared_tests.specs.Sits.{IsBack, IsLeft, IsNew, Plays, PlaysOn, Sits, SitsOn};

use crate::scenes::{Scene, goes_well};
use crate::seats::{asks, empty_hands, hands_in};
use std::alloc::Global;
use std::sync::Wait;
use std::test::Fail;
use trio_nodes::{Entry, GrantFault, GrantKind, Holder, ReleaseAnswer};
use trio_raw::{Raw, RawFault};
use trio_rights::LibNo;
use trio_shared::{LibSeat, Shared};

/// What one of two libraries does with the file 3, and what it is told.
pub enum Deed {
    /// It asks for it for writing.
    Asks(Result<u32, GrantFault>),
    /// It hands it in.
    HandsIn(Result<ReleaseAnswer, RawFault>),
    /// The other looks at all that there is, and it sees what the other has seen.
    Meets,
}

/// Whether the first of the two does it, what it does, and the libraries of the entries that there are
/// then.
pub type Step = (bool, Deed, &'static [u32]);

/// Busy, by the write grant of library 1, whose entry is the first.
const BUSY: GrantFault = GrantFault::Busy(Holder {
    lib: LibNo(1),
    kind: GrantKind::Write,
    entry: 0,
});

const STEPS: [Step; 6] = [
    (true, Deed::Asks(Ok(0)), &[1]),
    (false, Deed::Asks(Err(BUSY)), &[1]),
    (true, Deed::HandsIn(Ok(ReleaseAnswer::Accepted)), &[1, 1]),
    (false, Deed::Asks(Ok(0)), &[1, 1, 2]),
    (true, Deed::Meets, &[1, 1, 2]),
    (
        false,
        Deed::HandsIn(Ok(ReleaseAnswer::Accepted)),
        &[1, 1, 2, 2],
    ),
];

// A library sees all that there is.
fn looks<R: Wait>(rt: &R, shared: &Shared, seat: &mut LibSeat)
    requires { Sits shared.now seat.old }
    ensures on { SitsOn shared.now seat.old seat.new }
    ensures out { out seat.new ≡ out seat.old }
    ensures left { IsLeft seat.new }
{
    let _room = shared.make_room(rt, seat, 0, 0);
}

// A library sees what another has seen, which has just looked.
fn meets(shared: &Shared, one: &mut LibSeat, other: &mut LibSeat)
    requires one { Sits shared.now one.old }
    requires other { Sits shared.now other.old }
    requires left { IsLeft other.old }
    ensures one { SitsOn shared.now one.old one.new }
    ensures out { out one.new ≡ out one.old }
    ensures other { SitsOn shared.now other.old other.new }
    ensures others_out { out other.new ≡ out other.old }
    ensures saw { IsPrefix (seen other.old) (seen one.new) }
    ensures stays { seen other.new ≡ seen other.old }
{
    shared.meet(one, other);
}

// The other looks, and the first of the two meets it.
fn looks_and_meets<R: Wait>(rt: &R, shared: &Shared, one: &mut LibSeat, other: &mut LibSeat)
    requires one { Sits shared.now one.old }
    requires other { Sits shared.now other.old }
    ensures one { SitsOn shared.now one.old one.new }
    ensures out { out one.new ≡ out one.old }
    ensures other { SitsOn shared.now other.old other.new }
    ensures others_out { out other.new ≡ out other.old }
{
    looks(rt, shared, other);
    meets(shared, one, other);
}

// The one of two libraries whose turn it is does so, and is told so.
#[tactic(auto, using(crate::proofs::Sitting::plays_still))]
fn is_told<R: Wait>(
    rt: &R,
    shared: &Shared,
    seat: &mut LibSeat,
    raw: &mut Raw,
    other: &mut LibSeat,
    deed: &Deed,
) -> bool
    requires one { Plays shared.now seat.old raw.old.has }
    requires other { Sits shared.now other.old }
    ensures one { PlaysOn shared.now seat.old seat.new raw.new.has }
    ensures other { SitsOn shared.now other.old other.new }
    ensures out { out other.new ≡ out other.old }
{
    match deed {
        Deed::Asks(told) => asks(rt, shared, seat, raw, 3, GrantKind::Write) == *told,
        Deed::HandsIn(told) => hands_in(rt, shared, seat, raw, 3) == *told,
        Deed::Meets => {
            looks_and_meets(rt, shared, seat, other);
            true
        }
    }
}

// Whether a step is told so.
#[tactic(auto, using(crate::proofs::Sitting::plays_still))]
fn step_is_told<R: Wait>(
    rt: &R,
    shared: &Shared,
    one: &mut LibSeat,
    ones: &mut Raw,
    two: &mut LibSeat,
    twos: &mut Raw,
    step: &Step,
) -> bool
    requires one { Plays shared.now one.old ones.old.has }
    requires two { Plays shared.now two.old twos.old.has }
    ensures one { PlaysOn shared.now one.old one.new ones.new.has }
    ensures two { PlaysOn shared.now two.old two.new twos.new.has }
{
    let (is_first, deed, _) = step;
    if *is_first {
        is_told(rt, shared, one, ones, two, deed)
    } else {
        is_told(rt, shared, two, twos, one, deed)
    }
}

// Whether each of these steps is told so.
fn are_told<R: Wait>(
    rt: &R,
    shared: &Shared,
    one: &mut LibSeat,
    ones: &mut Raw,
    two: &mut LibSeat,
    twos: &mut Raw,
    steps: &[Step],
) -> bool
    requires one { Plays shared.now one.old ones.old.has }
    requires two { Plays shared.now two.old twos.old.has }
    ensures one { PlaysOn shared.now one.old one.new ones.new.has }
    ensures two { PlaysOn shared.now two.old two.new twos.new.has }
{
    let mut are_told = true;
    for step in steps {
        are_told &= step_is_told(rt, shared, one, ones, two, twos, step);
    }
    are_told
}

/// Whether the steps of two libraries are told so.
pub fn steps_go_well<R: Wait>(
    rt: &R,
    alloc: Global,
    shared: &Shared,
    one: &mut LibSeat,
    two: &mut LibSeat,
    steps: &[Step],
) -> bool
    requires one { IsNew shared.now 1 one.old }
    requires two { IsNew shared.now 2 two.old }
    ensures one { IsBack shared.now 1 one.new }
    ensures two { IsBack shared.now 2 two.new }
{
    let mut ones = empty_hands(alloc, one);
    let mut twos = empty_hands(alloc, two);
    let are_told = are_told(rt, shared, one, &mut ones, two, &mut twos, steps);
    ones.discard();
    twos.discard();
    are_told
}

fn is_of(entry: &Entry, lib: u32) -> bool {
    match entry {
        Entry::Grant { lib: of, .. } | Entry::Raw { lib: of, .. } => of.0 == lib,
        _ => false,
    }
}

/// Whether these are the libraries of the entries of grants and of releases, in their order.
pub fn are_of(entries: &[Entry], libs: &[u32]) -> bool {
    let mut are_of = entries.len() == libs.len();
    for (entry, lib) in entries.iter().zip(libs) {
        are_of &= is_of(entry, *lib);
    }
    are_of
}

/// The steps are played up to each of them in turn, and then the controller is closed: what is told and
/// the log's length is compared by running. What a seat has seen is no value, and is proved: it begins the
/// log and has each of the seat's own entries, has the holder's where the seat is told Busy, and after
/// a meeting all that the other seat has seen. So after the second step seat 2 has seen the one entry that
/// there is, after the fourth all three, of which the last is its own, entry 2; and after the fifth seat 1
/// has seen these three.
#[test]
fn calls_one_after_the_other(rt: HostRuntime) -> Result<(), Fail> {
    for (k, (_, _, libs)) in STEPS.iter().enumerate() {
        let scene = Scene::Steps(&STEPS[..k + 1], libs);
        let is_so = goes_well(&rt, rt.alloc(), scene).ok_or("memory")?;
        assert!(rt; is_so, "step {k}");
    }
    Ok(())
}
