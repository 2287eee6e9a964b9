//! Four libraries in threads of their own, two hostile and two honest, and what their log replays to.

ghost use Rattle.std.specs.Prelude.{◌<◌, ◌+◌};
ghost use Rattle.trio_shared_tests.specs.Sits.{AreAll, IsBack, IsNew, Plays, PlaysOn, WritesOn};

use crate::scenes::{Scene, outcome};
use crate::seats::{allots, asks, changes_mode, empty_hands, gives_back, hands_in, releases};
use std::alloc::Global;
use std::sync::Wait;
use std::sync::atomic::{AtomicBool, Ordering};
use std::test::Fail;
use std::thread::{Threads, for_each_mut};
use trio_nodes::{AllotAnswer, GrantKind, ReleaseAnswer, Spot};
use trio_raw::Raw;
use trio_shared::{LibSeat, Shared};

/// How many times the test is played, each time with other random numbers.
const ROUNDS: u64 = 30;

/// How many deeds each thread does in a round.
const DEEDS: u32 = 1000;

// the regular files of the image
const FILES: [u32; 3] = [3, 4, 6];

/// A number after another: those of a linear congruence.
#[derive(Drop)]
struct Random(u64);

impl Random {
    fn below(&mut self, bound: u32) -> u32
        requires { 0 < bound }
        ensures { result < bound }
    {
        self.0 = self
            .0
            .wrapping_mul(6_364_136_223_846_793_005)
            .wrapping_add(1_442_695_040_888_963_407);
        ((self.0 >> 33) % u64::from(bound)) as u32
    }

    // one of these, or 0 where there is none
    fn one_of(&mut self, numbers: &[u32]) -> u32 {
        let at = self.below(64) as usize;
        match numbers.len() {
            0 => 0,
            len => numbers[at % len],
        }
    }
}

// ---- hostile libraries

/// The numbers of what a library that keeps to nothing may hand in, and what it does next.
#[derive(Drop)]
struct Rogue {
    files: Vec<u32>,
    pages: Vec<u32>,
    numbers: Vec<u32>,
    random: Random,
}

// It asks for a file that it may hand in.
fn takes<R: Wait>(rt: &R, shared: &Shared, seat: &mut LibSeat, raw: &mut Raw, rogue: &mut Rogue)
    requires { Plays shared.now seat.old raw.old.has }
    ensures { PlaysOn shared.now seat.old seat.new raw.new.has }
{
    let ino = rogue.random.below(10);
    let kind = match rogue.random.below(3) {
        0 => GrantKind::Hold,
        _ => GrantKind::Write,
    };
    if asks(rt, shared, seat, raw, ino, kind).is_ok() {
        let _pushed = rogue.files.push(ino);
    }
}

// It asks for pages and inode numbers.
fn is_allotted<R: Wait>(
    rt: &R,
    shared: &Shared,
    seat: &mut LibSeat,
    raw: &mut Raw,
    rogue: &mut Rogue,
)
    requires { Plays shared.now seat.old raw.old.has }
    ensures { PlaysOn shared.now seat.old seat.new raw.new.has }
{
    let count = rogue.random.below(3);
    let wanted = rogue.random.below(2);
    let answer = allots(rt, shared, seat, raw, count, wanted);
    if let Ok(AllotAnswer::Given { pages, inodes }) = answer {
        notes(&mut rogue.pages, pages.as_slice());
        notes(&mut rogue.numbers, inodes.as_slice());
    }
}

fn notes(all: &mut Vec<u32>, more: &[u32]) {
    for number in more {
        let _pushed = all.push(*number);
    }
}

// It asks for another mode of a file.
fn turns<R: Wait>(rt: &R, shared: &Shared, seat: &mut LibSeat, raw: &mut Raw, rogue: &mut Rogue)
    requires { Plays shared.now seat.old raw.old.has }
    ensures { PlaysOn shared.now seat.old seat.new raw.new.has }
{
    let ino = rogue.random.below(10);
    let mode = rogue.random.below(600) as u16;
    let _answer = changes_mode(rt, shared, seat, raw, ino, mode);
}

// It writes a few bytes anywhere into what it has.
fn scribbles(raw: &mut Raw, random: &mut Random, files: &[u32], pages: &[u32])
    ensures { WritesOn raw.old.has raw.new.has }
{
    let ino = random.one_of(files);
    let (at, offset) = match random.below(6) {
        0 => (Spot::Body(ino), random.below(64)),
        1 => (Spot::Index(ino, 0), random.below(32)),
        2 => (Spot::Fresh(random.one_of(pages)), random.below(512)),
        _ => (Spot::Block(ino, 0), random.below(512)),
    };
    let bytes = [random.below(40) as u8, random.below(4) as u8];
    let len = 1 + random.below(2) as usize;
    let _is_written = raw.poke(at, offset, &bytes[..len]);
}

// It puts an empty file of an inode number into a slot of a directory.
fn enters(raw: &mut Raw, random: &mut Random, files: &[u32], numbers: &[u32])
    ensures { WritesOn raw.old.has raw.new.has }
{
    let ino = random.one_of(files);
    let number = (random.one_of(numbers) % 64) as u8;
    let slot = random.below(4) * 256;
    let name = b'a' + random.below(26) as u8;
    let bytes = [number, 0, 0, 0, 1, 1, 0, 0, name];
    let _is_entered = raw.poke(Spot::Block(ino, 0), slot, &bytes);
    let _has_mode = raw.poke(Spot::Block(ino, 0), slot + 192, &[0xa4, 0x01]);
}

// It hands in all that it may.
fn hands_all_in<R: Wait>(
    rt: &R,
    shared: &Shared,
    seat: &mut LibSeat,
    raw: &mut Raw,
    rogue: &mut Rogue,
)
    requires { Plays shared.now seat.old raw.old.has }
    ensures { PlaysOn shared.now seat.old seat.new raw.new.has }
{
    let answer = releases(
        rt,
        shared,
        seat,
        raw,
        &rogue.files,
        &rogue.pages,
        &rogue.numbers,
    );
    if answer.is_ok() {
        rogue.files.clear();
        rogue.pages.clear();
        rogue.numbers.clear();
    }
}

// It hands in the last file that it was lent, and keeps the rest.
fn hands_one_in<R: Wait>(
    rt: &R,
    shared: &Shared,
    seat: &mut LibSeat,
    raw: &mut Raw,
    rogue: &mut Rogue,
)
    requires { Plays shared.now seat.old raw.old.has }
    ensures { PlaysOn shared.now seat.old seat.new raw.new.has }
{
    let Some(ino) = rogue.files.pop() else {
        return;
    };
    if hands_in(rt, shared, seat, raw, ino).is_err() {
        let _pushed = rogue.files.push(ino);
    }
}

// It does something.
fn does<R: Wait>(rt: &R, shared: &Shared, seat: &mut LibSeat, raw: &mut Raw, rogue: &mut Rogue)
    requires { Plays shared.now seat.old raw.old.has }
    ensures { PlaysOn shared.now seat.old seat.new raw.new.has }
{
    match rogue.random.below(16) {
        0..=4 => takes(rt, shared, seat, raw, rogue),
        5 => is_allotted(rt, shared, seat, raw, rogue),
        6 => turns(rt, shared, seat, raw, rogue),
        7..=9 => writes(raw, rogue),
        10 => hands_one_in(rt, shared, seat, raw, rogue),
        _ => hands_all_in(rt, shared, seat, raw, rogue),
    }
}

// It writes into what it has, and makes no call.
fn writes(raw: &mut Raw, rogue: &mut Rogue)
    ensures { WritesOn raw.old.has raw.new.has }
{
    match rogue.random.below(3) {
        0 => scribbles(raw, &mut rogue.random, &rogue.files, &rogue.pages),
        _ => enters(raw, &mut rogue.random, &rogue.files, &rogue.numbers),
    }
}

// All deeds of a hostile library, which hands in at last what it has.
fn rages<R: Wait>(
    rt: &R,
    alloc: Global,
    shared: &Shared,
    seat: &mut LibSeat,
    raw: &mut Raw,
    random: Random,
)
    requires { Plays shared.now seat.old raw.old.has }
    ensures { PlaysOn shared.now seat.old seat.new raw.new.has }
{
    let mut rogue = Rogue {
        files: Vec::new(alloc),
        pages: Vec::new(alloc),
        numbers: Vec::new(alloc),
        random,
    };
    for _ in 0..DEEDS {
        does(rt, shared, seat, raw, &mut rogue);
    }
    hands_all_in(rt, shared, seat, raw, &mut rogue);
}

// ---- honest libraries

// It writes a word into a file, where it is lent one. Whether that is accepted.
fn is_edited<R: Wait>(
    rt: &R,
    shared: &Shared,
    seat: &mut LibSeat,
    raw: &mut Raw,
    ino: u32,
    letter: u8,
) -> bool
    requires { Plays shared.now seat.old raw.old.has }
    ensures { PlaysOn shared.now seat.old seat.new raw.new.has }
{
    if asks(rt, shared, seat, raw, ino, GrantKind::Write).is_err() {
        return true;
    }
    // no block is there where a hostile library has made the file empty
    let _is_written = raw.poke(Spot::Block(ino, 0), 0, &[letter; 5]);
    hands_in(rt, shared, seat, raw, ino) == Ok(ReleaseAnswer::Accepted)
}

// It looks at a file, where it is lent one.
fn reads<R: Wait>(rt: &R, shared: &Shared, seat: &mut LibSeat, raw: &mut Raw, ino: u32) -> bool
    requires { Plays shared.now seat.old raw.old.has }
    ensures { PlaysOn shared.now seat.old seat.new raw.new.has }
{
    let is_lent = asks(rt, shared, seat, raw, ino, GrantKind::Read).is_ok();
    let is_back = gives_back(rt, shared, seat, raw, ino).is_ok();
    is_lent == is_back
}

// It does something. Whether that goes as it is to.
fn is_done<R: Wait>(
    rt: &R,
    shared: &Shared,
    seat: &mut LibSeat,
    raw: &mut Raw,
    random: &mut Random,
) -> bool
    requires { Plays shared.now seat.old raw.old.has }
    ensures { PlaysOn shared.now seat.old seat.new raw.new.has }
{
    let ino = FILES[random.below(3) as usize];
    let letter = b'a' + random.below(26) as u8;
    match random.below(3) {
        0 => reads(rt, shared, seat, raw, ino),
        _ => is_edited(rt, shared, seat, raw, ino, letter),
    }
}

// All deeds of an honest library. Whether each goes as it is to.
fn works<R: Wait>(
    rt: &R,
    shared: &Shared,
    seat: &mut LibSeat,
    raw: &mut Raw,
    random: &mut Random,
) -> bool
    requires { Plays shared.now seat.old raw.old.has }
    ensures { PlaysOn shared.now seat.old seat.new raw.new.has }
{
    let mut are_done = true;
    for _ in 0..DEEDS {
        are_done &= is_done(rt, shared, seat, raw, random);
    }
    are_done
}

// ---- four threads

// The library of a place does its deeds: the first two are hostile, the others honest. Whether the deeds
// of an honest one go as they are to.
fn acts<R: Wait>(
    rt: &R,
    alloc: Global,
    shared: &Shared,
    seat: &mut LibSeat,
    raw: &mut Raw,
    place: usize,
    seed: u64,
) -> bool
    requires { Plays shared.now seat.old raw.old.has }
    ensures { PlaysOn shared.now seat.old seat.new raw.new.has }
{
    let mut random = Random(seed.wrapping_add(place as u64));
    if place < 2 {
        rages(rt, alloc, shared, seat, raw, random);
        true
    } else {
        works(rt, shared, seat, raw, &mut random)
    }
}

// It does so from nothing on.
fn acts_alone<R: Wait>(
    rt: &R,
    alloc: Global,
    shared: &Shared,
    seat: &mut LibSeat,
    place: usize,
    seed: u64,
) -> bool
    requires { IsNew shared.now (place + 1) seat.old }
    ensures { IsBack shared.now (place + 1) seat.new }
{
    let mut raw = empty_hands(alloc, seat);
    let is_well = acts(rt, alloc, shared, seat, &mut raw, place, seed);
    raw.discard();
    is_well
}

/// Whether all goes well where the libraries of these seats act at the same time, each in a thread of its
/// own.
pub fn threads_go_well<R: Threads + Wait + Sync>(
    rt: &R,
    alloc: Global,
    shared: &Shared,
    seats: &mut [LibSeat],
    seed: u64,
) -> bool
    requires { AreAll IsNew shared.now seats.old }
    ensures { AreAll IsBack shared.now seats.new }
{
    let is_well = AtomicBool::new(true);
    let act = |place: usize, seat: &mut LibSeat|
        requires { IsNew shared.now (place + 1) seat.now }
        ensures { IsBack shared.entry.now (place + 1) seat.exit.now }
    {
        if !acts_alone(rt, alloc, shared, seat, place, seed) {
            is_well.store(false, Ordering::SeqCst);
        }
    };
    for_each_mut(rt, seats, 4, &act);
    is_well.load(Ordering::SeqCst)
}

/// Two hostile libraries and two honest ones each do a thousand deeds in a thread of their own, many
/// times over. However their calls fall, what the honest ones hand in is accepted, and the log of the
/// closed controller replays by the tree of one thread to the nodes of the settled image.
#[test]
fn the_log_of_four_threads_replays(rt: HostRuntime) -> Result<(), Fail> {
    let (mut all_accepted, mut all_refused) = (0_u32, 0_u32);
    for seed in 0..ROUNDS {
        let scene = Scene::Threads(4 * seed);
        let (is_so, (accepted, refused)) = outcome(&rt, rt.alloc(), scene).ok_or("memory")?;
        assert!(rt; is_so, "round {seed}");
        all_accepted = all_accepted.saturating_add(accepted);
        all_refused = all_refused.saturating_add(refused);
    }
    assert!(rt; all_accepted > 10_000, "{all_accepted} accepted");
    assert!(rt; all_refused > 100, "{all_refused} refused");
    Ok(())
}
