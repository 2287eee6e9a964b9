//! Two libraries that write into what they are lent, while a third is lent a file again and again.

ghost use Rattle.std.specs.Thread.{IsSync};
ghost use Rattle.trio_shared_tests.specs.Sits.{IsBack, IsNew, Plays, PlaysOn, Sits, SitsOn, WritesOn};

use crate::replays::settled_nodes;
use crate::scenes::{Scene, goes_well};
use crate::seats::{asks, empty_hands, gives_back, hands_in};
use std::alloc::Global;
use std::sync::Wait;
use std::test::Fail;
use std::thread::{Threads, join_mut};
use trio_ctl::Ctl;
use trio_nodes::{GrantKind, Nodes, ReleaseAnswer, Spot};
use trio_page::PAGE_SIZE;
use trio_raw::Raw;
use trio_shared::{LibSeat, Shared};

/// How often each of the two writes its block, and how often the third is lent its file meanwhile.
const TIMES: u32 = 2000;

// The block that is written at a time: each time another letter.
fn block_at(time: u32, first: u8) -> [u8; PAGE_SIZE] {
    [first.wrapping_add((time % 26) as u8); PAGE_SIZE]
}

// Writes the first block of a file that is lent for writing, many times over. It takes no handle of the
// runtime, by which alone it could wait: it goes on whatever the others do.
fn writes(raw: &mut Raw, ino: u32, first: u8) -> bool
    ensures { WritesOn raw.old.has raw.new.has }
{
    let mut are_written = true;
    for time in 0..TIMES {
        let block = block_at(time, first);
        are_written &= raw.poke(Spot::Block(ino, 0), 0, &block);
    }
    are_written
}

// Is lent a file for reading, and gives it back.
fn is_lent<R: Wait>(rt: &R, shared: &Shared, seat: &mut LibSeat, raw: &mut Raw) -> bool
    requires { Plays shared.now seat.old raw.old.has }
    ensures { PlaysOn shared.now seat.old seat.new raw.new.has }
{
    let is_lent = asks(rt, shared, seat, raw, 5, GrantKind::Read) == Ok(0);
    let is_back = gives_back(rt, shared, seat, raw, 5) == Ok(());
    is_lent && is_back
}

// The same many times over.
fn borrows<R: Wait>(rt: &R, shared: &Shared, seat: &mut LibSeat, raw: &mut Raw) -> bool
    requires { Plays shared.now seat.old raw.old.has }
    ensures { PlaysOn shared.now seat.old seat.new raw.new.has }
{
    let mut are_lent = true;
    for _ in 0..TIMES {
        are_lent &= is_lent(rt, shared, seat, raw);
    }
    are_lent
}

// A library that has nothing yet is lent a file many times over.
fn borrows_alone<R: Wait>(rt: &R, alloc: Global, shared: &Shared, seat: &mut LibSeat) -> bool
    requires { Sits shared.now seat.old }
    ensures { SitsOn shared.now seat.old seat.new }
{
    let mut raw = empty_hands(alloc, seat);
    let are_lent = borrows(rt, shared, seat, &mut raw);
    raw.discard();
    are_lent
}

// Two libraries write at the same time.
fn both_write<R: Threads + Sync>(rt: &R, one: &mut Raw, two: &mut Raw) -> bool
    ensures one { WritesOn one.old.has one.new.has }
    ensures two { WritesOn two.old.has two.new.has }
{
    let (is_one, is_two) = join_mut(
        rt,
        &mut || -> bool
            ensures { WritesOn one.entry.now.has one.exit.now.has }
        { writes(one, 3, b'a') },
        &mut || -> bool
            ensures { WritesOn two.entry.now.has two.exit.now.has }
        { writes(two, 4, b'A') },
    );
    is_one && is_two
}

// So they do while a third is lent its file.
fn all_at_once<R: Threads + Wait + Sync>(
    rt: &R,
    alloc: Global,
    shared: &Shared,
    one: &mut Raw,
    two: &mut Raw,
    third: &mut LibSeat,
) -> bool
    requires { Sits shared.now third.old }
    ensures one { WritesOn one.old.has one.new.has }
    ensures two { WritesOn two.old.has two.new.has }
    ensures third { SitsOn shared.now third.old third.new }
{
    let (are_written, are_lent) = join_mut(
        rt,
        &mut || -> bool
            requires { IsSync R.row }
            ensures one { WritesOn one.entry.now.has one.exit.now.has }
            ensures two { WritesOn two.entry.now.has two.exit.now.has }
        { both_write(rt, one, two) },
        &mut || -> bool
            requires { Sits shared.now third.now }
            ensures { SitsOn shared.entry.now third.entry.now third.exit.now }
        { borrows_alone(rt, alloc, shared, third) },
    );
    are_written && are_lent
}

/// Whether two libraries are lent their files, all goes well then, and both files are accepted.
pub fn writers_go_well<R: Threads + Wait + Sync>(
    rt: &R,
    alloc: Global,
    shared: &Shared,
    first: &mut LibSeat,
    second: &mut LibSeat,
    third: &mut LibSeat,
) -> bool
    requires first { IsNew shared.now 1 first.old }
    requires second { IsNew shared.now 2 second.old }
    requires third { IsNew shared.now 3 third.old }
    ensures first { IsBack shared.now 1 first.new }
    ensures second { IsBack shared.now 2 second.new }
    ensures third { IsBack shared.now 3 third.new }
{
    let mut one = empty_hands(alloc, first);
    let mut two = empty_hands(alloc, second);
    let is_one_lent = asks(rt, shared, first, &mut one, 3, GrantKind::Write) == Ok(0);
    let is_two_lent = asks(rt, shared, second, &mut two, 4, GrantKind::Write) == Ok(0);
    let is_done = all_at_once(rt, alloc, shared, &mut one, &mut two, third);
    let one_told = hands_in(rt, shared, first, &mut one, 3);
    let two_told = hands_in(rt, shared, second, &mut two, 4);
    one.discard();
    two.discard();
    let is_one_accepted = one_told == Ok(ReleaseAnswer::Accepted);
    let is_two_accepted = two_told == Ok(ReleaseAnswer::Accepted);
    is_one_lent & is_two_lent & is_done & is_one_accepted & is_two_accepted
}

// Whether a file's bytes are the block that was written last.
fn has_last(nodes: &Nodes, ino: u32, first: u8) -> bool {
    match nodes.get(ino) {
        Some(node) => node.bytes.as_slice() == block_at(TIMES - 1, first).as_slice(),
        None => false,
    }
}

/// Whether the settled image has what each of the two wrote last.
pub fn has_all_last(alloc: Global, ctl: &mut Ctl) -> Option<bool> {
    let nodes = settled_nodes(alloc, ctl)?;
    Some(has_last(&nodes, 3, b'a') && has_last(&nodes, 4, b'A'))
}

/// Two threads write the blocks of `/a/f` and `/a/g`, which their libraries are lent, while a third is
/// lent `/a/h` and gives it back: none of them hinders another, both files are accepted, and the
/// settled image has what was written last.
#[test]
fn lent_blocks_are_written_at_once(rt: HostRuntime) -> Result<(), Fail> {
    assert!(rt; goes_well(&rt, rt.alloc(), Scene::Writers) == Some(true));
    Ok(())
}
