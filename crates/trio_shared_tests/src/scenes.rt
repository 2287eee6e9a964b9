//! What libraries do at the seats of one controller, and what is left when all is done.

ghost use Rattle.std.specs.Prelude.{◌≤◌};
ghost use Rattle.trio_shared_tests.specs.Sits.{AreAll, IsBack, IsNew};

use crate::at_once::{has_all_last, writers_go_well};
use crate::images::{three_files, two_directories, two_files};
use crate::moves::moves_go_well;
use crate::replays::is_replayed;
use crate::rows::{Step, are_of, steps_go_well};
use crate::seats::{ROOTS, close, start};
use crate::threads::threads_go_well;
use std::alloc::Global;
use std::sync::Wait;
use std::thread::Threads;
use trio_ctl::Ctl;
use trio_image::Image;
use trio_nodes::{Entry, ReleaseAnswer};
use trio_shared::{LibSeat, Shared};

/// What libraries do at the seats of one controller.
#[derive(Clone, Copy)]
pub enum Scene {
    /// Two make calls, one after the other, and the log has entries of these libraries then.
    Steps(&'static [Step], &'static [u32]),
    /// One of two makes a call between the two moves of a release of the other.
    TwoMoves,
    /// Two of four write into what they are lent, while a third is lent a file again and again.
    Writers,
    /// Four act in threads of their own, with random numbers from this seed on.
    Threads(u64),
}

fn image(alloc: Global, scene: Scene) -> Option<Image> {
    match scene {
        Scene::Steps(..) | Scene::TwoMoves => two_files(alloc),
        Scene::Writers => three_files(alloc),
        Scene::Threads(_) => two_directories(alloc),
    }
}

// How many libraries there are.
fn count(scene: Scene) -> u32
    ensures some { 1 ≤ result }
    ensures few { result ≤ 4 }
{
    match scene {
        Scene::Steps(..) | Scene::TwoMoves => 2,
        Scene::Writers | Scene::Threads(_) => 4,
    }
}

// Whether the steps of the first two libraries are told so.
fn steps<R: Wait>(
    rt: &R,
    alloc: Global,
    shared: &Shared,
    seats: &mut [LibSeat],
    steps: &[Step],
) -> bool
    requires { AreAll IsNew shared.now seats.old }
    ensures { AreAll IsBack shared.now seats.new }
{
    if seats.len() < 2 {
        return false;
    }
    let (ones, twos) = seats.split_at_mut(1);
    steps_go_well(rt, alloc, shared, &mut ones[0], &mut twos[0], steps)
}

// Whether a call of the second library comes between the two moves of a release of the first.
fn two_moves<R: Wait>(rt: &R, alloc: Global, shared: &Shared, seats: &mut [LibSeat]) -> bool
    requires { AreAll IsNew shared.now seats.old }
    ensures { AreAll IsBack shared.now seats.new }
{
    if seats.len() < 2 {
        return false;
    }
    let (firsts, seconds) = seats.split_at_mut(1);
    moves_go_well(rt, alloc, shared, &mut firsts[0], &mut seconds[0])
}

// Whether all goes well where the first two write and the third is lent a file.
fn writers<R: Threads + Wait + Sync>(
    rt: &R,
    alloc: Global,
    shared: &Shared,
    seats: &mut [LibSeat],
) -> bool
    requires { AreAll IsNew shared.now seats.old }
    ensures { AreAll IsBack shared.now seats.new }
{
    if seats.len() < 3 {
        return false;
    }
    let (firsts, others) = seats.split_at_mut(1);
    let (seconds, thirds) = others.split_at_mut(1);
    writers_go_well(
        rt,
        alloc,
        shared,
        &mut firsts[0],
        &mut seconds[0],
        &mut thirds[0],
    )
}

// Plays a scene. Whether all that is told is as it is to be.
fn plays<R: Threads + Wait + Sync>(
    rt: &R,
    alloc: Global,
    shared: &Shared,
    seats: &mut [LibSeat],
    scene: Scene,
) -> bool
    requires { AreAll IsNew shared.now seats.old }
    ensures { AreAll IsBack shared.now seats.new }
{
    match scene {
        Scene::Steps(all, _) => steps(rt, alloc, shared, seats, all),
        Scene::TwoMoves => two_moves(rt, alloc, shared, seats),
        Scene::Writers => writers(rt, alloc, shared, seats),
        Scene::Threads(seed) => threads_go_well(rt, alloc, shared, seats, seed),
    }
}

// Whether the closed controller is left as it is to be.
fn is_left(alloc: Global, ctl: &mut Ctl, scene: Scene) -> Option<bool> {
    match scene {
        Scene::Steps(_, libs) => Some(are_of(ctl.log().entries(), libs)),
        Scene::TwoMoves => Some(are_of(ctl.log().entries(), &[1, 2, 1])),
        Scene::Writers => has_all_last(alloc, ctl),
        Scene::Threads(_) => is_replayed(alloc, &ROOTS, ctl),
    }
}

// How many releases were accepted, and how many refused.
fn verdicts(entries: &[Entry]) -> (u32, u32) {
    let (mut accepted, mut refused) = (0_u32, 0_u32);
    for entry in entries {
        match entry {
            Entry::Raw {
                verdict: ReleaseAnswer::Accepted,
                ..
            } => accepted = accepted.saturating_add(1),
            Entry::Raw { .. } => refused = refused.saturating_add(1),
            _ => {}
        }
    }
    (accepted, refused)
}

/// Plays a scene at a controller, and closes it. Whether all that is told and left is as it is to be, and
/// how many releases were accepted and refused.
pub fn outcome<R: Threads + Wait + Sync>(
    rt: &R,
    alloc: Global,
    scene: Scene,
) -> Option<(bool, (u32, u32))> {
    let image = image(alloc, scene)?;
    let (shared, mut seats) = start(alloc, image, count(scene))?;
    let is_told = plays(rt, alloc, &shared, &mut seats, scene);
    let mut ctl = close(shared, seats)?;
    let is_left = is_left(alloc, &mut ctl, scene)?;
    Some((is_told && is_left, verdicts(ctl.log().entries())))
}

/// Whether all of a scene is as it is to be.
pub fn goes_well<R: Threads + Wait + Sync>(rt: &R, alloc: Global, scene: Scene) -> Option<bool> {
    let (is_so, _) = outcome(rt, alloc, scene)?;
    Some(is_so)
}
