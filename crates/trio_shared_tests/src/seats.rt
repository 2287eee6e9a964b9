//! Libraries at their seats.

ghost use Rattle.std.specs.Prelude.{◌≡◌, ◌≤◌, IfSome};
ghost use Rattle.trio_raw.specs.Has.{nothing};
ghost use Rattle.trio_shared_tests.specs.Seen.{HaveSeen};
ghost use Rattle.trio_shared_tests.specs.Sits.{AreAll, IsBack, IsNew, Plays, PlaysOn};

use std::alloc::Global;
use std::sync::Wait;
use trio_ctl::Ctl;
use trio_image::Image;
use trio_nodes::{AllotAnswer, GrantFault, GrantKind, ModeFault, ReleaseAnswer};
use trio_page::NoMemory;
use trio_raw::{Absent, Raw, RawFault};
use trio_rights::Creds;
use trio_shared::{LibSeat, SeatDesk, Shared};

/// The credentials of libraries of uid 0.
pub const ROOTS: [Creds; 4] = [Creds { uid: 0, gid: 0 }; 4];

/// The controller of an image, and the seats of so many libraries of uid 0, which have nothing out.
pub fn start(alloc: Global, image: Image, count: u32) -> Option<(Shared, Vec<LibSeat>)>
    requires some { 1 ≤ count }
    requires few { count ≤ 4 }
    ensures { IfSome result (λ r. AreAll IsNew r.0 r.1.items) }
{
    let libs = ROOTS[..count as usize].to_vec(alloc).ok()?;
    let Ok(ctl) = Ctl::start(alloc, image, libs) else {
        return None;
    };
    match Shared::start(alloc, ctl, count) {
        Ok(started) => Some(started),
        Err(_) => None,
    }
}

/// The controller, once all seats are back. Each of them has seen its own entries.
pub fn close(shared: Shared, seats: Vec<LibSeat>) -> Option<Ctl>
    requires { AreAll IsBack shared seats.items }
    ensures { IfSome result (λ ctl. HaveSeen seats.items ctl.log) }
{
    shared.close(seats).ok()
}

/// Asks for a grant on a file.
pub fn asks<R: Wait>(
    rt: &R,
    shared: &Shared,
    seat: &mut LibSeat,
    raw: &mut Raw,
    ino: u32,
    kind: GrantKind,
) -> Result<u32, GrantFault>
    requires plays { Plays shared.now seat.old raw.old.has }
    ensures on { PlaysOn shared.now seat.old seat.new raw.new.has }
{
    let mut desk = SeatDesk::of(rt, shared, seat);
    raw.grant(&mut desk, ino, kind)
}

/// Asks for pages and inode numbers.
pub fn allots<R: Wait>(
    rt: &R,
    shared: &Shared,
    seat: &mut LibSeat,
    raw: &mut Raw,
    pages: u32,
    inodes: u32,
) -> Result<AllotAnswer, NoMemory>
    requires plays { Plays shared.now seat.old raw.old.has }
    ensures on { PlaysOn shared.now seat.old seat.new raw.new.has }
{
    let mut desk = SeatDesk::of(rt, shared, seat);
    raw.allot(&mut desk, pages, inodes)
}

/// Asks for another mode of a file.
pub fn changes_mode<R: Wait>(
    rt: &R,
    shared: &Shared,
    seat: &mut LibSeat,
    raw: &mut Raw,
    ino: u32,
    mode: u16,
) -> Result<(), ModeFault>
    requires plays { Plays shared.now seat.old raw.old.has }
    ensures on { PlaysOn shared.now seat.old seat.new raw.new.has }
{
    let mut desk = SeatDesk::of(rt, shared, seat);
    raw.set_mode(&mut desk, ino, mode)
}

/// Hands in write leases and holds on files, and pages and inode numbers that were allotted.
pub fn releases<R: Wait>(
    rt: &R,
    shared: &Shared,
    seat: &mut LibSeat,
    raw: &mut Raw,
    inos: &[u32],
    pages: &[u32],
    inodes: &[u32],
) -> Result<ReleaseAnswer, RawFault>
    requires plays { Plays shared.now seat.old raw.old.has }
    ensures on { PlaysOn shared.now seat.old seat.new raw.new.has }
{
    let mut desk = SeatDesk::of(rt, shared, seat);
    raw.release(&mut desk, inos, pages, inodes)
}

/// Hands in the write lease or the hold on a file.
pub fn hands_in<R: Wait>(
    rt: &R,
    shared: &Shared,
    seat: &mut LibSeat,
    raw: &mut Raw,
    ino: u32,
) -> Result<ReleaseAnswer, RawFault>
    requires plays { Plays shared.now seat.old raw.old.has }
    ensures on { PlaysOn shared.now seat.old seat.new raw.new.has }
{
    releases(rt, shared, seat, raw, &[ino], &[], &[])
}

/// Gives the read lease on a file back.
pub fn gives_back<R: Wait>(
    rt: &R,
    shared: &Shared,
    seat: &mut LibSeat,
    raw: &mut Raw,
    ino: u32,
) -> Result<(), Absent>
    requires plays { Plays shared.now seat.old raw.old.has }
    ensures on { PlaysOn shared.now seat.old seat.new raw.new.has }
{
    let mut desk = SeatDesk::of(rt, shared, seat);
    raw.back(&mut desk, ino)
}

/// What the library of a seat has first, which is nothing.
pub fn empty_hands(alloc: Global, seat: &LibSeat) -> Raw
    ensures { result.has ≡ nothing }
{
    Raw::new(alloc, seat.library())
}
