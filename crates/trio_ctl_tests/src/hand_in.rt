//! Read leases that a library hands in: with a settle, and with a change of mode.

ghost use Rattle.std.specs.Prelude.{◌≡◌, ◌∷◌, [], IfSome, length};
ghost use Rattle.trio_lists.specs.Lists.{In};
ghost use Rattle.trio_lease.specs.declared.lease.Lease.TheVariants.{Read};
ghost use Rattle.trio_desk.specs.Out.{OutAlike, nothing_out, with_lease};
ghost use Rattle.trio_ctl.specs.Ctl.{NoneBegun};
ghost use Rattle.trio_ctl.specs.Desk.{out_of};

use crate::controllers::{Trial, passes};
use crate::images::Start;
use crate::lines::has_lines;
use std::alloc::Global;
use trio_ctl::{Ctl, PlainDesk};
use trio_desk::Desk;
use trio_lease::{Bundle, Lease, ReadLease};
use trio_nodes::{GrantKind, Holder, ModeFault};
use trio_rights::LibNo;

// A lease to read a file, where the desk gives one.
fn read_lease<D: Desk>(desk: &mut D, ino: u32) -> Option<ReadLease>
    ensures { IfSome result (λ lease. OutAlike (D.seen desk.new).out (with_lease (D.seen desk.old).out (Read lease))) }
{
    match desk.grant(ino, GrantKind::Read) {
        Ok(lease) => read_of(lease),
        Err(_) => None,
    }
}

fn read_of(lease: Lease) -> Option<ReadLease>
    ensures { IfSome result (λ r. lease ≡ Read r) }
{
    match lease {
        Lease::Read(lease) => Some(lease),
        other => {
            other.discard();
            None
        }
    }
}

// The lease alone, as a list.
fn listed(alloc: Global, lease: ReadLease) -> Option<Vec<ReadLease>>
    ensures { IfSome result (λ back. back.items ≡ lease ∷ []) }
{
    let mut back = Vec::new(alloc);
    match back.push(lease) {
        Ok(()) => Some(back),
        Err(failed) => {
            failed.value.discard();
            back.destroy_empty();
            None
        }
    }
}

fn let_go(mut back: Vec<ReadLease>) {
    while let Some(lease) = back.pop() {
        lease.discard();
    }
    back.destroy_empty();
}

// Takes a file for reading, and hands the lease in with a settle that has nothing else. Whether it settles;
// `None` where it has no lease to hand in.
fn settle_reader<D: Desk>(alloc: Global, desk: &mut D, ino: u32) -> Option<bool>
    requires { OutAlike (D.seen desk.old).out nothing_out }
{
    let lease = read_lease(desk, ino)?;
    let back = listed(alloc, lease)?;
    match desk.settle(Bundle::new(alloc), back, Vec::new(alloc)) {
        Ok(()) => Some(true),
        Err((bundle, back, _calls, _fault)) => {
            bundle.discard();
            let_go(back);
            Some(false)
        }
    }
}

// Asks for a file to write it, and lets it go.
fn take_for_writing<D: Desk>(desk: &mut D, ino: u32) {
    if let Ok(lease) = desk.grant(ino, GrantKind::Write) {
        lease.discard();
    }
}

// A reader of the file `f` that settles, and that writes it then.
fn reads_and_writes(alloc: Global, ctl: &mut Ctl) -> Option<()>
    requires two { length ctl.old.state.creds ≡ 2 }
    requires idle { NoneBegun ctl.old }
    requires nothing { OutAlike (out_of ctl.old.state (record { 0 = 1 })) nothing_out }
{
    let mut desk = PlainDesk::of(ctl, LibNo(1));
    if !settle_reader(alloc, &mut desk, 3)? {
        return None;
    }
    take_for_writing(&mut desk, 3);
    Some(())
}

const SETTLED: &str = "1 grant read 3 granted 0\n\
    1 back 3\n\
    1 batch 0\n \
    writes - holds - pages - numbers -\n\
    1 grant write 3 granted 0\n";

#[test]
fn a_settle_gives_read_leases_back(rt: HostRuntime) {
    assert!(rt; passes(rt.alloc(), Start::OneFile, 0, &Deed::Settles));
}

// What a settle needs that has nothing in its bundle: 4 bytes for each of 32 pages and 64 numbers, and
// 1024 for itself.
const ROOM: u64 = 1408;

// Makes room for that, and for the two entries of a grant for reading. Whether there is room then.
fn has_room(ctl: &mut Ctl) -> bool
    requires two { length ctl.old.state.creds ≡ 2 }
    requires idle { NoneBegun ctl.old }
    requires nothing { OutAlike (out_of ctl.old.state (record { 0 = 1 })) nothing_out }
    ensures two { length ctl.new.state.creds ≡ 2 }
    ensures idle { NoneBegun ctl.new }
    ensures nothing { OutAlike (out_of ctl.new.state (record { 0 = 1 })) nothing_out }
{
    ctl.make_room(3, ROOM).is_ok()
}

// Whether a reader of the file `f` settles once there is room; `None` where memory was wanting before.
fn settles_with_room(alloc: Global, ctl: &mut Ctl) -> Option<bool>
    requires two { length ctl.old.state.creds ≡ 2 }
    requires idle { NoneBegun ctl.old }
    requires nothing { OutAlike (out_of ctl.old.state (record { 0 = 1 })) nothing_out }
{
    if !has_room(ctl) {
        return None;
    }
    let mut desk = PlainDesk::of(ctl, LibNo(1));
    settle_reader(alloc, &mut desk, 3)
}

// Whichever allocation fails, a settle that has room is answered as it is with ample memory.
#[test]
fn a_settle_with_room_lacks_no_memory(rt: HostRuntime) {
    assert!(rt; !passes(rt.alloc(), Start::OneFile, 0, &Deed::LacksMemoryWithRoom));
}

// Hands the lease in with a change of the mode of the file 3; where it comes back, it is given back.
fn hand_in<D: Desk>(alloc: Global, desk: &mut D, lease: ReadLease) -> Option<Result<(), ModeFault>>
    requires { In lease (D.seen desk.old).out.reads }
{
    let back = listed(alloc, lease)?;
    match desk.set_mode(3, 0o600, back, None) {
        Ok(()) => Some(Ok(())),
        Err((mut back, _call, fault)) => {
            if let Some(lease) = back.pop() {
                desk.give_back(lease);
            }
            back.destroy_empty();
            Some(Err(fault))
        }
    }
}

// Takes two files for reading, keeps the lease on the first, and hands in that on the second.
fn change_mode<D: Desk>(
    alloc: Global,
    desk: &mut D,
    kept: u32,
    handed: u32,
) -> Option<Result<(), ModeFault>> {
    read_lease(desk, kept)?.discard();
    let lease = read_lease(desk, handed)?;
    hand_in(alloc, desk, lease)
}

// A change of the mode of `f`.
struct Row {
    name: &'static str,
    // The file whose lease is kept, and the one whose lease is handed in.
    kept: u32,
    handed: u32,
    told: Result<(), ModeFault>,
    // The log then.
    lines: &'static str,
}

const HOLDER: Holder = Holder {
    lib: LibNo(1),
    kind: GrantKind::Read,
    entry: 0,
};

const ROWS: &[Row] = &[
    Row {
        name: "the lease on the directory of `f` is handed in",
        kept: 1,
        handed: 2,
        told: Ok(()),
        lines: "1 grant read 1 granted 0\n1 grant read 2 granted 0\n1 back 2\n1 mode 3 600 ok\n",
    },
    Row {
        name: "it is kept, and the other one comes back",
        kept: 2,
        handed: 1,
        told: Err(ModeFault::Busy(HOLDER)),
        lines: "1 grant read 2 granted 0\n1 grant read 1 granted 0\n1 back 1\n",
    },
];

fn is_changed(alloc: Global, ctl: &mut Ctl, row: &Row) -> bool
    requires two { length ctl.old.state.creds ≡ 2 }
    requires idle { NoneBegun ctl.old }
{
    let mut desk = PlainDesk::of(ctl, LibNo(1));
    change_mode(alloc, &mut desk, row.kept, row.handed) == Some(row.told)
}

/// What is done with a controller that has just started, and what its log has then.
#[derive(Clone, Copy)]
enum Deed {
    Settles,
    /// A settle comes back though there is room.
    LacksMemoryWithRoom,
    ChangesMode(&'static Row),
}

impl Trial for Deed {
    fn passes(&self, alloc: Global, ctl: &mut Ctl) -> bool {
        match self {
            Deed::Settles => {
                reads_and_writes(alloc, ctl).is_some() && has_lines(alloc, ctl, SETTLED)
            }
            Deed::LacksMemoryWithRoom => settles_with_room(alloc, ctl) == Some(false),
            Deed::ChangesMode(row) => {
                is_changed(alloc, ctl, row) && has_lines(alloc, ctl, row.lines)
            }
        }
    }
}

#[test]
fn a_change_of_mode_takes_read_leases(rt: HostRuntime) {
    for row in ROWS {
        assert!(rt;
            passes(rt.alloc(), Start::OneFile, 0, &Deed::ChangesMode(row)),
            "{}",
            row.name
        );
    }
}
