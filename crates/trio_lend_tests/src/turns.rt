//! Turns that two threads take.

ghost use Rattle.std.specs.Prelude.{◌≡◌, [], None, IfSome};
ghost use Rattle.trio_turn.specs.Seats.{cell, library_count, cell_of, library, has, IsSameSeat};

use std::alloc::Global;
use std::sync::Wait;
use std::test::Fail;
use std::thread;
use std::thread::Threads;
use trio_nodes::Entry;
use trio_rights::LibNo;
use trio_turn::{LibSeat, Logged, Turn};

const CALLS: u32 = 1000;

/// A value that has entries and nothing else.
#[derive(Drop)]
pub struct Sheet {
    entries: Vec<Entry>,
}

impl Logged for Sheet {
    ghost use Rattle.std.specs.Prelude.{None};
    ghost use Rattle.trio_turn.specs.Origins.{no_origin};

    ghost first = { λ s. no_origin };

    ghost log = { λ s. s.entries.items };

    ghost begun = { λ s l. None };

    fn len(&self) -> u64 {
        self.entries.len() as u64
    }
}

// A turn of the seat, in which it makes an entry. Tells the entry's number.
fn note<R: Wait>(rt: &R, turn: &Turn<Sheet>, seat: &mut LibSeat<Sheet>, ino: u32) -> Option<usize>
    requires { (cell_of seat.old ≡ cell turn.now) × (has seat.old ≡ None) }
    ensures { IsSameSeat seat.old seat.new × (has seat.new ≡ None) }
{
    let mut sheet = turn.take(rt, seat);
    let number = sheet.entries.len();
    let made = sheet.entries.push(Entry::Back {
        lib: seat.library(),
        ino,
    });
    turn.give(seat, sheet);
    made.ok()?;
    Some(number)
}

// Makes entries, and puts their numbers behind those that there are.
fn note_all<R: Wait>(
    rt: &R,
    turn: &Turn<Sheet>,
    mut seat: LibSeat<Sheet>,
    mut numbers: Vec<usize>,
) -> (LibSeat<Sheet>, Vec<usize>)
    requires { (cell_of seat ≡ cell turn.now) × (has seat ≡ None) }
    ensures { IsSameSeat seat result.0 × (has result.0 ≡ None) }
{
    for ino in 0..CALLS {
        if let Some(number) = note(rt, turn, &mut seat, ino) {
            let _pushed = numbers.push(number);
        }
    }
    (seat, numbers)
}

// A cell with the seats of libraries 1 and 2.
fn start_two(alloc: Global) -> Option<(Turn<Sheet>, LibSeat<Sheet>, LibSeat<Sheet>)>
    ensures cell { IfSome result (λ r. (library_count r.0 ≡ 2) × (cell_of r.1 ≡ cell r.0) × (cell_of r.2 ≡ cell r.0)) }
    ensures seats { IfSome result (λ r. (library r.1 ≡ 1) × (library r.2 ≡ 2) × (has r.1 ≡ None) × (has r.2 ≡ None)) }
{
    let sheet = Sheet {
        entries: Vec::new(alloc),
    };
    let Ok((turn, mut seats)) = Turn::start(alloc, sheet, 2) else {
        return None;
    };
    let Some(second) = seats.pop() else {
        unreachable!()
    };
    let Some(first) = seats.pop() else {
        unreachable!()
    };
    Some((turn, first, second))
}

// The seats meet, and the cell is closed.
fn close_two(
    alloc: Global,
    turn: Turn<Sheet>,
    mut first: LibSeat<Sheet>,
    mut second: LibSeat<Sheet>,
) -> Option<Sheet>
    requires cell { (library_count turn ≡ 2) × (cell_of first ≡ cell turn) × (cell_of second ≡ cell turn) }
    requires seats { (library first ≡ 1) × (library second ≡ 2) × (has first ≡ None) × (has second ≡ None) }
{
    turn.meet(&mut first, &mut second);
    let mut seats = Vec::new(alloc);
    seats.push(first).ok()?;
    seats.push(second).ok()?;
    turn.close(seats).ok()
}

// What two threads left, and the numbers that each was told.
fn noted_by_two<R: Threads + Wait + Sync>(
    rt: &R,
    alloc: Global,
) -> Option<(Sheet, Vec<usize>, Vec<usize>)> {
    let (turn, first, second) = start_two(alloc)?;
    let shared = &turn;
    let (mine, yours) = (Vec::new(alloc), Vec::new(alloc));
    let ((first, mine), (second, yours)) = thread::join(
        rt,
        || -> (LibSeat<Sheet>, Vec<usize>)
            requires { (cell_of first ≡ cell shared.now) × (has first ≡ None) }
            ensures { IsSameSeat first result.0 × (has result.0 ≡ None) }
        { note_all(rt, shared, first, mine) },
        || -> (LibSeat<Sheet>, Vec<usize>)
            requires { (cell_of second ≡ cell shared.now) × (has second ≡ None) }
            ensures { IsSameSeat second result.0 × (has result.0 ≡ None) }
        { note_all(rt, shared, second, yours) },
    );
    let sheet = close_two(alloc, turn, first, second)?;
    Some((sheet, mine, yours))
}

// Whether there is an entry of this number, by this library for this file.
fn is_entry(sheet: &Sheet, number: usize, library: LibNo, file: usize) -> bool {
    match sheet.entries.get(number) {
        Some(Entry::Back { lib, ino }) => *lib == library && *ino as usize == file,
        _ => false,
    }
}

/// Two threads make 1,000 entries each. At the end there are 2,000, and each call's is at the number
/// that the call was told, which is higher than those before it: so each is there once, and each
/// thread's own are in its order.
#[test]
fn two_threads_share_one_history(rt: HostRuntime) -> Result<(), Fail> {
    let (sheet, mine, yours) = noted_by_two(&rt, rt.alloc()).ok_or("memory")?;
    assert_eq!(rt; sheet.entries.len(), 2000);
    for (library, numbers) in [(LibNo(1), &mine), (LibNo(2), &yours)] {
        assert_eq!(rt; numbers.len(), 1000, "calls of {library:?}");
        let mut last = None;
        for (file, number) in numbers.iter().enumerate() {
            assert!(rt;
                is_entry(&sheet, *number, library, file),
                "{library:?}, call {file}"
            );
            assert!(rt; last < Some(*number), "{library:?}, call {file}");
            last = Some(*number);
        }
    }
    Ok(())
}
