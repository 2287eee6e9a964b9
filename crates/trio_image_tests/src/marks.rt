//! Marks of several rounds.

use std::alloc::Global;
use trio_marks::Marks;

/// What is answered of 1 where it is marked twice, and then of 1, 2 and 3.
const FIRST: (bool, bool, bool, bool, bool) = (true, false, true, false, false);

/// What is answered of 1 in the next round, and where it is marked twice.
const NEXT: (bool, bool, bool) = (false, true, false);

fn are_new_once(alloc: Global) -> Option<bool> {
    let mut marks = Marks::with(alloc, 3).ok()?;
    let first = (
        marks.set(1),
        marks.set(1),
        marks.has(1),
        marks.has(2),
        marks.has(3),
    );
    marks.clear();
    let next = (marks.has(1), marks.set(1), marks.set(1));
    Some(marks.len() == 3 && first == FIRST && next == NEXT)
}

#[test]
fn a_mark_is_new_once_a_round(rt: HostRuntime) {
    assert!(rt; are_new_once(rt.alloc()) == Some(true));
}
