//! How long the judge takes for a bundle, beside another.

use crate::bundles::{Names, RANGE, Shape, bundle_of, root_alone};
use std::alloc::Global;
use std::io;
use std::rt::Clock;
use trio_bench_common::{Ratio, nanos_since, now, shortest};
use trio_case::Case;
use trio_judge::{Room, judge};
use trio_judge_tests::case_of;
use trio_page::Reads;
use trio_rights::{Creds, Kind};
use trio_tables::Shadow;

/// The fastest of so many judgements counts.
const ROUNDS: u32 = 5;

/// A bundle that is judged.
#[derive(Clone, Copy)]
enum Judged {
    /// A root of so many pages of 16 names, whose entries all name one file.
    Full(u32),
    /// A root of so many pages of two names, each of a file of its own.
    Sound(u32),
    /// A root of 4,000 full pages, so of 64,000 names.
    Named(Names),
    /// A root of so many full pages; so many files of this kind that list all of them again; and so
    /// many first index pages among these.
    Shared(u32, u32, Kind, u32),
}

fn shape_of(judged: Judged) -> Shape {
    match judged {
        Judged::Full(blocks) => full(blocks),
        Judged::Sound(blocks) => Shape {
            entries: 2,
            files: blocks.wrapping_mul(2),
            ..full(blocks)
        },
        Judged::Named(names) => Shape {
            names,
            ..full(4000)
        },
        Judged::Shared(blocks, sharing, kind, heads) => Shape {
            files: sharing,
            sharing,
            kind,
            heads,
            ..full(blocks)
        },
    }
}

fn full(blocks: u32) -> Shape {
    Shape {
        blocks,
        entries: 16,
        files: 1,
        sharing: 0,
        kind: Kind::Directory,
        heads: 0,
        names: Names::Plain,
    }
}

/// What is measured, and beside which bundle.
type Measure = (&'static str, Judged, Judged);

const MEASURES: &[Measure] = &[
    (
        "2,000 full pages beside 1,000",
        Judged::Full(2000),
        Judged::Full(1000),
    ),
    (
        "4,000 full pages beside 1,000",
        Judged::Full(4000),
        Judged::Full(1000),
    ),
    (
        "8,000 full pages beside 1,000",
        Judged::Full(8000),
        Judged::Full(1000),
    ),
    (
        "2,000 sound pages beside 1,000",
        Judged::Sound(2000),
        Judged::Sound(1000),
    ),
    (
        "4,000 sound pages beside 1,000",
        Judged::Sound(4000),
        Judged::Sound(1000),
    ),
    (
        "8,000 sound pages beside 1,000",
        Judged::Sound(8000),
        Judged::Sound(1000),
    ),
    (
        "64,000 names that collide beside plain ones",
        Judged::Named(Names::Colliding),
        Judged::Named(Names::Plain),
    ),
    (
        "the same in no order",
        Judged::Named(Names::CollidingMixed),
        Judged::Named(Names::Plain),
    ),
    (
        "the same by halves",
        Judged::Named(Names::CollidingHalved),
        Judged::Named(Names::Plain),
    ),
    (
        "64,000 names that begin alike beside plain ones",
        Judged::Named(Names::Long),
        Judged::Named(Names::Plain),
    ),
    (
        "16,383 files of one head over 1,100 pages beside 1,100",
        Judged::Shared(1100, 16_383, Kind::Regular, 1),
        Judged::Full(1100),
    ),
    (
        "125 directories over 124 pages beside 250",
        Judged::Shared(124, 125, Kind::Directory, 125),
        Judged::Full(250),
    ),
    (
        "250 directories over 249 pages beside 500",
        Judged::Shared(249, 250, Kind::Directory, 250),
        Judged::Full(500),
    ),
    (
        "500 directories over 498 pages beside 1,000",
        Judged::Shared(498, 500, Kind::Directory, 500),
        Judged::Full(1000),
    ),
    (
        "500 directories of one head over 248 pages beside 250",
        Judged::Shared(248, 500, Kind::Directory, 1),
        Judged::Full(250),
    ),
    (
        "1,000 directories of one head over 248 pages beside 250",
        Judged::Shared(248, 1000, Kind::Directory, 1),
        Judged::Full(250),
    ),
];

/// Prints how often the time of one bundle goes into that of the other.
pub fn measure_judge<R: Clock + Print + AllocGlobal>(rt: &R) -> io::Result<()> {
    for (text, judged, beside) in MEASURES {
        match ratio_of(rt, rt.alloc(), *judged, *beside) {
            Some(ratio) => println!(rt; "{text}: {ratio}")?,
            None => println!(rt; "{text}: out of memory, or no clock")?,
        }
    }
    Ok(())
}

fn ratio_of<R: Clock>(rt: &R, alloc: Global, judged: Judged, beside: Judged) -> Option<Ratio> {
    let time = nanos_of(rt, alloc, judged)?;
    Some(Ratio::of(time, nanos_of(rt, alloc, beside)?))
}

/// The nanoseconds of the fastest judgement of a bundle.
fn nanos_of<R: Clock>(rt: &R, alloc: Global, judged: Judged) -> Option<u128> {
    let case = case_for(alloc, judged)?;
    let nanos = fastest(rt, alloc, &case);
    case.into_bundle().discard();
    nanos
}

fn case_for(alloc: Global, judged: Judged) -> Option<Case> {
    let rows = root_alone(alloc)?;
    case_on(alloc, &rows, &shape_of(judged))
}

fn case_on(alloc: Global, rows: &Shadow, shape: &Shape) -> Option<Case> {
    let bundle = bundle_of(alloc, shape)?;
    case_of(alloc, Creds { uid: 0, gid: 0 }, bundle, rows, RANGE)
}

fn fastest<R: Clock>(rt: &R, alloc: Global, case: &Case) -> Option<u128> {
    let mut nanos = Some(u128::MAX);
    for _ in 0..ROUNDS {
        nanos = shortest(nanos, nanos_of_one(rt, alloc, case));
    }
    nanos
}

/// The nanoseconds of one judgement, for which there is room.
fn nanos_of_one<R: Clock>(rt: &R, alloc: Global, case: &Case) -> Option<u128> {
    let Ok(room) = Room::with(alloc, case) else {
        return None;
    };
    let mut reads = Reads::new();
    let start = now(rt);
    let _verdict = judge(case, room, &mut reads);
    nanos_since(rt, start)
}
