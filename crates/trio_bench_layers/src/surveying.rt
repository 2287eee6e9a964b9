//! How long the survey takes for the worst images that are known, beside a full one.

use crate::images::{
    INODES, Image, RANGE, Shared, deep_image, equal_image, full_image, shared_image, wide_image,
};
use std::alloc::Global;
use std::io;
use std::rt::Clock;
use trio_bench_common::{Ratio, nanos_since, now, shortest};
use trio_page::Reads;
use trio_rights::Kind;
use trio_survey::{SurveyFault, survey};

/// The fastest of so many surveys counts.
const ROUNDS: u32 = 5;

/// What an image is like.
enum Shape {
    Deep,
    Wide,
    Equal,
    Shared(Shared),
}

/// An image that is measured, and the rule that fails in it.
type Measure = (&'static str, Shape, Option<u8>);

const MEASURES: &[Measure] = &[
    (
        "4,027 directories, each in the one before",
        Shape::Deep,
        None,
    ),
    ("16,383 files in one directory", Shape::Wide, None),
    ("3,500 directories of equal blocks", Shape::Equal, Some(2)),
    (
        "112,000 names that begin alike",
        Shape::Shared(Shared {
            files: 1,
            heads: 1,
            kind: Kind::Directory,
            again: Kind::Directory,
            blocks: 7000,
            empty: 0,
            is_long: true,
        }),
        Some(2),
    ),
    (
        "16,383 files of one chain of 7,511 blocks",
        Shape::Shared(Shared {
            files: 16_383,
            heads: 1,
            kind: Kind::Regular,
            again: Kind::Regular,
            blocks: 0,
            empty: 7000,
            is_long: false,
        }),
        Some(2),
    ),
    (
        "16,383 directories of one chain of 6,511 blocks",
        Shape::Shared(Shared {
            files: 16_383,
            heads: 1,
            kind: Kind::Directory,
            again: Kind::Directory,
            blocks: 6000,
            empty: 0,
            is_long: false,
        }),
        Some(2),
    ),
    (
        "7,300 files that share 7,400 blocks",
        Shape::Shared(Shared {
            files: 7300,
            heads: 7300,
            kind: Kind::Regular,
            again: Kind::Regular,
            blocks: 0,
            empty: 7400,
            is_long: false,
        }),
        Some(2),
    ),
    (
        "7,300 directories that share 7,400 empty blocks",
        Shape::Shared(Shared {
            files: 7300,
            heads: 7300,
            kind: Kind::Directory,
            again: Kind::Directory,
            blocks: 0,
            empty: 7400,
            is_long: false,
        }),
        Some(2),
    ),
    (
        "4,000 directories that share 3,700 full blocks",
        Shape::Shared(Shared {
            files: 4000,
            heads: 4000,
            kind: Kind::Directory,
            again: Kind::Directory,
            blocks: 3700,
            empty: 0,
            is_long: false,
        }),
        Some(2),
    ),
    (
        "4,000 directories that share 3,700 full blocks and 3,800 empty ones",
        Shape::Shared(Shared {
            files: 4000,
            heads: 4000,
            kind: Kind::Directory,
            again: Kind::Directory,
            blocks: 3700,
            empty: 3800,
            is_long: false,
        }),
        Some(2),
    ),
    (
        "5,000 directories and 5,000 files that share 2,200 full blocks and 5,300 empty ones",
        Shape::Shared(Shared {
            files: 10_000,
            heads: 5000,
            kind: Kind::Directory,
            again: Kind::Regular,
            blocks: 2200,
            empty: 5300,
            is_long: false,
        }),
        Some(2),
    ),
];

/// Prints how often the time of a full image goes into that of each other one.
pub fn measure_survey<R: Clock + Print + AllocGlobal>(rt: &R) -> io::Result<()> {
    let full = nanos_of_full(rt, rt.alloc());
    for (text, shape, fails) in MEASURES {
        match ratio_of(rt, rt.alloc(), shape, *fails, full) {
            Some(ratio) => println!(rt; "{text}: {ratio}")?,
            None => println!(rt; "{text}: out of memory, or no clock")?,
        }
    }
    Ok(())
}

fn ratio_of<R: Clock>(
    rt: &R,
    alloc: Global,
    shape: &Shape,
    fails: Option<u8>,
    full: Option<u128>,
) -> Option<Ratio> {
    let mut image = image_of(alloc, shape)?;
    Some(Ratio::of(fastest(rt, alloc, &mut image, fails)?, full?))
}

fn image_of(alloc: Global, shape: &Shape) -> Option<Image> {
    match shape {
        Shape::Deep => deep_image(alloc),
        Shape::Wide => wide_image(alloc),
        Shape::Equal => equal_image(alloc),
        Shape::Shared(shared) => shared_image(alloc, shared),
    }
}

fn nanos_of_full<R: Clock>(rt: &R, alloc: Global) -> Option<u128> {
    let mut image = full_image(alloc)?;
    fastest(rt, alloc, &mut image, None)
}

/// The nanoseconds of the fastest survey of an image, in which this rule fails.
fn fastest<R: Clock>(rt: &R, alloc: Global, image: &mut Image, fails: Option<u8>) -> Option<u128> {
    let mut nanos = Some(u128::MAX);
    for _ in 0..ROUNDS {
        nanos = shortest(nanos, nanos_of_one(rt, alloc, image, fails));
    }
    nanos
}

/// The nanoseconds of one survey. `None` where another rule fails than is meant.
fn nanos_of_one<R: Clock>(
    rt: &R,
    alloc: Global,
    image: &mut Image,
    fails: Option<u8>,
) -> Option<u128> {
    let mut reads = Reads::new();
    let start = now(rt);
    let answer = survey(
        alloc,
        &mut image.home,
        &image.root,
        RANGE,
        INODES,
        &mut reads,
    );
    let nanos = nanos_since(rt, start);
    let failed = match answer {
        Ok(_) => None,
        Err(SurveyFault::Fails { rule, .. }) => Some(rule),
        Err(SurveyFault::NoMemory) => Some(0),
    };
    if failed == fails { nanos } else { None }
}
