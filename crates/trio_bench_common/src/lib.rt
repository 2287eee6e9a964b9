//! What the benchmark programs have in common: their words, images of a few files, the times that a clock
//! tells, the least of some rounds, and how often one time goes into another.
#![tactic(auto)]

ghost use Rattle.std.specs.Prelude.{◌≡◌};
ghost use Rattle.trio_bench_common.specs.Times.{hundredths, lesser, lesser_times};

use std::alloc::Global;
use std::rt::{Clock, Env};
use std::time::Instant;
use std::{env, fmt, io};
use trio_image::{Image, load};
use trio_io::SureFiles;
use trio_samples::{Sample, SampleFile};

/// The words that the process was given, the program's name first.
pub fn words_given<R: Env + AllocGlobal>(rt: &R) -> io::Result<Vec<String>> {
    let mut words = Vec::new(rt.alloc());
    for word in env::args(rt)? {
        words.push(word)?;
    }
    Ok(words)
}

/// The name of the file that an image is loaded from.
const NAME: &str = "a.img";

/// The image of these files, of 1,024 pages and 64 inode numbers.
pub fn image_of(alloc: Global, files: &[SampleFile]) -> Option<Image> {
    let bytes = bytes_of(alloc, files)?;
    let mut held = held(alloc, bytes)?;
    if held.serves(NAME) {
        load(alloc, &mut held, NAME).ok()
    } else {
        None
    }
}

fn bytes_of(alloc: Global, files: &[SampleFile]) -> Option<Vec<u8>> {
    Sample::of(alloc, 1024, 64, files).ok()?.bytes(alloc).ok()
}

/// The one file that is served, with these bytes.
fn held(alloc: Global, bytes: Vec<u8>) -> Option<SureFiles> {
    let mut files = empty_file(alloc)?;
    files.hold(NAME, bytes);
    Some(files)
}

fn empty_file(alloc: Global) -> Option<SureFiles> {
    let names = vec![in alloc; String::from_str(alloc, NAME).ok()?].ok()?;
    SureFiles::new(alloc, names).ok()
}

/// What the clock tells. `None` where it tells nothing.
pub fn now<R: Clock>(rt: &R) -> Option<Instant> {
    Instant::now(rt).ok()
}

/// The nanoseconds since then. `None` where the clock doesn't tell.
pub fn nanos_since<R: Clock>(rt: &R, start: Option<Instant>) -> Option<u128> {
    Some(now(rt)?.duration_since(start?).as_nanos())
}

/// The nanoseconds of two things, of which the second stands beside the first.
#[derive(Clone, Copy)]
pub struct Times {
    pub first: u128,
    pub second: u128,
}

impl Times {
    /// More than any time, before the first round.
    pub const LONGEST: Times = Times {
        first: u128::MAX,
        second: u128::MAX,
    };

    /// How often the second goes into the first.
    pub fn ratio(self) -> Ratio
        ensures { result ≡ record { 0 = hundredths self.first self.second } }
    {
        Ratio::of(self.first, self.second)
    }
}

/// The least times of some rounds and of one more, in which the two things come in turn. `None` where
/// a round has no time.
pub fn least(least: Option<Times>, first: Option<u128>, second: Option<u128>) -> Option<Times>
    ensures { result ≡ lesser_times least first second }
{
    let least = least?;
    Some(Times {
        first: first?.min(least.first),
        second: second?.min(least.second),
    })
}

/// The less of two times. `None` where one is wanting.
pub fn shortest(one: Option<u128>, other: Option<u128>) -> Option<u128>
    ensures { result ≡ lesser one other }
{
    Some(one?.min(other?))
}

/// How often one number goes into another, in hundredths.
#[derive(Clone, Copy)]
pub struct Ratio(pub u128);

impl Ratio {
    /// How often `beside` goes into `number`; as if it were 1 where it is 0.
    pub fn of(number: u128, beside: u128) -> Ratio
        ensures { result ≡ record { 0 = hundredths number beside } }
    {
        Ratio(number.saturating_mul(100) / beside.max(1))
    }
}

impl fmt::Display for Ratio {
    fn fmt<W: fmt::Write>(&self, f: &mut fmt::Formatter<W>) -> fmt::Result {
        let ones = self.0 / 100;
        let hundredths = self.0 % 100;
        write!(f, "{ones}.{hundredths:02}")
    }
}
