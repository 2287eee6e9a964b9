//! Scripts of libraries: what their lines are told, and what they leave.

ghost use Rattle.std.specs.Prelude.{◌≤◌, length};
ghost use Rattle.trio_script.specs.Within.{AreWithin};

use crate::images::{Start, image_of, loaded};
use std::alloc::Global;
use trio_ctl::Ctl;
use trio_image::{Counts, Image};
use trio_page::NoMemory;
use trio_report::{LineAnswer, put_answer};
use trio_runner::{LibTold, RawAndHonest, creds_of, play};
use trio_script::{ScriptLib, read_script};

/// A line of a library, and what it is told.
pub type Row = (&'static str, &'static str);

/// A library of a script: the line that begins it, and its lines. Those of one round stand at the same
/// place of each library.
pub struct Library {
    pub head: &'static str,
    pub rows: &'static [Row],
}

/// Inspects what a script leaves.
pub trait Inspect {
    /// Looks at the controller and at what the libraries were told. An error says what is wrong.
    fn inspect(
        &mut self,
        alloc: Global,
        ctl: &mut Ctl,
        tolds: &[LibTold],
    ) -> Result<(), &'static str>;
}

const NOT_PLAYED: &str = "a script is bad, or memory is wanting";

/// Plays the lines of some libraries in rounds, and inspects what they leave.
pub fn plays<I: Inspect>(
    alloc: Global,
    start: Start,
    libs: &[Library],
    inspector: &mut I,
) -> Result<(), &'static str> {
    let Ok(script) = script_of(alloc, libs) else {
        return Err(NOT_PLAYED);
    };
    plays_on(alloc, start, &script, inspector)
}

/// Plays a script on the image of a start, and inspects what it leaves.
pub fn plays_on<I: Inspect>(
    alloc: Global,
    start: Start,
    script: &[u8],
    inspector: &mut I,
) -> Result<(), &'static str> {
    match image_of(alloc, start) {
        Some(image) => played(alloc, image, script, inspector),
        None => Err(NOT_PLAYED),
    }
}

/// Plays a script on an image, and inspects what it leaves.
pub fn played<I: Inspect>(
    alloc: Global,
    image: Image,
    script: &[u8],
    inspector: &mut I,
) -> Result<(), &'static str> {
    match read_script(alloc, script) {
        Ok(libs) => played_by(alloc, image, &libs, inspector),
        Err(_) => Err(NOT_PLAYED),
    }
}

// The one function that owns the controller of a script.
fn played_by<I: Inspect>(
    alloc: Global,
    image: Image,
    libs: &[ScriptLib],
    inspector: &mut I,
) -> Result<(), &'static str>
    requires some { 1 ≤ length libs.now }
    requires few { length libs.now ≤ 16 }
    requires within { AreWithin libs.now }
{
    let Ok(creds) = creds_of(alloc, libs) else {
        return Err(NOT_PLAYED);
    };
    let Ok(mut ctl) = Ctl::start(alloc, image, creds) else {
        return Err(NOT_PLAYED);
    };
    match play::<RawAndHonest>(alloc, &mut ctl, libs) {
        Ok(tolds) => inspector.inspect(alloc, &mut ctl, &tolds),
        Err(_) => Err(NOT_PLAYED),
    }
}

fn script_of(alloc: Global, libs: &[Library]) -> Result<Vec<u8>, NoMemory> {
    let mut script = Vec::new(alloc);
    for lib in libs {
        put_library(&mut script, lib)?;
    }
    Ok(script)
}

fn put_library(script: &mut Vec<u8>, lib: &Library) -> Result<(), NoMemory> {
    put_line(script, lib.head)?;
    for (line, _) in lib.rows {
        put_line(script, line)?;
    }
    Ok(())
}

/// Puts a line behind the others.
pub fn put_line(script: &mut Vec<u8>, line: &str) -> Result<(), NoMemory> {
    script.extend_from_slice(line.as_bytes())?;
    script.push(b'\n')?;
    Ok(())
}

/// The first line that is told something else, if one is.
pub fn are_told(alloc: Global, libs: &[Library], tolds: &[LibTold]) -> Result<(), &'static str> {
    if libs.len() != tolds.len() {
        return Err("there are other libraries");
    }
    for (lib, told) in libs.iter().zip(tolds) {
        are_answers(alloc, lib.rows, told.answers())?;
    }
    Ok(())
}

fn are_answers(alloc: Global, rows: &[Row], answers: &[LineAnswer]) -> Result<(), &'static str> {
    if rows.len() != answers.len() {
        return Err("there are other lines");
    }
    for ((line, wanted), answer) in rows.iter().zip(answers) {
        if is_told(alloc, answer, wanted) != Some(true) {
            return Err(*line);
        }
    }
    Ok(())
}

fn is_told(alloc: Global, answer: &LineAnswer, wanted: &str) -> Option<bool> {
    let mut told = Vec::new(alloc);
    put_answer(alloc, &mut told, 0, answer).ok()?;
    let text = told.get(2..told.len().saturating_sub(1))?;
    Some(text == wanted.as_bytes())
}

/// Whether the settled image has so many files and pages.
pub fn has(ctl: &mut Ctl, counts: &Counts) -> bool {
    match ctl.image() {
        Ok(image) => image.counts() == *counts,
        Err(_) => false,
    }
}

/// The bytes of the settled image.
pub fn bytes_left(alloc: Global, ctl: &mut Ctl) -> Option<Vec<u8>> {
    match ctl.image() {
        Ok(image) => image.into_bytes(alloc).ok(),
        Err(_) => None,
    }
}

/// Lines of one library, and the text of what they are told.
#[derive(Drop)]
pub struct Lines {
    script: Vec<u8>,
    told: Vec<u8>,
}

impl Lines {
    /// No lines of a library of uid 0.
    pub fn new(alloc: Global) -> Result<Lines, NoMemory> {
        let mut script = Vec::new(alloc);
        put_line(&mut script, "lib 1 honest 0 0")?;
        Ok(Lines {
            script,
            told: Vec::new(alloc),
        })
    }

    /// One more line, which is told this.
    pub fn add(&mut self, line: &str, told: &str) -> Result<(), NoMemory> {
        put_line(&mut self.script, line)?;
        self.told.extend_from_slice(b"0 ")?;
        put_line(&mut self.told, told)
    }

    /// Plays the lines on the image of a start. An error says that they are told something else, or that
    /// the settled image has other counts or doesn't load.
    pub fn play(&self, alloc: Global, start: Start, counts: &Counts) -> Result<(), &'static str> {
        let mut wanted = Wanted {
            told: &self.told,
            counts,
        };
        plays_on(alloc, start, &self.script, &mut wanted)
    }
}

// What lines are told, and what the image has after them.
#[derive(Clone, Copy)]
struct Wanted<'a> {
    told: &'a [u8],
    counts: &'a Counts,
}

impl Inspect for Wanted<'_> {
    fn inspect(
        &mut self,
        alloc: Global,
        ctl: &mut Ctl,
        tolds: &[LibTold],
    ) -> Result<(), &'static str> {
        if is_all_told(alloc, tolds, self.told) != Some(true) {
            return Err("a line is told something else");
        }
        if !has(ctl, self.counts) {
            return Err("the image has other counts");
        }
        if !loads(alloc, ctl, self.counts) {
            return Err("the image doesn't load");
        }
        Ok(())
    }
}

fn is_all_told(alloc: Global, tolds: &[LibTold], wanted: &[u8]) -> Option<bool> {
    let mut text = Vec::new(alloc);
    for answer in tolds.first()?.answers() {
        put_answer(alloc, &mut text, 0, answer).ok()?;
    }
    Some(text.as_slice() == wanted)
}

// Whether the bytes of the settled image load, with these counts.
fn loads(alloc: Global, ctl: &mut Ctl, counts: &Counts) -> bool {
    match bytes_left(alloc, ctl) {
        Some(bytes) => has_counts(alloc, bytes, counts),
        None => false,
    }
}

fn has_counts(alloc: Global, bytes: Vec<u8>, counts: &Counts) -> bool {
    match loaded(alloc, bytes) {
        Some(image) => image.counts() == *counts,
        None => false,
    }
}
