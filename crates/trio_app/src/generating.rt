//! The words `gen NUMBER FILES`.

ghost use Rattle.std.specs.Prelude.{◌≡◌, ◌≤◌, ◌++◌, IfOk, OnOk, map};
ghost use Rattle.trio_layout.specs.Tree.{tree_of};
ghost use Rattle.trio_survey.specs.Stored.{core_in, image_in};
ghost use Rattle.trio_image.specs.Counts.{counts_of};
ghost use Rattle.trio_image.specs.Made.{IsMade};
ghost use Rattle.trio_report.specs.Report.{counts_text};
ghost use Rattle.trio_gen.specs.Summary.{summary_line};
ghost use Rattle.trio_app.specs.Gen.{GenComesTo, GenDone, calls_told};
ghost use Rattle.trio_commands.specs.Report.{told_counts};

use crate::script::play_in_turns;
use std::alloc::Global;
use trio_commands::{Outcome, Status, told_counts};
use trio_gen::{directories_script, files_script, push_call_answers, put_summary};
use trio_image::{Image, MakeFault, make};
use trio_page::{NoMemory, Reads};
use trio_report::{LineAnswer, put_counts, tree_lines};
use trio_runner::LibTold;
use trio_script::ScriptLib;

/// How many pages the image has on which the workload is played.
const PAGES: u32 = 8192;

/// How many inode numbers it has.
const INODES: u32 = 2048;

/// Plays the generated workload in memory, on a new image, and says what is to be put. `files` is how
/// many files it has, of which `number` says how long they are.
pub fn generate(alloc: Global, number: u32, files: u32) -> Outcome
    requires { files ≤ 1000 }
    ensures { GenComesTo number files result.text.items result.status }
{
    match played_text(alloc, number, files) {
        Ok(text) => Outcome {
            status: Status::Done,
            text,
        },
        Err(_) => Outcome::no_memory(alloc),
    }
}

/// Plays both scripts, the second on the image that the first leaves, and tells what came of it.
fn played_text(alloc: Global, number: u32, files: u32) -> Result<Vec<u8>, NoMemory>
    requires { files ≤ 1000 }
    ensures { IfOk result (λ text. GenDone number files text.items) }
{
    let image = first_image(alloc)?;
    let directories = directories_script(alloc)?;
    let first = play_in_turns(alloc, image, &directories)?;
    let libs = files_script(alloc, number, files)?;
    let second = play_in_turns(alloc, first.image, &libs)?;
    let last = second.image;
    let text = told_text(alloc, number, files, &libs, &second.tolds, last)?;
    Ok(text)
}

/// The new image on which the first script is played.
fn first_image(alloc: Global) -> Result<Image, NoMemory>
    ensures { IfOk result (λ image. IsMade 8192 2048 image.superblock image.pages) }
{
    match make(alloc, PAGES, INODES) {
        Ok(image) => Ok(image),
        Err(MakeFault::NoMemory) => Err(NoMemory),
        Err(MakeFault::BadSize) => unreachable!(),
    }
}

/// The two lines on what the libraries were told and on the image at the end.
fn told_text(
    alloc: Global,
    number: u32,
    files: u32,
    libs: &[ScriptLib],
    tolds: &[LibTold],
    image: Image,
) -> Result<Vec<u8>, NoMemory>
    ensures { IfOk result (λ text. text.items ≡ summary_line number files (calls_told libs.now tolds.now) (tree_of (core_in image.superblock image.pages))
        ++ counts_text (told_counts (counts_of (image_in image.superblock image.pages)))) }
{
    let superblock = image.superblock();
    let counts = told_counts(&image);
    let mut home = image.into_home();
    let tree = tree_lines(alloc, &mut home, &superblock, &mut Reads::new())?;
    let answers = calls_told(alloc, libs, tolds)?;
    let mut text = Vec::new(alloc);
    put_summary(alloc, &mut text, number, files, &answers, &tree)?;
    put_counts(alloc, &mut text, &counts)?;
    Ok(text)
}

/// The answers to the calls of libraries, in their order.
fn calls_told<'a>(
    alloc: Global,
    libs: &[ScriptLib],
    tolds: &'a [LibTold],
) -> Result<Vec<&'a LineAnswer>, NoMemory>
    ensures { IfOk result (λ answers. map (λ a. a.now) answers.items ≡ calls_told libs.now tolds.now) }
{
    let mut answers = Vec::new(alloc);
    for at in 0..libs.len().min(tolds.len()) {
        push_call_answers(&mut answers, &libs[at].lines, tolds[at].answers())?;
    }
    Ok(answers)
}
