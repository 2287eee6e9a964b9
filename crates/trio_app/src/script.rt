//! The run of a script, its report and the image at its end.

ghost use Rattle.std.specs.Prelude.{◌≡◌, ◌++◌, ◌≤◌, IfOk, IfSome, None, OnOk, length};
ghost use Rattle.trio_report.specs.Report.{counts_text, tree_text};
ghost use Rattle.trio_survey.specs.Stored.{core_in, image_in};
ghost use Rattle.trio_layout.specs.Tree.{tree_of};
ghost use Rattle.trio_image.specs.Counts.{counts_of};
ghost use Rattle.trio_ctl.specs.Ctl.{writer_of, TellsSettled};
ghost use Rattle.trio_script.specs.Within.{AreWithin};
ghost use Rattle.trio_commands.specs.Report.{told_counts};
ghost use Rattle.trio_app.specs.Report.{lib_text, libs_text};
ghost use Rattle.trio_app.specs.inner.RunEnd.{IsPlayEnd, IsRunEnd, IsThreadsEnd, IsThreadsRunEnd};

use std::alloc::Global;
use std::sync::Wait;
use std::thread::Threads;
use trio_commands::{kind_of, put_answers, told_counts};
use trio_ctl::{Ctl, ImageFault};
use trio_image::Image;
use trio_io::Gate;
use trio_page::{NoMemory, Reads};
use trio_report::{put_counts, put_end, put_heading, put_tree, tree_lines};
use trio_rights::LibNo;
use trio_runner::laws::{
    order_is_logged, order_is_one, ran_ends_free, ran_is_order, ran_is_printed,
};
use trio_runner::{LibTold, RawAndHonest, creds_of, play, run};
use trio_script::ScriptLib;

/// What a run left.
#[derive(Drop)]
pub struct RunEnd {
    /// The text of the report.
    pub report: Vec<u8>,
    /// The image that is settled at the end.
    pub image: Image,
}

/// What the libraries of a script left.
#[derive(Drop)]
pub struct PlayEnd {
    /// What each library was told, in the order of the libraries.
    pub tolds: Vec<LibTold>,
    /// The image that is settled at the end.
    pub image: Image,
}

/// Plays a script on an image, in rounds on one thread. The log that the run's controller stores is
/// legal, and the answers in the report print its entries. `NoMemory`: there was no memory for the run
/// or the report.
pub fn run_in_turns(alloc: Global, image: Image, libs: &[ScriptLib]) -> Result<RunEnd, NoMemory>
    requires some { 1 ≤ length libs.now }
    requires few { length libs.now ≤ 16 }
    requires within { AreWithin libs.now }
    ensures { IfOk result (λ end. IsRunEnd (image_in image.superblock image.pages) libs.now end.report.items end.image.pages) }
{
    let end = play_in_turns(alloc, image, libs)?;
    let last = end.image;
    let (report, image) = report(alloc, libs, &end.tolds, last)?;
    Ok(RunEnd { report, image })
}

/// Runs a script on an image, with a thread for each library. All their calls are one order, of which
/// each is answered as on one controller that takes them one after another; the log that the run's
/// controller stores is legal, and the answers in the report print its entries. `NoMemory`: there was
/// no memory for the run or the report.
///
/// Each library arrives at the gate before each of its lines and before its end. With `workers`, 1 to 8,
/// a pool of as many threads judges what the libraries release. May wait, for the turns of others, at
/// the gate and for workers.
pub fn run_in_threads<R: Threads + Wait + Sync, G: Gate + Sync>(
    rt: &R,
    alloc: Global,
    image: Image,
    libs: &[ScriptLib],
    gate: &G,
    workers: Option<u32>,
) -> Result<RunEnd, NoMemory>
    requires some { 1 ≤ length libs.now }
    requires few { length libs.now ≤ 16 }
    requires within { AreWithin libs.now }
    requires workers { IfSome workers (λ n. (1 ≤ n) × (n ≤ 8)) }
    ensures { IfOk result (λ end. IsThreadsRunEnd (image_in image.superblock image.pages) libs.now end.report.items end.image.pages) }
{
    let end = play_in_threads(rt, alloc, image, libs, gate, workers)?;
    let last = end.image;
    let (report, image) = report(alloc, libs, &end.tolds, last)?;
    Ok(RunEnd { report, image })
}

/// Plays a script on an image, in rounds on one thread. The log that the run's controller stores is
/// legal, and what the libraries are told prints its entries. `NoMemory`: there was no memory for the
/// run.
pub fn play_in_turns(alloc: Global, image: Image, libs: &[ScriptLib]) -> Result<PlayEnd, NoMemory>
    requires some { 1 ≤ length libs.now }
    requires few { length libs.now ≤ 16 }
    requires within { AreWithin libs.now }
    ensures { IfOk result (λ end. IsPlayEnd (image_in image.superblock image.pages) libs.now end.tolds.items end.image.superblock end.image.pages) }
{
    let _superblock = image.superblock();
    let mut ctl = match Ctl::start(alloc, image, creds_of(alloc, libs)?) {
        Ok(ctl) => ctl,
        Err((_image, fault)) => return Err(fault),
    };
    let tolds = play::<RawAndHonest>(alloc, &mut ctl, libs)?;
    ctl.is_recorded();
    let image = last_image(ctl)?;
    Ok(PlayEnd { tolds, image })
}

/// Runs a script on an image, with a thread for each library, as [`run_in_threads`] says, and makes no
/// report. `NoMemory`: there was no memory for the run.
fn play_in_threads<R: Threads + Wait + Sync, G: Gate + Sync>(
    rt: &R,
    alloc: Global,
    image: Image,
    libs: &[ScriptLib],
    gate: &G,
    workers: Option<u32>,
) -> Result<PlayEnd, NoMemory>
    requires some { 1 ≤ length libs.now }
    requires few { length libs.now ≤ 16 }
    requires within { AreWithin libs.now }
    requires workers { IfSome workers (λ n. (1 ≤ n) × (n ≤ 8)) }
    ensures { IfOk result (λ end. IsThreadsEnd (image_in image.superblock image.pages) libs.now end.tolds.items end.image.superblock end.image.pages) }
{
    ran_is_order();
    order_is_logged();
    order_is_one();
    ran_ends_free();
    ran_is_printed();
    let _superblock = image.superblock();
    let ctl = match Ctl::start(alloc, image, creds_of(alloc, libs)?) {
        Ok(ctl) => ctl,
        Err((_image, fault)) => return Err(fault),
    };
    let (ctl, tolds) = run::<RawAndHonest, _, _>(rt, alloc, ctl, libs, gate, workers)?;
    let image = last_image(ctl)?;
    Ok(PlayEnd { tolds, image })
}

/// The image that is settled once nobody writes. The controller ends.
fn last_image(ctl: Ctl) -> Result<Image, NoMemory>
    requires { writer_of ctl.state ≡ None }
    ensures { IfOk result (TellsSettled ctl.state) }
{
    match ctl.into_image() {
        Ok(image) => Ok(image),
        Err((_ctl, fault)) => match fault {
            ImageFault::NoMemory => Err(NoMemory),
            ImageFault::Busy(_) => unreachable!(),
        },
    }
}

/// The report of a run: what each library was told, with the tree and the counts of the image at its
/// end, which comes back.
fn report(
    alloc: Global,
    libs: &[ScriptLib],
    tolds: &[LibTold],
    image: Image,
) -> Result<(Vec<u8>, Image), NoMemory>
    requires few { length libs.now ≤ 16 }
    ensures image { IfOk result (λ r. r.1 ≡ image) }
    ensures report { IfOk result (λ r. r.0.items ≡ libs_text 1 libs.now tolds.now
        ++ tree_text (tree_of (core_in image.superblock image.pages)) ++ counts_text (told_counts (counts_of (image_in image.superblock image.pages)))) }
{
    let superblock = image.superblock();
    let counts = told_counts(&image);
    let mut parts = image.into_parts();
    let tree = tree_lines(alloc, &mut parts.home, &superblock, &mut Reads::new())?;
    let mut text = Vec::new(alloc);
    put_libraries(alloc, &mut text, libs, tolds)?;
    put_tree(alloc, &mut text, &tree)?;
    put_counts(alloc, &mut text, &counts)?;
    Ok((text, Image::of(parts)))
}

/// Appends the parts on the libraries, in their order.
fn put_libraries(
    alloc: Global,
    text: &mut Vec<u8>,
    libs: &[ScriptLib],
    tolds: &[LibTold],
) -> Result<(), NoMemory>
    requires few { length libs.now ≤ 16 }
    ensures { OnOk result (text.new.items ≡ text.old.items ++ libs_text 1 libs.now tolds.now) }
{
    for at in 0..libs.len().min(tolds.len()) {
        put_library(alloc, text, LibNo(at as u32 + 1), &libs[at], &tolds[at])?;
    }
    Ok(())
}

/// Appends the part on a library: its heading, the answers to its lines, and that of its end.
fn put_library(
    alloc: Global,
    text: &mut Vec<u8>,
    number: LibNo,
    lib: &ScriptLib,
    told: &LibTold,
) -> Result<(), NoMemory>
    ensures { OnOk result (text.new.items ≡ text.old.items ++ lib_text number.0 lib.now told.now) }
{
    put_heading(alloc, text, number, kind_of(&lib.lines))?;
    put_answers(alloc, text, &lib.lines, told.answers())?;
    match told.end() {
        Some(end) => put_end(alloc, text, end),
        None => Ok(()),
    }
}
