//! The image and the script of a run, read and judged.

ghost use Rattle.std.specs.Prelude.{Contains, IfOk, IfErr};
ghost use Rattle.trio_io.specs.Shelf.{OnlyReads};
ghost use Rattle.trio_image.specs.Load.{Loads};
ghost use Rattle.trio_commands.specs.Inputs.{InputsStop, ReadsBoth, ReadsLibraries};
ghost use Rattle.trio_commands.specs.inner.Stop.{ScriptStop};

use crate::Outcome;
use crate::images::read_image;
use crate::stop::Stop;
use std::alloc::Global;
use trio_image::Image;
use trio_io::{Files, ReadWholeFault, read_whole};
use trio_script::{ScriptFault, ScriptLib, read_script};

/// The most bytes that a script may have.
pub const SCRIPT_LIMIT: usize = 1_048_576;

/// Reads the image and then the script, and answers the image and the script's libraries where both can
/// be run; else how the program ends, by the first cause why not.
pub fn read_inputs<F: Files>(
    alloc: Global,
    image_name: &str,
    script_name: &str,
    files: &mut F,
) -> Result<(Image, Vec<ScriptLib>), Outcome>
    requires image { Contains (F.seen files.old).served image_name.now }
    requires script { Contains (F.seen files.old).served script_name.now }
    ensures image { IfOk result (λ r. Loads ((F.seen files.old).held image_name.now) r.0.superblock r.0.pages) }
    ensures script { IfOk result (λ r. ReadsLibraries script_name.now (F.seen files.old) r.1.items) }
    ensures stops { IfErr result (λ end. InputsStop image_name.now script_name.now (F.seen files.old) (F.seen files.new) end.text.items end.status) }
    ensures files { ReadsBoth image_name.now script_name.now (F.seen files.old) (F.seen files.new) }
{
    let image = match read_image(alloc, image_name, files) {
        Ok(image) => image,
        Err(end) => return Err(end),
    };
    match input_script(alloc, script_name, files) {
        Ok(libs) => Ok((image, libs)),
        Err(stop) => Err(stop.outcome(alloc, script_name)),
    }
}

fn input_script<F: Files>(alloc: Global, name: &str, files: &mut F) -> Result<Vec<ScriptLib>, Stop>
    requires { Contains (F.seen files.old).served name.now }
    ensures script { IfOk result (λ libs. ReadsLibraries name.now (F.seen files.old) libs.items) }
    ensures stops { IfErr result (ScriptStop name.now (F.seen files.old) (F.seen files.new)) }
    ensures files { OnlyReads name.now (F.seen files.old) (F.seen files.new) }
{
    let bytes = match read_whole(alloc, files, name, SCRIPT_LIMIT) {
        Ok(bytes) => bytes,
        Err(ReadWholeFault::ReadFault) => return Err(Stop::ReadFault),
        Err(ReadWholeFault::TooLong) => return Err(Stop::TooLong),
        Err(ReadWholeFault::NoMemory) => return Err(Stop::NoMemory),
    };
    match read_script(alloc, &bytes) {
        Ok(libs) => Ok(libs),
        Err(ScriptFault::BadLine(number)) => Err(Stop::BadLine(number)),
        Err(ScriptFault::NoMemory) => Err(Stop::NoMemory),
    }
}
