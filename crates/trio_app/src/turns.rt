//! The words `turns IMAGE SCRIPT OUT`.

ghost use Rattle.std.specs.Prelude.{Contains};
ghost use Rattle.trio_app.specs.Turns.{Turns};

use crate::script::run_in_turns;
use std::alloc::Global;
use trio_commands::{Outcome, read_inputs, save_image};
use trio_io::Files;

/// Runs a script on an image, writes the image that is then settled, and says what is to be put.
///
/// What is promised of the run, of each of its moves and of the log that its controller stored, is in
/// `specs/Headline.antt`.
///
/// The image is read and judged first, then the script. All that takes memory comes before the
/// image is written, so after [`Status::NoMemory`](trio_commands::Status::NoMemory) nothing was written.
pub fn turns<F: Files>(
    alloc: Global,
    image_name: &str,
    script_name: &str,
    out_name: &str,
    files: &mut F,
) -> Outcome
    requires image { Contains (F.seen files.old).served image_name.now }
    requires script { Contains (F.seen files.old).served script_name.now }
    requires out { Contains (F.seen files.old).served out_name.now }
    ensures { Turns image_name.now script_name.now out_name.now (F.seen files.old) (F.seen files.new) result.text.items result.status }
{
    let (image, libs) = match read_inputs(alloc, image_name, script_name, files) {
        Ok(inputs) => inputs,
        Err(end) => return end,
    };
    match run_in_turns(alloc, image, &libs) {
        Ok(end) => save_image(alloc, end.image, end.report, out_name, files),
        Err(_) => Outcome::no_memory(alloc),
    }
}
