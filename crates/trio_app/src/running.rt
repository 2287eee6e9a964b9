//! The words `run IMAGE SCRIPT OUT`, and `run IMAGE SCRIPT OUT WORKERS`.

ghost use Rattle.std.specs.Prelude.{◌≤◌, Contains, IfSome};
ghost use Rattle.trio_app.specs.Run.{Run};

use crate::script::run_in_threads;
use std::alloc::Global;
use std::sync::Wait;
use std::thread::Threads;
use trio_commands::{Outcome, read_inputs, save_image};
use trio_io::{Files, Gate};

/// Runs a script on an image with a thread for each library, writes the image that is then settled, and
/// says what is to be put.
///
/// It reads, judges and writes as [`turns`](crate::turns) does, and between them each library plays its
/// lines at its seat of one controller, beside the others. With `workers`, 1 to 8, as many threads more
/// judge what the libraries release; where none of these can be made it runs as without them. What is
/// promised of it is in `specs/Run.antt`, with workers and without.
///
/// May wait: each library waits for its turns of the controller, and arrives at the gate before each line
/// and before its end.
pub fn run<R: Threads + Wait + Sync, F: Files, G: Gate + Sync>(
    rt: &R,
    alloc: Global,
    image_name: &str,
    script_name: &str,
    out_name: &str,
    workers: Option<u32>,
    files: &mut F,
    gate: &G,
) -> Outcome
    requires image { Contains (F.seen files.old).served image_name.now }
    requires script { Contains (F.seen files.old).served script_name.now }
    requires out { Contains (F.seen files.old).served out_name.now }
    requires workers { IfSome workers (λ n. (1 ≤ n) × (n ≤ 8)) }
    ensures { Run image_name.now script_name.now out_name.now (F.seen files.old) (F.seen files.new) result.text.items result.status }
{
    let (image, libs) = match read_inputs(alloc, image_name, script_name, files) {
        Ok(inputs) => inputs,
        Err(end) => return end,
    };
    match run_in_threads(rt, alloc, image, &libs, gate, workers) {
        Ok(end) => save_image(alloc, end.image, end.report, out_name, files),
        Err(_) => Outcome::no_memory(alloc),
    }
}
