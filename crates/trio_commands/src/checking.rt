//! The words `check IMAGE`.

ghost use Rattle.std.specs.Prelude.{Contains};
ghost use Rattle.trio_commands.specs.Check.{Check};

use crate::images::{read_image, told_counts};
use crate::lines::valid_line;
use crate::{Outcome, Status};
use std::alloc::Global;
use trio_io::Files;

/// Verifies an image, and says what is to be put.
pub fn check<F: Files>(alloc: Global, image_name: &str, files: &mut F) -> Outcome
    requires { Contains (F.seen files.old).served image_name.now }
    ensures { Check image_name.now (F.seen files.old) (F.seen files.new) result.text.items result.status }
{
    let image = match read_image(alloc, image_name, files) {
        Ok(image) => image,
        Err(end) => return end,
    };
    match valid_line(alloc, &told_counts(&image)) {
        Ok(text) => Outcome {
            status: Status::Done,
            text,
        },
        Err(_) => Outcome::no_memory(alloc),
    }
}
