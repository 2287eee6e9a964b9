//! The words `new OUT PAGES INODES`.

ghost use Rattle.std.specs.Prelude.{◌≡◌, ◌⊎◌, Contains, []};
ghost use Rattle.trio_commands.specs.Lines.{usage_line};
ghost use Rattle.trio_commands.specs.New.{New};

use crate::images::save_image;
use crate::lines::{USAGE, made_line};
use crate::{Outcome, Status};
use std::alloc::Global;
use trio_image::{MakeFault, make};
use trio_io::Files;

/// Makes an image and writes it, and says what is to be put.
///
/// All that takes memory comes before the write, so after [`Status::NoMemory`] nothing was written.
pub fn new_image<F: Files>(
    alloc: Global,
    out_name: &str,
    pages: u32,
    inodes: u32,
    files: &mut F,
) -> Outcome
    requires { Contains (F.seen files.old).served out_name.now }
    ensures { New out_name.now pages inodes (F.seen files.old) (F.seen files.new) result.text.items result.status }
{
    let image = match make(alloc, pages, inodes) {
        Ok(image) => image,
        Err(MakeFault::BadSize) => return usage(alloc),
        Err(MakeFault::NoMemory) => return Outcome::no_memory(alloc),
    };
    match made_line(alloc, pages, inodes, image.counts().free) {
        Ok(text) => save_image(alloc, image, text, out_name, files),
        Err(_) => Outcome::no_memory(alloc),
    }
}

/// The usage line, or want of memory for it.
fn usage(alloc: Global) -> Outcome
    ensures { ((result.status ≡ Status.Usage) × (result.text.items ≡ usage_line)) ⊎ ((result.status ≡ Status.NoMemory) × (result.text.items ≡ [])) }
{
    match USAGE.to_vec(alloc) {
        Ok(text) => Outcome {
            status: Status::Usage,
            text,
        },
        Err(_) => Outcome::no_memory(alloc),
    }
}
