//! The words `migrate IMAGE OUT`.

ghost use Rattle.std.specs.Prelude.{Contains, IfErr, IfOk};
ghost use Rattle.trio_io.specs.Shelf.{OnlyReads};
ghost use Rattle.trio_migrate.specs.OldLoad.{OldLoads};
ghost use Rattle.trio_commands.specs.Migrate.{Migrate, OldImageStops};

use crate::Outcome;
use crate::images::{save_image, told_counts};
use crate::lines::migrated_line;
use crate::stop::Stop;
use std::alloc::Global;
use trio_io::Files;
use trio_layout::VERSION;
use trio_migrate::{OldImage, load_old};

/// Makes an image of version 1 one of today's version and writes it, and says what is to be put.
///
/// All that takes memory comes before the write, so after [`Status::NoMemory`](crate::Status) nothing
/// was written.
pub fn migrate<F: Files>(alloc: Global, image_name: &str, out_name: &str, files: &mut F) -> Outcome
    requires image { Contains (F.seen files.old).served image_name.now }
    requires out { Contains (F.seen files.old).served out_name.now }
    ensures { Migrate image_name.now out_name.now (F.seen files.old) (F.seen files.new) result.text.items result.status }
{
    let old = match read_old(alloc, image_name, files) {
        Ok(old) => old,
        Err(end) => return end,
    };
    let image = old.migrate();
    match migrated_line(alloc, &told_counts(&image)) {
        Ok(text) => save_image(alloc, image, text, out_name, files),
        Err(_) => Outcome::no_memory(alloc),
    }
}

/// The image of version 1 in a file, or how the program ends where there is none.
fn read_old<F: Files>(alloc: Global, name: &str, files: &mut F) -> Result<OldImage, Outcome>
    requires { Contains (F.seen files.old).served name.now }
    ensures image { IfOk result (λ image. OldLoads ((F.seen files.old).held name.now) image.superblock image.pages) }
    ensures stops { IfErr result (λ end. OldImageStops name.now (F.seen files.old) (F.seen files.new) end.text.items end.status) }
    ensures files { OnlyReads name.now (F.seen files.old) (F.seen files.new) }
{
    match load_old(alloc, files, name) {
        Ok(image) => Ok(image),
        Err(fault) => Err(Stop::of_loading(fault, VERSION).outcome(alloc, name)),
    }
}
