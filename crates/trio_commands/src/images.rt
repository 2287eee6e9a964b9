//! An image that is read, counted or written.

ghost use Rattle.std.specs.Prelude.{◌≡◌, Contains, IfErr, IfOk};
ghost use Rattle.trio_io.specs.Shelf.{OnlyReads, OnlyReplaces};
ghost use Rattle.trio_survey.specs.Stored.{image_in};
ghost use Rattle.trio_image.specs.Counts.{counts_of};
ghost use Rattle.trio_image.specs.Load.{Loads};
ghost use Rattle.trio_commands.specs.Images.{ImageStops};
ghost use Rattle.trio_commands.specs.Report.{told_counts};
ghost use Rattle.trio_commands.specs.Saved.{SaveComesTo};

use crate::lines::named_line;
use crate::stop::Stop;
use crate::{Outcome, Status};
use std::alloc::Global;
use trio_image::{Image, SaveFault, load};
use trio_io::Files;
use trio_report::Counts;
use trio_survey::OLD_VERSION;

/// The image in a file, or how the program ends where there is none.
pub fn read_image<F: Files>(alloc: Global, name: &str, files: &mut F) -> Result<Image, Outcome>
    requires { Contains (F.seen files.old).served name.now }
    ensures image { IfOk result (λ image. Loads ((F.seen files.old).held name.now) image.superblock image.pages) }
    ensures stops { IfErr result (λ end. ImageStops name.now (F.seen files.old) (F.seen files.new) end.text.items end.status) }
    ensures files { OnlyReads name.now (F.seen files.old) (F.seen files.new) }
{
    match load(alloc, files, name) {
        Ok(image) => Ok(image),
        Err(fault) => Err(Stop::of_loading(fault, OLD_VERSION).outcome(alloc, name)),
    }
}

/// The counts of an image, as a line tells them.
pub fn told_counts(image: &Image) -> Counts
    ensures { result ≡ told_counts (counts_of (image_in image.now.superblock image.now.pages)) }
{
    let counts = image.counts();
    Counts {
        inodes: counts.inodes,
        pages: counts.pages,
        free: counts.free,
    }
}

/// Writes an image, and says how the program ends: with this text where the image was written.
///
/// All that takes memory comes before the write, so after [`Status::NoMemory`] nothing was written.
pub fn save_image<F: Files>(
    alloc: Global,
    image: Image,
    done: Vec<u8>,
    name: &str,
    files: &mut F,
) -> Outcome
    requires { Contains (F.seen files.old).served name.now }
    ensures end { SaveComesTo name.now image.pages done.items (F.seen files.old) (F.seen files.new) result.text.items result.status }
    ensures files { OnlyReplaces name.now (F.seen files.old) (F.seen files.new) }
{
    let Ok(fault) = named_line(alloc, "write fault ", name) else {
        return Outcome::no_memory(alloc);
    };
    match image.save(alloc, files, name) {
        Ok(()) => Outcome {
            status: Status::Done,
            text: done,
        },
        Err(SaveFault::WriteFault) => Outcome {
            status: Status::WriteFault,
            text: fault,
        },
        Err(SaveFault::NoMemory) => Outcome::no_memory(alloc),
    }
}
