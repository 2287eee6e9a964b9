//! Files that a session made.

ghost use Rattle.std.specs.Prelude.{◌≡◌, ◌==◌, false, length, slice_get};
ghost use Rattle.std.specs.List.{position};
ghost use Rattle.std.specs.Option.{option_map, option_map_or};
ghost use Rattle.trio_session.specs.inner.Found.{Finds};
ghost use Rattle.trio_session.specs.declared.laid.FilePlace.TheVariants.{InSlot};

use crate::laid::{FilePlace, Laid, PagePlace};
use crate::stock::Stock;
use trio_rights::Kind;

/// A file that a session made: its number and kind; the place of a page of its directory and the slot
/// of that page, 0 to 15, which names it and has its body; and where its pages stand, which are all
/// allotted ones.
#[derive(Drop)]
pub(crate) struct Made {
    pub(crate) ino: u32,
    pub(crate) kind: Kind,
    pub(crate) page: PagePlace,
    pub(crate) slot: usize,
    pub(crate) laid: Laid,
}

impl Made {
    /// Its place.
    pub(crate) fn file(&self) -> FilePlace
        ensures { result ≡ InSlot self.now.page self.now.slot }
    {
        FilePlace::InSlot {
            page: self.page,
            slot: self.slot,
        }
    }
}

/// The place of the first of these files that has the number.
pub(crate) fn made_of(made: &[Made], ino: u32) -> Option<usize>
    ensures { result ≡ position (λ m. m.ino == ino) made.now }
{
    made.iter().position(|file| file.ino == ino)
}

/// Whether the file at this place has the number.
pub(crate) fn is_at(files: &[Made], at: usize, ino: u32) -> bool
    ensures { result ≡ option_map_or (λ m. m.ino == ino) (slice_get files.now at) false }
{
    match files.get(at) {
        Some(file) => file.ino == ino,
        None => false,
    }
}

/// Where the file of this number stands, among those that are written and those that were made, and
/// where its pages stand.
pub(crate) fn file_among<'a>(
    stock: &Stock,
    laid: &'a [Laid],
    made: &'a [Made],
    ino: u32,
) -> Option<(FilePlace, &'a Laid)>
    requires { length laid.now ≡ length stock.now.writes }
    ensures { Finds stock.now laid.now made.now ino (option_map (λ o. (o.0, o.1.now)) result) }
{
    match made_of(made, ino) {
        Some(at) => {
            let one = &made[at];
            Some((one.file(), &one.laid))
        }
        None => {
            let at = stock.file_of(ino)?;
            Some((FilePlace::Leased { at }, &laid[at]))
        }
    }
}
