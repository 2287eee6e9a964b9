//! What the words of the command line ask for, and what of a command needs no controller.
//!
//! - [`read_words`] says which command the words are (`specs/Command.antt`).
//! - [`new_image`] makes an image, [`check`] verifies one, [`tree`] tells its tree, and [`migrate`] makes
//!   one of version 1 one of today's: each does all of its command but to put the text that is then due
//!   (`specs/New.antt`, `specs/Check.antt`, `specs/Tree.antt`, `specs/Migrate.antt`).
//! - [`read_inputs`] reads the image and the script of a run (`specs/Inputs.antt`), [`put_answers`] and
//!   [`told_counts`] make parts of its report (`specs/Report.antt`), and [`save_image`] writes an image
//!   and ends the command (`specs/Saved.antt`).
//!
//! How a command ends is an [`Outcome`]: a status, and the text that is due.
#![tactic(auto)]

mod answers;
mod checking;
mod images;
mod inputs;
mod lines;
mod making;
mod migrating;
mod status;
mod stop;
mod telling;
mod words;

pub use answers::{kind_of, put_answers};
pub use checking::check;
pub use images::{save_image, told_counts};
pub use inputs::{SCRIPT_LIMIT, read_inputs};
pub use lines::{USAGE, VERSION};
pub use making::new_image;
pub use migrating::migrate;
pub use status::{Outcome, Status};
pub use telling::tree;
pub use words::{Request, TreeForm, read_words};
