//! The words `tree IMAGE` and `tree IMAGE json`.

ghost use Rattle.std.specs.Prelude.{◌≡◌, Contains, IfOk};
ghost use Rattle.trio_layout.specs.Tree.{tree_of};
ghost use Rattle.trio_survey.specs.Stored.{core_in};
ghost use Rattle.trio_report.specs.Report.{tree_lines_text};
ghost use Rattle.trio_commands.specs.Tree.{Tree, text_in};

use crate::images::read_image;
use crate::{Outcome, Status, TreeForm};
use std::alloc::Global;
use trio_image::Image;
use trio_io::Files;
use trio_page::{NoMemory, Reads};
use trio_report::{TreeLine, put_tree_lines, tree_json, tree_lines};

/// Says what is to be put of the tree of an image: a line for each file, or JSON.
pub fn tree<F: Files>(alloc: Global, image_name: &str, form: TreeForm, files: &mut F) -> Outcome
    requires { Contains (F.seen files.old).served image_name.now }
    ensures { Tree image_name.now form (F.seen files.old) (F.seen files.new) result.text.items result.status }
{
    let image = match read_image(alloc, image_name, files) {
        Ok(image) => image,
        Err(end) => return end,
    };
    match tree_text(alloc, image, form) {
        Ok(text) => Outcome {
            status: Status::Done,
            text,
        },
        Err(_) => Outcome::no_memory(alloc),
    }
}

/// The tree of an image in a form.
fn tree_text(alloc: Global, image: Image, form: TreeForm) -> Result<Vec<u8>, NoMemory>
    ensures { IfOk result (λ text. text.items ≡ text_in form (tree_of (core_in image.superblock image.pages))) }
{
    let superblock = image.superblock();
    let mut home = image.into_home();
    let lines = tree_lines(alloc, &mut home, &superblock, &mut Reads::new())?;
    match form {
        TreeForm::Lines => lines_text(alloc, &lines),
        TreeForm::Json => tree_json(alloc, &lines),
    }
}

fn lines_text(alloc: Global, lines: &[TreeLine]) -> Result<Vec<u8>, NoMemory>
    ensures { IfOk result (λ text. text.items ≡ tree_lines_text lines.now) }
{
    let mut text = Vec::new(alloc);
    put_tree_lines(alloc, &mut text, lines)?;
    Ok(text)
}
