//! What is said on the standard error, beside the lines of the output.

use std::fs;
use std::fs::File;
use std::rt::Files as Host;
use trio_image::{LoadFault, load};
use trio_io::{RealFiles, StdoutSink};
use trio_layout::Rule;

/// Says which call of the host failed last, on what and why, where one did.
pub(crate) fn say_faults<R: Host<File = File> + Print + Eprint>(
    rt: &R,
    files: &RealFiles<'_, R>,
    out: &StdoutSink<'_, R>,
) {
    if let Some((name, error)) = files.last_fault() {
        let _ = eprintln!(rt; "trio: {name}: {error}");
    }
    if let Some(error) = out.last_fault() {
        let _ = eprintln!(rt; "trio: standard output: {error}");
    }
}

/// Says of an image that doesn't verify at which file, page and slot the rule fails that the output names.
/// The image is read once more for that, so of a pipe nothing is said.
pub(crate) fn say_broken_rule<R: Host<File = File> + Eprint + AllocGlobal>(
    rt: &R,
    files: &mut RealFiles<'_, R>,
    words: &[String],
) {
    let Some(name) = words.get(1) else {
        return;
    };
    let name = name.as_str();
    if !files.serves(name) || !is_regular(rt, name) {
        return;
    }
    if let Err(
        LoadFault::Fails {
            rule,
            ino,
            page,
            slot,
        },
    ) = load(rt.alloc(), files, name)
    {
        let of_tables = rule == Rule::Tables.number();
        let _ = match (of_tables, ino) {
            (true, 0) => eprintln!(rt; "trio: {name}: the stored owner of page {page} is wrong"),
            (true, _) => eprintln!(rt; "trio: {name}: the stored row of inode {ino} is wrong"),
            (false, _) => {
                eprintln!(rt;
                    "trio: {name}: I{rule} fails at inode {ino}, page {page}, slot {slot}"
                )
            }
        };
    }
}

fn is_regular<R: Host>(host: &R, name: &str) -> bool {
    match fs::metadata(host, name) {
        Ok(metadata) => metadata.is_file(),
        Err(_) => false,
    }
}
