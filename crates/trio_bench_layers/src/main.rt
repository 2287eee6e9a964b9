//! What the layers that need no controller cost: the judge on bundles of many pages, the survey of images
//! that are made to be slow, a check of an image, the tree of one as text, and the index of a directory.
//!
//! - `trio_bench_layers judge` judges bundles of directory pages, each five times over, and prints how
//!   often the time of one goes into that of another.
//! - `trio_bench_layers survey` surveys the worst images known, each five times over, and prints how often
//!   the time of a full one goes into that of each.
//! - `trio_bench_layers workload IMAGE` writes an image of the shape and size in which the generator's
//!   workload leaves one, and `trio_bench_layers check IMAGE` loads and verifies an image and reads and
//!   sums the bytes of its file, ten times over, and prints how often the second time goes into the first.
//! - `trio_bench_layers tree` tells trees of 1,000, 4,000 and 16,000 names, as lines and as JSON, each
//!   five times over, and prints how often the time of the first goes into those of the others.
//! - `trio_bench_layers names` adds 8,000 names to the index of a directory, finds each, renames it and
//!   removes it, twenty times over and in turn with plain names, and prints how often the time of
//!   these goes into that of names which are chosen to be slow.
//!
//! It is measured and not proved; the figures of a run are in `docs/SPEED.md`.
#![tactic(auto)]

mod bundles;
mod checking;
mod images;
mod judging;
mod names;
mod surveying;
mod trees;

use crate::checking::{measure_check, write_workload};
use crate::judging::measure_judge;
use crate::names::measure_names;
use crate::surveying::measure_survey;
use crate::trees::measure_tree;
use std::alloc::Global;
use std::fs::File;
use std::io;
use std::rt::{Clock, Env, Files};
use trio_bench_common::words_given;

/// What is to be measured.
#[derive(Clone, Copy)]
enum Asked<'a> {
    Judge,
    Survey,
    Tree,
    Names,
    /// An image of this name is to be written.
    Workload(&'a str),
    /// The image of this name.
    Check(&'a str),
    /// Nothing that there is.
    Unknown,
}

/// What the words behind the program's name ask for. More words than are needed say nothing.
fn read_words(words: &[String]) -> Asked<'_> {
    match words {
        [_, what] => alone(what.as_str()),
        [_, what, image, ..] => with_image(what.as_str(), image.as_str()),
        _ => Asked::Unknown,
    }
}

fn alone<'a>(what: &str) -> Asked<'a> {
    if what == "judge" {
        Asked::Judge
    } else if what == "survey" {
        Asked::Survey
    } else if what == "tree" {
        Asked::Tree
    } else if what == "names" {
        Asked::Names
    } else {
        Asked::Unknown
    }
}

fn with_image<'a>(what: &str, image: &'a str) -> Asked<'a> {
    if what == "workload" {
        Asked::Workload(image)
    } else if what == "check" {
        Asked::Check(image)
    } else {
        alone(what)
    }
}

const USAGE: &str =
    "usage: trio_bench_layers judge\n       trio_bench_layers survey\n       trio_bench_layers workload IMAGE\n       trio_bench_layers check IMAGE\n       trio_bench_layers tree\n       trio_bench_layers names";

fn main(rt: HostRuntime) -> io::Result<()> {
    let words = words_given(&rt)?;
    measure(&rt, read_words(&words))
}

/// Measures what is asked for, and prints what was measured.
fn measure<R: Clock + Files<File = File> + Print + AllocGlobal>(
    rt: &R,
    asked: Asked,
) -> io::Result<()> {
    match asked {
        Asked::Judge => measure_judge(rt),
        Asked::Survey => measure_survey(rt),
        Asked::Tree => measure_tree(rt),
        Asked::Names => measure_names(rt),
        Asked::Workload(name) => write_workload(rt, name),
        Asked::Check(name) => measure_check(rt, name),
        Asked::Unknown => println!(rt; "{USAGE}"),
    }
}
