//! The program `trio`.
//!
//! - `trio new OUT PAGES INODES` makes an image.
//! - `trio check IMAGE` says whether one verifies, and what it has in use.
//! - `trio tree IMAGE` puts out its tree, and `trio tree IMAGE json` the same as JSON.
//! - `trio turns IMAGE SCRIPT OUT` runs a script on an image, writes the image that is then settled,
//!   and puts out a report.
//! - `trio run IMAGE SCRIPT OUT` does the same with a thread for each library of the script, and
//!   `trio run IMAGE SCRIPT OUT WORKERS` besides with workers that judge what the libraries release.
//! - `trio gen NUMBER FILES` plays the generated workload in memory, and puts out what came of it.
//! - `trio migrate IMAGE OUT` makes an image of version 1 one of today's version.
//!
//! What it does and how it ends is the contract of [`trio_main`]: `specs/Main.antt` first, then
//! `specs/Command.antt`, `specs/New.antt`, `specs/Check.antt`, `specs/Tree.antt` and
//! `specs/Migrate.antt` of [`trio_commands`], and `specs/Turns.antt`, `specs/Run.antt` and `specs/Gen.antt`, with the claim of a
//! script's moves and what its controller's log says in `specs/Headline.antt`.
//!
//! [`trio_main`] is generic over the files, the sink and the gate. [`main`] hands it the host's,
//! which no contract speaks of.
#![tactic(auto)]

ghost use Rattle.std.specs.Prelude.{◌≡◌, IfOk, drop};
ghost use Rattle.std.specs.Vec.Iter.{into_iter_items};
ghost use Rattle.trio_io.specs.Names.{texts_of};
ghost use Rattle.trio_app.specs.Main.{EndOfProcess};

mod generating;
mod plain;
mod running;
mod saying;
mod script;
mod sure;
mod threads;
mod turns;

pub use generating::generate;
pub use plain::plain_main;
pub use running::run;
use saying::{say_broken_rule, say_faults};
use std::alloc::Global;
use std::env;
use std::fs::File;
use std::io::ErrorKind;
use std::process::ExitCode;
use std::rt::{Env, Files as Host};
use std::sync::Wait;
use std::thread::Threads;
use std::vec::IntoIter;
pub use sure::{sure_main, sure_trio_main};
pub use threads::trio_main;
use trio_commands::Status;
use trio_io::{OpenGate, RealFiles, StdoutSink};
use trio_page::NoMemory;
pub use turns::turns;

/// The same words once more.
fn copy_words(alloc: Global, words: &[String]) -> Result<Vec<String>, NoMemory>
    ensures { IfOk result (λ copies. texts_of copies.items ≡ texts_of words.now) }
{
    let mut copies = Vec::new(alloc);
    for word in words {
        copies.push(String::from_str(alloc, word.as_str())?)?;
    }
    Ok(copies)
}

/// The words but for the first, which is the program's name.
fn without_name(alloc: Global, all: IntoIter<String>) -> Result<Vec<String>, NoMemory>
    ensures { IfOk result (λ words. words.items ≡ drop 1 (into_iter_items all)) }
{
    let mut left = all;
    let _name = left.next();
    let mut words = Vec::new(alloc);
    for word in left {
        words.push(word)?;
    }
    Ok(words)
}

/// The words of the command line without the program's name, and none where one of them isn't UTF-8:
/// no command has such a word.
///
/// No clause can name the words that the process was given. All that [`env::args`] answers but the
/// first is kept, as [`without_name`] says.
fn words_given<R: Env + AllocGlobal>(rt: &R) -> Result<Vec<String>, NoMemory> {
    match env::args(rt) {
        Ok(all) => without_name(rt.alloc(), all),
        Err(fault) if fault.kind() == ErrorKind::OutOfMemory => Err(NoMemory),
        Err(_) => Ok(Vec::new(rt.alloc())),
    }
}

/// Runs the program on the words of the command line, the host's files and its standard output.
fn run_words<R: Threads + Wait + Sync + Env + Host<File = File> + Print + Eprint + AllocGlobal>(
    rt: &R,
) -> u8
    ensures { EndOfProcess result }
{
    let Ok(words) = words_given(rt) else {
        return Status::NoMemory.code();
    };
    let Ok(names) = copy_words(rt.alloc(), &words) else {
        return Status::NoMemory.code();
    };
    let Ok(mut files) = RealFiles::new(rt, rt.alloc(), names) else {
        return Status::NoMemory.code();
    };
    let mut out = StdoutSink::new(rt);
    let status = trio_main(rt, rt.alloc(), &words, &mut files, &mut out, &OpenGate);
    say_faults(rt, &files, &out);
    if status == Status::NotVerified.code() {
        say_broken_rule(rt, &mut files, &words);
    }
    status
}

fn main(rt: HostRuntime) -> ExitCode {
    ExitCode::from(run_words(&rt))
}

#[cfg(test)]
mod tests;
