//! Runs over files and a sink that never fail.

ghost use Rattle.std.specs.Prelude.{◌≡◌, IfOk};
ghost use Rattle.trio_io.specs.Names.{texts_of};

use crate::tests::rows::{IMAGE_SIZE, REPORT, RUN, SCRIPT, Start, TURNS, start_bytes, words_of};
use crate::{copy_words, sure_main, sure_trio_main};
use std::alloc::Global;
use std::process::Abort;
use std::sync::Wait;
use std::thread::Threads;
use trio_commands::USAGE;
use trio_io::{Files, OpenGate, SureFiles, SureSink};
use trio_page::NoMemory;

fn sure_files(alloc: Global, words: &[String]) -> Result<SureFiles, NoMemory>
    ensures { IfOk result (λ files. (⟦<SureFiles as Files>⟧.seen files).served ≡ texts_of words.now) }
{
    SureFiles::new(alloc, copy_words(alloc, words)?)
}

// Gives the files an image of one file, or less of it, and the script.
fn fill_sure(alloc: Global, files: &mut SureFiles, length: usize) -> Result<(), NoMemory>
    ensures { (⟦<SureFiles as Files>⟧.seen files.new).served ≡ (⟦<SureFiles as Files>⟧.seen files.old).served }
{
    let mut image = start_bytes(alloc, Start::OneFile)?;
    image.truncate(length);
    files.hold("first.img", image);
    files.hold("script", SCRIPT.to_vec(alloc)?);
    Ok(())
}

// Whether a run on one thread ends so.
fn ends_surely(alloc: Global, texts: &[&str], length: usize, wanted: (u8, &[u8])) -> Option<bool> {
    let words = words_of(alloc, texts).ok()?;
    let mut files = sure_files(alloc, &words).ok()?;
    fill_sure(alloc, &mut files, length).ok()?;
    let mut sink = SureSink::new(alloc);
    let end = sure_main(alloc, &words, &mut files, &mut sink);
    Some(is_sure(end, &files, &sink, wanted))
}

// Whether a run with threads ends so.
fn runs_surely<R: Threads + Wait + Sync + AllocGlobal>(
    rt: &R,
    wanted: (u8, &[u8]),
) -> Option<bool> {
    let alloc = rt.alloc();
    let words = words_of(alloc, RUN).ok()?;
    let mut files = sure_files(alloc, &words).ok()?;
    fill_sure(alloc, &mut files, IMAGE_SIZE).ok()?;
    let mut sink = SureSink::new(alloc);
    let end = sure_trio_main(rt, alloc, &words, &mut files, &mut sink, &OpenGate);
    Some(is_sure(end, &files, &sink, wanted))
}

// OUT has nothing before, and the image where all was done: the script changes nothing.
fn is_sure(end: u8, files: &SureFiles, sink: &SureSink, (status, text): (u8, &[u8])) -> bool {
    let out = files.content("o p");
    let is_kept = if status == 0 {
        out == files.content("first.img")
    } else {
        out == Some(b"".as_slice())
    };
    end == status && sink.bytes() == text && is_kept
}

#[test]
fn sure_forms(rt: HostRuntime) {
    let alloc = rt.alloc();
    let short = (1, b"length 4095\n".as_slice());
    assert!(rt; ends_surely(alloc, TURNS, IMAGE_SIZE, (0, REPORT)) == Some(true));
    assert!(rt; ends_surely(alloc, TURNS, 4095, short) == Some(true));
    // on one thread the words of a run are no command
    assert!(rt; ends_surely(alloc, RUN, IMAGE_SIZE, (2, USAGE)) == Some(true));
    assert!(rt; runs_surely(&rt, (0, REPORT)) == Some(true));
}
