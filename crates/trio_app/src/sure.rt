//! The top call over files and a sink that never fail, on one thread and with threads.

ghost use Rattle.std.specs.Prelude.{◌≡◌, ◌≢◌, ◌⊎◌, All, Contains};
ghost use Rattle.trio_io.specs.Names.{texts_of};
ghost use Rattle.trio_commands.specs.declared.status.Status.{Status};
ghost use Rattle.trio_commands.specs.Command.{command_of, without_threads};
ghost use Rattle.trio_app.specs.Decided.{Decides};
ghost use Rattle.trio_app.specs.Main.{Main};
ghost use Rattle.trio_commands.specs.Status.{code_of};

use crate::{plain_main, trio_main};
use std::alloc::Global;
use std::sync::Wait;
use std::thread::Threads;
use trio_io::{Files, Gate, Sink, SureFiles, SureSink};

/// The top call on one thread where nothing fails: as [`plain_main`], and it answers neither a read
/// fault nor a write fault, but the status that the words and the files' bytes decide, unless memory
/// runs out.
pub fn sure_main(alloc: Global, words: &[String], files: &mut SureFiles, out: &mut SureSink) -> u8
    requires { All (Contains (⟦<SureFiles as Files>⟧.seen files.old).served) (texts_of words.now) }
    ensures main { Main (without_threads (command_of (texts_of words.now))) (⟦<SureFiles as Files>⟧.seen files.old) (⟦<SureFiles as Files>⟧.seen files.new)
        (⟦<SureSink as Sink>⟧.seen out.old) (⟦<SureSink as Sink>⟧.seen out.new) result }
    ensures no_read_fault { result ≢ 4 }
    ensures no_write_fault { result ≢ 5 }
    ensures decided { (status : Status) → Decides (without_threads (command_of (texts_of words.now))) (⟦<SureFiles as Files>⟧.seen files.old) status
        → (result ≡ code_of status) ⊎ (result ≡ 6) }
{
    plain_main(alloc, words, files, out)
}

/// The top call where nothing fails: as [`trio_main`], and it answers neither a read fault nor a write
/// fault, but the status that the words and the files' bytes decide, unless memory runs out. For the
/// words of a run it may wait.
pub fn sure_trio_main<R: Threads + Wait + Sync, G: Gate + Sync>(
    rt: &R,
    alloc: Global,
    words: &[String],
    files: &mut SureFiles,
    out: &mut SureSink,
    gate: &G,
) -> u8
    requires { All (Contains (⟦<SureFiles as Files>⟧.seen files.old).served) (texts_of words.now) }
    ensures main { Main (command_of (texts_of words.now)) (⟦<SureFiles as Files>⟧.seen files.old) (⟦<SureFiles as Files>⟧.seen files.new)
        (⟦<SureSink as Sink>⟧.seen out.old) (⟦<SureSink as Sink>⟧.seen out.new) result }
    ensures no_read_fault { result ≢ 4 }
    ensures no_write_fault { result ≢ 5 }
    ensures decided { (status : Status) → Decides (command_of (texts_of words.now)) (⟦<SureFiles as Files>⟧.seen files.old) status
        → (result ≡ code_of status) ⊎ (result ≡ 6) }
{
    trio_main(rt, alloc, words, files, out, gate)
}
