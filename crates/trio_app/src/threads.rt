//! The top call.

ghost use Rattle.std.specs.Prelude.{All, Contains};
ghost use Rattle.trio_io.specs.Names.{texts_of};
ghost use Rattle.trio_commands.specs.Command.{command_of};
ghost use Rattle.trio_app.specs.Decided.{EndsAsDecided};
ghost use Rattle.trio_app.specs.Main.{Main};

use crate::plain::end;
use crate::{plain_main, run};
use std::alloc::Global;
use std::sync::Wait;
use std::thread::Threads;
use trio_commands::{Request, read_words};
use trio_io::{Files, Gate, Sink};

/// Does what the words say, and answers how the program ends.
///
/// `words` are those of the command line without the program's name. The answer is the number of a
/// [`Status`](trio_commands::Status), and `specs/Main.antt` says what each means: what the files hold then, and
/// which text was put out. `specs/Decided.antt` says which one comes where nothing fails.
///
/// The words of a run start a thread for each library of the script, which arrives at the gate before
/// each line and before its end, and one for each worker. All other words are handed to [`plain_main`], which starts no thread
/// and doesn't wait.
pub fn trio_main<R: Threads + Wait + Sync, F: Files, S: Sink, G: Gate + Sync>(
    rt: &R,
    alloc: Global,
    words: &[String],
    files: &mut F,
    out: &mut S,
    gate: &G,
) -> u8
    requires { All (Contains (F.seen files.old).served) (texts_of words.now) }
    ensures main { Main (command_of (texts_of words.now)) (F.seen files.old) (F.seen files.new) (S.seen out.old) (S.seen out.new) result }
    ensures decided { EndsAsDecided (command_of (texts_of words.now)) (F.seen files.old) (F.seen files.new) (S.seen out.old) (S.seen out.new) result }
{
    match read_words(words) {
        Request::Run {
            image,
            script,
            out: output,
            workers,
        } => {
            let outcome = run(rt, alloc, image, script, output, workers, files, gate);
            end(&outcome.text, outcome.status, out)
        }
        _ => plain_main(alloc, words, files, out),
    }
}
