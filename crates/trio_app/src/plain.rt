//! The top call, without threads.

ghost use Rattle.std.specs.Prelude.{◌≡◌, [], All, Contains};
ghost use Rattle.trio_io.specs.Names.{texts_of};
ghost use Rattle.trio_commands.specs.Command.{command_of, without_threads};
ghost use Rattle.trio_app.specs.Decided.{EndsAsDecided};
ghost use Rattle.trio_app.specs.Main.{Main, Puts};
ghost use Rattle.trio_commands.specs.Status.{code_of};

use crate::{generate, turns};
use std::alloc::Global;
use trio_commands::{Request, Status, USAGE, VERSION, check, migrate, new_image, read_words, tree};
use trio_io::{Files, Sink};

/// Puts a text, and answers how the program then ends. For an empty text the sink
/// isn't asked.
pub fn end<S: Sink>(text: &[u8], status: Status, out: &mut S) -> u8
    ensures puts { Puts (S.seen out.old) (S.seen out.new) text.now (code_of status) result }
    ensures unasked { text.now ≡ [] → (result ≡ code_of status) × (S.seen out.new ≡ S.seen out.old) }
{
    if text.is_empty() {
        return status.code();
    }
    match out.put(text) {
        Ok(()) => status.code(),
        Err(_) => Status::WriteFault.code(),
    }
}

/// Does what the words say, all of it on one thread, and answers how the program ends: as
/// [`trio_main`](crate::trio_main) does, for all words but those of a run. To start a thread takes a
/// runtime value, and here is none: the words of a run are no command, and the usage line is due.
pub fn plain_main<F: Files, S: Sink>(
    alloc: Global,
    words: &[String],
    files: &mut F,
    out: &mut S,
) -> u8
    requires { All (Contains (F.seen files.old).served) (texts_of words.now) }
    ensures main { Main (without_threads (command_of (texts_of words.now))) (F.seen files.old) (F.seen files.new) (S.seen out.old) (S.seen out.new) result }
    ensures decided { EndsAsDecided (without_threads (command_of (texts_of words.now))) (F.seen files.old) (F.seen files.new) (S.seen out.old) (S.seen out.new) result }
{
    match read_words(words) {
        Request::New {
            out: output,
            pages,
            inodes,
        } => {
            let outcome = new_image(alloc, output, pages, inodes, files);
            end(&outcome.text, outcome.status, out)
        }
        Request::Check { image } => {
            let outcome = check(alloc, image, files);
            end(&outcome.text, outcome.status, out)
        }
        Request::Tree { image, form } => {
            let outcome = tree(alloc, image, form, files);
            end(&outcome.text, outcome.status, out)
        }
        Request::Turns {
            image,
            script,
            out: output,
        } => {
            let outcome = turns(alloc, image, script, output, files);
            end(&outcome.text, outcome.status, out)
        }
        Request::Gen { number, files } => {
            let outcome = generate(alloc, number, files);
            end(&outcome.text, outcome.status, out)
        }
        Request::Migrate { image, out: output } => {
            let outcome = migrate(alloc, image, output, files);
            end(&outcome.text, outcome.status, out)
        }
        Request::Help => end(USAGE, Status::Done, out),
        Request::Version => end(VERSION, Status::Done, out),
        Request::Run { .. } => end(USAGE, Status::Usage, out),
        Request::Unknown => end(USAGE, Status::Usage, out),
    }
}
