//! What the words of the command line ask for.

ghost use Rattle.std.specs.Prelude.{◌≡◌, codes, if◌then◌else◌};
ghost use Rattle.std.specs.Str.{bytes_eq};
ghost use Rattle.trio_io.specs.Names.{texts_of};
ghost use Rattle.trio_script.specs.Words.{number_of};
ghost use Rattle.trio_commands.specs.Command.{command_of, command_of_five, command_of_four, command_of_one, command_of_three, command_of_two, gen_of, new_of, run_of, tree, unknown};
ghost use Rattle.trio_commands.specs.declared.words.TreeForm.TheVariants.{Json};
ghost use Rattle.trio_commands.specs.Request.{command_in};

use trio_gen::FILES_LIMIT;
use trio_script::read_number;

/// The most workers of a run.
const WORKERS_LIMIT: u32 = 8;

/// In which form a tree is put.
#[derive(Clone, Copy, Debug, PartialEq, Eq)]
pub enum TreeForm {
    /// A line for each file.
    Lines,
    /// JSON: an array with an object for each file.
    Json,
}

/// A command with its words.
#[derive(Drop)]
pub enum Request<'a> {
    /// `new OUT PAGES INODES`.
    New {
        out: &'a str,
        pages: u32,
        inodes: u32,
    },
    /// `check IMAGE`.
    Check {
        image: &'a str,
    },
    /// `tree IMAGE`, `tree IMAGE json`.
    Tree {
        image: &'a str,
        form: TreeForm,
    },
    /// `turns IMAGE SCRIPT OUT`.
    Turns {
        image: &'a str,
        script: &'a str,
        out: &'a str,
    },
    /// `run IMAGE SCRIPT OUT`, and with 1 to 8 workers `run IMAGE SCRIPT OUT WORKERS`.
    Run {
        image: &'a str,
        script: &'a str,
        out: &'a str,
        workers: Option<u32>,
    },
    /// `gen NUMBER FILES`, of 1 to 1000 files.
    Gen {
        number: u32,
        files: u32,
    },
    /// `migrate IMAGE OUT`.
    Migrate {
        image: &'a str,
        out: &'a str,
    },
    /// `--help`.
    Help,
    /// `--version`.
    Version,
    /// No command of the table.
    Unknown,
}

/// Reads the words of the command line, without the program's name. A number is read as in a script.
pub fn read_words(words: &[String]) -> Request<'_>
    ensures { command_in result ≡ command_of (texts_of words.now) }
{
    match words {
        [] => Request::Unknown,
        [word] => request_of_one(word.as_str()),
        [word, first] => request_of_two(word.as_str(), first.as_str()),
        [word, first, second] => {
            request_of_three(word.as_str(), first.as_str(), second.as_str())
        }
        [word, first, second, third] => request_of_four(
            word.as_str(),
            first.as_str(),
            second.as_str(),
            third.as_str(),
        ),
        [word, first, second, third, fourth] => request_of_five(
            word.as_str(),
            first.as_str(),
            second.as_str(),
            third.as_str(),
            fourth.as_str(),
        ),
        _ => Request::Unknown,
    }
}

fn request_of_one<'a>(word: &str) -> Request<'a>
    ensures { command_in result ≡ command_of_one word.now }
{
    if word == "--help" {
        Request::Help
    } else if word == "--version" {
        Request::Version
    } else {
        Request::Unknown
    }
}

fn request_of_two<'a>(word: &str, image: &'a str) -> Request<'a>
    ensures { command_in result ≡ command_of_two word.now image.now }
{
    if word == "check" {
        Request::Check { image }
    } else if word == "tree" {
        Request::Tree {
            image,
            form: TreeForm::Lines,
        }
    } else {
        Request::Unknown
    }
}

fn request_of_three<'a>(word: &str, first: &'a str, second: &'a str) -> Request<'a>
    ensures { command_in result ≡ command_of_three word.now first.now second.now }
{
    if word == "tree" {
        tree_request(first, second)
    } else if word == "gen" {
        gen_request(first, second)
    } else if word == "migrate" {
        Request::Migrate {
            image: first,
            out: second,
        }
    } else {
        Request::Unknown
    }
}

fn request_of_four<'a>(word: &str, first: &'a str, second: &'a str, third: &'a str) -> Request<'a>
    ensures { command_in result ≡ command_of_four word.now first.now second.now third.now }
{
    if word == "new" {
        new_request(first, second, third)
    } else if word == "turns" {
        Request::Turns {
            image: first,
            script: second,
            out: third,
        }
    } else if word == "run" {
        Request::Run {
            image: first,
            script: second,
            out: third,
            workers: None,
        }
    } else {
        Request::Unknown
    }
}

fn request_of_five<'a>(
    word: &str,
    first: &'a str,
    second: &'a str,
    third: &'a str,
    fourth: &str,
) -> Request<'a>
    ensures { command_in result ≡ command_of_five word.now first.now second.now third.now fourth.now }
{
    if word == "run" {
        run_request(first, second, third, fourth)
    } else {
        Request::Unknown
    }
}

fn tree_request<'a>(image: &'a str, form: &str) -> Request<'a>
    ensures { command_in result ≡ (if bytes_eq form.now (codes "json") then tree image.now Json else unknown) }
{
    if form == "json" {
        Request::Tree {
            image,
            form: TreeForm::Json,
        }
    } else {
        Request::Unknown
    }
}

fn run_request<'a>(image: &'a str, script: &'a str, out: &'a str, workers: &str) -> Request<'a>
    ensures { command_in result ≡ run_of image.now script.now out.now (number_of workers.now) }
{
    match read_number(workers.as_bytes()) {
        Some(workers) if 1 <= workers && workers <= WORKERS_LIMIT => Request::Run {
            image,
            script,
            out,
            workers: Some(workers),
        },
        _ => Request::Unknown,
    }
}

fn gen_request<'a>(number: &str, files: &str) -> Request<'a>
    ensures { command_in result ≡ gen_of (number_of number.now) (number_of files.now) }
{
    match (
        read_number(number.as_bytes()),
        read_number(files.as_bytes()),
    ) {
        (Some(number), Some(files)) if 1 <= files && files <= FILES_LIMIT => {
            Request::Gen { number, files }
        }
        _ => Request::Unknown,
    }
}

fn new_request<'a>(out: &'a str, pages: &str, inodes: &str) -> Request<'a>
    ensures { command_in result ≡ new_of out.now (number_of pages.now) (number_of inodes.now) }
{
    match (
        read_number(pages.as_bytes()),
        read_number(inodes.as_bytes()),
    ) {
        (Some(pages), Some(inodes)) => Request::New { out, pages, inodes },
        _ => Request::Unknown,
    }
}
