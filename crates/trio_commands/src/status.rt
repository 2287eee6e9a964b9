//! How the program ends.

ghost use Rattle.std.specs.Prelude.{◌≡◌, []};
ghost use Rattle.trio_commands.specs.Status.{code_of};

use std::alloc::Global;

/// How the program ends.
#[derive(Clone, Copy, Debug, PartialEq, Eq)]
pub enum Status {
    /// All was done.
    Done,
    /// The image's length, superblock or content doesn't verify.
    NotVerified,
    /// The words are no command, or PAGES and INODES are out of their limits.
    Usage,
    /// A line of the script is outside its grammar.
    BadScript,
    /// A file could not be read.
    ReadFault,
    /// OUT could not be written, or the text could not be put.
    WriteFault,
    /// Memory ran out. Nothing was written and nothing put.
    NoMemory,
    /// A file is longer than its limit.
    TooLong,
}

impl Status {
    /// The number that the process ends with.
    pub fn code(self) -> u8
        ensures { result ≡ code_of self }
    {
        match self {
            Status::Done => 0,
            Status::NotVerified => 1,
            Status::Usage => 2,
            Status::BadScript => 3,
            Status::ReadFault => 4,
            Status::WriteFault => 5,
            Status::NoMemory => 6,
            Status::TooLong => 7,
        }
    }
}

/// What the work came to, and the text that is then due.
#[derive(Drop)]
pub struct Outcome {
    pub status: Status,
    pub text: Vec<u8>,
}

impl Outcome {
    /// Want of memory, of which nothing is told. Takes no memory.
    pub fn no_memory(alloc: Global) -> Outcome
        ensures status { result.status ≡ Status.NoMemory }
        ensures text { result.text.items ≡ [] }
    {
        Outcome {
            status: Status::NoMemory,
            text: Vec::new(alloc),
        }
    }
}
