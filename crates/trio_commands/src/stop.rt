//! Why the work ends at a file that is read.

ghost use Rattle.std.specs.Prelude.{◌≡◌, IfOk};
ghost use Rattle.trio_commands.specs.inner.Stop.{status_of, line_of, stop_of_loading, ToldStop};

use crate::lines::{bad_line_text, image_version_line, invalid_line, length_line, named_line};
use crate::{Outcome, Status};
use std::alloc::Global;
use trio_image::LoadFault;
use trio_page::NoMemory;

/// Why the work ends at a file that is read, before anything is written.
#[derive(Clone, Copy, Debug, PartialEq, Eq)]
pub enum Stop {
    /// A read of the file failed.
    ReadFault,
    /// The file is over its limit.
    TooLong,
    /// The file has so many bytes, which no image has.
    Length(u64),
    /// The first page is a superblock of this version, which isn't the one that is asked for.
    Version(u32),
    /// The first page is a superblock of no version.
    BadSuper,
    /// The rule of this number fails: I1 or I2, or that of the stored tables.
    Invalid(u8),
    /// The line of this number, counted from 1, is outside the grammar of scripts.
    BadLine(u32),
    /// Memory ran out, which may come in place of any other cause.
    NoMemory,
}

impl Stop {
    /// What the fault of loading an image comes to, where the other version, which is told apart, is
    /// this one.
    pub fn of_loading(fault: LoadFault, other: u32) -> Stop
        ensures { result ≡ stop_of_loading other fault }
    {
        match fault {
            LoadFault::ReadFault => Stop::ReadFault,
            LoadFault::TooLong => Stop::TooLong,
            LoadFault::Length(count) => Stop::Length(count),
            LoadFault::OldVersion => Stop::Version(other),
            LoadFault::BadSuper => Stop::BadSuper,
            LoadFault::Fails { rule, .. } => Stop::Invalid(rule),
            LoadFault::NoMemory => Stop::NoMemory,
        }
    }

    /// How the program then ends, with the line that is due; or that there was no memory for it.
    /// `name` is the name of the file.
    pub fn outcome(self, alloc: Global, name: &str) -> Outcome
        ensures { ToldStop name.now self result.text.items result.status }
    {
        match self.line(alloc, name) {
            Ok(text) => Outcome {
                status: self.status(),
                text,
            },
            Err(NoMemory) => Outcome::no_memory(alloc),
        }
    }

    fn status(self) -> Status
        ensures { result ≡ status_of self }
    {
        match self {
            Stop::ReadFault => Status::ReadFault,
            Stop::TooLong => Status::TooLong,
            Stop::Length(_) | Stop::Version(_) | Stop::BadSuper | Stop::Invalid(_) => {
                Status::NotVerified
            }
            Stop::BadLine(_) => Status::BadScript,
            Stop::NoMemory => Status::NoMemory,
        }
    }

    fn line(self, alloc: Global, name: &str) -> Result<Vec<u8>, NoMemory>
        ensures { IfOk result (λ line. line.items ≡ line_of name.now self) }
    {
        match self {
            Stop::ReadFault => named_line(alloc, "read fault ", name),
            Stop::TooLong => named_line(alloc, "too long ", name),
            Stop::Length(count) => length_line(alloc, count),
            Stop::Version(version) => image_version_line(alloc, version),
            Stop::BadSuper => b"bad superblock\n".to_vec(alloc),
            Stop::Invalid(rule) => invalid_line(alloc, rule),
            Stop::BadLine(number) => bad_line_text(alloc, number),
            Stop::NoMemory => Ok(Vec::new(alloc)),
        }
    }
}
