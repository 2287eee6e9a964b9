//! What a library of a script was told.

ghost use Rattle.std.specs.Prelude.{◌≡◌, OnOk};
ghost use Rattle.trio_runner.specs.Play.{untold, with_answer, with_end};

use std::alloc::Global;
use std::marker::Model;
use trio_page::NoMemory;
use trio_report::{EndAnswer, LineAnswer};

/// What a library of a script was told: the answers to its lines, in their order, and what its end
/// was answered, once it has come.
#[derive(Drop)]
pub struct LibTold {
    answers: Vec<LineAnswer>,
    end: Option<EndAnswer>,
}

impl Model for LibTold {
    ghost use Rattle.trio_runner.specs.Play.{Heard};

    ghost Value = { Heard };

    ghost view = { λ t. record { answers = t.answers.items; end = t.end } };
}

impl LibTold {
    /// The answers to the library's lines, in their order.
    pub fn answers(&self) -> &[LineAnswer]
        ensures { result.now ≡ self.now.answers }
    {
        &self.answers
    }

    /// What the library's end was answered; `None` before it.
    pub fn end(&self) -> Option<EndAnswer>
        ensures { result ≡ self.now.end }
    {
        self.end
    }

    /// A library that was told nothing yet.
    pub(crate) fn untold(alloc: Global) -> LibTold
        ensures { result ≡ untold }
    {
        LibTold {
            answers: Vec::new(alloc),
            end: None,
        }
    }

    /// One more line is answered.
    pub(crate) fn hears(&mut self, answer: LineAnswer) -> Result<(), NoMemory>
        ensures { OnOk result (self.new ≡ with_answer self.old answer) }
    {
        self.answers.push(answer)?;
        Ok(())
    }

    /// The end is answered.
    pub(crate) fn hears_end(&mut self, answer: EndAnswer)
        ensures { self.new ≡ with_end self.old answer }
    {
        self.end = Some(answer);
    }
}
