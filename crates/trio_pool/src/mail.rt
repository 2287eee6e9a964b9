//! The types of the mails: a queue for each library, through which what was judged comes back.

ghost use Rattle.std.specs.Prelude.{◌≡◌, [], Some};
ghost use Rattle.crossbeam_queue.specs.Passes.{view};

use crossbeam_queue::protocol::{Outcome, Protocol, Split};
use crossbeam_queue::{Pass, RuledArrayQueue};
use std::marker::{Brand, PhantomData};
use trio_rights::LibNo;

/// A value that belongs to a library.
pub trait OfLibrary {
    ghost use Rattle.std.specs.Prelude.{ℕ};

    // the number of its library
    ghost library: { Self → ℕ };

    /// Its library.
    fn lib(&self) -> LibNo
        ensures { result.0 ≡ library self.now };
}

/// The rule of a mail's queue: all that it holds is of one library, which each token knows.
pub struct OfOne;

impl<J: OfLibrary> Protocol<J, Option<u32>> for OfOne {
    ghost use Rattle.std.specs.Prelude.{None};
    ghost use Rattle.trio_pool.specs.inner.Mail.{OfOneLibrary};

    ghost holds = { OfOneLibrary J.library };

    ghost first = { None };
}

/// The library that a queue is made for, in the proofs alone: the call that makes the queue picks it.
pub trait Numbered {
    ghost use Rattle.std.specs.Prelude.{ℕ};

    ghost number: { ℕ };
}

impl Numbered for Brand {
    ghost number = { 0 };
}

/// The first token learns the library, and so does a second one.
pub struct Numbers<K> {
    marker: PhantomData<K>,
}

impl<K: Numbered> Split<Option<u32>> for Numbers<K> {
    ghost use Rattle.std.specs.Prelude.{Some};

    ghost left = { λ v. Some K.number };

    ghost right = { λ v. Some K.number };
}

/// A token is copied.
pub struct Copies;

impl Split<Option<u32>> for Copies {
    ghost left = { λ v. v };

    ghost right = { λ v. v };
}

/// A value is put.
pub struct Posts;

impl<J> Outcome<J, Option<u32>> for Posts {
    ghost then = { λ v x w. w ≡ v };
}

/// A value is taken, which is of the library.
pub struct Fetches;

impl<J: OfLibrary> Outcome<J, Option<u32>> for Fetches {
    ghost use Rattle.std.specs.Prelude.{Some};

    ghost then = { λ v x w. (w ≡ v) × (v ≡ Some (J.library x)) };
}

/// The queue of a library.
#[derive(Drop)]
pub struct MailQueue<J: OfLibrary> {
    pub(crate) queue: RuledArrayQueue<J, Option<u32>, OfOne>,
}

/// What a thread steps on such a queue with.
#[derive(Drop)]
pub struct MailToken<J> {
    pub(crate) token: Pass<J, Option<u32>>,
    pub(crate) library: u32,
    pub ghost slot: { token.me.1 ≡ [] },
    pub ghost numbered: { view token ≡ Some library },
}

/// The mails: a queue for each library, from library 1 on, with room for one value each. Threads
/// share them by reference.
///
/// Contracts see of them how many libraries have a mail, and which passes are their own
/// (`specs/Mails.antt`).
#[derive(Drop)]
pub struct Mails<J: OfLibrary> {
    pub(crate) queues: Vec<MailQueue<J>>,
}

/// What a thread puts values into the mails with, and takes them: a token of each queue.
#[derive(Drop)]
pub struct MailPass<J> {
    pub(crate) tokens: Vec<MailToken<J>>,
}
