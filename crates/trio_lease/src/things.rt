//! Lent things by their numbers, in lists.

ghost use Rattle.std.specs.Prelude.{◌≡◌, ◌+◌, ◌==◌, ◌≤◌, ◌++◌, ℕ, map, vec_capacity, vec_len};
ghost use Rattle.std.specs.List.{find, position};
ghost use Rattle.std.specs.Option.{option_copied};
ghost use Rattle.trio_lists.specs.Lists.{is_among};

use crate::fresh::{FreshIno, FreshPage};
use crate::hold::HoldLease;
use crate::read::ReadLease;
use crate::write::WriteLease;

/// A lent thing, which goes by a number.
pub trait Lent {
    ghost number_of: { Self → ℕ };

    /// Its number: a lent file's inode number, an allotted page's number, or an allotted inode
    /// number.
    fn number(&self) -> u32
        ensures { result ≡ number_of self.now };

    /// Lets it go. It stays out for good.
    fn let_go(self);
}

impl Lent for WriteLease {
    ghost number_of = { λ l. l.stands.ino };

    fn number(&self) -> u32 {
        self.ino()
    }

    fn let_go(self) {
        self.discard();
    }
}

impl Lent for ReadLease {
    ghost number_of = { λ l. l.ino };

    fn number(&self) -> u32 {
        self.ino()
    }

    fn let_go(self) {
        self.discard();
    }
}

impl Lent for HoldLease {
    ghost number_of = { λ h. h.ino };

    fn number(&self) -> u32 {
        self.ino()
    }

    fn let_go(self) {
        self.discard();
    }
}

impl Lent for FreshPage {
    ghost number_of = { λ p. p.no.0 };

    fn number(&self) -> u32 {
        self.no().0
    }

    fn let_go(self) {
        self.discard();
    }
}

impl Lent for FreshIno {
    ghost number_of = { λ n. n.no };

    fn number(&self) -> u32 {
        self.no()
    }

    fn let_go(self) {
        self.discard();
    }
}

/// The place of the first thing of this number, counted from 0.
pub fn place_of<T: Lent>(things: &[T], number: u32) -> Option<usize>
    ensures { result ≡ position (λ x. T.number_of x == number) things.now }
{
    things.iter().position(|thing| thing.number() == number)
}

/// The first thing of this number.
pub fn thing_of<T: Lent>(things: &[T], number: u32) -> Option<&T>
    ensures { option_copied result ≡ find (λ x. T.number_of x == number) things.now }
{
    things.iter().find(|thing| thing.number() == number)
}

/// Whether there is a thing of this number.
pub fn has_one<T: Lent>(things: &[T], number: u32) -> bool
    ensures { result ≡ is_among number (map T.number_of things.now) }
{
    thing_of(things, number).is_some()
}

/// Moves all things of a list to the end of another, which has room for them.
pub fn append_all<T: Lent>(mut more: Vec<T>, things: &mut Vec<T>)
    requires { vec_len things.old + vec_len more ≤ vec_capacity things.old }
    ensures items { things.new.items ≡ things.old.items ++ more.items }
    ensures capacity { vec_capacity things.old ≤ vec_capacity things.new }
{
    if things.append(&mut more).is_err() {
        let_go_all(more);
        unreachable!()
    }
    more.destroy_empty();
}

/// Lets each of these things go.
pub fn let_go_all<T: Lent>(mut things: Vec<T>) {
    while let Some(thing) = things.pop() {
        thing.let_go();
    }
    things.destroy_empty();
}
