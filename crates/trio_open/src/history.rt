//! What a registry knows of the history of its controller.

ghost use Rattle.std.specs.Prelude.{◌≡◌, ◌+◌, ◌-◌, ◌<◌, IfOk, IsOk};
ghost use Rattle.trio_open.specs.Entries.{HasRoom};

use std::marker::Model;
use std::snapshot::Snapshot;
use trio_page::NoMemory;

/// How many entries a controller has promised beside those in its log.
///
/// The log has the count of the entries that were made: each call is handed it, and no copy of it is
/// kept. Contracts see both counts.
#[derive(Drop)]
pub struct History {
    made: Snapshot<u64>,
    promised: u64,
}

impl Model for History {
    ghost use Rattle.trio_open.specs.Entries.{Entries, HasRoom};

    ghost Value = { Entries };

    ghost view = { λ h. record { made = h.made.value; promised = h.promised } };

    ghost invariant = { λ h. HasRoom (record { made = h.made.value; promised = h.promised }) 0 };
}

impl History {
    /// No entry yet.
    pub fn new() -> History
        ensures { result ≡ record { made = 0; promised = 0 } }
    {
        History {
            made: Snapshot::of(&0),
            promised: 0,
        }
    }

    /// How many entries are promised.
    pub fn promised(&self) -> u64
        ensures { result ≡ self.now.promised }
    {
        self.promised
    }

    /// Makes room for so many entries more after those that the log has, beside those that are
    /// promised. `NoMemory` comes exactly where there would be more entries than a `u64` counts.
    /// Nothing is entered yet.
    pub fn make_room(&self, made: u64, more: u64) -> Result<(), NoMemory>
        requires { made ≡ self.now.made }
        ensures room { IfOk result (λ _. HasRoom self.now more) }
        ensures succeeds { HasRoom self.now more → IsOk result }
    {
        if more > u64::MAX - made - self.promised {
            return Err(NoMemory);
        }
        Ok(())
    }

    /// Makes an entry, for which there is room, after those that the log has. Takes no memory.
    pub fn enter(&mut self, made: u64)
        requires made { made ≡ self.old.made }
        requires room { HasRoom self.old 1 }
        ensures { self.new ≡ record self.old { made = self.old.made + 1 } }
    {
        self.made = Snapshot::of(&(made + 1));
    }

    /// Makes an entry and promises another, for both of which there is room. Takes no memory.
    pub fn enter_with_promise(&mut self, made: u64)
        requires made { made ≡ self.old.made }
        requires room { HasRoom self.old 2 }
        ensures { self.new ≡ record { made = self.old.made + 1; promised = self.old.promised + 1 } }
    {
        self.made = Snapshot::of(&(made + 1));
        self.promised += 1;
    }

    /// Promises an entry, for which there is room. Takes no memory.
    pub fn promise(&mut self)
        requires { HasRoom self.old 1 }
        ensures { self.new ≡ record self.old { promised = self.old.promised + 1 } }
    {
        self.promised += 1;
    }

    /// Takes the promise of an entry back, so that there is room to make it. Takes no memory.
    pub fn withdraw(&mut self)
        requires { 0 < self.old.promised }
        ensures less { self.new ≡ record self.old { promised = self.old.promised - 1 } }
        ensures room { HasRoom self.new 1 }
    {
        self.promised -= 1;
    }

    /// Makes an entry that was promised. Takes no memory.
    pub fn enter_promised(&mut self, made: u64)
        requires made { made ≡ self.old.made }
        requires promised { 0 < self.old.promised }
        ensures { self.new ≡ record { made = self.old.made + 1; promised = self.old.promised - 1 } }
    {
        self.promised -= 1;
        self.made = Snapshot::of(&(made + 1));
    }
}
