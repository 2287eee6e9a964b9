//! What a refusal tells: the rule that fails, and a file and a place at which it does.

ghost use Rattle.std.specs.Prelude.{◌≡◌};
ghost use Rattle.trio_layout.specs.Rule.{rule_number};

/// A rule that an image or a bundle is judged by.
#[derive(Clone, Copy)]
pub enum Rule {
    /// I1: the body, the chain and the slots of each file are in the grammar, and the names of a
    /// directory differ.
    Grammar,
    /// I2: no page and no inode number is listed twice, and a bundle lists no page and names no
    /// number that isn't its own.
    Owning,
    /// I3: with a bundle's changes the files are still one tree.
    Edges,
    /// I4: a bundle keeps the rights that the shadow table has.
    Rights,
    /// The stored tables are those of the files.
    Tables,
}

impl Rule {
    /// The number of the rule in answers: 1 to 4 for I1 to I4, and 5 for the tables.
    pub fn number(self) -> u8
        ensures { result ≡ rule_number self }
    {
        match self {
            Rule::Grammar => 1,
            Rule::Owning => 2,
            Rule::Edges => 3,
            Rule::Rights => 4,
            Rule::Tables => 5,
        }
    }
}

/// A page and a slot on it; 0 where there is none to name.
#[derive(Clone, Copy)]
pub struct Location {
    pub page: u32,
    pub slot: u16,
}

/// Where a rule fails: a file, and a place in it.
#[derive(Clone, Copy)]
pub struct FaultAt {
    pub ino: u32,
    pub place: Location,
}
