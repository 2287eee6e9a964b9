//! Names by their numbers, and names that a directory has twice.

ghost use Rattle.std.specs.Prelude.{◌≡◌, ◌++◌, ◌<◌, ◌≤◌, [], false, ℕ, List, Some, IfNone, IfOk, OnOk, length, map, replicate, slice_get};
ghost use Rattle.std.specs.List.{flat_map};
ghost use Rattle.trio_lists.specs.Lists.{In};
ghost use Rattle.trio_layout.specs.Entries.{Listed, repeated_name};
ghost use Rattle.trio_survey.specs.inner.Blocks.{entries_kept, entry_seen, AreNamed, AreNumbered, HasParts, IsFront, MarksNames};

use crate::blocks::{DirEntry, KeptBlocks};
use std::alloc::Global;
use std::collections::BTreeMap;
use trio_layout::{CoreRange, Location};
use trio_marks::Marks;
use trio_names::Name;
use trio_page::NoMemory;

/// Names, each once. The number of a name is its place among them.
#[derive(Drop)]
pub(crate) struct KeptNames {
    pub names: Vec<Name>,
    /// The number of each name.
    pub numbers: BTreeMap<Name, u32>,
}

impl KeptNames {
    /// No names. Takes no memory.
    pub fn none(alloc: Global) -> KeptNames
        ensures { AreNumbered result.names.items result.numbers }
    {
        KeptNames {
            names: Vec::new(alloc),
            numbers: BTreeMap::new(alloc),
        }
    }

    /// Adds a name where it isn't there yet, and answers its number.
    pub fn add(&mut self, name: &Name) -> Result<u32, NoMemory>
        requires { AreNumbered self.old.names.items self.old.numbers }
        ensures numbered { OnOk result (AreNumbered self.new.names.items self.new.numbers) }
        ensures number { IfOk result (λ n. slice_get self.new.names.items n ≡ Some name.now) }
        ensures front { OnOk result (IsFront self.old.names.items self.new.names.items) }
    {
        if let Some(number) = self.numbers.get(name) {
            return Ok(*number);
        }
        let Ok(number) = u32::try_from(self.names.len()) else {
            return Err(NoMemory);
        };
        self.names.push(*name)?;
        self.numbers.insert(*name, number)?;
        Ok(number)
    }
}

/// The place of the first entry whose name one before it has, among those of these blocks.
pub(crate) fn repeated_name(
    alloc: Global,
    range: CoreRange,
    kept: &KeptBlocks,
    named: &mut Marks,
    blocks: &[u32],
) -> Result<Option<Location>, NoMemory>
    requires { HasParts range kept.now }
    ensures { IfOk result (λ p. p ≡ repeated_name [] (flat_map (entries_kept range kept.now) blocks.now)) }
{
    clear_marks(alloc, named, kept.names.names.len())?;
    for block in blocks {
        if let Some(place) = repeated_on(named, kept.entries_of(range, *block)) {
            return Ok(Some(place));
        }
    }
    Ok(None)
}

/// Takes all marks away, and makes one for each number below `count` where there are fewer.
fn clear_marks(alloc: Global, named: &mut Marks, count: usize) -> Result<(), NoMemory>
    ensures clear { OnOk result (named.new ≡ replicate (length named.new) false) }
    ensures enough { OnOk result (count ≤ length named.new) }
{
    if count <= named.len() {
        named.clear();
        return Ok(());
    }
    let Ok(few) = u32::try_from(count) else {
        return Err(NoMemory);
    };
    *named = Marks::with(alloc, few.saturating_mul(2))?;
    Ok(())
}

/// Marks the names of these entries, and answers the place of the first whose name was marked.
fn repeated_on(named: &mut Marks, entries: &[DirEntry]) -> Option<Location>
    requires { (l : DirEntry) → In l entries.now → l.name < length named.old }
    ensures repeated { (names : List (List ℕ)) (seen : List Listed) → AreNamed names entries.now → MarksNames names named.old seen
        → result ≡ repeated_name seen (map (entry_seen names) entries.now) }
    ensures marked { IfNone result ((names : List (List ℕ)) (seen : List Listed) → AreNamed names entries.now → MarksNames names named.old seen
        → MarksNames names named.new (seen ++ map (entry_seen names) entries.now)) }
    ensures room { length named.new ≡ length named.old }
{
    for listed in entries {
        if !named.set(listed.name) {
            return Some(Location {
                page: listed.page,
                slot: listed.slot,
            });
        }
    }
    None
}
