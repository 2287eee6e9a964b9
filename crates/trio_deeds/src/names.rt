//! The names of a directory that a session has.

ghost use Rattle.std.specs.Prelude.{◌≡◌, ◌≤◌, ◌<◌, ◌+◌, ◌++◌, [], IfOk, OnOk, length, slice_index_or};
ghost use Rattle.trio_lists.specs.Sorting.{sorted_by_name};
ghost use Rattle.trio_nodes.specs.Nodes.{entry_name};
ghost use Rattle.trio_session.specs.Deeds.{IsHad, names_here};
ghost use Rattle.trio_session.specs.Seen.{entry_shown, pages_shown};
ghost use Rattle.trio_deeds.specs.Names.{named_in, names_of_pages, names_on};

use crate::sizes::{block_count, size_of};
use std::alloc::Global;
use trio_auxdir::Place;
use trio_names::Name;
use trio_page::NoMemory;
use trio_rights::Kind;
use trio_session::Session;

/// The names and kinds of a directory that the session has, in byte order.
pub fn sorted_names(
    alloc: Global,
    session: &Session,
    dir: u32,
) -> Result<Vec<(Name, Kind)>, NoMemory>
    requires { IsHad session.now dir }
    ensures sorted { IfOk result (λ names. names.items ≡ names_here session.now dir) }
    ensures few { IfOk result (λ names. length names.items ≤ 131072) }
{
    let mut names = names_of(alloc, session, dir)?;
    sort_by_name(&mut names)?;
    Ok(names)
}

// in byte order
fn sort_by_name(names: &mut Vec<(Name, Kind)>) -> Result<(), NoMemory>
    ensures sorted { OnOk result (names.new.items ≡ sorted_by_name entry_name names.old.items) }
    ensures count { OnOk result (length names.new.items ≡ length names.old.items) }
{
    names.sort_by_key(|entry| entry.0)?;
    Ok(())
}

// the names and kinds of a directory, in the order of block and slot
fn names_of(alloc: Global, session: &Session, dir: u32) -> Result<Vec<(Name, Kind)>, NoMemory>
    requires { IsHad session.now dir }
    ensures names { IfOk result (λ names. names.items ≡ names_of_pages (pages_shown session.now dir)) }
    ensures few { IfOk result (λ names. length names.items ≤ 131072) }
{
    let mut names = Vec::new(alloc);
    for block in 0..block_count(size_of(session, dir)) {
        add_names(session, dir, block, &mut names)?;
    }
    Ok(names)
}

// those of one block
fn add_names(
    session: &Session,
    dir: u32,
    block: u32,
    names: &mut Vec<(Name, Kind)>,
) -> Result<(), NoMemory>
    requires had { IsHad session.now dir }
    requires block { block < length (pages_shown session.now dir) }
    ensures more { OnOk result (names.new.items ≡ names.old.items ++ names_on (slice_index_or (pages_shown session.now dir) block [])) }
    ensures few { OnOk result (length names.new.items ≤ length names.old.items + 16) }
{
    for slot in 0..16 {
        add_name(session, dir, Place { block, slot }, names)?;
    }
    Ok(())
}

// that of one slot, where it has an entry
fn add_name(
    session: &Session,
    dir: u32,
    place: Place,
    names: &mut Vec<(Name, Kind)>,
) -> Result<(), NoMemory>
    requires { place.slot < 16 }
    ensures more { OnOk result (names.new.items ≡ names.old.items ++ named_in (entry_shown session.now dir place)) }
    ensures few { OnOk result (length names.new.items ≤ length names.old.items + 1) }
{
    match session.entry(dir, place) {
        None => Ok(()),
        Some(entry) => {
            names.push((entry.name, entry.kind))?;
            Ok(())
        }
    }
}
