//! What is noted of an image's live files: their names, sizes and guards.

ghost use Rattle.std.specs.Prelude.{◌≡◌, [], unwrap_or, IfOk};
ghost use Rattle.std.specs.Option.{option_map};
ghost use Rattle.trio_rights.specs.Row.{row_in};
ghost use Rattle.trio_tables.specs.Row.{as_row};
ghost use Rattle.trio_layout.specs.Body.{body_at};
ghost use Rattle.trio_survey.specs.Stored.{core_in};
ghost use Rattle.trio_state.specs.ImageNodes.{note_by_row, notes_by_rows};

use crate::nodes::{body_at, core_range, guard_in, name_in, slot_at};
use std::alloc::Global;
use trio_layout::Superblock;
use trio_nodes::Note;
use trio_page::field::u64_in;
use trio_page::{Home, NoMemory};
use trio_tables::{Row, Shadow};

/// The notes of the files that these rows tell, at each inode number. The pages stay as they were.
pub(crate) fn notes_in(
    alloc: Global,
    home: &mut Home,
    superblock: &Superblock,
    rows: &Shadow,
) -> Result<Vec<Option<Note>>, NoMemory>
    ensures pages { home.new.pages ≡ home.old.pages }
    ensures notes { IfOk result (λ notes. notes.items ≡ notes_by_rows (core_in superblock.now home.old.pages) rows.now) }
{
    let mut notes = Vec::new(alloc);
    for ino in 0..rows.inodes() + 1 {
        notes.push(note_at(home, superblock, rows, ino))?;
    }
    Ok(notes)
}

/// The note of an inode number, where it is live.
fn note_at(home: &mut Home, superblock: &Superblock, rows: &Shadow, ino: u32) -> Option<Note>
    ensures pages { home.new.pages ≡ home.old.pages }
    ensures note { result ≡ option_map (note_by_row (core_in superblock.now home.old.pages) ino) (row_in rows.now ino) }
{
    match rows.row(ino) {
        Some(row) => Some(note_of(home, superblock, ino, &row)),
        None => None,
    }
}

fn note_of(home: &mut Home, superblock: &Superblock, ino: u32, row: &Row) -> Note
    ensures pages { home.new.pages ≡ home.old.pages }
    ensures note { result ≡ note_by_row (core_in superblock.now home.old.pages) ino (as_row row.now) }
{
    let slot = slot_at(home, core_range(superblock), row.page, row.slot);
    let body = body_at(&superblock.root, ino, &slot);
    Note {
        name: name_in(&slot, superblock.inodes),
        size: size_in(&body),
        guard: guard_in(&body),
    }
}

/// The size that a body says; 0 where there is none.
fn size_in(body: &Option<[u8; 64]>) -> u64
    ensures { result ≡ (body_at (unwrap_or body.now [])).size }
{
    match body {
        Some(bytes) => u64_in(bytes, 16),
        None => 0,
    }
}
