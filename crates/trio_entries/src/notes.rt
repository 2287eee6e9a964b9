//! What is noted of each live file.

ghost use Rattle.std.specs.Prelude.{◌≡◌, None, slice_index_or, slice_set};
ghost use Rattle.std.specs.Str.{bytes_eq};
ghost use Rattle.trio_state.specs.Listed.{note_told, noted_guard, noted_name, noted_size, notes_after};

use std::marker::Model;
use trio_nodes::{Note, RawFile};

/// The name, the size and the guard of each live file, by inode number, as the entries of releases tell them.
///
/// Contracts see a list with a note or none at each number; past its end there is none.
#[derive(Drop)]
pub struct Notes {
    notes: Vec<Option<Note>>,
}

impl Model for Notes {
    ghost use Rattle.std.specs.Prelude.{List, Option};
    ghost use Rattle.trio_nodes.specs.declared.note.Note.{Note};

    ghost Value = { List (Option Note) };

    ghost view = { λ n. n.notes.items };
}

impl Notes {
    /// These notes, in the order of the numbers from 0 on.
    pub fn of(notes: Vec<Option<Note>>) -> Notes
        ensures { result ≡ notes.items }
    {
        Notes { notes }
    }

    /// What is noted of a number; `None` where nothing is, as of every number past the last.
    pub fn get(&self, ino: u32) -> Option<Note>
        ensures { result ≡ slice_index_or self.now ino None }
    {
        *self.notes.get(ino as usize)?
    }

    /// Whether these are the bytes of the name that is noted of a number; of one of which nothing is
    /// noted it is the empty name.
    pub(crate) fn has_name(&self, ino: u32, name: &[u8]) -> bool
        ensures { result ≡ bytes_eq (noted_name self.now ino) name.now }
    {
        match self.notes.get(ino as usize) {
            Some(Some(note)) => note.name.as_bytes() == name,
            _ => name.is_empty(),
        }
    }

    /// The size that is noted of a number, or 0.
    pub(crate) fn size(&self, ino: u32) -> u64
        ensures { result ≡ noted_size self.now ino }
    {
        match self.get(ino) {
            Some(note) => note.size,
            None => 0,
        }
    }

    /// The guard that is noted of a number; of one of which nothing is noted it is none.
    pub(crate) fn guard(&self, ino: u32) -> bool
        ensures { result ≡ noted_guard self.now ino }
    {
        match self.get(ino) {
            Some(note) => note.guard,
            None => false,
        }
    }

    /// Notes what the files of an accepted release tell: of each its name, size and guard, or nothing
    /// more where it is gone. A number past the last is let be. It takes no memory.
    pub fn tell(&mut self, files: &[RawFile])
        ensures { self.new ≡ notes_after files.now self.old }
    {
        for file in files {
            self.tell_one(file);
        }
    }

    fn tell_one(&mut self, file: &RawFile)
        ensures { self.new ≡ slice_set self.old file.now.ino (note_told file.now) }
    {
        let at = file.ino as usize;
        if at < self.notes.len() {
            self.notes[at] = note_told(file);
        }
    }
}

fn note_told(file: &RawFile) -> Option<Note>
    ensures { result ≡ note_told file.now }
{
    if file.gone {
        return None;
    }
    Some(Note {
        name: file.name,
        size: file.size,
        guard: file.guard,
    })
}
