//! The tree of an image.

ghost use Rattle.std.specs.Prelude.{◌≡◌, ◌<◌, ◌+◌, ◌^◌, [], ◌++◌, IfOk, OnOk, map, reverse};
ghost use Rattle.trio_layout.specs.Survey.{met_in, plain, root_of};
ghost use Rattle.trio_survey.specs.Seen.{listed_seen, file_seen, met_seen, read_seen};
ghost use Rattle.trio_survey.specs.Stored.{core_in};
ghost use Rattle.trio_layout.specs.Tree.{by_name, told_size, tree_of};
ghost use Rattle.trio_report.specs.inner.Nodes.{node_seen, children_of, Visited};

use crate::line::{TreeLine, TreeName};
use std::alloc::Global;
use trio_layout::{CoreRange, Location, Superblock};
use trio_page::{Home, NoMemory, Reads};
use trio_rights::Kind;
use trio_survey::file::{EntryRead, FileParts, MetFile, read_file};

/// A file whose line is still to come.
#[derive(Clone, Copy)]
struct Unprinted {
    depth: u32,
    name: TreeName,
    met: MetFile,
}

/// The tree of the image that has this superblock and the pages at home: a directory before its
/// children, children in the byte order of their names.
///
/// A file that can't be read has no line, nor has what it lists; in an image that verifies there is
/// none. Nothing is told below the depth that is the number of inode numbers, which no tree reaches.
/// Blocks of regular files and links aren't looked at.
///
/// After [`NoMemory`] the pages are as they were, as they are after any answer.
pub fn tree_lines(
    alloc: Global,
    home: &mut Home,
    superblock: &Superblock,
    reads: &mut Reads,
) -> Result<Vec<TreeLine>, NoMemory>
    ensures pages { home.new.pages ≡ home.old.pages }
    ensures tree { IfOk result (λ lines. lines.items ≡ tree_of (core_in superblock.now home.old.pages)) }
{
    let range = CoreRange {
        first: superblock.first_core,
        end: superblock.pages,
    };
    let mut lines = Vec::new(alloc);
    let mut pending = Vec::new(alloc);
    pending.push(Unprinted {
        depth: 0,
        name: TreeName::Root,
        met: root_file(superblock),
    })?;
    while let Some(next) = pending.pop() {
        let read = read_file(alloc, home, range, superblock.inodes, &next.met, reads)?;
        next.visit(alloc, read, superblock.inodes, &mut pending, &mut lines)?;
    }
    Ok(lines)
}

fn root_file(superblock: &Superblock) -> MetFile
    ensures { met_seen result ≡ root_of (core_in superblock.now []) }
{
    MetFile {
        ino: 1,
        kind: Kind::Directory,
        parent: 0,
        page: 0,
        slot: 0,
        body: superblock.root,
    }
}

impl Unprinted {
    /// Tells the line of the file, as it was read, and lets the files that it lists wait where they
    /// are no deeper than the last depth.
    fn visit(
        &self,
        alloc: Global,
        read: Result<FileParts, Location>,
        last: u32,
        pending: &mut Vec<Unprinted>,
        lines: &mut Vec<TreeLine>,
    ) -> Result<(), NoMemory>
        ensures { OnOk result (Visited last (node_seen self.now) (read_seen read)
            (map node_seen pending.old.items) (map node_seen pending.new.items) lines.old.items lines.new.items) }
    {
        let Ok(mut file) = read else {
            return Ok(());
        };
        lines.push(TreeLine {
            depth: self.depth,
            kind: self.met.kind,
            mode: file.body.mode,
            uid: file.body.uid,
            gid: file.body.gid,
            size: told_size(self.met.kind, &file),
            name: self.name,
        })?;
        if self.depth < last {
            self.add_children(alloc, &mut file.entries, pending)?;
        }
        Ok(())
    }

    /// Lets the files of these entries wait, the first name at the end. The entries are left in an
    /// order of no meaning.
    fn add_children(
        &self,
        alloc: Global,
        entries: &mut [EntryRead],
        pending: &mut Vec<Unprinted>,
    ) -> Result<(), NoMemory>
        requires { self.now.depth + 1 < 2 ^ 32 }
        ensures { OnOk result (map node_seen pending.new.items ≡ map node_seen pending.old.items ++ children_of (node_seen self.now) (map listed_seen entries.old)) }
    {
        sort_down(alloc, entries)?;
        for listed in entries.iter() {
            pending.push(Unprinted {
                depth: self.depth + 1,
                name: TreeName::Entry(listed.entry.name),
                met: self.child(listed),
            })?;
        }
        Ok(())
    }

    fn child(&self, listed: &EntryRead) -> MetFile
        ensures { met_seen result ≡ met_in plain self.now.met.ino (listed_seen listed.now) }
    {
        MetFile {
            ino: listed.entry.ino,
            kind: listed.entry.kind,
            parent: self.met.ino,
            page: listed.page,
            slot: listed.slot,
            body: listed.body,
        }
    }
}

fn told_size(kind: Kind, file: &FileParts) -> u64
    ensures { result ≡ told_size kind (file_seen file.now) }
{
    if kind.is_directory() {
        file.entries.len() as u64
    } else {
        file.body.size
    }
}

/// Puts the entries in the order of their names, the last name first.
fn sort_down(alloc: Global, entries: &mut [EntryRead]) -> Result<(), NoMemory>
    ensures { OnOk result (map listed_seen entries.new ≡ reverse (by_name (map listed_seen entries.old))) }
{
    entries.sort_by_key(alloc, |listed| listed.entry.name)?;
    entries.reverse();
    Ok(())
}
