//! The indexes of directories.

ghost use Rattle.std.specs.Prelude.{◌≡◌, ◌<◌, ◌==◌, [], IfOk, IsTrue};
ghost use Rattle.std.specs.List.{filter, find, position};
ghost use Rattle.std.specs.Option.{option_copied};
ghost use Rattle.trio_session.specs.Seen.{dir_pages};
ghost use Rattle.trio_lists.specs.Lists.{In, are_new};
ghost use Rattle.trio_session.specs.inner.Found.{IsRoomier, TellsGrowth};
ghost use Rattle.trio_session.specs.inner.Made.{dir_numbers, has_slots};
ghost use Rattle.trio_session.specs.inner.Indexes.{AreRead, IsIndexOf};

use std::alloc::Global;
use trio_auxdir::HashedDir;
use trio_lease::ReadLease;
use trio_page::NoMemory;
use trio_rights::Kind;

/// The index of a directory that is lent or was made, by its inode number.
#[derive(Drop)]
pub(crate) struct IndexedDir {
    pub(crate) ino: u32,
    pub(crate) dir: HashedDir,
}

/// The first index of a file of this inode number.
pub(crate) fn index_on(dirs: &[IndexedDir], ino: u32) -> Option<&IndexedDir>
    ensures { option_copied result ≡ find (λ d. d.ino == ino) dirs.now }
{
    dirs.iter().find(|indexed| indexed.ino == ino)
}

/// The place of the first index of a file of this inode number.
pub(crate) fn index_place(dirs: &[IndexedDir], ino: u32) -> Option<usize>
    ensures { result ≡ position (λ d. d.ino == ino) dirs.now }
{
    dirs.iter().position(|indexed| indexed.ino == ino)
}

/// The index of a directory that is lent for reading, made of its lease.
pub(crate) fn index_of(alloc: Global, lease: &ReadLease) -> Result<HashedDir, NoMemory>
    requires { AreRead (dir_pages lease.now) }
    ensures { IfOk result (IsIndexOf lease.now) }
{
    let mut dir = HashedDir::new(alloc, u32::MAX);
    for k in 0..u32::MAX {
        match lease.block(k as usize) {
            Some(page) => dir.scan(page)?,
            None => return Ok(dir),
        }
    }
    Err(NoMemory)
}

/// Makes room in the index of a directory, if it has one, for one block and one name more.
pub(crate) fn reserve_index(dirs: &mut Vec<IndexedDir>, ino: u32) -> Result<(), NoMemory>
    ensures { IsRoomier result dirs.old.items ino dirs.new.items }
{
    match index_place(dirs, ino) {
        Some(at) => dirs[at].dir.reserve(),
        None => Ok(()),
    }
}

/// Tells the index of a directory of one block more, where it has got one. The index has a place for it.
pub(crate) fn tell_growth(dirs: &mut Vec<IndexedDir>, kind: Kind, ino: u32, more: usize)
    requires place { kind ≡ Kind.Directory → 0 < more → In ino (dir_numbers (filter has_slots dirs.old.items)) }
    requires once { IsTrue (are_new [] (dir_numbers dirs.old.items)) }
    ensures { TellsGrowth kind more dirs.old.items ino dirs.new.items }
{
    if kind.is_directory() && more > 0 {
        let at = index_place(dirs, ino).unwrap();
        dirs[at].dir.grow();
    }
}
