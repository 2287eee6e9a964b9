//! Paths of calls.

ghost use Rattle.std.specs.Prelude.{◌≡◌, IfOk, IsFalse};
ghost use Rattle.trio_names.specs.Name.{IsName};
ghost use Rattle.trio_nodes.specs.Walk.{dir_of, is_above, is_root, name_of};

use std::alloc::Global;
use trio_names::{Name, Path};
use trio_page::NoMemory;

/// The path has no names.
pub(crate) fn is_root(path: &Path) -> bool
    ensures { result ≡ is_root path.now }
{
    path.names().is_empty()
}

/// The path of the directory that lists the file at this path.
pub(crate) fn parent(alloc: Global, path: &Path) -> Result<Path, NoMemory>
    ensures { IfOk result (λ p. p ≡ dir_of path.now) }
{
    path.parent(alloc)
}

/// The last name of a path that isn't the root's.
pub(crate) fn name_of(path: &Path) -> &Name
    requires { IsFalse (is_root path.now) }
    ensures last { result.now ≡ name_of path.now }
    ensures name { IsName (name_of path.now) }
{
    let names = path.names();
    &names[names.len() - 1]
}

/// The first path is above the second, name by name.
pub(crate) fn is_above(from: &Path, to: &Path) -> bool
    ensures { result ≡ is_above from.now to.now }
{
    let (from, to) = (from.names(), to.names());
    from.len() < to.len() && from == &to[..from.len()]
}
