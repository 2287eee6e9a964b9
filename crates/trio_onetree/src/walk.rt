//! Walks from the root down, with the rights that each directory asks.

ghost use Rattle.std.specs.Prelude.{◌≡◌};
ghost use Rattle.std.specs.Option.{ok_or};
ghost use Rattle.trio_nodes.specs.Nodes.{find_named};
ghost use Rattle.trio_nodes.specs.Walk.{lacks, enter, need_at, walk, walk_into};
ghost use Rattle.trio_nodes.specs.declared.call.Reply.TheVariants.{NotFound};
ghost use Rattle.trio_onetree.specs.inner.Paths.{paths_of};

use crate::path::same_path;
use trio_names::Name;
use trio_nodes::{Node, Nodes, Reply};
use trio_rights::{Creds, Need, may};

/// Whether the rights of the node don't give what is needed.
pub(crate) fn lacks(creds: Creds, need: Need, node: &Node) -> bool
    ensures { result ≡ lacks creds need node.now }
{
    !may(creds, node.kind, node.mode, node.uid, node.gid, need)
}

// a directory is entered: it has to be one, and to give what is needed
fn enter(nodes: &Nodes, creds: Creds, need: Need, ino: u32) -> Result<u32, Reply>
    ensures { result ≡ enter nodes.now creds need ino }
{
    match nodes.get(ino) {
        None => Err(Reply::NotFound),
        Some(node) if !node.kind.is_directory() => Err(Reply::NotDir),
        Some(node) if lacks(creds, need, node) => Err(Reply::Denied),
        Some(_) => Ok(ino),
    }
}

/// The number of the file that a directory lists by a name.
pub(crate) fn look_up(nodes: &Nodes, dir: u32, name: &Name) -> Result<u32, Reply>
    ensures { result ≡ ok_or (find_named nodes.now dir name.now) NotFound }
{
    nodes.entry(dir, name).ok_or(Reply::NotFound)
}

// write is needed of a directory whose path is among these, read of any other
fn need_at(writes: &[&[Name]], passed: &[Name]) -> Need
    ensures { result ≡ need_at (paths_of writes.now) passed.now }
{
    for path in writes {
        if same_path(passed, path) {
            return Need::Write;
        }
    }
    Need::Read
}

/// The number of the file at this path. The directories at the paths `writes` have to give `Write`,
/// each other that is passed `Read`.
pub(crate) fn walk(
    nodes: &Nodes,
    creds: Creds,
    writes: &[&[Name]],
    path: &[Name],
) -> Result<u32, Reply>
    ensures { result ≡ walk nodes.now creds (paths_of writes.now) path.now }
{
    let mut at = 1;
    for (i, name) in path.iter().enumerate() {
        let dir = enter(nodes, creds, need_at(writes, &path[..i]), at)?;
        at = look_up(nodes, dir, name)?;
    }
    Ok(at)
}

/// The number of the directory at this path, which is entered too.
pub(crate) fn walk_into(
    nodes: &Nodes,
    creds: Creds,
    writes: &[&[Name]],
    path: &[Name],
) -> Result<u32, Reply>
    ensures { result ≡ walk_into nodes.now creds (paths_of writes.now) path.now }
{
    let dir = walk(nodes, creds, writes, path)?;
    enter(nodes, creds, need_at(writes, path), dir)
}
