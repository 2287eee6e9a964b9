//! The files that a walk reaches, with their nodes.

ghost use Rattle.std.specs.Prelude.{◌≡◌, MatchResult};
ghost use Rattle.trio_onetree.specs.inner.Gives.{file_of, file_in, entry_of};
ghost use Rattle.trio_onetree.specs.inner.Paths.{paths_of};

use crate::walk::{look_up, walk, walk_into};
use trio_names::{Name, Path};
use trio_nodes::{Node, Nodes, Reply};
use trio_rights::Creds;

/// The file at a path: its number and its node.
pub(crate) fn file_at<'a>(
    nodes: &'a Nodes,
    creds: Creds,
    path: &Path,
) -> Result<(u32, &'a Node), Reply>
    ensures { MatchResult result (λ f. file_of nodes.now creds path.now ≡ Ok (f.0, f.1.now))
        (λ reply. file_of nodes.now creds path.now ≡ Err reply) }
{
    let ino = walk(nodes, creds, &[], path.names())?;
    match nodes.get(ino) {
        Some(node) => Ok((ino, node)),
        None => Err(Reply::NotFound),
    }
}

/// The file that a directory lists by a name: its number and its node.
pub(crate) fn file_in<'a>(nodes: &'a Nodes, dir: u32, name: &Name) -> Result<(u32, &'a Node), Reply>
    ensures { MatchResult result (λ f. file_in nodes.now dir name.now ≡ Ok (f.0, f.1.now))
        (λ reply. file_in nodes.now dir name.now ≡ Err reply) }
{
    let ino = look_up(nodes, dir, name)?;
    match nodes.get(ino) {
        Some(node) => Ok((ino, node)),
        None => Err(Reply::NotFound),
    }
}

/// The file of this name in the directory at a path, which is entered; as [`walk_into`].
pub(crate) fn entry_at<'a>(
    nodes: &'a Nodes,
    creds: Creds,
    writes: &[&[Name]],
    dir: &[Name],
    name: &Name,
) -> Result<(u32, &'a Node), Reply>
    ensures { MatchResult result
        (λ f. entry_of nodes.now creds (paths_of writes.now) dir.now name.now ≡ Ok (f.0, f.1.now))
        (λ reply. entry_of nodes.now creds (paths_of writes.now) dir.now name.now ≡ Err reply) }
{
    let parent = walk_into(nodes, creds, writes, dir)?;
    file_in(nodes, parent, name)
}
