//! Calls that change the nodes.

ghost use Rattle.std.specs.Prelude.{◌≡◌, ◌+◌, ◌<◌, length, nat_lt, Some};
ghost use Rattle.trio_nodes.specs.declared.node.Node.{Node};
ghost use Rattle.trio_nodes.specs.Nodes.{node_at, with_node};
ghost use Rattle.trio_nodes.specs.Apply.{make, write, truncate, guard, unlink, rmdir, rename, chmod, largest_size};
ghost use Rattle.trio_onetree.specs.inner.Gives.{Gives};

use crate::content::{LARGEST_SIZE, put_at, resized};
use crate::fault::Fault;
use crate::path::{is_above, parts};
use crate::reach::{entry_at, file_at, file_in};
use crate::walk::{lacks, walk_into};
use std::alloc::Global;
use trio_names::{Name, Path};
use trio_nodes::{Answer, Bytes, Node, Nodes, Reply};
use trio_rights::{Creds, Kind, Mode, Need};

/// A new file or directory with the caller's uid and gid, and with these bytes.
pub(crate) fn make(
    alloc: Global,
    nodes: &mut Nodes,
    creds: Creds,
    kind: Kind,
    path: &Path,
    mode: Mode,
    bytes: &[u8],
    made: u32,
) -> Result<Answer, Fault>
    ensures { Gives (make nodes.old creds kind path.now mode bytes.now made) nodes.old nodes.new result }
{
    let Some((dir, name)) = parts(path) else {
        return Err(Fault::Refused(Reply::Exists));
    };
    let parent = walk_into(nodes, creds, &[dir], dir)?;
    if nodes.entry(parent, name).is_some() {
        return Err(Fault::Refused(Reply::Exists));
    }
    let copy = Bytes::copied(alloc, bytes)?;
    let node = Node {
        parent,
        name: *name,
        kind,
        mode,
        uid: creds.uid,
        gid: creds.gid,
        guard: false,
        bytes: copy,
    };
    nodes.put(made, node)?;
    Ok(Answer::Done)
}

/// Bytes put at a place of a regular file.
pub(crate) fn write(
    alloc: Global,
    nodes: &mut Nodes,
    creds: Creds,
    path: &Path,
    at: u64,
    bytes: &[u8],
) -> Result<Answer, Fault>
    ensures { Gives (write nodes.old creds path.now at bytes.now) nodes.old nodes.new result }
{
    let (ino, node) = file_at(nodes, creds, path)?;
    if node.kind.is_directory() {
        return Err(Fault::Refused(Reply::IsDir));
    }
    if node.kind.is_link() {
        return Err(Fault::Refused(Reply::IsLink));
    }
    if lacks(creds, Need::Write, node) {
        return Err(Fault::Refused(Reply::Denied));
    }
    if ends_past(at, bytes.len()) {
        return Err(Fault::Refused(Reply::TooLarge));
    }
    let written = put_at(alloc, at, bytes, node.bytes.as_slice())?;
    set_bytes(nodes, ino, written);
    Ok(Answer::Count(bytes.len() as u32))
}

/// A regular file cut, or grown by zeros.
pub(crate) fn truncate(
    alloc: Global,
    nodes: &mut Nodes,
    creds: Creds,
    path: &Path,
    size: u64,
) -> Result<Answer, Fault>
    ensures { Gives (truncate nodes.old creds path.now size) nodes.old nodes.new result }
{
    let (ino, node) = file_at(nodes, creds, path)?;
    if node.kind.is_directory() {
        return Err(Fault::Refused(Reply::IsDir));
    }
    if node.kind.is_link() {
        return Err(Fault::Refused(Reply::IsLink));
    }
    if lacks(creds, Need::Write, node) {
        return Err(Fault::Refused(Reply::Denied));
    }
    if size > LARGEST_SIZE {
        return Err(Fault::Refused(Reply::TooLarge));
    }
    let bytes = resized(alloc, size, node.bytes.as_slice())?;
    set_bytes(nodes, ino, bytes);
    Ok(Answer::Done)
}

/// A regular file is guarded from now on, or no longer.
pub(crate) fn guard(nodes: &mut Nodes, creds: Creds, path: &Path, on: bool) -> Result<Answer, Fault>
    ensures { Gives (guard nodes.old creds path.now on) nodes.old nodes.new result }
{
    let (ino, node) = file_at(nodes, creds, path)?;
    if node.kind.is_directory() {
        return Err(Fault::Refused(Reply::IsDir));
    }
    if node.kind.is_link() {
        return Err(Fault::Refused(Reply::IsLink));
    }
    if lacks(creds, Need::Write, node) {
        return Err(Fault::Refused(Reply::Denied));
    }
    set_guard(nodes, ino, on);
    Ok(Answer::Done)
}

/// A regular file or a link taken away.
pub(crate) fn unlink(nodes: &mut Nodes, creds: Creds, path: &Path) -> Result<Answer, Fault>
    ensures { Gives (unlink nodes.old creds path.now) nodes.old nodes.new result }
{
    let Some((dir, name)) = parts(path) else {
        return Err(Fault::Refused(Reply::IsDir));
    };
    let (ino, node) = entry_at(nodes, creds, &[dir], dir, name)?;
    if node.kind.is_directory() {
        return Err(Fault::Refused(Reply::IsDir));
    }
    nodes.remove(ino);
    Ok(Answer::Done)
}

/// An empty directory taken away.
pub(crate) fn rmdir(nodes: &mut Nodes, creds: Creds, path: &Path) -> Result<Answer, Fault>
    ensures { Gives (rmdir nodes.old creds path.now) nodes.old nodes.new result }
{
    let Some((dir, name)) = parts(path) else {
        return Err(Fault::Refused(Reply::Denied));
    };
    let (ino, node) = entry_at(nodes, creds, &[dir], dir, name)?;
    if !node.kind.is_directory() {
        return Err(Fault::Refused(Reply::NotDir));
    }
    if nodes.count(ino) > 0 {
        return Err(Fault::Refused(Reply::NotEmpty));
    }
    nodes.remove(ino);
    Ok(Answer::Done)
}

/// A file put into another directory, or under another name.
pub(crate) fn rename(
    nodes: &mut Nodes,
    creds: Creds,
    from: &Path,
    to: &Path,
) -> Result<Answer, Fault>
    ensures { Gives (rename nodes.old creds from.now to.now) nodes.old nodes.new result }
{
    let Some((dir, name)) = parts(from) else {
        return Err(Fault::Refused(Reply::Denied));
    };
    let Some((new_dir, new_name)) = parts(to) else {
        return Err(Fault::Refused(Reply::Exists));
    };
    if is_above(from.names(), to.names()) {
        return Err(Fault::Refused(Reply::IntoItself));
    }
    let writes = [dir, new_dir];
    let parent = walk_into(nodes, creds, &writes, dir)?;
    let new_parent = walk_into(nodes, creds, &writes, new_dir)?;
    let (ino, _node) = file_in(nodes, parent, name)?;
    if nodes.entry(new_parent, new_name).is_some() {
        return Err(Fault::Refused(Reply::Exists));
    }
    set_place(nodes, ino, new_parent, new_name);
    Ok(Answer::Done)
}

/// Another mode, by the owner or by uid 0.
pub(crate) fn chmod(
    nodes: &mut Nodes,
    creds: Creds,
    path: &Path,
    mode: Mode,
) -> Result<Answer, Fault>
    ensures { Gives (chmod nodes.old creds path.now mode) nodes.old nodes.new result }
{
    let Some((dir, name)) = parts(path) else {
        return Err(Fault::Refused(Reply::Denied));
    };
    let (ino, node) = entry_at(nodes, creds, &[], dir, name)?;
    if !(creds.uid == node.uid || creds.uid == 0) {
        return Err(Fault::Refused(Reply::Denied));
    }
    set_mode(nodes, ino, mode);
    Ok(Answer::Done)
}

fn ends_past(at: u64, len: usize) -> bool
    ensures { result ≡ nat_lt largest_size (at + len) }
{
    let len = len as u64;
    len > LARGEST_SIZE || at > LARGEST_SIZE - len
}

fn set_bytes(nodes: &mut Nodes, ino: u32, bytes: Bytes)
    ensures { (x : Node) → node_at nodes.old ino ≡ Some x
        → nodes.new ≡ with_node nodes.old ino (Some (record x { bytes = bytes })) }
{
    if let Some(node) = nodes.get_mut(ino) {
        node.bytes = bytes;
    }
}

fn set_guard(nodes: &mut Nodes, ino: u32, on: bool)
    ensures { (x : Node) → node_at nodes.old ino ≡ Some x
        → nodes.new ≡ with_node nodes.old ino (Some (record x { guard = on })) }
{
    if let Some(node) = nodes.get_mut(ino) {
        node.guard = on;
    }
}

fn set_place(nodes: &mut Nodes, ino: u32, parent: u32, name: &Name)
    ensures { (x : Node) → node_at nodes.old ino ≡ Some x
        → nodes.new ≡ with_node nodes.old ino (Some (record x { parent = parent; name = name.now })) }
{
    if let Some(node) = nodes.get_mut(ino) {
        node.parent = parent;
        node.name = *name;
    }
}

fn set_mode(nodes: &mut Nodes, ino: u32, mode: Mode)
    ensures { (x : Node) → node_at nodes.old ino ≡ Some x
        → nodes.new ≡ with_node nodes.old ino (Some (record x { mode = mode })) }
{
    if let Some(node) = nodes.get_mut(ino) {
        node.mode = mode;
    }
}
