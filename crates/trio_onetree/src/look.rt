//! Calls that only look.

ghost use Rattle.trio_nodes.specs.Apply.{read, readlink, list, stat};
ghost use Rattle.trio_onetree.specs.inner.Gives.{Gives};

use crate::content::part;
use crate::fault::Fault;
use crate::reach::file_at;
use crate::walk::lacks;
use std::alloc::Global;
use trio_names::Path;
use trio_nodes::{Answer, List, Nodes, Reply, SharedBytes};
use trio_rights::{Creds, Need};

/// The most names that one reply has.
const LISTED: usize = 64;

/// At most `len` bytes of a regular file from `at` on.
pub(crate) fn read(
    alloc: Global,
    nodes: &Nodes,
    creds: Creds,
    path: &Path,
    at: u64,
    len: u32,
) -> Result<Answer, Fault>
    ensures { Gives (read nodes.now creds path.now at len) nodes.now nodes.now result }
{
    let (_, node) = file_at(nodes, creds, path)?;
    if node.kind.is_directory() {
        return Err(Fault::Refused(Reply::IsDir));
    }
    if node.kind.is_link() {
        return Err(Fault::Refused(Reply::IsLink));
    }
    if lacks(creds, Need::Read, node) {
        return Err(Fault::Refused(Reply::Denied));
    }
    let read = part(node.bytes.as_slice(), at as usize, len as usize);
    Ok(Answer::Bytes(SharedBytes::copied(alloc, read)?))
}

/// The text of a symbolic link.
pub(crate) fn readlink(
    alloc: Global,
    nodes: &Nodes,
    creds: Creds,
    path: &Path,
) -> Result<Answer, Fault>
    ensures { Gives (readlink nodes.now creds path.now) nodes.now nodes.now result }
{
    let (_, node) = file_at(nodes, creds, path)?;
    if !node.kind.is_link() {
        return Err(Fault::Refused(Reply::NotLink));
    }
    if lacks(creds, Need::Read, node) {
        return Err(Fault::Refused(Reply::Denied));
    }
    let text = SharedBytes::copied(alloc, node.bytes.as_slice())?;
    Ok(Answer::Bytes(text))
}

/// How many entries a directory has, and at most 64 of their names from a place on.
pub(crate) fn list(
    alloc: Global,
    nodes: &Nodes,
    creds: Creds,
    path: &Path,
    from: u32,
) -> Result<Answer, Fault>
    ensures { Gives (list nodes.now creds path.now from) nodes.now nodes.now result }
{
    let (ino, node) = file_at(nodes, creds, path)?;
    if !node.kind.is_directory() {
        return Err(Fault::Refused(Reply::NotDir));
    }
    if lacks(creds, Need::Read, node) {
        return Err(Fault::Refused(Reply::Denied));
    }
    let names = nodes.names(ino)?;
    let told = Vec::from_slice(alloc, part(&names, from as usize, LISTED))?;
    Ok(Answer::Names {
        count: nodes.count(ino),
        names: List::from_vec(told),
    })
}

/// What a file is.
pub(crate) fn stat(nodes: &Nodes, creds: Creds, path: &Path) -> Result<Answer, Fault>
    ensures { Gives (stat nodes.now creds path.now) nodes.now nodes.now result }
{
    let (ino, node) = file_at(nodes, creds, path)?;
    if lacks(creds, Need::Read, node) {
        return Err(Fault::Refused(Reply::Denied));
    }
    let size = if node.kind.is_directory() {
        u64::from(nodes.count(ino))
    } else {
        node.bytes.as_slice().len() as u64
    };
    Ok(Answer::Stat {
        kind: node.kind,
        mode: node.mode,
        uid: node.uid,
        gid: node.gid,
        size,
    })
}
