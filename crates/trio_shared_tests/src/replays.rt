//! What the log of a controller replays to.

use crate::images::two_directories;
use std::alloc::Global;
use trio_ctl::Ctl;
use trio_log::replay;
use trio_nodes::{Node, Nodes};
use trio_rights::Creds;

/// Whether the log of a controller that began with two directories, replayed from their image by the tree
/// of one thread, comes to the nodes of the settled image.
pub fn is_replayed(alloc: Global, libs: &[Creds], ctl: &mut Ctl) -> Option<bool> {
    let replayed = replay(alloc, first_nodes(alloc)?, libs, ctl.log()).ok()?;
    let settled = settled_nodes(alloc, ctl)?;
    Some(are_same(&settled, &replayed))
}

fn first_nodes(alloc: Global) -> Option<Nodes> {
    let mut image = two_directories(alloc)?;
    image.nodes(alloc).ok()
}

/// The nodes of the settled image.
pub fn settled_nodes(alloc: Global, ctl: &mut Ctl) -> Option<Nodes> {
    let mut image = ctl.image().ok()?;
    image.nodes(alloc).ok()
}

// Whether they are the same. The images have 64 inode numbers.
fn are_same(a: &Nodes, b: &Nodes) -> bool {
    for ino in 0..64 {
        if !is_same_node(a.get(ino), b.get(ino)) {
            return false;
        }
    }
    true
}

fn is_same_node(a: Option<&Node>, b: Option<&Node>) -> bool {
    match (a, b) {
        (None, None) => true,
        (Some(a), Some(b)) => {
            a.parent == b.parent
                && a.name.as_bytes() == b.name.as_bytes()
                && a.kind == b.kind
                && a.mode == b.mode
                && a.uid == b.uid
                && a.gid == b.gid
                && a.bytes.as_slice() == b.bytes.as_slice()
        }
        _ => false,
    }
}
