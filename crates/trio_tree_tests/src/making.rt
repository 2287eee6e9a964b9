//! Nodes of small trees.

use std::alloc::Global;
use trio_names::Name;
use trio_nodes::{Bytes, Node, Nodes};
use trio_rights::{Kind, Mode};

/// A node: its number and that of its directory, its name, its kind, its mode and its bytes.
pub type Row = (u32, u32, &'static [u8], Kind, u16, &'static [u8]);

/// A node of the user 0 and the group 0.
fn node(alloc: Global, row: &Row) -> Option<Node> {
    let (_, parent, name, kind, mode, bytes) = *row;
    let name = Name::read(name).ok()?;
    let bytes = Bytes::copied(alloc, bytes).ok()?;
    Some(Node {
        parent,
        name,
        kind,
        mode: Mode(mode),
        uid: 0,
        gid: 0,
        guard: false,
        bytes,
    })
}

/// Puts the node of a row, and tells whether it was put.
pub fn put(alloc: Global, nodes: &mut Nodes, row: &Row) -> bool {
    match node(alloc, row) {
        Some(node) => nodes.put(row.0, node).is_ok(),
        None => false,
    }
}

/// The nodes of these rows.
pub fn nodes_of(alloc: Global, rows: &[Row]) -> Option<Nodes> {
    let mut nodes = Nodes::new(alloc);
    for row in rows {
        if !put(alloc, &mut nodes, row) {
            return None;
        }
    }
    Some(nodes)
}
