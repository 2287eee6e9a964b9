//! A splay tree over the indices of names: it tells where a name stands in their byte order.
//!
//! What it tells is a hint, and nothing is proved of it but that looking it up is safe and ends.
//! Each look-up brings the node at which it ends to the root, and so any `n` of them take
//! `n log n` comparisons together.

ghost use Rattle.std.specs.Prelude.{◌<◌, ◌^◌, length};

use crate::NoMemory;
use crate::sorted::Position;
use std::alloc::Global;
use std::cmp::Ordering;
use std::mem;
use trio_names::Name;

/// A node's children: the roots of the names below its own and of those above it.
#[derive(Clone, Copy)]
struct Node {
    below: Option<u32>,
    above: Option<u32>,
}

/// How many bytes there are for each name that there is room for.
pub(crate) const NODE_BYTES: usize = size_of::<Node>();

const LEAF: Node = Node {
    below: None,
    above: None,
};

#[derive(Clone, Copy, PartialEq, Eq)]
enum Side {
    Below,
    Above,
}

impl Side {
    fn other(self) -> Side {
        match self {
            Side::Below => Side::Above,
            Side::Above => Side::Below,
        }
    }
}

/// The tree.
#[derive(Drop)]
pub struct Tree {
    // by the index of its name
    nodes: Vec<Node>,
    root: Option<u32>,
}

impl Tree {
    /// The empty tree, with room for `count` names.
    pub fn with(alloc: Global, count: u32) -> Result<Tree, NoMemory> {
        Ok(Tree {
            nodes: vec![in alloc; LEAF; count as usize]?,
            root: None,
        })
    }

    /// Takes all names out.
    pub fn clear(&mut self) {
        self.root = None;
    }

    /// The position of a name among these, or next after itself where it is one of them. Else the
    /// tree takes it in, with the index that comes next.
    ///
    /// On the way down from the root the tree is parted into the names below and those above. The
    /// new node gathers both: those below under its `above`, since that part grows at its last
    /// name, and those above under its `below`.
    pub fn seek(&mut self, names: &[Name], name: &Name) -> Position
        requires { length names.now < 2 ^ 32 }
    {
        let new = names.len() as u32;
        self.set(new, LEAF);
        let (mut last_below, mut first_above) = (new, new);
        let mut at = self.root;
        for _ in names {
            let Some(node) = at else { break };
            let Some(side) = side_of(names, node, name) else {
                break
            };
            let node = self.turned(names, node, name, side);
            let end = match side {
                Side::Above => mem::replace(&mut last_below, node),
                Side::Below => mem::replace(&mut first_above, node),
            };
            self.set_child(end, side, Some(node));
            at = self.child(node, side);
        }
        let rest = at.map_or(LEAF, |node| self.node(node));
        self.set_child(last_below, Side::Above, rest.below);
        self.set_child(first_above, Side::Below, rest.above);
        let parts = self.node(new);
        let top = at.unwrap_or(new);
        self.set(
            top,
            Node {
                below: parts.above,
                above: parts.below,
            },
        );
        self.root = Some(top);
        match at.unwrap_or(last_below) {
            before if before == new => Position::Front,
            before => Position::After(before),
        }
    }

    // the node, or its child on this side where the name lies beyond that one too: the child then
    // stands above the node, so that a way down is half as long the next time
    fn turned(&mut self, names: &[Name], node: u32, name: &Name, side: Side) -> u32 {
        match self.child(node, side) {
            Some(child) if side_of(names, child, name) == Some(side) => {
                self.set_child(node, side, self.child(child, side.other()));
                self.set_child(child, side.other(), Some(node));
                child
            }
            _ => node,
        }
    }

    fn node(&self, node: u32) -> Node {
        self.nodes.get(node as usize).copied().unwrap_or(LEAF)
    }

    fn set(&mut self, node: u32, to: Node) {
        if let Some(node) = self.nodes.get_mut(node as usize) {
            *node = to;
        }
    }

    fn child(&self, node: u32, side: Side) -> Option<u32> {
        match side {
            Side::Below => self.node(node).below,
            Side::Above => self.node(node).above,
        }
    }

    fn set_child(&mut self, node: u32, side: Side, to: Option<u32>) {
        let mut children = self.node(node);
        match side {
            Side::Below => children.below = to,
            Side::Above => children.above = to,
        }
        self.set(node, children);
    }
}

// on which side of a node a name is; `None` where it is the node's own
fn side_of(names: &[Name], node: u32, name: &Name) -> Option<Side> {
    match name.cmp(names.get(node as usize)?) {
        Ordering::Less => Some(Side::Below),
        Ordering::Equal => None,
        Ordering::Greater => Some(Side::Above),
    }
}
