//! Nodes of the tree.

ghost use Rattle.std.specs.Prelude.{◌≡◌, ◌<◌, ◌≤◌, ◌+◌, [], length, slice_set, vec_len, IfOk, IfSome, IsOk, OnOk, OnErr, Some, None};
ghost use Rattle.std.specs.Option.{option_copied};
ghost use Rattle.trio_nodes.specs.Nodes.{node_at, with_node, is_in, is_named, find_named, count_in, names_in, entry_in, entry_name};
ghost use Rattle.trio_lists.specs.Sorting.{sorted_by_name};
ghost use Rattle.std.specs.List.{filter_map};
ghost use Rattle.trio_nodes.specs.Found.{path_found};

use crate::list::Bytes;
use std::alloc::{AllocError as NoMemory, Global};
use std::marker::Model;
use trio_names::{Name, Path};
use trio_rights::{Kind, Mode};

/// A file, a directory or a symbolic link.
#[derive(Drop)]
pub struct Node {
    /// The inode number of the directory that lists it; 0 for the root.
    pub parent: u32,
    /// The name in that directory; `-` for the root, which has none.
    pub name: Name,
    pub kind: Kind,
    pub mode: Mode,
    pub uid: u32,
    pub gid: u32,
    /// Whether the file's data return after a refusal as its metadata does.
    pub guard: bool,
    /// The bytes of a regular file, or a link's text; a directory has none.
    pub bytes: Bytes,
}

/// The nodes of a tree, by inode number.
///
/// Contracts see a list with a node or none at each number; past its end there is none.
#[derive(Drop)]
pub struct Nodes {
    // by inode number
    nodes: Vec<Option<Node>>,
}

impl Model for Nodes {
    ghost use Rattle.std.specs.Prelude.{List, Option, ◌<◌, length};
    ghost use Rattle.trio_nodes.specs.declared.node.Node.{Node};

    ghost Value = { List (Option Node) };

    ghost view = { λ n. n.nodes.items };

    ghost invariant = { λ n. length n.nodes.items < 4294967296 };
}

impl Nodes {
    ghost use Rattle.std.specs.Borrow.{sem};
    ghost use Rattle.std.specs.Option.{option_copied_mut};
    ghost use Rattle.trio_nodes.specs.Lends.{LendsNode};

    /// No nodes. It takes no memory.
    pub fn new(alloc: Global) -> Nodes
        ensures { result ≡ [] }
    {
        Nodes {
            nodes: Vec::new(alloc),
        }
    }

    /// The node of this number. `None` exactly where there is none.
    pub fn get(&self, ino: u32) -> Option<&Node>
        ensures { option_copied result ≡ node_at self.now ino }
    {
        match self.nodes.get(ino as usize) {
            Some(node) => node.as_ref(),
            None => None,
        }
    }

    /// The node of this number, for writing. `None` exactly where there is none.
    pub fn get_mut(&mut self, ino: u32) -> Option<&mut Node>
        ensures* writes_back { sem 𝓛 (LendsNode self.entry ino result) }
        ensures value { option_copied_mut result ≡ node_at self.old ino }
    {
        match self.nodes.get_mut(ino as usize) {
            Some(node) => node.as_mut(),
            None => None,
        }
    }

    /// Takes the node of this number out. `None` exactly where there was none.
    pub fn remove(&mut self, ino: u32) -> Option<Node>
        ensures node { result ≡ node_at self.old ino }
        ensures after { self.new ≡ slice_set self.old ino None }
    {
        match self.nodes.get_mut(ino as usize) {
            Some(node) => node.take(),
            None => None,
        }
    }

    /// Makes this the node of a number. The number 4,294,967,295 is answered `NoMemory`, and a
    /// number that the nodes reach is not.
    ///
    /// After `NoMemory` the nodes are unchanged and the node is dropped.
    pub fn put(&mut self, ino: u32, node: Node) -> Result<(), NoMemory>
        ensures put { OnOk result (self.new ≡ with_node self.old ino (Some node)) }
        ensures kept { OnErr result (self.new ≡ self.old) }
        ensures succeeds { ino < length self.old → IsOk result }
    {
        self.set(ino, Some(node))
    }

    /// Makes this the node of a number, or makes it a number without one, as [`put`](Self::put).
    pub fn set(&mut self, ino: u32, node: Option<Node>) -> Result<(), NoMemory>
        ensures set { OnOk result (self.new ≡ with_node self.old ino node) }
        ensures kept { OnErr result (self.new ≡ self.old) }
        ensures succeeds { ino < length self.old → IsOk result }
    {
        let at = ino as usize;
        if at < self.nodes.len() {
            self.nodes[at] = node;
            Ok(())
        } else if ino == u32::MAX {
            Err(NoMemory)
        } else {
            put_behind(&mut self.nodes, at, node)
        }
    }

    /// The number of the file that a directory lists by a name.
    pub fn entry(&self, dir: u32, name: &Name) -> Option<u32>
        ensures { result ≡ find_named self.now dir name.now }
    {
        match place_named(&self.nodes, dir, name) {
            Some(at) => Some(at as u32),
            None => None,
        }
    }

    /// How many entries a directory has.
    pub fn count(&self, dir: u32) -> u32
        ensures { result ≡ count_in self.now dir }
    {
        self.nodes.iter().filter(|node| is_in(dir, node)).count() as u32
    }

    /// The number of the file at a path, by the names alone. `None` exactly where no node has that
    /// path.
    pub fn find(&self, path: &Path) -> Option<u32>
        ensures { result ≡ path_found self.now path.now }
    {
        self.get(1)?;
        let mut at = 1;
        for name in path.names() {
            at = self.entry(at, name)?;
        }
        Some(at)
    }

    /// The entries of a directory, in the byte order of their names.
    pub fn names(&self, dir: u32) -> Result<Vec<(Name, Kind)>, NoMemory>
        ensures { IfOk result (λ entries. entries.items ≡ names_in self.now dir) }
    {
        let mut entries = listed(*self.nodes.allocator(), &self.nodes, dir)?;
        sort_by_name(&mut entries)?;
        Ok(entries)
    }
}

// a number behind the last: those between have no node
fn put_behind(nodes: &mut Vec<Option<Node>>, at: usize, node: Option<Node>) -> Result<(), NoMemory>
    requires behind { vec_len nodes.old ≤ at }
    requires few { at < 4294967295 }
    ensures put { OnOk result (nodes.new.items ≡ with_node nodes.old.items at node) }
    ensures len { OnOk result (vec_len nodes.new ≡ at + 1) }
    ensures kept { OnErr result (nodes.new.items ≡ nodes.old.items) }
{
    nodes.reserve(at + 1 - nodes.len())?;
    while nodes.len() < at {
        nodes.push_reserved(None);
    }
    nodes.push_reserved(node);
    Ok(())
}

fn place_named(nodes: &[Option<Node>], dir: u32, name: &Name) -> Option<usize>
    ensures place { result ≡ find_named nodes.now dir name.now }
    ensures within { IfSome result (λ at. at < length nodes.now) }
{
    nodes.iter().position(|node| is_named(dir, name, node))
}

fn listed(alloc: Global, nodes: &[Option<Node>], dir: u32) -> Result<Vec<(Name, Kind)>, NoMemory>
    ensures { IfOk result (λ entries. entries.items ≡ filter_map (entry_in dir) nodes.now) }
{
    nodes
        .iter()
        .filter_map(|node| entry_in(dir, node))
        .collect(alloc)
}

fn sort_by_name(entries: &mut Vec<(Name, Kind)>) -> Result<(), NoMemory>
    ensures { OnOk result (entries.new.items ≡ sorted_by_name entry_name entries.old.items) }
{
    entries.sort_by_key(|entry| entry.0)?;
    Ok(())
}

fn is_in(dir: u32, node: &Option<Node>) -> bool
    ensures { result ≡ is_in dir node.now }
{
    match node {
        Some(node) => node.parent == dir,
        None => false,
    }
}

fn is_named(dir: u32, name: &Name, node: &Option<Node>) -> bool
    ensures { result ≡ is_named dir name.now node.now }
{
    match node {
        Some(node) => node.parent == dir && node.name == *name,
        None => false,
    }
}

fn entry_in(dir: u32, node: &Option<Node>) -> Option<(Name, Kind)>
    ensures { result ≡ entry_in dir node.now }
{
    match node {
        Some(node) if node.parent == dir => Some((node.name, node.kind)),
        _ => None,
    }
}
