//! The nodes of an image.

ghost use Rattle.std.specs.Prelude.{◌≡◌, ◌==◌, ◌++◌, ◌∷◌, [], drop, length, unwrap_or, if◌then◌else◌, IfOk, IfSome, OnOk, Some};
ghost use Rattle.std.specs.Option.{option_map};
ghost use Rattle.trio_rights.specs.Row.{row_in};
ghost use Rattle.trio_tables.specs.Row.{as_row};
ghost use Rattle.trio_layout.specs.Body.{body_of, guard_in};
ghost use Rattle.trio_layout.specs.Core.{page_of};
ghost use Rattle.trio_layout.specs.Entries.{slot_bytes};
ghost use Rattle.trio_layout.specs.Slot.{slot_of};
ghost use Rattle.trio_survey.specs.Seen.{core_with};
ghost use Rattle.trio_survey.specs.Stored.{core_in};
ghost use Rattle.trio_state.specs.ImageNodes.{body_content, bytes_at_place, content_of, joined_pages, name_said, node_by_row, nodes_by_rows};

use std::alloc::Global;
use trio_layout::{Body, CoreRange, Slot, SlotRead, Superblock};
use trio_names::Name;
use trio_nodes::{Bytes, Node, Nodes};
use trio_page::{Home, NoMemory, Page, Reads};
use trio_rights::Kind;
use trio_survey::chain::read_chain;
use trio_survey::home::core_page;
use trio_tables::{Row, Shadow};

/// The nodes of the files that these rows tell, at each inode number. The pages stay as they were.
pub(crate) fn nodes_in(
    alloc: Global,
    home: &mut Home,
    superblock: &Superblock,
    rows: &Shadow,
) -> Result<Nodes, NoMemory>
    ensures pages { home.new.pages ≡ home.old.pages }
    ensures nodes { IfOk result (λ nodes. nodes ≡ nodes_by_rows (core_in superblock.now home.old.pages) rows.now) }
{
    let mut nodes = Nodes::new(alloc);
    for ino in 0..rows.inodes() + 1 {
        let node = node_at(alloc, home, superblock, rows, ino)?;
        nodes.set(ino, node)?;
    }
    Ok(nodes)
}

/// The node of an inode number, where it is live.
fn node_at(
    alloc: Global,
    home: &mut Home,
    superblock: &Superblock,
    rows: &Shadow,
    ino: u32,
) -> Result<Option<Node>, NoMemory>
    ensures pages { home.new.pages ≡ home.old.pages }
    ensures node { IfOk result (λ node. node ≡ option_map (node_by_row (core_in superblock.now home.old.pages) ino) (row_in rows.now ino)) }
{
    match rows.row(ino) {
        Some(row) => Ok(Some(node_of(alloc, home, superblock, ino, &row)?)),
        None => Ok(None),
    }
}

fn node_of(
    alloc: Global,
    home: &mut Home,
    superblock: &Superblock,
    ino: u32,
    row: &Row,
) -> Result<Node, NoMemory>
    ensures pages { home.new.pages ≡ home.old.pages }
    ensures node { IfOk result (λ node. node ≡ node_by_row (core_in superblock.now home.old.pages) ino (as_row row.now)) }
{
    let slot = slot_at(home, core_range(superblock), row.page, row.slot);
    let body = body_at(&superblock.root, ino, &slot);
    Ok(Node {
        parent: row.parent,
        name: name_in(&slot, superblock.inodes),
        kind: row.kind,
        mode: row.mode,
        uid: row.uid,
        gid: row.gid,
        guard: guard_in(&body),
        bytes: content(alloc, home, superblock, row.kind, &body)?,
    })
}

pub(crate) fn core_range(superblock: &Superblock) -> CoreRange
    ensures { result ≡ record { first = superblock.now.first_core; end = superblock.now.pages } }
{
    CoreRange {
        first: superblock.first_core,
        end: superblock.pages,
    }
}

/// The bytes of the slot at a place. `None` where no such page is, as for the root.
pub(crate) fn slot_at(home: &mut Home, range: CoreRange, page: u32, slot: u16) -> Option<[u8; 256]>
    ensures pages { home.new.pages ≡ home.old.pages }
    ensures slot { unwrap_or result [] ≡ bytes_at_place (core_with home.old.pages range 0) page slot }
    ensures whole { IfSome result (λ bytes. length bytes ≡ 256) }
{
    slot_on(core_page(home, range, page, &mut Reads::new())?, slot)
}

fn slot_on(page: &Page, slot: u16) -> Option<[u8; 256]>
    ensures slot { unwrap_or result [] ≡ slot_bytes slot page.now }
    ensures whole { IfSome result (λ bytes. length bytes ≡ 256) }
{
    let all = page.bytes();
    if slot >= 16 {
        return None;
    }
    let at = 256 * usize::from(slot);
    let mut bytes = [0; 256];
    bytes.copy_from_slice(&all[at..at + 256]);
    Some(bytes)
}

/// The name that a slot has; a hyphen where it has none.
pub(crate) fn name_in(slot: &Option<[u8; 256]>, inodes: u32) -> Name
    ensures { result ≡ name_said (slot_of inodes (unwrap_or slot.now [])) }
{
    match slot {
        Some(bytes) => match Slot::read(bytes, inodes) {
            SlotRead::Entry(entry) => entry.name,
            _ => hyphen(),
        },
        None => hyphen(),
    }
}

fn hyphen() -> Name
    ensures { result ≡ 45 ∷ [] }
{
    Name::read(b"-").unwrap()
}

/// The body of a file: the root's own, or the one in its slot.
pub(crate) fn body_at(root: &[u8; 64], ino: u32, slot: &Option<[u8; 256]>) -> Option<[u8; 64]>
    ensures { unwrap_or result [] ≡ (if ino == 1 then root.now else drop 192 (unwrap_or slot.now [])) }
{
    if ino == 1 {
        return Some(*root);
    }
    match slot {
        Some(bytes) => Some(body_in(bytes)),
        None => None,
    }
}

fn body_in(bytes: &[u8; 256]) -> [u8; 64]
    ensures { result ≡ drop 192 bytes.now }
{
    let mut body = [0; 64];
    body.copy_from_slice(&bytes[192..]);
    body
}

/// Whether a body says that its file is guarded.
pub(crate) fn guard_in(body: &Option<[u8; 64]>) -> bool
    ensures { result ≡ guard_in (unwrap_or body.now []) }
{
    match body {
        Some(bytes) => bytes[24] == 1,
        None => false,
    }
}

/// The bytes of a file with this body. The blocks of a directory aren't looked at.
fn content(
    alloc: Global,
    home: &mut Home,
    superblock: &Superblock,
    kind: Kind,
    body: &Option<[u8; 64]>,
) -> Result<Bytes, NoMemory>
    ensures pages { home.new.pages ≡ home.old.pages }
    ensures content { IfOk result (λ bytes. bytes ≡ content_of (core_in superblock.now home.old.pages) kind (unwrap_or body.now [])) }
{
    if kind.is_directory() {
        return Ok(Bytes::new(alloc));
    }
    match body_read(superblock, kind, body) {
        Some(body) => body_content(alloc, home, superblock, &body),
        None => Ok(Bytes::new(alloc)),
    }
}

/// The body of a file of this kind, where these bytes are one.
fn body_read(superblock: &Superblock, kind: Kind, bytes: &Option<[u8; 64]>) -> Option<Body>
    ensures { result ≡ body_of kind (record { first = superblock.now.first_core; end = superblock.now.pages }) (unwrap_or bytes.now []) }
{
    match bytes {
        Some(bytes) => Body::read(bytes, kind, core_range(superblock)),
        None => None,
    }
}

/// The bytes of a body's file: those of its blocks, up to its size.
fn body_content(
    alloc: Global,
    home: &mut Home,
    superblock: &Superblock,
    body: &Body,
) -> Result<Bytes, NoMemory>
    ensures pages { home.new.pages ≡ home.old.pages }
    ensures content { IfOk result (λ bytes. bytes ≡ body_content (core_in superblock.now home.old.pages) (Some body.now)) }
{
    let range = core_range(superblock);
    let Ok(chain) = read_chain(alloc, home, range, body, &mut Reads::new())? else {
        return Ok(Bytes::new(alloc));
    };
    let mut bytes = joined(alloc, home, range, &chain.blocks)?;
    bytes.truncate(body.size as usize);
    Ok(Bytes::from_vec(bytes))
}

fn joined(
    alloc: Global,
    home: &mut Home,
    range: CoreRange,
    pages: &[u32],
) -> Result<Vec<u8>, NoMemory>
    ensures pages { home.new.pages ≡ home.old.pages }
    ensures bytes { IfOk result (λ bytes. bytes.items ≡ joined_pages (core_with home.old.pages range 0) pages.now) }
{
    let mut bytes = Vec::new(alloc);
    for no in pages {
        add_page(home, range, *no, &mut bytes)?;
    }
    Ok(bytes)
}

fn add_page(home: &mut Home, range: CoreRange, no: u32, bytes: &mut Vec<u8>) -> Result<(), NoMemory>
    ensures pages { home.new.pages ≡ home.old.pages }
    ensures bytes { OnOk result (bytes.new.items ≡ bytes.old.items ++ unwrap_or (page_of (core_with home.old.pages range 0) no) []) }
{
    match core_page(home, range, no, &mut Reads::new()) {
        Some(page) => bytes.extend_from_slice(page.bytes()),
        None => Ok(()),
    }
}
