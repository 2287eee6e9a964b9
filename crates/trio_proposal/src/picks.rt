//! The bodies that live files keep.

ghost use Rattle.std.specs.Prelude.{◌≡◌, ◌+◌, ◌++◌, ◌∷◌, ◌*◌, ◌<◌, [], List, IfOk, IsSome, None, slice_index_or, unwrap_or, vec_len};
ghost use Rattle.std.specs.Option.{option_map};
ghost use Rattle.trio_rights.specs.Row.{row_in};
ghost use Rattle.trio_lease.specs.Shown.{LentFile};
ghost use Rattle.trio_proposal.specs.inner.Steps.{AreKept, AreLentBodies, ArePicked, ArePlaced, body_on, kept_at};

use std::alloc::Global;
use trio_lease::WriteLease;
use trio_page::{Home, NoMemory, PageNo, Reads};
use trio_survey::Picks;
use trio_tables::Shadow;

/// Bodies by inode number, from 0 up to the last.
pub(crate) type Bodies = Vec<Option<[u8; 64]>>;

/// The body of each file that is written, by its first lease.
pub(crate) fn written_bodies(
    alloc: Global,
    leases: &[WriteLease],
    inodes: u32,
) -> Result<Bodies, NoMemory>
    ensures bodies { IfOk result (λ bodies. AreLentBodies leases.now bodies.items) }
    ensures len { IfOk result (λ bodies. vec_len bodies ≡ inodes + 1) }
{
    let mut bodies = vec![in alloc; None; inodes as usize + 1]?;
    for lease in leases {
        add_lease(&mut bodies, lease);
    }
    Ok(bodies)
}

/// Adds the body of one more lease, where its number has none yet.
fn add_lease(bodies: &mut Bodies, lease: &WriteLease)
    ensures bodies { (before : List LentFile) → AreLentBodies before bodies.old.items → AreLentBodies (before ++ lease.now ∷ []) bodies.new.items }
    ensures len { vec_len bodies.new ≡ vec_len bodies.old }
{
    let at = lease.ino() as usize;
    if at >= bodies.len() || bodies[at].is_some() {
        return;
    }
    bodies[at] = Some(*lease.body());
}

/// The body of the root: its lease's, or the settled one.
pub(crate) fn root_body(written: &[Option<[u8; 64]>], root: &[u8; 64]) -> [u8; 64]
    ensures { result ≡ unwrap_or (slice_index_or written.now 1 None) root.now }
{
    match written.get(1) {
        Some(Some(body)) => *body,
        _ => *root,
    }
}

/// The body that each live number keeps: its lease's, or the settled one.
pub(crate) fn kept_bodies(
    alloc: Global,
    home: &mut Home,
    root: &[u8; 64],
    rows: &Shadow,
    written: &[Option<[u8; 64]>],
    reads: &mut Reads,
) -> Result<Bodies, NoMemory>
    requires { ArePlaced home.old.pages rows.now }
    ensures kept { IfOk result (λ kept. AreKept home.old.pages root.now rows.now written.now kept.items) }
    ensures home { home.new.pages ≡ home.old.pages }
{
    let mut kept = Vec::new(alloc);
    for ino in 0..rows.inodes() + 1 {
        kept.push(kept_body(home, root, rows, written, ino, reads))?;
    }
    Ok(kept)
}

fn kept_body(
    home: &mut Home,
    root: &[u8; 64],
    rows: &Shadow,
    written: &[Option<[u8; 64]>],
    ino: u32,
    reads: &mut Reads,
) -> Option<[u8; 64]>
    requires { ArePlaced home.old.pages rows.now }
    ensures body { result ≡ option_map (kept_at home.old.pages root.now written.now ino) (row_in rows.now ino) }
    ensures home { home.new.pages ≡ home.old.pages }
{
    let row = rows.row(ino)?;
    if let Some(Some(body)) = written.get(ino as usize) {
        return Some(*body);
    }
    if ino == 1 {
        return Some(*root);
    }
    Some(body_at(home, PageNo(row.page), row.slot, reads))
}

/// The body in a slot of a page that is there.
fn body_at(home: &mut Home, page: PageNo, slot: u16, reads: &mut Reads) -> [u8; 64]
    requires slot { slot < 16 }
    requires there { IsSome (slice_index_or home.old.pages page.0 None) }
    ensures body { result ≡ body_on home.old.pages page.0 slot }
    ensures home { home.new.pages ≡ home.old.pages }
{
    let Some(page) = home.page(page, reads) else {
        unreachable!()
    };
    let at = body_offset(slot);
    *page.bytes()[at..at + 64].as_array().unwrap()
}

/// Where the body of a slot begins, in bytes from the page's front.
pub(crate) fn body_offset(slot: u16) -> usize
    requires { slot < 16 }
    ensures { result ≡ 256 * slot + 192 }
{
    256 * usize::from(slot) + 192
}

/// The body that each live number keeps, picked at the place that its row names.
pub(crate) fn picks_of(
    alloc: Global,
    rows: &Shadow,
    kept: &[Option<[u8; 64]>],
) -> Result<Picks, NoMemory>
    ensures { IfOk result (ArePicked rows.now kept.now) }
{
    let mut picks = Picks::new(alloc, rows.inodes())?;
    for ino in 0..rows.inodes() + 1 {
        if let (Some(row), Some(Some(body))) = (rows.row(ino), kept.get(ino as usize)) {
            picks.set(ino, row.parent, row.page, row.slot, body);
        }
    }
    Ok(picks)
}
