//! Controllers that tests start, and what these ask of them. Each call of a controller stands in a
//! function that owns no more than what the call gives, and promises no more than the next call needs.

ghost use Rattle.std.specs.Prelude.{◌≡◌, IfSome, length};
ghost use Rattle.trio_desk.specs.Out.{OutAlike, nothing_out};
ghost use Rattle.trio_ctl.specs.Ctl.{IsIdle, IsLibrary, NoneBegun};
ghost use Rattle.trio_ctl.specs.Desk.{out_of};

use crate::images::{Start, image_bytes, start_image};
use std::alloc::Global;
use trio_ctl::Ctl;
use trio_image::{Counts, Image};
use trio_lease::{Allotted, Lease};
use trio_nodes::{AllotFault, GrantFault, GrantKind};
use trio_rights::{Creds, LibNo};

/// A controller over such an image, for a library of this uid and one of uid 0, both of gid 0.
pub fn started(alloc: Global, start: Start, uid: u32) -> Option<Ctl>
    ensures two { IfSome result (λ ctl. length ctl.state.creds ≡ 2) }
    ensures idle { IfSome result NoneBegun }
    ensures nothing { IfSome result (λ ctl. OutAlike (out_of ctl.state (record { 0 = 1 })) nothing_out) }
{
    let image = start_image(alloc, start)?;
    started_on(alloc, image, uid)
}

/// The same over this image.
pub fn started_on(alloc: Global, image: Image, uid: u32) -> Option<Ctl>
    ensures two { IfSome result (λ ctl. length ctl.state.creds ≡ 2) }
    ensures idle { IfSome result NoneBegun }
    ensures nothing { IfSome result (λ ctl. OutAlike (out_of ctl.state (record { 0 = 1 })) nothing_out) }
{
    let libs = vec![in alloc; Creds { uid, gid: 0 }, Creds { uid: 0, gid: 0 }].ok()?;
    start_with(alloc, image, libs)
}

// A controller over this image, for these two libraries.
fn start_with(alloc: Global, image: Image, libs: Vec<Creds>) -> Option<Ctl>
    requires { length libs.items ≡ 2 }
    ensures two { IfSome result (λ ctl. length ctl.state.creds ≡ 2) }
    ensures idle { IfSome result NoneBegun }
    ensures nothing { IfSome result (λ ctl. OutAlike (out_of ctl.state (record { 0 = 1 })) nothing_out) }
{
    Ctl::start(alloc, image, libs).ok()
}

/// What a test does with a controller that has just started, for two libraries.
pub trait Trial {
    /// Whether all goes as it should.
    fn passes(&self, alloc: Global, ctl: &mut Ctl) -> bool
        requires two { length ctl.old.state.creds ≡ 2 }
        requires idle { NoneBegun ctl.old }
        requires nothing { OutAlike (out_of ctl.old.state (record { 0 = 1 })) nothing_out };
}

/// Whether a trial passes on a controller that is started as [`started`] says.
pub fn passes<T: Trial>(alloc: Global, start: Start, uid: u32, trial: &T) -> bool {
    match started(alloc, start, uid) {
        Some(mut ctl) => trial.passes(alloc, &mut ctl),
        None => false,
    }
}

// What one of the two libraries is lent or told that asks for a grant; `None` where it isn't idle.
fn granted(
    ctl: &mut Ctl,
    is_first: bool,
    ino: u32,
    kind: GrantKind,
) -> Option<Result<Lease, GrantFault>>
    requires { length ctl.old.state.creds ≡ 2 }
    ensures { length ctl.new.state.creds ≡ 2 }
{
    let lib = LibNo(if is_first { 1 } else { 2 });
    if ctl.idle(lib) {
        Some(ctl.grant(lib, ino, kind))
    } else {
        None
    }
}

/// What one of the two libraries is lent that asks for a grant; `None` where it isn't idle, or is refused.
pub fn lent(ctl: &mut Ctl, is_first: bool, ino: u32, kind: GrantKind) -> Option<Lease>
    requires { length ctl.old.state.creds ≡ 2 }
    ensures { length ctl.new.state.creds ≡ 2 }
{
    granted(ctl, is_first, ino, kind)?.ok()
}

/// So many pages and inode numbers for one of the two libraries that is idle.
pub fn allotted(ctl: &mut Ctl, is_first: bool, pages: u32, inodes: u32) -> Option<Allotted>
    requires { length ctl.old.state.creds ≡ 2 }
    ensures { length ctl.new.state.creds ≡ 2 }
{
    let lib = LibNo(if is_first { 1 } else { 2 });
    if ctl.idle(lib) {
        given_to(ctl, lib, pages, inodes).ok()
    } else {
        None
    }
}

fn given_to(ctl: &mut Ctl, lib: LibNo, pages: u32, inodes: u32) -> Result<Allotted, AllotFault>
    requires two { length ctl.old.state.creds ≡ 2 }
    requires library { IsLibrary lib ctl.old.state }
    requires idle { IsIdle ctl.old lib.0 }
    ensures { length ctl.new.state.creds ≡ 2 }
{
    ctl.allot(lib, pages, inodes)
}

/// What one of the two libraries is told that asks for a grant: `Ok` with the children that a hold
/// tells, else why not. What is lent is let go.
pub fn asked(
    ctl: &mut Ctl,
    is_first: bool,
    ino: u32,
    kind: GrantKind,
) -> Option<Result<u32, GrantFault>>
    requires { length ctl.old.state.creds ≡ 2 }
    ensures { length ctl.new.state.creds ≡ 2 }
{
    let told = granted(ctl, is_first, ino, kind)?;
    Some(without_lease(told))
}

fn without_lease(told: Result<Lease, GrantFault>) -> Result<u32, GrantFault> {
    match told {
        Ok(lease) => Ok(let_go(lease)),
        Err(fault) => Err(fault),
    }
}

fn let_go(lease: Lease) -> u32 {
    let children = match &lease {
        Lease::Hold(hold) => hold.children(),
        Lease::Read(_) | Lease::Write(_) => 0,
    };
    lease.discard();
    children
}

/// Whether the settled image has the bytes of such an image, and these counts.
pub fn stores(alloc: Global, ctl: &mut Ctl, start: Start, counts: Counts) -> bool {
    match image_bytes(alloc, start) {
        Ok(bytes) => tells_image(alloc, ctl, &bytes, counts),
        Err(_) => false,
    }
}

fn tells_image(alloc: Global, ctl: &mut Ctl, bytes: &[u8], counts: Counts) -> bool {
    match ctl.image() {
        Ok(image) => is_image(alloc, image, bytes, counts),
        Err(_) => false,
    }
}

fn is_image(alloc: Global, image: Image, bytes: &[u8], counts: Counts) -> bool {
    let is_counted = are_same(image.counts(), counts);
    has_bytes(alloc, image, bytes) && is_counted
}

fn are_same(counts: Counts, wanted: Counts) -> bool {
    (counts.inodes, counts.pages, counts.free) == (wanted.inodes, wanted.pages, wanted.free)
}

fn has_bytes(alloc: Global, image: Image, bytes: &[u8]) -> bool {
    match image.into_bytes(alloc) {
        Ok(stored) => stored.as_slice() == bytes,
        Err(_) => false,
    }
}
