//! Whether what a bundle has was given to a library, thing by thing.

ghost use Rattle.std.specs.Prelude.{◌≡◌, ◌↔◌, ℕ, ◌==◌, IsTrue, Some, [], map};
ghost use Rattle.std.specs.List.{list_all, list_any};
ghost use Rattle.std.specs.Option.{option_copied, option_map};
ghost use Rattle.trio_layout.specs.Allowed.{has_kind};
ghost use Rattle.trio_lists.specs.Lists.{are_new};
ghost use Rattle.trio_rights.specs.Row.{row_in};
ghost use Rattle.trio_open.specs.inner.Given.{are_numbered, has_pages_of, is_body_of, is_held_by, is_number_by, is_numbered, is_out_to, is_page_by, stand_once, writes_since};

use crate::open::OpenFile;
use trio_allot::Allotments;
use trio_checkpoint::Checkpoint;
use trio_lease::{Bundle, FreshIno, FreshPage, HoldLease, WriteLease};
use trio_nodes::{GrantKind, Holder};
use trio_page::{Page, PageNo};
use trio_rights::{Kind, LibNo};
use trio_tables::Shadow;

/// Whether each of these holds was given to the library, and is open.
pub fn are_held(files: &[OpenFile], lib: LibNo, holds: &[HoldLease]) -> bool
    ensures { result ≡ list_all (λ h. is_held_by files.now lib h) holds.now }
{
    holds.iter().all(|hold| is_held(files, lib, hold))
}

/// Whether each of these pages is out to the library.
pub fn are_pages_out(allotments: &Allotments, lib: LibNo, pages: &[FreshPage]) -> bool
    ensures { result ≡ list_all (λ p. is_page_by allotments.now.pages lib p) pages.now }
{
    pages.iter().all(|page| is_page_out(allotments, lib, page))
}

/// Whether each of these inode numbers is out to the library.
pub fn are_inodes_out(allotments: &Allotments, lib: LibNo, inodes: &[FreshIno]) -> bool
    ensures { result ≡ list_all (λ n. is_number_by allotments.now.numbers lib n) inodes.now }
{
    inodes
        .iter()
        .all(|inode| is_inode_out(allotments, lib, inode))
}

/// Whether this is a write grant of the library that this entry opened.
pub fn writes_since(lib: LibNo, entry: u64, holder: Option<Holder>) -> bool
    ensures { result ≡ writes_since lib entry holder }
{
    match holder {
        Some(holder) => {
            holder.lib == lib && holder.kind == GrantKind::Write && holder.entry == entry
        }
        None => false,
    }
}

/// Whether the file of this number is live and of this kind.
pub fn has_kind(rows: &Shadow, kind: Kind, ino: u32) -> bool
    ensures { result ≡ has_kind kind (row_in rows.now ino) }
{
    match rows.row(ino) {
        Some(row) => kind == row.kind,
        None => false,
    }
}

/// Whether a write lease has the pages that a checkpoint of its file has the numbers of.
pub fn has_chain(lease: &WriteLease, checkpoint: &Checkpoint) -> bool
    ensures { result ≡ has_pages_of lease.now.stands (Some checkpoint.now) }
{
    has_index(lease, checkpoint.index_numbers()) && has_blocks(lease, checkpoint.block_numbers())
}

/// Whether the index pages of a lease have these numbers.
fn has_index(lease: &WriteLease, numbers: &[u32]) -> bool
    ensures { result ≡ are_numbered lease.now.stands.index numbers.now }
{
    if lease.index_len() != numbers.len() {
        return false;
    }
    for i in 0..numbers.len() {
        if !is_numbered(lease.index_no(i), lease.index(i), numbers[i]) {
            return false;
        }
    }
    true
}

/// Whether the blocks of a lease have these numbers.
fn has_blocks(lease: &WriteLease, numbers: &[u32]) -> bool
    ensures { result ≡ are_numbered lease.now.stands.blocks numbers.now }
{
    if lease.blocks_len() != numbers.len() {
        return false;
    }
    for i in 0..numbers.len() {
        if !is_numbered(lease.block_no(i), lease.block(i), numbers[i]) {
            return false;
        }
    }
    true
}

/// Whether there is a page, and of this number. Each page has 4096 bytes.
fn is_numbered(no: Option<PageNo>, page: Option<&Page>, number: u32) -> bool
    ensures { result ≡ is_numbered (option_map (λ n. n.0) no) (option_copied page.entry) number }
{
    match (no, page) {
        (Some(no), Some(page)) => {
            let is_whole = page.bytes().len() == 4096;
            prove!(is_whole);
            no.0 == number
        }
        _ => false,
    }
}

/// Whether a hold is that of an open hold of the library.
fn is_held(files: &[OpenFile], lib: LibNo, hold: &HoldLease) -> bool
    ensures { result ≡ is_held_by files.now lib hold.now }
{
    files.iter().any(|file| file.gave(lib, hold))
}

/// Whether a page is out to the library.
fn is_page_out(allotments: &Allotments, lib: LibNo, page: &FreshPage) -> bool
    ensures { result ≡ is_page_by allotments.now.pages lib page.now }
{
    let is_whole = page.page().bytes().len() == 4096;
    prove!(is_whole);
    page.lib() == lib && is_out_to(lib, allotments.page_lib(page.no()))
}

/// Whether an inode number is out to the library.
fn is_inode_out(allotments: &Allotments, lib: LibNo, inode: &FreshIno) -> bool
    ensures { result ≡ is_number_by allotments.now.numbers lib inode.now }
{
    inode.lib() == lib && is_out_to(lib, allotments.number_lib(inode.no()))
}

/// Whether it is this library that has something out.
fn is_out_to(lib: LibNo, other: Option<LibNo>) -> bool
    ensures { result ≡ is_out_to lib other }
{
    match other {
        Some(other) => other == lib,
        None => false,
    }
}

/// A thing of a bundle that goes by a number.
pub trait Numbered {
    ghost number_of: { Self → ℕ };

    /// Its number: a file's inode number, an allotted page's number, or an allotted inode number.
    fn number(&self) -> u32
        ensures { result ≡ number_of self.now };
}

impl Numbered for WriteLease {
    ghost number_of = { λ l. l.stands.ino };

    fn number(&self) -> u32 {
        self.ino()
    }
}

impl Numbered for HoldLease {
    ghost number_of = { λ h. h.ino };

    fn number(&self) -> u32 {
        self.ino()
    }
}

impl Numbered for FreshPage {
    ghost number_of = { λ p. p.no.0 };

    fn number(&self) -> u32 {
        self.no().0
    }
}

impl Numbered for FreshIno {
    ghost number_of = { λ n. n.no };

    fn number(&self) -> u32 {
        self.no()
    }
}

/// Whether each thing stands in a bundle once.
pub fn stand_once(bundle: &Bundle) -> bool
    ensures { result ≡ stand_once bundle.now }
{
    are_once(bundle.writes())
        && are_once(bundle.holds())
        && are_once(bundle.pages())
        && are_once(bundle.inodes())
}

/// Whether no number stands twice among these.
fn are_once<T: Numbered>(things: &[T]) -> bool
    ensures { result ≡ are_new [] (map T.number_of things.now) }
{
    for i in 0..things.len() {
        if has_number(&things[..i], things[i].number()) {
            return false;
        }
    }
    true
}

/// Whether a thing of this number is among these.
fn has_number<T: Numbered>(things: &[T], number: u32) -> bool
    ensures { result ≡ list_any (λ x. T.number_of x == number) things.now }
{
    things.iter().any(|thing| thing.number() == number)
}

/// Whether these are the numbers of the things of a bundle, in their order.
pub fn has_numbers<T: Numbered>(numbers: &[u32], things: &[T]) -> bool
    ensures { IsTrue result ↔ (numbers.now ≡ map T.number_of things.now) }
{
    if numbers.len() != things.len() {
        return false;
    }
    for i in 0..numbers.len() {
        if numbers[i] != things[i].number() {
            return false;
        }
    }
    true
}

/// Whether each of these holds is on a file that the library holds, with the body that was lent.
pub fn have_bodies(files: &[OpenFile], lib: LibNo, holds: &[HoldLease]) -> bool
    ensures { result ≡ list_all (λ h. is_body_of files.now lib h) holds.now }
{
    holds.iter().all(|hold| has_body(files, lib, hold))
}

fn has_body(files: &[OpenFile], lib: LibNo, hold: &HoldLease) -> bool
    ensures { result ≡ is_body_of files.now lib hold.now }
{
    files.iter().any(|file| file.lent_body_of(lib, hold))
}
