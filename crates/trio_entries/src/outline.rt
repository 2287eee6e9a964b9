//! Which leases, holds, pages and inode numbers a bundle has.

ghost use Rattle.std.specs.Prelude.{◌≡◌, ◌≤◌, ◌+◌, ◌++◌, ◌↔◌, [], ℕ, List, IfNone, IfOk, IfSome, IsSome, IsTrue, drop, length, map, take, vec_capacity, vec_len};
ghost use Rattle.trio_rights.specs.Bundle.{bundle_pages};
ghost use Rattle.trio_lease.specs.Views.{bundle_in};
ghost use Rattle.trio_case.specs.Memory.{size_of};
ghost use Rattle.trio_state.specs.Moves.{outline_of};
ghost use Rattle.trio_entries.specs.Drafts.{HasOutlinePlaces};
ghost use Rattle.trio_entries.specs.inner.Outlined.{head_in};
ghost use Rattle.trio_entries.specs.inner.Sources.{file_numbers, numbers_in};

use crate::handed::{Source, add_holds, add_numbers};
use std::alloc::Global;
use std::marker::Model;
use trio_case::{BundleSize, BytesEach};
use trio_lease::{Bundle, FreshIno, HoldLease, WriteLease};
use trio_page::NoMemory;
use trio_rights::Kind;

/// A written file, by how many index pages and blocks it has.
#[derive(Clone, Copy)]
pub(crate) struct FileHead {
    pub ino: u32,
    pub kind: Kind,
    pub index: usize,
    pub blocks: usize,
}

/// All of a bundle but bodies and bytes: its write leases, holds, pages and inode numbers.
///
/// Contracts see it as `Outline` of the definitions.
#[derive(Drop)]
pub(crate) struct Outline {
    files: Vec<FileHead>,
    holds: Vec<u32>,
    // the numbers of all pages: of each file its index pages and its blocks, and then the allotted ones
    pages: Vec<u32>,
    numbers: Vec<u32>,
}

impl Model for Outline {
    ghost use Rattle.trio_state.specs.Moves.{Outline};
    ghost use Rattle.trio_entries.specs.inner.Outlined.{outline_from, HasPages};

    ghost Value = { Outline };

    ghost view = { λ o. outline_from o.files.items o.holds.items o.pages.items o.numbers.items };

    ghost invariant = { λ o. HasPages o.files.items o.pages.items };
}

/// How many bytes the memory of an outline takes.
pub(crate) const OUTLINE_BYTES: BytesEach = BytesEach {
    page: size_of::<u32>(),
    value: size_of::<FileHead>() + 2 * size_of::<u32>(),
};

/// The memory of an outline.
#[derive(Drop)]
pub(crate) struct OutlineMemory {
    files: Vec<FileHead>,
    holds: Vec<u32>,
    pages: Vec<u32>,
    numbers: Vec<u32>,
}

impl OutlineMemory {
    /// Memory for the outline of a bundle of this size.
    pub fn with(alloc: Global, size: BundleSize) -> Result<OutlineMemory, NoMemory>
        ensures { IfOk result (HasOutlinePlaces size) }
    {
        Ok(OutlineMemory {
            files: Vec::with_capacity(alloc, size.values)?,
            holds: Vec::with_capacity(alloc, size.holds)?,
            pages: Vec::with_capacity(alloc, size.pages)?,
            numbers: Vec::with_capacity(alloc, size.inodes)?,
        })
    }
}

impl Outline {
    /// The outline of a bundle as it stands. It takes no memory.
    pub fn of(memory: OutlineMemory, bundle: &Bundle) -> Outline
        requires { HasOutlinePlaces (size_of bundle.now) memory }
        ensures { result ≡ outline_of (bundle_in bundle.now) }
    {
        let OutlineMemory {
            mut files,
            mut holds,
            mut pages,
            mut numbers,
        } = memory;
        add_heads(&mut files, bundle.writes());
        add_pages(&mut pages, bundle);
        add_holds(&mut holds, bundle.holds());
        add_numbers(&mut numbers, bundle.inodes());
        Outline {
            files,
            holds,
            pages,
            numbers,
        }
    }

    /// Whether it is the outline of this bundle. It takes no memory, and goes over the bundle once.
    pub fn is_of(&self, bundle: &Bundle) -> bool
        ensures { IsTrue result ↔ (self.now ≡ outline_of (bundle_in bundle.now)) }
    {
        are_leases(&self.files, &self.pages, bundle)
            && are_taken(&self.holds, &self.numbers, bundle)
    }
}

/// Adds the head of each file to an empty list that has places for them.
fn add_heads(heads: &mut Vec<FileHead>, leases: &[WriteLease])
    requires empty { heads.old.items ≡ [] }
    requires places { length leases.now ≤ vec_capacity heads.old }
    ensures { heads.new.items ≡ map (λ f. head_in f.stands) leases.now }
{
    for lease in leases {
        heads.push_reserved(head(lease));
    }
}

fn head(lease: &WriteLease) -> FileHead
    ensures { result ≡ head_in lease.now.stands }
{
    FileHead {
        ino: lease.ino(),
        kind: lease.kind(),
        index: lease.index_len(),
        blocks: lease.blocks_len(),
    }
}

/// Adds the numbers of all pages of a bundle to an empty list that has places for them.
fn add_pages(pages: &mut Vec<u32>, bundle: &Bundle)
    requires empty { pages.old.items ≡ [] }
    requires places { length (bundle_pages (bundle_in bundle.now)) ≤ vec_capacity pages.old }
    ensures { pages.new.items ≡ bundle_pages (bundle_in bundle.now) }
{
    for lease in bundle.writes() {
        add_all(pages, &Source::Index(lease));
        add_all(pages, &Source::Blocks(lease));
    }
    add_all(pages, &Source::Fresh(bundle.pages()));
}

/// Adds the numbers of all pages of a source to a list that has places for them.
fn add_all(pages: &mut Vec<u32>, source: &Source<'_>)
    requires { vec_len pages.old + length (numbers_in source.now) ≤ vec_capacity pages.old }
    ensures numbers { pages.new.items ≡ pages.old.items ++ numbers_in source.now }
    ensures capacity { vec_capacity pages.new ≡ vec_capacity pages.old }
{
    for i in 0..source.len() {
        if let Some(no) = source.number(i) {
            pages.push_reserved(no);
        }
    }
}

/// Whether these are the heads of the written files of a bundle, and the numbers of all its pages.
fn are_leases(heads: &[FileHead], pages: &[u32], bundle: &Bundle) -> bool
    ensures { IsTrue result ↔ ((heads.now ≡ map (λ f. head_in f.stands) bundle.now.writes) × (pages.now ≡ bundle_pages (bundle_in bundle.now))) }
{
    are_heads(heads, bundle.writes()) && are_pages(pages, bundle)
}

/// Whether these are the numbers of the holds of a bundle, and those that were handed in.
fn are_taken(holds: &[u32], numbers: &[u32], bundle: &Bundle) -> bool
    ensures { IsTrue result ↔ ((holds.now ≡ map (λ h. h.ino) bundle.now.holds) × (numbers.now ≡ map (λ n. n.no) bundle.now.inodes)) }
{
    are_holds(holds, bundle.holds()) && are_numbers(numbers, bundle.inodes())
}

fn are_heads(heads: &[FileHead], leases: &[WriteLease]) -> bool
    ensures { IsTrue result ↔ (heads.now ≡ map (λ f. head_in f.stands) leases.now) }
{
    if heads.len() != leases.len() {
        return false;
    }
    for i in 0..heads.len() {
        if !is_head(&heads[i], &leases[i]) {
            return false;
        }
    }
    true
}

fn is_head(head: &FileHead, lease: &WriteLease) -> bool
    ensures { IsTrue result ↔ (head.now ≡ head_in lease.now.stands) }
{
    head.ino == lease.ino()
        && head.kind == lease.kind()
        && head.index == lease.index_len()
        && head.blocks == lease.blocks_len()
}

/// Whether these are the numbers of the pages of the write leases, one lease after another, and then
/// of the allotted ones.
fn are_pages(pages: &[u32], bundle: &Bundle) -> bool
    ensures { IsTrue result ↔ (pages.now ≡ bundle_pages (bundle_in bundle.now)) }
{
    let mut rest = pages;
    for lease in bundle.writes() {
        match behind_file(rest, lease) {
            Some(behind) => rest = behind,
            None => return false,
        }
    }
    is_source(rest, &Source::Fresh(bundle.pages()))
}

/// What stands behind the numbers of a file's pages. `None` exactly where these don't begin with them.
fn behind_file<'a>(pages: &'a [u32], lease: &WriteLease) -> Option<&'a [u32]>
    ensures behind { IfSome result (λ rest. pages.now ≡ file_numbers lease.now ++ rest.now) }
    ensures none { IfNone result ((rest : List ℕ) → pages.now ≡ file_numbers lease.now ++ rest → ⊥) }
{
    let (index, behind) = split(pages, lease.index_len())?;
    let (blocks, rest) = split(behind, lease.blocks_len())?;
    if is_source(index, &Source::Index(lease)) && is_source(blocks, &Source::Blocks(lease)) {
        Some(rest)
    } else {
        None
    }
}

/// The first so many numbers, and the others. `None` exactly where there are less.
fn split(numbers: &[u32], count: usize) -> Option<(&[u32], &[u32])>
    ensures parts { IfSome result (λ parts. (parts.0.now ≡ take count numbers.now) × (parts.1.now ≡ drop count numbers.now)) }
    ensures some { IsSome result ↔ (count ≤ length numbers.now) }
{
    if count <= numbers.len() {
        Some(numbers.split_at(count))
    } else {
        None
    }
}

/// Whether these are the numbers of all pages of a source.
fn is_source(numbers: &[u32], source: &Source<'_>) -> bool
    ensures { IsTrue result ↔ (numbers.now ≡ numbers_in source.now) }
{
    if numbers.len() != source.len() {
        return false;
    }
    for i in 0..numbers.len() {
        if source.number(i) != Some(numbers[i]) {
            return false;
        }
    }
    true
}

fn are_holds(numbers: &[u32], holds: &[HoldLease]) -> bool
    ensures { IsTrue result ↔ (numbers.now ≡ map (λ h. h.ino) holds.now) }
{
    if numbers.len() != holds.len() {
        return false;
    }
    for i in 0..numbers.len() {
        if numbers[i] != holds[i].ino() {
            return false;
        }
    }
    true
}

fn are_numbers(numbers: &[u32], inodes: &[FreshIno]) -> bool
    ensures { IsTrue result ↔ (numbers.now ≡ map (λ n. n.no) inodes.now) }
{
    if numbers.len() != inodes.len() {
        return false;
    }
    for i in 0..numbers.len() {
        if numbers[i] != inodes[i].no() {
            return false;
        }
    }
    true
}
