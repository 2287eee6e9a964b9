//! What a bundle has under an inode number, and the rows that are copied for it.

ghost use Rattle.std.specs.Prelude.{◌≡◌, ◌≤◌, ◌+◌, ◌*◌, ◌++◌, [], ◌||◌, ℕ, ◌↔◌, IfOk, IsTrue, count_by, length, map, if◌then◌else◌, true, vec_capacity};
ghost use Rattle.std.specs.List.{list_all};
ghost use Rattle.std.specs.Option.{option_map};
ghost use Rattle.trio_rights.specs.Row.{row_in};
ghost use Rattle.trio_rights.specs.Bundle.{bundle_pages};
ghost use Rattle.trio_lists.specs.Lists.{are_new, is_among};
ghost use Rattle.trio_lease.specs.Bundles.{Bundled};
ghost use Rattle.trio_lease.specs.Views.{bundle_in};
ghost use Rattle.trio_layout.specs.Copied.{copied_row};
ghost use Rattle.trio_layout.specs.Allowed.{has_kind};
ghost use Rattle.trio_tables.specs.Row.{as_row};
ghost use Rattle.trio_case.specs.Cases.{is_child, lent_numbers, HasDirectoryParents};
ghost use Rattle.trio_case.specs.Memory.{size_of};
ghost use Rattle.trio_case.specs.Order.{place_of};
ghost use Rattle.trio_case.specs.inner.Maps.{most_copied, row_kept, rows_seen, HasCopied, Tells};
ghost use Rattle.trio_case.specs.inner.Memory.{HasNoRows, HasNumbersMemory, HasRowPlaces, HasRowsFor, NumbersDiffer};
ghost use Rattle.trio_case.specs.inner.Numbered.{HasNumberPlaces};
ghost use Rattle.trio_case.specs.inner.RowLists.{row_listed};

use crate::listing::push;
use crate::numbered::{NUMBER_BYTES, NumbersRoom, Places};
use crate::size::{BundleSize, writes_directory};
use std::alloc::Global;
use std::marker::Model;
use trio_lease::{Bundle, FreshIno, HoldLease, WriteLease};
use trio_page::NoMemory;
use trio_tables::{Row, Shadow};

/// The inode numbers of a bundle, by what it has under them.
#[derive(Drop)]
pub(crate) struct Numbers {
    /// Those of its write leases.
    pub writes: Places,
    /// Those of its holds.
    pub holds: Places,
    /// Those of its holds, in rising order.
    pub held_order: Vec<u32>,
    /// Those that were handed in.
    pub fresh: Places,
}

/// How many bytes there are for the inode numbers of a bundle, for each of its values.
pub(crate) const NUMBERS_BYTES: usize = 3 * NUMBER_BYTES + size_of::<u32>();

/// The memory of the inode numbers of a bundle.
#[derive(Drop)]
pub(crate) struct NumbersMemory {
    pub writes: NumbersRoom,
    pub holds: NumbersRoom,
    pub held_order: Vec<u32>,
    pub fresh: NumbersRoom,
}

impl NumbersMemory {
    /// Memory for the inode numbers of a bundle of this size.
    pub fn with(alloc: Global, size: BundleSize) -> Result<NumbersMemory, NoMemory>
        ensures { IfOk result (HasNumbersMemory size) }
    {
        Ok(NumbersMemory {
            writes: NumbersRoom::with(alloc, size.values)?,
            holds: NumbersRoom::with(alloc, size.holds)?,
            held_order: Vec::with_capacity(alloc, size.holds)?,
            fresh: NumbersRoom::with(alloc, size.inodes)?,
        })
    }
}

impl Numbers {
    /// The inode numbers of a bundle, which differ. It takes no memory.
    pub fn of(memory: NumbersMemory, bundle: &Bundle) -> Numbers
        requires memory { HasNumbersMemory (size_of bundle.now) memory }
        requires differ { NumbersDiffer bundle.now }
        ensures { Tells result bundle.now }
    {
        let NumbersMemory {
            writes,
            holds,
            held_order,
            fresh,
        } = memory;
        let holds = held(holds, bundle.holds());
        let held_order = holds.in_order(held_order);
        Numbers {
            writes: written(writes, bundle.writes()),
            holds,
            held_order,
            fresh: handed_in(fresh, bundle.inodes()),
        }
    }

    /// The place of a number among those of the write leases and then of the holds.
    fn lent_place(&self, ino: u32) -> Option<usize>
        ensures { result ≡ place_of ino (self.now.writes ++ self.now.holds) }
    {
        place_in_both(&self.writes, &self.holds, ino)
    }

    /// The place of a number among those of the write leases and then of those that were handed in.
    pub fn own_place(&self, ino: u32) -> Option<usize>
        ensures { result ≡ place_of ino (self.now.writes ++ self.now.fresh) }
    {
        place_in_both(&self.writes, &self.fresh, ino)
    }

    /// The row of a number where it is copied.
    fn copied(&self, ino: u32, row: Option<Row>) -> Option<Row>
        ensures { (b : Bundled) → Tells self.now b → option_map as_row result ≡ copied_row (bundle_in b) ino (option_map as_row row) }
    {
        let row = row?;
        if self.is_own(ino, row.parent) {
            Some(row)
        } else {
            None
        }
    }

    /// Whether the bundle writes or holds a number, or writes the directory that lists it.
    fn is_own(&self, ino: u32, parent: u32) -> bool
        ensures { result ≡ (is_among ino self.now.writes || is_among ino self.now.holds || is_among parent self.now.writes) }
    {
        self.writes.has(ino) || self.holds.has(ino) || self.writes.has(parent)
    }
}

/// The place of a number in a list and then in another; `None` exactly where it is in neither.
fn place_in_both(first: &Places, second: &Places, ino: u32) -> Option<usize>
    ensures { result ≡ place_of ino (first.now ++ second.now) }
{
    let (count, _more) = (first.len(), second.len());
    match (first.find(ino), second.find(ino)) {
        (Some(at), _) => Some(at),
        (None, Some(at)) => Some(count + at),
        (None, None) => None,
    }
}

fn written(mut room: NumbersRoom, writes: &[WriteLease]) -> Places
    requires memory { HasNumberPlaces (length writes.now) room }
    requires blank { room.numbers.items ≡ [] }
    requires differ { are_new [] (map (λ f. f.stands.ino) writes.now) ≡ true }
    ensures { result ≡ map (λ f. f.stands.ino) writes.now }
{
    for lease in writes {
        push(&mut room.numbers, lease.ino());
    }
    Places::of(room)
}

fn held(mut room: NumbersRoom, holds: &[HoldLease]) -> Places
    requires memory { HasNumberPlaces (length holds.now) room }
    requires blank { room.numbers.items ≡ [] }
    requires differ { are_new [] (map (λ h. h.ino) holds.now) ≡ true }
    ensures { result ≡ map (λ h. h.ino) holds.now }
{
    for hold in holds {
        push(&mut room.numbers, hold.ino());
    }
    Places::of(room)
}

fn handed_in(mut room: NumbersRoom, inodes: &[FreshIno]) -> Places
    requires memory { HasNumberPlaces (length inodes.now) room }
    requires blank { room.numbers.items ≡ [] }
    requires differ { are_new [] (map (λ n. n.no) inodes.now) ≡ true }
    ensures { result ≡ map (λ n. n.no) inodes.now }
{
    for ino in inodes {
        push(&mut room.numbers, ino.no());
    }
    Places::of(room)
}

/// Rows with their numbers. The row of a number is found by halving.
///
/// Contracts see both lists.
#[derive(Drop)]
pub(crate) struct ListedRows {
    // in rising order
    numbers: Vec<u32>,
    // by that order
    rows: Vec<Row>,
}

impl Model for ListedRows {
    ghost use Rattle.trio_case.specs.Order.{AreRising};
    ghost use Rattle.trio_case.specs.inner.RowLists.{RowList};

    ghost Value = { RowList };

    ghost view = { λ l. record { numbers = l.numbers.items; rows = l.rows.items } };

    ghost invariant = { λ l. AreRising l.numbers.items };
}

impl ListedRows {
    /// The row of a number; `None` where it is none of these.
    fn row(&self, ino: u32) -> Option<Row>
        ensures { option_map as_row result ≡ row_listed self.now ino }
    {
        let at = self.numbers.binary_search(&ino).ok()?;
        Some(*self.rows.get(at)?)
    }
}

/// The rows that are copied for a bundle.
#[derive(Drop)]
pub(crate) enum CopiedRows {
    /// Where it writes a directory: each with its number.
    Listed(ListedRows),
    /// Where it doesn't: of its own files alone, of the written ones and then of the held ones.
    Few(Vec<Option<Row>>),
}

/// How many bytes there are for each row that has its number.
pub(crate) const ROW_BYTES: usize = size_of::<u32>() + size_of::<Row>();

/// Memory for rows with their numbers.
#[derive(Drop)]
pub(crate) struct RowsRoom {
    pub numbers: Vec<u32>,
    pub rows: Vec<Row>,
}

impl RowsRoom {
    /// No rows, with room for so many.
    fn with(alloc: Global, count: usize) -> Result<RowsRoom, NoMemory>
        ensures places { IfOk result (HasRowPlaces count) }
        ensures empty { IfOk result HasNoRows }
    {
        Ok(RowsRoom {
            numbers: Vec::with_capacity(alloc, count)?,
            rows: Vec::with_capacity(alloc, count)?,
        })
    }
}

/// How many bytes there are for the rows of each file of a bundle.
pub(crate) const FILE_BYTES: usize = ROW_BYTES + size_of::<Option<Row>>();

/// The memory of the rows that are copied for a bundle.
#[derive(Drop)]
pub(crate) struct RowsMemory {
    // of its own files, and of the children of the directories that it writes
    listed: RowsRoom,
    few: Vec<Option<Row>>,
}

impl RowsMemory {
    /// Memory for the rows of a bundle of this size.
    pub fn with(alloc: Global, size: BundleSize) -> Result<RowsMemory, NoMemory>
        ensures { IfOk result (HasRowsFor size) }
    {
        Ok(RowsMemory {
            listed: RowsRoom::with(alloc, listed_count(size)?)?,
            few: Vec::with_capacity(alloc, size.values)?,
        })
    }
}

/// How many rows with their numbers are copied for a bundle of this size, at most: none where it writes no
/// directory.
fn listed_count(size: BundleSize) -> Result<usize, NoMemory>
    ensures { IfOk result (λ n. n ≡ (if size.lists then size.values + 16 * size.pages else 0)) }
{
    if !size.lists {
        return Ok(0);
    }
    let children = size.entries()?;
    size.values.checked_add(children).ok_or(NoMemory)
}

impl CopiedRows {
    /// The row of a number, where it is copied.
    pub fn row(&self, numbers: &Numbers, ino: u32) -> Option<Row>
        ensures { option_map as_row result ≡ row_kept numbers.now self.now ino }
    {
        match self {
            CopiedRows::Listed(rows) => rows.row(ino),
            CopiedRows::Few(rows) => *rows.get(numbers.lent_place(ino)?)?,
        }
    }
}

/// The rows of the files of a bundle, and of the recorded children of the directories that it
/// writes. Only where it writes one does it take a pass over the table. It takes no memory.
pub(crate) fn copy_rows(
    memory: RowsMemory,
    bundle: &Bundle,
    numbers: &Numbers,
    rows: &Shadow,
) -> CopiedRows
    requires memory { HasRowsFor (size_of bundle.now) memory }
    requires tells { Tells numbers.now bundle.now }
    requires parents { HasDirectoryParents rows.now }
    requires written { list_all (λ f. has_kind f.stands.kind (row_in rows.now f.stands.ino)) bundle.now.writes ≡ true }
    requires children { count_by (is_child bundle.now) rows.now ≤ 16 * length (bundle_pages (bundle_in bundle.now)) }
    ensures { (n : ℕ) → row_kept numbers.now result n ≡ copied_row (bundle_in bundle.now) n (row_in rows.now n) }
{
    let RowsMemory { listed, few } = memory;
    if writes_directory(bundle) {
        CopiedRows::Listed(listed_rows(listed, numbers, rows))
    } else {
        CopiedRows::Few(own_rows(few, bundle, rows))
    }
}

/// The rows that are copied from a table, in lists that have places for them. One pass over the table.
fn listed_rows(room: RowsRoom, own: &Numbers, table: &Shadow) -> ListedRows
    requires places { HasRowPlaces (most_copied own.now table.now) room }
    requires empty { HasNoRows room }
    ensures { (b : Bundled) → Tells own.now b → (n : ℕ) → row_listed result n ≡ copied_row (bundle_in b) n (row_in table.now n) }
{
    let RowsRoom {
        mut numbers,
        mut rows,
    } = room;
    for ino in 0..table.inodes() + 1 {
        if let Some(row) = table.row(ino) {
            if own.is_own(ino, row.parent) {
                push(&mut numbers, ino);
                push(&mut rows, row);
            }
        }
    }
    ListedRows { numbers, rows }
}

/// Whether just these rows are copied for the bundle from a table. One pass over the table.
pub(crate) fn is_copied(numbers: &Numbers, copied: &CopiedRows, rows: &Shadow) -> bool
    ensures { (b : Bundled) → Tells numbers.now b → IsTrue result ↔ HasCopied numbers.now b rows.now copied.now }
{
    for ino in 0..rows.inodes() + 1 {
        let row = numbers.copied(ino, rows.row(ino));
        if !is_same(copied.row(numbers, ino), row) {
            return false;
        }
    }
    true
}

fn is_same(here: Option<Row>, there: Option<Row>) -> bool
    ensures { IsTrue result ↔ (option_map as_row here ≡ option_map as_row there) }
{
    here == there
}

/// The rows of the bundle's own files, in an empty list that has places for them.
fn own_rows(mut few: Vec<Option<Row>>, bundle: &Bundle, rows: &Shadow) -> Vec<Option<Row>>
    requires empty { few.items ≡ [] }
    requires places { length bundle.now.writes + length bundle.now.holds ≤ vec_capacity few }
    ensures { rows_seen result.items ≡ map (row_in rows.now) (lent_numbers bundle.now) }
{
    for lease in bundle.writes() {
        push(&mut few, rows.row(lease.ino()));
    }
    for hold in bundle.holds() {
        push(&mut few, rows.row(hold.ino()));
    }
    few
}
