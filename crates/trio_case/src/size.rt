//! How large a bundle may be.

ghost use Rattle.std.specs.Prelude.{◌≡◌, ◌+◌, ◌-◌, ◌*◌, ◌≤◌, ℕ, IfOk, if◌then◌else◌, true};
ghost use Rattle.trio_case.specs.Memory.{size_of, value_count, writes_directory};

use crate::kept::page_count;
use trio_lease::Bundle;
use trio_page::NoMemory;

/// How much a bundle has at most.
#[derive(Clone, Copy)]
pub struct BundleSize {
    pub pages: usize,
    /// Write leases, holds and handed-in inode numbers together.
    pub values: usize,
    /// Of these, holds.
    pub holds: usize,
    /// Of these, handed-in inode numbers.
    pub inodes: usize,
    /// Whether it may write a directory. Only then is anything listed.
    pub lists: bool,
}

/// How many bytes memory takes for each page of a bundle, and for each write lease, hold and handed-in inode
/// number.
#[derive(Clone, Copy)]
pub struct BytesEach {
    pub page: usize,
    pub value: usize,
}

impl BundleSize {
    /// The size that no bundle passes whose release needs at most so many bytes, for an image of so many
    /// pages and inode numbers together: 4 bytes for each of these, 16384 for each page of the bundle, and
    /// 1024 for the release and for each value. Of pages alone, or of values alone, just so many need no more.
    pub fn within(bytes: u64, numbers: u32) -> BundleSize
        ensures enough { (pages values : ℕ) → 4 * numbers + 16384 * pages + 1024 * (1 + values) ≤ bytes → (pages ≤ result.pages) × (values ≤ result.values) }
        ensures few { (16384 * result.pages ≤ bytes - (4 * numbers + 1024)) × (1024 * result.values ≤ bytes - (4 * numbers + 1024)) }
        ensures all { (result.holds ≡ result.values) × (result.inodes ≡ result.values) × (result.lists ≡ true) }
    {
        let rest = bytes.saturating_sub(4 * u64::from(numbers) + 1024);
        let values = (rest / 1024) as usize;
        BundleSize {
            pages: (rest / 16384) as usize,
            values,
            holds: values,
            inodes: values,
            lists: true,
        }
    }

    /// The size of just this bundle. A bundle whose counts no `usize` can hold has none.
    pub fn of(bundle: &Bundle) -> Result<BundleSize, NoMemory>
        ensures { IfOk result (λ size. size ≡ size_of bundle.now) }
    {
        Ok(BundleSize {
            pages: page_count(bundle)?,
            values: value_count(bundle)?,
            holds: bundle.holds().len(),
            inodes: bundle.inodes().len(),
            lists: writes_directory(bundle),
        })
    }

    /// How many entries so large a bundle may list: 16 on each page, and none where it writes no directory.
    pub fn entries(&self) -> Result<usize, NoMemory>
        ensures { IfOk result (λ n. n ≡ (if self.now.lists then 16 * self.now.pages else 0)) }
    {
        if self.lists {
            self.pages.checked_mul(16).ok_or(NoMemory)
        } else {
            Ok(0)
        }
    }
}

/// How many write leases, holds and handed-in numbers a bundle has.
pub(crate) fn value_count(bundle: &Bundle) -> Result<usize, NoMemory>
    ensures { IfOk result (λ n. n ≡ value_count bundle.now) }
{
    let leases = bundle
        .writes()
        .len()
        .checked_add(bundle.holds().len())
        .ok_or(NoMemory)?;
    leases.checked_add(bundle.inodes().len()).ok_or(NoMemory)
}

/// Whether a bundle writes a directory. Only then does its case take a pass over the rows, and is anything
/// listed.
pub(crate) fn writes_directory(bundle: &Bundle) -> bool
    ensures { result ≡ writes_directory bundle.now }
{
    let writes = bundle.writes();
    writes.iter().any(|lease| lease.kind().is_directory())
}

/// Over how many inode numbers the judgement of a bundle is to have a table: over all of an image's, with
/// the number 0, where the bundle writes a directory, and else over none, since then it lists nothing.
pub fn table_size(bundle: &Bundle, inodes: u32) -> usize
    ensures { result ≡ (if writes_directory bundle.now then inodes + 1 else 0) }
{
    if writes_directory(bundle) {
        inodes as usize + 1
    } else {
        0
    }
}
