//! What a bundle is judged by.

ghost use Rattle.std.specs.Prelude.{◌≡◌, ◌==◌, ◌++◌, IfOk, IfErr, IfSome, IsSome, ◌↔◌, IsTrue, map};
ghost use Rattle.std.specs.Option.{option_copied, option_map};
ghost use Rattle.trio_rights.specs.Row.{row_in};
ghost use Rattle.trio_rights.specs.Bundle.{is_written};
ghost use Rattle.trio_lists.specs.Lists.{is_among};
ghost use Rattle.trio_lists.specs.Sorting.{sorted_by};
ghost use Rattle.trio_lease.specs.Views.{bundle_in};
ghost use Rattle.trio_layout.specs.Copied.{copied_rows};
ghost use Rattle.trio_layout.specs.Rules.{lent_body};
ghost use Rattle.trio_tables.specs.Row.{as_row};
ghost use Rattle.trio_case.specs.Cases.{case_in, IsJudgeable, IsCase};
ghost use Rattle.trio_case.specs.Memory.{HasCaseMemory};
ghost use Rattle.trio_case.specs.Order.{place_of};
ghost use Rattle.trio_case.specs.inner.Maps.{body_lent};

use crate::memory::CaseMemory;
use crate::numbered::Places;
use crate::numbers::{CopiedRows, Numbers, copy_rows, is_copied};
use crate::size::BundleSize;
use std::alloc::Global;
use std::marker::Model;
use trio_layout::CoreRange;
use trio_lease::{Bundle, HoldLease};
use trio_page::{NoMemory, Page, PageNo};
use trio_rights::{Creds, LibNo};
use trio_tables::{Row, Shadow};

/// A bundle, and all that the rules I1, I2 and I4 ask of it beside its pages: the rows of its files
/// and of the recorded children of its directories, the credentials of its library, the core range,
/// and the number of inode numbers.
///
/// Contracts see it as `CaseShown` (`specs/Cases.antt`), whose `case_in` is the case that the rules
/// speak of.
pub struct Case {
    lib: LibNo,
    bundle: Bundle,
    rows: CopiedRows,
    numbers: Numbers,
    creds: Creds,
    range: CoreRange,
    inodes: u32,
}

impl Model for Case {
    ghost use Rattle.trio_case.specs.Cases.{CaseShown, IsCase};
    ghost use Rattle.trio_case.specs.inner.Maps.{rows_kept, Tells};

    ghost Value = { CaseShown };

    ghost view = { λ k. record { lib = k.lib; bundle = k.bundle; rows = rows_kept k.numbers k.rows k.inodes; creds = k.creds; range = k.range; inodes = k.inodes } };

    ghost invariant = { λ k. Tells k.numbers k.bundle × IsCase k.bundle k.range k.inodes };
}

impl Case {
    ghost use Rattle.std.specs.Prelude.{Some};
    ghost use Rattle.std.specs.Borrow.{sem, LendsIf};
    ghost use Rattle.trio_page.specs.contracts.page.Page.{the_row as page_row};
    ghost use Rattle.trio_lease.specs.Places.{bytes_of, with_bytes};
    ghost use Rattle.trio_lease.specs.Shown.{all_touched};
    ghost use Rattle.trio_case.specs.contracts.case.Case.{the_row};

    /// The case of a library's bundle, with the rows that it needs copied out of the table.
    ///
    /// With [`NoMemory`] the bundle comes back as it was.
    pub fn of(
        alloc: Global,
        lib: LibNo,
        creds: Creds,
        bundle: Bundle,
        rows: &Shadow,
        range: CoreRange,
        inodes: u32,
    ) -> Result<Case, (Bundle, NoMemory)>
        requires { IsJudgeable bundle rows.now range inodes }
        ensures made { IfOk result (λ k. k ≡ record { lib = lib; bundle = bundle; rows = copied_rows (bundle_in bundle) rows.now; creds = creds; range = range; inodes = inodes }) }
        ensures back { IfErr result (λ e. e.0 ≡ bundle) }
    {
        match memory_for(alloc, &bundle) {
            Ok(memory) => Ok(Case::within(memory, lib, creds, bundle, rows, range, inodes)),
            Err(fault) => Err((bundle, fault)),
        }
    }

    /// The same, in memory that was made for it. It takes no memory.
    pub fn within(
        memory: CaseMemory,
        lib: LibNo,
        creds: Creds,
        bundle: Bundle,
        rows: &Shadow,
        range: CoreRange,
        inodes: u32,
    ) -> Case
        requires judgeable { IsJudgeable bundle rows.now range inodes }
        requires memory { HasCaseMemory bundle memory }
        ensures { result ≡ record { lib = lib; bundle = bundle; rows = copied_rows (bundle_in bundle) rows.now; creds = creds; range = range; inodes = inodes } }
    {
        let CaseMemory {
            numbers,
            rows: copied,
        } = memory;
        let numbers = Numbers::of(numbers, &bundle);
        let copied = copy_rows(copied, &bundle, &numbers, rows);
        Case {
            lib,
            bundle,
            rows: copied,
            numbers,
            creds,
            range,
            inodes,
        }
    }

    /// The bundle as it stands.
    pub fn bundle(&self) -> &Bundle
        ensures bundle { result.now ≡ self.now.bundle }
        ensures fits { IsCase self.now.bundle self.now.range self.now.inodes }
    {
        &self.bundle
    }

    /// The page of this number of the bundle, for writing, as [`Bundle::page_mut`] finds it. `None`
    /// exactly where the bundle has no such page. It takes no memory.
    pub fn page_mut(&mut self, no: PageNo) -> Option<&mut Page>
        ensures value { IfSome result (λ p. bytes_of self.old.bundle no ≡ Some p.now) }
        ensures some { IsSome result ↔ IsSome (bytes_of self.old.bundle no) }
        ensures* lends { sem 𝓛 (LendsIf the_row page_row self.entry result (λ w. record self.old { bundle = with_bytes self.old.bundle no w }) self.old) }
    {
        self.bundle.page_mut(no)
    }

    /// Marks each block of the write leases as touched ([`Bundle::touch_blocks`]). It takes no memory.
    pub fn touch_blocks(&mut self)
        ensures { self.new ≡ record self.old { bundle = record self.old.bundle { writes = map all_touched self.old.bundle.writes } } }
    {
        self.bundle.touch_blocks();
    }

    /// The bundle, byte for byte.
    pub fn into_bundle(self) -> Bundle
        ensures { result ≡ self.bundle }
    {
        let Case {
            lib: _,
            bundle,
            rows: _,
            numbers: _,
            creds: _,
            range: _,
            inodes: _,
        } = self;
        bundle
    }

    /// The library whose bundle it is.
    pub fn lib(&self) -> LibNo
        ensures { result ≡ self.now.lib }
    {
        self.lib
    }

    /// The credentials of the library.
    pub fn creds(&self) -> Creds
        ensures { result ≡ self.now.creds }
    {
        self.creds
    }

    /// Which pages of the image are core pages.
    pub fn range(&self) -> CoreRange
        ensures { result ≡ self.now.range }
    {
        self.range
    }

    /// How many inode numbers the image has; the number 0 is none of them.
    pub fn inodes(&self) -> u32
        ensures { result ≡ self.now.inodes }
    {
        self.inodes
    }

    /// The copied row of an inode number. `None` exactly where the number isn't live, or its row
    /// wasn't copied.
    pub fn row(&self, ino: u32) -> Option<Row>
        ensures { option_map as_row result ≡ row_in self.now.rows ino }
    {
        if ino > self.inodes {
            return None;
        }
        self.rows.row(&self.numbers, ino)
    }

    /// Whether its rows are just those that a case of its bundle would have of this table. It takes no
    /// memory, and goes over the table no more than once.
    pub fn fits(&self, rows: &Shadow) -> bool
        ensures { IsTrue result ↔ (self.now.rows ≡ copied_rows (bundle_in self.now.bundle) rows.now) }
    {
        rows.inodes() == self.inodes && is_copied(&self.numbers, &self.rows, rows)
    }

    /// Whether the bundle has a write lease on this number.
    pub fn is_written(&self, ino: u32) -> bool
        ensures { result ≡ is_written (bundle_in self.now.bundle) ino }
    {
        self.numbers.writes.has(ino)
    }

    /// The body that the hold of this number lent. `None` exactly where the bundle holds no such
    /// number.
    pub fn lent_body(&self, ino: u32) -> Option<&[u8; 64]>
        ensures held { IsSome result ↔ IsTrue (is_among ino (bundle_in self.now.bundle).holds) }
        ensures body { IfSome result (λ b. b.now ≡ lent_body (case_in self.now) ino) }
    {
        body_lent(self.bundle.holds(), &self.numbers.holds, ino)
    }

    /// The numbers of the bundle's holds, in rising order.
    pub fn held_numbers(&self) -> &[u32]
        ensures { result.now ≡ sorted_by (λ n. n) (bundle_in self.now.bundle).holds }
    {
        &self.numbers.held_order
    }

    /// The place of a number among those of the write leases, and then of those that were handed in. `None`
    /// exactly where it is none of these.
    pub fn own_place(&self, ino: u32) -> Option<usize>
        ensures { result ≡ place_of ino (map (λ f. f.stands.ino) self.now.bundle.writes ++ map (λ n. n.no) self.now.bundle.inodes) }
    {
        self.numbers.own_place(ino)
    }

    /// Whether this is one of the inode numbers that were handed in.
    pub fn is_fresh(&self, ino: u32) -> bool
        ensures { result ≡ is_among ino (bundle_in self.now.bundle).numbers }
    {
        self.numbers.fresh.has(ino)
    }
}

/// Memory for the case of just this bundle.
fn memory_for(alloc: Global, bundle: &Bundle) -> Result<CaseMemory, NoMemory>
    ensures { IfOk result (HasCaseMemory bundle.now) }
{
    let memory = CaseMemory::with(alloc, BundleSize::of(bundle)?)?;
    Ok(memory)
}

/// The body that the hold of this number lent, of holds on these numbers.
fn body_lent<'a>(holds: &'a [HoldLease], numbers: &Places, ino: u32) -> Option<&'a [u8; 64]>
    requires { numbers.now ≡ map (λ h. h.ino) holds.now }
    ensures { option_copied result ≡ body_lent holds.now ino }
{
    let at = numbers.find(ino)?;
    let hold = holds.get(at)?;
    Some(hold.body())
}
