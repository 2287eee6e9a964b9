//! Copies of pages under their numbers.

ghost use Rattle.std.specs.Prelude.{◌≡◌, ◌<◌, ◌≤◌, ◌+◌, ◌*◌, ◌==◌, IfOk, IsSome, IsTrue, None, Some, length, slice_index_or, slice_set};
ghost use Rattle.std.specs.List.{find};
ghost use Rattle.std.specs.Option.{option_copied};
ghost use Rattle.trio_layout.specs.Entries.{body_in_slot};
ghost use Rattle.trio_lists.specs.Marked.{all_below};
ghost use Rattle.trio_rights.specs.Sheets.{sheet_numbers, with_pages};
ghost use Rattle.trio_checkpoint.specs.Covered.{renewed, with_body};
ghost use Rattle.trio_checkpoint.specs.inner.Steps.{AreCopies, AllStand, IsCopy};

use std::alloc::Global;
use std::marker::Model;
use trio_page::field::put_bytes_in;
use trio_page::{Home, NoMemory, Page, PageNo, Reads};

/// A copy of a page, with the number at which the page stood.
///
/// Contracts see it as a `Sheet` of `trio_rights`'s `specs/Sheets.antt`.
#[derive(Drop)]
pub(crate) struct PageCopy {
    number: u32,
    page: Page,
}

impl Model for PageCopy {
    ghost use Rattle.trio_rights.specs.Sheets.{Sheet};

    ghost Value = { Sheet };

    ghost view = { λ c. record { page = c.number; bytes = c.page } };
}

impl PageCopy {
    /// Copies the page of this number, which is at home.
    pub(crate) fn of(
        alloc: Global,
        home: &mut Home,
        number: u32,
        reads: &mut Reads,
    ) -> Result<PageCopy, NoMemory>
        requires { IsSome (slice_index_or home.old.pages number None) }
        ensures number { IfOk result (λ c. c.page ≡ number) }
        ensures copy { IfOk result (λ c. IsCopy home.old.pages c) }
        ensures home { home.new.pages ≡ home.old.pages }
        ensures floor { home.old.looked ≤ home.new.looked }
    {
        let Some(page) = home.page(PageNo(number), reads) else {
            unreachable!()
        };
        let page = page.copy(alloc)?;
        Ok(PageCopy { number, page })
    }

    /// The number at which the page stood.
    pub(crate) fn number(&self) -> u32
        ensures { result ≡ self.now.page }
    {
        self.number
    }

    /// The page itself.
    pub(crate) fn page(&self) -> &Page
        ensures { result.now ≡ self.now.bytes }
    {
        &self.page
    }

    /// The body in a slot of a directory page.
    pub(crate) fn body(&self, slot: u16) -> &[u8; 64]
        requires { slot < 16 }
        ensures { result.now ≡ body_in_slot slot self.now.bytes }
    {
        let at = body_offset(slot);
        self.page.bytes()[at..at + 64].as_array().unwrap()
    }

    /// Puts a body into a slot, if this is the page of that number.
    pub(crate) fn renew(&mut self, page: PageNo, slot: u16, body: &[u8; 64])
        requires { slot < 16 }
        ensures { self.new ≡ renewed page.0 slot body.now self.old }
    {
        if self.number == page.0 {
            put_bytes_in(self.page.bytes_mut(), body_offset(slot), body);
        }
    }

    /// Puts the page back in its place at home.
    pub(crate) fn put_back(self, home: &mut Home)
        requires { self.page < length home.old.pages }
        ensures { home.new ≡ record home.old { pages = slice_set home.old.pages self.page (Some self.bytes) } }
    {
        home.put(PageNo(self.number), self.page);
    }
}

/// Where the body of a slot begins, in bytes from the page's front.
fn body_offset(slot: u16) -> usize
    requires { slot < 16 }
    ensures { result ≡ 256 * slot + 192 }
{
    256 * usize::from(slot) + 192
}

/// Copies the pages of these numbers, which are at home.
pub(crate) fn copy_pages(
    alloc: Global,
    home: &mut Home,
    numbers: &[u32],
    reads: &mut Reads,
) -> Result<Vec<PageCopy>, NoMemory>
    requires { AllStand home.old.pages numbers.now }
    ensures copies { IfOk result (λ copies. AreCopies home.old.pages numbers.now copies.items) }
    ensures home { home.new.pages ≡ home.old.pages }
    ensures floor { home.old.looked ≤ home.new.looked }
{
    let mut copies = Vec::new(alloc);
    for number in numbers {
        copies.push(PageCopy::of(alloc, home, *number, reads)?)?;
    }
    Ok(copies)
}

/// The copy of the page of this number, if it is among these.
pub(crate) fn copy_of(copies: &[PageCopy], no: PageNo) -> Option<&PageCopy>
    ensures { option_copied result ≡ find (λ x. x.page == no.0) copies.now }
{
    copies.iter().find(|copy| copy.number() == no.0)
}

/// Puts a body into a slot of the page of this number, where it is one of these.
pub(crate) fn renew_all(copies: &mut [PageCopy], page: PageNo, slot: u16, body: &[u8; 64])
    requires { slot < 16 }
    ensures { copies.new ≡ with_body page.0 slot body.now copies.old }
{
    for copy in copies.iter_mut() {
        copy.renew(page, slot, body);
    }
}

/// Puts the pages back in their places at home.
pub(crate) fn put_all_back(copies: Vec<PageCopy>, home: &mut Home)
    requires { IsTrue (all_below (length home.old.pages) (sheet_numbers copies.items)) }
    ensures { home.new ≡ record home.old { pages = with_pages copies.items home.old.pages } }
{
    for copy in copies {
        copy.put_back(home);
    }
}
