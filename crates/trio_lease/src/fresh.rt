//! Pages and inode numbers out by allotment.

ghost use Rattle.std.specs.Prelude.{◌≡◌};
ghost use Rattle.std.specs.Borrow.{sem, Lends};
ghost use Rattle.trio_page.specs.contracts.page.Page.{the_row as page_row};

use crate::parts::{FreshParts, InoParts};
use crate::things::let_go_all;
use std::marker::Model;
use trio_page::{Page, PageNo};
use trio_rights::LibNo;

/// A page out by allotment, for a new file or for growth. Contracts see its parts.
pub struct FreshPage {
    lib: LibNo,
    no: PageNo,
    page: Page,
}

impl Model for FreshPage {
    ghost use Rattle.trio_lease.specs.declared.parts.FreshParts.{FreshParts};

    ghost Value = { FreshParts };

    ghost view = { λ f. record { lib = f.lib; no = f.no; page = f.page } };
}

impl FreshPage {
    ghost use Rattle.trio_lease.specs.contracts.fresh.FreshPage.{the_row};

    /// The allotted page that has these parts.
    pub fn of(parts: FreshParts) -> FreshPage
        ensures { result ≡ parts }
    {
        let FreshParts { lib, no, page } = parts;
        FreshPage { lib, no, page }
    }

    /// What the allotted page is made of, as it stands.
    pub fn parts(self) -> FreshParts
        ensures { result ≡ self }
    {
        let FreshPage { lib, no, page } = self;
        FreshParts { lib, no, page }
    }

    /// Lets the page go. It stays out by allotment for good, so that others don't find it free.
    pub fn discard(self) {
        let _parts = self.parts();
    }

    /// The library that the page is allotted to.
    pub fn lib(&self) -> LibNo
        ensures { result ≡ self.now.lib }
    {
        self.lib
    }

    /// The page's number in the image.
    pub fn no(&self) -> PageNo
        ensures { result ≡ self.now.no }
    {
        self.no
    }

    pub fn page(&self) -> &Page
        ensures { result.now ≡ self.now.page }
    {
        &self.page
    }

    /// The page, for writing.
    pub fn page_mut(&mut self) -> &mut Page
        ensures page { result.now ≡ self.old.page }
        ensures* lends { sem 𝓛 (Lends the_row page_row self.entry result (λ w. record self.old { page = w })) }
    {
        &mut self.page
    }
}

/// An inode number out by allotment, for a new file. Contracts see its parts, which never change.
pub struct FreshIno {
    parts: InoParts,
}

impl Model for FreshIno {
    ghost use Rattle.trio_lease.specs.declared.parts.InoParts.{InoParts};

    ghost Value = { InoParts };

    ghost view = { λ f. f.parts };
}

impl FreshIno {
    /// The allotted inode number that has these parts.
    pub fn of(parts: InoParts) -> FreshIno
        ensures { result ≡ parts }
    {
        FreshIno { parts }
    }

    /// What the allotted inode number is made of.
    pub fn parts(self) -> InoParts
        ensures { result ≡ self }
    {
        let FreshIno { parts } = self;
        parts
    }

    /// Lets the inode number go. It stays out by allotment for good, so that others don't find it
    /// free.
    pub fn discard(self) {
        let _parts = self.parts();
    }

    /// The library that the inode number is allotted to.
    pub fn lib(&self) -> LibNo
        ensures { result ≡ self.now.lib }
    {
        self.parts.lib
    }

    /// The inode number.
    pub fn no(&self) -> u32
        ensures { result ≡ self.now.no }
    {
        self.parts.no
    }
}

/// What one allotment gives: so many pages and inode numbers as were asked for, the lowest first.
pub struct Allotted {
    pub pages: Vec<FreshPage>,
    pub inodes: Vec<FreshIno>,
}

impl Allotted {
    /// Lets all of it go. The pages and inode numbers stay out by allotment for good, so that
    /// others don't find them free.
    pub fn discard(self) {
        let Allotted { pages, inodes } = self;
        let_go_all(pages);
        let_go_all(inodes);
    }
}
