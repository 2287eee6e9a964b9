//! What is out by allotment.

ghost use Rattle.std.specs.Prelude.{◌≡◌, ◌+◌, ◌<◌, ◌≤◌, ◌↔◌, ◌∷◌, [], IfErr, IfOk, IfSome, IsSome, IsTrue, MatchOption, None, OnErr, OnOk, Some, All, length, map, min, slice_index_or, slice_set, take};
ghost use Rattle.trio_page.specs.Home.{raised};
ghost use Rattle.trio_tables.specs.Free.{free_numbers, free_pages, is_free_number, is_free_page, numbers_where};
ghost use Rattle.trio_allot.specs.Free.{FreeAreHome, RefusesBoth, RefusesInodes, RefusesPages};
ghost use Rattle.trio_tables.specs.Out.{lib_at, with_all};
ghost use Rattle.trio_allot.specs.Out.{fresh_number, fresh_page, inode_numbers, nothing_out, outs_after, outs_with, page_numbers, raised_by, with_pages};

use std::alloc::Global;
use std::marker::Model;
use trio_lease::{Allotted, FreshIno, FreshPage, FreshParts, InoParts};
use trio_nodes::AllotFault;
use trio_page::{Home, NoMemory, PageNo, Reads};
use trio_rights::LibNo;
use trio_tables::{Owners, Shadow};

/// The pages and inode numbers of an image that are out by allotment, each with the library that
/// has it.
///
/// Whether one is free rests on the tables too, which the calls are passed: [`Owners`] for pages,
/// [`Shadow`] for inode numbers.
///
/// Only `new`, `take_pages` and `take_inodes` take memory, all from the allocator that `new` was
/// passed.
#[derive(Drop)]
pub struct Allotments {
    alloc: Global,
    // by page number
    pages: Vec<Option<LibNo>>,
    // by inode number; the place 0 is not used
    numbers: Vec<Option<LibNo>>,
}

impl Model for Allotments {
    ghost use Rattle.trio_allot.specs.Out.{OutByNumber};

    ghost Value = { OutByNumber };

    ghost view = { λ a. record { pages = a.pages.items; numbers = a.numbers.items } };
}

impl Allotments {
    /// Nothing is out, of an image of `pages` pages and of the inode numbers from 1 to `inodes`.
    /// `NoMemory` where there is no memory for it.
    pub fn new(alloc: Global, pages: u32, inodes: u32) -> Result<Allotments, NoMemory>
        ensures { IfOk result (λ a. a ≡ nothing_out pages inodes) }
    {
        let mut by_page = Vec::new(alloc);
        by_page.resize(pages as usize, None)?;
        let mut by_number = Vec::new(alloc);
        by_number.resize(inodes as usize + 1, None)?;
        Ok(Allotments {
            alloc,
            pages: by_page,
            numbers: by_number,
        })
    }

    /// The library that has the page out. `None` where it isn't out, as past the image. Takes no
    /// memory.
    pub fn page_lib(&self, no: PageNo) -> Option<LibNo>
        ensures { result ≡ lib_at self.now.pages no.0 }
    {
        *self.pages.get(no.0 as usize)?
    }

    /// The library that has the inode number out. `None` where it isn't out, as past the last one.
    /// Takes no memory.
    pub fn number_lib(&self, ino: u32) -> Option<LibNo>
        ensures { result ≡ lib_at self.now.numbers ino }
    {
        *self.numbers.get(ino as usize)?
    }

    /// How many pages are free: owned by nobody, and not out.
    #[tactic(auto, using(crate::proofs::FreeLemmas::where_step, crate::proofs::FreeLemmas::where_end))]
    pub fn free_pages(&self, owners: &Owners) -> u32
        ensures { result ≡ length (free_pages owners.now self.now.pages) }
    {
        let mut free = 0;
        for no in 0..owners.pages() {
            if self.is_free_page(owners, no) {
                free += 1;
            }
        }
        free
    }

    /// How many inode numbers are free: not live, and not out.
    #[tactic(auto, using(crate::proofs::FreeLemmas::where_step, crate::proofs::FreeLemmas::where_end))]
    pub fn free_inodes(&self, rows: &Shadow) -> u32
        ensures { result ≡ length (free_numbers rows.now self.now.numbers) }
    {
        let mut free = 0;
        for ino in 1..rows.inodes() + 1 {
            if self.is_free_number(rows, ino) {
                free += 1;
            }
        }
        free
    }

    /// How many pages are free, or so many where there are more: no page behind the last of those is
    /// looked at.
    pub fn free_pages_to(&self, owners: &Owners, most: u32) -> u32
        ensures { result ≡ min most (length (free_pages owners.now self.now.pages)) }
    {
        let mut from = 0;
        for i in 0..most {
            match self.next_free_page(owners, from) {
                Some(no) => from = no + 1,
                None => return i,
            }
        }
        most
    }

    /// How many inode numbers are free, or so many where there are more: no number behind the last of
    /// those is looked at.
    pub fn free_inodes_to(&self, rows: &Shadow, most: u32) -> u32
        ensures { result ≡ min most (length (free_numbers rows.now self.now.numbers)) }
    {
        let mut from = 1;
        for i in 0..most {
            match self.next_free_number(rows, from) {
                Some(ino) => from = ino + 1,
                None => return i,
            }
        }
        most
    }

    /// Takes the `n` lowest free pages out of the home, to be the library's. They come in the order
    /// of their numbers, each all zero, and stay out until they are put back. The home's count and
    /// `reads` are higher by one for each page.
    ///
    /// The table of owners is that of the image, and each free page is at home.
    ///
    /// Nothing changes on an error. `NoPages`, exactly where `n` is above the count of free pages;
    /// it tells both. `NoMemory`: there was no memory for the list.
    pub fn take_pages(
        &mut self,
        home: &mut Home,
        owners: &Owners,
        lib: LibNo,
        n: u32,
        reads: &mut Reads,
    ) -> Result<Vec<FreshPage>, AllotFault>
        requires sizes { length self.old.pages ≡ length owners.now }
        requires there { FreeAreHome owners.now self.old.pages home.old.pages }
        ensures enough { OnOk result (n ≤ length (free_pages owners.now self.old.pages)) }
        ensures given { let free = free_pages owners.now self.old.pages in
            IfOk result (λ given. given.items ≡ map (fresh_page lib) (take n free)) }
        ensures out { let free = free_pages owners.now self.old.pages in
            OnOk result (self.new
            ≡ record self.old { pages = with_all (Some lib) (take n free) self.old.pages }) }
        ensures home { let free = free_pages owners.now self.old.pages in
            OnOk result (home.new ≡ record {
              pages = with_all None (take n free) home.old.pages;
              looked = raised_by n home.old.looked;
            }) }
        ensures reads { OnOk result (reads.new ≡ raised_by n reads.old) }
        ensures refused { IfErr result
            (RefusesPages n (length (free_pages owners.now self.old.pages))) }
        ensures kept { OnErr result
            ((self.new ≡ self.old) × (home.new ≡ home.old) × (reads.new ≡ reads.old)) }
        // so that the next call may be made
        ensures sizes { length self.new.pages ≡ length owners.now }
        ensures there { FreeAreHome owners.now self.new.pages home.new.pages }
    {
        if !self.has_pages(owners, n) {
            return Err(AllotFault::NoPages {
                wanted: n,
                free: self.free_pages(owners),
            });
        }
        let Ok(mut given) = Vec::with_capacity(self.alloc, n as usize) else {
            return Err(AllotFault::NoMemory);
        };
        let mut from = 0;
        for _i in 0..n {
            let Some(no) = self.next_free_page(owners, from) else {
                unreachable!()
            };
            let page = self.take_page(home, lib, no, reads);
            if let Err(failed) = given.push(page) {
                failed.value.discard();
                unreachable!()
            }
            from = no + 1;
        }
        Ok(given)
    }

    /// Takes the `n` lowest free inode numbers out, to be the library's, in their order. They stay
    /// out until they are put back.
    ///
    /// The table of rows is that of the image.
    ///
    /// Nothing changes on an error. `NoInodes`, exactly where `n` is above the count of free
    /// numbers; it tells both. `NoMemory`: there was no memory for the list.
    pub fn take_inodes(
        &mut self,
        rows: &Shadow,
        lib: LibNo,
        n: u32,
    ) -> Result<Vec<FreshIno>, AllotFault>
        requires sizes { length self.old.numbers ≡ length rows.now }
        ensures enough { OnOk result (n ≤ length (free_numbers rows.now self.old.numbers)) }
        ensures given { let free = free_numbers rows.now self.old.numbers in
            IfOk result (λ given. given.items ≡ map (fresh_number lib) (take n free)) }
        ensures out { let free = free_numbers rows.now self.old.numbers in
            OnOk result (self.new
            ≡ record self.old { numbers = with_all (Some lib) (take n free) self.old.numbers }) }
        ensures refused { IfErr result
            (RefusesInodes n (length (free_numbers rows.now self.old.numbers))) }
        ensures kept { OnErr result (self.new ≡ self.old) }
        // so that the next call may be made
        ensures sizes { length self.new.numbers ≡ length rows.now }
    {
        if !self.has_inodes(rows, n) {
            return Err(AllotFault::NoInodes {
                wanted: n,
                free: self.free_inodes(rows),
            });
        }
        let Ok(mut given) = Vec::with_capacity(self.alloc, n as usize) else {
            return Err(AllotFault::NoMemory);
        };
        let mut from = 1;
        for _i in 0..n {
            let Some(ino) = self.next_free_number(rows, from) else {
                unreachable!()
            };
            let number = self.take_number(lib, ino);
            if let Err(failed) = given.push(number) {
                failed.value.discard();
                unreachable!()
            }
            from = ino + 1;
        }
        Ok(given)
    }

    /// Takes the lowest free pages and inode numbers out, so many of each, as `take_pages` and
    /// `take_inodes` do. All memory is taken before the first page leaves home.
    ///
    /// The tables are those of the image, and each free page is at home.
    ///
    /// Nothing changes on an error. `NoPages` exactly where more pages are wanted than are free;
    /// `NoInodes` exactly where enough pages are free, and more inode numbers are wanted than are;
    /// each tells both numbers. `NoMemory`: there was no memory for the lists.
    pub fn take(
        &mut self,
        home: &mut Home,
        owners: &Owners,
        rows: &Shadow,
        lib: LibNo,
        pages: u32,
        inodes: u32,
        reads: &mut Reads,
    ) -> Result<Allotted, AllotFault>
        requires page_count { length self.old.pages ≡ length owners.now }
        requires inode_count { length self.old.numbers ≡ length rows.now }
        requires there { FreeAreHome owners.now self.old.pages home.old.pages }
        ensures enough_pages { OnOk result (pages ≤ length (free_pages owners.now self.old.pages)) }
        ensures enough_inodes { OnOk result (inodes ≤ length (free_numbers rows.now self.old.numbers)) }
        ensures pages { let free = free_pages owners.now self.old.pages in
            IfOk result (λ given. given.pages.items ≡ map (fresh_page lib) (take pages free)) }
        ensures inodes { let free = free_numbers rows.now self.old.numbers in
            IfOk result (λ given. given.inodes.items ≡ map (fresh_number lib) (take inodes free)) }
        ensures out { let ps = free_pages owners.now self.old.pages in
            let ns = free_numbers rows.now self.old.numbers in
            OnOk result (self.new ≡ outs_with self.old lib (take pages ps) (take inodes ns)) }
        ensures home { let free = free_pages owners.now self.old.pages in
            OnOk result (home.new ≡ record {
              pages = with_all None (take pages free) home.old.pages;
              looked = raised_by pages home.old.looked;
            }) }
        ensures reads { OnOk result (reads.new ≡ raised_by pages reads.old) }
        ensures refused { let ps = free_pages owners.now self.old.pages in
            let ns = free_numbers rows.now self.old.numbers in
            IfErr result (RefusesBoth pages inodes (length ps) (length ns)) }
        ensures kept { OnErr result
            ((self.new ≡ self.old) × (home.new ≡ home.old) × (reads.new ≡ reads.old)) }
    {
        if !self.has_pages(owners, pages) {
            return Err(AllotFault::NoPages {
                wanted: pages,
                free: self.free_pages(owners),
            });
        }
        if !self.has_inodes(rows, inodes) {
            return Err(AllotFault::NoInodes {
                wanted: inodes,
                free: self.free_inodes(rows),
            });
        }
        self.take_enough(home, owners, rows, lib, pages, inodes, reads)
    }

    // takes pages and inode numbers of which enough are free
    fn take_enough(
        &mut self,
        home: &mut Home,
        owners: &Owners,
        rows: &Shadow,
        lib: LibNo,
        pages: u32,
        inodes: u32,
        reads: &mut Reads,
    ) -> Result<Allotted, AllotFault>
        requires page_count { length self.old.pages ≡ length owners.now }
        requires inode_count { length self.old.numbers ≡ length rows.now }
        requires there { FreeAreHome owners.now self.old.pages home.old.pages }
        requires enough_pages { pages ≤ length (free_pages owners.now self.old.pages) }
        requires enough_inodes { inodes ≤ length (free_numbers rows.now self.old.numbers) }
        ensures pages { let free = free_pages owners.now self.old.pages in
            IfOk result (λ given. given.pages.items ≡ map (fresh_page lib) (take pages free)) }
        ensures inodes { let free = free_numbers rows.now self.old.numbers in
            IfOk result (λ given. given.inodes.items ≡ map (fresh_number lib) (take inodes free)) }
        ensures out { let ps = free_pages owners.now self.old.pages in
            let ns = free_numbers rows.now self.old.numbers in
            OnOk result (self.new ≡ outs_with self.old lib (take pages ps) (take inodes ns)) }
        ensures home { let free = free_pages owners.now self.old.pages in
            OnOk result (home.new ≡ record {
              pages = with_all None (take pages free) home.old.pages;
              looked = raised_by pages home.old.looked;
            }) }
        ensures reads { OnOk result (reads.new ≡ raised_by pages reads.old) }
        ensures refused { IfErr result (λ fault. fault ≡ AllotFault.NoMemory) }
        ensures kept { OnErr result
            ((self.new ≡ self.old) × (home.new ≡ home.old) × (reads.new ≡ reads.old)) }
    {
        let numbers = self.take_inodes(rows, lib, inodes)?;
        match self.take_pages(home, owners, lib, pages, reads) {
            Ok(pages) => Ok(Allotted {
                pages,
                inodes: numbers,
            }),
            Err(fault) => {
                let back = Allotted {
                    pages: Vec::new(self.alloc),
                    inodes: numbers,
                };
                self.put_back(home, back);
                Err(fault)
            }
        }
    }

    /// Brings the pages home as they are, and ends the allotment of all pages and numbers of
    /// `back`, whether they are out or not. A page that stands there twice is at home as it came
    /// last. Takes no memory, and counts no look.
    ///
    /// Each page and each number of `back` is the image's, and the page numbers are within the
    /// home.
    pub fn put_back(&mut self, home: &mut Home, back: Allotted)
        requires pages { All (λ n. n < length self.old.pages) (page_numbers back.pages.items) }
        requires numbers { All (λ n. n < length self.old.numbers) (inode_numbers back.inodes.items) }
        requires within { All (λ n. n < length home.old.pages) (page_numbers back.pages.items) }
        ensures ended { self.new ≡ outs_after self.old (page_numbers back.pages.items) (inode_numbers back.inodes.items) }
        ensures home { home.new
            ≡ record home.old { pages = with_pages back.pages.items home.old.pages } }
    {
        let Allotted { pages, inodes } = back;
        self.put_pages(home, pages);
        self.end_numbers(inodes);
    }

    fn is_free_page(&self, owners: &Owners, no: u32) -> bool
        requires { no < length owners.now }
        ensures { result ≡ is_free_page owners.now self.now.pages no }
    {
        owners.owner(PageNo(no)) == 0 && self.page_lib(PageNo(no)).is_none()
    }

    fn is_free_number(&self, rows: &Shadow, ino: u32) -> bool
        ensures { result ≡ is_free_number rows.now self.now.numbers ino }
    {
        rows.row(ino).is_none() && self.number_lib(ino).is_none()
    }

    // whether so many pages are free
    fn has_pages(&self, owners: &Owners, n: u32) -> bool
        ensures { IsTrue result ↔ (n ≤ length (free_pages owners.now self.now.pages)) }
    {
        n <= self.free_pages_to(owners, n)
    }

    // whether so many inode numbers are free
    fn has_inodes(&self, rows: &Shadow, n: u32) -> bool
        ensures { IsTrue result ↔ (n ≤ length (free_numbers rows.now self.now.numbers)) }
    {
        n <= self.free_inodes_to(rows, n)
    }

    // the lowest free page from a number on
    #[tactic(auto, using(crate::proofs::FreeLemmas::where_step, crate::proofs::FreeLemmas::where_end))]
    fn next_free_page(&self, owners: &Owners, from: u32) -> Option<u32>
        ensures next { let test = is_free_page owners.now self.now.pages in
            let end = length owners.now in
            MatchOption result (numbers_where test from end ≡ [])
            (λ no. numbers_where test from end ≡ no ∷ numbers_where test (no + 1) end) }
        ensures within { IfSome result (λ no. (from ≤ no) × (no < length owners.now)) }
        ensures small { IfSome result (λ no. no < 8192) }
        ensures free { IfSome result (λ no. IsTrue (is_free_page owners.now self.now.pages no)) }
    {
        for no in from..owners.pages() {
            if self.is_free_page(owners, no) {
                return Some(no);
            }
        }
        None
    }

    // the lowest free inode number from a number on
    #[tactic(auto, using(crate::proofs::FreeLemmas::where_step, crate::proofs::FreeLemmas::where_end))]
    fn next_free_number(&self, rows: &Shadow, from: u32) -> Option<u32>
        ensures next { let test = is_free_number rows.now self.now.numbers in
            let end = length rows.now in
            MatchOption result (numbers_where test from end ≡ [])
            (λ ino. numbers_where test from end ≡ ino ∷ numbers_where test (ino + 1) end) }
        ensures within { IfSome result (λ ino. (from ≤ ino) × (ino < length rows.now)) }
        ensures small { IfSome result (λ ino. ino ≤ 16384) }
    {
        for ino in from..rows.inodes() + 1 {
            if self.is_free_number(rows, ino) {
                return Some(ino);
            }
        }
        None
    }

    // takes one page out of the home
    fn take_page(&mut self, home: &mut Home, lib: LibNo, no: u32, reads: &mut Reads) -> FreshPage
        requires within { no < length self.old.pages }
        requires there { IsSome (slice_index_or home.old.pages no None) }
        ensures page { result ≡ fresh_page lib no }
        ensures out { self.new ≡ record self.old { pages = slice_set self.old.pages no (Some lib) } }
        ensures home { home.new ≡ record {
          pages = slice_set home.old.pages no None;
          looked = raised home.old.looked;
        } }
        ensures reads { reads.new ≡ raised reads.old }
    {
        let Some(mut page) = home.take(PageNo(no), reads) else {
            unreachable!()
        };
        page.clear();
        self.pages[no as usize] = Some(lib);
        FreshPage::of(FreshParts {
            lib,
            no: PageNo(no),
            page,
        })
    }

    fn take_number(&mut self, lib: LibNo, ino: u32) -> FreshIno
        requires within { ino < length self.old.numbers }
        ensures number { result ≡ fresh_number lib ino }
        ensures out { self.new
            ≡ record self.old { numbers = slice_set self.old.numbers ino (Some lib) } }
    {
        self.numbers[ino as usize] = Some(lib);
        FreshIno::of(InoParts { lib, no: ino })
    }

    fn put_pages(&mut self, home: &mut Home, mut pages: Vec<FreshPage>)
        requires within { All (λ n. n < length self.old.pages) (page_numbers pages.items) }
        requires within_home { All (λ n. n < length home.old.pages) (page_numbers pages.items) }
        ensures ended { self.new
            ≡ record self.old { pages = with_all None (page_numbers pages.items) self.old.pages } }
        ensures home { home.new
            ≡ record home.old { pages = with_pages pages.items home.old.pages } }
    {
        pages.reverse();
        while let Some(page) = pages.pop() {
            self.put_page(home, page);
        }
        pages.destroy_empty();
    }

    fn put_page(&mut self, home: &mut Home, page: FreshPage)
        requires within { page.no.0 < length self.old.pages }
        requires within_home { page.no.0 < length home.old.pages }
        ensures ended { self.new
            ≡ record self.old { pages = slice_set self.old.pages page.no.0 None } }
        ensures home { home.new
            ≡ record home.old { pages = slice_set home.old.pages page.no.0 (Some page.page) } }
    {
        let FreshParts { lib: _, no, page } = page.parts();
        self.pages[no.0 as usize] = None;
        home.put(no, page);
    }

    fn end_numbers(&mut self, mut inodes: Vec<FreshIno>)
        requires { All (λ n. n < length self.old.numbers) (inode_numbers inodes.items) }
        ensures { self.new ≡ record self.old {
          numbers = with_all None (inode_numbers inodes.items) self.old.numbers;
        } }
    {
        while let Some(number) = inodes.pop() {
            self.end_number(number);
        }
        inodes.destroy_empty();
    }

    fn end_number(&mut self, number: FreshIno)
        requires { number.no < length self.old.numbers }
        ensures { self.new
            ≡ record self.old { numbers = slice_set self.old.numbers number.no None } }
    {
        let InoParts { lib: _, no } = number.parts();
        self.numbers[no as usize] = None;
    }
}
