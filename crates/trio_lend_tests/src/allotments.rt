//! Which pages and inode numbers are allotted.

ghost use Rattle.std.specs.Prelude.{◌≡◌, ◌<◌, ◌≤◌, All, IfOk, IsSome, length};
ghost use Rattle.trio_allot.specs.Free.{FreeAreHome};

use std::alloc::Global;
use trio_allot::Allotments;
use trio_lease::{Allotted, FreshIno, FreshPage, FreshParts, InoParts};
use trio_nodes::AllotFault;
use trio_page::field::all_zero;
use trio_page::{Home, NoMemory, Page, PageNo, Reads};
use trio_rights::{Kind, LibNo, Mode};
use trio_tables::{Owners, Row, Shadow};

/// An image of which each free page is at home.
#[derive(Drop)]
struct Pages {
    alloc: Global,
    home: Home,
    owners: Owners,
    allotments: Allotments,
    reads: Reads,
    ghost sizes: { length allotments.pages ≡ length owners },
    ghost there: { FreeAreHome owners allotments.pages home.pages },
}

/// So many pages, each of which begins with the number 7.
fn used_pages(alloc: Global, count: u32) -> Result<Vec<Option<Page>>, NoMemory>
    ensures count { IfOk result (λ pages. length pages.items ≡ count) }
    ensures there { IfOk result (λ pages. All (λ page. IsSome page) pages.items) }
{
    let mut pages = Vec::new(alloc);
    for _i in 0..count {
        let mut page = Page::zero(alloc)?;
        page.put_u32(0, 7);
        pages.push(Some(page))?;
    }
    Ok(pages)
}

/// An image of so many pages, of which 3 is the first core page; a file owns the page `owned`.
fn image(alloc: Global, pages: u32, owned: u32) -> Result<Pages, NoMemory>
    requires few { pages ≤ 8192 }
    requires core { 3 ≤ pages }
    requires owned { owned < pages }
{
    let home = Home::of(used_pages(alloc, pages)?);
    let mut owners = Owners::new(alloc, pages, 3)?;
    owners.set(PageNo(owned), 2);
    let allotments = Allotments::new(alloc, pages, 0)?;
    Ok(Pages {
        alloc,
        home,
        owners,
        allotments,
        reads: Reads::new(),
    })
}

/// Whether these pages are the library's, of these numbers and all zero.
fn are_pages(pages: &[FreshPage], lib: LibNo, want: &[u32]) -> bool {
    let is_same = |(page, no): (&FreshPage, &u32)| {
        page.lib() == lib && page.no() == PageNo(*no) && all_zero(page.page().bytes())
    };
    pages.len() == want.len() && pages.iter().zip(want).all(is_same)
}

impl Pages {
    /// What is answered for so many pages: why they aren't given, or whether they are the library's, of
    /// these numbers and all zero. They stay out for good.
    fn take(&mut self, lib: u32, n: u32, want: &[u32]) -> Result<bool, AllotFault> {
        let lib = LibNo(lib);
        let pages = self
            .allotments
            .take_pages(&mut self.home, &self.owners, lib, n, &mut self.reads)?;
        let is_so = are_pages(&pages, lib, want);
        let inodes = Vec::new(self.alloc);
        Allotted { pages, inodes }.discard();
        Ok(is_so)
    }

    /// Puts a page of this number back that begins with 9, and answers whether such a page was out.
    fn put(&mut self, no: u32) -> Result<bool, NoMemory> {
        let no = PageNo(no);
        if self.allotments.page_lib(no).is_none() || self.home.len() <= no.0 as usize {
            return Ok(false);
        }
        let mut page = Page::zero(self.alloc)?;
        page.put_u32(0, 9);
        let mut pages = Vec::with_capacity(self.alloc, 1)?;
        let fresh = FreshPage::of(FreshParts {
            lib: LibNo(1),
            no,
            page,
        });
        if let Err(failed) = pages.push(fresh) {
            failed.value.discard();
            unreachable!()
        }
        let inodes = Vec::new(self.alloc);
        self.allotments
            .put_back(&mut self.home, Allotted { pages, inodes });
        Ok(true)
    }

    fn is_free(&self, count: u32) -> bool {
        self.allotments.free_pages(&self.owners) == count
    }

    fn is_out(&self, no: u32, lib: Option<LibNo>) -> bool {
        self.allotments.page_lib(PageNo(no)) == lib
    }

    /// Whether the page of this number begins so.
    fn begins(&mut self, no: u32, first: u32) -> bool {
        match self.home.page(PageNo(no), &mut self.reads) {
            Some(page) => page.u32_at(0) == first,
            None => false,
        }
    }

    fn does(&mut self, step: &Step) -> Result<bool, NoMemory> {
        match *step {
            Step::Take(lib, n, want) => Ok(self.take(lib, n, want) == Ok(true)),
            Step::Lack(lib, wanted, free) => {
                let fault = AllotFault::NoPages { wanted, free };
                Ok(self.take(lib, wanted, &[]) == Err(fault))
            }
            Step::Put(no) => self.put(no),
            Step::Free(count) => Ok(self.is_free(count)),
            Step::Out(no, lib) => Ok(self.is_out(no, lib)),
            Step::Begins(no, first) => Ok(self.begins(no, first)),
            Step::Looks(count) => Ok((self.reads.count(), self.home.looked()) == (count, count)),
        }
    }
}

/// What is asked of the pages of an image, and what it comes to.
#[derive(Clone, Copy)]
enum Step {
    /// The library is given so many pages, these.
    Take(u32, u32, &'static [u32]),
    /// The library asks for so many pages, of which so many are free.
    Lack(u32, u32, u32),
    /// A page that is out comes back and begins with 9.
    Put(u32),
    /// So many pages are free.
    Free(u32),
    /// The library has the page out.
    Out(u32, Option<LibNo>),
    /// The page at home begins with this number.
    Begins(u32, u32),
    /// So many pages were looked at.
    Looks(u64),
}

/// Of 32 pages; page 2 is owned, and below the first core page.
const ALL: &[Step] = &[
    Step::Lack(1, 30, 29),
    Step::Take(
        1,
        29,
        &[
            3, 4, 5, 6, 7, 8, 9, 10, 11, 12, 13, 14, 15, 16, 17, 18, 19, 20, 21, 22, 23, 24, 25,
            26, 27, 28, 29, 30, 31,
        ],
    ),
    Step::Take(2, 0, &[]),
    Step::Lack(2, 1, 0),
    // each page that was taken was looked at once
    Step::Looks(29),
];

/// Of 10 pages; page 6 is owned.
const LOWEST: &[Step] = &[
    Step::Take(1, 2, &[3, 4]),
    Step::Take(2, 1, &[5]),
    Step::Free(3),
    Step::Put(4),
    Step::Put(3),
    Step::Free(5),
    Step::Out(4, None),
    Step::Out(5, Some(LibNo(2))),
    Step::Out(10, None),
    Step::Begins(4, 9),
    Step::Take(3, 3, &[3, 4, 7]),
    Step::Free(2),
];

/// The first step that doesn't come to what it should; the number of steps where each does.
fn first_wrong(mut image: Pages, steps: &[Step]) -> Result<usize, NoMemory> {
    for (i, step) in steps.iter().enumerate() {
        if !image.does(step)? {
            return Ok(i);
        }
    }
    Ok(steps.len())
}

#[test]
fn so_many_pages_as_are_free(rt: HostRuntime) -> Result<(), NoMemory> {
    let wrong = first_wrong(image(rt.alloc(), 32, 2)?, ALL)?;
    assert!(rt; wrong == ALL.len(), "step {wrong}");
    Ok(())
}

#[test]
fn the_lowest_pages_come_first(rt: HostRuntime) -> Result<(), NoMemory> {
    let wrong = first_wrong(image(rt.alloc(), 10, 6)?, LOWEST)?;
    assert!(rt; wrong == LOWEST.len(), "step {wrong}");
    Ok(())
}

/// Inode numbers 1 to 8, of which 1 and 3 are live.
#[derive(Drop)]
struct Numbers {
    alloc: Global,
    rows: Shadow,
    allotments: Allotments,
    ghost sizes: { length allotments.numbers ≡ length rows },
}

const ROW: Row = Row {
    kind: Kind::Regular,
    mode: Mode(0o644),
    uid: 0,
    gid: 0,
    parent: 1,
    page: 4,
    slot: 0,
};

fn eight_numbers(alloc: Global) -> Result<Numbers, NoMemory> {
    let mut rows = Shadow::new(alloc, 8)?;
    rows.set(1, Some(ROW));
    rows.set(3, Some(ROW));
    let allotments = Allotments::new(alloc, 0, 8)?;
    Ok(Numbers {
        alloc,
        rows,
        allotments,
    })
}

/// Whether these inode numbers are the library's, and these.
fn are_numbers(inodes: &[FreshIno], lib: LibNo, want: &[u32]) -> bool {
    let is_same = |(ino, no): (&FreshIno, &u32)| ino.lib() == lib && ino.no() == *no;
    inodes.len() == want.len() && inodes.iter().zip(want).all(is_same)
}

impl Numbers {
    /// What is answered for so many inode numbers: why they aren't given, or whether they are the
    /// library's and these. They stay out for good.
    fn take(&mut self, lib: u32, n: u32, want: &[u32]) -> Result<bool, AllotFault> {
        let inodes = self.allotments.take_inodes(&self.rows, LibNo(lib), n)?;
        let is_so = are_numbers(&inodes, LibNo(lib), want);
        let pages = Vec::new(self.alloc);
        Allotted { pages, inodes }.discard();
        Ok(is_so)
    }

    /// Puts the number 2 back, and answers whether it was out.
    fn put_two(&mut self) -> Result<bool, NoMemory> {
        if self.allotments.number_lib(2).is_none() {
            return Ok(false);
        }
        let mut home = Home::of(Vec::new(self.alloc));
        let mut inodes = Vec::with_capacity(self.alloc, 1)?;
        let number = FreshIno::of(InoParts {
            lib: LibNo(1),
            no: 2,
        });
        if let Err(failed) = inodes.push(number) {
            failed.value.discard();
            unreachable!()
        }
        let pages = Vec::new(self.alloc);
        self.allotments
            .put_back(&mut home, Allotted { pages, inodes });
        Ok(true)
    }

    fn is_free(&self, count: u32) -> bool {
        self.allotments.free_inodes(&self.rows) == count
    }

    /// Whether the number 2 is out to library 1, and no number beside the table is out.
    fn has_two_out(&self) -> bool {
        self.allotments.number_lib(2) == Some(LibNo(1))
            && self.allotments.number_lib(0).is_none()
            && self.allotments.number_lib(9).is_none()
    }

    fn are_taken(&mut self) -> bool {
        let lack = AllotFault::NoInodes { wanted: 5, free: 4 };
        self.is_free(6)
            && self.take(1, 2, &[2, 4]) == Ok(true)
            && self.take(2, 5, &[]) == Err(lack)
            && self.take(2, 0, &[]) == Ok(true)
            && self.has_two_out()
    }

    fn are_taken_again(&mut self) -> bool {
        self.put_two().ok() == Some(true) && self.take(2, 2, &[2, 5]) == Ok(true) && self.is_free(3)
    }
}

#[test]
fn the_lowest_numbers_come_first(rt: HostRuntime) -> Result<(), NoMemory> {
    let mut numbers = eight_numbers(rt.alloc())?;
    let is_so = (numbers.are_taken(), numbers.are_taken_again());
    assert!(rt; is_so == (true, true));
    Ok(())
}
