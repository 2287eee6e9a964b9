//! What a library hands in: files of a sample image as they are lent, and what was written into them.

use std::alloc::Global;
use trio_layout::{Body, CoreRange};
use trio_lease::{
    Bundle, FreshIno, FreshPage, FreshParts, HoldLease, HoldParts, InoParts, LentPage, WriteLease,
    WriteParts,
};
use trio_page::{Home, Page, PageNo, Reads};
use trio_rights::{Creds, Kind, LibNo, Mode};
use trio_samples::files::{root, six_directories, three_files};
use trio_samples::{Sample, SampleFile, directory, link, put};
use trio_tables::{Row, Shadow};

/// The core pages of each sample image.
pub const RANGE: CoreRange = CoreRange { first: 3, end: 32 };

/// The image that a bundle is of. Each has 32 pages, of which 3 is the first core page, and 64 inode
/// numbers.
#[derive(Clone, Copy)]
enum Image {
    /// A directory `a`, of number 2, and in it a file `f`, of number 3 and five bytes. The root has
    /// pages 3 and 4, `a` 5 and 6, `f` 7 and 8.
    OneDirectory,
    /// The same, and `f` is guarded.
    OneGuarded,
    /// In place of `f` a link `l`, of number 3 and of the text `/a/f`.
    OneLink,
    /// Beside `a` and `f` the directory `b` in the root, of number 4, empty.
    TwoDirectories,
    /// A directory `t` alone, of number 2 and mode 777, empty.
    OpenDirectory,
    /// `a` 2, `b` 3, `a/p` 4, `a/p/p1` 5, `b/q` 6 and `b/q/q1` 7. The root has pages 3 and 4, `a` 5
    /// and 6, `p` 7 and 8, `b` 9 and 10, `q` 11 and 12.
    SixDirectories,
    /// The same after `p` moved below `q1`, to slot 0 of page 14.
    SixDirectoriesMoved,
}

/// What is lent and handed in.
#[derive(Clone, Copy)]
pub enum Grants {
    /// A write lease on `f`.
    F,
    /// The same, and the allotted page 9.
    FAndPage,
    /// A write lease on the link `l`.
    L,
    /// The same, and the allotted page 9.
    LAndPage,
    /// A write lease on `a`.
    A,
    /// The same, and a hold of `f`.
    AHoldingF,
    /// A write lease on `a`, and a hold of the guarded `f`.
    AHoldingGuarded,
    /// A write lease on `a`, and a hold of the link `l`.
    AHoldingL,
    /// A write lease on `a`, and the allotted inode number 4.
    AAndNumber,
    /// The same, and the allotted pages 9 and 10.
    AAndNumberAndPages,
    /// A write lease on the root.
    Root,
    /// The same, and a hold of `a`.
    RootHoldingA,
    /// Write leases on the root and `a`, a hold of `f`, and the allotted inode number 4.
    RootAndAHoldingF,
    /// A write lease on the empty `b`, and the allotted pages 9 and 10.
    B,
    /// A write lease on the empty `t`, and the allotted pages 5 and 6 and inode number 3, of a library of
    /// uid and gid 5; all others are of uid and gid 0.
    T,
    /// Write leases on `a` and `q1`, a hold of `p`, and the allotted pages 13 and 14.
    MovingP,
    /// Write leases on `b` and `p1`, a hold of `q`, and the allotted pages 15 and 16.
    MovingQ,
}

/// The image, the uid of the library, which is its gid too, and the numbers of its write leases, of its
/// holds, of its allotted pages and of its allotted inode numbers.
#[derive(Clone, Copy)]
struct Lent {
    image: Image,
    user: u32,
    writes: &'static [u32],
    holds: &'static [u32],
    pages: &'static [u32],
    inodes: &'static [u32],
}

fn lent_of(grants: Grants) -> Lent {
    let f = Lent {
        image: Image::OneDirectory,
        user: 0,
        writes: &[3],
        holds: &[],
        pages: &[],
        inodes: &[],
    };
    let l = Lent {
        image: Image::OneLink,
        ..f
    };
    let a = Lent { writes: &[2], ..f };
    let root = Lent { writes: &[1], ..f };
    match grants {
        Grants::F => f,
        Grants::FAndPage => Lent { pages: &[9], ..f },
        Grants::A => a,
        Grants::L => l,
        Grants::LAndPage => Lent { pages: &[9], ..l },
        Grants::AHoldingF => Lent { holds: &[3], ..a },
        Grants::AHoldingGuarded => Lent {
            image: Image::OneGuarded,
            holds: &[3],
            ..a
        },
        Grants::AHoldingL => Lent {
            image: Image::OneLink,
            holds: &[3],
            ..a
        },
        Grants::AAndNumber => Lent { inodes: &[4], ..a },
        Grants::AAndNumberAndPages => Lent {
            pages: &[9, 10],
            inodes: &[4],
            ..a
        },
        Grants::Root => root,
        Grants::RootHoldingA => Lent {
            holds: &[2],
            ..root
        },
        Grants::RootAndAHoldingF => Lent {
            writes: &[1, 2],
            holds: &[3],
            inodes: &[4],
            ..f
        },
        Grants::B => Lent {
            image: Image::TwoDirectories,
            writes: &[4],
            pages: &[9, 10],
            ..f
        },
        Grants::T => Lent {
            image: Image::OpenDirectory,
            user: 5,
            pages: &[5, 6],
            inodes: &[3],
            ..a
        },
        Grants::MovingP => Lent {
            image: Image::SixDirectories,
            writes: &[2, 7],
            holds: &[4],
            pages: &[13, 14],
            ..f
        },
        Grants::MovingQ => Lent {
            image: Image::SixDirectoriesMoved,
            writes: &[3, 5],
            holds: &[6],
            pages: &[15, 16],
            ..f
        },
    }
}

/// Where bytes are written: the body, the one index page or the one block of a file of this number,
/// or the allotted page of this number.
#[derive(Clone, Copy)]
pub enum Target {
    Body(u32),
    Index(u32),
    Block(u32),
    Fresh(u32),
}

/// Bytes that are written at an offset.
pub type Poke = (Target, usize, &'static [u8]);

/// The parts of a bundle.
#[derive(Drop)]
pub struct Parts {
    pub writes: Vec<WriteParts>,
    pub holds: Vec<HoldParts>,
    pub pages: Vec<FreshParts>,
    pub inodes: Vec<InoParts>,
}

impl Parts {
    pub fn none(alloc: Global) -> Parts {
        Parts {
            writes: Vec::new(alloc),
            holds: Vec::new(alloc),
            pages: Vec::new(alloc),
            inodes: Vec::new(alloc),
        }
    }
}

/// An image as it stands, from which files are lent.
#[derive(Drop)]
pub struct Lender {
    pub root: [u8; 64],
    pub home: Home,
    pub rows: Shadow,
}

/// Whether a file is held.
pub fn has_holds(grants: Grants) -> bool {
    !lent_of(grants).holds.is_empty()
}

/// The bundle after the writes, its image, which keeps a copy of all that was lent, and its library.
pub fn handed_in(alloc: Global, grants: Grants, pokes: &[Poke]) -> Option<(Bundle, Lender, Creds)> {
    let lent = lent_of(grants);
    let mut lender = lender_of(alloc, lent.image)?;
    let mut handed = lend(alloc, &mut lender, &lent)?;
    for (target, at, bytes) in pokes {
        put(bytes_of(&mut handed, *target)?, *at, bytes);
    }
    let creds = Creds {
        uid: lent.user,
        gid: lent.user,
    };
    Some((bundle_of(alloc, handed)?, lender, creds))
}

fn sample(alloc: Global, image: Image) -> Option<Sample> {
    let [top, a, f] = three_files();
    let made = match image {
        Image::OneDirectory => Sample::small(alloc, &[top, a, f]),
        Image::OneGuarded => Sample::small(alloc, &[top, a, f.guarded()]),
        Image::OneLink => Sample::small(alloc, &[top, a, link(3, 2, b"l", b"/a/f")]),
        Image::TwoDirectories => Sample::small(alloc, &[top, a, f, directory(4, 1, b"b")]),
        Image::OpenDirectory => Sample::small(alloc, &[root(), open_directory()]),
        Image::SixDirectories | Image::SixDirectoriesMoved => {
            Sample::small(alloc, &six_directories())
        }
    };
    made.ok()
}

fn open_directory() -> SampleFile<'static> {
    SampleFile {
        mode: Mode(0o777),
        ..directory(2, 1, b"t")
    }
}

fn lender_of(alloc: Global, image: Image) -> Option<Lender> {
    let sample = sample(alloc, image)?;
    let root = sample.superblock().root;
    let (home, mut rows) = sample.home_and_rows(alloc).ok()?;
    if let Image::SixDirectoriesMoved = image {
        move_p(&mut rows)?;
    }
    Some(Lender { root, home, rows })
}

fn move_p(rows: &mut Shadow) -> Option<()> {
    let row = rows.row(4)?;
    let moved = Row {
        parent: 7,
        page: 14,
        slot: 0,
        ..row
    };
    rows.set(4, Some(moved));
    Some(())
}

fn lend(alloc: Global, lender: &mut Lender, lent: &Lent) -> Option<Parts> {
    let mut handed = Parts::none(alloc);
    for ino in lent.writes {
        handed.writes.push(lender.written(alloc, *ino)?).ok()?;
    }
    for ino in lent.holds {
        handed.holds.push(lender.held(*ino)?).ok()?;
    }
    for no in lent.pages {
        handed.pages.push(fresh(alloc, *no)?).ok()?;
    }
    for no in lent.inodes {
        let lib = LibNo(1);
        handed.inodes.push(InoParts { lib, no: *no }).ok()?;
    }
    Some(handed)
}

fn fresh(alloc: Global, no: u32) -> Option<FreshParts> {
    Some(FreshParts {
        lib: LibNo(1),
        no: PageNo(no),
        page: Page::zero(alloc).ok()?,
    })
}

impl Lender {
    /// The write lease on a file of at most one block.
    fn written(&mut self, alloc: Global, ino: u32) -> Option<WriteParts> {
        let row = self.rows.row(ino)?;
        let body = self.body(&row)?;
        let head = Body::read(&body, row.kind, RANGE)?.head;
        let mut index = Vec::new(alloc);
        let mut blocks = Vec::new(alloc);
        if head != 0 {
            let page = self.lent_page(alloc, head)?;
            let block = page.page.u32_at(0);
            index.push(page).ok()?;
            blocks.push(self.lent_page(alloc, block)?).ok()?;
        }
        Some(WriteParts {
            lib: LibNo(1),
            ino,
            kind: row.kind,
            entry: 0,
            body,
            index,
            blocks,
        })
    }

    /// The hold of a file.
    fn held(&mut self, ino: u32) -> Option<HoldParts> {
        let row = self.rows.row(ino)?;
        Some(HoldParts {
            lib: LibNo(1),
            ino,
            kind: row.kind,
            entry: 0,
            parent: row.parent,
            body: self.body(&row)?,
            children: self.rows.children(ino),
        })
    }

    fn lent_page(&mut self, alloc: Global, no: u32) -> Option<LentPage> {
        let no = PageNo(no);
        let page = self.home.page(no, &mut Reads::new())?;
        Some(LentPage {
            no,
            page: page.copy(alloc).ok()?,
            touched: false,
        })
    }

    /// The body of the file of this row.
    fn body(&mut self, row: &Row) -> Option<[u8; 64]> {
        if row.page == 0 {
            return Some(self.root);
        }
        let page = self.home.page(PageNo(row.page), &mut Reads::new())?;
        let mut body = [0; 64];
        let at = 256 * usize::from(row.slot) + 192;
        body.copy_from_slice(page.bytes().get(at..at + 64)?);
        Some(body)
    }
}

/// The bytes that a write goes to.
fn bytes_of(handed: &mut Parts, target: Target) -> Option<&mut [u8]> {
    match target {
        Target::Body(ino) => {
            let file = file_of(&mut handed.writes, ino)?;
            Some(&mut file.body)
        }
        Target::Index(ino) => {
            let page = file_of(&mut handed.writes, ino)?.index.get_mut(0)?;
            Some(page.page.bytes_mut())
        }
        Target::Block(ino) => {
            let page = file_of(&mut handed.writes, ino)?.blocks.get_mut(0)?;
            Some(page.page.bytes_mut())
        }
        Target::Fresh(no) => {
            let at = handed.pages.iter().position(|page| page.no == PageNo(no))?;
            Some(handed.pages.get_mut(at)?.page.bytes_mut())
        }
    }
}

fn file_of(writes: &mut Vec<WriteParts>, ino: u32) -> Option<&mut WriteParts> {
    let at = writes.iter().position(|file| file.ino == ino)?;
    writes.get_mut(at)
}

/// The bundle of these parts.
pub fn bundle_of(alloc: Global, handed: Parts) -> Option<Bundle> {
    let Parts {
        writes,
        holds,
        pages,
        inodes,
    } = handed;
    let mut bundle = Bundle::new(alloc);
    for parts in writes {
        bundle = with_write(bundle, parts)?;
    }
    for parts in holds {
        bundle = with_hold(bundle, parts)?;
    }
    for parts in pages {
        bundle = with_page(bundle, parts)?;
    }
    for parts in inodes {
        bundle = with_ino(bundle, parts)?;
    }
    Some(bundle)
}

fn with_write(mut bundle: Bundle, parts: WriteParts) -> Option<Bundle> {
    match bundle.add_write(WriteLease::of(parts)) {
        Ok(()) => Some(bundle),
        Err((lease, _)) => {
            lease.discard();
            bundle.discard();
            None
        }
    }
}

fn with_hold(mut bundle: Bundle, parts: HoldParts) -> Option<Bundle> {
    match bundle.add_hold(HoldLease::of(parts)) {
        Ok(()) => Some(bundle),
        Err((lease, _)) => {
            lease.discard();
            bundle.discard();
            None
        }
    }
}

fn with_page(mut bundle: Bundle, parts: FreshParts) -> Option<Bundle> {
    match bundle.add_page(FreshPage::of(parts)) {
        Ok(()) => Some(bundle),
        Err((page, _)) => {
            page.discard();
            bundle.discard();
            None
        }
    }
}

fn with_ino(mut bundle: Bundle, parts: InoParts) -> Option<Bundle> {
    match bundle.add_ino(FreshIno::of(parts)) {
        Ok(()) => Some(bundle),
        Err((ino, _)) => {
            ino.discard();
            bundle.discard();
            None
        }
    }
}
