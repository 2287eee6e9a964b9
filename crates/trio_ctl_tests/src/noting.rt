//! A desk that notes what it is handed in.

ghost use Rattle.std.specs.Prelude.{◌≡◌};

use trio_desk::Desk;
use trio_lease::{Allotted, Bundle, Lease, ReadLease};
use trio_nodes::{
    AllotFault, Call, Done, GrantFault, GrantKind, ModeFault, ReleaseAnswer, ReleaseFault,
};
use trio_page::{NoMemory, Reads};
use trio_rights::Creds;

/// Of each of a bundle's first two files its library, the entry of its grant, its number, and 1 where its
/// block 0 is marked as touched; then the number of its first hold, and those of its first two pages and
/// inode numbers. 0 is none.
pub type Numbers = ([u64; 4], [u64; 4], [u32; 5]);

/// The numbers of no bundle.
pub const NONE: Numbers = ([0; 4], [0; 4], [0; 5]);

/// Another desk, and the numbers of the first four bundles that it was handed in for a release.
#[derive(Drop)]
pub struct NotingDesk<'a, D: Desk> {
    desk: &'a mut D,
    handed: [Numbers; 4],
    count: usize,
}

fn file_numbers(bundle: &Bundle, i: usize) -> [u64; 4] {
    match bundle.writes().get(i) {
        Some(lease) => [
            u64::from(lease.lib().0),
            lease.entry(),
            u64::from(lease.ino()),
            u64::from(lease.block_touched(0) == Some(true)),
        ],
        None => [0; 4],
    }
}

fn first_hold(bundle: &Bundle) -> u32 {
    match bundle.holds().get(0) {
        Some(hold) => hold.ino(),
        None => 0,
    }
}

fn page_number(bundle: &Bundle, i: usize) -> u32 {
    match bundle.pages().get(i) {
        Some(page) => page.no().0,
        None => 0,
    }
}

fn inode_number(bundle: &Bundle, i: usize) -> u32 {
    match bundle.inodes().get(i) {
        Some(inode) => inode.no(),
        None => 0,
    }
}

fn numbers_of(bundle: &Bundle) -> Numbers {
    let rest = [
        first_hold(bundle),
        page_number(bundle, 0),
        page_number(bundle, 1),
        inode_number(bundle, 0),
        inode_number(bundle, 1),
    ];
    (file_numbers(bundle, 0), file_numbers(bundle, 1), rest)
}

impl<'a, D: Desk> NotingDesk<'a, D> {
    /// A desk that was handed in nothing yet, before this one.
    pub fn before(desk: &'a mut D) -> NotingDesk<'a, D>
        ensures { result.desk.now ≡ desk.old }
    {
        NotingDesk {
            desk,
            handed: [NONE; 4],
            count: 0,
        }
    }

    /// The numbers of the first four bundles, in their order.
    pub fn handed(&self) -> [Numbers; 4] {
        self.handed
    }

    fn note(&mut self, numbers: Numbers)
        ensures { self.new.desk ≡ self.old.desk }
    {
        if self.count < 4 {
            self.handed[self.count] = numbers;
            self.count += 1;
        }
    }
}

impl<'a, D: Desk> Desk for NotingDesk<'a, D> {
    ghost seen = { λ d. D.seen d.desk.now };

    ghost called = { λ d ask told d'. D.called d.desk.now ask told d'.desk.now };

    fn creds(&self) -> Creds {
        self.desk.creds()
    }

    fn grant(&mut self, ino: u32, kind: GrantKind) -> Result<Lease, GrantFault> {
        self.desk.grant(ino, kind)
    }

    fn allot(&mut self, pages: u32, inodes: u32) -> Result<Allotted, AllotFault> {
        self.desk.allot(pages, inodes)
    }

    fn give_back(&mut self, lease: ReadLease) {
        self.desk.give_back(lease);
    }

    fn release(
        &mut self,
        bundle: Bundle,
        reads: &mut Reads,
    ) -> Result<ReleaseAnswer, (Bundle, ReleaseFault)> {
        self.note(numbers_of(&bundle));
        self.desk.release(bundle, reads)
    }

    fn settle(
        &mut self,
        bundle: Bundle,
        back: Vec<ReadLease>,
        calls: Vec<Done>,
    ) -> Result<(), (Bundle, Vec<ReadLease>, Vec<Done>, NoMemory)> {
        self.desk.settle(bundle, back, calls)
    }

    fn set_mode(
        &mut self,
        ino: u32,
        mode: u16,
        back: Vec<ReadLease>,
        call: Option<Call>,
    ) -> Result<(), (Vec<ReadLease>, Option<Call>, ModeFault)> {
        self.desk.set_mode(ino, mode, back, call)
    }
}
