//! What lent values are made of.

ghost use Rattle.std.specs.Prelude.{◌≡◌, length};

use trio_page::{Page, PageNo};
use trio_rights::{Kind, LibNo};

/// A page of a lent file.
#[derive(Drop)]
pub struct LentPage {
    /// The page's number in the image.
    pub no: PageNo,
    pub page: Page,
    /// Whether its holder has asked for the page for writing ([`WriteLease::block_mut`],
    /// [`Bundle::page_mut`]). No index page is ever marked.
    ///
    /// [`WriteLease::block_mut`]: crate::WriteLease::block_mut
    /// [`Bundle::page_mut`]: crate::Bundle::page_mut
    pub touched: bool,
}

/// What a [`WriteLease`](crate::WriteLease) is made of.
#[derive(Drop)]
pub struct WriteParts {
    /// The library that the file is lent to.
    pub lib: LibNo,
    /// The file's inode number.
    pub ino: u32,
    pub kind: Kind,
    /// The number of the entry of the history that opened the grant, counted from 0.
    pub entry: u64,
    /// The 64 bytes of the file's body.
    pub body: [u8; 64],
    /// The file's index pages, in the order of their chain.
    pub index: Vec<LentPage>,
    /// The pages that the index pages list, in their order.
    pub blocks: Vec<LentPage>,
}

/// What a [`ReadLease`](crate::ReadLease) is made of.
pub type ReadParts = WriteParts;

/// What a [`HoldLease`](crate::HoldLease) is made of.
#[derive(Drop)]
pub struct HoldParts {
    /// The library that has the hold.
    pub lib: LibNo,
    /// The held file's inode number.
    pub ino: u32,
    pub kind: Kind,
    /// The number of the entry of the history that opened the grant, counted from 0.
    pub entry: u64,
    /// The inode number of the directory that lists the file.
    pub parent: u32,
    /// The 64 bytes of the file's body.
    pub body: [u8; 64],
    /// How many entries a held directory has; 0 for a regular file.
    pub children: u32,
}

/// What a [`FreshPage`](crate::FreshPage) is made of.
#[derive(Drop)]
pub struct FreshParts {
    /// The library that the page is allotted to.
    pub lib: LibNo,
    /// The page's number in the image.
    pub no: PageNo,
    pub page: Page,
}

/// What a [`FreshIno`](crate::FreshIno) is made of.
#[derive(Drop)]
pub struct InoParts {
    /// The library that the inode number is allotted to.
    pub lib: LibNo,
    /// The inode number.
    pub no: u32,
}

// The body itself. Reading its length as a slice tells a contract that it has 64 bytes.
pub(crate) fn whole(body: &[u8; 64]) -> &[u8; 64]
    ensures body { result.now ≡ body.now }
    ensures len { length body.now ≡ 64 }
{
    let bytes: &[u8] = body;
    let _size = bytes.len();
    body
}
