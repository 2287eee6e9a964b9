//! A bundle as its judge sees it, what its files say, and what it proposes.
//!
//! - A [`Case`] is a bundle with all that the rules ask of it: the rows of its files, the library's
//!   credentials, the core range and the number of inode numbers. No page of the image is in it but
//!   the bundle's own. It is made in a [`CaseMemory`], which can be made before there is a bundle.
//! - A [`PageRoom`] is the memory of what is read of a case ([`read_file`]). In it stands what the
//!   bundle's pages say, so that none is looked at more than once as a directory block, and once as
//!   an index page.
//! - A [`Listing`] is what a bundle proposes, without its pages.
//! - A [`PageIndex`] finds a page of the bundle by its number.
//! - A [`BundleSize`] says how much a bundle has. Memory goes by it.
#![tactic(auto)]

mod case;
mod chain;
mod entries;
mod file;
mod index;
mod kept;
mod listing;
mod memory;
mod names;
mod number_set;
mod numbered;
mod numbers;
mod places;
mod room;
mod size;

pub use case::Case;
pub use chain::read_chain;
pub use entries::DirEntry;
pub use file::read_file;
pub use index::{INDEXED_PAGE_BYTES, PageIndex};
pub use listing::{
    LISTED_BYTES, LISTED_NUMBER_BYTES, ListedEntry, ListedFile, Listing, ListingRoom,
};
pub use memory::{CASE_BYTES, CaseMemory};
pub use room::{PageRoom, READ_CORE_BYTES, READ_PAGE_BYTES};
pub use size::{BundleSize, BytesEach, table_size};
