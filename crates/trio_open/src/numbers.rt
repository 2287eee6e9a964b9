//! The numbers that an allotment gave, as the log tells them.

ghost use Rattle.std.specs.Prelude.{◌≡◌, ◌≤◌, [], IfOk, length, vec_capacity};
ghost use Rattle.trio_allot.specs.Out.{inode_numbers, page_numbers};
ghost use Rattle.trio_open.specs.inner.Numbers.{HasRoomFor};

use std::alloc::Global;
use trio_lease::{Allotted, FreshIno, FreshPage};
use trio_nodes::{AllotAnswer, List};
use trio_page::NoMemory;

/// Lists for the numbers of an allotment, made before it is.
#[derive(Drop)]
pub struct Numbers {
    /// The numbers of the pages.
    pub pages: Vec<u32>,
    /// The inode numbers.
    pub inodes: Vec<u32>,
}

impl Numbers {
    /// Empty lists with room for so many pages and inode numbers.
    pub fn with(alloc: Global, pages: u32, inodes: u32) -> Result<Numbers, NoMemory>
        ensures { IfOk result (HasRoomFor pages inodes) }
    {
        Ok(Numbers {
            pages: Vec::with_capacity(alloc, pages as usize)?,
            inodes: Vec::with_capacity(alloc, inodes as usize)?,
        })
    }

    /// The answer of an allotment that has no more than there is room for. Takes no memory.
    pub fn of(self, given: &Allotted) -> AllotAnswer
        requires { HasRoomFor (length given.now.pages.items) (length given.now.inodes.items) self }
        ensures { result ≡ AllotAnswer.Given (page_numbers given.now.pages.items) (inode_numbers given.now.inodes.items) }
    {
        let Numbers {
            mut pages,
            mut inodes,
        } = self;
        add_pages(&mut pages, &given.pages);
        add_inodes(&mut inodes, &given.inodes);
        AllotAnswer::Given {
            pages: List::from_vec(pages),
            inodes: List::from_vec(inodes),
        }
    }
}

// the numbers of these pages, in a list that is empty and has room for them
fn add_pages(numbers: &mut Vec<u32>, pages: &[FreshPage])
    requires empty { numbers.old.items ≡ [] }
    requires room { length pages.now ≤ vec_capacity numbers.old }
    ensures { numbers.new.items ≡ page_numbers pages.now }
{
    for page in pages {
        numbers.push_reserved(page.no().0);
    }
}

// the same of inode numbers
fn add_inodes(numbers: &mut Vec<u32>, inodes: &[FreshIno])
    requires empty { numbers.old.items ≡ [] }
    requires room { length inodes.now ≤ vec_capacity numbers.old }
    ensures { numbers.new.items ≡ inode_numbers inodes.now }
{
    for inode in inodes {
        numbers.push_reserved(inode.no());
    }
}
