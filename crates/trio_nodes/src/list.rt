//! Lists that contracts see as lists, so that a value that has them is plain data in a clause.

ghost use Rattle.std.specs.Prelude.{◌≡◌, [], IfOk, OnOk, OnErr};
ghost use Rattle.std.specs.Cmp.Lexicographic.{pointwise, lists_equiv, lists_per};
ghost use Rattle.trio_nodes.specs.Apply.{resized};
ghost use Rattle.trio_nodes.specs.After.{put_within};

use std::alloc::{AllocError as NoMemory, Global};
use std::marker::Model;

/// Bytes in order, of one owner, who may change them. [`SharedBytes`](crate::SharedBytes) never change.
pub type Bytes = List<u8>;

/// A `Vec` that contracts see as the list of its items.
#[derive(Debug, Drop)]
pub struct List<T> {
    items: Vec<T>,
}

impl<T> Model for List<T> {
    ghost use Rattle.std.specs.Prelude.{List};
    ghost use Rattle.std.specs.Coded.{coded_list};

    ghost Value = { List T };

    ghost coded = { coded_list T.code };

    ghost view = { λ l. l.items.items };
}

impl<T> List<T> {
    /// No items. It takes no memory.
    pub fn new(alloc: Global) -> List<T>
        ensures { result ≡ [] }
    {
        List {
            items: Vec::new(alloc),
        }
    }

    /// The items of a `Vec`.
    pub fn from_vec(items: Vec<T>) -> List<T>
        ensures { result ≡ items.items }
    {
        List { items }
    }

    /// The items as a slice.
    pub fn as_slice(&self) -> &[T]
        ensures { result.now ≡ self.now }
    {
        self.items.as_slice()
    }
}

impl List<u8> {
    /// A copy of these bytes.
    pub fn copied(alloc: Global, bytes: &[u8]) -> Result<Bytes, NoMemory>
        ensures { IfOk result (λ copy. copy ≡ bytes.now) }
    {
        Ok(List {
            items: Vec::from_slice(alloc, bytes)?,
        })
    }

    /// Cuts the bytes to this size, or grows them by zeros. After `NoMemory` they are unchanged.
    pub fn resize(&mut self, size: u64) -> Result<(), NoMemory>
        ensures resized { OnOk result (self.new ≡ resized size self.old) }
        ensures kept { OnErr result (self.new ≡ self.old) }
    {
        self.items.resize(size as usize, 0)
    }

    /// Puts a block in place of the bytes from a position on, as far as there are bytes.
    pub fn put_within(&mut self, at: u64, block: &[u8])
        ensures { self.new ≡ put_within at block.now self.old }
    {
        put_block(&mut self.items, at as usize, block);
    }
}

fn put_block(bytes: &mut [u8], at: usize, block: &[u8])
    ensures { bytes.new ≡ put_within at block.now bytes.old }
{
    if at < bytes.len() {
        let count = block.len().min(bytes.len() - at);
        bytes[at..at + count].copy_from_slice(&block[..count]);
    }
}

impl<T: PartialEq> PartialEq for List<T> {
    ghost eq = { pointwise T.eq };

    ghost laws = { lists_per T.laws };

    fn eq(&self, other: &List<T>) -> bool {
        self.as_slice() == other.as_slice()
    }
}

impl<T: Eq> Eq for List<T> {
    ghost laws = { lists_equiv T.Eq.laws };
}
