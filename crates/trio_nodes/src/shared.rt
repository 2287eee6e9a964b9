//! Bytes that several values have in common.

ghost use Rattle.std.specs.Prelude.{◌≡◌, IfOk};

use std::alloc::{AllocError as NoMemory, Global};
use std::marker::Model;
use std::sync::ArcSlice;

/// Bytes that never change and that several values may have, of which each is seen as having them
/// whole. They are copied once, and stand until the last of those values goes. Any of them may be in
/// another thread.
///
/// Contracts see the list of the bytes. Where they are to change, or one value alone has them, a
/// [`Bytes`](crate::Bytes) has them.
#[derive(Drop)]
pub struct SharedBytes {
    bytes: ArcSlice<u8>,
}

impl Model for SharedBytes {
    ghost use Rattle.std.specs.Prelude.{List, ℕ};
    ghost use Rattle.std.specs.Arc.{arc_slice_items};

    ghost Value = { List ℕ };

    ghost view = { λ s. arc_slice_items s.bytes };
}

impl SharedBytes {
    /// A copy of these bytes.
    pub fn copied(alloc: Global, bytes: &[u8]) -> Result<SharedBytes, NoMemory>
        ensures { IfOk result (λ copy. copy ≡ bytes.now) }
    {
        Ok(SharedBytes {
            bytes: ArcSlice::from_slice(alloc, bytes)?,
        })
    }

    /// The bytes of a `Vec`, which are not copied.
    pub fn from_vec(bytes: Vec<u8>) -> Result<SharedBytes, NoMemory>
        ensures { IfOk result (λ shared. shared ≡ bytes.items) }
    {
        Ok(SharedBytes {
            bytes: ArcSlice::from_vec(bytes)?,
        })
    }

    /// The same bytes once more. Nothing is copied, and no memory is taken: the answer is
    /// [`NoMemory`] only where more values have the bytes than can be counted, 2^63 - 1 of them.
    pub fn share(&self) -> Result<SharedBytes, NoMemory>
        ensures { IfOk result (λ same. same ≡ self.now) }
    {
        Ok(SharedBytes {
            bytes: self.bytes.clone()?,
        })
    }

    /// The bytes as a slice.
    pub fn as_slice(&self) -> &[u8]
        ensures { result.now ≡ self.now }
    {
        self.bytes.as_slice()
    }
}
