//! The memory of a case.

ghost use Rattle.std.specs.Prelude.{IfOk};
ghost use Rattle.trio_case.specs.Memory.{IsCaseMemory};

use crate::numbers::{FILE_BYTES, NUMBERS_BYTES, NumbersMemory, ROW_BYTES, RowsMemory};
use crate::size::{BundleSize, BytesEach};
use std::alloc::Global;
use trio_page::NoMemory;

/// How many bytes the memory of a case takes.
pub const CASE_BYTES: BytesEach = BytesEach {
    page: 16 * ROW_BYTES,
    value: NUMBERS_BYTES + FILE_BYTES,
};

/// All the memory of a case, by how much its bundle may have. It can be made before there is a bundle.
#[derive(Drop)]
pub struct CaseMemory {
    pub(crate) numbers: NumbersMemory,
    pub(crate) rows: RowsMemory,
}

impl CaseMemory {
    /// Memory for the case of any bundle of at most this size.
    pub fn with(alloc: Global, size: BundleSize) -> Result<CaseMemory, NoMemory>
        ensures { IfOk result (IsCaseMemory size) }
    {
        Ok(CaseMemory {
            numbers: NumbersMemory::with(alloc, size)?,
            rows: RowsMemory::with(alloc, size)?,
        })
    }
}
