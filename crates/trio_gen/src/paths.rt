//! The paths of the workload.

ghost use Rattle.std.specs.Prelude.{◌≡◌, List, ℕ, IfOk};
ghost use Rattle.trio_names.specs.Name.{IsName};
ghost use Rattle.trio_names.specs.Path.{IsPath};
ghost use Rattle.trio_gen.specs.Workload.{file_in, home, part_in};

use std::alloc::Global;
use trio_names::{Path, PathFault};
use trio_page::NoMemory;

/// The directory of a library: `/dK`.
pub fn home(alloc: Global, k: u32) -> Result<Path, NoMemory>
    ensures { IfOk result (λ path. path ≡ home k) }
{
    read(alloc, format!(in alloc; "/d{k}")?.as_bytes())
}

/// A directory in that of a library: `/dK/PART`.
pub fn part_in(alloc: Global, k: u32, part: &str) -> Result<Path, NoMemory>
    requires { IsName part.now }
    ensures { IfOk result (λ path. path ≡ part_in k part.now) }
{
    read(alloc, format!(in alloc; "/d{k}/{part}")?.as_bytes())
}

/// A file in it: `/dK/PART/fJ`.
pub fn file_in(alloc: Global, k: u32, part: &str, j: u32) -> Result<Path, NoMemory>
    requires { IsName part.now }
    ensures { IfOk result (λ path. path ≡ file_in k part.now j) }
{
    read(alloc, format!(in alloc; "/d{k}/{part}/f{j}")?.as_bytes())
}

/// The path that these bytes are.
fn read(alloc: Global, bytes: &[u8]) -> Result<Path, NoMemory>
    requires { (names : List (List ℕ)) × IsPath bytes.now names }
    ensures { (names : List (List ℕ)) → IsPath bytes.now names → IfOk result (λ path. path ≡ names) }
{
    match Path::read(alloc, bytes) {
        Ok(path) => Ok(path),
        Err(PathFault::NoMemory) => Err(NoMemory),
        Err(_) => unreachable!(),
    }
}
