use std::alloc::Global;
use trio_image::{Counts, MakeFault, make};
use trio_samples::Sample;
use trio_samples::files::root;

// A new image of 32 pages and 64 inode numbers has the bytes of the same one laid out otherwise.
fn is_an_empty_root(alloc: Global) -> Option<bool> {
    let image = make(alloc, 32, 64).ok()?;
    let counts = Counts {
        inodes: 1,
        pages: 0,
        free: 29,
    };
    let is_counted = image.counts() == counts;
    let bytes = image.into_bytes(alloc).ok()?;
    let sample = Sample::small(alloc, &[root()]).ok()?.bytes(alloc).ok()?;
    Some(is_counted && bytes.as_slice() == sample.as_slice())
}

#[test]
fn a_new_image_has_an_empty_root(rt: HostRuntime) {
    assert!(rt; is_an_empty_root(rt.alloc()) == Some(true));
}

// how many core pages a new image of these sizes has
fn free(alloc: Global, pages: u32, inodes: u32) -> Result<u32, MakeFault> {
    Ok(make(alloc, pages, inodes)?.counts().free)
}

// Sizes at their limits, and how many core pages there are.
const SIZES: &[(u32, u32, Result<u32, MakeFault>)] = &[
    (15, 16, Err(MakeFault::BadSize)),
    (16, 15, Err(MakeFault::BadSize)),
    (16, 16, Ok(13)),
    (8192, 16, Ok(8182)),
    (8193, 16, Err(MakeFault::BadSize)),
    (8192, 2048, Ok(8167)),
    (8192, 16_384, Ok(8055)),
    (8192, 16_385, Err(MakeFault::BadSize)),
    (130, 16_384, Err(MakeFault::BadSize)),
    (131, 16_384, Ok(1)),
    (16, 16_384, Err(MakeFault::BadSize)),
    (u32::MAX, u32::MAX, Err(MakeFault::BadSize)),
    (0, 0, Err(MakeFault::BadSize)),
];

#[test]
fn sizes_have_limits(rt: HostRuntime) {
    for (i, (pages, inodes, wanted)) in SIZES.iter().enumerate() {
        assert!(rt; free(rt.alloc(), *pages, *inodes) == *wanted, "row {i}");
    }
}
