//! The controllers that start with a few files.

ghost use Rattle.std.specs.Prelude.{◌≡◌, ◌≤◌, [], IfSome, vec_len};
ghost use Rattle.trio_state.specs.Kept.{Kept};
ghost use Rattle.trio_state.specs.Run.{start};
ghost use Rattle.trio_ctl.specs.Ctl.{NoneBegun};

use std::alloc::Global;
use trio_bench_common::image_of;
use trio_ctl::Ctl;
use trio_rights::Creds;
use trio_samples::SampleFile;

/// The controller of an image with these files, as [`Ctl::start`] gives it. `None` where memory is
/// wanting.
pub fn started(alloc: Global, files: &[SampleFile], libs: Vec<Creds>) -> Option<Ctl>
    requires some { 1 ≤ vec_len libs }
    requires few { vec_len libs ≤ 16 }
    ensures started { IfSome result (λ ctl. ctl.state ≡ start ctl.state.home libs.items) }
    ensures first { IfSome result (λ ctl. ctl.first ≡ ctl.state.home) }
    ensures log { IfSome result (λ ctl. ctl.log ≡ []) }
    ensures kept { IfSome result (λ ctl. Kept ctl.state) }
    ensures idle { IfSome result NoneBegun }
{
    let image = image_of(alloc, files)?;
    match Ctl::start(alloc, image, libs) {
        Ok(ctl) => Some(ctl),
        Err(_back) => None,
    }
}
