//! The controllers that start with an image.

ghost use Rattle.std.specs.Prelude.{◌≡◌, ◌≤◌, [], IfSome, vec_len};
ghost use Rattle.trio_state.specs.Kept.{Kept};
ghost use Rattle.trio_state.specs.Run.{start};
ghost use Rattle.trio_ctl.specs.Ctl.{NoneBegun};

use std::alloc::Global;
use trio_ctl::Ctl;
use trio_image::Image;
use trio_rights::Creds;

/// The controller of an image, as [`Ctl::start`] gives it. `None` where memory is wanting.
pub fn started(alloc: Global, image: Image, libs: Vec<Creds>) -> Option<Ctl>
    requires some { 1 ≤ vec_len libs }
    requires few { vec_len libs ≤ 16 }
    ensures started { IfSome result (λ ctl. ctl.state ≡ start ctl.state.home libs.items) }
    ensures log { IfSome result (λ ctl. ctl.log ≡ []) }
    ensures kept { IfSome result (λ ctl. Kept ctl.state) }
    ensures idle { IfSome result NoneBegun }
{
    match Ctl::start(alloc, image, libs) {
        Ok(ctl) => Some(ctl),
        Err(_back) => None,
    }
}
