//! The shared controller as a type.

ghost use Rattle.std.specs.Prelude.{◌≡◌};
ghost use Rattle.trio_desk.specs.Contents.{AreWithinLimits};
ghost use Rattle.trio_laws.specs.session.Lent.{sizes_of};
ghost use Rattle.trio_turn.specs.Seats.{first_value};
ghost use Rattle.trio_shared.specs.Left.{origin_of, started};

use crate::held::Held;
use trio_rights::Creds;
use trio_turn::Turn;

/// A controller that libraries reach from several threads: each call of a seat is a turn, in which
/// nobody else has the controller, and a release is two.
///
/// What is asked of a seat is that it came from the start of this very controller.
#[derive(Drop)]
pub struct Shared {
    pub(crate) turn: Turn<Held>,
    // the credentials of library n, counted from 1, are the n-th
    pub(crate) libs: Vec<Creds>,
    pub ghost libs_are: { libs.items ≡ (origin_of (first_value turn)).creds },
    pub ghost limits: { AreWithinLimits (sizes_of (started (origin_of (first_value turn)))) },
}
