//! The turn of a library on its thread: at the desk of its seat, or at one whose releases go to a pool.

ghost use Rattle.std.specs.Prelude.{◌≡◌, ◌≤◌, ◌∷◌, ◌++◌, [], OnOk, Some, length, slice_get};
ghost use Rattle.trio_script.specs.Within.{LinesWithin};
ghost use Rattle.trio_shared.specs.Seats.{desk, origin};
ghost use Rattle.trio_runner.specs.Kinds.{Suits};
ghost use Rattle.trio_runner.specs.Rounds.{Ends, Turn, line_turns};
ghost use Rattle.trio_runner.specs.inner.Threads.{MayGoOn, Sits, TookAtSeat};

use crate::hand::Hand;
use crate::kinds::Kinds;
use crate::told::LibTold;
use std::alloc::Global;
use std::sync::Wait;
use trio_page::NoMemory;
use trio_script::Lines;
use trio_shared::{LibSeat, PoolDesk, SeatDesk, Shared, desk_is_left, others_leave};

/// Takes a library's turn of this number at its seat. What it releases to a pool with comes back.
pub(crate) fn turn_of<'a, K: Kinds, R: Wait>(
    rt: &R,
    alloc: Global,
    shared: &Shared,
    lines: &Lines,
    at: usize,
    seat: &mut LibSeat,
    hand: Option<Hand<'a>>,
    player: &mut K::Player,
    told: &mut LibTold,
) -> Result<Option<Hand<'a>>, NoMemory>
    requires few { length (origin shared.now).creds ≤ 16 }
    requires within { LinesWithin lines.now }
    requires suits { Suits lines.now (K.share player.old) }
    requires sits { Sits shared.now seat.old }
    requires may { MayGoOn (desk seat.old) (K.share player.old) }
    ensures turn { OnOk result ((turn : Turn) → slice_get (line_turns lines.now ++ Ends ∷ []) at ≡ Some turn
        → TookAtSeat shared.now turn seat.old (K.share player.old) told.old seat.new (K.share player.new) told.new) }
    ensures suits { OnOk result (Suits lines.now (K.share player.new)) }
{
    match hand {
        Some(hand) => {
            let hand = turn_with_pool::<K, _>(
                rt, alloc, shared, lines, at, seat, hand, player, told,
            )?;
            Ok(Some(hand))
        }
        None => {
            turn_at_seat::<K, _>(rt, alloc, shared, lines, at, seat, player, told)?;
            Ok(None)
        }
    }
}

/// Takes a library's turn of this number at its seat.
fn turn_at_seat<K: Kinds, R: Wait>(
    rt: &R,
    alloc: Global,
    shared: &Shared,
    lines: &Lines,
    at: usize,
    seat: &mut LibSeat,
    player: &mut K::Player,
    told: &mut LibTold,
) -> Result<(), NoMemory>
    requires within { LinesWithin lines.now }
    requires suits { Suits lines.now (K.share player.old) }
    requires sits { Sits shared.now seat.old }
    requires may { MayGoOn (desk seat.old) (K.share player.old) }
    ensures turn { OnOk result ((turn : Turn) → slice_get (line_turns lines.now ++ Ends ∷ []) at ≡ Some turn
        → TookAtSeat shared.now turn seat.old (K.share player.old) told.old seat.new (K.share player.new) told.new) }
    ensures suits { OnOk result (Suits lines.now (K.share player.new)) }
{
    desk_is_left();
    others_leave();
    let mut desk = SeatDesk::of(rt, shared, seat);
    K::turn(alloc, &mut desk, player, lines, at, told)
}

/// The same where workers of a pool judge what it releases.
fn turn_with_pool<'a, K: Kinds, R: Wait>(
    rt: &R,
    alloc: Global,
    shared: &Shared,
    lines: &Lines,
    at: usize,
    seat: &mut LibSeat,
    hand: Hand<'a>,
    player: &mut K::Player,
    told: &mut LibTold,
) -> Result<Hand<'a>, NoMemory>
    requires few { length (origin shared.now).creds ≤ 16 }
    requires within { LinesWithin lines.now }
    requires suits { Suits lines.now (K.share player.old) }
    requires sits { Sits shared.now seat.old }
    requires may { MayGoOn (desk seat.old) (K.share player.old) }
    ensures turn { OnOk result ((turn : Turn) → slice_get (line_turns lines.now ++ Ends ∷ []) at ≡ Some turn
        → TookAtSeat shared.now turn seat.old (K.share player.old) told.old seat.new (K.share player.new) told.new) }
    ensures suits { OnOk result (Suits lines.now (K.share player.new)) }
{
    desk_is_left();
    others_leave();
    let Hand {
        pool,
        mut pass,
        mails,
        mut mail,
    } = hand;
    let own = SeatDesk::of(rt, shared, seat);
    let mut desk = PoolDesk::of(own, pool, &mut pass, mails, &mut mail, alloc);
    K::turn(alloc, &mut desk, player, lines, at, told)?;
    Ok(Hand {
        pool,
        pass,
        mails,
        mail,
    })
}
