//! Read leases that are given back.

ghost use Rattle.std.specs.Prelude.{◌≡◌, []};
ghost use Rattle.trio_desk.specs.Calls.{Calls};
ghost use Rattle.trio_raw.specs.Asked.{back_calls};
ghost use Rattle.trio_raw.specs.Has.{OnList, with_reads};

use crate::things::Things;
use trio_desk::Desk;

/// Gives each read lease back, the last one first.
pub(crate) fn give_all_back<D: Desk>(things: &mut Things, desk: &mut D)
    requires { OnList (D.seen desk.old).out things.old.has }
    ensures calls { Calls D.called desk.old (back_calls things.old.has.reads) desk.new }
    ensures left { things.new.has ≡ with_reads things.old.has [] }
    ensures stands { OnList (D.seen desk.new).out things.new.has }
    ensures holds { (D.seen desk.new).out.holds ≡ (D.seen desk.old).out.holds }
    ensures lib { (D.seen desk.new).lib ≡ (D.seen desk.old).lib }
{
    while let Some(lease) = things.last_read() {
        desk.give_back(lease);
    }
}
