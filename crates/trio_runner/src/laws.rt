//! The laws: the body of each function is empty, or calls the laws that it rests on, and its contract is the law.

ghost use Rattle.trio_runner.specs.History.{LegalIsHistory};
ghost use Rattle.trio_runner.specs.PlayLaws.{PlayedAlone, PlayedEndsFree, PlayedIsLogged, PlayedIsOne, PlayedIsPrinted, PlayedIsTrace, PlaysMore};
ghost use Rattle.trio_runner.specs.RunLaws.{OrderIsLogged, OrderIsOne, RanAlone, RanEndsFree, RanIsOrder, RanIsPrinted};

use trio_shared::{desk_is_left, others_leave};

/// What turns come to, and one turn more, is what all of them come to.
pub fn plays_more()
    ensures law { PlaysMore }
{}

/// All that a script asks of the controller is a run of it: each event hands in what was given.
pub fn played_is_trace()
    ensures law { PlayedIsTrace }
{}

/// At a script's end nothing is lent or out: no grant is open, and no page and no inode number is
/// out by allotment.
pub fn ends_free()
    ensures law { PlayedEndsFree }
{}

/// What the libraries are told, and the image that is settled at the end, are determined by the image at
/// the beginning and the script.
pub fn played_is_one()
    ensures law { PlayedIsOne }
{}

/// An honest library that is alone is never answered busy: in a script of one library, which is
/// honest, no line is.
pub fn played_alone()
    ensures law { PlayedAlone }
{}

/// The log at a script's end is the entries of all that the script asked, in its order; and what each
/// library was told prints its entries, each once and in their order: the answers of its lines but for
/// those that make no entry, and that of its end where it had more than read leases to give back. The
/// entries of an honest library tell the calls of its lines that weren't busy, each with the reply that
/// the line was told.
pub fn played_is_logged()
    ensures entries { PlayedIsLogged }
    ensures printed { PlayedIsPrinted }
{}

/// What the libraries of a script did, each on a thread of its own, comes from one order of their calls:
/// in it they happen one after another on one controller, from the image to its last state, make just
/// its log, and are a run of the controller.
pub fn ran_is_order()
    ensures law { RanIsOrder }
{}

/// The log is the entries of the moves of that order, one after another.
pub fn order_is_logged()
    ensures law { OrderIsLogged }
{}

/// Two runs, in whose orders the libraries call in the same sequence and the honest ones ask the same,
/// settle the same image at their ends, and each library is told the same in both.
pub fn order_is_one()
    ensures law { OrderIsOne }
{
    desk_is_left();
    others_leave();
}

/// Where each library runs on a thread of its own, what it was told prints its entries too, each once
/// and in their order.
pub fn ran_is_printed()
    ensures law { RanIsPrinted }
{}

/// An honest library that is alone is never answered busy there either.
pub fn ran_alone()
    ensures law { RanAlone }
{}

/// And at the end nothing is lent or out.
pub fn ran_ends_free()
    ensures law { RanEndsFree }
{
    desk_is_left();
    others_leave();
}

/// Where a legal log tells no release of a raw library and no change of mode without a call, its calls
/// in order are a history of the tree on one thread, from its first nodes to its last.
pub fn legal_is_history()
    ensures law { LegalIsHistory }
{}
