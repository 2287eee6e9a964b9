//! The laws of what is known of a state: the body of each function is empty, and its contract is the
//! law.

ghost use Rattle.trio_laws.specs.Known.{KnownDecides, SameEventSameAnswer, StepsAreKnown};

/// What is known before a step, the event and its answer determine what is known after it.
pub fn steps_are_known()
    ensures law { StepsAreKnown }
{}

/// What a step asks of a state goes by what is known of it: why a grant is refused, what it lends,
/// what is free, which hold is parted.
pub fn known_decides()
    ensures law { KnownDecides }
{}

/// From two states of which the same is known, an event has the same answer, where memory is there,
/// but for the place that a refusal names, and the same is known afterwards.
pub fn same_event_same_answer()
    ensures law { SameEventSameAnswer }
{}
