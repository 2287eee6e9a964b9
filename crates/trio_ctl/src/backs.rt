//! Read leases that are given back before a step.

ghost use Rattle.std.specs.Prelude.{◌≡◌, ◌++◌, ◌+◌, ◌≤◌, length};
ghost use Rattle.trio_lists.specs.Lists.{In};
ghost use Rattle.trio_lease.specs.Shown.{Shown};
ghost use Rattle.trio_state.specs.Kept.{Kept};
ghost use Rattle.trio_ctl.specs.Backs.{AreBack, all_back, back_entries};

use crate::registry::Registry;
use trio_lease::ReadLease;
use trio_log::Log;
use trio_nodes::Entry;
use trio_rights::LibNo;

/// Ends the read grants of these leases of a library, one after another, each with its entry in the
/// log, for which there is room. Takes no memory.
pub(crate) fn give_back_all(
    registry: &mut Registry,
    log: &mut Log,
    lib: LibNo,
    mut back: Vec<ReadLease>,
)
    requires entry { length log.old.entries ≡ registry.old.state.entries }
    requires given { AreBack registry.old.state lib back.items }
    requires whose { (f : Shown) → In f back.items → f.lib ≡ lib }
    requires room { length log.old.entries + registry.old.promised ≤ log.old.room }
    requires kept { Kept registry.old.state }
    ensures state { registry.new.state ≡ all_back registry.old.state lib back.items }
    ensures begun { registry.new.begun ≡ registry.old.begun }
    ensures promised { registry.new.promised + length back.items ≡ registry.old.promised }
    ensures looked { registry.new.looked ≡ registry.old.looked }
    ensures entry { length log.new.entries ≡ registry.new.state.entries }
    ensures log { log.new.entries ≡ log.old.entries ++ back_entries lib back.items }
    ensures room { log.new.room ≡ log.old.room }
    ensures kept { Kept registry.new.state }
{
    back.reverse();
    while let Some(lease) = back.pop() {
        let ino = lease.ino();
        registry.give_back(log.len(), lease);
        log.push(Entry::Back { lib, ino });
    }
    back.destroy_empty();
}
