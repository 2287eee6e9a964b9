//! The table and its first token.

ghost use Rattle.std.specs.Prelude.{◌≡◌, [], IfOk, IfErr};
ghost use Rattle.trio_turn.specs.inner.Steps.{starting};

use crate::logged::Logged;
use crate::rule::{About, TicketTable, Token};
use atomic_table::{Refused, Table};
use std::alloc::{AllocError as NoMemory, AllocFailed, Global};
use std::snapshot::Snapshot;

// The table with the value in its slot, and the token with every library.
pub(crate) fn set_up<T: Logged>(
    alloc: Global,
    value: T,
    n: u32,
) -> Result<(TicketTable<T>, Token<T>), (T, NoMemory)>
    requires empty { T.log value ≡ [] }
    ensures table { IfOk result (λ r. (r.0.shared.table_id.words ≡ 3) × (r.0.shared.table_id.slots ≡ 1) × (r.0.shared.key.libraries ≡ n)) }
    ensures value { IfOk result (λ r. r.0.shared.key.value.value ≡ value) }
    ensures token { IfOk result (λ r. (r.1.table_id ≡ r.0.shared.table_id) × (r.1.me ≡ (starting T.first T.log T.begun n value, []))) }
    ensures err { IfErr result (λ e. e.0 ≡ value) }
{
    let about = About {
        value: Snapshot::of(&value),
        libraries: n,
    };
    let mut slots = Vec::new(alloc);
    if let Err(failed) = slots.push(Some(value)) {
        slots.destroy_empty();
        let AllocFailed { value: Some(value) } = failed else {
            unreachable!()
        };
        return Err((value, NoMemory));
    }
    match Table::new(alloc, &[0, 0, 0], slots, &about) {
        Ok(made) => Ok(made),
        Err(Refused { mut slots }) => {
            let Some(Some(value)) = slots.pop() else {
                unreachable!()
            };
            slots.destroy_empty();
            Err((value, NoMemory))
        }
    }
}
