//! The cell as a type.

ghost use Rattle.std.specs.Prelude.{◌≡◌, ◌<◌};

use crate::logged::Logged;
use crate::rule::TicketTable;

/// A cell for one value that the seats of libraries take in turn, by tickets.
#[derive(Drop)]
pub struct Turn<T: Logged> {
    pub(crate) table: TicketTable<T>,
    pub ghost wide: { (table.shared.table_id.words ≡ 3) × (table.shared.table_id.slots ≡ 1) },
    pub ghost seated: { 0 < table.shared.key.libraries },
}
