//! Holds.

ghost use Rattle.std.specs.Prelude.{◌≡◌, ◌+◌, ◌≤◌, IfOk, None, Some, if◌then◌else◌};
ghost use Rattle.trio_layout.specs.Image.{row_at};
ghost use Rattle.trio_nodes.specs.declared.answers.GrantFault.TheVariants.{NoParent as NoParentGrant};
ghost use Rattle.trio_nodes.specs.declared.grant.GrantKind.TheVariants.{Hold};
ghost use Rattle.trio_tables.specs.Row.{as_row};
ghost use Rattle.trio_state.specs.Grants.{has_parent_grant, opened};
ghost use Rattle.trio_state.specs.Step.{Grant, Step};
ghost use Rattle.trio_ctl.specs.Answers.{grant_answer};
ghost use Rattle.trio_ctl.specs.Ctl.{IsLibrary};
ghost use Rattle.trio_open.specs.Open.{lent_by};
ghost use Rattle.trio_ctl.specs.inner.Denials.{denial};

use crate::grant::admit;
use crate::registry::Registry;
use crate::settled::settled_body;
use trio_lease::{HoldLease, HoldParts, Lease};
use trio_nodes::{GrantFault, GrantKind};
use trio_open::open::{Lent, OpenFile};
use trio_rights::LibNo;
use trio_tables::Row;

impl Registry {
    // why a file that has this row isn't held: the library has no write grant on its directory
    pub(crate) fn parentless(&self, lib: LibNo, row: &Row) -> Option<GrantFault>
        ensures { result ≡ (if has_parent_grant self.now.state lib.0 (Some (as_row row.now)) then None else Some NoParentGrant) }
    {
        if self.grants.has(lib, row.parent, GrantKind::Write) {
            None
        } else {
            Some(GrantFault::NoParent)
        }
    }

    // holds a file that has this row, and whose directory the library writes
    pub(crate) fn lend_hold(
        &mut self,
        entry: u64,
        lib: LibNo,
        ino: u32,
        row: &Row,
    ) -> Result<Lease, GrantFault>
        requires entry { entry ≡ self.old.state.entries }
        requires library { IsLibrary lib self.old.state }
        requires live { row_at self.old.state.home ino ≡ Some (as_row row.now) }
        requires may { denial self.old.state lib.0 ino Hold ≡ None }
        ensures step { Step self.old.state (Grant lib.0 ino Hold) (grant_answer result) self.new.state }
        ensures lease { IfOk result (λ lease. lease
            ≡ lent_by (opened self.old.state lib.0 ino Hold (as_row row.now))) }
        ensures begun { self.new.begun ≡ self.old.begun }
        ensures promised { self.new.promised ≡ self.old.promised }
        ensures floor { self.old.looked ≤ self.new.looked }
    {
        let Ok(()) = self.history.make_room(entry, 1) else {
            return Err(GrantFault::NoMemory);
        };
        let Ok(()) = self.files.reserve(1) else {
            return Err(GrantFault::NoMemory);
        };
        let key = match admit(&mut self.grants, lib, ino, GrantKind::Hold, entry) {
            Ok(key) => key,
            Err(fault) => return Err(fault),
        };
        let parts = HoldParts {
            lib,
            ino,
            kind: row.kind,
            entry,
            parent: row.parent,
            body: settled_body(&mut self.store, ino, row),
            children: self.store.rows.children(ino),
        };
        let lent = Lent::Hold(copied(&parts));
        self.files.push_reserved(OpenFile::of(key, lent, lib, ino));
        self.history.enter(entry);
        Ok(Lease::Hold(HoldLease::of(parts)))
    }
}

/// The same parts, to be kept.
fn copied(parts: &HoldParts) -> HoldParts
    ensures { result ≡ parts.now }
{
    HoldParts {
        lib: parts.lib,
        ino: parts.ino,
        kind: parts.kind,
        entry: parts.entry,
        parent: parts.parent,
        body: parts.body,
        children: parts.children,
    }
}
