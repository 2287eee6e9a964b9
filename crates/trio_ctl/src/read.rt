//! Read grants: lending copies of a file, and their end.

ghost use Rattle.std.specs.Prelude.{◌≡◌, ◌+◌, ◌≤◌, IfOk, None, OnErr, Some};
ghost use Rattle.trio_layout.specs.Image.{row_at};
ghost use Rattle.trio_nodes.specs.declared.grant.GrantKind.TheVariants.{Read};
ghost use Rattle.trio_tables.specs.Row.{as_row};
ghost use Rattle.trio_state.specs.Grants.{opened};
ghost use Rattle.trio_state.specs.Step.{Grant, Step};
ghost use Rattle.trio_ctl.specs.Answers.{grant_answer};
ghost use Rattle.trio_ctl.specs.Ctl.{IsLibrary};
ghost use Rattle.trio_open.specs.Open.{lent_by};
ghost use Rattle.trio_ctl.specs.inner.Denials.{denial};

use crate::grant::admit;
use crate::registry::Registry;
use crate::settled::settled_body;
use trio_lease::Lease;
use trio_nodes::{GrantFault, GrantKind};
use trio_open::lend::GrantRequest;
use trio_open::read::copied_file;
use trio_page::NoMemory;
use trio_rights::LibNo;
use trio_tables::Row;

impl Registry {
    // lends copies of a file that has this row and isn't denied for reading
    pub(crate) fn lend_copies(
        &mut self,
        entry: u64,
        lib: LibNo,
        ino: u32,
        row: &Row,
    ) -> Result<Lease, GrantFault>
        requires entry { entry ≡ self.old.state.entries }
        requires library { IsLibrary lib self.old.state }
        requires live { row_at self.old.state.home ino ≡ Some (as_row row.now) }
        requires may { denial self.old.state lib.0 ino Read ≡ None }
        ensures step { Step self.old.state (Grant lib.0 ino Read) (grant_answer result) self.new.state }
        ensures lease { IfOk result (λ lease. lease
            ≡ lent_by (opened self.old.state lib.0 ino Read (as_row row.now))) }
        ensures begun { self.new.begun ≡ self.old.begun }
        ensures promised { self.new.promised ≤ self.old.promised + 1 }
        ensures unpromised { OnErr result (self.new.promised ≡ self.old.promised) }
        ensures floor { self.old.looked ≤ self.new.looked }
    {
        let range = self.range();
        // for the entry of the grant, and for that of its end
        let Ok(()) = self.history.make_room(entry, 2) else {
            return Err(GrantFault::NoMemory);
        };
        let Ok(()) = self.files.reserve(1) else {
            return Err(GrantFault::NoMemory);
        };
        let key = match admit(&mut self.grants, lib, ino, GrantKind::Read, entry) {
            Ok(key) => key,
            Err(fault) => return Err(fault),
        };
        let asked = GrantRequest {
            lib,
            ino,
            kind: row.kind,
            entry,
            body: settled_body(&mut self.store, ino, row),
        };
        match copied_file(self.alloc, &mut self.store.home, range, &asked, key) {
            Ok(copy) => {
                let (file, lease) = copy;
                self.files.push_reserved(file);
                self.history.enter_with_promise(entry);
                Ok(Lease::Read(lease))
            }
            Err(NoMemory) => {
                self.grants.end(key);
                Err(GrantFault::NoMemory)
            }
        }
    }
}
