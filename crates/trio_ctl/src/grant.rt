//! Grants.

ghost use Rattle.std.specs.Prelude.{◌≡◌, ◌+◌, ◌≤◌, ◌⊎◌, ◌++◌, ◌∷◌, [], IfOk, OnErr, None, Some};
ghost use Rattle.std.specs.Option.{IsSomeAnd, option_map};
ghost use Rattle.trio_rights.specs.May.{denier};
ghost use Rattle.trio_nodes.specs.declared.grant.GrantKind.TheVariants.{Write};
ghost use Rattle.trio_nodes.specs.declared.answers.GrantFault.TheVariants.{Denied as DeniedBy, NoMemory as NoGrantMemory};
ghost use Rattle.trio_tables.specs.Row.{as_row};
ghost use Rattle.trio_grants.specs.Grants.{AllBelow, HasKey, excludes, grant_under, without};
ghost use Rattle.trio_layout.specs.Image.{row_at};
ghost use Rattle.trio_state.specs.Grants.{opened};
ghost use Rattle.trio_state.specs.Kept.{Kept};
ghost use Rattle.trio_state.specs.State.{creds_of, logged};
ghost use Rattle.trio_state.specs.Step.{Grant, Step};
ghost use Rattle.trio_ctl.specs.Answers.{grant_answer, Admits};
ghost use Rattle.trio_ctl.specs.Ctl.{IsLibrary};
ghost use Rattle.trio_open.specs.Open.{lent_by};
ghost use Rattle.trio_ctl.specs.inner.Denials.{denial};

use crate::registry::Registry;
use crate::settled::settled_body;
use trio_grants::{AdmitFault, GrantKey, GrantTable};
use trio_lease::Lease;
use trio_nodes::{GrantFault, GrantKind};
use trio_open::lend::{GrantRequest, Loan, lend};
use trio_page::NoMemory;
use trio_rights::{LibNo, Need};
use trio_tables::Row;

impl Registry {
    /// Grants a live file to a library, as [`Ctl::grant`](crate::Ctl::grant) says.
    pub fn grant(
        &mut self,
        entry: u64,
        lib: LibNo,
        ino: u32,
        kind: GrantKind,
    ) -> Result<Lease, GrantFault>
        requires entry { entry ≡ self.old.state.entries }
        requires library { IsLibrary lib self.old.state }
        ensures step { Step self.old.state (Grant lib.0 ino kind) (grant_answer result) self.new.state }
        ensures lease { IfOk result (λ lease. IsSomeAnd (row_at self.old.state.home ino)
            (λ r. lease ≡ lent_by (opened self.old.state lib.0 ino kind r))) }
        ensures was_kept { Kept self.old.state }
        ensures kept { Kept self.new.state }
        ensures begun { self.new.begun ≡ self.old.begun }
        ensures promised { self.new.promised ≤ self.old.promised + 1 }
        ensures unpromised { OnErr result (self.new.promised ≡ self.old.promised) }
        ensures floor { self.old.looked ≤ self.new.looked }
    {
        let Some(row) = self.store.rows.row(ino) else {
            return Err(self.log_refusal(entry, GrantFault::NotLive));
        };
        if let Some(fault) = self.denial(lib, ino, kind, &row) {
            return Err(self.log_refusal(entry, fault));
        }
        match kind {
            GrantKind::Read => self.lend_copies(entry, lib, ino, &row),
            GrantKind::Write => self.lend_file(entry, lib, ino, &row),
            GrantKind::Hold => self.lend_hold(entry, lib, ino, &row),
        }
    }

    // why a live file that has this row isn't granted, whatever grants are open on it
    fn denial(&self, lib: LibNo, ino: u32, kind: GrantKind, row: &Row) -> Option<GrantFault>
        requires library { IsLibrary lib self.now.state }
        requires live { row_at self.now.state.home ino ≡ Some (as_row row.now) }
        ensures { result ≡ denial self.now.state lib.0 ino kind }
    {
        match kind {
            GrantKind::Read => self.denied(lib, ino, Need::Read),
            GrantKind::Write => self.denied(lib, ino, Need::Write),
            GrantKind::Hold => self.parentless(lib, row),
        }
    }

    // the first number on the way from the root that denies a library what it needs of a file
    fn denied(&self, lib: LibNo, ino: u32, need: Need) -> Option<GrantFault>
        requires library { IsLibrary lib self.now.state }
        ensures { result ≡ option_map DeniedBy (denier self.now.state.home.rows (creds_of self.now.state lib.0) ino need) }
    {
        match self.store.rows.may(self.creds(lib), ino, need) {
            Ok(()) => None,
            Err(denier) => Some(GrantFault::Denied(denier)),
        }
    }

    // one entry more in the history, for a refusal; or want of memory for it
    fn log_refusal(&mut self, entry: u64, fault: GrantFault) -> GrantFault
        requires { entry ≡ self.old.state.entries }
        ensures answer { ((result ≡ fault) × (self.new.state ≡ logged self.old.state)) ⊎ ((result ≡ NoGrantMemory) × (self.new.state ≡ self.old.state)) }
        ensures begun { self.new.begun ≡ self.old.begun }
        ensures promised { self.new.promised ≡ self.old.promised }
        ensures looked { self.new.looked ≡ self.old.looked }
    {
        if let Err(NoMemory) = self.history.make_room(entry, 1) {
            return GrantFault::NoMemory;
        }
        self.history.enter(entry);
        fault
    }

    // lends a file that has this row and isn't denied for writing
    fn lend_file(
        &mut self,
        entry: u64,
        lib: LibNo,
        ino: u32,
        row: &Row,
    ) -> Result<Lease, GrantFault>
        requires entry { entry ≡ self.old.state.entries }
        requires library { IsLibrary lib self.old.state }
        requires live { row_at self.old.state.home ino ≡ Some (as_row row.now) }
        requires may { denial self.old.state lib.0 ino Write ≡ None }
        ensures step { Step self.old.state (Grant lib.0 ino Write) (grant_answer result) self.new.state }
        ensures lease { IfOk result (λ lease. lease
            ≡ lent_by (opened self.old.state lib.0 ino Write (as_row row.now))) }
        ensures begun { self.new.begun ≡ self.old.begun }
        ensures promised { self.new.promised ≡ self.old.promised }
        ensures floor { self.old.looked ≤ self.new.looked }
    {
        let range = self.range();
        let Ok(()) = self.history.make_room(entry, 1) else {
            return Err(GrantFault::NoMemory);
        };
        let Ok(()) = self.files.reserve(1) else {
            return Err(GrantFault::NoMemory);
        };
        let key = match admit(&mut self.grants, lib, ino, GrantKind::Write, entry) {
            Ok(key) => key,
            Err(fault) => return Err(fault),
        };
        let asked = GrantRequest {
            lib,
            ino,
            kind: row.kind,
            entry,
            body: settled_body(&mut self.store, ino, row),
        };
        match lend(self.alloc, &mut self.store.home, range, &asked, key) {
            Ok(loan) => {
                let Loan {
                    file,
                    checkpoint,
                    lease,
                } = loan;
                self.files.push_reserved(file);
                self.store.checkpoints[ino as usize] = Some(checkpoint);
                self.history.enter(entry);
                Ok(Lease::Write(lease))
            }
            Err(NoMemory) => {
                self.grants.end(key);
                Err(GrantFault::NoMemory)
            }
        }
    }
}

/// Opens a grant in the table, unless an open one excludes it.
pub(crate) fn admit(
    grants: &mut GrantTable,
    lib: LibNo,
    ino: u32,
    kind: GrantKind,
    entry: u64,
) -> Result<GrantKey, GrantFault>
    ensures answer { Admits (excludes lib ino kind) grants.old result }
    ensures opened { IfOk result (λ key. AllBelow entry grants.old → grants.new ≡ grants.old ++ (key, record { lib = lib; ino = ino; kind = kind; entry = entry }) ∷ []) }
    ensures there { IfOk result (λ key. HasKey key grants.new) }
    ensures new_key { IfOk result (λ key. grant_under key grants.old ≡ None) }
    ensures rest { IfOk result (λ key. without key grants.new ≡ grants.old) }
    ensures kept { OnErr result (grants.new ≡ grants.old) }
{
    match grants.admit(lib, ino, kind, entry) {
        Ok(key) => Ok(key),
        Err(AdmitFault::Busy(holder)) => Err(GrantFault::Busy(holder)),
        Err(AdmitFault::NoMemory) => Err(GrantFault::NoMemory),
    }
}
