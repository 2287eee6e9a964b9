//! Changes of mode.

ghost use Rattle.std.specs.Prelude.{◌≡◌, ◌==◌, ◌<◌, ◌≤◌, ℕ, None, Some, IfOk, IsSome, length, slice_index_or, slice_set};
ghost use Rattle.std.specs.List.{find};
ghost use Rattle.std.specs.Option.{option_map};
ghost use Rattle.trio_layout.specs.Image.{row_at};
ghost use Rattle.trio_tables.specs.Row.{as_row};
ghost use Rattle.trio_state.specs.Grants.{holder_of};
ghost use Rattle.trio_state.specs.Kept.{Kept};
ghost use Rattle.trio_state.specs.State.{logged};
ghost use Rattle.trio_state.specs.Step.{mode_fault, moded_to};
ghost use Rattle.trio_ctl.specs.Backs.{all_back};
ghost use Rattle.trio_ctl.specs.Ctl.{IsLibrary};
ghost use Rattle.trio_open.specs.Entries.{HasRoom};
ghost use Rattle.trio_open.specs.inner.Modes.{mode_denial, stays_around, with_mode_at, with_row_mode};

use crate::registry::Registry;
use trio_commit::Store;
use trio_lease::ReadLease;
use trio_nodes::{Holder, ModeFault};
use trio_open::body::put_mode_in;
use trio_open::find::key_around;
use trio_page::{NoMemory, PageNo, Reads};
use trio_rights::{LibNo, Mode};
use trio_tables::Row;

/// The inode number of the root.
const ROOT: u32 = 1;

impl Registry {
    /// Why the mode of a file isn't changed once these read leases of the library are back. `None`
    /// where nothing stands against it.
    pub(crate) fn mode_fault(
        &self,
        lib: LibNo,
        ino: u32,
        mode: u16,
        back: &[ReadLease],
    ) -> Option<ModeFault>
        requires library { IsLibrary lib self.now.state }
        ensures { result ≡ mode_fault (all_back self.now.state lib back.now) lib.0 ino mode (row_at self.now.state.home ino) }
    {
        let Some(row) = self.store.rows.row(ino) else {
            return Some(ModeFault::NotLive);
        };
        if let Some(fault) = self.mode_denial(lib, ino, mode, &row) {
            return Some(fault);
        }
        match self.holder_around(lib, ino, row.parent, back) {
            Some(holder) => Some(ModeFault::Busy(holder)),
            None => None,
        }
    }

    /// Makes room for the entry of a change of mode, whose number is that of the next one.
    pub(crate) fn make_mode_room(&self, entry: u64) -> Result<(), NoMemory>
        requires entry { entry ≡ self.now.state.entries }
        ensures { IfOk result (λ _. HasRoom (record { made = self.now.state.entries; promised = self.now.promised }) 1) }
    {
        self.history.make_room(entry, 1)
    }

    /// Refuses a change of mode: the history has one entry more, for which there is room.
    pub(crate) fn refuse_mode(&mut self, entry: u64)
        requires entry { entry ≡ self.old.state.entries }
        requires room { HasRoom (record { made = self.old.state.entries; promised = self.old.promised }) 1 }
        ensures state { self.new.state ≡ logged self.old.state }
        ensures begun { self.new.begun ≡ self.old.begun }
        ensures promised { self.new.promised ≡ self.old.promised }
        ensures looked { self.new.looked ≡ self.old.looked }
        ensures was_kept { Kept self.old.state }
    {
        self.history.enter(entry);
    }

    /// Changes the mode of a live file, as some library may; there is room for its entry. Takes no
    /// memory.
    pub(crate) fn change_mode(&mut self, entry: u64, ino: u32, mode: u16)
        requires entry { entry ≡ self.old.state.entries }
        requires free { (by : ℕ) × (mode_fault self.old.state by ino mode (row_at self.old.state.home ino) ≡ None) }
        requires room { HasRoom (record { made = self.old.state.entries; promised = self.old.promised }) 1 }
        ensures state { self.new.state ≡ (moded_to self.old.state ino mode None).after }
        ensures begun { self.new.begun ≡ self.old.begun }
        ensures promised { self.new.promised ≡ self.old.promised }
        ensures floor { self.old.looked ≤ self.new.looked }
    {
        let Some(row) = self.store.rows.row(ino) else {
            unreachable!()
        };
        put_mode(&mut self.store, ino, &row, mode);
        self.history.enter(entry);
    }

    // why the mode of a live file that has this row isn't changed, whatever grants are open
    fn mode_denial(&self, lib: LibNo, ino: u32, mode: u16, row: &Row) -> Option<ModeFault>
        requires library { IsLibrary lib self.now.state }
        ensures { result ≡ mode_denial self.now.state lib.0 ino mode (as_row row.now) }
    {
        let uid = self.creds(lib).uid;
        if ino == ROOT || !(uid == 0 || uid == row.uid) {
            return Some(ModeFault::NotOwner);
        }
        if mode > 0o777 {
            return Some(ModeFault::BadMode);
        }
        None
    }

    // the first grant on a file or on the directory of this number that stays open when these leases of
    // the library are given back
    fn holder_around(&self, lib: LibNo, ino: u32, parent: u32, back: &[ReadLease]) -> Option<Holder>
        ensures { result ≡ option_map holder_of (find (stays_around lib.0 ino parent back.now) self.now.state.open_grants) }
    {
        match key_around(&self.files, lib, ino, parent, back) {
            Some(key) => self.grants.holder_under(key),
            None => None,
        }
    }
}

/// Puts a mode in the row of a live file, which is not the root, and in the body in its directory's
/// page, which is at home.
fn put_mode(store: &mut Store, ino: u32, row: &Row, mode: u16)
    requires live { (0 < ino) × (ino < length store.old.rows) }
    requires slot { row.now.slot < 16 }
    requires there { IsSome (slice_index_or store.old.home.pages row.now.page None) }
    ensures floor { store.old.home.looked ≤ store.new.home.looked }
    ensures pages { store.new.home.pages ≡ with_mode_at row.now.page row.now.slot mode store.old.home.pages }
    ensures rest { store.new ≡ record store.old { home = store.new.home; rows = slice_set store.old.rows ino (Some (with_row_mode mode (as_row row.now))) } }
{
    let no = PageNo(row.page);
    let Some(mut page) = store.home.take(no, &mut Reads::new()) else {
        unreachable!()
    };
    put_mode_in(&mut page, row.slot, mode);
    store.home.put(no, page);
    let moded = Row {
        mode: Mode(mode),
        ..*row
    };
    store.rows.set(ino, Some(moded));
}
