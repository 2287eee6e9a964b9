//! Changes of mode, each with its entry in the log.

ghost use Rattle.std.specs.Prelude.{◌≡◌, ◌≤◌, IfErr};
ghost use Rattle.trio_desk.specs.Call.{SetMode, call_back, mode_told};
ghost use Rattle.trio_desk.specs.Ready.{AreLent, TellsChmod};
ghost use Rattle.trio_state.specs.Kept.{Kept};
ghost use Rattle.trio_ctl.specs.Ctl.{IsIdle, IsLibrary};
ghost use Rattle.trio_ctl.specs.Desk.{Happens, LogsCall, desk_of, out_of};
ghost use Rattle.trio_ctl.specs.Room.{Spends};
ghost use Rattle.trio_open.specs.inner.Modes.{busy_holder};

use crate::backs::give_back_all;
use crate::ctl::{Ctl, make_places};
use trio_lease::ReadLease;
use trio_nodes::{Call, Entry, Holder, ModeFault};
use trio_rights::LibNo;

impl Ctl {
    /// Changes the mode of a live file, for its owner or for uid 0, and gives back the read leases that
    /// are handed in, which this controller gave to the library. A call that is handed in is a chmod of
    /// this file to this mode, by the walk that these leases show.
    ///
    /// After `Ok` the leases are back, each with its entry in the log. The row of the file has this
    /// mode, and so has the copy in its body: the one in the slot of the directory page that lists the
    /// file. Nobody has the file or its directory out then, so that page is at home.
    ///
    /// `NotLive` exactly where no live file has the number; `NotOwner` exactly where it is the root's,
    /// whose mode nobody changes, or the library's uid is neither the file's nor 0; `BadMode` exactly
    /// where the mode is above `0o777`; `Busy` exactly where a grant is open on the file or on its
    /// directory, of whatever kind and library, that isn't one of these leases, with the one of the
    /// lowest entry: the first of these that applies. After each of them the image is as before, and the
    /// leases are out and come back.
    ///
    /// Each answer makes an entry in the log, which has the call, but for `Busy` and `NoMemory`, after
    /// which nothing changed and the call comes back. `NoMemory` may come in place of each other answer
    /// but `Busy`: a log that has or has promised as many entries as a `u64` counts has no memory for
    /// more.
    pub fn set_mode(
        &mut self,
        lib: LibNo,
        ino: u32,
        mode: u16,
        back: Vec<ReadLease>,
        call: Option<Call>,
    ) -> Result<(), (Vec<ReadLease>, Option<Call>, ModeFault)>
        requires library { IsLibrary lib self.old.state }
        requires idle { IsIdle self.old lib.0 }
        requires lent { AreLent (out_of self.old.state lib) back.items }
        requires chmod { TellsChmod (desk_of self.old.state lib) back.items ino mode call }
        ensures happens { Happens self.old.state lib (SetMode ino mode back.items call) (mode_told result (λ came. came.2)) self.new.state }
        ensures logs { LogsCall self.old lib (SetMode ino mode back.items call) (mode_told result (λ came. came.2)) self.new }
        ensures leases { IfErr result (λ came. came.0 ≡ back) }
        ensures call { IfErr result (λ came. came.1 ≡ call_back call came.2) }
        ensures spends { Spends 1 0 self.old.spare self.new.spare }
        ensures unspent { self.new.log ≡ self.old.log → Spends 0 0 self.old.spare self.new.spare }
        ensures floor { self.old.looked ≤ self.new.looked }
        ensures was_kept { Kept self.old.state }
        ensures kept { Kept self.new.state }
    {
        let fault = self.registry.mode_fault(lib, ino, mode, &back);
        if let Some(holder) = busy_holder(fault) {
            return Err((back, call, ModeFault::Busy(holder)));
        }
        let Ok(()) = make_places(&mut self.log, self.registry.promised(), 1) else {
            return Err((back, call, ModeFault::NoMemory));
        };
        let Ok(()) = self.registry.make_mode_room(self.log.len()) else {
            return Err((back, call, ModeFault::NoMemory));
        };
        if let Some(fault) = fault {
            self.registry.refuse_mode(self.log.len());
            self.log.push(Entry::Mode {
                lib,
                ino,
                mode,
                answer: Err(fault),
                call,
            });
            return Err((back, None, fault));
        }
        give_back_all(&mut self.registry, &mut self.log, lib, back);
        self.registry.change_mode(self.log.len(), ino, mode);
        self.log.push(Entry::Mode {
            lib,
            ino,
            mode,
            answer: Ok(()),
            call,
        });
        Ok(())
    }
}

/// The holder that a fault names.
fn busy_holder(fault: Option<ModeFault>) -> Option<Holder>
    ensures { result ≡ busy_holder fault }
{
    match fault {
        Some(ModeFault::Busy(holder)) => Some(holder),
        _ => None,
    }
}
