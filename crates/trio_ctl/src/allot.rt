//! Allotments.

ghost use Rattle.std.specs.Prelude.{◌≡◌, ◌≤◌, IfOk, map};
ghost use Rattle.trio_allot.specs.Out.{fresh_number, fresh_page, inode_numbers, page_numbers};
ghost use Rattle.trio_state.specs.Kept.{Kept};
ghost use Rattle.trio_state.specs.Step.{Allot, Step};
ghost use Rattle.trio_ctl.specs.Answers.{allot_answer};
ghost use Rattle.trio_ctl.specs.Ctl.{IsLibrary};

use crate::registry::Registry;
use trio_lease::Allotted;
use trio_nodes::AllotFault;
use trio_page::Reads;
use trio_rights::LibNo;

impl Registry {
    /// Allots free pages and inode numbers to a library, as [`Ctl::allot`](crate::Ctl::allot) says.
    pub fn allot(
        &mut self,
        entry: u64,
        lib: LibNo,
        pages: u32,
        inodes: u32,
    ) -> Result<Allotted, AllotFault>
        requires entry { entry ≡ self.old.state.entries }
        requires library { IsLibrary lib self.old.state }
        ensures step { Step self.old.state (Allot lib.0 pages inodes) (allot_answer result) self.new.state }
        ensures pages { IfOk result (λ given. given.pages.items ≡ map (fresh_page lib) (page_numbers given.pages.items)) }
        ensures inodes { IfOk result (λ given. given.inodes.items ≡ map (fresh_number lib) (inode_numbers given.inodes.items)) }
        ensures was_kept { Kept self.old.state }
        ensures kept { Kept self.new.state }
        ensures begun { self.new.begun ≡ self.old.begun }
        ensures promised { self.new.promised ≡ self.old.promised }
        ensures floor { self.old.looked ≤ self.new.looked }
    {
        let Ok(()) = self.history.make_room(entry, 1) else {
            return Err(AllotFault::NoMemory);
        };
        let given = self.store.allotments.take(
            &mut self.store.home,
            &self.store.owners,
            &self.store.rows,
            lib,
            pages,
            inodes,
            &mut Reads::new(),
        );
        match given {
            Ok(given) => {
                self.history.enter(entry);
                Ok(given)
            }
            // want of memory makes no entry
            Err(fault) => match fault {
                AllotFault::NoMemory => Err(fault),
                AllotFault::NoPages { .. } | AllotFault::NoInodes { .. } => {
                    self.history.enter(entry);
                    Err(fault)
                }
            },
        }
    }
}
