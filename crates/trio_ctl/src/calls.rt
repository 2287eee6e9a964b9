//! Grants, allotments and give backs, each with its entry in the log.

ghost use Rattle.std.specs.Prelude.{◌≡◌, ◌≤◌, IfOk, map};
ghost use Rattle.std.specs.Option.{IsSomeAnd};
ghost use Rattle.trio_allot.specs.Out.{fresh_number, fresh_page, inode_numbers, page_numbers};
ghost use Rattle.trio_layout.specs.Image.{row_at};
ghost use Rattle.trio_nodes.specs.declared.grant.GrantKind.TheVariants.{Read};
ghost use Rattle.trio_state.specs.Given.{HasGrant};
ghost use Rattle.trio_state.specs.Grants.{opened};
ghost use Rattle.trio_state.specs.Kept.{Kept};
ghost use Rattle.trio_state.specs.Step.{Allot, Back, Done, Grant, Step};
ghost use Rattle.trio_ctl.specs.Answers.{allot_answer, grant_answer};
ghost use Rattle.trio_ctl.specs.Ctl.{IsIdle, IsLibrary};
ghost use Rattle.trio_ctl.specs.Logged.{Logs, alone};
ghost use Rattle.trio_ctl.specs.Room.{Spends};
ghost use Rattle.trio_open.specs.Open.{lent_by};
ghost use Rattle.trio_ctl.specs.inner.Telling.{HasRoomFrom, allot_told, grant_told};

use crate::ctl::{Ctl, make_places};
use trio_lease::{Allotted, Lease, ReadLease};
use trio_nodes::{AllotAnswer, AllotFault, Entry, GrantAnswer, GrantFault, GrantKind};
use trio_open::numbers::Numbers;
use trio_rights::LibNo;

impl Ctl {
    /// Grants a live file to a library.
    ///
    /// A write grant lends the file's body, its index pages and its blocks, which leave home by move;
    /// what it covers is kept aside. A read grant lends copies of them, as they are settled, and room
    /// is made for the entry of its end. A hold lends the settled body, and tells the directory that
    /// lists the file and the number of its children.
    ///
    /// `NotLive` exactly where no live file has the number; `Denied`, of reading and writing, exactly
    /// where a number on the way from the root denies what is needed, the first such number;
    /// `NoParent`, of a hold, exactly where the library has no write grant on the file's directory;
    /// `Busy` exactly where an open grant on the file excludes the one asked, with the one of the
    /// lowest entry. After `NoMemory`, which may come in place of each of them, nothing changed; a
    /// log that has or has promised as many entries as a `u64` counts has no memory for more.
    pub fn grant(&mut self, lib: LibNo, ino: u32, kind: GrantKind) -> Result<Lease, GrantFault>
        requires library { IsLibrary lib self.old.state }
        requires idle { IsIdle self.old lib.0 }
        ensures step { Step self.old.state (Grant lib.0 ino kind) (grant_answer result) self.new.state }
        ensures logs { Logs self.old alone (Grant lib.0 ino kind) (grant_answer result) self.new }
        ensures lease { IfOk result (λ lease. IsSomeAnd (row_at self.old.state.home ino)
            (λ r. lease ≡ lent_by (opened self.old.state lib.0 ino kind r))) }
        ensures spends { Spends 2 0 self.old.spare self.new.spare }
        ensures unspent { self.new.log ≡ self.old.log → Spends 0 0 self.old.spare self.new.spare }
        ensures floor { self.old.looked ≤ self.new.looked }
        ensures was_kept { Kept self.old.state }
        ensures kept { Kept self.new.state }
    {
        // for the entry of the grant, and for that of its end
        let Ok(()) = make_places(&mut self.log, self.registry.promised(), 2) else {
            return Err(GrantFault::NoMemory);
        };
        let result = self.registry.grant(self.log.len(), lib, ino, kind);
        if let Some(answer) = grant_told(&result) {
            self.log.push(Entry::Grant {
                lib,
                ino,
                kind,
                answer,
            });
        }
        result
    }

    /// Allots free pages and inode numbers to a library, so many of each as it asks for: the lowest
    /// ones, in their order, and each page all zero. They stay out until they are handed in.
    ///
    /// `NoPages` exactly where more pages are wanted than are free; `NoInodes` exactly where enough
    /// pages are free, and more inode numbers are wanted than are; each tells both numbers. After
    /// `NoMemory`, which may come in place of each of them, nothing changed; a log that has as many
    /// entries as a `u64` counts has no memory for one more.
    pub fn allot(&mut self, lib: LibNo, pages: u32, inodes: u32) -> Result<Allotted, AllotFault>
        requires library { IsLibrary lib self.old.state }
        requires idle { IsIdle self.old lib.0 }
        ensures step { Step self.old.state (Allot lib.0 pages inodes) (allot_answer result) self.new.state }
        ensures logs { Logs self.old alone (Allot lib.0 pages inodes) (allot_answer result) self.new }
        ensures pages { IfOk result (λ given. given.pages.items ≡ map (fresh_page lib) (page_numbers given.pages.items)) }
        ensures inodes { IfOk result (λ given. given.inodes.items ≡ map (fresh_number lib) (inode_numbers given.inodes.items)) }
        ensures spends { Spends 1 0 self.old.spare self.new.spare }
        ensures unspent { self.new.log ≡ self.old.log → Spends 0 0 self.old.spare self.new.spare }
        ensures floor { self.old.looked ≤ self.new.looked }
        ensures was_kept { Kept self.old.state }
        ensures kept { Kept self.new.state }
    {
        let Ok(()) = make_places(&mut self.log, self.registry.promised(), 1) else {
            return Err(AllotFault::NoMemory);
        };
        let alloc = self.registry.alloc();
        let most_pages = self.registry.free_pages_to(pages);
        let most_inodes = self.registry.free_inodes_to(inodes);
        let Ok(numbers) = Numbers::with(alloc, most_pages, most_inodes) else {
            return Err(AllotFault::NoMemory);
        };
        let result = self.registry.allot(self.log.len(), lib, pages, inodes);
        if let Some(answer) = allot_told(numbers, &result) {
            self.log.push(Entry::Allot {
                lib,
                pages,
                inodes,
                answer,
            });
        }
        result
    }

    /// Ends the read grant of a lease, which this controller gave: the library that the lease names
    /// has an open read grant on its file. Takes no memory: the room for its entry was made with the
    /// grant.
    pub fn give_back(&mut self, lease: ReadLease)
        requires idle { IsIdle self.old lease.lib.0 }
        requires given { HasGrant self.old.state lease.lib.0 lease.ino Read }
        ensures step { Step self.old.state (Back lease.lib.0 lease.ino) Done self.new.state }
        ensures logs { Logs self.old alone (Back lease.lib.0 lease.ino) Done self.new }
        ensures spends { Spends 0 0 self.old.spare self.new.spare }
        ensures floor { self.old.looked ≤ self.new.looked }
        ensures was_kept { Kept self.old.state }
        ensures kept { Kept self.new.state }
    {
        let lib = lease.lib();
        let ino = lease.ino();
        self.registry.give_back(self.log.len(), lease);
        self.log.push(Entry::Back { lib, ino });
    }
}

// what the log tells of a grant; Busy and want of memory make no entry
fn grant_told(said: &Result<Lease, GrantFault>) -> Option<GrantAnswer>
    ensures { result ≡ grant_told said.now }
{
    match said {
        Ok(Lease::Hold(hold)) => Some(GrantAnswer::Granted(hold.children())),
        Ok(_) => Some(GrantAnswer::Granted(0)),
        Err(GrantFault::Busy(_) | GrantFault::NoMemory) => None,
        Err(fault) => Some(GrantAnswer::Refused(*fault)),
    }
}

// what the log tells of an allotment, in lists that have room for its numbers; want of memory makes no
// entry
fn allot_told(to: Numbers, said: &Result<Allotted, AllotFault>) -> Option<AllotAnswer>
    requires { HasRoomFrom to said.now }
    ensures { result ≡ allot_told said.now }
{
    match said {
        Ok(given) => Some(to.of(given)),
        Err(AllotFault::NoMemory) => None,
        Err(fault) => Some(AllotAnswer::Refused(*fault)),
    }
}
