//! The end of a read grant.

ghost use Rattle.std.specs.Prelude.{◌≡◌, ◌+◌};
ghost use Rattle.trio_nodes.specs.declared.grant.GrantKind.TheVariants.{Read};
ghost use Rattle.trio_state.specs.Given.{HasGrant};
ghost use Rattle.trio_state.specs.Kept.{Kept};
ghost use Rattle.trio_state.specs.Step.{Back, Done, Step};

use crate::registry::Registry;
use trio_lease::ReadLease;
use trio_open::find::place_of_read;

impl Registry {
    /// Ends the read grant of a lease, as [`Ctl::give_back`](crate::Ctl::give_back) says.
    pub fn give_back(&mut self, entry: u64, lease: ReadLease)
        requires entry { entry ≡ self.old.state.entries }
        requires given { HasGrant self.old.state lease.lib.0 lease.ino Read }
        ensures step { Step self.old.state (Back lease.lib.0 lease.ino) Done self.new.state }
        ensures was_kept { Kept self.old.state }
        ensures kept { Kept self.new.state }
        ensures begun { self.new.begun ≡ self.old.begun }
        ensures promised { self.new.promised + 1 ≡ self.old.promised }
        ensures looked { self.new.looked ≡ self.old.looked }
    {
        let parts = lease.parts();
        let Some(at) = place_of_read(&self.files, parts.lib, parts.ino) else {
            unreachable!()
        };
        let file = self.files.remove(at);
        self.grants.end(file.key());
        self.history.enter_promised(entry);
    }
}
