//! The calls of a library on the controller that is had in its turn, each as a call of its desk.

ghost use Rattle.std.specs.Prelude.{◌≡◌, IfErr, IfOk};
ghost use Rattle.trio_desk.specs.Call.{Allot, Done as GivenBack, GiveBack, Grant, SeenAfter, SetMode, Settle, TellsHolder, allot_told, call_back, lease_told, mode_told, settle_told};
ghost use Rattle.trio_desk.specs.Out.{HasWanted, IsFreshAllotment, IsFreshLease, kind_lent, parcel_of};
ghost use Rattle.trio_desk.specs.Ready.{AreLent, Ready, TellsChmod};
ghost use Rattle.trio_desk.specs.Refusals.{TellsCause, TellsLack};
ghost use Rattle.trio_lists.specs.Lists.{In};
ghost use Rattle.trio_ctl.specs.Ctl.{IsIdle, IsLibrary};
ghost use Rattle.trio_ctl.specs.Desk.{desk_of};
ghost use Rattle.trio_shared.specs.inner.Found.{Makes};

use crate::held::Held;
use trio_ctl::PlainDesk;
use trio_desk::Desk;
use trio_lease::{Allotted, Bundle, Lease, ReadLease};
use trio_nodes::{AllotFault, Call, Done, GrantFault, GrantKind, ModeFault};
use trio_page::NoMemory;
use trio_rights::LibNo;

impl Held {
    pub(crate) fn grant(
        &mut self,
        lib: LibNo,
        ino: u32,
        kind: GrantKind,
    ) -> Result<Lease, GrantFault>
        requires library { IsLibrary lib self.old.state }
        requires idle { IsIdle self.old lib.0 }
        ensures made { Makes self.old lib (Grant ino kind) (lease_told result) self.new }
        ensures seen { SeenAfter (desk_of self.old.state lib) (Grant ino kind) (lease_told result) (desk_of self.new.state lib) }
        ensures holder { TellsHolder lib (desk_of self.old.state lib).out (Grant ino kind) (lease_told result) }
        ensures cause { TellsCause (desk_of self.old.state lib) (Grant ino kind) (lease_told result) }
        ensures lease { IfOk result (IsFreshLease lib ino (desk_of self.old.state lib).sizes (desk_of self.old.state lib).out) }
        ensures kind { IfOk result (λ lease. kind_lent lease ≡ kind) }
    {
        let mut desk = PlainDesk::of(&mut self.ctl, lib);
        desk.grant(ino, kind)
    }

    pub(crate) fn allot(
        &mut self,
        lib: LibNo,
        pages: u32,
        inodes: u32,
    ) -> Result<Allotted, AllotFault>
        requires library { IsLibrary lib self.old.state }
        requires idle { IsIdle self.old lib.0 }
        ensures made { Makes self.old lib (Allot pages inodes) (allot_told result) self.new }
        ensures seen { SeenAfter (desk_of self.old.state lib) (Allot pages inodes) (allot_told result) (desk_of self.new.state lib) }
        ensures fresh { IfOk result (IsFreshAllotment lib (desk_of self.old.state lib).sizes (desk_of self.old.state lib).out) }
        ensures wanted { IfOk result (HasWanted pages inodes) }
        ensures lack { TellsLack (Allot pages inodes) (allot_told result) }
    {
        let mut desk = PlainDesk::of(&mut self.ctl, lib);
        desk.allot(pages, inodes)
    }

    pub(crate) fn give_back(&mut self, lib: LibNo, lease: ReadLease)
        requires library { IsLibrary lib self.old.state }
        requires idle { IsIdle self.old lib.0 }
        requires lent { In lease (desk_of self.old.state lib).out.reads }
        ensures made { Makes self.old lib (GiveBack lease) GivenBack self.new }
        ensures seen { SeenAfter (desk_of self.old.state lib) (GiveBack lease) GivenBack (desk_of self.new.state lib) }
    {
        let mut desk = PlainDesk::of(&mut self.ctl, lib);
        desk.give_back(lease);
    }

    pub(crate) fn settle(
        &mut self,
        lib: LibNo,
        bundle: Bundle,
        back: Vec<ReadLease>,
        calls: Vec<Done>,
    ) -> Result<(), (Bundle, Vec<ReadLease>, Vec<Done>, NoMemory)>
        requires library { IsLibrary lib self.old.state }
        requires idle { IsIdle self.old lib.0 }
        requires ready { Ready (desk_of self.old.state lib) (parcel_of bundle) back.items calls.items }
        ensures made { Makes self.old lib (Settle (parcel_of bundle) back.items calls.items) (settle_told result) self.new }
        ensures seen { SeenAfter (desk_of self.old.state lib) (Settle (parcel_of bundle) back.items calls.items) (settle_told result) (desk_of self.new.state lib) }
        ensures bundle { IfErr result (λ came. came.0 ≡ bundle) }
        ensures leases { IfErr result (λ came. came.1 ≡ back) }
        ensures calls { IfErr result (λ came. came.2 ≡ calls) }
    {
        let mut desk = PlainDesk::of(&mut self.ctl, lib);
        desk.settle(bundle, back, calls)
    }

    pub(crate) fn set_mode(
        &mut self,
        lib: LibNo,
        ino: u32,
        mode: u16,
        back: Vec<ReadLease>,
        call: Option<Call>,
    ) -> Result<(), (Vec<ReadLease>, Option<Call>, ModeFault)>
        requires library { IsLibrary lib self.old.state }
        requires idle { IsIdle self.old lib.0 }
        requires lent { AreLent (desk_of self.old.state lib).out back.items }
        requires chmod { TellsChmod (desk_of self.old.state lib) back.items ino mode call }
        ensures made { Makes self.old lib (SetMode ino mode back.items call) (mode_told result (λ came. came.2)) self.new }
        ensures seen { SeenAfter (desk_of self.old.state lib) (SetMode ino mode back.items call) (mode_told result (λ came. came.2)) (desk_of self.new.state lib) }
        ensures holder { TellsHolder lib (desk_of self.old.state lib).out (SetMode ino mode back.items call) (mode_told result (λ came. came.2)) }
        ensures cause { TellsCause (desk_of self.old.state lib) (SetMode ino mode back.items call) (mode_told result (λ came. came.2)) }
        ensures leases { IfErr result (λ came. came.0 ≡ back) }
        ensures call { IfErr result (λ came. came.1 ≡ call_back call came.2) }
    {
        let mut desk = PlainDesk::of(&mut self.ctl, lib);
        desk.set_mode(ino, mode, back, call)
    }
}
