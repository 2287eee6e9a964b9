//! The trait of desks.

ghost use Rattle.std.specs.Prelude.{◌≡◌, IfErr, IfOk};
ghost use Rattle.trio_lists.specs.Lists.{In};
ghost use Rattle.trio_desk.specs.Out.{HasWanted, IsFreshAllotment, IsFreshLease, WasGiven, kind_lent, parcel_of};
ghost use Rattle.trio_desk.specs.Call.{Allot, Ask, DeskSeen, Done as GivenBack, GiveBack, Grant, Release, SeenAfter, SetMode, Settle, TellsClosed, TellsHolder, Told, allot_told, call_back, lease_told, mode_told, release_told, settle_told};
ghost use Rattle.trio_desk.specs.Contents.{AreWithinLimits};
ghost use Rattle.trio_desk.specs.Ready.{AreLent, Ready, TellsChmod};
ghost use Rattle.trio_desk.specs.Refusals.{TellsCause, TellsLack};

use trio_lease::{Allotted, Bundle, Lease, ReadLease};
use trio_nodes::{
    AllotFault, Call, Done, GrantFault, GrantKind, ModeFault, ReleaseAnswer, ReleaseFault,
};
use trio_page::{NoMemory, Reads};
use trio_rights::Creds;

/// The controller's calls as one library sees them.
///
/// Contracts see of a desk its `seen`: the library, its credentials, what it has out, the sizes of
/// the image and the rights of its root. Each call changes what is out as its answer says, and
/// nothing else of it.
///
/// `called` says what one call does behind the desk: from the desk as it was, by what is asked and
/// what is told, to the desk as it is. Code that is generic over desks hands the relation on. Where
/// a desk stands on a controller that nobody else reaches, it is one step of the controller.
/// Where others reach the controller too, it leaves room for what they do before the call.
pub trait Desk {
    ghost seen: { Self → DeskSeen };

    ghost called: { Self → Ask → Told → Self → Type 0 };

    /// The credentials of the library.
    fn creds(&self) -> Creds
        ensures creds { result ≡ (seen self.now).creds }
        ensures limits { AreWithinLimits (seen self.now).sizes };

    /// Asks for a grant of this kind on a file, by its inode number.
    fn grant(&mut self, ino: u32, kind: GrantKind) -> Result<Lease, GrantFault>
        ensures called { called self.old (Grant ino kind) (lease_told result) self.new }
        ensures seen { SeenAfter (seen self.old) (Grant ino kind) (lease_told result) (seen self.new) }
        ensures holder { TellsHolder (seen self.old).lib (seen self.old).out (Grant ino kind) (lease_told result) }
        ensures cause { TellsCause (seen self.old) (Grant ino kind) (lease_told result) }
        ensures lease { IfOk result (IsFreshLease (seen self.old).lib ino (seen self.old).sizes (seen self.old).out) }
        ensures kind { IfOk result (λ lease. kind_lent lease ≡ kind) };

    /// Asks for so many pages and inode numbers.
    fn allot(&mut self, pages: u32, inodes: u32) -> Result<Allotted, AllotFault>
        ensures called { called self.old (Allot pages inodes) (allot_told result) self.new }
        ensures seen { SeenAfter (seen self.old) (Allot pages inodes) (allot_told result) (seen self.new) }
        ensures fresh { IfOk result (IsFreshAllotment (seen self.old).lib (seen self.old).sizes (seen self.old).out) }
        ensures wanted { IfOk result (HasWanted pages inodes) }
        ensures lack { TellsLack (Allot pages inodes) (allot_told result) };

    /// Ends the read grant of a lease, which is out. It takes no memory.
    fn give_back(&mut self, lease: ReadLease)
        requires { In lease (seen self.old).out.reads }
        ensures called { called self.old (GiveBack lease) GivenBack self.new }
        ensures seen { SeenAfter (seen self.old) (GiveBack lease) GivenBack (seen self.new) };

    /// Hands in a bundle to be judged, all of which is out. With a fault it comes back.
    fn release(
        &mut self,
        bundle: Bundle,
        reads: &mut Reads,
    ) -> Result<ReleaseAnswer, (Bundle, ReleaseFault)>
        requires { WasGiven (seen self.old).out (parcel_of bundle) }
        ensures called { called self.old (Release (parcel_of bundle)) (release_told result (λ back. back.1)) self.new }
        ensures seen { SeenAfter (seen self.old) (Release (parcel_of bundle)) (release_told result (λ back. back.1)) (seen self.new) }
        ensures closed { TellsClosed (seen self.old).out (parcel_of bundle) (release_told result (λ back. back.1)) }
        ensures back { IfErr result (λ back. back.0 ≡ bundle) };

    /// Hands in all that the library has, and the calls that come to what it shows: the write leases,
    /// holds and allotments in a bundle, and the read leases, which are given back before it. What is
    /// ready is accepted. [`NoMemory`]: nothing changed, and all of it comes back.
    fn settle(
        &mut self,
        bundle: Bundle,
        back: Vec<ReadLease>,
        calls: Vec<Done>,
    ) -> Result<(), (Bundle, Vec<ReadLease>, Vec<Done>, NoMemory)>
        requires { Ready (seen self.old) (parcel_of bundle) back.items calls.items }
        ensures called { called self.old (Settle (parcel_of bundle) back.items calls.items) (settle_told result) self.new }
        ensures seen { SeenAfter (seen self.old) (Settle (parcel_of bundle) back.items calls.items) (settle_told result) (seen self.new) }
        ensures bundle { IfErr result (λ back. back.0 ≡ bundle) }
        ensures leases { IfErr result (λ came. came.1 ≡ back) }
        ensures calls { IfErr result (λ back. back.2 ≡ calls) };

    /// Changes the mode of a file, by its inode number, and gives the read leases back that are handed
    /// in. A call that is handed in is a chmod of this file to this mode, which these leases show.
    ///
    /// After a fault the leases come back. So does the call after `Busy` and `NoMemory`; after another
    /// fault it stands in the history. The cause of a fault is true of the tree at its moment.
    fn set_mode(
        &mut self,
        ino: u32,
        mode: u16,
        back: Vec<ReadLease>,
        call: Option<Call>,
    ) -> Result<(), (Vec<ReadLease>, Option<Call>, ModeFault)>
        requires lent { AreLent (seen self.old).out back.items }
        requires chmod { TellsChmod (seen self.old) back.items ino mode call }
        ensures called { called self.old (SetMode ino mode back.items call) (mode_told result (λ came. came.2)) self.new }
        ensures seen { SeenAfter (seen self.old) (SetMode ino mode back.items call) (mode_told result (λ came. came.2)) (seen self.new) }
        ensures holder { TellsHolder (seen self.old).lib (seen self.old).out (SetMode ino mode back.items call) (mode_told result (λ came. came.2)) }
        ensures cause { TellsCause (seen self.old) (SetMode ino mode back.items call) (mode_told result (λ came. came.2)) }
        ensures leases { IfErr result (λ came. came.0 ≡ back) }
        ensures call { IfErr result (λ came. came.1 ≡ call_back call came.2) };
}
