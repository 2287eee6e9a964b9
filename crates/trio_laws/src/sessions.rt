//! The laws of honest sessions: the body of each function is empty, and its contract is the law.

ghost use Rattle.trio_laws.specs.session.Bundles.{EdgesFollow, NowIsListed, ShownSpares};
ghost use Rattle.trio_laws.specs.session.Calls.{CallKeeps, LookKeeps, NothingIsReady};
ghost use Rattle.trio_laws.specs.session.Grants.{HoldShows, LeaseShows};
ghost use Rattle.trio_laws.specs.session.Lent.{LeasesStayTrue, LentStaysTrue, StepKeepsLent, StepKeepsRoot};
ghost use Rattle.trio_laws.specs.session.Others.{AgreesIsStable, AgreesThrough, MovesLeaveLeases, StepLeavesLeases};
ghost use Rattle.trio_laws.specs.session.Settles.{
  AcceptedIsShown,
  MomentLasts,
  MomentLastsBack,
  PlacesStay,
  ReadyIsAccepted,
  ReadyIsAcceptedThrough,
  ReadyIsLegal,
  SettleEndsInCalls,
  SettleIsRecorded,
};

/// What a lease for reading or writing shows is true of the nodes at its grant, the places of its
/// entries too; and so is what a hold shows.
pub fn leases_show()
    ensures law { LeaseShows }
    ensures holds { HoldShows }
{}

/// What leases show as lent stays true over a legal entry of another library, and over any list of
/// them, and their grants go on standing.
pub fn others_leave_leases()
    ensures law { AgreesIsStable }
    ensures through { AgreesThrough }
{}

/// A step of another library, whatever that hands in, leaves what leases show: their grants are
/// open, the nodes agree and the rows name the slots; and so do any moves of others.
pub fn moves_leave_leases()
    ensures step { StepLeavesLeases }
    ensures moves { MovesLeaveLeases }
{}

/// Where a bundle shows one tree in the place of another, it meets the rule on the edges of the tree.
pub fn edges_follow()
    ensures law { EdgesFollow }
{}

/// Kinds and rights stay, and what is none of the bundle's keeps all but its name.
pub fn shown_spares()
    ensures law { ShownSpares }
{}

/// In the nodes that a bundle shows each of its directories has just the entries that its pages say.
pub fn now_is_listed()
    ensures law { NowIsListed }
{}

/// A state whose nodes and rows agree with what a library hands in goes on to agree through every step
/// of others, and as the library gives back its read leases.
pub fn moment_lasts()
    ensures others { MomentLasts }
    ensures back { MomentLastsBack }
{}

/// What is ready is accepted, in every kept state whose nodes and rows agree with the leases; and so it
/// is after any moves of others.
pub fn ready_is_accepted()
    ensures law { ReadyIsAccepted }
    ensures through { ReadyIsAcceptedThrough }
{}

/// What an accepted bundle makes of the nodes is just what it shows; and it leaves the places of
/// what lies in directories of others.
pub fn accepted_is_shown()
    ensures law { AcceptedIsShown }
    ensures places { PlacesStay }
{}

/// After a settle of what is ready the state stands for the nodes in which the calls end; and all stays
/// recorded, its entry too.
pub fn settle_ends_in_calls()
    ensures law { SettleEndsInCalls }
    ensures recorded { SettleIsRecorded }
{}

/// The entry of a settle of what is ready is legal: kinds and rights stay, and others are spared.
pub fn ready_is_legal()
    ensures law { ReadyIsLegal }
{}

/// A session begins ready.
pub fn nothing_is_ready()
    ensures law { NothingIsReady }
{}

/// A call whose edits show what the call does keeps a session ready.
pub fn call_keeps()
    ensures law { CallKeeps }
{}

/// A call that changes nothing keeps a session ready, with any files taken for reading.
pub fn look_keeps()
    ensures law { LookKeeps }
{}

/// What open grants lent is true of the nodes and rows through each step, and so in every state to
/// which a log replays from an image that verifies; and all that a library has out holds at once.
pub fn leases_stay_true()
    ensures step { StepKeepsLent }
    ensures replays { LentStaysTrue }
    ensures all { LeasesStayTrue }
{}

/// No step changes the sizes of the image or the rights of its root.
pub fn root_stays()
    ensures law { StepKeepsRoot }
{}
