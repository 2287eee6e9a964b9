//! The laws of what a session has in hand: the body of each function is empty, and its contract is
//! the law.

ghost use Rattle.trio_laws.specs.session.FileCalls.{
  DoneByBytes,
  EntersBy,
  RefusedByCheck,
  RefusedByWalk,
  RefusedForRoom,
  StatsDirectory,
  WalksBy,
};
ghost use Rattle.trio_laws.specs.session.Sees.{SeesEntryRights, SeesJudged, SeesLease, SeesLent, SeesMade, SeesRoot, SeesUntouched, SeesWritten, UntouchedReads};
ghost use Rattle.trio_laws.specs.session.Takes.{BecomesThrough, NothingIsInOrder, TakesAllotment, TakesHold, TakesReads, TakesWrite};

/// A session begins in order.
pub fn begins_in_order()
    ensures law { NothingIsInOrder }
{}

/// What is taken and edited one after another is as one taking and edit.
pub fn becomes_through()
    ensures law { BecomesThrough }
{}

/// A write lease that is taken, of a file of any kind, shows the same nodes.
pub fn takes_write()
    ensures law { TakesWrite }
{}

/// So does a hold on a file that a directory in hand lists.
pub fn takes_hold()
    ensures law { TakesHold }
{}

/// So do read leases.
pub fn takes_reads()
    ensures law { TakesReads }
{}

/// So do allotted pages and numbers.
pub fn takes_allotment()
    ensures law { TakesAllotment }
{}

/// What leases show, what the session's own directories read and what its written files read is
/// true of the nodes that it shows.
pub fn sees_nodes()
    ensures root { SeesRoot }
    ensures lease { SeesLease }
    ensures rights { SeesEntryRights }
    ensures lent { SeesLent }
    ensures judged { SeesJudged }
    ensures made { SeesMade }
    ensures written { SeesWritten }
    ensures untouched { SeesUntouched }
    ensures reads { UntouchedReads }
{}

/// A directory is entered by its kind and rights, and a walk goes on by what a name is found to be.
pub fn walks_by_sight()
    ensures enters { EntersBy }
    ensures step { WalksBy }
{}

/// A write, a read, a truncation, a stat, a reading of a link's text or a change of the guard is decided
/// by its walk, and by the kind, the rights and the bytes of the file to which that comes; or there is no
/// room for it.
pub fn decides_file_calls()
    ensures walk { RefusedByWalk }
    ensures check { RefusedByCheck }
    ensures bytes { DoneByBytes }
    ensures directory { StatsDirectory }
    ensures room { RefusedForRoom }
{}
