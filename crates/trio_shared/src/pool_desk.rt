//! The desk of a seat whose releases go to a pool of workers.

ghost use Rattle.std.specs.Prelude.{◌≡◌, ◌≤◌, IfErr, IfOk};
ghost use Rattle.trio_case.specs.Cases.{CaseShown};
ghost use Rattle.trio_entries.specs.Handed.{handed_in};
ghost use Rattle.trio_pool.specs.Mails.{IsForMails, library_count as mail_count};
ghost use Rattle.trio_pool.specs.Passes.{IsOf};
ghost use Rattle.trio_turn.specs.Seats.{IsSameSeat};
ghost use Rattle.trio_shared.specs.Moves.{Ends};
ghost use Rattle.trio_shared.specs.Pooled.{UsesPass};
ghost use Rattle.trio_shared.specs.Seats.{IsIdle, IsSeatOf, desk, library_of, seated};
ghost use Rattle.trio_shared.specs.Turns.{Calls};
ghost use Rattle.trio_shared.specs.inner.Underway.{MarksStand, Waits};

use crate::cell::Shared;
use crate::desk::SeatDesk;
use crate::shared::LibSeat;
use std::alloc::Global;
use std::sync::Wait;
use std::thread;
use trio_ctl::desk_laws::lent_is_marked;
use trio_ctl::{Judged, Pending, copied};
use trio_desk::Desk;
use trio_lease::{Allotted, Bundle, Lease, ReadLease};
use trio_nodes::{
    AllotFault, Call, Done, GrantFault, GrantKind, Handed, ModeFault, ReleaseAnswer, ReleaseFault,
};
use trio_page::{NoMemory, Reads};
use trio_pool::{MailPass, Mails, Pool, PoolPass};
use trio_rights::Creds;

/// The desk of a library over its seat at a shared controller, where a pool of workers judges what it
/// releases. Its other calls are those of the seat's own desk.
///
/// A release copies the bundle, begins in a turn and submits its case. Where the pool is full the case
/// is judged here. Else the desk takes values from its library's mail, until one whose bundle is the
/// copy, byte for byte and mark for mark, ends the release in a turn. Any other value is dropped.
#[derive(Drop)]
pub struct PoolDesk<'a, R: Wait> {
    /// The seat's own desk.
    pub desk: SeatDesk<'a, R>,
    /// The pool of workers.
    pub pool: &'a Pool<Pending>,
    /// The library's pass of the pool.
    pub pass: &'a mut PoolPass<Pending>,
    /// The mails, of which the library has one.
    pub mails: &'a Mails<Judged>,
    /// The library's pass of the mails.
    pub mail: &'a mut MailPass<Judged>,
    /// What the copy of a bundle takes its memory from.
    pub alloc: Global,
    pub ghost is_pass: { IsOf pool.now pass.now },
    pub ghost is_mail: { ∥ IsForMails mails.now mail.now ∥₁ },
    pub ghost has_mail: { (library_of desk.seat.now).0 ≤ mail_count mails.now },
}

// Ends the release with a value of the library's mail. It comes back where its bundle isn't the copy, or
// where the seat hands it back.
fn end_with<R: Wait>(
    rt: &R,
    shared: &Shared,
    seat: &mut LibSeat,
    judged: Judged,
    copy: &Handed,
    reads: &mut Reads,
) -> Result<ReleaseAnswer, Judged>
    requires seat { IsSeatOf shared.now seat.old }
    requires marks { MarksStand (seated seat.old) copy.now }
    ensures seat { IsSeatOf shared.now seat.new × IsSameSeat seat.old seat.new }
    ensures ends { IfOk result (λ answer. (k : CaseShown) × (handed_in k.bundle ≡ copy.now) × Ends (seated seat.old) k answer (seated seat.new)) }
    ensures idle { IfOk result (λ answer. IsIdle seat.new) }
    ensures waits { IfErr result (λ back. Waits (seated seat.old) (seated seat.new)) }
    ensures marks { IfErr result (λ back. MarksStand (seated seat.new) copy.now) }
{
    if !judged.is(copy) {
        return Err(judged);
    }
    shared.finish(rt, seat, judged, reads)
}

// Takes values from the library's mail until one ends the release. Any other is dropped.
fn await_end<R: Wait>(
    rt: &R,
    shared: &Shared,
    seat: &mut LibSeat,
    mails: &Mails<Judged>,
    mail: &mut MailPass<Judged>,
    copy: &Handed,
    reads: &mut Reads,
) -> ReleaseAnswer
    requires seat { IsSeatOf shared.now seat.old }
    requires mail { IsForMails mails.now mail.old }
    requires library { (library_of seat.old).0 ≤ mail_count mails.now }
    requires marks { MarksStand (seated seat.old) copy.now }
    ensures seat { IsSeatOf shared.now seat.new × IsSameSeat seat.old seat.new }
    ensures mail { IsForMails mails.now mail.new }
    ensures ends { (k : CaseShown) × (handed_in k.bundle ≡ copy.now) × Ends (seated seat.old) k result (seated seat.new) }
    ensures idle { IsIdle seat.new }
{
    let lib = seat.library();
    for _ in rt.forever() {
        match mails.fetch(mail, lib) {
            Some(judged) => match end_with(rt, shared, seat, judged, copy, reads) {
                Ok(answer) => return answer,
                Err(_other) => {}
            },
            None => thread::yield_now(),
        }
    }
    unreachable!()
}

impl<'a, R: Wait> PoolDesk<'a, R> {
    /// The desk of a seat over a pool and the mails of its workers, of which the seat's library has one.
    /// When it is let go, the seat and the passes are as the desk left them.
    pub fn of(
        desk: SeatDesk<'a, R>,
        pool: &'a Pool<Pending>,
        pass: &'a mut PoolPass<Pending>,
        mails: &'a Mails<Judged>,
        mail: &'a mut MailPass<Judged>,
        alloc: Global,
    ) -> PoolDesk<'a, R>
        requires pass { IsOf pool.now pass.old }
        requires mail { IsForMails mails.now mail.old }
        requires has_mail { (library_of desk.seat.now).0 ≤ mail_count mails.now }
        ensures same_seat { result.desk.seat.ghost_name ≡ desk.entry.seat.ghost_name }
        ensures same_pass { result.pass.ghost_name ≡ pass.entry.ghost_name }
        ensures same_mail { result.mail.ghost_name ≡ mail.entry.ghost_name }
        ensures seat { result.desk.seat.now ≡ desk.entry.seat.now }
        ensures shared { result.desk.shared.now ≡ desk.entry.shared.now }
        ensures pass { result.pass.now ≡ pass.old }
        ensures pool { result.pool.now ≡ pool.now }
        ensures mails { result.mails.now ≡ mails.now }
    {
        PoolDesk {
            desk,
            pool,
            pass,
            mails,
            mail,
            alloc,
        }
    }
}

impl<'a, R: Wait> Desk for PoolDesk<'a, R> {
    ghost seen = { λ d. desk d.desk.seat.now };

    ghost called = { λ d ask told d'. Calls (seated d.desk.seat.now) ask told (seated d'.desk.seat.now) × UsesPass (seated d.desk.seat.now) ask told d.pass.now d'.pass.now × (d'.desk.shared.now ≡ d.desk.shared.now) × (d'.pool.now ≡ d.pool.now) × (d'.mails.now ≡ d.mails.now) × (d'.desk.seat.ghost_name ≡ d.desk.seat.ghost_name) × (d'.pass.ghost_name ≡ d.pass.ghost_name) × (d'.mail.ghost_name ≡ d.mail.ghost_name) };

    fn creds(&self) -> Creds {
        self.desk.creds()
    }

    fn grant(&mut self, ino: u32, kind: GrantKind) -> Result<Lease, GrantFault> {
        self.desk.grant(ino, kind)
    }

    fn allot(&mut self, pages: u32, inodes: u32) -> Result<Allotted, AllotFault> {
        self.desk.allot(pages, inodes)
    }

    fn give_back(&mut self, lease: ReadLease) {
        self.desk.give_back(lease);
    }

    fn release(
        &mut self,
        bundle: Bundle,
        reads: &mut Reads,
    ) -> Result<ReleaseAnswer, (Bundle, ReleaseFault)> {
        let desk = &mut self.desk;
        let copy = match copied(self.alloc, &bundle) {
            Ok(copy) => copy,
            Err(_) => {
                // the answer is told of a turn, in which nothing is done
                let _room = desk.shared.make_room(desk.rt, desk.seat, 0, 0);
                return Err((bundle, ReleaseFault::NoMemory));
            }
        };
        bundle.keeps_untouched();
        lent_is_marked();
        let pending = match desk.shared.begin(desk.rt, desk.seat, bundle) {
            Ok(pending) => pending,
            Err(back) => return Err(back),
        };
        let pending = match self.pool.submit(desk.rt, self.pass, pending) {
            Ok(()) => {
                return Ok(await_end(
                    desk.rt,
                    desk.shared,
                    desk.seat,
                    self.mails,
                    self.mail,
                    &copy,
                    reads,
                ));
            }
            Err(pending) => pending,
        };
        Ok(desk.shared.end_here(desk.rt, desk.seat, pending, reads))
    }

    fn settle(
        &mut self,
        bundle: Bundle,
        back: Vec<ReadLease>,
        calls: Vec<Done>,
    ) -> Result<(), (Bundle, Vec<ReadLease>, Vec<Done>, NoMemory)> {
        self.desk.settle(bundle, back, calls)
    }

    fn set_mode(
        &mut self,
        ino: u32,
        mode: u16,
        back: Vec<ReadLease>,
        call: Option<Call>,
    ) -> Result<(), (Vec<ReadLease>, Option<Call>, ModeFault)> {
        self.desk.set_mode(ino, mode, back, call)
    }
}
