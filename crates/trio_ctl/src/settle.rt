//! Settles, each with its entries in the log.

ghost use Rattle.std.specs.Prelude.{◌≡◌, ◌≤◌, ◌+◌, IfErr, IsOk, OnErr, length};
ghost use Rattle.trio_rights.specs.Bundle.{bundle_pages};
ghost use Rattle.trio_lease.specs.Views.{bundle_in};
ghost use Rattle.trio_desk.specs.Call.{Settle, settle_told};
ghost use Rattle.trio_desk.specs.Out.{parcel_of};
ghost use Rattle.trio_desk.specs.Ready.{Ready};
ghost use Rattle.trio_state.specs.Kept.{Kept};
ghost use Rattle.trio_ctl.specs.Ctl.{IsIdle, IsLibrary};
ghost use Rattle.trio_ctl.specs.Desk.{Happens, LogsCall, desk_of};
ghost use Rattle.trio_ctl.specs.Room.{HasRoomFor, Spends};

use crate::backs::give_back_all;
use crate::ctl::{Ctl, make_places};
use crate::release_calls::{note, told};
use trio_entries::Told;
use trio_lease::{Bundle, ReadLease};
use trio_nodes::{Done, Entry, List};
use trio_page::{NoMemory, Reads};
use trio_rights::LibNo;

impl Ctl {
    /// Takes all that a library has out, and the calls that come to what it shows: the write leases,
    /// the holds and what is allotted in a bundle, and the read leases.
    ///
    /// The read leases are given back first, each with its entry in the log. What is ready is
    /// accepted: the image that the bundle proposes is settled then, the grants and allotments of the
    /// library have ended, and what no file has is free. One `Batch` stands in the log, with the calls
    /// and the bundle as it was handed in; the nodes after it are those in which the calls end.
    ///
    /// After `NoMemory` nothing changed, and all of it comes back; a log that has as many entries as a
    /// `u64` counts has no memory for one more. With one spare entry and the bundle's
    /// [`room`](Self::room) in spare bytes it doesn't come ([`make_room`](Self::make_room)).
    ///
    /// Home is looked at as by a [`release`](Self::release) of the bundle.
    pub fn settle(
        &mut self,
        lib: LibNo,
        bundle: Bundle,
        back: Vec<ReadLease>,
        calls: Vec<Done>,
    ) -> Result<(), (Bundle, Vec<ReadLease>, Vec<Done>, NoMemory)>
        requires library { IsLibrary lib self.old.state }
        requires idle { IsIdle self.old lib.0 }
        requires ready { Ready (desk_of self.old.state lib) (parcel_of bundle) back.items calls.items }
        ensures happens { Happens self.old.state lib (Settle (parcel_of bundle) back.items calls.items) (settle_told result) self.new.state }
        ensures logs { LogsCall self.old lib (Settle (parcel_of bundle) back.items calls.items) (settle_told result) self.new }
        ensures bundle { IfErr result (λ came. came.0 ≡ bundle) }
        ensures leases { IfErr result (λ came. came.1 ≡ back) }
        ensures calls { IfErr result (λ came. came.2 ≡ calls) }
        ensures sure { HasRoomFor self.old (bundle_in bundle) → IsOk result }
        ensures spends { Spends 1 0 self.old.spare self.new.spare }
        ensures unspent { OnErr result (Spends 0 0 self.old.spare self.new.spare) }
        ensures floor { self.old.looked ≤ self.new.looked }
        ensures looked { self.new.looked ≤ self.old.looked + length (bundle_pages (bundle_in bundle)) + length (bundle_in bundle).writes }
        ensures was_kept { Kept self.old.state }
        ensures kept { Kept self.new.state }
    {
        self.log.is_small();
        let Ok(()) = make_places(&mut self.log, self.registry.promised(), 1) else {
            return Err((bundle, back, calls, NoMemory));
        };
        bundle.keeps_untouched();
        let mut reads = Reads::new();
        let entry = self.log.len();
        let spares = &mut self.spares;
        let (case, outcome, draft) = match self
            .registry
            .judged(spares, entry, lib, bundle, &mut reads)
        {
            Ok(judged) => judged,
            Err((bundle, _)) => return Err((bundle, back, calls, NoMemory)),
        };
        let rows = self.registry.rows();
        let told = told(draft, rows, &self.notes, &case, &outcome);
        give_back_all(&mut self.registry, &mut self.log, lib, back);
        let verdict = self
            .registry
            .conclude(self.log.len(), lib, case, outcome, &mut reads);
        let Told { files, bundle } = told;
        note(&mut self.notes, verdict, files.as_slice());
        self.log.push(Entry::Batch {
            lib,
            calls: List::from_vec(calls),
            handed: bundle.into_handed(),
        });
        Ok(())
    }
}
