//! The store.

ghost use Rattle.std.specs.Prelude.{◌≡◌, ◌≤◌, ◌+◌, ◌++◌, [], ℕ, None, IsTrue, length, slice_index};
ghost use Rattle.trio_lists.specs.Lists.{In, are_new};
ghost use Rattle.trio_lists.specs.Marked.{all_below};
ghost use Rattle.trio_rights.specs.Bundle.{bundle_pages, bundle_sheets};
ghost use Rattle.trio_rights.specs.Row.{row_in};
ghost use Rattle.trio_rights.specs.Sheets.{sheet_numbers, with_pages};
ghost use Rattle.trio_lease.specs.Views.{bundle_in};
ghost use Rattle.trio_tables.specs.Out.{with_all};
ghost use Rattle.trio_allot.specs.Out.{outs_after};
ghost use Rattle.trio_layout.specs.Accept.{with_bodies};
ghost use Rattle.trio_layout.specs.Survey.{Met};
ghost use Rattle.trio_layout.specs.Tables.{owner_after, row_after};
ghost use Rattle.trio_commit.specs.Bodies.{IsPlaced, bodies_home, kept_children, page_changes, placed_files, root_after, with_written};
ghost use Rattle.trio_commit.specs.Handed.{AreOutTo, lent_uncovered, written_covered, written_numbers};
ghost use Rattle.trio_commit.specs.Listed.{HasNumbersBelow, HasPagesBelow, OwnersAreHanded, StandsInSlots, file_numbers};

use crate::bodies::{put_kept, put_root, put_written};
use crate::bundles::{bring_home, bring_uncovered};
use crate::owners::put_owners;
use crate::restoring::{end_grants, give_bodies_back, restore_written};
use crate::rows::put_rows;
use trio_allot::Allotments;
use trio_case::Listing;
use trio_checkpoint::Checkpoint;
use trio_lease::Bundle;
use trio_page::{Home, Reads};
use trio_rights::LibNo;
use trio_tables::{Owners, Shadow};

/// What the controller keeps of an image: the pages that are at home, the body of the root, the
/// tables, what is out by allotment, and the checkpoints of the files that are lent for writing.
///
/// Contracts see it with some open grants as the state of a controller (`state_of` of
/// `specs/Store.antt`).
#[derive(Drop)]
pub struct Store {
    pub home: Home,
    pub root: [u8; 64],
    pub rows: Shadow,
    pub owners: Owners,
    pub allotments: Allotments,
    /// By inode number. `None` stands at 0, and at each number whose file isn't lent for writing.
    pub checkpoints: Vec<Option<Checkpoint>>,
}

impl Store {
    /// Ends a bundle of this library that is accepted, and has this listing.
    ///
    /// The body of each written file goes where its directory has it: into the checkpoint of the
    /// directory where that is lent, else to its place at home. All pages of the bundle come home.
    /// There each kept child of a written directory has the settled body, or that of its own lease:
    /// the one that the directory's checkpoint has then. The checkpoints of the written files are
    /// gone. The tables are those that the listing says, and the bundle's allotments end.
    ///
    /// Takes no memory. Home is looked at once for each body that is put there, and once where kept
    /// children that follow each other stand on one page.
    ///
    /// The bundle's allotments are out to the library. Its pages and those that are listed are the
    /// image's, and so are the numbers that are listed. The pages of the written files' leases are
    /// those that the table of owners gives to judged files. The place of each written file is one
    /// that the checkpoint of its directory covers, if it has one.
    pub fn commit(&mut self, lib: LibNo, bundle: Bundle, listing: Listing, reads: &mut Reads)
        requires allotted { AreOutTo self.old.allotments lib (bundle_in bundle) }
        requires within { IsTrue (all_below (length self.old.home.pages) (bundle_pages (bundle_in bundle))) }
        requires table { length self.old.owners ≡ length self.old.home.pages }
        requires places { (m : Met) → In m (placed_files self.old.rows (bundle_in bundle)) → IsPlaced self.old.checkpoints.items m }
        requires handed { OwnersAreHanded listing.listing self.old.owners (bundle_in bundle) }
        requires numbers { HasNumbersBelow (length self.old.rows) listing.listing }
        requires slots { StandsInSlots listing.listing.entries }
        requires listed { HasPagesBelow (length self.old.owners) listing.listing }
        ensures home { let lent = with_written self.old.rows self.old.checkpoints.items (bundle_in bundle) in
            self.new.home.pages ≡ with_bodies (kept_children lent listing.listing.entries)
            (with_pages (bundle_sheets (bundle_in bundle))
            (with_bodies (bodies_home self.old.rows self.old.checkpoints.items (bundle_in bundle)) self.old.home.pages)) }
        ensures checkpoints { self.new.checkpoints.items
            ≡ with_all None (file_numbers listing.listing) (with_written self.old.rows self.old.checkpoints.items (bundle_in bundle)) }
        ensures root { self.new.root ≡ root_after (bundle_in bundle) self.old.root }
        ensures rows { (n : ℕ) → row_in self.new.rows n ≡ row_after listing.listing self.old.rows n }
        ensures owners { (page : ℕ) → slice_index self.new.owners page ≡ owner_after listing.listing self.old.owners page }
        ensures sizes { (length self.new.rows ≡ length self.old.rows) × (length self.new.owners ≡ length self.old.owners) }
        ensures allotments { self.new.allotments ≡ outs_after self.old.allotments (sheet_numbers (bundle_in bundle).pages) (bundle_in bundle).numbers }
        ensures floor { self.old.home.looked ≤ self.new.home.looked }
        ensures looked { let lent = with_written self.old.rows self.old.checkpoints.items (bundle_in bundle) in
            self.new.home.looked ≤ self.old.home.looked + length (bundle_in bundle).writes + page_changes None (kept_children lent listing.listing.entries) }
        ensures reads { let lent = with_written self.old.rows self.old.checkpoints.items (bundle_in bundle) in
            reads.new ≤ reads.old + length (bundle_in bundle).writes + page_changes None (kept_children lent listing.listing.entries) }
    {
        put_root(&mut self.root, bundle.writes());
        put_written(
            &mut self.home,
            &mut self.checkpoints,
            &self.rows,
            bundle.writes(),
            reads,
        );
        bring_home(
            &mut self.home,
            &mut self.owners,
            &mut self.allotments,
            bundle,
        );
        put_kept(&mut self.home, &self.checkpoints, listing.entries(), reads);
        end_grants(&mut self.checkpoints, listing.files());
        put_rows(&mut self.rows, &listing);
        put_owners(&mut self.owners, &listing);
    }

    /// Ends a bundle of this library that is refused. What the checkpoints of the written files
    /// cover is put back at home, and they are gone. The lent blocks of links and of regular files
    /// that aren't guarded, which no checkpoint covers, and the allotted pages come home as handed
    /// in. Whether a file is guarded goes by the body that it was lent with, which its checkpoint
    /// has, and not by what its writer made of that. The bundle's allotments end. Takes no memory.
    ///
    /// The bundle's allotments are out to the library; each file stands among its leases once; the
    /// pages of the bundle, and those that the checkpoints of its files cover, are the image's.
    pub fn roll_back(&mut self, lib: LibNo, bundle: Bundle)
        requires allotted { AreOutTo self.old.allotments lib (bundle_in bundle) }
        requires once { IsTrue (are_new [] (written_numbers (bundle_in bundle))) }
        requires within { IsTrue (all_below (length self.old.home.pages) (bundle_pages (bundle_in bundle))) }
        requires covered { IsTrue (all_below (length self.old.home.pages) (sheet_numbers (written_covered self.old.checkpoints.items (bundle_in bundle)))) }
        ensures home { self.new.home ≡ record self.old.home {
          pages = with_pages (lent_uncovered self.old.checkpoints.items (bundle_in bundle) ++ (bundle_in bundle).pages)
              (with_pages (written_covered self.old.checkpoints.items (bundle_in bundle)) self.old.home.pages);
        } }
        ensures checkpoints { self.new.checkpoints.items ≡ with_all None (written_numbers (bundle_in bundle)) self.old.checkpoints.items }
        ensures allotments { self.new.allotments ≡ outs_after self.old.allotments (sheet_numbers (bundle_in bundle).pages) (bundle_in bundle).numbers }
        ensures root { self.new.root ≡ self.old.root }
        ensures rows { self.new.rows ≡ self.old.rows }
        ensures owners { self.new.owners ≡ self.old.owners }
    {
        let mut parts = bundle.parts();
        give_bodies_back(&self.checkpoints, &mut parts.writes);
        restore_written(&mut self.home, &mut self.checkpoints, &parts.writes);
        bring_uncovered(&mut self.home, &mut self.allotments, parts);
    }
}
