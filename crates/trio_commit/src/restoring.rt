//! Checkpoints that are put back at home.

ghost use Rattle.std.specs.Prelude.{◌≡◌, [], None, IsTrue, length, map, slice_set};
ghost use Rattle.std.specs.List.{flat_map};
ghost use Rattle.std.specs.Option.{option_copied};
ghost use Rattle.trio_lists.specs.Lists.{are_new};
ghost use Rattle.trio_lists.specs.Marked.{all_below};
ghost use Rattle.trio_rights.specs.Sheets.{sheet_numbers, with_pages};
ghost use Rattle.trio_tables.specs.Out.{with_all};
ghost use Rattle.trio_commit.specs.Store.{checkpoint_at, covered_at};
ghost use Rattle.trio_commit.specs.inner.Files.{as_before, lease_numbers};

use trio_case::ListedFile;
use trio_checkpoint::Checkpoint;
use trio_lease::WriteLease;
use trio_page::Home;

/// Gives these leases the bodies that their files were lent with, as their checkpoints have them.
pub(crate) fn give_bodies_back(checkpoints: &[Option<Checkpoint>], writes: &mut [WriteLease])
    ensures { writes.new ≡ map (as_before checkpoints.now) writes.old }
{
    for lease in writes.iter_mut() {
        give_body_back(checkpoints, lease);
    }
}

/// Gives a lease the body that its file was lent with, if it has a checkpoint.
fn give_body_back(checkpoints: &[Option<Checkpoint>], lease: &mut WriteLease)
    ensures { lease.new ≡ as_before checkpoints.now lease.old }
{
    if let Some(checkpoint) = checkpoint_of(checkpoints, lease.ino()) {
        *lease.body_mut() = *checkpoint.body();
    }
}

/// The checkpoint of this file. `None` where it has none.
fn checkpoint_of(checkpoints: &[Option<Checkpoint>], ino: u32) -> Option<&Checkpoint>
    ensures { option_copied result ≡ checkpoint_at checkpoints.now ino }
{
    checkpoints.get(ino as usize)?.as_ref()
}

/// Puts back at home what the checkpoints of these files cover, and lets the checkpoints go.
pub(crate) fn restore_written(
    home: &mut Home,
    checkpoints: &mut Vec<Option<Checkpoint>>,
    writes: &[WriteLease],
)
    requires once { IsTrue (are_new [] (lease_numbers writes.now)) }
    requires covered { IsTrue (all_below (length home.old.pages) (sheet_numbers (flat_map (covered_at checkpoints.old.items) (lease_numbers writes.now)))) }
    ensures home { home.new ≡ record home.old { pages = with_pages (flat_map (covered_at checkpoints.old.items) (lease_numbers writes.now)) home.old.pages } }
    ensures checkpoints { checkpoints.new.items ≡ with_all None (lease_numbers writes.now) checkpoints.old.items }
{
    for lease in writes {
        restore(home, checkpoints, lease.ino());
    }
}

/// Puts back at home what the checkpoint of this file covers, if it has one, and lets it go.
fn restore(home: &mut Home, checkpoints: &mut Vec<Option<Checkpoint>>, ino: u32)
    requires { IsTrue (all_below (length home.old.pages) (sheet_numbers (covered_at checkpoints.old.items ino))) }
    ensures home { home.new ≡ record home.old { pages = with_pages (covered_at checkpoints.old.items ino) home.old.pages } }
    ensures checkpoints { checkpoints.new.items ≡ slice_set checkpoints.old.items ino None }
{
    if let Some(checkpoint) = take_checkpoint(checkpoints, ino) {
        let _body = checkpoint.restored(home);
    }
}

/// Takes the checkpoint of this file out. `None` where it has none.
fn take_checkpoint(checkpoints: &mut Vec<Option<Checkpoint>>, ino: u32) -> Option<Checkpoint>
    ensures checkpoint { result ≡ checkpoint_at checkpoints.old.items ino }
    ensures gone { checkpoints.new.items ≡ slice_set checkpoints.old.items ino None }
{
    checkpoints.get_mut(ino as usize)?.take()
}

/// Lets the checkpoints of these files go.
pub(crate) fn end_grants(checkpoints: &mut Vec<Option<Checkpoint>>, files: &[ListedFile])
    ensures { checkpoints.new.items ≡ with_all None (map (λ f. f.ino) files.now) checkpoints.old.items }
{
    for file in files {
        let _ended = take_checkpoint(checkpoints, file.ino);
    }
}
