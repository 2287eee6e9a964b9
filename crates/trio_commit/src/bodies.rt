//! Bodies that are put in place.

ghost use Rattle.std.specs.Prelude.{◌≡◌, ◌≢◌, ◌≤◌, ◌+◌, ◌<◌, ◌==◌, ◌++◌, ◌∷◌, [], List, None, Some, if◌then◌else◌, is_some, length, map, slice_index_or, slice_set};
ghost use Rattle.std.specs.Option.{option_copied, option_map};
ghost use Rattle.std.specs.List.{find};
ghost use Rattle.trio_layout.specs.Accept.{with_bodies, with_body_at};
ghost use Rattle.trio_layout.specs.Survey.{Met};
ghost use Rattle.trio_case.specs.Listed.{entry_seen};
ghost use Rattle.trio_commit.specs.Bodies.{bodies_home, kept_body, kept_children, page_changes, placed_files, root_after, with_children};
ghost use Rattle.trio_commit.specs.Listed.{StandsInSlots};
ghost use Rattle.trio_commit.specs.Store.{checkpoint_at};
ghost use Rattle.trio_commit.specs.inner.Files.{leases_in};
ghost use Rattle.trio_commit.specs.inner.Putting.{ArePlaced, Covers, IsAway, NamesNoRoot, looks_for, taken_number, with_body_on, with_taken};

use crate::taken_page::{TakenPage, put_body_home};
use trio_case::ListedEntry;
use trio_checkpoint::Checkpoint;
use trio_lease::WriteLease;
use trio_page::{Home, PageNo, Reads};
use trio_tables::{Row, Shadow};

/// The inode number of the root.
const ROOT: u32 = 1;

/// Puts the body of the root in place, if the root is written.
pub(crate) fn put_root(root: &mut [u8; 64], writes: &[WriteLease])
    ensures { root.new ≡ root_after (leases_in writes.now) root.old }
{
    if let Some(body) = written_root(writes) {
        *root = *body;
    }
}

/// The root's body, if the root is written.
fn written_root(writes: &[WriteLease]) -> Option<&[u8; 64]>
    ensures { option_copied result ≡ option_map (λ f. f.stands.body) (find (λ f. f.stands.ino == 1) writes.now) }
{
    let lease = writes.iter().find(|lease| lease.ino() == ROOT)?;
    Some(lease.body())
}

/// Puts the bodies of written files where their directories have them: into the directory's
/// checkpoint where it is lent, else at home. The root's has no place.
pub(crate) fn put_written(
    home: &mut Home,
    checkpoints: &mut Vec<Option<Checkpoint>>,
    rows: &Shadow,
    writes: &[WriteLease],
    reads: &mut Reads,
)
    requires { ArePlaced rows.now checkpoints.old.items writes.now }
    ensures home { home.new.pages ≡ with_bodies (bodies_home rows.now checkpoints.old.items (leases_in writes.now)) home.old.pages }
    ensures checkpoints { checkpoints.new.items ≡ with_children (placed_files rows.now (leases_in writes.now)) checkpoints.old.items }
    ensures floor { home.old.looked ≤ home.new.looked }
    ensures looked { home.new.looked ≤ home.old.looked + length writes.now }
    ensures reads { reads.new ≤ reads.old + length writes.now }
{
    for lease in writes {
        put_lease(home, checkpoints, rows, lease, reads);
    }
}

/// Puts the body of one written file where its directory has it.
fn put_lease(
    home: &mut Home,
    checkpoints: &mut Vec<Option<Checkpoint>>,
    rows: &Shadow,
    lease: &WriteLease,
    reads: &mut Reads,
)
    requires { ArePlaced rows.now checkpoints.old.items (lease.now ∷ []) }
    ensures home { home.new.pages ≡ with_bodies (bodies_home rows.now checkpoints.old.items (leases_in (lease.now ∷ []))) home.old.pages }
    ensures checkpoints { checkpoints.new.items ≡ with_children (placed_files rows.now (leases_in (lease.now ∷ []))) checkpoints.old.items }
    ensures floor { home.old.looked ≤ home.new.looked }
    ensures looked { home.new.looked ≤ home.old.looked + 1 }
    ensures reads { reads.new ≤ reads.old + 1 }
{
    if lease.ino() == ROOT {
        return;
    }
    if let Some(row) = rows.row(lease.ino()) {
        put_at(home, checkpoints, &row, lease.body(), reads);
    }
}

/// Puts a body at the place that a row names: into the checkpoint of the directory where that is
/// lent, else at home, which is one look.
fn put_at(
    home: &mut Home,
    checkpoints: &mut Vec<Option<Checkpoint>>,
    row: &Row,
    body: &[u8; 64],
    reads: &mut Reads,
)
    requires slot { row.now.slot < 16 }
    requires covered { Covers row.now.page (checkpoint_at checkpoints.old.items row.now.parent) }
    ensures home { home.new.pages ≡ (if is_some (checkpoint_at checkpoints.old.items row.now.parent) then home.old.pages else with_body_at row.now.page row.now.slot body.now home.old.pages) }
    ensures checkpoints { checkpoints.new.items ≡ slice_set checkpoints.old.items row.now.parent (option_map (with_body_on row.now.page row.now.slot body.now) (checkpoint_at checkpoints.old.items row.now.parent)) }
    ensures floor { home.old.looked ≤ home.new.looked }
    ensures looked { home.new.looked ≤ home.old.looked + 1 }
    ensures reads { reads.new ≤ reads.old + 1 }
{
    if !put_in_checkpoint(checkpoints, row, body) {
        put_body_home(home, PageNo(row.page), row.slot, body, reads);
    }
}

/// Puts a body at the place that a row names in the checkpoint of the directory. Answers whether the
/// directory has one.
fn put_in_checkpoint(checkpoints: &mut Vec<Option<Checkpoint>>, row: &Row, body: &[u8; 64]) -> bool
    requires slot { row.now.slot < 16 }
    requires covered { Covers row.now.page (checkpoint_at checkpoints.old.items row.now.parent) }
    ensures lent { result ≡ is_some (checkpoint_at checkpoints.old.items row.now.parent) }
    ensures checkpoints { checkpoints.new.items ≡ slice_set checkpoints.old.items row.now.parent (option_map (with_body_on row.now.page row.now.slot body.now) (checkpoint_at checkpoints.old.items row.now.parent)) }
{
    match checkpoints.get_mut(row.parent as usize) {
        Some(checkpoint) => put_in(checkpoint, row, body),
        None => false,
    }
}

/// Puts a body at the place that a row names in this checkpoint, if there is one. Answers whether
/// there is.
fn put_in(checkpoint: &mut Option<Checkpoint>, row: &Row, body: &[u8; 64]) -> bool
    requires slot { row.now.slot < 16 }
    requires covered { Covers row.now.page checkpoint.old }
    ensures lent { result ≡ is_some checkpoint.old }
    ensures checkpoint { checkpoint.new ≡ option_map (with_body_on row.now.page row.now.slot body.now) checkpoint.old }
{
    match checkpoint {
        Some(checkpoint) => {
            checkpoint.put_body(PageNo(row.page), row.slot, body);
            true
        }
        None => false,
    }
}

/// Puts the bodies that the checkpoints of their directories have for kept children at their
/// places at home. Where kept children that follow each other stand on one page, it is one look.
pub(crate) fn put_kept(
    home: &mut Home,
    checkpoints: &[Option<Checkpoint>],
    entries: &[ListedEntry],
    reads: &mut Reads,
)
    requires slots { StandsInSlots (map entry_seen entries.now) }
    requires no_root { NamesNoRoot (map entry_seen entries.now) }
    ensures home { home.new.pages ≡ with_bodies (kept_children checkpoints.now (map entry_seen entries.now)) home.old.pages }
    ensures floor { home.old.looked ≤ home.new.looked }
    ensures looked { home.new.looked ≤ home.old.looked + page_changes None (kept_children checkpoints.now (map entry_seen entries.now)) }
    ensures reads { reads.new ≤ reads.old + page_changes None (kept_children checkpoints.now (map entry_seen entries.now)) }
{
    let mut taken = None;
    for entry in entries {
        taken = put_entry(home, taken, checkpoints, entry, reads);
    }
    if let Some(page) = taken {
        page.put_back(home);
    }
}

/// Puts the body of one kept child into the page of its place, which is the one that is taken then.
/// Of every other entry nothing is done.
fn put_entry(
    home: &mut Home,
    taken: Option<TakenPage>,
    checkpoints: &[Option<Checkpoint>],
    entry: &ListedEntry,
    reads: &mut Reads,
) -> Option<TakenPage>
    requires away { IsAway taken home.old.pages }
    requires slot { entry.now.slot < 16 }
    requires no_root { entry.now.ino ≢ 1 }
    ensures away { IsAway result home.new.pages }
    ensures pages { with_taken result home.new.pages ≡ with_bodies (kept_children checkpoints.now (entry_seen entry.now ∷ [])) (with_taken taken home.old.pages) }
    ensures floor { home.old.looked ≤ home.new.looked }
    ensures looked { (later : List Met) → home.new.looked + page_changes (taken_number result) later
        ≤ home.old.looked + page_changes (taken_number taken) (kept_children checkpoints.now (entry_seen entry.now ∷ []) ++ later) }
    ensures reads { (later : List Met) → reads.new + page_changes (taken_number result) later
        ≤ reads.old + page_changes (taken_number taken) (kept_children checkpoints.now (entry_seen entry.now ∷ []) ++ later) }
{
    let Some(body) = kept_body(checkpoints, entry) else {
        return taken;
    };
    let mut page = move_on(home, taken, PageNo(entry.page), reads);
    page.put_body(entry.slot, body);
    Some(page)
}

/// The page of this number: the one that is taken already, if it is that, else this page, once the
/// other is put back.
fn move_on(home: &mut Home, taken: Option<TakenPage>, no: PageNo, reads: &mut Reads) -> TakenPage
    requires { IsAway taken home.old.pages }
    ensures number { result.no ≡ no }
    ensures page { result.page ≡ slice_index_or (with_taken taken home.old.pages) no.0 None }
    ensures away { IsAway (Some result) home.new.pages }
    ensures pages { with_taken (Some result) home.new.pages ≡ with_taken taken home.old.pages }
    ensures floor { home.old.looked ≤ home.new.looked }
    ensures looked { home.new.looked ≤ home.old.looked + looks_for no.0 taken }
    ensures reads { reads.new ≤ reads.old + looks_for no.0 taken }
{
    match taken {
        Some(page) if page.no == no => page,
        Some(page) => {
            page.put_back(home);
            TakenPage::take(home, no, reads)
        }
        None => TakenPage::take(home, no, reads),
    }
}

/// The body that the checkpoint of its directory has for a kept child, at its place. `None` of
/// every other entry.
fn kept_body<'a>(checkpoints: &'a [Option<Checkpoint>], entry: &ListedEntry) -> Option<&'a [u8; 64]>
    requires { entry.now.slot < 16 }
    ensures { option_copied result ≡ kept_body checkpoints.now (entry_seen entry.now) }
{
    if !entry.kept {
        return None;
    }
    let checkpoint = checkpoints.get(entry.dir as usize)?.as_ref()?;
    checkpoint.body_at(PageNo(entry.page), entry.slot)
}
