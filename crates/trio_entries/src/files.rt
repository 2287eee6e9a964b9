//! What a release tells of files.

ghost use Rattle.std.specs.Prelude.{◌≡◌, ◌+◌, ◌≤◌, ◌<◌, ◌++◌, [], true, length, map, vec_capacity, vec_len};
ghost use Rattle.std.specs.List.{cons_option, filter_map};
ghost use Rattle.trio_lists.specs.Lists.{are_new};
ghost use Rattle.trio_lists.specs.Sorting.{sorted_by};
ghost use Rattle.trio_lease.specs.Views.{bundle_in};
ghost use Rattle.trio_state.specs.Listed.{accepted_files, refused_files, told_entry, told_gone, told_same, told_written};
ghost use Rattle.trio_entries.specs.Telling.{whole_case, AreNoted};
ghost use Rattle.trio_entries.specs.inner.Finding.{AreWrittenNoted, IsFinderOf, IsJudgedBy, IsToldBy};
ghost use Rattle.trio_entries.specs.inner.Once.{lent_once, AreListedOnce};

use crate::finder::Finder;
use crate::notes::Notes;
use crate::told::{is_listed, told_entry, told_noted, told_written};
use trio_case::{Case, Listing};
use trio_nodes::RawFile;
use trio_tables::Shadow;

/// The files of a release that is accepted, in the order of their numbers, put into an empty list
/// that has places for them.
pub(crate) fn accepted_files(
    files: &mut Vec<RawFile>,
    case: &Case,
    listing: &Listing,
    rows: &Shadow,
    notes: &Notes,
    finder: &Finder,
)
    requires empty { files.old.items ≡ [] }
    requires places { length listing.now.listing.entries + length case.now.bundle.writes + length case.now.bundle.holds ≤ vec_capacity files.old }
    requires finder { IsFinderOf case.now finder.now }
    requires judged { IsJudgedBy case.now listing.now.listing finder.now }
    requires entries { IsToldBy case.now listing.now.listing }
    requires once { AreListedOnce case.now listing.now.listing }
    requires noted { AreNoted rows.now notes.now }
    requires written { AreWrittenNoted case.now notes.now }
    ensures files { files.new.items ≡ accepted_files (whole_case case.now rows.now) listing.now.listing notes.now }
    ensures once { are_new [] (map (λ f. f.ino) files.new.items) ≡ true }
{
    add_entries(files, case, listing, rows, notes, finder);
    add_written(files, case, listing, rows, notes, finder);
    add_gone(files, case, listing, rows, notes);
    sort_files(files);
}

/// The files of a release that is refused, in the order of their numbers, put into an empty list that
/// has places for them.
pub(crate) fn refused_files(files: &mut Vec<RawFile>, case: &Case, rows: &Shadow, notes: &Notes)
    requires empty { files.old.items ≡ [] }
    requires places { length case.now.bundle.writes + length case.now.bundle.holds ≤ vec_capacity files.old }
    requires once { lent_once case.now ≡ true }
    requires noted { AreNoted rows.now notes.now }
    ensures files { files.new.items ≡ refused_files (whole_case case.now rows.now) notes.now }
    ensures once { are_new [] (map (λ f. f.ino) files.new.items) ≡ true }
{
    add_same_written(files, case, rows, notes);
    add_same_held(files, case, rows, notes);
    sort_files(files);
}

/// Puts files of distinct numbers into the order of their numbers.
fn sort_files(files: &mut Vec<RawFile>)
    requires { are_new [] (map (λ f. f.ino) files.old.items) ≡ true }
    ensures sorted { files.new.items ≡ sorted_by (λ f. f.ino) files.old.items }
    ensures once { are_new [] (map (λ f. f.ino) files.new.items) ≡ true }
{
    files.sort_unstable_by_key(|file| file.ino);
}

/// Adds what the entries of the judged directories tell.
fn add_entries(
    files: &mut Vec<RawFile>,
    case: &Case,
    listing: &Listing,
    rows: &Shadow,
    notes: &Notes,
    finder: &Finder,
)
    requires places { vec_len files.old + length listing.now.listing.entries ≤ vec_capacity files.old }
    requires finder { IsFinderOf case.now finder.now }
    requires judged { IsJudgedBy case.now listing.now.listing finder.now }
    requires entries { IsToldBy case.now listing.now.listing }
    ensures files { files.new.items ≡ files.old.items ++ filter_map (told_entry (whole_case case.now rows.now) listing.now.listing notes.now) listing.now.listing.entries }
    ensures len { vec_len files.new ≤ vec_len files.old + length listing.now.listing.entries }
    ensures capacity { vec_capacity files.new ≡ vec_capacity files.old }
{
    for entry in listing.entries() {
        let file = told_entry(case, listing, rows, notes, finder, entry);
        add(files, file);
    }
}

/// Adds what the written files tell that no judged directory lists.
fn add_written(
    files: &mut Vec<RawFile>,
    case: &Case,
    listing: &Listing,
    rows: &Shadow,
    notes: &Notes,
    finder: &Finder,
)
    requires places { vec_len files.old + length case.now.bundle.writes ≤ vec_capacity files.old }
    requires judged { IsJudgedBy case.now listing.now.listing finder.now }
    requires written { AreWrittenNoted case.now notes.now }
    ensures files { files.new.items ≡ files.old.items ++ filter_map (told_written (whole_case case.now rows.now) listing.now.listing notes.now) (bundle_in case.now.bundle).writes }
    ensures len { vec_len files.new ≤ vec_len files.old + length case.now.bundle.writes }
    ensures capacity { vec_capacity files.new ≡ vec_capacity files.old }
{
    for lease in case.bundle().writes() {
        let file = told_written(case, listing, rows, notes, finder, lease);
        add(files, file);
    }
}

/// Adds what the held files tell that are listed nowhere.
fn add_gone(files: &mut Vec<RawFile>, case: &Case, listing: &Listing, rows: &Shadow, notes: &Notes)
    requires places { vec_len files.old + length listing.now.listing.held ≤ vec_capacity files.old }
    requires noted { AreNoted rows.now notes.now }
    ensures { files.new.items ≡ files.old.items ++ filter_map (told_gone (whole_case case.now rows.now) listing.now.listing notes.now) listing.now.listing.held }
{
    for ino in listing.held() {
        let file = told_gone(case, listing, rows, notes, *ino);
        add(files, file);
    }
}

/// What a held file tells that is listed nowhere: it is gone.
fn told_gone(
    case: &Case,
    listing: &Listing,
    rows: &Shadow,
    notes: &Notes,
    ino: u32,
) -> Option<RawFile>
    requires { AreNoted rows.now notes.now }
    ensures { result ≡ told_gone (whole_case case.now rows.now) listing.now.listing notes.now ino }
{
    if is_listed(listing, ino) {
        None
    } else {
        told_noted(case, rows, notes, ino, true)
    }
}

/// Adds the written files, as they were.
fn add_same_written(files: &mut Vec<RawFile>, case: &Case, rows: &Shadow, notes: &Notes)
    requires places { vec_len files.old + length case.now.bundle.writes ≤ vec_capacity files.old }
    requires noted { AreNoted rows.now notes.now }
    ensures files { files.new.items ≡ files.old.items ++ filter_map (told_same (whole_case case.now rows.now) notes.now) (map (λ w. w.ino) (bundle_in case.now.bundle).writes) }
    ensures len { vec_len files.new ≤ vec_len files.old + length case.now.bundle.writes }
    ensures capacity { vec_capacity files.new ≡ vec_capacity files.old }
{
    for lease in case.bundle().writes() {
        let file = told_noted(case, rows, notes, lease.ino(), false);
        add(files, file);
    }
}

/// Adds the held files, as they were.
fn add_same_held(files: &mut Vec<RawFile>, case: &Case, rows: &Shadow, notes: &Notes)
    requires places { vec_len files.old + length case.now.bundle.holds ≤ vec_capacity files.old }
    requires noted { AreNoted rows.now notes.now }
    ensures { files.new.items ≡ files.old.items ++ filter_map (told_same (whole_case case.now rows.now) notes.now) (bundle_in case.now.bundle).holds }
{
    for hold in case.bundle().holds() {
        let file = told_noted(case, rows, notes, hold.ino(), false);
        add(files, file);
    }
}

/// Adds a file, if there is one, to a list that has a place for it.
fn add(files: &mut Vec<RawFile>, file: Option<RawFile>)
    requires { vec_len files.old < vec_capacity files.old }
    ensures file { files.new.items ≡ files.old.items ++ cons_option file [] }
    ensures len { vec_len files.new ≤ vec_len files.old + 1 }
    ensures capacity { vec_capacity files.new ≡ vec_capacity files.old }
{
    if let Some(file) = file {
        files.push_reserved(file);
    }
}
