//! What the rules ask of one file and of one entry.

ghost use Rattle.std.specs.Prelude.{◌≡◌};
ghost use Rattle.trio_rights.specs.Row.{row_in};
ghost use Rattle.trio_layout.specs.Allowed.{has_kind};
ghost use Rattle.trio_layout.specs.Listing.{is_kept};
ghost use Rattle.trio_layout.specs.Rules.{entry_in_grammar, entry_is_own, entry_keeps_rights, has_rights};
ghost use Rattle.trio_case.specs.Cases.{case_in};
ghost use Rattle.trio_judge.specs.inner.Walk.{body_keeps_rights, file_met};

use crate::walk::JudgedFile;
use trio_case::Case;
use trio_layout::Body;

/// Whether an entry is a kept child: the row of its number names this directory and this place.
pub(crate) fn is_kept(case: &Case, entry: &JudgedFile) -> bool
    ensures { result ≡ is_kept (case_in case.now) (file_met entry.now) }
{
    match case.row(entry.ino) {
        Some(row) => {
            row.parent == entry.parent && row.page == entry.page && row.slot == entry.slot
        }
        None => false,
    }
}

/// Whether the body in the slot of an entry is in the grammar, as it has to be where the entry isn't
/// a kept child.
pub(crate) fn is_in_grammar(case: &Case, entry: &JudgedFile, kept: bool) -> bool
    requires { kept ≡ is_kept (case_in case.now) (file_met entry.now) }
    ensures { result ≡ entry_in_grammar (case_in case.now) (file_met entry.now) }
{
    kept || Body::read(&entry.body, entry.kind, case.range()).is_some()
}

/// Whether an entry is a kept child, or names a held file or a new number of the bundle.
pub(crate) fn is_own(case: &Case, entry: &JudgedFile, kept: bool) -> bool
    requires { kept ≡ is_kept (case_in case.now) (file_met entry.now) }
    ensures { result ≡ entry_is_own (case_in case.now) (file_met entry.now) }
{
    kept || case.lent_body(entry.ino).is_some() || case.is_fresh(entry.ino)
}

/// Whether an entry has the kind of its row, where it is a kept child or names a held file, and a
/// held file that isn't a kept child the body that its hold lent.
pub(crate) fn entry_keeps_rights(case: &Case, entry: &JudgedFile, kept: bool) -> bool
    requires { kept ≡ is_kept (case_in case.now) (file_met entry.now) }
    ensures { result ≡ entry_keeps_rights (case_in case.now) (file_met entry.now) }
{
    if kept {
        return has_kind(case, entry);
    }
    match case.lent_body(entry.ino) {
        Some(body) => has_kind(case, entry) && entry.body == *body,
        None => true,
    }
}

fn has_kind(case: &Case, entry: &JudgedFile) -> bool
    ensures { result ≡ has_kind entry.now.kind (row_in case.now.rows entry.now.ino) }
{
    match case.row(entry.ino) {
        Some(row) => entry.kind == row.kind,
        None => false,
    }
}

/// Whether a written file's body has the row's mode, uid and gid, and a new file's the uid and gid of
/// the library.
pub(crate) fn file_keeps_rights(case: &Case, ino: u32, body: &Body) -> bool
    ensures { result ≡ body_keeps_rights (case_in case.now) ino body.now }
{
    if case.is_written(ino) {
        return has_rights(case, ino, body);
    }
    let creds = case.creds();
    body.uid == creds.uid && body.gid == creds.gid
}

fn has_rights(case: &Case, ino: u32, body: &Body) -> bool
    ensures { result ≡ has_rights (row_in case.now.rows ino) body.now }
{
    match case.row(ino) {
        Some(row) => row.mode == body.mode && row.uid == body.uid && row.gid == body.gid,
        None => false,
    }
}
