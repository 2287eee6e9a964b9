//! A session at its desk, for what no report of a script tells: how many names it looked up, and who has
//! what it wants.

ghost use Rattle.std.specs.Prelude.{◌≡◌, IfSome, length};
ghost use Rattle.trio_edit_laws.specs.Calls.{MayCall};
ghost use Rattle.trio_calls_dir.specs.Dir.{IsDirCall};
ghost use Rattle.trio_calls_file.specs.Asks.{IsFileCall};
ghost use Rattle.trio_ctl.specs.Ctl.{NoneBegun};
ghost use Rattle.trio_session_tests.specs.Begins.{MayBegin, NothingIsOut, second_lib};
ghost use Rattle.trio_session_tests.specs.Turns.{IsCall};

use crate::images::{Start, image_of};
use std::alloc::Global;
use trio_calls_dir::dir_call;
use trio_calls_file::file_call;
use trio_ctl::{Ctl, PlainDesk};
use trio_desk::Desk;
use trio_lease::Lease;
use trio_names::Path;
use trio_nodes::{Call, GrantKind, Holder, Reply, SharedBytes};
use trio_rights::{Creds, LibNo, Mode};
use trio_session::Session;
use trio_walk::Outcome;

/// What a library does.
#[derive(Clone, Copy)]
enum Deed {
    /// It makes 200 files in the root, removes those of even numbers and renames the others.
    Many,
    /// It writes these bytes into the file `f` of the directory `a`.
    Write(&'static [u8]),
    /// It lists the directory of this path.
    List(&'static [u8]),
}

/// What is known of a session once all calls were made.
#[derive(Clone, Copy)]
struct Heard {
    /// How many names it looked up in an index.
    finds: u64,
    /// Who has what the last call wanted, where that wasn't done.
    holder: Option<Holder>,
}

/// A controller for two libraries, of uid 0 and of uid 5.
pub fn started(alloc: Global, start: Start) -> Option<Ctl>
    ensures two { IfSome result (λ ctl. length ctl.state.creds ≡ 2) }
    ensures none { IfSome result NothingIsOut }
{
    let image = image_of(alloc, start)?;
    let libs = vec![in alloc; Creds { uid: 0, gid: 0 }, Creds { uid: 5, gid: 5 }].ok()?;
    Ctl::start(alloc, image, libs).ok()
}

/// What a library hears at its desk, with a new session.
fn hears(alloc: Global, ctl: &mut Ctl, lib: LibNo, deed: Deed) -> Option<Heard>
    requires { MayBegin ctl.old lib }
{
    let mut desk = PlainDesk::of(ctl, lib);
    let mut session = Session::new(alloc, lib, desk.creds());
    let heard = does(alloc, &mut session, &mut desk, deed);
    session.discard();
    heard
}

fn does<D: Desk>(alloc: Global, session: &mut Session, desk: &mut D, deed: Deed) -> Option<Heard>
    requires { MayCall (D.seen desk.old) session.old }
{
    let holder = match deed {
        Deed::Many => are_changed(alloc, session, desk)?,
        Deed::Write(bytes) => holder_in(&file_call(alloc, session, desk, write(alloc, bytes)?))?,
        Deed::List(path) => holder_in(&dir_call(alloc, session, desk, list(alloc, path)?))?,
    };
    Some(Heard {
        finds: session.finds(),
        holder,
    })
}

/// A write of these bytes, of at most a block, into the file `f` of the directory `a`.
pub fn write(alloc: Global, bytes: &[u8]) -> Option<Call>
    ensures file { IfSome result IsFileCall }
    ensures call { IfSome result IsCall }
{
    if bytes.len() > 4096 {
        return None;
    }
    Some(Call::Write {
        path: Path::read(alloc, b"/a/f").ok()?,
        at: 0,
        bytes: SharedBytes::copied(alloc, bytes).ok()?,
    })
}

/// A list of the directory of this path.
pub fn list(alloc: Global, path: &[u8]) -> Option<Call>
    ensures dir { IfSome result IsDirCall }
    ensures call { IfSome result IsCall }
{
    let path = Path::read(alloc, path).ok()?;
    Some(Call::List { path, from: 0 })
}

/// Who has what a call wanted, or nobody where it was done. `None` where it was neither.
pub fn holder_in(outcome: &Outcome) -> Option<Option<Holder>> {
    match outcome {
        Outcome::Busy(holder) => Some(Some(*holder)),
        Outcome::Replied(Reply::Ok(_)) => Some(None),
        _ => None,
    }
}

// ---- many names

// Whether the files were made, and then removed or renamed.
fn are_changed<D: Desk>(
    alloc: Global,
    session: &mut Session,
    desk: &mut D,
) -> Option<Option<Holder>>
    requires { MayCall (D.seen desk.old) session.old }
{
    let mut holder = None;
    for number in 0..400 {
        holder = holder_in(&dir_call(alloc, session, desk, nth_call(alloc, number)?))?;
    }
    Some(holder)
}

// The first 200 calls make the files, and each of the others removes or renames one.
fn nth_call(alloc: Global, number: u32) -> Option<Call>
    ensures { IfSome result IsDirCall }
{
    if number < 200 {
        let path = path_of(alloc, 'f', number)?;
        return Some(Call::Create {
            path,
            mode: Mode(0o644),
        });
    }
    let path = path_of(alloc, 'f', number - 200)?;
    if number % 2 == 0 {
        return Some(Call::Unlink { path });
    }
    Some(Call::Rename {
        from: path,
        to: path_of(alloc, 'm', number)?,
    })
}

fn path_of(alloc: Global, letter: char, number: u32) -> Option<Path> {
    let text = format!(in alloc; "/{letter}{number}").ok()?;
    Path::read(alloc, text.as_bytes()).ok()
}

/// Each name is looked up in an index, both names of a rename.
#[test]
fn names_are_looked_up(rt: HostRuntime) {
    let heard = heard_with(rt.alloc(), Start::Bare, None, Deed::Many);
    assert!(rt; heard.is_some_and(|heard| heard.finds >= 500));
}

// ---- what another has

// The lease of a file for writing that the first library is given.
fn taken(ctl: &mut Ctl, ino: u32) -> Option<Lease>
    requires two { length ctl.old.state.creds ≡ 2 }
    requires none { NothingIsOut ctl.old }
    ensures { MayBegin ctl.new second_lib }
{
    ctl.is_recorded();
    ctl.is_as_told();
    let mut desk = PlainDesk::of(ctl, LibNo(1));
    desk.grant(ino, GrantKind::Write).ok()
}

// What the second library hears while the first one has this file for writing.
fn hears_beside(alloc: Global, ctl: &mut Ctl, ino: u32, deed: Deed) -> Option<Heard>
    requires two { length ctl.old.state.creds ≡ 2 }
    requires none { NothingIsOut ctl.old }
{
    let lease = taken(ctl, ino)?;
    let heard = hears(alloc, ctl, LibNo(2), deed);
    lease.discard();
    heard
}

// What is heard on a new controller: by the first library, or by the second one while the first has a file.
fn heard_with(alloc: Global, start: Start, taken: Option<u32>, deed: Deed) -> Option<Heard> {
    let mut ctl = started(alloc, start)?;
    match taken {
        Some(ino) => hears_beside(alloc, &mut ctl, ino, deed),
        None => hears(alloc, &mut ctl, LibNo(1), deed),
    }
}

/// The first library, by its write grant, whose entry is the first.
const FIRST: Option<Holder> = Some(Holder {
    lib: LibNo(1),
    kind: GrantKind::Write,
    entry: 0,
});

/// The file that the first library has, what the second one does, and who has what it wants then. Bytes
/// that are none are written where nobody has the file.
const ROWS: &[(&str, u32, Deed, Option<Holder>)] = &[
    ("a file is written", 3, Deed::Write(b"y"), FIRST),
    ("the root is listed", 1, Deed::List(b"/"), FIRST),
    (
        "a directory below it is listed",
        1,
        Deed::List(b"/a"),
        FIRST,
    ),
    ("no bytes are written", 4, Deed::Write(b""), None),
];

#[test]
fn the_holder_is_told(rt: HostRuntime) {
    for (name, ino, deed, wanted) in ROWS {
        let heard = heard_with(rt.alloc(), Start::Several, Some(*ino), *deed);
        assert!(rt;
            heard.is_some_and(|heard| heard.holder == *wanted),
            "{name}"
        );
    }
}
