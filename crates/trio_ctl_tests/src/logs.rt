//! What the log says of scripts, what it replays to, and what an image is told meanwhile.

ghost use Rattle.std.specs.Prelude.{◌≡◌, ◌≤◌, [], length};
ghost use Rattle.trio_state.specs.Kept.{Kept};
ghost use Rattle.trio_state.specs.Run.{start};
ghost use Rattle.trio_ctl.specs.Ctl.{NoneBegun};
ghost use Rattle.trio_script.specs.Within.{AreWithin};
ghost use Rattle.trio_runner.specs.Play.{creds_in};

use crate::images::{Start, start_image};
use crate::lines::has_lines;
use std::alloc::Global;
use trio_ctl::Ctl;
use trio_image::Image;
use trio_log::replay;
use trio_nodes::Nodes;
use trio_page::NoMemory;
use trio_report::put_answer;
use trio_rights::{Creds, Kind, Mode};
use trio_runner::{LibTold, RawAndHonest, creds_of, play};
use trio_script::{ScriptLib, read_script};

/// What is looked at once a script was played.
#[derive(Clone, Copy)]
enum Look {
    /// The lines of the log.
    Log(&'static str),
    /// What the libraries are answered, one after another; an image is told then.
    Answers(&'static str),
    /// What the log of the crossed moves replays to.
    Replayed,
}

fn shows(alloc: Global, ctl: &mut Ctl, tolds: &[LibTold], look: Look) -> bool {
    match look {
        Look::Log(lines) => has_lines(alloc, ctl, lines),
        Look::Answers(lines) => have_lines(alloc, tolds, lines) && tells_image(ctl),
        Look::Replayed => is_replayed(alloc, ctl) == Some(true),
    }
}

fn plays(alloc: Global, ctl: &mut Ctl, libs: &[ScriptLib], look: Look) -> bool
    requires kept { Kept ctl.old.state }
    requires started { ctl.old.state ≡ start ctl.old.state.home (creds_in libs.now) }
    requires unlogged { ctl.old.log ≡ [] }
    requires idle { NoneBegun ctl.old }
    requires few { length libs.now ≤ 16 }
    requires within { AreWithin libs.now }
{
    match play::<RawAndHonest>(alloc, ctl, libs) {
        Ok(tolds) => shows(alloc, ctl, &tolds, look),
        Err(_) => false,
    }
}

fn plays_with(
    alloc: Global,
    image: Image,
    creds: Vec<Creds>,
    libs: &[ScriptLib],
    look: Look,
) -> bool
    requires creds { creds.items ≡ creds_in libs.now }
    requires some { 1 ≤ length libs.now }
    requires few { length libs.now ≤ 16 }
    requires within { AreWithin libs.now }
{
    match Ctl::start(alloc, image, creds) {
        Ok(mut ctl) => plays(alloc, &mut ctl, libs, look),
        Err(_) => false,
    }
}

fn plays_on(alloc: Global, start: Start, libs: &[ScriptLib], look: Look) -> Option<bool>
    requires some { 1 ≤ length libs.now }
    requires few { length libs.now ≤ 16 }
    requires within { AreWithin libs.now }
{
    let creds = creds_of(alloc, libs).ok()?;
    let image = start_image(alloc, start)?;
    Some(plays_with(alloc, image, creds, libs, look))
}

/// Whether a script on an image comes to this.
fn comes_to(alloc: Global, start: Start, script: &str, look: Look) -> Option<bool> {
    match read_script(alloc, script.as_bytes()) {
        Ok(libs) => plays_on(alloc, start, &libs, look),
        Err(_) => None,
    }
}

/// The two crossed moves: `/a/p` below `/b/q/q1`, and `/b/q` below `/a/p/p1`.
const CROSSED_MOVES: &str =
    "lib 1 raw 0 0\ngrant write 2\ngrant hold 4\ngrant write 7\nallot 2 0\npoke block 2 0 0 00000000\npoke body 7 12 0d0000000010000000000000\npoke fresh 13 0 0e00000000000000\npoke fresh 14 0 040000000201000070\npoke fresh 14 192 ed0100000000000000000000070000000010000000000000\nrelease 2,4,7 13,14 -\nlib 2 raw 0 0\ngrant write 3\ngrant hold 6\ngrant write 5\nallot 2 0\npoke block 3 0 0 00000000\npoke body 5 12 0f0000000010000000000000\npoke fresh 15 0 1000000000000000\npoke fresh 16 0 060000000201000071\npoke fresh 16 192 ed01000000000000000000000b0000000010000000000000\nrelease 3,5,6 15,16 -\n";

/// A script on an image, and the log's lines.
type Row = (Start, &'static str, &'static str);

const ROWS: &[Row] = &[
    // a byte of a file
    (
        Start::OneFile,
        "lib 1 raw 0 0\ngrant write 3\npoke block 3 0 0 4a\nrelease 3 - -\n",
        "1 grant write 3 granted 0\n\
         1 raw accepted\n \
         file 3 given 2 f regular 644 0 0 5\n \
         block 3 0 4a656c6c6f of 4096\n \
         writes 3: 7 8* holds - pages - numbers -\n",
    ),
    // and a size that its one block doesn't have: the file stands as before, but for its bytes
    (
        Start::OneFile,
        "lib 1 raw 0 0\ngrant write 3\npoke block 3 0 0 4a\npoke body 3 16 0110000000000000\nrelease 3 - -\n",
        "1 grant write 3 granted 0\n\
         1 raw refused I1\n \
         file 3 given 2 f regular 644 0 0 5\n \
         block 3 0 4a656c6c6f of 4096\n \
         writes 3: 7 8* holds - pages - numbers -\n",
    ),
    // a guarded file of such a size: its block stands as before too
    (
        Start::GuardAndLink,
        "lib 1 raw 0 0\ngrant write 3\npoke block 3 0 0 4a\npoke body 3 16 0110000000000000\nrelease 3 - -\n",
        "1 grant write 3 granted 0\n\
         1 raw refused I1\n \
         file 3 given 2 f regular 644 0 0 5 guarded\n \
         writes 3: 7 8* holds - pages - numbers -\n",
    ),
    // whatever its writer makes of the guard, on and off
    (
        Start::GuardAndLink,
        "lib 1 raw 0 0\ngrant write 3\npoke block 3 0 0 4a\npoke body 3 16 011000000000000000\nrelease 3 - -\n",
        "1 grant write 3 granted 0\n\
         1 raw refused I1\n \
         file 3 given 2 f regular 644 0 0 5 guarded\n \
         writes 3: 7 8* holds - pages - numbers -\n",
    ),
    (
        Start::OneFile,
        "lib 1 raw 0 0\ngrant write 3\npoke block 3 0 0 4a\npoke body 3 16 011000000000000001\nrelease 3 - -\n",
        "1 grant write 3 granted 0\n\
         1 raw refused I1\n \
         file 3 given 2 f regular 644 0 0 5\n \
         block 3 0 4a656c6c6f of 4096\n \
         writes 3: 7 8* holds - pages - numbers -\n",
    ),
    // a file is guarded, and no longer guarded
    (
        Start::OneFile,
        "lib 1 raw 0 0\ngrant write 3\npoke body 3 24 01\nrelease 3 - -\ngrant write 3\npoke body 3 24 00\nrelease 3 - -\n",
        "1 grant write 3 granted 0\n\
         1 raw accepted\n \
         file 3 given 2 f regular 644 0 0 5 guarded\n \
         writes 3: 7 8 holds - pages - numbers -\n\
         1 grant write 3 granted 0\n\
         1 raw accepted\n \
         file 3 given 2 f regular 644 0 0 5\n \
         writes 3: 7 8 holds - pages - numbers -\n",
    ),
    // a link without a text: its block stands as handed in; and one of another text
    (
        Start::GuardAndLink,
        "lib 1 raw 0 0\ngrant write 4\npoke block 4 0 0 4a\npoke body 4 12 000000000000000000000000\nrelease 4 - -\ngrant write 4\npoke block 4 0 0 2e\nrelease 4 - -\n",
        "1 grant write 4 granted 0\n\
         1 raw refused I1\n \
         file 4 given 2 l link 777 0 0 4\n \
         block 4 0 4a612f66 of 4096\n \
         writes 4: 9 10* holds - pages - numbers -\n\
         1 grant write 4 granted 0\n\
         1 raw accepted\n \
         file 4 given 2 l link 777 0 0 4\n \
         block 4 0 2e612f66 of 4096\n \
         writes 4: 9 10* holds - pages - numbers -\n",
    ),
    // a page that isn't handed in, and that is: then the size counts more of the block that stays
    (
        Start::OneFile,
        "lib 1 raw 0 0\nallot 1 0\ngrant write 3\npoke body 3 16 0110000000000000\npoke index 3 0 8 0900000000000000\nrelease 3 - -\ngrant write 3\npoke body 3 16 0110000000000000\npoke index 3 0 8 0900000000000000\nrelease 3 9 -\n",
        "1 allot 1 0 given 9 -\n\
         1 grant write 3 granted 0\n\
         1 raw refused I2\n \
         file 3 given 2 f regular 644 0 0 5\n \
         writes 3: 7 8 holds - pages - numbers -\n\
         1 grant write 3 granted 0\n\
         1 raw accepted\n \
         file 3 given 2 f regular 644 0 0 4097\n \
         block 3 0 68656c6c6f of 4096\n \
         block 3 1  of 4096\n \
         writes 3: 7 8 holds - pages 9 numbers -\n",
    ),
    // a new file of a name that stands there
    (
        Start::OneFile,
        "lib 1 raw 0 0\nallot 0 1\ngrant write 2\npoke block 2 0 256 040000000101000066\npoke block 2 0 448 a401\nrelease 2 - 4\n",
        "1 allot 0 1 given - 4\n\
         1 grant write 2 granted 0\n\
         1 raw refused I1\n \
         file 2 given 1 a directory 755 0 0 4096\n \
         writes 2: 5 6* holds - pages - numbers 4\n",
    ),
    // and of another
    (
        Start::OneFile,
        "lib 1 raw 0 0\nallot 0 1\ngrant write 2\npoke block 2 0 256 04000000010200006666\npoke block 2 0 448 a401\nrelease 2 - 4\n",
        "1 allot 0 1 given - 4\n\
         1 grant write 2 granted 0\n\
         1 raw accepted\n \
         file 2 given 1 a directory 755 0 0 4096\n \
         file 4 2 ff regular 644 0 0 0\n \
         writes 2: 5 6* holds - pages - numbers 4\n",
    ),
    // a file of another directory
    (
        Start::TwoDirectories,
        "lib 1 raw 0 0\nallot 2 0\ngrant write 4\npoke body 4 12 090000000010000000000000\npoke fresh 9 0 0a00000000000000\npoke fresh 10 0 030000000101000067\npoke fresh 10 192 a401\nrelease 4 9,10 -\n",
        "1 allot 2 0 given 9,10 -\n\
         1 grant write 4 granted 0\n\
         1 raw refused I2\n \
         file 4 given 1 b directory 755 0 0 0\n \
         writes 4: - - holds - pages 9,10 numbers -\n",
    ),
    // a new file of another owner; what was allotted again is handed in at the end
    (
        Start::OpenDirectory,
        "lib 1 raw 5 5\nallot 2 1\ngrant write 2\npoke body 2 12 050000000010000000000000\npoke fresh 5 0 0600000000000000\npoke fresh 6 0 030000000101000078\npoke fresh 6 192 a401\nrelease 2 5,6 3\nallot 2 0\npeek fresh 5 0 8\n",
        "1 allot 2 1 given 5,6 3\n\
         1 grant write 2 granted 0\n\
         1 raw refused I4\n \
         file 2 given 1 t directory 777 0 0 0\n \
         writes 2: - - holds - pages 5,6 numbers 3\n\
         1 allot 2 0 given 5,6 -\n\
         1 raw accepted\n \
         writes - holds - pages 5,6 numbers -\n",
    ),
    // a hold without its directory: what comes back stands behind the rest, and is handed in at the end
    (
        Start::SixDirectories,
        "lib 1 raw 0 0\ngrant write 2\ngrant write 3\ngrant write 7\ngrant hold 4\nallot 1 1\npoke block 3 0 208 ff\nrelease 4,3 13 -\n",
        "1 grant write 2 granted 0\n\
         1 grant write 3 granted 0\n\
         1 grant write 7 granted 0\n\
         1 grant hold 4 granted 1\n\
         1 allot 1 1 given 13 8\n\
         1 raw accepted\n \
         file 2 given 1 a directory 755 0 0 4096\n \
         file 3 given 1 b directory 755 0 0 4096\n \
         file 4 given 2 p directory 755 0 0 4096\n \
         file 7 given 6 q1 directory 755 0 0 0\n \
         writes 2: 5 6 7: - - 3: 9 10* holds 4 pages 13 numbers 8\n",
    ),
    // two libraries by turns, of which the first moves, and the second is refused for it
    (
        Start::SixDirectories,
        CROSSED_MOVES,
        "1 grant write 2 granted 0\n\
         2 grant write 3 granted 0\n\
         1 grant hold 4 granted 1\n\
         2 grant hold 6 granted 1\n\
         1 grant write 7 granted 0\n\
         2 grant write 5 granted 0\n\
         1 allot 2 0 given 13,14 -\n\
         2 allot 2 0 given 15,16 -\n\
         1 raw accepted\n \
         file 2 given 1 a directory 755 0 0 4096\n \
         file 4 given 7 p directory 755 0 0 4096\n \
         file 7 given 6 q1 directory 755 0 0 4096\n \
         writes 2: 5 6* 7: - - holds 4 pages 13,14 numbers -\n\
         2 raw refused I3\n \
         file 3 given 1 b directory 755 0 0 4096\n \
         file 5 given 4 p1 directory 755 0 0 0\n \
         file 6 given 3 q directory 755 0 0 4096\n \
         writes 3: 9 10* 5: - - holds 6 pages 15,16 numbers -\n",
    ),
    // a directory's writer writes over the size of its child, before that grows and after
    (
        Start::OneFile,
        "lib 1 raw 0 0\ngrant write 2\npoke block 2 0 208 ffffffffffffffff\nrelease 2 - -\nlib 2 raw 0 0\ngrant write 3\nallot 1 0\npoke body 3 16 0110000000000000\npoke index 3 0 8 0900000000000000\nrelease 3 9 -\n",
        "1 grant write 2 granted 0\n\
         2 grant write 3 granted 0\n\
         2 allot 1 0 given 9 -\n\
         1 raw accepted\n \
         file 2 given 1 a directory 755 0 0 4096\n \
         writes 2: 5 6* holds - pages - numbers -\n\
         2 raw accepted\n \
         file 3 given 2 f regular 644 0 0 4097\n \
         block 3 0 68656c6c6f of 4096\n \
         block 3 1  of 4096\n \
         writes 3: 7 8 holds - pages 9 numbers -\n",
    ),
    (
        Start::OneFile,
        "lib 1 raw 0 0\ngrant write 2\npoke block 2 0 208 ffffffffffffffff\npeek body 2 0 2\npeek body 2 0 2\npeek body 2 0 2\nrelease 2 - -\nlib 2 raw 0 0\ngrant write 3\nallot 1 0\npoke body 3 16 0110000000000000\npoke index 3 0 8 0900000000000000\nrelease 3 9 -\n",
        "1 grant write 2 granted 0\n\
         2 grant write 3 granted 0\n\
         2 allot 1 0 given 9 -\n\
         2 raw accepted\n \
         file 3 given 2 f regular 644 0 0 4097\n \
         block 3 0 68656c6c6f of 4096\n \
         block 3 1  of 4096\n \
         writes 3: 7 8 holds - pages 9 numbers -\n\
         1 raw accepted\n \
         file 2 given 1 a directory 755 0 0 4096\n \
         writes 2: 5 6* holds - pages - numbers -\n",
    ),
    // a directory that has a file is dropped
    (
        Start::OneFile,
        "lib 1 raw 0 0\ngrant write 1\ngrant hold 2\npoke block 1 0 0 00000000\nrelease 1,2 - -\n",
        "1 grant write 1 granted 0\n\
         1 grant hold 2 granted 1\n\
         1 raw refused I3\n \
         file 1 given 0 - directory 755 0 0 4096\n \
         file 2 given 1 a directory 755 0 0 4096\n \
         writes 1: 3 4* holds 2 pages - numbers -\n",
    ),
    // each refusal of a grant and of a mode
    (
        Start::OneDirectory,
        "lib 1 raw 5 5\ngrant write 1\ngrant hold 2\ngrant read 9\nmode 2 700\n",
        "1 grant write 1 denied 1\n\
         1 grant hold 2 noparent\n\
         1 grant read 9 notlive\n\
         1 mode 2 700 notowner\n",
    ),
    // what is busy and what isn't closed makes no entry
    (
        Start::OneDirectory,
        "lib 1 raw 0 0\nmode 2 1000\ngrant write 1\ngrant hold 2\nmode 2 700\nrelease 1 - -\nrelease 1,2 - -\nmode 2 700\n",
        "1 mode 2 1000 badmode\n\
         1 grant write 1 granted 0\n\
         1 grant hold 2 granted 0\n\
         1 raw accepted\n \
         file 1 given 0 - directory 755 0 0 4096\n \
         file 2 given 1 a directory 755 0 0 0\n \
         writes 1: 3 4 holds 2 pages - numbers -\n\
         1 mode 2 700 ok\n",
    ),
    // a read lease is given back
    (
        Start::OneFile,
        "lib 1 raw 0 0\ngrant read 3\nback 3\nallot 30 0\n",
        "1 grant read 3 granted 0\n1 back 3\n1 allot 30 0 nopages 30 23\n",
    ),
];

#[test]
fn the_log_has_what_was_done(rt: HostRuntime) {
    for (start, script, lines) in ROWS {
        assert!(rt;
            comes_to(rt.alloc(), *start, script, Look::Log(lines)) == Some(true),
            "{script}"
        );
    }
}

/// A script on an image, and what its libraries are answered, one after another.
const ANSWERS: &[Row] = &[
    // a reader is shown a file, and a writer has it once the lease is back
    (
        Start::OneFile,
        "lib 1 raw 0 0\ngrant read 3\npeek block 3 0 0 5\nback 3\nlib 2 raw 0 0\ngrant write 3\ngrant write 3\ngrant write 3\n",
        "1 granted\n2 68656c6c6f\n3 ok\n1 busy\n2 busy\n3 granted\n",
    ),
    // a reader is shown the body of `a` while the root is out, with the page on which that is
    (
        Start::OneFile,
        "lib 1 raw 0 0\ngrant write 1\npeek block 1 0 192 2\nlib 2 raw 0 0\ngrant read 2\npeek body 2 0 64\n",
        "1 granted\n2 ed01\n1 granted\n2 ed010000000000000000000005000000001000000000000000000000000000000000000000000000000000000000000000000000000000000000000000000000\n",
    ),
    // a file is released as it was lent
    (
        Start::OneFile,
        "lib 1 raw 0 0\ngrant write 3\nrelease 3 - -\n",
        "1 granted\n2 accepted\n",
    ),
];

fn put_answers(alloc: Global, out: &mut Vec<u8>, told: &LibTold) -> Result<(), NoMemory> {
    let mut number = 0_u32;
    for answer in told.answers() {
        number = number.saturating_add(1);
        put_answer(alloc, out, number, answer)?;
    }
    Ok(())
}

fn put_all(alloc: Global, out: &mut Vec<u8>, tolds: &[LibTold]) -> Result<(), NoMemory> {
    for told in tolds {
        put_answers(alloc, out, told)?;
    }
    Ok(())
}

fn have_lines(alloc: Global, tolds: &[LibTold], lines: &str) -> bool {
    let mut text = Vec::new(alloc);
    let is_whole = put_all(alloc, &mut text, tolds).is_ok();
    is_whole && text.as_slice() == lines.as_bytes()
}

fn tells_image(ctl: &mut Ctl) -> bool {
    ctl.image().is_ok()
}

#[test]
fn scripts_are_answered(rt: HostRuntime) {
    for (start, script, lines) in ANSWERS {
        assert!(rt;
            comes_to(rt.alloc(), *start, script, Look::Answers(lines)) == Some(true),
            "{script}"
        );
    }
}

/// The inode number, the parent and the name of each directory after the crossed moves.
const MOVED: &[(u32, u32, &[u8])] = &[
    (1, 0, b"-"),
    (2, 1, b"a"),
    (3, 1, b"b"),
    (4, 7, b"p"),
    (5, 4, b"p1"),
    (6, 3, b"q"),
    (7, 6, b"q1"),
];

/// Whether a directory of mode 755 has this number, this parent and this name.
fn is_there(nodes: &Nodes, (ino, parent, name): (u32, u32, &[u8])) -> bool {
    match nodes.get(ino) {
        Some(node) => {
            let is_named = node.parent == parent && node.name.as_bytes() == name;
            let is_alike = node.kind == Kind::Directory && node.mode == Mode(0o755);
            is_named
                && is_alike
                && node.uid == 0
                && node.gid == 0
                && node.bytes.as_slice().is_empty()
        }
        None => false,
    }
}

fn nodes_of(alloc: Global, start: Start) -> Option<Nodes> {
    let mut image = start_image(alloc, start)?;
    image.nodes(alloc).ok()
}

/// Whether these are the directories after the crossed moves, and no other file.
fn are_moved(nodes: &Nodes) -> bool {
    let mut is_so = nodes.get(8).is_none();
    for row in MOVED {
        is_so = is_so && is_there(nodes, *row);
    }
    is_so
}

/// Whether the log replays to them from the image of the crossed moves, for two libraries of uid 0.
fn is_replayed(alloc: Global, ctl: &Ctl) -> Option<bool> {
    let first = nodes_of(alloc, Start::SixDirectories)?;
    let both = Creds { uid: 0, gid: 0 };
    let nodes = replay(alloc, first, &[both, both], ctl.log()).ok()?;
    Some(are_moved(&nodes))
}

#[test]
fn crossed_moves_are_replayed(rt: HostRuntime) {
    assert!(rt;
        comes_to(
            rt.alloc(),
            Start::SixDirectories,
            CROSSED_MOVES,
            Look::Replayed
        ) == Some(true)
    );
}
