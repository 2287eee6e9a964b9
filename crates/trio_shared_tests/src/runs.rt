//! Scripts, played in rounds and run with a thread for each library: what each library is told, and what
//! is settled then.

ghost use Rattle.std.specs.Prelude.{◌≤◌, IfSome, length};
ghost use Rattle.trio_script.specs.Within.{AreWithin};

use crate::images::{owned_bytes, owned_files, two_directories};
use crate::replays::is_replayed;
use std::alloc::Global;
use std::sync::Wait;
use std::test::Fail;
use std::thread::Threads;
use trio_ctl::Ctl;
use trio_image::Image;
use trio_io::{Gate, GateStop, HoldGate, OpenGate};
use trio_report::{put_answer, put_end};
use trio_rights::LibNo;
use trio_runner::{LibTold, RawAndHonest, creds_of, play, run};
use trio_script::{ScriptLib, read_script};

/// A script, and what it comes to.
pub struct Case {
    pub name: &'static str,
    pub script: &'static [u8],
    pub end: End,
}

/// What a script comes to.
pub enum End {
    /// It begins with `hello` in the file `f` of two owned files.
    Told {
        /// What its libraries are told, one after another: the answers to each one's lines, counted from
        /// 1, and to its end.
        told: &'static [u8],
        /// What `f` has then. Nothing else in the image has changed.
        left: &'static [u8],
    },
    /// It begins with two directories, and its log replays to the image that is settled then.
    Replays,
}

/// Lines of a library that may not write into the root.
const ALONE: &Case = &Case {
    name: "alone",
    script: b"lib 1 raw 5 5\ngrant write 2\ngrant write 2\nmode 2 644\ngrant write 9\n\
grant write 1\npoke block 2 0 1 75\npoke block 2 1 0 75\npoke body 9 0 00\nrelease 9 - -\n\
release 2 - -\npoke block 2 0 0 75\ngrant hold 2\ngrant read 2\nback 2\nback 2\nmode 1 700\n\
mode 2 1000\nmode 2 644\n",
    end: End::Told {
        told: b"1 granted\n2 busy\n3 busy\n4 notlive\n5 denied 1\n6 poked\n7 absent\n8 absent\n\
9 absent\n10 accepted\n11 absent\n12 noparent\n13 granted\n14 ok\n15 absent\n16 notowner\n\
17 badmode\n18 ok\nend nothing\n",
        left: b"hullo",
    },
};

/// Two libraries that want the same file.
const TURNS: &[u8] = b"lib 1 raw 5 5\ngrant write 2\nrelease 2 - -\n\
lib 2 raw 0 0\ngrant write 2\ngrant write 2\npoke block 2 0 1 75\n";

/// In rounds the second finds it busy in the first round, and has it in the next one, in which the first
/// gave it up just before. The first ends in the third round, the second in the fourth, with the file
/// still in its hands.
const IN_TURN: &Case = &Case {
    name: "in turn",
    script: TURNS,
    end: End::Told {
        told: b"1 granted\n2 accepted\nend nothing\n1 busy\n2 granted\n3 poked\nend accepted\n",
        left: b"hullo",
    },
};

/// On threads, where the second is held before its first line until the first has come to its end, it has
/// the file at once, and finds it busy when it asks again.
const IN_WAIT: &Case = &Case {
    name: "in wait",
    script: TURNS,
    end: End::Told {
        told: b"1 granted\n2 accepted\nend nothing\n1 granted\n2 busy\n3 poked\nend accepted\n",
        left: b"hullo",
    },
};

/// Two libraries that each want a file of their own.
const APART: &Case = &Case {
    name: "apart",
    script: b"lib 1 raw 5 5\ngrant write 2\nrelease 2 - -\n\
lib 2 raw 5 5\ngrant write 3\nrelease 3 - -\n",
    end: End::Told {
        told: b"1 granted\n2 accepted\nend nothing\n1 granted\n2 accepted\nend nothing\n",
        left: b"hello",
    },
};

/// An honest library: its calls go through a session, and its end settles none.
const HONEST: &Case = &Case {
    name: "honest",
    script: b"lib 1 honest 5 5\nwrite /f 1 u\nread /f 0 5\nsettle\n",
    end: End::Told {
        told: b"1 ok 1\n2 ok 5 hullo\n3 settled 2\nend settled 0\n",
        left: b"hullo",
    },
};

fn put_told(alloc: Global, text: &mut Vec<u8>, told: &LibTold) -> Option<()> {
    let mut number: u32 = 0;
    for answer in told.answers() {
        number = number.saturating_add(1);
        put_answer(alloc, text, number, answer).ok()?;
    }
    put_end(alloc, text, told.end()?).ok()
}

// Whether this is what the libraries were told.
fn are_told(alloc: Global, tolds: &[LibTold], wanted: &[u8]) -> Option<bool> {
    let mut text = Vec::new(alloc);
    for told in tolds {
        put_told(alloc, &mut text, told)?;
    }
    Some(text.as_slice() == wanted)
}

fn settled_bytes(alloc: Global, ctl: &mut Ctl) -> Option<Vec<u8>> {
    let image = ctl.image().ok()?;
    image.into_bytes(alloc).ok()
}

// Whether the settled image is that at the beginning, but for what `f` has.
fn is_left(alloc: Global, ctl: &mut Ctl, left: &[u8]) -> Option<bool> {
    let settled = settled_bytes(alloc, ctl)?;
    let wanted = owned_bytes(alloc, left)?;
    Some(settled == wanted)
}

// Whether a controller began with two directories and its log replays to the settled image.
fn replays(alloc: Global, ctl: &mut Ctl, libs: &[ScriptLib]) -> Option<bool> {
    let creds = creds_of(alloc, libs).ok()?;
    is_replayed(alloc, &creds, ctl)
}

// Whether a controller and its libraries come to this end.
fn has_ended(
    alloc: Global,
    ctl: &mut Ctl,
    libs: &[ScriptLib],
    tolds: &[LibTold],
    end: &End,
) -> Option<bool> {
    match end {
        End::Told { told, left } => {
            Some(are_told(alloc, tolds, told)? && is_left(alloc, ctl, left)?)
        }
        End::Replays => replays(alloc, ctl, libs),
    }
}

fn first_image(alloc: Global, end: &End) -> Option<Image> {
    match end {
        End::Told { .. } => owned_files(alloc),
        End::Replays => two_directories(alloc),
    }
}

// Whether libraries come to an end in rounds.
fn play_so(alloc: Global, libs: &[ScriptLib], end: &End) -> Option<bool>
    requires some { 1 ≤ length libs.now }
    requires few { length libs.now ≤ 16 }
    requires within { AreWithin libs.now }
{
    let creds = creds_of(alloc, libs).ok()?;
    let image = first_image(alloc, end)?;
    let Ok(mut ctl) = Ctl::start(alloc, image, creds) else {
        return None;
    };
    let tolds = play::<RawAndHonest>(alloc, &mut ctl, libs).ok()?;
    has_ended(alloc, &mut ctl, libs, &tolds, end)
}

// Whether they do with a thread for each.
fn run_so<R: Threads + Wait + Sync, G: Gate + Sync>(
    rt: &R,
    alloc: Global,
    libs: &[ScriptLib],
    end: &End,
    gate: &G,
    workers: Option<u32>,
) -> Option<bool>
    requires some { 1 ≤ length libs.now }
    requires few { length libs.now ≤ 16 }
    requires within { AreWithin libs.now }
    requires workers { IfSome workers (λ n. (1 ≤ n) × (n ≤ 8)) }
{
    let creds = creds_of(alloc, libs).ok()?;
    let image = first_image(alloc, end)?;
    let Ok(ctl) = Ctl::start(alloc, image, creds) else {
        return None;
    };
    let (mut ctl, tolds) = run::<RawAndHonest, _, _>(rt, alloc, ctl, libs, gate, workers).ok()?;
    has_ended(alloc, &mut ctl, libs, &tolds, end)
}

// Whether a script comes to its end in rounds.
fn is_played_so(alloc: Global, case: &Case) -> Option<bool> {
    match read_script(alloc, case.script) {
        Ok(libs) => play_so(alloc, &libs, &case.end),
        Err(_) => None,
    }
}

/// Whether a script comes to its end on threads, where so many workers judge what is released.
pub fn is_run_so<R: Threads + Wait + Sync, G: Gate + Sync>(
    rt: &R,
    alloc: Global,
    case: &Case,
    gate: &G,
    workers: Option<u32>,
) -> Option<bool>
    requires { IfSome workers (λ n. (1 ≤ n) × (n ≤ 8)) }
{
    match read_script(alloc, case.script) {
        Ok(libs) => run_so(rt, alloc, &libs, &case.end, gate, workers),
        Err(_) => None,
    }
}

// How often a library looks that is held.
const LOOKS: u64 = 1_000_000;

// Whether it does, and one who is held at a stop sees the other arrive at its own.
fn is_held_so<R: Threads + Wait + Sync>(
    rt: &R,
    alloc: Global,
    case: &Case,
    held: GateStop,
    awaited: GateStop,
) -> Option<bool> {
    let gate = HoldGate::new(held, awaited, LOOKS);
    let is_so = is_run_so(rt, alloc, case, &gate, None)?;
    Some(is_so && gate.has_met())
}

fn stop(lib: u32, line: u32) -> GateStop {
    GateStop {
        lib: LibNo(lib),
        line,
    }
}

/// Scripts in rounds.
#[test]
fn scripts_are_played(rt: HostRuntime) -> Result<(), Fail> {
    for case in [ALONE, IN_TURN] {
        let name = case.name;
        assert!(rt; is_played_so(rt.alloc(), case) == Some(true), "{name}");
    }
    Ok(())
}

/// Scripts of one library, on a thread of its own.
#[test]
fn scripts_are_run(rt: HostRuntime) -> Result<(), Fail> {
    for case in [ALONE, HONEST] {
        let name = case.name;
        assert!(rt;
            is_run_so(&rt, rt.alloc(), case, &OpenGate, None) == Some(true),
            "{name}"
        );
    }
    Ok(())
}

/// A library waits for the end of another, which has its file.
#[test]
fn one_waits_for_the_other(rt: HostRuntime) -> Result<(), Fail> {
    let (held, awaited) = (stop(2, 5), stop(1, 0));
    assert!(rt; is_held_so(&rt, rt.alloc(), IN_WAIT, held, awaited) == Some(true));
    Ok(())
}

/// The first is held with its file in its hands until the second has its own: two write leases are out at
/// once. Where the libraries run one after the other, the second never comes while the first is held.
#[test]
fn two_write_at_once(rt: HostRuntime) -> Result<(), Fail> {
    let (held, awaited) = (stop(1, 3), stop(2, 6));
    assert!(rt; is_held_so(&rt, rt.alloc(), APART, held, awaited) == Some(true));
    Ok(())
}
