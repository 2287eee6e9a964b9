//! Random calls of two honest libraries and pokes of a hostile one in rounds, with what the log has of them
//! compared with the one-thread tree.

ghost use Rattle.std.specs.Prelude.{◌≤◌};

use crate::images::{Start, image_of};
use crate::scripts::{Inspect, played, put_line};
use std::alloc::Global;
use trio_ctl::Ctl;
use trio_image::Image;
use trio_names::Name;
use trio_nodes::{Answer, Call, Done, Entry, Node, Nodes, Reply};
use trio_onetree::apply;
use trio_page::NoMemory;
use trio_report::LineAnswer;
use trio_rights::{Creds, Kind, LibNo};
use trio_runner::LibTold;

/// A number after another: those of a linear congruence.
#[derive(Drop)]
pub struct Random(pub u64);

impl Random {
    /// A number below the bound, or 0 where that is 0.
    pub fn below(&mut self, bound: u64) -> u64
        ensures { result ≤ bound }
    {
        self.0 = self
            .0
            .wrapping_mul(6_364_136_223_846_793_005)
            .wrapping_add(1_442_695_040_888_963_407);
        match bound {
            0 => 0,
            bound => (self.0 >> 33) % bound,
        }
    }
}

/// Paths of the image and others. The first fourteen are those of files and directories that are made,
/// renamed and removed, most of them in directories that all may write.
pub const PATHS: [&str; 22] = [
    "/a/f", "/a/g", "/a/d", "/a/e", "/b/f", "/b/g", "/b/d", "/b/e", "/a/d/f", "/a/d/d", "/b/d/f",
    "/b/d/d", "/a/e/f", "/c", "/a", "/b", "/h", "/p/q", "/", "/c/f", "/a/d/d/f", "/h/under",
];

const MODES: [&str; 6] = ["777", "755", "777", "777", "400", "777"];

// So many lines each library has.
const ROUNDS: u32 = 9;

// Puts lines of an honest library.
fn put_calls(alloc: Global, script: &mut Vec<u8>, seed: u64) -> Result<(), NoMemory> {
    let mut random = Random(seed);
    for _ in 0..ROUNDS {
        if random.below(8) == 0 {
            put_line(script, "settle")?;
        } else {
            put_line(script, &random_call(alloc, &mut random)?)?;
        }
    }
    Ok(())
}

// A random call: files and directories are renamed within their directory and into others, onto names
// that stand and others.
fn random_call(alloc: Global, random: &mut Random) -> Result<String, NoMemory> {
    let path = PATHS[random.below(22) as usize % 22];
    let made = PATHS[random.below(14) as usize % 14];
    let other = PATHS[random.below(14) as usize % 14];
    let mode = MODES[random.below(6) as usize % 6];
    let (word, first, second) = match random.below(24) {
        0 => ("stat", path, ""),
        1..=2 => ("mkdir", made, mode),
        3..=4 => ("create", made, mode),
        5 => ("unlink", path, ""),
        6 => ("rmdir", made, ""),
        7 => ("rename", path, made),
        8..=14 => ("rename", made, other),
        15 => ("chmod", path, mode),
        16 => ("chmod", made, mode),
        17 => (
            "list",
            path,
            ["0", "1", "2", "3"][random.below(4) as usize % 4],
        ),
        _ => return random_bytes(alloc, random, path),
    };
    if second.is_empty() {
        format!(in alloc; "{word} {first}")
    } else {
        format!(in alloc; "{word} {first} {second}")
    }
}

// A random call on a file's bytes: offsets and sizes go over the ends of blocks, and now and then past
// what is free. Up to a block is written, of one letter.
fn random_bytes(alloc: Global, random: &mut Random, path: &str) -> Result<String, NoMemory> {
    let at = random.below(3) * 4096 + random.below(30);
    match random.below(6) {
        0 => format!(in alloc; "read {path} {at} {}", random.below(4097)),
        1 => format!(in alloc; "truncate {path} {at}"),
        2 => {
            let size = random.below(90) * 4096 * random.below(200);
            format!(in alloc; "truncate {path} {size}")
        }
        _ => random_write(alloc, random, path, at),
    }
}

fn random_write(
    alloc: Global,
    random: &mut Random,
    path: &str,
    at: u64,
) -> Result<String, NoMemory> {
    let mut line = format!(in alloc; "write {path} {at} ")?;
    let letter = (b'a' + random.below(26) as u8) as char;
    for _ in 0..1 + random.below(3) * random.below(1366) {
        line.push(letter)?;
    }
    Ok(line)
}

// ---- the hostile library

// Puts lines of a library that takes a file for writing, spoils its metadata and hands it in, again and
// again.
fn put_attacks(alloc: Global, script: &mut Vec<u8>, seed: u64) -> Result<(), NoMemory> {
    let mut random = Random(seed);
    for _ in 0..ROUNDS / 3 {
        let how = random.below(3);
        let ino = victim(&mut random, how);
        put_line(script, &format!(in alloc; "grant write {ino}")?)?;
        put_line(script, &poke(alloc, ino, how)?)?;
        put_line(script, &format!(in alloc; "release {ino} - -")?)?;
    }
    Ok(())
}

// The root, `a`, `b` and `p`, which stay directories.
const DIRECTORIES: [u64; 4] = [1, 2, 4, 11];

// A file that is taken. A slot is written into what is a directory alone.
fn victim(random: &mut Random, how: u64) -> u64 {
    match how {
        0 => DIRECTORIES[random.below(4) as usize % 4],
        _ => 1 + random.below(12),
    }
}

// The root's number is written into a slot of a directory; or a number that no file may list into an index
// page; or a size that the chain doesn't have into the body.
fn poke(alloc: Global, ino: u64, how: u64) -> Result<String, NoMemory> {
    match how {
        0 => format!(in alloc; "poke block {ino} 0 0 01000000"),
        1 => format!(in alloc; "poke index {ino} 0 0 02000000"),
        _ => format!(in alloc; "poke body {ino} 19 01"),
    }
}

// How many releases of what was spoiled are refused. `None` where one isn't.
fn refusals(answers: &[LineAnswer]) -> Option<u32> {
    let mut count: u32 = 0;
    for pair in answers.windows(2) {
        match pair {
            [LineAnswer::Poked, LineAnswer::Refused(_)] => count = count.saturating_add(1),
            [LineAnswer::Poked, _] => return None,
            _ => {}
        }
    }
    Some(count)
}

// ---- the one-thread tree beside the controller

// The image that the last script left, the nodes that it should have, and what was done in all.
#[derive(Drop)]
struct Model {
    image: Option<Image>,
    nodes: Nodes,
    count: Count,
}

// So many renames and changes of mode, and so many releases that were refused.
#[derive(Clone, Copy)]
struct Count {
    renames: u32,
    modes: u32,
    refusals: u32,
}

const NONE: Count = Count {
    renames: 0,
    modes: 0,
    refusals: 0,
};

impl Count {
    fn with_call(self, call: &Call) -> Count {
        self.and(match call {
            Call::Rename { .. } => Count { renames: 1, ..NONE },
            Call::Chmod { .. } => Count { modes: 1, ..NONE },
            _ => NONE,
        })
    }

    fn and(self, more: Count) -> Count {
        Count {
            renames: self.renames.saturating_add(more.renames),
            modes: self.modes.saturating_add(more.modes),
            refusals: self.refusals.saturating_add(more.refusals),
        }
    }
}

const LIBS: [Creds; 3] = [
    Creds { uid: 0, gid: 0 },
    Creds { uid: 5, gid: 5 },
    Creds { uid: 0, gid: 0 },
];

// Plays the log: the calls of each settle by the tree, and each change of mode, with the reply that each
// had.
fn follow(alloc: Global, ctl: &Ctl, model: &mut Model) -> bool {
    for entry in ctl.log().entries() {
        if !is_followed(alloc, entry, model) {
            return false;
        }
    }
    true
}

fn is_followed(alloc: Global, entry: &Entry, model: &mut Model) -> bool {
    match entry {
        Entry::Batch { lib, calls, .. } => are_replied(alloc, model, *lib, calls.as_slice()),
        // a change of mode that is refused is handed in with its reply, and not asked for
        Entry::Mode {
            lib,
            answer: Ok(()),
            call: Some(call),
            ..
        } => is_replied(alloc, model, *lib, call, 0, &Reply::Ok(Answer::Done)),
        Entry::Mode { .. } => false,
        _ => true,
    }
}

fn are_replied(alloc: Global, model: &mut Model, lib: LibNo, calls: &[Done]) -> bool {
    for done in calls {
        if !is_replied(alloc, model, lib, &done.call, done.made, &done.reply) {
            return false;
        }
    }
    true
}

fn is_replied(
    alloc: Global,
    model: &mut Model,
    lib: LibNo,
    call: &Call,
    made: u32,
    reply: &Reply,
) -> bool {
    match reply {
        // the tree knows no room
        Reply::NoSpace { wanted, free } | Reply::NoInodes { wanted, free } => free < wanted,
        reply => {
            if matches!(reply, Reply::Ok(_)) {
                model.count = model.count.with_call(call);
            }
            match tree_reply(alloc, model, lib, call, made) {
                Some(answer) => is_same(&answer, reply),
                None => false,
            }
        }
    }
}

fn tree_reply(
    alloc: Global,
    model: &mut Model,
    lib: LibNo,
    call: &Call,
    made: u32,
) -> Option<Reply> {
    let creds = *LIBS.get(lib.0.wrapping_sub(1) as usize)?;
    apply(alloc, &mut model.nodes, creds, call, made).ok()
}

fn is_same(a: &Reply, b: &Reply) -> bool {
    match (a, b) {
        (Reply::Ok(a), Reply::Ok(b)) => is_same_answer(a, b),
        (Reply::NotFound, Reply::NotFound)
        | (Reply::Exists, Reply::Exists)
        | (Reply::NotDir, Reply::NotDir)
        | (Reply::IsDir, Reply::IsDir)
        | (Reply::NotEmpty, Reply::NotEmpty)
        | (Reply::Denied, Reply::Denied)
        | (Reply::IntoItself, Reply::IntoItself)
        | (Reply::TooLarge, Reply::TooLarge) => true,
        _ => false,
    }
}

fn is_same_answer(a: &Answer, b: &Answer) -> bool {
    match (a, b) {
        (Answer::Done, Answer::Done) => true,
        (Answer::Count(a), Answer::Count(b)) => a == b,
        (Answer::Bytes(a), Answer::Bytes(b)) => a.as_slice() == b.as_slice(),
        (
            Answer::Names { count, names },
            Answer::Names {
                count: count2,
                names: names2,
            },
        ) => count == count2 && are_same_names(names.as_slice(), names2.as_slice()),
        (
            Answer::Stat {
                kind,
                mode,
                uid,
                gid,
                size,
            },
            Answer::Stat {
                kind: kind2,
                mode: mode2,
                uid: uid2,
                gid: gid2,
                size: size2,
            },
        ) => kind == kind2 && mode == mode2 && uid == uid2 && gid == gid2 && size == size2,
        _ => false,
    }
}

fn are_same_names(a: &[(Name, Kind)], b: &[(Name, Kind)]) -> bool {
    if a.len() != b.len() {
        return false;
    }
    for ((name, kind), (name2, kind2)) in a.iter().zip(b) {
        if name.as_bytes() != name2.as_bytes() || kind != kind2 {
            return false;
        }
    }
    true
}

fn are_same(a: &Nodes, b: &Nodes) -> bool {
    for ino in 1..64 {
        if !is_same_node(a.get(ino), b.get(ino)) {
            return false;
        }
    }
    true
}

fn is_same_node(a: Option<&Node>, b: Option<&Node>) -> bool {
    match (a, b) {
        (None, None) => true,
        (Some(a), Some(b)) => {
            a.parent == b.parent
                && a.name.as_bytes() == b.name.as_bytes()
                && a.kind == b.kind
                && a.mode == b.mode
                && a.uid == b.uid
                && a.gid == b.gid
                && a.bytes.as_slice() == b.bytes.as_slice()
        }
        _ => false,
    }
}

// ---- in rounds

fn script(alloc: Global, seed: u64) -> Result<Vec<u8>, NoMemory> {
    let mut script = Vec::new(alloc);
    put_line(&mut script, "lib 1 honest 0 0")?;
    put_calls(alloc, &mut script, seed)?;
    put_line(&mut script, "lib 2 honest 5 5")?;
    put_calls(alloc, &mut script, seed.wrapping_add(100))?;
    put_line(&mut script, "lib 3 raw 0 0")?;
    put_attacks(alloc, &mut script, seed.wrapping_add(200))?;
    Ok(script)
}

// The image from which it starts, with its nodes.
fn begun(alloc: Global) -> Option<Model> {
    let mut image = image_of(alloc, Start::Shared)?;
    let nodes = image.nodes(alloc).ok()?;
    Some(Model {
        image: Some(image),
        nodes,
        count: NONE,
    })
}

impl Inspect for Model {
    // The settled image is that of the tree, and what the third library spoiled is refused.
    fn inspect(
        &mut self,
        alloc: Global,
        ctl: &mut Ctl,
        tolds: &[LibTold],
    ) -> Result<(), &'static str> {
        if !are_refused(tolds, self) {
            return Err("what was spoiled is accepted");
        }
        if !follow(alloc, ctl, self) {
            return Err("the tree replies something else");
        }
        if !is_left(alloc, ctl, self) {
            return Err("the image is not that of the tree");
        }
        Ok(())
    }
}

// Whether the settled image has the nodes of the model, which goes on from it.
fn is_left(alloc: Global, ctl: &mut Ctl, model: &mut Model) -> bool {
    match ctl.image() {
        Ok(mut image) => {
            let has_nodes = has_nodes(alloc, &mut image, &model.nodes);
            model.image = Some(image);
            has_nodes
        }
        Err(_) => false,
    }
}

fn has_nodes(alloc: Global, image: &mut Image, wanted: &Nodes) -> bool {
    match image.nodes(alloc) {
        Ok(nodes) => are_same(&nodes, wanted),
        Err(_) => false,
    }
}

// Whether what the third library spoiled is refused.
fn are_refused(tolds: &[LibTold], model: &mut Model) -> bool {
    let [_, _, third] = tolds else {
        return false;
    };
    match refusals(third.answers()) {
        Some(refusals) => {
            model.count = model.count.and(Count { refusals, ..NONE });
            true
        }
        None => false,
    }
}

// Plays a script on the image that the last one left.
fn goes_on(alloc: Global, model: &mut Model, seed: u64) -> Result<(), &'static str> {
    let Ok(script) = script(alloc, seed) else {
        return Err("memory is wanting");
    };
    match model.image.take() {
        Some(image) => played(alloc, image, &script, model),
        None => Err("no image is left"),
    }
}

// Five scripts one after another.
fn go_on(alloc: Global, model: &mut Model, seed: u64) -> Result<(), &'static str> {
    for part in 0..5 {
        goes_on(alloc, model, seed.wrapping_add(1000 * part))?;
    }
    Ok(())
}

// What was done in them, where it is one tree.
fn one_tree(alloc: Global, seed: u64) -> Result<Count, &'static str> {
    match begun(alloc) {
        Some(mut model) => {
            go_on(alloc, &mut model, seed)?;
            Ok(model.count)
        }
        None => Err("memory is wanting"),
    }
}

fn are_many(count: Count) -> bool {
    count.renames >= 50 && count.modes >= 20 && count.refusals >= 50
}

#[test]
fn settles_come_to_the_one_thread_tree(rt: HostRuntime) {
    let mut all = NONE;
    for seed in 1..26 {
        let count = one_tree(rt.alloc(), seed);
        assert!(rt; count.is_ok(), "seed {seed}");
        all = all.and(count.unwrap_or(NONE));
    }
    assert!(rt; are_many(all));
}
