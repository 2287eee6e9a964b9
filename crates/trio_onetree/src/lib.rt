//! The file system as one tree on one thread: what each call does to the nodes, and what it is
//! replied. It knows no pages and no leases.
//!
//! It is the plain program whose contract is the definition of the calls: `specs/Apply.antt` of
//! `trio_nodes`.
#![tactic(auto)]

ghost use Rattle.std.specs.Prelude.{◌≡◌, MatchResult};
ghost use Rattle.trio_nodes.specs.Apply.{applied};
ghost use Rattle.trio_onetree.specs.inner.Gives.{Gives};

mod change;
mod content;
mod fault;
pub mod laws;
mod look;
mod path;
mod reach;
mod walk;

use fault::Fault;
use std::alloc::{AllocError as NoMemory, Global};
use trio_nodes::{Answer, Call, Nodes, Reply};
use trio_rights::{Creds, Kind, Mode};

/// The mode of a link, which gives everybody all rights.
const LINK_MODE: Mode = Mode(0o777);

/// Does a call on the nodes, for a caller with these credentials, and says what it is replied. A
/// file that is made gets the number `made`. The reply is never want of room.
///
/// What takes memory takes it before anything changes: after `NoMemory` the nodes are unchanged.
/// The number 4,294,967,295 is answered `NoMemory`, since no node can have it. The work is linear in
/// the names of the paths, each of which looks through the nodes once.
pub fn apply(
    alloc: Global,
    nodes: &mut Nodes,
    creds: Creds,
    call: &Call,
    made: u32,
) -> Result<Reply, NoMemory>
    ensures { let a = applied nodes.old creds call.now made in MatchResult result
        (λ reply. (reply ≡ a.reply) × (nodes.new ≡ a.nodes)) (λ _. nodes.new ≡ nodes.old) }
{
    match outcome(alloc, nodes, creds, call, made) {
        Ok(answer) => Ok(Reply::Ok(answer)),
        Err(Fault::Refused(reply)) => Ok(reply),
        Err(Fault::NoMemory) => Err(NoMemory),
    }
}

fn outcome(
    alloc: Global,
    nodes: &mut Nodes,
    creds: Creds,
    call: &Call,
    made: u32,
) -> Result<Answer, Fault>
    ensures { Gives (applied nodes.old creds call.now made) nodes.old nodes.new result }
{
    match call {
        Call::Mkdir { path, mode } => {
            change::make(alloc, nodes, creds, Kind::Directory, path, *mode, &[], made)
        }
        Call::Create { path, mode } => {
            change::make(alloc, nodes, creds, Kind::Regular, path, *mode, &[], made)
        }
        Call::Write { path, at, bytes } => {
            change::write(alloc, nodes, creds, path, *at, bytes.as_slice())
        }
        Call::Read { path, at, len } => look::read(alloc, nodes, creds, path, *at, *len),
        Call::Truncate { path, size } => change::truncate(alloc, nodes, creds, path, *size),
        Call::Unlink { path } => change::unlink(nodes, creds, path),
        Call::Rmdir { path } => change::rmdir(nodes, creds, path),
        Call::Rename { from, to } => change::rename(nodes, creds, from, to),
        Call::List { path, from } => look::list(alloc, nodes, creds, path, *from),
        Call::Stat { path } => look::stat(nodes, creds, path),
        Call::Chmod { path, mode } => change::chmod(nodes, creds, path, *mode),
        Call::Symlink { path, text } => change::make(
            alloc,
            nodes,
            creds,
            Kind::Link,
            path,
            LINK_MODE,
            text.as_slice(),
            made,
        ),
        Call::Readlink { path } => look::readlink(alloc, nodes, creds, path),
        Call::Guard { path, on } => change::guard(nodes, creds, path, *on),
    }
}
