//! Replies are copied, for the calls that a session notes.

ghost use Rattle.std.specs.Prelude.{◌≡◌, IfErr, IfOk};
ghost use Rattle.trio_walk.specs.Tries.{TakesMemory};

use std::alloc::Global;
use trio_nodes::{Answer, List, Reply};
use trio_page::NoMemory;

/// The same reply once more. Bytes are shared and names are copied; nothing else takes memory.
pub fn copy_reply(alloc: Global, reply: &Reply) -> Result<Reply, NoMemory>
    ensures same { IfOk result (λ copy. copy ≡ reply.now) }
    ensures only { IfErr result (λ fault. TakesMemory reply.now) }
{
    Ok(match reply {
        Reply::Ok(answer) => Reply::Ok(copy_answer(alloc, answer)?),
        Reply::NotFound => Reply::NotFound,
        Reply::Exists => Reply::Exists,
        Reply::NotDir => Reply::NotDir,
        Reply::IsDir => Reply::IsDir,
        Reply::NotEmpty => Reply::NotEmpty,
        Reply::Denied => Reply::Denied,
        Reply::IntoItself => Reply::IntoItself,
        Reply::NoSpace { wanted, free } => Reply::NoSpace {
            wanted: *wanted,
            free: *free,
        },
        Reply::NoInodes { wanted, free } => Reply::NoInodes {
            wanted: *wanted,
            free: *free,
        },
        Reply::TooLarge => Reply::TooLarge,
        Reply::IsLink => Reply::IsLink,
        Reply::NotLink => Reply::NotLink,
    })
}

// the same answer once more
fn copy_answer(alloc: Global, answer: &Answer) -> Result<Answer, NoMemory>
    ensures same { IfOk result (λ copy. copy ≡ answer.now) }
    ensures only { IfErr result (λ fault. TakesMemory (Reply.Ok answer.now)) }
{
    Ok(match answer {
        Answer::Done => Answer::Done,
        Answer::Count(count) => Answer::Count(*count),
        Answer::Bytes(bytes) => Answer::Bytes(bytes.share()?),
        Answer::Names { count, names } => Answer::Names {
            count: *count,
            names: List::from_vec(Vec::from_slice(alloc, names.as_slice())?),
        },
        Answer::Stat {
            kind,
            mode,
            uid,
            gid,
            size,
        } => Answer::Stat {
            kind: *kind,
            mode: *mode,
            uid: *uid,
            gid: *gid,
            size: *size,
        },
    })
}
