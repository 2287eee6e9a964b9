//! What calls of the tree are replied.

ghost use Rattle.std.specs.Prelude.{◌≡◌, ◌++◌, OnOk, codes, length};
ghost use Rattle.std.specs.List.{flat_map};
ghost use Rattle.std.specs.Fmt.{decimal};
ghost use Rattle.trio_rights.specs.Kind.{letter};
ghost use Rattle.trio_report.specs.Octal.{octal_of};
ghost use Rattle.trio_report.specs.Replies.{bytes_text, done_text, kind_mark, listed_text, reply_text};

use crate::answer::{put_number, put_want};
use crate::line::put_mode;
use crate::text::{put_escaped, put_text};
use std::alloc::Global;
use trio_names::Name;
use trio_nodes::{Answer, Reply};
use trio_page::NoMemory;
use trio_rights::{Kind, Mode};

/// Appends the words for what a call is replied, as `ok 5` or `nospace 30 25`.
pub fn put_reply(alloc: Global, out: &mut Vec<u8>, reply: &Reply) -> Result<(), NoMemory>
    ensures { OnOk result (out.new.items ≡ out.old.items ++ reply_text reply.now) }
{
    match reply {
        Reply::Ok(answer) => put_done(alloc, out, answer),
        Reply::NotFound => put_text(out, "notfound"),
        Reply::Exists => put_text(out, "exists"),
        Reply::NotDir => put_text(out, "notdir"),
        Reply::IsDir => put_text(out, "isdir"),
        Reply::NotEmpty => put_text(out, "notempty"),
        Reply::Denied => put_text(out, "denied"),
        Reply::IntoItself => put_text(out, "intoitself"),
        Reply::NoSpace { wanted, free } => put_want(alloc, out, "nospace", *wanted, *free),
        Reply::NoInodes { wanted, free } => put_want(alloc, out, "noinodes", *wanted, *free),
        Reply::TooLarge => put_text(out, "toolarge"),
        Reply::IsLink => put_text(out, "islink"),
        Reply::NotLink => put_text(out, "notlink"),
    }
}

fn put_done(alloc: Global, out: &mut Vec<u8>, answer: &Answer) -> Result<(), NoMemory>
    ensures { OnOk result (out.new.items ≡ out.old.items ++ done_text answer.now) }
{
    match answer {
        Answer::Done => put_text(out, "ok"),
        Answer::Count(count) => put_number(alloc, out, "ok ", *count),
        Answer::Bytes(bytes) => put_read(alloc, out, bytes.as_slice()),
        Answer::Names { count, names } => put_names(alloc, out, *count, names.as_slice()),
        Answer::Stat {
            kind,
            mode,
            uid,
            gid,
            size,
        } => put_stat(alloc, out, *kind, *mode, *uid, *gid, *size),
    }
}

fn put_read(alloc: Global, out: &mut Vec<u8>, bytes: &[u8]) -> Result<(), NoMemory>
    ensures { OnOk result (out.new.items ≡ out.old.items ++ (codes "ok " ++ decimal (length bytes.now) ++ bytes_text bytes.now)) }
{
    let count = bytes.len();
    put_text(out, &format!(in alloc; "ok {count}")?)?;
    put_bytes(alloc, out, bytes)
}

fn put_bytes(alloc: Global, out: &mut Vec<u8>, bytes: &[u8]) -> Result<(), NoMemory>
    ensures { OnOk result (out.new.items ≡ out.old.items ++ bytes_text bytes.now) }
{
    if bytes.is_empty() {
        return Ok(());
    }
    put_text(out, " ")?;
    put_escaped(alloc, out, bytes)
}

fn put_names(
    alloc: Global,
    out: &mut Vec<u8>,
    count: u32,
    names: &[(Name, Kind)],
) -> Result<(), NoMemory>
    ensures { OnOk result (out.new.items ≡ out.old.items ++ (codes "ok " ++ decimal count ++ flat_map listed_text names.now)) }
{
    put_number(alloc, out, "ok ", count)?;
    put_each(alloc, out, names)
}

fn put_each(alloc: Global, out: &mut Vec<u8>, names: &[(Name, Kind)]) -> Result<(), NoMemory>
    ensures { OnOk result (out.new.items ≡ out.old.items ++ flat_map listed_text names.now) }
{
    for listed in names {
        put_listed(alloc, out, listed)?;
    }
    Ok(())
}

fn put_listed(alloc: Global, out: &mut Vec<u8>, listed: &(Name, Kind)) -> Result<(), NoMemory>
    ensures { OnOk result (out.new.items ≡ out.old.items ++ listed_text listed.now) }
{
    put_text(out, " ")?;
    put_escaped(alloc, out, listed.0.as_bytes())?;
    put_text(out, kind_mark(listed.1))
}

fn kind_mark(kind: Kind) -> &'static str
    ensures { result.now ≡ kind_mark kind }
{
    match kind {
        Kind::Regular => "",
        Kind::Directory => "/",
        Kind::Link => "@",
    }
}

fn put_stat(
    alloc: Global,
    out: &mut Vec<u8>,
    kind: Kind,
    mode: Mode,
    uid: u32,
    gid: u32,
    size: u64,
) -> Result<(), NoMemory>
    ensures { OnOk result (out.new.items ≡ out.old.items ++ (codes "ok " ++ letter kind ++ codes " " ++ octal_of mode.0 ++ codes " " ++ decimal uid ++ codes " " ++ decimal gid ++ codes " " ++ decimal size)) }
{
    let letter = kind.letter();
    put_text(out, &format!(in alloc; "ok {letter} ")?)?;
    put_mode(out, mode)?;
    put_text(out, &format!(in alloc; " {uid} {gid} {size}")?)
}
