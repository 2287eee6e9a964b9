//! A raw library's line and its end, played at its desk.

ghost use Rattle.std.specs.Prelude.{◌≡◌, ⊤, IfOk, Some};
ghost use Rattle.trio_desk.specs.Out.{IsClosed, LibOut};
ghost use Rattle.trio_raw.specs.Has.{OnList, whole_parcel};
ghost use Rattle.trio_runner.specs.Line.{has_alone, told_alone, told_fault, told_grant, told_unmoded, told_want};
ghost use Rattle.trio_runner.specs.Play.{Things};
ghost use Rattle.trio_runner.specs.Players.{EndCalled, LineCalled};
ghost use Rattle.trio_runner.specs.Rounds.{Says};

use crate::players::Player;
use std::alloc::Global;
use std::mem;
use trio_desk::Desk;
use trio_nodes::{
    AllotAnswer, AllotFault, Bytes, GrantFault, GrantKind, ModeFault, ReleaseAnswer, Spot,
};
use trio_page::NoMemory;
use trio_raw::{Absent, Raw, RawFault};
use trio_report::{EndAnswer, LineAnswer};
use trio_script::{RawLine, ScriptLine};

impl Player for Raw {
    type Line = RawLine;

    ghost share = { λ raw. Things raw.has };

    ghost turn = { Says };

    ghost within = { λ line. ⊤ };

    fn say<D: Desk>(
        &mut self,
        alloc: Global,
        desk: &mut D,
        line: &ScriptLine<RawLine>,
    ) -> Result<LineAnswer, NoMemory> {
        play_line(alloc, desk, self, &line.line)
    }

    fn end<D: Desk>(&mut self, alloc: Global, desk: &mut D) -> Result<EndAnswer, NoMemory> {
        let lib = self.lib();
        let ending = mem::replace(self, Raw::new(alloc, lib));
        play_end(desk, ending)
    }
}

/// Plays one line at the library's desk. After want of memory things that were given may be out for
/// good.
fn play_line<D: Desk>(
    alloc: Global,
    desk: &mut D,
    raw: &mut Raw,
    line: &RawLine,
) -> Result<LineAnswer, NoMemory>
    requires stands { OnList (D.seen desk.old).out raw.old.has }
    ensures line { IfOk result (λ told. LineCalled D.called desk.old (D.seen desk.old).lib raw.old.has line.now told desk.new raw.new.has) }
    ensures stands { OnList (D.seen desk.new).out raw.new.has }
{
    match line {
        RawLine::Grant { ino, kind } => play_grant(desk, raw, *ino, *kind),
        RawLine::Back(ino) => Ok(play_back(desk, raw, *ino)),
        RawLine::Allot { pages, inodes } => play_allot(desk, raw, *pages, *inodes),
        RawLine::Mode { ino, mode } => play_mode(desk, raw, *ino, *mode),
        RawLine::Poke { at, offset, bytes } => Ok(play_poke(raw, *at, *offset, bytes.as_slice())),
        RawLine::Peek { at, offset, len } => play_peek(alloc, raw, *at, *offset, *len),
        RawLine::Release {
            inos,
            pages,
            inodes,
        } => play_release(
            desk,
            raw,
            inos.as_slice(),
            pages.as_slice(),
            inodes.as_slice(),
        ),
    }
}

/// Asks for a grant.
fn play_grant<D: Desk>(
    desk: &mut D,
    raw: &mut Raw,
    ino: u32,
    kind: GrantKind,
) -> Result<LineAnswer, NoMemory>
    requires { OnList (D.seen desk.old).out raw.old.has }
    ensures line { IfOk result (λ told. LineCalled D.called desk.old (D.seen desk.old).lib raw.old.has (RawLine.Grant ino kind) told desk.new raw.new.has) }
    ensures stands { OnList (D.seen desk.new).out raw.new.has }
{
    match raw.grant(desk, ino, kind) {
        Ok(children) => Ok(grant_answer(kind, children)),
        Err(fault) => fault_answer(fault),
    }
}

/// How a grant is answered: a hold with the number of its file's children.
fn grant_answer(kind: GrantKind, children: u32) -> LineAnswer
    ensures { result ≡ told_grant kind children }
{
    match kind {
        GrantKind::Read | GrantKind::Write => LineAnswer::Granted,
        GrantKind::Hold => LineAnswer::GrantedHold { children },
    }
}

/// How a line is answered whose grant was not given. Want of memory is no answer.
fn fault_answer(fault: GrantFault) -> Result<LineAnswer, NoMemory>
    ensures { IfOk result (λ answer. told_fault fault ≡ Some answer) }
{
    match fault {
        GrantFault::NotLive => Ok(LineAnswer::NotLive),
        GrantFault::Denied(ino) => Ok(LineAnswer::Denied(ino)),
        GrantFault::NoParent => Ok(LineAnswer::NoParent),
        GrantFault::Busy(_) => Ok(LineAnswer::Busy),
        GrantFault::NoMemory => Err(NoMemory),
    }
}

/// Gives the read lease on this file back, where the library has one.
fn play_back<D: Desk>(desk: &mut D, raw: &mut Raw, ino: u32) -> LineAnswer
    requires { OnList (D.seen desk.old).out raw.old.has }
    ensures line { LineCalled D.called desk.old (D.seen desk.old).lib raw.old.has (RawLine.Back ino) result desk.new raw.new.has }
    ensures stands { OnList (D.seen desk.new).out raw.new.has }
{
    match raw.back(desk, ino) {
        Ok(()) => LineAnswer::GivenBack,
        Err(Absent) => LineAnswer::Absent,
    }
}

/// Asks for pages and inode numbers.
fn play_allot<D: Desk>(
    desk: &mut D,
    raw: &mut Raw,
    pages: u32,
    inodes: u32,
) -> Result<LineAnswer, NoMemory>
    requires stands { OnList (D.seen desk.old).out raw.old.has }
    ensures line { IfOk result (λ told. LineCalled D.called desk.old (D.seen desk.old).lib raw.old.has (RawLine.Allot pages inodes) told desk.new raw.new.has) }
    ensures stands { OnList (D.seen desk.new).out raw.new.has }
{
    match raw.allot(desk, pages, inodes)? {
        AllotAnswer::Given { pages, inodes } => Ok(LineAnswer::Allotted { pages, inodes }),
        AllotAnswer::Refused(fault) => want_answer(fault),
    }
}

/// How a line is answered that wants more than is free. Want of memory is no answer.
fn want_answer(fault: AllotFault) -> Result<LineAnswer, NoMemory>
    ensures { IfOk result (λ answer. told_want fault ≡ Some answer) }
{
    match fault {
        AllotFault::NoPages { wanted, free } => Ok(LineAnswer::NoPages { wanted, free }),
        AllotFault::NoInodes { wanted, free } => Ok(LineAnswer::NoInodes { wanted, free }),
        AllotFault::NoMemory => Err(NoMemory),
    }
}

/// Asks for a change of mode.
fn play_mode<D: Desk>(
    desk: &mut D,
    raw: &mut Raw,
    ino: u32,
    mode: u16,
) -> Result<LineAnswer, NoMemory>
    requires { OnList (D.seen desk.old).out raw.old.has }
    ensures line { IfOk result (λ told. LineCalled D.called desk.old (D.seen desk.old).lib raw.old.has (RawLine.Mode ino mode) told desk.new raw.new.has) }
    ensures stands { OnList (D.seen desk.new).out raw.new.has }
{
    match raw.set_mode(desk, ino, mode) {
        Ok(()) => Ok(LineAnswer::ModeSet),
        Err(fault) => mode_answer(fault),
    }
}

/// How a line is answered whose mode was not set. Want of memory is no answer.
fn mode_answer(fault: ModeFault) -> Result<LineAnswer, NoMemory>
    ensures { IfOk result (λ answer. told_unmoded fault ≡ Some answer) }
{
    match fault {
        ModeFault::NotLive => Ok(LineAnswer::NotLive),
        ModeFault::NotOwner => Ok(LineAnswer::NotOwner),
        ModeFault::BadMode => Ok(LineAnswer::BadMode),
        ModeFault::Busy(_) => Ok(LineAnswer::Busy),
        ModeFault::NoMemory => Err(NoMemory),
    }
}

/// Writes bytes into what the library has. Nobody is asked.
fn play_poke(raw: &mut Raw, at: Spot, offset: u32, bytes: &[u8]) -> LineAnswer
    ensures answer { result ≡ told_alone raw.old.has (RawLine.Poke at offset bytes.now) }
    ensures has { raw.new.has ≡ has_alone raw.old.has (RawLine.Poke at offset bytes.now) }
    ensures stands { (out : LibOut) → OnList out raw.old.has → OnList out raw.new.has }
{
    if raw.poke(at, offset, bytes) {
        LineAnswer::Poked
    } else {
        LineAnswer::Absent
    }
}

/// Shows bytes of what the library has. Nobody is asked.
fn play_peek(
    alloc: Global,
    raw: &Raw,
    at: Spot,
    offset: u32,
    len: u32,
) -> Result<LineAnswer, NoMemory>
    ensures { IfOk result (λ answer. answer ≡ told_alone raw.now.has (RawLine.Peek at offset len)) }
{
    match raw.peek(at, offset, len) {
        Some(bytes) => Ok(LineAnswer::Seen(Bytes::copied(alloc, bytes)?)),
        None => Ok(LineAnswer::Absent),
    }
}

/// Hands in what is named, where the library has all of it.
fn play_release<D: Desk>(
    desk: &mut D,
    raw: &mut Raw,
    inos: &[u32],
    pages: &[u32],
    inodes: &[u32],
) -> Result<LineAnswer, NoMemory>
    requires { OnList (D.seen desk.old).out raw.old.has }
    ensures line { IfOk result (λ told. LineCalled D.called desk.old (D.seen desk.old).lib raw.old.has (RawLine.Release inos.now pages.now inodes.now) told desk.new raw.new.has) }
    ensures stands { OnList (D.seen desk.new).out raw.new.has }
{
    match raw.release(desk, inos, pages, inodes) {
        Ok(ReleaseAnswer::Accepted) => Ok(LineAnswer::Accepted),
        Ok(ReleaseAnswer::Refused { rule, .. }) => Ok(LineAnswer::Refused(rule)),
        Err(RawFault::Absent) => Ok(LineAnswer::Absent),
        Err(RawFault::NotClosed(ino)) => Ok(LineAnswer::NotClosed(ino)),
        Err(RawFault::NoMemory) => Err(NoMemory),
    }
}

/// Ends a library at its desk: its read leases are given back, and all the rest is released in one
/// bundle. After want of memory the rest stays out for good.
fn play_end<D: Desk>(desk: &mut D, raw: Raw) -> Result<EndAnswer, NoMemory>
    requires stands { OnList (D.seen desk.old).out raw.has }
    requires closed { IsClosed (D.seen desk.old).out (whole_parcel raw.has) }
    ensures { IfOk result (λ end. EndCalled D.called desk.old raw.has end desk.new) }
{
    match raw.end(desk) {
        Ok(None) => Ok(EndAnswer::Nothing),
        Ok(Some(ReleaseAnswer::Accepted)) => Ok(EndAnswer::Accepted),
        Ok(Some(ReleaseAnswer::Refused { rule, .. })) => Ok(EndAnswer::Refused(rule)),
        Err((raw, NoMemory)) => {
            raw.discard();
            Err(NoMemory)
        }
    }
}
