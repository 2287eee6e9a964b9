//! The traits of the outside, each with what contracts see of it as its ghost member `seen`.

ghost use Rattle.std.specs.Prelude.{◌≡◌, ◌≤◌, ℕ, length, take, Contains, None, IfOk, OnOk, OnErr};
ghost use Rattle.std.specs.Io.KnownBytes.{Appends};
ghost use Rattle.trio_io.specs.Shelf.{Shelf, SinkSeen, Rose, RisesAt, GivesBytes, KeepsOthers, told};

use trio_rights::LibNo;

/// The largest offset that a file is read at, in bytes. No file that trio reads may be longer.
pub const MAX_OFFSET: u64 = 33_554_432;

/// The outside refused a call. It says no more: the trait of the call says whose count has risen.
#[derive(Clone, Copy, Debug, PartialEq, Eq)]
pub struct Failed;

/// Files by name.
///
/// Contracts see some files as their `seen`, which has five parts.
///
/// - `served` is the list of the names that may be asked for. It never changes, and each call has
///   the condition that its name is served.
/// - `held` has at a name the bytes of its file, where these files tell them, and else `None`.
/// - `tells` says whether a content that is put in place by `replace` is told from then on. It
///   never changes.
/// - `read_faults` and `write_faults` have at a name how often a read and a write of it has failed.
///   They never fall. One that stands at 2^64 - 1 counts as risen.
pub trait Files {
    ghost seen: { Self → Shelf };

    /// Reads bytes of a file from the offset `at` on into the beginning of `buf`, and answers how
    /// many: as many as there is room for, or else all that are left. So `Ok(0)` for a buffer that
    /// isn't empty means the end of the file. `at` is in bytes, at most [`MAX_OFFSET`].
    ///
    /// `Failed` comes only where `read_faults` of this name rose; what `buf` then has isn't said.
    /// Contents and all other counts stay in both cases.
    fn read_at(&mut self, name: &str, at: u64, buf: &mut [u8]) -> Result<usize, Failed>
        requires served { Contains (seen self.old).served name.now }
        requires within { at ≤ MAX_OFFSET }
        ensures bound { IfOk result (λ n. n ≤ length buf.new) }
        ensures bytes { GivesBytes ((seen self.old).held name.now) at result buf.new }
        ensures cause { OnErr result
            (Rose ((seen self.old).read_faults name.now) ((seen self.new).read_faults name.now)) }

        ensures reads { RisesAt name.now (seen self.old).read_faults (seen self.new).read_faults }
        ensures writes { (seen self.new).write_faults ≡ (seen self.old).write_faults }
        ensures held { (seen self.new).held ≡ (seen self.old).held }
        ensures tells { (seen self.new).tells ≡ (seen self.old).tells }
        ensures serves { (seen self.new).served ≡ (seen self.old).served };

    /// Makes these bytes the whole content of a name.
    ///
    /// `Failed` comes only where `write_faults` of this name rose, and the content of this name
    /// isn't told then. Other names and all other counts stay in both cases.
    fn replace(&mut self, name: &str, bytes: &[u8]) -> Result<(), Failed>
        requires { Contains (seen self.old).served name.now }
        ensures content { OnOk result
            ((seen self.new).held name.now ≡ told (seen self.old).tells bytes.now) }
        ensures untold { OnErr result ((seen self.new).held name.now ≡ None) }
        ensures others { KeepsOthers name.now (seen self.old).held (seen self.new).held }
        ensures cause { OnErr result
            (Rose ((seen self.old).write_faults name.now) ((seen self.new).write_faults name.now)) }

        ensures writes { RisesAt name.now
            (seen self.old).write_faults (seen self.new).write_faults }
        ensures reads { (seen self.new).read_faults ≡ (seen self.old).read_faults }
        ensures tells { (seen self.new).tells ≡ (seen self.old).tells }
        ensures serves { (seen self.new).served ≡ (seen self.old).served };
}

/// Where bytes are put, one after another.
///
/// Contracts see a sink as its `seen`, which has two parts: `written`, all bytes that were put so
/// far, where the sink tells them; and `faults`, how often a put has failed, which never falls. A
/// count that stands at 2^64 - 1 counts as risen.
pub trait Sink {
    ghost seen: { Self → SinkSeen };

    /// Appends all of the bytes. At `Failed`, which comes only where `faults` rose, some first part
    /// of them was appended, maybe none or all.
    fn put(&mut self, bytes: &[u8]) -> Result<(), Failed>
        ensures all { OnOk result
            (Appends (seen self.old).written (seen self.new).written bytes.now) }
        ensures part { OnErr result
            ((n : ℕ) × Appends (seen self.old).written (seen self.new).written (take n bytes.now)) }
        ensures cause { OnErr result (Rose (seen self.old).faults (seen self.new).faults) }
        ensures later { (seen self.old).faults ≤ (seen self.new).faults };
}

/// Where a library may be held between two lines of its script.
///
/// Contracts see nothing of a gate, so no answer depends on it.
pub trait Gate {
    /// Comes before a line of a library's script, with the line's number, and with 0 before the
    /// library's end step. It comes when the library has no turn.
    fn arrive(&self, lib: LibNo, line: u32);
}

/// The gate that holds nobody.
#[derive(Clone, Copy, Debug)]
pub struct OpenGate;

impl Gate for OpenGate {
    fn arrive(&self, _lib: LibNo, _line: u32) {}
}
