//! Edits of what files have.

ghost use Rattle.std.specs.Prelude.{◌≡◌, ◌+◌, ◌≤◌, length, vec_capacity};
ghost use Rattle.trio_layout.specs.Body.{block_count};
ghost use Rattle.trio_lists.specs.Lists.{In};
ghost use Rattle.trio_session.specs.Layout.{growth, size_in};
ghost use Rattle.trio_session.specs.declared.laid.FilePlace.{FilePlace};
ghost use Rattle.trio_session.specs.declared.laid.Laid.{Laid};
ghost use Rattle.trio_session.specs.inner.Found.{CutDone, FoundAt, GrowDone, IsRelaid, IsThere, MayCutAt, MayGrowAt};
ghost use Rattle.trio_session.specs.Seen.{IsOpen, IsOpenFile, LeavesPlace, LeavesRoom, MayGrow, body_in, chain_in, cut, grown, put, room_in, set_guard, spare_pages};

use crate::edits::{cut_file, grow_file, guard_file, put_bytes, size_of};
use crate::indexes::tell_growth;
use crate::laid::{FilePlace, Laid};
use crate::made::{Made, file_among, made_of};
use crate::session::Session;
use crate::stock::Stock;
use trio_rights::Kind;

impl Session {
    /// A file that the session writes or made grows to a size, by the first of the allotted pages that
    /// are not put in place: a regular file or a link, or a directory by a block of empty slots. It takes
    /// no memory: a [`reserve`](Self::reserve) made its room, or a [`reserve_made`](Self::reserve_made)
    /// that of a new file.
    pub fn grow(&mut self, ino: u32, size: u64)
        requires open { MayGrow self.old ino size }
        requires size { size_in (body_in self.old ino) ≤ size }
        requires pages { growth (length (chain_in self.old ino).blocks) (block_count size) ≤ length (spare_pages self.old) }
        requires room { block_count size ≤ room_in self.old ino }
        ensures kept { self.new ≡ record (grown ino size self.old) { room = self.new.room } }
        ensures room { LeavesRoom ino self.old self.new }
        ensures names { In ino self.old.room.names → In ino self.new.room.names }
        ensures place { LeavesPlace self.old self.new }
        ensures next { self.new.room.next_blocks ≡ self.old.room.next_blocks }
        ensures sized { size_in (body_in self.new ino) ≡ size }
    {
        let size = size as usize;
        let kind = self.open_kind(ino).unwrap();
        let (_, laid) = self.file_on(ino).unwrap();
        let more = size.div_ceil(4096) - laid.blocks_len();
        self.placed = grow_one(
            &mut self.stock,
            &mut self.laid,
            &mut self.made,
            ino,
            size,
            self.placed,
        );
        tell_growth(&mut self.dirs, kind, ino, more);
    }

    /// A regular file or a link is cut to a size. What it gives up stays in hand, and isn't used again.
    pub fn cut(&mut self, ino: u32, size: u64)
        requires open { IsOpen self.old ino }
        requires size { size ≤ size_in (body_in self.old ino) }
        ensures kept { self.new ≡ record (cut ino size self.old) { room = self.new.room } }
        ensures room { LeavesRoom ino self.old self.new }
        ensures place { LeavesPlace self.old self.new }
    {
        cut_one(
            &mut self.stock,
            &mut self.laid,
            &mut self.made,
            ino,
            size as usize,
        );
    }

    /// Writes bytes into a regular file or a link from `at` on, within its size. It takes no memory.
    pub fn put(&mut self, ino: u32, at: u64, bytes: &[u8])
        requires open { IsOpen self.old ino }
        requires within { at + length bytes.now ≤ size_in (body_in self.old ino) }
        ensures { self.new ≡ put ino at bytes.now self.old }
    {
        let (file, laid) = file_among(&self.stock, &self.laid, &self.made, ino).unwrap();
        // the size is a number of 64 bits, and the bytes stay within it
        let _size = size_of(&self.stock, file);
        put_bytes(&mut self.stock, laid, file, at as usize, bytes);
    }

    /// Sets whether a regular file is guarded. It takes no memory.
    pub fn set_guard(&mut self, ino: u32, on: bool)
        requires { IsOpenFile self.old ino }
        ensures { self.new ≡ set_guard ino on self.old }
    {
        let (file, _) = file_among(&self.stock, &self.laid, &self.made, ino).unwrap();
        guard_file(&mut self.stock, file, on);
    }
}

/// The file of this number, among those that are written and those that were made, grows to a size, by
/// the allotted pages from place `from` on. Returns the place behind those that it takes.
fn grow_one(
    stock: &mut Stock,
    laid: &mut Vec<Laid>,
    made: &mut Vec<Made>,
    ino: u32,
    size: usize,
    from: usize,
) -> usize
    requires there { IsThere stock.old made.old.items ino }
    requires beside { length laid.old.items ≡ length stock.old.writes }
    requires may { (file : FilePlace) (l : Laid) → FoundAt stock.old laid.old.items made.old.items ino file l → MayGrowAt stock.old size from file l }
    ensures relaid { IsRelaid (GrowDone stock.old stock.new size from result) stock.old laid.old.items made.old.items ino laid.new.items made.new.items }
    ensures places { vec_capacity made.new ≡ vec_capacity made.old }
{
    match made_of(made, ino) {
        Some(at) => {
            let one = &mut made[at];
            let file = one.file();
            grow_file(stock, &mut one.laid, file, size, from)
        }
        None => {
            let at = stock.file_of(ino).unwrap();
            grow_file(stock, &mut laid[at], FilePlace::Leased { at }, size, from)
        }
    }
}

/// The file of this number, among those that are written and those that were made, is cut to a size.
fn cut_one(stock: &mut Stock, laid: &mut Vec<Laid>, made: &mut Vec<Made>, ino: u32, size: usize)
    requires there { IsThere stock.old made.old.items ino }
    requires beside { length laid.old.items ≡ length stock.old.writes }
    requires may { (file : FilePlace) (l : Laid) → FoundAt stock.old laid.old.items made.old.items ino file l → MayCutAt stock.old size file l }
    ensures relaid { IsRelaid (CutDone stock.old stock.new size) stock.old laid.old.items made.old.items ino laid.new.items made.new.items }
    ensures places { vec_capacity made.new ≡ vec_capacity made.old }
{
    match made_of(made, ino) {
        Some(at) => {
            let one = &mut made[at];
            let file = one.file();
            cut_file(stock, &mut one.laid, file, size)
        }
        None => {
            let at = stock.file_of(ino).unwrap();
            cut_file(stock, &mut laid[at], FilePlace::Leased { at }, size)
        }
    }
}
