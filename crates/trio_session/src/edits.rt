//! Edits of one file, by its place.

ghost use Rattle.std.specs.Prelude.{◌≡◌, ◌≢◌, ℕ, ◌+◌, ◌-◌, ◌*◌, ◌/◌, ◌%◌, ◌^◌, ◌<◌, ◌≤◌, ◌++◌, length, drop, take, slice_index, vec_capacity, vec_len, IsSome};
ghost use Rattle.trio_lists.specs.Counting.{count_up};
ghost use Rattle.trio_page.specs.Field.{zeros};
ghost use Rattle.trio_layout.specs.Body.{block_count};
ghost use Rattle.trio_layout.specs.Chain.{index_count};
ghost use Rattle.trio_desk.specs.Out.{page_numbers};
ghost use Rattle.trio_session.specs.Layout.{body_guarded, body_sized, chain_cut, chain_grown, cut_file, grown_file, growth, linked, numbered, put_blocks, put_bytes, put_block, size_in, unlinked, unnamed, with_block_number, with_body_at, with_number_in};
ghost use Rattle.trio_session.specs.inner.Found.{CutDone, GrowDone, MayCutAt, MayGrowAt};
ghost use Rattle.trio_session.specs.inner.Places.{IsFile, IsSlot, IsWholeAt, body_at, chain_at, home_at, shown_at};
ghost use Rattle.trio_session.specs.declared.laid.FilePlace.TheVariants.{Leased};

use crate::laid::{FilePlace, Laid, PER_INDEX, index_count};
use crate::stock::Stock;
use trio_page::field::{put_bytes_in, put_u32_in, put_u64_in, u64_in};

/// Writes what falls on block `k` of bytes that are written from `at` on.
fn put_block(stock: &mut Stock, laid: &Laid, file: FilePlace, k: usize, at: usize, bytes: &[u8])
    requires file { IsFile stock.old file laid.now }
    requires block { k < length (chain_at stock.old file laid.now).blocks }
    requires from { at < 4096 * k + 4096 }
    requires end { 4096 * k < at + length bytes.now }
    requires fits { at + length bytes.now < 2 ^ 64 }
    ensures { stock.new ≡ put_block (chain_at stock.old file laid.now).blocks k at bytes.now stock.old }
{
    let start = 4096 * k;
    let from = at.max(start);
    let end = (at + bytes.len() - start).min(4096) + start - at;
    let place = laid.block_place(file, k);
    stock.put_part(place, from - start, &bytes[from - at..end]);
}

/// Writes bytes into the file from `at` on.
pub(crate) fn put_bytes(stock: &mut Stock, laid: &Laid, file: FilePlace, at: usize, bytes: &[u8])
    requires file { IsFile stock.old file laid.now }
    requires within { at + length bytes.now ≤ 4096 * length (chain_at stock.old file laid.now).blocks }
    requires fits { at + length bytes.now < 2 ^ 64 }
    ensures { stock.new ≡ put_bytes (chain_at stock.old file laid.now).blocks at bytes.now stock.old }
{
    if bytes.is_empty() {
        return;
    }
    for k in at / 4096..(at + bytes.len()).div_ceil(4096) {
        put_block(stock, laid, file, k, at, bytes);
    }
}

/// Writes so many zero bytes into the file from `at` on.
fn put_zeros(stock: &mut Stock, laid: &Laid, file: FilePlace, at: usize, count: usize)
    requires file { IsFile stock.old file laid.now }
    requires short { count ≤ 4096 }
    requires within { at + count ≤ 4096 * length (chain_at stock.old file laid.now).blocks }
    requires fits { at + count < 2 ^ 64 }
    ensures { stock.new ≡ put_bytes (chain_at stock.old file laid.now).blocks at (zeros count) stock.old }
{
    let page = [0; 4096];
    put_bytes(stock, laid, file, at, &page[..count]);
}

/// Writes a link into index page `i`.
fn link(stock: &mut Stock, laid: &Laid, file: FilePlace, i: usize, number: u32)
    requires file { IsFile stock.old file laid.now }
    requires page { i < length (chain_at stock.old file laid.now).index }
    ensures { stock.new ≡ with_number_in (slice_index (chain_at stock.old file laid.now).index i) 4088 number stock.old }
{
    let place = laid.index_place(file, i);
    stock.put_number(place, 4088, u64::from(number));
}

/// Writes the number of block `k` into its index page.
fn name_block(stock: &mut Stock, laid: &Laid, file: FilePlace, k: usize, number: u32)
    requires file { IsFile stock.old file laid.now }
    requires page { k / 511 < length (chain_at stock.old file laid.now).index }
    ensures { stock.new ≡ with_block_number (chain_at stock.old file laid.now).index k number stock.old }
{
    let place = laid.index_place(file, k / PER_INDEX);
    stock.put_number(place, 8 * (k % PER_INDEX), u64::from(number));
}

/// Links each index page from `from` on behind the one before it.
fn link_from(stock: &mut Stock, laid: &Laid, file: FilePlace, from: usize)
    requires { IsFile stock.old file laid.now }
    ensures { stock.new ≡ linked (drop (from - 1) (chain_at stock.old file laid.now).index) stock.old }
{
    for i in from.max(1)..laid.index_len() {
        let place = laid.index_place(file, i);
        let number = stock.number(place).0;
        link(stock, laid, file, i - 1, number);
    }
}

/// Names each block from `from` on in its index page.
fn name_from(stock: &mut Stock, laid: &Laid, file: FilePlace, from: usize)
    requires file { IsFile stock.old file laid.now }
    requires index { length (chain_at stock.old file laid.now).blocks ≤ 511 * length (chain_at stock.old file laid.now).index }
    ensures { stock.new ≡ numbered (chain_at stock.old file laid.now).index from (drop from (chain_at stock.old file laid.now).blocks) stock.old }
{
    for k in from..laid.blocks_len() {
        let place = laid.block_place(file, k);
        let number = stock.number(place).0;
        name_block(stock, laid, file, k, number);
    }
}

/// Takes the names of the blocks from `from` on out of their index pages.
fn unname_from(stock: &mut Stock, laid: &Laid, file: FilePlace, from: usize)
    requires file { IsFile stock.old file laid.now }
    requires index { length (chain_at stock.old file laid.now).blocks ≤ 511 * length (chain_at stock.old file laid.now).index }
    ensures { stock.new ≡ unnamed (chain_at stock.old file laid.now).index from (length (chain_at stock.old file laid.now).blocks - from) stock.old }
{
    for k in from..laid.blocks_len() {
        name_block(stock, laid, file, k, 0);
    }
}

/// Takes the links of the index pages from `from` on.
fn unlink_from(stock: &mut Stock, laid: &Laid, file: FilePlace, from: usize)
    requires { IsFile stock.old file laid.now }
    ensures { stock.new ≡ unlinked (drop from (chain_at stock.old file laid.now).index) stock.old }
{
    for i in from..laid.index_len() {
        link(stock, laid, file, i, 0);
    }
}

/// The number of the file's first index page, 0 where it has none.
fn head_of(stock: &Stock, laid: &Laid, file: FilePlace) -> u32
    requires { IsFile stock.now file laid.now }
    ensures { result ≡ slice_index (chain_at stock.now file laid.now).index 0 }
{
    if laid.index_len() == 0 {
        return 0;
    }
    stock.number(laid.index_place(file, 0)).0
}

/// The size of the file in bytes.
pub(crate) fn size_of(stock: &Stock, file: FilePlace) -> usize
    requires there { IsSome (shown_at stock.now file) }
    requires slot { IsSlot file }
    ensures { result ≡ size_in (body_at stock.now file) }
{
    u64_in(stock.body(file), 16) as usize
}

/// A body with another head and size.
fn with_sizes(body: &[u8; 64], head: u32, size: u64) -> [u8; 64]
    ensures { result ≡ body_sized head size body.now }
{
    let mut sized = *body;
    put_u32_in(&mut sized, 12, head);
    put_u64_in(&mut sized, 16, size);
    sized
}

/// The file gets this guard.
pub(crate) fn guard_file(stock: &mut Stock, file: FilePlace, on: bool)
    requires there { IsSome (shown_at stock.old file) }
    requires slot { IsSlot file }
    ensures guarded { stock.new ≡ with_body_at (home_at stock.old file) (body_guarded on (body_at stock.old file)) stock.old }
    ensures has { body_at stock.new file ≡ body_guarded on (body_at stock.old file) }
    ensures full { length (body_at stock.old file) ≡ 64 }
    ensures whole { IsWholeAt stock.old file }
    ensures others { (i : ℕ) → Leased i ≢ file → body_at stock.new (Leased i) ≡ body_at stock.old (Leased i) }
{
    let body = *stock.body(file);
    stock.put_body(file, &with_guard(&body, on));
}

/// A body with another guard.
fn with_guard(body: &[u8; 64], on: bool) -> [u8; 64]
    ensures { result ≡ body_guarded on body.now }
{
    let mut guarded = *body;
    put_bytes_in(&mut guarded, 24, &[if on { 1 } else { 0 }]);
    guarded
}

/// The file grows to a size, by the allotted pages from place `from` on. Returns the place behind
/// those that it takes.
pub(crate) fn grow_file(
    stock: &mut Stock,
    laid: &mut Laid,
    file: FilePlace,
    size: usize,
    from: usize,
) -> usize
    requires { MayGrowAt stock.old size from file laid.old }
    ensures { GrowDone stock.old stock.new size from result file laid.old laid.new }
{
    // the pages are in memory, so no place among them is beyond 64 bits
    let _pages = stock.pages_len();
    let body = *stock.body(file);
    let old = u64_in(&body, 16) as usize;
    let blocks = laid.blocks_len();
    let index = laid.index_len();
    let gap = (size - old).min((4096 - old % 4096) % 4096);
    put_zeros(stock, laid, file, old, gap);
    let next = laid.take_pages(size.div_ceil(4096), from);
    link_from(stock, laid, file, index);
    name_from(stock, laid, file, blocks);
    let head = head_of(stock, laid, file);
    stock.put_body(file, &with_sizes(&body, head, size as u64));
    next
}

/// The file is cut to a size.
pub(crate) fn cut_file(stock: &mut Stock, laid: &mut Laid, file: FilePlace, size: usize)
    requires { MayCutAt stock.old size file laid.old }
    ensures { CutDone stock.old stock.new size file laid.old laid.new }
{
    let body = *stock.body(file);
    let blocks = size.div_ceil(4096);
    unname_from(stock, laid, file, blocks);
    unlink_from(stock, laid, file, index_count(blocks).saturating_sub(1));
    laid.cut(blocks);
    let head = head_of(stock, laid, file);
    stock.put_body(file, &with_sizes(&body, head, size as u64));
}
