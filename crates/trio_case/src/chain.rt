//! The chain of a file, as far as its pages are the bundle's.

ghost use Rattle.std.specs.Prelude.{◌≡◌, ◌+◌, ◌++◌, ◌∷◌, [], ◌≤◌, ◌<◌, ℕ, length, Ok, Err, IfSome, OnOk, MatchResult, MatchOption, List, None, Some, IsTrue, IsFalse, IfNone, vec_len, vec_capacity};
ghost use Rattle.trio_layout.specs.Body.{block_count};
ghost use Rattle.trio_layout.specs.Case.{bundle_core};
ghost use Rattle.trio_layout.specs.Chain.{index_count};
ghost use Rattle.trio_layout.specs.Core.{at_page, page_of};
ghost use Rattle.trio_layout.specs.Index.{index_of};
ghost use Rattle.trio_layout.specs.Range.{core_count};
ghost use Rattle.trio_layout.specs.Within.{chain_of_within};
ghost use Rattle.trio_page.specs.Home.{raised};
ghost use Rattle.trio_case.specs.Cases.{case_in};
ghost use Rattle.trio_case.specs.Places.{bytes_at};
ghost use Rattle.trio_case.specs.Memory.{writes_directory};
ghost use Rattle.trio_case.specs.Rooms.{looks_left, part, unread_blocks, unread_index, HasPlaces, Keeps, KeepsPages, SaysIndex};
ghost use Rattle.trio_case.specs.inner.Steps.{IndexAnswer, IsBadIndex, IsIndexKept, IsIndexRead, StandsAt};

use crate::case::Case;
use crate::kept::{KeptIndex, KeptPage, KeptPages, Span};
use crate::places::{PagePlace, look};
use crate::room::PageRoom;
use trio_layout::{Body, CoreRange, IndexPage};
use trio_lease::Bundle;
use trio_page::Reads;

/// What an index page of a chain is.
pub(crate) enum IndexRead {
    /// None of the bundle's pages.
    Absent,
    /// Outside the grammar.
    Bad,
    /// In the grammar, with this link.
    Next(u32),
}

/// Reads the chain of a body into the room, or finds the first index page that is outside the
/// grammar.
pub fn read_chain(
    case: &Case,
    room: &mut PageRoom,
    body: &Body,
    reads: &mut Reads,
) -> Result<(), u32>
    requires keeps { Keeps case.now room.old }
    requires few { block_count body.now.size ≤ core_count case.now.range }
    ensures chain { let whole = chain_of_within (bundle_core (case_in case.now)) body.now in
        MatchResult result (λ _. whole ≡ Ok (record { index = room.new.index.items; blocks = room.new.blocks.items })) (λ page. whole ≡ Err (at_page page)) }
    ensures keeps { Keeps case.now room.new }
    ensures looks { OnOk result (reads.new + looks_left room.new ≤ reads.old + looks_left room.old) }
    ensures last { reads.new ≤ reads.old + looks_left room.old }
{
    room.index.clear();
    room.blocks.clear();
    let mut left = body.blocks();
    let mut at = body.head;
    while left > 0 {
        let used = left.min(511) as u16;
        let read = read_index(
            case,
            &mut room.kept,
            at,
            used,
            left <= 511,
            &mut room.blocks,
            reads,
        );
        match read {
            IndexRead::Absent => {
                add(&mut room.index, at);
                return Ok(());
            }
            IndexRead::Bad => return Err(at),
            IndexRead::Next(next) => {
                add(&mut room.index, at);
                at = next;
                left -= u64::from(used);
            }
        }
    }
    Ok(())
}

/// Reads an index page and appends its numbers. It is looked at only where it isn't kept; as what
/// else than what is kept a page may be read, it is outside the grammar.
fn read_index(
    case: &Case,
    kept: &mut KeptPages,
    no: u32,
    used: u16,
    last: bool,
    blocks: &mut Vec<u32>,
    reads: &mut Reads,
) -> IndexRead
    requires some { 1 ≤ used }
    requires many { used ≤ 511 }
    requires first { 0 < case.now.range.first }
    requires keeps { KeepsPages case.now kept.old }
    requires places { HasPlaces (writes_directory case.now.bundle) kept.old }
    requires room { vec_len blocks.old + used ≤ vec_capacity blocks.old }
    ensures read { IndexAnswer (page_of (bundle_core (case_in case.now)) no) used last case.now.range result blocks.old.items blocks.new.items }
    ensures keeps { KeepsPages case.now kept.new }
    ensures places { HasPlaces (writes_directory case.now.bundle) kept.new }
    ensures len { vec_len blocks.new ≤ vec_len blocks.old + used }
    ensures room { vec_capacity blocks.old ≤ vec_capacity blocks.new }
    ensures same { (kept.new.names ≡ kept.old.names) × (unread_blocks kept.new ≡ unread_blocks kept.old) }
    ensures looks { (result ≡ IndexRead.Bad → ⊥) → reads.new + unread_index kept.new ≤ reads.old + unread_index kept.old }
    ensures last { reads.new ≤ reads.old + unread_index kept.old }
{
    let Some((at, page)) = kept.find(no) else {
        return IndexRead::Absent;
    };
    let Some(index) = index_page(case, kept, at, page, used, last, reads) else {
        return IndexRead::Bad;
    };
    if !is_for(&index, used, last, case.range()) {
        return IndexRead::Bad;
    }
    add_part(blocks, &kept.numbers, index.numbers);
    IndexRead::Next(index.next)
}

/// What an index page says, from what is kept or by a look. `None` where it was looked at and is
/// outside the grammar.
fn index_page(
    case: &Case,
    kept: &mut KeptPages,
    at: usize,
    page: KeptPage,
    used: u16,
    last: bool,
    reads: &mut Reads,
) -> Option<KeptIndex>
    requires some { 1 ≤ used }
    requires many { used ≤ 511 }
    requires page { StandsAt kept.old page.no at page }
    requires keeps { KeepsPages case.now kept.old }
    requires places { HasPlaces (writes_directory case.now.bundle) kept.old }
    ensures read { let bytes = page_of (bundle_core (case_in case.now)) page.no in
        MatchOption result (IsBadIndex bytes used last case.now.range) (IsIndexKept bytes case.now.range kept.new.numbers.items) }
    ensures keeps { KeepsPages case.now kept.new }
    ensures places { HasPlaces (writes_directory case.now.bundle) kept.new }
    ensures same { (kept.new.names ≡ kept.old.names) × (unread_blocks kept.new ≡ unread_blocks kept.old) }
    ensures looks { IfSome result (λ _. reads.new + unread_index kept.new ≤ reads.old + unread_index kept.old) }
    ensures last { reads.new ≤ reads.old + unread_index kept.old }
{
    match page.index {
        Some(index) => Some(index),
        None => keep_index(case, kept, at, page, used, last, reads),
    }
}

/// Whether what is kept of an index page was read for so many numbers and this place in the chain.
/// For any others its bytes are outside the grammar.
fn is_for(index: &KeptIndex, used: u16, last: bool, range: CoreRange) -> bool
    requires first { 0 < range.first }
    requires many { used ≤ 511 }
    ensures same { IsTrue result → (index.now.used ≡ used) × (index.now.last ≡ last) }
    ensures other { IsFalse result → (numbers : List ℕ) → (bytes : List ℕ) → SaysIndex range numbers bytes index.now → index_of used last range bytes ≡ None }
{
    index.used == used && index.last == last
}

/// Looks at an index page, and keeps what it says. `None` where it is outside the grammar.
fn keep_index(
    case: &Case,
    kept: &mut KeptPages,
    at: usize,
    page: KeptPage,
    used: u16,
    last: bool,
    reads: &mut Reads,
) -> Option<KeptIndex>
    requires some { 1 ≤ used }
    requires many { used ≤ 511 }
    requires page { StandsAt kept.old page.no at page }
    requires unread { page.index ≡ None }
    requires keeps { KeepsPages case.now kept.old }
    requires places { HasPlaces (writes_directory case.now.bundle) kept.old }
    ensures read { let bytes = page_of (bundle_core (case_in case.now)) page.no in
        MatchOption result (IsBadIndex bytes used last case.now.range) (IsIndexRead bytes used last case.now.range kept.new.numbers.items) }
    ensures keeps { KeepsPages case.now kept.new }
    ensures places { HasPlaces (writes_directory case.now.bundle) kept.new }
    ensures same { (kept.new.names ≡ kept.old.names) × (unread_blocks kept.new ≡ unread_blocks kept.old) }
    ensures looks { IfSome result (λ _. reads.new + unread_index kept.new ≤ reads.old + unread_index kept.old) }
    ensures last { reads.new ≤ reads.old + unread_index kept.old }
{
    let index = read_page(
        case.bundle(),
        page.place,
        case.range(),
        used,
        last,
        &mut kept.numbers,
        reads,
    )?;
    kept.pages[at] = KeptPage {
        index: Some(index),
        ..page
    };
    Some(index)
}

/// Looks at an index page and appends its numbers. `None` where it is outside the grammar.
fn read_page(
    bundle: &Bundle,
    place: PagePlace,
    range: CoreRange,
    used: u16,
    last: bool,
    numbers: &mut Vec<u32>,
    reads: &mut Reads,
) -> Option<KeptIndex>
    requires some { 1 ≤ used }
    requires many { used ≤ 511 }
    requires room { vec_len numbers.old + used ≤ vec_capacity numbers.old }
    ensures bad { IfNone result ((numbers.new ≡ numbers.old) × ((bytes : List ℕ) → bytes_at bundle.now place ≡ Some bytes → index_of used last range bytes ≡ None)) }
    ensures read { IfSome result (λ i. IsIndexRead (bytes_at bundle.now place) used last range numbers.new.items i) }
    ensures more { IfSome result (λ i. numbers.new.items ≡ numbers.old.items ++ part i.numbers numbers.new.items) }
    ensures len { IfSome result (λ _. vec_len numbers.new ≡ vec_len numbers.old + used) }
    ensures room { vec_capacity numbers.old ≤ vec_capacity numbers.new }
    ensures reads { reads.new ≡ raised reads.old }
{
    let page = look(bundle, place, reads)?;
    let index = IndexPage::read(page, used, last, range)?;
    let from = numbers.len();
    add_numbers(numbers, &index, used);
    Some(KeptIndex {
        used,
        last,
        next: index.next(),
        numbers: Span {
            from,
            len: usize::from(used),
        },
    })
}

/// Appends the numbers of an index page to a list that has room for them.
fn add_numbers(numbers: &mut Vec<u32>, index: &IndexPage, used: u16)
    requires room { vec_len numbers.old + used ≤ vec_capacity numbers.old }
    requires count { length index.now.numbers ≡ used }
    ensures added { numbers.new.items ≡ numbers.old.items ++ index.now.numbers }
    ensures room { vec_capacity numbers.old ≤ vec_capacity numbers.new }
{
    for i in 0..used {
        add(numbers, index.number(i));
    }
}

/// Appends a part of the numbers to a list that has room for it.
fn add_part(list: &mut Vec<u32>, numbers: &[u32], span: Span)
    requires within { span.from + span.len ≤ length numbers.now }
    requires room { vec_len list.old + span.len ≤ vec_capacity list.old }
    ensures added { list.new.items ≡ list.old.items ++ part span numbers.now }
    ensures room { vec_capacity list.old ≤ vec_capacity list.new }
{
    for number in &numbers[span.from..span.from + span.len] {
        add(list, *number);
    }
}

/// Appends a number to a list that has room for it.
fn add(numbers: &mut Vec<u32>, number: u32)
    requires room { vec_len numbers.old < vec_capacity numbers.old }
    ensures added { numbers.new.items ≡ numbers.old.items ++ number ∷ [] }
    ensures len { vec_len numbers.new ≡ vec_len numbers.old + 1 }
    ensures room { vec_capacity numbers.old ≤ vec_capacity numbers.new }
{
    let _pushed = numbers.push(number);
}
