//! The index that a library keeps of a directory's names.

ghost use Rattle.std.specs.Prelude.{◌≡◌, ◌≢◌, ◌<◌, ◌++◌, None, IfSome, IsTrue};
ghost use Rattle.trio_layout.specs.Entries.{slot_bytes};
ghost use Rattle.trio_lists.specs.Lists.{tabulated};
ghost use Rattle.trio_layout.specs.Slot.{slot_of};
ghost use Rattle.trio_auxdir.specs.Slots.{is_directory_page, slot_on, slot_with, slots_on, NamesDiffer};

use std::alloc::Global;
use std::test::Fail;
use trio_auxdir::{Finds, HashedDir, Place};
use trio_layout::{EntryPart, Slot, SlotRead};
use trio_names::Name;
use trio_page::Page;
use trio_page::field::put_bytes_in;
use trio_rights::Kind;

const INODES: u32 = 16384;

/// A name of five bytes.
fn numbered(letter: u8, number: u32) -> Option<Name> {
    let digit = |place: u32| b'0' + (number / place % 10) as u8;
    Name::read(&[letter, digit(1000), digit(100), digit(10), digit(1)]).ok()
}

/// The place of the slot of this number, 16 to a block.
fn place_at(number: u32) -> Option<Place> {
    Some(Place {
        block: number / 16,
        slot: (number % 16) as u16,
    })
}

/// Adds a name at the first empty slot, with a new block where there is none. Its place, or `None`
/// where the name is there already, or memory lacks.
fn put(dir: &mut HashedDir, finds: &mut Finds, name: Name) -> Option<Place> {
    if dir.first_empty().is_none() {
        dir.reserve().ok()?;
        dir.grow();
    }
    dir.reserve().ok()?;
    let place = dir.first_empty()?;
    if dir.find(&name, finds).is_some() {
        return None;
    }
    dir.add(name, place);
    Some(place)
}

/// Removes a name. Its place, or `None` where it isn't there.
fn take(dir: &mut HashedDir, finds: &mut Finds, name: &Name) -> Option<Place> {
    let place = dir.find(name, finds)?;
    dir.remove(name);
    Some(place)
}

/// Renames a name that is there to one that isn't. Its place, or `None`, also where memory lacks.
fn turn(dir: &mut HashedDir, finds: &mut Finds, from: &Name, to: Name) -> Option<Place> {
    dir.reserve().ok()?;
    let place = dir.find(from, finds)?;
    if dir.find(&to, finds).is_some() {
        return None;
    }
    dir.rename(from, to);
    Some(place)
}

/// Puts the name of this number at its place, where it then can't be put again.
fn puts_once(dir: &mut HashedDir, finds: &mut Finds, number: u32) -> Option<bool> {
    let name = numbered(b'n', number)?;
    Some(put(dir, finds, name) == place_at(number) && put(dir, finds, name).is_none())
}

/// Whether all of 256 names are found but this one.
fn lacks_alone(dir: &HashedDir, finds: &mut Finds, number: u32) -> Option<bool> {
    for other in 0..256u32 {
        let found = dir.find(&numbered(b'n', other)?, finds);
        let wanted = if other == number {
            None
        } else {
            place_at(other)
        };
        if found != wanted {
            return Some(false);
        }
    }
    Some(true)
}

/// Takes the name of this number out, and puts it back into its slot, which is the first empty one then.
fn is_removed_alone(dir: &mut HashedDir, finds: &mut Finds, number: u32) -> Option<bool> {
    let name = numbered(b'n', number)?;
    let is_taken = take(dir, finds, &name) == place_at(number);
    let is_empty = dir.first_empty() == place_at(number);
    let is_lacking = lacks_alone(dir, finds, number)?;
    Some(is_taken && is_empty && is_lacking && put(dir, finds, name) == place_at(number))
}

#[test]
fn each_name_is_removed_alone(rt: HostRuntime) {
    let mut dir = HashedDir::new(rt.alloc(), INODES);
    let mut finds = Finds::new();
    assert!(rt; dir.first_empty().is_none());
    for i in 0..256u32 {
        assert!(rt; puts_once(&mut dir, &mut finds, i) == Some(true), "{i}");
    }
    for i in 0..256u32 {
        assert!(rt;
            is_removed_alone(&mut dir, &mut finds, i) == Some(true),
            "{i}"
        );
    }
}

/// Puts 8,000 names, each at its place.
fn puts_all(dir: &mut HashedDir, finds: &mut Finds) -> Option<bool> {
    for i in 0..8000u32 {
        if put(dir, finds, numbered(b'n', i)?) != place_at(i) {
            return Some(false);
        }
    }
    Some(true)
}

/// Finds each of them at its place, and renames it there.
fn renames_all(dir: &mut HashedDir, finds: &mut Finds) -> Option<bool> {
    for i in 0..8000u32 {
        let (old, new) = (numbered(b'n', i)?, numbered(b'm', i)?);
        if dir.find(&old, finds) != place_at(i) || turn(dir, finds, &old, new) != place_at(i) {
            return Some(false);
        }
    }
    Some(true)
}

/// Removes each by its new name from its place, where it isn't found then.
fn removes_all(dir: &mut HashedDir, finds: &mut Finds) -> Option<bool> {
    for i in 0..8000u32 {
        let name = numbered(b'm', i)?;
        if take(dir, finds, &name) != place_at(i) || dir.find(&name, finds).is_some() {
            return Some(false);
        }
    }
    Some(true)
}

#[test]
fn eight_thousand_names(rt: HostRuntime) {
    let mut dir = HashedDir::new(rt.alloc(), INODES);
    let mut finds = Finds::new();
    assert!(rt; puts_all(&mut dir, &mut finds) == Some(true));
    assert!(rt; renames_all(&mut dir, &mut finds) == Some(true) && dir.len() == 8000);
    assert!(rt; removes_all(&mut dir, &mut finds) == Some(true));
    assert!(rt; dir.len() == 0 && dir.first_empty() == place_at(0) && finds.count() == 48_000);
}

fn slot_read(page: &Page, slot: u16) -> SlotRead
    requires { slot < 16 }
    ensures { result ≡ slot_of INODES (slot_bytes slot page.now) }
{
    let at = 256 * usize::from(slot);
    Slot::read(page.bytes()[at..at + 256].as_array().unwrap(), INODES)
}

fn slot_name(page: &Page, slot: u16) -> Option<Name>
    requires { slot < 16 }
    ensures { result ≡ slot_on INODES page.now slot }
{
    match slot_read(page, slot) {
        SlotRead::Entry(entry) => Some(entry.name),
        _ => None,
    }
}

/// The first slot with this, found by a plain scan of the pages.
fn scanned(pages: &[Page], wanted: Option<Name>) -> Option<Place> {
    for block in 0..8u32 {
        let page = pages.get(block as usize)?;
        for slot in 0..16u16 {
            if slot_name(page, slot) == wanted {
                return Some(Place { block, slot });
            }
        }
    }
    None
}

/// No slot of the page before this one has the name.
fn is_first(page: &Page, slot: u16, name: &Name) -> bool
    requires { slot < 16 }
    ensures { IsTrue result → slot_with name.now (tabulated (slot_on INODES page.now) slot) ≡ None }
{
    for before in 0..slot {
        if slot_name(page, before) == Some(*name) {
            return false;
        }
    }
    true
}

/// The slot may stand behind the others: it is empty, or has a name that isn't there.
fn is_new(dir: &HashedDir, page: &Page, slot: u16) -> bool
    requires { slot < 16 }
    ensures read { IsTrue result → slot_of INODES (slot_bytes slot page.now) ≢ SlotRead.Bad }
    ensures apart { IsTrue result → IfSome (slot_on INODES page.now slot) (λ name. slot_with name dir.now.slots ≡ None) }
    ensures first { IsTrue result → IfSome (slot_on INODES page.now slot) (λ name. slot_with name (tabulated (slot_on INODES page.now) slot) ≡ None) }
{
    match slot_read(page, slot) {
        SlotRead::Empty => true,
        SlotRead::Bad => false,
        SlotRead::Entry(entry) => {
            dir.find(&entry.name, &mut Finds::new()).is_none() && is_first(page, slot, &entry.name)
        }
    }
}

/// The condition of a scan.
fn may_scan(dir: &HashedDir, page: &Page) -> bool
    ensures read { IsTrue result → IsTrue (is_directory_page INODES page.now) }
    ensures differ { IsTrue result → NamesDiffer dir.now.slots → NamesDiffer (dir.now.slots ++ slots_on INODES page.now) }
{
    for slot in 0..16u16 {
        if !is_new(dir, page, slot) {
            return false;
        }
    }
    true
}

/// Tells of each page, as far as its condition holds.
fn scan_all(dir: &mut HashedDir, pages: &[Page]) -> Option<bool>
    requires inodes { dir.old.inodes ≡ INODES }
    requires differ { NamesDiffer dir.old.slots }
{
    for page in pages {
        if !may_scan(dir, page) {
            return Some(false);
        }
        dir.scan(page).ok()?;
    }
    Some(true)
}

fn write_name(pages: &mut [Page], place: Place, name: Name) {
    let mut entry = [0; 192];
    EntryPart {
        ino: 5,
        kind: Kind::Regular,
        name,
    }
    .write(&mut entry);
    if let Some(page) = pages.get_mut(place.block as usize) {
        put_bytes_in(page.bytes_mut(), 256 * usize::from(place.slot % 16), &entry);
    }
}

fn clear_slot(pages: &mut [Page], place: Place) {
    if let Some(page) = pages.get_mut(place.block as usize) {
        page.put_u32(256 * usize::from(place.slot % 16), 0);
    }
}

/// Whether the index says of each of the 64 names, and of the first empty slot, what a scan says.
fn agrees(dir: &HashedDir, pages: &[Page], finds: &mut Finds) -> Option<bool> {
    for i in 0..64u32 {
        let name = numbered(b'x', i)?;
        if dir.find(&name, finds) != scanned(pages, Some(name)) {
            return Some(false);
        }
    }
    Some(dir.first_empty() == scanned(pages, None))
}

/// One edit of the index and of the pages alike, chosen by the number: a name is removed, renamed or
/// added, as it is there or not.
fn edit(dir: &mut HashedDir, pages: &mut [Page], finds: &mut Finds, number: u32) -> Option<()> {
    let name = numbered(b'x', number % 64)?;
    let other = numbered(b'x', number / 64 % 64)?;
    if dir.find(&name, finds).is_none() {
        write_name(pages, put(dir, finds, name)?, name);
    } else if dir.find(&other, finds).is_none() {
        write_name(pages, turn(dir, finds, &name, other)?, other);
    } else {
        clear_slot(pages, take(dir, finds, &name)?);
    }
    Some(())
}

/// Edits them 600 times. Whether they agree after each fourth edit.
fn stay_alike(dir: &mut HashedDir, pages: &mut [Page], finds: &mut Finds) -> Option<bool> {
    let mut number = 7u32;
    let mut all = true;
    for round in 0..600 {
        number = number.wrapping_mul(1664525).wrapping_add(1013904223);
        edit(dir, pages, finds, number / 1024)?;
        all = all && (round % 4 > 0 || agrees(dir, pages, finds)?);
    }
    Some(all)
}

/// So many pages without entries.
fn empty_pages(alloc: Global, count: usize) -> Option<Vec<Page>> {
    let mut pages = Vec::new(alloc);
    for _i in 0..count {
        pages.push(Page::zero(alloc).ok()?).ok()?;
    }
    Some(pages)
}

/// Whether an index of these pages can be made by a scan, and says what they say.
fn is_scanned(alloc: Global, pages: &[Page]) -> Option<bool> {
    let mut dir = HashedDir::new(alloc, INODES);
    Some(scan_all(&mut dir, pages)? && agrees(&dir, pages, &mut Finds::new())?)
}

fn are_alike(alloc: Global, pages: &mut [Page]) -> Option<bool> {
    let mut dir = HashedDir::new(alloc, INODES);
    let is_scanned = scan_all(&mut dir, pages)?;
    Some(is_scanned && stay_alike(&mut dir, pages, &mut Finds::new())?)
}

#[test]
fn edits_are_those_of_the_pages(rt: HostRuntime) -> Result<(), Fail> {
    let mut pages = empty_pages(rt.alloc(), 4).ok_or("memory")?;
    assert!(rt; are_alike(rt.alloc(), &mut pages) == Some(true));
    assert!(rt; is_scanned(rt.alloc(), &pages) == Some(true));
    Ok(())
}
