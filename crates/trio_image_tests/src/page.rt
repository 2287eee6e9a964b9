//! Numbers at their places in bytes, pages, and the home that counts each look at one.

use std::alloc::Global;
use trio_page::field::{
    all_zero, put_bytes_in, put_u16_in, put_u32_in, put_u64_in, put_zeros_in, u16_in, u32_in,
    u64_in,
};
use trio_page::{Home, Page, PageNo, Reads};

/// Numbers of two, four and eight bytes behind the first byte.
const SPELLED: [u8; 16] = [
    0xee, 0x02, 0x01, 0x06, 0x05, 0x04, 0x03, 0x0e, 0x0d, 0x0c, 0x0b, 0x0a, 0x09, 0x08, 0x07, 0xee,
];

/// The same where ten bytes from 3 on were cleared, and two written behind them.
const CLEARED: [u8; 16] = [
    0xee, 0x02, 0x01, 0, 0, 0, 0, 0, 0, 0, 0, 0, 0, b'a', b'b', 0xee,
];

#[test]
fn numbers_have_their_low_byte_first(rt: HostRuntime) {
    assert!(rt; u16_in(&SPELLED, 1) == 0x0102);
    assert!(rt; u32_in(&SPELLED, 3) == 0x0304_0506);
    assert!(rt; u64_in(&SPELLED, 7) == 0x0708_090a_0b0c_0d0e);
    let mut bytes = [0xee; 16];
    put_u16_in(&mut bytes, 1, 0x0102);
    put_u32_in(&mut bytes, 3, 0x0304_0506);
    put_u64_in(&mut bytes, 7, 0x0708_090a_0b0c_0d0e);
    assert!(rt; bytes == SPELLED);
    put_bytes_in(&mut bytes, 13, b"ab");
    put_zeros_in(&mut bytes, 3, 10);
    assert!(rt; bytes == CLEARED);
    assert!(rt; all_zero(&bytes[3..13]) && !all_zero(&bytes[3..14]));
}

/// Whether the page ends with these bytes, the first of which isn't the number's.
fn ends_with_number(page: &Page) -> bool {
    page.bytes()[4091..] == [0, 4, 3, 2, 1]
}

fn has_a_copy(alloc: Global) -> Option<bool> {
    let mut page = Page::zero(alloc).ok()?;
    let is_new = all_zero(page.bytes());
    page.put_u32(4092, 0x0102_0304);
    let mut copy = page.copy(alloc).ok()?;
    page.clear();
    let is_kept = all_zero(page.bytes()) && ends_with_number(&copy);
    page.copy_from(&copy);
    copy.put_u16(4092, 0);
    Some(is_new && is_kept && ends_with_number(&page))
}

#[test]
fn a_copy_has_its_own_bytes(rt: HostRuntime) {
    assert!(rt; has_a_copy(rt.alloc()) == Some(true));
}

/// Page 0 has the number 77 at 8, and page 1 is absent.
fn home_of_two(alloc: Global) -> Option<Home> {
    let mut page = Page::zero(alloc).ok()?;
    page.put_u64(8, 77);
    let mut pages = Vec::new(alloc);
    pages.push(Some(page)).ok()?;
    pages.push(None).ok()?;
    Some(Home::of(pages))
}

fn number_on(home: &mut Home, page: u32, reads: &mut Reads) -> Option<u64> {
    Some(home.page(PageNo(page), reads)?.u64_at(8))
}

/// Whether page 0, which is looked at and taken, is had as page 1 then.
fn is_moved(home: &mut Home, reads: &mut Reads) -> Option<bool> {
    let before = number_on(home, 0, reads);
    let page = home.take(PageNo(0), reads)?;
    if home.len() != 2 {
        return None;
    }
    home.put(PageNo(1), page);
    Some((before, number_on(home, 1, reads)) == (Some(77), Some(77)))
}

fn is_absent(home: &mut Home, page: u32, reads: &mut Reads) -> bool {
    home.page(PageNo(page), reads).is_none() && home.take(PageNo(page), reads).is_none()
}

/// How often the home, its first caller and another one looked.
fn looks(alloc: Global) -> Option<(u64, u64, u64)> {
    let mut home = home_of_two(alloc)?;
    let (mut reads, mut others) = (Reads::new(), Reads::new());
    if home.looked() != 0 || is_moved(&mut home, &mut reads) != Some(true) {
        return None;
    }
    for page in [0, 2, 8192, u32::MAX] {
        if !is_absent(&mut home, page, &mut others) {
            return None;
        }
    }
    Some((home.looked(), reads.count(), others.count()))
}

#[test]
fn each_look_at_home_is_counted(rt: HostRuntime) {
    assert!(rt; looks(rt.alloc()) == Some((11, 3, 8)));
}
