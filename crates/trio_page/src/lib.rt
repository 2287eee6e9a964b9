//! The pages of an image: 4096 bytes each, with little-endian fields, and the home that keeps
//! them and counts each look at one.
//!
//! - [`Page`] is one page. Contracts see it as the list of its 4096 bytes.
//! - [`field`] reads and writes numbers and parts of any list of bytes, at offsets in bytes.
//! - [`Home`] has the pages of an image, some of them absent, numbered from 0. Contracts see it
//!   as the list of its optional pages and the count of its looks (`Pages` of `specs/Home.antt`).
//! - [`Reads`] counts the looks that one caller made.
//!
//! A page at home is had only by [`Home::page`] and [`Home::take`]. Each of these calls raises
//! the home's own count by one, so no look at a page is hidden from [`Home::looked`], whichever
//! `Reads` the caller passes. Every count stops at its last value, 2^64 - 1.
//!
//! Lemmas for callers: `proofs/Fields.antt` (a field after writes), `proofs/Ranges.antt` (ranges
//! within ranges, and parts written within a range), `proofs/Zeros.antt` and `proofs/Cursor.antt`
//! (bytes spelled by one field after another).
#![tactic(auto)]

pub mod field;
mod home;
mod page;

pub use home::{Home, Reads};
pub use page::{PAGE_SIZE, Page, PageNo};
/// Want of memory: the answer of every call of trio that asks for memory and finds none.
pub use std::alloc::AllocError as NoMemory;
