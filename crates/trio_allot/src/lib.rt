//! Allotments: which pages and inode numbers are out, and which are free.
//!
//! A library that builds a file needs pages and an inode number that nobody else has. The
//! controller hands them out as lent values and takes back what wasn't used.
//!
//! - A page is free where its owner is 0 and it isn't out. The pages below the first core page
//!   have the controller for their owner, so they are never free.
//! - An inode number is free where it isn't live and isn't out. The number 0 is none.
//!
//! [`Allotments`] hands out the lowest free ones, and each page that it hands out is all zero.
//! Contracts see it as two lists, by page and by inode number, of the library that has it out
//! (`OutByNumber` of `specs/Out.antt`). So what is out is out to one library, and once.
//!
//! `trio_tables`' `specs/Free.antt` says what is free.
#![tactic(auto)]

mod allot;

pub use allot::Allotments;
