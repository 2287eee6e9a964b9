//! Many names in one directory.

use crate::images::Start;
use crate::scripts::Lines;
use std::alloc::Global;
use std::test::Fail;
use trio_image::Counts;
use trio_page::NoMemory;

// What the lists of the root are told at the end: the first 64 names, and those from there on.
const LISTED: &str =
    "ok 100 m1 m101 m103 m105 m107 m109 m11 m111 m113 m115 m117 m119 m121 m123 m125 m127 m129 \
    m13 m131 m133 m135 m137 m139 m141 m143 m145 m147 m149 m15 m151 m153 m155 m157 m159 m161 \
    m163 m165 m167 m169 m17 m171 m173 m175 m177 m179 m181 m183 m185 m187 m189 m19 m191 m193 \
    m195 m197 m199 m21 m23 m25 m27 m29 m3 m31 m33";

const LISTED_ON: &str =
    "ok 100 m35 m37 m39 m41 m43 m45 m47 m49 m5 m51 m53 m55 m57 m59 m61 m63 m65 m67 m69 m7 m71 \
    m73 m75 m77 m79 m81 m83 m85 m87 m89 m9 m91 m93 m95 m97 m99";

fn lines_of(alloc: Global) -> Result<Lines, NoMemory> {
    let mut lines = Lines::new(alloc)?;
    add_all(alloc, &mut lines)?;
    Ok(lines)
}

// Two hundred files are made and settled; then those of even numbers are removed, and those of odd ones
// renamed.
fn add_all(alloc: Global, lines: &mut Lines) -> Result<(), NoMemory> {
    for number in 0..200 {
        lines.add(&format!(in alloc; "create /f{number} 644")?, "ok")?;
    }
    lines.add("settle", "settled 200")?;
    add_unlinks(alloc, lines)?;
    add_renames(alloc, lines)?;
    lines.add("list / 0", LISTED)?;
    lines.add("settle", "settled 201")?;
    lines.add("list / 64", LISTED_ON)
}

fn add_unlinks(alloc: Global, lines: &mut Lines) -> Result<(), NoMemory> {
    for number in 0..200 {
        if number % 2 == 0 {
            lines.add(&format!(in alloc; "unlink /f{number}")?, "ok")?;
        }
    }
    Ok(())
}

fn add_renames(alloc: Global, lines: &mut Lines) -> Result<(), NoMemory> {
    for number in 0..200 {
        if number % 2 == 1 {
            lines.add(&format!(in alloc; "rename /f{number} /m{number}")?, "ok")?;
        }
    }
    Ok(())
}

// The directory has an index page and thirteen blocks.
const COUNTS: Counts = Counts {
    inodes: 101,
    pages: 14,
    free: 494,
};

fn play(alloc: Global) -> Result<(), &'static str> {
    match lines_of(alloc) {
        Ok(lines) => lines.play(alloc, Start::Bare, &COUNTS),
        Err(_) => Err("memory is wanting"),
    }
}

#[test]
fn many_names(rt: HostRuntime) -> Result<(), Fail> {
    play(rt.alloc())?;
    Ok(())
}
