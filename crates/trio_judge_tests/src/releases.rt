//! Hostile bundles and worked releases, each with the lowest rule that it breaks and the place.

use crate::handed::{Grants, Poke, Target, has_holds};
use crate::judged::{Fault, fault_of};
use crate::whole::is_accepted;

/// An entry `h` of the number 3 in slot 1 of the block of `a`; in that slot a mode alone, or the body
/// of `f`; and the entry in slot 0 cleared.
const SECOND: Poke = (Target::Block(2), 256, b"\x03\0\0\0\x01\x01\0\0h");

const MODE: Poke = (Target::Block(2), 448, b"\xa4\x01");

const BODY: Poke = (
    Target::Block(2),
    448,
    b"\xa4\x01\0\0\0\0\0\0\0\0\0\0\x07\0\0\0\x05\0\0\0\0\0\0\0",
);

/// The same body, guarded.
const GUARDED_BODY: Poke = (
    Target::Block(2),
    448,
    b"\xa4\x01\0\0\0\0\0\0\0\0\0\0\x07\0\0\0\x05\0\0\0\0\0\0\0\x01",
);

/// The body of `l` there.
const LINK_BODY: Poke = (
    Target::Block(2),
    448,
    b"\xff\x01\0\0\0\0\0\0\0\0\0\0\x07\0\0\0\x04\0\0\0\0\0\0\0",
);

const CLEARED: Poke = (Target::Block(2), 0, b"\0\0\0\0");

/// A size of two blocks of `f`, and the second of them.
const TWO_BLOCKS: Poke = (Target::Body(3), 16, b"\x01\x10\0\0\0\0\0\0");

const BLOCK_NINE: Poke = (Target::Index(3), 8, b"\x09\0\0\0\0\0\0\0");

/// What is lent and handed in, what is written into it, and what comes out: the rule that fails, a
/// file, a page and a slot, all 0 where each rule holds.
///
/// Of a body that leaves the grammar no place is named, and of an index page the page; a slot that does
/// is named itself.
type Release = (Grants, &'static [Poke], Fault);

const RELEASES: &[Release] = &[
    // a mode above nine bits: bodies and index pages of `f`: of a body that leaves the grammar no
    // place is named, of an index page the page
    (Grants::F, &[(Target::Body(3), 0, b"\0\x02")], (1, 3, 0, 0)),
    // a reserved byte of the body
    (Grants::F, &[(Target::Body(3), 2, b"\x01")], (1, 3, 0, 0)),
    // a byte behind its size
    (Grants::F, &[(Target::Body(3), 25, b"\x01")], (1, 3, 0, 0)),
    // no bytes, but a head
    (
        Grants::F,
        &[(Target::Body(3), 16, b"\0\0\0\0\0\0\0\0")],
        (1, 3, 0, 0),
    ),
    // neither bytes nor a head
    (
        Grants::F,
        &[(Target::Body(3), 12, b"\0\0\0\0\0\0\0\0\0\0\0\0")],
        (0, 0, 0, 0),
    ),
    // more blocks than there are core pages
    (
        Grants::F,
        &[(Target::Body(3), 16, b"\xff\xff\xff\xff\xff\xff\xff\xff")],
        (1, 3, 0, 0),
    ),
    // a block of number 0
    (
        Grants::F,
        &[(Target::Index(3), 0, b"\0\0\0\0\0\0\0\0")],
        (1, 3, 7, 0),
    ),
    // a page below the core as a block
    (
        Grants::F,
        &[(Target::Index(3), 0, b"\x02\0\0\0\0\0\0\0")],
        (1, 3, 7, 0),
    ),
    // another file's block: the page that is listed, by `f`
    (
        Grants::F,
        &[(Target::Index(3), 0, b"\x06\0\0\0\0\0\0\0")],
        (2, 3, 6, 0),
    ),
    // its own index page as its block
    (
        Grants::F,
        &[(Target::Index(3), 0, b"\x07\0\0\0\0\0\0\0")],
        (2, 3, 7, 0),
    ),
    // a number behind those in use
    (
        Grants::F,
        &[(Target::Index(3), 8, b"\x08\0\0\0\0\0\0\0")],
        (1, 3, 7, 0),
    ),
    // another mode: rights in the body of `f`, which stand at no place
    (
        Grants::F,
        &[(Target::Body(3), 0, b"\xff\x01")],
        (4, 3, 0, 0),
    ),
    // another gid
    (
        Grants::F,
        &[(Target::Body(3), 8, b"\x05\0\0\0")],
        (4, 3, 0, 0),
    ),
    // another kind in a child's entry: the entry in slot 0 of page 6, of `a`; a slot that leaves
    // the grammar is named itself
    (Grants::A, &[(Target::Block(2), 4, b"\x02")], (4, 2, 6, 0)),
    // a name without bytes
    (Grants::A, &[(Target::Block(2), 5, b"\0")], (1, 2, 6, 0)),
    // a slash as a name
    (Grants::A, &[(Target::Block(2), 8, b"\x2f")], (1, 2, 6, 0)),
    // another name in its slot
    (Grants::A, &[(Target::Block(2), 8, b"g")], (0, 0, 0, 0)),
    // the directory as its own entry
    (
        Grants::A,
        &[(Target::Block(2), 0, b"\x02\0\0\0")],
        (2, 2, 6, 0),
    ),
    // a number above the last
    (
        Grants::A,
        &[(Target::Block(2), 0, b"A\0\0\0")],
        (1, 2, 6, 0),
    ),
    // a child's entry is cleared: the child that is lost
    (
        Grants::A,
        &[(Target::Block(2), 0, b"\0\0\0\0")],
        (3, 3, 0, 0),
    ),
    // a directory cut down over its child
    (
        Grants::A,
        &[(Target::Body(2), 12, b"\0\0\0\0\0\0\0\0\0\0\0\0")],
        (3, 3, 0, 0),
    ),
    // a child listed a second time: the second entry, in slot 1 of page 6: where `f` isn't held it
    // is neither kept nor own, and where it is held its number comes again
    (Grants::A, &[SECOND, MODE], (2, 2, 6, 1)),
    // a held child listed a second time
    (Grants::AHoldingF, &[SECOND, MODE], (2, 2, 6, 1)),
    // a held file in another slot, with its body
    (Grants::AHoldingF, &[CLEARED, SECOND, BODY], (0, 0, 0, 0)),
    // with another size in that body
    (
        Grants::AHoldingF,
        &[CLEARED, SECOND, BODY, (Target::Block(2), 464, b"\x06")],
        (4, 2, 6, 1),
    ),
    // a held file that goes
    (Grants::AHoldingF, &[CLEARED], (0, 0, 0, 0)),
    // a held file that goes, and the block of its directory as a new file's index page
    (
        Grants::RootAndAHoldingF,
        &[
            (Target::Body(2), 12, b"\0\0\0\0\0\0\0\0\0\0\0\0"),
            (Target::Block(2), 0, b"\x05\0\0\0\0\0\0\0\0"),
            (Target::Block(2), 192, &[0; 25]),
            (Target::Block(1), 256, b"\x04\0\0\0\x01\x01\0\0g"),
            (
                Target::Block(1),
                448,
                b"\xa4\x01\0\0\0\0\0\0\0\0\0\0\x06\0\0\0\x05\0\0\0\0\0\0\0",
            ),
        ],
        (0, 0, 0, 0),
    ),
    // a kept child's kind turned from a regular file's to a link's
    (Grants::A, &[(Target::Block(2), 4, b"\x03")], (4, 2, 6, 0)),
    // the guard of a regular file is set, and no other value of its byte is one
    (Grants::F, &[(Target::Body(3), 24, b"\x01")], (0, 0, 0, 0)),
    (Grants::F, &[(Target::Body(3), 24, b"\x02")], (1, 3, 0, 0)),
    // neither a directory nor a link has a guard
    (Grants::A, &[(Target::Body(2), 24, b"\x01")], (1, 2, 0, 0)),
    (Grants::L, &[(Target::Body(3), 24, b"\x01")], (1, 3, 0, 0)),
    // a moved guarded file keeps its guard
    (
        Grants::AHoldingGuarded,
        &[CLEARED, SECOND, GUARDED_BODY],
        (0, 0, 0, 0),
    ),
    (
        Grants::AHoldingGuarded,
        &[CLEARED, SECOND, BODY],
        (4, 2, 6, 1),
    ),
    // a link has another text, of any bytes
    (
        Grants::L,
        &[(Target::Block(3), 0, b"\0\xff//")],
        (0, 0, 0, 0),
    ),
    // a link without bytes
    (
        Grants::L,
        &[(Target::Body(3), 12, b"\0\0\0\0\0\0\0\0\0\0\0\0")],
        (1, 3, 0, 0),
    ),
    // a link of a whole block, and of a byte more, which a regular file may have
    (
        Grants::L,
        &[(Target::Body(3), 16, b"\0\x10\0\0\0\0\0\0")],
        (0, 0, 0, 0),
    ),
    (Grants::LAndPage, &[TWO_BLOCKS, BLOCK_NINE], (1, 3, 0, 0)),
    // a held link in another slot, and there as a regular file
    (
        Grants::AHoldingL,
        &[CLEARED, SECOND, LINK_BODY, (Target::Block(2), 260, b"\x03")],
        (0, 0, 0, 0),
    ),
    (
        Grants::AHoldingL,
        &[CLEARED, SECOND, LINK_BODY],
        (4, 2, 6, 1),
    ),
    // a new link without bytes
    (
        Grants::AAndNumber,
        &[(Target::Block(2), 256, b"\x04\0\0\0\x03\x01\0\0h"), MODE],
        (1, 2, 6, 1),
    ),
    // a new link with a text
    (
        Grants::AAndNumberAndPages,
        &[
            (Target::Block(2), 256, b"\x04\0\0\0\x03\x01\0\0h"),
            (
                Target::Block(2),
                448,
                b"\xff\x01\0\0\0\0\0\0\0\0\0\0\x09\0\0\0\x04\0\0\0\0\0\0\0",
            ),
            (Target::Fresh(9), 0, b"\x0a\0\0\0\0\0\0\0"),
            (Target::Fresh(10), 0, b"/a/f"),
        ],
        (0, 0, 0, 0),
    ),
    // a kind that there is not
    (
        Grants::AAndNumber,
        &[(Target::Block(2), 256, b"\x04\0\0\0\x04\x01\0\0h")],
        (1, 2, 6, 1),
    ),
    // another mode of the root's
    (
        Grants::Root,
        &[(Target::Body(1), 0, b"\xff\x01")],
        (4, 1, 0, 0),
    ),
    // a size of two blocks with one block: releases of new pages and files: a size of two blocks,
    // with one in the index page 7
    (
        Grants::F,
        &[(Target::Block(3), 0, b"J"), TWO_BLOCKS],
        (1, 3, 7, 0),
    ),
    // a page that isn't handed in: the page 9, which `f` lists and the library doesn't hand in
    (Grants::F, &[TWO_BLOCKS, BLOCK_NINE], (2, 3, 9, 0)),
    // the same page, handed in
    (Grants::FAndPage, &[TWO_BLOCKS, BLOCK_NINE], (0, 0, 0, 0)),
    // a second entry of one name: the later of the two entries
    (
        Grants::AAndNumber,
        &[(Target::Block(2), 256, b"\x04\0\0\0\x01\x01\0\0f"), MODE],
        (1, 2, 6, 1),
    ),
    // an entry of another name
    (
        Grants::AAndNumber,
        &[(Target::Block(2), 256, b"\x04\0\0\0\x01\x02\0\0ff"), MODE],
        (0, 0, 0, 0),
    ),
    // an entry of another directory's file: the entry in the new block 10 of `b`
    (
        Grants::B,
        &[
            (Target::Body(4), 12, b"\x09\0\0\0\0\x10\0\0\0\0\0\0"),
            (Target::Fresh(9), 0, b"\x0a\0\0\0\0\0\0\0"),
            (Target::Fresh(10), 0, b"\x03\0\0\0\x01\x01\0\0g"),
            (Target::Fresh(10), 192, b"\xa4\x01"),
        ],
        (2, 4, 10, 0),
    ),
    // a new file of another uid: the body of the new file 3, with uid 0, of a library of uid 5
    (
        Grants::T,
        &[
            (Target::Body(2), 12, b"\x05\0\0\0\0\x10\0\0\0\0\0\0"),
            (Target::Fresh(5), 0, b"\x06\0\0\0\0\0\0\0"),
            (Target::Fresh(6), 0, b"\x03\0\0\0\x01\x01\0\0x"),
            (Target::Fresh(6), 192, b"\xa4\x01"),
        ],
        (4, 3, 0, 0),
    ),
    // `p` moves below `q1`
    (
        Grants::MovingP,
        &[
            (Target::Block(2), 0, b"\0\0\0\0"),
            (Target::Body(7), 12, b"\x0d\0\0\0\0\x10\0\0\0\0\0\0"),
            (Target::Fresh(13), 0, b"\x0e\0\0\0\0\0\0\0"),
            (Target::Fresh(14), 0, b"\x04\0\0\0\x02\x01\0\0p"),
            (
                Target::Fresh(14),
                192,
                b"\xed\x01\0\0\0\0\0\0\0\0\0\0\x07\0\0\0\0\x10\0\0\0\0\0\0",
            ),
        ],
        (0, 0, 0, 0),
    ),
    // then `q` below `p1`: the directory that lies below itself
    (
        Grants::MovingQ,
        &[
            (Target::Block(3), 0, b"\0\0\0\0"),
            (Target::Body(5), 12, b"\x0f\0\0\0\0\x10\0\0\0\0\0\0"),
            (Target::Fresh(15), 0, b"\x10\0\0\0\0\0\0\0"),
            (Target::Fresh(16), 0, b"\x06\0\0\0\x02\x01\0\0q"),
            (
                Target::Fresh(16),
                192,
                b"\xed\x01\0\0\0\0\0\0\0\0\0\0\x0b\0\0\0\0\x10\0\0\0\0\0\0",
            ),
        ],
        (3, 6, 0, 0),
    ),
    // the body in a kept child's slot
    (
        Grants::A,
        &[(Target::Block(2), 208, b"\xff\xff\xff\xff\xff\xff\xff\xff")],
        (0, 0, 0, 0),
    ),
    // a held directory dropped over its child: the held directory
    (
        Grants::RootHoldingA,
        &[(Target::Block(1), 0, b"\0\0\0\0")],
        (3, 2, 0, 0),
    ),
    // a link where the chain ends: the last index page of the chain
    (
        Grants::F,
        &[(Target::Index(3), 4088, b"\x07\0\0\0\0\0\0\0")],
        (1, 3, 7, 0),
    ),
];

// What comes out where each rule holds.
const SOUND: Fault = (0, 0, 0, 0);

// The rules on the bundle and the whole image with its bytes say the same of each row. The whole image
// is judged without holds alone, so rows with one are judged by the rules.
#[test]
fn each_release_is_judged_by_the_lowest_rule(rt: HostRuntime) {
    for (i, (grants, pokes, wanted)) in RELEASES.iter().enumerate() {
        assert!(rt;
            fault_of(rt.alloc(), *grants, pokes) == Some(*wanted),
            "row {i}"
        );
        assert!(rt;
            has_holds(*grants) || is_accepted(rt.alloc(), *grants, pokes) == Some(*wanted == SOUND),
            "row {i} as a whole image"
        );
    }
}
