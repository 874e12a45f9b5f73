// The cases, by what they try. A change is two bytes, an offset and the value that stands there instead.
use crate::Tally;
use crate::tables::Base::{Booleans, Document};
use crate::tables::ladder;

pub(crate) fn lengths() -> Tally {
    let mut t = Tally::default();
    // the document's table
    t.accepts(Document, b"");
    // no bytes
    t.refuses_first(0, Document, 1, 0, b"");
    // fifteen bytes, whatever they are
    t.refuses_first(15, Document, 1, 0, b"\x00\x09\x02\x63");
    // sixteen bytes with a right header
    t.refuses_first(16, Document, 4, 0, b"");
    // one byte too many, and layout before rows
    t.refuses_first(43, Document, 4, 0, b"\x10\x00");
    // one byte too few
    t.refuses_first(41, Document, 4, 0, b"");
    // total and length agree, and are wrong
    t.refuses_first(43, Document, 4, 0, b"\x0c\x2b");
    t
}

pub(crate) fn headers() -> Tally {
    let mut t = Tally::default();
    // version 0, 2, 257
    t.each(2, 0, b"\x00\x00\x00\x02\x01\x01");
    // no signals, 33, 3 and a high byte; nodes and properties likewise
    t.each(
        3,
        0,
        b"\x02\x00\x02\x21\x03\x01\x04\x00\x05\x01\x06\x00\x06\x09\x07\x01",
    );
    // rows at 17, 16 and a high byte; roots at 37, 36 and a high byte; total one too small, or right modulo 256, 65,536, 16,777,216
    t.each(
        4,
        0,
        b"\x08\x11\x09\x01\x0a\x25\x0b\x01\x0c\x29\x0d\x01\x0e\x01\x0f\x01",
    );
    // version before counts
    t.refuses(Document, 2, 0, b"\x00\x02\x02\x00");
    // counts before offsets
    t.refuses(Document, 3, 0, b"\x02\x21\x08\x11");
    t
}

pub(crate) fn limits() -> Tally {
    let mut t = Tally::default();
    // 32 signals
    t.accepts(Document, b"\x02\x20");
    // 64 nodes
    t.accepts(ladder(64, 42), b"");
    // 8 properties
    t.accepts_first(36, Booleans, b"\x06\x08\x0c\x24");
    // 65 nodes
    t.refuses(ladder(65, 42), 3, 0, b"");
    t
}

pub(crate) fn kinds() -> Tally {
    let mut t = Tally::default();
    // kinds 0, 7, 15, 21, 31, 43, 47, 51, 255
    t.each(
        5,
        1,
        b"\x14\x00\x14\x07\x14\x0f\x14\x15\x14\x1f\x14\x2b\x14\x2f\x14\x33\x14\xff",
    );
    // kind 48, its fields not looked at
    t.refuses(Document, 6, 2, b"\x18\x30\x19\xc8\x1a\xc9\x1b\xca");
    // kind 49, its fields not looked at
    t.refuses(Document, 6, 2, b"\x18\x31\x19\xc8\x1a\xc9\x1b\xca");
    // kind 50, its fields not looked at
    t.refuses(Document, 6, 2, b"\x18\x32\x19\xc8\x1a\xc9\x1b\xca");
    // the lowest row first
    t.refuses(Document, 5, 1, b"\x14\x00\x20\x30");
    // rows before roots
    t.refuses(Document, 5, 4, b"\x20\x00\x24\x09");
    t
}

pub(crate) fn fields() -> Tally {
    let mut t = Tally::default();
    // signal number S; a signal's field b
    t.each(7, 0, b"\x11\x03\x12\x01");
    // a signal's field c; true with field a
    t.each(7, 1, b"\x17\x01\x14\x01");
    // an operand equal to its own node, in field a and b; until's field c
    t.each(7, 2, b"\x19\x02\x1a\x02\x1b\x01");
    // an operand larger than its node; always with field b
    t.each(7, 3, b"\x1d\x04\x1e\x01");
    // the last signal
    t.accepts(Document, b"\x11\x02");
    // true with zero fields
    t.accepts(Document, b"\x14\x01\x15\x00");
    // a row's 7 before the next row's 6
    t.refuses(Document, 7, 3, b"\x1e\x01\x20\x30");
    t
}

pub(crate) fn classes() -> Tally {
    let mut t = Tally::default();
    // not of a property
    t.refuses(Document, 8, 4, b"\x20\x04\x21\x02");
    // weak of a property
    t.refuses(Document, 8, 3, b"\x1c\x20\x1d\x02");
    // next of a sequence
    t.refuses(ladder(7, 34), 8, 6, b"");
    // until with a property for its Boolean
    t.refuses(Document, 8, 3, b"\x1c\x27\x1e\x02");
    // an unused field not zero before a class
    t.refuses(Document, 7, 4, b"\x20\x04\x21\x02\x23\x01");
    // field b too large before the class of a
    t.refuses(Document, 7, 4, b"\x20\x24\x21\x02\x22\x04");
    // a row's 8 before the next row's 5
    t.refuses(Document, 8, 3, b"\x1c\x20\x1d\x02\x20\x00");
    t
}

pub(crate) fn roots() -> Tally {
    let mut t = Tally::default();
    // root N
    t.refuses(Document, 9, 1, b"\x26\x05");
    // root 258
    t.refuses(Document, 9, 0, b"\x25\x01");
    // a root that is a sequence
    t.refuses(ladder(7, 42), 9, 0, b"\x2c\x05");
    // the lowest property first
    t.refuses(Document, 9, 1, b"\x26\x07\x28\x07");
    // Boolean roots, the same twice
    t.accepts(Booleans, b"");
    // roots before uses
    t.refuses(Document, 9, 2, b"\x26\x02\x29\x01");
    t
}

pub(crate) fn uses() -> Tally {
    let mut t = Tally::default();
    // one root twice
    t.refuses(Document, 10, 2, b"\x26\x02");
    // a property that nothing uses
    t.refuses(Document, 10, 4, b"\x28\x00");
    // twice by one row
    t.refuses(Document, 10, 3, b"\x20\x21\x21\x03\x22\x03\x26\x04\x28\x00");
    // by two rows
    t.refuses(Document, 10, 2, b"\x1d\x02\x21\x02\x24\x03\x26\x04\x28\x00");
    // by a row and as a root
    t.refuses(Document, 10, 2, b"\x1d\x02");
    // the lowest of two
    t.refuses(Document, 10, 3, b"\x26\x00\x28\x00");
    t
}

pub(crate) fn sequence_uses() -> Tally {
    let mut t = Tally::default();
    // a sequence that nothing uses
    t.refuses(ladder(7, 42), 10, 5, b"\x29\x00");
    // a sequence by two rows, before one by none
    t.refuses(ladder(7, 42), 10, 4, b"\x29\x04");
    // a sequence twice by one row
    t.refuses(ladder(7, 42), 10, 1, b"\x1a\x01");
    // a Boolean that nothing uses
    t.accepts(Document, b"\x1a\x00\x21\x00");
    t
}

pub(crate) fn cells() -> Tally {
    let mut t = Tally::default();
    // six cells
    t.accepts(ladder(7, 32), b"");
    // seven cells
    t.refuses(ladder(8, 32), 11, 7, b"");
    // seven cells, one row a fusion
    t.refuses(ladder(8, 32), 11, 7, b"\x1c\x11");
    // seven cells, one row a choice
    t.refuses(ladder(8, 32), 11, 7, b"\x1c\x12");
    // [*] adds none
    t.accepts(ladder(8, 32), b"\x1c\x13");
    // [+] adds none
    t.accepts(ladder(8, 32), b"\x28\x14");
    t
}

pub(crate) fn many_cells() -> Tally {
    let mut t = Tally::default();
    // never of 63 cells
    t.accepts(ladder(64, 42), b"");
    // a left side of 63 cells
    t.accepts(ladder(64, 40), b"");
    // the left side of |=>
    t.accepts(ladder(64, 41), b"");
    // weak of 63 cells
    t.refuses(ladder(64, 32), 11, 63, b"");
    // the lowest of two
    t.refuses_first(
        84,
        ladder(16, 32),
        11,
        7,
        b"\x06\x02\x0c\x54\x2c\x20\x31\x00\x52\x07",
    );
    // uses before cells
    t.refuses(ladder(8, 32), 10, 7, b"\x30\x00");
    t
}
