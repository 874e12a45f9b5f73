// The parts of weak sequences: each of their cells is a lane, 0 to 5 from the left. Up the rows, which lanes end each part.
ghost use Rattle.std.specs.Prelude.{◌≡◌, ◌%◌};
ghost use Rattle.psl.specs.Booleans.{bit};
ghost use Rattle.lanes.specs.UpPass.{capped};
ghost use Rattle.engine.specs.Reads.{Within};
ghost use Rattle.engine.specs.WeakParts.{Shifted, ThenAct, FuseAct, AltAct, Pairs, Loops, part_at, Put, RowPartIs, CellsKept, WeaksUp};

use crate::bits::only_if;
use crate::kinds::{ALT, FUSE, STAR, THEN};
use crate::row::HeldRow;

// The bits of an act: its lanes.
pub(crate) const LANES: u8 = 63;

// Entered now it ends now.
pub(crate) const EARLY: u8 = 64;

// All ways to end.
pub(crate) const ENDS: u8 = 127;

// It can be empty.
pub(crate) const EMPTY: u8 = 128;

// Early and empty, which a shift of the lanes leaves out.
const FLAGS: u8 = 192;

// The act of a cell that holds: it ends in lane 0, and early.
const CELL: u8 = 65;

// What a part does on this letter: bits 0 to 5, its lanes, are its own cells from the left whose reading ends it; and how many cells it has, 7 where more.
#[derive(Clone, Copy)]
pub struct Part {
    pub act: u8,
    pub count: u8,
}

// The part of each row.
#[derive(Drop)]
pub struct Parts {
    pub of: [Part; 64],
}

// The lanes of a part that stands k cells to the right.
pub(crate) fn shifted(act: u8, k: u8) -> u8
    ensures { Shifted act k result }
{
    ((((act % 64) as u16) << (k % 8)) % 64) as u8
}

// a ; b
fn then_act(a: u8, b: u8, k: u8) -> u8
    ensures { ThenAct a b k result }
{
    if (a | b) & EMPTY == 0 {
        return shifted(b, k);
    }
    shifted(b, k)
        | only_if(a & EMPTY != 0, b & EARLY)
        | only_if(b & EMPTY != 0, a & ENDS)
        | (a & b & EMPTY)
}

// a : b
fn fuse_act(a: u8, b: u8, k: u8) -> u8
    ensures { FuseAct a b k result }
{
    shifted(b, k) | only_if(b & EARLY != 0, a & ENDS)
}

// a | b
fn alt_act(a: u8, b: u8, k: u8) -> u8
    ensures { AltAct a b k result }
{
    shifted(b, k) | (b & FLAGS) | a
}

// Two counts together, 7 where more.
fn capped(j: u8, k: u8) -> u8
    ensures { result ≡ capped j k }
{
    let sum = (j as u32) + (k as u32);
    if sum < 7 { sum as u8 } else { 7 }
}

// a ; b, a : b, a | b
fn pair(kind: u8, a: Part, b: Part) -> Part
    ensures { Pairs kind a b result }
{
    let act = match kind {
        THEN => then_act(a.act, b.act, a.count),
        FUSE => fuse_act(a.act, b.act, a.count),
        _ => alt_act(a.act, b.act, a.count),
    };
    Part {
        act,
        count: capped(a.count, b.count),
    }
}

// a[*], a[+]
fn looped(kind: u8, a: Part) -> Part
    ensures { Loops kind a result }
{
    if kind == STAR {
        return Part {
            act: a.act | EMPTY,
            count: a.count,
        };
    }
    a
}

impl Parts {
    pub(crate) fn new() -> Parts {
        Parts {
            of: [Part { act: 0, count: 0 }; 64],
        }
    }

    // Field by field: a whole part is read as a word and taken apart again, at the cost of some instructions for each row.
    pub(crate) fn at(&self, v: u8) -> Part
        ensures { result ≡ part_at self.now (v % 64) }
    {
        let i = (v as usize) % 64;
        Part {
            act: self.of[i].act,
            count: self.of[i].count,
        }
    }

    fn put(&mut self, n: u8, part: Part)
        ensures { Put self.old self.new (n % 64) part }
    {
        self.of[(n as usize) % 64] = part;
    }

    // The parts of the Booleans, which are cells. That of left sides fills another type; one function for both lines is no plainer.
    fn cells(&mut self, booleans: u64, truth: u64)
        ensures { CellsKept booleans truth self.new }
    {
        for n in words::Members(booleans) {
            self.put(
                n,
                Part {
                    act: only_if(words::bit(truth, n), CELL),
                    count: 1,
                },
            );
        }
    }

    // The part of a row, which stands in a weak sequence. Most are a ; b: with the kind as a constant they are compiled apart, as in the pass downwards.
    fn part_of(&self, row: HeldRow<'_>) -> Part
        ensures { RowPartIs row.entry.table.now row.entry.n self.now result }
    {
        let kind = row.kind();
        let a = self.at(row.a());
        if kind == THEN {
            return pair(THEN, a, self.at(row.b()));
        }
        if kind <= ALT {
            return pair(kind, a, self.at(row.b()));
        }
        looped(kind, a)
    }

    // The parts of the Booleans, and of the rows of weak sequences.
    pub(crate) fn upward(&mut self, table: &[u8], weaks: u64, booleans: u64, truth: u64)
        requires { Within table.now weaks }
        ensures { WeaksUp table.now booleans weaks truth self.new }
    {
        self.cells(booleans, truth);
        for n in words::Members(weaks) {
            let part = self.part_of(HeldRow { table, n });
            self.put(n, part);
        }
    }
}
