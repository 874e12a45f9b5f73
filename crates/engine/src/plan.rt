// The plan of a property: the rows that it reaches, downwards from its root, by what a cycle does with them.
ghost use Rattle.std.specs.Prelude.{◌≡◌, true, ◌&&◌, not, ℕ, ◌%◌, ◌<◌};
ghost use Rattle.psl.specs.Booleans.{bit};
ghost use Rattle.words.specs.Sets.{WithBit};
ghost use Rattle.table.specs.Kinds.{class_of};
ghost use Rattle.table.specs.Subset.{kind_at, Subset};
ghost use Rattle.table.specs.declared.kinds.Class.TheVariants.{Sequence};
ghost use Rattle.table.proofs.Laws.Rows.{operand_test};
ghost use Rattle.table.specs.declared.Counts.{Counts};
ghost use Rattle.engine.specs.Planned.{Planned};
ghost use Rattle.engine.specs.Reached.{follows, Joined, Spread, is_chosen};

use crate::kinds::{NEVER, PLUS, SUFFIX, THEN, WEAK};
use table::kinds::{Fields, Holds, fields_by, takes_of};
use table::rows::{kind_at, row_at};

// The Booleans; the rows of left sides and never, and the property rows over them; those of weak sequences, and the weak rows;
// and the root.
#[derive(Clone, Copy, PartialEq, Eq, Default)]
pub struct Plan {
    pub booleans: u64,
    pub sides: u64,
    pub weaks: u64,
    pub root: u8,
}

// A field that names a row.
fn names(holds: Holds) -> bool
    ensures { result ≡ operand_test holds }
{
    matches!(holds, Holds::B | Holds::Q | Holds::F)
}

// Down the rows of a table, from a row to those of kind `least` or more that its fields name.
#[derive(Clone, Copy)]
struct Down<'a> {
    table: &'a [u8],
    least: u8,
}

impl Down<'_> {
    // Whether a field leads to row v.
    fn follows(self, holds: Holds, v: u8) -> bool
        ensures { result ≡ follows self.entry.table.now self.entry.least holds v }
    {
        names(holds) & (self.least <= kind_at(self.table, v))
    }

    // The rows with the one that a field leads to.
    fn with_field(self, rows: u64, holds: Holds, v: u8) -> u64
        ensures { WithBit rows v (follows self.entry.table.now self.entry.least holds v) result }
    {
        words::with_bit(rows, v, self.follows(holds, v))
    }

    // The rows with those that the fields of row n lead to, where n is one of them.
    fn joined(self, rows: u64, n: u8) -> u64
        requires { n < 64 }
        ensures { Joined self.entry.table.now self.entry.least rows n result }
    {
        if !words::bit(rows, n) {
            return rows;
        }
        let row = row_at(self.table, n);
        let Fields { a, b, c } = fields_by(takes_of(row.kind));
        let with_a = self.with_field(rows, a, row.a);
        let with_b = self.with_field(with_a, b, row.b);
        self.with_field(with_b, c, row.c)
    }

    // The rows of a set and all that their fields lead to, and so on downwards.
    fn spread(self, start: u64) -> u64
        ensures { (counts : Counts) → Subset self.entry.table.now counts → ((k : ℕ) → bit start k ≡ true → k < counts.nodes)
            → Spread self.entry.table.now self.entry.least start result }
    {
        let mut rows = start;
        for n in (0..64).rev() {
            rows = self.joined(rows, n);
        }
        rows
    }
}

// Which rows of a set: those of kinds low to high whose field a names a row of kind `left` or more.
#[derive(Clone, Copy)]
struct Choice {
    low: u8,
    high: u8,
    left: u8,
}

const BOOLEANS: Choice = Choice {
    low: 0,
    high: THEN - 1,
    left: 0,
};

const SEQUENCES: Choice = Choice {
    low: THEN,
    high: PLUS,
    left: 0,
};

const WEAKS: Choice = Choice {
    low: WEAK,
    high: WEAK,
    left: 0,
};

const OVER_SEQUENCES: Choice = Choice {
    low: SUFFIX,
    high: NEVER,
    left: THEN,
};

impl Choice {
    fn takes(&self, table: &[u8], n: u8) -> bool
        ensures { result ≡ is_chosen table.now self.now.low self.now.high self.now.left n }
    {
        let row = row_at(table, n);
        (self.low <= row.kind) & (row.kind <= self.high) & (self.left <= kind_at(table, row.a))
    }

    fn of(&self, table: &[u8], rows: u64) -> u64
        ensures { (k : ℕ) → bit result k ≡ bit rows k && is_chosen table.now self.now.low self.now.high self.now.left k }
    {
        let mut found = 0;
        for n in words::Members(rows) {
            found = words::with_bit(found, n, self.takes(table, n));
        }
        found
    }
}

// The rows of one set that are not in another.
fn but(rows: u64, others: u64) -> u64
    ensures { (k : ℕ) → bit result k ≡ bit rows k && not (bit others k) }
{
    rows & !others
}

// The plan of the property with this root.
pub fn planned(table: &[u8], root: u8) -> Plan
    ensures root_value { result.root ≡ root }
    ensures planned { (counts : Counts) → Subset table.now counts → root < counts.nodes → ¬ (class_of (kind_at table.now root) ≡ Sequence) → Planned table.now root result.booleans result.sides result.weaks }
{
    let rows = Down { table, least: 0 }.spread(words::with_bit(0, root, true));
    let weaks = Down { table, least: THEN }.spread(WEAKS.of(table, rows));
    // a sequence that is reached and stands in no weak one stands in a left side
    let sequences = but(SEQUENCES.of(table, rows), weaks);
    Plan {
        booleans: BOOLEANS.of(table, rows),
        sides: OVER_SEQUENCES.of(table, rows) | sequences,
        weaks,
        root,
    }
}
