// The truth of the Booleans of a property on a sample, upwards, in one word.
ghost use Rattle.std.specs.Prelude.{◌≡◌, Bool, ℕ, ◌%◌};
ghost use Rattle.psl.specs.Booleans.{Boolean, bit};
ghost use Rattle.words.specs.Sets.{WithBit};
ghost use Rattle.engine.specs.Reads.{kind_of, Within};
ghost use Rattle.engine.specs.Truths.{holds_at, BooleanRows, Truth, OnlyIn};

use crate::kinds::{AND, FALSE, NOT, SIGNAL, TRUE};
use crate::row::HeldRow;

// Whether a Boolean row holds that is no signal, the truth of smaller rows being known.
fn holds(row: HeldRow<'_>, kind: u8, truth: u64) -> bool
    requires { (kind ≡ kind_of row.table.now row.n) × (kind ≡ 3 → ⊥) }
    ensures { (sample : ℕ) → result ≡ holds_at row.entry.table.now row.entry.n truth sample }
{
    if kind <= FALSE {
        return kind == TRUE;
    }
    let a = words::bit(truth, row.a());
    if kind == NOT {
        return !a;
    }
    let b = words::bit(truth, row.b());
    if kind == AND { a & b } else { a | b }
}

// The truth with that of the row. Its kind is not told by one match: the compiler would make a table of jumps, and each signal cost ten instructions more.
fn with_row(row: HeldRow<'_>, truth: u64, sample: u32) -> u64
    ensures { WithBit truth row.entry.n (holds_at row.entry.table.now row.entry.n truth sample) result }
{
    let kind = row.kind();
    if kind == SIGNAL {
        return words::with_bit(truth, row.n, words::bit(sample as u64, row.a()));
    }
    words::with_bit(truth, row.n, holds(row, kind, truth))
}

pub(crate) fn truths(table: &[u8], booleans: u64, sample: u32) -> u64
    requires { Within table.now booleans }
    ensures only { OnlyIn booleans result }
    ensures each { (value : ℕ → Boolean) → BooleanRows table.now booleans value → Truth booleans value sample result }
{
    let mut truth: u64 = 0;
    for n in words::Members(booleans) {
        truth = with_row(HeldRow { table, n }, truth, sample);
    }
    truth
}
