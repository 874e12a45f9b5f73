// One cycle of a property: the passes, in order. The state is what it expects of later cycles; the sample is all that is read.
ghost use Rattle.std.specs.Prelude.{◌≡◌, Bool, false, ℕ, ◌≤◌, length};
ghost use Rattle.lanes.specs.Rows.{Row};
ghost use Rattle.lanes.specs.Expected.{Table};
ghost use Rattle.engine.specs.Reads.{Within};
ghost use Rattle.engine.specs.CycleWeaks.{WeaksLeft, WeaksTold};
ghost use Rattle.engine.specs.Cycled.{Covered, Standing, Cycled};
ghost use Rattle.engine.specs.Goes.{RightNext};
ghost use Rattle.engine.specs.CycleFlags.{BooleanFails, NoWord};
ghost use Rattle.psl.specs.Tells.{Tells};

use crate::by_row::ByRow;
use crate::plan::Plan;
use crate::properties::Letter;
use crate::side_flags::SidePart;
use crate::sides::{Down, Live, Up};
use crate::weak_parts::{ENDS, Parts};
use crate::weak_uses::{Use, Uses, top};
use crate::{families, properties, rows, truths};

// What a property expects of later cycles, beside the families of its weak sequences: held rows (next, |=>: owed; always,
// until, never: running), and the cells of left sides and never, by the row and the field where they stand.
#[derive(Clone, Copy, Default, PartialEq, Eq)]
pub struct Expected {
    pub held: u64,
    pub live: Live,
}

// What a sample does: what is expected after it; whether it breaks the property; whether nothing is expected any more. The three are facts apart.
#[derive(Clone, Copy, PartialEq, Eq)]
pub struct Outcome {
    pub expected: Expected,
    pub broken: bool,
    pub quiet: bool,
}

// The weak sequences: the sets of cells that are left in some family.
fn moved(table: &[u8], plan: Plan, begin: u64, truth: u64, families: &mut [u64; 32]) -> u64
    requires { Within table.now plan.weaks }
    ensures { (row : ℕ → Row) (rows : Table row) (x : ℕ) (live : ℕ → Bool → Bool) (enter : ℕ → Bool)
        → WeaksTold table.now row plan.booleans plan.weaks truth begin x enter
        → WeaksLeft table.now row rows plan.weaks x live enter families.old families.new result }
{
    if plan.weaks == 0 {
        return 0;
    }
    let mut parts = Parts::new();
    parts.upward(table, plan.weaks, plan.booleans, truth);
    // Made here, since what a function answers is copied. The tops, none of which is read before its weak sequence is met, are not 0 and stand between the arrays
    // that are: zeros so long that the compiler would clear them by `memset`, a name that a host in C would have to have.
    let mut uses = Uses {
        of: [Use::NONE; 64],
        met: 0,
        tops: [top(ENDS, true); 32],
        leads: [0; 256],
    };
    uses.downward(table, plan.weaks, plan.booleans, begin, &parts);
    families::families(&uses, &mut *families)
}

// Whether a Boolean begins that does not hold.
fn fails(begin: u64, booleans: u64, truth: u64) -> bool
    ensures { Tells (BooleanFails begin booleans truth) result }
{
    words::has_from(begin & booleans & !truth, 0)
}

// Whether nothing is expected any more.
fn is_quiet(expected: Expected, all: u64) -> bool
    ensures { Tells (NoWord expected.held expected.live.a expected.live.b all) result }
{
    (expected == Expected::default()) & (all == 0)
}

// The passes in order, over rows that the bytes hold.
fn passes(
    table: &[u8],
    plan: Plan,
    was: Expected,
    first: u64,
    sample: u32,
    families: &mut [u64; 32],
) -> Outcome
    requires { Covered table.now plan.booleans plan.sides plan.weaks first was.held }
    ensures { (s : Standing table.now plan.root plan.booleans plan.sides plan.weaks first was.held was.live.a was.live.b families.old)
        → Cycled s sample result.expected.held result.expected.live.a result.expected.live.b families.new result.broken result.quiet }
{
    let truth = truths::truths(table, plan.booleans, sample);
    let mut lefts = ByRow::all(SidePart::NONE);
    let up = Up {
        table,
        plan,
        truth,
        live: was.live,
    };
    let hits = up.pass(&mut lefts);
    let letter = Letter {
        was: was.held,
        truth,
        hits,
    };
    let p = properties::downward(table, first, plan.booleans | plan.weaks, letter);
    let down = Down {
        table,
        plan,
        pass: p,
        lefts: &lefts,
    };
    let live = down.pass();
    let all = moved(table, plan, p.begin, truth, &mut *families);
    let expected = Expected { held: p.held, live };
    Outcome {
        expected,
        broken: p.broken | fails(p.begin, plan.booleans, truth) | words::bit(all, 0),
        quiet: is_quiet(expected, all),
    }
}

// One cycle: `first` is the root at the first cycle, and else nothing. Of rows that the bytes do not hold nothing is read, and nothing changes.
pub fn cycle(
    table: &[u8],
    plan: Plan,
    was: Expected,
    first: u64,
    sample: u32,
    families: &mut [u64; 32],
) -> Outcome
    ensures cycled { (s : Standing table.now plan.root plan.booleans plan.sides plan.weaks first was.held was.live.a was.live.b families.old)
        → Cycled s sample result.expected.held result.expected.live.a result.expected.live.b families.new result.broken result.quiet }
    ensures right_next { RightNext table.now plan.root plan.booleans plan.sides plan.weaks first was.held was.live.a was.live.b families.old sample result.broken result.quiet }
{
    let rows = plan.booleans | plan.sides | plan.weaks | first | was.held;
    if rows::covers(table, rows) {
        return passes(table, plan, was, first, sample, &mut *families);
    }
    Outcome {
        expected: was,
        broken: false,
        quiet: false,
    }
}
