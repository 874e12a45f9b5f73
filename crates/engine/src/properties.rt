// The property rows, downwards: which begin now, which stay held, whether a never breaks.
// A row is visited where an attempt begins, was held, or its left side ends.
ghost use Rattle.std.specs.Prelude.{◌≡◌, Bool, true, ◌&&◌, ℕ, ◌%◌};
ghost use Rattle.psl.specs.Booleans.{bit};
ghost use Rattle.psl.proofs.Model.Nodes.{Node};
ghost use Rattle.table.specs.Choice.{pick};
ghost use Rattle.engine.specs.Reads.{a_of, b_of, c_of};
ghost use Rattle.engine.specs.Properties.{PropertyRows, Passed, Visits};
ghost use Rattle.engine.specs.PropertyVisits.{stage_of, begun_at, kept_at, early_at, matched_at, running_at, owes_at, visit_at, called, Visitable};

use crate::kinds::{ALWAYS, BOTH, IF, IMPLIES, NEVER, NEXT, OR, SUFFIX, UNTIL};
use crate::row::HeldRow;
use crate::rows;

// The rows over a left side that ends on this letter: by an attempt under way, and by one that begins now. And those over one that can be empty.
#[derive(Clone, Copy, PartialEq, Eq, Default)]
pub struct Hits {
    pub ends: u64,
    pub early: u64,
    pub empty: u64,
}

// What is known on this letter: the rows held before, the Booleans that hold, the left sides that end.
#[derive(Clone, Copy)]
pub struct Letter {
    pub was: u64,
    pub truth: u64,
    pub hits: Hits,
}

// The rows that begin, those that stay held, whether a never breaks: facts apart.
#[derive(Clone, Copy)]
pub struct Pass {
    pub begin: u64,
    pub held: u64,
    pub broken: bool,
}

impl Letter {
    // Whether a left side that can end at once does: that of the row, or a Boolean standing as one.
    fn early(self, row: HeldRow<'_>) -> bool
        ensures { result ≡ early_at row.entry.table.now row.entry.n self }
    {
        words::bit(self.hits.early, row.n) | words::bit(self.truth, row.a())
    }

    // Whether a match of a left side ends: of an attempt under way, or of one that begins now, where `on`.
    fn matched(self, row: HeldRow<'_>, on: bool) -> bool
        ensures { result ≡ matched_at row.entry.table.now row.entry.n self on }
    {
        words::bit(self.hits.ends, row.n) | (self.early(row) & on)
    }
}

impl Pass {
    // Row v begins, where on.
    fn begun(self, v: u8, on: bool) -> Pass
        ensures { stage_of result ≡ begun_at (stage_of self) v on }
    {
        Pass {
            begin: words::with_bit(self.begin, v, on),
            ..self
        }
    }

    // Row n stays held, where on.
    fn kept(self, n: u8, on: bool) -> Pass
        ensures { stage_of result ≡ kept_at (stage_of self) n on }
    {
        Pass {
            held: words::with_bit(self.held, n, on),
            ..self
        }
    }

    // if: the row begins.
    fn branch(self, row: HeldRow<'_>, truth: u64) -> Pass
        ensures { stage_of result ≡ pick (bit truth (a_of row.entry.table.now row.entry.n % 64))
            (begun_at (stage_of self) (b_of row.entry.table.now row.entry.n) true) (begun_at (stage_of self) (c_of row.entry.table.now row.entry.n) true) }
    {
        if words::bit(truth, row.a()) {
            self.begun(row.b(), true)
        } else {
            self.begun(row.c(), true)
        }
    }

    // always, until: the row begins or runs, and goes on where on.
    fn lasting(self, row: HeldRow<'_>, on: bool) -> Pass
        ensures { stage_of result ≡ kept_at (begun_at (stage_of self) (a_of row.entry.table.now row.entry.n) on) row.entry.n on }
    {
        self.begun(row.a(), on).kept(row.n, on)
    }

    // never: it runs from where it begins.
    fn running(self, row: HeldRow<'_>, l: Letter) -> Pass
        ensures { stage_of result ≡ running_at row.entry.table.now row.entry.n l (stage_of self) }
    {
        let on = words::bit(self.begin, row.n) | words::bit(l.was, row.n);
        Pass {
            broken: self.broken | l.matched(row, on),
            ..self.kept(row.n, on)
        }
    }

    // Whether |=> in row n owes its right side now: its left side ended on the last letter, or can be empty and the row begins.
    fn owes(self, n: u8, l: Letter) -> bool
        ensures { result ≡ owes_at n l (stage_of self) }
    {
        words::bit(l.was, n) | (words::bit(self.begin, n) & words::bit(l.hits.empty, n))
    }

    // A row that begins, was held, or has a left side that ends. It is of a property, so below and above the kinds told apart there is one each, if and |=>.
    fn visit(self, row: HeldRow<'_>, l: Letter) -> Pass
        ensures { stage_of result ≡ visit_at row.entry.table.now row.entry.n l (stage_of self) }
    {
        let n = row.n;
        match row.kind() {
            BOTH => self.begun(row.a(), true).begun(row.b(), true),
            NEXT => self
                .kept(n, words::bit(self.begin, n))
                .begun(row.a(), words::bit(l.was, n)),
            ..=IF => self.branch(row, l.truth),
            IMPLIES => self.begun(row.b(), words::bit(l.truth, row.a())),
            OR => self.begun(row.a(), !words::bit(l.truth, row.b())),
            ALWAYS => self.lasting(row, true),
            UNTIL => self.lasting(row, !words::bit(l.truth, row.b())),
            SUFFIX => self.begun(row.b(), l.matched(row, words::bit(self.begin, n))),
            NEVER => self.running(row, l),
            _ => self
                .kept(n, l.matched(row, words::bit(self.begin, n)))
                .begun(row.b(), self.owes(n, l)),
        }
    }
}

// The rows that can be visited; `leaves` are the Booleans and the rows of weak sequences.
fn visitable(table: &[u8], leaves: u64) -> u64
    ensures { Visitable table.now leaves result }
{
    rows::held(table) & !leaves
}

// The rows that are to be visited, of those that are still ahead.
fn visits(l: Letter, p: Pass, ahead: u64) -> u64
    ensures { (k : ℕ) → bit result k ≡ called p.begin l.was l.hits.ends k && bit ahead k }
{
    (p.begin | l.was | l.hits.ends) & ahead
}

pub(crate) fn downward(table: &[u8], first: u64, leaves: u64, l: Letter) -> Pass
    requires { Visits table.now leaves first l.was l.hits.ends }
    ensures { (x root : ℕ) (node : ℕ → Node) (reached : ℕ → Bool) (hit : ℕ → Bool → Bool)
        → PropertyRows table.now leaves first l x root node reached hit
        → Passed first l.was x root node hit result.begin result.held result.broken }
{
    let mut p = Pass {
        begin: first,
        held: 0,
        broken: false,
    };
    let mut ahead = visitable(table, leaves);
    while let Some(n) = words::Members(visits(l, p, ahead)).next_back() {
        ahead = words::without_bit(ahead, n);
        p = p.visit(HeldRow { table, n }, l);
    }
    p
}
