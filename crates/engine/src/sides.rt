// Left sides and never: all attempts at one are merged. Up the rows, what ends; down the rows, what is expected next.
ghost use Rattle.std.specs.Prelude.{◌≡◌, Bool, ℕ, ◌%◌, get_or};
ghost use Rattle.psl.specs.Booleans.{bit};
ghost use Rattle.lanes.specs.Rows.{Row, Sound};
ghost use Rattle.lanes.specs.Expected.{Table};
ghost use Rattle.lanes.specs.UpPass.{Part, then_part};
ghost use Rattle.engine.specs.Reads.{kind_of, b_of, Within};
ghost use Rattle.engine.specs.Sides.{side_code, SideRows, SideUsers, LiveWords, LiveAtCells, LeftsFound, SidesUp, HitsOver, SidesEnter, SidesDown};
ghost use Rattle.engine.specs.SideSteps.{CellsFound, Seen, SeenAt, SecondOf, PartOf, Hit, Put, Upped, Right, Only, Handed, HandedTwo, PairDowned, Downed};
ghost use Rattle.engine.specs.Truths.{OnlyIn};

use crate::by_row::ByRow;
use crate::kinds::{ALT, FUSE, NEVER, STAR, THEN, WEAK};
use crate::plan::Plan;
use crate::properties::{Hits, Pass};
use crate::row::HeldRow;
use crate::side_flags::{SidePart, SideUse};

// The cells expected by left sides and never, by the row and the field where they stand.
#[derive(Clone, Copy, Default, PartialEq, Eq)]
pub struct Live {
    pub a: u64,
    pub b: u64,
}

// The pass up the rows: what it reads.
#[derive(Clone, Copy)]
pub(crate) struct Up<'a> {
    pub(crate) table: &'a [u8],
    pub(crate) plan: Plan,
    pub(crate) truth: u64,
    pub(crate) live: Live,
    ghost held: { Within table.now plan.sides },
}

fn hit(hits: Hits, n: u8, a: SidePart) -> Hits
    ensures { Hit n a hits result }
{
    Hits {
        ends: words::with_bit(hits.ends, n, a.has(SidePart::ENDS)),
        early: words::with_bit(hits.early, n, a.has(SidePart::EARLY)),
        empty: words::with_bit(hits.empty, n, a.has(SidePart::EMPTY)),
    }
}

impl Up<'_> {
    // The parts of the Booleans, filled in place: an array by value is copied.
    fn cells(&self, parts: &mut ByRow<SidePart>)
        ensures { CellsFound self.now.plan.booleans self.now.truth parts.new.of }
    {
        for n in words::Members(self.plan.booleans) {
            parts.put(n, SidePart::cell(words::bit(self.truth, n)));
        }
    }

    // What is found at operand v: an expected cell ends where it holds; else its part.
    fn seen(&self, v: u8, live: bool, parts: &ByRow<SidePart>) -> SidePart
        ensures { Seen (get_or parts.now.of (v % 64) 0) (bit self.now.truth (v % 64)) live result }
    {
        if live {
            return SidePart::expected(words::bit(self.truth, v));
        }
        parts.at(v)
    }

    // a ; b
    fn then_row(&self, row: HeldRow<'_>, a: SidePart, parts: &ByRow<SidePart>) -> SidePart
        ensures { (x y : Part) → a ≡ side_code x → SecondOf row.entry.table.now self.now.truth self.now.live.b parts.now.of row.entry.n y
            → result ≡ side_code (then_part x y) }
    {
        let v = row.b();
        if words::bit(self.live.b, row.n) {
            return a.then_expected(words::bit(self.truth, v));
        }
        a.then(parts.at(v))
    }

    // The part in field b.
    fn second(&self, row: HeldRow<'_>, parts: &ByRow<SidePart>) -> SidePart
        ensures { SeenAt parts.now.of self.now.truth self.now.live.b row.entry.n (b_of row.entry.table.now row.entry.n) result }
    {
        self.seen(row.b(), words::bit(self.live.b, row.n), parts)
    }

    // The part of a row that is no a ; b, from its first operand's.
    fn part(&self, row: HeldRow<'_>, a: SidePart, parts: &ByRow<SidePart>) -> SidePart
        requires { kind_of row.table.now row.n ≡ 16 → ⊥ }
        ensures { PartOf row.entry.table.now self.now.truth self.now.live.b parts.now.of row.entry.n a result }
    {
        match row.kind() {
            FUSE => a.fuse(self.second(row, parts)),
            ..=ALT => a.or(self.second(row, parts)),
            STAR => a.star(),
            _ => a,
        }
    }

    // A row whose first operand's part is a: one of a left side, or a property row over one. a ; b is asked for first, as most rows are one: by one `match`
    // over all kinds here and in `Down::visit`, and with no returns in `then`, `never` of 62 cells takes 4,524 instructions of 4,000.
    fn put(
        &self,
        row: HeldRow<'_>,
        a: SidePart,
        hits: Hits,
        parts: &mut ByRow<SidePart>,
        lefts: &mut ByRow<SidePart>,
    ) -> Hits
        ensures { Put row.entry.table.now self.now.truth self.now.live.b parts.old.of parts.new.of lefts.old.of lefts.new.of row.entry.n a
            hits result }
    {
        let kind = row.kind();
        lefts.put(row.n, a);
        if kind == THEN {
            let p = self.then_row(row, a, &*parts);
            parts.put(row.n, p);
            return hits;
        }
        if WEAK <= kind {
            return hit(hits, row.n, a);
        }
        let p = self.part(row, a, &*parts);
        parts.put(row.n, p);
        hits
    }

    fn visit(
        &self,
        row: HeldRow<'_>,
        hits: Hits,
        parts: &mut ByRow<SidePart>,
        lefts: &mut ByRow<SidePart>,
    ) -> Hits
        ensures { Upped row.entry.table.now self.now.truth self.now.live.a self.now.live.b parts.old.of parts.new.of lefts.old.of lefts.new.of
            row.entry.n hits result }
    {
        let a = self.seen(row.a(), words::bit(self.live.a, row.n), &*parts);
        self.put(row, a, hits, &mut *parts, &mut *lefts)
    }

    // Which left sides and nevers end, and in `lefts` what the first operand of each row does. With no rows nothing is filled.
    pub(crate) fn pass(&self, lefts: &mut ByRow<SidePart>) -> Hits
        ensures over { HitsOver self.now.table.now self.now.plan.sides result }
        ensures found { (row : ℕ → Row) (before : ℕ → Bool → Bool) (x : ℕ)
            → Sound row → SideRows self.now.table.now row self.now.plan.booleans self.now.plan.sides self.now.truth x
            → LiveWords self.now.plan.sides before self.now.live.a self.now.live.b → LiveAtCells row before
            → SidesUp self.now.table.now row before self.now.plan.sides x lefts.new.of result }
    {
        let mut hits = Hits::default();
        if self.plan.sides == 0 {
            return hits;
        }
        let mut parts = ByRow::all(SidePart::NONE);
        self.cells(&mut parts);
        for n in words::Members(self.plan.sides) {
            let row = HeldRow {
                table: self.table,
                n,
            };
            hits = self.visit(row, hits, &mut parts, &mut *lefts);
        }
        hits
    }
}

// The pass down the rows: what it reads.
#[derive(Clone, Copy)]
pub(crate) struct Down<'a> {
    pub(crate) table: &'a [u8],
    pub(crate) plan: Plan,
    pub(crate) pass: Pass,
    pub(crate) lefts: &'a ByRow<SidePart>,
    ghost held: { Within table.now plan.sides },
}

// The use of the second operand.
fn right(kind: u8, a: SidePart, used: SideUse) -> SideUse
    ensures { Right kind a used result }
{
    match kind {
        THEN => used.after(a),
        FUSE => used.at_end(a),
        _ => used,
    }
}

impl Down<'_> {
    // Hands a use to operand v of row n: a cell's bit in the word, or the row's use.
    fn handed(&self, n: u8, v: u8, used: SideUse, word: u64, uses: &mut ByRow<SideUse>) -> u64
        ensures { Handed n v used self.now.plan.booleans word uses.old.of result uses.new.of }
    {
        if words::bit(self.plan.booleans, v) {
            return words::with_bit(word, n, used.is_next());
        }
        uses.put(v, used);
        word
    }

    // The use of the one operand of row n: a property row enters it where it begins, never as long as it is held.
    fn only(&self, n: u8, kind: u8, a: SidePart, used: SideUse) -> SideUse
        ensures { Only n kind a used self.now.pass.begin self.now.pass.held result }
    {
        if kind < WEAK {
            return used.again(a);
        }
        if kind == NEVER {
            return SideUse::now_if(words::bit(self.pass.held, n));
        }
        SideUse::now_if(words::bit(self.pass.begin, n))
    }

    // A row of two operands: hands `used` to the first and `on` to the second.
    fn pair(
        &self,
        row: HeldRow<'_>,
        used: SideUse,
        on: SideUse,
        live: Live,
        uses: &mut ByRow<SideUse>,
    ) -> Live
        ensures { HandedTwo row.entry.table.now row.entry.n used on self.now.plan.booleans live.a live.b uses.old.of result.a result.b uses.new.of }
    {
        let first = self.handed(row.n, row.a(), used, live.a, &mut *uses);
        let second = self.handed(row.n, row.b(), on, live.b, &mut *uses);
        Live {
            a: first,
            b: second,
        }
    }

    // A row a ; b, where mostly a just ends or does nothing, so that what b is handed is known.
    fn then(
        &self,
        row: HeldRow<'_>,
        a: SidePart,
        used: SideUse,
        live: Live,
        uses: &mut ByRow<SideUse>,
    ) -> Live
        ensures { PairDowned row.entry.table.now 16 row.entry.n a used self.now.plan.booleans live.a live.b uses.old.of result.a result.b uses.new.of }
    {
        if a.just_ends() {
            return self.pair(row, used, SideUse::LATER, live, &mut *uses);
        }
        if a == SidePart::NONE {
            return self.pair(row, used, SideUse::NONE, live, &mut *uses);
        }
        self.pair(row, used, used.after(a), live, &mut *uses)
    }

    fn visit(&self, row: HeldRow<'_>, live: Live, uses: &mut ByRow<SideUse>) -> Live
        ensures { Downed row.entry.table.now row.entry.n self.now.plan.booleans self.now.pass.begin self.now.pass.held live.a live.b
            self.now.lefts.now.of uses.old.of result.a result.b uses.new.of }
    {
        let kind = row.kind();
        let a = self.lefts.at(row.n);
        let used = uses.at(row.n);
        if kind == THEN {
            return self.then(row, a, used, live, &mut *uses);
        }
        if kind <= ALT {
            return self.pair(row, used, right(kind, a, used), live, &mut *uses);
        }
        let own = self.only(row.n, kind, a, used);
        Live {
            a: self.handed(row.n, row.a(), own, live.a, &mut *uses),
            b: live.b,
        }
    }

    // What left sides and nevers expect next.
    pub(crate) fn pass(&self) -> Live
        ensures inside { OnlyIn self.now.plan.sides result.a × OnlyIn self.now.plan.sides result.b }
        ensures next { (row : ℕ → Row) (rows : Table row) (before : ℕ → Bool → Bool) (truth x : ℕ) (enter : ℕ → Bool)
            → SideRows self.now.table.now row self.now.plan.booleans self.now.plan.sides truth x → SideUsers self.now.table.now row self.now.plan.sides
            → SidesEnter self.now.table.now self.now.plan.sides self.now.pass.begin self.now.pass.held enter
            → LeftsFound self.now.table.now row before self.now.plan.sides x self.now.lefts.now.of
            → SidesDown row rows before self.now.plan.sides x enter result.a result.b }
    {
        let mut live = Live::default();
        if self.plan.sides == 0 {
            return live;
        }
        let mut uses = ByRow::all(SideUse::NONE);
        for n in words::Members(self.plan.sides).rev() {
            let row = HeldRow {
                table: self.table,
                n,
            };
            live = self.visit(row, live, &mut uses);
        }
        live
    }
}
