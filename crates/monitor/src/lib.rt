// The monitor of a property: opened on an accepted table, stepped once for each sample.

#![tactic(auto)]

ghost use Rattle.std.specs.Prelude.{◌≡◌, ◌<◌};
ghost use Rattle.table.specs.Reply.{granted};
ghost use Rattle.table.specs.Check.{checked_reply};
ghost use Rattle.table.specs.Subset.{Subset};
ghost use Rattle.monitor.specs.Opens.{count_limit, Blank, Shut, Ready, OpenIs};
ghost use Rattle.monitor.specs.Follows.{verdict_of, answer_reply, monitor_of, Advances, DeclaredIs, StepIs};

pub mod entry;
mod verdict;

use engine::cycle::Expected;
use engine::plan::Plan;
pub use entry::advance;
use table::{Cause, Counts, Refusal};
pub use verdict::Verdict;

// How a property stands after some cycles, beside its families.
#[derive(Clone, Copy, PartialEq, Eq)]
pub struct Stand {
    pub verdict: Verdict,
    pub expected: Expected,
}

impl Stand {
    // One cycle after n that left the property pending.
    fn turn(
        &mut self,
        table: &[u8],
        plan: Plan,
        n: u32,
        sample: u32,
        families: &mut [u64; Monitor::FAMILIES],
    ) -> Verdict
        requires { n < count_limit }
        ensures { Advances table.now (monitor_of plan self.old families.old) n sample (granted (verdict_of result)) (monitor_of plan self.new families.new) }
    {
        let first = words::with_bit(0, plan.root, n == 0);
        let o = engine::cycle::cycle(table, plan, self.expected, first, sample, &mut *families);
        let verdict = Verdict::at(o.broken, o.quiet, n + 1);
        *self = Stand {
            verdict,
            expected: o.expected,
        };
        verdict
    }

    // One declared sample: a verdict already given, or refusal 14, or the new verdict.
    fn take_declared(
        &mut self,
        table: &[u8],
        plan: Plan,
        sample: u32,
        families: &mut [u64; Monitor::FAMILIES],
    ) -> Result<Verdict, Refusal>
        ensures { DeclaredIs table.now (monitor_of plan self.old families.old) sample (answer_reply result) (monitor_of plan self.new families.new) }
    {
        let verdict = self.verdict;
        let Some(n) = verdict.pending() else {
            return Ok(verdict);
        };
        if n == Monitor::CYCLES {
            return Err(Cause::CyclesTooMany.at(0));
        }
        Ok(self.turn(table, plan, n, sample, &mut *families))
    }

    // One sample, the families lent, so that none is copied: refusal 13, or what a declared sample gives.
    fn take(
        &mut self,
        table: &[u8],
        plan: Plan,
        sample: u32,
        families: &mut [u64; Monitor::FAMILIES],
    ) -> Result<Verdict, Refusal>
        ensures { StepIs table.now (monitor_of plan self.old families.old) sample (answer_reply result) (monitor_of plan self.new families.new) }
    {
        if words::has_from(u64::from(sample), little::byte_at(table, 2)) {
            return Err(Cause::SignalUndeclared.at(0));
        }
        self.take_declared(table, plan, sample, &mut *families)
    }
}

// The families are those of the property's weak sequences, from the highest row.
#[derive(Clone, Copy, PartialEq, Eq)]
pub struct Monitor {
    pub plan: Plan,
    pub stand: Stand,
    pub families: [u64; Monitor::FAMILIES],
}

impl Monitor {
    // The most cycles that are counted.
    pub const CYCLES: u32 = 4_294_967_295;

    // The most weak sequences of a property, each with its family.
    pub const FAMILIES: usize = 32;

    // A monitor that expects nothing, pending after so many cycles.
    pub fn new(plan: Plan, cycles: u32) -> Monitor
        ensures { Blank plan cycles result }
    {
        Monitor {
            plan,
            stand: Stand {
                verdict: Verdict::Pending(cycles),
                expected: Expected::default(),
            },
            families: [0u64; Monitor::FAMILIES],
        }
    }

    // One sample, in place: what a step of the parts gives.
    pub fn take(&mut self, table: &[u8], sample: u32) -> Result<Verdict, Refusal>
        ensures { StepIs table.now self.old sample (answer_reply result) self.new }
    {
        self.stand
            .take(table, self.plan, sample, &mut self.families)
    }
}

// What is answered, and the monitor beside it: a refusal leaves one too.
#[derive(Clone, Copy, PartialEq, Eq)]
pub struct Answered<A> {
    pub answer: Result<A, Refusal>,
    pub monitor: Monitor,
}

// A sample is answered by a verdict.
pub type Stepped = Answered<Verdict>;

// Opening is answered as the check is, with one refusal more.
pub type Opened = Answered<Counts>;

// A refused opening: its monitor has the plan of no property, and stands at the count limit, so that no step of it gives a verdict.
fn not_opened(answer: Result<Counts, Refusal>) -> Opened
    ensures { (result.answer ≡ answer) × Shut result.monitor }
{
    Opened {
        answer,
        monitor: Monitor::new(Plan::default(), Monitor::CYCLES),
    }
}

// A property of an accepted table.
fn opening(table: &[u8], counts: Counts, property: u8) -> Opened
    requires { Subset table.now counts × (property < counts.properties) }
    ensures answer_value { result.answer ≡ Ok counts }
    ensures nothing_read { Blank result.monitor.plan 0 result.monitor }
    ensures ready { Ready table.now counts property result.monitor }
{
    // a cast and no `try_from`, whose error never comes: a root of an accepted table is below 64
    let root = table::roots::root_at(table, counts.nodes, property) as u8;
    Opened {
        answer: Ok(counts),
        monitor: Monitor::new(engine::plan::planned(table, root), 0),
    }
}

// Refusals 1 to 11, then 12; else a monitor that has read nothing.
pub fn open(table: &[u8], property: u32) -> Opened
    ensures { OpenIs table.now property (checked_reply result.answer) result.monitor }
{
    let checked = table::check(table);
    let Ok(counts) = checked else {
        return not_opened(checked);
    };
    if u32::from(counts.properties) <= property {
        return not_opened(Err(Cause::PropertyUnknown.at(0)));
    }
    // below the count of properties, which is a byte
    opening(table, counts, property as u8)
}

// The answer to a sample of a monitor in parts: its families are lent, so how it stands is all that is handed back, after a refusal too.
#[derive(Clone, Copy, PartialEq, Eq)]
pub struct Told {
    pub answer: Result<Verdict, Refusal>,
    pub stand: Stand,
}

// One sample, the monitor in parts and its families lent.
pub fn step_lent(
    table: &[u8],
    plan: Plan,
    stand: Stand,
    sample: u32,
    families: &mut [u64; Monitor::FAMILIES],
) -> Told
    ensures { StepIs table.now (monitor_of plan stand families.old) sample (answer_reply result.answer) (monitor_of plan result.stand families.new) }
{
    let mut after = stand;
    let answer = after.take(table, plan, sample, &mut *families);
    Told {
        answer,
        stand: after,
    }
}

// One sample, the monitor by value.
pub fn step(table: &[u8], mut monitor: Monitor, sample: u32) -> Stepped
    ensures { StepIs table.now monitor sample (answer_reply result.answer) result.monitor }
{
    let answer = monitor.take(table, sample);
    Stepped { answer, monitor }
}
