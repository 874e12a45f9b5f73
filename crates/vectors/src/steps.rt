// Opens a property, and feeds the samples of a trace one by one to its monitor.
use crate::lent::both_step;
use crate::reading::{Record, next_answer};
use crate::tally::{Seen, Tally};
use host::{Packed, answer_number};
use monitor::{Monitor, Verdict};
use table::{Counts, Refusal};
use trace::TraceReader;

// A monitor; what was compared of its answers, and of those of the per-cycle entry.
#[derive(Clone, Copy)]
pub(crate) struct Watch {
    pub(crate) monitor: Monitor,
    pub(crate) steps: Tally,
    pub(crate) lent: Tally,
}

// Opened, it is pending after no cycle.
fn opened_number(opened: Result<Counts, Refusal>) -> u64 {
    answer_number(opened.map(|_| Verdict::Pending(0)))
}

// A refusal and a verdict that stood before leave the monitor as it was.
fn is_left(before: Monitor, answer: u64, after: Monitor) -> bool {
    let stood = answer_number(Ok(before.stand.verdict));
    (Packed::LOW <= answer && answer != stood) || before == after
}

impl Watch {
    pub(crate) fn new(monitor: Monitor) -> Self {
        Self {
            monitor,
            steps: Tally::default(),
            lent: Tally::default(),
        }
    }

    // The answer to opening a record's property.
    pub(crate) fn open(&mut self, rt: &impl Print, record: Record<'_>) {
        let opened = monitor::open(record.table, record.head.property);
        self.monitor = opened.monitor;
        let answer = opened_number(opened.answer);
        let seen = Seen::answered(record.head.expected, answer);
        self.steps.add(rt, record.number, seen);
    }

    fn step(&mut self, rt: &(impl Input + Print), record: Record<'_>, sample: u32) {
        let before = self.monitor;
        let (stepped, entry) = both_step(record.table, before, sample);
        self.lent.add(rt, record.number, entry);
        let answer = answer_number(stepped.answer);
        let seen = Seen::answered(next_answer(rt), answer);
        let left = is_left(before, answer, stepped.monitor);
        self.steps.add(rt, record.number, seen.and_left(left));
        self.monitor = stepped.monitor;
    }

    // The answer to each sample of a record.
    pub(crate) fn feed(&mut self, rt: &(impl Input + Print), record: Record<'_>) {
        for sample in TraceReader::new(record.trace) {
            self.step(rt, record, sample);
        }
    }
}
