// Steps monitors that opening and stepping did not make: any words and any verdict.
use crate::lent::both_step;
use crate::reading::{Record, read, u64_at};
use crate::tally::{Seen, Tally};
use engine::Live;
use engine::cycle::Expected;
use engine::plan::Plan;
use host::{Packed, answer_number};
use little::{byte_at, u32_at};
use monitor::{Monitor, Stand, Verdict};
use std::array;
use trace::TraceReader;
use trace::samples::sample_at;

// A monitor as a record gives it: six words, 32 families, the cycle and the verdict, the root.
#[derive(Drop)]
pub(crate) struct State([u8; State::BYTES]);

impl State {
    const BYTES: usize = 310;

    // 2^32 times this, plus a cycle, stands for any verdict at that cycle.
    const ANY: u64 = 4;

    // The state whose bytes are all 0.
    pub(crate) fn new() -> Self {
        State([0; State::BYTES])
    }

    // The next state of the input.
    pub(crate) fn next(rt: &impl Input) -> Self {
        let mut state = State::new();
        read(rt, &mut state.0);
        state
    }

    fn plan(&self) -> Plan {
        Plan {
            booleans: u64_at(&self.0, 0),
            sides: u64_at(&self.0, 8),
            weaks: u64_at(&self.0, 16),
            root: byte_at(&self.0, 309),
        }
    }

    // The cycle, and the record's code of the verdict.
    fn verdict(&self) -> Verdict {
        let cycle = u32_at(&self.0, 304);
        match byte_at(&self.0, 308) {
            1 => Verdict::Broken(cycle),
            2 => Verdict::Settled(cycle),
            _ => Verdict::Pending(cycle),
        }
    }

    fn expected(&self) -> Expected {
        Expected {
            held: u64_at(&self.0, 24),
            live: Live {
                a: u64_at(&self.0, 32),
                b: u64_at(&self.0, 40),
            },
        }
    }
}

impl From<&State> for Monitor {
    fn from(state: &State) -> Monitor {
        Monitor {
            plan: state.plan(),
            stand: Stand {
                verdict: state.verdict(),
                expected: state.expected(),
            },
            families: array::from_fn(|i| u64_at(&state.0, 48 + 8 * i)),
        }
    }
}

// A refusal and a repeated verdict leave the monitor as it was; of a new verdict of any monitor only the cycle is promised.
fn agrees(expected: u64, answer: u64, stays: bool) -> bool {
    if expected / Packed::LOW < State::ANY {
        answer == expected && stays
    } else {
        Packed::LOW <= answer && answer % Packed::LOW == expected % Packed::LOW
    }
}

// The answer of any monitor to the first sample of a record, and whether that may be answered where another is expected.
pub(crate) fn any_step(m: Monitor, record: Record<'_>) -> Seen {
    let stepped = monitor::step(record.table, m, sample_at(record.trace, 0));
    let expected = record.head.expected;
    let answer = answer_number(stepped.answer);
    Seen {
        expected,
        answer,
        agrees: agrees(expected, answer, m == stepped.monitor),
    }
}

// Feeds every sample of a record, whatever the answers; the per-cycle entry gives the same.
pub(crate) fn steps_on(rt: &impl Print, lent: &mut Tally, mut m: Monitor, record: Record<'_>) {
    for sample in TraceReader::new(record.trace) {
        let (stepped, seen) = both_step(record.table, m, sample);
        lent.add(rt, record.number, seen);
        m = stepped.monitor;
    }
}
