// What was compared, by the kind of a record.
use crate::reading::{Cut, Kind, Record};
use crate::states::{State, any_step, steps_on};
use crate::steps::Watch;
use crate::tally::{Seen, Tally};
use monitor::Monitor;
use std::fmt;

// The records so far and what was compared of them; the last monitor that was opened, and what was compared of its steps.
#[derive(Clone, Copy)]
pub(crate) struct Compared {
    pub(crate) records: u64,
    checks: Tally,
    judged: Tally,
    states: Tally,
    last: Watch,
}

impl Compared {
    pub(crate) fn new() -> Self {
        Self {
            records: 0,
            checks: Tally::default(),
            judged: Tally::default(),
            states: Tally::default(),
            last: Watch::new(Monitor::from(&State::new())),
        }
    }

    // One step of any monitor is compared, and the further ones end.
    fn add_any(&mut self, rt: &impl Print, m: Monitor, record: Record<'_>) {
        self.states.add(rt, record.number, any_step(m, record));
        steps_on(rt, &mut self.last.lent, m, record);
    }

    // The answers to one record more.
    pub(crate) fn add(&mut self, rt: &(impl Input + Print), record: Record<'_>) -> Result<(), Cut> {
        self.records = record.number;
        let Record {
            number,
            head,
            table,
            trace,
        } = record;
        match Kind::try_from(head.kind)? {
            Kind::Check => {
                let seen = Seen::answered(head.expected, host::check(table));
                self.checks.add(rt, number, seen);
            }
            Kind::Judge => {
                let answer = host::judge(table, trace, head.property);
                let seen = Seen::answered(head.expected, answer);
                self.judged.add(rt, number, seen);
            }
            Kind::Steps => {
                self.last.open(rt, record);
                self.last.feed(rt, record);
            }
            Kind::State => self.add_any(rt, Monitor::from(&State::next(rt)), record),
            Kind::Stray => self.add_any(rt, self.last.monitor, record),
            // The last monitor goes on with other bytes; its answers are expected one by one.
            Kind::Shut => self.last.feed(rt, record),
        }
        Ok(())
    }
}

impl fmt::Display for Compared {
    fn fmt<W: fmt::Write>(&self, f: &mut fmt::Formatter<W>) -> fmt::Result {
        let last = self.last;
        writeln!(f, "check: {}", self.checks)?;
        writeln!(f, "judge: {}", self.judged)?;
        writeln!(f, "steps: {}", last.steps)?;
        writeln!(f, "states: {}", self.states)?;
        write!(f, "advance: {}", last.lent)
    }
}
