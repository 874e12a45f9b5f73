// Counts what was compared, and shows the first differences.
use std::fmt;

// One answer that was compared; whether it agrees is not told by the two numbers alone.
#[derive(Clone, Copy)]
pub(crate) struct Seen {
    pub(crate) expected: u64,
    pub(crate) answer: u64,
    pub(crate) agrees: bool,
}

impl Seen {
    // An answer that agrees where it is the one expected.
    pub(crate) fn answered(expected: u64, answer: u64) -> Self {
        Self {
            expected,
            answer,
            agrees: expected == answer,
        }
    }

    // The same, which agrees only where the monitor is left as it should be.
    pub(crate) fn and_left(self, left: bool) -> Self {
        Self {
            agrees: self.agrees && left,
            ..self
        }
    }
}

impl fmt::Display for Seen {
    fn fmt<W: fmt::Write>(&self, f: &mut fmt::Formatter<W>) -> fmt::Result {
        let Seen {
            expected,
            answer,
            ..
        } = *self;
        write!(f, "expected {expected}, answered {answer}")?;
        if expected == answer {
            write!(f, " and left another monitor")?;
        }
        Ok(())
    }
}

// What was compared so far of one kind of record.
#[derive(Clone, Copy, Default)]
pub(crate) struct Tally {
    compared: u64,
    differ: u64,
}

impl Tally {
    // Differences that are shown.
    const SHOWN: u64 = 5;

    // One more answer to a record of this number, shown where it does not agree.
    pub(crate) fn add(&mut self, rt: &impl Print, record: u64, seen: Seen) {
        self.compared = self.compared.saturating_add(1);
        if seen.agrees {
            return;
        }
        if self.differ < Self::SHOWN {
            // One that could not be shown is counted all the same.
            let _ = println!(rt; "record {record}: {seen}");
        }
        self.differ = self.differ.saturating_add(1);
    }
}

impl fmt::Display for Tally {
    fn fmt<W: fmt::Write>(&self, f: &mut fmt::Formatter<W>) -> fmt::Result {
        let Tally { compared, differ } = *self;
        write!(f, "{compared} compared, {differ} differ")
    }
}
