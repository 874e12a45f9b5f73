// Steps a monitor, and a copy of it that is lent to the per-cycle entry.
use crate::tally::Seen;
use host::answer_number;
use monitor::{Monitor, Stepped};

// What `step` says of one sample; and whether `advance` answers the same and leaves the same monitor.
pub(crate) fn both_step(table: &[u8], monitor: Monitor, sample: u32) -> (Stepped, Seen) {
    let stepped = monitor::step(table, monitor, sample);
    let mut lent = monitor;
    let answer = answer_number(monitor::advance(table, &mut lent, sample));
    let seen = Seen::answered(answer_number(stepped.answer), answer);
    (stepped, seen.and_left(stepped.monitor == lent))
}
