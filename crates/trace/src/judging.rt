// Judging a trace: refusals 1 to 11, 12, 15, 13; else the last verdict that an opened monitor gives, fed the samples one by one.
ghost use Rattle.monitor.specs.Follows.{answer_reply};
ghost use Rattle.trace.specs.Trace.{cycles_of};
ghost use Rattle.trace.specs.Judging.{Judged};
ghost use Rattle.trace.specs.Feeding.{Last};

use crate::reader::TraceReader;
use crate::refusals::check_trace;
use monitor::{Monitor, Opened, Verdict, step_lent};
use table::Refusal;

// The verdict after all samples. The monitor is taken apart, so that its families are stepped where they lie.
fn last(table: &[u8], trace: &[u8], monitor: Monitor) -> Verdict
    ensures { Last table.now trace.now monitor (cycles_of trace.now) result }
{
    let plan = monitor.plan;
    let mut stand = monitor.stand;
    let mut families = monitor.families;
    let reader = TraceReader::new(trace);
    for sample in reader {
        stand = step_lent(table, plan, stand, sample, &mut families).stand;
    }
    stand.verdict
}

pub fn judge(table: &[u8], trace: &[u8], property: u32) -> Result<Verdict, Refusal>
    ensures { Judged table.now trace.now property (answer_reply result) }
{
    let Opened { answer, monitor } = monitor::open(table, property);
    let counts = answer?;
    check_trace(trace, counts.signals)?;
    Ok(last(table, trace, monitor))
}
