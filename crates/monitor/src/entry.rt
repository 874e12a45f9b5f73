// The per-cycle entry: it updates the one monitor that the recorder lends it. All that it does is done by `step`.
ghost use Rattle.monitor.specs.Follows.{answer_reply, StepIs};

use crate::{Monitor, Verdict, step};
use table::Refusal;

pub fn advance(table: &[u8], monitor: &mut Monitor, sample: u32) -> Result<Verdict, Refusal>
    ensures { StepIs table.now monitor.old sample (answer_reply result) monitor.new }
{
    let stepped = step(table, *monitor, sample);
    *monitor = stepped.monitor;
    stepped.answer
}
