// The check of a trace: refusal 15, then 13 at the lowest cycle.
ghost use Rattle.std.specs.Prelude.{◌≡◌};
ghost use Rattle.trace.specs.Refusals.{undeclared, declared_of, trace_reply, file_reply};

use crate::header::Header;
use crate::samples::sample_at;
use table::{Cause, Refusal};

// The cycles of a right trace, whose samples stay in the lent bytes, or the refusal.
pub fn check_trace(bytes: &[u8], signals: u8) -> Result<u32, Refusal>
    ensures { trace_reply result ≡ file_reply signals bytes.now }
{
    let header = Header::new(bytes);
    if !header.is_right(signals, bytes.len()) {
        return Err(Cause::TraceWrong.at(0));
    }
    declared(bytes, signals, header.cycles)
}

// Refusal 13 at the lowest cycle whose sample sets a bit that is not declared. A run of `table` is another: its places are bytes, counted from 0.
fn declared(bytes: &[u8], signals: u8, cycles: u32) -> Result<u32, Refusal>
    ensures { result ≡ declared_of signals bytes.now cycles }
{
    for i in 0..cycles {
        if is_undeclared(sample_at(bytes, i), signals) {
            return Err(Cause::SignalUndeclared.at(i + 1));
        }
    }
    Ok(cycles)
}

// Whether a sample sets a bit S or above.
fn is_undeclared(sample: u32, signals: u8) -> bool
    ensures { result ≡ undeclared signals sample }
{
    words::has_from(u64::from(sample), signals)
}
