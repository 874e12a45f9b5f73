// The samples of a trace, in the lent bytes.
ghost use Rattle.std.specs.Prelude.{◌≡◌};
ghost use Rattle.trace.specs.Trace.{cycles_of, sample_at};

use crate::header::Header;

// The cycles that the header states.
#[tactic(auto, unfolding(crate::specs::Trace::cycles_of))]
pub fn cycles_of(bytes: &[u8]) -> u32
    ensures { result ≡ cycles_of bytes.now }
{
    little::u32_at(bytes, 4)
}

// The sample of a cycle, counted from 0.
#[tactic(auto, unfolding(crate::specs::Trace::sample_at))]
pub fn sample_at(bytes: &[u8], index: u32) -> u32
    ensures { result ≡ sample_at bytes.now index }
{
    little::u32_in(bytes, Header::SIZE, index)
}
