// A reader over a lent trace: it holds the bytes and the place of the next sample, and gives one sample after the other.
ghost use Rattle.std.specs.Prelude.{◌≡◌, ◌-◌};
ghost use Rattle.std.specs.Iterator.{at_most};
ghost use Rattle.trace.specs.Trace.{cycles_of};
ghost use Rattle.trace.specs.Reader.{reading_at, gives, moved};

use crate::samples::{cycles_of, sample_at};

#[derive(Clone, Copy, Drop)]
pub struct TraceReader<'a> {
    pub bytes: &'a [u8],
    pub at: u32,
}

// What a reader gives, and the place where it stands then.
#[derive(Clone, Copy, PartialEq, Eq)]
pub struct Reading {
    pub next: Option<u32>,
    pub at: u32,
}

// The work: what a reader at a place gives.
#[tactic(auto, using(crate::specs::Readings::reading_more, crate::specs::Readings::reading_none))]
pub fn reading_at(bytes: &[u8], at: u32) -> Reading
    ensures { result ≡ reading_at bytes.now at }
{
    if at < cycles_of(bytes) {
        Reading {
            next: Some(sample_at(bytes, at)),
            at: at + 1,
        }
    } else {
        Reading { next: None, at }
    }
}

impl<'a> TraceReader<'a> {
    // A reader at the first sample.
    pub fn new(bytes: &'a [u8]) -> TraceReader<'a>
        ensures { (result.bytes ≡ bytes.entry) × (result.at ≡ 0) }
    {
        TraceReader { bytes, at: 0 }
    }
}

impl<'a> Iterator for TraceReader<'a> {
    type Item = u32;

    ghost next_gives = { λ reader result after. (result ≡ gives reader) × (after ≡ moved reader) };

    ghost remaining = { λ reader. at_most (cycles_of reader.bytes.now - reader.at) };

    // Gives the sample at its place, and stands at the next one then.
    fn next(&mut self) -> Option<u32> {
        let reading = reading_at(self.bytes, self.at);
        self.at = reading.at;
        reading.next
    }
}

// What a reader at a place gives, for whoever has the bytes and the place.
pub fn next_at(bytes: &[u8], at: u32) -> Option<u32>
    ensures { result ≡ (reading_at bytes.now at).next }
{
    TraceReader { bytes, at }.next()
}
