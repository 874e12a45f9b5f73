// The header of a trace: refusal 15.
ghost use Rattle.std.specs.Prelude.{◌≡◌};
ghost use Rattle.trace.specs.Refusals.{header_of, header_right};

use little::{u16_at, u32_at};

#[derive(Clone, Copy, PartialEq, Eq)]
pub struct Header {
    pub version: u16,
    pub signals: u16,
    pub cycles: u32,
    pub offset: u32,
}

impl Header {
    // The most cycles of a trace.
    pub const CYCLES: u32 = 16_381;

    // The bytes of a header, and of the longest trace.
    pub const SIZE: u32 = 12;

    pub const BYTES: usize = (Self::SIZE as usize) + 4 * (Self::CYCLES as usize);

    // The header that stands at the start of the bytes.
    #[tactic(auto, unfolding(crate::specs::Refusals::header_of, crate::specs::Trace::cycles_of))]
    pub fn new(bytes: &[u8]) -> Self
        ensures { result ≡ header_of bytes.now }
    {
        Self {
            version: u16_at(bytes, 0),
            signals: u16_at(bytes, 2),
            cycles: u32_at(bytes, 4),
            offset: u32_at(bytes, 8),
        }
    }

    // Whether it is that of a right trace of so many signals, which is so long.
    #[tactic(auto, unfolding(crate::specs::Refusals::header_right))]
    pub fn is_right(self, signals: u8, length: usize) -> bool
        ensures { result ≡ header_right self signals length }
    {
        (self.version == 1)
            & (self.signals == u16::from(signals))
            & (self.cycles <= Self::CYCLES)
            & (self.offset == Self::SIZE)
            // `usize` has no `From` of `u32`
            & (length == (Self::SIZE as usize) + 4 * (self.cycles as usize))
    }
}
