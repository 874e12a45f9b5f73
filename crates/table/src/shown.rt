// How a refusal is shown: the line that the programs write.
ghost use Rattle.std.specs.Prelude.{Some};
ghost use Rattle.table.specs.Shown.{refusal_text};

use crate::Refusal;
use std::fmt;

impl fmt::Display for Refusal {
    ghost output = { λ refusal. Some (refusal_text refusal) };

    fn fmt<W: fmt::Write>(&self, f: &mut fmt::Formatter<W>) -> fmt::Result {
        let Refusal { number, place } = *self;
        write!(f, "refused {number} {place}")
    }
}
