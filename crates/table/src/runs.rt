// The first refusal of a run: one rule, tried at each place from 0 on.
ghost use Rattle.std.specs.Prelude.{ℕ, ◌<◌};
ghost use Rattle.table.specs.First.{FirstOf};

use crate::{Cause, Refusal};

pub(crate) fn first<F: Fn(u8) -> Result<(), Cause>>(count: u8, rule: F) -> Result<(), Refusal>
    requires { (place : ℕ) → place < count → F.pre rule place }
    ensures { FirstOf (F.post rule) count result }
{
    for place in 0..count {
        if let Err(cause) = rule(place) {
            return Err(cause.at(u32::from(place)));
        }
    }
    Ok(())
}
