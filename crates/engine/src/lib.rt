// One cycle of a property: passes over its rows, with no recursion and no look at past cycles.

#![tactic(auto)]

mod bits;
mod by_row;
pub mod cycle;
mod families;
mod kinds;
pub mod plan;
mod properties;
mod row;
mod rows;
mod side_flags;
mod sides;
mod truths;
mod weak_parts;
mod weak_uses;

pub use sides::Live;
