// Rounding to nearest: the exact value that a step rounds, and the rules that round it.
// Read rule.rt first: it has the trait of rounding rules and the three rules. nearest.rt is their one text. dyadic.rt and
// sum.rt build the exact value. What the contracts mean stands in specs/Values.antt and in the definitions of `exact`.
#![tactic(auto)]

mod dyadic;
mod nearest;
mod precision;
mod rule;
mod sum;

pub use dyadic::{Addend, Dyadic, Unrounded};
pub use precision::Precision;
pub use rule::{AwayFromZero, Nearest, Rule, TieBreak, ToEven, TowardZero};
