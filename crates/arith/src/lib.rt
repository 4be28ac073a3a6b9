// Arithmetic in short binary numbers: the formats, their numbers and bit patterns, the steps that round and look at the range, and
// sums and differences of complex numbers.
// Read format.rt, number.rt and pattern.rt beside specs/Format.antt and specs/Pattern.antt, and then term.rt, steps.rt and complex_sums.rt
// beside specs/Term.antt, specs/Step.antt and specs/Complex.antt, which say what the contracts mean.
#![tactic(auto)]

mod complex;
mod complex_sums;
mod fault;
mod format;
mod number;
mod of_format;
mod pattern;
mod steps;
mod term;

pub use complex::Complex;
pub use fault::{RangeFault, StepFault};
pub use format::{Bfloat16, Binary16, Binary32, Format, NamedFormat, precision};
pub use number::Number;
pub use pattern::PatternFault;
pub use steps::{step, step_difference, step_sum, step_term};
pub use term::Term;
