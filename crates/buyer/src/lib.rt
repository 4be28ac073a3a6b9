// Rounding rules from outside the library, as worked examples of what a buyer writes.
// odd.rt gives a tie-break and gets its rule from the library; upward.rt is a rule of its own, which owes its law itself.
#![tactic(auto)]

mod odd;
mod upward;

pub use odd::{ToOdd, sum_to_odd};
pub use upward::TiesUpward;
