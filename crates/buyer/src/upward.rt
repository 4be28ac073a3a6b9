// Midway the larger value: this choice is not the same for t and for −t, so it is no tie-break over significands.
ghost use Rattle.buyer.specs.Rules.{upward};
ghost use Rattle.buyer.specs.BySign.{upward_rounds};

use rounding::{AwayFromZero, Nearest, Precision, Rule, TowardZero, Unrounded};

// To the nearest number, and midway to the one that is not below: away from zero above it, toward zero below it.
#[derive(Clone, Copy)]
pub struct TiesUpward;

impl Rule for TiesUpward {
    ghost rn = { upward };

    ghost rounds = { upward_rounds };

    fn round(p: Precision, t: Unrounded) -> (u32, i32) {
        if t.is_negative() {
            Nearest::<TowardZero>::round(p, t)
        } else {
            Nearest::<AwayFromZero>::round(p, t)
        }
    }
}
