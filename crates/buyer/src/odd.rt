// Midway the odd significand: the rule is `Nearest<ToOdd>`.
ghost use Rattle.std.specs.Prelude.{◌≡◌};
ghost use Rattle.exact.specs.Ties.{nearest_by};
ghost use Rattle.arith.specs.Complex.{complex_by, complex_parts, complex_sum};
ghost use Rattle.buyer.specs.Rules.{to_odd};

use arith::{Complex, NamedFormat, Number, StepFault};
use rounding::{Nearest, TieBreak};

#[derive(Clone, Copy)]
pub struct ToOdd;

impl TieBreak for ToOdd {
    ghost upper = { to_odd };

    fn takes_upper(q: u32) -> bool {
        q % 2 == 0
    }
}

// The library's sum in the format F, by this rule.
pub fn sum_to_odd<F: NamedFormat>(
    x: Complex<Number<F>>,
    y: Complex<Number<F>>,
) -> Result<Complex<Number<F>>, StepFault>
    ensures { complex_by result ≡ complex_sum F.format (nearest_by to_odd) (complex_parts x) (complex_parts y) }
{
    x.plus::<Nearest<ToOdd>>(y)
}
