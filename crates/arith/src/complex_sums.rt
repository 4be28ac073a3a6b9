// Sums and differences of complex numbers: two steps each, the real part first.
ghost use Rattle.std.specs.Prelude.{◌≡◌};
ghost use Rattle.exact.specs.Exact.{◌⊞◌, ◌⊟◌};
ghost use Rattle.arith.specs.Complex.{complex_parts, complex_by, complex_sum, complex_difference, at_step, BothRightlyRounded};
ghost use Rattle.arith.specs.Number.{parts_by, value_of};

use crate::complex::Complex;
use crate::fault::{RangeFault, StepFault};
use crate::format::NamedFormat;
use crate::number::Number;
use crate::steps::step_sum;
use rounding::Rule;

// The number that a step answers, or its refusal with the step's number.
fn at_step<F: NamedFormat>(
    answer: Result<Number<F>, RangeFault>,
    step: u32,
) -> Result<Number<F>, StepFault>
    ensures { parts_by result ≡ at_step step (parts_by answer) }
{
    answer.map_err(|fault| StepFault { fault, step })
}

// The sum, by its definition.
fn sum_in_steps<F: NamedFormat, R: Rule>(
    x: Complex<Number<F>>,
    y: Complex<Number<F>>,
) -> Result<Complex<Number<F>>, StepFault>
    ensures { complex_by result ≡ complex_sum F.format R.Rule.rn (complex_parts x) (complex_parts y) }
{
    let re = at_step(step_sum::<F, R>(x.re.into(), y.re.into()), 1)?;
    let im = at_step(step_sum::<F, R>(x.im.into(), y.im.into()), 2)?;
    Ok(Complex { re, im })
}

impl<F: NamedFormat> Complex<Number<F>> {
    // The sum by the rule R.
    pub fn plus<R: Rule>(self, other: Complex<Number<F>>) -> Result<Complex<Number<F>>, StepFault>
        ensures defined { complex_by result ≡ complex_sum F.format R.Rule.rn (complex_parts self) (complex_parts other) }
        ensures rightly_rounded { BothRightlyRounded F.format (value_of self.re ⊞ value_of other.re) (value_of self.im ⊞ value_of other.im) (complex_by result) }
    {
        sum_in_steps::<F, R>(self, other)
    }

    // The difference by the rule R.
    pub fn minus<R: Rule>(self, other: Complex<Number<F>>) -> Result<Complex<Number<F>>, StepFault>
        ensures defined { complex_by result ≡ complex_difference F.format R.Rule.rn (complex_parts self) (complex_parts other) }
        ensures rightly_rounded { BothRightlyRounded F.format (value_of self.re ⊟ value_of other.re) (value_of self.im ⊟ value_of other.im) (complex_by result) }
    {
        self.plus::<R>(-other)
    }
}
