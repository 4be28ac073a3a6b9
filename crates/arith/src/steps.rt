// A step: an exact value is rounded by a rule, and then its range is looked at.
ghost use Rattle.std.specs.Prelude.{◌≡◌};
ghost use Rattle.exact.specs.Exact.{HasPrecision, ◌⊞◌, ◌⊟◌};
ghost use Rattle.rounding.specs.Values.{exact_value, RoundsAs};
ghost use Rattle.arith.specs.Number.{parts_by};
ghost use Rattle.arith.specs.Step.{stepped, RightlyRounded, LossHasPrecision};
ghost use Rattle.arith.specs.Term.{term_value, scaled_term};

use crate::fault::RangeFault;
use crate::format::{NamedFormat, precision};
use crate::number::Number;
use crate::of_format::OfFormat;
use crate::term::Term;
use rounding::{Addend, Rule, Unrounded};
use std::marker::PhantomData;

// One step by its definition: the value is rounded, and then its range is looked at. A zero is a result.
fn round_and_judge<F: NamedFormat, R: Rule>(t: Unrounded) -> Result<Number<F>, RangeFault>
    ensures { parts_by result ≡ stepped F.format R.Rule.rn (exact_value t) }
{
    let (significand, exponent) = R::round(precision::<F>(), t);
    let emax = F::format().emax as i32;
    if significand == 0 {
        return Ok(Number::zero());
    }
    if exponent > emax {
        return Err(RangeFault::Above);
    }
    if exponent < 1 - emax {
        return Err(RangeFault::Below);
    }
    Ok(Number {
        negative: t.is_negative(),
        significand,
        exponent,
        format: OfFormat(PhantomData),
    })
}

// The sum of two terms as a rule is given it. This and the next two are one call each, and stand apart from the steps since a must-fail
// edit of them has to fail here, and not at the proof of a step's laws.
fn sum_of<F: NamedFormat>(x: Term<F>, y: Term<F>) -> Unrounded
    ensures { RoundsAs result (scaled_term x ⊞ scaled_term y) }
{
    Unrounded::sum(x.into(), y.into())
}

// The difference, likewise.
fn difference_of<F: NamedFormat>(x: Term<F>, y: Term<F>) -> Unrounded
    ensures { RoundsAs result (scaled_term x ⊟ scaled_term y) }
{
    Unrounded::difference(x.into(), y.into())
}

// A term alone, likewise.
fn unrounded_of<F: NamedFormat>(x: Term<F>) -> Unrounded
    ensures { exact_value result ≡ scaled_term x }
{
    Unrounded::from(Addend::from(x))
}

// One step on an exact value.
pub fn step<F: NamedFormat, R: Rule>(t: Unrounded) -> Result<Number<F>, RangeFault>
    ensures defined { parts_by result ≡ stepped F.format R.Rule.rn (exact_value t) }
    ensures rightly_rounded { RightlyRounded F.format (exact_value t) (parts_by result) }
{
    round_and_judge::<F, R>(t)
}

// One step on a term.
pub fn step_term<F: NamedFormat, R: Rule>(x: Term<F>) -> Result<Number<F>, RangeFault>
    ensures defined { parts_by result ≡ stepped F.format R.Rule.rn (term_value x) }
    ensures rightly_rounded { RightlyRounded F.format (term_value x) (parts_by result) }
    ensures loss_has_precision { LossHasPrecision F.format (term_value x) (parts_by result) }
{
    round_and_judge::<F, R>(unrounded_of(x))
}

// One step on the sum of two terms.
pub fn step_sum<F: NamedFormat, R: Rule>(x: Term<F>, y: Term<F>) -> Result<Number<F>, RangeFault>
    ensures defined { parts_by result ≡ stepped F.format R.Rule.rn (term_value x ⊞ term_value y) }
    ensures rightly_rounded { RightlyRounded F.format (term_value x ⊞ term_value y) (parts_by result) }
    ensures loss_has_precision { HasPrecision F.format.precision (term_value x) → HasPrecision F.format.precision (term_value y) → LossHasPrecision F.format (term_value x ⊞ term_value y) (parts_by result) }
{
    round_and_judge::<F, R>(sum_of(x, y))
}

// One step on the difference of two terms. As step_sum(x, -y) it proves too, but only with an answer at which an edit that exchanges the
// terms fails first, so the edit would not test the code.
pub fn step_difference<F: NamedFormat, R: Rule>(
    x: Term<F>,
    y: Term<F>,
) -> Result<Number<F>, RangeFault>
    ensures defined { parts_by result ≡ stepped F.format R.Rule.rn (term_value x ⊟ term_value y) }
    ensures rightly_rounded { RightlyRounded F.format (term_value x ⊟ term_value y) (parts_by result) }
    ensures loss_has_precision { HasPrecision F.format.precision (term_value x) → HasPrecision F.format.precision (term_value y) → LossHasPrecision F.format (term_value x ⊟ term_value y) (parts_by result) }
{
    round_and_judge::<F, R>(difference_of(x, y))
}
