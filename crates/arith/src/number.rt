// Numbers of a format. What a number of the format is stands in the type, so no other value can be built.
ghost use Rattle.std.specs.Prelude.{◌≡◌, ⊤, ◌*◌, ◌^◌, ◌<◌, ◌≤◌, false, pos, ◌-ℤ◌, ◌≤ℤ◌};

use crate::format::NamedFormat;
use crate::of_format::OfFormat;
use std::alloc::AllocError;
use std::marker::PhantomData;
use std::ops::Neg;

// A number of the format F: zero, or plus or minus significand · 2 ^ (exponent − precision + 1).
pub struct Number<F: NamedFormat> {
    // the sign bit: a number has a sign, a significand and an exponent, as its pattern has, and zero has no sign. As one signed number it
    // would be taken apart again for each pattern.
    pub(crate) negative: bool,
    pub(crate) significand: u32,
    pub(crate) exponent: i32,
    pub(crate) format: OfFormat<F>,
    // at most as many digits as the precision, and no fewer unless it is zero:
    // 2 ^ p ≤ 2 · m says that 2 ^ (p − 1) ≤ m, without a subtraction
    ghost short: { significand < 2 ^ F.format.precision },
    ghost full: { (0 < significand → 2 ^ F.format.precision ≤ 2 * significand) },
    // zero has one form: it is not negative, and its exponent is 0
    ghost plain: { (significand ≡ 0 → negative ≡ false) },
    ghost flat: { (significand ≡ 0 → exponent ≡ pos 0) },
    // the exponent is in the format's range
    ghost low: { (pos 1 -ℤ pos F.format.emax) ≤ℤ exponent },
    ghost high: { exponent ≤ℤ pos F.format.emax },
}

// By hand, since no derive copies a struct that has ghost fields about a type parameter.
impl<F: NamedFormat> Clone for Number<F> {
    ghost is_clone = { λ x y. y ≡ x };

    ghost is_infallible = { λ _. ⊤ };

    fn clone(&self) -> Result<Number<F>, AllocError> {
        Ok(*self)
    }
}

impl<F: NamedFormat> Copy for Number<F> {}

// The number with the other sign; zero stays as it is.
impl<F: NamedFormat> Neg for Number<F> {
    type Output = Number<F>;

    ghost use Rattle.exact.specs.Exact.{negated};
    ghost use Rattle.arith.specs.Number.{value_of};

    ghost neg_gives = { λ x r. value_of r ≡ negated (value_of x) };

    fn neg(self) -> Number<F> {
        Number {
            negative: self.significand > 0 && !self.negative,
            significand: self.significand,
            exponent: self.exponent,
            format: OfFormat(PhantomData),
        }
    }
}

impl<F: NamedFormat> Number<F> {
    ghost use Rattle.std.specs.Prelude.{unsigned_abs, negsuc, ◌+ℤ◌};
    ghost use Rattle.exact.specs.Exact.{signed_by};

    // The significand with the sign.
    pub(crate) fn signed(self) -> i128
        ensures value { result ≡ signed_by self.negative self.significand }
        ensures short { unsigned_abs result < 2 ^ 24 }
    {
        let size = self.significand as i128;
        if self.negative { -size } else { size }
    }

    // The exponent of the last digit, which lies well within −150 and 150 in every format.
    pub(crate) fn last_exponent(self) -> i32
        ensures value { result ≡ self.exponent +ℤ pos 1 -ℤ pos F.format.precision }
        ensures low { negsuc 149 ≤ℤ result }
        ensures high { result ≤ℤ pos 150 }
    {
        self.exponent + 1 - F::format().precision as i32
    }
}
