// Exact values as the code holds them: whole numbers times powers of two, within limits.
ghost use Rattle.std.specs.Prelude.{◌^◌, ◌<◌, pos, neg_ℤ, ◌≤ℤ◌, unsigned_abs};

use std::ops::Neg;

// The exact value whole · 2 ^ exponent, with at most DIGITS binary digits, and an exponent from −REACH to REACH.
#[derive(Clone, Copy)]
pub struct Dyadic<const DIGITS: u32, const REACH: u32> {
    pub whole: i128,
    pub exponent: i32,
    ghost short: { unsigned_abs whole < 2 ^ DIGITS },
    ghost low: { neg_ℤ (pos REACH) ≤ℤ exponent },
    ghost high: { exponent ≤ℤ pos REACH },
}

// What an exact sum is made of: a number, or a product of two. Two significands of 24 digits have a product of 48. With exponents from
// −126 to 127 and 1 to 24 digits, the last digits of numbers have exponents from −149 to 127, those of products twice that.
pub type Addend = Dyadic<48, 300>;

// What a rule is given. A sum of two addends that are at most 76 digits apart has 125 digits, and its exponent is that of an addend, or
// 30 less.
pub type Unrounded = Dyadic<126, 400>;

impl<const DIGITS: u32, const REACH: u32> Dyadic<DIGITS, REACH> {
    ghost use Rattle.std.specs.Prelude.{◌≡◌};
    ghost use Rattle.exact.specs.Exact.{is_negative};

    // Whether the value is below zero.
    pub fn is_negative(self) -> bool
        ensures { result ≡ is_negative self.entry.whole }
    {
        self.whole < 0
    }
}

// The addend with the other sign; zero stays as it is.
impl Neg for Addend {
    type Output = Addend;

    ghost use Rattle.std.specs.Prelude.{◌≡◌};
    ghost use Rattle.exact.specs.Exact.{negated};
    ghost use Rattle.rounding.specs.Values.{exact_value};

    ghost neg_gives = { λ x r. exact_value r ≡ negated (exact_value x) };

    fn neg(self) -> Addend {
        Addend {
            whole: -self.whole,
            exponent: self.exponent,
        }
    }
}

impl From<Addend> for Unrounded {
    ghost use Rattle.std.specs.Prelude.{◌≡◌};
    ghost use Rattle.rounding.specs.Values.{exact_value};

    ghost from_gives = { λ x t. exact_value t ≡ exact_value x };

    fn from(x: Addend) -> Unrounded {
        Unrounded {
            whole: x.whole,
            exponent: x.exponent,
        }
    }
}
