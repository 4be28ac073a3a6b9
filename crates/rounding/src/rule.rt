// Rounding rules: what a rule is, and the rules that differ only midway between two neighbours. Three of them are
// `Nearest<ToEven>`, `Nearest<AwayFromZero>` and `Nearest<TowardZero>`.
ghost use Rattle.std.specs.Prelude.{◌≡◌, ℕ, ◌<◌, Bool};
ghost use Rattle.exact.specs.Exact.{Exact, is_negative};
ghost use Rattle.exact.specs.Parts.{Parts, parts};
ghost use Rattle.exact.specs.Rounding.{Rounding};
ghost use Rattle.exact.specs.Ties.{nearest_by, to_even, away_from_zero, toward_zero};
ghost use Rattle.rounding.specs.Values.{exact_value};
ghost use Rattle.exact.proofs.Rules.{every_tie_rounds};

use crate::dyadic::Unrounded;
use crate::nearest::to_nearest;
use crate::precision::Precision;

// A rounding rule. Its meaning is rn, over the precision and the exact value; owed is that this is a rounding to nearest that
// depends on the value alone. It refuses nothing and changes nothing. Its free choice is which of two numbers it takes where the value
// lies midway between them; everywhere else all rules agree.
pub trait Rule {
    ghost rn: { ℕ → Exact → Parts };

    // The significand and the exponent, a pair that a step takes apart at once; the sign is that of t.
    fn round(p: Precision, t: Unrounded) -> (u32, i32)
        ensures { parts (is_negative t.whole) result.0 result.1 ≡ rn p.bits (exact_value t) };

    ghost rounds: { (p : ℕ) → 0 < p → Rounding p (rn p) };
}

// The choice that a rule is free in: midway between the significands q and q + 1, whether it takes q + 1.
pub trait TieBreak {
    ghost upper: { ℕ → Bool };

    fn takes_upper(q: u32) -> bool
        ensures { result ≡ upper q };
}

// The rule that takes the nearest number, and midway the one of the tie-break: one text for every tie-break, those below and any
// other. It is named as a type, `Nearest<ToEven>`, and no value of it is needed.
#[derive(Clone, Copy)]
pub struct Nearest<T> {
    pub ties: T,
}

impl<T: TieBreak> Rule for Nearest<T> {
    ghost rn = { nearest_by T.TieBreak.upper };

    ghost rounds = { every_tie_rounds T.TieBreak.upper };

    fn round(p: Precision, t: Unrounded) -> (u32, i32) {
        to_nearest::<T>(p, t)
    }
}

// Midway the even significand.
#[derive(Clone, Copy)]
pub struct ToEven;

impl TieBreak for ToEven {
    ghost upper = { to_even };

    fn takes_upper(q: u32) -> bool {
        q % 2 == 1
    }
}

// Midway the larger magnitude.
#[derive(Clone, Copy)]
pub struct AwayFromZero;

impl TieBreak for AwayFromZero {
    ghost upper = { away_from_zero };

    fn takes_upper(q: u32) -> bool {
        true
    }
}

// Midway the smaller magnitude.
#[derive(Clone, Copy)]
pub struct TowardZero;

impl TieBreak for TowardZero {
    ghost upper = { toward_zero };

    fn takes_upper(q: u32) -> bool {
        false
    }
}
