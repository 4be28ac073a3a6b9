// To the nearest number of a precision: one text, whatever is taken midway.
ghost use Rattle.std.specs.Prelude.{◌≡◌, suc, ◌+◌, ◌*◌, ◌/◌, ◌%◌, ◌^◌, ◌<◌, ◌≤◌, pos, negsuc, ◌+ℤ◌, ◌-ℤ◌, ◌≤ℤ◌, if◌then◌else◌};
ghost use Prim.Native.Nat.{compare};
ghost use Rattle.std.specs.Float.Ieee.{size as digits_of};
ghost use Rattle.exact.specs.Exact.{is_negative};
ghost use Rattle.exact.specs.Parts.{parts};
ghost use Rattle.exact.specs.Ties.{pick, nearest_by};
ghost use Rattle.rounding.specs.Values.{exact_value};

use crate::dyadic::Unrounded;
use crate::precision::Precision;
use crate::rule::TieBreak;

// How many binary digits n has.
fn digits(n: u128) -> u32
    ensures defined { result ≡ digits_of n }
    ensures few { result ≤ 128 }
{
    u128::BITS - n.leading_zeros()
}

// q or q + 1, whichever is nearer to the value between them that is q and a rest, where two halves make one whole step from q to
// q + 1. Midway T chooses.
fn nearer<T: TieBreak>(q: u32, rest: u128, half: u128) -> u32
    requires { q < 2 ^ 24 }
    ensures below { rest < half → result ≡ q }
    ensures above { half < rest → result ≡ suc q }
    ensures midway { rest ≡ half → result ≡ (if T.TieBreak.upper q then suc q else q) }
{
    if rest < half {
        q
    } else if rest > half || T::takes_upper(q) {
        q + 1
    } else {
        q
    }
}

// n without its last k digits, to the nearer side.
fn cut<T: TieBreak>(n: u128, k: u32) -> u32
    requires some { 0 < k }
    requires few { k < 127 }
    requires short { n < 2 ^ (24 + k) }
    ensures { result ≡ pick T.TieBreak.upper (n / 2 ^ k) (compare (n % 2 ^ k * 2) (2 ^ k)) }
{
    let q = n >> k;
    nearer::<T>(q as u32, n - (q << k), 1 << (k - 1))
}

// The exponent of the first of n digits, the last of which stands for 2 ^ e. An exact value has its e between −400 and 400.
fn first_exponent(e: i32, n: u32) -> i32
    requires low { negsuc 399 ≤ℤ e }
    requires high { e ≤ℤ pos 400 }
    requires few { n ≤ 128 }
    ensures { result ≡ e +ℤ pos n -ℤ pos 1 }
{
    e + n as i32 - 1
}

// A significand that has grown to 2 ^ p is halved, and its exponent is one larger: a carry into the next binade.
fn carried(p: Precision, m: u32, e: i32) -> (u32, i32)
    requires low { negsuc 599 ≤ℤ e }
    requires high { e ≤ℤ pos 600 }
    ensures kept { m / 2 ^ p.bits ≡ 0 → (result.0 ≡ m) × (result.1 ≡ e) }
    ensures halved { 0 < m / 2 ^ p.bits → (result.0 ≡ m / 2) × (result.1 ≡ e +ℤ pos 1) }
{
    if m >> p.bits == 0 {
        (m, e)
    } else {
        (m / 2, e + 1)
    }
}

// To the nearest number of precision p, and midway by T: the significand and the exponent.
pub(crate) fn to_nearest<T: TieBreak>(p: Precision, t: Unrounded) -> (u32, i32)
    ensures { parts (is_negative t.whole) result.0 result.1 ≡ nearest_by T.TieBreak.upper p.bits (exact_value t) }
{
    let size = t.whole.unsigned_abs();
    if size == 0 {
        return (0, 0);
    }
    let n = digits(size);
    let e = first_exponent(t.exponent, n);
    if n <= p.bits {
        return ((size << (p.bits - n)) as u32, e);
    }
    carried(p, cut::<T>(size, n - p.bits), e)
}
