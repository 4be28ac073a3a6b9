// Exact sums of one or two addends, as far as any rounding to at most 24 digits can tell.
ghost use Rattle.std.specs.Prelude.{◌≡◌, ◌+◌, ◌^◌, ◌<◌, unsigned_abs, ◌*ℤ◌, pos, ◌+ℤ◌, ◌≤ℤ◌, ◌≢◌};
ghost use Rattle.std.specs.Int.{int_signum};
ghost use Rattle.exact.specs.Exact.{◌≈◌, ◌⊞◌, ◌⊟◌, two^};
ghost use Rattle.rounding.specs.Values.{exact_value, RoundsAs};

use crate::dyadic::{Addend, Unrounded};

// 2 to the power of so many places. A shift makes it in one step, where a power multiplies again and again.
fn power_of_two(places: u32) -> i128
    requires { places < 77 }
    ensures { result ≡ two^ places }
{
    (1u128 << places) as i128
}

// x moved up by so many places, and y. With 48 digits each and at most 76 places, the sum has at most 125 digits. x is multiplied by the
// power and not shifted itself, since the contract of a shift speaks of bits.
fn moved_sum(x: i128, places: u32, y: i128) -> i128
    requires left { unsigned_abs x < 2 ^ 48 }
    requires right { unsigned_abs y < 2 ^ 48 }
    requires near { places < 77 }
    ensures value { result ≡ x *ℤ two^ places +ℤ y }
    ensures short { unsigned_abs result < 2 ^ 126 }
{
    x * power_of_two(places) + y
}

// One unit with the sign of y.
fn unit(y: i128) -> i128
    ensures value { result ≡ int_signum y }
    ensures small { unsigned_abs result < 2 ^ 48 }
{
    y.signum()
}

// The sum of two addends on the scale of y, where x stands so many digits higher: it is exact.
fn close(x: Addend, y: Addend, apart: u32) -> Unrounded
    requires near { apart < 77 }
    requires places { x.exponent ≡ y.exponent +ℤ pos apart }
    ensures { exact_value result ≈ exact_value x ⊞ exact_value y }
{
    Unrounded {
        whole: moved_sum(x.whole, apart, y.whole),
        exponent: y.exponent,
    }
}

// The sum, in either order, where y lies wholly below the digits of x that a rounding looks at: one unit with the sign of y stands
// for it, 30 digits below the last one of x. With 48 digits and at least 77 digits lower, y is smaller than two such units, and x has
// at least 31 digits above the unit, more than the 25 that tell two values with at most 24 digits and the point midway apart.
fn far(x: Addend, y: Addend) -> Unrounded
    requires large { x.whole ≢ pos 0 }
    requires small { y.whole ≢ pos 0 }
    requires places { (y.exponent +ℤ pos 77) ≤ℤ x.exponent }
    ensures forward { RoundsAs result (exact_value x ⊞ exact_value y) }
    ensures backward { RoundsAs result (exact_value y ⊞ exact_value x) }
{
    Unrounded {
        whole: moved_sum(x.whole, 30, unit(y.whole)),
        exponent: x.exponent - 30,
    }
}

// The sum, in either order, where the exponent of x is not the smaller one. (The clauses are those of the sum itself, since that is what
// each of its cases promises.)
fn descending(x: Addend, y: Addend) -> Unrounded
    requires { y.exponent ≤ℤ x.exponent }
    ensures forward { RoundsAs result (exact_value x ⊞ exact_value y) }
    ensures backward { RoundsAs result (exact_value y ⊞ exact_value x) }
{
    let apart = (x.exponent - y.exponent) as u32;
    if apart < 77 {
        close(x, y, apart)
    } else if y.whole == 0 {
        Unrounded::from(x)
    } else if x.whole == 0 {
        Unrounded::from(y)
    } else {
        far(x, y)
    }
}

impl Unrounded {
    // The sum of two addends: every rounding to at most 24 digits answers the same for it as for the exact sum. Which one it is of the
    // values that are rounded like the sum is left free.
    pub fn sum(x: Addend, y: Addend) -> Unrounded
        ensures { RoundsAs result (exact_value x ⊞ exact_value y) }
    {
        if x.exponent < y.exponent {
            descending(y, x)
        } else {
            descending(x, y)
        }
    }

    // The difference of two addends, likewise.
    pub fn difference(x: Addend, y: Addend) -> Unrounded
        ensures { RoundsAs result (exact_value x ⊟ exact_value y) }
    {
        Unrounded::sum(x, -y)
    }
}
