// Numbers from bit patterns, and the pattern that shows a number.
ghost use Rattle.std.specs.Prelude.{◌≡◌, ◌+◌, ◌-◌, ◌*◌, ◌^◌, ◌<◌, ◌≤◌, pos, ◌+ℤ◌, ◌-ℤ◌, ◌≤ℤ◌, IfOk, Ok, nat_le, unsigned_abs};
ghost use Rattle.exact.specs.Exact.{◌≈◌};
ghost use Rattle.exact.specs.Parts.{parts, zero_parts, value};
ghost use Rattle.arith.specs.Number.{parts_of, parts_by, value_of};
ghost use Rattle.arith.specs.Pattern.{sign_bit, exponent_field, fraction, decoded, encoded, ieee_value, plain_zero, number_of_pattern, ToldApart};

use crate::format::NamedFormat;
use crate::number::Number;
use crate::of_format::OfFormat;
use std::marker::PhantomData;

// Why a pattern stands for no number of the format. The number of each is the one that the refusal is known by.
#[derive(Clone, Copy, Debug, PartialEq, Eq)]
pub enum PatternFault {
    // it has more bits than the format, or its exponent field has ones only
    Invalid = 3,
    Subnormal = 4,
}

impl PatternFault {
    // The refusal's number, by the name that it has in every layer; From for u8 would not say that it is that. Each enum has its own table, so
    // the clause has the words of the others and a meaning of its own.
    pub fn number(self) -> u8
        ensures { result ≡ number_of_pattern self }
    {
        self as u8
    }
}

// The fields of a pattern.
#[derive(Clone, Copy)]
struct Fields {
    // the sign bit, as it stands in the pattern
    negative: bool,
    exponent: u32,
    fraction: u32,
}

// Whether a pattern has more bits than the format.
fn too_wide<F: NamedFormat>(pattern: u32) -> bool
    ensures { result ≡ nat_le (2 ^ F.format.width) pattern }
{
    u64::from(pattern) >= 2u64.pow(F::format().width)
}

// The fields of a pattern, from its highest bit down.
fn fields_of<F: NamedFormat>(pattern: u32) -> Fields
    ensures negative { result.negative ≡ sign_bit F.format pattern }
    ensures exponent { result.exponent ≡ exponent_field F.format pattern }
    ensures fraction { result.fraction ≡ fraction F.format pattern }
{
    let format = F::format();
    let leading_one = 1u32 << (format.precision - 1);
    let exponents = 1u32 << (format.width - format.precision);
    Fields {
        negative: pattern >> (format.width - 1) == 1,
        exponent: pattern / leading_one % exponents,
        fraction: pattern % leading_one,
    }
}

// The exponent that an exponent field stands for.
fn unbiased<F: NamedFormat>(field: u32) -> i32
    requires { field < 2 ^ 16 }
    ensures { result ≡ pos field -ℤ pos F.format.emax }
{
    field as i32 - F::format().emax as i32
}

// The number whose exponent field is not zero: a leading 1 stands in front of the fraction.
fn normal<F: NamedFormat>(fields: Fields) -> Number<F>
    requires some { 0 < fields.exponent }
    requires finite { fields.exponent < 2 ^ (F.format.width - F.format.precision) - 1 }
    requires short { fields.fraction < 2 ^ (F.format.precision - 1) }
    ensures { parts_of result ≡ parts fields.negative (2 ^ (F.format.precision - 1) + fields.fraction) (pos fields.exponent -ℤ pos F.format.emax) }
{
    Number {
        negative: fields.negative,
        significand: (1u32 << (F::format().precision - 1)) + fields.fraction,
        exponent: unbiased::<F>(fields.exponent),
        format: OfFormat(PhantomData),
    }
}

// The number that a pattern stands for, by its fields.
fn decode<F: NamedFormat>(pattern: u32) -> Result<Number<F>, PatternFault>
    ensures { parts_by result ≡ decoded F.format pattern }
{
    let format = F::format();
    let fields = fields_of::<F>(pattern);
    if too_wide::<F>(pattern) || fields.exponent == (1 << (format.width - format.precision)) - 1 {
        return Err(PatternFault::Invalid);
    }
    if fields.exponent > 0 {
        return Ok(normal(fields));
    }
    if fields.fraction > 0 {
        return Err(PatternFault::Subnormal);
    }
    Ok(Number::zero())
}

// The exponent field that stands for an exponent in the format's range.
fn biased<F: NamedFormat>(exponent: i32) -> u32
    requires low { (pos 1 -ℤ pos F.format.emax) ≤ℤ exponent }
    requires high { exponent ≤ℤ pos F.format.emax }
    ensures value { result ≡ unsigned_abs (exponent +ℤ pos F.format.emax) }
    ensures bound { result ≤ 2 * F.format.emax }
{
    (exponent + F::format().emax as i32) as u32
}

// The pattern whose fields are those of a number that is not zero.
fn encode<F: NamedFormat>(number: Number<F>) -> u32
    requires { 0 < number.significand }
    ensures { result ≡ encoded F.format (parts_of number) }
{
    let format = F::format();
    let leading_one = 1u32 << (format.precision - 1);
    let sign = if number.negative {
        1u32 << (format.width - 1)
    } else {
        0
    };
    sign + biased::<F>(number.exponent) * leading_one + (number.significand - leading_one)
}

impl<F: NamedFormat> Number<F> {
    // Zero in its one form.
    pub fn zero() -> Number<F>
        ensures { parts_of result ≡ zero_parts }
    {
        Number {
            negative: false,
            significand: 0,
            exponent: 0,
            format: OfFormat(PhantomData),
        }
    }

    // The number that a pattern stands for, or why there is none.
    pub fn from_pattern(pattern: u32) -> Result<Number<F>, PatternFault>
        ensures defined { parts_by result ≡ decoded F.format pattern }
        ensures ieee_value { IfOk result (λ x. value_of x ≈ ieee_value F.format pattern) }
        ensures shown_again { IfOk result (λ x. encoded F.format (parts_of x) ≡ plain_zero F.format pattern) }
        ensures told_apart { IfOk result (λ x. ToldApart F.format pattern (parts_of x)) }
    {
        decode(pattern)
    }

    // The pattern that shows the number. (It is no From for u32, which would not say that the number is written as a pattern.)
    pub fn pattern(self) -> u32
        ensures defined { result ≡ encoded F.format (parts_of self) }
        ensures read_back { decoded F.format result ≡ Ok (parts_of self) }
    {
        if self.significand == 0 {
            return 0;
        }
        encode(self)
    }
}
