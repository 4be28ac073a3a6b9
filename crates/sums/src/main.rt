// Sums and differences in steps, tried on patterns: the worked ones by every rule, many by every rule and format with a checksum
// of the answers, and many of binary32 against the machine's own floats.
#![tactic(auto)]

use arith::{Bfloat16, Binary16, Binary32, Complex, NamedFormat, Number, RangeFault, StepFault};
use buyer::{TiesUpward, ToOdd};
use rounding::{AwayFromZero, Nearest, Rule, ToEven, TowardZero};
use std::io;

// The complex number of two patterns, if they stand for numbers.
fn read<F: NamedFormat>(re: u32, im: u32) -> Option<Complex<Number<F>>> {
    Some(Complex {
        re: Number::from_pattern(re).ok()?,
        im: Number::from_pattern(im).ok()?,
    })
}

// An answer in patterns, or its refusal.
fn show<F: NamedFormat>(
    rt: &HostRuntime,
    answer: Result<Complex<Number<F>>, StepFault>,
) -> io::Result<()> {
    match answer {
        Ok(z) => {
            let re = z.re.pattern();
            let im = z.im.pattern();
            println!(rt; "    {re:04X} {im:04X}")
        }
        Err(e) => {
            let number = e.fault.number();
            let step = e.step;
            println!(rt; "    no {number} {step}")
        }
    }
}

// The sum and the difference of two numbers of binary16 by one rule.
fn show_both<R: Rule>(
    rt: &HostRuntime,
    x: Complex<Number<Binary16>>,
    y: Complex<Number<Binary16>>,
) -> io::Result<()> {
    show(rt, x.plus::<R>(y))?;
    show(rt, x.minus::<R>(y))
}

// The sum and the difference of two numbers of binary16, by each rule in turn.
fn check_worked(rt: &HostRuntime, a: u32, b: u32) -> io::Result<()> {
    let (Some(x), Some(y)) = (read(a, b), read(b, a)) else {
        return Ok(());
    };
    println!(rt; "{a:04X} {b:04X} and {b:04X} {a:04X}:")?;
    show_both::<Nearest<ToEven>>(rt, x, y)?;
    show_both::<Nearest<AwayFromZero>>(rt, x, y)?;
    show_both::<Nearest<TowardZero>>(rt, x, y)?;
    show_both::<Nearest<ToOdd>>(rt, x, y)?;
    show_both::<TiesUpward>(rt, x, y)
}

// A number whose bits are stirred, so that 1, 2, 3 and so on give numbers without order.
fn stirred(n: u32) -> u32 {
    let once = (n ^ (n >> 16)).wrapping_mul(0x7FEB_352D);
    let twice = (once ^ (once >> 15)).wrapping_mul(0x846C_A68B);
    twice ^ (twice >> 16)
}

// A checksum with one number more.
fn folded(sum: u32, n: u32) -> u32 {
    sum.wrapping_mul(16777619) ^ n
}

// A checksum with one answer more.
fn with_answer<F: NamedFormat>(sum: u32, answer: Result<Complex<Number<F>>, StepFault>) -> u32 {
    match answer {
        Ok(z) => folded(folded(sum, z.re.pattern()), z.im.pattern()),
        Err(e) => folded(folded(sum, e.fault.number().into()), e.step),
    }
}

// Two patterns that often have exponents near each other: the second is the first with some of its low bits turned, and perhaps
// its sign.
fn near(n: u32, unused: u32) -> (u32, u32) {
    let a = stirred(n);
    let b = stirred(!a);
    let turned = (b >> 4) >> (b % 28);
    (
        a >> (unused % 32),
        (a ^ turned ^ (b << 31)) >> (unused % 32),
    )
}

// The checksum of sums and differences by one rule in one format. It is a loop, since a fold would carry the checksum and the count as a
// pair.
fn check_many<F: NamedFormat, R: Rule>(
    rt: &HostRuntime,
    format: &str,
    rule: &str,
) -> io::Result<()> {
    let unused = 32 - F::format().width;
    let mut sum = 0u32;
    let mut answers = 0u32;
    for n in 0..2000u32 {
        let (a, b) = near(n, unused);
        let (c, d) = near(!n, unused);
        if let (Some(x), Some(y)) = (read::<F>(a, c), read::<F>(b, d)) {
            sum = with_answer(sum, x.plus::<R>(y));
            sum = with_answer(sum, x.minus::<R>(y));
            answers = answers.wrapping_add(2);
        }
    }
    println!(rt; "{format}, {rule}: {answers} answers, checksum {sum}")
}

// The same for every rule: types cannot be gone through by a loop.
fn check_rules<F: NamedFormat>(rt: &HostRuntime, format: &str) -> io::Result<()> {
    check_many::<F, Nearest<ToEven>>(rt, format, "ties to even")?;
    check_many::<F, Nearest<AwayFromZero>>(rt, format, "ties away from zero")?;
    check_many::<F, Nearest<TowardZero>>(rt, format, "ties toward zero")?;
    check_many::<F, Nearest<ToOdd>>(rt, format, "ties to odd")?;
    check_many::<F, TiesUpward>(rt, format, "ties upward")
}

// A pattern of binary32 as a float of the machine, if it is finite.
fn float(pattern: u32) -> Option<f32> {
    if pattern % 0x8000_0000 >= 0x7F80_0000 {
        return None;
    }
    Some(f32::from_bits(pattern))
}

// What the machine's floats make of a sum in binary32: the pattern, with zero as zero bits only, or a refusal.
fn machine_sum(a: u32, b: u32) -> Option<Result<u32, RangeFault>> {
    let sum = float(a)? + float(b)?;
    if sum.is_nan() {
        None
    } else if sum.is_infinite() {
        Some(Err(RangeFault::Above))
    } else if sum == 0.0 {
        Some(Ok(0))
    } else if sum.abs() < f32::MIN_POSITIVE {
        Some(Err(RangeFault::Below))
    } else {
        Some(Ok(sum.to_bits()))
    }
}

// Whether a step makes the same of a sum as the machine's floats, if both patterns stand for numbers.
fn agrees(n: u32) -> Option<bool> {
    let (a, b) = near(n, 0);
    let x = Number::<Binary32>::from_pattern(a).ok()?;
    let y = Number::<Binary32>::from_pattern(b).ok()?;
    let sum = arith::step_sum::<Binary32, Nearest<ToEven>>(x.into(), y.into());
    Some(machine_sum(a, b) == Some(sum.map(|x| x.pattern())))
}

// Sums in binary32 by the rule of the machine's floats: how many there are, and how many of them differ. It is a loop, so that each sum is
// made once.
fn check_machine(rt: &HostRuntime) -> io::Result<()> {
    let mut compared = 0u32;
    let mut different = 0u32;
    for same in (0..20000u32).filter_map(agrees) {
        compared = compared.wrapping_add(1);
        if !same {
            different = different.wrapping_add(1);
        }
    }
    println!(rt;
        "sums of binary32 against the machine's floats: {compared} compared, {different} different"
    )
}

fn main(rt: HostRuntime) -> io::Result<()> {
    let rows = bank::worked_rows();
    println!(rt; "{rows} worked rows are proved of the definitions")?;
    for (a, b) in [
        (0x3C00u32, 0x1000u32),
        (0x3C01, 0x1000),
        (0x7BFF, 0x4C00),
        (0x0401, 0x0400),
        (0x0800, 0x0400),
    ] {
        check_worked(&rt, a, b)?;
    }
    check_rules::<Binary16>(&rt, "format 1")?;
    check_rules::<Bfloat16>(&rt, "format 2")?;
    check_rules::<Binary32>(&rt, "format 3")?;
    check_machine(&rt)
}
