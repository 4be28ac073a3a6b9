// What a filled place holds.
ghost use Rattle.std.specs.Prelude.{◌≤◌};

use arith::{Complex, NamedFormat, Number};

// A depth from 0 to 4,095. A loaded number has depth 0.
#[derive(Clone, Copy)]
pub struct Depth {
    pub(crate) count: u16,
    ghost few: { count ≤ 4095 },
}

#[derive(Clone, Copy)]
pub struct Held<F: NamedFormat> {
    pub(crate) number: Complex<Number<F>>,
    pub(crate) depth: Depth,
}
