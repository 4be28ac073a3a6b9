// Why a step answers no number.
ghost use Rattle.std.specs.Prelude.{◌≡◌};
ghost use Rattle.arith.specs.Step.{number_of_range};

// The rounded value lies outside the format's range. The number of each is the one that the refusal is known by.
#[derive(Clone, Copy, Debug, PartialEq, Eq)]
pub enum RangeFault {
    // its exponent is above the largest one
    Above = 6,
    // it is not zero, and its exponent is below the smallest one
    Below = 7,
}

// A refused step: why, and which one of a calculation's steps it was.
#[derive(Clone, Copy, Debug, PartialEq, Eq)]
pub struct StepFault {
    pub fault: RangeFault,
    pub step: u32,
}

impl RangeFault {
    // The refusal's number, by the name that it has in every layer; From for u8 would not say that it is that. Each enum has its own table, so
    // the clause has the words of the others and a meaning of its own.
    pub fn number(self) -> u8
        ensures { result ≡ number_of_range self }
    {
        self as u8
    }
}
