// The refusals of a bank.
ghost use Rattle.std.specs.Prelude.{◌≡◌};
ghost use Rattle.bank.specs.Numbers.{number_of};
ghost use Rattle.bank.specs.declared.fault.Fault.TheVariants.{Pattern};

use arith::PatternFault;

// Why a call is refused.
#[derive(Clone, Copy, Debug, PartialEq, Eq)]
pub enum Fault {
    // there is no such place
    NoSuchPlace,
    // the place is empty
    EmptyPlace,
    // a pattern stands for no number of the bank's format
    Pattern(PatternFault),
}

// By hand, since a derived conversion would not say which fault it makes.
impl From<PatternFault> for Fault {
    ghost from_gives = { λ e r. r ≡ Pattern e };

    fn from(e: PatternFault) -> Fault {
        Fault::Pattern(e)
    }
}

impl Fault {
    // The refusal's number, by the name that it has in every layer; From for u8 would not say that it is that. An enum with a field has no
    // discriminants that could be it.
    pub fn number(self) -> u8
        ensures { result ≡ number_of self }
    {
        match self {
            Fault::NoSuchPlace => 1,
            Fault::EmptyPlace => 2,
            Fault::Pattern(e) => e.number(),
        }
    }
}
