// The refusals of a run: its own, those of a record that cannot be read, and those of the bank.
ghost use Rattle.std.specs.Prelude.{◌≡◌};
ghost use Rattle.run.specs.Refusals.{number_of};
ghost use Rattle.run.specs.declared.refusal.Refusal.TheVariants.{Record, Bank};

use bank::Fault;
use records::RecordFault;

#[derive(Clone, Copy, Debug, PartialEq, Eq)]
pub enum Refusal {
    // the tape has more than 65,536 bytes
    TapeTooLong,
    // the line buffer has fewer than 96 bytes
    BufferTooShort,
    Record(RecordFault),
    Bank(Fault),
}

// The conversions are no derives, since a derived one does not promise which refusal it gives.
impl From<RecordFault> for Refusal {
    ghost from_gives = { λ e r. r ≡ Record e };

    fn from(e: RecordFault) -> Refusal {
        Refusal::Record(e)
    }
}

impl From<Fault> for Refusal {
    ghost from_gives = { λ e r. r ≡ Bank e };

    fn from(e: Fault) -> Refusal {
        Refusal::Bank(e)
    }
}

impl Refusal {
    // The refusal's number, by the name that it has in every layer; From for u8 would not say that it is that. An enum with fields has no
    // discriminants that could be it.
    pub fn number(self) -> u8
        ensures { result ≡ number_of self }
    {
        match self {
            Refusal::TapeTooLong => 8,
            Refusal::BufferTooShort => 15,
            Refusal::Record(e) => e.number(),
            Refusal::Bank(e) => e.number(),
        }
    }
}

// A refusal, and the number of the record that is refused.
#[derive(Clone, Copy, Debug, PartialEq, Eq)]
pub struct Refused {
    pub number: u32,
    pub refusal: Refusal,
}
