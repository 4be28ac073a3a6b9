// Why a record is refused before any bank sees it.
ghost use Rattle.std.specs.Prelude.{◌≡◌};
ghost use Rattle.records.specs.Numbers.{number_of};

// Each refusal is known by a number.
#[derive(Clone, Copy, Debug, PartialEq, Eq)]
pub enum RecordFault {
    // a leading byte or a part of the payload is not there
    MissingPart = 9,
    UnknownKind = 10,
    WrongLength = 11,
    // a format or a method that has no such code
    UnknownCode = 12,
    // an opening record that is not the first, or a first record that does not open
    OutOfOrder = 13,
    // a note with a byte that is not printable
    NotText = 14,
}

impl RecordFault {
    // The refusal's number, by the name that it has in every layer; From for u8 would not say that it is that. Each enum has its own table, so
    // the clause has the words of the others and a meaning of its own.
    pub fn number(self) -> u8
        ensures { result ≡ number_of self }
    {
        self as u8
    }
}
