// The kinds of records.
ghost use Rattle.std.specs.Prelude.{◌≡◌};
ghost use Rattle.records.specs.Kinds.{kind_of, word_of};

use crate::fault::RecordFault;

#[derive(Clone, Copy, Debug, PartialEq, Eq)]
pub enum Kind {
    Open,
    Load,
    Show,
    Note,
    End,
}

// A table of its own, as codes.rt says.
impl TryFrom<u16> for Kind {
    type Error = RecordFault;

    ghost try_from_gives = { λ code r. r ≡ kind_of code };

    fn try_from(code: u16) -> Result<Self, RecordFault> {
        match code {
            1 => Ok(Kind::Open),
            2 => Ok(Kind::Load),
            6 => Ok(Kind::Show),
            7 => Ok(Kind::Note),
            8 => Ok(Kind::End),
            _ => Err(RecordFault::UnknownKind),
        }
    }
}

impl Kind {
    // The word that the line of such a record has.
    pub fn word(self) -> &'static str
        ensures { result.now ≡ word_of self }
    {
        match self {
            Kind::Open => "open",
            Kind::Load => "load",
            Kind::Show => "show",
            Kind::Note => "note",
            Kind::End => "end",
        }
    }
}
