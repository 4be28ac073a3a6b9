// The codes of formats and methods in an opening record.
ghost use Rattle.std.specs.Prelude.{◌≡◌};
ghost use Rattle.records.specs.Codes.{format_by, format_number, method_by, method_number};

use crate::fault::RecordFault;

// Each format has a code.
#[derive(Clone, Copy, Debug, PartialEq, Eq)]
pub enum FormatCode {
    Binary16 = 1,
    Bfloat16 = 2,
    Binary32 = 3,
}

// Each method has a code.
#[derive(Clone, Copy, Debug, PartialEq, Eq)]
pub enum MethodCode {
    Separate = 1,
    Fma = 2,
    Kahan = 3,
    Fused = 4,
}

// What a run is opened with.
#[derive(Clone, Copy, Debug, PartialEq, Eq)]
pub struct Codes {
    pub format: FormatCode,
    pub method: MethodCode,
}

// These two tables, and the one of kinds, stay apart: a shared text would need a list of the variants beside each enum, as long as the arms of
// its match, and a search in it.
impl TryFrom<u8> for FormatCode {
    type Error = RecordFault;

    ghost try_from_gives = { λ code r. r ≡ format_by code };

    fn try_from(code: u8) -> Result<Self, RecordFault> {
        match code {
            1 => Ok(FormatCode::Binary16),
            2 => Ok(FormatCode::Bfloat16),
            3 => Ok(FormatCode::Binary32),
            _ => Err(RecordFault::UnknownCode),
        }
    }
}

impl TryFrom<u8> for MethodCode {
    type Error = RecordFault;

    ghost try_from_gives = { λ code r. r ≡ method_by code };

    fn try_from(code: u8) -> Result<Self, RecordFault> {
        match code {
            1 => Ok(MethodCode::Separate),
            2 => Ok(MethodCode::Fma),
            3 => Ok(MethodCode::Kahan),
            4 => Ok(MethodCode::Fused),
            _ => Err(RecordFault::UnknownCode),
        }
    }
}

impl From<FormatCode> for u8 {
    ghost from_gives = { λ format code. code ≡ format_number format };

    fn from(format: FormatCode) -> u8 {
        format as u8
    }
}

impl From<MethodCode> for u8 {
    ghost from_gives = { λ method code. code ≡ method_number method };

    fn from(method: MethodCode) -> u8 {
        method as u8
    }
}
