// What a whole record asks for. The questions come in turn: its kind, its order, its length, and then its payload.
ghost use Rattle.std.specs.Prelude.{◌≡◌, IfOk};
ghost use Rattle.std.specs.Result.{result_err};
ghost use Rattle.records.specs.Bytes.{printable};
ghost use Rattle.records.specs.Frames.{contents};
ghost use Rattle.records.specs.Asked.{asked, opening, asking, PartOf, Fits, IsText};
ghost use Rattle.records.specs.Questions.{first_no, opening_questions, later_questions};

use crate::codes::{Codes, FormatCode, MethodCode};
use crate::fault::RecordFault;
use crate::frame::Frame;
use crate::kind::Kind;
use crate::record::{NoteText, Pattern, Record};
use arith::NamedFormat;

// Whether every byte is printable.
fn is_printable(text: &[u8]) -> bool
    ensures { result ≡ printable text.now }
{
    text.iter().all(|byte| (b' '..=b'~').contains(byte))
}

// What a first record opens a run with.
pub fn read_opening(first: Frame<'_>) -> Result<Codes, RecordFault>
    ensures defined { result ≡ opening (contents first.entry) }
    ensures in_turn { result_err result ≡ first_no (opening_questions (contents first.entry)) }
{
    match (Kind::try_from(first.kind)?, first.payload) {
        (Kind::Open, [format, method]) => Ok(Codes {
            format: FormatCode::try_from(*format)?,
            method: MethodCode::try_from(*method)?,
        }),
        (Kind::Open, _) => Err(RecordFault::WrongLength),
        _ => Err(RecordFault::OutOfOrder),
    }
}

// What a record behind the opening one asks for, where numbers have the format F.
pub fn read_record<F: NamedFormat>(whole: Frame<'_>) -> Result<Record<'_>, RecordFault>
    ensures asks { asking result ≡ asked F.format (contents whole.entry) }
    ensures part_of_tape { IfOk result (PartOf F.format whole.entry.payload) }
    ensures fits { IfOk result Fits }
    ensures is_text { IfOk result IsText }
    ensures in_turn { result_err (asking result) ≡ first_no (later_questions F.format (contents whole.entry)) }
{
    let size = F::format().width as usize / 8;
    match (Kind::try_from(whole.kind)?, whole.payload) {
        (Kind::Open, _) => Err(RecordFault::OutOfOrder),
        (Kind::Load, [place, patterns @ ..]) if patterns.len() == 2 * size => {
            let re = Pattern {
                bytes: &patterns[..size],
            };
            let im = Pattern {
                bytes: &patterns[size..],
            };
            Ok(Record::Load {
                place: *place,
                re,
                im,
            })
        }
        (Kind::Show, [place]) => Ok(Record::Show { place: *place }),
        (Kind::Note, bytes) if bytes.len() <= 64 => {
            if !is_printable(bytes) {
                return Err(RecordFault::NotText);
            }
            Ok(Record::Note {
                text: NoteText { bytes },
            })
        }
        (Kind::End, []) => Ok(Record::End),
        _ => Err(RecordFault::WrongLength),
    }
}
