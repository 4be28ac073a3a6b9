// Records on a tape: what stands at the front of the bytes that are left, and what it asks for.
// Read frame.rt, kind.rt, record.rt and reader.rt, beside specs/Kinds.antt, which has the table of kinds,
// specs/Asked.antt, which says what each record asks for, and specs/Questions.antt, which has the questions in turn.
#![tactic(auto)]

mod codes;
mod fault;
mod frame;
mod kind;
mod reader;
mod record;

pub use codes::{Codes, FormatCode, MethodCode};
pub use fault::RecordFault;
pub use frame::Frame;
pub use kind::Kind;
pub use reader::{read_opening, read_record};
pub use record::{NoteText, Pattern, Record, little_endian};
