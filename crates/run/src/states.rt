// The states of a run. Each call moves a run from one state into the next, so that no state can be used twice.
use crate::refusal::Refusal;
use records::Codes;

// The tape as it was lent, the place reached on it, and the number of the last record. It is a tape and a place, and not the bytes that
// are left, since a run promises to keep the tape as it was lent. That the place lies within the tape, and that no more records were counted
// than bytes passed over, is said by the calls (InTape) and not here: docs/DECISIONS.md, 'Facts about a run', has the reason.
#[derive(Drop)]
pub struct Window<'a> {
    pub(crate) tape: &'a [u8],
    pub(crate) at: usize,
    pub(crate) number: u32,
}

// No record was read yet from the tape, as it was lent.
#[derive(Drop)]
pub struct FreshRun<'a> {
    pub(crate) tape: &'a [u8],
}

// The opening record was accepted, with these codes.
#[derive(Drop)]
pub struct OpenedRun<'a> {
    pub(crate) window: Window<'a>,
    pub(crate) codes: Codes,
}

// Nothing more is read.
#[derive(Drop)]
pub struct EndedRun {
    pub(crate) records: u32,
}

// Where a record leads a run. It has the shape of a Result and is none: a run that has ended is no error, and `?` is for refusals.
#[derive(Drop)]
pub enum AfterRecord<'a> {
    Running(OpenedRun<'a>),
    Ended(EndedRun),
}

// There is no room for a line, so nothing was read: the run as it was, and the refusal.
#[derive(Drop)]
pub struct NoRoom<Run> {
    pub run: Run,
    pub refusal: Refusal,
}
