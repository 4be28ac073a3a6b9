// Making a run, opening it by its first record, and taking one record after another.
ghost use Rattle.std.specs.Prelude.{◌≡◌, ◌+◌, ◌≤◌, true, length, is_err, IfOk, Err, MatchResult};
ghost use Rattle.bank.specs.Views.{holds};
ghost use Rattle.records.specs.Asked.{asked, asked_for, Fits};
ghost use Rattle.records.specs.Frames.{contents, front};
ghost use Rattle.run.specs.Lines.{ShortText};
ghost use Rattle.run.specs.Turns.{obeyed, places_by, replied, answered, places_if, outcome, line_of, places_of};
ghost use Rattle.run.specs.States.{left, short_tape, Starts, Opened, OpensTo, Opens, LeadsTo, Takes, first, first_line, next_number, next_record, taken_from, number_behind, IsBehind};

use crate::line::Line;
use crate::lines::{open_line, put_answer, with_room};
use crate::refusal::{Refusal, Refused};
use crate::reply::Reply;
use crate::states::{AfterRecord, EndedRun, FreshRun, NoRoom, OpenedRun, Window};
use arith::NamedFormat;
use bank::Bank;
use records::{Codes, Frame, Record, RecordFault};

// What the bank makes of a record.
fn obey<'a, F: NamedFormat>(bank: &mut Bank<F>, asks: Record<'a>) -> Result<Reply<'a>, Refusal>
    requires { Fits asks }
    ensures answer { replied result ≡ obeyed F.format (holds bank.old) (asked_for asks.entry) }
    ensures places { holds bank.new ≡ places_by F.format (holds bank.old) (asked_for asks.entry) }
    ensures short { IfOk result ShortText }
{
    match asks {
        Record::Load { place, re, im } => {
            bank.load(place, re.number(), im.number())?;
            Ok(Reply::Loaded { place })
        }
        Record::Show { place } => {
            let shown = bank.show(place)?;
            Ok(Reply::Shown { place, shown })
        }
        Record::Note { text } => Ok(Reply::Noted { text }),
        Record::End => Ok(Reply::Ended),
    }
}

// The answer to a whole record.
fn answer<'a, F: NamedFormat>(bank: &mut Bank<F>, whole: Frame<'a>) -> Result<Reply<'a>, Refusal>
    ensures answer { replied result ≡ answered F.format (holds bank.old) (asked F.format (contents whole.entry)) }
    ensures places { holds bank.new ≡ places_if F.format (holds bank.old) (asked F.format (contents whole.entry)) }
    ensures short { IfOk result ShortText }
{
    let record = records::read_record::<F>(whole)?;
    obey(bank, record)
}

impl<'a> Window<'a> {
    // The bytes from the place reached on; none behind the end.
    #[tactic(auto, using(std::proofs::lemmas::List::drop_min))]
    fn left(&self) -> &'a [u8]
        ensures { result.now ≡ left self.now }
    {
        &self.tape[self.at.min(self.tape.len())..]
    }

    // The number of the record at the place reached, behind the last one.
    fn number_behind(&self) -> u32
        ensures { result ≡ number_behind self.now.number }
    {
        self.number.saturating_add(1)
    }

    // The record at the place reached, and the window behind it.
    fn record(self) -> Result<(Frame<'a>, Window<'a>), RecordFault>
        ensures front { taken_from result ≡ front (left self.entry) }
        ensures behind { IfOk result (λ r. IsBehind self.entry r.1) }
    {
        let frame = Frame::first(self.left())?;
        let behind = Window {
            tape: self.tape,
            at: self.at + 4 + frame.payload.len(),
            number: self.number_behind(),
        };
        Ok((frame, behind))
    }
}

impl<'a> FreshRun<'a> {
    // A run over a tape of at most 65,536 bytes.
    pub fn new(tape: &'a [u8]) -> Result<FreshRun<'a>, Refusal>
        ensures { MatchResult result (Starts tape.entry) (λ e. short_tape (length tape.now) ≡ Err e) }
    {
        if tape.len() > 65536 {
            return Err(Refusal::TapeTooLong);
        }
        Ok(FreshRun { tape })
    }

    // The run behind the first record, if that opens it.
    fn opened(self) -> Result<OpenedRun<'a>, RecordFault>
        ensures { MatchResult result (Opened self.entry) (λ e. first self.entry.tape.now ≡ Err e) }
    {
        let front = Window {
            tape: self.tape,
            at: 0,
            number: 0,
        };
        let (frame, window) = front.record()?;
        let codes = records::read_opening(frame)?;
        Ok(OpenedRun { window, codes })
    }

    // Opens the run by its first record: where that leads, and the record's line.
    pub fn first_line(self) -> (AfterRecord<'a>, Line)
        ensures leads { OpensTo self.entry result.0 }
        ensures line { result.1 ≡ first_line (first self.entry.tape.now) }
    {
        match self.opened() {
            Ok(run) => {
                let line = open_line(1, run.codes);
                (AfterRecord::Running(run), line)
            }
            Err(e) => {
                let refusal = Refusal::from(e);
                let line = Refused { number: 1, refusal }.line();
                (AfterRecord::Ended(EndedRun { records: 1 }), line)
            }
        }
    }

    // Opens the run with its first record's line in a lent buffer: where the record leads, and how long its line is. The buffer is the
    // caller's, since a run has no memory of its own. (Room, line, writing: the same calls here, in take_record and in Refused::write. One
    // function over them would take the line as a closure, and be no shorter.)
    pub fn open(self, buffer: &mut [u8]) -> Result<(AfterRecord<'a>, usize), NoRoom<FreshRun<'a>>>
        ensures { Opens self.entry buffer.old buffer.new result }
    {
        let run = with_room(self, buffer)?;
        let (next, line) = run.first_line();
        Ok((next, line.write(buffer)))
    }
}

impl<'a> OpenedRun<'a> {
    // The codes that the run was opened with.
    pub fn codes(&self) -> Codes
        ensures { result ≡ self.now.codes }
    {
        self.codes
    }

    // Takes the next record, with a bank that is lent for it: where that leads. The record's line stands in the lent line, in place of what
    // it held.
    #[tactic(auto, using(crate::proofs::Unchanged::unchanged))]
    pub fn next_line_into<F: NamedFormat>(
        self,
        bank: &mut Bank<F>,
        line: &mut Line,
    ) -> AfterRecord<'a>
        ensures leads { LeadsTo F.format self.entry (holds bank.old) result }
        ensures line { line.new ≡ line_of F.format (holds bank.old) (next_number self.entry) (next_record self.entry) }
        ensures places { holds bank.new ≡ places_of F.format (holds bank.old) (next_record self.entry) }
        ensures refused_changes_nothing { is_err (outcome F.format (holds bank.old) (next_record self.entry)) ≡ true → holds bank.new ≡ holds bank.old }
    {
        let OpenedRun { window, codes } = self;
        let number = window.number_behind();
        let ended = AfterRecord::Ended(EndedRun { records: number });
        match window.record() {
            Ok((frame, window)) => {
                let running = AfterRecord::Running(OpenedRun { window, codes });
                let answer = answer(bank, frame);
                put_answer::<F>(answer, number, line);
                match answer {
                    Ok(reply) if reply.is_end() => ended,
                    _ => running,
                }
            }
            Err(e) => {
                let refusal = Refusal::from(e);
                Refused { number, refusal }.put(line);
                ended
            }
        }
    }

    // The same with the line as a value.
    pub fn next_line<F: NamedFormat>(self, bank: &mut Bank<F>) -> (AfterRecord<'a>, Line)
        ensures leads { LeadsTo F.format self.entry (holds bank.old) result.0 }
        ensures line { result.1 ≡ line_of F.format (holds bank.old) (next_number self.entry) (next_record self.entry) }
        ensures places { holds bank.new ≡ places_of F.format (holds bank.old) (next_record self.entry) }
        ensures refused_changes_nothing { is_err (outcome F.format (holds bank.old) (next_record self.entry)) ≡ true → holds bank.new ≡ holds bank.old }
    {
        let mut line = Line::new();
        let next = self.next_line_into(bank, &mut line);
        (next, line)
    }

    // Takes the next record with its line in a lent buffer: where the record leads, and how long its line is.
    pub fn take_record<F: NamedFormat>(
        self,
        bank: &mut Bank<F>,
        buffer: &mut [u8],
    ) -> Result<(AfterRecord<'a>, usize), NoRoom<OpenedRun<'a>>>
        ensures leads { Takes F.format self.entry (holds bank.old) (holds bank.new) buffer.old buffer.new result }
        ensures refused_changes_nothing { is_err (outcome F.format (holds bank.old) (next_record self.entry)) ≡ true → holds bank.new ≡ holds bank.old }
    {
        let run = with_room(self, buffer)?;
        let mut line = Line::new();
        let next = run.next_line_into(bank, &mut line);
        let length = line.write(buffer);
        Ok((next, length))
    }
}

impl EndedRun {
    // The number of the last record, which is how many lines the run gave.
    pub fn records(&self) -> u32
        ensures { result ≡ self.now.records }
    {
        self.records
    }
}
