// The lines of records: of an accepted one, of the opening one, and of a refused one.
ghost use Rattle.std.specs.Prelude.{◌≡◌, ◌+◌, ◌≤◌, ◌++◌, length, IfOk, Ok, Err, MatchResult};
ghost use Rattle.run.specs.Lines.{start, open_line, done_line, done_word, done_fields, refusal_line, done_by, ShortText};
ghost use Rattle.run.specs.States.{room_for};
ghost use Rattle.run.specs.Text.{Wrote};
ghost use Rattle.run.specs.Turns.{line_by, replied};

use crate::line::Line;
use crate::refusal::{Refusal, Refused};
use crate::reply::Reply;
use crate::states::NoRoom;
use arith::NamedFormat;
use records::{Codes, Kind};

// Gives back what it is handed, if a line buffer has at least 96 bytes.
pub(crate) fn with_room<Run>(run: Run, buffer: &[u8]) -> Result<Run, NoRoom<Run>>
    ensures { MatchResult result
        (λ same. (room_for (length buffer.now) ≡ Ok tt) × (same ≡ run))
        (λ e. (room_for (length buffer.now) ≡ Err e.refusal) × (e.run ≡ run)) }
{
    if buffer.len() < 96 {
        let refusal = Refusal::BufferTooShort;
        return Err(NoRoom { run, refusal });
    }
    Ok(run)
}

// The line of the opening record.
pub(crate) fn open_line(number: u32, codes: Codes) -> Line
    ensures { result ≡ open_line number codes }
{
    let mut line = Line::new();
    line.start(number, Kind::Open.word());
    line.push_number(u8::from(codes.format).into());
    line.push_number(u8::from(codes.method).into());
    line.end();
    line
}

impl Reply<'_> {
    // Puts the line of an accepted record behind the opening one into a line, in place of what it held, but for the byte that ends it.
    fn begin<F: NamedFormat>(self, number: u32, line: &mut Line)
        requires { ShortText self }
        ensures text { line.new ≡ start number (done_word (done_by self.entry)) ++ done_fields F.format (done_by self.entry) }
        ensures short { length line.new ≤ 80 }
    {
        match self {
            Reply::Loaded { place } => {
                line.start(number, Kind::Load.word());
                line.push_number(place.into());
            }
            Reply::Shown { place, shown } => {
                line.start(number, Kind::Show.word());
                line.push_number(place.into());
                line.push_pattern::<F>(shown.re);
                line.push_pattern::<F>(shown.im);
                line.push_number(shown.depth.into());
            }
            Reply::Noted { text } => {
                line.start(number, Kind::Note.word());
                line.push_text(text);
            }
            Reply::Ended => line.start(number, Kind::End.word()),
        }
    }

    // The whole line, likewise.
    fn put<F: NamedFormat>(self, number: u32, line: &mut Line)
        requires { ShortText self }
        ensures { line.new ≡ done_line F.format number (done_by self.entry) }
    {
        self.begin::<F>(number, line);
        line.end();
    }
}

// Puts the line of a record behind the opening one into a line, in place of what it held. It is not handed out as a value: each line
// would be copied from call to call.
pub(crate) fn put_answer<F: NamedFormat>(
    answer: Result<Reply<'_>, Refusal>,
    number: u32,
    line: &mut Line,
)
    requires { IfOk answer ShortText }
    ensures { line.new ≡ line_by F.format number (replied answer.entry) }
{
    match answer {
        Ok(reply) => reply.put::<F>(number, line),
        Err(refusal) => Refused { number, refusal }.put(line),
    }
}

impl Refused {
    // Puts the line of the refused record into a line, in place of what it held.
    pub(crate) fn put(self, line: &mut Line)
        ensures { line.new ≡ refusal_line self.number self.refusal }
    {
        line.start(self.number, "no");
        line.push_number(self.refusal.number().into());
        line.push_number(0);
        line.end();
    }

    // The line of the refused record.
    pub fn line(self) -> Line
        ensures { result ≡ refusal_line self.number self.refusal }
    {
        let mut line = Line::new();
        self.put(&mut line);
        line
    }

    // Writes the line of the refusal; its length, or why there is no room for it.
    pub fn write(self, buffer: &mut [u8]) -> Result<usize, Refusal>
        ensures { MatchResult result
            (λ n. (room_for (length buffer.old) ≡ Ok tt) × Wrote buffer.old buffer.new n (refusal_line self.number self.refusal))
            (λ e. (room_for (length buffer.old) ≡ Err e) × (buffer.new ≡ buffer.old)) }
    {
        let refused = with_room(self, buffer).map_err(|e| e.refusal)?;
        Ok(refused.line().write(buffer))
    }
}
