// All lines of a tape.
ghost use Rattle.std.specs.Prelude.{◌≡◌, ◌+◌, ◌≤◌, length, IfOk, OnOk};
ghost use Rattle.bank.specs.Slots.{fresh};
ghost use Rattle.bank.specs.Views.{holds};
ghost use Rattle.run.specs.States.{left, first, next_number, next_record, InTape, LeadsTo};
ghost use Rattle.run.specs.Turns.{line_of, places_of};
ghost use Rattle.tape.specs.Added.{Adds, added};
ghost use Rattle.tape.specs.Printed.{lines_from, format_in, run_lines, printed};
ghost use Rattle.tape.specs.Reading.{OneLineEach, ReadOut, NothingBehind, ShowsLastLoad};

use arith::{Bfloat16, Binary16, Binary32, NamedFormat};
use bank::Bank;
use records::FormatCode;
use run::{AfterRecord, FreshRun, Line, OpenedRun, Refused};
use std::alloc::AllocError;

// Adds a line to the text.
fn add_line(out: &mut Vec<u8>, line: &Line) -> Result<(), AllocError>
    ensures { Adds out.old out.new line.now result }
{
    out.extend_from_slice(line.as_bytes())
}

// Takes a record and adds its line to the text: where the record leads the run.
fn print_record<'a, F: NamedFormat>(
    run: OpenedRun<'a>,
    bank: &mut Bank<F>,
    out: &mut Vec<u8>,
) -> Result<AfterRecord<'a>, AllocError>
    ensures adds { Adds out.old out.new (line_of F.format (holds bank.old) (next_number run.entry) (next_record run.entry)) result }
    ensures leads { IfOk result (LeadsTo F.format run.entry (holds bank.old)) }
    ensures places { holds bank.new ≡ places_of F.format (holds bank.old) (next_record run.entry) }
{
    let mut line = Line::new();
    let next = run.next_line_into(bank, &mut line);
    add_line(out, &line)?;
    Ok(next)
}

// Takes records until the run ends, with a new bank of the format F.
fn print_records<F: NamedFormat>(run: OpenedRun<'_>, out: &mut Vec<u8>) -> Result<(), AllocError>
    requires { InTape run.window }
    ensures { Adds out.old out.new (lines_from F.format fresh (next_number run.entry) (left run.entry.window)) result }
{
    let mut bank = Bank::<F>::new();
    let mut run = run;
    while let AfterRecord::Running(next) = print_record(run, &mut bank, out)? {
        run = next;
    }
    Ok(())
}

// Prints the records of an opened run with a bank of its format. A value cannot choose a type but by a match like this one.
fn print_opened(run: OpenedRun<'_>, out: &mut Vec<u8>) -> Result<(), AllocError>
    requires { InTape run.window }
    ensures { Adds out.old out.new (lines_from (format_in run.entry.codes) fresh (next_number run.entry) (left run.entry.window)) result }
{
    match run.codes().format {
        FormatCode::Binary16 => print_records::<Binary16>(run, out),
        FormatCode::Bfloat16 => print_records::<Bfloat16>(run, out),
        FormatCode::Binary32 => print_records::<Binary32>(run, out),
    }
}

// The lines of a run that is not opened yet.
fn print_run(run: FreshRun<'_>, out: &mut Vec<u8>) -> Result<(), AllocError>
    requires { length run.tape.now ≤ 65536 }
    ensures { Adds out.old out.new (run_lines run.entry.tape.now) result }
{
    let (next, line) = run.first_line();
    add_line(out, &line)?;
    match next {
        AfterRecord::Running(run) => print_opened(run, out),
        AfterRecord::Ended(_) => Ok(()),
    }
}

// All lines of a tape, as they are defined. Of a tape that is refused whole no record has been read, so the number is 0.
fn print_all(tape: &[u8], out: &mut Vec<u8>) -> Result<(), AllocError>
    ensures { Adds out.old out.new (printed tape.now) result }
{
    match FreshRun::new(tape) {
        Ok(run) => print_run(run, out),
        Err(refusal) => add_line(out, &Refused { number: 0, refusal }.line()),
    }
}

// Adds all lines of a tape to a text. Of what is added when memory suffices, the laws over whole tapes hold.
pub fn print_tape(tape: &[u8], out: &mut Vec<u8>) -> Result<(), AllocError>
    ensures defined { Adds out.old out.new (printed tape.now) result }
    ensures one_line_each { OnOk result (OneLineEach tape.now (added out.old out.new)) }
    ensures read_out { ReadOut tape.now (first tape.now) }
    ensures nothing_behind { OnOk result (NothingBehind tape.now (added out.old out.new)) }
    ensures shows_last_load { OnOk result (ShowsLastLoad tape.now (added out.old out.new)) }
{
    print_all(tape, out)
}
