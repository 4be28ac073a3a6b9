// Plays example tapes and says of each whether it printed what it should: data/NAME.hex is a tape as hexadecimal text,
// and data/NAME.out what it prints. Then tapes of the greatest length, line buffers of the least, and answers that a caller keeps.
#![tactic(auto)]

use arith::{Bfloat16, Binary16, Binary32, Complex, Format, NamedFormat, Number, Term};
use bank::Bank;
use records::{Frame, Record, RecordFault};
use run::{AfterRecord, FreshRun, NoRoom, OpenedRun, Refusal, Refused};
use std::alloc::{AllocError, Global};
use std::io::Write;
use std::{fs, io};

// Whether a byte may stand between two others.
fn is_between(b: u8) -> bool {
    matches!(b, b' ' | b',' | b'\t' | b'\r' | b'\n')
}

// The tape that a text stands for: two digits to a byte, white space and commas between them, and '#' starts a comment.
// None where the text has anything else, or an odd number of digits.
fn tape_of(heap: Global, text: &[u8]) -> Result<Option<Vec<u8>>, AllocError> {
    let mut tape = Vec::new(heap);
    let mut high = None;
    let mut comment = false;
    for b in text {
        if *b == b'\n' {
            comment = false;
        } else if *b == b'#' {
            comment = true;
        } else if !comment && !is_between(*b) {
            let Some(low) = char::from(*b).to_digit(16) else {
                return Ok(None);
            };
            match high.take() {
                None => high = Some(low),
                Some(h) => tape.push(((h << 4 | low) & 0xFF) as u8)?,
            }
        }
    }
    Ok(high.is_none().then_some(tape))
}

// The lines of a tape.
fn lines_of(heap: Global, tape: &[u8]) -> Result<Vec<u8>, AllocError> {
    let mut lines = Vec::new(heap);
    tape::print_tape(tape, &mut lines)?;
    Ok(lines)
}

// Whether a tape prints what it should.
fn check_tape(rt: &HostRuntime, name: &str) -> io::Result<()> {
    let heap = rt.alloc();
    let text = fs::read(rt, format!(in heap; "{name}.hex")?)?;
    let wanted = fs::read(rt, format!(in heap; "{name}.out")?)?;
    let Some(tape) = tape_of(heap, text.as_slice())? else {
        return println!(rt; "{name}: not hexadecimal");
    };
    let lines = lines_of(heap, tape.as_slice())?;
    if lines.as_slice() == wanted.as_slice() {
        return println!(rt; "{name}: ok");
    }
    println!(rt; "{name}: printed")?;
    rt.stdout().write_all(lines.as_slice())
}

// The lines of a tape of 65,536 bytes, and some bytes behind it: an opening record, a note that is far too long, and an end.
fn check_length(rt: &HostRuntime, behind: &[u8]) -> io::Result<()> {
    let heap = rt.alloc();
    let mut tape = Vec::new(heap);
    tape.extend_from_slice(&[2, 0, 1, 0, 1, 1])?;
    tape.extend_from_slice(&[0xF2, 0xFF, 7, 0])?;
    tape.resize(tape.len() + 0xFFF2, b' ')?;
    tape.extend_from_slice(&[0, 0, 8, 0])?;
    tape.extend_from_slice(behind)?;
    let bytes = tape.len();
    println!(rt; "a tape of {bytes} bytes:")?;
    let lines = lines_of(heap, tape.as_slice())?;
    rt.stdout().write_all(lines.as_slice())
}

// The last line of a tape of many empty notes.
fn check_many(rt: &HostRuntime) -> io::Result<()> {
    let heap = rt.alloc();
    let mut tape = Vec::new(heap);
    tape.extend_from_slice(&[2, 0, 1, 0, 3, 3])?;
    for _ in 0..16381 {
        tape.extend_from_slice(&[0, 0, 7, 0])?;
    }
    tape.extend_from_slice(&[0, 0, 8, 0])?;
    let lines = lines_of(heap, tape.as_slice())?;
    let bytes = lines.len();
    println!(rt; "16381 notes: {bytes} bytes of lines, which end with")?;
    rt.stdout()
        .write_all(&lines.as_slice()[bytes.saturating_sub(10)..])
}

// Patterns that do not fit a format's bits, which no tape can carry.
fn check_too_wide(rt: &HostRuntime, pattern: u32) -> io::Result<()> {
    let mut half = Bank::<Binary16>::new();
    let mut brain = Bank::<Bfloat16>::new();
    for answer in [
        half.load(0, pattern, 0),
        half.load(0, 0, pattern),
        brain.load(0, pattern, 0),
        brain.load(0, 0, pattern),
    ] {
        match answer {
            Ok(()) => println!(rt; "{pattern} is taken")?,
            Err(e) => {
                let number = e.number();
                println!(rt; "{pattern} is refused: {number}")?;
            }
        }
    }
    Ok(())
}

// How many bytes of a buffer are not 170.
fn written(buffer: &[u8]) -> usize {
    buffer.iter().filter(|b| **b != 170).count()
}

// Opens a run with a line buffer of 95 bytes, which is refused, and then with one of 96.
fn check_opening<'a>(rt: &HostRuntime, tape: &'a [u8]) -> io::Result<Option<OpenedRun<'a>>> {
    let mut short = [170u8; 95];
    let mut enough = [170u8; 96];
    let Ok(fresh) = FreshRun::new(tape) else {
        return Ok(None);
    };
    let Err(NoRoom { run, refusal }) = fresh.open(&mut short) else {
        return Ok(None);
    };
    let number = refusal.number();
    let touched = written(&short);
    println!(rt; "opening with 95 bytes: {number}, {touched} bytes written")?;
    let Ok((AfterRecord::Running(run), line)) = run.open(&mut enough) else {
        return Ok(None);
    };
    let touched = written(&enough);
    println!(rt; "opening with 96 bytes: a line of {line} bytes, {touched} bytes written")?;
    Ok(Some(run))
}

// The same, taking a record. (One function over both calls, with the call as a closure, was tried: the closure's proof did not close.)
fn check_taking(rt: &HostRuntime, opened: OpenedRun<'_>) -> io::Result<()> {
    let mut short = [170u8; 95];
    let mut enough = [170u8; 96];
    let mut bank = Bank::<Binary16>::new();
    let Err(NoRoom { run, refusal }) = opened.take_record(&mut bank, &mut short) else {
        return Ok(());
    };
    let number = refusal.number();
    let touched = written(&short);
    println!(rt; "taking with 95 bytes: {number}, {touched} bytes written")?;
    let Ok((AfterRecord::Ended(run), line)) = run.take_record(&mut bank, &mut enough) else {
        return Ok(());
    };
    let records = run.records();
    let touched = written(&enough);
    println!(rt;
        "taking with 96 bytes: a line of {line} bytes, {touched} bytes written, the last of {records}"
    )
}

// Takes the record behind the first one with its line as a value.
fn check_line(rt: &HostRuntime, tape: &[u8]) -> io::Result<()> {
    let Ok(fresh) = FreshRun::new(tape) else {
        return Ok(());
    };
    let (AfterRecord::Running(run), _) = fresh.first_line() else {
        return Ok(());
    };
    let (_, line) = run.next_line(&mut Bank::<Binary16>::new());
    rt.stdout().write_all(line.as_bytes())
}

// Writes the line of a tape that is too long into a line buffer of 95 bytes, which is refused, and then into one of 96.
fn check_refusing(rt: &HostRuntime, tape: &[u8]) -> io::Result<()> {
    let mut short = [170u8; 95];
    let mut enough = [170u8; 96];
    let Err(refusal) = FreshRun::new(tape) else {
        return Ok(());
    };
    let refused = Refused { number: 0, refusal };
    let Err(no_room) = refused.write(&mut short) else {
        return Ok(());
    };
    let number = no_room.number();
    let touched = written(&short);
    println!(rt; "refusing with 95 bytes: {number}, {touched} bytes written")?;
    let Ok(line) = refused.write(&mut enough) else {
        return Ok(());
    };
    let touched = written(&enough);
    println!(rt; "refusing with 96 bytes: a line of {line} bytes, {touched} bytes written")
}

// A caller's own answer with a run in it: the run behind its first record and the length of that record's line, or none where the first
// record is refused.
fn opened_of<'a>(
    tape: &'a [u8],
    buffer: &mut [u8],
) -> Result<Option<(OpenedRun<'a>, usize)>, Refusal> {
    let fresh = FreshRun::new(tape)?;
    let opening = fresh.open(buffer);
    match opening {
        Ok((AfterRecord::Running(run), line)) => Ok(Some((run, line))),
        Ok((AfterRecord::Ended(_), _)) => Ok(None),
        Err(no_room) => Err(no_room.refusal),
    }
}

// Opens a run and takes a record, without room for its line and then with it. Here, in check_record and in check_format an answer is kept in
// a variable and then taken apart by one pattern, as callers may do it.
fn check_kept(rt: &HostRuntime, tape: &[u8]) -> io::Result<()> {
    let mut buffer = [170u8; 96];
    let mut bank = Bank::<Binary16>::new();
    let opened = opened_of(tape, &mut buffer);
    let (run, line) = match opened {
        Ok(Some((run, line))) => (run, line),
        Ok(None) => return println!(rt; "not opened"),
        Err(e) => {
            let number = e.number();
            return println!(rt; "no run: {number}");
        }
    };
    println!(rt; "opened by a line of {line} bytes")?;
    let untaken = run.take_record(&mut bank, &mut [170u8; 95]);
    let Err(NoRoom { run, refusal }) = untaken else {
        return println!(rt; "taken without room");
    };
    let number = refusal.number();
    println!(rt; "no room: {number}")?;
    let taken = run.take_record(&mut bank, &mut buffer);
    match taken {
        Ok((AfterRecord::Running(_), line)) => println!(rt; "taken with a line of {line} bytes"),
        Ok((AfterRecord::Ended(ended), line)) => {
            let records = ended.records();
            println!(rt; "ended with a line of {line} bytes, the last of {records}")
        }
        Err(_) => println!(rt; "no room"),
    }
}

// What the record at the front of some bytes asks for.
fn check_record(rt: &HostRuntime, bytes: &[u8]) -> io::Result<()> {
    let Ok(frame) = Frame::first(bytes) else {
        return println!(rt; "no whole record");
    };
    let record = records::read_record::<Binary16>(frame);
    match record {
        Ok(Record::Load { place, re, im }) => {
            let re = re.number();
            let im = im.number();
            println!(rt; "a load of {re} and {im} into {place}")
        }
        Ok(Record::Show { place }) => println!(rt; "a show of {place}"),
        Ok(Record::Note { text }) => {
            let bytes = text.bytes.len();
            println!(rt; "a note of {bytes} bytes")
        }
        Ok(Record::End) => println!(rt; "an end"),
        Err(e) => {
            let number = e.number();
            println!(rt; "refused: {number}")
        }
    }
}

// The format that the record at the front of some bytes names, if it is an opening record, and the bytes behind it.
fn named_format(bytes: &[u8]) -> Result<Option<(Format, &[u8])>, RecordFault> {
    let frame = Frame::first(bytes)?;
    let Ok(codes) = records::read_opening(frame) else {
        return Ok(None);
    };
    let format = Format::of_code(u8::from(codes.format));
    Ok(Some((format, &bytes[4 + frame.payload.len()..])))
}

// What a format's name says of its patterns.
fn check_format(rt: &HostRuntime, bytes: &[u8]) -> io::Result<()> {
    let named = named_format(bytes);
    match named {
        Ok(Some((format, behind))) => {
            let width = format.width;
            let left = behind.len();
            println!(rt; "patterns of {width} bits, {left} bytes behind")
        }
        Ok(None) => println!(rt; "no format"),
        Err(e) => {
            let number = e.number();
            println!(rt; "no whole record: {number}")
        }
    }
}

// Called at what is Send and Sync. (It has nothing to do: that it is called at a type is the check.)
fn may_cross<T: Send + Sync>(_value: &T) {}

// Whatever the format, numbers are, and what is made of them.
fn check_crossing<F: NamedFormat>() {
    let zero = Number::<F>::zero();
    may_cross(&zero);
    may_cross(&Term::from(zero));
    may_cross(&Complex { re: zero, im: zero });
    may_cross(&Bank::<F>::new());
}

fn main(rt: HostRuntime) -> io::Result<()> {
    check_crossing::<Binary16>();
    check_crossing::<Bfloat16>();
    check_crossing::<Binary32>();
    for name in [
        "first",
        "empty",
        "cut_header",
        "cut_payload",
        "not_opened",
        "first_unknown",
        "opening_length",
        "format_code",
        "method_code",
        "method_kahan",
        "method_fused",
        "method_five",
        "open_twice",
        "unknown_kinds",
        "lengths",
        "lengths_binary32",
        "places",
        "notes",
        "behind_end",
        "no_end",
        "replaced",
        "real_first",
        "patterns_binary16",
        "patterns_bfloat16",
        "patterns_binary32",
        "cut_first",
        "cut_codes",
        "cut_unknown",
        "opening_length_codes",
        "opening_without_codes",
        "format_zero",
        "not_opened_length",
        "lengths_first",
    ] {
        check_tape(&rt, name)?;
    }
    check_length(&rt, &[])?;
    check_length(&rt, &[0])?;
    check_many(&rt)?;
    check_too_wide(&rt, 0x1_0000)?;
    check_too_wide(&rt, 0xFFFF_FFFF)?;
    match check_opening(&rt, &[2, 0, 1, 0, 1, 1, 0, 0, 8, 0])? {
        Some(opened) => check_taking(&rt, opened)?,
        None => println!(rt; "not opened")?,
    }
    check_refusing(&rt, &[0u8; 65537])?;
    check_line(&rt, &[2, 0, 1, 0, 1, 1, 0, 0, 8, 0])?;
    check_kept(&rt, &[2, 0, 1, 0, 1, 1, 1, 0, 6, 0, 3])?;
    check_kept(&rt, &[2, 0, 1, 0, 1, 1, 0, 0, 8, 0])?;
    check_kept(&rt, &[0, 0, 8, 0])?;
    check_kept(&rt, &[0u8; 65537])?;
    check_record(&rt, &[5, 0, 2, 0, 3, 0, 0x3C, 1, 0x3C])?;
    check_record(&rt, &[1, 0, 6, 0, 3])?;
    check_record(&rt, &[2, 0, 7, 0, 65, 66])?;
    check_record(&rt, &[0, 0, 8, 0])?;
    check_record(&rt, &[0, 0, 3, 0])?;
    check_record(&rt, &[0, 0, 3])?;
    check_format(&rt, &[2, 0, 1, 0, 3, 1, 0, 0, 8, 0])?;
    check_format(&rt, &[0, 0, 8, 0])?;
    check_format(&rt, &[2, 0, 1])
}
