// A line as it is put together: a text that grows at its end.
ghost use Rattle.std.specs.Prelude.{◌≡◌, ◌+◌, ◌/◌, ◌<◌, ◌≤◌, [], ◌∷◌, ◌++◌, length, decimal};
ghost use Rattle.run.specs.Lines.{start, field, text_field, newline, pattern_digits};
ghost use Rattle.run.specs.Text.{Wrote, hex_digit, hexadecimal};

use arith::NamedFormat;
use arrayvec::ArrayVec;
use records::NoteText;
use std::marker::Model;

// No line has more than 96 bytes. What is put in is not printed by write!, which does not promise that it succeeds where there is room.
#[derive(Drop)]
pub struct Line {
    text: ArrayVec<u8, 96>,
}

impl Model for Line {
    ghost use Rattle.std.specs.Prelude.{ℕ, List};

    ghost Value = { List ℕ };

    ghost view = { λ l. l.text.items };
}

// By hand, for the reason given at Line.
fn hex_digit(d: u8) -> u8
    requires { d < 16 }
    ensures { result ≡ hex_digit d }
{
    b"0123456789ABCDEF"[d as usize]
}

impl Line {
    // A line with no text yet.
    pub fn new() -> Line
        ensures { result ≡ [] }
    {
        Line {
            text: ArrayVec::new(),
        }
    }

    // Begins the line anew, with the record's number and a word.
    pub(crate) fn start(&mut self, number: u32, word: &str)
        requires { length word.now ≤ 4 }
        ensures text { self.new ≡ start number word.now }
        ensures short { length self.new ≤ 15 }
    {
        self.text.clear();
        self.push_decimal(number);
        self.push(b' ');
        self.push_bytes(word.as_bytes());
    }

    // Each of the writers asks for room for what it puts in. No type says it, since each needs another number of bytes.
    fn push(&mut self, byte: u8)
        requires { length self.old + 1 ≤ 96 }
        ensures { self.new ≡ self.old ++ byte ∷ [] }
    {
        self.text.push(byte);
    }

    fn push_bytes(&mut self, bytes: &[u8])
        requires { length self.old + length bytes.now ≤ 96 }
        ensures { self.new ≡ self.old ++ bytes.now }
    {
        self.text.try_extend_from_slice(bytes).unwrap();
    }

    // The same for a few bytes, each put in by itself: a copy of a length that is known only at run time takes longer.
    fn push_few(&mut self, bytes: &[u8])
        requires { length self.old + length bytes.now ≤ 96 }
        ensures { self.new ≡ self.old ++ bytes.now }
    {
        for byte in bytes {
            self.push(*byte);
        }
    }

    // A number in decimal, which has at most ten digits. One digit needs no buffer.
    #[tactic(auto, using(std::proofs::lemmas::Fmt::decimal_digit))]
    fn push_decimal(&mut self, n: u32)
        requires { length self.old + 10 ≤ 96 }
        ensures text { self.new ≡ self.old ++ decimal n }
        ensures short { length self.new ≤ length self.old + 10 }
    {
        if n < 10 {
            return self.push(b'0' + n as u8);
        }
        let mut digits = itoa::Buffer::new();
        self.push_few(digits.format(n).as_bytes());
    }

    // The last digits of a number in hexadecimal with capital letters, as many as the width: a recursion, as their definition is.
    fn push_hexadecimal(&mut self, width: usize, n: u32)
        requires { length self.old + width ≤ 96 }
        ensures text { self.new ≡ self.old ++ hexadecimal width n }
        ensures long { length self.new ≡ length self.old + width }
    {
        if width > 0 {
            self.push_hexadecimal(width - 1, n / 16);
            self.push(hex_digit((n % 16) as u8));
        }
    }

    // A number, with a space in front.
    pub(crate) fn push_number(&mut self, n: u32)
        requires { length self.old + 11 ≤ 96 }
        ensures text { self.new ≡ self.old ++ field (decimal n) }
        ensures short { length self.new ≤ length self.old + 11 }
    {
        self.push(b' ');
        self.push_decimal(n);
    }

    // A pattern of the format F, with a space in front.
    pub(crate) fn push_pattern<F: NamedFormat>(&mut self, pattern: u32)
        requires { length self.old + 9 ≤ 96 }
        ensures text { self.new ≡ self.old ++ field (hexadecimal (pattern_digits F.format) pattern) }
        ensures short { length self.new ≤ length self.old + 9 }
    {
        self.push(b' ');
        self.push_hexadecimal(F::format().width as usize / 4, pattern);
    }

    // A note's text with a space in front, or nothing where there is no text.
    pub(crate) fn push_text(&mut self, text: NoteText<'_>)
        requires room { length self.old + 65 ≤ 96 }
        requires fits { length text.bytes.now ≤ 64 }
        ensures text { self.new ≡ self.old ++ text_field text.entry.bytes.now }
        ensures short { length self.new ≤ length self.old + 65 }
    {
        if !text.bytes.is_empty() {
            self.push(b' ');
            self.push_bytes(text.bytes);
        }
    }

    // Ends the line.
    pub(crate) fn end(&mut self)
        requires { length self.old + 1 ≤ 96 }
        ensures { self.new ≡ self.old ++ newline }
    {
        self.push(b'\n');
    }

    // The text of the line.
    pub fn as_bytes(&self) -> &[u8]
        ensures text { result.now ≡ self.now }
        ensures short { length result.now ≤ 96 }
    {
        self.text.as_slice()
    }

    // Copies the line into a buffer; how many bytes it has.
    pub(crate) fn write(&self, buffer: &mut [u8]) -> usize
        requires { 96 ≤ length buffer.old }
        ensures { Wrote buffer.old buffer.new result self.now }
    {
        let text = self.as_bytes();
        let n = text.len();
        buffer[..n].copy_from_slice(text);
        n
    }
}
