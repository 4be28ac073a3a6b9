// What records ask for. Patterns and texts are parts of the tape.
ghost use Rattle.std.specs.Prelude.{◌≡◌, ◌≤◌, length, take};
ghost use Rattle.records.specs.Bytes.{little_endian};

// The first four bytes, or all if there are fewer, as a number with its low byte first.
pub fn little_endian(bytes: &[u8]) -> u32
    ensures { result ≡ little_endian (take 4 bytes.now) }
{
    let n = bytes.len().min(4);
    let mut padded = [0; 4];
    padded[..n].copy_from_slice(&bytes[..n]);
    u32::from_le_bytes(padded)
}

// The bytes of a pattern; read_record says of each that it gives that they are at most four.
#[derive(Clone, Copy, Debug, PartialEq, Eq)]
pub struct Pattern<'a> {
    pub bytes: &'a [u8],
}

impl Pattern<'_> {
    // The first four bytes, or all if there are fewer, as a number with its low byte first.
    pub fn number(self) -> u32
        ensures front { result ≡ little_endian (take 4 self.entry.bytes.now) }
        ensures all { length self.entry.bytes.now ≤ 4 → result ≡ little_endian self.entry.bytes.now }
    {
        little_endian(self.bytes)
    }
}

// A note's text; read_record says of each that it gives that it has at most 64 bytes, each of them printable. It is no &str, since none
// that is made of bytes says where it lies.
#[derive(Clone, Copy, Debug, PartialEq, Eq)]
pub struct NoteText<'a> {
    pub bytes: &'a [u8],
}

// What a record behind the opening one asks for.
#[derive(Clone, Copy, Debug, PartialEq, Eq)]
pub enum Record<'a> {
    Load {
        place: u8,
        re: Pattern<'a>,
        im: Pattern<'a>,
    },
    Show {
        place: u8,
    },
    Note {
        text: NoteText<'a>,
    },
    End,
}
