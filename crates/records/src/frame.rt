// A record as it lies on the tape: four leading bytes, and then its payload.
ghost use Rattle.std.specs.Prelude.{◌≡◌, ◌+◌, ◌≤◌, length, IfOk};
ghost use Rattle.records.specs.Frames.{front, framed, Part};

use crate::fault::RecordFault;

// The code of the kind, which may be unknown, and the payload as a part of the tape.
#[derive(Clone, Copy, Debug, PartialEq, Eq)]
pub struct Frame<'a> {
    pub kind: u16,
    pub payload: &'a [u8],
}

impl<'a> Frame<'a> {
    // The record at the front of the bytes that are left. It begins with two numbers, each with its low byte first:
    // the payload's length and the kind.
    pub fn first(left: &'a [u8]) -> Result<Self, RecordFault>
        ensures front { framed result ≡ front left.now }
        ensures within { IfOk result (λ f. 4 + length f.payload.now ≤ length left.now) }
        ensures part_of_tape { IfOk result (λ f. Part left.entry f.payload 4 (length f.payload.now)) }
    {
        let [l0, l1, k0, k1, behind @ ..] = left else {
            return Err(RecordFault::MissingPart);
        };
        let size = u16::from_le_bytes([*l0, *l1]) as usize;
        // no method of the library that tests and cuts says where the part lies
        if size > behind.len() {
            return Err(RecordFault::MissingPart);
        }
        Ok(Frame {
            kind: u16::from_le_bytes([*k0, *k1]),
            payload: &behind[..size],
        })
    }
}
