// Plays the tape on standard input: prints one line for each record.
#![tactic(auto)]

use std::io;
use std::io::{Read, Write};

// The longest tape that is played, and one byte more, by which a longer one is noticed.
const ENOUGH: u64 = 65537;

fn main(rt: HostRuntime) -> io::Result<()> {
    let mut tape = Vec::new(rt.alloc());
    let _ = rt.stdin().take(ENOUGH).read_to_end(&mut tape)?;
    let mut lines = Vec::new(rt.alloc());
    tape::print_tape(tape.as_slice(), &mut lines)?;
    rt.stdout().write_all(lines.as_slice())
}
