// A whole tape in one call: all its lines.
// Read print.rt beside specs/Printed.antt, which says what is printed, and specs/Reading.antt, which has the laws over whole tapes.
#![tactic(auto)]

mod print;

pub use print::print_tape;
