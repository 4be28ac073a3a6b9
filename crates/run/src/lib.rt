// The run over a tape: its states, the records that it takes, and the line that each record gives.
// Read states.rt and take.rt, beside specs/Lines.antt, which has the lines, and specs/States.antt, which says where each call leads.
#![tactic(auto)]

mod line;
mod lines;
mod refusal;
mod reply;
mod states;
mod take;

pub use line::Line;
pub use refusal::{Refusal, Refused};
pub use states::{AfterRecord, EndedRun, FreshRun, NoRoom, OpenedRun};
