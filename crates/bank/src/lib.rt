// A bank of sixteen places that hold complex numbers of one format. So far it loads numbers and shows them again.
// Read store.rt beside specs/Calls.antt, which says what each call answers and what the places hold after it. rows.rt has the
// worked examples of the definitions.
#![tactic(auto)]

mod fault;
mod place;
mod rows;
mod store;

pub use fault::Fault;
pub use rows::worked_rows;
pub use store::{Bank, Shown};
