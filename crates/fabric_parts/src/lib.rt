// The parts of a fabric in lent buffers: U's elements besides its selection block, and the selection blocks. Every call takes all inputs: what does
// not fit is not stored, and a block that S refuses changes nothing.
#![tactic(auto)]

mod selections;
mod universal;

pub use selections::{put_outputs, write_selection_on};
pub use universal::{write_gate, write_mix};
