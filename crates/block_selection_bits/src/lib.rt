// Programming the selection network S. Every call takes all inputs, refuses by document 01's numbers in its order, and on a refusal changes
// no buffer.
#![tactic(auto)]

mod copies;
mod counting;
mod positions;
mod program;
mod programming;

pub use programming::{program_selection, program_selection_at};
