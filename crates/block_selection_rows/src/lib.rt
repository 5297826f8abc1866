// Writing the selection network S: its rows and its output wires into lent buffers, through P's public call. The call takes all inputs,
// refuses by document 01's numbers in its order, and on a refusal changes no buffer.
#![tactic(auto)]

mod block;
mod writing;

pub use writing::write_selection;
