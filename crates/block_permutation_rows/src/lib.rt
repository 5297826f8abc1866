// Writing the permutation network P: its rows into a lent table, its output wires into a second buffer. The call takes all inputs, refuses by
// document 01's numbers in its order, and on a refusal changes no buffer.
#![tactic(auto)]

mod level;
mod switches;
mod writing;

pub use writing::write_permutation;
