// The fabric's table for three counts, in a lent buffer. The call takes all inputs, refuses by document 01's numbers in its order, and on a
// refusal changes no buffer.
#![tactic(auto)]

mod block;
mod writing;

pub use writing::write_fabric;
