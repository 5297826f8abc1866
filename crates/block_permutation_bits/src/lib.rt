// Programming the permutation network P: the bits that bring each output the input it wants. The calls take all inputs, refuse by document
// 01's numbers in its order, and on a refusal change no buffer.
#![tactic(auto)]

mod block;
mod four;
mod level;
mod mapping;
mod marking;
mod programming;

pub use programming::{program_permutation, program_permutation_at};
