// The checks of writing P and S, in document 01's order. They take all inputs and touch no buffer.
#![tactic(auto)]

mod permutation;
mod selection;
mod wires;

pub use permutation::check_permutation_write;
pub use selection::check_selection_write;
